//! The lines of a table of statements with what they are bound to: a tool of tests.
//!
//! `outcomes` takes the lines in turn. An empty line and one that begins with `--` are copied. One that begins with `.` sets the scene and
//! is copied, too: `.new`, `.function NAME ARITY [asks]`, `.aggregate NAME ARITY`, `.collation NAME`,
//! `.module NAME [eponymous] [writable]`, `.told MODULE TABLE COLUMN[:TYPE]:KIND ..`, `.savepoint NAME`, `.recursive_triggers`,
//! `.ignore TABLE COLUMN [WITHIN]`, `.actions`, `.bound`. Any other line is a statement, which is bound over the scene: below it stands the
//! message of its refusal or what it is bound to, as bound_print prints it. What it creates or drops the lines below it see. Nothing runs.
//!
//! From `.actions` on, until `.bound` or `.new`, what an authorizer is asked about a statement stands below it instead, one action a line.
//! From `.ignore` on, until `.new`, an authorizer ignores this read, that in the view or trigger WITHIN if it is named: what is bound has
//! the marks of such columns.
#![tactic(auto)]

mod actions;
mod binding;
mod facts;
mod ignored;
mod lines;
mod scene;

pub use lines::outcomes;
