//! Bound statements as lines of text, which show all that a statement holds: a tool of tests.
//!
//! `print_statement` writes a statement's units, its triggers and its command onto a `Page`. Begin reading there; src/exprs.rt has the
//! forms of expressions. What is the default is not printed: the collation BINARY, no affinity, an empty list.
#![tactic(auto)]

mod commands;
mod exprs;
mod items;
mod page;
mod units;
mod words;
mod writes;

pub use commands::print_statement;
pub use page::Page;
