//! What the name of a call stands for, whether it may be called so, and whether an aggregate stands in an expression.
//!
//! `callee_of` finds what a name stands for, as plain data (`Called`) that stands for a callee of the library sql_bound
//! (specs/Meant.antt); the other functions give what the definitions of their names there say (specs/Callees.antt and
//! Expressions.antt). Begin with `Called`.
#![tactic(auto)]

mod called;
mod callees;
mod checks;
mod holds;
mod hosts;

pub use called::{AggregateCount, Called, CalledAggregate};
pub use callees::callee_of;
pub use checks::{if_allowed, may_aggregate, may_call, may_call_host, without_filter};
pub use holds::holds_aggregate;
pub use hosts::collation_called;
