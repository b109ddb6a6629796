//! Whether a parameter stands in a tree, as none may in what a CREATE keeps.
//!
//! `query_has_parameter` and `trigger_has_parameter` are the words of specs/Parameters.antt of sql_bound: they walk the whole tree, with
//! all queries in it.
#![tactic(auto)]

mod expressions;
mod queries;
mod triggers;

pub use queries::query_has_parameter;
pub use triggers::trigger_has_parameter;
