//! Expressions and queries with their names bound (SELECT; SQL Language Expressions).
//!
//! `bind` and `bind_query` are equal to the definition of the library sql_bound: an expression and a query over the FROMs around them, the
//! WITH tables that are seen, and what has been gathered so far. Where they stand says `Scope`. They are one cycle, since queries stand in
//! expressions and expressions in queries; calls that stand too deep in one another (`STEPS`) are want of memory.
#![tactic(auto)]

mod asking;
mod binding;
mod calls;
mod dotted;
mod froms;
mod fuel;
mod keys;
mod leaves;
mod levels;
mod naming;
mod orders;
mod parts;
mod queries;
mod recursions;
mod results;
mod scope;
mod selects;
mod tables;
mod words;

pub use binding::bind;
pub use fuel::STEPS;
pub use levels::with_level;
pub use queries::bind_query;
pub use scope::{IN_STATEMENT, Scope};
pub use selects::bind_filter;
