//! The aggregates that are built in (Built-in Aggregate Functions), as the machine calls them: row by row.
//!
//! What an aggregate gives for a group is defined over the list of the group's rows (specs/Aggregates.antt). An `Accumulator` holds what
//! is needed of the rows so far, and no row: a count, an exact sum, the best value or the text (specs/Accumulators.antt, `after`).
//! Whoever calls it leaves out the rows that FILTER leaves out, rows whose arguments are bad, and with DISTINCT those whose argument was
//! there before. Begin with `Accumulator`.
#![tactic(auto)]

mod accumulator;
mod aggregate;
mod arguments;
mod best;
mod joining;
mod summing;

pub use accumulator::Accumulator;
pub use aggregate::Aggregate;
