//! The bytecode of expressions.
//!
//! `emit` writes the code of an expression; its contract, `Leaves`, says that in every program that the code becomes part of it
//! leaves what the expression comes to in a register and keeps the others that are taken, in at most so many instructions
//! (specs/Steps.antt). What an expression comes to says sql_meaning (`value_of`). Operands are evaluated from left to right, each
//! once at most; what is always the same, a parameter and a column take no code as operands, since the instruction that takes them
//! reads them. CASE and coalesce jump past what does not count, AND and OR past a right side that is long where the left one decides,
//! and all other code goes straight on. `emit_truth` leaves the truth of an expression; one that comes to truths by its form needs no
//! instruction for that. Begin with `emit`; specs/Parts.antt says what the parts of its code do.
#![tactic(auto)]

mod emitting;
mod expressions;
mod giving;
mod literals;
mod parts;

pub use expressions::{emit, emit_comparison, emit_tree, emit_truth};
pub use literals::emit_literal;
