//! The words of SQL and what they stand for, before any statement is bound: names, literals, the affinities of types, the names of
//! functions and of collations, and which text is a statement's. Definitions in specs/, to be read in the order of specs/Lib.antt,
//! and the plain types that they speak of.
#![tactic(auto)]

mod builtins;
mod literal;

pub use builtins::{ArgumentCount, BUILTINS};
pub use literal::Literal;
