//! What operators, calls and CASE make of operands whose names are bound, and how a condition is split at its ANDs.
//!
//! Each function gives what the definition of its name in the library sql_bound says (specs/Operands.antt and Expressions.antt
//! there). Operands are taken by value, since their trees are moved. Begin with `binary_of`.
#![tactic(auto)]

mod aggregates;
mod calls;
mod cases;
mod collations;
mod conditions;
mod leaves;
mod lists;
mod members;
mod operators;

pub use aggregates::{aggregate_of, slot_operand};
pub use calls::{call_of, host_call_of};
pub use cases::case_of;
pub use collations::{collation_of, collation_of_arguments, collation_of_result, sides_of};
pub use conditions::conjuncts;
pub use leaves::{collated, column_operand, literal_operand, own_column, plain};
pub use lists::trees_of;
pub use members::{in_of, in_query_of};
pub use operators::{between_of, binary_of, cast_of, compared, like_of, unary_of};
