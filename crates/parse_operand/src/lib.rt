//! Parsing the operands of expressions: literals, names, calls, CASE, CAST, RAISE, and what stands in parentheses.
//!
//! `Operands` has a method for each rule of the grammar (sql_grammar) up to a primary, which gives what the rule reads
//! (parse_cursor/specs/Gives.antt). Expressions and queries stand in brackets again, so how they are parsed is handed in (`inner` and `query`),
//! with one nesting less: parse_query ties the knot. Trees are passed on in boxes, which are moved and dropped as one pointer, whatever they
//! hold. Begin with src/primaries.rt.
#![tactic(auto)]

mod calls;
mod cases;
mod operands;
mod primaries;
mod subqueries;

pub use calls::sees_expr;
pub use operands::Operands;
pub use subqueries::sees_query;
