//! Parsing expressions.
//!
//! Rules of the grammar (sql_grammar) are methods of `Levels`, which give what their rule reads (parse_cursor/specs/Gives.antt): an operand, and
//! then a loop over the operators that may stand behind it. `logic`, `predicates` and `operators` have them from OR to the signs; the levels of
//! binary operators below the tests share `operand` and `behind`, with the number of a level. Operands are parse_operand's. `expr` parses as far as
//! an expression goes. Where a first token may begin something else, `two_steps` parses an expression behind an operand that was parsed already
//! (`tails`), or one that begins with no name (`other_expr`).
//! Inner expressions and queries are handed in: parse_query ties the knot. Begin with src/logic.rt.
#![tactic(auto)]

mod logic;
mod operators;
mod precedence;
mod predicates;
mod two_steps;

pub use precedence::Levels;
