//! Parsing the clauses of a SELECT that say what is taken from where: its results, FROM and WHERE.
//!
//! Each rule of the grammar (sql_grammar) is a method of `Clauses`, which gives what the rule reads (parse_cursor/specs/Gives.antt): `results`
//! has the columns of a result with their texts, `from` the tables and queries and how they are joined, `clauses` WHERE and what other
//! clauses share. Expressions are parse_expr's; expressions and queries in brackets are handed in: parse_query ties the knot. Begin with
//! src/clauses.rt.
#![tactic(auto)]

mod clauses;
mod from;
mod results;
mod words;

pub use clauses::Clauses;
