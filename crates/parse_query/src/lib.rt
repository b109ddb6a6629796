//! Parsing queries, and expressions with the queries in them.
//!
//! `expr` and `query` parse as far as an expression or a query goes, and give what its rule of the grammar (sql_grammar) reads: the tree, or
//! that the next token cannot stand there or passes a limit (parse_cursor/specs/Gives.antt).
//!
//! Each rule of queries is a method of `Queries`: `select` up to a part, `compounds`, `ordering` and `with` up to a whole query. Expressions
//! are parse_expr's; results, FROM and WHERE parse_clause's. Behind an opening token expressions and queries call each other with one
//! nesting less, which `parsing` ties. Begin with src/parsing.rt.
#![tactic(auto)]

mod compounds;
mod ordering;
mod parsing;
mod queries;
mod select;
mod with;

pub use parsing::{MAX_OPEN, expr, filter_by, query};
