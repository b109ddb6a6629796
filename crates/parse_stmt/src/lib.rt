//! Parsing statements.
//!
//! `parse` gives the one tree that the grammar of statements (sql_grammar) derives from all tokens of a text, or else the byte of the
//! first token that cannot stand there or passes a limit. Each list of tokens has one such answer, by the laws of sql_grammar.
//!
//! Each rule of the grammar is a function that gives what the rule reads: `removals` has DROP, `transactions` BEGIN and what goes with
//! it, `pragmas` PRAGMA. Queries are parse_query's; INSERT, UPDATE, DELETE and CREATE are parse_create's. Begin with src/parsing.rt.
#![tactic(auto)]

mod parsing;
mod pragmas;
mod removals;
mod transactions;

pub use parse_cursor::Failure;
pub use parsing::{parse, statement};
