//! Parsing what changes rows and what is created: INSERT, UPDATE, DELETE and CREATE.
//!
//! `row_command` parses a query, INSERT, UPDATE or DELETE, and `create` all of CREATE. Each rule of the grammar (sql_grammar: Writes and
//! Definitions) is a function that gives what the rule reads: `writes` has the rows, `constraints` and `tables` CREATE TABLE, `indexes`
//! CREATE INDEX and CREATE VIEW, `triggers` CREATE TRIGGER, `modules` CREATE VIRTUAL TABLE, and `readers` what lists are read with. Expressions
//! and queries are parse_query's. Only parentheses recurse, within the arguments of a module; all lists are loops. Begin with src/creating.rt.
#![tactic(auto)]

mod constraints;
mod creating;
mod indexes;
mod modules;
mod readers;
mod tables;
mod triggers;
mod writes;

pub use creating::create;
pub use writes::{row_command, sees_row_command};
