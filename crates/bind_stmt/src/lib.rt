//! Statements that run: what of them is built, and what runs of what their names are bound to.
//!
//! `bind` gives what the definitions of the library sql_meaning give (`plain_bound` of specs/Statement.antt there) where no authorizer
//! is asked, with tables by their numbers: names are bound by the library binder, and specs/Running.antt says what runs of that. An INSERT
//! of rows of literals into a table without constraints, the most frequent statement, is bound at once (src/plain_rows.rt), with few
//! allocations. `bind_names` and `runnable` are its two steps, between which an authorizer may be asked. Begin with `bind`.
#![tactic(auto)]

mod built;
mod built_expressions;
mod creating;
mod keys;
mod plain_rows;
mod putting;
mod querying;
mod statement;
mod tables;

pub use creating::{NewIndex, NewTable};
pub use statement::{Bound, DroppedTable, bind, bind_names, runnable};
