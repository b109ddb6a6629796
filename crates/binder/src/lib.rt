//! Statements with their names bound, or the first refusal.
//!
//! `bind` is the whole: it is equal to `bound_of` of sql_bound's specs/Statements.antt over the catalog and what hosts tell.
#![tactic(auto)]

mod statements;

pub use statements::bind;
