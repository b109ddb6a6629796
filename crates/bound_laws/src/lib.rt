//! That what is bound names only what is there, and that a view is bound as its query in brackets: laws about the definition of the
//! library sql_bound, and nothing that runs.
//!
//! specs/Reach.antt says when a bound expression names what is there, specs/Order.antt when a query does and when units stand in order,
//! specs/Writes.antt when writes, triggers and statements do, and specs/Views.antt what a view's use stands beside.
#![tactic(auto)]

mod laws;

pub use laws::{
    a_query_names_what_is_there, a_statement_names_what_is_there, a_view_is_its_query_in_brackets,
    an_empty_from_beyond_changes_nothing,
};
