//! That what a statement means names only what is there: a law about the definitions of the libraries sql_bound and sql_meaning, and nothing
//! that runs.
//!
//! specs/Names.antt says which items an expression names, and specs/Runs.antt when what runs of a statement names only those that there are.
#![tactic(auto)]

mod laws;

pub use laws::{
    a_query_names_columns_that_are_there, a_runnable_names_what_is_there,
    what_is_within_names_items_below, what_reads_stored_rows_names_no_other_items,
};
