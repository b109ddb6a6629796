//! How large what is bound is, beside the tree that it is bound from: laws about the definition of the library sql_bound, and nothing that
//! runs.
//!
//! `nodes_of` (specs/Sizes.antt) counts the nodes of a bound expression. Where no query is asked (`is_plain`, specs/Plain.antt) there are
//! at most twice as many of them as there are nodes of the tree; what queries show beyond that is told by specs/Small.antt, and so is
//! what an INSERT takes from its table.
#![tactic(auto)]

mod laws;

pub use laws::{
    columns_are_nodes, constraints_are_linear, expressions_are_linear, queries_are_linear,
    results_are_linear, rows_are_linear, statements_are_linear,
};
