//! FROM, WITH and recursive tables, as far as no expression and no query has to be bound: what a name in FROM stands for once its query
//! is bound, and which query of a WITH table is recursive.
//!
//! Each function is equal to the definition that its contract names (specs of the library sql_bound: Froms, Withs and Recursions; where one of
//! them takes what only a definition can hold, specs/ here says the same of what it holds). Begin with `table_of_with`.
#![tactic(auto)]

mod entries;
mod names;
mod naming;
mod recursions;
mod tables;

pub use entries::{few_arguments, no_arguments, plain_table};
pub use names::{arguments_in, called_by, copied_name, misused, names_of};
pub use naming::{front_of, is_last_all, recursive_core};
pub use recursions::{asked_recursion, named_columns, queue_table, unordered};
pub use tables::{derived_source, in_front, table_of_with, view_source};
