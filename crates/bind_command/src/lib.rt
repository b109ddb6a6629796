//! Statements in which no expression and no query is bound: DROP, transactions and PRAGMA, and of CREATE the name, an index, a view and
//! a table of a module.
//!
//! Each function is the word of sql_bound for it, or its first refusal. `bind_remove`, `bind_transaction` and `bind_pragma` give whole
//! commands; for a CREATE `is_free` comes first, and then what is created.
#![tactic(auto)]

mod creating;
mod dropping;
mod indexes;
mod names;
mod pragmas;
mod transactions;

pub use creating::{creation_of, module_created, nothing_created, view_created, without_parameter};
pub use dropping::bind_remove;
pub use indexes::{index_created, parts_are_there};
pub use names::{is_free, is_reserved, name_of_entry, no_entry, table_called};
pub use pragmas::bind_pragma;
pub use transactions::bind_transaction;
