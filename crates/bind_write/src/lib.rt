//! INSERT, UPDATE and DELETE with their names bound, and the triggers that they can fire (INSERT; UPDATE; DELETE; CREATE TRIGGER).
//!
//! `bind_insert`, `bind_update` and `bind_delete` are the whole: each is equal to `write_bound` of sql_bound's specs/Writes.antt over what
//! the statement has opened so far. Triggers are opened in a cycle of functions whose measure is how many are not opened yet.
#![tactic(auto)]

mod constraints;
mod firing;
mod scoped;
mod targets;
mod writes;

pub use constraints::{IN_CHECK, IN_DEFAULT, bind_constraint, bind_default};
pub use firing::{bind_delete, bind_insert, bind_update};
pub use targets::{bind_rows, bind_target};
