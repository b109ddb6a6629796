//! The bytecode of statements that write.
//!
//! `compile_insert`, `compile_create`, `compile_drop` and `compile_index` write the programs of INSERT, CREATE TABLE, DROP TABLE and CREATE
//! INDEX, and `compile_nothing` that of a statement that does nothing; their contracts, `Performs`, say that from every world a run of the
//! program does what specs/Writes.antt says: the source of an INSERT is evaluated whole, and where it is bad nothing is changed; else one
//! row after another is made of its values and of defaults, stored by the columns' affinities, given its rowid, tested and put, as the
//! definition says. Where a row fails the rows in front of it stay, and who runs the program takes them back. Begin with `compile_insert`,
//! then `keep_rows` and `put_row`.
#![tactic(auto)]

mod creating;
mod dropping;
mod holding;
mod indexing;
mod inserting;
mod laws;
mod nothing;
mod refusing;
mod rowids;
mod rows;
mod source;
mod tests;

pub use creating::compile_create;
pub use dropping::compile_drop;
pub use indexing::compile_index;
pub use inserting::compile_insert;
pub use laws::{an_insert_takes_few_steps, literals_are_loaded_where_they_are_put};
pub use nothing::compile_nothing;
