//! The tables in memory, with marks to which they can go back.
//!
//! vm_code says what a world of tables is: lists of rows whose rowids ascend. `Tables` keeps each table's rows in a tree, as records
//! under the keys of their rowids, and its contracts speak of the lists: which row is the first, which stands behind another, what a
//! column of it holds, which rows a search finds, and what a world is with a row or a table more, or with a table that lost its rows. It
//! keeps marks, and goes back to the last by `undo`, whatever was changed since. `row_tree` alone knows of the tree (specs/Stored.antt),
//! `indexes` of the indexes of a table's rows, which come and go without a change of any list (specs/Indexes.antt), and `change` how a
//! change is taken back (specs/Changes.antt).
#![tactic(auto)]

mod change;
mod indexes;
mod row_tree;
mod table;
mod tables;

pub use tables::Tables;
