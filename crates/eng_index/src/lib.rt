//! Indexes: trees that find the rows of a table by what their columns hold.
//!
//! A key has terms, each a column or the rowid with a collation and a direction (`KeyTerm`), and a search asks for a `Range` of it: values
//! in the first terms, and limits in the next one. What a search finds is a filter of the table's rows, which knows no index (`found` in
//! specs/Keys.antt). An `Index` keeps an entry for each row in a tree, under the bytes of the row's values by the terms and of its rowid,
//! so that the entries of a range lie between two keys. Contracts see its terms and the pairs of that tree; of which rows it is the index
//! is `IsIndexOf` (specs/Stored.antt), and each call says for all rows of which it is: where a row more makes it the index of those, and
//! one less of these, and that `search` finds what the filter leaves. `Bounds` say of which values a range is made, some of which may be
//! bad (`range_of` in specs/Searching.antt). `Entries` gathers the entries of rows that are there already, and
//! makes an index of them at once. Begin with `Index::search`.
#![tactic(auto)]

mod doubles;
mod entries;
mod entry_keys;
mod fronts;
mod index;
pub mod key_term;
pub mod range;
mod walking;

pub use entries::Entries;
pub use index::Index;
pub use key_term::{KeyTerm, TermSource};
pub use range::{Bounds, Edge, Limit, Range};
