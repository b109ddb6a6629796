//! The catalog: what was created, by its names.
//!
//! Contracts see a `Catalog` as two lists of entries, oldest first: one of tables, module tables, indexes and views, and one of
//! triggers. Its calls are proved to be the words on such lists in specs/Entries.antt of eng_entry: `find` gives the entry of a
//! name, `add` puts one behind the others, `drop_name` takes one out. Beside it stands `Names`, which tells what a statement may
//! name and no entry says: functions, collations, modules, savepoints. Begin with `Catalog`.
#![tactic(auto)]

mod catalog;
mod entry_map;
mod names;
mod plain_names;

pub use catalog::Catalog;
pub use eng_entry::{Entry, EntryKind, Space};
pub use names::{Names, NamesErr};
pub use plain_names::{PlainModule, PlainNames};
