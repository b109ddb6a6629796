//! The entries of a catalog as plain data: what is kept of each table, view, index and trigger that was created.
//!
//! Names stand in two spaces (specs/Spaces.antt), and the case of ASCII letters does not count in them (specs/Names.antt). To all
//! that read it a catalog is a list of entries for each space, oldest first; specs/Entries.antt says what is found there, added
//! and dropped. The one contract of code is that it tells spaces and names apart as these definitions do. Begin with `Entry`.
#![tactic(auto)]

mod entry;
mod names;

pub use entry::{Entry, EntryKind, Space};
pub use names::is_same_name;
