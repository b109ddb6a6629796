//! A map from byte strings to byte strings, in memory.
//!
//! Contracts see a `Tree` as its pairs in the order of their keys, each key once, and as its room: how many pairs fit in the
//! memory that it holds. Keys are ordered byte by byte, and a key stands behind its own prefixes. What takes memory says so by
//! an `AllocError`, and leaves the map as it was where it fails; `remove` takes none, and the room never falls, so what was
//! taken out can always be put back. Begin with `Tree::insert`. The module `undoing` has what a change and its undoing leave.
#![tactic(auto)]

mod bytes;
mod entry;
mod search;
mod tree;
pub mod undoing;

pub use bytes::Bytes;
pub use tree::Tree;
