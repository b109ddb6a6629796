//! A cursor over the pairs of a tree, in the order of their keys.
//!
//! Contracts see a `Cursor` as a place in the tree's list of pairs, or none where it is on no row (specs/Places.antt). A cursor holds no
//! tree: each call is given one, and says where the cursor stands in that tree's list. So it is on the pair that it was moved to as long
//! as the tree is that of its last move; whoever changes the tree in between seeks anew, by a key of his own. The moves take no memory,
//! and a step takes constant time. Begin with `Cursor::seek`; the module `laws` says what walks visit.
#![tactic(auto)]

mod cursor;
mod laws;

pub use cursor::{Cursor, End, How};
pub use laws::{prev_undoes_next, seeks_as_the_map, walks_in_order};
