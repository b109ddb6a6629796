// How many rows there are to find.
use eng_index::{KeyTerm, Range};

/// Tells how many rows of a table a search finds. No contract speaks of what it answers: it only helps to choose.
pub trait Counts {
    /// How many rows of the item in a place of the FROM are within a range of the terms of an index, or of the rowid, if that is known; of no terms
    /// how many there are.
    fn found(&self, item: u32, terms: &[KeyTerm], range: &Range) -> Option<usize>;
}
