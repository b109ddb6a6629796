// The indexes of a table.
ghost use Rattle.std.specs.Prelude.{◌≡◌, ◌<◌, ◌≤◌, ◌+◌, [], List, None, IfOk, IfSome, MatchOption, ⊤, length, true};
ghost use Rattle.eng_index.specs.Keys.{found, has_doubles};
ghost use Rattle.eng_index.specs.Stored.{put_row, row_under, rowids_of};
ghost use Rattle.eng_value.specs.StoredRows.{StoredRow as MeantRow};
ghost use Rattle.vm_tables.specs.Indexes.{AreIndexesOf, AreInsertedFrom, IsBy};

use crate::row_tree::RowTree;
use eng_index::{Index, KeyTerm, Range};
use eng_value::StoredRow;
use std::alloc::{AllocError, Global};
use std::marker::Model;

/// The indexes of a table, each of which was built when it was first searched. Contracts see the list of them, and say of which rows they are
/// (`AreIndexesOf`).
#[derive(Drop)]
pub(crate) struct Indexes {
    indexes: Vec<Index>,
}

impl Model for Indexes {
    ghost use Rattle.std.specs.Prelude.{List};
    ghost use Rattle.eng_index.specs.Stored.{Indexed};

    ghost Value = { List Indexed };

    ghost view = { λ i. i.indexes.items };
}

impl Indexes {
    /// None yet.
    pub fn none(alloc: Global) -> Indexes
        ensures { result ≡ [] }
    {
        Indexes {
            indexes: Vec::new(alloc),
        }
    }

    /// Drops them all. Takes no memory.
    pub fn clear(&mut self)
        ensures { self.new ≡ [] }
    {
        self.indexes.clear();
    }

    /// Adds the entry of a row, whose rowid no other row has, to each. One that finds no memory for it is dropped: it is built again once it is
    /// searched. So this never fails.
    pub fn insert(&mut self, row: &StoredRow)
        ensures { (rows : List MeantRow) → row_under rows row.now.rowid ≡ None → AreIndexesOf self.old rows → AreIndexesOf self.new (put_row rows row.now) }
    {
        let mut place = self.indexes.len();
        while place > 0 {
            place -= 1;
            insert_at(&mut self.indexes, place, row);
        }
    }

    /// The rowids of the rows of a tree that are within a range, in their order.
    pub fn search(
        &mut self,
        alloc: Global,
        tree: &RowTree,
        terms: &[KeyTerm],
        range: &Range,
    ) -> Result<Vec<i64>, AllocError>
        ensures kept { AreIndexesOf self.old tree.now → AreIndexesOf self.new tree.now }
        ensures found { AreIndexesOf self.old tree.now → IfOk result (λ rowids. rowids.items ≡ rowids_of (found terms.now range.now tree.now)) }
    {
        tree.order();
        let place = self.place(alloc, tree, terms)?;
        self.indexes[place].search(alloc, range)
    }

    /// How many rows are within a range, by the index of these terms. None where there is no such index yet, or memory is wanting.
    pub fn count(&self, alloc: Global, terms: &[KeyTerm], range: &Range) -> Option<usize>
        ensures { (rows : List MeantRow) → AreIndexesOf self.now rows → IfSome result (λ count. count ≡ length (found terms.now range.now rows)) }
    {
        let place = self.position(terms)?;
        match self.indexes[place].count(alloc, range) {
            Ok(count) => Some(count),
            Err(_) => None,
        }
    }

    /// Whether two rows of a tree have the same value in each term, none of them NULL.
    pub fn has_doubles(
        &mut self,
        alloc: Global,
        tree: &RowTree,
        terms: &[KeyTerm],
    ) -> Result<bool, AllocError>
        ensures kept { AreIndexesOf self.old tree.now → AreIndexesOf self.new tree.now }
        ensures doubles { AreIndexesOf self.old tree.now → IfOk result (λ doubles. doubles ≡ has_doubles terms.now tree.now) }
    {
        let place = self.place(alloc, tree, terms)?;
        Ok(self.indexes[place].has_doubles())
    }

    /// The place of the index by these terms, which is built where there is none.
    fn place(
        &mut self,
        alloc: Global,
        tree: &RowTree,
        terms: &[KeyTerm],
    ) -> Result<usize, AllocError>
        ensures kept { AreIndexesOf self.old tree.now → AreIndexesOf self.new tree.now }
        ensures place { IfOk result (λ place. IsBy terms.now self.new place) }
    {
        match self.position(terms) {
            Some(place) => Ok(place),
            None => self.build(alloc, tree, terms),
        }
    }

    /// The place of the index by these terms, if there is one.
    fn position(&self, terms: &[KeyTerm]) -> Option<usize>
        ensures { MatchOption result ⊤ (λ place. IsBy terms.now self.now place) }
    {
        for (place, index) in self.indexes.iter().enumerate() {
            if is_by(index, terms) {
                return Some(place);
            }
        }
        None
    }

    /// Builds an index by these terms, behind the others.
    fn build(
        &mut self,
        alloc: Global,
        tree: &RowTree,
        terms: &[KeyTerm],
    ) -> Result<usize, AllocError>
        ensures kept { AreIndexesOf self.old tree.now → AreIndexesOf self.new tree.now }
        ensures place { IfOk result (λ place. IsBy terms.now self.new place) }
    {
        let place = self.indexes.len();
        let index = tree.indexed(alloc, Vec::from_slice(alloc, terms)?)?;
        self.indexes.push(index)?;
        Ok(place)
    }
}

/// Whether an index is by these terms.
fn is_by(index: &Index, terms: &[KeyTerm]) -> bool
    ensures { result ≡ true → index.now.terms ≡ terms.now }
{
    index.terms() == terms
}

/// Adds the entry of a row to the index at a place, or drops the index, where it finds no memory.
fn insert_at(indexes: &mut Vec<Index>, place: usize, row: &StoredRow)
    requires { place < length indexes.old.items }
    ensures within { place ≤ length indexes.new.items }
    ensures inserted { (rows : List MeantRow) → row_under rows row.now.rowid ≡ None → AreInsertedFrom (place + 1) rows row.now indexes.old.items → AreInsertedFrom place rows row.now indexes.new.items }
{
    if indexes[place].insert(row).is_err() {
        indexes.remove(place);
    }
}
