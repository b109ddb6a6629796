// The index of a table's rows.
ghost use Rattle.std.specs.Prelude.{◌≡◌, [], IfOk, OnErr, OnOk, List, None, Some, length};
ghost use Rattle.eng_value.specs.Arrangements.{Shuffled};
ghost use Rattle.eng_value.specs.StoredRows.{StoredRow as MeantRow, IsAscending};
ghost use Rattle.eng_index.specs.Keys.{found, has_doubles};
ghost use Rattle.eng_index.specs.Stored.{IsIndexOf, drop_row, put_row, row_under, rowids_of};

use crate::doubles::has_neighbours;
use crate::entry_keys::EntryKeys;
use crate::fronts::fronts_of;
use crate::walking::{count_between, rowids_between};
use crate::{KeyTerm, Range};
use eng_tree::Tree;
use eng_value::StoredRow;
use std::alloc::{AllocError, Global};
use std::marker::Model;

/// An index of the rows of a table: a tree with an entry for each row, whose key is that of the row by the terms and then the rowid.
/// Contracts see the terms and the pairs of the tree, and say of which rows it is the index (`IsIndexOf`).
#[derive(Drop)]
pub struct Index {
    keys: EntryKeys,
    tree: Tree,
}

impl Model for Index {
    ghost use Rattle.eng_index.specs.Stored.{Indexed};

    ghost Value = { Indexed };

    ghost view = { λ i. record { terms = i.keys; pairs = i.tree.pairs } };
}

impl Index {
    /// The index of no rows by these terms.
    pub fn new(alloc: Global, terms: Vec<KeyTerm>) -> Result<Index, AllocError>
        ensures terms { IfOk result (λ index. index.terms ≡ terms.items) }
        ensures rows { IfOk result (λ index. IsIndexOf index []) }
    {
        Ok(Index {
            keys: EntryKeys::new(alloc, terms)?,
            tree: Tree::new(alloc),
        })
    }

    pub fn terms(&self) -> &[KeyTerm]
        ensures { result.now ≡ self.now.terms }
    {
        self.keys.terms()
    }

    /// Adds the entry of a row whose rowid no other row has: it is then the index of the rows with this one among them. Without memory
    /// nothing changes. Time to find the entry's place, which is the logarithm of the number of rows, and to make room there.
    pub fn insert(&mut self, row: &StoredRow) -> Result<(), AllocError>
        ensures terms { self.new.terms ≡ self.old.terms }
        ensures rows { OnOk result ((rows : List MeantRow) → IsIndexOf self.old rows → row_under rows row.now.rowid ≡ None → IsIndexOf self.new (put_row rows row.now)) }
        ensures err { OnErr result (self.new ≡ self.old) }
    {
        let (key, mark) = self.keys.entry(row)?;
        self.tree.insert(key, mark)?;
        Ok(())
    }

    /// Takes the entry of a row out: it is then the index of the other rows. Without memory for the entry's key nothing changes.
    pub fn remove(&mut self, row: &StoredRow) -> Result<(), AllocError>
        ensures terms { self.new.terms ≡ self.old.terms }
        ensures rows { OnOk result ((rows : List MeantRow) → IsAscending rows → IsIndexOf self.old rows → row_under rows row.now.rowid ≡ Some row.now → IsIndexOf self.new (drop_row rows row.now.rowid)) }
        ensures err { OnErr result (self.new ≡ self.old) }
    {
        let key = self.keys.key(row)?;
        self.tree.remove(key.as_slice());
        Ok(())
    }

    /// The rowids of the rows within a range, in their order. Time to find where the range begins, which is the logarithm of the number of
    /// rows, and to sort what it finds. Only memory can fail.
    pub fn search(&self, alloc: Global, range: &Range) -> Result<Vec<i64>, AllocError>
        ensures { IfOk result (λ rowids. (rows : List MeantRow) → IsAscending rows → IsIndexOf self.now rows → rowids.items ≡ rowids_of (found self.now.terms range.now rows)) }
    {
        let mut rowids = self.found(alloc, range)?;
        rowids.sort_unstable();
        Ok(rowids)
    }

    /// How many rows are within a range. Time to find where the range begins and where it ends, which is the logarithm of the number of
    /// rows: no row between is visited. Only memory can fail.
    pub fn count(&self, alloc: Global, range: &Range) -> Result<usize, AllocError>
        ensures { IfOk result (λ count. (rows : List MeantRow) → IsIndexOf self.now rows → count ≡ length (found self.now.terms range.now rows)) }
    {
        match fronts_of(alloc, self.keys.terms(), self.keys.parts(), range)? {
            None => Ok(0),
            Some(fronts) => Ok(count_between(&self.tree, &fronts)),
        }
    }

    /// Whether two rows have the same value in each term, none of them NULL. Time for each row.
    pub fn has_doubles(&self) -> bool
        ensures { (rows : List MeantRow) → IsIndexOf self.now rows → result ≡ has_doubles self.now.terms rows }
    {
        has_neighbours(&self.tree)
    }

    /// The index of these keys and this tree.
    pub(crate) fn of_tree(keys: EntryKeys, tree: Tree) -> Index
        ensures terms { result.terms ≡ keys }
        ensures pairs { result.pairs ≡ tree.pairs }
    {
        Index { keys, tree }
    }

    /// What a search finds, in the order of the keys.
    fn found(&self, alloc: Global, range: &Range) -> Result<Vec<i64>, AllocError>
        ensures { IfOk result (λ rowids. (rows : List MeantRow) → IsIndexOf self.now rows → Shuffled (rowids_of (found self.now.terms range.now rows)) rowids.items) }
    {
        match fronts_of(alloc, self.keys.terms(), self.keys.parts(), range)? {
            None => Ok(Vec::new(alloc)),
            Some(fronts) => rowids_between(alloc, &self.tree, &fronts),
        }
    }
}
