// A table: its rows, and the indexes of them.
ghost use Rattle.std.specs.Prelude.{◌≡◌, [], Some, None, OnOk, OnErr, IfOk, IfSome, MatchOption, ⊤, length, slice_get};
ghost use Rattle.std.specs.List.{filter};
ghost use Rattle.eng_index.specs.Keys.{found, has_doubles, is_double, key_values, row_in_way};
ghost use Rattle.eng_index.specs.Stored.{put_row, row_under, rowids_of};
ghost use Rattle.eng_value.specs.StoredRows.{IsAscending};
ghost use Rattle.eng_value.specs.declared.value.Value.TheVariants.{Integer};
ghost use Rattle.vm_tables.specs.Changes.{drop_row};
ghost use Rattle.vm_tables.specs.Indexes.{SeeksRowid};
ghost use Rattle.vm_tables.specs.Rows.{on_row};

use crate::indexes::Indexes;
use crate::row_tree::RowTree;
use eng_index::{KeyTerm, Range, TermSource};
use eng_value::{Row, StoredRow, Value};
use sqlite_items::Items;
use std::alloc::{AllocError, Global};
use std::marker::Model;

/// A table: the tree of its rows, and the indexes of them that searches have built. Contracts see the list of the rows alone, since each
/// index is one of these rows, whatever was changed.
#[derive(Drop)]
pub(crate) struct Table {
    tree: RowTree,
    indexes: Indexes,
}

impl Model for Table {
    ghost use Rattle.std.specs.Prelude.{List};
    ghost use Rattle.eng_value.specs.StoredRows.{StoredRow as MeantRow};
    ghost use Rattle.vm_tables.specs.Indexes.{AreIndexesOf};

    ghost Value = { List MeantRow };

    ghost view = { λ t. t.tree };

    ghost invariant = { λ t. AreIndexesOf t.indexes t.tree };
}

impl Table {
    pub fn new(alloc: Global) -> Table
        ensures { result ≡ [] }
    {
        Table {
            tree: RowTree::new(alloc),
            indexes: Indexes::none(alloc),
        }
    }

    /// Shows a proof that the rowids ascend.
    pub fn order(&self)
        ensures { IsAscending self.now }
    {
        self.tree.order();
    }

    /// Its rows, to be read.
    #[inline(always)]
    pub fn tree(&self) -> &RowTree
        ensures { result.now ≡ self.now }
    {
        &self.tree
    }

    /// Puts a row under its rowid, which is free, and its entry into each index.
    pub fn put(&mut self, alloc: Global, row: &StoredRow) -> Result<(), AllocError>
        requires { row_under self.old row.now.rowid ≡ None }
        ensures ok { OnOk result (self.new ≡ put_row self.old row.now) }
        ensures err { OnErr result (self.new ≡ self.old) }
    {
        self.tree.put(alloc, row)?;
        self.indexes.insert(row);
        Ok(())
    }

    /// Takes the row of this rowid out, if there is one. Takes no memory. It leaves the table without indexes, which are built again once they
    /// are searched: where an entry stands is known by its key alone, and to make that takes memory.
    pub fn drop_row(&mut self, rowid: i64)
        ensures { self.new ≡ drop_row self.old rowid }
    {
        self.tree.drop_row(rowid);
        self.indexes.clear();
    }

    /// The rowids of the rows within a range of a key's terms, in their order: by the rows' tree where the range is of one rowid, and else by an
    /// index, which is built where there is none.
    pub fn search(
        &mut self,
        alloc: Global,
        terms: &[KeyTerm],
        range: &Range,
    ) -> Result<Vec<i64>, AllocError>
        ensures same { self.new ≡ self.old }
        ensures found { IfOk result (λ rowids. rowids.items ≡ rowids_of (found terms.now range.now self.old)) }
    {
        match sought_rowid(terms, range) {
            Some(rowid) => self.tree.rowids(alloc, rowid),
            None => self.indexes.search(alloc, &self.tree, terms, range),
        }
    }

    /// How many rows there are.
    pub fn len(&self) -> usize
        ensures { result ≡ length self.now }
    {
        self.tree.len()
    }

    /// How many rows are within a range of a key's terms, as far as that is known without a walk over them: by the rows' tree where the range is
    /// of one rowid, and else by an index that stands. None where there is none, or memory is wanting.
    pub fn count(&self, alloc: Global, terms: &[KeyTerm], range: &Range) -> Option<usize>
        ensures { IfSome result (λ count. count ≡ length (found terms.now range.now self.now)) }
    {
        match sought_rowid(terms, range) {
            Some(rowid) => Some(self.tree.count(rowid)),
            None => self.indexes.count(alloc, terms, range),
        }
    }

    /// Whether two rows have the same value in each term, none of them NULL.
    pub fn has_doubles(&mut self, alloc: Global, terms: &[KeyTerm]) -> Result<bool, AllocError>
        ensures same { self.new ≡ self.old }
        ensures doubles { IfOk result (λ doubles. doubles ≡ has_doubles terms.now self.old) }
    {
        self.indexes.has_doubles(alloc, &self.tree, terms)
    }

    /// The rowid of the first row in the way of one that is to come: the one that has its rowid, or is equal to it in each term of a key.
    pub fn row_in_way(
        &mut self,
        alloc: Global,
        keys: &[Items<KeyTerm>],
        row: &StoredRow,
    ) -> Result<Option<i64>, AllocError>
        ensures same { self.new ≡ self.old }
        ensures found { IfOk result (λ rowid. rowid ≡ on_row (row_in_way keys.now self.old row.now)) }
    {
        if self.tree.has(row.rowid()) {
            return Ok(Some(row.rowid()));
        }
        for terms in keys {
            let double = self.first_double(alloc, terms.as_slice(), row)?;
            if double.is_some() {
                return Ok(double);
            }
        }
        Ok(None)
    }

    /// The rowid of the first row that is equal to this one in each term, none of them NULL.
    fn first_double(
        &mut self,
        alloc: Global,
        terms: &[KeyTerm],
        row: &StoredRow,
    ) -> Result<Option<i64>, AllocError>
        ensures same { self.new ≡ self.old }
        ensures found { IfOk result (λ rowid. rowid ≡ on_row (slice_get (filter (is_double terms.now row.now) self.old) 0)) }
    {
        let range = Range {
            equal: key_values(alloc, terms, row)?,
            lower: None,
            upper: None,
        };
        let rowids = self.search(alloc, terms, &range)?;
        Ok(rowids.first().copied())
    }
}

/// What the terms of a key read of a row.
fn key_values(alloc: Global, terms: &[KeyTerm], row: &StoredRow) -> Result<Row, AllocError>
    ensures { IfOk result (λ values. values ≡ key_values terms.now row.now) }
{
    let mut values = Row::empty(alloc);
    for term in terms {
        values.push(term.value(row)?)?;
    }
    Ok(values)
}

/// The rowid of which a range is, where the rowid is the only term.
fn sought_rowid(terms: &[KeyTerm], range: &Range) -> Option<i64>
    ensures { MatchOption result ⊤ (λ rowid. SeeksRowid terms.now range.now rowid) }
{
    match terms.get(0) {
        Some(term) if terms.len() == 1 && term.source == TermSource::Rowid => {
            first_integer(range.equal.as_slice())
        }
        _ => None,
    }
}

/// The first of these values, where that is an integer.
fn first_integer(values: &[Value]) -> Option<i64>
    ensures { MatchOption result ⊤ (λ n. slice_get values.now 0 ≡ Some (Integer n)) }
{
    match values.get(0) {
        Some(Value::Integer(n)) => Some(*n),
        _ => None,
    }
}
