// The tree of a table's rows.
ghost use Rattle.std.specs.Prelude.{◌≡◌, ◌-◌, [], true, length, None, Ok, OnOk, OnErr, IfOk, is_some, option_map, slice_get, slice_index_or};
ghost use Rattle.std.specs.List.{filter};
ghost use Rattle.std.specs.Ordering.{int_eq};
ghost use Rattle.eng_index.specs.Stored.{IsIndexOf, rowids_of};
ghost use Rattle.eng_record.specs.Reading.{reading};
ghost use Rattle.eng_value.specs.Environments.{column_of};
ghost use Rattle.eng_value.specs.StoredRows.{IsAscending, next_rowid};
ghost use Rattle.eng_value.specs.declared.value.Value.TheVariants.{Null};
ghost use Rattle.vm_code.specs.Machine.{Row as MeantRow, put_row, row_behind, row_read, row_under};
ghost use Rattle.vm_tables.specs.Changes.{drop_row};
ghost use Rattle.vm_tables.specs.Rows.{LendsColumn, on_row, values_of};
ghost use Rattle.vm_tables.specs.Stored.{IsRecord, StandsAt, row_from};

use eng_index::{Entries, Index, KeyTerm};
use eng_key::{rowid_key, rowid_of_key};
use eng_record::{Lent, column, decode, encode, lent_column};
use eng_tree::{Bytes, Tree};
use eng_value::{MAX_ROWID, Row, StoredRow, Value};
use std::alloc::{AllocError, Global};
use std::marker::Model;

/// The rows of a table: a tree that keeps each row's record under the key of its rowid. Contracts see the list of the rows.
#[derive(Drop)]
pub(crate) struct RowTree {
    tree: Tree,
}

impl Model for RowTree {
    ghost use Rattle.std.specs.Prelude.{List};
    ghost use Rattle.eng_value.specs.StoredRows.{StoredRow as MeantRow};
    ghost use Rattle.vm_tables.specs.Stored.{rows_in, IsStored};

    ghost Value = { List MeantRow };

    ghost view = { λ t. rows_in t.tree.pairs };

    ghost invariant = { λ t. IsStored t.tree.pairs };
}

impl RowTree {
    pub fn new(alloc: Global) -> RowTree
        ensures { result ≡ [] }
    {
        RowTree {
            tree: Tree::new(alloc),
        }
    }

    /// Shows a proof that the rowids ascend.
    pub fn order(&self)
        ensures { IsAscending self.now }
    {
        let _tree = &self.tree;
    }

    /// The rowid of the first row. `near` is where the last search came to, and only a hint.
    pub fn first(&self, near: &mut usize) -> Option<i64>
        ensures { result ≡ on_row (slice_get self.now 0) }
    {
        let _tree = &self.tree;
        self.rowid_from(i64::MIN, near)
    }

    /// The rowid of the first row behind a rowid.
    pub fn behind(&self, rowid: i64, near: &mut usize) -> Option<i64>
        ensures { result ≡ on_row (row_behind self.now rowid) }
    {
        self.order();
        match near.checked_add(1) {
            Some(next) if self.stands_at(rowid, *near) => {
                *near = next;
                self.rowid_at(next)
            }
            _ => self.behind_key(rowid, near),
        }
    }

    /// Whether the row of this rowid stands at a place.
    fn stands_at(&self, rowid: i64, place: usize) -> bool
        ensures { result ≡ true → StandsAt self.now place rowid }
    {
        self.rowid_at(place) == Some(rowid)
    }

    /// The rowid of the row at a place.
    fn rowid_at(&self, place: usize) -> Option<i64>
        ensures { result ≡ on_row (slice_get self.now place) }
    {
        match self.tree.pair_at(place) {
            None => None,
            Some((key, _)) => rowid_of_key(key),
        }
    }

    /// The rowid of the first row behind a rowid, by its key.
    #[inline(never)]
    fn behind_key(&self, rowid: i64, near: &mut usize) -> Option<i64>
        ensures { result ≡ on_row (row_behind self.now rowid) }
    {
        let _tree = &self.tree;
        match rowid.checked_add(1) {
            None => None,
            Some(least) => {
                *near = near.saturating_add(1);
                self.rowid_from(least, near)
            }
        }
    }

    /// The rowid of the first row whose rowid is not below `least`.
    fn rowid_from(&self, least: i64, near: &mut usize) -> Option<i64>
        ensures { result ≡ on_row (row_from self.now least) }
    {
        match self.tree.seek_near(&rowid_key(least), near) {
            None => None,
            Some((key, _)) => rowid_of_key(key),
        }
    }

    /// The rowid behind that of the last row: 1 in an empty table, and none behind the largest of all.
    pub fn next_rowid(&self) -> Option<i64>
        ensures { result ≡ next_rowid self.now }
    {
        match self.last() {
            None => Some(1),
            Some(last) if last < MAX_ROWID => Some(last + 1),
            Some(_) => None,
        }
    }

    /// The rowid of the last row.
    fn last(&self) -> Option<i64>
        ensures { result ≡ on_row (slice_get self.now (length self.now - 1)) }
    {
        match self.tree.last() {
            None => None,
            Some((key, _)) => rowid_of_key(key),
        }
    }

    /// The rowid of the row of this rowid, as the rowids of all rows that have it.
    pub fn rowids(&self, alloc: Global, rowid: i64) -> Result<Vec<i64>, AllocError>
        ensures { IfOk result (λ rowids. rowids.items ≡ rowids_of (filter (λ r. int_eq r.rowid rowid) self.now)) }
    {
        self.order();
        let mut rowids = Vec::new(alloc);
        if !self.has(rowid) {
            return Ok(rowids);
        }
        rowids.push(rowid)?;
        Ok(rowids)
    }

    /// How many rows there are.
    pub fn len(&self) -> usize
        ensures { result ≡ length self.now }
    {
        self.tree.len()
    }

    /// How many rows have this rowid: one or none.
    pub fn count(&self, rowid: i64) -> usize
        ensures { result ≡ length (filter (λ r. int_eq r.rowid rowid) self.now) }
    {
        self.order();
        if self.has(rowid) { 1 } else { 0 }
    }

    /// Whether there is a row of this rowid. In constant time for one that is not below the last row's, as new rows mostly have.
    pub fn has(&self, rowid: i64) -> bool
        ensures { result ≡ is_some (row_under self.now rowid) }
    {
        let last = self.tree.len().saturating_sub(1);
        self.tree.get_near(&rowid_key(rowid), last).is_some()
    }

    /// The record of the row of this rowid, if there is one. In constant time where the row stands at the place `near`.
    fn record(&self, rowid: i64, near: usize) -> Option<&[u8]>
        ensures { IsRecord (option_map (λ v. v.now) result) (row_under self.now rowid) }
    {
        match self.tree.pair_at(near) {
            Some((key, record)) if rowid_of_key(key) == Some(rowid) => Some(record),
            _ => self.record_by_key(rowid, near),
        }
    }

    /// The same by its key.
    #[inline(never)]
    fn record_by_key(&self, rowid: i64, near: usize) -> Option<&[u8]>
        ensures { IsRecord (option_map (λ v. v.now) result) (row_under self.now rowid) }
    {
        self.tree.get_near(&rowid_key(rowid), near)
    }

    /// The value in a column of the row of this rowid, NULL where there is none.
    pub fn column(
        &self,
        alloc: Global,
        rowid: i64,
        place: usize,
        near: usize,
    ) -> Result<Value, AllocError>
        ensures { IfOk result (λ v. v ≡ slice_index_or (values_of (row_under self.now rowid)) place Null) }
    {
        match self.record(rowid, near) {
            None => Ok(Value::Null),
            Some(record) => column_of(alloc, record, place),
        }
    }

    /// The integer or the text in a column of the row of this rowid, where there is one.
    #[inline(always)]
    pub fn lent(&self, rowid: i64, place: usize, near: usize) -> Lent<'_>
        ensures { LendsColumn result (column_of (row_read (row_under self.now rowid)) place) }
    {
        match self.record(rowid, near) {
            None => Lent::Other,
            Some(record) => lent_column(record, place),
        }
    }

    /// The rowid of the row of this rowid, if there is one. In constant time where the row stands at the place `near`.
    pub fn rowid(&self, rowid: i64, near: usize) -> Option<i64>
        ensures { result ≡ on_row (row_under self.now rowid) }
    {
        match self.record(rowid, near) {
            None => None,
            Some(_) => Some(rowid),
        }
    }

    /// The rows in the order of their rowids.
    pub fn rows(&self, alloc: Global) -> Result<Vec<StoredRow>, AllocError>
        ensures { IfOk result (λ rows. rows.items ≡ self.now) }
    {
        self.order();
        let mut rows = Vec::new(alloc);
        let mut near = 0;
        let mut next = self.first(&mut near);
        while let Some(rowid) = next {
            rows.push(StoredRow::new(rowid, self.values(alloc, rowid, near)?))?;
            next = self.behind(rowid, &mut near);
        }
        Ok(rows)
    }

    /// The values of the row of this rowid; none where there is no such row.
    fn values(&self, alloc: Global, rowid: i64, near: usize) -> Result<Row, AllocError>
        ensures { IfOk result (λ row. row ≡ values_of (row_under self.now rowid)) }
    {
        match self.record(rowid, near) {
            None => Ok(Row::empty(alloc)),
            Some(record) => row_of(alloc, record),
        }
    }

    /// Puts a row under its rowid, which is free. The row's record and key are made before anything changes.
    pub fn put(&mut self, alloc: Global, row: &StoredRow) -> Result<(), AllocError>
        requires { row_under self.old row.now.rowid ≡ None }
        ensures ok { OnOk result (self.new ≡ put_row self.old row.now) }
        ensures err { OnErr result (self.new ≡ self.old) }
    {
        let record = encode(alloc, row.values())?;
        let key = Bytes::from_slice(alloc, &rowid_key(row.rowid()))?;
        self.tree.insert(key, Bytes::new(record.into_vec()))?;
        Ok(())
    }

    /// An index of the rows by these terms. Time to read each row, and to sort the entries.
    pub fn indexed(&self, alloc: Global, terms: Vec<KeyTerm>) -> Result<Index, AllocError>
        ensures terms { IfOk result (λ index. index.terms ≡ terms.items) }
        ensures rows { IfOk result (λ index. IsIndexOf index self.now) }
    {
        self.order();
        let mut entries = Entries::new(alloc, terms)?;
        let mut near = 0;
        let mut next = self.first(&mut near);
        while let Some(rowid) = next {
            let row = StoredRow::new(rowid, self.values(alloc, rowid, near)?);
            entries.push(&row)?;
            next = self.behind(rowid, &mut near);
        }
        entries.into_index()
    }

    /// Takes the row of this rowid out, if there is one. Takes no memory.
    pub fn drop_row(&mut self, rowid: i64)
        ensures { self.new ≡ drop_row self.old rowid }
    {
        self.tree.remove(&rowid_key(rowid));
    }
}

/// The row of a record that can be read.
fn row_of(alloc: Global, bytes: &[u8]) -> Result<Row, AllocError>
    ensures { (row : MeantRow) → reading bytes.now ≡ Ok row → IfOk result (λ found. found ≡ row) }
{
    match decode(alloc, bytes) {
        Ok(row) => Ok(row),
        Err(_) => Err(AllocError),
    }
}

/// The value in a column of a record that can be read, NULL where there is none.
fn column_of(alloc: Global, bytes: &[u8], place: usize) -> Result<Value, AllocError>
    ensures { (row : MeantRow) → reading bytes.now ≡ Ok row → IfOk result (λ v. v ≡ slice_index_or row place Null) }
{
    match column(alloc, bytes, place) {
        Ok(value) => Ok(value),
        Err(_) => Err(AllocError),
    }
}
