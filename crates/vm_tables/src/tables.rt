// The tables.
ghost use Rattle.std.specs.Prelude.{◌≡◌, ◌++◌, ◌∷◌, ◌<◌, [], true, drop, is_some, length, slice_get, slice_index_or, slice_set, IfOk, IfSome, OnOk, OnErr};
ghost use Rattle.eng_index.specs.Keys.{found, has_doubles, row_in_way};
ghost use Rattle.eng_index.specs.Stored.{rowids_of};
ghost use Rattle.eng_value.specs.Environments.{column_of};
ghost use Rattle.eng_value.specs.StoredRows.{next_rowid};
ghost use Rattle.eng_value.specs.declared.value.Value.TheVariants.{Null};
ghost use Rattle.vm_code.specs.Machine.{IsSound, is_free, put_row, row_behind, row_read, row_under, rows_of};
ghost use Rattle.vm_tables.specs.Rows.{LendsColumn, on_row, values_of};

use crate::change::{Change, take_back};
use crate::table::Table;
use eng_index::{KeyTerm, Range};
use eng_record::Lent;
use eng_value::{StoredRow, Value};
use sqlite_items::Items;
use std::alloc::{AllocError, Global};
use std::marker::Model;
use std::mem;

/// The rows of each table, with marks to which they can go back. While there is a mark each change is logged, and a mark is the length
/// that the log had then. Contracts see the world of the machine over lists, and the worlds at the marks.
#[derive(Drop)]
pub struct Tables {
    tables: Vec<Table>,
    log: Vec<Change>,
    marks: Vec<usize>,
}

impl Model for Tables {
    ghost use Rattle.vm_tables.specs.Marked.{Marked};

    ghost Value = { Marked };

    ghost use Rattle.vm_tables.specs.Changes.{IsJournal, at_marks};

    ghost view = { λ t.
        record {
          world = t.tables.items;
          marks = at_marks t.marks.items t.log.items t.tables.items;
        } };

    ghost invariant = { λ t. IsJournal t.tables.items t.log.items t.marks.items };
}

impl Tables {
    /// No table and no mark yet.
    pub fn new(alloc: Global) -> Tables
        ensures { result ≡ record { world = []; marks = [] } }
    {
        Tables {
            tables: Vec::new(alloc),
            log: Vec::new(alloc),
            marks: Vec::new(alloc),
        }
    }

    /// How many tables there are.
    pub fn len(&self) -> usize
        ensures { result ≡ length self.now.world }
    {
        self.tables.len()
    }

    /// The rows of a table, by ascending rowids; none where there is no such table.
    pub fn rows(&self, alloc: Global, table: usize) -> Result<Vec<StoredRow>, AllocError>
        ensures { IfOk result (λ rows. rows.items ≡ rows_of self.now.world table) }
    {
        match self.tables.get(table) {
            Some(table) => table.tree().rows(alloc),
            None => Ok(Vec::new(alloc)),
        }
    }

    /// Shows a proof that the tables are sound.
    pub fn order(&self)
        ensures { IsSound self.now.world }
    {
        let _tables = &self.tables;
    }

    /// Sets a mark: from now on changes are logged.
    pub fn mark(&mut self) -> Result<(), AllocError>
        ensures ok { OnOk result (self.new ≡ record { world = self.old.world; marks = self.old.world ∷ self.old.marks }) }
        ensures err { OnErr result (self.new ≡ self.old) }
    {
        self.marks.push(self.log.len())?;
        Ok(())
    }

    /// Takes back what was changed since the last mark, which goes. Takes no memory.
    pub fn undo(&mut self)
        requires { 0 < length self.old.marks }
        ensures { self.old.marks ≡ self.new.world ∷ self.new.marks }
    {
        match self.marks.pop() {
            Some(mark) => take_back(&mut self.tables, &mut self.log, mark),
            None => unreachable!(),
        }
    }

    /// Keeps what was changed since the last mark, which goes. Takes no memory.
    pub fn forget(&mut self)
        requires { 0 < length self.old.marks }
        ensures world { self.new.world ≡ self.old.world }
        ensures marks { self.new.marks ≡ drop 1 self.old.marks }
    {
        self.marks.pop();
        if self.marks.is_empty() {
            self.log.clear();
        }
    }

    /// The rowid of a table's first row. `near` is a hint: where the last search in the table came to.
    pub fn first(&self, table: u32, near: &mut usize) -> Option<i64>
        ensures { result ≡ on_row (slice_get (rows_of self.now.world table) 0) }
    {
        self.tables.get(table as usize)?.tree().first(near)
    }

    /// The rowid of a table's first row behind a rowid.
    pub fn behind(&self, table: u32, rowid: i64, near: &mut usize) -> Option<i64>
        ensures { result ≡ on_row (row_behind (rows_of self.now.world table) rowid) }
    {
        self.tables.get(table as usize)?.tree().behind(rowid, near)
    }

    /// The rowid behind a table's last row, if there is one.
    pub fn next_rowid(&self, table: u32) -> Option<i64>
        ensures { result ≡ next_rowid (rows_of self.now.world table) }
    {
        match self.tables.get(table as usize) {
            None => Some(1),
            Some(table) => table.tree().next_rowid(),
        }
    }

    /// The value in a column of the row of a rowid; NULL where there is none.
    pub fn column(
        &self,
        alloc: Global,
        table: u32,
        rowid: i64,
        place: usize,
        near: usize,
    ) -> Result<Value, AllocError>
        ensures { IfOk result (λ v. v ≡ slice_index_or (values_of (row_under (rows_of self.now.world table) rowid)) place Null) }
    {
        match self.tables.get(table as usize) {
            None => Ok(Value::Null),
            Some(table) => table.tree().column(alloc, rowid, place, near),
        }
    }

    /// The integer or the text in a column of the row of a rowid, where there is one.
    #[inline(always)]
    pub fn lent(&self, table: u32, rowid: i64, place: usize, near: usize) -> Lent<'_>
        ensures { LendsColumn result (column_of (row_read (row_under (rows_of self.now.world table) rowid)) place) }
    {
        match self.tables.get(table as usize) {
            None => Lent::Other,
            Some(table) => table.tree().lent(rowid, place, near),
        }
    }

    /// The rowid of the row of a rowid: that one, if there is such a row.
    pub fn rowid(&self, table: u32, rowid: i64, near: usize) -> Option<i64>
        ensures { result ≡ on_row (row_under (rows_of self.now.world table) rowid) }
    {
        self.tables.get(table as usize)?.tree().rowid(rowid, near)
    }

    /// Whether a table has a row of this rowid. In constant time for one that is not below the last row's.
    pub fn has(&self, table: u32, rowid: i64) -> bool
        ensures { result ≡ is_some (row_under (rows_of self.now.world table) rowid) }
    {
        match self.tables.get(table as usize) {
            None => false,
            Some(table) => table.tree().has(rowid),
        }
    }

    /// Whether there is the table, and it has no row of this rowid.
    pub fn is_free(&self, table: u32, rowid: i64) -> bool
        ensures { result ≡ is_free self.now.world table rowid }
    {
        match self.tables.get(table as usize) {
            None => false,
            Some(table) => !table.tree().has(rowid),
        }
    }

    /// The rowids of a table's rows within a range of a key's terms, in their order; none where there is no such table. Time for what is found,
    /// and to find where it begins; the first search by these terms builds an index of the rows, which stays and is kept up. Only memory can
    /// fail, and what an instruction reads is the same whatever happens.
    pub fn search(
        &mut self,
        alloc: Global,
        table: u32,
        terms: &[KeyTerm],
        range: &Range,
    ) -> Result<Vec<i64>, AllocError>
        ensures same { self.new ≡ self.old }
        ensures found { IfOk result (λ rowids. rowids.items ≡ rowids_of (found terms.now range.now (rows_of self.old.world table))) }
    {
        let place = table as usize;
        if place >= self.tables.len() {
            return Ok(Vec::new(alloc));
        }
        self.tables[place].search(alloc, terms, range)
    }

    /// How many rows a table has; none where there is no such table.
    pub fn row_count(&self, table: u32) -> usize
        ensures { result ≡ length (rows_of self.now.world table) }
    {
        match self.tables.get(table as usize) {
            Some(table) => table.len(),
            None => 0,
        }
    }

    /// How many of a table's rows a search finds, as far as an index of them stands already: it builds none. Time to find where the range begins
    /// and where it ends. None where there is no such index or no such table, or memory is wanting.
    pub fn count(
        &self,
        alloc: Global,
        table: u32,
        terms: &[KeyTerm],
        range: &Range,
    ) -> Option<usize>
        ensures { IfSome result (λ count. count ≡ length (found terms.now range.now (rows_of self.now.world table))) }
    {
        self.tables.get(table as usize)?.count(alloc, terms, range)
    }

    /// The rowid of the first of a table's rows that is in the way of one that is to come: the one that has its rowid, or is equal to it in each
    /// term of one of the keys, none of them NULL. Builds an index of the rows for each key that has none yet.
    pub fn row_in_way(
        &mut self,
        alloc: Global,
        table: u32,
        keys: &[Items<KeyTerm>],
        row: &StoredRow,
    ) -> Result<Option<i64>, AllocError>
        ensures same { self.new ≡ self.old }
        ensures found { IfOk result (λ rowid. rowid ≡ on_row (row_in_way keys.now (rows_of self.old.world table) row.now)) }
    {
        let place = table as usize;
        if place >= self.tables.len() {
            return Ok(None);
        }
        self.tables[place].row_in_way(alloc, keys, row)
    }

    /// Whether two of a table's rows have the same value in each term of a key, none of them NULL. Builds the index by these terms, where there
    /// is none yet.
    pub fn has_doubles(
        &mut self,
        alloc: Global,
        table: u32,
        terms: &[KeyTerm],
    ) -> Result<bool, AllocError>
        ensures same { self.new ≡ self.old }
        ensures doubles { IfOk result (λ doubles. doubles ≡ has_doubles terms.now (rows_of self.old.world table)) }
    {
        let place = table as usize;
        if place >= self.tables.len() {
            return Ok(false);
        }
        self.tables[place].has_doubles(alloc, terms)
    }

    /// Puts a row into a table where its rowid is free.
    pub fn put(&mut self, alloc: Global, table: u32, row: &StoredRow) -> Result<(), AllocError>
        requires { is_free self.old.world table row.now.rowid ≡ true }
        ensures ok { OnOk result (self.new.world ≡ slice_set self.old.world table (put_row (rows_of self.old.world table) row.now)) }
        ensures err { OnErr result (self.new.world ≡ self.old.world) }
        ensures marks { self.new.marks ≡ self.old.marks }
    {
        let rowid = row.rowid();
        self.log.reserve(1)?;
        self.tables[table as usize].put(alloc, row)?;
        if self.marks.is_empty() {
            return Ok(());
        }
        self.log.push_reserved(Change::RowPut { table, rowid });
        Ok(())
    }

    /// Adds a table without rows behind the others.
    pub fn add(&mut self, alloc: Global) -> Result<(), AllocError>
        ensures ok { OnOk result (self.new.world ≡ self.old.world ++ [] ∷ []) }
        ensures err { OnErr result (self.new.world ≡ self.old.world) }
        ensures marks { self.new.marks ≡ self.old.marks }
    {
        self.log.reserve(1)?;
        self.tables.push(Table::new(alloc))?;
        if self.marks.is_empty() {
            return Ok(());
        }
        self.log.push_reserved(Change::TableAdded);
        Ok(())
    }

    /// Takes all rows from a table, which stays with its number; where there is no such table nothing changes. While there is a mark the
    /// rows go to the log as they stand, so that `undo` brings them back without taking memory, and they are freed once the last mark is
    /// forgotten; without a mark they are freed at once. Takes memory for an entry of the log at most, and time for the rows only where
    /// they are freed.
    pub fn drop_rows(&mut self, alloc: Global, table: u32) -> Result<(), AllocError>
        ensures ok { OnOk result (self.new.world ≡ slice_set self.old.world table []) }
        ensures err { OnErr result (self.new.world ≡ self.old.world) }
        ensures marks { self.new.marks ≡ self.old.marks }
    {
        let place = table as usize;
        if place >= self.tables.len() {
            return Ok(());
        }
        self.log.reserve(1)?;
        let rows = mem::replace(&mut self.tables[place], Table::new(alloc));
        if self.marks.is_empty() {
            return Ok(());
        }
        self.log.push_reserved(Change::RowsDropped { table, rows });
        Ok(())
    }
}
