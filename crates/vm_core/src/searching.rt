// The instructions that search in keys of rows.
ghost use Rattle.std.specs.Prelude.{◌≡◌, ◌+◌, ◌^◌, ◌<◌, Option, Some, None, not, slice_set, IfOk};
ghost use Rattle.std.specs.Option.{option_copied};
ghost use Rattle.eng_index.specs.Keys.{found, has_doubles};
ghost use Rattle.eng_index.specs.Searching.{bound_count, bounded_by, limit_count, limit_of};
ghost use Rattle.eng_value.specs.Causes.{only};
ghost use Rattle.eng_value.specs.StoredRows.{StoredRow};
ghost use Rattle.eng_value.specs.declared.cause.Cause.TheVariants.{Constraint};
ghost use Rattle.eng_value.specs.declared.cause.ConstraintKind.TheVariants.{Unique};
ghost use Rattle.vm_code.specs.Machine.{Open, built, conflicted, conflicted_to, cursor_at, cursor_rows, range_in, row_in, rows_of, searched, searched_to, skip_if, some_rowid, sought, world_of};
ghost use Rattle.vm_store.specs.Cursors.{on_chosen};
ghost use Rattle.vm_tables.specs.Rows.{on_row};
ghost use Rattle.vm_core.specs.Events.{Acts, ActsOn, ActsOver};

use crate::Event;
use crate::cursor::table_at;
use crate::pace::Pace;
use crate::running::Running;
use eng_index::{Bounds, Edge, KeyTerm, Limit, Range};
use eng_value::{Cause, Causes, ConstraintKind, Row, Text, Value};
use sqlite_items::Items;
use std::alloc::{AllocError, Global};
use vm_store::Registers;
use vm_tables::Tables;

impl Running {
    /// Searches a cursor's table, brings the cursor to the first row that is found, and jumps where there is none.
    #[inline(never)]
    pub(crate) fn search(
        &mut self,
        alloc: Global,
        tables: &mut Tables,
        cursor: u32,
        terms: &[KeyTerm],
        bounds: Bounds,
        first: u32,
        target: usize,
    ) -> Result<Pace, AllocError>
        requires { self.old.pc + 1 < 2 ^ 64 }
        ensures leads { ActsOn result self.old tables.old.world self.new tables.new.world (λ s.
            searched (cursor_at s.scene.cursors cursor) s cursor target terms.now (range_in s.regs first bounds)) }
        ensures marks { tables.new.marks ≡ tables.old.marks }
    {
        match table_at(&self.cursors, cursor as usize) {
            None => self.go_to(target),
            Some(table) => {
                let range = range_in(alloc, &self.registers, first, bounds)?;
                self.search_table(alloc, tables, cursor, table, terms, &range, target)
            }
        }
    }

    /// The same in a table.
    fn search_table(
        &mut self,
        alloc: Global,
        tables: &mut Tables,
        cursor: u32,
        table: u32,
        terms: &[KeyTerm],
        range: &Range,
        target: usize,
    ) -> Result<Pace, AllocError>
        requires { self.old.pc + 1 < 2 ^ 64 }
        ensures leads { ActsOn result self.old tables.old.world self.new tables.new.world (λ s.
            searched_to s cursor target table (found terms.now range.now (rows_of (world_of s.shared) table))) }
        ensures marks { tables.new.marks ≡ tables.old.marks }
    {
        let rowids = tables.search(alloc, table, terms, range)?;
        let found = !rowids.is_empty();
        self.choose(cursor, table, rowids);
        self.jump_if(!found, target);
        Ok(Pace::Going)
    }

    /// Brings a cursor to the first of these rows of a table, with the others behind it.
    fn choose(&mut self, number: u32, table: u32, rowids: Vec<i64>)
        ensures { self.new ≡ record self.old { scene = record self.old.scene { cursors = slice_set self.old.scene.cursors number (on_chosen table rowids.items) } } }
    {
        let at = number as usize;
        if at < self.cursors.len() {
            self.cursors[at].choose(table, rowids);
        }
    }

    /// Brings a cursor to the row of its table that has the rowid in a register, or off its row, and goes on.
    #[inline(never)]
    pub(crate) fn seek_rowid(
        &mut self,
        tables: &Tables,
        cursor: u32,
        rowid: u32,
    ) -> Result<Pace, AllocError>
        requires { self.old.pc + 1 < 2 ^ 64 }
        ensures { ActsOn result self.old tables.now.world self.new tables.now.world (λ s. sought (cursor_at s.scene.cursors cursor) s cursor (some_rowid s.regs rowid)) }
    {
        let rowid = self.registers.integer_at(rowid);
        self.seek(tables, cursor, rowid);
        self.go_on();
        Ok(Pace::Going)
    }

    /// Jumps where no row of a cursor's table is in the way of the row that registers hold; else brings the cursor to the first that is.
    #[inline(never)]
    pub(crate) fn jump_without_conflict(
        &mut self,
        alloc: Global,
        tables: &mut Tables,
        cursor: u32,
        rowid: u32,
        first: u32,
        count: u32,
        keys: &[Items<KeyTerm>],
        target: usize,
    ) -> Result<Pace, AllocError>
        requires { self.old.pc + 1 < 2 ^ 64 }
        ensures leads { ActsOn result self.old tables.old.world self.new tables.new.world (λ s.
            conflicted (cursor_at s.scene.cursors cursor) s cursor target keys.now (row_in s.regs rowid first count)) }
        ensures marks { tables.new.marks ≡ tables.old.marks }
    {
        match table_at(&self.cursors, cursor as usize) {
            None => self.go_to(target),
            Some(table) => {
                let row = self.row_in(alloc, rowid, first, count)?;
                let standing = tables.row_in_way(alloc, table, keys, &row)?;
                self.come_to_conflict(cursor, table, standing, target)
            }
        }
    }

    /// Jumps where there is no row; else brings a cursor to the row of this rowid.
    fn come_to_conflict(
        &mut self,
        cursor: u32,
        table: u32,
        rowid: Option<i64>,
        target: usize,
    ) -> Result<Pace, AllocError>
        requires { self.old.pc + 1 < 2 ^ 64 }
        ensures { (row : Option StoredRow) → on_row row ≡ rowid → Acts result self.old self.new (λ s. conflicted_to s cursor target table row) }
    {
        match rowid {
            None => self.go_to(target),
            Some(rowid) => {
                self.come_to(cursor, table, rowid);
                self.go_on();
                Ok(Pace::Going)
            }
        }
    }

    /// Brings a cursor to a row of a table.
    fn come_to(&mut self, number: u32, table: u32, rowid: i64)
        ensures { self.new ≡ record self.old { scene = record self.old.scene { cursors = slice_set self.old.scene.cursors number (Open table (Some rowid)) } } }
    {
        let at = number as usize;
        if at < self.cursors.len() {
            self.cursors[at].come_to(table, Some(rowid), 0);
        }
    }

    /// Goes on, unless an index is to be unique, for which its table is named, and the cursor's table has doubles: then it gives up. One
    /// that need not be unique is not built here, but when it is first searched.
    #[inline(never)]
    pub(crate) fn build_index(
        &mut self,
        alloc: Global,
        tables: &mut Tables,
        cursor: u32,
        terms: &[KeyTerm],
        unique: &Option<Text>,
        event: &mut Event,
    ) -> Result<Pace, AllocError>
        requires { self.old.pc + 1 < 2 ^ 64 }
        ensures leads { ActsOver result event.new self.old tables.old.world self.new tables.new.world (λ s.
            built s unique.now terms.now (cursor_rows (world_of s.shared) (cursor_at s.scene.cursors cursor))) }
        ensures marks { tables.new.marks ≡ tables.old.marks }
    {
        match unique {
            None => {
                self.go_on();
                Ok(Pace::Going)
            }
            Some(name) => self.build_unique(alloc, tables, cursor, terms, name, event),
        }
    }

    /// The same of one that is to be unique.
    fn build_unique(
        &mut self,
        alloc: Global,
        tables: &mut Tables,
        cursor: u32,
        terms: &[KeyTerm],
        name: &Text,
        event: &mut Event,
    ) -> Result<Pace, AllocError>
        requires { self.old.pc + 1 < 2 ^ 64 }
        ensures leads { ActsOver result event.new self.old tables.old.world self.new tables.new.world (λ s.
            skip_if (not (has_doubles terms.now (cursor_rows (world_of s.shared) (cursor_at s.scene.cursors cursor)))) s (only (Constraint Unique name.now))) }
        ensures marks { tables.new.marks ≡ tables.old.marks }
    {
        if !self.has_doubles(alloc, tables, cursor, terms)? {
            self.go_on();
            return Ok(Pace::Going);
        }
        let cause = Cause::Constraint(ConstraintKind::Unique, name.clone()?);
        self.give_up(Causes::one(alloc, cause), event)
    }

    /// Whether two rows of a cursor's table have the same value in each term, none of them NULL.
    fn has_doubles(
        &self,
        alloc: Global,
        tables: &mut Tables,
        cursor: u32,
        terms: &[KeyTerm],
    ) -> Result<bool, AllocError>
        ensures same { tables.new ≡ tables.old }
        ensures doubles { IfOk result (λ doubles. doubles ≡ has_doubles terms.now (cursor_rows tables.old.world (cursor_at self.now.scene.cursors cursor))) }
    {
        match table_at(&self.cursors, cursor as usize) {
            None => Ok(false),
            Some(table) => tables.has_doubles(alloc, table, terms),
        }
    }
}

/// What a search looks for, by the registers from one on: the first that is bad, and those behind it, bound nothing.
fn range_in(
    alloc: Global,
    registers: &Registers,
    first: u32,
    bounds: Bounds,
) -> Result<Range, AllocError>
    ensures { IfOk result (λ range. range ≡ range_in registers.now first bounds) }
{
    let values = registers.front_values(alloc, first, bound_count(bounds))?;
    bounded_by(bounds, values)
}

/// How many registers bound it.
fn bound_count(bounds: Bounds) -> usize
    ensures count { result ≡ bound_count bounds }
    ensures fits { result < 2 ^ 63 }
{
    bounds.equal as usize + limit_count(bounds.lower) + limit_count(bounds.upper)
}

fn limit_count(edge: Option<Edge>) -> usize
    ensures count { result ≡ limit_count edge }
    ensures few { result < 2 }
{
    match edge {
        None => 0,
        Some(_) => 1,
    }
}

/// The range that values make: first those that rows must have, then the lower limit, then the upper one.
fn bounded_by(bounds: Bounds, mut values: Vec<Value>) -> Result<Range, AllocError>
    ensures { IfOk result (λ range. range ≡ bounded_by bounds values.items) }
{
    let equal = bounds.equal as usize;
    let behind = equal + limit_count(bounds.lower);
    let lower = limit_of(bounds.lower, values.get(equal))?;
    let upper = limit_of(bounds.upper, values.get(behind))?;
    values.truncate(equal);
    Ok(Range {
        equal: Row::new(values),
        lower,
        upper,
    })
}

/// A limit, where it is wanted and has a value.
fn limit_of(edge: Option<Edge>, value: Option<&Value>) -> Result<Option<Limit>, AllocError>
    ensures { IfOk result (λ limit. limit ≡ limit_of edge (option_copied value.entry)) }
{
    match (edge, value) {
        (Some(edge), Some(value)) => Ok(Some(Limit {
            value: value.clone()?,
            edge,
        })),
        _ => Ok(None),
    }
}
