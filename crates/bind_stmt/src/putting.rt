// INSERTs that run.
ghost use Rattle.std.specs.Prelude.{◌≡◌, [], ◌∷◌, false, None, Some, drop, reverse, IfOk};
ghost use Rattle.bind_stmt.specs.Binds.{Answers, AnswersBy, IsBound, IsPut};
ghost use Rattle.bind_stmt.specs.Steps.{rows_at};
ghost use Rattle.sql_meaning.specs.Running.{columns_put, first_or, put_at, put_into, put_of, rowid_from, stores_integers};

use crate::keys::{has_own_keys, keys_of};
use crate::querying::first_part;
use crate::statement::Bound;
use crate::tables::table_of_source;
use bound_tree::{BoundChange, BoundExpr, BoundPart, BoundTarget, BoundUnit, BoundWrite};
use eng_value::{Affinity, Cause};
use sql_meaning::{BoundInsert, Column, PutColumn, RowidFrom, TableEntry};
use sqlite_items::{Items, at};
use std::alloc::{AllocError, Global};
use std::mem;

/// Rows of values for a table whose keys have no collation of a host.
pub(crate) fn put(
    alloc: Global,
    tables: &[TableEntry],
    units: Items<BoundUnit>,
    write: BoundWrite,
) -> Result<Bound, Cause>
    ensures { AnswersBy IsBound (put_of tables.now units write) result }
{
    let mut write = write;
    if !has_own_keys(write.target.item.indexes.as_slice()) {
        return Err(Cause::NotYet);
    }
    let table = table_of_source(tables, &write.target.item.source)?;
    Ok(Bound::Insert(put_into(alloc, table, &mut write.target, units, &write.change)?))
}

fn put_into(
    alloc: Global,
    table: &TableEntry,
    target: &mut BoundTarget,
    units: Items<BoundUnit>,
    change: &BoundChange,
) -> Result<BoundInsert, Cause>
    ensures { AnswersBy IsPut (put_into table.now target.old units change.now) result }
{
    match change {
        BoundChange::Inserted(places, given, source, _) => {
            let rows = rows_of(alloc, units, *source)?;
            put_at(alloc, table, target, places.as_slice(), *given, rows)
        }
        BoundChange::Defaulted => {
            let rows = one_empty_row(alloc)?;
            put_at(alloc, table, target, &[], None, rows)
        }
        _ => Err(Cause::NotYet),
    }
}

/// The rows of VALUES.
fn rows_of(
    alloc: Global,
    units: Items<BoundUnit>,
    place: u32,
) -> Result<Items<Items<BoundExpr>>, Cause>
    ensures { Answers (rows_at units place) result }
{
    let mut part = first_part(alloc, units, place)?;
    match &mut part {
        BoundPart::Values(rows) => Ok(mem::replace(rows, Items::new(alloc))),
        BoundPart::Select(_) => Err(Cause::NotYet),
    }
}

fn one_empty_row(alloc: Global) -> Result<Items<Items<BoundExpr>>, AllocError>
    ensures { IfOk result (λ rows. rows ≡ [] ∷ []) }
{
    let mut rows = Items::new(alloc);
    rows.push(Items::new(alloc))?;
    Ok(rows)
}

/// Rows for the target, whose columns have their values in these places of a row. It takes what the target has.
fn put_at(
    alloc: Global,
    table: &TableEntry,
    target: &mut BoundTarget,
    places: &[Option<u32>],
    given: Option<u32>,
    rows: Items<Items<BoundExpr>>,
) -> Result<BoundInsert, Cause>
    ensures { AnswersBy IsPut (put_at table.now target.old places.now given rows) result }
{
    let defaults = mem::replace(&mut target.defaults, Items::new(alloc));
    let not_nulls = target.not_nulls.as_slice();
    let columns = columns_put(alloc, table.columns.as_slice(), places, defaults, not_nulls)?;
    let rowid = rowid_from(columns.as_slice(), table.rowid, given)?;
    let keys = keys_of(alloc, table.rowid, target.item.indexes.as_slice())?;
    Ok(BoundInsert {
        table: table.number,
        name: table.name.clone()?,
        columns,
        rowid,
        checks: mem::replace(&mut target.checks, Items::new(alloc)),
        keys,
        rows,
    })
}

/// What each column takes: its value stands in its place, where it has one, and else it has its default.
fn columns_put(
    alloc: Global,
    columns: &[Column],
    places: &[Option<u32>],
    defaults: Items<Option<BoundExpr>>,
    not_nulls: &[bool],
) -> Result<Items<PutColumn>, AllocError>
    ensures { IfOk result (λ found. found ≡ columns_put columns.now places.now defaults not_nulls.now) }
{
    let mut defaults = reversed(alloc, defaults)?;
    let mut found = Items::new(alloc);
    for (i, column) in columns.iter().enumerate() {
        found.push(PutColumn {
            affinity: column.affinity,
            place: place_at(places, i),
            default: next_default(&mut defaults),
            not_null: is_set(not_nulls, i),
        })?;
    }
    Ok(found)
}

/// The place of the value of this column; none behind the list.
fn place_at(places: &[Option<u32>], column: usize) -> Option<u32>
    ensures { result ≡ first_or None (drop column places.now) }
{
    match places.get(column) {
        Some(place) => *place,
        None => None,
    }
}

/// Whether this column is marked; none is behind the list.
fn is_set(marks: &[bool], column: usize) -> bool
    ensures { result ≡ first_or false (drop column marks.now) }
{
    match marks.get(column) {
        Some(mark) => *mark,
        None => false,
    }
}

/// The last comes first.
fn reversed(
    alloc: Global,
    defaults: Items<Option<BoundExpr>>,
) -> Result<Items<Option<BoundExpr>>, AllocError>
    ensures { IfOk result (λ found. found ≡ reverse defaults) }
{
    let mut rest = defaults;
    let mut found = Items::new(alloc);
    while let Some(default) = rest.pop() {
        found.push(default)?;
    }
    Ok(found)
}

/// Takes out the default of the next column: of those that are left the first comes last.
fn next_default(defaults: &mut Items<Option<BoundExpr>>) -> Option<BoundExpr>
    ensures default { result ≡ first_or None (reverse defaults.old) }
    ensures rest { reverse defaults.new ≡ drop 1 (reverse defaults.old) }
{
    match defaults.pop() {
        Some(default) => default,
        None => None,
    }
}

/// Where the rowid comes from: a column that is it, else what is given for it.
fn rowid_from(
    columns: &[PutColumn],
    column: Option<u32>,
    given: Option<u32>,
) -> Result<RowidFrom, Cause>
    ensures { Answers (rowid_from columns.now column given) result }
{
    match (column, given) {
        (Some(column), _) => rowid_of_column(columns, column),
        (None, Some(place)) => Ok(RowidFrom::Given(place)),
        (None, None) => Ok(RowidFrom::Drawn),
    }
}

fn rowid_of_column(columns: &[PutColumn], column: u32) -> Result<RowidFrom, Cause>
    ensures { Answers (rowid_from columns.now (Some column) None) result }
{
    match at(columns, column as usize) {
        Some(found) if stores_integers(found) => Ok(RowidFrom::Column(column)),
        _ => Err(Cause::NotYet),
    }
}

fn stores_integers(column: &PutColumn) -> bool
    ensures { result ≡ stores_integers (Some column.now) }
{
    match column.affinity {
        Affinity::Integer => true,
        _ => false,
    }
}
