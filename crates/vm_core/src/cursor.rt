// Cursors over the tables.
ghost use Rattle.std.specs.Prelude.{◌≡◌, is_some, replicate, slice_get, IfOk};
ghost use Rattle.eng_value.specs.Environments.{column_of, table_row};
ghost use Rattle.eng_value.specs.StoredRows.{next_rowid};
ghost use Rattle.eng_value.specs.declared.out.Out.TheVariants.{Good};
ghost use Rattle.vm_code.specs.Machine.{Closed, Open, closed_from, current, cursor_at, cursor_rows, is_missing, row_read, row_under, rows_of};
ghost use Rattle.vm_tables.specs.Rows.{LendsColumn, on_row};
ghost use Rattle.vm_core.specs.Cursors.{has_first, has_next, on_first, on_next, on_sought, rowid_read, rowid_sought, table_of};

use eng_record::Lent;
use eng_value::{Out, StoredRow, Value};
use std::alloc::{AllocError, Global};
use vm_store::{Cursor, Place, Spot};
use vm_tables::Tables;

/// The table of a cursor of this number; none where it is closed.
pub(crate) fn table_at(cursors: &[Cursor], number: usize) -> Option<u32>
    ensures { result ≡ table_of (cursor_at cursors.now number) }
{
    match cursors.get(number) {
        None => None,
        Some(cursor) => table(cursor),
    }
}

fn table(cursor: &Cursor) -> Option<u32>
    ensures { result ≡ table_of cursor.now }
{
    match cursor.spot() {
        Spot::Closed => None,
        Spot::Open { table, place: _ } => Some(*table),
        Spot::Chosen {
            table,
            place: _,
            rest: _,
        } => Some(*table),
        Spot::Standing { row: _ } => None,
        Spot::Sorted { rows: _ } => None,
    }
}

/// Whether a cursor's table has no row of a rowid.
pub(crate) fn misses(cursor: &Cursor, tables: &Tables, rowid: i64) -> bool
    ensures { result ≡ is_missing (cursor_rows tables.now.world cursor.now) rowid }
{
    match cursor.spot() {
        Spot::Closed => true,
        Spot::Open { table, place: _ } => !tables.has(*table, rowid),
        Spot::Chosen {
            table,
            place: _,
            rest: _,
        } => !tables.has(*table, rowid),
        Spot::Standing { row: _ } => true,
        Spot::Sorted { rows: _ } => true,
    }
}

/// The rowid behind the last of a cursor's table, if there is one.
pub(crate) fn next_rowid(cursor: &Cursor, tables: &Tables) -> Option<i64>
    ensures { result ≡ next_rowid (cursor_rows tables.now.world cursor.now) }
{
    match cursor.spot() {
        Spot::Closed => Some(1),
        Spot::Open { table, place: _ } => tables.next_rowid(*table),
        Spot::Chosen {
            table,
            place: _,
            rest: _,
        } => tables.next_rowid(*table),
        Spot::Standing { row: _ } => Some(1),
        Spot::Sorted { rows: _ } => Some(1),
    }
}

/// A copy of a column of a cursor's row; NULL where there is none.
pub(crate) fn column(
    cursor: &Cursor,
    alloc: Global,
    tables: &Tables,
    number: usize,
) -> Result<Out, AllocError>
    ensures { IfOk result (λ out. out ≡ column_of (current tables.now.world cursor.now) number) }
{
    match cursor.spot() {
        Spot::Closed => Ok(Out::Good(Value::Null)),
        Spot::Open {
            table: _,
            place: None,
        } => Ok(Out::Good(Value::Null)),
        Spot::Open {
            table,
            place: Some(place),
        } => column_of_table(alloc, tables, *table, place, number),
        Spot::Chosen {
            table,
            place,
            rest: _,
        } => column_of_table(alloc, tables, *table, place, number),
        Spot::Standing { row } => column_of_row(row, number),
        Spot::Sorted { rows: _ } => Ok(Out::Good(Value::Null)),
    }
}

/// A copy of a column of the row at a place of a table; NULL where there is none.
fn column_of_table(
    alloc: Global,
    tables: &Tables,
    table: u32,
    place: &Place,
    number: usize,
) -> Result<Out, AllocError>
    ensures { IfOk result (λ out. out ≡ column_of (row_read (row_under (rows_of tables.now.world table) place.now.rowid)) number) }
{
    let value = tables.column(alloc, table, place.rowid, number, place.near)?;
    Ok(Out::Good(value))
}

/// A copy of a value of a row; NULL behind the last one.
fn column_of_row(row: &StoredRow, number: usize) -> Result<Out, AllocError>
    ensures { IfOk result (λ out. out ≡ column_of (table_row row.now) number) }
{
    match row.values().get(number) {
        None => Ok(Out::Good(Value::Null)),
        Some(value) => Ok(Out::Good(value.clone()?)),
    }
}

/// The integer or the text in a column of the row of the cursor of this number, where there is one.
#[inline(always)]
pub(crate) fn lent_at<'t>(
    cursors: &'t [Cursor],
    tables: &'t Tables,
    cursor: u32,
    number: u32,
) -> Lent<'t>
    ensures { LendsColumn result (column_of (current tables.now.world (cursor_at cursors.now cursor)) number) }
{
    match cursors.get(cursor as usize) {
        None => Lent::Other,
        Some(cursor) => lent(cursor, tables, number as usize),
    }
}

fn lent<'t>(cursor: &'t Cursor, tables: &'t Tables, number: usize) -> Lent<'t>
    ensures { LendsColumn result (column_of (current tables.now.world cursor.now) number) }
{
    match cursor.spot() {
        Spot::Closed => Lent::Other,
        Spot::Open {
            table: _,
            place: None,
        } => Lent::Other,
        Spot::Open {
            table,
            place: Some(place),
        } => tables.lent(*table, place.rowid, number, place.near),
        Spot::Chosen {
            table,
            place,
            rest: _,
        } => tables.lent(*table, place.rowid, number, place.near),
        Spot::Standing { row } => lent_of_row(row, number),
        Spot::Sorted { rows: _ } => Lent::Other,
    }
}

/// The integer or the text that a value of a row is, where it is one.
#[inline(never)]
fn lent_of_row(row: &StoredRow, number: usize) -> Lent<'_>
    ensures { LendsColumn result (column_of (table_row row.now) number) }
{
    match row.values().get(number) {
        None => Lent::Other,
        Some(value) => lent_of_value(value),
    }
}

fn lent_of_value(value: &Value) -> Lent<'_>
    ensures { LendsColumn result (Good value.now) }
{
    match value {
        Value::Integer(n) => Lent::Integer(*n),
        Value::Text(text) => Lent::Text(text.as_str()),
        _ => Lent::Other,
    }
}

/// The rowid of a cursor's row, if it is on one.
pub(crate) fn rowid(cursor: &Cursor, tables: &Tables) -> Option<i64>
    ensures { rowid_read result ≡ (current tables.now.world cursor.now).rowid }
{
    match cursor.spot() {
        Spot::Closed => None,
        Spot::Open {
            table: _,
            place: None,
        } => None,
        Spot::Open {
            table,
            place: Some(place),
        } => rowid_of_table(tables, *table, place),
        Spot::Chosen {
            table,
            place,
            rest: _,
        } => rowid_of_table(tables, *table, place),
        Spot::Standing { row } => Some(row.rowid()),
        Spot::Sorted { rows: _ } => None,
    }
}

/// The rowid of the row at a place of a table, if there is one.
#[tactic(auto, using(crate::proofs::Rowids::rowid_reads))]
fn rowid_of_table(tables: &Tables, table: u32, place: &Place) -> Option<i64>
    ensures { rowid_read result ≡ (row_read (row_under (rows_of tables.now.world table) place.now.rowid)).rowid }
{
    tables.rowid(table, place.rowid, place.near)
}

/// Brings a cursor to the first row of its table, and says whether there is one.
pub(crate) fn rewind(cursor: &mut Cursor, tables: &Tables) -> bool
    ensures cursor { cursor.new ≡ on_first tables.now.world cursor.old }
    ensures found { result ≡ has_first tables.now.world cursor.old }
{
    match cursor.spot() {
        Spot::Closed => false,
        Spot::Open { table, place: _ } => {
            let table = *table;
            come_to_first(cursor, tables, table)
        }
        Spot::Chosen {
            table,
            place: _,
            rest: _,
        } => {
            let table = *table;
            come_to_first(cursor, tables, table)
        }
        Spot::Standing { row: _ } => false,
        Spot::Sorted { rows: _ } => false,
    }
}

/// Brings a cursor to the first row of a table, and says whether there is one.
fn come_to_first(cursor: &mut Cursor, tables: &Tables, table: u32) -> bool
    ensures cursor { cursor.new ≡ Open table (on_row (slice_get (rows_of tables.now.world table) 0)) }
    ensures found { result ≡ is_some (slice_get (rows_of tables.now.world table) 0) }
{
    let mut near = 0;
    let rowid = tables.first(table, &mut near);
    cursor.come_to(table, rowid, near);
    rowid.is_some()
}

/// Brings a cursor to the row behind its own, and says whether there is one.
pub(crate) fn advance(cursor: &mut Cursor, tables: &Tables) -> bool
    ensures cursor { cursor.new ≡ on_next tables.now.world cursor.old }
    ensures found { result ≡ has_next tables.now.world cursor.old }
{
    match cursor.spot() {
        Spot::Open {
            table,
            place: Some(place),
        } => {
            let table = *table;
            let mut near = place.near;
            let rowid = tables.behind(table, place.rowid, &mut near);
            cursor.come_to(table, rowid, near);
            rowid.is_some()
        }
        Spot::Chosen {
            table: _,
            place: _,
            rest: _,
        } => cursor.next_chosen(),
        Spot::Standing { row: _ } => {
            cursor.close();
            false
        }
        _ => false,
    }
}

/// Brings a cursor to the row of its table that has a rowid; off its row where none has it.
pub(crate) fn seek(cursor: &mut Cursor, tables: &Tables, rowid: Option<i64>)
    ensures { cursor.new ≡ on_sought tables.now.world cursor.old rowid }
{
    match cursor.spot() {
        Spot::Open { table, place } => {
            let table = *table;
            let near = near_of(place);
            come_to_row(cursor, tables, table, rowid, near)
        }
        Spot::Chosen {
            table,
            place,
            rest: _,
        } => {
            let table = *table;
            let near = place.near;
            come_to_row(cursor, tables, table, rowid, near)
        }
        _ => {}
    }
}

/// Where the last search came to.
fn near_of(place: &Option<Place>) -> usize {
    match place {
        None => 0,
        Some(place) => place.near,
    }
}

/// Brings a cursor to the row of a table that has a rowid; off its row where none has it.
fn come_to_row(
    cursor: &mut Cursor,
    tables: &Tables,
    table: u32,
    rowid: Option<i64>,
    mut near: usize,
)
    ensures { cursor.new ≡ Open table (rowid_sought (rows_of tables.now.world table) rowid) }
{
    let found = find(tables, table, rowid, &mut near);
    cursor.come_to(table, found, near);
}

/// The rowid, where a row of a table has it. `near` comes to where that stands, so that it is found in constant time from then on.
fn find(tables: &Tables, table: u32, rowid: Option<i64>, near: &mut usize) -> Option<i64>
    ensures { result ≡ rowid_sought (rows_of tables.now.world table) rowid }
{
    let rowid = rowid?;
    let _from = match rowid.checked_sub(1) {
        None => tables.first(table, near),
        Some(before) => tables.behind(table, before, near),
    };
    tables.rowid(table, rowid, *near)
}

/// Closes the cursors from a number on.
pub(crate) fn close_from(cursors: &mut Vec<Cursor>, first: usize)
    ensures { cursors.new.items ≡ closed_from first cursors.old.items }
{
    for number in first..cursors.len() {
        cursors[number] = Cursor::closed();
    }
}

/// So many cursors that are closed.
pub(crate) fn closed(alloc: Global, count: u32) -> Result<Vec<Cursor>, AllocError>
    ensures { IfOk result (λ cursors. cursors.items ≡ replicate count Closed) }
{
    let mut cursors = Vec::new(alloc);
    for _ in 0..count {
        cursors.push(Cursor::closed())?;
    }
    Ok(cursors)
}
