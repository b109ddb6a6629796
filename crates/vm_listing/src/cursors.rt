// The names of tables, cursors and columns.
ghost use Rattle.std.specs.Prelude.{◌≡◌, IfOk, Some, slice_get};
ghost use Rattle.vm_listing.specs.Pieces.{column, column_or, columns_or_none, cursor, cursor_columns, cursor_name, cursor_table, name_or, opens, rowid, table_name, table_opened};

use crate::pieces::{numbered, text_of};
use eng_value::Text;
use std::alloc::{AllocError, Global};
use table_labels::TableLabel;
use vm_code::Op;

/// The name of a table.
pub(crate) fn table_name(
    alloc: Global,
    tables: &[TableLabel],
    number: u32,
) -> Result<Text, AllocError>
    ensures { IfOk result (λ text. text ≡ table_name tables.now number) }
{
    match tables.get(number as usize) {
        Some(label) => label.name.clone(),
        None => numbered(alloc, "table ", number),
    }
}

/// Whether the instruction opens the cursor.
fn opens(cursor: u32, op: &Op) -> bool
    ensures { result ≡ opens cursor op.now }
{
    match op {
        Op::OpenRead { cursor: opened, .. } => *opened == cursor,
        Op::OpenWrite { cursor: opened, .. } => *opened == cursor,
        Op::RowOf { cursor: opened, .. } => *opened == cursor,
        Op::SorterOpen { cursor: opened } => *opened == cursor,
        _ => false,
    }
}

/// The table that an instruction opens a cursor on.
fn table_opened(op: &Op) -> Option<u32>
    ensures { result ≡ table_opened (Some op.now) }
{
    match op {
        Op::OpenRead { table, .. } => Some(*table),
        Op::OpenWrite { table, .. } => Some(*table),
        _ => None,
    }
}

/// The table of a cursor: that of the first instruction that opens it.
pub(crate) fn cursor_table(code: &[Op], cursor: u32) -> Option<u32>
    ensures { result ≡ cursor_table code.now cursor }
{
    for op in code {
        if opens(cursor, op) {
            return table_opened(op);
        }
    }
    None
}

/// The cursor's table, or the cursor's number where it has none.
pub(crate) fn cursor(
    alloc: Global,
    tables: &[TableLabel],
    code: &[Op],
    number: u32,
) -> Result<Text, AllocError>
    ensures { IfOk result (λ text. text ≡ cursor tables.now code.now number) }
{
    match cursor_table(code, number) {
        Some(table) => table_name(alloc, tables, table),
        None => numbered(alloc, "c", number),
    }
}

/// The name of a column of a table.
fn column_name(
    alloc: Global,
    tables: &[TableLabel],
    table: Option<u32>,
    column: u32,
) -> Result<Text, AllocError>
    ensures { IfOk result (λ text. text ≡ column_or column (slice_get (cursor_columns tables.now table) column)) }
{
    let Some(table) = table else {
        return numbered(alloc, "column ", column);
    };
    let Some(label) = tables.get(table as usize) else {
        return numbered(alloc, "column ", column);
    };
    match label.columns.get(column as usize) {
        Some(name) => name.clone(),
        None => numbered(alloc, "column ", column),
    }
}

/// The column of a cursor's row.
pub(crate) fn column(
    alloc: Global,
    tables: &[TableLabel],
    code: &[Op],
    number: u32,
    place: u32,
) -> Result<Text, AllocError>
    ensures { IfOk result (λ text. text ≡ column tables.now code.now number place) }
{
    let table = cursor(alloc, tables, code, number)?;
    let name = column_name(alloc, tables, cursor_table(code, number), place)?;
    text_of(alloc, &[table.as_str(), ".", name.as_str()])
}

/// The rowid of a cursor's row.
pub(crate) fn rowid(
    alloc: Global,
    tables: &[TableLabel],
    code: &[Op],
    number: u32,
) -> Result<Text, AllocError>
    ensures { IfOk result (λ text. text ≡ rowid tables.now code.now number) }
{
    let table = cursor(alloc, tables, code, number)?;
    text_of(alloc, &[table.as_str(), ".rowid"])
}
