// Changes of the tables, and how they are taken back.
ghost use Rattle.std.specs.Prelude.{◌≡◌, drop, take};
ghost use Rattle.vm_tables.specs.Changes.{before, undone};
ghost use Rattle.vm_tables.specs.declared.change.Change.TheVariants.{RowPut, RowsDropped};

use crate::table::Table;

/// What was changed, as far as taking it back needs to know.
#[derive(Drop)]
pub(crate) enum Change {
    /// A row came under a rowid that was free.
    RowPut { table: u32, rowid: i64 },
    /// A table came behind the others.
    TableAdded,
    /// A table lost all its rows, which are these.
    RowsDropped { table: u32, rows: Table },
}

/// Takes back the changes of a log from a place on, the last first. Takes no memory.
pub(crate) fn take_back(tables: &mut Vec<Table>, log: &mut Vec<Change>, from: usize)
    ensures tables { tables.new.items ≡ before (drop from log.old.items) tables.old.items }
    ensures log { log.new.items ≡ take from log.old.items }
{
    while log.len() > from {
        match log.pop() {
            Some(change) => undo(tables, change),
            None => return,
        }
    }
}

/// Takes a change back. Takes no memory.
fn undo(tables: &mut Vec<Table>, change: Change)
    ensures { tables.new.items ≡ undone change tables.old.items }
{
    match change {
        Change::RowPut { table, rowid } => drop_row(tables, table as usize, rowid),
        Change::TableAdded => {
            tables.pop();
        }
        Change::RowsDropped { table, rows } => give_rows(tables, table as usize, rows),
    }
}

fn drop_row(tables: &mut Vec<Table>, table: usize, rowid: i64)
    ensures { tables.new.items ≡ undone (RowPut table rowid) tables.old.items }
{
    if table < tables.len() {
        tables[table].drop_row(rowid);
    }
}

/// Gives a table the rows that it lost.
fn give_rows(tables: &mut Vec<Table>, table: usize, rows: Table)
    ensures { tables.new.items ≡ undone (RowsDropped table rows) tables.old.items }
{
    if table < tables.len() {
        tables[table] = rows;
    }
}
