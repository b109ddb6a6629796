// A table that is being created, as its CHECKs see it.
ghost use Rattle.std.specs.Prelude.{◌≡◌, [], IfOk};
ghost use Rattle.std.specs.List.{list_any};
ghost use Rattle.bind_create.specs.Meant.{level_with, rows_with};
ghost use Rattle.eng_entry.specs.Names.{is_same_name};
ghost use Rattle.sql_bound.specs.Answers.{OnlyMem};
ghost use Rattle.sql_bound.specs.Creates.{behind_first};
ghost use Rattle.sql_bound.specs.declared.scopes.ScopeColumn.{ScopeColumn as Column};

use bind_join::scope_item;
use bind_scope::{copied_text, pushed};
use bind_source::plain_source;
use bound_tree::{BoundColumn, BoundSource, copied_columns, reversed};
use eng_entry::is_same_name;
use eng_value::{Cause, Text};
use sql_bound::{ScopeColumn, ScopeItem, Sourced};
use sqlite_items::Items;
use std::alloc::Global;

/// Whether one of these columns has the name.
fn is_named(columns: &[ScopeColumn], name: &str) -> bool
    ensures { result ≡ list_any (λ (c : Column). is_same_name c.name name.now) columns.now }
{
    columns
        .iter()
        .any(|c| is_same_name(c.name.as_bytes(), name.as_bytes()))
}

/// Of columns of one name the first is found.
fn behind_first(alloc: Global, columns: Items<ScopeColumn>) -> Result<Items<ScopeColumn>, Cause>
    ensures ok { IfOk result (λ made. made ≡ behind_first [] columns) }
    ensures mem { OnlyMem result }
{
    let mut rest = reversed(alloc, columns)?;
    let mut made = Items::new(alloc);
    while let Some(mut column) = rest.pop() {
        column.joined = is_named(made.as_slice(), column.name.as_str());
        pushed(&mut made, column)?;
    }
    Ok(made)
}

/// The rows of a table of this name and these columns.
fn rows_of(
    alloc: Global,
    name: &Text,
    columns: &[BoundColumn],
    rowid: Option<u32>,
) -> Result<Sourced, Cause>
    ensures ok { IfOk result (λ s. s ≡ rows_with name.now columns.now rowid) }
    ensures mem { OnlyMem result }
{
    let source = BoundSource::Table(copied_text(name)?, 0);
    let columns = copied_columns(alloc, columns)?;
    let mut rows = plain_source(alloc, Some(copied_text(name)?), source, columns)?;
    rows.has_rowid = true;
    rows.rowid = rowid;
    Ok(rows)
}

/// The table as its CHECKs see it: all its columns, of those of one name the first. Only memory can fail.
pub(crate) fn level_with(
    alloc: Global,
    name: &Text,
    columns: &[BoundColumn],
    rowid: Option<u32>,
) -> Result<Items<ScopeItem>, Cause>
    ensures ok { IfOk result (λ level. level ≡ level_with name.now columns.now rowid) }
    ensures mem { OnlyMem result }
{
    let rows = rows_of(alloc, name, columns, rowid)?;
    let ScopeItem {
        name,
        columns,
        rowid,
        bare,
    } = scope_item(alloc, 0, Some(copied_text(name)?), &rows)?;
    let columns = behind_first(alloc, columns)?;
    let mut level = Items::new(alloc);
    pushed(
        &mut level,
        ScopeItem {
            name,
            columns,
            rowid,
            bare,
        },
    )?;
    Ok(level)
}
