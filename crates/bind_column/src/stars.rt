// What `*` and `table.*` show (SELECT, section 2.4).
ghost use Rattle.std.specs.Prelude.{◌≡◌, ◌++◌, filter, IfOk, OnOk};
ghost use Rattle.std.specs.List.{list_any};
ghost use Rattle.sql_bound.specs.Answers.{Answers, OnlyMem};
ghost use Rattle.sql_bound.specs.Operands.{column_operand};
ghost use Rattle.sql_bound.specs.Scopes.{is_called};
ghost use Rattle.bind_column.specs.Stars.{all_of, shown_in_item, shown_so, those_of};

use bind_scope::{copied_column, is_called, pushed, text_of};
use eng_value::{Cause, NameKind};
use sql_bound::{Form, Operand, ScopeColumn, ScopeItem};
use sqlite_items::Items;
use std::alloc::Global;

/// Whether `*` shows a column, and `table.*` where it is told.
fn is_shown(column: &ScopeColumn, called: bool) -> bool
    ensures { result ≡ shown_so called column.now }
{
    !column.hidden && (called || !column.joined)
}

/// Adds those of an item's columns that are shown.
fn add_shown(
    alloc: Global,
    columns: &[ScopeColumn],
    called: bool,
    shown: &mut Items<ScopeColumn>,
) -> Result<(), Cause>
    ensures ok { OnOk result (shown.new ≡ shown.old ++ filter (shown_so called) columns.now) }
    ensures mem { OnlyMem result }
{
    for column in columns {
        if is_shown(column, called) {
            let copy = copied_column(alloc, column)?;
            pushed(shown, copy)?;
        }
    }
    Ok(())
}

/// The columns that `*` shows: each once that USING joins. Without a FROM it is refused.
pub fn all_shown(alloc: Global, level: &[ScopeItem]) -> Result<Items<ScopeColumn>, Cause>
    ensures { Answers (all_of level.now) result }
{
    if level.is_empty() {
        let star = text_of(alloc, "*")?;
        return Err(Cause::Misuse(star));
    }
    let mut shown = Items::new(alloc);
    for item in level {
        add_shown(alloc, item.columns.as_slice(), false, &mut shown)?;
    }
    Ok(shown)
}

/// Adds those of an item's columns that `table.*` shows.
fn add_called(
    alloc: Global,
    table: &str,
    item: &ScopeItem,
    shown: &mut Items<ScopeColumn>,
) -> Result<(), Cause>
    ensures ok { OnOk result (shown.new ≡ shown.old ++ shown_in_item table.now item.now) }
    ensures mem { OnlyMem result }
{
    if !is_called(table, item) {
        return Ok(());
    }
    add_shown(alloc, item.columns.as_slice(), true, shown)
}

fn any_called(table: &str, level: &[ScopeItem]) -> bool
    ensures { result ≡ list_any (λ item. is_called table.now item.name) level.now }
{
    for item in level {
        if is_called(table, item) {
            return true;
        }
    }
    false
}

/// The columns that `table.*` shows. It is refused where no item of the FROM has the name.
pub fn shown_of(
    alloc: Global,
    table: &str,
    level: &[ScopeItem],
) -> Result<Items<ScopeColumn>, Cause>
    ensures { Answers (those_of table.now level.now) result }
{
    if !any_called(table, level) {
        let table = text_of(alloc, table)?;
        return Err(Cause::Unknown(NameKind::Table, table));
    }
    let mut shown = Items::new(alloc);
    for item in level {
        add_called(alloc, table, item, &mut shown)?;
    }
    Ok(shown)
}

/// A column of the own FROM, as an operand.
pub fn column_operand(column: ScopeColumn) -> Operand
    ensures { result ≡ column_operand column column.tree }
{
    let ScopeColumn {
        name,
        affinity,
        collation,
        tree,
        joined: _,
        hidden: _,
    } = column;
    Operand {
        tree,
        affinity,
        explicit: None,
        column: Some(collation),
        form: Form::Plain,
        name: Some(name),
    }
}
