// What names see of a write: the FROM that is what it writes alone, and OLD and NEW, the rows of a trigger (CREATE TRIGGER, section 2).
// They stand on `scope_item`, how an item is seen by names, which bind_join has.
ghost use Rattle.std.specs.Prelude.{◌≡◌, ◌∷◌, [], Some, codes, IfOk};
ghost use Rattle.sql_bound.specs.Answers.{OnlyMem};
ghost use Rattle.sql_bound.specs.Froms.{scope_item};
ghost use Rattle.sql_bound.specs.Triggers.{row_scope, rows_seen};

use bind_entry::put;
use bind_join::scope_item;
use bind_scope::{copied_text, pushed, text_of};
use bound_tree::FiringEvent;
use eng_value::{Cause, Text};
use sql_bound::{ScopeItem, Sourced};
use sqlite_items::Items;
use std::alloc::Global;

/// The FROM that is what a write writes alone. Only memory can fail.
pub(crate) fn target_level(
    alloc: Global,
    name: &Text,
    s: &Sourced,
) -> Result<Items<ScopeItem>, Cause>
    ensures ok { IfOk result (λ level. level ≡ scope_item 0 (Some name.now) s.now ∷ []) }
    ensures mem { OnlyMem result }
{
    let mut level = Items::new(alloc);
    pushed(
        &mut level,
        scope_item(alloc, 0, Some(copied_text(name)?), s)?,
    )?;
    Ok(level)
}

/// OLD or NEW as names see it: by its name alone.
fn row_scope(alloc: Global, item: u32, name: &str, s: &Sourced) -> Result<ScopeItem, Cause>
    ensures ok { IfOk result (λ i. i ≡ row_scope item name.now s.now) }
    ensures mem { OnlyMem result }
{
    let name = text_of(alloc, name)?;
    let ScopeItem {
        name,
        columns,
        rowid,
        bare: _,
    } = scope_item(alloc, item, Some(name), s)?;
    Ok(ScopeItem {
        name,
        columns,
        rowid,
        bare: false,
    })
}

fn one_row(alloc: Global, item: u32, name: &str, s: &Sourced) -> Result<Items<ScopeItem>, Cause>
    ensures ok { IfOk result (λ rows. rows ≡ row_scope item name.now s.now ∷ []) }
    ensures mem { OnlyMem result }
{
    let mut rows = Items::new(alloc);
    let row = row_scope(alloc, item, name, s)?;
    put(&mut rows, row)?;
    Ok(rows)
}

fn old_and_new(alloc: Global, s: &Sourced) -> Result<Items<ScopeItem>, Cause>
    ensures ok { IfOk result (λ rows. rows ≡ row_scope 0 (codes "old") s.now ∷ row_scope 1 (codes "new") s.now ∷ []) }
    ensures mem { OnlyMem result }
{
    let mut rows = one_row(alloc, 0, "old", s)?;
    let new = row_scope(alloc, 1, "new", s)?;
    put(&mut rows, new)?;
    Ok(rows)
}

/// The rows that a trigger sees: an INSERT has no OLD, and a DELETE no NEW. Only memory can fail.
pub(crate) fn rows_seen(
    alloc: Global,
    event: FiringEvent,
    s: &Sourced,
) -> Result<Items<ScopeItem>, Cause>
    ensures ok { IfOk result (λ rows. rows ≡ rows_seen event s.now) }
    ensures mem { OnlyMem result }
{
    match event {
        FiringEvent::AtDelete => one_row(alloc, 0, "old", s),
        FiringEvent::AtInsert => one_row(alloc, 1, "new", s),
        FiringEvent::AtUpdate => old_and_new(alloc, s),
    }
}
