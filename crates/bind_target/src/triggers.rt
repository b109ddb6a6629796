// The triggers that a statement opens, each once, and the writes that fire them.
ghost use Rattle.std.specs.Prelude.{◌≡◌, ◌++◌, ◌∷◌, [], codes, slice_set, unwrap_or, IfOk};
ghost use Rattle.bind_source.specs.Arounds.{around_of};
ghost use Rattle.bind_target.specs.Meant.{begun_meant, bound_target, opened_meant};
ghost use Rattle.eng_entry.specs.Entries.{Entries};
ghost use Rattle.eng_value.specs.declared.cause.Cause.TheVariants.{Unknown};
ghost use Rattle.eng_value.specs.declared.cause.NameKind.TheVariants as kind;
ghost use Rattle.sql_bound.specs.Answers.{OnlyMem, Refuses};
ghost use Rattle.sql_bound.specs.Trees.{of_trigger};
ghost use Rattle.sql_bound.specs.Triggers.{header_of, place_of_trigger, row_item};
ghost use Rattle.sql_bound.specs.Writes.{captures_of, is_replace, is_table, is_view, replaces_with, write_with};

use crate::rows::{event_of, row_item};
use crate::written::{Begun, Opened, Target};
use bind_entry::{copied, put};
use bind_source::plain_item;
use bound_tree::{
    BoundExpr, BoundItem, BoundSource, BoundStep, BoundTarget, BoundTrigger, BoundWrite, reversed,
};
use eng_entry::{Entry, is_same_name};
use eng_value::{Cause, NameKind, Text};
use sql_bound::{HostFacts, Need, Sourced};
use sql_tree::{ConflictChoice, TriggerDefinition};
use sqlite_items::Items;
use std::alloc::Global;

/// The place of the trigger of this name, if it is opened.
pub fn place_of_trigger(name: &str, triggers: &[BoundTrigger]) -> Option<usize>
    ensures { result ≡ place_of_trigger name.now triggers.now }
{
    triggers
        .iter()
        .position(|t| is_same_name(t.name.as_bytes(), name.as_bytes()))
}

/// That the trigger of an entry is unknown.
pub fn unknown_trigger(entry: &Entry) -> Result<u32, Cause>
    ensures { Refuses (Unknown kind.Trigger entry.now.name) result }
{
    let name = copied(&entry.name)?;
    Err(Cause::Unknown(NameKind::Trigger, name))
}

fn both_rows(alloc: Global, s: &Sourced) -> Result<Items<BoundItem>, Cause>
    ensures ok { IfOk result (λ rows. rows ≡ row_item (codes "old") s.now ∷ row_item (codes "new") s.now ∷ []) }
    ensures mem { OnlyMem result }
{
    let mut rows = Items::new(alloc);
    let old = row_item(alloc, "old", s)?;
    put(&mut rows, old)?;
    let new = row_item(alloc, "new", s)?;
    put(&mut rows, new)?;
    Ok(rows)
}

/// The name of the table or view that has the trigger.
fn name_of(alloc: Global, s: &Sourced) -> Result<Text, Cause>
    ensures ok { IfOk result (λ name. name ≡ unwrap_or s.now.name []) }
    ensures mem { OnlyMem result }
{
    match &s.name {
        Some(name) => copied(name),
        None => Ok(Text::from_str(alloc, "")?),
    }
}

/// A trigger over these rows, with the condition and the body that it has so far. Only memory can fail.
pub fn trigger_with(
    alloc: Global,
    entry: &Entry,
    s: &Sourced,
    trigger: &TriggerDefinition,
    condition: Option<BoundExpr>,
    body: Items<BoundStep>,
) -> Result<BoundTrigger, Cause>
    ensures ok { IfOk result (λ t. t ≡ record (header_of entry.now s.now (of_trigger trigger.now)) { condition = condition; body = body }) }
    ensures mem { OnlyMem result }
{
    let rows = both_rows(alloc, s)?;
    let name = copied(&entry.name)?;
    let table = name_of(alloc, s)?;
    Ok(BoundTrigger {
        name,
        table,
        time: trigger.time,
        event: event_of(&trigger.event),
        rows,
        condition,
        body,
    })
}

/// Puts a trigger into the place of another; where there is none, nothing is done.
pub fn with_trigger(place: usize, trigger: BoundTrigger, triggers: &mut Items<BoundTrigger>)
    ensures { triggers.new ≡ slice_set triggers.old place trigger }
{
    if place < triggers.len() {
        triggers.set(place, trigger);
    }
}

// ---- what is fired

fn is_replace(choice: ConflictChoice) -> bool
    ensures { result ≡ is_replace choice }
{
    match choice {
        ConflictChoice::Replace => true,
        ConflictChoice::Abort | ConflictChoice::Ignore => false,
    }
}

fn is_view(source: &BoundSource) -> bool
    ensures { result ≡ is_view source.now }
{
    match source {
        BoundSource::View(_, _) => true,
        _ => false,
    }
}

fn is_table(source: &BoundSource) -> bool
    ensures { result ≡ is_table source.now }
{
    match source {
        BoundSource::Table(_, _) => true,
        _ => false,
    }
}

/// Whether the deletes of an OR REPLACE fire: while triggers may fire themselves (PRAGMA recursive_triggers), and only those of tables.
pub fn replaces_with(facts: &HostFacts, begun: &Begun) -> bool
    ensures { (catalog : Entries) → result ≡ replaces_with (around_of catalog facts.now) (begun_meant begun.now) }
{
    is_replace(begun.choice) && facts.recursive_triggers && is_table(&begun.target.source.source)
}

// ---- the write as a whole

fn bound_target(alloc: Global, target: Target) -> BoundTarget
    ensures { result ≡ bound_target target }
{
    let Target {
        name,
        source,
        defaults,
        not_nulls,
        checks,
    } = target;
    BoundTarget {
        item: plain_item(alloc, Some(name), source),
        defaults,
        not_nulls,
        checks,
    }
}

/// What a trigger's row hands over. Only memory can fail.
pub fn captures_of(alloc: Global, needs: Items<Need>) -> Result<Items<BoundExpr>, Cause>
    ensures ok { IfOk result (λ trees. trees ≡ captures_of needs) }
    ensures mem { OnlyMem result }
{
    let mut rest = reversed(alloc, needs)?;
    let mut trees = Items::new(alloc);
    while let Some(need) = rest.pop() {
        put(&mut trees, need.tree)?;
    }
    Ok(trees)
}

/// A write with the triggers that it can fire. Only memory can fail.
pub fn write_with(
    alloc: Global,
    begun: Begun,
    needs: Items<Need>,
    fires: Items<u32>,
    counts: bool,
) -> Result<BoundWrite, Cause>
    ensures ok { IfOk result (λ write. write ≡ write_with (begun_meant begun) needs fires counts) }
    ensures mem { OnlyMem result }
{
    let captures = captures_of(alloc, needs)?;
    let counts = counts && !is_view(&begun.target.source.source);
    let Begun {
        target,
        choice,
        event: _,
        sets: _,
        change,
    } = begun;
    Ok(BoundWrite {
        target: bound_target(alloc, target),
        choice,
        captures,
        change,
        fires,
        upsert: None,
        returning: None,
        counts,
    })
}
