// The triggers that a write can fire, and the writes of their bodies. A trigger that is met is opened once: its place is taken before its
// body is bound, so that what its body fires may name it. `left` says how many triggers are not opened yet.
ghost use Rattle.std.specs.Prelude.{◌≡◌, ℕ, ◌&&◌, true, [], ◌∷◌, length, map, Ok, IfOk};
ghost use Rattle.bind_query.specs.Scopes.{around_of, outer_of, scope_of};
ghost use Rattle.bind_target.specs.Meant.{begun_meant, opened_meant};
ghost use Rattle.bind_write.specs.Parts.{condition_in, delete_parts, insert_parts, update_parts};
ghost use Rattle.sql_bound.specs.Answers.{Comes, Goes, OnlyMem};
ghost use Rattle.sql_bound.specs.Scopes.{begun};
ghost use Rattle.sql_bound.specs.Targets.{can_fire};
ghost use Rattle.sql_bound.specs.Trees.{of_option, of_query, of_rows, of_trigger};
ghost use Rattle.sql_bound.specs.Triggers.{opened_now, opening, opening_of, rows_seen, step_bound, steps_bound, trigger_at_place, trigger_of};
ghost use Rattle.sql_bound.specs.Writes.{delete_begun, deleting, fired_all, fired_one, fires, insert_begun, replaces_with, update_begun, write_bound};
ghost use Rattle.sql_bound.specs.Carriers.{Queries};

use crate::scoped::rows_seen;
use crate::writes::{begin_delete, begin_insert, begin_update};
use bind_entry::{put, small, trigger_of};
use bind_query::{STEPS, Scope, bind, bind_query};
use bind_scope::pushed;
use bind_target::{
    Begun, Opened, can_fire, captures_of, event_of, place_of_trigger, replaces_with, trigger_with,
    unknown_trigger, with_trigger, write_with,
};
use bound_tree::{BoundExpr, BoundStep, BoundWrite, FiringEvent};
use eng_entry::{Entry, Space};
use eng_value::Cause;
use sql_bound::{Allowed, Asked, ScopeItem, Sourced, Work};
use sql_tree::{Delete, Expr, Insert, Query, RowCommand, TriggerDefinition, Update};
use sqlite_items::Items;
use std::alloc::Global;
use std::mem;

/// In a trigger RAISE may stand, too.
const IN_TRIGGER: Allowed = Allowed {
    hosts: true,
    queries: true,
    columns: true,
    parameters: true,
    raises: true,
};

/// What a statement has opened so far, as work that begins.
fn begun_work(alloc: Global, opened: &mut Opened) -> Work
    ensures work { result ≡ begun opened.old.units }
    ensures triggers { opened.new.triggers ≡ opened.old.triggers }
{
    Work {
        units: mem::replace(&mut opened.units, Items::new(alloc)),
        needs: Items::new(alloc),
        aggregates: Items::new(alloc),
    }
}

// ---- which triggers are fired

/// Whether REPLACE's deletes fire the trigger of an entry.
fn fires_replaced(
    alloc: Global,
    scope: &Scope<'_>,
    begun: &Begun,
    entry: &Entry,
) -> Result<bool, Cause>
    ensures ok { IfOk result (λ is. is ≡ (replaces_with (around_of scope.now) (begun_meant begun.now) && can_fire begun.now.target.name begun.now.target.source deleting entry.now)) }
    ensures mem { OnlyMem result }
{
    if !replaces_with(scope.facts, begun) {
        return Ok(false);
    }
    let target = &begun.target;
    let event = FiringEvent::AtDelete;
    can_fire(
        alloc,
        target.name.as_str(),
        &target.source,
        event,
        &[],
        entry,
    )
}

/// Whether a write can fire the trigger of an entry, by what it does itself or by REPLACE's deletes.
fn fires(alloc: Global, scope: &Scope<'_>, begun: &Begun, entry: &Entry) -> Result<bool, Cause>
    ensures ok { IfOk result (λ is. is ≡ fires (around_of scope.now) (begun_meant begun.now) entry.now) }
    ensures mem { OnlyMem result }
{
    let target = &begun.target;
    let own = can_fire(
        alloc,
        target.name.as_str(),
        &target.source,
        begun.event,
        begun.sets.as_slice(),
        entry,
    )?;
    let replaced = fires_replaced(alloc, scope, begun, entry)?;
    Ok(own || replaced)
}

/// Opens the trigger of an entry, if the write can fire it.
#[cycle(firing)]
fn fire_one<'a>(
    alloc: Global,
    left: usize,
    scope: &Scope<'a>,
    begun: &Begun,
    entry: &'a Entry,
    fired: &mut Items<u32>,
    opened: &mut Opened,
) -> Result<(), Cause>
    ensures { Goes (fired_one (opening_of trigger_of (around_of scope.now) left) (begun_meant begun.now) (fires (around_of scope.now) (begun_meant begun.now) entry.now) entry.now (fired.old, opened_meant opened.old)) result fired.new (opened_meant opened.new) }
{
    if !fires(alloc, scope, begun, entry)? {
        return Ok(());
    }
    let place = open(alloc, left, scope, &begun.target.source, entry, opened)?;
    put(fired, place)
}

/// The triggers that a write can fire, of these entries.
#[cycle(firing)]
fn fire_all<'a>(
    alloc: Global,
    left: usize,
    scope: &Scope<'a>,
    begun: &Begun,
    entries: &'a [Entry],
    opened: &mut Opened,
) -> Result<Items<u32>, Cause>
    ensures { Comes (fired_all (opening_of trigger_of (around_of scope.now) left) (around_of scope.now) (begun_meant begun.now) entries.now ([], opened_meant opened.old)) result (opened_meant opened.new) }
{
    let mut fired = Items::new(alloc);
    for entry in entries {
        fire_one(alloc, left, scope, begun, entry, &mut fired, opened)?;
    }
    Ok(fired)
}

/// A write that is begun, with the triggers that it can fire.
#[cycle(firing)]
fn fire<'a>(
    alloc: Global,
    left: usize,
    scope: &Scope<'a>,
    begun: Begun,
    work: Work,
    counts: bool,
    opened: &mut Opened,
) -> Result<BoundWrite, Cause>
    ensures { Comes (write_bound (opening_of trigger_of (around_of scope.now) left) (around_of scope.now) counts (Ok (begun_meant begun, work)) (opened_meant opened.old)) result (opened_meant opened.new) }
{
    let Work {
        units,
        needs,
        aggregates: _,
    } = work;
    opened.units = units;
    let entries = scope.catalog.entries(Space::Triggers);
    let fired = fire_all(alloc, left, scope, &begun, entries, opened)?;
    write_with(alloc, begun, needs, fired, counts)
}

// ---- writes

/// INSERT with the triggers that it can fire.
#[cycle(firing)]
fn insert_with<'a>(
    alloc: Global,
    left: usize,
    scope: &Scope<'a>,
    levels: &[Items<ScopeItem>],
    insert: &'a Insert,
    counts: bool,
    opened: &mut Opened,
) -> Result<BoundWrite, Cause>
    ensures { Comes (write_bound (opening_of trigger_of (around_of scope.now) left) (around_of scope.now) counts (insert_begun (outer_of scope.now levels.now []) (insert_parts insert.now) (begun opened.old.units)) (opened_meant opened.old)) result (opened_meant opened.new) }
{
    let mut work = begun_work(alloc, opened);
    let begun = begin_insert(alloc, scope, levels, insert, &mut work)?;
    fire(alloc, left, scope, begun, work, counts, opened)
}

/// UPDATE with the triggers that it can fire.
#[cycle(firing)]
fn update_with<'a>(
    alloc: Global,
    left: usize,
    scope: &Scope<'a>,
    levels: &[Items<ScopeItem>],
    update: &'a Update,
    counts: bool,
    opened: &mut Opened,
) -> Result<BoundWrite, Cause>
    ensures { Comes (write_bound (opening_of trigger_of (around_of scope.now) left) (around_of scope.now) counts (update_begun (outer_of scope.now levels.now []) (update_parts update.now) (begun opened.old.units)) (opened_meant opened.old)) result (opened_meant opened.new) }
{
    let mut work = begun_work(alloc, opened);
    let begun = begin_update(alloc, scope, levels, update, &mut work)?;
    fire(alloc, left, scope, begun, work, counts, opened)
}

/// DELETE with the triggers that it can fire.
#[cycle(firing)]
fn delete_with<'a>(
    alloc: Global,
    left: usize,
    scope: &Scope<'a>,
    levels: &[Items<ScopeItem>],
    delete: &'a Delete,
    counts: bool,
    opened: &mut Opened,
) -> Result<BoundWrite, Cause>
    ensures { Comes (write_bound (opening_of trigger_of (around_of scope.now) left) (around_of scope.now) counts (delete_begun (outer_of scope.now levels.now []) (delete_parts delete.now) (begun opened.old.units)) (opened_meant opened.old)) result (opened_meant opened.new) }
{
    let mut work = begun_work(alloc, opened);
    let begun = begin_delete(alloc, scope, levels, delete, &mut work)?;
    fire(alloc, left, scope, begun, work, counts, opened)
}

/// How many triggers may be opened at most.
fn all_left(scope: &Scope<'_>) -> usize
    ensures { result ≡ length (around_of scope.now).catalog.triggers }
{
    scope.catalog.entries(Space::Triggers).len()
}

/// INSERT, with the triggers that it can fire: its rows count. It is that of a statement, so that no row is around it.
pub fn bind_insert<'a>(
    alloc: Global,
    scope: &Scope<'a>,
    insert: &'a Insert,
    opened: &mut Opened,
) -> Result<BoundWrite, Cause>
    ensures { Comes (write_bound (opening (around_of scope.now)) (around_of scope.now) true (insert_begun (outer_of scope.now [] []) (insert_parts insert.now) (begun opened.old.units)) (opened_meant opened.old)) result (opened_meant opened.new) }
{
    insert_with(alloc, all_left(scope), scope, &[], insert, true, opened)
}

/// UPDATE, with the triggers that it can fire.
pub fn bind_update<'a>(
    alloc: Global,
    scope: &Scope<'a>,
    update: &'a Update,
    opened: &mut Opened,
) -> Result<BoundWrite, Cause>
    ensures { Comes (write_bound (opening (around_of scope.now)) (around_of scope.now) true (update_begun (outer_of scope.now [] []) (update_parts update.now) (begun opened.old.units)) (opened_meant opened.old)) result (opened_meant opened.new) }
{
    update_with(alloc, all_left(scope), scope, &[], update, true, opened)
}

/// DELETE, with the triggers that it can fire.
pub fn bind_delete<'a>(
    alloc: Global,
    scope: &Scope<'a>,
    delete: &'a Delete,
    opened: &mut Opened,
) -> Result<BoundWrite, Cause>
    ensures { Comes (write_bound (opening (around_of scope.now)) (around_of scope.now) true (delete_begun (outer_of scope.now [] []) (delete_parts delete.now) (begun opened.old.units)) (opened_meant opened.old)) result (opened_meant opened.new) }
{
    delete_with(alloc, all_left(scope), scope, &[], delete, true, opened)
}

// ---- bodies

/// A query in a body.
fn ask_step<'a>(
    alloc: Global,
    scope: &Scope<'a>,
    levels: &[Items<ScopeItem>],
    query: &'a Query,
    opened: &mut Opened,
) -> Result<BoundStep, Cause>
    ensures { (left : ℕ) → Comes (step_bound (opening_of trigger_of (around_of scope.now) left) (around_of scope.now) (outer_of scope.now levels.now []) (Queries (of_query query.now)) (opened_meant opened.old)) result (opened_meant opened.new) }
{
    let units = mem::replace(&mut opened.units, Items::new(alloc));
    let (asked, units) = bind_query(alloc, STEPS, scope, levels, &[], query, units)?;
    opened.units = units;
    let Asked {
        unit,
        needs,
        columns: _,
    } = asked;
    Ok(BoundStep::Asks(unit, captures_of(alloc, needs)?))
}

/// A statement in a body: a write there does not count.
#[cycle(firing)]
fn bind_step<'a>(
    alloc: Global,
    left: usize,
    scope: &Scope<'a>,
    levels: &[Items<ScopeItem>],
    command: &'a RowCommand,
    opened: &mut Opened,
) -> Result<BoundStep, Cause>
    ensures { Comes (step_bound (opening_of trigger_of (around_of scope.now) left) (around_of scope.now) (outer_of scope.now levels.now []) (of_rows command.now) (opened_meant opened.old)) result (opened_meant opened.new) }
{
    match command {
        RowCommand::Query(query) => ask_step(alloc, scope, levels, query, opened),
        RowCommand::Insert(insert) => Ok(BoundStep::Writes(insert_with(
            alloc, left, scope, levels, insert, false, opened,
        )?)),
        RowCommand::Update(update) => Ok(BoundStep::Writes(update_with(
            alloc, left, scope, levels, update, false, opened,
        )?)),
        RowCommand::Delete(delete) => Ok(BoundStep::Writes(delete_with(
            alloc, left, scope, levels, delete, false, opened,
        )?)),
    }
}

/// A body, a statement after another.
#[cycle(firing)]
fn bind_steps<'a>(
    alloc: Global,
    left: usize,
    scope: &Scope<'a>,
    levels: &[Items<ScopeItem>],
    body: &'a [RowCommand],
    opened: &mut Opened,
) -> Result<Items<BoundStep>, Cause>
    ensures { Comes (steps_bound (opening_of trigger_of (around_of scope.now) left) (around_of scope.now) (outer_of scope.now levels.now []) (map of_rows body.now) (opened_meant opened.old)) result (opened_meant opened.new) }
{
    let mut steps = Items::new(alloc);
    for command in body {
        let step = bind_step(alloc, left, scope, levels, command, opened)?;
        put(&mut steps, step)?;
    }
    Ok(steps)
}

// ---- opening

/// WHEN, over the rows that the trigger sees.
fn bind_condition<'a>(
    alloc: Global,
    scope: &Scope<'a>,
    levels: &[Items<ScopeItem>],
    condition: &'a Option<Expr>,
    opened: &mut Opened,
) -> Result<Option<BoundExpr>, Cause>
    ensures { Comes (condition_in (scope_of scope.now levels.now []) (of_option condition.now) (opened_meant opened.old)) result (opened_meant opened.new) }
{
    match condition {
        Some(e) => {
            let mut work = begun_work(alloc, opened);
            let a = bind(alloc, STEPS, scope, levels, &[], e, &mut work)?;
            opened.units = work.units;
            Ok(Some(a.tree))
        }
        None => Ok(None),
    }
}

/// The rows that a trigger sees, as the FROM that is around its WHEN and the statements of its body.
fn trigger_levels(
    alloc: Global,
    s: &Sourced,
    event: FiringEvent,
) -> Result<Items<Items<ScopeItem>>, Cause>
    ensures ok { IfOk result (λ levels. levels ≡ rows_seen event s.now ∷ []) }
    ensures mem { OnlyMem result }
{
    let rows = rows_seen(alloc, event, s)?;
    let mut levels = Items::new(alloc);
    pushed(&mut levels, rows)?;
    Ok(levels)
}

/// Opens a trigger: its place is taken, then WHEN and the body are bound.
#[cycle(firing)]
fn open_at<'a>(
    alloc: Global,
    left: usize,
    scope: &Scope<'a>,
    s: &Sourced,
    entry: &'a Entry,
    trigger: &'a TriggerDefinition,
    opened: &mut Opened,
) -> Result<u32, Cause>
    ensures { Comes (trigger_at_place (opening_of trigger_of (around_of scope.now) left) (around_of scope.now) s.now entry.now (of_trigger trigger.now) (length opened.old.triggers) (opened_meant opened.old)) result (opened_meant opened.new) }
{
    let place = opened.triggers.len();
    let number = small(place)?;
    let header = trigger_with(alloc, entry, s, trigger, None, Items::new(alloc))?;
    put(&mut opened.triggers, header)?;
    let inside = Scope::of_entry(entry, scope.catalog, scope.facts, IN_TRIGGER);
    let levels = trigger_levels(alloc, s, event_of(&trigger.event))?;
    let levels = levels.as_slice();
    let condition = bind_condition(alloc, &inside, levels, &trigger.condition, opened)?;
    let body = bind_steps(
        alloc,
        left,
        &inside,
        levels,
        trigger.body.as_slice(),
        opened,
    )?;
    let whole = trigger_with(alloc, entry, s, trigger, condition, body)?;
    with_trigger(place, whole, &mut opened.triggers);
    Ok(number)
}

/// Opens the trigger of an entry.
#[cycle(firing)]
fn open_now<'a>(
    alloc: Global,
    left: usize,
    scope: &Scope<'a>,
    s: &Sourced,
    entry: &'a Entry,
    opened: &mut Opened,
) -> Result<u32, Cause>
    ensures { Comes (opened_now (opening_of trigger_of (around_of scope.now) left) (around_of scope.now) s.now entry.now (trigger_of entry.now) (opened_meant opened.old)) result (opened_meant opened.new) }
{
    match trigger_of(entry) {
        Some(trigger) => open_at(alloc, left, scope, s, entry, trigger, opened),
        None => unknown_trigger(entry),
    }
}

/// The place of the trigger of an entry, opened now or before.
#[cycle(firing)]
fn open<'a>(
    alloc: Global,
    left: usize,
    scope: &Scope<'a>,
    s: &Sourced,
    entry: &'a Entry,
    opened: &mut Opened,
) -> Result<u32, Cause>
    ensures { Comes (opening_of trigger_of (around_of scope.now) left s.now entry.now (opened_meant opened.old)) result (opened_meant opened.new) }
{
    match place_of_trigger(entry.name.as_str(), opened.triggers.as_slice()) {
        Some(place) => small(place),
        None => match left.checked_sub(1) {
            Some(left) => open_now(alloc, left, scope, s, entry, opened),
            None => unknown_trigger(entry),
        },
    }
}
