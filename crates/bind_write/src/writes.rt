// INSERT, UPDATE and DELETE, before the triggers that they can fire.
ghost use Rattle.std.specs.Prelude.{◌≡◌, ◌∷◌, [], map, IfOk, Some};
ghost use Rattle.bind_query.specs.Scopes.{outer_of, scope_of};
ghost use Rattle.bind_target.specs.Meant.{ComesAs, begun_meant, target_meant};
ghost use Rattle.bind_write.specs.Parts.{delete_parts, deleted, insert_parts, update_parts, updated};
ghost use Rattle.sql_bound.specs.Answers.{Comes, Goes, OnlyMem};
ghost use Rattle.sql_bound.specs.Expressions.{asked};
ghost use Rattle.sql_bound.specs.Trees.{of_assignment, of_insert_source, of_query};
ghost use Rattle.sql_bound.specs.Writes.{delete_begun, insert_begun, inserted_from, set_bound, set_names, sets_bound, update_begun};

use crate::scoped::target_level;
use crate::targets::bind_target;
use bind_column::{room_behind, width_fits};
use bind_entry::{name, put};
use bind_query::{STEPS, Scope, bind, bind_filter, bind_query, with_level};
use bind_scope::handed;
use bind_target::{Begun, Target, found_place, insertion, places_named};
use bound_tree::{BoundChange, BoundExpr, BoundSet, FiringEvent};
use eng_value::{Cause, Text};
use sql_bound::{Asked, ScopeItem, Standing, Work};
use sql_tree::{Assignment, ConflictChoice, Delete, Insert, InsertSource, Query, Update};
use sqlite_items::Items;
use std::alloc::Global;
use std::mem;

// ---- INSERT

/// A query that is asked where it stands, and what it is asked with.
fn ask<'a>(
    alloc: Global,
    scope: &Scope<'a>,
    levels: &[Items<ScopeItem>],
    query: &'a Query,
    work: &mut Work,
) -> Result<(Asked, Items<BoundExpr>), Cause>
    ensures { Comes (asked work.old ((of_query query.now).bound (outer_of scope.now levels.now []) work.old.units)) result work.new }
{
    let units = mem::replace(&mut work.units, Items::new(alloc));
    let (asked, units) = bind_query(alloc, STEPS, scope, levels, &[], query, units)?;
    work.units = units;
    let arguments = handed(alloc, asked.needs.as_slice(), work)?;
    Ok((asked, arguments))
}

/// The rows of a query: a source is asked over the arguments of the write alone.
fn bind_source_query<'a>(
    alloc: Global,
    scope: &Scope<'a>,
    levels: &[Items<ScopeItem>],
    target: &Target,
    listed: &[Option<u32>],
    query: &'a Query,
    work: &mut Work,
) -> Result<BoundChange, Cause>
    ensures { Comes (inserted_from (outer_of scope.now levels.now []) (target_meant target.now) listed.now (Some (of_query query.now)) work.old) result work.new }
{
    let levels = with_level(alloc, Items::new(alloc), levels)?;
    let (asked, arguments) = ask(alloc, scope, levels.as_slice(), query, work)?;
    width_fits(
        alloc,
        target.name.as_str(),
        listed.len(),
        asked.columns.len(),
    )?;
    insertion(alloc, target, listed, asked.unit, arguments)
}

fn bind_source<'a>(
    alloc: Global,
    scope: &Scope<'a>,
    levels: &[Items<ScopeItem>],
    target: &Target,
    listed: &[Option<u32>],
    source: &'a InsertSource,
    work: &mut Work,
) -> Result<BoundChange, Cause>
    ensures { Comes (inserted_from (outer_of scope.now levels.now []) (target_meant target.now) listed.now (of_insert_source source.now) work.old) result work.new }
{
    match source {
        InsertSource::Query(query) => bind_source_query(
            alloc, scope, levels, target, listed, query, work,
        ),
        InsertSource::Defaults => Ok(BoundChange::Defaulted),
    }
}

/// INSERT before its triggers: the target, the columns, then the source.
pub(crate) fn begin_insert<'a>(
    alloc: Global,
    scope: &Scope<'a>,
    levels: &[Items<ScopeItem>],
    insert: &'a Insert,
    work: &mut Work,
) -> Result<Begun, Cause>
    ensures { ComesAs begun_meant (insert_begun (outer_of scope.now levels.now []) (insert_parts insert.now) work.old) result work.new }
{
    let table = name(alloc, scope.text, &insert.table)?;
    let event = FiringEvent::AtInsert;
    let target = bind_target(alloc, scope, table.as_str(), event, &[], work)?;
    let columns = insert.columns.as_slice();
    let listed = places_named(alloc, &target, scope.text, columns)?;
    let listed = listed.as_slice();
    let change = bind_source(alloc, scope, levels, &target, listed, &insert.source, work)?;
    Ok(Begun {
        target,
        choice: insert.choice,
        event,
        sets: Items::new(alloc),
        change,
    })
}

// ---- UPDATE

/// The names that are set.
fn set_names(alloc: Global, text: &str, sets: &[Assignment]) -> Result<Items<Text>, Cause>
    ensures ok { IfOk result (λ names. names ≡ set_names text.now (map of_assignment sets.now)) }
    ensures mem { OnlyMem result }
{
    let mut names = Items::new(alloc);
    for set in sets {
        let one = name(alloc, text, &set.column)?;
        put(&mut names, one)?;
    }
    Ok(names)
}

/// Puts `column = value` behind others.
fn put_set<'a>(
    alloc: Global,
    scope: &Scope<'a>,
    levels: &[Items<ScopeItem>],
    target: &Target,
    set: &'a Assignment,
    sets: &mut Items<BoundSet>,
    work: &mut Work,
) -> Result<(), Cause>
    ensures { Goes (set_bound (scope_of scope.now levels.now []) (target_meant target.now) (of_assignment set.now) (sets.old, work.old)) result sets.new work.new }
{
    room_behind(sets.as_slice())?;
    let name = name(alloc, scope.text, &set.column)?;
    let column = found_place(alloc, &target.source, name.as_str())?;
    let a = bind(alloc, STEPS, scope, levels, &[], &set.value, work)?;
    put(
        sets,
        BoundSet {
            column,
            value: a.tree,
        },
    )
}

/// SET, from left to right.
fn bind_sets<'a>(
    alloc: Global,
    scope: &Scope<'a>,
    levels: &[Items<ScopeItem>],
    target: &Target,
    assignments: &'a [Assignment],
    work: &mut Work,
) -> Result<Items<BoundSet>, Cause>
    ensures { Comes (sets_bound (scope_of scope.now levels.now []) (target_meant target.now) (map of_assignment assignments.now) ([], work.old)) result work.new }
{
    let mut sets = Items::new(alloc);
    for set in assignments {
        put_set(alloc, scope, levels, target, set, &mut sets, work)?;
    }
    Ok(sets)
}

/// The target's row in front of what is around the write.
fn row_levels(
    alloc: Global,
    target: &Target,
    levels: &[Items<ScopeItem>],
) -> Result<Items<Items<ScopeItem>>, Cause>
    ensures ok { IfOk result (λ all. all ≡ (target_meant target.now).level ∷ levels.now) }
    ensures mem { OnlyMem result }
{
    let level = target_level(alloc, &target.name, &target.source)?;
    with_level(alloc, level, levels)
}

/// UPDATE before its triggers: the target, SET, then WHERE.
pub(crate) fn begin_update<'a>(
    alloc: Global,
    scope: &Scope<'a>,
    levels: &[Items<ScopeItem>],
    update: &'a Update,
    work: &mut Work,
) -> Result<Begun, Cause>
    ensures { ComesAs begun_meant (update_begun (outer_of scope.now levels.now []) (update_parts update.now) work.old) result work.new }
{
    let table = name(alloc, scope.text, &update.table)?;
    let assignments = update.assignments.as_slice();
    let sets = set_names(alloc, scope.text, assignments)?;
    let event = FiringEvent::AtUpdate;
    let target = bind_target(alloc, scope, table.as_str(), event, sets.as_slice(), work)?;
    let change = bind_update_of(alloc, scope, levels, &target, update, work)?;
    Ok(Begun {
        target,
        choice: update.choice,
        event,
        sets,
        change,
    })
}

/// SET and WHERE over the target's row.
fn bind_update_of<'a>(
    alloc: Global,
    scope: &Scope<'a>,
    levels: &[Items<ScopeItem>],
    target: &Target,
    update: &'a Update,
    work: &mut Work,
) -> Result<BoundChange, Cause>
    ensures { Comes (updated (outer_of scope.now levels.now []) (target_meant target.now) (update_parts update.now) work.old) result work.new }
{
    let all = row_levels(alloc, target, levels)?;
    let row = scope.clause(Standing::Nowhere, &[]);
    let assignments = update.assignments.as_slice();
    let sets = bind_sets(alloc, &row, all.as_slice(), target, assignments, work)?;
    let filter = &update.filter;
    let conjuncts = bind_filter(alloc, STEPS, &row, all.as_slice(), &[], filter, work)?;
    Ok(BoundChange::Updated(sets, conjuncts))
}

// ---- DELETE

/// WHERE over the target's row.
fn bind_delete_of<'a>(
    alloc: Global,
    scope: &Scope<'a>,
    levels: &[Items<ScopeItem>],
    target: &Target,
    delete: &'a Delete,
    work: &mut Work,
) -> Result<BoundChange, Cause>
    ensures { Comes (deleted (outer_of scope.now levels.now []) (target_meant target.now) (delete_parts delete.now) work.old) result work.new }
{
    let all = row_levels(alloc, target, levels)?;
    let row = scope.clause(Standing::Nowhere, &[]);
    let filter = &delete.filter;
    let conjuncts = bind_filter(alloc, STEPS, &row, all.as_slice(), &[], filter, work)?;
    Ok(BoundChange::Deleted(conjuncts))
}

/// DELETE before its triggers: the target, then WHERE.
pub(crate) fn begin_delete<'a>(
    alloc: Global,
    scope: &Scope<'a>,
    levels: &[Items<ScopeItem>],
    delete: &'a Delete,
    work: &mut Work,
) -> Result<Begun, Cause>
    ensures { ComesAs begun_meant (delete_begun (outer_of scope.now levels.now []) (delete_parts delete.now) work.old) result work.new }
{
    let table = name(alloc, scope.text, &delete.table)?;
    let event = FiringEvent::AtDelete;
    let target = bind_target(alloc, scope, table.as_str(), event, &[], work)?;
    let change = bind_delete_of(alloc, scope, levels, &target, delete, work)?;
    Ok(Begun {
        target,
        choice: ConflictChoice::Abort,
        event,
        sets: Items::new(alloc),
        change,
    })
}
