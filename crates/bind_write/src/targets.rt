// What a write writes: a table, a table of a module, or a view that has a trigger for it.
ghost use Rattle.std.specs.Prelude.{[], Some};
ghost use Rattle.std.specs.Option.{option_copied};
ghost use Rattle.bind_query.specs.Scopes.{outer_of};
ghost use Rattle.bind_source.specs.Arounds.{around_of};
ghost use Rattle.bind_target.specs.Meant.{ComesAs, firing_meant, target_meant};
ghost use Rattle.bound_tree.specs.declared.writes.FiringEvent.TheVariants as firing_event;
ghost use Rattle.eng_entry.specs.declared.entry.EntryKind.TheVariants as kind;
ghost use Rattle.sql_bound.specs.Answers.{Comes};
ghost use Rattle.sql_bound.specs.Declarations.{declared_table};
ghost use Rattle.sql_bound.specs.Froms.{nothing_found, of_catalog, of_entry, of_eponymous, of_view};
ghost use Rattle.sql_bound.specs.HostFacts.{facts_of};
ghost use Rattle.sql_bound.specs.Targets.{declared_target, inside_write, table_target, target_bound};

use crate::constraints::{bind_checks, bind_defaults};
use bind_entry::{host_module, table_named, table_of, view_of};
use bind_query::{IN_STATEMENT, STEPS, Scope, bind_query};
use bind_source::{module_there, no_table, of_table};
use bind_target::{
    Target, may_write_module, may_write_view, module_rows, not_nulls_of, plain_target, shown_name,
};
use bind_with::view_source;
use bound_tree::FiringEvent;
use eng_catalog::Catalog;
use eng_entry::{Entry, EntryKind};
use eng_value::{Cause, Text};
use sql_bound::{HostFacts, Sourced, Work};
use sql_tree::{TableDefinition, ViewDefinition};
use sqlite_items::Items;
use std::alloc::Global;
use std::mem;

// ---- its rows

/// The rows of a view, whose query is bound in the view's own text.
fn bind_view<'a>(
    alloc: Global,
    scope: &Scope<'a>,
    name: &str,
    entry: &'a Entry,
    view: &'a ViewDefinition,
    work: &mut Work,
) -> Result<Sourced, Cause>
    ensures { Comes (of_view (inside_write (outer_of scope.now [] [])) name.now entry.now (Some view.now) work.old) result work.new }
{
    let inside = Scope::of_entry(entry, scope.catalog, scope.facts, IN_STATEMENT);
    let units = mem::replace(&mut work.units, Items::new(alloc));
    let (asked, units) = bind_query(alloc, STEPS, &inside, &[], &[], &view.query, units)?;
    work.units = units;
    view_source(alloc, entry, view, asked.unit, asked.columns)
}

fn bind_view_of<'a>(
    alloc: Global,
    scope: &Scope<'a>,
    name: &str,
    entry: &'a Entry,
    work: &mut Work,
) -> Result<Sourced, Cause>
    ensures { Comes (of_entry (inside_write (outer_of scope.now [] [])) name.now entry.now kind.View [] nothing_found work.old) result work.new }
{
    match view_of(entry) {
        Some(view) => bind_view(alloc, scope, name, entry, view, work),
        None => no_table(alloc, name),
    }
}

fn rows_of_module<'a>(
    alloc: Global,
    scope: &Scope<'a>,
    name: &str,
    entry: &'a Entry,
    work: &mut Work,
) -> Result<Sourced, Cause>
    ensures { Comes (of_entry (inside_write (outer_of scope.now [] [])) name.now entry.now kind.Module [] nothing_found work.old) result work.new }
{
    module_there(scope.facts, entry)?;
    module_rows(
        alloc,
        scope.facts,
        entry.name.as_str(),
        entry.owner.as_str(),
        entry.number,
    )
}

/// The rows of what an entry of the catalog names.
fn rows_of_entry<'a>(
    alloc: Global,
    scope: &Scope<'a>,
    name: &str,
    entry: &'a Entry,
    work: &mut Work,
) -> Result<Sourced, Cause>
    ensures { Comes (of_entry (inside_write (outer_of scope.now [] [])) name.now entry.now entry.now.kind [] nothing_found work.old) result work.new }
{
    match entry.kind {
        EntryKind::Table => of_table(alloc, scope.facts, scope.catalog, name, entry),
        EntryKind::View => bind_view_of(alloc, scope, name, entry, work),
        EntryKind::Module => rows_of_module(alloc, scope, name, entry, work),
        EntryKind::Index | EntryKind::Trigger => no_table(alloc, name),
    }
}

/// The rows of a module whose name stands for a table.
fn rows_of_eponymous<'a>(
    alloc: Global,
    scope: &Scope<'a>,
    name: &str,
    work: &mut Work,
) -> Result<Sourced, Cause>
    ensures { Comes (of_eponymous (inside_write (outer_of scope.now [] [])) name.now ((facts_of scope.now.facts).host_module name.now) [] nothing_found work.old) result work.new }
{
    match host_module(scope.facts, name) {
        Some((eponymous, _)) => {
            if eponymous {
                return module_rows(alloc, scope.facts, name, name, 0);
            }
            no_table(alloc, name)
        }
        None => no_table(alloc, name),
    }
}

/// The rows of the table or view of a name, by its entry if the catalog has one.
pub fn bind_rows<'a>(
    alloc: Global,
    scope: &Scope<'a>,
    name: &str,
    entry: Option<&'a Entry>,
    work: &mut Work,
) -> Result<Sourced, Cause>
    ensures { Comes (of_catalog (inside_write (outer_of scope.now [] [])) name.now (option_copied entry.entry) [] nothing_found work.old) result work.new }
{
    match entry {
        Some(entry) => rows_of_entry(alloc, scope, name, entry, work),
        None => rows_of_eponymous(alloc, scope, name, work),
    }
}

// ---- what its entry declares

/// A table with its defaults and constraints.
fn table_target<'a>(
    alloc: Global,
    catalog: &'a Catalog,
    facts: &'a HostFacts,
    entry: &'a Entry,
    table: &'a TableDefinition,
    name: Text,
    s: Sourced,
    work: &mut Work,
) -> Result<Target, Cause>
    ensures { ComesAs target_meant (table_target (around_of catalog.now facts.now) entry.now.text s (declared_table (facts_of facts.now) entry.now.text table.now) name work.old) result work.new }
{
    let text = entry.text.as_str();
    let columns = table.columns.as_slice();
    let defaults = bind_defaults(alloc, catalog, facts, text, columns, work)?;
    let checks = bind_checks(alloc, catalog, facts, text, &name, &s, table, work)?;
    let not_nulls = not_nulls_of(alloc, facts, text, columns)?;
    Ok(Target {
        name,
        source: s,
        defaults,
        not_nulls,
        checks,
    })
}

/// What a row is put into.
fn put_target<'a>(
    alloc: Global,
    catalog: &'a Catalog,
    facts: &'a HostFacts,
    entry: Option<&'a Entry>,
    name: Text,
    s: Sourced,
    work: &mut Work,
) -> Result<Target, Cause>
    ensures insert { ComesAs target_meant (declared_target (around_of catalog.now facts.now) firing_event.AtInsert name s (option_copied entry.entry) work.old) result work.new }
    ensures update { ComesAs target_meant (declared_target (around_of catalog.now facts.now) firing_event.AtUpdate name s (option_copied entry.entry) work.old) result work.new }
{
    match entry {
        Some(entry) => match table_of(entry) {
            Some(table) => table_target(alloc, catalog, facts, entry, table, name, s, work),
            None => plain_target(alloc, name, s),
        },
        None => plain_target(alloc, name, s),
    }
}

/// With what its entry declares, but for a DELETE, which puts no row.
fn declared_target<'a>(
    alloc: Global,
    catalog: &'a Catalog,
    facts: &'a HostFacts,
    event: FiringEvent,
    entry: Option<&'a Entry>,
    name: Text,
    s: Sourced,
    work: &mut Work,
) -> Result<Target, Cause>
    ensures { ComesAs target_meant (declared_target (around_of catalog.now facts.now) event name s (option_copied entry.entry) work.old) result work.new }
{
    match event {
        FiringEvent::AtDelete => plain_target(alloc, name, s),
        FiringEvent::AtInsert => put_target(alloc, catalog, facts, entry, name, s, work),
        FiringEvent::AtUpdate => put_target(alloc, catalog, facts, entry, name, s, work),
    }
}

/// What a write of this name writes, by what it does and the names that an UPDATE sets: it is there, and can be written so.
pub fn bind_target<'a>(
    alloc: Global,
    scope: &Scope<'a>,
    name: &str,
    event: FiringEvent,
    sets: &[Text],
    work: &mut Work,
) -> Result<Target, Cause>
    ensures { ComesAs target_meant (target_bound (outer_of scope.now [] []) name.now (firing_meant event sets.now) work.old) result work.new }
{
    let entry = table_named(name, scope.catalog);
    may_write_module(alloc, scope.facts, name, entry)?;
    let s = bind_rows(alloc, scope, name, entry, work)?;
    may_write_view(alloc, scope.facts, scope.catalog, &s, event, sets)?;
    let shown = shown_name(alloc, name, &s)?;
    declared_target(
        alloc,
        scope.catalog,
        scope.facts,
        event,
        entry,
        shown,
        s,
        work,
    )
}
