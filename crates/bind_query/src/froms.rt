// FROM: where the rows of an item come from, what names it brings, and how it is joined with those on its left.
ghost use Rattle.std.specs.Prelude.{◌≡◌, ℕ, List, [], false, map};
ghost use Rattle.std.specs.Option.{option_copied};
ghost use Rattle.bind_query.specs.Scopes.{Levels, inside_of, outer_of};
ghost use Rattle.eng_entry.specs.declared.entry.EntryKind.TheVariants as entry_kind;
ghost use Rattle.sql_bound.specs.Answers.{Answers, Comes};
ghost use Rattle.sql_bound.specs.Declarations.{definition_of, table_named, view_in};
ghost use Rattle.sql_bound.specs.Froms.{beside_from, constrained, derived, item_found, items_found, joined_to, nothing_found, of_catalog, of_entry, of_eponymous, of_module, of_name, of_source, of_view, on_bound};
ghost use Rattle.sql_bound.specs.HostFacts.{facts_of};
ghost use Rattle.sql_bound.specs.Scopes.{with_named};
ghost use Rattle.sql_bound.specs.Trees.{of_constraint, of_expr, of_item, of_query, of_source as source_of};
ghost use Rattle.sql_bound.specs.declared.froms.Found.{Found};
ghost use Rattle.sql_bound.specs.declared.scopes.WithEntry.{WithEntry};

use crate::binding::{bind, bind_all};
use crate::fuel::less;
use crate::levels::with_level;
use crate::queries::bind_query;
use crate::scope::Scope;
use bind_entry::{host_module, name, table_named, view_of};
use bind_join::{is_made, natural_join, scope_item, using_join, with_right};
use bind_operand::{conjuncts, trees_of};
use bind_scope::{copied_level, handed, small, text_of, with_named};
use bind_source::{columns_told, has_room, module_source, module_there, no_table, with_item};
use bind_with::{
    arguments_in, called_by, copied_name, derived_source, few_arguments, no_arguments, plain_table,
    table_of_with, view_source,
};
use eng_entry::{Entry, EntryKind};
use eng_value::{Cause, Text};
use sql_bound::{Found, Joining, QueueTable, ScopeItem, Sourced, Standing, WithEntry, Work};
use sql_tree::{Expr, FromItem, JoinConstraint, Query, Source};
use sqlite_items::Items;
use std::alloc::Global;
use std::mem;

/// The items, from left to right.
#[cycle(binding)]
pub(crate) fn bind_items<'a>(
    alloc: Global,
    fuel: u32,
    scope: &Scope<'a>,
    levels: &[Items<ScopeItem>],
    tables: &[WithEntry],
    queue: Option<&QueueTable>,
    from: &'a [FromItem],
    work: &mut Work,
) -> Result<Found, Cause>
    ensures { Comes (items_found (inside_of scope.now levels.now tables.now) (option_copied queue.entry) (map of_item from.now) nothing_found work.old) result work.new }
{
    let fuel = less(fuel)?;
    let mut found = Found {
        level: Items::new(alloc),
        items: Items::new(alloc),
        has_queue: false,
    };
    for item in from {
        found = bind_item(alloc, fuel, scope, levels, tables, queue, item, found, work)?;
    }
    Ok(found)
}

/// One item more.
#[cycle(binding)]
#[tactic(auto, using(crate::proofs::FromLaws::item_steps))]
fn bind_item<'a>(
    alloc: Global,
    fuel: u32,
    scope: &Scope<'a>,
    levels: &[Items<ScopeItem>],
    tables: &[WithEntry],
    queue: Option<&QueueTable>,
    item: &'a FromItem,
    found: Found,
    work: &mut Work,
) -> Result<Found, Cause>
    ensures { Comes (item_found (inside_of scope.now levels.now tables.now) (option_copied queue.entry) (of_item item.now) found work.old) result work.new }
{
    let fuel = less(fuel)?;
    has_room(&found)?;
    let sourced = bind_source(
        alloc,
        fuel,
        scope,
        levels,
        tables,
        queue,
        &item.source,
        &found,
        work,
    )?;
    let called = called_by(alloc, scope.text, &item.alias, &sourced.name)?;
    join(
        alloc, fuel, scope, levels, tables, item, called, sourced, found, work,
    )
}

/// Where the rows of an item come from.
#[cycle(binding)]
fn bind_source<'a>(
    alloc: Global,
    fuel: u32,
    scope: &Scope<'a>,
    levels: &[Items<ScopeItem>],
    tables: &[WithEntry],
    queue: Option<&QueueTable>,
    source: &'a Source,
    found: &Found,
    work: &mut Work,
) -> Result<Sourced, Cause>
    ensures { Comes (of_source (inside_of scope.now levels.now tables.now) (option_copied queue.entry) (source_of source.now) found.now work.old) result work.new }
{
    let fuel = less(fuel)?;
    match source {
        Source::Table(token, arguments) => {
            let called = name(alloc, scope.text, token)?;
            bind_name(
                alloc,
                fuel,
                scope,
                levels,
                tables,
                queue,
                called.as_str(),
                arguments_in(arguments),
                found,
                work,
            )
        }
        Source::Derived(query) => {
            bind_derived(alloc, fuel, scope, levels, tables, query.get(), work)
        }
    }
}

/// A query in FROM, which sees nothing of the FROM that it stands in.
#[cycle(binding)]
pub(crate) fn bind_derived<'a>(
    alloc: Global,
    fuel: u32,
    scope: &Scope<'a>,
    levels: &[Items<ScopeItem>],
    tables: &[WithEntry],
    query: &'a Query,
    work: &mut Work,
) -> Result<Sourced, Cause>
    ensures { Comes (derived work.old ((of_query query.now).bound (beside_from (outer_of scope.now levels.now tables.now)) work.old.units)) result work.new }
{
    let fuel = less(fuel)?;
    let levels = with_level(alloc, Items::new(alloc), levels)?;
    let units = mem::replace(&mut work.units, Items::new(alloc));
    let (asked, units) = bind_query(alloc, fuel, scope, levels.as_slice(), tables, query, units)?;
    work.units = units;
    let arguments = handed(alloc, asked.needs.as_slice(), work)?;
    derived_source(alloc, asked.unit, arguments, asked.columns)
}

/// A WITH table, a table or view of the catalog, or a module that is a table itself.
#[cycle(binding)]
fn bind_name<'a>(
    alloc: Global,
    fuel: u32,
    scope: &Scope<'a>,
    levels: &[Items<ScopeItem>],
    tables: &[WithEntry],
    queue: Option<&QueueTable>,
    name: &str,
    arguments: &'a [Expr],
    found: &Found,
    work: &mut Work,
) -> Result<Sourced, Cause>
    ensures { Comes (of_name (inside_of scope.now levels.now tables.now) (option_copied queue.entry) name.now (with_named name.now tables.now) (map of_expr arguments.now) found.now work.old) result work.new }
{
    let fuel = less(fuel)?;
    match with_named(name, tables) {
        Some(table) => {
            no_arguments(alloc, table.name.as_str(), arguments)?;
            table_of_with(alloc, levels.len(), queue, table, found, work)
        }
        None => bind_listed(
            alloc, fuel, scope, levels, tables, name, arguments, found, work,
        ),
    }
}

/// A table or view of the catalog, or a module that is a table itself.
#[cycle(binding)]
fn bind_listed<'a>(
    alloc: Global,
    fuel: u32,
    scope: &Scope<'a>,
    levels: &[Items<ScopeItem>],
    tables: &[WithEntry],
    name: &str,
    arguments: &'a [Expr],
    found: &Found,
    work: &mut Work,
) -> Result<Sourced, Cause>
    ensures { Comes (of_catalog (inside_of scope.now levels.now tables.now) name.now (table_named name.now scope.now.catalog) (map of_expr arguments.now) found.now work.old) result work.new }
{
    let fuel = less(fuel)?;
    match table_named(name, scope.catalog) {
        Some(entry) => bind_entry(
            alloc, fuel, scope, levels, tables, name, entry, arguments, found, work,
        ),
        None => bind_eponymous(
            alloc, fuel, scope, levels, tables, name, arguments, found, work,
        ),
    }
}

/// What an entry of the catalog is.
#[cycle(binding)]
fn bind_entry<'a>(
    alloc: Global,
    fuel: u32,
    scope: &Scope<'a>,
    levels: &[Items<ScopeItem>],
    tables: &[WithEntry],
    name: &str,
    entry: &'a Entry,
    arguments: &'a [Expr],
    found: &Found,
    work: &mut Work,
) -> Result<Sourced, Cause>
    ensures { Comes (of_entry (inside_of scope.now levels.now tables.now) name.now entry.now entry.now.kind (map of_expr arguments.now) found.now work.old) result work.new }
{
    let fuel = less(fuel)?;
    match entry.kind {
        EntryKind::Table => {
            plain_table(alloc, scope.facts, scope.catalog, name, entry, arguments)
        }
        EntryKind::View => bind_plain_view(alloc, fuel, scope, name, entry, arguments, work),
        EntryKind::Module => bind_module_table(
            alloc, fuel, scope, levels, tables, entry, arguments, found, work,
        ),
        EntryKind::Index => no_table(alloc, name),
        EntryKind::Trigger => no_table(alloc, name),
    }
}

/// A table that a module made.
#[cycle(binding)]
fn bind_module_table<'a>(
    alloc: Global,
    fuel: u32,
    scope: &Scope<'a>,
    levels: &[Items<ScopeItem>],
    tables: &[WithEntry],
    entry: &'a Entry,
    arguments: &'a [Expr],
    found: &Found,
    work: &mut Work,
) -> Result<Sourced, Cause>
    ensures { (name : List ℕ) → Comes (of_entry (inside_of scope.now levels.now tables.now) name entry.now entry_kind.Module (map of_expr arguments.now) found.now work.old) result work.new }
{
    let fuel = less(fuel)?;
    module_there(scope.facts, entry)?;
    bind_module(
        alloc,
        fuel,
        scope,
        levels,
        tables,
        entry.name.as_str(),
        entry.owner.as_str(),
        entry.number,
        arguments,
        found,
        work,
    )
}

/// A module that is a table itself.
#[cycle(binding)]
fn bind_eponymous<'a>(
    alloc: Global,
    fuel: u32,
    scope: &Scope<'a>,
    levels: &[Items<ScopeItem>],
    tables: &[WithEntry],
    name: &str,
    arguments: &'a [Expr],
    found: &Found,
    work: &mut Work,
) -> Result<Sourced, Cause>
    ensures { Comes (of_eponymous (inside_of scope.now levels.now tables.now) name.now ((facts_of scope.now.facts).host_module name.now) (map of_expr arguments.now) found.now work.old) result work.new }
{
    let fuel = less(fuel)?;
    match host_module(scope.facts, name) {
        Some((true, _)) => bind_module(
            alloc, fuel, scope, levels, tables, name, name, 0, arguments, found, work,
        ),
        Some((false, _)) => no_table(alloc, name),
        None => no_table(alloc, name),
    }
}

/// A table of a module, whose arguments may name the items on the left.
#[cycle(binding)]
fn bind_module<'a>(
    alloc: Global,
    fuel: u32,
    scope: &Scope<'a>,
    levels: &[Items<ScopeItem>],
    tables: &[WithEntry],
    shown: &str,
    name: &str,
    table: u64,
    arguments: &'a [Expr],
    found: &Found,
    work: &mut Work,
) -> Result<Sourced, Cause>
    ensures { Comes (of_module (inside_of scope.now levels.now tables.now) shown.now name.now table (map of_expr arguments.now) found.now work.old) result work.new }
{
    let fuel = less(fuel)?;
    let columns = columns_told(alloc, scope.facts, name, table)?;
    few_arguments(alloc, name, columns.as_slice(), arguments)?;
    let left = copied_level(alloc, found.level.as_slice())?;
    let levels = with_level(alloc, left, levels)?;
    let inner = scope.clause(Standing::Nowhere, &[]);
    let operands = bind_all(
        alloc,
        fuel,
        &inner,
        levels.as_slice(),
        tables,
        arguments,
        work,
    )?;
    let trees = trees_of(alloc, operands)?;
    let shown = text_of(alloc, shown)?;
    let name = text_of(alloc, name)?;
    module_source(alloc, shown, name, table, columns.as_slice(), trees)
}

/// A view, which takes no arguments.
#[cycle(binding)]
fn bind_plain_view<'a>(
    alloc: Global,
    fuel: u32,
    scope: &Scope<'a>,
    name: &str,
    entry: &'a Entry,
    arguments: &'a [Expr],
    work: &mut Work,
) -> Result<Sourced, Cause>
    ensures { (ls : Levels) (ts : List WithEntry) (f : Found) → Comes (of_entry (inside_of scope.now ls ts) name.now entry.now entry_kind.View (map of_expr arguments.now) f work.old) result work.new }
{
    let fuel = less(fuel)?;
    no_arguments(alloc, entry.name.as_str(), arguments)?;
    bind_view(alloc, fuel, scope, name, entry, work)
}

/// A view: its query in its own text, which sees no FROM further out.
#[cycle(binding)]
fn bind_view<'a>(
    alloc: Global,
    fuel: u32,
    scope: &Scope<'a>,
    name: &str,
    entry: &'a Entry,
    work: &mut Work,
) -> Result<Sourced, Cause>
    ensures { Comes (of_view (inside_of scope.now [] []) name.now entry.now (view_in (definition_of entry.now)) work.old) result work.new }
{
    let fuel = less(fuel)?;
    match view_of(entry) {
        Some(view) => {
            let units = mem::replace(&mut work.units, Items::new(alloc));
            let inner = scope.view(entry);
            let (asked, units) = bind_query(alloc, fuel, &inner, &[], &[], &view.query, units)?;
            work.units = units;
            view_source(alloc, entry, view, asked.unit, asked.columns)
        }
        None => no_table(alloc, name),
    }
}

/// An item is joined with those on its left.
#[cycle(binding)]
#[tactic(auto, using(crate::proofs::FromLaws::item_steps))]
fn join<'a>(
    alloc: Global,
    fuel: u32,
    scope: &Scope<'a>,
    levels: &[Items<ScopeItem>],
    tables: &[WithEntry],
    item: &'a FromItem,
    called: Option<Text>,
    sourced: Sourced,
    found: Found,
    work: &mut Work,
) -> Result<Found, Cause>
    ensures { Comes (joined_to (inside_of scope.now levels.now tables.now) (of_item item.now) called sourced found work.old) result work.new }
{
    let fuel = less(fuel)?;
    let shown = copied_name(&called)?;
    let place = small(found.items.len())?;
    let right = scope_item(alloc, place, shown, &sourced)?;
    let joining = Joining {
        right,
        ons: Items::new(alloc),
    };
    let joining = constrain(
        alloc, fuel, scope, levels, tables, item, joining, &found, work,
    )?;
    with_item(
        alloc,
        item.join.left,
        is_made(&item.constraint),
        called,
        sourced,
        found,
        joining,
    )
}

/// ON, USING and NATURAL.
#[cycle(binding)]
#[tactic(auto, using(crate::proofs::FromLaws::item_steps))]
fn constrain<'a>(
    alloc: Global,
    fuel: u32,
    scope: &Scope<'a>,
    levels: &[Items<ScopeItem>],
    tables: &[WithEntry],
    item: &'a FromItem,
    joining: Joining,
    found: &Found,
    work: &mut Work,
) -> Result<Joining, Cause>
    ensures { Comes (constrained (inside_of scope.now levels.now tables.now) found.now.level (of_item item.now).join.natural (of_item item.now).constraint joining work.old) result work.new }
{
    let fuel = less(fuel)?;
    if item.join.natural {
        natural_join(alloc, found.level.as_slice(), &item.constraint, joining)
    } else {
        bind_constraint(
            alloc,
            fuel,
            scope,
            levels,
            tables,
            &item.constraint,
            joining,
            found,
            work,
        )
    }
}

/// ON and USING.
#[cycle(binding)]
fn bind_constraint<'a>(
    alloc: Global,
    fuel: u32,
    scope: &Scope<'a>,
    levels: &[Items<ScopeItem>],
    tables: &[WithEntry],
    constraint: &'a JoinConstraint,
    joining: Joining,
    found: &Found,
    work: &mut Work,
) -> Result<Joining, Cause>
    ensures { Comes (constrained (inside_of scope.now levels.now tables.now) found.now.level false (of_constraint constraint.now) joining work.old) result work.new }
{
    let fuel = less(fuel)?;
    match constraint {
        JoinConstraint::Unconstrained => Ok(joining),
        JoinConstraint::On(e) => bind_on(
            alloc, fuel, scope, levels, tables, e, joining, found, work,
        ),
        JoinConstraint::Using(names) => using_join(
            alloc,
            scope.text,
            found.level.as_slice(),
            names.as_slice(),
            joining,
        ),
    }
}

/// ON, which may name the items up to its own.
#[cycle(binding)]
fn bind_on<'a>(
    alloc: Global,
    fuel: u32,
    scope: &Scope<'a>,
    levels: &[Items<ScopeItem>],
    tables: &[WithEntry],
    e: &'a Expr,
    joining: Joining,
    found: &Found,
    work: &mut Work,
) -> Result<Joining, Cause>
    ensures { Comes (on_bound (inside_of scope.now levels.now tables.now) found.now.level (of_expr e.now) joining work.old) result work.new }
{
    let fuel = less(fuel)?;
    let own = with_right(alloc, found.level.as_slice(), &joining.right)?;
    let levels = with_level(alloc, own, levels)?;
    let inner = scope.clause(Standing::Nowhere, &[]);
    let a = bind(alloc, fuel, &inner, levels.as_slice(), tables, e, work)?;
    let mut ons = Items::new(alloc);
    conjuncts(alloc, e, a.tree, &mut ons)?;
    Ok(Joining {
        right: joining.right,
        ons,
    })
}
