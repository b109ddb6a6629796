// WITH: each table is bound where it is written, used or not.
ghost use Rattle.std.specs.Prelude.{[], ◌∷◌, length, map};
ghost use Rattle.bind_query.specs.Scopes.{AnswersAs, entered, inside_of, outer_of, written_of};
ghost use Rattle.bind_query.specs.Tables.{tables_meant};
ghost use Rattle.bind_scope.specs.Entries.{itself_of};
ghost use Rattle.sql_bound.specs.Answers.{Answers};
ghost use Rattle.sql_bound.specs.Recursions.{table_bound, table_in};
ghost use Rattle.sql_bound.specs.Trees.{of_table};
ghost use Rattle.sql_bound.specs.Withs.{table_asked, tables_bound};

use crate::fuel::less;
use crate::levels::with_level;
use crate::recursions::table_body;
use crate::scope::Scope;
use bind_column::within_columns;
use bind_entry::name;
use bind_scope::{copied_entries, itself_entry, pushed, table_entry, text_of};
use bind_with::{in_front, names_of};
use bound_tree::BoundUnit;
use eng_value::{Cause, LimitKind, Text};
use sql_bound::{Asked, ScopeItem, WithEntry};
use sql_tree::{CommonTable, Query};
use sqlite_items::Items;
use std::alloc::Global;

/// What the tables of a WITH come to: the WITH tables that are seen behind it, latest first, the units of its own, in order, and all units.
#[derive(Drop)]
pub(crate) struct WithTables {
    pub entries: Items<WithEntry>,
    pub places: Items<u32>,
    pub units: Items<BoundUnit>,
}

/// The tables of a WITH, in order.
#[cycle(binding)]
pub(crate) fn bind_tables<'a>(
    alloc: Global,
    fuel: u32,
    scope: &Scope<'a>,
    levels: &[Items<ScopeItem>],
    tables: &[WithEntry],
    with: &'a [CommonTable],
    units: Items<BoundUnit>,
) -> Result<WithTables, Cause>
    ensures { AnswersAs (tables_meant scope.now levels.now) (tables_bound (inside_of scope.now levels.now tables.now) [] (map of_table with.now) units) result }
{
    let fuel = less(fuel)?;
    let mut found = WithTables {
        entries: copied_entries(alloc, tables)?,
        places: Items::new(alloc),
        units,
    };
    for table in with {
        found = bind_next(alloc, fuel, scope, levels, table, found)?;
    }
    Ok(found)
}

/// One table more.
#[cycle(binding)]
#[tactic(auto, using(crate::proofs::TableLaws::table_steps))]
fn bind_next<'a>(
    alloc: Global,
    fuel: u32,
    scope: &Scope<'a>,
    levels: &[Items<ScopeItem>],
    table: &'a CommonTable,
    found: WithTables,
) -> Result<WithTables, Cause>
    ensures { AnswersAs (tables_meant scope.now levels.now) (tables_bound (inside_of scope.now levels.now found.entries) found.places (of_table table.now ∷ []) found.units) result }
{
    let fuel = less(fuel)?;
    let WithTables {
        entries,
        mut places,
        units,
    } = found;
    let (asked, units) = bind_table(alloc, fuel, scope, levels, entries.as_slice(), table, units)?;
    pushed(&mut places, asked.unit)?;
    let called = name(alloc, scope.text, &table.name)?;
    let entry = table_entry(called, levels.len(), asked, units.as_slice())?;
    let entries = in_front(alloc, entry, entries)?;
    Ok(WithTables {
        entries,
        places,
        units,
    })
}

/// A table of a WITH.
#[cycle(binding)]
#[tactic(auto, using(crate::proofs::TableLaws::table_steps))]
fn bind_table<'a>(
    alloc: Global,
    fuel: u32,
    scope: &Scope<'a>,
    levels: &[Items<ScopeItem>],
    tables: &[WithEntry],
    table: &'a CommonTable,
    units: Items<BoundUnit>,
) -> Result<(Asked, Items<BoundUnit>), Cause>
    ensures { Answers (table_asked (inside_of scope.now levels.now tables.now) (of_table table.now) units) result }
{
    let fuel = less(fuel)?;
    within_columns(table.columns.as_slice())?;
    let called = name(alloc, scope.text, &table.name)?;
    let names = names_of(alloc, scope.text, table.columns.as_slice())?;
    let levels = with_level(alloc, Items::new(alloc), levels)?;
    bind_as_table(
        alloc,
        fuel,
        scope,
        levels.as_slice(),
        tables,
        called.as_str(),
        names.as_slice(),
        table.query.get(),
        units,
    )
}

/// A query as a table of this name, which it may name, one level deeper.
#[cycle(binding)]
fn bind_as_table<'a>(
    alloc: Global,
    fuel: u32,
    scope: &Scope<'a>,
    levels: &[Items<ScopeItem>],
    tables: &[WithEntry],
    name: &str,
    names: &[Text],
    query: &'a Query,
    units: Items<BoundUnit>,
) -> Result<(Asked, Items<BoundUnit>), Cause>
    ensures { Answers (table_bound (written_of query.now) name.now names.now (outer_of scope.now levels.now tables.now) units) result }
{
    let fuel = less(fuel)?;
    match scope.depth.checked_sub(1) {
        Some(depth) => enter_table(
            alloc, fuel, scope, depth, levels, tables, name, names, query, units,
        ),
        None => Err(Cause::Limit(LimitKind::Queries)),
    }
}

/// The query of a table of a WITH, whose queries stand at this depth.
#[cycle(binding)]
fn enter_table<'a>(
    alloc: Global,
    fuel: u32,
    scope: &Scope<'a>,
    depth: u32,
    levels: &[Items<ScopeItem>],
    tables: &[WithEntry],
    name: &str,
    names: &[Text],
    query: &'a Query,
    units: Items<BoundUnit>,
) -> Result<(Asked, Items<BoundUnit>), Cause>
    ensures { Answers (table_in (written_of query.now) name.now names.now (inside_of (entered depth scope.now) levels.now (itself_of name.now (length levels.now) ∷ tables.now)) units) result }
{
    let fuel = less(fuel)?;
    let called = text_of(alloc, name)?;
    let own = itself_entry(called, levels.len())?;
    let entries = in_front(alloc, own, copied_entries(alloc, tables)?)?;
    let inner = scope.entered(depth);
    table_in(
        alloc,
        fuel,
        &inner,
        levels,
        entries.as_slice(),
        name,
        names,
        query,
        units,
    )
}

/// The query of a table of a WITH, entered.
#[cycle(binding)]
fn table_in<'a>(
    alloc: Global,
    fuel: u32,
    scope: &Scope<'a>,
    levels: &[Items<ScopeItem>],
    tables: &[WithEntry],
    name: &str,
    names: &[Text],
    query: &'a Query,
    units: Items<BoundUnit>,
) -> Result<(Asked, Items<BoundUnit>), Cause>
    ensures { Answers (table_in (written_of query.now) name.now names.now (inside_of scope.now levels.now tables.now) units) result }
{
    let fuel = less(fuel)?;
    let WithTables {
        entries,
        places,
        units,
    } = bind_tables(
        alloc,
        fuel,
        scope,
        levels,
        tables,
        query.with.as_slice(),
        units,
    )?;
    table_body(
        alloc,
        fuel,
        scope,
        levels,
        entries.as_slice(),
        places,
        name,
        names,
        query,
        units,
    )
}
