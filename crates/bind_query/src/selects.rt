// A SELECT: FROM, WHERE, GROUP BY, HAVING and the results, in this order (SELECT, section 2).
ghost use Rattle.std.specs.Prelude.{◌≡◌};
ghost use Rattle.std.specs.Option.{option_map};
ghost use Rattle.bind_query.specs.Scopes.{inside_of, outer_of, own_of, scope_of};
ghost use Rattle.sql_bound.specs.Answers.{Comes};
ghost use Rattle.sql_bound.specs.Cores.{clauses_bound, conjuncts_bound, having_bound, recursive_select_bound, select_bound};
ghost use Rattle.sql_bound.specs.Trees.{of_core, of_expr};

use crate::binding::bind;
use crate::froms::bind_items;
use crate::fuel::less;
use crate::keys::bind_keys;
use crate::levels::{own_level, with_level};
use crate::results::bind_results;
use crate::scope::Scope;
use bind_result::{checked_conjuncts, conjuncts_of, is_grouped};
use bound_tree::{BoundExpr, BoundKey};
use eng_value::Cause;
use sql_bound::{BoundSelect, Found, QueueTable, ScopeItem, Standing, WithEntry, Work};
use sql_tree::{Expr, SelectCore};
use sqlite_items::Items;
use std::alloc::Global;

/// A SELECT.
#[cycle(binding)]
pub(crate) fn bind_select<'a>(
    alloc: Global,
    fuel: u32,
    scope: &Scope<'a>,
    levels: &[Items<ScopeItem>],
    tables: &[WithEntry],
    core: &'a SelectCore,
    ordered: bool,
    work: &mut Work,
) -> Result<BoundSelect, Cause>
    ensures { Comes (select_bound (inside_of scope.now levels.now tables.now) (of_core core.now) ordered work.old) result work.new }
{
    let fuel = less(fuel)?;
    let found = bind_items(
        alloc,
        fuel,
        scope,
        levels,
        tables,
        None,
        core.from.as_slice(),
        work,
    )?;
    let grouped = is_grouped(alloc, scope.text, scope.facts, core, ordered)?;
    bind_clauses(
        alloc,
        fuel,
        scope,
        levels,
        tables,
        Standing::Taken,
        core,
        grouped,
        found,
        work,
    )
}

/// The part of a recursive table that names it, in which no aggregate may stand.
#[cycle(binding)]
pub(crate) fn bind_recursive_select<'a>(
    alloc: Global,
    fuel: u32,
    scope: &Scope<'a>,
    levels: &[Items<ScopeItem>],
    tables: &[WithEntry],
    queue: &QueueTable,
    core: &'a SelectCore,
    work: &mut Work,
) -> Result<BoundSelect, Cause>
    ensures { Comes (recursive_select_bound (inside_of scope.now levels.now tables.now) queue.now (of_core core.now) work.old) result work.new }
{
    let fuel = less(fuel)?;
    let found = bind_items(
        alloc,
        fuel,
        scope,
        levels,
        tables,
        Some(queue),
        core.from.as_slice(),
        work,
    )?;
    let grouped = is_grouped(alloc, scope.text, scope.facts, core, false)?;
    bind_clauses(
        alloc,
        fuel,
        scope,
        levels,
        tables,
        Standing::Nowhere,
        core,
        grouped,
        found,
        work,
    )
}

/// What stands behind FROM, where aggregates stand in HAVING and the results as it is said.
#[cycle(binding)]
fn bind_clauses<'a>(
    alloc: Global,
    fuel: u32,
    scope: &Scope<'a>,
    levels: &[Items<ScopeItem>],
    tables: &[WithEntry],
    standing: Standing,
    core: &'a SelectCore,
    grouped: bool,
    found: Found,
    work: &mut Work,
) -> Result<BoundSelect, Cause>
    ensures { Comes (clauses_bound standing (outer_of scope.now levels.now tables.now) (of_core core.now) grouped found work.old) result work.new }
{
    let fuel = less(fuel)?;
    let Found {
        level,
        items,
        has_queue,
    } = found;
    let mut levels = with_level(alloc, level, levels)?;
    let clause = scope.clause(Standing::Nowhere, core.results.as_slice());
    let conjuncts = bind_filter(
        alloc,
        fuel,
        &clause,
        levels.as_slice(),
        tables,
        &core.filter,
        work,
    )?;
    let keys = bind_keys(
        alloc,
        fuel,
        &clause,
        levels.as_slice(),
        tables,
        core.group_by.as_slice(),
        work,
    )?;
    let having = bind_having(
        alloc,
        fuel,
        &scope.clause(standing, core.results.as_slice()),
        levels.as_slice(),
        tables,
        keys.as_slice(),
        &core.having,
        work,
    )?;
    let shown = bind_results(
        alloc,
        fuel,
        &scope.clause(standing, &[]),
        levels.as_slice(),
        tables,
        core.results.as_slice(),
        grouped,
        keys.as_slice(),
        work,
    )?;
    let found = Found {
        level: levels.remove(0),
        items,
        has_queue,
    };
    Ok(BoundSelect {
        found,
        conjuncts,
        grouped,
        keys,
        having,
        shown,
        distinct: core.distinct,
    })
}

/// WHERE, which is split at its ANDs.
#[cycle(binding)]
pub fn bind_filter<'a>(
    alloc: Global,
    fuel: u32,
    scope: &Scope<'a>,
    levels: &[Items<ScopeItem>],
    tables: &[WithEntry],
    filter: &'a Option<Expr>,
    work: &mut Work,
) -> Result<Items<BoundExpr>, Cause>
    ensures { Comes (conjuncts_bound (scope_of scope.now levels.now tables.now) (option_map of_expr filter.now) work.old) result work.new }
{
    let fuel = less(fuel)?;
    match filter {
        Some(e) => {
            let a = bind(alloc, fuel, scope, levels, tables, e, work)?;
            conjuncts_of(alloc, e, a.tree)
        }
        None => Ok(Items::new(alloc)),
    }
}

/// HAVING, in which no column is bare.
#[cycle(binding)]
fn bind_having<'a>(
    alloc: Global,
    fuel: u32,
    scope: &Scope<'a>,
    levels: &[Items<ScopeItem>],
    tables: &[WithEntry],
    keys: &[BoundKey],
    having: &'a Option<Expr>,
    work: &mut Work,
) -> Result<Items<BoundExpr>, Cause>
    ensures { Comes (having_bound (scope_of scope.now levels.now tables.now) keys.now (own_of levels.now) (option_map of_expr having.now) work.old) result work.new }
{
    let fuel = less(fuel)?;
    match having {
        Some(e) => {
            let a = bind(alloc, fuel, scope, levels, tables, e, work)?;
            checked_conjuncts(alloc, keys, own_level(levels), e, a.tree)
        }
        None => Ok(Items::new(alloc)),
    }
}
