// Whole queries: WITH, the parts, ORDER BY and LIMIT; each query is one unit (SELECT).
ghost use Rattle.std.specs.Prelude.{◌≡◌};
ghost use Rattle.std.specs.Option.{option_map};
ghost use Rattle.bind_query.specs.Scopes.{inside_of, outer_of, scope_of, written_of};
ghost use Rattle.sql_bound.specs.Answers.{Answers, Comes};
ghost use Rattle.sql_bound.specs.Orders.{limit_bound, offset_bound};
ghost use Rattle.sql_bound.specs.Queries.{body_bound, query_in};
ghost use Rattle.sql_bound.specs.Trees.{of_expr, of_limit, of_query};
ghost use Rattle.bind_query.specs.Results.{limit_in};

use crate::binding::bind;
use crate::fuel::less;
use crate::levels::with_level;
use crate::parts::bind_parts;
use crate::scope::Scope;
use crate::tables::{WithTables, bind_tables};
use bind_result::{begun, query_unit};
use bound_tree::{BoundExpr, BoundUnit};
use eng_value::{Cause, LimitKind};
use sql_bound::{Asked, BoundLimit, ScopeItem, Standing, WithEntry, Work};
use sql_tree::{Expr, Query, RowLimit};
use sqlite_items::Items;
use std::alloc::Global;

/// A query, one level deeper.
#[cycle(binding)]
pub fn bind_query<'a>(
    alloc: Global,
    fuel: u32,
    scope: &Scope<'a>,
    levels: &[Items<ScopeItem>],
    tables: &[WithEntry],
    query: &'a Query,
    units: Items<BoundUnit>,
) -> Result<(Asked, Items<BoundUnit>), Cause>
    ensures { Answers ((of_query query.now).bound (outer_of scope.now levels.now tables.now) units) result }
{
    let fuel = less(fuel)?;
    match scope.depth.checked_sub(1) {
        Some(depth) => bind_entered(
            alloc,
            fuel,
            &scope.entered(depth),
            levels,
            tables,
            query,
            units,
        ),
        None => Err(Cause::Limit(LimitKind::Queries)),
    }
}

/// A query that is entered.
#[cycle(binding)]
fn bind_entered<'a>(
    alloc: Global,
    fuel: u32,
    scope: &Scope<'a>,
    levels: &[Items<ScopeItem>],
    tables: &[WithEntry],
    query: &'a Query,
    units: Items<BoundUnit>,
) -> Result<(Asked, Items<BoundUnit>), Cause>
    ensures { Answers (query_in (written_of query.now) (inside_of scope.now levels.now tables.now) units) result }
{
    let fuel = less(fuel)?;
    let bound = bind_tables(
        alloc,
        fuel,
        scope,
        levels,
        tables,
        query.with.as_slice(),
        units,
    )?;
    let WithTables {
        entries,
        places,
        units,
    } = bound;
    bind_body(
        alloc,
        fuel,
        scope,
        levels,
        entries.as_slice(),
        places,
        query,
        units,
    )
}

/// A query behind its WITH, whose tables are these units.
#[cycle(binding)]
pub(crate) fn bind_body<'a>(
    alloc: Global,
    fuel: u32,
    scope: &Scope<'a>,
    levels: &[Items<ScopeItem>],
    tables: &[WithEntry],
    places: Items<u32>,
    query: &'a Query,
    units: Items<BoundUnit>,
) -> Result<(Asked, Items<BoundUnit>), Cause>
    ensures { Answers (body_bound (inside_of scope.now levels.now tables.now) places (written_of query.now) units) result }
{
    let fuel = less(fuel)?;
    let mut work = begun(alloc, units);
    let gathered = bind_parts(alloc, fuel, scope, levels, tables, query, &mut work)?;
    let limit = bind_limit(alloc, fuel, scope, levels, tables, &query.limit, &mut work)?;
    let within = scope.within_name()?;
    query_unit(alloc, within, places, gathered, limit, work)
}

/// LIMIT and OFFSET, which see nothing of the own FROM.
#[cycle(binding)]
pub(crate) fn bind_limit<'a>(
    alloc: Global,
    fuel: u32,
    scope: &Scope<'a>,
    levels: &[Items<ScopeItem>],
    tables: &[WithEntry],
    limit: &'a Option<RowLimit>,
    work: &mut Work,
) -> Result<BoundLimit, Cause>
    ensures { Comes (limit_bound (outer_of scope.now levels.now tables.now) (option_map of_limit limit.now) work.old) result work.new }
{
    let fuel = less(fuel)?;
    match limit {
        Some(limit) => {
            let levels = with_level(alloc, Items::new(alloc), levels)?;
            bind_count(
                alloc,
                fuel,
                &scope.clause(Standing::Nowhere, &[]),
                levels.as_slice(),
                tables,
                limit,
                work,
            )
        }
        None => Ok(BoundLimit {
            count: None,
            offset: None,
        }),
    }
}

/// The count, then the offset.
#[cycle(binding)]
fn bind_count<'a>(
    alloc: Global,
    fuel: u32,
    scope: &Scope<'a>,
    levels: &[Items<ScopeItem>],
    tables: &[WithEntry],
    limit: &'a RowLimit,
    work: &mut Work,
) -> Result<BoundLimit, Cause>
    ensures { Comes (limit_in (scope_of scope.now levels.now tables.now) (of_limit limit.now) work.old) result work.new }
{
    let fuel = less(fuel)?;
    let count = bind(alloc, fuel, scope, levels, tables, &limit.count, work)?;
    let offset = bind_offset(alloc, fuel, scope, levels, tables, &limit.offset, work)?;
    Ok(BoundLimit {
        count: Some(count.tree),
        offset,
    })
}

/// OFFSET.
#[cycle(binding)]
fn bind_offset<'a>(
    alloc: Global,
    fuel: u32,
    scope: &Scope<'a>,
    levels: &[Items<ScopeItem>],
    tables: &[WithEntry],
    offset: &'a Option<Expr>,
    work: &mut Work,
) -> Result<Option<BoundExpr>, Cause>
    ensures { Comes (offset_bound (scope_of scope.now levels.now tables.now) (option_map of_expr offset.now) work.old) result work.new }
{
    let fuel = less(fuel)?;
    match offset {
        Some(e) => {
            let a = bind(alloc, fuel, scope, levels, tables, e, work)?;
            Ok(Some(a.tree))
        }
        None => Ok(None),
    }
}
