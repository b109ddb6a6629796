// Recursive tables: the query of a WITH table that names the table itself.
ghost use Rattle.std.specs.Prelude.{◌≡◌, None, length, IfOk};
ghost use Rattle.bind_query.specs.Scopes.{inside_of, outer_of, written_of};
ghost use Rattle.bind_query.specs.Tables.{repeated_bound};
ghost use Rattle.bind_with.specs.Recursive.{recursive_of};
ghost use Rattle.bind_with.specs.Units.{recursion_with};
ghost use Rattle.sql_bound.specs.Answers.{Answers, OnlyMem};
ghost use Rattle.sql_bound.specs.Queries.{asked_as};
ghost use Rattle.sql_bound.specs.Recursions.{recursion_bound, recursive_in, table_body};
ghost use Rattle.sql_tree.specs.declared.query.Query.{out-Query};

use crate::fuel::less;
use crate::parts::{bind_others, bind_part};
use crate::queries::{bind_body, bind_limit};
use crate::scope::Scope;
use crate::selects::bind_recursive_select;
use bind_column::{width_fits, with_names};
use bind_result::{begun, core_given};
use bind_with::{
    asked_recursion, front_of, is_last_all, named_columns, queue_table, recursive_core, unordered,
};
use bound_tree::{BoundCompound, BoundCore, BoundPart, BoundUnit};
use eng_value::{Cause, Text};
use sql_bound::{Asked, BoundLimit, Given, ResultColumn, ScopeItem, WithEntry, Work};
use sql_tree::{Query, SelectCore};
use sqlite_items::Items;
use std::alloc::Global;

/// The query of a table of a WITH, behind its own WITH.
#[cycle(binding)]
pub(crate) fn table_body<'a>(
    alloc: Global,
    fuel: u32,
    scope: &Scope<'a>,
    levels: &[Items<ScopeItem>],
    tables: &[WithEntry],
    places: Items<u32>,
    name: &str,
    names: &[Text],
    query: &'a Query,
    units: Items<BoundUnit>,
) -> Result<(Asked, Items<BoundUnit>), Cause>
    ensures { Answers (table_body (inside_of scope.now levels.now tables.now) places name.now names.now (written_of query.now) (recursive_in (outer_of scope.now levels.now tables.now) name.now (written_of query.now).others) units) result }
{
    let fuel = less(fuel)?;
    let found = recursive_core(alloc, scope.text, tables, name, query.others.as_slice())?;
    match found {
        Some(core) => bind_recursion(
            alloc, fuel, scope, levels, tables, places, name, names, query, core, units,
        ),
        None => bind_plain(
            alloc, fuel, scope, levels, tables, places, name, names, query, units,
        ),
    }
}

/// A query that does not name the table.
#[cycle(binding)]
fn bind_plain<'a>(
    alloc: Global,
    fuel: u32,
    scope: &Scope<'a>,
    levels: &[Items<ScopeItem>],
    tables: &[WithEntry],
    places: Items<u32>,
    name: &str,
    names: &[Text],
    query: &'a Query,
    units: Items<BoundUnit>,
) -> Result<(Asked, Items<BoundUnit>), Cause>
    ensures { Answers (table_body (inside_of scope.now levels.now tables.now) places name.now names.now (written_of query.now) None units) result }
{
    let fuel = less(fuel)?;
    let (asked, units) = bind_body(alloc, fuel, scope, levels, tables, places, query, units)?;
    named_columns(alloc, name, names, asked, units)
}

/// A recursive table: what stands in front has the names that are written, and the part sees them as those of a row of the queue.
#[cycle(binding)]
fn bind_recursion<'a>(
    alloc: Global,
    fuel: u32,
    scope: &Scope<'a>,
    levels: &[Items<ScopeItem>],
    tables: &[WithEntry],
    places: Items<u32>,
    name: &str,
    names: &[Text],
    query: &'a Query,
    core: &'a SelectCore,
    units: Items<BoundUnit>,
) -> Result<(Asked, Items<BoundUnit>), Cause>
    ensures { Answers (recursion_bound (inside_of scope.now levels.now tables.now) places name.now names.now (written_of query.now) (recursive_of (out-Query query.now).others core.now) units) result }
{
    let fuel = less(fuel)?;
    let mut work = begun(alloc, units);
    let given = bind_part(alloc, fuel, scope, levels, tables, &query.first, &mut work)?;
    let others = bind_others(
        alloc,
        fuel,
        scope,
        levels,
        tables,
        given.columns.as_slice(),
        front_of(query.others.as_slice()),
        &mut work,
    )?;
    let Given { part, columns } = given;
    let columns = with_names(alloc, name, names, columns)?;
    bind_repeated(
        alloc, fuel, scope, levels, tables, places, name, query, core, part, others, columns, work,
    )
}

/// The part of a recursive table that names it, over the row of the queue, and LIMIT.
#[cycle(binding)]
fn bind_repeated<'a>(
    alloc: Global,
    fuel: u32,
    scope: &Scope<'a>,
    levels: &[Items<ScopeItem>],
    tables: &[WithEntry],
    places: Items<u32>,
    name: &str,
    query: &'a Query,
    core: &'a SelectCore,
    first: BoundPart,
    others: Items<BoundCompound>,
    columns: Items<ResultColumn>,
    work: Work,
) -> Result<(Asked, Items<BoundUnit>), Cause>
    ensures { Answers (repeated_bound (inside_of scope.now levels.now tables.now) places name.now (written_of query.now) (recursive_of (out-Query query.now).others core.now) first others columns work) result }
{
    let fuel = less(fuel)?;
    let mut work = work;
    let queue = queue_table(alloc, name, columns.as_slice())?;
    let select = bind_recursive_select(
        alloc, fuel, scope, levels, tables, &queue, core, &mut work,
    )?;
    let wanted = columns.len();
    width_fits(alloc, "SELECT", wanted, select.shown.columns.len())?;
    unordered(alloc, name, query.order_by.as_slice())?;
    let (part, shown) = core_given(alloc, select, &mut work)?;
    let limit = bind_limit(alloc, fuel, scope, levels, tables, &query.limit, &mut work)?;
    let all = is_last_all(query.others.as_slice());
    recursion_unit(
        alloc, scope, places, first, others, columns, all, part, shown, limit, work,
    )
}

/// The unit of a recursive table whose parts are bound. Only memory can fail.
fn recursion_unit(
    alloc: Global,
    scope: &Scope<'_>,
    places: Items<u32>,
    first: BoundPart,
    others: Items<BoundCompound>,
    columns: Items<ResultColumn>,
    all: bool,
    part: BoundCore,
    shown: Items<ResultColumn>,
    limit: BoundLimit,
    work: Work,
) -> Result<(Asked, Items<BoundUnit>), Cause>
    ensures ok { IfOk result (λ a. a ≡ asked_as (recursion_with scope.now.within (length work.needs) places first others columns all part shown limit) columns work) }
    ensures mem { OnlyMem result }
{
    let within = scope.within_name()?;
    asked_recursion(
        alloc,
        within,
        places,
        first,
        others,
        columns,
        all,
        part,
        shown.as_slice(),
        limit,
        work,
    )
}
