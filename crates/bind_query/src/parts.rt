// The parts of a query: SELECTs and VALUES, and compounds of them (SELECT, section 3).
ghost use Rattle.std.specs.Prelude.{◌≡◌, [], map};
ghost use Rattle.bind_query.specs.Results.{other_bound};
ghost use Rattle.bind_query.specs.Scopes.{inside_of, scope_of, written_of};
ghost use Rattle.sql_bound.specs.Answers.{Comes};
ghost use Rattle.sql_bound.specs.Carriers.{Values};
ghost use Rattle.sql_bound.specs.Compounds.{compound_bound, others_bound, part_bound, parts_bound, row_bound, select_alone, values_alone, values_bound};
ghost use Rattle.sql_bound.specs.Trees.{of_compound, of_core, of_expr, of_part, of_term};

use crate::binding::bind;
use crate::fuel::less;
use crate::levels::with_level;
use crate::orders::bind_order;
use crate::scope::Scope;
use crate::selects::bind_select;
use crate::words::word_of_part;
use bind_column::{room_behind, width_fits};
use bind_result::{
    compound_with, gathered_alone, orders_by_aggregate, put_row, select_given, terms_of_compound,
    values_given,
};
use bind_scope::pushed;
use bound_tree::BoundCompound;
use eng_value::Cause;
use sql_bound::{Gathered, Given, Operand, ResultColumn, ScopeItem, Standing, WithEntry, Work};
use sql_tree::{CompoundPart, Expr, OrderingTerm, Query, QueryPart, SelectCore};
use sqlite_items::Items;
use std::alloc::Global;

/// All parts of a query, and their order.
#[cycle(binding)]
#[tactic(auto, using(crate::proofs::PartLaws::part_laws))]
pub(crate) fn bind_parts<'a>(
    alloc: Global,
    fuel: u32,
    scope: &Scope<'a>,
    levels: &[Items<ScopeItem>],
    tables: &[WithEntry],
    query: &'a Query,
    work: &mut Work,
) -> Result<Gathered, Cause>
    ensures { Comes (parts_bound (inside_of scope.now levels.now tables.now) (written_of query.now).first (written_of query.now).others (written_of query.now).order work.old) result work.new }
{
    let fuel = less(fuel)?;
    let order = query.order_by.as_slice();
    match query.others.as_slice() {
        [] => bind_alone(
            alloc,
            fuel,
            scope,
            levels,
            tables,
            &query.first,
            order,
            work,
        ),
        [_, ..] => bind_compound(
            alloc,
            fuel,
            scope,
            levels,
            tables,
            &query.first,
            query.others.as_slice(),
            order,
            work,
        ),
    }
}

/// One part, and its order.
#[cycle(binding)]
fn bind_alone<'a>(
    alloc: Global,
    fuel: u32,
    scope: &Scope<'a>,
    levels: &[Items<ScopeItem>],
    tables: &[WithEntry],
    part: &'a QueryPart,
    order: &'a [OrderingTerm],
    work: &mut Work,
) -> Result<Gathered, Cause>
    ensures { Comes (parts_bound (inside_of scope.now levels.now tables.now) (of_part part.now) [] (map of_term order.now) work.old) result work.new }
{
    let fuel = less(fuel)?;
    match part {
        QueryPart::Select(core) => {
            bind_select_alone(alloc, fuel, scope, levels, tables, core, order, work)
        }
        QueryPart::Values(rows) => bind_values_alone(
            alloc,
            fuel,
            scope,
            levels,
            tables,
            rows.as_slice(),
            order,
            work,
        ),
    }
}

/// One SELECT, which is ordered by expressions over its FROM, too.
#[cycle(binding)]
fn bind_select_alone<'a>(
    alloc: Global,
    fuel: u32,
    scope: &Scope<'a>,
    levels: &[Items<ScopeItem>],
    tables: &[WithEntry],
    core: &'a SelectCore,
    order: &'a [OrderingTerm],
    work: &mut Work,
) -> Result<Gathered, Cause>
    ensures { Comes (select_alone (inside_of scope.now levels.now tables.now) (of_core core.now) (map of_term order.now) work.old) result work.new }
{
    let fuel = less(fuel)?;
    let ordered = orders_by_aggregate(alloc, scope.text, scope.facts, order)?;
    let select = bind_select(alloc, fuel, scope, levels, tables, core, ordered, work)?;
    let terms = bind_order(
        alloc,
        fuel,
        scope,
        levels,
        tables,
        core.results.as_slice(),
        &select,
        order,
        work,
    )?;
    let given = select_given(alloc, select, work)?;
    Ok(gathered_alone(alloc, given, terms))
}

/// VALUES as a query.
#[cycle(binding)]
fn bind_values_alone<'a>(
    alloc: Global,
    fuel: u32,
    scope: &Scope<'a>,
    levels: &[Items<ScopeItem>],
    tables: &[WithEntry],
    rows: &'a [Items<Expr>],
    order: &'a [OrderingTerm],
    work: &mut Work,
) -> Result<Gathered, Cause>
    ensures { Comes (values_alone (inside_of scope.now levels.now tables.now) (map (map of_expr) rows.now) (map of_term order.now) work.old) result work.new }
{
    let fuel = less(fuel)?;
    let given = bind_values(alloc, fuel, scope, levels, tables, rows, work)?;
    let terms = terms_of_compound(alloc, scope.text, given.columns.as_slice(), order)?;
    Ok(gathered_alone(alloc, given, terms))
}

/// Several parts, and their order.
#[cycle(binding)]
fn bind_compound<'a>(
    alloc: Global,
    fuel: u32,
    scope: &Scope<'a>,
    levels: &[Items<ScopeItem>],
    tables: &[WithEntry],
    first: &'a QueryPart,
    others: &'a [CompoundPart],
    order: &'a [OrderingTerm],
    work: &mut Work,
) -> Result<Gathered, Cause>
    ensures { Comes (compound_bound (inside_of scope.now levels.now tables.now) (of_part first.now) (map of_compound others.now) (map of_term order.now) work.old) result work.new }
{
    let fuel = less(fuel)?;
    let Given { part, columns } = bind_part(alloc, fuel, scope, levels, tables, first, work)?;
    let others = bind_others(
        alloc,
        fuel,
        scope,
        levels,
        tables,
        columns.as_slice(),
        others,
        work,
    )?;
    let order = terms_of_compound(alloc, scope.text, columns.as_slice(), order)?;
    Ok(Gathered {
        first: part,
        others,
        order,
        columns,
    })
}

/// A part, and the columns that it gives.
#[cycle(binding)]
pub(crate) fn bind_part<'a>(
    alloc: Global,
    fuel: u32,
    scope: &Scope<'a>,
    levels: &[Items<ScopeItem>],
    tables: &[WithEntry],
    part: &'a QueryPart,
    work: &mut Work,
) -> Result<Given, Cause>
    ensures { Comes (part_bound (inside_of scope.now levels.now tables.now) (of_part part.now) work.old) result work.new }
{
    let fuel = less(fuel)?;
    match part {
        QueryPart::Select(core) => {
            let select = bind_select(alloc, fuel, scope, levels, tables, core, false, work)?;
            select_given(alloc, select, work)
        }
        QueryPart::Values(rows) => {
            bind_values(alloc, fuel, scope, levels, tables, rows.as_slice(), work)
        }
    }
}

/// The parts behind the first, which gives these columns.
#[cycle(binding)]
pub(crate) fn bind_others<'a>(
    alloc: Global,
    fuel: u32,
    scope: &Scope<'a>,
    levels: &[Items<ScopeItem>],
    tables: &[WithEntry],
    columns: &[ResultColumn],
    others: &'a [CompoundPart],
    work: &mut Work,
) -> Result<Items<BoundCompound>, Cause>
    ensures { Comes (others_bound (inside_of scope.now levels.now tables.now) columns.now (map of_compound others.now) work.old) result work.new }
{
    let fuel = less(fuel)?;
    let mut all = Items::new(alloc);
    for other in others {
        let one = bind_other(alloc, fuel, scope, levels, tables, columns, other, work)?;
        pushed(&mut all, one)?;
    }
    Ok(all)
}

/// A part behind the first.
#[cycle(binding)]
fn bind_other<'a>(
    alloc: Global,
    fuel: u32,
    scope: &Scope<'a>,
    levels: &[Items<ScopeItem>],
    tables: &[WithEntry],
    columns: &[ResultColumn],
    other: &'a CompoundPart,
    work: &mut Work,
) -> Result<BoundCompound, Cause>
    ensures { Comes (other_bound (inside_of scope.now levels.now tables.now) columns.now (of_compound other.now) work.old) result work.new }
{
    let fuel = less(fuel)?;
    let given = bind_part(alloc, fuel, scope, levels, tables, &other.part, work)?;
    let word = word_of_part(&other.part);
    width_fits(alloc, word, columns.len(), given.columns.len())?;
    compound_with(alloc, other, columns, given)
}

/// VALUES: rows of one width, which see nothing of an own FROM.
#[cycle(binding)]
fn bind_values<'a>(
    alloc: Global,
    fuel: u32,
    scope: &Scope<'a>,
    levels: &[Items<ScopeItem>],
    tables: &[WithEntry],
    rows: &'a [Items<Expr>],
    work: &mut Work,
) -> Result<Given, Cause>
    ensures { Comes (part_bound (inside_of scope.now levels.now tables.now) (Values (map (map of_expr) rows.now)) work.old) result work.new }
{
    let fuel = less(fuel)?;
    let levels = with_level(alloc, Items::new(alloc), levels)?;
    let bound = bind_rows(
        alloc,
        fuel,
        &scope.clause(Standing::Nowhere, &[]),
        levels.as_slice(),
        tables,
        rows,
        work,
    )?;
    values_given(alloc, bound)
}

/// The rows of VALUES, in order.
#[cycle(binding)]
#[tactic(auto, using(crate::proofs::PartLaws::row_laws))]
fn bind_rows<'a>(
    alloc: Global,
    fuel: u32,
    scope: &Scope<'a>,
    levels: &[Items<ScopeItem>],
    tables: &[WithEntry],
    rows: &'a [Items<Expr>],
    work: &mut Work,
) -> Result<Items<Items<Operand>>, Cause>
    ensures { Comes (values_bound (scope_of scope.now levels.now tables.now) (map (map of_expr) rows.now) work.old) result work.new }
{
    let fuel = less(fuel)?;
    let mut all = Items::new(alloc);
    for row in rows {
        let one = bind_row(alloc, fuel, scope, levels, tables, row.as_slice(), work)?;
        put_row(alloc, &mut all, one)?;
    }
    Ok(all)
}

/// A row of VALUES.
#[cycle(binding)]
fn bind_row<'a>(
    alloc: Global,
    fuel: u32,
    scope: &Scope<'a>,
    levels: &[Items<ScopeItem>],
    tables: &[WithEntry],
    row: &'a [Expr],
    work: &mut Work,
) -> Result<Items<Operand>, Cause>
    ensures { Comes (row_bound (scope_of scope.now levels.now tables.now) (map of_expr row.now) ([], work.old)) result work.new }
{
    let fuel = less(fuel)?;
    let mut all = Items::new(alloc);
    for e in row {
        room_behind(all.as_slice())?;
        let a = bind(alloc, fuel, scope, levels, tables, e, work)?;
        pushed(&mut all, a)?;
    }
    Ok(all)
}
