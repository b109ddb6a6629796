// Queries in expressions.
ghost use Rattle.bind_query.specs.Scopes.{scope_of};
ghost use Rattle.sql_bound.specs.Answers.{Answers, Comes, Refuses};
ghost use Rattle.sql_bound.specs.Expressions.{bound_step, exists_bound, one_column, query_asked, scalar_bound};
ghost use Rattle.sql_tree.specs.declared.expr.Expr.TheOpen.{Expr-F};
ghost use Rattle.sql_bound.specs.Trees.{of_expr, of_query};
ghost use Rattle.eng_value.specs.declared.cause.Cause.TheVariants as cause;

use crate::binding::bind;
use crate::fuel::less;
use crate::leaves::misused;
use crate::queries::bind_query;
use crate::scope::Scope;
use crate::words::first_word;
use bind_operand::{in_query_of, plain};
use bind_scope::handed;
use bound_tree::BoundExpr;
use eng_value::{Cause, Text};
use sql_bound::{Asked, Operand, ResultColumn, ScopeItem, WithEntry, Work};
use sql_tree::{Expr, Query};
use sqlite_items::Items;
use std::alloc::Global;
use std::mem;

/// What a query gives, and what it is asked with.
#[cycle(binding)]
fn ask<'a>(
    alloc: Global,
    fuel: u32,
    scope: &Scope<'a>,
    levels: &[Items<ScopeItem>],
    tables: &[WithEntry],
    query: &'a Query,
    work: &mut Work,
) -> Result<(Asked, Items<BoundExpr>), Cause>
    ensures { Comes (query_asked (scope_of scope.now levels.now tables.now) (of_query query.now) work.old) result work.new }
{
    let fuel = less(fuel)?;
    if !scope.allowed.queries {
        return misused(alloc, first_word(query));
    }
    let units = mem::replace(&mut work.units, Items::new(alloc));
    let (asked, units) = bind_query(alloc, fuel, scope, levels, tables, query, units)?;
    work.units = units;
    let arguments = handed(alloc, asked.needs.as_slice(), work)?;
    Ok((asked, arguments))
}

/// Whether a query has a row.
#[cycle(binding)]
pub(crate) fn bind_exists<'a>(
    alloc: Global,
    fuel: u32,
    scope: &Scope<'a>,
    levels: &[Items<ScopeItem>],
    tables: &[WithEntry],
    query: &'a Query,
    work: &mut Work,
) -> Result<Operand, Cause>
    ensures { Comes (exists_bound (scope_of scope.now levels.now tables.now) (of_query query.now) work.old) result work.new }
{
    let fuel = less(fuel)?;
    let (asked, arguments) = ask(alloc, fuel, scope, levels, tables, query, work)?;
    Ok(plain(BoundExpr::exists(alloc, asked.unit, arguments)?))
}

/// The value of a query's one column.
#[cycle(binding)]
pub(crate) fn bind_scalar<'a>(
    alloc: Global,
    fuel: u32,
    scope: &Scope<'a>,
    levels: &[Items<ScopeItem>],
    tables: &[WithEntry],
    query: &'a Query,
    work: &mut Work,
) -> Result<Operand, Cause>
    ensures { Comes (scalar_bound (scope_of scope.now levels.now tables.now) (of_query query.now) work.old) result work.new }
{
    let fuel = less(fuel)?;
    let (asked, arguments) = ask(alloc, fuel, scope, levels, tables, query, work)?;
    let Asked {
        unit,
        needs: _,
        columns,
    } = asked;
    one_column(alloc, first_word(query), columns)?;
    Ok(plain(BoundExpr::scalar(alloc, unit, arguments)?))
}

/// `a IN (query)`
#[cycle(binding)]
pub(crate) fn bind_in_query<'a>(
    alloc: Global,
    fuel: u32,
    scope: &Scope<'a>,
    levels: &[Items<ScopeItem>],
    tables: &[WithEntry],
    a: &'a Expr,
    query: &'a Query,
    work: &mut Work,
) -> Result<Operand, Cause>
    ensures { Comes (bound_step (Expr-F.InQuery (of_expr a.now) (of_query query.now)) (scope_of scope.now levels.now tables.now) work.old) result work.new }
{
    let fuel = less(fuel)?;
    let x = bind(alloc, fuel, scope, levels, tables, a, work)?;
    let (asked, arguments) = ask(alloc, fuel, scope, levels, tables, query, work)?;
    let Asked {
        unit,
        needs: _,
        columns,
    } = asked;
    let column = one_column(alloc, first_word(query), columns)?;
    in_query_of(alloc, x, &column, unit, arguments)
}

/// The one column that a query of this first word gives.
fn one_column(
    alloc: Global,
    word: &str,
    columns: Items<ResultColumn>,
) -> Result<ResultColumn, Cause>
    ensures { Answers (one_column word.now columns) result }
{
    let mut columns = columns;
    if columns.len() != 1 {
        return wrong_number(alloc, word);
    }
    match columns.pop() {
        Some(column) => Ok(column),
        None => wrong_number(alloc, word),
    }
}

fn wrong_number(alloc: Global, word: &str) -> Result<ResultColumn, Cause>
    ensures { Refuses (cause.Arity word.now) result }
{
    match Text::from_str(alloc, word) {
        Ok(word) => Err(Cause::Arity(word)),
        Err(_) => Err(Cause::Mem),
    }
}
