// ORDER BY of one SELECT: a whole number, then a name of a result as the whole term, then an expression (SELECT, section 4).
ghost use Rattle.std.specs.Prelude.{◌≡◌, [], map};
ghost use Rattle.bind_query.specs.Results.{term_bound, term_by_expression};
ghost use Rattle.bind_query.specs.Scopes.{outer_of, scope_of};
ghost use Rattle.bind_query.specs.Turns.{in_turn};
ghost use Rattle.sql_bound.specs.Answers.{Comes};
ghost use Rattle.sql_bound.specs.Orders.{terms_of_select};
ghost use Rattle.sql_bound.specs.Results.{shown_in};
ghost use Rattle.sql_bound.specs.Trees.{of_result, of_term};

use crate::binding::bind;
use crate::fuel::less;
use crate::levels::with_level;
use crate::scope::Scope;
use bind_result::{TermPlace, checked_term, result_term, term_place, unknown_text};
use bind_scope::{copied_level, pushed};
use bound_tree::BoundTerm;
use eng_value::Cause;
use sql_bound::{BoundSelect, ScopeItem, Standing, WithEntry, Work};
use sql_tree::{OrderingTerm, ResultColumn};
use sqlite_items::Items;
use std::alloc::Global;

/// The order of a SELECT with these results.
#[cycle(binding)]
pub(crate) fn bind_order<'a>(
    alloc: Global,
    fuel: u32,
    scope: &Scope<'a>,
    levels: &[Items<ScopeItem>],
    tables: &[WithEntry],
    results: &'a [ResultColumn],
    select: &BoundSelect,
    order: &'a [OrderingTerm],
    work: &mut Work,
) -> Result<Items<BoundTerm>, Cause>
    ensures { Comes (terms_of_select select.now (outer_of scope.now levels.now tables.now) (shown_in scope.now.text select.now.found.level (map of_result results.now)) (map of_term order.now) work.old) result work.new }
{
    let fuel = less(fuel)?;
    if order.is_empty() {
        return Ok(Items::new(alloc));
    }
    let own = copied_level(alloc, select.found.level.as_slice())?;
    let levels = with_level(alloc, own, levels)?;
    bind_terms(
        alloc,
        fuel,
        &scope.clause(Standing::Taken, &[]),
        levels.as_slice(),
        tables,
        results,
        select,
        order,
        work,
    )
}

/// The terms, from left to right, over the FROM of the SELECT.
#[cycle(binding)]
fn bind_terms<'a>(
    alloc: Global,
    fuel: u32,
    scope: &Scope<'a>,
    levels: &[Items<ScopeItem>],
    tables: &[WithEntry],
    results: &'a [ResultColumn],
    select: &BoundSelect,
    order: &'a [OrderingTerm],
    work: &mut Work,
) -> Result<Items<BoundTerm>, Cause>
    ensures { Comes (in_turn (term_bound select.now (scope_of scope.now levels.now tables.now) (shown_in scope.now.text select.now.found.level (map of_result results.now))) (map of_term order.now) [] work.old) result work.new }
{
    let fuel = less(fuel)?;
    let mut terms = Items::new(alloc);
    for term in order {
        let one = bind_term(
            alloc, fuel, scope, levels, tables, results, select, term, work,
        )?;
        pushed(&mut terms, one)?;
    }
    Ok(terms)
}

/// A term.
#[cycle(binding)]
fn bind_term<'a>(
    alloc: Global,
    fuel: u32,
    scope: &Scope<'a>,
    levels: &[Items<ScopeItem>],
    tables: &[WithEntry],
    results: &'a [ResultColumn],
    select: &BoundSelect,
    term: &'a OrderingTerm,
    work: &mut Work,
) -> Result<BoundTerm, Cause>
    ensures { Comes (term_bound select.now (scope_of scope.now levels.now tables.now) (shown_in scope.now.text select.now.found.level (map of_result results.now)) (of_term term.now) work.old) result work.new }
{
    let fuel = less(fuel)?;
    let place = term_place(
        alloc,
        scope.text,
        select.found.level.as_slice(),
        results,
        select.shown.columns.as_slice(),
        &term.key.expr,
    )?;
    match place {
        TermPlace::At(place) => result_term(term, select.shown.columns.as_slice(), place),
        TermPlace::Nowhere => unknown_text(alloc, scope.text, term.key.text),
        TermPlace::Else => {
            bind_term_expression(alloc, fuel, scope, levels, tables, select, term, work)
        }
    }
}

/// A term that is an expression.
#[cycle(binding)]
fn bind_term_expression<'a>(
    alloc: Global,
    fuel: u32,
    scope: &Scope<'a>,
    levels: &[Items<ScopeItem>],
    tables: &[WithEntry],
    select: &BoundSelect,
    term: &'a OrderingTerm,
    work: &mut Work,
) -> Result<BoundTerm, Cause>
    ensures { Comes (term_by_expression select.now (scope_of scope.now levels.now tables.now) (of_term term.now) work.old) result work.new }
{
    let fuel = less(fuel)?;
    let a = bind(alloc, fuel, scope, levels, tables, &term.key.expr, work)?;
    checked_term(alloc, select, term, a)
}
