// GROUP BY: a whole number names a result, a name a column before a result (SELECT, section 2.3).
ghost use Rattle.std.specs.Prelude.{◌≡◌, map};
ghost use Rattle.bind_query.specs.Scopes.{own_of, scope_of};
ghost use Rattle.sql_bound.specs.Answers.{Comes};
ghost use Rattle.sql_bound.specs.Cores.{by_term, keys_bound, numbered};
ghost use Rattle.sql_bound.specs.Results.{at_place, shown_in, text_of};
ghost use Rattle.sql_bound.specs.Trees.{of_result, of_spanned};

use crate::binding::bind;
use crate::fuel::less;
use crate::levels::own_level;
use crate::scope::Scope;
use bind_column::column_operand;
use bind_result::{ShownAt, key_of, place_of, shown_at, unknown_text};
use bind_scope::pushed;
use bound_tree::BoundKey;
use eng_value::Cause;
use sql_bound::{Operand, ScopeItem, WithEntry, Work};
use sql_tree::{Span, SpannedExpr};
use sqlite_items::Items;
use std::alloc::Global;

/// The expressions of GROUP BY, from left to right.
#[cycle(binding)]
pub(crate) fn bind_keys<'a>(
    alloc: Global,
    fuel: u32,
    scope: &Scope<'a>,
    levels: &[Items<ScopeItem>],
    tables: &[WithEntry],
    group_by: &'a [SpannedExpr],
    work: &mut Work,
) -> Result<Items<BoundKey>, Cause>
    ensures { Comes (keys_bound (scope_of scope.now levels.now tables.now) (shown_in scope.now.text (own_of levels.now) (map of_result scope.now.results)) (map of_spanned group_by.now) work.old) result work.new }
{
    let fuel = less(fuel)?;
    let mut keys = Items::new(alloc);
    for spanned in group_by {
        let a = bind_key(alloc, fuel, scope, levels, tables, spanned, work)?;
        pushed(&mut keys, key_of(a))?;
    }
    Ok(keys)
}

/// An expression of GROUP BY.
#[cycle(binding)]
fn bind_key<'a>(
    alloc: Global,
    fuel: u32,
    scope: &Scope<'a>,
    levels: &[Items<ScopeItem>],
    tables: &[WithEntry],
    spanned: &'a SpannedExpr,
    work: &mut Work,
) -> Result<Operand, Cause>
    ensures { Comes (by_term (scope_of scope.now levels.now tables.now) (shown_in scope.now.text (own_of levels.now) (map of_result scope.now.results)) (of_spanned spanned.now) (of_spanned spanned.now).expr.term work.old) result work.new }
{
    let fuel = less(fuel)?;
    match place_of(alloc, scope.text, &spanned.expr)? {
        Some(place) => bind_numbered(
            alloc,
            fuel,
            scope,
            levels,
            tables,
            spanned.text,
            place,
            work,
        ),
        None => bind(alloc, fuel, scope, levels, tables, &spanned.expr, work),
    }
}

/// The result of a number, which stands where this is written.
#[cycle(binding)]
fn bind_numbered<'a>(
    alloc: Global,
    fuel: u32,
    scope: &Scope<'a>,
    levels: &[Items<ScopeItem>],
    tables: &[WithEntry],
    written: Span,
    place: Option<u64>,
    work: &mut Work,
) -> Result<Operand, Cause>
    ensures { Comes (numbered (scope_of scope.now levels.now tables.now) (text_of scope.now.text written) (at_place (shown_in scope.now.text (own_of levels.now) (map of_result scope.now.results)) place) work.old) result work.new }
{
    let fuel = less(fuel)?;
    match shown_at(alloc, scope.text, own_level(levels), scope.results, place)? {
        ShownAt::Column(column) => Ok(column_operand(column)),
        ShownAt::Expr(e) => bind(alloc, fuel, &scope.plain(), levels, tables, e, work),
        ShownAt::Nothing => unknown_text(alloc, scope.text, written),
    }
}
