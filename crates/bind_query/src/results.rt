// Results in turn (SELECT, section 2.4).
ghost use Rattle.std.specs.Prelude.{◌≡◌, map};
ghost use Rattle.bind_query.specs.Results.{one_met, result_met, result_scope};
ghost use Rattle.bind_query.specs.Scopes.{own_of, scope_of};
ghost use Rattle.sql_bound.specs.Answers.{Comes, Goes};
ghost use Rattle.sql_bound.specs.Results.{nothing_shown, one_shown, results_bound};
ghost use Rattle.sql_bound.specs.Trees.{of_result, of_spanned};

use crate::binding::bind;
use crate::fuel::less;
use crate::levels::own_level;
use crate::scope::Scope;
use bind_column::room_behind;
use bind_result::{show, show_all, show_table};
use bound_tree::BoundKey;
use eng_value::Cause;
use sql_bound::{ScopeItem, Shown, WithEntry, Work};
use sql_tree::{ResultColumn, SpannedExpr, Token};
use sqlite_items::Items;
use std::alloc::Global;

/// The results, from left to right.
#[cycle(binding)]
pub(crate) fn bind_results<'a>(
    alloc: Global,
    fuel: u32,
    scope: &Scope<'a>,
    levels: &[Items<ScopeItem>],
    tables: &[WithEntry],
    results: &'a [ResultColumn],
    grouped: bool,
    keys: &[BoundKey],
    work: &mut Work,
) -> Result<Shown, Cause>
    ensures { Comes (results_bound (result_scope (scope_of scope.now levels.now tables.now) (own_of levels.now) grouped keys.now) (map of_result results.now) (nothing_shown, work.old)) result work.new }
{
    let fuel = less(fuel)?;
    let mut shown = Shown {
        trees: Items::new(alloc),
        columns: Items::new(alloc),
    };
    for column in results {
        bind_result(
            alloc, fuel, scope, levels, tables, column, grouped, keys, &mut shown, work,
        )?;
    }
    Ok(shown)
}

/// One result more, or those that a star shows.
#[cycle(binding)]
fn bind_result<'a>(
    alloc: Global,
    fuel: u32,
    scope: &Scope<'a>,
    levels: &[Items<ScopeItem>],
    tables: &[WithEntry],
    column: &'a ResultColumn,
    grouped: bool,
    keys: &[BoundKey],
    shown: &mut Shown,
    work: &mut Work,
) -> Result<(), Cause>
    ensures { Goes (result_met (result_scope (scope_of scope.now levels.now tables.now) (own_of levels.now) grouped keys.now) (of_result column.now) (shown.old, work.old)) result shown.new work.new }
{
    let fuel = less(fuel)?;
    match column {
        ResultColumn::All => show_all(alloc, own_level(levels), grouped, keys, shown),
        ResultColumn::AllOf(token) => {
            show_table(
                alloc,
                scope.text,
                own_level(levels),
                grouped,
                keys,
                token,
                shown,
            )
        }
        ResultColumn::Expression(spanned, alias) => bind_shown(
            alloc, fuel, scope, levels, tables, spanned, alias, grouped, keys, shown, work,
        ),
    }
}

/// A result that is an expression.
#[cycle(binding)]
fn bind_shown<'a>(
    alloc: Global,
    fuel: u32,
    scope: &Scope<'a>,
    levels: &[Items<ScopeItem>],
    tables: &[WithEntry],
    spanned: &'a SpannedExpr,
    alias: &Option<Token>,
    grouped: bool,
    keys: &[BoundKey],
    shown: &mut Shown,
    work: &mut Work,
) -> Result<(), Cause>
    ensures { Goes (one_met (result_scope (scope_of scope.now levels.now tables.now) (own_of levels.now) grouped keys.now) (one_shown scope.now.text (of_spanned spanned.now) alias.now) (shown.old, work.old)) result shown.new work.new }
{
    let fuel = less(fuel)?;
    room_behind(shown.trees.as_slice())?;
    let a = bind(alloc, fuel, scope, levels, tables, &spanned.expr, work)?;
    show(
        alloc,
        scope.text,
        own_level(levels),
        grouped,
        keys,
        spanned,
        alias,
        a,
        shown,
    )
}
