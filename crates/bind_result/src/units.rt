// The units of queries, and conditions.
ghost use Rattle.std.specs.Prelude.{◌≡◌, IfOk};
ghost use Rattle.sql_bound.specs.Answers.{Answers, OnlyMem};
ghost use Rattle.sql_bound.specs.Queries.{asked_as};
ghost use Rattle.sql_bound.specs.Scopes.{begun};
ghost use Rattle.sql_bound.specs.Trees.{of_expr};
ghost use Rattle.bind_result.specs.Units.{conjuncts_checked, unit_within};

use bind_column::{as_columns, grouped_checked};
use bind_operand::conjuncts;
use bind_scope::{asked_as, small};
use bound_tree::{BoundExpr, BoundKey, BoundQuery, BoundUnit};
use eng_value::{Cause, Text};
use sql_bound::{Asked, BoundLimit, Gathered, ScopeItem, Work};
use sql_tree::Expr;
use sqlite_items::Items;
use std::alloc::Global;

/// Nothing is needed yet.
pub fn begun(alloc: Global, units: Items<BoundUnit>) -> Work
    ensures { result ≡ begun units }
{
    Work {
        units,
        needs: Items::new(alloc),
        aggregates: Items::new(alloc),
    }
}

/// What a bound condition is split into at its ANDs. Only memory can fail.
pub fn conjuncts_of(
    alloc: Global,
    condition: &Expr,
    tree: BoundExpr,
) -> Result<Items<BoundExpr>, Cause>
    ensures ok { IfOk result (λ all. all ≡ (of_expr condition.now).conjuncts tree) }
    ensures mem { OnlyMem result }
{
    let mut all = Items::new(alloc);
    conjuncts(alloc, condition, tree, &mut all)?;
    Ok(all)
}

/// The same of HAVING, in which no column is bare.
pub fn checked_conjuncts(
    alloc: Global,
    keys: &[BoundKey],
    own: &[ScopeItem],
    condition: &Expr,
    tree: BoundExpr,
) -> Result<Items<BoundExpr>, Cause>
    ensures { Answers (conjuncts_checked keys.now own.now (of_expr condition.now) tree) result }
{
    grouped_checked(alloc, true, keys, own, &tree)?;
    conjuncts_of(alloc, condition, tree)
}

/// A query as a unit, with what it needs and the columns that it gives. Only memory can fail.
pub fn query_unit(
    alloc: Global,
    within: Option<Text>,
    tables: Items<u32>,
    gathered: Gathered,
    limit: BoundLimit,
    work: Work,
) -> Result<(Asked, Items<BoundUnit>), Cause>
    ensures ok { IfOk result (λ a. a ≡ asked_as (unit_within within tables gathered limit work) gathered.columns work) }
    ensures mem { OnlyMem result }
{
    let unit_columns = as_columns(alloc, gathered.columns.as_slice())?;
    let arguments = small(work.needs.len())?;
    let Gathered {
        first,
        others,
        order,
        columns,
    } = gathered;
    let unit = BoundUnit::Queried(BoundQuery {
        within,
        arguments,
        tables,
        first,
        others,
        order,
        limit: limit.count,
        offset: limit.offset,
        columns: unit_columns,
    });
    asked_as(unit, columns, work)
}
