// The loop over an item.
ghost use Rattle.std.specs.Prelude.{◌≡◌, IfOk};
ghost use Rattle.plan_join.specs.Ready.{IsLeftLoop, IsInnerLoop};
ghost use Rattle.plan_tree.specs.Assigned.{IsLoopFor};

use crate::testing::tested;
use bound_tree::BoundExpr;
use eng_value::Value;
use plan_best::{Counts, access};
use plan_tree::{Access, Conjunct, Loop, Pairs, split};
use sql_meaning::{FromTable, Join};
use sqlite_items::Items;
use std::alloc::{AllocError, Global};

/// The loop over the item in a place, to which these conjuncts are assigned.
pub(crate) fn loop_over<'a, C: Counts>(
    alloc: Global,
    item: &'a FromTable,
    place: u32,
    assigned: Items<Conjunct<'a>>,
    params: &[Value],
    counts: &C,
) -> Result<Loop<'a>, AllocError>
    ensures { IfOk result (λ l. IsLoopFor params.now place item.now assigned.entry l) }
{
    match &item.join {
        Join::Inner => inner_loop(alloc, item, place, assigned, params, counts),
        Join::Left(ons) => left_loop(alloc, item, ons.as_slice(), place, assigned, params, counts),
    }
}

/// What is assigned to it is what its access goes by.
fn inner_loop<'a, C: Counts>(
    alloc: Global,
    item: &FromTable,
    place: u32,
    assigned: Items<Conjunct<'a>>,
    params: &[Value],
    counts: &C,
) -> Result<Loop<'a>, AllocError>
    ensures { IfOk result (λ l. IsInnerLoop params.now place item.now assigned.entry l) }
{
    let conjuncts = assigned.as_slice();
    let indexes = item.indexes.as_slice();
    let found = access(alloc, place, indexes, conjuncts, params, counts)?;
    let consumed = found.consumed.as_slice();
    let checks = tested(alloc, conjuncts, consumed)?;
    Ok(by_access(item, place, found, Pairs::Each, checks))
}

/// Of a LEFT JOIN the access goes by the ON, and what is assigned rejects rows behind it.
fn left_loop<'a, C: Counts>(
    alloc: Global,
    item: &FromTable,
    ons: &'a [BoundExpr],
    place: u32,
    assigned: Items<Conjunct<'a>>,
    params: &[Value],
    counts: &C,
) -> Result<Loop<'a>, AllocError>
    ensures { IfOk result (λ l. IsLeftLoop params.now place item.now ons.now assigned.entry l) }
{
    let those = split(alloc, ons)?;
    let conjuncts = those.as_slice();
    let indexes = item.indexes.as_slice();
    let found = access(alloc, place, indexes, conjuncts, params, counts)?;
    let consumed = found.consumed.as_slice();
    let pairs = tested(alloc, conjuncts, consumed)?;
    Ok(by_access(item, place, found, Pairs::OrAlone(pairs), assigned))
}

fn by_access<'a>(
    item: &FromTable,
    place: u32,
    found: Access<'a>,
    pairs: Pairs<'a>,
    checks: Items<Conjunct<'a>>,
) -> Loop<'a>
    ensures place { result.place ≡ place }
    ensures table { result.table ≡ item.now.table }
    ensures path { result.path ≡ found.entry.path }
    ensures pairs { result.pairs ≡ pairs.entry }
    ensures checks { result.checks ≡ checks.entry }
{
    Loop {
        place,
        table: item.table,
        path: found.path,
        pairs,
        checks,
    }
}
