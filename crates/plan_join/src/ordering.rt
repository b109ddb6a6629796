// The loops over the items of a FROM.
ghost use Rattle.std.specs.Prelude.{IfOk};
ghost use Rattle.plan_join.specs.Orders.{items_at};
ghost use Rattle.plan_join.specs.Ready.{AreLoopsIn};
ghost use Rattle.plan_tree.specs.Plans.{PlanFits};

use crate::choosing::wanted_order;
use crate::looping::loop_over;
use crate::placing::{Placed, order_near};
use crate::reading::{tested_first, tested_in};
use eng_value::Value;
use plan_best::Counts;
use plan_tree::{Conjunct, JoinPlan, Loop};
use sql_meaning::FromTable;
use sqlite_items::Items;
use std::alloc::{AllocError, Global};

/// Loops over the items of a FROM, each by an access of its own, in the order that seems best (SQLite Query Optimizer Overview, sections 2 and 7). A
/// conjunct is tested in the first loop behind which all that it reads is there. Which order and which access is taken is free. Only memory can fail.
pub fn order<'a, C: Counts>(
    alloc: Global,
    from: &'a [FromTable],
    conjuncts: &[Conjunct<'a>],
    params: &[Value],
    counts: &C,
) -> Result<JoinPlan<'a>, AllocError>
    ensures fits { IfOk result (λ p. PlanFits params.now from.now conjuncts.now p) }
{
    let wanted = wanted_order(alloc, from, conjuncts, params, counts)?;
    order_as(alloc, from, conjuncts, params, counts, wanted.as_slice())
}

/// The same, in an order as near to that of these places as exchanges of neighbours lead, neither of which is a LEFT JOIN. Any list will do: items that it
/// doesn't name come behind those that it names, in the order of the FROM.
pub fn order_as<'a, C: Counts>(
    alloc: Global,
    from: &'a [FromTable],
    conjuncts: &[Conjunct<'a>],
    params: &[Value],
    counts: &C,
    wanted: &[u32],
) -> Result<JoinPlan<'a>, AllocError>
    ensures fits { IfOk result (λ p. PlanFits params.now from.now conjuncts.now p) }
{
    let order = order_near(alloc, from, wanted)?;
    let items = order.items.as_slice();
    let alone = items.len() == 1;
    let checks = tested_first(alloc, conjuncts, items, alone)?;
    let loops = loops_over(alloc, items, conjuncts, params, counts, alone)?;
    Ok(JoinPlan {
        checks,
        loops,
        sort: order.moved,
    })
}

/// A loop for each item, which tests what is ready behind it and not in front of it.
fn loops_over<'a, C: Counts>(
    alloc: Global,
    order: &[Placed<'a>],
    conjuncts: &[Conjunct<'a>],
    params: &[Value],
    counts: &C,
    alone: bool,
) -> Result<Items<Loop<'a>>, AllocError>
    ensures { IfOk result (λ loops. AreLoopsIn params.now alone conjuncts.now (items_at order.now) loops) }
{
    let mut loops = Items::new(alloc);
    for (index, next) in order.iter().enumerate() {
        let here = &order[index..];
        let left = &order[index + 1..];
        let assigned = tested_in(alloc, conjuncts, here, left, alone)?;
        let more = loop_over(alloc, next.item, next.place, assigned, params, counts)?;
        loops.push(more)?;
    }
    Ok(loops)
}
