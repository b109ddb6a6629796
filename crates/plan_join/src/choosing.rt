// Which order of loops seems best. No contract speaks of it: what is wanted needs no proof.
use crate::estimating::{Estimate, estimated};
use crate::greedy::greedy_walk;
use crate::placing::{Placed, is_inner, order_near};
use crate::searching::{MOST_SEARCHED, cheapest_walk};
use crate::walking::{Run, Walk};
use eng_value::Value;
use plan_best::Counts;
use plan_tree::Conjunct;
use sql_meaning::FromTable;
use std::alloc::{AllocError, Global};

/// Where no more rows are visited than these in the order of the FROM, no other is looked for.
const FEW_ROWS: usize = 64;

/// The order of places that seems best; none where that of the FROM seems to cost less than twice as much.
pub(crate) fn wanted_order<'a, C: Counts>(
    alloc: Global,
    from: &'a [FromTable],
    conjuncts: &[Conjunct<'a>],
    params: &[Value],
    counts: &C,
) -> Result<Vec<u32>, AllocError> {
    if from.len() < 2 {
        return Ok(Vec::new(alloc));
    }
    let order = order_near(alloc, from, &[])?;
    let items = order.items.as_slice();
    match estimated(alloc, items, conjuncts, params, counts)? {
        Some(text) if text.visited > FEW_ROWS => {
            let best = best_walk(alloc, items, text, conjuncts, params, counts)?;
            Ok(chosen(alloc, best, text))
        }
        _ => Ok(Vec::new(alloc)),
    }
}

/// The order that was found, if it is much better than that of the FROM.
fn chosen(alloc: Global, best: Option<Walk>, text: Estimate) -> Vec<u32> {
    match best {
        Some(best) if best.estimate.is_much_better(text) => best.places,
        _ => Vec::new(alloc),
    }
}

/// The items run by run, each run in the order that seems best behind those in front of it.
fn best_walk<'a, C: Counts>(
    alloc: Global,
    items: &[Placed<'a>],
    text: Estimate,
    conjuncts: &[Conjunct<'a>],
    params: &[Value],
    counts: &C,
) -> Result<Option<Walk>, AllocError> {
    let mut walk = Walk::behind(alloc, Estimate::of_none());
    let mut run = Vec::new(alloc);
    for (index, next) in items.iter().enumerate() {
        run.push(*next)?;
        let behind = &items[index + 1..];
        if ends_run(next, behind) {
            let those = Run {
                items: run.as_slice(),
                behind,
            };
            let more = run_walk(alloc, those, walk.estimate, text, conjuncts, params, counts)?;
            let Some(more) = more else {
                return Ok(None);
            };
            walk.append(more)?;
            run = Vec::new(alloc);
        }
    }
    Ok(Some(walk))
}

/// Whether an item changes places with none of those behind it: a LEFT JOIN is a run for itself.
fn ends_run(item: &Placed, behind: &[Placed]) -> bool {
    match behind {
        [] => true,
        [next, ..] => !is_inner(item.item) || !is_inner(next.item),
    }
}

/// The run in the order that seems best behind loops that cost so much.
fn run_walk<'a, C: Counts>(
    alloc: Global,
    run: Run<'_, 'a>,
    so_far: Estimate,
    text: Estimate,
    conjuncts: &[Conjunct<'a>],
    params: &[Value],
    counts: &C,
) -> Result<Option<Walk>, AllocError> {
    if run.items.len() <= MOST_SEARCHED {
        cheapest_walk(alloc, run, so_far, text, conjuncts, params, counts)
    } else {
        greedy_walk(alloc, run, so_far, conjuncts, params, counts)
    }
}
