// An order of a run that is too long to be searched: each item in turn is the one that visits fewest rows then.
use crate::estimating::{Estimate, next_estimated};
use crate::placing::{Placed, is_inner};
use crate::walking::{Run, Walk};
use eng_value::Value;
use plan_best::Counts;
use plan_tree::Conjunct;
use std::alloc::{AllocError, Global};

/// So many items are tried as outermost ones.
const MOST_TRIED: usize = 8;

/// An item that may come next, and what its loop costs for each row.
#[derive(Clone, Copy)]
struct Step {
    place: u32,
    inner: Estimate,
}

/// The best of the orders that begin with one of the first items, and go on with what seems best.
pub(crate) fn greedy_walk<'a, C: Counts>(
    alloc: Global,
    run: Run<'_, 'a>,
    so_far: Estimate,
    conjuncts: &[Conjunct<'a>],
    params: &[Value],
    counts: &C,
) -> Result<Option<Walk>, AllocError> {
    let mut best = None;
    for first in run.items.iter().take(MOST_TRIED) {
        let other = walk_from(alloc, run, first, so_far, conjuncts, params, counts)?;
        best = cheaper(best, other);
    }
    Ok(best)
}

fn cheaper(best: Option<Walk>, other: Option<Walk>) -> Option<Walk> {
    match (best, other) {
        (Some(best), Some(other)) if other.estimate.sorted() < best.estimate.sorted() => Some(
            other,
        ),
        (Some(best), _) => Some(best),
        (None, other) => other,
    }
}

/// The order that begins with this item; each other comes in turn that visits fewest rows then.
fn walk_from<'a, C: Counts>(
    alloc: Global,
    run: Run<'_, 'a>,
    first: &Placed<'a>,
    so_far: Estimate,
    conjuncts: &[Conjunct<'a>],
    params: &[Value],
    counts: &C,
) -> Result<Option<Walk>, AllocError> {
    let mut walk = Walk::behind(alloc, so_far);
    let mut left = run.all(alloc)?;
    let mut next = step_to(alloc, left.as_slice(), first, conjuncts, params, counts)?;
    for _ in run.items {
        let Some(step) = next else {
            return Ok(None);
        };
        walk.add(step.place, step.inner)?;
        left = others(alloc, left.as_slice(), step.place)?;
        next = best_step(alloc, left.as_slice(), conjuncts, params, counts)?;
    }
    Ok(Some(walk))
}

/// The one of the items that are left, up to the next LEFT JOIN, that visits fewest rows; of several the first.
fn best_step<'a, C: Counts>(
    alloc: Global,
    left: &[Placed<'a>],
    conjuncts: &[Conjunct<'a>],
    params: &[Value],
    counts: &C,
) -> Result<Option<Step>, AllocError> {
    let mut best = None;
    for next in left {
        if !is_inner(next.item) {
            break;
        }
        let other = step_to(alloc, left, next, conjuncts, params, counts)?;
        best = with_fewer(best, other);
    }
    Ok(best)
}

fn with_fewer(best: Option<Step>, other: Option<Step>) -> Option<Step> {
    match (best, other) {
        (Some(best), Some(other)) if other.inner.visited < best.inner.visited => Some(other),
        (Some(best), _) => Some(best),
        (None, other) => other,
    }
}

/// That to one of the items that are left, if it can be told what its loop costs.
fn step_to<'a, C: Counts>(
    alloc: Global,
    left: &[Placed<'a>],
    next: &Placed<'a>,
    conjuncts: &[Conjunct<'a>],
    params: &[Value],
    counts: &C,
) -> Result<Option<Step>, AllocError> {
    match next_estimated(alloc, left, next, conjuncts, params, counts)? {
        Some(inner) => Ok(Some(Step {
            place: next.place,
            inner,
        })),
        None => Ok(None),
    }
}

/// The items but the one in this place.
fn others<'a>(
    alloc: Global,
    items: &[Placed<'a>],
    place: u32,
) -> Result<Vec<Placed<'a>>, AllocError> {
    let mut others = Vec::new(alloc);
    for next in items {
        if next.place != place {
            others.push(*next)?;
        }
    }
    Ok(others)
}
