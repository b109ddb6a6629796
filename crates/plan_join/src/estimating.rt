// What loops are taken to cost. No contract speaks of it: it only helps to choose.
use crate::placing::Placed;
use crate::testing::tested;
use eng_value::Value;
use plan_best::{Counts, access, rows_visited};
use plan_tree::{Conjunct, split};
use sql_meaning::Join;
use sqlite_items::Items;
use std::alloc::{AllocError, Global};

/// Of the rows that are visited, one in so many is taken to be kept by a conjunct that is tested there.
const CONJUNCT_KEEPS: usize = 4;

/// What loops are taken to cost.
#[derive(Clone, Copy)]
pub(crate) struct Estimate {
    /// So many rows are visited in all.
    pub(crate) visited: usize,
    /// And so many are given.
    pub(crate) given: usize,
}

impl Estimate {
    /// That of no loops.
    pub(crate) fn of_none() -> Estimate {
        Estimate {
            visited: 0,
            given: 1,
        }
    }

    /// With a loop in the innermost place that gives so much for each row.
    pub(crate) fn around(self, inner: Estimate) -> Estimate {
        Estimate {
            visited: self
                .visited
                .saturating_add(self.given.saturating_mul(inner.visited)),
            given: self.given.saturating_mul(inner.given),
        }
    }

    /// Whether less than half as much is done as by the loops in the order of the FROM, if the rows are sorted behind them.
    pub(crate) fn is_much_better(self, text: Estimate) -> bool {
        self.sorted().saturating_mul(2) < text.visited
    }

    /// How much is done where the rows are sorted behind the loops.
    pub(crate) fn sorted(self) -> usize {
        let depth = usize::BITS.saturating_sub(self.given.leading_zeros());
        self.visited
            .saturating_add(self.given.saturating_mul(depth as usize))
    }
}

/// What the loops over items in this order cost, if that can be told.
pub(crate) fn estimated<'a, C: Counts>(
    alloc: Global,
    order: &[Placed<'a>],
    conjuncts: &[Conjunct<'a>],
    params: &[Value],
    counts: &C,
) -> Result<Option<Estimate>, AllocError> {
    let mut all = Estimate::of_none();
    for (index, next) in order.iter().enumerate() {
        match next_estimated(alloc, &order[index..], next, conjuncts, params, counts)? {
            Some(inner) => all = all.around(inner),
            None => return Ok(None),
        }
    }
    Ok(Some(all))
}

/// What the loop over one of the items that are left costs at a row of those around it, if that can be told.
pub(crate) fn next_estimated<'a, C: Counts>(
    alloc: Global,
    left: &[Placed<'a>],
    next: &Placed<'a>,
    conjuncts: &[Conjunct<'a>],
    params: &[Value],
    counts: &C,
) -> Result<Option<Estimate>, AllocError> {
    let those = match &next.item.join {
        Join::Inner => read_by(alloc, left, next.place, conjuncts)?,
        Join::Left(ons) => split(alloc, ons.as_slice())?,
    };
    let conjuncts = those.as_slice();
    let indexes = next.item.indexes.as_slice();
    let found = access(alloc, next.place, indexes, conjuncts, params, counts)?;
    let Some(visited) = rows_visited(alloc, next.place, &found, params, counts)? else {
        return Ok(None);
    };
    let tests = tested(alloc, conjuncts, found.consumed.as_slice())?;
    Ok(Some(Estimate {
        visited: visited.max(1),
        given: kept_by(visited, tests.len()),
    }))
}

/// How many rows so many conjuncts are taken to keep.
fn kept_by(visited: usize, tests: usize) -> usize {
    let mut kept = visited;
    for _ in 0..tests {
        kept = kept / CONJUNCT_KEEPS;
    }
    kept.max(1)
}

/// The conjuncts that read the row of this item, and none of the others that are left.
fn read_by<'a>(
    alloc: Global,
    left: &[Placed],
    place: u32,
    conjuncts: &[Conjunct<'a>],
) -> Result<Items<Conjunct<'a>>, AllocError> {
    let mut those = Items::new(alloc);
    for conjunct in conjuncts {
        if !conjunct.ignores(place) && reads_no_other(conjunct, left, place) {
            those.push(conjunct.copied())?;
        }
    }
    Ok(those)
}

fn reads_no_other(conjunct: &Conjunct, left: &[Placed], place: u32) -> bool {
    for other in left {
        if other.place != place && !conjunct.ignores(other.place) {
            return false;
        }
    }
    true
}
