// The cheapest of all orders of a run: the cheapest way through some of its items goes on from the cheapest way through all of them but the last.
use crate::estimating::{Estimate, next_estimated};
use crate::placing::Placed;
use crate::walking::{Run, Walk};
use eng_value::Value;
use plan_best::Counts;
use plan_tree::Conjunct;
use std::alloc::{AllocError, Global};

/// Runs of so many items at most are searched: each item more takes more than twice as long.
pub(crate) const MOST_SEARCHED: usize = 8;

/// Some of the items of a run: a bit for each, the lowest for the first.
#[derive(Clone, Copy)]
struct Subset {
    bits: usize,
}

impl Subset {
    /// All of so many items.
    fn all(items: usize) -> Subset {
        Subset {
            bits: bit(items).saturating_sub(1),
        }
    }

    fn is_empty(self) -> bool {
        self.bits == 0
    }

    /// Whether the item with this index is among them.
    fn has(self, index: usize) -> bool {
        self.bits & bit(index) != 0
    }

    /// With that item, too.
    fn with(self, index: usize) -> Subset {
        Subset {
            bits: self.bits | bit(index),
        }
    }

    /// All but that item.
    fn without(self, index: usize) -> Subset {
        Subset {
            bits: self.bits & !bit(index),
        }
    }
}

/// What stands for the item with this index.
fn bit(index: usize) -> usize {
    if index <= MOST_SEARCHED {
        1 << index
    } else {
        0
    }
}

/// A way through the items of a subset.
#[derive(Clone, Copy)]
struct Way {
    /// What its loops cost, with those in front of the run.
    estimate: Estimate,
    /// The index of the item that comes last.
    last: usize,
}

/// The search for the cheapest way through a run.
#[derive(Drop)]
struct Search {
    /// What the loops in front of the run cost.
    so_far: Estimate,
    /// What the order of the FROM costs: no way is followed that is not much better.
    text: Estimate,
    /// The cheapest way that is known through each subset, by its bits.
    ways: Vec<Option<Way>>,
}

/// The run in the cheapest order of all, if one is much better than that of the FROM.
pub(crate) fn cheapest_walk<'a, C: Counts>(
    alloc: Global,
    run: Run<'_, 'a>,
    so_far: Estimate,
    text: Estimate,
    conjuncts: &[Conjunct<'a>],
    params: &[Value],
    counts: &C,
) -> Result<Option<Walk>, AllocError> {
    let subsets = bit(run.items.len());
    let mut search = Search {
        so_far,
        text,
        ways: vec![in alloc; None; subsets]?,
    };
    // a subset has more bits than each of those that it grows from
    for bits in 0..subsets {
        search.go_on(alloc, run, Subset { bits }, conjuncts, params, counts)?;
    }
    search.found(alloc, run)
}

impl Search {
    fn way(&self, walked: Subset) -> Option<Way> {
        match self.ways.get(walked.bits) {
            Some(known) => *known,
            None => None,
        }
    }

    /// What the cheapest way costs that is known through these items.
    fn estimate(&self, walked: Subset) -> Option<Estimate> {
        if walked.is_empty() {
            return Some(self.so_far);
        }
        match self.way(walked) {
            Some(way) => Some(way.estimate),
            None => None,
        }
    }

    /// Goes on behind these items with each of the others.
    fn go_on<'a, C: Counts>(
        &mut self,
        alloc: Global,
        run: Run<'_, 'a>,
        walked: Subset,
        conjuncts: &[Conjunct<'a>],
        params: &[Value],
        counts: &C,
    ) -> Result<(), AllocError> {
        let Some(outer) = self.estimate(walked) else {
            return Ok(());
        };
        let those = left_behind(alloc, run, walked)?;
        let left = those.as_slice();
        for (index, next) in run.items.iter().enumerate() {
            if !walked.has(index) {
                if let Some(inner) = next_estimated(alloc, left, next, conjuncts, params, counts)? {
                    let estimate = outer.around(inner);
                    let last = index;
                    self.offer(walked.with(index), Way { estimate, last });
                }
            }
        }
        Ok(())
    }

    /// Keeps a way that is cheaper than the one that is known, and much better than the order of the FROM: what comes behind it only adds to its cost.
    fn offer(&mut self, walked: Subset, way: Way) {
        if way.estimate.is_much_better(self.text) && is_cheaper(way, self.way(walked)) {
            if let Some(known) = self.ways.get_mut(walked.bits) {
                *known = Some(way);
            }
        }
    }

    /// The way through all of the run, if one is known, from its last item back to its first.
    fn found(&self, alloc: Global, run: Run) -> Result<Option<Walk>, AllocError> {
        let mut walked = Subset::all(run.items.len());
        let Some(estimate) = self.estimate(walked) else {
            return Ok(None);
        };
        let mut places = Vec::new(alloc);
        for _ in run.items {
            let Some(way) = self.way(walked) else {
                return Ok(None);
            };
            if let Some(last) = run.items.get(way.last) {
                places.insert(0, last.place)?;
            }
            walked = walked.without(way.last);
        }
        Ok(Some(Walk { places, estimate }))
    }
}

/// Whether a way costs less than the one that is known. Of two that cost the same the first stays: subsets are gone through by their bits, so that its
/// last item is the one that is further behind in the FROM.
fn is_cheaper(way: Way, known: Option<Way>) -> bool {
    match known {
        Some(known) => way.estimate.sorted() < known.estimate.sorted(),
        None => true,
    }
}

/// The items of the run that are not walked, and all that stand behind it.
fn left_behind<'a>(
    alloc: Global,
    run: Run<'_, 'a>,
    walked: Subset,
) -> Result<Vec<Placed<'a>>, AllocError> {
    let mut left = Vec::new(alloc);
    for (index, next) in run.items.iter().enumerate() {
        if !walked.has(index) {
            left.push(*next)?;
        }
    }
    left.extend_from_slice(run.behind)?;
    Ok(left)
}
