// Orders of loops as far as they are chosen. No contract speaks of them.
use crate::estimating::Estimate;
use crate::placing::Placed;
use std::alloc::{AllocError, Global};

/// Neighbours that may all change places with one another, and what stands behind them.
#[derive(Clone, Copy)]
pub(crate) struct Run<'r, 'a> {
    pub(crate) items: &'r [Placed<'a>],
    pub(crate) behind: &'r [Placed<'a>],
}

impl<'a> Run<'_, 'a> {
    /// All of them, in the order of the FROM.
    pub(crate) fn all(self, alloc: Global) -> Result<Vec<Placed<'a>>, AllocError> {
        let mut all = Vec::new(alloc);
        all.extend_from_slice(self.items)?;
        all.extend_from_slice(self.behind)?;
        Ok(all)
    }
}

/// Places in the order of their loops, and what these loops cost, with those that stand in front of them.
#[derive(Drop)]
pub(crate) struct Walk {
    pub(crate) places: Vec<u32>,
    pub(crate) estimate: Estimate,
}

impl Walk {
    /// That goes on behind loops that cost so much.
    pub(crate) fn behind(alloc: Global, so_far: Estimate) -> Walk {
        Walk {
            places: Vec::new(alloc),
            estimate: so_far,
        }
    }

    /// Goes on with one more item, whose loop costs so much for each row.
    pub(crate) fn add(&mut self, place: u32, inner: Estimate) -> Result<(), AllocError> {
        self.places.push(place)?;
        self.estimate = self.estimate.around(inner);
        Ok(())
    }

    /// Goes on with a walk that begins where this one ends.
    pub(crate) fn append(&mut self, more: Walk) -> Result<(), AllocError> {
        self.places.extend_from_slice(more.places.as_slice())?;
        self.estimate = more.estimate;
        Ok(())
    }
}
