// What is ignored in queries.
ghost use Rattle.std.specs.Prelude.{◌≡◌, OnOk};
ghost use Rattle.bound_ignored.specs.Marked.{marked_compound, marked_core, marked_part, marked_query, marked_recursion, marked_unit};

use crate::marking::{Marking, mark_all};
use bound_tree::{BoundCompound, BoundCore, BoundPart, BoundQuery, BoundRecursion, BoundUnit};
use eng_value::{Action, Text};
use std::alloc::{AllocError, Global};

fn mark_core(
    alloc: Global,
    ignored: &[Action],
    within: &Option<Text>,
    core: &mut BoundCore,
) -> Result<(), AllocError>
    ensures { OnOk result (core.new ≡ marked_core ignored.now within.now core.old) }
{
    mark_all(alloc, ignored, within, &mut core.items)
}

fn mark_part(
    alloc: Global,
    ignored: &[Action],
    within: &Option<Text>,
    part: &mut BoundPart,
) -> Result<(), AllocError>
    ensures { OnOk result (part.new ≡ marked_part ignored.now within.now part.old) }
{
    match part {
        BoundPart::Select(core) => mark_core(alloc, ignored, within, core),
        BoundPart::Values(_) => Ok(()),
    }
}

impl Marking for BoundCompound {
    ghost as_marked = { marked_compound };

    fn mark(
        &mut self,
        alloc: Global,
        ignored: &[Action],
        within: &Option<Text>,
    ) -> Result<(), AllocError> {
        mark_part(alloc, ignored, within, &mut self.part)
    }
}

fn mark_query(alloc: Global, ignored: &[Action], query: &mut BoundQuery) -> Result<(), AllocError>
    ensures { OnOk result (query.new ≡ marked_query ignored.now query.old) }
{
    mark_part(alloc, ignored, &query.within, &mut query.first)?;
    mark_all(alloc, ignored, &query.within, &mut query.others)
}

fn mark_recursion(
    alloc: Global,
    ignored: &[Action],
    recursion: &mut BoundRecursion,
) -> Result<(), AllocError>
    ensures { OnOk result (recursion.new ≡ marked_recursion ignored.now recursion.old) }
{
    mark_part(alloc, ignored, &recursion.within, &mut recursion.first)?;
    mark_all(alloc, ignored, &recursion.within, &mut recursion.others)?;
    mark_core(alloc, ignored, &recursion.within, &mut recursion.part)
}

impl Marking for BoundUnit {
    ghost as_marked = { λ ignored within unit. marked_unit ignored unit };

    /// It is marked as what stands in the text that it names itself.
    fn mark(
        &mut self,
        alloc: Global,
        ignored: &[Action],
        _within: &Option<Text>,
    ) -> Result<(), AllocError> {
        match self {
            BoundUnit::Queried(query) => mark_query(alloc, ignored, query),
            BoundUnit::Recursed(recursion) => mark_recursion(alloc, ignored, recursion),
        }
    }
}
