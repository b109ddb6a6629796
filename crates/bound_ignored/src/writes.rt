// What is ignored in writes and triggers.
ghost use Rattle.std.specs.Prelude.{◌≡◌, Some, OnOk, map};
ghost use Rattle.bound_ignored.specs.Marked.{marked_as, marked_step, marked_trigger, marked_write};

use crate::marking::{Marking, mark_all};
use crate::places::mark_as;
use bound_tree::{BoundItem, BoundStep, BoundTrigger, BoundWrite, reversed};
use eng_value::{Action, Text};
use sqlite_items::Items;
use std::alloc::{AllocError, Global};
use std::mem;

pub(crate) fn mark_write(
    alloc: Global,
    ignored: &[Action],
    within: &Option<Text>,
    write: &mut BoundWrite,
) -> Result<(), AllocError>
    ensures { OnOk result (write.new ≡ marked_write ignored.now within.now write.old) }
{
    write.target.item.mark(alloc, ignored, within)
}

impl Marking for BoundStep {
    ghost as_marked = { marked_step };

    fn mark(
        &mut self,
        alloc: Global,
        ignored: &[Action],
        within: &Option<Text>,
    ) -> Result<(), AllocError> {
        match self {
            BoundStep::Asks(_, _) => Ok(()),
            BoundStep::Writes(write) => mark_write(alloc, ignored, within, write),
        }
    }
}

/// Marks OLD and NEW, whose columns are read as those of the trigger's table.
fn mark_rows(
    alloc: Global,
    ignored: &[Action],
    within: &Option<Text>,
    table: &str,
    rows: &mut Items<BoundItem>,
) -> Result<(), AllocError>
    ensures { OnOk result (rows.new ≡ map (marked_as ignored.now within.now (Some table.now)) rows.old) }
{
    let mut rest = reversed(alloc, mem::replace(rows, Items::new(alloc)))?;
    while let Some(mut row) = rest.pop() {
        mark_as(alloc, ignored, within, table, &mut row)?;
        rows.push(row)?;
    }
    Ok(())
}

impl Marking for BoundTrigger {
    ghost as_marked = { λ ignored within trigger. marked_trigger ignored trigger };

    /// It is marked as what stands in its own text.
    fn mark(
        &mut self,
        alloc: Global,
        ignored: &[Action],
        _within: &Option<Text>,
    ) -> Result<(), AllocError> {
        let within = Some(self.name.clone()?);
        mark_rows(alloc, ignored, &within, self.table.as_str(), &mut self.rows)?;
        mark_all(alloc, ignored, &within, &mut self.body)
    }
}
