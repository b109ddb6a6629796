// Lists of what holds columns that are marked.
ghost use Rattle.std.specs.Prelude.{◌≡◌, ℕ, List, Option, OnOk, map};
ghost use Rattle.eng_value.specs.declared.authorizing.Action.{Action as MeantAction};

use bound_tree::reversed;
use eng_value::{Action, Text};
use sqlite_items::Items;
use std::alloc::{AllocError, Global};
use std::mem;

/// What holds columns that are marked where they are ignored.
pub(crate) trait Marking {
    ghost as_marked: { List MeantAction → Option (List ℕ) → Self → Self };

    /// Marks what is ignored, as it is read in the text of this view or trigger. After an error nothing is said of what it holds.
    fn mark(
        &mut self,
        alloc: Global,
        ignored: &[Action],
        within: &Option<Text>,
    ) -> Result<(), AllocError>
        ensures { OnOk result (self.new ≡ as_marked ignored.now within.now self.old) };
}

/// Marks each of them.
pub(crate) fn mark_all<T: Marking + Drop>(
    alloc: Global,
    ignored: &[Action],
    within: &Option<Text>,
    those: &mut Items<T>,
) -> Result<(), AllocError>
    ensures { OnOk result (those.new ≡ map (T.as_marked ignored.now within.now) those.old) }
{
    let mut rest = reversed(alloc, mem::replace(those, Items::new(alloc)))?;
    while let Some(mut one) = rest.pop() {
        one.mark(alloc, ignored, within)?;
        those.push(one)?;
    }
    Ok(())
}
