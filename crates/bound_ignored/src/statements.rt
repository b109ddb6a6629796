// What is ignored in statements.
ghost use Rattle.std.specs.Prelude.{◌≡◌, OnOk};
ghost use Rattle.bound_ignored.specs.Marked.{ignoring, marked_command};

use crate::marking::mark_all;
use crate::writes::mark_write;
use bound_tree::{BoundCommand, BoundStatement};
use eng_value::Action;
use std::alloc::{AllocError, Global};

fn mark_command(
    alloc: Global,
    ignored: &[Action],
    command: &mut BoundCommand,
) -> Result<(), AllocError>
    ensures { OnOk result (command.new ≡ marked_command ignored.now command.old) }
{
    match command {
        BoundCommand::Written(write) => mark_write(alloc, ignored, &None, write),
        BoundCommand::Asked(_) => Ok(()),
        BoundCommand::Created(_) => Ok(()),
        BoundCommand::Removed(_) => Ok(()),
        BoundCommand::Transacted(_) => Ok(()),
        BoundCommand::Pragma(_) => Ok(()),
        BoundCommand::Nothing(_, _, _) => Ok(()),
    }
}

/// Marks at each item of a statement which of its columns the authorizer ignores, by the reads that it answered Ignore to, so that they
/// read NULL (Compile-Time Authorization Callbacks). No tree is copied. After an error, which is want of memory, nothing is said of
/// the statement: it is only good for being dropped.
pub fn ignoring(
    alloc: Global,
    statement: &mut BoundStatement,
    ignored: &[Action],
) -> Result<(), AllocError>
    ensures { OnOk result (statement.new ≡ ignoring ignored.now statement.old) }
{
    let nowhere = None;
    mark_all(alloc, ignored, &nowhere, &mut statement.units)?;
    mark_all(alloc, ignored, &nowhere, &mut statement.triggers)?;
    mark_command(alloc, ignored, &mut statement.command)
}
