// The rows of VALUES.
ghost use Rattle.std.specs.Prelude.{◌≡◌, ◌≤◌, OnOk, None};
ghost use Rattle.gen_query.specs.Queries.{by_world, rows_in_turn_steps, rows_read, values_effect};
ghost use Rattle.vm_code.specs.Frames.{Does, needing};

use crate::giving::emit_value_row;
use bound_tree::BoundExpr;
use sqlite_items::Items;
use std::alloc::{AllocError, Global};
use vm_code::Builder;

/// Writes code that gives the item of each row in turn, up to the first that is bad: the code of one row behind that of another.
pub(crate) fn emit_values(
    alloc: Global,
    b: &mut Builder,
    rows: &[Items<BoundExpr>],
) -> Result<(), AllocError>
    requires counted { b.old.next ≤ b.old.most }
    ensures does { OnOk result (Does (needing (rows_read rows.now)) b.old b.new 0 0 None (values_effect rows.now) (by_world (λ _. rows_in_turn_steps rows.now))) }
    ensures cursors { OnOk result (b.new.cursors ≡ b.old.cursors) }
    ensures units { OnOk result (b.new.units ≡ b.old.units) }
{
    for row in rows {
        emit_value_row(alloc, b, row.as_slice())?;
    }
    Ok(())
}
