// The cursors of loops.
ghost use Rattle.std.specs.Prelude.{◌≡◌, ◌+◌, ◌≤◌, ◌++◌, [], Bool, false, true, None, if◌then◌else◌, length, OnOk};
ghost use Rattle.gen_loop.specs.Loops.{from_cost, from_effect};
ghost use Rattle.gen_loop.specs.Needs.{NamesBelow, plan_reads};
ghost use Rattle.gen_loop.specs.Stretches.{AreSpread, opened_all, opened_each, with_cursors};
ghost use Rattle.vm_code.specs.Frames.{Does, needing};
ghost use Rattle.vm_code.specs.Tracked.{Steady};

use crate::body::LoopBody;
use crate::gathering::emit_gathering;
use crate::sorting::emit_sorted;
use plan_tree::{JoinPlan, Loop};
use std::alloc::{AllocError, Global};
use vm_code::{Builder, Op};

/// Writes the loops of a plan around a body, which runs once for each row that the plan gives, in its order. Each item goes by the cursor
/// of its place, by which expressions read its row; one cursor more, which reads as no row, is taken where the rows are sorted. Where the
/// plan and the body name rows of its items alone, the code needs nothing of cursors in front of it, and leaves none open.
pub fn emit<B: LoopBody>(
    alloc: Global,
    b: &mut Builder,
    plan: &JoinPlan,
    body: &mut B,
) -> Result<(), AllocError>
    requires first { b.old.cursors ≡ 0 }
    requires owned { B.own body.old ≤ b.old.next }
    requires counted { b.old.next ≤ b.old.most }
    ensures does { OnOk result (AreSpread plan.now.loops → Does (needing (plan_reads plan.now ++ B.needs body.old)) b.old b.new (B.own body.old) 0 None (from_effect plan.now (B.effect body.old)) (from_cost plan.now (B.cost body.old))) }
    ensures steady { OnOk result (AreSpread plan.now.loops → NamesBelow (length plan.now.loops) (plan_reads plan.now ++ B.needs body.old) → Steady [] [] b.old b.new) }
    ensures cursors { OnOk result (b.new.cursors ≡ (if plan.now.sort then length plan.now.loops + 1 else length plan.now.loops)) }
    ensures units { OnOk result (b.new.units ≡ b.old.units) }
{
    if plan.sort {
        emit_sorted(alloc, b, plan, body)
    } else {
        emit_as_gathered(alloc, b, plan, body)
    }
}

/// The same of a plan whose loops give the rows in its order.
fn emit_as_gathered<B: LoopBody>(
    alloc: Global,
    b: &mut Builder,
    plan: &JoinPlan,
    body: &mut B,
) -> Result<(), AllocError>
    requires unsorted { plan.now.sort ≡ false }
    requires first { b.old.cursors ≡ 0 }
    requires owned { B.own body.old ≤ b.old.next }
    requires counted { b.old.next ≤ b.old.most }
    ensures does { OnOk result (AreSpread plan.now.loops → Does (needing (plan_reads plan.now ++ B.needs body.old)) b.old b.new (B.own body.old) 0 None (from_effect plan.now (B.effect body.old)) (from_cost plan.now (B.cost body.old))) }
    ensures steady { OnOk result (AreSpread plan.now.loops → NamesBelow (length plan.now.loops) (plan_reads plan.now ++ B.needs body.old) → Steady [] [] b.old b.new) }
    ensures cursors { OnOk result (b.new.cursors ≡ length plan.now.loops) }
    ensures units { OnOk result (b.new.units ≡ b.old.units) }
{
    open_cursors(b, plan.loops.as_slice())?;
    emit_gathering(alloc, b, plan, body)?;
    b.op(Op::CloseFrom { cursor: 0 })?;
    Ok(())
}

/// Takes a cursor for each loop and opens those in the places of the loops on their tables, on no row.
pub(crate) fn open_cursors(b: &mut Builder, loops: &[Loop]) -> Result<(), AllocError>
    ensures { OnOk result (b.new ≡ opened_all b.old loops.now) }
{
    take_cursors(b, loops)?;
    for each in loops {
        b.op(Op::OpenRead {
            cursor: each.place,
            table: each.table,
        })?;
    }
    Ok(())
}

/// Takes a cursor for each loop.
fn take_cursors(b: &mut Builder, loops: &[Loop]) -> Result<(), AllocError>
    ensures { OnOk result (b.new ≡ with_cursors b.old (length loops.now)) }
{
    for each in loops {
        b.cursor()?;
    }
    Ok(())
}
