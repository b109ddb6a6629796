// The rows that the loops of a plan give.
ghost use Rattle.std.specs.Prelude.{◌≡◌, ◌≤◌, OnOk};
ghost use Rattle.gen_loop.specs.Loops.{KeepsWritten, gathered_steps, gathering};
ghost use Rattle.gen_loop.specs.Needs.{gathering_needs};
ghost use Rattle.gen_loop.specs.Stretches.{Nests};

use crate::body::LoopBody;
use crate::nesting::emit_nest;
use crate::sifting::emit_conjuncts;
use plan_tree::JoinPlan;
use std::alloc::{AllocError, Global};
use vm_code::{Builder, Op};

/// Writes the loops of a plan around a body, which runs once for each row that they give, in their order. Their cursors are open on no
/// row.
pub(crate) fn emit_gathering<B: LoopBody>(
    alloc: Global,
    b: &mut Builder,
    plan: &JoinPlan,
    body: &mut B,
) -> Result<(), AllocError>
    requires owned { B.own body.old ≤ b.old.next }
    requires counted { b.old.next ≤ b.old.most }
    ensures nests { OnOk result (Nests (gathering_needs plan.now (B.needs body.old)) plan.now.loops b.old b.new (B.own body.old) 0 (gathering plan.now (B.effect body.old)) (gathered_steps plan.now (B.cost body.old))) }
    ensures cursors { OnOk result (b.new.cursors ≡ b.old.cursors) }
    ensures units { OnOk result (b.new.units ≡ b.old.units) }
{
    let end = b.label()?;
    let causes = b.take()?;
    b.op(Op::Null { to: causes })?;
    emit_conjuncts(alloc, b, plan.checks.as_slice(), causes, end)?;
    emit_nest(alloc, b, plan.loops.as_slice(), causes, body)?;
    b.bind(end)?;
    b.release(causes);
    Ok(())
}
