// The code of an expression.
ghost use Rattle.std.specs.Prelude.{◌≡◌, ◌+◌, ◌<◌, ◌≤◌, OnOk};
ghost use Rattle.bound_tree.specs.Exprs as e;
ghost use Rattle.bound_tree.specs.Seen.{seen};
ghost use Rattle.eng_value.specs.Truths.{truth_of};
ghost use Rattle.eng_value.specs.declared.operators.BinaryOperator.TheVariants as binary;
ghost use Rattle.gen_expr.specs.Needs.{needs_of};
ghost use Rattle.gen_expr.specs.Steps.{steps_of};
ghost use Rattle.sql_meaning.specs.Expression.{value_of};
ghost use Rattle.vm_code.specs.Frames.{Leaves, needing};

use crate::emitting;
use bound_tree::{BoundExpr, ExprTree};
use eng_value::{BinaryOperator, CompareOp, Sides};
use std::alloc::{AllocError, Global};
use vm_code::Builder;

/// Writes code that leaves what an expression comes to in the register `to` and keeps the other registers that are taken. An
/// item of the FROM is read through the cursor of the same number. Only memory, registers among it, can fail.
pub fn emit(alloc: Global, b: &mut Builder, e: &BoundExpr, to: u32) -> Result<(), AllocError>
    requires taken { to < b.old.next }
    requires counted { b.old.next ≤ b.old.most }
    ensures leaves { OnOk result (Leaves (needing (needs_of e.now)) b.old b.new to (λ env. value_of e.now env) (λ _. steps_of e.now)) }
    ensures units { OnOk result (b.new.units ≡ b.old.units) }
    ensures cursors { OnOk result (b.new.cursors ≡ b.old.cursors) }
{
    emitting::emit(alloc, b, e.tree(), to)
}

/// Writes code that leaves what a stored tree comes to in the register `to`, as `emit` does where an expression is that tree.
pub fn emit_tree(alloc: Global, b: &mut Builder, e: &ExprTree, to: u32) -> Result<(), AllocError>
    requires taken { to < b.old.next }
    requires counted { b.old.next ≤ b.old.most }
    ensures leaves { OnOk result (Leaves (needing (needs_of (seen e.now))) b.old b.new to (λ env. value_of (seen e.now) env) (λ _. steps_of (seen e.now))) }
    ensures units { OnOk result (b.new.units ≡ b.old.units) }
    ensures cursors { OnOk result (b.new.cursors ≡ b.old.cursors) }
{
    emitting::emit(alloc, b, e, to)
}

/// Writes code that leaves what a comparison of two stored trees comes to in the register `to`, as `emit` does where an expression is
/// that comparison.
pub fn emit_comparison(
    alloc: Global,
    b: &mut Builder,
    op: CompareOp,
    sides: Sides,
    left: &ExprTree,
    right: &ExprTree,
    to: u32,
) -> Result<(), AllocError>
    requires taken { to < b.old.next }
    requires counted { b.old.next ≤ b.old.most }
    ensures leaves { OnOk result (Leaves (needing (needs_of (e.Binary (binary.Compare op sides) (seen left.now) (seen right.now)))) b.old b.new to (λ env. value_of (e.Binary (binary.Compare op sides) (seen left.now) (seen right.now)) env) (λ _. steps_of (e.Binary (binary.Compare op sides) (seen left.now) (seen right.now)))) }
    ensures units { OnOk result (b.new.units ≡ b.old.units) }
    ensures cursors { OnOk result (b.new.cursors ≡ b.old.cursors) }
{
    emitting::emit_binary(
        alloc,
        b,
        BinaryOperator::Compare(op, sides),
        left,
        right,
        to,
    )
}

/// Writes code that leaves the truth of an expression in the register `to`, as `emit` leaves its value. What gives truths already needs
/// no instruction more.
pub fn emit_truth(alloc: Global, b: &mut Builder, e: &BoundExpr, to: u32) -> Result<(), AllocError>
    requires taken { to < b.old.next }
    requires counted { b.old.next ≤ b.old.most }
    ensures leaves { OnOk result (Leaves (needing (needs_of e.now)) b.old b.new to (λ env. truth_of (value_of e.now env)) (λ _. steps_of e.now + 1)) }
    ensures units { OnOk result (b.new.units ≡ b.old.units) }
    ensures cursors { OnOk result (b.new.cursors ≡ b.old.cursors) }
{
    emitting::emit_truth(alloc, b, e.tree(), to)
}
