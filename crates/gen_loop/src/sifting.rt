// Conjuncts that reject rows.
ghost use Rattle.std.specs.Prelude.{◌≡◌, ◌+◌, ◌<◌, ◌≤◌, true, OnOk};
ghost use Rattle.eng_value.specs.Truths.{truth_in, truth_of};
ghost use Rattle.gen_expr.specs.Steps.{steps_of};
ghost use Rattle.gen_expr.specs.Needs.{needs_of};
ghost use Rattle.gen_loop.specs.Loops.{conjuncts_steps};
ghost use Rattle.gen_loop.specs.Needs.{conjuncts_read};
ghost use Rattle.sql_meaning.specs.Expression.{value_of};
ghost use Rattle.sql_meaning.specs.Products.{after_conjunct, sifted};
ghost use Rattle.vm_code.specs.Draft.{given_back, with_op};
ghost use Rattle.vm_code.specs.Frames.{Leaves, Sifts, needing};
ghost use Rattle.vm_code.specs.declared.op.Op.TheVariants as op;

use gen_expr::{emit_comparison, emit_truth};
use plan_tree::{Conjunct, Form};
use std::alloc::{AllocError, Global};
use vm_code::{Builder, Op};

/// Writes code that jumps to the label `next` where one of the conjuncts is false or NULL, and else adds the causes of those that
/// are bad to what the register `causes` holds. A bad one does not jump, so a later one that is false still rejects the row.
pub(crate) fn emit_conjuncts(
    alloc: Global,
    b: &mut Builder,
    conjuncts: &[Conjunct],
    causes: u32,
    next: usize,
) -> Result<(), AllocError>
    requires taken { causes < b.old.next }
    requires counted { b.old.next ≤ b.old.most }
    ensures sifts { OnOk result (Sifts (needing (conjuncts_read conjuncts.now)) b.old b.new causes next (sifted conjuncts.now) (λ _. conjuncts_steps conjuncts.now)) }
    ensures cursors { OnOk result (b.new.cursors ≡ b.old.cursors) }
    ensures units { OnOk result (b.new.units ≡ b.old.units) }
{
    for conjunct in conjuncts {
        emit_conjunct(alloc, b, conjunct, causes, next)?;
    }
    Ok(())
}

/// The same for one conjunct.
fn emit_conjunct(
    alloc: Global,
    b: &mut Builder,
    conjunct: &Conjunct,
    causes: u32,
    next: usize,
) -> Result<(), AllocError>
    requires taken { causes < b.old.next }
    requires counted { b.old.next ≤ b.old.most }
    ensures sifts { OnOk result (Sifts (needing (needs_of conjunct.now)) b.old b.new causes next (λ env found. after_conjunct found (truth_in (truth_of (value_of conjunct.now env)))) (λ _. steps_of conjunct.now + 3)) }
    ensures cursors { OnOk result (b.new.cursors ≡ b.old.cursors) }
    ensures units { OnOk result (b.new.units ≡ b.old.units) }
{
    let value = b.take()?;
    emit_test(alloc, b, conjunct, value)?;
    reject(b, value, next)?;
    add_causes(b, value, causes)
}

/// Goes to the label `next` where a truth is false or NULL.
fn reject(b: &mut Builder, truth: u32, next: usize) -> Result<(), AllocError>
    ensures { OnOk result (b.new ≡ with_op b.old (op.IfNot truth next true)) }
{
    b.op(Op::IfNot {
        register: truth,
        target: next,
        on_null: true,
    })
}

/// Adds the causes of a truth to those in the register `causes`. The truth's own register, the last one that is taken, is free
/// behind it.
fn add_causes(b: &mut Builder, truth: u32, causes: u32) -> Result<(), AllocError>
    requires { 0 < b.old.next }
    ensures { OnOk result (b.new ≡ given_back (with_op b.old (op.Merge truth causes))) }
{
    b.op(Op::Merge {
        from: truth,
        to: causes,
    })?;
    b.give_back();
    Ok(())
}

/// Writes code that leaves the truth of a conjunct in the register `to` and keeps the other registers that are taken.
fn emit_test(alloc: Global, b: &mut Builder, conjunct: &Conjunct, to: u32) -> Result<(), AllocError>
    requires taken { to < b.old.next }
    requires counted { b.old.next ≤ b.old.most }
    ensures leaves { OnOk result (Leaves (needing (needs_of conjunct.now)) b.old b.new to (λ env. truth_of (value_of conjunct.now env)) (λ _. steps_of conjunct.now + 1)) }
    ensures cursors { OnOk result (b.new.cursors ≡ b.old.cursors) }
    ensures units { OnOk result (b.new.units ≡ b.old.units) }
{
    match conjunct.form() {
        Form::Whole(expression) => emit_truth(alloc, b, expression, to)?,
        Form::Comparison(op, sides, left, right) => {
            emit_comparison(alloc, b, *op, *sides, left, right, to)?;
        }
    }
    Ok(())
}
