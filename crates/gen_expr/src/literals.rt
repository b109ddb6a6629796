// What literals stand for, and their code.
ghost use Rattle.std.specs.Prelude.{◌≡◌, ◌<◌, ◌≤◌, [], IfOk, OnOk};
ghost use Rattle.eng_value.specs.declared.out.Out.TheVariants.{Good};
ghost use Rattle.sql_meaning.specs.Expression.{literal_out, unbuilt};
ghost use Rattle.vm_code.specs.Frames.{Leaves, needing};

use eng_value::{Cause, Out, Value};
use sql_words::Literal;
use std::alloc::{AllocError, Global};
use vm_code::{Builder, Constant, Op};

/// What a literal stands for.
pub(crate) fn constant(alloc: Global, literal: &Literal) -> Result<Constant, AllocError>
    ensures { IfOk result (λ constant. constant ≡ literal_out literal.now) }
{
    match literal {
        Literal::Value(value) => Constant::new(alloc, Out::Good(value.clone()?)),
        Literal::Bad(cause) => Constant::new(alloc, Out::bad(alloc, cause.clone()?)),
    }
}

/// Writes code that leaves what a literal stands for in the register `to` and keeps the other registers that are taken.
pub fn emit_literal(b: &mut Builder, literal: &Literal, to: u32) -> Result<(), AllocError>
    requires taken { to < b.old.next }
    requires counted { b.old.next ≤ b.old.most }
    ensures leaves { OnOk result (Leaves (needing []) b.old b.new to (λ _. literal_out literal.now) (λ _. 1)) }
    ensures units { OnOk result (b.new.units ≡ b.old.units) }
    ensures cursors { OnOk result (b.new.cursors ≡ b.old.cursors) }
{
    match literal {
        Literal::Value(value) => emit_value(b, value, to)?,
        Literal::Bad(cause) => b.op(Op::Bad {
            cause: cause.clone()?,
            to,
        })?,
    }
    Ok(())
}

/// Writes code that leaves the cause of what does not run yet.
pub(crate) fn emit_unbuilt(b: &mut Builder, to: u32) -> Result<(), AllocError>
    requires taken { to < b.old.next }
    requires counted { b.old.next ≤ b.old.most }
    ensures leaves { OnOk result (Leaves (needing []) b.old b.new to (λ _. unbuilt) (λ _. 1)) }
    ensures units { OnOk result (b.new.units ≡ b.old.units) }
    ensures cursors { OnOk result (b.new.cursors ≡ b.old.cursors) }
{
    emit_literal(b, &Literal::Bad(Cause::NotYet), to)
}

fn emit_value(b: &mut Builder, value: &Value, to: u32) -> Result<(), AllocError>
    requires taken { to < b.old.next }
    requires counted { b.old.next ≤ b.old.most }
    ensures leaves { OnOk result (Leaves (needing []) b.old b.new to (λ _. Good value.now) (λ _. 1)) }
    ensures units { OnOk result (b.new.units ≡ b.old.units) }
    ensures cursors { OnOk result (b.new.cursors ≡ b.old.cursors) }
{
    match value {
        Value::Null => b.op(Op::Null { to })?,
        Value::Integer(value) => b.op(Op::Integer { value: *value, to })?,
        Value::Text(text) => b.op(Op::String8 {
            text: text.clone()?,
            to,
        })?,
        Value::Blob(blob) => b.op(Op::Blob {
            blob: blob.clone()?,
            to,
        })?,
    }
    Ok(())
}
