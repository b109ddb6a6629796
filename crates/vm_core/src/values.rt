// What instructions make of registers and parameters.
ghost use Rattle.std.specs.Prelude.{◌≡◌, IfOk, slice_index_or};
ghost use Rattle.std.specs.Option.{option_copied};
ghost use Rattle.eng_value.specs.Applied.{merged};
ghost use Rattle.eng_value.specs.Casts.{beside, store_as};
ghost use Rattle.eng_value.specs.Operators.{length_of, made};
ghost use Rattle.eng_value.specs.Outs.{turned};
ghost use Rattle.eng_value.specs.declared.out.Out.TheVariants.{Good};
ghost use Rattle.eng_value.specs.declared.value.Value.TheVariants as sql;
ghost use Rattle.eng_value.specs.declared.value.Value.TheVariants.{Null};
ghost use Rattle.vm_code.specs.Machine.{parameter_at, read as read_of};
ghost use Rattle.vm_store.specs.Held.{held_integer, held_text};

use eng_value::{Affinity, Cause, MAX_VALUE_BYTES, Out, Text, Value, changed_beside, store_as};
use std::alloc::{AllocError, Global};
use vm_store::Registers;

/// One register with the causes of another beside its own.
pub(crate) fn merge(registers: &Registers, from: u32, to: u32) -> Result<Out, AllocError>
    ensures { IfOk result (λ out. out ≡ merged (read_of registers.now from) (read_of registers.now to)) }
{
    let null = Out::Good(Value::Null);
    merged(registers.read(from, &null), registers.read(to, &null))
}

fn merged(from: &Out, to: &Out) -> Result<Out, AllocError>
    ensures { IfOk result (λ out. out ≡ merged from.now to.now) }
{
    match (from, to) {
        (Out::Good(_), own) => own.clone(),
        (Out::Bad(causes), Out::Good(_)) => Ok(Out::Bad(causes.clone()?)),
        (Out::Bad(causes), Out::Bad(own)) => Ok(Out::Bad(causes.union(own)?)),
    }
}

/// What a column of this affinity holds after this was stored there.
pub(crate) fn stored(alloc: Global, affinity: Affinity, out: Out) -> Result<Out, AllocError>
    ensures { IfOk result (λ new. new ≡ turned (store_as affinity) out) }
{
    match out {
        Out::Good(value) => store_as(alloc, affinity, value),
        Out::Bad(causes) => Ok(Out::Bad(causes)),
    }
}

/// What a comparison takes this for whose side has the affinity `own` beside one of the affinity `other`.
pub(crate) fn compared(
    alloc: Global,
    other: Affinity,
    own: Affinity,
    out: Out,
) -> Result<Out, AllocError>
    ensures { IfOk result (λ new. new ≡ turned (λ v. Good (beside other own v)) out) }
{
    match out {
        Out::Good(value) => Ok(Out::Good(compared_value(alloc, other, own, value)?)),
        Out::Bad(causes) => Ok(Out::Bad(causes)),
    }
}

fn compared_value(
    alloc: Global,
    other: Affinity,
    own: Affinity,
    value: Value,
) -> Result<Value, AllocError>
    ensures { IfOk result (λ new. new ≡ beside other own value) }
{
    match changed_beside(alloc, other, own, &value)? {
        Some(changed) => Ok(changed),
        None => Ok(value),
    }
}

/// A copy of the parameter of a number, from 1 on: NULL where there is none, and bad where it is longer than `MAX_VALUE_BYTES`,
/// which is found before it is copied.
pub(crate) fn parameter(params: &[Value], alloc: Global, number: u32) -> Result<Out, AllocError>
    ensures { IfOk result (λ out. out ≡ parameter_at params.now number) }
{
    match number.checked_sub(1) {
        None => Ok(Out::Good(Value::Null)),
        Some(behind) => parameter_behind(params, alloc, behind as usize),
    }
}

fn parameter_behind(params: &[Value], alloc: Global, behind: usize) -> Result<Out, AllocError>
    ensures { IfOk result (λ out. out ≡ made (slice_index_or params.now behind Null)) }
{
    match params.get(behind) {
        None => Ok(Out::Good(Value::Null)),
        Some(value) => within_limit(alloc, value),
    }
}

fn within_limit(alloc: Global, value: &Value) -> Result<Out, AllocError>
    ensures { IfOk result (λ out. out ≡ made value.now) }
{
    if byte_length(value) > MAX_VALUE_BYTES {
        Ok(Out::bad(alloc, Cause::TooBig))
    } else {
        Ok(Out::Good(value.clone()?))
    }
}

/// The integer that a parameter is, if it is one.
pub(crate) fn integer_parameter(params: &[Value], number: u32) -> Option<i64>
    ensures { result ≡ held_integer (parameter_at params.now number) }
{
    match number.checked_sub(1) {
        None => None,
        Some(behind) => integer_behind(params, behind as usize),
    }
}

fn integer_behind(params: &[Value], behind: usize) -> Option<i64>
    ensures { result ≡ held_integer (made (slice_index_or params.now behind Null)) }
{
    match params.get(behind) {
        Some(Value::Integer(n)) => Some(*n),
        _ => None,
    }
}

/// The text that a parameter is, if it is one, and not too long.
pub(crate) fn text_parameter(params: &[Value], number: u32) -> Option<&str>
    ensures { option_copied result ≡ held_text (parameter_at params.now number) }
{
    match number.checked_sub(1) {
        None => None,
        Some(behind) => text_behind(params, behind as usize),
    }
}

fn text_behind(params: &[Value], behind: usize) -> Option<&str>
    ensures { option_copied result ≡ held_text (made (slice_index_or params.now behind Null)) }
{
    match params.get(behind) {
        Some(Value::Text(text)) => text_within_limit(text),
        _ => None,
    }
}

fn text_within_limit(text: &Text) -> Option<&str>
    ensures { option_copied result ≡ held_text (made (sql.Text text.now)) }
{
    if text.as_bytes().len() > MAX_VALUE_BYTES {
        None
    } else {
        Some(text.as_str())
    }
}

fn byte_length(value: &Value) -> usize
    ensures { result ≡ length_of value.now }
{
    match value {
        Value::Null => 0,
        Value::Integer(_) => 0,
        Value::Text(text) => text.as_bytes().len(),
        Value::Blob(blob) => blob.as_slice().len(),
    }
}
