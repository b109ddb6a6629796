// One text for another within a text.
ghost use Rattle.std.specs.Prelude.{◌≡◌, [], ◌∷◌, IfOk};
ghost use Rattle.eng_value.specs.Functions.{given, on_bytes, on_texts, replace_of, replaced_in};
ghost use Rattle.eng_value.specs.OperandTexts.{value_of};
ghost use Rattle.eng_scalar.specs.Replacements.{replacement};

use crate::choosing::good;
use eng_value::{BothTexts, Cause, MAX_VALUE_BYTES, OperandText, Out, Spelling, Text, Value};
use std::alloc::{AllocError, Global};

/// X with Z for each Y, from the left: replace(X,Y,Z) (Built-in Scalar SQL Functions). Where Y is empty it is X as it is. A
/// result that is longer than a value may be is not made beyond that, and is bad.
pub(crate) fn replace(alloc: Global, args: &[Value]) -> Result<Out, AllocError>
    ensures { IfOk result (λ out. out ≡ given (replace_of args.now)) }
{
    match args {
        [x, y, z, ..] => replace_all(alloc, x, y, z),
        _ => Ok(Out::Good(Value::Null)),
    }
}

fn replace_all(alloc: Global, x: &Value, y: &Value, z: &Value) -> Result<Out, AllocError>
    ensures { IfOk result (λ out. out ≡ given (replace_of (x.now ∷ y.now ∷ z.now ∷ []))) }
{
    match OperandText::of_value(alloc, y)? {
        OperandText::Good(old) => replace_spelled(alloc, x, &old, z),
        OperandText::Bad(causes) => Ok(Out::Bad(causes)),
    }
}

fn replace_spelled(
    alloc: Global,
    x: &Value,
    old: &Spelling<'_>,
    z: &Value,
) -> Result<Out, AllocError>
    ensures { IfOk result (λ out. out ≡ on_bytes (λ t. given (replaced_in x.now t z.now)) (value_of old.now)) }
{
    match old.as_str() {
        Some(old) => replace_old(alloc, x, old, z),
        None => Ok(Out::Good(Value::Null)),
    }
}

fn replace_old(alloc: Global, x: &Value, old: &str, z: &Value) -> Result<Out, AllocError>
    ensures { IfOk result (λ out. out ≡ given (replaced_in x.now old.now z.now)) }
{
    if old.is_empty() {
        good(x)
    } else {
        replace_in_texts(alloc, x, old, z)
    }
}

fn replace_in_texts(alloc: Global, x: &Value, old: &str, z: &Value) -> Result<Out, AllocError>
    ensures { IfOk result (λ out. out ≡ on_texts (replacement old.now) x.now z.now) }
{
    match BothTexts::of_values(alloc, x, z)? {
        BothTexts::Good(x, z) => replace_text(alloc, x.or_empty(), old, z.or_empty()),
        BothTexts::Bad(causes) => Ok(Out::Bad(causes)),
    }
}

fn replace_text(alloc: Global, text: &str, old: &str, new: &str) -> Result<Out, AllocError>
    ensures { IfOk result (λ out. out ≡ replacement old.now text.now new.now) }
{
    match eng_text::replace(alloc, text, old, new, MAX_VALUE_BYTES)? {
        Some(text) => Ok(Out::Good(Value::Text(Text::new(text)))),
        None => Ok(Out::bad(alloc, Cause::TooBig)),
    }
}
