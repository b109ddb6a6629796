// Characters, and the letters of a text.
ghost use Rattle.std.specs.Prelude.{◌≡◌, IfOk};
ghost use Rattle.std.specs.Str.{chars};
ghost use Rattle.eng_scalar.specs.Characters.{of_kind, of_text};
ghost use Rattle.eng_value.specs.Functions.{char_of, char_of_number, given, kind_of, length_of_value, lower_of, on_bytes, on_text, unicode_of, upper_of};
ghost use Rattle.eng_value.specs.OperandTexts.{value_of};
ghost use Rattle.eng_value.specs.declared.out.Out.TheVariants.{Good};

use crate::arguments::int_of;
use crate::text_ends::count;
use crate::trimming::trim_spaces;
use eng_text::fold;
use eng_value::{Builtin, Cause, MAX_VALUE_BYTES, OperandText, Out, Spelling, Text, Value};
use std::alloc::{AllocError, Global};

/// The text of the characters that these numbers stand for (Built-in Scalar SQL Functions, "char"). A number that is no character
/// stands for U+FFFD, and NULL for U+0000.
pub(crate) fn char_text(alloc: Global, args: &[Value]) -> Result<Out, AllocError>
    ensures { IfOk result (λ out. out ≡ given (char_of args.now)) }
{
    let mut text = String::new(alloc);
    for arg in args {
        text.push(char_of_number(int_of(arg)))?;
        if text.len() > MAX_VALUE_BYTES {
            return Ok(Out::bad(alloc, Cause::TooBig));
        }
    }
    Ok(Out::Good(Value::Text(Text::new(text))))
}

fn char_of_number(n: i64) -> char
    ensures { result ≡ char_of_number n }
{
    match u32::try_from(n) {
        Ok(code) => char::from_u32(code).unwrap_or('\u{fffd}'),
        Err(_) => '\u{fffd}',
    }
}

/// A function of one text.
#[derive(Clone, Copy)]
pub(crate) enum OfText {
    /// One that is of one text whatever its argument is.
    Function(Builtin),
    /// How many characters it has (Built-in Scalar SQL Functions, "length").
    Length,
    /// The text without the spaces at its ends ("trim", "ltrim" and "rtrim").
    Trim(Builtin),
}

/// What a function of one text gives for an argument that is cast to TEXT.
pub(crate) fn on_text(alloc: Global, f: OfText, value: &Value) -> Result<Out, AllocError>
    ensures { IfOk result (λ out. out ≡ on_text (of_text f) value.now) }
{
    match OperandText::of_value(alloc, value)? {
        OperandText::Good(text) => on_spelling(alloc, f, &text),
        OperandText::Bad(causes) => Ok(Out::Bad(causes)),
    }
}

fn on_spelling(alloc: Global, f: OfText, text: &Spelling<'_>) -> Result<Out, AllocError>
    ensures { IfOk result (λ out. out ≡ on_bytes (of_text f) (value_of text.now)) }
{
    match text.as_str() {
        Some(text) => of_text(alloc, f, text),
        None => Ok(Out::Good(Value::Null)),
    }
}

fn of_text(alloc: Global, f: OfText, text: &str) -> Result<Out, AllocError>
    ensures { IfOk result (λ out. out ≡ of_text f text.now) }
{
    match f {
        OfText::Function(f) => of_function(alloc, f, text),
        OfText::Length => Ok(Out::Good(Value::Integer(count(text) as i64))),
        OfText::Trim(which) => trim_spaces(alloc, which, text),
    }
}

#[tactic(auto, unfolding(eng_value::specs::Functions::kind_of))]
fn of_function(alloc: Global, f: Builtin, text: &str) -> Result<Out, AllocError>
    ensures { IfOk result (λ out. out ≡ of_kind (kind_of f) text.now) }
{
    match f {
        Builtin::Lower => lower(alloc, text),
        Builtin::Unicode => Ok(Out::Good(unicode(text))),
        Builtin::Upper => upper(alloc, text),
        _ => Ok(Out::Good(Value::Null)),
    }
}

/// The number of the first character, NULL where there is none (Built-in Scalar SQL Functions, "unicode").
fn unicode(text: &str) -> Value
    ensures { result ≡ unicode_of text.now }
{
    match text.chars().next() {
        Some(c) => Value::Integer(i64::from(u32::from(c))),
        None => Value::Null,
    }
}

/// The text with the letters of ASCII in lower case ("lower").
fn lower(alloc: Global, text: &str) -> Result<Out, AllocError>
    ensures { IfOk result (λ out. out ≡ Good (lower_of text.now)) }
{
    Ok(Out::Good(Value::Text(Text::new(fold(alloc, text)?))))
}

/// The text with the letters of ASCII in upper case ("upper").
fn upper(alloc: Global, text: &str) -> Result<Out, AllocError>
    ensures { IfOk result (λ out. out ≡ Good (upper_of text.now)) }
{
    Ok(Out::Good(Value::Text(Text::new(text.to_ascii_uppercase(alloc)?))))
}

/// How many characters a text has, and how many bytes a blob (Built-in Scalar SQL Functions, "length").
pub(crate) fn length(alloc: Global, value: &Value) -> Result<Out, AllocError>
    ensures { IfOk result (λ out. out ≡ given (length_of_value value.now)) }
{
    match value {
        Value::Blob(blob) => Ok(Out::Good(Value::Integer(blob.as_slice().len() as i64))),
        other => on_text(alloc, OfText::Length, other),
    }
}
