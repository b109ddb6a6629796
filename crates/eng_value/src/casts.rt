// Values as others: casting, storing and comparing them.
ghost use Rattle.std.specs.Prelude.{◌≡◌, IfOk};
ghost use Rattle.eng_value.specs.Casts.{Changes, as_number, as_text_beside, beside, cast, integer_as_text, integer_or_real, is_numeric, numeric_text, store_as, store_number, to_blob, to_integer, to_number, to_text, whole_text};
ghost use Rattle.eng_number.specs.Numbers.{text_kind};
ghost use Rattle.eng_value.specs.declared.value.Value.TheVariants as sql;

use crate::{Affinity, Blob, Cause, Out, Text, Value};
use eng_number::{TextKind, integer_prefix, number_prefix, text_kind};
use std::alloc::{AllocError, Global};

/// The value of a CAST (SQL Language Expressions, section 9), which takes the value over. A CAST to REAL is bad, and so is
/// one to NUMERIC of what begins with a REAL, and one to TEXT of a blob that is not UTF-8. No affinity changes nothing.
#[tactic(auto, unfolding(crate::specs::Casts::cast))]
pub fn cast(alloc: Global, to: Affinity, value: Value) -> Result<Out, AllocError>
    ensures { IfOk result (λ out. out ≡ cast to value) }
{
    match to {
        Affinity::Integer => Ok(Out::Good(to_integer(&value))),
        Affinity::Numeric => Ok(to_number(alloc, &value)),
        Affinity::Real => Ok(Out::bad(alloc, Cause::Real)),
        Affinity::Text => to_text(alloc, value),
        Affinity::Blob => Ok(Out::Good(to_blob(alloc, value)?)),
        Affinity::None => Ok(Out::Good(value)),
    }
}

/// What a column of this affinity holds after the value was stored (Datatypes In SQLite, section 3), which is taken over. A
/// text that spells a number becomes it, and is bad where that is a REAL; so is all that is stored in a column of REAL.
#[tactic(auto, unfolding(crate::specs::Casts::store_as))]
pub fn store_as(alloc: Global, to: Affinity, value: Value) -> Result<Out, AllocError>
    ensures { IfOk result (λ out. out ≡ store_as to value) }
{
    match to {
        Affinity::Integer | Affinity::Numeric => Ok(store_number(alloc, value)),
        Affinity::Real => Ok(Out::bad(alloc, Cause::Real)),
        Affinity::Text => Ok(Out::Good(integer_as_text(alloc, value)?)),
        Affinity::Blob | Affinity::None => Ok(Out::Good(value)),
    }
}

/// The two sides of a comparison, each as the affinities of both want it (Datatypes In SQLite, section 4.2). It takes both
/// values over, and never is an error: a text that spells no integer stays.
pub fn apply(
    alloc: Global,
    left: Affinity,
    right: Affinity,
    a: Value,
    b: Value,
) -> Result<(Value, Value), AllocError>
    ensures left { IfOk result (λ sides. sides.0 ≡ beside right left a) }
    ensures right { IfOk result (λ sides. sides.1 ≡ beside left right b) }
{
    let changed = changed_beside(alloc, right, left, &a)?;
    let a = changed.unwrap_or(a);
    let changed = changed_beside(alloc, left, right, &b)?;
    Ok((a, changed.unwrap_or(b)))
}

/// As CAST to INTEGER: the digits at the front, or the nearest integer of 64 bits.
pub fn to_integer(value: &Value) -> Value
    ensures { result ≡ to_integer value.now }
{
    match value {
        Value::Null => Value::Null,
        Value::Integer(n) => Value::Integer(*n),
        Value::Text(text) => Value::Integer(integer_prefix(text.as_bytes())),
        Value::Blob(blob) => Value::Integer(integer_prefix(blob.as_slice())),
    }
}

/// As CAST to NUMERIC: the number at the front, bad where it is a REAL.
pub fn to_number(alloc: Global, value: &Value) -> Out
    ensures { result ≡ to_number value.now }
{
    match value {
        Value::Null => Out::Good(Value::Null),
        Value::Integer(n) => Out::Good(Value::Integer(*n)),
        Value::Text(text) => integer_or_real(alloc, number_prefix(text.as_bytes())),
        Value::Blob(blob) => integer_or_real(alloc, number_prefix(blob.as_slice())),
    }
}

fn integer_or_real(alloc: Global, number: Option<i64>) -> Out
    ensures { result ≡ integer_or_real number }
{
    match number {
        Some(n) => Out::Good(Value::Integer(n)),
        None => Out::bad(alloc, Cause::Real),
    }
}

/// As CAST to TEXT: an integer in decimal digits, and a blob as the text of its bytes.
pub fn to_text(alloc: Global, value: Value) -> Result<Out, AllocError>
    ensures { IfOk result (λ out. out ≡ to_text value) }
{
    match value {
        Value::Null => Ok(Out::Good(Value::Null)),
        Value::Integer(n) => Ok(Out::Good(Value::Text(Text::of_integer(alloc, n)?))),
        Value::Text(text) => Ok(Out::Good(Value::Text(text))),
        Value::Blob(blob) => Ok(text_of_blob(alloc, blob)),
    }
}

fn text_of_blob(alloc: Global, blob: Blob) -> Out
    ensures { result ≡ to_text (sql.Blob blob) }
{
    match String::from_utf8(blob.into_vec()) {
        Ok(text) => Out::Good(Value::Text(Text::new(text))),
        Err(_) => Out::bad(alloc, Cause::NotText),
    }
}

/// As CAST to BLOB: the bytes of the text.
pub fn to_blob(alloc: Global, value: Value) -> Result<Value, AllocError>
    ensures { IfOk result (λ v. v ≡ to_blob value) }
{
    match value {
        Value::Null => Ok(Value::Null),
        Value::Integer(n) => Ok(Value::Blob(blob_of_text(Text::of_integer(alloc, n)?))),
        Value::Text(text) => Ok(Value::Blob(blob_of_text(text))),
        Value::Blob(blob) => Ok(Value::Blob(blob)),
    }
}

fn blob_of_text(text: Text) -> Blob
    ensures { result ≡ text }
{
    Blob::new(text.into_string().into_bytes())
}

fn store_number(alloc: Global, value: Value) -> Out
    ensures { result ≡ store_number value }
{
    match value {
        Value::Text(text) => numeric_text(alloc, text),
        other => Out::Good(other),
    }
}

fn numeric_text(alloc: Global, text: Text) -> Out
    ensures { result ≡ numeric_text text (text_kind text) }
{
    match text_kind(text.as_bytes()) {
        TextKind::NoNumber => Out::Good(Value::Text(text)),
        TextKind::Whole(n) => Out::Good(Value::Integer(n)),
        TextKind::Real => Out::bad(alloc, Cause::Real),
    }
}

fn integer_as_text(alloc: Global, value: Value) -> Result<Value, AllocError>
    ensures { IfOk result (λ v. v ≡ integer_as_text value) }
{
    match value {
        Value::Integer(n) => Ok(Value::Text(Text::of_integer(alloc, n)?)),
        other => Ok(other),
    }
}

/// What a side of a comparison becomes whose own affinity and that of the other side are these (Datatypes In SQLite,
/// section 4.2); none where it stays as it is.
#[tactic(auto, unfolding(crate::specs::Casts::beside))]
pub fn changed_beside(
    alloc: Global,
    other: Affinity,
    own: Affinity,
    value: &Value,
) -> Result<Option<Value>, AllocError>
    ensures { IfOk result (λ changed. Changes changed value.now (beside other own value.now)) }
{
    if is_numeric(other) {
        if is_numeric(own) {
            Ok(None)
        } else {
            Ok(as_number(value))
        }
    } else {
        as_text_beside(alloc, other, own, value)
    }
}

fn is_numeric(affinity: Affinity) -> bool
    ensures { result ≡ is_numeric affinity }
{
    matches!(affinity, Affinity::Integer | Affinity::Numeric)
}

fn as_number(value: &Value) -> Option<Value>
    ensures { Changes result value.now (as_number value.now) }
{
    match value {
        Value::Text(text) => whole_text(text),
        _ => None,
    }
}

fn whole_text(text: &Text) -> Option<Value>
    ensures { Changes result (sql.Text text.now) (whole_text text.now (text_kind text.now)) }
{
    match text_kind(text.as_bytes()) {
        TextKind::Whole(n) => Some(Value::Integer(n)),
        TextKind::NoNumber | TextKind::Real => None,
    }
}

fn as_text_beside(
    alloc: Global,
    other: Affinity,
    own: Affinity,
    value: &Value,
) -> Result<Option<Value>, AllocError>
    ensures { IfOk result (λ changed. Changes changed value.now (as_text_beside other own value.now)) }
{
    match (other, own, value) {
        (Affinity::Text, Affinity::None, Value::Integer(n)) => {
            Ok(Some(Value::Text(Text::of_integer(alloc, *n)?)))
        }
        _ => Ok(None),
    }
}
