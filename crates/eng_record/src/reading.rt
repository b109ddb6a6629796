// Reading records.
ghost use Rattle.std.specs.Prelude.{◌≡◌, ◌≢◌, ◌<◌, ◌≤◌, List, length, IfErr, IfOk, Ok, SomeIff};
ghost use Rattle.eng_value.specs.declared.value.Value.{Value as SqlValue};
ghost use Rattle.eng_record.specs.declared.record_error.RecordErr.TheVariants.{Mem};
ghost use Rattle.eng_record.specs.declared.serial_type.SerialType.TheVariants as types;
ghost use Rattle.eng_record.specs.Spelling.{spelling, IsSpellable};
ghost use Rattle.eng_record.specs.Reading.{Gives, bodies_at, body_at as body_in, front as front_of, header_at as header_in, header_len_at as header_len_in, reading, record_at as record_in, sign_of as sign_byte, signed as signed_of, type_at as type_in, types_in};

use crate::RecordErr;
use crate::serial_type::{SerialType, integer_len};
use crate::varint::{header_len, number_at, varint_at};
use eng_value::{Blob, Row, Text, Value};
use std::alloc::Global;
use std::str;

/// The row whose record these bytes are, all of them (Database File Format, section 2.1). Where they are the record of no row,
/// the error is the first fault from left to right; `Mem` says that no memory was found for the row.
pub fn decode(alloc: Global, bytes: &[u8]) -> Result<Row, RecordErr>
    // Which row, or which fault.
    ensures exact { Gives (λ row. row) result (reading bytes.now) }
    // What is read can be spelled, and is spelled so.
    ensures found { IfOk result (λ row. IsSpellable row × (bytes.now ≡ spelling row)) }
    // What is spelled so is read, unless memory runs out.
    ensures only { (row : List SqlValue) → IsSpellable row → bytes.now ≡ spelling row → Gives (λ r. r) result (Ok row) }
{
    whole_row(alloc, bytes)
}

#[tactic(auto, unfolding(crate::specs::Reading::reading))]
fn whole_row(alloc: Global, bytes: &[u8]) -> Result<Row, RecordErr>
    ensures { Gives (λ row. row) result (reading bytes.now) }
{
    let (row, rest) = record_at(alloc, bytes)?;
    if !rest.is_empty() {
        return Err(RecordErr::Trailing);
    }
    Ok(row)
}

/// The row at the front, and the bytes behind it.
#[tactic(auto, unfolding(crate::specs::Reading::record_at))]
fn record_at(alloc: Global, bytes: &[u8]) -> Result<(Row, &[u8]), RecordErr>
    ensures { Gives (λ x. (x.0, x.1.now)) result (record_in bytes.now) }
{
    let (kinds, rest) = header_at(alloc, bytes)?;
    values_at(alloc, &kinds, rest)
}

// ---- the header

/// The types of the values, and the bytes of their bodies.
#[tactic(auto, unfolding(crate::specs::Reading::header_at))]
fn header_at(alloc: Global, bytes: &[u8]) -> Result<(Vec<SerialType>, &[u8]), RecordErr>
    ensures { Gives (λ x. (x.0.items, x.1.now)) result (header_in bytes.now) }
{
    let (types_len, rest) = header_len_at(bytes)?;
    let kinds = types_of(alloc, &rest[..types_len.min(rest.len())])?;
    if rest.len() < types_len {
        return Err(RecordErr::Short);
    }
    Ok((kinds, &rest[types_len..]))
}

/// How many bytes the types take, and the bytes behind the header's length. Of a header that is shorter than 128 bytes the first
/// byte says it, and no other length would be written so.
#[inline(always)]
pub(crate) fn header_len_at(bytes: &[u8]) -> Result<(usize, &[u8]), RecordErr>
    ensures exact { Gives (λ x. (x.0, x.1.now)) result (header_len_in bytes.now) }
    ensures no_memory { IfErr result (λ e. e ≢ Mem) }
{
    match bytes {
        [len, rest @ ..] if 0 < *len && *len < 128 => Ok((usize::from(*len) - 1, rest)),
        _ => header_len_of_several(bytes),
    }
}

/// The same of a header of any length.
#[inline(never)]
#[tactic(auto, unfolding(crate::specs::Reading::header_len_at))]
fn header_len_of_several(bytes: &[u8]) -> Result<(usize, &[u8]), RecordErr>
    ensures exact { Gives (λ x. (x.0, x.1.now)) result (header_len_in bytes.now) }
    ensures no_memory { IfErr result (λ e. e ≢ Mem) }
{
    let (n, rest) = number_at(bytes)?;
    let own_len = (bytes.len() - rest.len()) as u64;
    if n < own_len {
        return Err(RecordErr::Short);
    }
    let types_len = n - own_len;
    if header_len(types_len) != Some(n) {
        return Err(RecordErr::NotShortest);
    }
    Ok((types_len as usize, rest))
}

/// The types that fill these bytes.
fn types_of(alloc: Global, bytes: &[u8]) -> Result<Vec<SerialType>, RecordErr>
    ensures { Gives (λ kinds. kinds.items) result (types_in (length bytes.now) bytes.now) }
{
    // a type takes a byte at least
    let mut kinds = Vec::with_capacity(alloc, bytes.len())?;
    let mut rest = bytes;
    while !rest.is_empty() {
        let (kind, after) = type_at(rest)?;
        kinds.push(kind)?;
        rest = after;
    }
    Ok(kinds)
}

/// The type at the front, and the bytes behind it.
#[inline]
#[tactic(auto, unfolding(crate::specs::Reading::type_at))]
pub(crate) fn type_at(bytes: &[u8]) -> Result<(SerialType, &[u8]), RecordErr>
    ensures exact { Gives (λ x. (x.0, x.1.now)) result (type_in bytes.now) }
    ensures shorter { IfOk result (λ x. length x.1.now < length bytes.now) }
    ensures no_memory { IfErr result (λ e. e ≢ Mem) }
{
    let (code, rest) = varint_at(bytes)?;
    match SerialType::from_code(code) {
        None => Err(RecordErr::BadKind),
        Some(kind) => Ok((kind, rest)),
    }
}

// ---- the bodies

/// The values of these types, and the bytes behind them.
fn values_at<'a>(
    alloc: Global,
    kinds: &[SerialType],
    bytes: &'a [u8],
) -> Result<(Row, &'a [u8]), RecordErr>
    ensures { Gives (λ x. (x.0, x.1.now)) result (bodies_at kinds.now bytes.now) }
{
    let mut values = Vec::with_capacity(alloc, kinds.len())?;
    let mut rest = bytes;
    for kind in kinds {
        let (value, after) = body_at(alloc, *kind, rest)?;
        values.push(value)?;
        rest = after;
    }
    Ok((Row::new(values), rest))
}

/// The value of a type, and the bytes behind it.
#[tactic(auto, unfolding(crate::specs::Reading::body_at))]
pub(crate) fn body_at(
    alloc: Global,
    kind: SerialType,
    bytes: &[u8],
) -> Result<(Value, &[u8]), RecordErr>
    ensures { Gives (λ x. (x.0, x.1.now)) result (body_in kind bytes.now) }
{
    match kind {
        SerialType::Null => Ok((Value::Null, bytes)),
        SerialType::Integer(len) => integer_at(len, bytes),
        SerialType::Zero => Ok((Value::Integer(0), bytes)),
        SerialType::One => Ok((Value::Integer(1), bytes)),
        SerialType::Blob(len) => blob_at(alloc, len, bytes),
        SerialType::Text(len) => text_at(alloc, len, bytes),
    }
}

#[tactic(auto, unfolding(crate::specs::Reading::body_at))]
fn integer_at(len: usize, bytes: &[u8]) -> Result<(Value, &[u8]), RecordErr>
    ensures { Gives (λ x. (x.0, x.1.now)) result (body_in (types.Integer len) bytes.now) }
{
    let (body, rest) = front(len, bytes)?;
    match signed(body) {
        Some(n) if integer_len(n) == len => Ok((Value::Integer(n), rest)),
        _ => Err(RecordErr::NotShortest),
    }
}

#[tactic(auto, unfolding(crate::specs::Reading::body_at))]
fn blob_at(alloc: Global, len: usize, bytes: &[u8]) -> Result<(Value, &[u8]), RecordErr>
    ensures { Gives (λ x. (x.0, x.1.now)) result (body_in (types.Blob len) bytes.now) }
{
    let (body, rest) = front(len, bytes)?;
    Ok((Value::Blob(Blob::from_slice(alloc, body)?), rest))
}

#[tactic(auto, unfolding(crate::specs::Reading::body_at))]
fn text_at(alloc: Global, len: usize, bytes: &[u8]) -> Result<(Value, &[u8]), RecordErr>
    ensures { Gives (λ x. (x.0, x.1.now)) result (body_in (types.Text len) bytes.now) }
{
    let (body, rest) = front(len, bytes)?;
    match str::from_utf8(body) {
        Err(_) => Err(RecordErr::BadText),
        Ok(text) => Ok((Value::Text(Text::from_str(alloc, text)?), rest)),
    }
}

/// So many bytes from the front, and the bytes behind them.
#[tactic(auto, unfolding(crate::specs::Reading::front))]
pub(crate) fn front(len: usize, bytes: &[u8]) -> Result<(&[u8], &[u8]), RecordErr>
    ensures exact { Gives (λ x. (x.0.now, x.1.now)) result (front_of len bytes.now) }
    ensures no_memory { IfErr result (λ e. e ≢ Mem) }
{
    if bytes.len() < len {
        return Err(RecordErr::Short);
    }
    Ok(bytes.split_at(len))
}

/// The number of these bytes, the highest first, in two's complement; none where they are more than eight. Short numbers are the
/// common ones, and need no copy of their bytes.
#[tactic(auto, unfolding(crate::specs::Reading::signed))]
pub(crate) fn signed(bytes: &[u8]) -> Option<i64>
    ensures { SomeIff result (length bytes.now ≤ 8) (signed_of bytes.now) }
{
    let s = sign_of(bytes);
    match bytes {
        [low] => Some(i64::from_be_bytes([s, s, s, s, s, s, s, *low])),
        [high, low] => Some(i64::from_be_bytes([s, s, s, s, s, s, *high, *low])),
        _ => signed_of_several(bytes),
    }
}

/// The same of any number of bytes.
#[inline(never)]
#[tactic(auto, unfolding(crate::specs::Reading::signed))]
fn signed_of_several(bytes: &[u8]) -> Option<i64>
    ensures { SomeIff result (length bytes.now ≤ 8) (signed_of bytes.now) }
{
    let padding = 8_usize.checked_sub(bytes.len())?;
    let mut padded = [sign_of(bytes); 8];
    padded[padding..].copy_from_slice(bytes);
    Some(i64::from_be_bytes(padded))
}

/// The byte that continues a number's sign to the left.
fn sign_of(bytes: &[u8]) -> u8
    ensures { result ≡ sign_byte bytes.now }
{
    match bytes {
        [high, ..] if *high >= 128 => 0xff,
        _ => 0,
    }
}
