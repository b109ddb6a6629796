// Reading one column.
ghost use Rattle.std.specs.Prelude.{◌≡◌, ◌≢◌, List, slice_index_or, IfErr, Ok};
ghost use Rattle.eng_value.specs.declared.value.Value.{Value as SqlValue};
ghost use Rattle.eng_value.specs.declared.value.Value.TheVariants.{Null};
ghost use Rattle.eng_record.specs.declared.record_error.RecordErr.TheVariants.{Mem};
ghost use Rattle.eng_record.specs.declared.serial_type.SerialType.TheVariants as types;
ghost use Rattle.eng_record.specs.Columns.{body_of, column_at, value_at};
ghost use Rattle.eng_record.specs.Lent.{Lends, LendsRead};
ghost use Rattle.eng_record.specs.Reading.{Gives, reading};

use crate::RecordErr;
use crate::reading::{body_at, front, header_len_at, signed, type_at};
use crate::serial_type::{SerialType, integer_len};
use eng_value::Value;
use std::alloc::Global;
use std::str;

/// The value in a column of a record, NULL behind its last one, without making the others. `Mem` says that no memory was found
/// for the value. Where the bytes are the record of no row, the error is the first fault on the way to the end of that value, if
/// there is one: the bodies in front of it are passed by unread, and what stands behind it is not looked at.
pub fn column(alloc: Global, bytes: &[u8], place: usize) -> Result<Value, RecordErr>
    ensures exact { Gives (λ v. v) result (column_at place bytes.now) }
    ensures row { (row : List SqlValue) → reading bytes.now ≡ Ok row → Gives (λ v. v) result (Ok (slice_index_or row place Null)) }
{
    let (kind, bodies) = body_of(bytes, place)?;
    let (value, _) = body_at(alloc, kind, bodies)?;
    Ok(value)
}

/// A value of a record without a copy.
#[derive(Clone, Copy)]
pub enum Lent<'r> {
    Integer(i64),
    Text(&'r str),
    /// Neither an integer nor a text, or a fault.
    Other,
}

/// The value in a column of a record where it is an integer or a text, without the moves that other values take. The answer is
/// `Other` exactly where it is a blob or NULL, as behind the last column, or where there is a fault on the way to its end.
pub fn lent_column(bytes: &[u8], place: usize) -> Lent<'_>
    ensures exact { LendsRead result (column_at place bytes.now) }
    ensures row { (row : List SqlValue) → reading bytes.now ≡ Ok row → Lends result (slice_index_or row place Null) }
{
    match body_of(bytes, place) {
        Ok((kind, bodies)) => lent_at(kind, bodies),
        Err(_) => Lent::Other,
    }
}

/// The type of the value in a column, and the bytes from its body on; behind the last column the type of NULL, which has no body.
#[inline(always)]
fn body_of(bytes: &[u8], number: usize) -> Result<(SerialType, &[u8]), RecordErr>
    ensures exact { Gives (λ x. (x.0, x.1.now)) result (body_of number bytes.now) }
    ensures no_memory { IfErr result (λ e. e ≢ Mem) }
{
    let (types_len, rest) = header_len_at(bytes)?;
    let (mut types, mut bodies) = rest.split_at(types_len.min(rest.len()));
    for _ in 0..number {
        if types.is_empty() {
            return Ok((SerialType::Null, bodies));
        }
        let (kind, other_types) = type_at(types)?;
        let (_, other_bodies) = front(kind.body_len(), bodies)?;
        types = other_types;
        bodies = other_bodies;
    }
    if types.is_empty() {
        return Ok((SerialType::Null, bodies));
    }
    let (kind, _) = type_at(types)?;
    Ok((kind, bodies))
}

/// The value of a type at the front, where it is an integer or a text.
#[tactic(auto, unfolding(crate::specs::Reading::body_at))]
fn lent_at(kind: SerialType, bytes: &[u8]) -> Lent<'_>
    ensures { LendsRead result (value_at kind bytes.now) }
{
    match kind {
        SerialType::Text(len) => text_of(len, bytes),
        SerialType::Integer(len) => integer_of(len, bytes),
        SerialType::Zero => Lent::Integer(0),
        SerialType::One => Lent::Integer(1),
        SerialType::Null | SerialType::Blob(_) => Lent::Other,
    }
}

/// The text of so many bytes at the front.
#[tactic(auto, unfolding(crate::specs::Reading::body_at))]
fn text_of(len: usize, bytes: &[u8]) -> Lent<'_>
    ensures { LendsRead result (value_at (types.Text len) bytes.now) }
{
    match front(len, bytes) {
        Ok((body, _)) => match str::from_utf8(body) {
            Ok(text) => Lent::Text(text),
            Err(_) => Lent::Other,
        },
        Err(_) => Lent::Other,
    }
}

/// The integer in so many bytes at the front.
#[tactic(auto, unfolding(crate::specs::Reading::body_at))]
fn integer_of(len: usize, bytes: &[u8]) -> Lent<'_>
    ensures { LendsRead result (value_at (types.Integer len) bytes.now) }
{
    match front(len, bytes) {
        Ok((body, _)) => match signed(body) {
            Some(n) if integer_len(n) == len => Lent::Integer(n),
            _ => Lent::Other,
        },
        Err(_) => Lent::Other,
    }
}
