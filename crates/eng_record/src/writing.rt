// Writing records.
ghost use Rattle.std.specs.Prelude.{◌≡◌, ◌++◌, ◌<◌, ◌^◌, length, IfOk, IfSome, Ok, OnOk, SomeIff};
ghost use Rattle.std.specs.List.{flat_map, AllByRecursion};
ghost use Rattle.eng_value.specs.declared.value.Value.TheVariants.{Integer};
ghost use Rattle.eng_record.specs.Spelling.{body, code, header_len as len_of_header, spelling, type_of, types_spelled, IsSpellable, IsSpellableValue};
ghost use Rattle.eng_record.specs.Reading.{reading};

use crate::serial_type::{SerialType, integer_len};
use crate::varint::{header_len, push_varint, varint_len};
use eng_value::{Blob, Value};
use std::alloc::{AllocError, Global};

/// The record of a row (Database File Format, section 2.1), in a blob with room for nothing more. It takes the blob's memory
/// and no other; its error says that there is none, or could be none, since a length has more than 64 bits.
pub fn encode(alloc: Global, row: &[Value]) -> Result<Blob, AllocError>
    ensures spelled { IfOk result (λ blob. blob ≡ spelling row.now) }
    // What is written is read again.
    ensures again { IfOk result (λ blob. reading blob ≡ Ok row.now) }
    // Only a row that has a spelling is written.
    ensures spellable { IfOk result (λ _. IsSpellable row.now) }
{
    let lengths = lengths_of(row).ok_or(AllocError)?;
    let mut record = Vec::with_capacity(alloc, lengths.whole as usize)?;
    push_varint(&mut record, lengths.header)?;
    push_types(&mut record, row)?;
    push_bodies(&mut record, row)?;
    Ok(Blob::new(record))
}

/// How many bytes the header of a record takes, and the whole of it.
#[derive(Drop)]
struct Lengths {
    header: u64,
    whole: u64,
}

/// The lengths of a row's record; none where one of them, or the number of a type, has more than 64 bits.
fn lengths_of(row: &[Value]) -> Option<Lengths>
    ensures header { IfSome result (λ lengths. lengths.header ≡ len_of_header (length (types_spelled row.now))) }
    ensures whole { IfSome result (λ lengths. lengths.whole ≡ length (spelling row.now)) }
    ensures spellable { IfSome result (λ _. IsSpellable row.now) }
{
    let header = header_len(types_len(row)?)?;
    let whole = header.checked_add(bodies_len(row)?)?;
    Some(Lengths { header, whole })
}

/// The number of a value's type; none where it has more than 64 bits.
fn type_code(value: &Value) -> Option<u64>
    ensures { SomeIff result (IsSpellableValue value.now) (code (type_of value.now)) }
{
    SerialType::of(value).code()
}

/// How many bytes the types of a row take; none where that or the number of a type has more than 64 bits.
fn types_len(row: &[Value]) -> Option<u64>
    ensures len { IfSome result (λ len. len ≡ length (types_spelled row.now)) }
    ensures spellable { IfSome result (λ _. AllByRecursion IsSpellableValue row.now) }
{
    let mut len: u64 = 0;
    for value in row {
        len = len.checked_add(varint_len(type_code(value)?) as u64)?;
    }
    Some(len)
}

/// How many bytes the bodies of a row take; none where that has more than 64 bits.
fn bodies_len(row: &[Value]) -> Option<u64>
    ensures { IfSome result (λ len. len ≡ length (flat_map body row.now)) }
{
    let mut len: u64 = 0;
    for value in row {
        len = len.checked_add(SerialType::of(value).body_len() as u64)?;
    }
    Some(len)
}

fn push_types(out: &mut Vec<u8>, row: &[Value]) -> Result<(), AllocError>
    ensures { OnOk result (out.new.items ≡ out.old.items ++ types_spelled row.now) }
{
    for value in row {
        push_varint(out, type_code(value).ok_or(AllocError)?)?;
    }
    Ok(())
}

fn push_bodies(out: &mut Vec<u8>, row: &[Value]) -> Result<(), AllocError>
    ensures { OnOk result (out.new.items ≡ out.old.items ++ flat_map body row.now) }
{
    for value in row {
        push_body(out, value)?;
    }
    Ok(())
}

fn push_body(out: &mut Vec<u8>, value: &Value) -> Result<(), AllocError>
    ensures { OnOk result (out.new.items ≡ out.old.items ++ body value.now) }
{
    match value {
        Value::Null => Ok(()),
        Value::Integer(n) => push_integer(out, *n),
        Value::Text(text) => out.extend_from_slice(text.as_bytes()),
        Value::Blob(blob) => out.extend_from_slice(blob.as_slice()),
    }
}

/// Writes the lowest bytes of an integer, the highest of them first.
fn push_integer(out: &mut Vec<u8>, n: i64) -> Result<(), AllocError>
    ensures { OnOk result (out.new.items ≡ out.old.items ++ body (Integer n)) }
{
    out.extend_from_slice(&n.to_be_bytes()[8 - integer_len(n)..])
}
