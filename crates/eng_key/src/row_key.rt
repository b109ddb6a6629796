// The keys of rows.
ghost use Rattle.std.specs.Prelude.{◌≡◌, ◌++◌, IfOk, OnOk};
ghost use Rattle.eng_value.specs.Collations.{keyed, text_key};
ghost use Rattle.eng_key.specs.RowKeys.{AreBytes, IsSound, IsSoundRow, KeepsOrder, behind_front, classed, ended, part_key, row_key, text_bytes};

use crate::key_part::KeyPart;
use crate::spelling::{push_integer, push_null, push_string};
use crate::values::without_spaces_behind;
use eng_value::{Blob, Built, Value};
use std::alloc::{AllocError, Global};

const TEXT: u8 = 2;

const BLOB: u8 = 3;

const BEHIND_ALL: u8 = 5;

/// The key of a row, with a part for each value: the bytes of two keys stand to one another as the rows do, the first part in which
/// they differ deciding. Of fewer values than parts it makes the key of a front, which the keys of all rows with this front begin with.
/// Only memory can fail.
pub fn key(alloc: Global, row: &[Value], by: &[KeyPart]) -> Result<Blob, AllocError>
    ensures key { IfOk result (λ key. key ≡ row_key row.now by.now) }
    ensures order { IfOk result (KeepsOrder row.now by.now) }
    ensures sound { OnOk result (IsSoundRow row.now by.now) }
{
    let mut key = Vec::new(alloc);
    for (value, part) in row.iter().zip(by) {
        push_part(alloc, &mut key, value, part)?;
    }
    Ok(Blob::new(key))
}

/// The least bytes behind all keys that begin with this front: what begins with it lies between the front, which is not above, and
/// these bytes. Takes the front over. Only memory can fail.
pub fn behind_front(front: Blob) -> Result<Blob, AllocError>
    ensures { IfOk result (λ key. key ≡ behind_front front) }
{
    let mut bytes = front.into_vec();
    bytes.push(BEHIND_ALL)?;
    Ok(Blob::new(bytes))
}

#[tactic(auto, unfolding(crate::specs::RowKeys::spelled_value))]
fn push_part(
    alloc: Global,
    key: &mut Vec<u8>,
    value: &Value,
    part: &KeyPart,
) -> Result<(), AllocError>
    ensures pushed { OnOk result (key.new.items ≡ key.old.items ++ part_key part.now value.now) }
    ensures sound { OnOk result (IsSound (keyed (text_bytes part.now) value.now)) }
{
    match value {
        Value::Null => push_null(key, part.nulls_first),
        Value::Integer(n) => push_integer(key, *n, part.desc),
        Value::Text(text) => push_text(alloc, key, text.as_bytes(), part),
        Value::Blob(blob) => push_string(key, BLOB, blob.as_slice(), part.desc),
    }
}

fn push_text(
    alloc: Global,
    key: &mut Vec<u8>,
    text: &[u8],
    part: &KeyPart,
) -> Result<(), AllocError>
    ensures pushed { OnOk result (key.new.items ≡ key.old.items ++ classed part.now.desc 2 (ended (text_bytes part.now text.now))) }
    ensures sound { OnOk result (AreBytes (text_bytes part.now text.now)) }
{
    match &part.host {
        Some(own) => push_string(key, TEXT, own.as_slice(), part.desc),
        None => push_collated(alloc, key, text, part),
    }
}

fn push_collated(
    alloc: Global,
    key: &mut Vec<u8>,
    text: &[u8],
    part: &KeyPart,
) -> Result<(), AllocError>
    ensures pushed { OnOk result (key.new.items ≡ key.old.items ++ classed part.now.desc 2 (ended (text_key part.now.coll text.now))) }
    ensures sound { OnOk result (AreBytes (text_key part.now.coll text.now)) }
{
    match part.coll {
        Built::Binary => push_string(key, TEXT, text, part.desc),
        Built::NoCase => push_string(key, TEXT, &text.to_ascii_lowercase(alloc)?, part.desc),
        Built::Rtrim => push_string(key, TEXT, without_spaces_behind(text), part.desc),
    }
}
