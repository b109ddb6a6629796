// The bytes of a value in the key of a row.
ghost use Rattle.std.specs.Prelude.{◌≡◌, ◌++◌, ◌≤◌, ◌∷◌, [], OnOk, true};
ghost use Rattle.std.specs.List.{flat_map};
ghost use Rattle.eng_key.specs.Rowids.{IsRowid, rowid_key};
ghost use Rattle.eng_key.specs.RowKeys.{AreBytes, class_byte, classed, ended, null_byte, spelled, turned};

use crate::rowid::rowid_key;
use std::alloc::AllocError;

const NULLS_LAST: u8 = 4;

const INTEGER: u8 = 1;

/// Adds a NULL behind the key.
pub(crate) fn push_null(key: &mut Vec<u8>, nulls_first: bool) -> Result<(), AllocError>
    ensures { OnOk result (key.new.items ≡ key.old.items ++ null_byte nulls_first ∷ []) }
{
    key.push(if nulls_first { 0 } else { NULLS_LAST })?;
    Ok(())
}

/// Adds an integer behind the key.
pub(crate) fn push_integer(key: &mut Vec<u8>, n: i64, desc: bool) -> Result<(), AllocError>
    ensures pushed { OnOk result (key.new.items ≡ key.old.items ++ classed desc 1 (rowid_key n)) }
    ensures sound { IsRowid n }
{
    key.push(class_byte(INTEGER, desc))?;
    push_turned(key, &rowid_key(n), desc)
}

/// Adds the bytes of a text or a blob behind the key, with their class in front and their end behind them.
#[tactic(auto, using(crate::proofs::SpellingLaws::are_bytes))]
pub(crate) fn push_string(
    key: &mut Vec<u8>,
    class: u8,
    bytes: &[u8],
    desc: bool,
) -> Result<(), AllocError>
    requires { class ≤ 4 }
    ensures pushed { OnOk result (key.new.items ≡ key.old.items ++ classed desc class (ended bytes.now)) }
    ensures sound { AreBytes bytes.now }
{
    key.push(class_byte(class, desc))?;
    push_ended(key, bytes, desc)
}

fn class_byte(class: u8, desc: bool) -> u8
    requires { class ≤ 4 }
    ensures { result ≡ class_byte desc class }
{
    if desc { NULLS_LAST - class } else { class }
}

fn push_ended(key: &mut Vec<u8>, bytes: &[u8], desc: bool) -> Result<(), AllocError>
    ensures { OnOk result (key.new.items ≡ key.old.items ++ turned desc (ended bytes.now)) }
{
    push_each(key, bytes, desc)?;
    push_turned(key, &[0, 0], desc)
}

fn push_each(key: &mut Vec<u8>, bytes: &[u8], desc: bool) -> Result<(), AllocError>
    ensures { OnOk result (key.new.items ≡ key.old.items ++ flat_map (λ b. turned desc (spelled b)) bytes.now) }
{
    for byte in bytes {
        push_spelled(key, *byte, desc)?;
    }
    Ok(())
}

#[tactic(auto, using(crate::proofs::SpellingLaws::spelled_zero, crate::proofs::SpellingLaws::spelled_other))]
fn push_spelled(key: &mut Vec<u8>, byte: u8, desc: bool) -> Result<(), AllocError>
    ensures { OnOk result (key.new.items ≡ key.old.items ++ turned desc (spelled byte)) }
{
    match byte {
        0 => push_turned(key, &[0, u8::MAX], desc),
        _ => push_turned(key, &[byte], desc),
    }
}

// Bytes as they are, or descending.
fn push_turned(key: &mut Vec<u8>, bytes: &[u8], desc: bool) -> Result<(), AllocError>
    ensures { OnOk result (key.new.items ≡ key.old.items ++ turned desc bytes.now) }
{
    if desc {
        return push_descending(key, bytes);
    }
    key.extend_from_slice(bytes)?;
    Ok(())
}

fn push_descending(key: &mut Vec<u8>, bytes: &[u8]) -> Result<(), AllocError>
    ensures { OnOk result (key.new.items ≡ key.old.items ++ turned true bytes.now) }
{
    for byte in bytes {
        key.push(u8::MAX - *byte)?;
    }
    Ok(())
}
