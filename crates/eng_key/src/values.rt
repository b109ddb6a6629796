// The keys of values.
ghost use Rattle.std.specs.Prelude.{◌≡◌, ◌∷◌, IfOk, map, reverse};
ghost use Rattle.eng_key.specs.Values.{value_key, value_keys};
ghost use Rattle.eng_value.specs.Collations.{own_keys, text_key, without_spaces};

use crate::rowid::rowid_key;
use eng_value::{Blob, Built, Collation, Value};
use std::alloc::{AllocError, Global};

/// The key of a value under a collation: a byte for its class, and behind it the key of the rowid that an integer would be, the
/// bytes by which a text is compared, or the bytes of a blob (Datatypes In SQLite, sections 4.1 and 7). The bytes of two keys
/// stand to one another as the values do. Only memory can fail.
#[tactic(auto, unfolding(crate::specs::Values::key_by))]
pub fn value_key(alloc: Global, value: &Value, collation: Built) -> Result<Blob, AllocError>
    ensures { IfOk result (λ key. key ≡ value_key collation value.now) }
{
    match value {
        Value::Null => classed(alloc, 0, &[]),
        Value::Integer(n) => classed(alloc, 1, &rowid_key(*n)),
        Value::Text(text) => key_of_text(alloc, text.as_bytes(), collation),
        Value::Blob(blob) => classed(alloc, 3, blob.as_slice()),
    }
}

/// The same under any collation, where no host has one.
#[tactic(auto, using(crate::proofs::ValueLaws::own_value_key))]
pub fn value_key_under(
    alloc: Global,
    value: &Value,
    collation: Collation,
) -> Result<Blob, AllocError>
    ensures { IfOk result (λ key. key ≡ value_keys own_keys collation value.now) }
{
    value_key(alloc, value, collation.built_in())
}

fn key_of_text(alloc: Global, text: &[u8], collation: Built) -> Result<Blob, AllocError>
    ensures { IfOk result (λ key. key ≡ 2 ∷ text_key collation text.now) }
{
    match collation {
        Built::Binary => classed(alloc, 2, text),
        Built::NoCase => classed(alloc, 2, &text.to_ascii_lowercase(alloc)?),
        Built::Rtrim => classed(alloc, 2, without_spaces_behind(text)),
    }
}

// The bytes behind that of the class.
fn classed(alloc: Global, class: u8, bytes: &[u8]) -> Result<Blob, AllocError>
    ensures { IfOk result (λ key. key ≡ class ∷ bytes.now) }
{
    let mut key = Vec::with_capacity(alloc, bytes.len() + 1)?;
    key.push(class)?;
    key.extend_from_slice(bytes)?;
    Ok(Blob::new(key))
}

/// A text without the spaces at its end.
pub(crate) fn without_spaces_behind(text: &[u8]) -> &[u8]
    ensures { result.now ≡ reverse (without_spaces (reverse text.now)) }
{
    let mut end = text.len();
    while end > 0 && text[end - 1] == b' ' {
        end -= 1;
    }
    &text[..end]
}
