// How values stand to one another under a collation.
ghost use Rattle.std.specs.Prelude.{◌≡◌, map, reverse};
ghost use Rattle.std.specs.Char.{to_ascii_lowercase};
ghost use Rattle.eng_value.specs.Compare.{bytes_cmp};
ghost use Rattle.eng_value.specs.Collations.{compare, compare_by, own_keys, text_key, without_spaces};

use crate::{Built, Collation, Value};
use std::cmp::Ordering;

/// How one value stands to another under a collation, which orders texts alone (Datatypes In SQLite, sections 4.1 and 7).
/// Takes no memory.
pub fn compare(a: &Value, b: &Value, collation: Built) -> Ordering
    ensures { result ≡ compare collation a.now b.now }
{
    match (a, b) {
        (Value::Text(a), Value::Text(b)) => compare_texts(collation, a.as_bytes(), b.as_bytes()),
        _ => a.compare(b),
    }
}

/// The same under any collation, where no host has one. Takes no memory.
pub fn compare_under(a: &Value, b: &Value, collation: Collation) -> Ordering
    ensures { result ≡ compare_by (own_keys collation) a.now b.now }
{
    compare(a, b, collation.built_in())
}

fn compare_texts(collation: Built, a: &[u8], b: &[u8]) -> Ordering
    ensures { result ≡ bytes_cmp (text_key collation a.now) (text_key collation b.now) }
{
    match collation {
        Built::Binary => a.cmp(&b),
        Built::NoCase => compare_folded(a, b),
        Built::Rtrim => without_spaces_behind(a).cmp(&without_spaces_behind(b)),
    }
}

// By their bytes, with the letters of ASCII in one case.
fn compare_folded(a: &[u8], b: &[u8]) -> Ordering
    ensures { result ≡ bytes_cmp (map to_ascii_lowercase a.now) (map to_ascii_lowercase b.now) }
{
    for (x, y) in a.iter().zip(b) {
        let ordering = x.to_ascii_lowercase().cmp(&y.to_ascii_lowercase());
        if ordering.is_ne() {
            return ordering;
        }
    }
    a.len().cmp(&b.len())
}

fn without_spaces_behind(text: &[u8]) -> &[u8]
    ensures { result.now ≡ reverse (without_spaces (reverse text.now)) }
{
    let mut end = text.len();
    while end > 0 && text[end - 1] == b' ' {
        end -= 1;
    }
    &text[..end]
}
