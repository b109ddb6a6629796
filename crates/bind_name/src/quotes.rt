// Quotes that stand twice for one.
ghost use Rattle.std.specs.Prelude.{◌≡◌, ◌∷◌, ◌≤◌, length, IfOk};
ghost use Rattle.sql_words.specs.Spelled.{as_text, undoubled};

use eng_value::Text;
use std::alloc::{AllocError, Global};
use std::str;

/// What is left behind a byte: where it is a quote and the next one is too, without that one.
pub fn past_second(quote: u8, first: u8, rest: &[u8]) -> &[u8]
    ensures undoubled { undoubled quote (first ∷ rest.now) ≡ first ∷ undoubled quote result.now }
    ensures shorter { length result.now ≤ length rest.now }
{
    match rest {
        [second, behind @ ..] if first == quote && *second == quote => behind,
        _ => rest,
    }
}

/// The bytes with one quote for two.
fn undoubled(alloc: Global, quote: u8, bytes: &[u8]) -> Result<Vec<u8>, AllocError>
    ensures { IfOk result (λ made. made.items ≡ undoubled quote bytes.now) }
{
    let mut made = Vec::new(alloc);
    let mut rest = bytes;
    while let [first, behind @ ..] = rest {
        made.push(*first)?;
        rest = past_second(quote, *first, behind);
    }
    Ok(made)
}

/// The text with one quote for two.
pub(crate) fn undoubled_text(alloc: Global, quote: u8, bytes: &[u8]) -> Result<Text, AllocError>
    ensures { IfOk result (λ t. t ≡ as_text (undoubled quote bytes.now)) }
{
    match String::from_utf8(undoubled(alloc, quote, bytes)?) {
        Ok(text) => Ok(Text::new(text)),
        Err(_) => Text::from_str(alloc, ""),
    }
}

/// The text of these bytes. Those of a token are UTF-8; others would be no text at all.
pub(crate) fn text_of(alloc: Global, bytes: &[u8]) -> Result<Text, AllocError>
    ensures { IfOk result (λ t. t ≡ as_text bytes.now) }
{
    match str::from_utf8(bytes) {
        Ok(text) => Text::from_str(alloc, text),
        Err(_) => Text::from_str(alloc, ""),
    }
}
