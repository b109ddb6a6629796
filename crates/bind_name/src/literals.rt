// Literals (SQL Language Expressions, section 3).
ghost use Rattle.std.specs.Prelude.{◌≡◌, ◌<◌, ◌^◌, IfOk};
ghost use Rattle.eng_value.specs.declared.value.Value.TheVariants as value;
ghost use Rattle.sql_words.specs.Spelled.{as_text, hexadecimal_bytes, inside, kept, literal_at, literal_of, undoubled};
ghost use Rattle.bind_name.specs.Literals.{hexadecimal_byte};

use crate::numerals::{digit_value, number_literal};
use crate::quotes::undoubled_text;
use crate::slices::{behind, inside, slice_of};
use eng_value::{Blob, Cause, MAX_VALUE_BYTES, Value};
use sql_tree::{Token, TokenKind};
use sql_words::Literal;
use std::alloc::{AllocError, Global};

/// What the token of a literal in the text stands for: a value, or why it has none. Only memory can fail.
pub fn literal(alloc: Global, text: &str, token: &Token) -> Result<Literal, AllocError>
    ensures { IfOk result (λ l. l ≡ literal_at text.now token.now) }
{
    literal_of(alloc, token.kind, slice_of(text, token))
}

/// What the bytes of a literal of this kind stand for.
fn literal_of(alloc: Global, kind: TokenKind, bytes: &[u8]) -> Result<Literal, AllocError>
    ensures { IfOk result (λ l. l ≡ literal_of kind bytes.now) }
{
    match kind {
        TokenKind::Number => Ok(number_literal(bytes)),
        TokenKind::Text => text_literal(alloc, inside(bytes)),
        TokenKind::Blob => blob_literal(alloc, inside(behind(bytes, 1))),
        TokenKind::True => Ok(Literal::Value(Value::Integer(1))),
        TokenKind::False => Ok(Literal::Value(Value::Integer(0))),
        _ => Ok(Literal::Value(Value::Null)),
    }
}

/// The text between quotes, where it is not too long.
#[tactic(auto, using(crate::proofs::Kept::kept_lengths))]
fn text_literal(alloc: Global, bytes: &[u8]) -> Result<Literal, AllocError>
    ensures { IfOk result (λ l. l ≡ kept (value.Text (as_text (undoubled 0x27 bytes.now)))) }
{
    let text = undoubled_text(alloc, b'\'', bytes)?;
    if text.as_bytes().len() > MAX_VALUE_BYTES {
        return Ok(Literal::Bad(Cause::TooBig));
    }
    Ok(Literal::Value(Value::Text(text)))
}

/// The byte that two hexadecimal digits write.
fn hexadecimal_byte(high: u8, low: u8) -> u8
    ensures { result ≡ hexadecimal_byte high low }
{
    digit_value(high)
        .wrapping_mul(16)
        .wrapping_add(digit_value(low))
}

/// The bytes that hexadecimal digits write, two digits each.
fn hexadecimal_bytes(alloc: Global, digits: &[u8]) -> Result<Vec<u8>, AllocError>
    ensures { IfOk result (λ made. made.items ≡ hexadecimal_bytes digits.now) }
{
    let mut made = Vec::new(alloc);
    let mut rest = digits;
    while let [high, low, behind @ ..] = rest {
        made.push(hexadecimal_byte(*high, *low))?;
        rest = behind;
    }
    Ok(made)
}

/// The blob that the digits write, where it is not too long.
#[tactic(auto, using(crate::proofs::Kept::kept_lengths))]
fn blob_literal(alloc: Global, digits: &[u8]) -> Result<Literal, AllocError>
    ensures { IfOk result (λ l. l ≡ kept (value.Blob (hexadecimal_bytes digits.now))) }
{
    if digits.len() / 2 > MAX_VALUE_BYTES {
        return Ok(Literal::Bad(Cause::TooBig));
    }
    let bytes = hexadecimal_bytes(alloc, digits)?;
    Ok(Literal::Value(Value::Blob(Blob::new(bytes))))
}
