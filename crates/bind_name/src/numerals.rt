// Numbers as they are written (SQL Language Expressions, section 3).
ghost use Rattle.std.specs.Prelude.{◌≡◌, ◌<◌, ◌≤◌, ◌^◌, pos, SomeIff};
ghost use Rattle.std.specs.Char.{digit_value};
ghost use Rattle.std.specs.Str.Parse.{digits_value};
ghost use Rattle.std.specs.List.{list_all};
ghost use Rattle.eng_number.specs.Forms.{digits, is_digit};
ghost use Rattle.sql_words.specs.Spelled.{hexadecimal_number, is_least_magnitude, number_literal, of_bits, whole_number};

use eng_value::{Cause, Value};
use sql_words::Literal;

/// The value of a digit or a letter, and 36 for all else.
pub(crate) fn digit_value(byte: u8) -> u8
    ensures value { result ≡ digit_value byte }
    ensures small { result ≤ 36 }
{
    match byte {
        b'0'..=b'9' => byte - b'0',
        b'A'..=b'Z' => byte - b'A' + 10,
        b'a'..=b'z' => byte - b'a' + 10,
        _ => 36,
    }
}

/// The number that digits write, if it is one of 64 bits.
fn magnitude(radix: u64, numeral: &[u8]) -> Option<u64>
    requires { 1 ≤ radix }
    ensures { SomeIff result (digits_value radix numeral.now < 2 ^ 64) (digits_value radix numeral.now) }
{
    let mut magnitude: u64 = 0;
    for digit in numeral {
        magnitude = magnitude
            .checked_mul(radix)?
            .checked_add(u64::from(digit_value(*digit)))?;
    }
    Some(magnitude)
}

/// Whether there are digits alone, and one at least.
#[tactic(auto, using(crate::proofs::Digits::digits_are))]
fn is_digits(bytes: &[u8]) -> bool
    ensures { result ≡ digits bytes.now }
{
    !bytes.is_empty() && are_digits(bytes)
}

/// Whether there are digits alone.
fn are_digits(bytes: &[u8]) -> bool
    ensures { result ≡ list_all is_digit bytes.now }
{
    bytes.iter().all(|b| b.is_ascii_digit())
}

/// The integer with the bits of a number.
fn of_bits(n: u64) -> i64
    ensures { result ≡ of_bits n }
{
    n.cast_signed()
}

/// What the digits behind `0x` stand for.
fn hexadecimal_number(numeral: &[u8]) -> Literal
    ensures { result ≡ hexadecimal_number (digits_value 16 numeral.now) }
{
    match magnitude(16, numeral) {
        Some(n) => Literal::Value(Value::Integer(of_bits(n))),
        None => Literal::Bad(Cause::Overflow),
    }
}

/// What digits stand for.
fn decimal_number(numeral: &[u8]) -> Literal
    ensures { result ≡ whole_number (pos (digits_value 10 numeral.now)) }
{
    let Some(magnitude) = magnitude(10, numeral) else {
        return Literal::Bad(Cause::Real);
    };
    match i64::try_from(magnitude) {
        Ok(n) => Literal::Value(Value::Integer(n)),
        Err(_) => Literal::Bad(Cause::Real),
    }
}

/// What a number stands for: one that is no integer of 64 bits would be REAL.
pub(crate) fn number_literal(bytes: &[u8]) -> Literal
    ensures { result ≡ number_literal bytes.now }
{
    match bytes {
        [_, b'x' | b'X', numeral @ ..] => hexadecimal_number(numeral),
        _ if is_digits(bytes) => decimal_number(bytes),
        _ => Literal::Bad(Cause::Real),
    }
}

/// Whether minus in front makes it the least integer.
pub fn is_least_magnitude(bytes: &[u8]) -> bool
    ensures { result ≡ is_least_magnitude bytes.now }
{
    is_digits(bytes) && magnitude(10, bytes) == Some(1 << 63)
}
