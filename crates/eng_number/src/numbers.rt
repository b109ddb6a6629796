// The integers that texts spell.
ghost use Rattle.std.specs.Prelude.{◌≡◌, ◌<◌, ◌^◌, true, SomeIff};
ghost use Rattle.std.specs.Str.Parse.{digits_value, signed_digits_value, starts_with_minus};
ghost use Rattle.eng_number.specs.Forms.{digits};
ghost use Rattle.eng_number.specs.Numbers.{clamped, integer_of, integer_prefix, number_prefix, text_kind, whole_number};

use crate::scanning::{number_len, sign_len, trimmed, whole_len, without_space};

/// What a text is between white space (Datatypes In SQLite, section 3): no number, an integer of 64 bits, or another
/// number, which SQLite would hold as a REAL.
#[derive(Clone, Copy, PartialEq, Eq)]
pub enum TextKind {
    NoNumber,
    Whole(i64),
    Real,
}

/// What the text is between white space. White space is space, tab, line feed, form feed and carriage return.
pub fn text_kind(text: &[u8]) -> TextKind
    ensures { result ≡ text_kind text.now }
{
    let number = trimmed(text);
    if number_len(number) != Some(number.len()) {
        return TextKind::NoNumber;
    }
    match integer_of(number) {
        Some(n) => TextKind::Whole(n),
        None => TextKind::Real,
    }
}

/// The integer of the longest beginning, behind white space, that is a number: 0 where no beginning is one, and `None`
/// where it has a point or an exponent, or does not fit in 64 bits.
pub fn number_prefix(bytes: &[u8]) -> Option<i64>
    ensures { result ≡ number_prefix bytes.now }
{
    let bytes = without_space(bytes);
    match number_len(bytes) {
        Some(len) => integer_of(&bytes[..len]),
        None => Some(0),
    }
}

/// What the text is as an INTEGER (SQL Language Expressions, CAST expressions): the integer of the longest beginning,
/// behind white space, that is a sign and digits, or the nearest one of 64 bits; 0 where no beginning is one.
pub fn integer_prefix(bytes: &[u8]) -> i64
    ensures { result ≡ integer_prefix bytes.now }
{
    let bytes = without_space(bytes);
    match whole_len(bytes) {
        Some(len) => clamped(&bytes[..len]),
        None => 0,
    }
}

// The integer of a number; `None` where it has a point or an exponent, or does not fit in 64 bits.
fn integer_of(number: &[u8]) -> Option<i64>
    ensures { result ≡ integer_of number.now }
{
    if whole_len(number) == Some(number.len()) {
        value(number)
    } else {
        None
    }
}

// The integer of a sign and digits, or the nearest one of 64 bits.
fn clamped(number: &[u8]) -> i64
    requires { whole_number number.now ≡ true }
    ensures { result ≡ clamped (signed_digits_value 10 number.now) }
{
    match value(number) {
        Some(n) => n,
        None if is_negative(number) => i64::MIN,
        None => i64::MAX,
    }
}

// The integer of a sign and digits, if it fits in 64 bits. The least one has no positive counterpart: so it is taken
// from 0, and no sign is turned.
fn value(number: &[u8]) -> Option<i64>
    requires { whole_number number.now ≡ true }
    ensures { result ≡ integer_of number.now }
{
    let magnitude = magnitude(&number[sign_len(number)..])?;
    if is_negative(number) {
        0i64.checked_sub_unsigned(magnitude)
    } else {
        0i64.checked_add_unsigned(magnitude)
    }
}

fn is_negative(number: &[u8]) -> bool
    ensures { result ≡ starts_with_minus number.now }
{
    number.first() == Some(&b'-')
}

// The number that digits write, if it fits in 64 bits.
fn magnitude(numeral: &[u8]) -> Option<u64>
    requires { digits numeral.now ≡ true }
    ensures { SomeIff result (digits_value 10 numeral.now < 2 ^ 64) (digits_value 10 numeral.now) }
{
    let mut magnitude: u64 = 0;
    for digit in numeral {
        magnitude = magnitude
            .checked_mul(10)?
            .checked_add(u64::from(*digit - b'0'))?;
    }
    Some(magnitude)
}
