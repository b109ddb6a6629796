// Numbers (SQL Language Expressions, "Literal Values"). A number that a word goes on behind at once stands in no statement, nor does
// a hexadecimal one of more than 16 digits behind leading zeros.
ghost use Rattle.std.specs.Prelude.{◌≡◌, ◌≤◌, ◌+◌, ◌-◌, ◌∷◌, [], length, drop};
ghost use Rattle.std.specs.Char.{is_ascii_hexdigit};
ghost use Rattle.std.specs.List.{take_while};
ghost use Rattle.sql_lex.specs.Pieces.{decimal_width, digits_width, exponent_width, fraction_width, hex_digits, hex_number, is_x, number_by_digits, number_of_width, number_piece, pointed_width, sign_width, with_digits, without_zeros};

use crate::front::{behind, first_byte};
use crate::piece::Piece;
use crate::words::word_width;
use sql_tree::TokenKind;

/// How many digits the text begins with.
pub(crate) fn digits_width(bytes: &[u8]) -> usize
    ensures value { result ≡ digits_width bytes.now }
    ensures within { result ≤ length bytes.now }
{
    bytes
        .iter()
        .take_while(|digit| digit.is_ascii_digit())
        .count()
}

// A point and the digits behind it, if any.
fn fraction_width(bytes: &[u8]) -> usize
    ensures value { result ≡ fraction_width bytes.now }
    ensures within { result ≤ length bytes.now }
{
    match first_byte(bytes) {
        None => 0,
        Some((first, rest)) => if first == b'.' {
            1 + digits_width(rest)
        } else {
            0
        },
    }
}

fn sign_width(bytes: &[u8]) -> usize
    ensures value { result ≡ sign_width bytes.now }
    ensures within { result ≤ length bytes.now }
{
    match first_byte(bytes) {
        None => 0,
        Some((first, _)) => if first == b'+' || first == b'-' { 1 } else { 0 },
    }
}

// So many bytes and the digits behind them, where there are any.
fn with_digits(width: usize, bytes: &[u8]) -> usize
    requires { width + length bytes.now ≤ usize.MAX }
    ensures value { result ≡ with_digits width bytes.now }
    ensures within { result ≤ width + length bytes.now }
{
    let digits = digits_width(bytes);
    if digits == 0 { 0 } else { width + digits }
}

// `e`, a sign, if any, and digits.
fn exponent_width(bytes: &[u8]) -> usize
    ensures value { result ≡ exponent_width bytes.now }
    ensures within { result ≤ length bytes.now }
{
    match first_byte(bytes) {
        None => 0,
        Some((first, rest)) => if first == b'e' || first == b'E' {
            let sign = sign_width(rest);
            with_digits(1 + sign, behind(rest, sign))
        } else {
            0
        },
    }
}

// Digits and a fraction, if any.
fn pointed_width(bytes: &[u8]) -> usize
    ensures value { result ≡ pointed_width bytes.now }
    ensures within { result ≤ length bytes.now }
{
    let whole = digits_width(bytes);
    whole + fraction_width(behind(bytes, whole))
}

fn decimal_width(bytes: &[u8]) -> usize
    ensures value { result ≡ decimal_width bytes.now }
    ensures within { result ≤ length bytes.now }
{
    let pointed = pointed_width(bytes);
    pointed + exponent_width(behind(bytes, pointed))
}

// A number of so many bytes, unless a word goes on behind it at once.
fn number_of_width(width: usize, bytes: &[u8]) -> Piece
    requires { width ≤ length bytes.now }
    ensures { result ≡ number_of_width width bytes.now }
{
    let word = word_width(behind(bytes, width));
    if word == 0 {
        Piece::Lexeme(TokenKind::Number, width)
    } else {
        Piece::Lexeme(TokenKind::Illegal, width + word)
    }
}

fn without_zeros(bytes: &[u8]) -> &[u8]
    ensures { result.now ≡ without_zeros bytes.now }
{
    for (i, byte) in bytes.iter().enumerate() {
        if *byte != b'0' {
            return &bytes[i..];
        }
    }
    &bytes[bytes.len()..]
}

/// Whether a byte is an `x` in either case.
pub(crate) fn is_x(byte: u8) -> bool
    ensures { result ≡ is_x byte }
{
    byte == b'x' || byte == b'X'
}

fn hex_width(bytes: &[u8]) -> usize
    ensures value { result ≡ length (take_while is_ascii_hexdigit bytes.now) }
    ensures within { result ≤ length bytes.now }
{
    bytes
        .iter()
        .take_while(|digit| digit.is_ascii_hexdigit())
        .count()
}

#[tactic(auto, using(crate::proofs::Widths::take_length_take_while))]
fn leading_hex_digits(bytes: &[u8]) -> &[u8]
    ensures value { result.now ≡ take_while is_ascii_hexdigit bytes.now }
    ensures within { length result.now ≤ length bytes.now }
{
    &bytes[..hex_width(bytes)]
}

// The hexadecimal digits behind `0x`, none where the text does not begin so.
fn hex_digits(bytes: &[u8]) -> &[u8]
    ensures value { result.now ≡ hex_digits bytes.now }
    ensures within { length result.now ≤ length bytes.now - 2 }
{
    if bytes.len() >= 2 && bytes[0] == b'0' && is_x(bytes[1]) {
        leading_hex_digits(behind(bytes, 2))
    } else {
        &bytes[..0]
    }
}

// The number that these digits write behind `0x`.
fn hex_number(digits: &[u8], bytes: &[u8]) -> Piece
    requires { 2 + length digits.now ≤ length bytes.now }
    ensures { result ≡ hex_number digits.now bytes.now }
{
    if without_zeros(digits).len() <= 16 {
        number_of_width(2 + digits.len(), bytes)
    } else {
        Piece::Lexeme(TokenKind::Illegal, 2 + word_width(behind(bytes, 2)))
    }
}

/// The number that a text begins with.
#[inline(never)]
pub(crate) fn number(bytes: &[u8]) -> Piece
    ensures { result ≡ number_piece bytes.now }
{
    let digits = hex_digits(bytes);
    if digits.is_empty() {
        number_of_width(decimal_width(bytes), bytes)
    } else {
        hex_number(digits, bytes)
    }
}
