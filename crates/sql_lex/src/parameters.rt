// Parameters (SQL Language Expressions, "Parameters"): `?`, and `?N` with N from 1 to 999.
ghost use Rattle.std.specs.Prelude.{◌≡◌, min};
ghost use Rattle.std.specs.Char.{is_ascii_digit};
ghost use Rattle.std.specs.List.{take_while, AllPass};
ghost use Rattle.std.specs.Str.Parse.{digits_value};
ghost use Rattle.sql_lex.specs.Pieces.{is_parameter, parameter_piece};

use crate::numbers::digits_width;
use crate::piece::Piece;
use sql_tree::TokenKind;

/// Whether a parameter can have a number.
pub(crate) fn is_parameter(number: u16) -> bool
    ensures { result ≡ is_parameter number }
{
    1 <= number && number <= 999
}

// The number that the digits write, or 1000 for a larger one.
fn value_to_1000(digits: &[u8]) -> u16
    requires { AllPass is_ascii_digit digits.now }
    ensures { result ≡ min 1000 (digits_value 10 digits.now) }
{
    let mut value: u16 = 0;
    for digit in digits {
        value = (value * 10 + u16::from(*digit - b'0')).min(1000);
    }
    value
}

fn leading_digits(bytes: &[u8]) -> &[u8]
    ensures value { result.now ≡ take_while is_ascii_digit bytes.now }
    ensures digits { AllPass is_ascii_digit result.now }
{
    &bytes[..digits_width(bytes)]
}

// The parameter that has these digits.
fn numbered(digits: &[u8]) -> Piece
    requires { AllPass is_ascii_digit digits.now }
    ensures { result ≡ parameter_piece digits.now }
{
    if digits.is_empty() {
        return Piece::Parameter(None, 1);
    }
    let number = value_to_1000(digits);
    if is_parameter(number) {
        Piece::Parameter(Some(number), 1 + digits.len())
    } else {
        Piece::Lexeme(TokenKind::Illegal, 1 + digits.len())
    }
}

/// The parameter behind whose `?` these bytes stand.
#[inline(never)]
pub(crate) fn parameter(bytes: &[u8]) -> Piece
    ensures { result ≡ parameter_piece (take_while is_ascii_digit bytes.now) }
{
    numbered(leading_digits(bytes))
}
