// Operators and punctuation (SQL Language Expressions, "Operators").
ghost use Rattle.std.specs.Prelude.{◌≡◌, Some, None};
ghost use Rattle.sql_lex.specs.Pieces.{sign_piece};
ghost use Rattle.sql_lex.specs.Signs.{double_kind, single_kind};

use crate::front::begins_with;
use crate::piece::Piece;
use sql_tree::TokenKind;

// The sign of two bytes.
fn double_kind(first: u8, bytes: &[u8]) -> Option<TokenKind>
    ensures { result ≡ double_kind first bytes.now }
{
    if first == b'|' && begins_with(b'|', bytes) {
        Some(TokenKind::DoubleBar)
    } else if first == b'<' && begins_with(b'<', bytes) {
        Some(TokenKind::ShiftLeft)
    } else if first == b'>' && begins_with(b'>', bytes) {
        Some(TokenKind::ShiftRight)
    } else if first == b'<' && begins_with(b'=', bytes) {
        Some(TokenKind::LessEqual)
    } else if first == b'>' && begins_with(b'=', bytes) {
        Some(TokenKind::GreaterEqual)
    } else if first == b'=' && begins_with(b'=', bytes) {
        Some(TokenKind::DoubleEqual)
    } else if first == b'<' && begins_with(b'>', bytes) {
        Some(TokenKind::LessGreater)
    } else if first == b'!' && begins_with(b'=', bytes) {
        Some(TokenKind::BangEqual)
    } else {
        None
    }
}

// The sign of one byte.
fn single_kind(first: u8) -> TokenKind
    ensures { result ≡ single_kind first }
{
    match first {
        b'(' => TokenKind::LeftParen,
        b')' => TokenKind::RightParen,
        b',' => TokenKind::Comma,
        b';' => TokenKind::Semicolon,
        b'.' => TokenKind::Dot,
        b'*' => TokenKind::Star,
        b'+' => TokenKind::Plus,
        b'-' => TokenKind::Minus,
        b'/' => TokenKind::Slash,
        b'%' => TokenKind::Percent,
        b'&' => TokenKind::Ampersand,
        b'|' => TokenKind::Bar,
        b'~' => TokenKind::Tilde,
        b'<' => TokenKind::Less,
        b'>' => TokenKind::Greater,
        b'=' => TokenKind::Equal,
        _ => TokenKind::Illegal,
    }
}

/// The sign that a byte begins, where these bytes follow it.
#[inline(never)]
pub(crate) fn sign(first: u8, bytes: &[u8]) -> Piece
    ensures { result ≡ sign_piece first bytes.now }
{
    match double_kind(first, bytes) {
        Some(kind) => Piece::Lexeme(kind, 2),
        None => Piece::Lexeme(single_kind(first), 1),
    }
}
