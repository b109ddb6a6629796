// What stands at the front of a text.
ghost use Rattle.std.specs.Prelude.{◌≡◌, ◌≤◌, ◌∷◌, length};
ghost use Rattle.sql_lex.specs.Pieces.{piece};
ghost use Rattle.sql_lex.specs.Tokens.{width_of};

use crate::blanks::{comment_width, line_width};
use crate::front::{begins_with, behind};
use crate::numbers::number;
use crate::parameters::parameter;
use crate::quotes::{blob, closed, up_to, up_to_quote};
use crate::signs::sign;
use crate::words::word;
use sql_tree::TokenKind;

/// What a text begins with, and how many bytes that takes.
#[derive(Clone, Copy, PartialEq, Eq)]
pub(crate) enum Piece {
    /// White space or a comment.
    Blank(usize),
    Lexeme(TokenKind, usize),
    /// A parameter with its number, where one is written.
    Parameter(Option<u16>, usize),
}

// What a text begins with, by cases. The signs that begin no longer one are the most common pieces but for words and blanks.
#[inline(always)]
fn by_first(text: &[u8], first: u8, rest: &[u8]) -> Piece
    requires { text.now ≡ first ∷ rest.now }
    ensures { result ≡ piece first rest.now }
{
    match first {
        b' ' | b'\t' | b'\n' | b'\x0c' | b'\r' => Piece::Blank(1),
        b'(' => Piece::Lexeme(TokenKind::LeftParen, 1),
        b')' => Piece::Lexeme(TokenKind::RightParen, 1),
        b',' => Piece::Lexeme(TokenKind::Comma, 1),
        b';' => Piece::Lexeme(TokenKind::Semicolon, 1),
        b'-' if begins_with(b'-', rest) => Piece::Blank(1 + line_width(rest)),
        b'/' if begins_with(b'*', rest) => Piece::Blank(2 + comment_width(behind(rest, 1))),
        b'\'' => closed(TokenKind::Text, up_to_quote(b'\'', rest), rest),
        b'"' => closed(TokenKind::QuotedName, up_to_quote(b'"', rest), rest),
        b'`' => closed(TokenKind::QuotedName, up_to_quote(b'`', rest), rest),
        b'[' => closed(TokenKind::QuotedName, up_to(b']', rest), rest),
        b'x' | b'X' if begins_with(b'\'', rest) => blob(behind(rest, 1)),
        b'a'..=b'z' | b'A'..=b'Z' | b'_' | 128..=255 => word(text),
        b'0'..=b'9' => number(text),
        b'?' => parameter(rest),
        _ => sign(first, rest),
    }
}

/// What a text begins with, given its first byte and what is behind that.
#[inline(always)]
pub(crate) fn front_piece(text: &[u8], first: u8, rest: &[u8]) -> Piece
    requires { text.now ≡ first ∷ rest.now }
    ensures value { result ≡ piece first rest.now }
    ensures some { 1 ≤ width_of result }
    ensures within { width_of result ≤ length text.now }
{
    by_first(text, first, rest)
}
