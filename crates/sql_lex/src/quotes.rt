// What stands in quotes: texts, names and blobs (SQL Language Expressions, "Literal Values"; "SQLite Keywords").
ghost use Rattle.std.specs.Prelude.{◌≡◌, ◌≤◌, length, IfSome};
ghost use Rattle.std.specs.Char.{is_ascii_hexdigit};
ghost use Rattle.std.specs.List.{list_all};
ghost use Rattle.sql_lex.specs.Pieces.{blob_kind, blob_up_to, closed, up_to, up_to_quote};

use crate::front::{begins_with, behind};
use crate::piece::Piece;
use sql_tree::TokenKind;

/// How many bytes there are up to and with the first of these bytes.
pub(crate) fn up_to(byte: u8, bytes: &[u8]) -> Option<usize>
    ensures value { result ≡ up_to byte bytes.now }
    ensures within { IfSome result (λ width. (1 ≤ width) × (width ≤ length bytes.now)) }
{
    for (i, other) in bytes.iter().enumerate() {
        if *other == byte {
            return Some(i + 1);
        }
    }
    None
}

/// How many bytes there are up to and with the closing quote, where two of them stand for one.
pub(crate) fn up_to_quote(quote: u8, bytes: &[u8]) -> Option<usize>
    ensures value { result ≡ up_to_quote quote bytes.now }
    ensures within { IfSome result (λ width. width ≤ length bytes.now) }
{
    let mut width = 0;
    while width < bytes.len() {
        if bytes[width] != quote {
            width += 1;
        } else if begins_with(quote, behind(bytes, width + 1)) {
            width += 2;
        } else {
            return Some(width + 1);
        }
    }
    None
}

/// What closes behind so many bytes, which one byte opens, or else all that is left of the text, which stands in no statement.
pub(crate) fn closed(kind: TokenKind, width: Option<usize>, bytes: &[u8]) -> Piece
    requires { IfSome width (λ width. width ≤ length bytes.now) }
    ensures { result ≡ closed kind 1 width bytes.now }
{
    match width {
        Some(width) => Piece::Lexeme(kind, 1 + width),
        None => Piece::Lexeme(TokenKind::Illegal, 1 + bytes.len()),
    }
}

fn are_hex_digits(bytes: &[u8]) -> bool
    ensures { result ≡ list_all is_ascii_hexdigit bytes.now }
{
    bytes.iter().all(|byte| byte.is_ascii_hexdigit())
}

// Pairs of hexadecimal digits are a blob.
fn blob_kind(digits: &[u8]) -> TokenKind
    ensures { result ≡ blob_kind digits.now }
{
    if are_hex_digits(digits) && digits.len() % 2 == 0 {
        TokenKind::Blob
    } else {
        TokenKind::Illegal
    }
}

/// The blob behind `x'`.
#[inline(never)]
pub(crate) fn blob(bytes: &[u8]) -> Piece
    ensures { result ≡ blob_up_to (up_to 39 bytes.now) bytes.now }
{
    match up_to(b'\'', bytes) {
        Some(width) => Piece::Lexeme(blob_kind(&bytes[..width - 1]), 2 + width),
        None => Piece::Lexeme(TokenKind::Illegal, 2 + bytes.len()),
    }
}
