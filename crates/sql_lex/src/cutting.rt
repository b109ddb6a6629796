// Where a statement ends in a text, and white space and comments in front of it.
ghost use Rattle.std.specs.Prelude.{◌≡◌, ◌+◌, ◌<◌, ◌≤◌, ◌∷◌, length, slice_index, IfSome};
ghost use Rattle.std.specs.List.{take_while};
ghost use Rattle.std.specs.Str.{IsCharBoundary};
ghost use Rattle.sql_lex.specs.Cutting.{blank_of, blank_width, statement_end};
ghost use Rattle.sql_lex.specs.Pieces.{piece};
ghost use Rattle.sql_lex.specs.Plain.{is_plain, plain_end};

use crate::front::{behind, first_byte};
use crate::numbers::is_x;
use crate::piece::{Piece, front_piece};
use crate::placing::width_of;
use crate::reading::{Reading, behind_piece, is_end};
use crate::words::begins_word;

// Whether a byte begins no quotes, no comment and no end of a statement, wherever it stands outside of quotes and comments.
fn is_plain(byte: u8) -> bool
    ensures { result ≡ is_plain byte }
{
    !matches!(byte, b'\'' | b'"' | b'`' | b'[' | b'-' | b'/' | b';')
}

// How many such bytes the text begins with.
fn plain_width(bytes: &[u8]) -> usize
    ensures value { result ≡ length (take_while is_plain bytes.now) }
    ensures within { result ≤ length bytes.now }
{
    bytes.iter().take_while(|byte| is_plain(**byte)).count()
}

// The byte of the `;` that ends a statement which creates no trigger, where this is left of it from a place on: any `;` does that
// stands in no text, no quoted name and no comment. Words and numbers are passed over byte by byte.
fn plain_end(text: &[u8], from: usize) -> Option<usize>
    requires { from + length text.now ≤ usize.MAX }
    ensures { result ≡ plain_end from text.now }
{
    let width = plain_width(text);
    let mut rest = behind(text, width);
    let mut start = from + width;
    while let Some((first, more)) = first_byte(rest) {
        if first == b';' {
            return Some(start);
        }
        let width = width_of(front_piece(rest, first, more));
        let next = behind(rest, width);
        let plain = plain_width(next);
        start += width + plain;
        rest = behind(next, plain);
    }
    None
}

/// The byte of the first `;` that ends the statement with which a text begins, none where the statement goes on behind the text
/// (Command Line Shell For SQLite). A `;` in a text, in a quoted name or in a comment ends nothing. A statement that creates a
/// trigger ends at the `;` of `;` END `;` only (SQL As Understood By SQLite, "CREATE TRIGGER").
///
/// The text may be cut in front of that byte and behind it. No byte behind it is read, and the time is at most as the number of
/// those that are.
pub fn statement_end(text: &str) -> Option<usize>
    ensures end { result ≡ statement_end text.now }
    ensures within { IfSome result (λ end. end < length text.now) }
    ensures semicolon { IfSome result (λ end. slice_index text.now end ≡ 59) }
    ensures front { IfSome result (λ end. IsCharBoundary text.now end) }
    ensures back { IfSome result (λ end. IsCharBoundary text.now (end + 1)) }
{
    let mut rest = text.as_bytes();
    let mut start: usize = 0;
    let mut reading = Reading::Start;
    while let Some((first, more)) = first_byte(rest) {
        if let Reading::Other = reading {
            return plain_end(rest, start);
        }
        let piece = front_piece(rest, first, more);
        if is_end(reading, piece) {
            return Some(start);
        }
        reading = behind_piece(reading, piece);
        start += width_of(piece);
        rest = behind(rest, width_of(piece));
    }
    None
}

// How many bytes a piece takes that is white space or a comment, else 0.
fn blank_of(piece: Piece) -> usize
    ensures { result ≡ blank_of piece }
{
    match piece {
        Piece::Blank(width) => width,
        _ => 0,
    }
}

// How many bytes a text begins with that are a blank. A statement mostly begins with a word, which is no blank however it goes on.
fn blank_in_front(text: &[u8], first: u8, rest: &[u8]) -> usize
    requires { text.now ≡ first ∷ rest.now }
    ensures value { result ≡ blank_of (piece first rest.now) }
    ensures within { result ≤ length text.now }
{
    if begins_word(first) && !is_x(first) {
        0
    } else {
        blank_of(front_piece(text, first, rest))
    }
}

/// How many bytes of white space or of a comment a text begins with: one byte of white space, a comment as a whole, or 0 where the
/// text is empty or begins with a token (SQL As Understood By SQLite, "Comment Syntax"). The text may be cut behind them.
pub fn blank_width(text: &str) -> usize
    ensures width { result ≡ blank_width text.now }
    ensures within { result ≤ length text.now }
    ensures back { IsCharBoundary text.now result }
{
    let bytes = text.as_bytes();
    match first_byte(bytes) {
        Some((first, rest)) => blank_in_front(bytes, first, rest),
        None => 0,
    }
}
