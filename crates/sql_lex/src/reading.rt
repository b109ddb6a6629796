// How far a statement has been read, as far as that says where it ends.
ghost use Rattle.std.specs.Prelude.{◌≡◌};
ghost use Rattle.sql_lex.specs.Reading.{after, behind_piece, is_end, ends_at_semicolon};

use crate::piece::Piece;
use sql_tree::TokenKind;

/// What has been read of a statement. One that creates a trigger begins with CREATE TRIGGER, behind an optional EXPLAIN or EXPLAIN
/// QUERY PLAN, and holds statements that have a `;` of their own (SQL As Understood By SQLite, "CREATE TRIGGER").
#[derive(Clone, Copy, PartialEq, Eq)]
pub(crate) enum Reading {
    /// No token yet.
    Start,
    /// EXPLAIN
    Explain,
    /// EXPLAIN QUERY
    Query,
    /// EXPLAIN QUERY PLAN
    Plan,
    /// CREATE, alone or behind EXPLAIN or EXPLAIN QUERY PLAN.
    Create,
    /// What creates no trigger.
    Other,
    /// What creates a trigger, up to a token that is none of the next two.
    Body,
    /// What creates a trigger, up to a `;` that does not end it.
    Semicolon,
    /// What creates a trigger, up to an END right behind a `;`.
    End,
}

// Whether a `;` ends the statement here.
fn ends_at_semicolon(reading: Reading) -> bool
    ensures { result ≡ ends_at_semicolon reading }
{
    match reading {
        Reading::Body | Reading::Semicolon => false,
        _ => true,
    }
}

// What has been read with one more token, where the statement goes on behind it.
fn after(reading: Reading, kind: TokenKind) -> Reading
    ensures { result ≡ after reading kind }
{
    match reading {
        Reading::Start if kind == TokenKind::Explain => Reading::Explain,
        Reading::Explain if kind == TokenKind::Query => Reading::Query,
        Reading::Query if kind == TokenKind::Plan => Reading::Plan,
        Reading::Start | Reading::Explain | Reading::Plan if kind == TokenKind::Create => {
            Reading::Create
        }
        Reading::Create if kind == TokenKind::Trigger => Reading::Body,
        Reading::Body | Reading::Semicolon if kind == TokenKind::Semicolon => Reading::Semicolon,
        Reading::Semicolon if kind == TokenKind::End => Reading::End,
        Reading::Body | Reading::Semicolon | Reading::End => Reading::Body,
        _ => Reading::Other,
    }
}

/// Whether a piece is the `;` that ends the statement.
pub(crate) fn is_end(reading: Reading, piece: Piece) -> bool
    ensures { result ≡ is_end reading piece }
{
    match piece {
        Piece::Lexeme(kind, _) => kind == TokenKind::Semicolon && ends_at_semicolon(reading),
        _ => false,
    }
}

/// What has been read behind a piece that does not end the statement.
pub(crate) fn behind_piece(reading: Reading, piece: Piece) -> Reading
    ensures { result ≡ behind_piece reading piece }
{
    match piece {
        Piece::Blank(_) => reading,
        Piece::Lexeme(kind, _) => after(reading, kind),
        Piece::Parameter(_, _) => after(reading, TokenKind::Parameter),
    }
}
