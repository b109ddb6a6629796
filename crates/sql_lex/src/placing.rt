// Pieces as tokens, by where they stand and what parameters came before.
ghost use Rattle.std.specs.Prelude.{◌≡◌, ◌≤◌, ◌+◌, ◌++◌, [], IfOk};
ghost use Rattle.sql_lex.specs.Tokens.{in_front, largest_in, number_behind, numbered, plain, token_in, width_of, within};

use crate::parameters::is_parameter;
use crate::piece::Piece;
use sql_tree::{Span, Token, TokenKind};
use std::alloc::AllocError;

/// How many bytes a piece takes.
pub(crate) fn width_of(piece: Piece) -> usize
    ensures { result ≡ width_of piece }
{
    match piece {
        Piece::Blank(width) => width,
        Piece::Lexeme(_, width) => width,
        Piece::Parameter(_, width) => width,
    }
}

fn plain(kind: TokenKind, start: usize, width: usize) -> Token
    requires { start + width ≤ usize.MAX }
    ensures { result ≡ plain kind start width }
{
    Token {
        kind,
        span: Span {
            start,
            end: start + width,
        },
        parameter: None,
    }
}

// The parameter of a number. Past 999 it stands in no statement.
fn numbered(number: u16, start: usize, width: usize) -> Token
    requires { start + width ≤ usize.MAX }
    ensures { result ≡ numbered number start width }
{
    if is_parameter(number) {
        Token {
            kind: TokenKind::Parameter,
            span: Span {
                start,
                end: start + width,
            },
            parameter: Some(number),
        }
    } else {
        plain(TokenKind::Illegal, start, width)
    }
}

// The number of a parameter: the one that is written, or the next one behind the largest so far.
fn number_behind(largest: u16, number: Option<u16>) -> u16
    requires { largest ≤ 999 }
    ensures { result ≡ number_behind largest number }
{
    match number {
        Some(number) => number,
        None => largest + 1,
    }
}

/// The token of a piece that starts at a place, with the largest number of a parameter in front of it. A blank has none.
pub(crate) fn token_in(start: usize, largest: u16, piece: Piece) -> Option<Token>
    requires largest { largest ≤ 999 }
    requires end { start + width_of piece ≤ usize.MAX }
    ensures { result ≡ token_in start largest piece }
{
    match piece {
        Piece::Blank(_) => None,
        Piece::Lexeme(kind, width) => Some(plain(kind, start, width)),
        Piece::Parameter(number, width) => {
            Some(numbered(number_behind(largest, number), start, width))
        }
    }
}

fn within(largest: u16, number: u16) -> u16
    requires { largest ≤ 999 }
    ensures value { result ≡ within largest number }
    ensures small { result ≤ 999 }
{
    if is_parameter(number) {
        largest.max(number)
    } else {
        largest
    }
}

/// The largest number of a parameter behind a piece.
pub(crate) fn largest_in(largest: u16, piece: Piece) -> u16
    requires { largest ≤ 999 }
    ensures value { result ≡ largest_in largest piece }
    ensures small { result ≤ 999 }
{
    match piece {
        Piece::Blank(_) => largest,
        Piece::Lexeme(_, _) => largest,
        Piece::Parameter(number, _) => within(largest, number_behind(largest, number)),
    }
}

/// Puts a token behind the others, if there is one.
pub(crate) fn put(tokens: &mut Vec<Token>, token: Option<Token>) -> Result<(), AllocError>
    ensures { IfOk result (λ _. tokens.new.items ≡ tokens.old.items ++ in_front token []) }
{
    if let Some(token) = token {
        tokens.push(token)?;
    }
    Ok(())
}
