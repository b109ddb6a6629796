// Places in a text: where parsing fails, and where a tree stands.

ghost use Rattle.std.specs.Prelude.{◌≡◌};
ghost use Rattle.sql_grammar.specs.Answers.{place};
ghost use Rattle.sql_grammar.specs.Grammar.{span_of};
ghost use Rattle.sql_grammar.specs.Rules.{before};
ghost use Rattle.parse_cursor.specs.Whole as spec;

use crate::error::ParseError;
use sql_grammar::Limit;
use sql_tree::{Span, Token};

/// Why a text is not what it is parsed as.
#[derive(Clone, Copy, PartialEq, Eq)]
pub enum Failure {
    Memory,
    /// The byte of the first token that cannot stand there; the number of bytes, if more are missing.
    Syntax(usize),
    /// The byte of the first token that passes this limit.
    TooMuch(Limit, usize),
}

/// The byte where these tokens begin, the end of a text of so many bytes counting as one.
pub fn place(rest: &[Token], len: usize) -> usize
    ensures { result ≡ place len rest.now }
{
    match rest {
        [token, ..] => token.span.start,
        [] => len,
    }
}

/// Why a text fails, where parsing stopped at this byte.
pub fn failure_at(error: ParseError, at: usize) -> Failure
    ensures { result ≡ spec.failure_of error at }
{
    match error {
        ParseError::Memory => Failure::Memory,
        ParseError::Syntax => Failure::Syntax(at),
        ParseError::TooMuch(limit) => Failure::TooMuch(limit, at),
    }
}

/// The bytes from the first of the tokens in front of a rest to the last one.
pub fn text_before(tokens: &[Token], rest: &[Token]) -> Span
    ensures { result ≡ span_of (before tokens.now rest.now) }
{
    text_of(&tokens[..tokens.len().saturating_sub(rest.len())])
}

/// The bytes from the first of these tokens to the last one.
fn text_of(tokens: &[Token]) -> Span
    ensures { result ≡ span_of tokens.now }
{
    match tokens {
        [] => Span { start: 0, end: 0 },
        [first, ..] => Span {
            start: first.span.start,
            end: tokens[tokens.len() - 1].span.end,
        },
    }
}
