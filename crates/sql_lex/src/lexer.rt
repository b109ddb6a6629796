// The tokens of a statement's text.
ghost use Rattle.std.specs.Prelude.{◌≡◌, All, length, true, IfOk};
ghost use Rattle.std.specs.Str.{is_utf8};
ghost use Rattle.sql_lex.specs.Tokens.{InOrder, slice_of, tokens_of};

use crate::front::{behind, first_byte};
use crate::piece::front_piece;
use crate::placing::{largest_in, put, token_in, width_of};
use sql_tree::Token;
use std::alloc::{AllocError, Global};

/// How many tokens a statement usually has at most. They have room from the start, so that the list of few statements grows.
const USUAL_TOKENS: usize = 32;

/// The tokens of a text, in order (SQL As Understood By SQLite, "SQLite Keywords" and "Comment Syntax"; SQL Language Expressions,
/// "Literal Values" and "Parameters"). White space and comments are left out. What stands in no statement, as a text without its
/// closing quote, is a token of the kind `Illegal`. The time is at most as the length of the text. Each token's bytes are
/// characters of the text as they stand there, so that it may be cut at them.
///
/// An error is only that memory ran out.
pub fn tokens(alloc: Global, text: &str) -> Result<Vec<Token>, AllocError>
    ensures tokens { IfOk result (λ found. found.items ≡ tokens_of text.now) }
    ensures order { IfOk result (λ found. InOrder 0 (length text.now) found.items) }
    ensures characters { IfOk result (λ found. All (λ t. is_utf8 (slice_of text.now t) ≡ true) found.items) }
{
    let mut tokens = Vec::with_capacity(alloc, USUAL_TOKENS)?;
    let mut rest = text.as_bytes();
    let mut start: usize = 0;
    let mut largest: u16 = 0;
    while let Some((first, more)) = first_byte(rest) {
        let piece = front_piece(rest, first, more);
        put(&mut tokens, token_in(start, largest, piece))?;
        largest = largest_in(largest, piece);
        start += width_of(piece);
        rest = behind(rest, width_of(piece));
    }
    Ok(tokens)
}
