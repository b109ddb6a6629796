// Bytes of a text.
ghost use Rattle.std.specs.Prelude.{◌≡◌, take, drop};
ghost use Rattle.sql_lex.specs.Tokens.{slice_of};
ghost use Rattle.sql_words.specs.Spelled.{inside};

use sql_tree::Token;

/// So many bytes in front, or all.
fn front(bytes: &[u8], count: usize) -> &[u8]
    ensures { result.now ≡ take count bytes.now }
{
    &bytes[..count.min(bytes.len())]
}

/// What stands behind so many bytes, or nothing.
pub(crate) fn behind(bytes: &[u8], count: usize) -> &[u8]
    ensures { result.now ≡ drop count bytes.now }
{
    &bytes[count.min(bytes.len())..]
}

/// The bytes without the first and the last one.
pub fn inside(bytes: &[u8]) -> &[u8]
    ensures { result.now ≡ inside bytes.now }
{
    front(behind(bytes, 1), bytes.len().saturating_sub(2))
}

/// The bytes of a token.
pub fn slice_of<'a>(text: &'a str, token: &Token) -> &'a [u8]
    ensures { result.now ≡ slice_of text.now token.now }
{
    let start = token.span.start;
    front(
        behind(text.as_bytes(), start),
        token.span.end.saturating_sub(start),
    )
}
