// Names (SQLite Keywords).
ghost use Rattle.std.specs.Prelude.{◌≡◌, IfOk, IfSome};
ghost use Rattle.sql_words.specs.Spelled.{as_text, name_at, name_of};

use crate::quotes::{text_of, undoubled_text};
use crate::slices::{inside, slice_of};
use eng_value::Text;
use sql_tree::Token;
use std::alloc::{AllocError, Global};
use std::str;

/// The name that a token of the text stands for: without its quotes, if any. Only memory can fail.
pub fn name(alloc: Global, text: &str, token: &Token) -> Result<Text, AllocError>
    ensures { IfOk result (λ n. n ≡ name_at text.now token.now) }
{
    name_of(alloc, slice_of(text, token))
}

/// The name that these bytes stand for.
fn name_of(alloc: Global, bytes: &[u8]) -> Result<Text, AllocError>
    ensures { IfOk result (λ n. n ≡ as_text (name_of bytes.now)) }
{
    match bytes {
        [] => text_of(alloc, bytes),
        [first, ..] if *first == b'[' => text_of(alloc, inside(bytes)),
        [first, ..] if *first == b'"' || *first == b'`' => {
            undoubled_text(alloc, *first, inside(bytes))
        }
        _ => text_of(alloc, bytes),
    }
}

/// The name of a token without quotes, which stands in the text. Takes no memory.
pub fn plain_name<'a>(text: &'a str, token: &Token) -> Option<&'a str>
    ensures { IfSome result (λ n. n.now ≡ name_at text.now token.now) }
{
    let bytes = slice_of(text, token);
    match bytes {
        [] => None,
        [first, ..] if *first == b'[' || *first == b'"' || *first == b'`' => None,
        _ => utf8(bytes),
    }
}

fn utf8(bytes: &[u8]) -> Option<&str>
    ensures { IfSome result (λ n. n.now ≡ as_text bytes.now) }
{
    match str::from_utf8(bytes) {
        Ok(name) => Some(name),
        Err(_) => None,
    }
}
