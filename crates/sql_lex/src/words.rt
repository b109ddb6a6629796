// Words and keywords ("SQLite Keywords"). `$` stands only inside words.
ghost use Rattle.std.specs.Prelude.{◌≡◌, ◌≤◌, length};
ghost use Rattle.std.specs.List.{take_while};
ghost use Rattle.std.specs.Str.{str_eq_ignore_ascii_case};
ghost use Rattle.sql_lex.specs.Pieces.{begins_word, is_word_byte, kind_where, word_kind, word_piece, word_width};

use crate::keywords::KEYWORDS;
use crate::piece::Piece;
use sql_tree::TokenKind;

/// Whether a word can begin with a byte: a letter, `_` or a byte of a character above U+007F.
pub(crate) fn begins_word(byte: u8) -> bool
    ensures { result ≡ begins_word byte }
{
    byte.is_ascii_alphabetic() || byte == b'_' || byte >= 128
}

// Whether a word can go on with a byte.
fn is_word_byte(byte: u8) -> bool
    ensures { result ≡ is_word_byte byte }
{
    begins_word(byte) || byte.is_ascii_digit() || byte == b'$'
}

/// How many bytes the text begins with that words go on with.
pub(crate) fn word_width(bytes: &[u8]) -> usize
    ensures value { result ≡ word_width bytes.now }
    ensures within { result ≤ length bytes.now }
{
    bytes.iter().take_while(|byte| is_word_byte(**byte)).count()
}

// Whether a word is a keyword, in whatever case.
fn is_same(keyword: &str, word: &[u8]) -> bool
    ensures { result ≡ str_eq_ignore_ascii_case keyword.now word.now }
{
    keyword.as_bytes().eq_ignore_ascii_case(word)
}

// The kind of the first of these keywords that is the word.
fn kind_in(keywords: &[(&str, TokenKind)], word: &[u8]) -> TokenKind
    ensures { result ≡ kind_where (λ k. str_eq_ignore_ascii_case k.0.now word.now) (λ k. k.1) keywords.now }
{
    for (name, kind) in keywords {
        if is_same(name, word) {
            return *kind;
        }
    }
    TokenKind::Word
}

// What a word is: a keyword, or none. No keyword has one letter, and many names have.
fn word_kind(word: &[u8]) -> TokenKind
    ensures { result ≡ word_kind word.now }
{
    if word.len() < 2 {
        TokenKind::Word
    } else {
        kind_in(&KEYWORDS, word)
    }
}

/// The word that a text begins with.
#[inline(never)]
pub(crate) fn word(bytes: &[u8]) -> Piece
    ensures { result ≡ word_piece bytes.now }
{
    let width = word_width(bytes);
    Piece::Lexeme(word_kind(&bytes[..width]), width)
}
