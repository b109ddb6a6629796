// Terms of keys.
ghost use Rattle.std.specs.Prelude.{◌≡◌, IfOk};
ghost use Rattle.vm_listing.specs.Words.{key_word, keys_word, source_word, term_word, terms_word};

use crate::pieces::text_of;
use crate::words::{collation_mark, order_mark};
use eng_index::{KeyTerm, TermSource};
use eng_value::Text;
use itoa::Buffer;
use sqlite_items::Items;
use std::alloc::{AllocError, Global};

fn source_word(alloc: Global, source: TermSource) -> Result<Text, AllocError>
    ensures { IfOk result (λ text. text ≡ source_word source) }
{
    match source {
        TermSource::Rowid => Text::from_str(alloc, "rowid"),
        TermSource::Column(column) => Text::from_str(alloc, Buffer::new().format(column)),
    }
}

fn term_word(alloc: Global, term: KeyTerm) -> Result<Text, AllocError>
    ensures { IfOk result (λ text. text ≡ term_word term) }
{
    let source = source_word(alloc, term.source)?;
    text_of(
        alloc,
        &[
            "(",
            source.as_str(),
            collation_mark(term.collation),
            order_mark(term.descending),
            ")",
        ],
    )
}

pub(crate) fn terms_word(alloc: Global, terms: &[KeyTerm]) -> Result<Text, AllocError>
    ensures { IfOk result (λ text. text ≡ terms_word terms.now) }
{
    let mut shown = String::new(alloc);
    for term in terms {
        shown.push_str(term_word(alloc, *term)?.as_str())?;
    }
    Ok(Text::new(shown))
}

fn key_word(alloc: Global, terms: &[KeyTerm]) -> Result<Text, AllocError>
    ensures { IfOk result (λ text. text ≡ key_word terms.now) }
{
    let terms = terms_word(alloc, terms)?;
    text_of(alloc, &["[", terms.as_str(), "]"])
}

pub(crate) fn keys_word(alloc: Global, keys: &[Items<KeyTerm>]) -> Result<Text, AllocError>
    ensures { IfOk result (λ text. text ≡ keys_word keys.now) }
{
    let mut shown = String::new(alloc);
    for key in keys {
        shown.push_str(key_word(alloc, key.as_slice())?.as_str())?;
    }
    Ok(Text::new(shown))
}
