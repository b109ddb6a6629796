// The affinities of types (Datatypes In SQLite, section 3.1).
ghost use Rattle.std.specs.Prelude.{◌≡◌, List, ℕ, [], ◌∷◌, map, is_some, codes, IfOk, IfSome};
ghost use Rattle.std.specs.List.{list_any};
ghost use Rattle.eng_text.specs.Texts.{folded, place_of};
ghost use Rattle.sql_words.specs.Types.{affinity_of_type, affinity_of_words};
ghost use Rattle.sql_words.specs.Spelled.{name_at};
ghost use Rattle.bind_name.specs.Types.{affinity_of_folded, holds};

use crate::names::{name, plain_name};
use eng_entry::is_same_name;
use eng_text::{find, fold};
use eng_value::{Affinity, Text};
use sql_tree::{Token, TypeName};
use sqlite_items::Items;
use std::alloc::{AllocError, Global};

/// The affinity of a type that is named in the text. Only memory can fail.
pub fn affinity_of_type(
    alloc: Global,
    text: &str,
    type_name: &TypeName,
) -> Result<Affinity, AllocError>
    ensures { IfOk result (λ a. a ≡ affinity_of_type text.now type_name.now) }
{
    match usual_type(text, type_name.words.as_slice()) {
        Some(affinity) => Ok(affinity),
        None => affinity_of_any(alloc, text, type_name),
    }
}

/// The affinity of a type of one word that is often met. Takes no memory.
fn usual_type(text: &str, words: &[Token]) -> Option<Affinity>
    ensures { IfSome result (λ a. a ≡ affinity_of_words (map (name_at text.now) words.now)) }
{
    match words {
        [word] => match plain_name(text, word) {
            Some(name) => usual_affinity(name),
            None => None,
        },
        _ => None,
    }
}

#[tactic(auto, using(crate::proofs::Affinities::usual))]
fn usual_affinity(name: &str) -> Option<Affinity>
    ensures { IfSome result (λ a. a ≡ affinity_of_words (name.now ∷ [])) }
{
    if is_same_name(b"integer", name.as_bytes()) || is_same_name(b"int", name.as_bytes()) {
        Some(Affinity::Integer)
    } else if is_same_name(b"text", name.as_bytes()) {
        Some(Affinity::Text)
    } else if is_same_name(b"real", name.as_bytes()) {
        Some(Affinity::Real)
    } else {
        None
    }
}

/// The same of any type.
#[tactic(auto, using(crate::proofs::Affinities::affinity_of_type_is))]
fn affinity_of_any(alloc: Global, text: &str, type_name: &TypeName) -> Result<Affinity, AllocError>
    ensures { IfOk result (λ a. a ≡ affinity_of_type text.now type_name.now) }
{
    let words = folded_names(alloc, text, type_name.words.as_slice())?;
    Ok(affinity_of_folded(words.as_slice()))
}

/// The names of the tokens, in lower case.
fn folded_names(alloc: Global, text: &str, tokens: &[Token]) -> Result<Items<Text>, AllocError>
    ensures { IfOk result (λ names. names ≡ map (λ t. folded (name_at text.now t)) tokens.now) }
{
    let mut names = Items::new(alloc);
    for token in tokens {
        names.push(folded_name(alloc, text, token)?)?;
    }
    Ok(names)
}

/// The name of a token, in lower case.
fn folded_name(alloc: Global, text: &str, token: &Token) -> Result<Text, AllocError>
    ensures { IfOk result (λ n. n ≡ folded (name_at text.now token.now)) }
{
    let name = name(alloc, text, token)?;
    Ok(Text::new(fold(alloc, name.as_str())?))
}

/// Whether the part stands in some word.
fn holds(words: &[Text], part: &[u8]) -> bool
    ensures { result ≡ holds words.now part.now }
{
    words.iter().any(|w| find(w.as_bytes(), part).is_some())
}

/// The first rule that fits words in lower case.
fn affinity_of_folded(words: &[Text]) -> Affinity
    ensures { result ≡ affinity_of_folded words.now }
{
    if words.is_empty() {
        Affinity::Blob
    } else if holds(words, b"int") {
        Affinity::Integer
    } else if holds(words, b"char") || holds(words, b"clob") || holds(words, b"text") {
        Affinity::Text
    } else if holds(words, b"blob") {
        Affinity::Blob
    } else if holds(words, b"real") || holds(words, b"floa") || holds(words, b"doub") {
        Affinity::Real
    } else {
        Affinity::Numeric
    }
}
