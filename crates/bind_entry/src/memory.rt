// Want of memory as a refusal.
ghost use Rattle.std.specs.Prelude.{◌≡◌, ◌∷◌, ◌++◌, [], IfOk, OnOk};
ghost use Rattle.sql_bound.specs.Answers.{OnlyMem};
ghost use Rattle.sql_words.specs.Spelled.{name_at};

use eng_value::{Cause, Text};
use sql_tree::Token;
use sqlite_items::Items;
use std::alloc::Global;

/// A place as bound trees count places. One that is too large is want of memory: no list is so long.
pub fn small(place: usize) -> Result<u32, Cause>
    ensures ok { IfOk result (λ n. n ≡ place) }
    ensures mem { OnlyMem result }
{
    match u32::try_from(place) {
        Ok(number) => Ok(number),
        Err(_) => Err(Cause::Mem),
    }
}

/// Puts one more behind the others.
pub fn put<T: Drop>(items: &mut Items<T>, item: T) -> Result<(), Cause>
    ensures ok { OnOk result (items.new ≡ items.old ++ item ∷ []) }
    ensures mem { OnlyMem result }
{
    match items.push(item) {
        Ok(()) => Ok(()),
        Err(_) => Err(Cause::Mem),
    }
}

/// The name that a token of the text stands for.
pub fn name(alloc: Global, text: &str, token: &Token) -> Result<Text, Cause>
    ensures ok { IfOk result (λ n. n ≡ name_at text.now token.now) }
    ensures mem { OnlyMem result }
{
    match bind_name::name(alloc, text, token) {
        Ok(name) => Ok(name),
        Err(_) => Err(Cause::Mem),
    }
}

/// A copy of a text.
pub fn copied(text: &Text) -> Result<Text, Cause>
    ensures ok { IfOk result (λ copy. copy ≡ text.now) }
    ensures mem { OnlyMem result }
{
    match text.clone() {
        Ok(copy) => Ok(copy),
        Err(_) => Err(Cause::Mem),
    }
}
