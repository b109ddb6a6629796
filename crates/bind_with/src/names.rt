// Names as they are written in FROM and WITH.
ghost use Rattle.std.specs.Prelude.{◌≡◌, map, IfOk};
ghost use Rattle.bind_with.specs.Parts.{arguments_of};
ghost use Rattle.eng_value.specs.declared.cause.Cause.TheVariants as cause;
ghost use Rattle.sql_bound.specs.Answers.{OnlyMem, Refuses};
ghost use Rattle.sql_bound.specs.Froms.{called_by};
ghost use Rattle.sql_words.specs.Spelled.{name_at};

use bind_entry::name;
use bind_scope::{copied_text, pushed, text_of};
use eng_value::{Cause, Text};
use sql_tree::{Expr, Token};
use sqlite_items::Items;
use std::alloc::Global;

/// The same name once more, if there is one. Only memory can fail.
pub fn copied_name(name: &Option<Text>) -> Result<Option<Text>, Cause>
    ensures ok { IfOk result (λ copy. copy ≡ name.now) }
    ensures mem { OnlyMem result }
{
    match name {
        Some(text) => Ok(Some(copied_text(text)?)),
        None => Ok(None),
    }
}

/// The name behind AS, or else this one. Only memory can fail.
pub fn called_by(
    alloc: Global,
    text: &str,
    alias: &Option<Token>,
    called: &Option<Text>,
) -> Result<Option<Text>, Cause>
    ensures ok { IfOk result (λ n. n ≡ called_by text.now alias.now called.now) }
    ensures mem { OnlyMem result }
{
    match alias {
        Some(token) => Ok(Some(name(alloc, text, token)?)),
        None => copied_name(called),
    }
}

/// The names that tokens stand for. Only memory can fail.
pub fn names_of(alloc: Global, text: &str, tokens: &[Token]) -> Result<Items<Text>, Cause>
    ensures ok { IfOk result (λ names. names ≡ map (name_at text.now) tokens.now) }
    ensures mem { OnlyMem result }
{
    let mut names = Items::new(alloc);
    for token in tokens {
        let one = name(alloc, text, token)?;
        pushed(&mut names, one)?;
    }
    Ok(names)
}

/// The arguments in a table's parentheses, if it has some.
pub fn arguments_in(arguments: &Option<Items<Expr>>) -> &[Expr]
    ensures { result.now ≡ arguments_of arguments.now }
{
    match arguments {
        Some(arguments) => arguments.as_slice(),
        None => &[],
    }
}

/// What has this name may not stand there.
pub fn misused<T>(alloc: Global, name: &str) -> Result<T, Cause>
    ensures { Refuses (cause.Misuse name.now) result }
{
    let name = text_of(alloc, name)?;
    Err(Cause::Misuse(name))
}
