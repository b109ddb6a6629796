// Texts that are made of others.
ghost use Rattle.std.specs.Prelude.{◌≡◌, IfOk};
ghost use Rattle.sql_bound.specs.Answers.{OnlyMem};
ghost use Rattle.sql_bound.specs.Expressions.{text_at};
ghost use Rattle.sql_words.specs.Names.{dotted};

use bind_name::literal;
use eng_value::{Cause, Text, Value};
use sql_tree::{Token, TokenKind};
use sql_words::Literal;
use std::alloc::{AllocError, Global};

/// A table's name and a column's, with a point between them.
pub(crate) fn dotted(alloc: Global, table: &str, name: &str) -> Result<Text, Cause>
    ensures ok { IfOk result (λ t. t ≡ dotted table.now name.now) }
    ensures mem { OnlyMem result }
{
    match joined(alloc, table, name) {
        Ok(text) => Ok(text),
        Err(_) => Err(Cause::Mem),
    }
}

fn joined(alloc: Global, table: &str, name: &str) -> Result<Text, AllocError>
    ensures { IfOk result (λ t. t ≡ dotted table.now name.now) }
{
    let mut both = String::from_str(alloc, table)?;
    both.push_str(".")?;
    both.push_str(name)?;
    Ok(Text::new(both))
}

/// The text of a literal.
pub(crate) fn text_at(alloc: Global, text: &str, token: &Token) -> Result<Text, Cause>
    ensures ok { IfOk result (λ t. t ≡ text_at text.now token.now) }
    ensures mem { OnlyMem result }
{
    let quoted = Token {
        kind: TokenKind::Text,
        span: token.span,
        parameter: None,
    };
    match literal(alloc, text, &quoted)? {
        Literal::Value(Value::Text(text)) => Ok(text),
        _ => Err(Cause::Mem),
    }
}
