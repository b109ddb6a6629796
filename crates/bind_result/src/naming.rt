// How results are called (SELECT, section 2.4).
ghost use Rattle.std.specs.Prelude.{◌≡◌, ◌++◌, ◌∷◌, [], IfOk, OnOk, unwrap_or};
ghost use Rattle.eng_value.specs.declared.cause.Cause.TheVariants as cause;
ghost use Rattle.eng_value.specs.declared.cause.NameKind.TheVariants as kind;
ghost use Rattle.sql_words.specs.Refusals.{or_else};
ghost use Rattle.sql_words.specs.Spelled.{as_text};
ghost use Rattle.sql_bound.specs.Answers.{OnlyMem, Refuses};
ghost use Rattle.sql_bound.specs.Results.{given_name, one_shown, result_column, text_of, with_result};
ghost use Rattle.sql_bound.specs.Trees.{of_spanned};
ghost use Rattle.bind_result.specs.Shows.{Changes, one_put, shown_as};

use bind_column::{grouped_checked, result_column};
use bind_name::{name, slice_of};
use bind_scope::{copied_text, pushed};
use bound_tree::BoundKey;
use eng_value::{Cause, NameKind, Text};
use sql_bound::{Operand, ScopeItem, Shown};
use sql_tree::{Span, SpannedExpr, Token, TokenKind};
use std::alloc::Global;
use std::str;

/// The text of these bytes. Those of tokens are UTF-8; others would be no text at all.
fn text_of_bytes(alloc: Global, bytes: &[u8]) -> Result<Text, Cause>
    ensures ok { IfOk result (λ t. t ≡ as_text bytes.now) }
    ensures mem { OnlyMem result }
{
    match str::from_utf8(bytes) {
        Ok(text) => bind_scope::text_of(alloc, text),
        Err(_) => bind_scope::text_of(alloc, ""),
    }
}

/// The text from the first place to the last one. Only memory can fail.
pub fn text_of(alloc: Global, text: &str, span: Span) -> Result<Text, Cause>
    ensures ok { IfOk result (λ t. t ≡ text_of text.now span) }
    ensures mem { OnlyMem result }
{
    let token = Token {
        kind: TokenKind::Text,
        span,
        parameter: None,
    };
    text_of_bytes(alloc, slice_of(text, &token))
}

/// Refuses what is written there as an unknown column.
pub fn unknown_text<T>(alloc: Global, text: &str, span: Span) -> Result<T, Cause>
    ensures { Refuses (cause.Unknown kind.Column (text_of text.now span)) result }
{
    let written = text_of(alloc, text, span)?;
    Err(Cause::Unknown(NameKind::Column, written))
}

/// What a result is called: by its alias, else its column, else its text.
fn name_of_result(
    alloc: Global,
    text: &str,
    span: Span,
    alias: &Option<Token>,
    a: &Operand,
) -> Result<Text, Cause>
    ensures ok { IfOk result (λ n. n ≡ unwrap_or (or_else (given_name text.now alias.now) a.now.name) (text_of text.now span)) }
    ensures mem { OnlyMem result }
{
    match alias {
        Some(token) => Ok(name(alloc, text, token)?),
        None => match &a.name {
            Some(name) => copied_text(name),
            None => text_of(alloc, text, span),
        },
    }
}

/// A result more, under this name. Only memory can fail.
pub(crate) fn put(a: Operand, name: Text, shown: &mut Shown) -> Result<(), Cause>
    ensures ok { OnOk result (shown.new ≡ shown_as name a shown.old) }
    ensures mem { OnlyMem result }
{
    pushed(&mut shown.columns, result_column(name, &a))?;
    pushed(&mut shown.trees, a.tree)
}

/// An expression more that is shown, in which no column is bare where the query is grouped.
pub fn show(
    alloc: Global,
    text: &str,
    own: &[ScopeItem],
    grouped: bool,
    keys: &[BoundKey],
    spanned: &SpannedExpr,
    alias: &Option<Token>,
    a: Operand,
    shown: &mut Shown,
) -> Result<(), Cause>
    ensures { Changes (one_put grouped keys.now own.now (one_shown text.now (of_spanned spanned.now) alias.now) a shown.old) result shown.new }
{
    grouped_checked(alloc, grouped, keys, own, &a.tree)?;
    let name = name_of_result(alloc, text, spanned.text, alias, &a)?;
    put(a, name, shown)
}
