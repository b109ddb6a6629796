// Leaves of expressions, and what may not stand everywhere.
ghost use Rattle.std.specs.Prelude.{◌≡◌, codes, IfOk};
ghost use Rattle.bound_tree.specs.Exprs as e;
ghost use Rattle.sql_bound.specs.Answers.{Answers, OnlyMem, Refuses};
ghost use Rattle.sql_bound.specs.Expressions.{if_allowed, text_at};
ghost use Rattle.sql_bound.specs.Operands.{over};
ghost use Rattle.sql_words.specs.Spelled.{name_at};
ghost use Rattle.std.specs.Prelude.{[], Ok, unwrap_or};
ghost use Rattle.eng_value.specs.declared.cause.Cause.TheVariants as cause;

use crate::dotted::text_at;
use crate::scope::Scope;
use bind_name::name;
use bind_operand::plain;
use bound_tree::BoundExpr;
use eng_value::{Cause, Text};
use sql_bound::Operand;
use sql_tree::Token;
use std::alloc::Global;

/// The name that a token stands for.
pub(crate) fn named(alloc: Global, text: &str, token: &Token) -> Result<Text, Cause>
    ensures ok { IfOk result (λ n. n ≡ name_at text.now token.now) }
    ensures mem { OnlyMem result }
{
    match name(alloc, text, token) {
        Ok(name) => Ok(name),
        Err(_) => Err(Cause::Mem),
    }
}

/// It may not stand there.
pub(crate) fn misused<T>(alloc: Global, name: &str) -> Result<T, Cause>
    ensures { Refuses (cause.Misuse name.now) result }
{
    match Text::from_str(alloc, name) {
        Ok(name) => Err(Cause::Misuse(name)),
        Err(_) => Err(Cause::Mem),
    }
}

/// A parameter, where one may stand.
pub(crate) fn parameter(alloc: Global, scope: &Scope<'_>, token: &Token) -> Result<Operand, Cause>
    ensures { Answers (if_allowed scope.now.allowed.parameters (codes "?") (Ok (over [] (e.Parameter (unwrap_or token.now.parameter 0))))) result }
{
    if !scope.allowed.parameters {
        return misused(alloc, "?");
    }
    let number = match token.parameter {
        Some(number) => u32::from(number),
        None => 0,
    };
    Ok(plain(BoundExpr::parameter(number)))
}

/// RAISE(IGNORE).
pub(crate) fn raise_ignore(alloc: Global, scope: &Scope<'_>) -> Result<Operand, Cause>
    ensures { Answers (if_allowed scope.now.allowed.raises (codes "RAISE") (Ok (over [] e.RaiseIgnore))) result }
{
    raise(alloc, scope, BoundExpr::raise_ignore())
}

/// RAISE, where it may stand.
fn raise(alloc: Global, scope: &Scope<'_>, tree: BoundExpr) -> Result<Operand, Cause>
    ensures { Answers (if_allowed scope.now.allowed.raises (codes "RAISE") (Ok (over [] tree))) result }
{
    if !scope.allowed.raises {
        return misused(alloc, "RAISE");
    }
    Ok(plain(tree))
}

/// RAISE(ABORT, text).
pub(crate) fn raise_abort(alloc: Global, scope: &Scope<'_>, token: &Token) -> Result<Operand, Cause>
    ensures { Answers (if_allowed scope.now.allowed.raises (codes "RAISE") (Ok (over [] (e.RaiseAbort (text_at scope.now.text token.now))))) result }
{
    let text = text_at(alloc, scope.text, token)?;
    raise(alloc, scope, BoundExpr::raise_abort(text))
}
