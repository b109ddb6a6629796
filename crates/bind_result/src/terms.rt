// What GROUP BY and ORDER BY ask of a term as a whole (SELECT, sections 2.3 and 4).
ghost use Rattle.std.specs.Prelude.{◌≡◌, IfOk};
ghost use Rattle.sql_bound.specs.Answers.{OnlyMem};
ghost use Rattle.sql_words.specs.Spelled.{literal_at};
ghost use Rattle.sql_bound.specs.Expressions.{literal_term};
ghost use Rattle.sql_bound.specs.Results.{place_named};
ghost use Rattle.sql_bound.specs.Trees.{of_expr};
ghost use Rattle.bind_result.specs.Terms.{form_meant, place_meant};

use bind_column::place_named;
use bind_name::literal;
use eng_value::Cause;
use sql_tree::{Expr, Token, TokenKind};
use std::alloc::Global;

/// A term as a whole: a number, a name, or any other expression.
#[derive(Clone, Copy)]
pub enum TermForm {
    Number(Token),
    Name(Token),
    Other,
}

fn form_of_literal(token: &Token) -> TermForm
    ensures { form_meant result ≡ literal_term token.now }
{
    if token.kind == TokenKind::Number {
        TermForm::Number(*token)
    } else {
        TermForm::Other
    }
}

/// What an expression is as a term.
#[tactic(auto, using(crate::proofs::TermLaws::term_laws))]
pub fn term_form(e: &Expr) -> TermForm
    ensures { form_meant result ≡ (of_expr e.now).term }
{
    match e {
        Expr::Literal(token) => form_of_literal(token),
        Expr::Parameter(_) => TermForm::Other,
        Expr::Column(token) => TermForm::Name(*token),
        Expr::TableColumn(_, _) => TermForm::Other,
        Expr::Unary(_, _) => TermForm::Other,
        Expr::Binary(_, _, _) => TermForm::Other,
        Expr::Between(_, _, _) => TermForm::Other,
        Expr::Like(_, _, _) => TermForm::Other,
        Expr::In(_, _) => TermForm::Other,
        Expr::InQuery(_, _) => TermForm::Other,
        Expr::Subquery(_) => TermForm::Other,
        Expr::Exists(_) => TermForm::Other,
        Expr::Collate(_, _) => TermForm::Other,
        Expr::Cast(_, _) => TermForm::Other,
        Expr::Call(_, _, _, _) => TermForm::Other,
        Expr::Case(_, _, _) => TermForm::Other,
        Expr::RaiseIgnore => TermForm::Other,
        Expr::RaiseAbort(_) => TermForm::Other,
    }
}

/// The place that a number names, if it is a whole one, which may be no place at all.
pub(crate) fn place_at(
    alloc: Global,
    text: &str,
    token: &Token,
) -> Result<Option<Option<u64>>, Cause>
    ensures ok { IfOk result (λ p. p ≡ place_named (literal_at text.now token.now)) }
    ensures mem { OnlyMem result }
{
    let number = literal(alloc, text, token)?;
    Ok(place_named(&number))
}

/// The place that an expression names, if it is a whole number, which may be no place at all. Only memory can fail.
pub fn place_of(alloc: Global, text: &str, e: &Expr) -> Result<Option<Option<u64>>, Cause>
    ensures ok { IfOk result (λ p. p ≡ place_meant text.now (of_expr e.now).term) }
    ensures mem { OnlyMem result }
{
    match term_form(e) {
        TermForm::Number(token) => place_at(alloc, text, &token),
        TermForm::Name(_) => Ok(None),
        TermForm::Other => Ok(None),
    }
}
