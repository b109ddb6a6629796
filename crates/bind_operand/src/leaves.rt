// Operands without operands, and COLLATE.
ghost use Rattle.std.specs.Prelude.{◌≡◌, [], IfOk};
ghost use Rattle.sql_bound.specs.Answers.{OnlyMem};
ghost use Rattle.sql_bound.specs.Operands.{collated, column_operand, form_of, literal_operand, over};
ghost use Rattle.bind_operand.specs.Bare.{bare};

use bind_name::{is_least_magnitude, literal, slice_of};
use bound_tree::BoundExpr;
use eng_value::{Affinity, Cause, Collation};
use sql_bound::{Form, Operand, ScopeColumn};
use sql_tree::{Token, TokenKind};
use std::alloc::Global;

/// An operand over others, of which the leftmost COLLATE is told: it has no affinity and is no column.
pub(crate) fn bare(explicit: Option<Collation>, tree: BoundExpr) -> Operand
    ensures { result ≡ bare explicit tree }
{
    Operand {
        tree,
        affinity: Affinity::None,
        explicit,
        column: None,
        form: Form::Plain,
        name: None,
    }
}

/// An operand over no others: a parameter, EXISTS, a query's value, RAISE.
pub fn plain(tree: BoundExpr) -> Operand
    ensures { result ≡ over [] tree }
{
    bare(None, tree)
}

/// What operators ask of a literal.
fn form_of(text: &str, token: &Token) -> Form
    ensures { result ≡ form_of text.now token.now }
{
    match token.kind {
        TokenKind::True => Form::Truth(true),
        TokenKind::False => Form::Truth(false),
        TokenKind::Number if is_least_magnitude(slice_of(text, token)) => Form::LeastMagnitude,
        _ => Form::Plain,
    }
}

/// The literal of a token of the text. Only memory can fail.
pub fn literal_operand(alloc: Global, text: &str, token: &Token) -> Result<Operand, Cause>
    ensures ok { IfOk result (λ a. a ≡ literal_operand text.now token.now) }
    ensures mem { OnlyMem result }
{
    let value = literal(alloc, text, token)?;
    Ok(Operand {
        tree: BoundExpr::literal(value),
        affinity: Affinity::None,
        explicit: None,
        column: None,
        form: form_of(text, token),
        name: None,
    })
}

/// A column, as it is brought.
pub fn column_operand(column: ScopeColumn, tree: BoundExpr) -> Operand
    ensures { result ≡ column_operand column tree }
{
    Operand {
        tree,
        affinity: column.affinity,
        explicit: None,
        column: Some(column.collation),
        form: Form::Plain,
        name: Some(column.name),
    }
}

/// A column of the own FROM.
pub fn own_column(column: ScopeColumn) -> Operand
    ensures { result ≡ column_operand column column.tree }
{
    Operand {
        tree: column.tree,
        affinity: column.affinity,
        explicit: None,
        column: Some(column.collation),
        form: Form::Plain,
        name: Some(column.name),
    }
}

/// An operand with this collation: COLLATE keeps the value and the affinity.
pub fn collated(collation: Collation, a: Operand) -> Operand
    ensures { result ≡ collated collation a }
{
    Operand {
        tree: a.tree,
        affinity: a.affinity,
        explicit: Some(collation),
        column: a.column,
        form: Form::Plain,
        name: None,
    }
}
