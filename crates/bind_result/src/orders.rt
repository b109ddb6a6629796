// ORDER BY of one SELECT, but for its expressions (SELECT, section 4).
ghost use Rattle.std.specs.Prelude.{◌≡◌, map, IfOk, unwrap_or};
ghost use Rattle.sql_words.specs.Collations.{by_bytes};
ghost use Rattle.sql_words.specs.Spelled.{name_at};
ghost use Rattle.sql_bound.specs.Answers.{Answers, OnlyMem};
ghost use Rattle.sql_bound.specs.Operands.{collation_of};
ghost use Rattle.sql_bound.specs.Orders.{by_result, expression_term, place_given};
ghost use Rattle.sql_bound.specs.Results.{shown_in};
ghost use Rattle.sql_bound.specs.Trees.{of_expr, of_result, of_term};
ghost use Rattle.bind_result.specs.Terms.{named_place, numbered_place, select_place, term_checked};
ghost use Rattle.bind_result.specs.declared.orders.TermPlace.TheVariants.{Else};

use crate::numbering::place_given;
use crate::terms::{TermForm, place_at, term_form};
use bind_column::{by_result, grouped_checked, term_with};
use bind_name::name;
use bind_operand::collation_of;
use bound_tree::{BoundTerm, TermKey};
use eng_value::{Built, Cause, Collation};
use sql_bound::{BoundSelect, Operand, ResultColumn as GivenColumn, ScopeItem};
use sql_tree::{Expr, OrderingTerm, ResultColumn, Token};
use sqlite_items::at;
use std::alloc::Global;

/// The result by which a term orders: that in this place, none though a result is meant, or it is an expression.
#[derive(Clone, Copy)]
pub enum TermPlace {
    At(usize),
    Nowhere,
    Else,
}

/// The result that a number names.
pub(crate) fn numbered_place(columns: &[GivenColumn], place: Option<Option<u64>>) -> TermPlace
    ensures { result ≡ numbered_place columns.now place }
{
    match place {
        None => TermPlace::Else,
        Some(None) => TermPlace::Nowhere,
        Some(Some(place)) => match at(columns, place as usize) {
            Some(_) => TermPlace::At(place as usize),
            None => TermPlace::Nowhere,
        },
    }
}

/// The result that gets the name behind AS.
fn given_place(
    alloc: Global,
    text: &str,
    own: &[ScopeItem],
    results: &[ResultColumn],
    token: &Token,
) -> Result<TermPlace, Cause>
    ensures ok { IfOk result (λ p. p ≡ named_place Else (place_given (name_at text.now token.now) (shown_in text.now own.now (map of_result results.now)))) }
    ensures mem { OnlyMem result }
{
    let called = name(alloc, text, token)?;
    match place_given(alloc, text, own, results, called.as_str())? {
        Some(place) => Ok(TermPlace::At(place)),
        None => Ok(TermPlace::Else),
    }
}

/// The result by which a term of one SELECT orders: a whole number names a result by its place, and a name as the whole term one that
/// gets it behind AS. Only memory can fail.
pub fn term_place(
    alloc: Global,
    text: &str,
    own: &[ScopeItem],
    results: &[ResultColumn],
    columns: &[GivenColumn],
    e: &Expr,
) -> Result<TermPlace, Cause>
    ensures ok { IfOk result (λ p. p ≡ select_place text.now columns.now (shown_in text.now own.now (map of_result results.now)) (of_expr e.now).term) }
    ensures mem { OnlyMem result }
{
    match term_form(e) {
        TermForm::Number(token) => Ok(numbered_place(columns, place_at(alloc, text, &token)?)),
        TermForm::Name(token) => given_place(alloc, text, own, results, &token),
        TermForm::Other => Ok(TermPlace::Else),
    }
}

/// A term that is a result, under its collation. Only memory can fail.
pub fn result_term(
    term: &OrderingTerm,
    columns: &[GivenColumn],
    place: usize,
) -> Result<BoundTerm, Cause>
    ensures ok { IfOk result (λ t. t ≡ by_result (of_term term.now) columns.now place) }
    ensures mem { OnlyMem result }
{
    by_result(term.descending, term.nulls, columns, place)
}

/// A collation, or else BINARY.
pub(crate) fn or_binary(collation: Option<Collation>) -> Collation
    ensures { result ≡ unwrap_or collation by_bytes }
{
    match collation {
        Some(collation) => collation,
        None => Collation::Built(Built::Binary),
    }
}

/// A term that is an expression, under its collation.
fn expression_term(term: &OrderingTerm, a: Operand) -> BoundTerm
    ensures { result ≡ expression_term (of_term term.now) a }
{
    let collation = or_binary(collation_of(&a));
    term_with(
        term.descending,
        term.nulls,
        TermKey::Expression(a.tree),
        collation,
    )
}

/// A term that is an expression, in which no column is bare where the query is grouped.
pub fn checked_term(
    alloc: Global,
    select: &BoundSelect,
    term: &OrderingTerm,
    a: Operand,
) -> Result<BoundTerm, Cause>
    ensures { Answers (term_checked select.now (of_term term.now) a) result }
{
    grouped_checked(
        alloc,
        select.grouped,
        select.keys.as_slice(),
        select.found.level.as_slice(),
        &a.tree,
    )?;
    Ok(expression_term(term, a))
}
