// Compounds: their order, and the collations by which their parts are compared (SELECT, sections 3 and 4).
ghost use Rattle.std.specs.Prelude.{◌≡◌, map, drop, IfOk};
ghost use Rattle.sql_words.specs.Spelled.{name_at};
ghost use Rattle.sql_bound.specs.Answers.{Answers, OnlyMem};
ghost use Rattle.sql_bound.specs.Compounds.{compound_with};
ghost use Rattle.sql_bound.specs.Orders.{compound_term, terms_of_compound};
ghost use Rattle.sql_bound.specs.Trees.{of_compound, of_expr, of_term};
ghost use Rattle.bind_result.specs.Terms.{compound_place};

use crate::naming::unknown_text;
use crate::orders::{TermPlace, numbered_place, result_term};
use crate::terms::{TermForm, place_at, term_form};
use bind_column::{collations_of, place_called};
use bind_name::name;
use bind_scope::pushed;
use bound_tree::{BoundCompound, BoundTerm};
use eng_value::Cause;
use sql_bound::{Given, ResultColumn};
use sql_tree::{CompoundPart, Expr, OrderingTerm};
use sqlite_items::Items;
use std::alloc::Global;

/// The result by which a term of a compound orders.
fn compound_place(
    alloc: Global,
    text: &str,
    columns: &[ResultColumn],
    e: &Expr,
) -> Result<TermPlace, Cause>
    ensures ok { IfOk result (λ p. p ≡ compound_place text.now columns.now (of_expr e.now).term) }
    ensures mem { OnlyMem result }
{
    match term_form(e) {
        TermForm::Number(token) => Ok(numbered_place(columns, place_at(alloc, text, &token)?)),
        TermForm::Name(token) => {
            let called = name(alloc, text, &token)?;
            match place_called(called.as_str(), columns) {
                Some(place) => Ok(TermPlace::At(place)),
                None => Ok(TermPlace::Nowhere),
            }
        }
        TermForm::Other => Ok(TermPlace::Nowhere),
    }
}

/// A term of a compound.
#[tactic(auto, using(crate::proofs::TermLaws::compound_laws))]
fn compound_term(
    alloc: Global,
    text: &str,
    columns: &[ResultColumn],
    term: &OrderingTerm,
) -> Result<BoundTerm, Cause>
    ensures { Answers (compound_term text.now columns.now (of_term term.now) (of_term term.now).key.expr.term) result }
{
    match compound_place(alloc, text, columns, &term.key.expr)? {
        TermPlace::At(place) => result_term(term, columns, place),
        TermPlace::Nowhere => unknown_text(alloc, text, term.key.text),
        TermPlace::Else => unknown_text(alloc, text, term.key.text),
    }
}

/// The order of a compound, whose first part gives these columns: numbers and names of them. Another term is an unknown column.
pub fn terms_of_compound(
    alloc: Global,
    text: &str,
    columns: &[ResultColumn],
    order: &[OrderingTerm],
) -> Result<Items<BoundTerm>, Cause>
    ensures { Answers (terms_of_compound text.now columns.now (map of_term order.now)) result }
{
    let mut terms = Items::new(alloc);
    for term in order {
        let one = compound_term(alloc, text, columns, term)?;
        pushed(&mut terms, one)?;
    }
    Ok(terms)
}

/// A part behind the first, with the collations by which its columns are compared. Only memory can fail.
pub fn compound_with(
    alloc: Global,
    other: &CompoundPart,
    columns: &[ResultColumn],
    given: Given,
) -> Result<BoundCompound, Cause>
    ensures ok { IfOk result (λ c. c ≡ compound_with (of_compound other.now) columns.now given) }
    ensures mem { OnlyMem result }
{
    let collations = collations_of(alloc, columns, given.columns.as_slice())?;
    Ok(BoundCompound {
        op: other.op,
        part: given.part,
        collations,
    })
}
