// ORDER BY, but for its expressions (SELECT, section 4).
ghost use Rattle.std.specs.Prelude.{◌≡◌, slice_get, IfOk};
ghost use Rattle.std.specs.Option.{option_copied};
ghost use Rattle.sql_bound.specs.Answers.{OnlyMem};
ghost use Rattle.sql_bound.specs.Orders.{collation_at_place, nulls_first, place_called};
ghost use Rattle.sql_bound.specs.Results.{at_place, place_named, place_of_integer};
ghost use Rattle.bind_column.specs.Terms.{result_term, term_of};

use crate::results::collation_of_result;
use bind_scope::small;
use bound_tree::{BoundTerm, TermKey};
use eng_entry::is_same_name;
use eng_value::{Built, Cause, Collation, Value};
use sql_bound::ResultColumn;
use sql_tree::NullsOrder;
use sql_words::Literal;
use sqlite_items::at;

/// Whether NULLs stand first: where it ascends, unless it is said otherwise.
pub fn nulls_first(descending: bool, nulls: Option<NullsOrder>) -> bool
    ensures { result ≡ nulls_first descending nulls }
{
    match nulls {
        None => !descending,
        Some(NullsOrder::First) => true,
        Some(NullsOrder::Last) => false,
    }
}

/// A term of ORDER BY.
pub fn term_with(
    descending: bool,
    nulls: Option<NullsOrder>,
    key: TermKey,
    collation: Collation,
) -> BoundTerm
    ensures { result ≡ term_of descending nulls key collation }
{
    BoundTerm {
        key,
        collation,
        descending,
        nulls_first: nulls_first(descending, nulls),
    }
}

fn collation_at_place(columns: &[ResultColumn], place: usize) -> Collation
    ensures { result ≡ collation_at_place (slice_get columns.now place) }
{
    match at(columns, place) {
        Some(column) => collation_of_result(column),
        None => Collation::Built(Built::Binary),
    }
}

/// A term that is a result, under its collation.
pub fn by_result(
    descending: bool,
    nulls: Option<NullsOrder>,
    columns: &[ResultColumn],
    place: usize,
) -> Result<BoundTerm, Cause>
    ensures ok { IfOk result (λ t. t ≡ result_term descending nulls columns.now place) }
    ensures mem { OnlyMem result }
{
    let collation = collation_at_place(columns, place);
    let key = TermKey::Result(small(place)?);
    Ok(term_with(descending, nulls, key, collation))
}

/// The place of the first column of the name.
pub fn place_called(name: &str, columns: &[ResultColumn]) -> Option<usize>
    ensures { result ≡ place_called name.now columns.now }
{
    columns
        .iter()
        .position(|c| is_same_name(c.name.as_bytes(), name.as_bytes()))
}

/// The place that a number names, if it is a whole one, which may be no place at all.
pub fn place_named(literal: &Literal) -> Option<Option<u64>>
    ensures { result ≡ place_named literal.now }
{
    match literal {
        Literal::Value(Value::Integer(number)) => Some(place_of_integer(*number)),
        _ => None,
    }
}

fn place_of_integer(number: i64) -> Option<u64>
    ensures { result ≡ place_of_integer number }
{
    match u64::try_from(number) {
        Ok(number) => number.checked_sub(1),
        Err(_) => None,
    }
}

/// What stands in a place, if it is one.
pub fn at_place<T>(all: &[T], place: Option<u64>) -> Option<&T>
    ensures { option_copied result ≡ at_place all.now place }
{
    match place {
        Some(place) => at(all, place as usize),
        None => None,
    }
}
