// Results by their places and names, those that a star shows counted each (SELECT, sections 2.3 and 4).
ghost use Rattle.std.specs.Prelude.{◌≡◌, ◌+◌, ◌++◌, [], List, map, slice_get, IfOk};
ghost use Rattle.std.specs.List.{flat_map};
ghost use Rattle.eng_value.specs.declared.cause.Cause.TheVariants.{Mem};
ghost use Rattle.std.specs.Option.{option_map};
ghost use Rattle.bind_column.specs.Stars.{all_of, those_of};
ghost use Rattle.sql_bound.specs.Answers.{OnlyMem};
ghost use Rattle.sql_bound.specs.Carriers.{Binding};
ghost use Rattle.sql_bound.specs.Orders.{place_given};
ghost use Rattle.sql_bound.specs.Results.{ShownResult, at_place, given_name, shown_by, shown_in, shown_or_none};
ghost use Rattle.sql_bound.specs.Scopes.{is_called};
ghost use Rattle.sql_bound.specs.Trees.{of_expr, of_result};
ghost use Rattle.bind_result.specs.Numbers.{binding_of, bindings_by, bindings_of, bound_of, given_behind, next_binding, or_nothing};

use bind_column::{all_shown, shown_of};
use bind_name::name;
use eng_entry::is_same_name;
use eng_value::Cause;
use sql_bound::{ScopeColumn, ScopeItem};
use sql_tree::{Expr, ResultColumn, Token};
use sqlite_items::Items;
use std::alloc::Global;

/// What stands in a place of the results.
#[derive(Drop)]
pub enum ShownAt<'a> {
    /// A column that a star shows.
    Column(ScopeColumn),
    Expr(&'a Expr),
    Nothing,
}

/// What a result shows.
#[derive(Drop)]
enum ShownBy<'a> {
    Columns(Items<ScopeColumn>),
    Expr(&'a Expr),
}

/// What stands in a place, if it stands there, or the place behind.
#[derive(Drop)]
enum Next<'a> {
    At(ShownAt<'a>),
    Behind(usize),
}

/// No columns, where memory is not what is wanting.
fn no_columns(alloc: Global, why: Cause) -> Result<Items<ScopeColumn>, Cause>
    ensures ok { IfOk result (λ cs. (cs ≡ []) × (why ≡ Mem → ⊥)) }
    ensures mem { OnlyMem result }
{
    match &why {
        Cause::Mem => Err(Cause::Mem),
        _ => Ok(Items::new(alloc)),
    }
}

/// The columns that `*` shows; none where it is refused.
#[tactic(auto, using(crate::proofs::NumberLaws::nothing_laws))]
fn columns_of_all(alloc: Global, own: &[ScopeItem]) -> Result<Items<ScopeColumn>, Cause>
    ensures ok { IfOk result (λ cs. cs ≡ or_nothing (all_of own.now)) }
    ensures mem { OnlyMem result }
{
    match all_shown(alloc, own) {
        Ok(columns) => Ok(columns),
        Err(why) => no_columns(alloc, why),
    }
}

/// The columns that `table.*` shows; none where it is refused.
#[tactic(auto, using(crate::proofs::NumberLaws::nothing_laws))]
fn columns_of_table(
    alloc: Global,
    table: &str,
    own: &[ScopeItem],
) -> Result<Items<ScopeColumn>, Cause>
    ensures ok { IfOk result (λ cs. cs ≡ or_nothing (those_of table.now own.now)) }
    ensures mem { OnlyMem result }
{
    match shown_of(alloc, table, own) {
        Ok(columns) => Ok(columns),
        Err(why) => no_columns(alloc, why),
    }
}

/// What a result shows.
#[tactic(auto, using(crate::proofs::NumberLaws::shown_laws))]
fn shown_by<'a>(
    alloc: Global,
    text: &str,
    own: &[ScopeItem],
    column: &'a ResultColumn,
) -> Result<ShownBy<'a>, Cause>
    ensures ok { IfOk result (λ r. bindings_of r ≡ bindings_by text.now own.now (of_result column.now)) }
    ensures mem { OnlyMem result }
{
    match column {
        ResultColumn::All => Ok(ShownBy::Columns(columns_of_all(alloc, own)?)),
        ResultColumn::AllOf(token) => {
            let table = name(alloc, text, token)?;
            Ok(ShownBy::Columns(columns_of_table(alloc, table.as_str(), own)?))
        }
        ResultColumn::Expression(spanned, _) => Ok(ShownBy::Expr(&spanned.expr)),
    }
}

/// What stands in a place of what a result shows.
#[tactic(auto, using(crate::proofs::NumberLaws::place_laws))]
fn next_at<'a>(shows: ShownBy<'a>, place: usize) -> Next<'a>
    ensures { (rest : List Binding) → slice_get (bindings_of shows.entry ++ rest) place ≡ next_binding result rest }
{
    match shows {
        ShownBy::Columns(columns) => {
            let mut columns = columns;
            if place < columns.len() {
                Next::At(ShownAt::Column(columns.remove(place)))
            } else {
                Next::Behind(place - columns.len())
            }
        }
        ShownBy::Expr(e) => match place.checked_sub(1) {
            Some(behind) => Next::Behind(behind),
            None => Next::At(ShownAt::Expr(e)),
        },
    }
}

/// What stands in a place.
fn shown_in_place<'a>(
    alloc: Global,
    text: &str,
    own: &[ScopeItem],
    results: &'a [ResultColumn],
    place: usize,
) -> Result<ShownAt<'a>, Cause>
    ensures ok { IfOk result (λ r. binding_of r ≡ slice_get (flat_map (bindings_by text.now own.now) (map of_result results.now)) place) }
    ensures mem { OnlyMem result }
{
    let mut left = place;
    for column in results {
        match next_at(shown_by(alloc, text, own, column)?, left) {
            Next::At(shown) => return Ok(shown),
            Next::Behind(behind) => left = behind,
        }
    }
    Ok(ShownAt::Nothing)
}

/// What stands in a place of the results, if it is one. Only memory can fail.
pub fn shown_at<'a>(
    alloc: Global,
    text: &str,
    own: &[ScopeItem],
    results: &'a [ResultColumn],
    place: Option<u64>,
) -> Result<ShownAt<'a>, Cause>
    ensures ok { IfOk result (λ r. binding_of r ≡ option_map bound_of (at_place (shown_in text.now own.now (map of_result results.now)) place)) }
    ensures mem { OnlyMem result }
{
    match place {
        Some(place) => shown_in_place(alloc, text, own, results, place as usize),
        None => Ok(ShownAt::Nothing),
    }
}

/// Whether a result gets the name behind AS.
fn is_given(alloc: Global, text: &str, alias: &Option<Token>, wanted: &str) -> Result<bool, Cause>
    ensures ok { IfOk result (λ b. b ≡ is_called wanted.now (given_name text.now alias.now)) }
    ensures mem { OnlyMem result }
{
    match alias {
        Some(token) => {
            let given = name(alloc, text, token)?;
            Ok(is_same_name(given.as_bytes(), wanted.as_bytes()))
        }
        None => Ok(false),
    }
}

/// How many a result shows, unless it gets the name.
#[tactic(auto, using(crate::proofs::NumberLaws::given_laws))]
fn given_in(
    alloc: Global,
    text: &str,
    own: &[ScopeItem],
    column: &ResultColumn,
    wanted: &str,
) -> Result<Option<usize>, Cause>
    ensures ok { IfOk result (λ n. (rest : List ShownResult) → place_given wanted.now (shown_or_none (shown_by text.now own.now (of_result column.now)) ++ rest) ≡ given_behind n (place_given wanted.now rest)) }
    ensures mem { OnlyMem result }
{
    match column {
        ResultColumn::All => Ok(Some(columns_of_all(alloc, own)?.len())),
        ResultColumn::AllOf(token) => {
            let table = name(alloc, text, token)?;
            Ok(Some(columns_of_table(alloc, table.as_str(), own)?.len()))
        }
        ResultColumn::Expression(_, alias) => {
            if is_given(alloc, text, alias, wanted)? {
                Ok(None)
            } else {
                Ok(Some(1))
            }
        }
    }
}

/// So many places further.
fn further(place: usize, count: usize) -> Result<usize, Cause>
    ensures ok { IfOk result (λ n. n ≡ place + count) }
    ensures mem { OnlyMem result }
{
    match place.checked_add(count) {
        Some(place) => Ok(place),
        None => Err(Cause::Mem),
    }
}

/// The place of the first result that gets the name behind AS. Only memory can fail.
pub fn place_given(
    alloc: Global,
    text: &str,
    own: &[ScopeItem],
    results: &[ResultColumn],
    wanted: &str,
) -> Result<Option<usize>, Cause>
    ensures ok { IfOk result (λ p. p ≡ place_given wanted.now (shown_in text.now own.now (map of_result results.now))) }
    ensures mem { OnlyMem result }
{
    let mut place = 0;
    for column in results {
        match given_in(alloc, text, own, column, wanted)? {
            None => return Ok(Some(place)),
            Some(count) => place = further(place, count)?,
        }
    }
    Ok(None)
}
