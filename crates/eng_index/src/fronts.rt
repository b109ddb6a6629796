// The keys between which the entries of a range lie.
ghost use Rattle.std.specs.Prelude.{◌≡◌, ◌++◌, ◌∷◌, [], None, Some, IfOk, OnOk, length, slice_get, take};
ghost use Rattle.eng_key.specs.RowKeys.{IsSoundRow, behind_front as meant_behind, row_key};
ghost use Rattle.eng_index.specs.Fronts.{AreFronts, BoundsRange, IsSoundLimit, LimitsFront, begins_behind, edge_key, ends_behind, first_limit, has_null_limit, is_excluded, last_limit, limit_is_null, limit_key, lower_limit, not_null};
ghost use Rattle.eng_index.specs.Stored.{parts_of, term_part};

use crate::entry_keys::{has_null, is_null};
use crate::{Edge, KeyTerm, Limit, Range};
use eng_key::{KeyPart, behind_front, key};
use eng_value::{Blob, Value};
use std::alloc::{AllocError, Global};
use std::slice;

/// The least key that an entry of a range can have, and the least one behind all of them.
#[derive(Drop)]
pub(crate) struct Fronts {
    pub from: Blob,
    pub to: Blob,
}

/// The fronts of a range in the keys of these terms and parts. None where it finds nothing, as it asks for a NULL.
pub(crate) fn fronts_of(
    alloc: Global,
    terms: &[KeyTerm],
    parts: &[KeyPart],
    range: &Range,
) -> Result<Option<Fronts>, AllocError>
    requires { parts.now ≡ parts_of terms.now }
    ensures { IfOk result (BoundsRange terms.now range.now) }
{
    let equal = with_terms(terms, range.equal.as_slice());
    if has_null(equal) {
        return Ok(None);
    }
    let front = key(alloc, equal, parts)?;
    match term_at(terms, equal.len()) {
        None => beginning_with(front),
        Some(term) => limited(alloc, &front, &term, range),
    }
}

fn term_at(terms: &[KeyTerm], place: usize) -> Option<KeyTerm>
    ensures { result ≡ slice_get terms.now place }
{
    terms.get(place).copied()
}

/// The values that have a term.
fn with_terms<'a>(terms: &[KeyTerm], values: &'a [Value]) -> &'a [Value]
    ensures { result.now ≡ take (length terms.now) values.now }
{
    if terms.len() < values.len() {
        &values[..terms.len()]
    } else {
        values
    }
}

/// The fronts of all keys that begin with this one.
fn beginning_with(front: Blob) -> Result<Option<Fronts>, AllocError>
    ensures { IfOk result (λ fronts. fronts ≡ Some (record { from = front; to = meant_behind front })) }
{
    let to = behind_front(front.clone()?)?;
    Ok(Some(Fronts { from: front, to }))
}

/// The fronts of the keys that begin with this one and go on within the limits. None where a limit is NULL.
fn limited(
    alloc: Global,
    front: &Blob,
    term: &KeyTerm,
    range: &Range,
) -> Result<Option<Fronts>, AllocError>
    ensures { IfOk result (LimitsFront front.now term.now range.now) }
{
    if has_null_limit(range) {
        return Ok(None);
    }
    let above_null = Some(Limit {
        value: Value::Null,
        edge: Edge::Excluded,
    });
    let lower = lower_limit(range, &above_null);
    let first = first_limit(term, lower, &range.upper);
    let last = last_limit(term, lower, &range.upper);
    Ok(Some(fronts_within(alloc, front, term, first, last)?))
}

fn has_null_limit(range: &Range) -> bool
    ensures { result ≡ has_null_limit range.now }
{
    limit_is_null(&range.lower) || limit_is_null(&range.upper)
}

fn limit_is_null(limit: &Option<Limit>) -> bool
    ensures { result ≡ limit_is_null limit.now }
{
    match limit {
        None => false,
        Some(limit) => is_null(&limit.value),
    }
}

/// The lower limit, and NULL where there is only an upper one.
fn lower_limit<'a>(range: &'a Range, above_null: &'a Option<Limit>) -> &'a Option<Limit>
    requires { above_null.now ≡ Some not_null }
    ensures { result.now ≡ lower_limit range.now.lower range.now.upper }
{
    match (&range.lower, &range.upper) {
        (None, Some(_)) => above_null,
        _ => &range.lower,
    }
}

/// The limit at which the entries begin.
fn first_limit<'a>(
    term: &KeyTerm,
    lower: &'a Option<Limit>,
    upper: &'a Option<Limit>,
) -> &'a Option<Limit>
    ensures { result.now ≡ first_limit term.now lower.now upper.now }
{
    if term.descending { upper } else { lower }
}

/// The limit at which the entries end.
fn last_limit<'a>(
    term: &KeyTerm,
    lower: &'a Option<Limit>,
    upper: &'a Option<Limit>,
) -> &'a Option<Limit>
    ensures { result.now ≡ last_limit term.now lower.now upper.now }
{
    if term.descending { lower } else { upper }
}

fn fronts_within(
    alloc: Global,
    front: &Blob,
    term: &KeyTerm,
    first: &Option<Limit>,
    last: &Option<Limit>,
) -> Result<Fronts, AllocError>
    ensures { IfOk result (AreFronts front.now term.now first.now last.now) }
{
    let from = with_limit(alloc, front, term, first)?;
    let to = with_limit(alloc, front, term, last)?;
    Ok(Fronts {
        from: edge_key(begins_behind(first), from)?,
        to: edge_key(ends_behind(last), to)?,
    })
}

/// The front, and the key of a limit's value behind it.
fn with_limit(
    alloc: Global,
    front: &Blob,
    term: &KeyTerm,
    limit: &Option<Limit>,
) -> Result<Blob, AllocError>
    ensures key { IfOk result (λ key. key ≡ front.now ++ limit_key term.now limit.now) }
    ensures sound { OnOk result (IsSoundLimit term.now limit.now) }
{
    match limit {
        None => front.clone(),
        Some(limit) => with_value(alloc, front, term, &limit.value),
    }
}

fn with_value(
    alloc: Global,
    front: &Blob,
    term: &KeyTerm,
    value: &Value,
) -> Result<Blob, AllocError>
    ensures key { IfOk result (λ key. key ≡ front.now ++ row_key (value.now ∷ []) (term_part term.now ∷ [])) }
    ensures sound { OnOk result (IsSoundRow (value.now ∷ []) (term_part term.now ∷ [])) }
{
    let part = term.part();
    let behind = key(alloc, slice::from_ref(value), slice::from_ref(&part))?;
    let mut bytes = front.clone()?.into_vec();
    bytes.extend_from_slice(behind.as_slice())?;
    Ok(Blob::new(bytes))
}

/// Whether the entries begin behind this limit.
fn begins_behind(limit: &Option<Limit>) -> bool
    ensures { result ≡ begins_behind limit.now }
{
    match limit {
        None => false,
        Some(limit) => is_excluded(limit.edge),
    }
}

/// Whether the entries end behind this limit.
fn ends_behind(limit: &Option<Limit>) -> bool
    ensures { result ≡ ends_behind limit.now }
{
    match limit {
        None => true,
        Some(limit) => !is_excluded(limit.edge),
    }
}

fn is_excluded(edge: Edge) -> bool
    ensures { result ≡ is_excluded edge }
{
    matches!(edge, Edge::Excluded)
}

fn edge_key(is_behind: bool, key: Blob) -> Result<Blob, AllocError>
    ensures { IfOk result (λ edge. edge ≡ edge_key is_behind key) }
{
    if is_behind {
        behind_front(key)
    } else {
        Ok(key)
    }
}
