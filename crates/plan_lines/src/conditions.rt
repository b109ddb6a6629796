// The comparisons that a search goes by.
ghost use Rattle.std.specs.Prelude.{◌≡◌, ◌++◌, codes, map, slice_get, string_bytes, take, IfOk, OnOk};
ghost use Rattle.std.specs.List.{flat_map};
ghost use Rattle.plan_lines.specs.Lines.{behind_and, compared, conditions, joined, limit, limits};

use crate::naming::{write_both, write_source};
use eng_index::{Bounds, Edge, KeyTerm};
use eng_value::Text;
use plan_tree::Search;
use sqlite_items::Items;
use std::alloc::{AllocError, Global};

/// The comparisons of a search: so many terms that are equal to a key, and then the limits of the next one.
pub(crate) fn conditions(
    alloc: Global,
    columns: &[Text],
    search: &Search,
) -> Result<Items<Text>, AllocError>
    ensures { IfOk result (λ found. found ≡ conditions columns.now search.now) }
{
    let terms = search.terms.as_slice();
    let mut found = equal_ones(alloc, columns, first_terms(terms, search.bounds.equal))?;
    found.append(limits_at(alloc, columns, search.bounds, terms)?)?;
    Ok(found)
}

/// The first so many of the terms, or all of them.
fn first_terms(terms: &[KeyTerm], count: u32) -> &[KeyTerm]
    ensures { result.now ≡ take count terms.now }
{
    if terms.len() < count as usize {
        terms
    } else {
        &terms[..count as usize]
    }
}

/// Terms that are equal to a key.
fn equal_ones(alloc: Global, columns: &[Text], terms: &[KeyTerm]) -> Result<Items<Text>, AllocError>
    ensures { IfOk result (λ found. found ≡ map (compared columns.now (codes "=?")) terms.now) }
{
    let mut found = Items::new(alloc);
    for term in terms {
        found.push(compared(alloc, columns, "=?", term)?)?;
    }
    Ok(found)
}

/// The limits of the term behind those that are equal to a key.
fn limits_at(
    alloc: Global,
    columns: &[Text],
    bounds: Bounds,
    terms: &[KeyTerm],
) -> Result<Items<Text>, AllocError>
    ensures { IfOk result (λ found. found ≡ limits columns.now bounds (slice_get terms.now bounds.equal)) }
{
    match terms.get(bounds.equal as usize) {
        Some(term) => limits(alloc, columns, bounds, term),
        None => Ok(Items::new(alloc)),
    }
}

/// The limits of a term, the lower one first.
fn limits(
    alloc: Global,
    columns: &[Text],
    bounds: Bounds,
    term: &KeyTerm,
) -> Result<Items<Text>, AllocError>
    ensures { IfOk result (λ found. found ≡ limit columns.now (codes ">?") bounds.lower term.now ++ limit columns.now (codes "<?") bounds.upper term.now) }
{
    let mut found = limit(alloc, columns, ">?", bounds.lower, term)?;
    found.append(limit(alloc, columns, "<?", bounds.upper, term)?)?;
    Ok(found)
}

/// A limit of a term, where there is one. Whether it is included is not told.
fn limit(
    alloc: Global,
    columns: &[Text],
    sign: &str,
    edge: Option<Edge>,
    term: &KeyTerm,
) -> Result<Items<Text>, AllocError>
    ensures { IfOk result (λ found. found ≡ limit columns.now sign.now edge term.now) }
{
    let mut found = Items::new(alloc);
    match edge {
        Some(_) => {
            found.push(compared(alloc, columns, sign, term)?)?;
            Ok(found)
        }
        None => Ok(found),
    }
}

/// The comparison of a term.
fn compared(alloc: Global, columns: &[Text], sign: &str, term: &KeyTerm) -> Result<Text, AllocError>
    ensures { IfOk result (λ text. text ≡ compared columns.now sign.now term.now) }
{
    let mut text = String::new(alloc);
    write_source(&mut text, columns, term.source)?;
    text.push_str(sign)?;
    Ok(Text::new(text))
}

/// Writes comparisons with AND between them.
pub(crate) fn write_joined(line: &mut String, found: &[Text]) -> Result<(), AllocError>
    ensures { OnOk result (string_bytes line.new ≡ string_bytes line.old ++ joined found.now) }
{
    match found {
        [] => Ok(()),
        [first, others @ ..] => {
            line.push_str(first.as_str())?;
            write_others(line, others)
        }
    }
}

/// Writes each behind AND.
fn write_others(line: &mut String, others: &[Text]) -> Result<(), AllocError>
    ensures { OnOk result (string_bytes line.new ≡ string_bytes line.old ++ flat_map behind_and others.now) }
{
    for other in others {
        write_both(line, " AND ", other.as_str())?;
    }
    Ok(())
}
