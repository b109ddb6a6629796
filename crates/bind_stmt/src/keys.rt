// The keys of tables and indexes.
ghost use Rattle.std.specs.Prelude.{◌≡◌, map, IfOk};
ghost use Rattle.std.specs.List.{list_all};
ghost use Rattle.eng_value.specs.Collations.{built_in};
ghost use Rattle.sql_meaning.specs.Running.{are_own, has_own_keys, index_terms, is_own, keys_of, source_at, term_at, terms_of};

use bound_tree::{BoundIndex, IndexPart};
use eng_index::{KeyTerm, TermSource};
use eng_value::{Built, Collation};
use sqlite_items::Items;
use std::alloc::{AllocError, Global};

/// Whether no index has a collation of a host.
pub(crate) fn has_own_keys(indexes: &[BoundIndex]) -> bool
    ensures { result ≡ has_own_keys indexes.now }
{
    indexes.iter().all(|index| are_own(index.parts.as_slice()))
}

/// Whether no part has a collation of a host.
pub(crate) fn are_own(parts: &[IndexPart]) -> bool
    ensures { result ≡ are_own parts.now }
{
    parts.iter().all(|part| is_own(part.collation))
}

fn is_own(collation: Collation) -> bool
    ensures { result ≡ is_own collation }
{
    match collation {
        Collation::Built(_) => true,
        Collation::Host(_) => false,
    }
}

/// The keys that no two rows may share, oldest first.
pub(crate) fn keys_of(
    alloc: Global,
    rowid: Option<u32>,
    indexes: &[BoundIndex],
) -> Result<Items<Items<KeyTerm>>, AllocError>
    ensures { IfOk result (λ keys. keys ≡ keys_of rowid indexes.now) }
{
    let mut keys = Items::new(alloc);
    for index in indexes {
        if index.unique {
            keys.push(terms_of(alloc, rowid, index.parts.as_slice())?)?;
        }
    }
    Ok(keys)
}

/// The terms of the keys of all indexes, oldest first, but for those with a collation of a host.
pub(crate) fn index_terms(
    alloc: Global,
    rowid: Option<u32>,
    indexes: &[BoundIndex],
) -> Result<Items<Items<KeyTerm>>, AllocError>
    ensures { IfOk result (λ keys. keys ≡ index_terms rowid indexes.now) }
{
    let mut keys = Items::new(alloc);
    for index in indexes {
        if are_own(index.parts.as_slice()) {
            keys.push(terms_of(alloc, rowid, index.parts.as_slice())?)?;
        }
    }
    Ok(keys)
}

/// The terms of a key's parts.
pub(crate) fn terms_of(
    alloc: Global,
    rowid: Option<u32>,
    parts: &[IndexPart],
) -> Result<Items<KeyTerm>, AllocError>
    ensures { IfOk result (λ terms. terms ≡ terms_of rowid parts.now) }
{
    let mut terms = Items::new(alloc);
    for part in parts {
        terms.push(term_at(rowid, *part))?;
    }
    Ok(terms)
}

fn term_at(rowid: Option<u32>, part: IndexPart) -> KeyTerm
    ensures { result ≡ term_at rowid part }
{
    KeyTerm {
        source: source_at(rowid, part.column),
        collation: built_in(part.collation),
        descending: part.descending,
    }
}

/// The column that is the rowid is read as that.
fn source_at(rowid: Option<u32>, column: u32) -> TermSource
    ensures { result ≡ source_at rowid column }
{
    match rowid {
        Some(place) if place == column => TermSource::Rowid,
        _ => TermSource::Column(column),
    }
}

fn built_in(collation: Collation) -> Built
    ensures { result ≡ built_in collation }
{
    match collation {
        Collation::Built(built) => built,
        Collation::Host(_) => Built::Binary,
    }
}
