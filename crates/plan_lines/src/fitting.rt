// Which index a search uses.
ghost use Rattle.std.specs.Prelude.{◌≡◌, ◌++◌, string_bytes, OnOk};
ghost use Rattle.std.specs.List.{find};
ghost use Rattle.std.specs.Option.{option_copied};
ghost use Rattle.sql_meaning.specs.Searches.{same_built};
ghost use Rattle.plan_lines.specs.Lines.{begins_with, is_by_rowid, is_rowid, same_source, same_term, serves, used};

use crate::IndexLabel;
use crate::naming::write_both;
use eng_index::{KeyTerm, TermSource};
use eng_value::Built;
use std::alloc::AllocError;

/// Writes what a search by these terms uses: the rowid, or else the first of the indexes that serves it, or else one of its own.
pub(crate) fn write_used(
    line: &mut String,
    indexes: &[IndexLabel],
    terms: &[KeyTerm],
) -> Result<(), AllocError>
    ensures { OnOk result (string_bytes line.new ≡ string_bytes line.old ++ used indexes.now terms.now) }
{
    if is_by_rowid(terms) {
        return line.push_str("INTEGER PRIMARY KEY");
    }
    match first_serving(indexes, terms) {
        Some(index) => write_both(line, "INDEX ", index.name.as_str()),
        None => line.push_str("AUTOMATIC INDEX"),
    }
}

/// Whether the rowid is the only term.
fn is_by_rowid(terms: &[KeyTerm]) -> bool
    ensures { result ≡ is_by_rowid terms.now }
{
    match terms {
        [term] => is_rowid(term.source),
        _ => false,
    }
}

fn is_rowid(source: TermSource) -> bool
    ensures { result ≡ is_rowid source }
{
    match source {
        TermSource::Rowid => true,
        TermSource::Column(_) => false,
    }
}

/// The first of the indexes that serves a search by these terms.
fn first_serving<'a>(indexes: &'a [IndexLabel], terms: &[KeyTerm]) -> Option<&'a IndexLabel>
    ensures { option_copied result ≡ find (serves terms.now) indexes.now }
{
    for index in indexes {
        if begins_with(index.terms.as_slice(), terms) {
            return Some(index);
        }
    }
    None
}

/// Whether the first of some terms are those of a search.
fn begins_with(terms: &[KeyTerm], sought: &[KeyTerm]) -> bool
    ensures { result ≡ begins_with terms.now sought.now }
{
    let mut rest = terms;
    for term in sought {
        match rest {
            [] => return false,
            [first, others @ ..] => {
                if !same_term(first, term) {
                    return false;
                }
                rest = others;
            }
        }
    }
    true
}

fn same_term(a: &KeyTerm, b: &KeyTerm) -> bool
    ensures { result ≡ same_term a.now b.now }
{
    same_source(a.source, b.source)
        && same_built(a.collation, b.collation)
        && a.descending == b.descending
}

fn same_source(a: TermSource, b: TermSource) -> bool
    ensures { result ≡ same_source a b }
{
    match (a, b) {
        (TermSource::Rowid, TermSource::Rowid) => true,
        (TermSource::Column(column), TermSource::Column(other)) => column == other,
        _ => false,
    }
}

fn same_built(a: Built, b: Built) -> bool
    ensures { result ≡ same_built a b }
{
    match (a, b) {
        (Built::Binary, Built::Binary) => true,
        (Built::NoCase, Built::NoCase) => true,
        (Built::Rtrim, Built::Rtrim) => true,
        _ => false,
    }
}
