// The columns that a name may mean in one FROM (SQL Language Expressions, section 3; The SQLite Query Optimizer, ROWIDs).
ghost use Rattle.std.specs.Prelude.{◌≡◌, ◌||◌, Ok, None, false, filter, is_some, IfOk};
ghost use Rattle.std.specs.List.{flat_map};
ghost use Rattle.std.specs.Option.{option_copied, option_to_list};
ghost use Rattle.sql_bound.specs.Answers.{Answers, OnlyMem};
ghost use Rattle.sql_bound.specs.Scopes.{counted_once, has_column, is_called, is_rowid_name, name_of_ambiguous, nearest_of, rowid_named};
ghost use Rattle.bind_scope.specs.Sights.{another, candidates, first, is_meant, is_open, sight_of};

use crate::copies::{copied_column, copied_text};
use crate::places::small;
use eng_entry::is_same_name;
use eng_text::fold;
use eng_value::{Cause, Text};
use sql_bound::{ScopeColumn, ScopeItem, Sight};
use sqlite_items::Items;
use std::alloc::Global;

/// Whether a name is one of those of rowids (ROWIDs and the INTEGER PRIMARY KEY).
pub fn is_rowid_name(name: &str) -> bool
    ensures { result ≡ is_rowid_name name.now }
{
    is_same_name(b"rowid", name.as_bytes())
        || is_same_name(b"oid", name.as_bytes())
        || is_same_name(b"_rowid_", name.as_bytes())
}

fn has_column(item: &ScopeItem, name: &str) -> bool
    ensures { result ≡ has_column name.now item.now }
{
    item.columns
        .as_slice()
        .iter()
        .any(|c| is_same_name(c.name.as_bytes(), name.as_bytes()))
}

/// An item's rowid, by one of its names, unless a column has the name.
fn rowid_named<'a>(item: &'a ScopeItem, name: &str) -> Option<&'a ScopeColumn>
    ensures { option_to_list (option_copied result) ≡ rowid_named name.now item.now }
{
    if is_rowid_name(name) && !has_column(item, name) {
        item.rowid.as_ref()
    } else {
        None
    }
}

/// Whether the item has the name.
pub fn is_called(table: &str, item: &ScopeItem) -> bool
    ensures { result ≡ is_called table.now item.now.name }
{
    match &item.name {
        Some(name) => is_same_name(name.as_bytes(), table.as_bytes()),
        None => false,
    }
}

/// Whether the item's columns may be called so.
fn is_open(table: Option<&str>, item: &ScopeItem) -> bool
    ensures { result ≡ is_open (option_copied table.entry) item.now }
{
    match table {
        None => item.bare,
        Some(table) => is_called(table, item),
    }
}

/// Whether a column of such an item may be meant.
fn is_meant(table: Option<&str>, name: &str, column: &ScopeColumn) -> bool
    ensures { result ≡ is_meant (option_copied table.entry) name.now column.now }
{
    is_same_name(column.name.as_bytes(), name.as_bytes()) && (table.is_some() || !column.joined)
}

/// The first column of an item that may be meant, but for its rowid.
fn first_column<'a>(
    table: Option<&str>,
    name: &str,
    columns: &'a [ScopeColumn],
) -> Option<&'a ScopeColumn>
    ensures { option_copied result ≡ first (filter (is_meant (option_copied table.entry) name.now) columns.now) }
{
    for column in columns {
        if is_meant(table, name, column) {
            return Some(column);
        }
    }
    None
}

/// The first column of an item that may be meant.
#[tactic(auto, using(crate::proofs::SightLaws::sight_steps))]
fn first_in<'a>(table: Option<&str>, name: &str, item: &'a ScopeItem) -> Option<&'a ScopeColumn>
    ensures { option_copied result ≡ first (candidates (option_copied table.entry) name.now item.now) }
{
    if !is_open(table, item) {
        return None;
    }
    match first_column(table, name, item.columns.as_slice()) {
        Some(column) => Some(column),
        None => rowid_named(item, name),
    }
}

/// The first column of a FROM that may be meant.
#[tactic(auto, using(crate::proofs::SightLaws::sight_steps))]
pub(crate) fn first_of<'a>(
    table: Option<&str>,
    name: &str,
    level: &'a [ScopeItem],
) -> Option<&'a ScopeColumn>
    ensures { option_copied result ≡ first (flat_map (candidates (option_copied table.entry) name.now) level.now) }
{
    for item in level {
        if let Some(column) = first_in(table, name, item) {
            return Some(column);
        }
    }
    None
}

/// Whether one of the columns counts that may be meant, behind one or behind none.
fn another_column(table: Option<&str>, name: &str, columns: &[ScopeColumn], behind: bool) -> bool
    ensures { result ≡ another behind (filter (is_meant (option_copied table.entry) name.now) columns.now) }
{
    let mut one = behind;
    for column in columns {
        let meant = is_meant(table, name, column);
        if one && meant && !column.joined {
            return true;
        }
        one = one || meant;
    }
    false
}

/// The same of an item, whose rowid counts, too.
#[tactic(auto, using(crate::proofs::SightLaws::sight_steps))]
fn another_in(table: Option<&str>, name: &str, item: &ScopeItem, behind: bool) -> bool
    ensures { result ≡ another behind (candidates (option_copied table.entry) name.now item.now) }
{
    if !is_open(table, item) {
        return false;
    }
    let columns = item.columns.as_slice();
    if another_column(table, name, columns, behind) {
        return true;
    }
    let one = behind || first_column(table, name, columns).is_some();
    another_rowid(item, name, one)
}

fn another_rowid(item: &ScopeItem, name: &str, behind: bool) -> bool
    ensures { result ≡ another behind (rowid_named name.now item.now) }
{
    match rowid_named(item, name) {
        Some(rowid) => behind && !rowid.joined,
        None => false,
    }
}

/// Whether more than one column of a FROM may be meant.
#[tactic(auto, using(crate::proofs::SightLaws::sight_steps))]
pub(crate) fn another_of(table: Option<&str>, name: &str, level: &[ScopeItem]) -> bool
    ensures { result ≡ another false (flat_map (candidates (option_copied table.entry) name.now) level.now) }
{
    let mut one = false;
    for item in level {
        if another_in(table, name, item, one) {
            return true;
        }
        one = is_behind(table, name, item, one);
    }
    false
}

/// Whether what follows an item is behind a column that may be meant.
fn is_behind(table: Option<&str>, name: &str, item: &ScopeItem, behind: bool) -> bool
    ensures { result ≡ (behind || is_some (first (candidates (option_copied table.entry) name.now item.now))) }
{
    behind || first_in(table, name, item).is_some()
}

/// The name by which an ambiguous column is told.
fn name_of_ambiguous(alloc: Global, name: &str, column: &ScopeColumn) -> Result<Text, Cause>
    ensures ok { IfOk result (λ n. n ≡ name_of_ambiguous name.now column.now) }
    ensures mem { OnlyMem result }
{
    if is_same_name(column.name.as_bytes(), name.as_bytes()) {
        return copied_text(&column.name);
    }
    match fold(alloc, name) {
        Ok(folded) => Ok(Text::new(folded)),
        Err(_) => Err(Cause::Mem),
    }
}

/// A column that was found, where it is the only one.
pub(crate) fn sighted(
    alloc: Global,
    up: usize,
    name: &str,
    column: &ScopeColumn,
    others: bool,
) -> Result<Option<Sight>, Cause>
    ensures { Answers (sight_of name.now up column.now others) result }
{
    if others {
        let name = name_of_ambiguous(alloc, name, column)?;
        return Err(Cause::Ambiguous(name));
    }
    let up = small(up)?;
    let column = copied_column(alloc, column)?;
    Ok(Some(Sight { up, column }))
}

/// The column of one FROM.
#[tactic(auto, using(crate::proofs::SightLaws::sight_steps))]
pub(crate) fn sight_in(
    alloc: Global,
    up: usize,
    table: Option<&str>,
    name: &str,
    level: &[ScopeItem],
) -> Result<Option<Sight>, Cause>
    ensures { Answers (nearest_of name.now up (counted_once (flat_map (candidates (option_copied table.entry) name.now) level.now)) (Ok None)) result }
{
    match first_of(table, name, level) {
        Some(column) => sighted(alloc, up, name, column, another_of(table, name, level)),
        None => Ok(None),
    }
}
