// Which triggers a write can fire (CREATE TRIGGER, section 2).
ghost use Rattle.std.specs.Prelude.{◌≡◌, map, true, IfOk};
ghost use Rattle.std.specs.List.{list_any};
ghost use Rattle.bind_target.specs.Meant.{firing_meant};
ghost use Rattle.bound_tree.specs.Same.{both_same};
ghost use Rattle.std.specs.Prelude.{nat_eq, Some};
ghost use Rattle.sql_bound.specs.Answers.{OnlyMem};
ghost use Rattle.sql_bound.specs.Targets.{can_fire, fires_at, is_same_column, place_written, sets_one_of};
ghost use Rattle.sql_words.specs.Spelled.{name_at};

use crate::places::place_written;
use bind_entry::{name, trigger_of};
use bound_tree::FiringEvent;
use eng_entry::{Entry, is_same_name};
use eng_value::{Cause, Text};
use sql_bound::Sourced;
use sql_tree::{Token, TriggerEvent};
use sqlite_items::Items;
use std::alloc::Global;

pub(crate) fn is_same_place(a: Option<usize>, b: Option<usize>) -> bool
    ensures { result ≡ both_same nat_eq a b }
{
    match a {
        Some(a) => match b {
            Some(b) => a == b,
            None => false,
        },
        None => b.is_none(),
    }
}

/// Whether a name is that of the column in this place.
fn is_named_at(s: &Sourced, place: Option<usize>, name: &str) -> bool
    ensures { result ≡ both_same (both_same nat_eq) (Some place) (place_written s.now name.now) }
{
    match place_written(s, name) {
        Some(other) => is_same_place(place, other),
        None => false,
    }
}

/// Whether two names name one column.
fn is_same_column(s: &Sourced, a: &str, b: &str) -> bool
    ensures { result ≡ is_same_column s.now a.now b.now }
{
    match place_written(s, a) {
        Some(place) => is_named_at(s, place, b),
        None => false,
    }
}

/// Whether one of these names is that of the column.
fn is_set(s: &Sourced, sets: &[Text], column: &str) -> bool
    ensures { result ≡ list_any (is_same_column s.now column.now) sets.now }
{
    sets.iter()
        .any(|set| is_same_column(s, column, set.as_str()))
}

fn one_is_set(
    alloc: Global,
    s: &Sourced,
    sets: &[Text],
    text: &str,
    columns: &[Token],
) -> Result<bool, Cause>
    ensures ok { IfOk result (λ is. is ≡ list_any (λ c. list_any (is_same_column s.now c) sets.now) (map (name_at text.now) columns.now)) }
    ensures mem { OnlyMem result }
{
    for column in columns {
        let name = name(alloc, text, column)?;
        if is_set(s, sets, name.as_str()) {
            return Ok(true);
        }
    }
    Ok(false)
}

/// UPDATE OF fires where one of its columns is set.
fn sets_one_of(
    alloc: Global,
    s: &Sourced,
    sets: &[Text],
    text: &str,
    columns: &[Token],
) -> Result<bool, Cause>
    ensures ok { IfOk result (λ is. is ≡ sets_one_of s.now sets.now (map (name_at text.now) columns.now)) }
    ensures mem { OnlyMem result }
{
    match columns {
        [] => Ok(true),
        [_, ..] => one_is_set(alloc, s, sets, text, columns),
    }
}

fn fires_at(
    alloc: Global,
    s: &Sourced,
    text: &str,
    event: FiringEvent,
    sets: &[Text],
    at: &TriggerEvent,
) -> Result<bool, Cause>
    ensures ok { IfOk result (λ is. is ≡ fires_at s.now text.now (firing_meant event sets.now) at.now) }
    ensures mem { OnlyMem result }
{
    match at {
        TriggerEvent::Delete => match event {
            FiringEvent::AtDelete => Ok(true),
            FiringEvent::AtInsert | FiringEvent::AtUpdate => Ok(false),
        },
        TriggerEvent::Insert => match event {
            FiringEvent::AtInsert => Ok(true),
            FiringEvent::AtDelete | FiringEvent::AtUpdate => Ok(false),
        },
        TriggerEvent::Update(columns) => match event {
            FiringEvent::AtUpdate => sets_one_of(alloc, s, sets, text, columns.as_slice()),
            FiringEvent::AtDelete | FiringEvent::AtInsert => Ok(false),
        },
    }
}

/// Whether a write of the table or view of this name can fire the trigger of an entry: by what it does, and the names that an UPDATE
/// sets. Only memory can fail.
pub fn can_fire(
    alloc: Global,
    table: &str,
    s: &Sourced,
    event: FiringEvent,
    sets: &[Text],
    entry: &Entry,
) -> Result<bool, Cause>
    ensures ok { IfOk result (λ is. is ≡ can_fire table.now s.now (firing_meant event sets.now) entry.now) }
    ensures mem { OnlyMem result }
{
    if !is_same_name(entry.owner.as_bytes(), table.as_bytes()) {
        return Ok(false);
    }
    match trigger_of(entry) {
        Some(trigger) => fires_at(alloc, s, entry.text.as_str(), event, sets, &trigger.event),
        None => Ok(false),
    }
}

/// Whether it can fire one of them.
pub(crate) fn fires_one(
    alloc: Global,
    table: &str,
    s: &Sourced,
    event: FiringEvent,
    sets: &[Text],
    entries: &[Entry],
) -> Result<bool, Cause>
    ensures ok { IfOk result (λ is. is ≡ list_any (can_fire table.now s.now (firing_meant event sets.now)) entries.now) }
    ensures mem { OnlyMem result }
{
    for entry in entries {
        if can_fire(alloc, table, s, event, sets, entry)? {
            return Ok(true);
        }
    }
    Ok(false)
}
