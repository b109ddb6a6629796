// Which column a write names: a column, or the rowid where no column is the rowid (ROWIDs and the INTEGER PRIMARY KEY).
ghost use Rattle.std.specs.Prelude.{◌≡◌, ◌∷◌, ◌++◌, [], map, IfOk, OnOk, Err};
ghost use Rattle.bind_target.specs.Meant.{target_meant};
ghost use Rattle.eng_value.specs.declared.cause.Cause.TheVariants.{Unknown};
ghost use Rattle.eng_value.specs.declared.cause.NameKind.TheVariants as kind;
ghost use Rattle.sql_bound.specs.Answers.{Answers, OnlyMem, Refuses};
ghost use Rattle.sql_bound.specs.Limits.{by_column, walked};
ghost use Rattle.eng_value.specs.declared.cause.Cause.TheVariants.{Limit};
ghost use Rattle.eng_value.specs.declared.cause.LimitKind.TheVariants as limit;
ghost use Rattle.sql_bound.specs.Targets.{found_place, place_written, rowid_place};
ghost use Rattle.sql_bound.specs.Writes.{listed_place, places_named, shown_places};
ghost use Rattle.sql_words.specs.Spelled.{name_at};
ghost use Rattle.bind_target.specs.Places.{LeavesAt};

use crate::written::Target;
use bind_entry::{name, place_of_column, put, small};
use bind_scope::{is_rowid_name, text_of};
use eng_value::{Cause, LimitKind, MAX_COLUMNS, NameKind};
use sql_bound::Sourced;
use sql_tree::Token;
use sqlite_items::Items;
use std::alloc::Global;

fn wide(place: Option<u32>) -> Option<usize>
    ensures { result ≡ place }
{
    match place {
        Some(place) => Some(place as usize),
        None => None,
    }
}

fn narrow(place: Option<usize>) -> Result<Option<u32>, Cause>
    ensures ok { IfOk result (λ p. p ≡ place) }
    ensures mem { OnlyMem result }
{
    match place {
        Some(place) => Ok(Some(small(place)?)),
        None => Ok(None),
    }
}

fn rowid_place(s: &Sourced, name: &str) -> Option<Option<usize>>
    ensures { result ≡ rowid_place s.now name.now }
{
    if is_rowid_name(name) && s.has_rowid {
        Some(wide(s.rowid))
    } else {
        None
    }
}

/// The place of the column that a write names, none for the rowid, if there is any.
pub(crate) fn place_written(s: &Sourced, name: &str) -> Option<Option<usize>>
    ensures { result ≡ place_written s.now name.now }
{
    match place_of_column(s.columns.as_slice(), name) {
        Some(place) => Some(Some(place)),
        None => rowid_place(s, name),
    }
}

fn no_column(alloc: Global, name: &str) -> Result<Option<u32>, Cause>
    ensures { Refuses (Unknown kind.Column name.now) result }
{
    let name = text_of(alloc, name)?;
    Err(Cause::Unknown(NameKind::Column, name))
}

/// The place of the column that a write names, none for the rowid, or that the name is unknown.
pub fn found_place(alloc: Global, s: &Sourced, name: &str) -> Result<Option<u32>, Cause>
    ensures { Answers (found_place name.now (place_written s.now name.now)) result }
{
    match place_written(s, name) {
        Some(place) => narrow(place),
        None => no_column(alloc, name),
    }
}

// ---- the columns of an INSERT

fn put_place(
    alloc: Global,
    target: &Target,
    text: &str,
    token: &Token,
    places: &mut Items<Option<u32>>,
) -> Result<(), Cause>
    ensures { LeavesAt (listed_place (target_meant target.now) (name_at text.now token.now) places.old) result places.new }
{
    let name = name(alloc, text, token)?;
    let place = found_place(alloc, &target.source, name.as_str())?;
    put(places, place)
}

fn too_many() -> Result<(), Cause>
    ensures { result ≡ Err (Limit limit.Columns) }
{
    Err(Cause::Limit(LimitKind::Columns))
}

/// Each in turn, of which so many count.
fn put_places(
    alloc: Global,
    target: &Target,
    text: &str,
    tokens: &[Token],
    room: usize,
    places: &mut Items<Option<u32>>,
) -> Result<(), Cause>
    ensures { LeavesAt (walked (listed_place (target_meant target.now)) room (map (name_at text.now) tokens.now) places.old) result places.new }
{
    match tokens {
        [] => Ok(()),
        [token, rest @ ..] => match room.checked_sub(1) {
            Some(room) => {
                put_place(alloc, target, text, token, places)?;
                put_places(alloc, target, text, rest, room, places)
            }
            None => too_many(),
        },
    }
}

/// The places of the columns that are shown.
fn shown_places(alloc: Global, hidden: &[bool]) -> Result<Items<Option<u32>>, Cause>
    ensures ok { IfOk result (λ places. places ≡ shown_places 0 hidden.now) }
    ensures mem { OnlyMem result }
{
    let mut places = Items::new(alloc);
    let mut place = 0;
    for is_hidden in hidden {
        put_shown(*is_hidden, place, &mut places)?;
        place += 1;
    }
    Ok(places)
}

fn put_shown(is_hidden: bool, place: usize, places: &mut Items<Option<u32>>) -> Result<(), Cause>
    ensures ok { OnOk result (places.new ≡ places.old ++ shown_places place (is_hidden ∷ [])) }
    ensures mem { OnlyMem result }
{
    if is_hidden {
        return Ok(());
    }
    put(places, Some(small(place)?))
}

/// The columns that an INSERT names, and all that are shown where it names none.
pub fn places_named(
    alloc: Global,
    target: &Target,
    text: &str,
    tokens: &[Token],
) -> Result<Items<Option<u32>>, Cause>
    ensures { Answers (places_named (target_meant target.now) (map (name_at text.now) tokens.now)) result }
{
    match tokens {
        [] => shown_places(alloc, target.source.hidden.as_slice()),
        [_, ..] => listed_places(alloc, target, text, tokens),
    }
}

fn listed_places(
    alloc: Global,
    target: &Target,
    text: &str,
    tokens: &[Token],
) -> Result<Items<Option<u32>>, Cause>
    ensures { Answers (by_column (listed_place (target_meant target.now)) (map (name_at text.now) tokens.now) []) result }
{
    let mut places = Items::new(alloc);
    put_places(alloc, target, text, tokens, MAX_COLUMNS, &mut places)?;
    Ok(places)
}
