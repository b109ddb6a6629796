// Units, each of which stands once, and WITH tables (WITH Clause).
ghost use Rattle.std.specs.Prelude.{◌≡◌, length, position, slice_get, IfOk};
ghost use Rattle.std.specs.Option.{option_copied};
ghost use Rattle.sql_bound.specs.Answers.{Becomes, OnlyMem};
ghost use Rattle.sql_bound.specs.Queries.{asked_as, with_unit};
ghost use Rattle.sql_bound.specs.Scopes.{with_named};
ghost use Rattle.sql_bound.specs.Withs.{is_recursion};
ghost use Rattle.bound_tree.specs.SameUnits.{same_unit};
ghost use Rattle.bind_scope.specs.Entries.{entry_of, itself_of};

use crate::places::{pushed, small};
use bound_tree::{BoundUnit, same_unit};
use eng_entry::is_same_name;
use eng_value::{Cause, Text};
use sql_bound::{Asked, ResultColumn, WithEntry, WithMeaning, Work};
use sqlite_items::{Items, at};

fn unit_place(units: &[BoundUnit], unit: &BoundUnit) -> Option<usize>
    ensures { result ≡ position (same_unit unit.now) units.now }
{
    units.iter().position(|u| same_unit(unit, u))
}

/// The place of a unit: that of the same one, if it is there, else behind the others.
pub fn with_unit(unit: BoundUnit, units: &mut Items<BoundUnit>) -> Result<u32, Cause>
    ensures { Becomes (with_unit unit units.old) result units.new }
{
    match unit_place(units.as_slice(), &unit) {
        Some(place) => small(place),
        None => {
            let place = small(units.len())?;
            pushed(units, unit)?;
            Ok(place)
        }
    }
}

/// The unit of a query, with what it needs and the columns that it gives.
pub fn asked_as(
    unit: BoundUnit,
    columns: Items<ResultColumn>,
    work: Work,
) -> Result<(Asked, Items<BoundUnit>), Cause>
    ensures ok { IfOk result (λ a. a ≡ asked_as unit columns work) }
    ensures mem { OnlyMem result }
{
    let Work {
        mut units,
        needs,
        aggregates: _,
    } = work;
    let unit = with_unit(unit, &mut units)?;
    Ok((
        Asked {
            unit,
            needs,
            columns,
        },
        units,
    ))
}

/// The latest WITH table of the name.
pub fn with_named<'a>(name: &str, entries: &'a [WithEntry]) -> Option<&'a WithEntry>
    ensures { option_copied result ≡ with_named name.now entries.now }
{
    for entry in entries {
        if is_same_name(entry.name.as_bytes(), name.as_bytes()) {
            return Some(entry);
        }
    }
    None
}

/// Whether the unit in this place is a recursive table.
pub fn is_recursion(units: &[BoundUnit], place: u32) -> bool
    ensures { result ≡ is_recursion (slice_get units.now place) }
{
    match at(units, place as usize) {
        Some(BoundUnit::Recursed(_)) => true,
        _ => false,
    }
}

/// The WITH table of a query that was bound, by how many FROMs there are around that in whose WITH it is written.
pub fn table_entry(
    name: Text,
    around: usize,
    asked: Asked,
    units: &[BoundUnit],
) -> Result<WithEntry, Cause>
    ensures ok { IfOk result (λ t. t ≡ entry_of name around (asked, units.now)) }
    ensures mem { OnlyMem result }
{
    let around = small(around)?;
    let Asked {
        unit,
        needs,
        columns,
    } = asked;
    let recursive = is_recursion(units, unit);
    Ok(WithEntry {
        name,
        around,
        meaning: WithMeaning::Bound(unit, recursive, needs, columns),
    })
}

/// The WITH table that is being written.
pub fn itself_entry(name: Text, around: usize) -> Result<WithEntry, Cause>
    ensures ok { IfOk result (λ t. t ≡ itself_of name around) }
    ensures mem { OnlyMem result }
{
    Ok(WithEntry {
        name,
        around: small(around)?,
        meaning: WithMeaning::Itself,
    })
}
