// Where the values of an INSERT stand in a row of its source.
ghost use Rattle.std.specs.Prelude.{◌≡◌, ℕ, Some, map, position, IfOk};
ghost use Rattle.std.specs.List.{range_with_len};
ghost use Rattle.bind_target.specs.Meant.{target_meant};
ghost use Rattle.sql_bound.specs.Answers.{OnlyMem};
ghost use Rattle.sql_bound.specs.Writes.{insertion, is_place};

use crate::written::Target;
use bind_entry::{put, small};
use bound_tree::{BoundChange, BoundExpr};
use eng_value::Cause;
use sqlite_items::Items;
use std::alloc::Global;

fn is_place(a: &Option<u32>, b: &Option<u32>) -> bool
    ensures { result ≡ is_place a.now b.now }
{
    match a {
        Some(a) => match b {
            Some(b) => *a == *b,
            None => false,
        },
        None => b.is_none(),
    }
}

fn position_of(listed: &[Option<u32>], column: &Option<u32>) -> Option<usize>
    ensures { result ≡ position (is_place column.now) listed.now }
{
    listed.iter().position(|place| is_place(column, place))
}

/// The first place in which a column is listed.
fn place_listed(listed: &[Option<u32>], column: Option<u32>) -> Result<Option<u32>, Cause>
    ensures ok { IfOk result (λ p. p ≡ position (is_place column) listed.now) }
    ensures mem { OnlyMem result }
{
    match position_of(listed, &column) {
        Some(place) => Ok(Some(small(place)?)),
        None => Ok(None),
    }
}

/// For each of so many columns the place of its value.
fn places_of_values(
    alloc: Global,
    listed: &[Option<u32>],
    columns: usize,
) -> Result<Items<Option<u32>>, Cause>
    ensures ok { IfOk result (λ places. places ≡ map (λ k. position (is_place (Some k)) listed.now) (range_with_len 0 columns)) }
    ensures mem { OnlyMem result }
{
    let mut places = Items::new(alloc);
    for column in 0..columns {
        let place = place_listed(listed, Some(small(column)?))?;
        put(&mut places, place)?;
    }
    Ok(places)
}

/// What an INSERT puts of the rows of a unit that is asked with these arguments: of equal names the first counts. Only memory can fail.
pub fn insertion(
    alloc: Global,
    target: &Target,
    listed: &[Option<u32>],
    unit: u32,
    arguments: Items<BoundExpr>,
) -> Result<BoundChange, Cause>
    ensures ok { IfOk result (λ change. change ≡ insertion (target_meant target.now) listed.now unit arguments) }
    ensures mem { OnlyMem result }
{
    let places = places_of_values(alloc, listed, target.source.columns.len())?;
    let rowid = place_listed(listed, target.source.rowid)?;
    Ok(BoundChange::Inserted(places, rowid, unit, arguments))
}
