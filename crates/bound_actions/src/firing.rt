// Writes with the triggers that they can fire, each trigger once.
ghost use Rattle.std.specs.Prelude.{◌≡◌, OnOk, Some, IfOk, map, slice_get};
ghost use Rattle.bound_actions.specs.Expressions.{pieces_of};
ghost use Rattle.bound_actions.specs.Froms.{columns_as};
ghost use Rattle.bound_actions.specs.Pieces.{asked};
ghost use Rattle.bound_actions.specs.Queries.{optional_pieces};
ghost use Rattle.bound_actions.specs.Writes.{fired, is_listed, more, opened, rows_spot, step_listed, steps_listed, trigger_listed, trigger_with, write_listed};

use crate::exprs::handed_of;
use crate::froms::{columns_as, over};
use crate::listing::{is_listed, mark, put_more};
use crate::pieces::put_asked;
use crate::queries::put_optional;
use crate::writes::{target_name, write_list};
use crate::{Listed, Piece, Readable, Spot};
use bound_tree::{BoundExpr, BoundItem, BoundStep, BoundTrigger, BoundWrite};
use eng_value::Text;
use sqlite_items::{Items, at};
use std::alloc::{AllocError, Global};

// ---- OLD and NEW

fn row_columns(
    alloc: Global,
    table: &str,
    rows: &[BoundItem],
) -> Result<Items<Readable>, AllocError>
    ensures { IfOk result (λ made. made ≡ map (columns_as (Some table.now)) rows.now) }
{
    let mut made = Items::new(alloc);
    for row in rows {
        let name = Text::from_str(alloc, table)?;
        made.push(columns_as(alloc, Some(name), row)?)?;
    }
    Ok(made)
}

fn rows_spot(alloc: Global, table: &str, trigger: &BoundTrigger) -> Result<Spot, AllocError>
    ensures { IfOk result (λ made. made ≡ rows_spot table.now trigger.now) }
{
    let items = row_columns(alloc, table, trigger.rows.as_slice())?;
    let within = Some(trigger.name.clone()?);
    over(alloc, &within, items)
}

/// WHEN.
fn list_condition(
    alloc: Global,
    units: &[Items<Piece>],
    spot: &Spot,
    trigger: &BoundTrigger,
    listed: &mut Listed,
) -> Result<(), AllocError>
    ensures { OnOk result (listed.new ≡ more (optional_pieces units.now spot.now trigger.now.condition) listed.old) }
{
    let mut own = Items::new(alloc);
    put_optional(alloc, units, spot, &trigger.condition, &mut own)?;
    put_more(own.as_slice(), listed)
}

/// A query in a body.
fn list_asked(
    alloc: Global,
    units: &[Items<Piece>],
    spot: &Spot,
    unit: u32,
    handed: &[BoundExpr],
    listed: &mut Listed,
) -> Result<(), AllocError>
    ensures { OnOk result (listed.new ≡ more (asked units.now unit (map (pieces_of units.now spot.now) handed.now)) listed.old) }
{
    let lists = handed_of(alloc, units, spot, handed)?;
    let mut own = Items::new(alloc);
    put_asked(units, unit, lists.as_slice(), &mut own)?;
    put_more(own.as_slice(), listed)
}

// ---- a write

/// Of the statement's triggers as many as `left` may be open in one another.
#[cycle(firing)]
pub(crate) fn list_write(
    alloc: Global,
    units: &[Items<Piece>],
    all: &[BoundTrigger],
    left: &[BoundTrigger],
    within: &Option<Text>,
    handed: &[Items<Piece>],
    write: &BoundWrite,
    listed: &mut Listed,
) -> Result<(), AllocError>
    ensures { OnOk result (listed.new ≡ write_listed (opened units.now all.now left.now) units.now within.now handed.now write.now listed.old) }
{
    let own = write_list(alloc, units, within, handed, write)?;
    put_more(own.as_slice(), listed)?;
    let table = target_name(&write.target.item);
    list_fired(
        alloc,
        units,
        all,
        left,
        table,
        write.fires.as_slice(),
        listed,
    )
}

#[cycle(firing)]
fn list_fired(
    alloc: Global,
    units: &[Items<Piece>],
    all: &[BoundTrigger],
    left: &[BoundTrigger],
    table: &str,
    places: &[u32],
    listed: &mut Listed,
) -> Result<(), AllocError>
    ensures { OnOk result (listed.new ≡ fired (opened units.now all.now left.now) table.now places.now listed.old) }
{
    for place in places {
        list_trigger(alloc, units, all, left, table, *place, listed)?;
    }
    Ok(())
}

// ---- a trigger

#[cycle(firing)]
fn list_trigger(
    alloc: Global,
    units: &[Items<Piece>],
    all: &[BoundTrigger],
    left: &[BoundTrigger],
    table: &str,
    place: u32,
    listed: &mut Listed,
) -> Result<(), AllocError>
    ensures { OnOk result (listed.new ≡ opened units.now all.now left.now table.now place listed.old) }
{
    match left {
        [] => Ok(()),
        [_, others @ ..] => list_placed(alloc, units, all, others, table, place, listed),
    }
}

#[cycle(firing)]
fn list_placed(
    alloc: Global,
    units: &[Items<Piece>],
    all: &[BoundTrigger],
    left: &[BoundTrigger],
    table: &str,
    place: u32,
    listed: &mut Listed,
) -> Result<(), AllocError>
    ensures { OnOk result (listed.new ≡ trigger_listed (opened units.now all.now left.now) units.now table.now place (slice_get all.now place) (is_listed place listed.old) listed.old) }
{
    match at(all, place as usize) {
        Some(trigger) => list_once(alloc, units, all, left, table, place, trigger, listed),
        None => Ok(()),
    }
}

#[cycle(firing)]
fn list_once(
    alloc: Global,
    units: &[Items<Piece>],
    all: &[BoundTrigger],
    left: &[BoundTrigger],
    table: &str,
    place: u32,
    trigger: &BoundTrigger,
    listed: &mut Listed,
) -> Result<(), AllocError>
    ensures { OnOk result (listed.new ≡ trigger_listed (opened units.now all.now left.now) units.now table.now place (Some trigger.now) (is_listed place listed.old) listed.old) }
{
    if is_listed(place, listed) {
        return Ok(());
    }
    mark(place, listed)?;
    let spot = rows_spot(alloc, table, trigger)?;
    list_opened(alloc, units, all, left, &spot, trigger, listed)
}

#[cycle(firing)]
fn list_opened(
    alloc: Global,
    units: &[Items<Piece>],
    all: &[BoundTrigger],
    left: &[BoundTrigger],
    spot: &Spot,
    trigger: &BoundTrigger,
    listed: &mut Listed,
) -> Result<(), AllocError>
    ensures { OnOk result (listed.new ≡ trigger_with (opened units.now all.now left.now) units.now spot.now trigger.now listed.old) }
{
    list_condition(alloc, units, spot, trigger, listed)?;
    list_steps(
        alloc,
        units,
        all,
        left,
        spot,
        trigger.body.as_slice(),
        listed,
    )
}

#[cycle(firing)]
fn list_steps(
    alloc: Global,
    units: &[Items<Piece>],
    all: &[BoundTrigger],
    left: &[BoundTrigger],
    spot: &Spot,
    body: &[BoundStep],
    listed: &mut Listed,
) -> Result<(), AllocError>
    ensures { OnOk result (listed.new ≡ steps_listed (opened units.now all.now left.now) units.now spot.now body.now listed.old) }
{
    for step in body {
        list_step(alloc, units, all, left, spot, step, listed)?;
    }
    Ok(())
}

#[cycle(firing)]
fn list_step(
    alloc: Global,
    units: &[Items<Piece>],
    all: &[BoundTrigger],
    left: &[BoundTrigger],
    spot: &Spot,
    step: &BoundStep,
    listed: &mut Listed,
) -> Result<(), AllocError>
    ensures { OnOk result (listed.new ≡ step_listed (opened units.now all.now left.now) units.now spot.now step.now listed.old) }
{
    match step {
        BoundStep::Asks(unit, handed) => {
            list_asked(alloc, units, spot, *unit, handed.as_slice(), listed)
        }
        BoundStep::Writes(write) => {
            let handed = handed_of(alloc, units, spot, write.captures.as_slice())?;
            list_write(
                alloc,
                units,
                all,
                left,
                &spot.within,
                handed.as_slice(),
                write,
                listed,
            )
        }
    }
}
