// What a write does itself.
ghost use Rattle.std.specs.Prelude.{◌≡◌, ◌++◌, [], ◌∷◌, IfOk, OnOk};
ghost use Rattle.bound_actions.specs.Pieces.{filled};
ghost use Rattle.bound_actions.specs.Writes.{change_pieces, returning_pieces, set_name, set_pieces, sets_pieces, target_name, target_spot, upsert_pieces, upsert_sets, whole, write_pieces};

use crate::exprs::{handed_of, put_action, put_all, put_expr};
use crate::froms::{over, readable};
use crate::pieces::{put_asked, put_filled};
use crate::{Piece, Spot};
use bound_tree::{
    BoundChange, BoundItem, BoundReturning, BoundSet, BoundSource, BoundUpsert, BoundWrite,
};
use eng_value::{ActionKind, Text};
use sqlite_items::{Items, at};
use std::alloc::{AllocError, Global};

// ---- the target

pub(crate) fn target_name(target: &BoundItem) -> &str
    ensures { result.now ≡ target_name target.now }
{
    match &target.source {
        BoundSource::Table(name, _) => name.as_str(),
        BoundSource::Module(name, _, _, _) => name.as_str(),
        BoundSource::View(name, _) => name.as_str(),
        BoundSource::Query(_, _) => "",
        BoundSource::With(_, _) => "",
        BoundSource::Recursive(_, _) => "",
        BoundSource::Queue => "",
        BoundSource::Given => "",
    }
}

/// Over the row that is there, and that which is to be put.
fn target_spot(alloc: Global, within: &Option<Text>, target: &BoundItem) -> Result<Spot, AllocError>
    ensures { IfOk result (λ made. made ≡ target_spot within.now target.now) }
{
    let mut items = Items::new(alloc);
    items.push(readable(alloc, target)?)?;
    items.push(readable(alloc, target)?)?;
    over(alloc, within, items)
}

fn set_name(target: &BoundItem, place: Option<u32>) -> &str
    ensures { result.now ≡ set_name target.now place }
{
    match place {
        Some(place) => match at(target.columns.as_slice(), place as usize) {
            Some(column) => column.name.as_str(),
            None => "",
        },
        None => "rowid",
    }
}

// ---- what it changes

fn put_set(
    alloc: Global,
    units: &[Items<Piece>],
    spot: &Spot,
    target: &BoundItem,
    set: &BoundSet,
    out: &mut Items<Piece>,
) -> Result<(), AllocError>
    ensures { OnOk result (out.new ≡ out.old ++ set_pieces units.now spot.now target.now set.now) }
{
    let column = set_name(target, set.column);
    put_action(
        alloc,
        spot,
        ActionKind::Update,
        target_name(target),
        column,
        out,
    )?;
    put_expr(alloc, units, spot, &set.value, out)
}

fn put_sets(
    alloc: Global,
    units: &[Items<Piece>],
    spot: &Spot,
    target: &BoundItem,
    sets: &[BoundSet],
    out: &mut Items<Piece>,
) -> Result<(), AllocError>
    ensures { OnOk result (out.new ≡ out.old ++ sets_pieces units.now spot.now target.now sets.now) }
{
    for set in sets {
        put_set(alloc, units, spot, target, set, out)?;
    }
    Ok(())
}

fn put_whole(
    alloc: Global,
    spot: &Spot,
    kind: ActionKind,
    target: &BoundItem,
    out: &mut Items<Piece>,
) -> Result<(), AllocError>
    ensures { OnOk result (out.new ≡ out.old ++ whole spot.now kind target.now ∷ []) }
{
    put_action(alloc, spot, kind, target_name(target), "", out)
}

fn put_change(
    alloc: Global,
    units: &[Items<Piece>],
    spot: &Spot,
    target: &BoundItem,
    change: &BoundChange,
    out: &mut Items<Piece>,
) -> Result<(), AllocError>
    ensures { OnOk result (out.new ≡ out.old ++ change_pieces units.now spot.now target.now change.now) }
{
    match change {
        BoundChange::Inserted(_, _, unit, handed) => {
            put_whole(alloc, spot, ActionKind::Insert, target, out)?;
            let lists = handed_of(alloc, units, spot, handed.as_slice())?;
            put_asked(units, *unit, lists.as_slice(), out)
        }
        BoundChange::Defaulted => put_whole(alloc, spot, ActionKind::Insert, target, out),
        BoundChange::Updated(sets, conjuncts) => {
            put_sets(alloc, units, spot, target, sets.as_slice(), out)?;
            put_all(alloc, units, spot, conjuncts.as_slice(), out)
        }
        BoundChange::Deleted(conjuncts) => {
            put_whole(alloc, spot, ActionKind::Delete, target, out)?;
            put_all(alloc, units, spot, conjuncts.as_slice(), out)
        }
    }
}

// ---- what stands behind it

fn put_upsert_sets(
    alloc: Global,
    units: &[Items<Piece>],
    spot: &Spot,
    target: &BoundItem,
    sets: &Option<Items<BoundSet>>,
    out: &mut Items<Piece>,
) -> Result<(), AllocError>
    ensures { OnOk result (out.new ≡ out.old ++ upsert_sets units.now spot.now target.now sets.now) }
{
    match sets {
        Some(sets) => put_sets(alloc, units, spot, target, sets.as_slice(), out),
        None => Ok(()),
    }
}

fn put_upsert(
    alloc: Global,
    units: &[Items<Piece>],
    spot: &Spot,
    target: &BoundItem,
    upsert: &Option<BoundUpsert>,
    out: &mut Items<Piece>,
) -> Result<(), AllocError>
    ensures { OnOk result (out.new ≡ out.old ++ upsert_pieces units.now spot.now target.now upsert.now) }
{
    match upsert {
        Some(upsert) => {
            put_upsert_sets(alloc, units, spot, target, &upsert.sets, out)?;
            put_all(alloc, units, spot, upsert.conjuncts.as_slice(), out)
        }
        None => Ok(()),
    }
}

fn put_returning(
    alloc: Global,
    units: &[Items<Piece>],
    spot: &Spot,
    returning: &Option<BoundReturning>,
    out: &mut Items<Piece>,
) -> Result<(), AllocError>
    ensures { OnOk result (out.new ≡ out.old ++ returning_pieces units.now spot.now returning.now) }
{
    match returning {
        Some(returning) => put_all(alloc, units, spot, returning.results.as_slice(), out),
        None => Ok(()),
    }
}

// ---- the whole

fn put_write(
    alloc: Global,
    units: &[Items<Piece>],
    spot: &Spot,
    write: &BoundWrite,
    out: &mut Items<Piece>,
) -> Result<(), AllocError>
    ensures { OnOk result (out.new ≡ out.old ++ write_pieces units.now spot.now write.now) }
{
    let target = &write.target.item;
    put_change(alloc, units, spot, target, &write.change, out)?;
    put_upsert(alloc, units, spot, target, &write.upsert, out)?;
    put_returning(alloc, units, spot, &write.returning, out)
}

/// What a write does, with what its trigger hands over to it.
pub(crate) fn write_list(
    alloc: Global,
    units: &[Items<Piece>],
    within: &Option<Text>,
    handed: &[Items<Piece>],
    write: &BoundWrite,
) -> Result<Items<Piece>, AllocError>
    ensures { IfOk result (λ list. list ≡ filled handed.now (write_pieces units.now (target_spot within.now write.now.target.item) write.now)) }
{
    let spot = target_spot(alloc, within, &write.target.item)?;
    let mut own = Items::new(alloc);
    put_write(alloc, units, &spot, write, &mut own)?;
    let mut list = Items::new(alloc);
    put_filled(handed, own.as_slice(), &mut list)?;
    Ok(list)
}
