// What the items of a FROM do.
ghost use Rattle.std.specs.Prelude.{◌≡◌, ◌++◌, [], ◌∷◌, IfOk, OnOk, map};
ghost use Rattle.bound_tree.specs.declared.units.BoundColumn.{BoundColumn};
ghost use Rattle.bound_actions.specs.Froms.{columns_as, items_pieces, on_pieces, over, readable, source_pieces, table_of, table_stands};

use crate::exprs::{handed_of, put_action, put_all};
use crate::pieces::{copied_name, new_action, put_asked, put_unit};
use crate::{Piece, Readable, Spot};
use bound_tree::{BoundColumn, BoundExpr, BoundItem, BoundSource};
use eng_value::{ActionKind, Text};
use sqlite_items::Items;
use std::alloc::{AllocError, Global};

// ---- as its columns are read

fn table_of(source: &BoundSource) -> Result<Option<Text>, AllocError>
    ensures { IfOk result (λ table. table ≡ table_of source.now) }
{
    match source {
        BoundSource::Table(name, _) => Ok(Some(name.clone()?)),
        BoundSource::Module(name, _, _, _) => Ok(Some(name.clone()?)),
        BoundSource::View(name, _) => Ok(Some(name.clone()?)),
        BoundSource::Query(_, _) => Ok(None),
        BoundSource::With(_, _) => Ok(None),
        BoundSource::Recursive(_, _) => Ok(None),
        BoundSource::Queue => Ok(None),
        BoundSource::Given => Ok(None),
    }
}

fn column_names(alloc: Global, columns: &[BoundColumn]) -> Result<Items<Text>, AllocError>
    ensures { IfOk result (λ names. names ≡ map (λ (c : BoundColumn). c.name) columns.now) }
{
    let mut names = Items::new(alloc);
    for column in columns {
        names.push(column.name.clone()?)?;
    }
    Ok(names)
}

/// The columns of an item, as those of this table.
pub(crate) fn columns_as(
    alloc: Global,
    table: Option<Text>,
    item: &BoundItem,
) -> Result<Readable, AllocError>
    ensures { IfOk result (λ made. made ≡ columns_as table item.now) }
{
    let columns = column_names(alloc, item.columns.as_slice())?;
    Ok(Readable { table, columns })
}

pub(crate) fn readable(alloc: Global, item: &BoundItem) -> Result<Readable, AllocError>
    ensures { IfOk result (λ made. made ≡ readable item.now) }
{
    let table = table_of(&item.source)?;
    columns_as(alloc, table, item)
}

pub(crate) fn all_readable(
    alloc: Global,
    items: &[BoundItem],
) -> Result<Items<Readable>, AllocError>
    ensures { IfOk result (λ made. made ≡ map readable items.now) }
{
    let mut made = Items::new(alloc);
    for item in items {
        made.push(readable(alloc, item)?)?;
    }
    Ok(made)
}

/// Over these items, without aggregates.
pub(crate) fn over(
    alloc: Global,
    within: &Option<Text>,
    items: Items<Readable>,
) -> Result<Spot, AllocError>
    ensures { IfOk result (λ made. made ≡ over within.now items) }
{
    let within = copied_name(within)?;
    let slots = Items::new(alloc);
    Ok(Spot {
        within,
        items,
        slots,
    })
}

// ---- as they stand in FROM

fn put_stands(
    alloc: Global,
    spot: &Spot,
    item: usize,
    name: &Text,
    out: &mut Items<Piece>,
) -> Result<(), AllocError>
    ensures { OnOk result (out.new ≡ out.old ++ table_stands spot.now item name.now ∷ []) }
{
    let action = new_action(alloc, &spot.within, ActionKind::Read, name.as_str(), "")?;
    out.push(Piece::Stands(item, action))
}

fn put_source(
    alloc: Global,
    units: &[Items<Piece>],
    spot: &Spot,
    item: usize,
    source: &BoundSource,
    out: &mut Items<Piece>,
) -> Result<(), AllocError>
    ensures { OnOk result (out.new ≡ out.old ++ source_pieces units.now spot.now item source.now) }
{
    match source {
        BoundSource::Table(name, _) => put_stands(alloc, spot, item, name, out),
        BoundSource::Module(name, _, _, args) => {
            put_stands(alloc, spot, item, name, out)?;
            put_all(alloc, units, spot, args.as_slice(), out)
        }
        BoundSource::View(name, unit) => {
            put_stands(alloc, spot, item, name, out)?;
            put_unit(units, *unit, out)
        }
        BoundSource::Query(unit, handed) => {
            let lists = handed_of(alloc, units, spot, handed.as_slice())?;
            put_asked(units, *unit, lists.as_slice(), out)
        }
        BoundSource::With(_, handed) => put_all(alloc, units, spot, handed.as_slice(), out),
        BoundSource::Recursive(_, handed) => {
            put_action(alloc, spot, ActionKind::Recursive, "", "", out)?;
            put_all(alloc, units, spot, handed.as_slice(), out)
        }
        BoundSource::Queue => Ok(()),
        BoundSource::Given => Ok(()),
    }
}

fn put_on(
    alloc: Global,
    units: &[Items<Piece>],
    spot: &Spot,
    made: bool,
    ons: &[BoundExpr],
    out: &mut Items<Piece>,
) -> Result<(), AllocError>
    ensures { OnOk result (out.new ≡ out.old ++ on_pieces units.now spot.now made ons.now) }
{
    if made {
        return Ok(());
    }
    put_all(alloc, units, spot, ons, out)
}

pub(crate) fn put_items(
    alloc: Global,
    units: &[Items<Piece>],
    spot: &Spot,
    items: &[BoundItem],
    out: &mut Items<Piece>,
) -> Result<(), AllocError>
    ensures { OnOk result (out.new ≡ out.old ++ items_pieces units.now spot.now 0 items.now) }
{
    for (place, item) in items.iter().enumerate() {
        put_source(alloc, units, spot, place, &item.source, out)?;
        put_on(alloc, units, spot, item.ons_made, item.ons.as_slice(), out)?;
    }
    Ok(())
}
