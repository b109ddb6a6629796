// What is ignored of an item: its columns by their places, and without a place its rowid.
ghost use Rattle.std.specs.Prelude.{◌≡◌, ◌++◌, Some, IfOk, OnOk};
ghost use Rattle.bound_actions.specs.Froms.{table_of};
ghost use Rattle.bound_ignored.specs.Marked.{marked, marked_as, placed_if, places_in};

use crate::marking::Marking;
use crate::reads::is_ignored;
use bound_tree::{BoundColumn, BoundItem, BoundSource};
use eng_value::{Action, Text};
use sqlite_items::Items;
use std::alloc::{AllocError, Global};

/// A place as bound trees count places. One that is too large is want of memory: no list is so long.
fn small(place: usize) -> Result<u32, AllocError>
    ensures { IfOk result (λ n. n ≡ place) }
{
    match u32::try_from(place) {
        Ok(number) => Ok(number),
        Err(_) => Err(AllocError),
    }
}

fn put_if(
    is_there: bool,
    place: Option<u32>,
    places: &mut Items<Option<u32>>,
) -> Result<(), AllocError>
    ensures { OnOk result (places.new ≡ places.old ++ placed_if is_there place) }
{
    if is_there { places.push(place) } else { Ok(()) }
}

/// Which of these columns, and whether the rowid, is ignored where they are read as those of this table.
fn places_in(
    alloc: Global,
    ignored: &[Action],
    within: &Option<Text>,
    table: &str,
    columns: &[BoundColumn],
) -> Result<Items<Option<u32>>, AllocError>
    ensures { IfOk result (λ places. places ≡ places_in ignored.now within.now table.now columns.now) }
{
    let mut places = Items::new(alloc);
    put_if(
        is_ignored(ignored, within, table, "rowid"),
        None,
        &mut places,
    )?;
    for (k, column) in columns.iter().enumerate() {
        let is_there = is_ignored(ignored, within, table, column.name.as_str());
        put_if(is_there, Some(small(k)?), &mut places)?;
    }
    Ok(places)
}

/// Marks an item whose columns are read as those of this table.
pub(crate) fn mark_as(
    alloc: Global,
    ignored: &[Action],
    within: &Option<Text>,
    table: &str,
    item: &mut BoundItem,
) -> Result<(), AllocError>
    ensures { OnOk result (item.new ≡ marked_as ignored.now within.now (Some table.now) item.old) }
{
    let places = places_in(alloc, ignored, within, table, item.columns.as_slice())?;
    item.ignored = places;
    Ok(())
}

/// The table, the module's table or the view whose columns an item has, if it is one.
fn table_of(source: &BoundSource) -> Result<Option<Text>, AllocError>
    ensures { IfOk result (λ table. table ≡ table_of source.now) }
{
    match source {
        BoundSource::Table(name, _) => Ok(Some(name.clone()?)),
        BoundSource::Module(name, _, _, _) => Ok(Some(name.clone()?)),
        BoundSource::View(name, _) => Ok(Some(name.clone()?)),
        BoundSource::Query(_, _) => Ok(None),
        BoundSource::With(_, _) => Ok(None),
        BoundSource::Recursive(_, _) => Ok(None),
        BoundSource::Queue => Ok(None),
        BoundSource::Given => Ok(None),
    }
}

impl Marking for BoundItem {
    ghost as_marked = { marked };

    fn mark(
        &mut self,
        alloc: Global,
        ignored: &[Action],
        within: &Option<Text>,
    ) -> Result<(), AllocError> {
        match table_of(&self.source)? {
            Some(table) => mark_as(alloc, ignored, within, table.as_str(), self),
            None => Ok(()),
        }
    }
}
