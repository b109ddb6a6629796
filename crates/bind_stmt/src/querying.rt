// Queries that run.
ghost use Rattle.std.specs.Prelude.{◌≡◌, ◌++◌, map, slice_get, IfOk};
ghost use Rattle.bind_stmt.specs.Binds.{Answers, AnswersBy, AreFrom, IsBound, IsItem, IsJoin};
ghost use Rattle.bind_stmt.specs.Ignored.{are_marked, is_marked};
ghost use Rattle.bind_stmt.specs.Steps.{inner_ons};
ghost use Rattle.bind_stmt.specs.declared.statement.Bound.TheVariants as bound;
ghost use Rattle.bound_ignored.specs.Erased.{erased, marks_of};
ghost use Rattle.sql_meaning.specs.Running.{first_part, from_of, is_plain_query, item_of_table, join_by, query_of, select_of, tested_by};
ghost use Rattle.sql_meaning.specs.Searches.{marks_in};

use crate::keys::index_terms;
use crate::statement::Bound;
use crate::tables::table_of_source;
use bound_ignored::erased_all;
use bound_tree::{
    BoundCore, BoundExpr, BoundItem, BoundPart, BoundQuery, BoundSource, BoundUnit, JoinKind,
};
use eng_value::{Cause, Text};
use sql_meaning::{BoundSelect, FromTable, Join, TableEntry};
use sqlite_items::Items;
use std::alloc::{AllocError, Global};
use std::mem;

/// A query that was bound to the unit in this place.
pub(crate) fn query(
    alloc: Global,
    tables: &[TableEntry],
    units: Items<BoundUnit>,
    place: u32,
) -> Result<Bound, Cause>
    ensures { AnswersBy IsBound (query_of tables.now units place) result }
{
    let mut part = first_part(alloc, units, place)?;
    match &mut part {
        BoundPart::Select(core) => Ok(Bound::Select(select(alloc, tables, core)?)),
        BoundPart::Values(rows) => Ok(Bound::Values(mem::replace(rows, Items::new(alloc)))),
    }
}

/// The one part of the query in this place: in no order, and all of its rows.
pub(crate) fn first_part(
    alloc: Global,
    units: Items<BoundUnit>,
    place: u32,
) -> Result<BoundPart, Cause>
    ensures { Answers (first_part (slice_get units place)) result }
{
    let mut units = units;
    let place = place as usize;
    if place >= units.len() {
        return Err(Cause::NotYet);
    }
    let mut unit = units.remove(place);
    match &mut unit {
        BoundUnit::Queried(query) if is_plain_query(query) => Ok(mem::replace(
            &mut query.first,
            BoundPart::Values(Items::new(alloc)),
        )),
        _ => Err(Cause::NotYet),
    }
}

fn is_plain_query(query: &BoundQuery) -> bool
    ensures { result ≡ is_plain_query query.now }
{
    query.others.is_empty()
        && query.order.is_empty()
        && query.limit.is_none()
        && query.offset.is_none()
}

fn select(alloc: Global, tables: &[TableEntry], core: &mut BoundCore) -> Result<BoundSelect, Cause>
    ensures { AnswersBy (λ r b. IsBound r (bound.Select b)) (select_of tables.now core.old) result }
{
    if core.groups.is_some() || core.distinct {
        return Err(Cause::NotYet);
    }
    let marks = marks_of(alloc, tables, core.items.as_slice())?;
    let from = from_tables(alloc, tables, marks.as_slice(), core.items.as_slice())?;
    let filter = mem::replace(&mut core.conjuncts, Items::new(alloc));
    let conjuncts = rejecting(alloc, marks.as_slice(), core.items.as_slice(), filter)?;
    let results = mem::replace(&mut core.results, Items::new(alloc));
    let results = as_stored(alloc, marks.as_slice(), results)?;
    Ok(BoundSelect {
        from,
        conjuncts,
        results,
    })
}

// ---- FROM

/// The marks of the items of a FROM.
fn marks_of(
    alloc: Global,
    tables: &[TableEntry],
    items: &[BoundItem],
) -> Result<Items<BoundItem>, Cause>
    ensures { AnswersBy (λ from marks. marks_of marks ≡ marks_in from) (from_of tables.now items.now) result }
{
    let mut marks = Items::new(alloc);
    for item in items {
        let table = table_of_source(tables, &item.source)?;
        marks.push(marked(alloc, item, table.rowid)?)?;
    }
    Ok(marks)
}

/// An item that has no more than its marks: what of it is ignored, and which column is the rowid.
fn marked(alloc: Global, item: &BoundItem, rowid: Option<u32>) -> Result<BoundItem, AllocError>
    ensures { IfOk result (λ made. (made.ignored ≡ item.now.ignored) × (made.rowid ≡ rowid)) }
{
    let ignored = Items::from_slice(alloc, item.ignored.as_slice())?;
    Ok(BoundItem {
        join: JoinKind::Inner,
        ons: Items::new(alloc),
        ons_made: false,
        shown: Text::from_str(alloc, "")?,
        source: BoundSource::Given,
        columns: Items::new(alloc),
        kinds: Items::new(alloc),
        rowid,
        indexes: Items::new(alloc),
        ignored,
    })
}

/// The tables of a FROM, whose items have these marks.
fn from_tables(
    alloc: Global,
    tables: &[TableEntry],
    marks: &[BoundItem],
    items: &[BoundItem],
) -> Result<Items<FromTable>, Cause>
    ensures { AnswersBy (AreFrom (marks_of marks.now)) (from_of tables.now items.now) result }
{
    let mut from = Items::new(alloc);
    for item in items {
        let table = table_of_source(tables, &item.source)?;
        from.push(from_table(alloc, table, marks, item)?)?;
    }
    Ok(from)
}

/// An item by the number of its table.
fn from_table(
    alloc: Global,
    table: &TableEntry,
    marks: &[BoundItem],
    item: &BoundItem,
) -> Result<FromTable, AllocError>
    ensures { IfOk result (IsItem (marks_of marks.now) (item_of_table item.now table.now)) }
{
    let indexes = index_terms(alloc, table.rowid, item.indexes.as_slice())?;
    let join = join_of(alloc, marks, item)?;
    Ok(FromTable {
        table: table.number,
        indexes,
        join,
    })
}

/// How an item is joined: what the ON of a LEFT JOIN tests makes its pairs.
fn join_of(alloc: Global, marks: &[BoundItem], item: &BoundItem) -> Result<Join, AllocError>
    ensures { IfOk result (IsJoin (marks_of marks.now) (join_by item.now.join item.now.ons)) }
{
    match item.join {
        JoinKind::Inner => Ok(Join::Inner),
        JoinKind::Left => {
            let ons = erased_all(alloc, marks, item.ons.as_slice())?;
            Ok(Join::Left(ons))
        }
    }
}

// ---- what is tested and shown

/// What a row of a FROM has to pass: the ONs of items that are no LEFT JOIN's, and the WHERE.
fn rejecting(
    alloc: Global,
    marks: &[BoundItem],
    items: &[BoundItem],
    filter: Items<BoundExpr>,
) -> Result<Items<BoundExpr>, AllocError>
    ensures { IfOk result (λ made. made ≡ map (erased (marks_of marks.now)) (inner_ons items.now ++ filter)) }
{
    let mut all = inner_ons(alloc, marks, items)?;
    all.append(as_stored(alloc, marks, filter)?)?;
    Ok(all)
}

fn inner_ons(
    alloc: Global,
    marks: &[BoundItem],
    items: &[BoundItem],
) -> Result<Items<BoundExpr>, AllocError>
    ensures { IfOk result (λ made. made ≡ map (erased (marks_of marks.now)) (inner_ons items.now)) }
{
    let mut all = Items::new(alloc);
    for item in items {
        all.append(inner_on(alloc, marks, item)?)?;
    }
    Ok(all)
}

/// What the ON of an item tests that is no LEFT JOIN's.
fn inner_on(
    alloc: Global,
    marks: &[BoundItem],
    item: &BoundItem,
) -> Result<Items<BoundExpr>, AllocError>
    ensures { IfOk result (λ made. made ≡ map (erased (marks_of marks.now)) (tested_by item.now.join item.now.ons)) }
{
    match item.join {
        JoinKind::Inner => erased_all(alloc, marks, item.ons.as_slice()),
        JoinKind::Left => Ok(Items::new(alloc)),
    }
}

/// Expressions as they read rows that are stored: NULL comes in place of what is ignored, and the rowid in place of the column that is it.
fn as_stored(
    alloc: Global,
    marks: &[BoundItem],
    expressions: Items<BoundExpr>,
) -> Result<Items<BoundExpr>, AllocError>
    ensures { IfOk result (λ made. made ≡ map (erased (marks_of marks.now)) expressions) }
{
    if are_marked(marks) {
        erased_all(alloc, marks, expressions.as_slice())
    } else {
        Ok(expressions)
    }
}

/// Whether a column of the items is ignored, or is the rowid.
fn are_marked(items: &[BoundItem]) -> bool
    ensures { result ≡ are_marked items.now }
{
    items.iter().any(|item| is_marked(item))
}

/// Whether a column of the item is ignored, or is the rowid.
fn is_marked(item: &BoundItem) -> bool
    ensures { result ≡ is_marked item.now }
{
    !item.ignored.is_empty() || item.rowid.is_some()
}
