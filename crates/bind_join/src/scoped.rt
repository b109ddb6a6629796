// An item of a FROM as names see it.
ghost use Rattle.std.specs.Prelude.{◌≡◌, [], ◌∷◌, slice_get, IfOk};
ghost use Rattle.sql_bound.specs.Answers.{OnlyMem};
ghost use Rattle.sql_bound.specs.Froms.{columns_from, rowid_in, scope_item, the_rowid};

use bind_entry::{copied, or_bytes, put, small};
use bind_scope::copied_column;
use bound_tree::{BoundColumn, BoundExpr};
use eng_value::{Affinity, Cause, Text};
use sql_bound::{ScopeColumn, ScopeItem, Sourced};
use sqlite_items::{Items, at};
use std::alloc::Global;

/// A column in its place.
fn column_from(
    item: u32,
    place: usize,
    column: &BoundColumn,
    hidden: bool,
) -> Result<ScopeColumn, Cause>
    ensures ok { IfOk result (λ c. columns_from item place (column.now ∷ []) (hidden ∷ []) ≡ c ∷ []) }
    ensures mem { OnlyMem result }
{
    let name = copied(&column.name)?;
    let tree = BoundExpr::column(item, small(place)?);
    Ok(ScopeColumn {
        name,
        affinity: column.affinity,
        collation: column.collation,
        tree,
        joined: false,
        hidden,
    })
}

/// The columns of an item in their places. Only memory can fail.
pub fn columns_from(
    alloc: Global,
    item: u32,
    columns: &[BoundColumn],
    hidden: &[bool],
) -> Result<Items<ScopeColumn>, Cause>
    ensures ok { IfOk result (λ cs. cs ≡ columns_from item 0 columns.now hidden.now) }
    ensures mem { OnlyMem result }
{
    let mut found = Items::new(alloc);
    let mut place = 0;
    for column in columns {
        let Some(is_hidden) = at(hidden, place) else {
            return Ok(found);
        };
        let one = column_from(item, place, column, *is_hidden)?;
        put(&mut found, one)?;
        place += 1;
    }
    Ok(found)
}

/// The rowid, where no column is it. Only memory can fail.
pub fn the_rowid(alloc: Global, item: u32) -> Result<ScopeColumn, Cause>
    ensures ok { IfOk result (λ c. c ≡ the_rowid item) }
    ensures mem { OnlyMem result }
{
    let name = Text::from_str(alloc, "rowid")?;
    Ok(ScopeColumn {
        name,
        affinity: Affinity::Integer,
        collation: or_bytes(None),
        tree: BoundExpr::rowid(item),
        joined: false,
        hidden: true,
    })
}

fn column_at(
    alloc: Global,
    columns: &[ScopeColumn],
    place: u32,
) -> Result<Option<ScopeColumn>, Cause>
    ensures ok { IfOk result (λ c. c ≡ slice_get columns.now place) }
    ensures mem { OnlyMem result }
{
    match at(columns, place as usize) {
        Some(column) => Ok(Some(copied_column(alloc, column)?)),
        None => Ok(None),
    }
}

/// The rowid: a column of its own, or that which is declared so. Only memory can fail.
pub fn rowid_in(
    alloc: Global,
    item: u32,
    columns: &[ScopeColumn],
    has_rowid: bool,
    place: Option<u32>,
) -> Result<Option<ScopeColumn>, Cause>
    ensures ok { IfOk result (λ c. c ≡ rowid_in item columns.now has_rowid place) }
    ensures mem { OnlyMem result }
{
    match (has_rowid, place) {
        (false, _) => Ok(None),
        (true, None) => Ok(Some(the_rowid(alloc, item)?)),
        (true, Some(place)) => column_at(alloc, columns, place),
    }
}

/// An item as names see it. Only memory can fail.
pub fn scope_item(
    alloc: Global,
    item: u32,
    name: Option<Text>,
    s: &Sourced,
) -> Result<ScopeItem, Cause>
    ensures ok { IfOk result (λ i. i ≡ scope_item item name s.now) }
    ensures mem { OnlyMem result }
{
    let columns = columns_from(alloc, item, s.columns.as_slice(), s.hidden.as_slice())?;
    let rowid = rowid_in(alloc, item, columns.as_slice(), s.has_rowid, s.rowid)?;
    Ok(ScopeItem {
        name,
        columns,
        rowid,
        bare: true,
    })
}
