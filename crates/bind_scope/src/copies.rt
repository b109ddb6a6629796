// Copies of what names are looked up in.
ghost use Rattle.std.specs.Prelude.{◌≡◌, IfOk};
ghost use Rattle.sql_bound.specs.Answers.{OnlyMem};

use crate::places::pushed;
use bound_tree::BoundExpr;
use eng_value::{Cause, Text};
use sql_bound::{Need, ResultColumn, ScopeColumn, ScopeItem, WithEntry, WithMeaning};
use sqlite_items::Items;
use std::alloc::Global;

/// The same text once more.
pub fn copied_text(text: &Text) -> Result<Text, Cause>
    ensures ok { IfOk result (λ copy. copy ≡ text.now) }
    ensures mem { OnlyMem result }
{
    match text.clone() {
        Ok(copy) => Ok(copy),
        Err(_) => Err(Cause::Mem),
    }
}

/// A text of its own.
pub fn text_of(alloc: Global, name: &str) -> Result<Text, Cause>
    ensures ok { IfOk result (λ copy. copy ≡ name.now) }
    ensures mem { OnlyMem result }
{
    match Text::from_str(alloc, name) {
        Ok(copy) => Ok(copy),
        Err(_) => Err(Cause::Mem),
    }
}

pub(crate) fn copied_tree(alloc: Global, tree: &BoundExpr) -> Result<BoundExpr, Cause>
    ensures ok { IfOk result (λ copy. copy ≡ tree.now) }
    ensures mem { OnlyMem result }
{
    match tree.copied(alloc) {
        Ok(copy) => Ok(copy),
        Err(_) => Err(Cause::Mem),
    }
}

fn copied_name(name: &Option<Text>) -> Result<Option<Text>, Cause>
    ensures ok { IfOk result (λ copy. copy ≡ name.now) }
    ensures mem { OnlyMem result }
{
    match name {
        Some(text) => Ok(Some(copied_text(text)?)),
        None => Ok(None),
    }
}

/// The same column once more. Only memory can fail, as with all copies.
pub fn copied_column(alloc: Global, column: &ScopeColumn) -> Result<ScopeColumn, Cause>
    ensures ok { IfOk result (λ copy. copy ≡ column.now) }
    ensures mem { OnlyMem result }
{
    let name = copied_text(&column.name)?;
    let tree = copied_tree(alloc, &column.tree)?;
    Ok(ScopeColumn {
        name,
        affinity: column.affinity,
        collation: column.collation,
        tree,
        joined: column.joined,
        hidden: column.hidden,
    })
}

fn copied_columns(alloc: Global, columns: &[ScopeColumn]) -> Result<Items<ScopeColumn>, Cause>
    ensures ok { IfOk result (λ copies. copies ≡ columns.now) }
    ensures mem { OnlyMem result }
{
    let mut copies = Items::new(alloc);
    for column in columns {
        let copy = copied_column(alloc, column)?;
        pushed(&mut copies, copy)?;
    }
    Ok(copies)
}

fn copied_rowid(alloc: Global, rowid: &Option<ScopeColumn>) -> Result<Option<ScopeColumn>, Cause>
    ensures ok { IfOk result (λ copy. copy ≡ rowid.now) }
    ensures mem { OnlyMem result }
{
    match rowid {
        Some(column) => Ok(Some(copied_column(alloc, column)?)),
        None => Ok(None),
    }
}

/// The same item of a FROM once more.
pub fn copied_item(alloc: Global, item: &ScopeItem) -> Result<ScopeItem, Cause>
    ensures ok { IfOk result (λ copy. copy ≡ item.now) }
    ensures mem { OnlyMem result }
{
    let name = copied_name(&item.name)?;
    let columns = copied_columns(alloc, item.columns.as_slice())?;
    let rowid = copied_rowid(alloc, &item.rowid)?;
    Ok(ScopeItem {
        name,
        columns,
        rowid,
        bare: item.bare,
    })
}

/// The same FROM once more.
pub fn copied_level(alloc: Global, level: &[ScopeItem]) -> Result<Items<ScopeItem>, Cause>
    ensures ok { IfOk result (λ copy. copy ≡ level.now) }
    ensures mem { OnlyMem result }
{
    let mut copy = Items::new(alloc);
    for item in level {
        let one = copied_item(alloc, item)?;
        pushed(&mut copy, one)?;
    }
    Ok(copy)
}

/// The same need once more.
pub fn copied_need(alloc: Global, need: &Need) -> Result<Need, Cause>
    ensures ok { IfOk result (λ copy. copy ≡ need.now) }
    ensures mem { OnlyMem result }
{
    let tree = copied_tree(alloc, &need.tree)?;
    Ok(Need { up: need.up, tree })
}

/// The same needs once more.
pub fn copied_needs(alloc: Global, needs: &[Need]) -> Result<Items<Need>, Cause>
    ensures ok { IfOk result (λ copies. copies ≡ needs.now) }
    ensures mem { OnlyMem result }
{
    let mut copies = Items::new(alloc);
    for need in needs {
        let copy = copied_need(alloc, need)?;
        pushed(&mut copies, copy)?;
    }
    Ok(copies)
}

/// The same column of a query once more.
pub fn copied_result_column(column: &ResultColumn) -> Result<ResultColumn, Cause>
    ensures ok { IfOk result (λ copy. copy ≡ column.now) }
    ensures mem { OnlyMem result }
{
    let name = copied_text(&column.name)?;
    Ok(ResultColumn {
        name,
        affinity: column.affinity,
        explicit: column.explicit,
        column: column.column,
    })
}

/// The same columns of a query once more.
pub fn copied_result_columns(
    alloc: Global,
    columns: &[ResultColumn],
) -> Result<Items<ResultColumn>, Cause>
    ensures ok { IfOk result (λ copies. copies ≡ columns.now) }
    ensures mem { OnlyMem result }
{
    let mut copies = Items::new(alloc);
    for column in columns {
        let copy = copied_result_column(column)?;
        pushed(&mut copies, copy)?;
    }
    Ok(copies)
}

fn copied_meaning(alloc: Global, meaning: &WithMeaning) -> Result<WithMeaning, Cause>
    ensures ok { IfOk result (λ copy. copy ≡ meaning.now) }
    ensures mem { OnlyMem result }
{
    match meaning {
        WithMeaning::Itself => Ok(WithMeaning::Itself),
        WithMeaning::Bound(unit, recursive, needs, columns) => {
            let needs = copied_needs(alloc, needs.as_slice())?;
            let columns = copied_result_columns(alloc, columns.as_slice())?;
            Ok(WithMeaning::Bound(*unit, *recursive, needs, columns))
        }
    }
}

/// The same WITH table once more.
pub fn copied_entry(alloc: Global, entry: &WithEntry) -> Result<WithEntry, Cause>
    ensures ok { IfOk result (λ copy. copy ≡ entry.now) }
    ensures mem { OnlyMem result }
{
    let name = copied_text(&entry.name)?;
    let meaning = copied_meaning(alloc, &entry.meaning)?;
    Ok(WithEntry {
        name,
        around: entry.around,
        meaning,
    })
}

/// The same WITH tables once more.
pub fn copied_entries(alloc: Global, entries: &[WithEntry]) -> Result<Items<WithEntry>, Cause>
    ensures ok { IfOk result (λ copies. copies ≡ entries.now) }
    ensures mem { OnlyMem result }
{
    let mut copies = Items::new(alloc);
    for entry in entries {
        let copy = copied_entry(alloc, entry)?;
        pushed(&mut copies, copy)?;
    }
    Ok(copies)
}
