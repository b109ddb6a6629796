// An item of a FROM as it is bound, and how it is joined with those on its left (SELECT, section 2.1).
ghost use Rattle.std.specs.Prelude.{◌≡◌, [], unwrap_or, IfOk};
ghost use Rattle.sql_bound.specs.Answers.{Answers, OnlyMem};
ghost use Rattle.sql_bound.specs.Carriers.{ItemParts};
ghost use Rattle.sql_bound.specs.Froms.{are_made, has_room, kind_of_join, plain_item, with_item};

use bind_entry::put;
use bound_tree::{BoundExpr, BoundItem, JoinKind};
use eng_value::{Cause, LimitKind, Text};
use sql_bound::{Found, Joining, Sourced};
use sqlite_items::Items;
use std::alloc::Global;

fn or_nameless(alloc: Global, name: Option<Text>) -> Text
    ensures { result ≡ unwrap_or name [] }
{
    match name {
        Some(name) => name,
        None => Text::new(String::new(alloc)),
    }
}

/// An item without conjuncts. Takes no memory.
pub fn plain_item(alloc: Global, name: Option<Text>, s: Sourced) -> BoundItem
    ensures { result ≡ plain_item name s }
{
    joined_item(alloc, name, s, false, Items::new(alloc), true)
}

/// How an item is joined.
pub fn kind_of_join(left: bool) -> JoinKind
    ensures { result ≡ kind_of_join left }
{
    if left {
        JoinKind::Left
    } else {
        JoinKind::Inner
    }
}

fn joined_item(
    alloc: Global,
    name: Option<Text>,
    s: Sourced,
    left: bool,
    ons: Items<BoundExpr>,
    ons_made: bool,
) -> BoundItem
    ensures { result ≡ record (plain_item name s) { join = kind_of_join left; ons = ons; ons_made = ons_made } }
{
    BoundItem {
        join: kind_of_join(left),
        ons,
        ons_made,
        shown: or_nameless(alloc, name),
        source: s.source,
        columns: s.columns,
        kinds: s.kinds,
        rowid: s.rowid,
        indexes: s.indexes,
        ignored: Items::new(alloc),
    }
}

/// One item more behind those that were found: whether it is joined by LEFT JOIN, and whether its conjuncts are made and not written.
/// Only memory can fail.
pub fn with_item(
    alloc: Global,
    left: bool,
    ons_made: bool,
    name: Option<Text>,
    s: Sourced,
    f: Found,
    j: Joining,
) -> Result<Found, Cause>
    ensures ok { (item : ItemParts) → item.join.left ≡ left → are_made item.constraint ≡ ons_made → IfOk result (λ found. found ≡ with_item item name s f j) }
    ensures mem { OnlyMem result }
{
    let Found {
        mut level,
        mut items,
        has_queue,
    } = f;
    let Joining { right, ons } = j;
    let is_queue = s.is_queue;
    put(&mut level, right)?;
    put(&mut items, joined_item(alloc, name, s, left, ons, ons_made))?;
    Ok(Found {
        level,
        items,
        has_queue: has_queue || is_queue,
    })
}

/// How many items a FROM may have.
const MOST_ITEMS: usize = 16;

/// Whether one more item may stand in a FROM.
pub fn has_room(f: &Found) -> Result<(), Cause>
    ensures { Answers (has_room f.now) result }
{
    if f.items.len() < MOST_ITEMS {
        Ok(())
    } else {
        Err(Cause::Limit(LimitKind::Items))
    }
}
