// FROM, as plain data.
use crate::{ResultColumn, ScopeItem};
use bound_tree::{BoundColumn, BoundExpr, BoundIndex, BoundItem, BoundSource};
use eng_value::{ColumnKind, Text};
use sqlite_items::Items;

/// The recursive table whose rows are taken out of the queue, in the part that names it.
#[derive(Drop)]
pub struct QueueTable {
    pub name: Text,
    pub columns: Items<ResultColumn>,
}

/// The items so far, as names see them and as they are bound, and whether one of them is the queue.
#[derive(Drop)]
pub struct Found {
    pub level: Items<ScopeItem>,
    pub items: Items<BoundItem>,
    pub has_queue: bool,
}

/// An item's rows and columns, before it is joined: the name that it has, where its rows come from, its columns with their kinds, where
/// they have any, and whether they are hidden, whether it has a rowid, and which column is that, its indexes, and whether it is the queue.
#[derive(Drop)]
pub struct Sourced {
    pub name: Option<Text>,
    pub source: BoundSource,
    pub columns: Items<BoundColumn>,
    pub kinds: Items<ColumnKind>,
    pub hidden: Items<bool>,
    pub has_rowid: bool,
    pub rowid: Option<u32>,
    pub indexes: Items<BoundIndex>,
    pub is_queue: bool,
}

/// An item that is being joined, as names see it, and the tests that it has to pass.
#[derive(Drop)]
pub struct Joining {
    pub right: ScopeItem,
    pub ons: Items<BoundExpr>,
}
