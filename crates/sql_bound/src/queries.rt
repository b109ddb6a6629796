// Queries that are being bound, as plain data.
use crate::{Found, ResultColumn};
use bound_tree::{BoundCompound, BoundExpr, BoundKey, BoundPart, BoundTerm};
use sqlite_items::Items;

/// The results so far, and the columns that they give.
#[derive(Drop)]
pub struct Shown {
    pub trees: Items<BoundExpr>,
    pub columns: Items<ResultColumn>,
}

/// A SELECT whose names are bound, before its aggregates are told, to which ORDER BY may add.
#[derive(Drop)]
pub struct BoundSelect {
    pub found: Found,
    pub conjuncts: Items<BoundExpr>,
    pub grouped: bool,
    pub keys: Items<BoundKey>,
    pub having: Items<BoundExpr>,
    pub shown: Shown,
    pub distinct: bool,
}

/// A part, and the columns that it gives.
#[derive(Drop)]
pub struct Given {
    pub part: BoundPart,
    pub columns: Items<ResultColumn>,
}

/// All parts of a query, their order, and the columns that it gives.
#[derive(Drop)]
pub struct Gathered {
    pub first: BoundPart,
    pub others: Items<BoundCompound>,
    pub order: Items<BoundTerm>,
    pub columns: Items<ResultColumn>,
}

/// LIMIT: the count and the offset.
#[derive(Drop)]
pub struct BoundLimit {
    pub count: Option<BoundExpr>,
    pub offset: Option<BoundExpr>,
}
