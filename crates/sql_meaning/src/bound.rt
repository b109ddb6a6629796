// What is read and written.
use bound_tree::BoundExpr;
use eng_index::KeyTerm;
use eng_value::{Affinity, Text};
use sqlite_items::Items;

/// What a column of an INSERT's table takes: the affinity by which it stores a value, the place of its value in a row of the
/// source, what it takes where it has none, if that is not NULL, and whether it may not be NULL.
#[derive(Drop)]
pub struct PutColumn {
    pub affinity: Affinity,
    pub place: Option<u32>,
    pub default: Option<BoundExpr>,
    pub not_null: bool,
}

/// Where the rowid of a row comes from; where that is NULL it is drawn (Rowid Tables; INTEGER PRIMARY KEY).
#[derive(Clone, Copy, PartialEq, Eq)]
pub enum RowidFrom {
    /// Nothing is given.
    Drawn,
    /// The value at this place of a row of the source.
    Given(u32),
    /// The column at this place, which is the rowid.
    Column(u32),
}

/// Rows of values for the table of this number: its name as declared, its columns, where the rowids come from, the CHECKs over a row as
/// item 0, the keys that no two rows may share, oldest first, and the source.
#[derive(Drop)]
pub struct BoundInsert {
    pub table: u32,
    pub name: Text,
    pub columns: Items<PutColumn>,
    pub rowid: RowidFrom,
    pub checks: Items<BoundExpr>,
    pub keys: Items<Items<KeyTerm>>,
    pub rows: Items<Items<BoundExpr>>,
}

/// How an item of a FROM is joined with those on its left (SELECT, section 2.1).
#[derive(Drop)]
pub enum Join {
    /// Each of their rows with each of its own. What its ON says rejects rows as the WHERE does.
    Inner,
    /// Each of their rows stays, with NULLs where none of its own makes a pair with it: these conjuncts of its ON reject pairs.
    Left(Items<BoundExpr>),
}

/// An item of a FROM that a query reads: the number of its table, the terms of the keys of its indexes, oldest first, and how it is joined.
#[derive(Drop)]
pub struct FromTable {
    pub table: u32,
    pub indexes: Items<Items<KeyTerm>>,
    pub join: Join,
}

/// A query: the items of its FROM, leftmost first, what each row has to pass, and what is shown of it.
#[derive(Drop)]
pub struct BoundSelect {
    pub from: Items<FromTable>,
    pub conjuncts: Items<BoundExpr>,
    pub results: Items<BoundExpr>,
}
