// How the rows of tables are accessed.
use crate::conjuncts::Conjunct;
use bound_tree::ExprTree;
use eng_index::{Bounds, KeyTerm};
use eng_value::Affinity;
use sqlite_items::Items;

/// What a search of an item's rows goes by: the value of an expression that reads none of them, as it is compared (Datatypes In SQLite, section
/// 4.2).
#[derive(Clone, Copy)]
pub struct Key<'a> {
    pub value: &'a ExprTree,
    /// The affinity of the other side of the comparison, which is the column's.
    pub other: Affinity,
    /// Its own affinity.
    pub own: Affinity,
}

/// A search of the rows by the terms of an index, or by their rowid.
#[derive(Drop)]
pub struct Search<'a> {
    pub terms: Items<KeyTerm>,
    pub bounds: Bounds,
    /// So many equal ones as the bounds say, then the lower limit, then the upper one.
    pub keys: Items<Key<'a>>,
}

/// Which rows are visited.
#[derive(Drop)]
pub enum Path<'a> {
    /// All of them.
    Scan,
    Search(Search<'a>),
}

/// In which order rows are visited.
#[derive(Clone, Copy, PartialEq, Eq)]
pub enum Order {
    Rowid,
}

/// How the rows of a table are accessed.
#[derive(Drop)]
pub struct Access<'a> {
    pub path: Path<'a>,
    pub order: Order,
    /// Of each conjunct, whether it is true at each row that is visited, so that it need not be tested.
    pub consumed: Items<bool>,
}

/// Which rows of an item make pairs with a row of the items around it (SELECT, section 2.1).
#[derive(Drop)]
pub enum Pairs<'a> {
    /// Each that is visited.
    Each,
    /// Of a LEFT JOIN each that is visited and that none of these conjuncts rejects; where there is none the row stays alone.
    OrAlone(Items<Conjunct<'a>>),
}

/// A loop over the rows of an item of a FROM.
#[derive(Drop)]
pub struct Loop<'a> {
    /// The place of the item in the FROM.
    pub place: u32,
    /// The number of its table.
    pub table: u32,
    pub path: Path<'a>,
    pub pairs: Pairs<'a>,
    /// What rejects a row behind it.
    pub checks: Items<Conjunct<'a>>,
}

/// How the rows of a FROM are come by that a WHERE keeps.
#[derive(Drop)]
pub struct JoinPlan<'a> {
    /// What rejects all rows.
    pub checks: Items<Conjunct<'a>>,
    /// Outermost first.
    pub loops: Items<Loop<'a>>,
    /// Whether the rows that the loops give are put in the order of the FROM behind them, by the rowids of their items.
    pub sort: bool,
}
