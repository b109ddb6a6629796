// Statements that change rows, and triggers, whose names are bound.
// Drops are written out, since those that are derived would be proved again in each library above.
use crate::{BoundColumn, BoundExpr, BoundItem};
use eng_value::Text;
use sql_tree::{ConflictChoice, TriggerTime};
use sqlite_items::Items;

/// What a write writes. Its keys are the unique indexes of the item. A DELETE puts no row, so that its target has neither defaults nor
/// tests.
pub struct BoundTarget {
    pub item: BoundItem,
    /// For each column its default.
    pub defaults: Items<Option<BoundExpr>>,
    /// For each column whether it may not be NULL.
    pub not_nulls: Items<bool>,
    /// The CHECKs in order of text, over the item as item 0, which they read without what is ignored, since nothing asks about them.
    pub checks: Items<BoundExpr>,
}

impl Drop for BoundTarget {
    fn drop(self) {
        let BoundTarget {
            item,
            defaults,
            not_nulls,
            checks,
        } = self;
        drop(item);
        drop(defaults);
        drop(not_nulls);
        drop(checks);
    }
}

/// Without a column it sets the rowid.
pub struct BoundSet {
    pub column: Option<u32>,
    pub value: BoundExpr,
}

impl Drop for BoundSet {
    fn drop(self) {
        let BoundSet { column: _, value } = self;
        drop(value);
    }
}

/// What a write does. SET and WHERE are over the target as item 0.
pub enum BoundChange {
    /// For each column, and for the rowid, the place of its value in a row of the source, which is asked with what is handed over.
    Inserted(Items<Option<u32>>, Option<u32>, u32, Items<BoundExpr>),
    Defaulted,
    Updated(Items<BoundSet>, Items<BoundExpr>),
    Deleted(Items<BoundExpr>),
}

impl Drop for BoundChange {
    fn drop(self) {
        match self {
            BoundChange::Inserted(a, _, _, b) => {
                drop(a);
                drop(b);
            }
            BoundChange::Defaulted => {}
            BoundChange::Updated(a, b) => {
                drop(a);
                drop(b);
            }
            BoundChange::Deleted(a) => drop(a),
        }
    }
}

/// The test that ON CONFLICT is for, by the place of an index, or the rowid's, or any where none is written.
#[derive(Clone, Copy, PartialEq, Eq)]
pub enum ConflictTest {
    OfAny,
    OfRowid,
    OfIndex(u32),
}

/// What DO UPDATE sets and asks, where DO NOTHING is not written, over the row in the way as item 0 and the row to be put as item 1.
pub struct BoundUpsert {
    pub test: ConflictTest,
    pub sets: Option<Items<BoundSet>>,
    pub conjuncts: Items<BoundExpr>,
}

impl Drop for BoundUpsert {
    fn drop(self) {
        let BoundUpsert {
            test: _,
            sets,
            conjuncts,
        } = self;
        drop(sets);
        drop(conjuncts);
    }
}

/// What RETURNING gives of each row, over the row as item 0.
pub struct BoundReturning {
    pub results: Items<BoundExpr>,
    pub columns: Items<BoundColumn>,
}

impl Drop for BoundReturning {
    fn drop(self) {
        let BoundReturning { results, columns } = self;
        drop(results);
        drop(columns);
    }
}

/// A write.
pub struct BoundWrite {
    pub target: BoundTarget,
    pub choice: ConflictChoice,
    /// What a trigger's row hands over to it.
    pub captures: Items<BoundExpr>,
    pub change: BoundChange,
    /// The triggers that it can fire, by their places in the statement's list, in order of creation. In another write than a DELETE those
    /// of deletes are for the rows that REPLACE takes away.
    pub fires: Items<u32>,
    pub upsert: Option<BoundUpsert>,
    pub returning: Option<BoundReturning>,
    /// Whether its rows count.
    pub counts: bool,
}

impl Drop for BoundWrite {
    fn drop(self) {
        let BoundWrite {
            target,
            choice: _,
            captures,
            change,
            fires,
            upsert,
            returning,
            counts: _,
        } = self;
        drop(target);
        drop(captures);
        drop(change);
        drop(fires);
        drop(upsert);
        drop(returning);
    }
}

pub enum BoundStep {
    Asks(u32, Items<BoundExpr>),
    Writes(BoundWrite),
}

impl Drop for BoundStep {
    fn drop(self) {
        match self {
            BoundStep::Asks(_, a) => drop(a),
            BoundStep::Writes(a) => drop(a),
        }
    }
}

#[derive(Clone, Copy, PartialEq, Eq)]
pub enum FiringEvent {
    AtDelete,
    AtInsert,
    AtUpdate,
}

/// A trigger of a table or a view: its rows are OLD and NEW, the items 0 and 1 of WHEN and of what its body is handed.
pub struct BoundTrigger {
    pub name: Text,
    pub table: Text,
    pub time: TriggerTime,
    pub event: FiringEvent,
    pub rows: Items<BoundItem>,
    pub condition: Option<BoundExpr>,
    pub body: Items<BoundStep>,
}

impl Drop for BoundTrigger {
    fn drop(self) {
        let BoundTrigger {
            name,
            table,
            time: _,
            event: _,
            rows,
            condition,
            body,
        } = self;
        drop(name);
        drop(table);
        drop(rows);
        drop(condition);
        drop(body);
    }
}
