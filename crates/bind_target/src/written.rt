// Writes that are being bound, as plain data.
use bound_tree::{BoundChange, BoundExpr, BoundTrigger, BoundUnit, FiringEvent};
use eng_value::Text;
use sql_bound::Sourced;
use sql_tree::ConflictChoice;
use sqlite_items::Items;

/// What a write writes: the name by which it is called, its rows, for each column its default and whether it may not be NULL, and the
/// CHECKs in order of text.
#[derive(Drop)]
pub struct Target {
    pub name: Text,
    pub source: Sourced,
    pub defaults: Items<Option<BoundExpr>>,
    pub not_nulls: Items<bool>,
    pub checks: Items<BoundExpr>,
}

/// A write before its triggers are opened: what it writes, what it does where a constraint fails, what it fires by, with the names that an
/// UPDATE sets, and what it changes.
#[derive(Drop)]
pub struct Begun {
    pub target: Target,
    pub choice: ConflictChoice,
    pub event: FiringEvent,
    pub sets: Items<Text>,
    pub change: BoundChange,
}

/// What a statement has opened so far.
#[derive(Drop)]
pub struct Opened {
    pub units: Items<BoundUnit>,
    pub triggers: Items<BoundTrigger>,
}
