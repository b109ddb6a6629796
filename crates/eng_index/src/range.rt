// What a search looks for.
use eng_value::{Row, Value};

/// Whether the value that bounds a range belongs to it.
#[derive(Clone, Copy, PartialEq, Eq)]
pub enum Edge {
    Included,
    Excluded,
}

/// Where a range begins or ends.
#[derive(Drop)]
pub struct Limit {
    pub value: Value,
    pub edge: Edge,
}

/// What a search looks for: rows that have these values in the first terms of a key, and in the term behind them one within the limits.
#[derive(Drop)]
pub struct Range {
    pub equal: Row,
    pub lower: Option<Limit>,
    pub upper: Option<Limit>,
}

/// What a range is made of: so many values in the first terms, and which limits in the term behind them.
#[derive(Clone, Copy, PartialEq, Eq)]
pub struct Bounds {
    pub equal: u32,
    pub lower: Option<Edge>,
    pub upper: Option<Edge>,
}
