// What tables of modules are made of (The Virtual Table Mechanism Of SQLite).
use crate::{Row, Text};

/// Whether a column is shown; one that is hidden is an argument of the table, which may be left out or not.
#[derive(Clone, Copy, PartialEq, Eq)]
pub enum ColumnKind {
    Shown,
    Optional,
    Required,
}

/// A column of a module's table: its name, and its type as it would be declared.
#[derive(Drop)]
pub struct ModColumn {
    pub name: Text,
    pub type_text: Text,
    pub kind: ColumnKind,
}

/// A change of a row.
#[derive(Drop)]
pub enum Change {
    /// The row of this rowid goes.
    Delete(i64),
    /// A row comes, under this rowid, or under one that the module draws.
    Insert(Option<i64>, Row),
    /// The row of the first rowid gets the second one and these values.
    Update(i64, i64, Row),
}

/// What a write does to a row, as the update hook is told.
#[derive(Clone, Copy, PartialEq, Eq)]
pub enum RowOp {
    Insert,
    Update,
    Delete,
}
