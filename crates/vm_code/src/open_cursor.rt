// Open cursors, and what instructions need of cursors.

/// What a cursor is open on.
#[derive(Clone, Copy, PartialEq, Eq)]
pub enum CursorKind {
    /// A table.
    Table,
    /// A row that is no table's.
    Row,
    /// A sorter.
    Sorter,
}

/// A cursor that is open, and on what.
#[derive(Clone, Copy, PartialEq, Eq)]
pub struct OpenCursor {
    pub cursor: u32,
    pub kind: CursorKind,
}

/// What an instruction needs of a cursor.
#[derive(Clone, Copy)]
pub enum Need {
    /// It is open.
    Open(u32),
    /// It is open on a table.
    Table(u32),
    /// It is open where expressions read: on a table, or on a row that is no table's.
    Rows(u32),
    /// It is open on a sorter.
    Sorter(u32),
}
