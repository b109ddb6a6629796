// Changes of which tables there are.

/// A change of the schema, as far as it is one of rows: what the catalog keeps of a table is the engine's own work. Tables go by their
/// numbers, and no change shifts the number of another table.
#[derive(Clone, Copy)]
pub enum SchemaChange {
    /// A table without rows comes behind the others.
    AddTable,
    /// The table of this number loses all its rows. Where there is no such table nothing changes.
    DropTable { table: u32 },
}
