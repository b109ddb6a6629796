// The limits of the engine, each a constant that the definitions cite.

/// The most bytes of a text or a blob.
pub const MAX_VALUE_BYTES: usize = 1_000_000;

/// The most columns of a table, a result or a list of values.
pub const MAX_COLUMNS: usize = 100;

/// The most bytes of a script.
pub const MAX_SCRIPT_BYTES: usize = 16_777_216;

/// The largest rowid of a table.
pub const MAX_ROWID: i64 = 9_223_372_036_854_775_807;

/// How many instructions a statement may run where nothing else is said.
pub const DEFAULT_BUDGET: u64 = 1_099_511_627_776;
