// Tables as they are declared.
use eng_value::{Affinity, Text};
use sqlite_items::Items;

/// A column of a table: its name as declared, and the affinity of its type.
#[derive(Drop)]
pub struct Column {
    pub name: Text,
    pub affinity: Affinity,
}

/// What an entry of the catalog declares of a table: its name and its columns, which of them is the rowid, if one is, the number under
/// which its rows stand, and how many tokens its CREATE TABLE has.
#[derive(Drop)]
pub struct TableEntry {
    pub name: Text,
    pub columns: Items<Column>,
    pub rowid: Option<u32>,
    pub number: u32,
    pub tokens: usize,
}
