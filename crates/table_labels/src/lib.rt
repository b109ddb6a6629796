//! The names that listings show for a table: its own and those of its columns.
#![tactic(auto)]

use eng_value::Text;
use sqlite_items::Items;

/// A table's name and the names of its columns, in their order.
#[derive(Drop)]
pub struct TableLabel {
    pub name: Text,
    pub columns: Items<Text>,
}
