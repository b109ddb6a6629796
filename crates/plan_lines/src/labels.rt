// What the items of a FROM, their columns and their indexes are called.
use eng_index::KeyTerm;
use eng_value::Text;
use sqlite_items::Items;

/// What an item of a FROM is called there, and its columns and indexes.
#[derive(Drop)]
pub struct ItemLabel {
    pub name: Text,
    /// In the order of the columns.
    pub columns: Items<Text>,
    /// Where several serve a search, the first of them is named.
    pub indexes: Items<IndexLabel>,
}

/// What an index is called that has these terms.
#[derive(Drop)]
pub struct IndexLabel {
    pub name: Text,
    pub terms: Items<KeyTerm>,
}
