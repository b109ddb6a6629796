// What tables, columns and indexes are called where EXPLAIN shows a statement. No answer depends on it.
use crate::schema::Schema;
use bind_entry::{is_index_of, key_name};
use eng_catalog::{Entry, Space};
use eng_value::{Cause, Text};
use plan_lines::{IndexLabel, ItemLabel};
use sql_meaning::{Column, FromTable, TableEntry};
use sqlite_items::Items;
use std::alloc::Global;
use table_labels::TableLabel;

/// The names of so many tables, by their numbers. One that was dropped has none.
pub(crate) fn table_labels(
    alloc: Global,
    schema: &Schema,
    count: usize,
) -> Result<Items<TableLabel>, Cause> {
    let mut labels = Items::new(alloc);
    for number in 0..count {
        labels.push(table_label(alloc, numbered(schema, number))?)?;
    }
    Ok(labels)
}

/// The table of this number, where it wasn't dropped.
fn numbered(schema: &Schema, number: usize) -> Option<&TableEntry> {
    schema
        .tables()
        .iter()
        .find(|table| table.number as usize == number)
}

fn table_label(alloc: Global, table: Option<&TableEntry>) -> Result<TableLabel, Cause> {
    match table {
        None => Ok(TableLabel {
            name: Text::from_str(alloc, "")?,
            columns: Items::new(alloc),
        }),
        Some(table) => Ok(TableLabel {
            name: table.name.clone()?,
            columns: column_names(alloc, table.columns.as_slice())?,
        }),
    }
}

fn column_names(alloc: Global, columns: &[Column]) -> Result<Items<Text>, Cause> {
    let mut names = Items::new(alloc);
    for column in columns {
        names.push(column.name.clone()?)?;
    }
    Ok(names)
}

/// The names of the items of a FROM, and of their columns and indexes.
pub(crate) fn item_labels(
    alloc: Global,
    schema: &Schema,
    from: &[FromTable],
) -> Result<Items<ItemLabel>, Cause> {
    let mut labels = Items::new(alloc);
    for item in from {
        labels.push(item_label(alloc, schema, item)?)?;
    }
    Ok(labels)
}

fn item_label(alloc: Global, schema: &Schema, item: &FromTable) -> Result<ItemLabel, Cause> {
    let TableLabel { name, columns } = table_label(alloc, numbered(schema, item.table as usize))?;
    let names = index_names(alloc, schema, &name, item.indexes.as_slice().len())?;
    let mut indexes = Items::new(alloc);
    for (name, terms) in names.as_slice().iter().zip(item.indexes.as_slice()) {
        indexes.push(IndexLabel {
            name: name.clone()?,
            terms: Items::from_slice(alloc, terms.as_slice())?,
        })?;
    }
    Ok(ItemLabel {
        name,
        columns,
        indexes,
    })
}

/// The names of a table's indexes, so many, oldest first: those of its keys, which have no entry, and then those that were created.
fn index_names(
    alloc: Global,
    schema: &Schema,
    table: &Text,
    count: usize,
) -> Result<Items<Text>, Cause> {
    let created = created_names(alloc, schema.catalog().entries(Space::Names), table)?;
    let mut names = Items::new(alloc);
    for number in 0..count.saturating_sub(created.as_slice().len()) {
        names.push(key_name(alloc, table, (number as u64).saturating_add(1))?)?;
    }
    names.append(created)?;
    Ok(names)
}

/// The names of the indexes that were created on a table.
fn created_names(alloc: Global, entries: &[Entry], table: &Text) -> Result<Items<Text>, Cause> {
    let mut names = Items::new(alloc);
    for entry in entries {
        if is_index_of(table.as_str(), entry) {
            names.push(entry.name.clone()?)?;
        }
    }
    Ok(names)
}
