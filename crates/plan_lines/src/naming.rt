// The names of items and of their columns.
ghost use Rattle.std.specs.Prelude.{◌≡◌, ◌++◌, string_bytes, OnOk};
ghost use Rattle.std.specs.Fmt.{decimal};
ghost use Rattle.plan_lines.specs.Lines.{column_name, columns_at, indexes_at, name_at, source_name};

use crate::{IndexLabel, ItemLabel};
use eng_index::TermSource;
use eng_value::Text;
use itoa::Buffer;
use std::alloc::AllocError;

/// Writes two texts.
pub(crate) fn write_both(line: &mut String, first: &str, second: &str) -> Result<(), AllocError>
    ensures { OnOk result (string_bytes line.new ≡ string_bytes line.old ++ (first.now ++ second.now)) }
{
    line.push_str(first)?;
    line.push_str(second)?;
    Ok(())
}

/// Writes what has no name: what it is, and its number.
fn write_numbered(line: &mut String, word: &str, number: u32) -> Result<(), AllocError>
    ensures { OnOk result (string_bytes line.new ≡ string_bytes line.old ++ (word.now ++ decimal number)) }
{
    write_both(line, word, Buffer::new().format(number))
}

/// Writes the name of the item in a place.
pub(crate) fn write_item(
    line: &mut String,
    items: &[ItemLabel],
    place: u32,
) -> Result<(), AllocError>
    ensures { OnOk result (string_bytes line.new ≡ string_bytes line.old ++ name_at items.now place) }
{
    match items.get(place as usize) {
        Some(item) => line.push_str(item.name.as_str()),
        None => write_numbered(line, "item ", place),
    }
}

/// The names of the columns of the item in a place; none where it has no label.
pub(crate) fn columns_at(items: &[ItemLabel], place: u32) -> &[Text]
    ensures { result.now ≡ columns_at items.now place }
{
    match items.get(place as usize) {
        Some(item) => item.columns.as_slice(),
        None => &[],
    }
}

/// The labels of the indexes of the item in a place; none where it has no label.
pub(crate) fn indexes_at(items: &[ItemLabel], place: u32) -> &[IndexLabel]
    ensures { result.now ≡ indexes_at items.now place }
{
    match items.get(place as usize) {
        Some(item) => item.indexes.as_slice(),
        None => &[],
    }
}

/// Writes the name of what a term reads.
pub(crate) fn write_source(
    line: &mut String,
    columns: &[Text],
    source: TermSource,
) -> Result<(), AllocError>
    ensures { OnOk result (string_bytes line.new ≡ string_bytes line.old ++ source_name columns.now source) }
{
    match source {
        TermSource::Rowid => line.push_str("rowid"),
        TermSource::Column(column) => write_column(line, columns, column),
    }
}

/// Writes the name of a column.
fn write_column(line: &mut String, columns: &[Text], column: u32) -> Result<(), AllocError>
    ensures { OnOk result (string_bytes line.new ≡ string_bytes line.old ++ column_name columns.now column) }
{
    match columns.get(column as usize) {
        Some(name) => line.push_str(name.as_str()),
        None => write_numbered(line, "column ", column),
    }
}
