// The indexes of a table: those of its keys, and then those that were created (CREATE INDEX).
ghost use Rattle.std.specs.Prelude.{◌≡◌, ◌+◌, ◌∷◌, ◌++◌, [], IfOk, OnOk};
ghost use Rattle.std.specs.List.{flat_map};
ghost use Rattle.sql_bound.specs.Answers.{OnlyMem};
ghost use Rattle.sql_bound.specs.Declarations.{created_index, created_indexes, definition_of, index_in, index_with, indexes_of_keys, key_name};
ghost use Rattle.sql_bound.specs.HostFacts.{facts_of};

use crate::entries::{index_of, is_index_of};
use crate::keys::index_parts;
use crate::memory::{copied, put};
use bound_tree::{BoundColumn, BoundIndex, IndexPart};
use eng_catalog::Catalog;
use eng_entry::{Entry, Space};
use eng_value::{Cause, Text};
use itoa::Buffer;
use sql_bound::HostFacts;
use sql_tree::IndexDefinition;
use sqlite_items::Items;
use std::alloc::Global;

/// The name of the index of a table's key, by its number among them.
pub fn key_name(alloc: Global, table: &Text, number: u64) -> Result<Text, Cause>
    ensures ok { IfOk result (λ name. name ≡ key_name table.now number) }
    ensures mem { OnlyMem result }
{
    let mut name = String::from_str(alloc, "sqlite_autoindex_")?;
    name.push_str(table.as_str())?;
    name.push_str("_")?;
    name.push_str(Buffer::new().format(number))?;
    Ok(Text::new(name))
}

fn copied_parts(alloc: Global, parts: &Items<IndexPart>) -> Result<Items<IndexPart>, Cause>
    ensures ok { IfOk result (λ copy. copy ≡ parts.now) }
    ensures mem { OnlyMem result }
{
    match Items::from_slice(alloc, parts.as_slice()) {
        Ok(copy) => Ok(copy),
        Err(_) => Err(Cause::Mem),
    }
}

/// A sum of numbers of trees. One that is too large is want of memory: no table has so many keys.
fn sum(a: u64, b: u64) -> Result<u64, Cause>
    ensures ok { IfOk result (λ n. n ≡ a + b) }
    ensures mem { OnlyMem result }
{
    match a.checked_add(b) {
        Some(n) => Ok(n),
        None => Err(Cause::Mem),
    }
}

/// The index of a key, by its number among them.
fn key_index(
    alloc: Global,
    entry: &Entry,
    number: u64,
    parts: &Items<IndexPart>,
) -> Result<BoundIndex, Cause>
    ensures ok { IfOk result (λ index. index ∷ [] ≡ indexes_of_keys entry.now number (parts.now ∷ [])) }
    ensures mem { OnlyMem result }
{
    let tree = sum(entry.number, number)?;
    let name = key_name(alloc, &entry.name, number)?;
    let parts = copied_parts(alloc, parts)?;
    Ok(BoundIndex {
        number: tree,
        name,
        unique: true,
        parts,
    })
}

/// The indexes of the keys of a table, in their order. Only memory can fail.
fn indexes_of_keys(
    alloc: Global,
    entry: &Entry,
    keys: &[Items<IndexPart>],
) -> Result<Items<BoundIndex>, Cause>
    ensures ok { IfOk result (λ indexes. indexes ≡ indexes_of_keys entry.now 1 keys.now) }
    ensures mem { OnlyMem result }
{
    let mut indexes = Items::new(alloc);
    let mut number = 1;
    for parts in keys {
        let index = key_index(alloc, entry, number, parts)?;
        put(&mut indexes, index)?;
        number = sum(number, 1)?;
    }
    Ok(indexes)
}

/// An index that was created. Only memory can fail.
pub fn index_with(
    alloc: Global,
    facts: &HostFacts,
    columns: &[BoundColumn],
    entry: &Entry,
    index: &IndexDefinition,
) -> Result<BoundIndex, Cause>
    ensures ok { IfOk result (λ made. made ≡ index_with (facts_of facts.now) columns.now entry.now index.now) }
    ensures mem { OnlyMem result }
{
    let name = copied(&entry.name)?;
    let parts = index_parts(
        alloc,
        facts,
        entry.text.as_str(),
        columns,
        index.columns.as_slice(),
    )?;
    Ok(BoundIndex {
        number: entry.number,
        name,
        unique: index.unique,
        parts,
    })
}

/// The index of an entry behind the others, if it is one of the table's.
fn put_created_index(
    alloc: Global,
    facts: &HostFacts,
    table: &str,
    columns: &[BoundColumn],
    entry: &Entry,
    indexes: &mut Items<BoundIndex>,
) -> Result<(), Cause>
    ensures ok { OnOk result (indexes.new ≡ indexes.old ++ created_index (facts_of facts.now) table.now columns.now entry.now) }
    ensures mem { OnlyMem result }
{
    if !is_index_of(table, entry) {
        return Ok(());
    }
    match index_of(entry) {
        Some(index) => {
            let made = index_with(alloc, facts, columns, entry, index)?;
            put(indexes, made)
        }
        None => Ok(()),
    }
}

/// The indexes of the entries behind the others, as far as they are the table's.
fn put_created_indexes(
    alloc: Global,
    facts: &HostFacts,
    entries: &[Entry],
    table: &str,
    columns: &[BoundColumn],
    indexes: &mut Items<BoundIndex>,
) -> Result<(), Cause>
    ensures ok { OnOk result (indexes.new ≡ indexes.old ++ flat_map (created_index (facts_of facts.now) table.now columns.now) entries.now) }
    ensures mem { OnlyMem result }
{
    for entry in entries {
        put_created_index(alloc, facts, table, columns, entry, indexes)?;
    }
    Ok(())
}

/// The indexes of a table of these columns and keys, oldest first: those of its keys are older than those that were created. Only
/// memory can fail.
pub fn indexes_of(
    alloc: Global,
    facts: &HostFacts,
    catalog: &Catalog,
    entry: &Entry,
    columns: &[BoundColumn],
    keys: &[Items<IndexPart>],
) -> Result<Items<BoundIndex>, Cause>
    ensures ok { IfOk result (λ indexes. indexes ≡ indexes_of_keys entry.now 1 keys.now ++ created_indexes (facts_of facts.now) catalog.now entry.now.name columns.now) }
    ensures mem { OnlyMem result }
{
    let mut indexes = indexes_of_keys(alloc, entry, keys)?;
    put_created_indexes(
        alloc,
        facts,
        catalog.entries(Space::Names),
        entry.name.as_str(),
        columns,
        &mut indexes,
    )?;
    Ok(indexes)
}
