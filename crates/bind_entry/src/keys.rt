// The keys of a table: PRIMARY KEY and UNIQUE, in order of text, but for that which is the rowid (CREATE TABLE).
ghost use Rattle.std.specs.Prelude.{◌≡◌, [], ◌∷◌, ◌++◌, map, not, filter, position, slice_get, IfOk, OnOk, unwrap_or};
ghost use Rattle.std.specs.List.{flat_map};
ghost use Rattle.std.specs.Option.{option_map, option_to_list};
ghost use Rattle.eng_entry.specs.Names.{is_same_name};
ghost use Rattle.sql_bound.specs.Answers.{OnlyMem};
ghost use Rattle.sql_bound.specs.Declarations.{collation_at, index_part, index_parts, is_rowid_key, is_the_rowid, key_part, own_key, own_keys, place_of_column, table_key, written_collation};
ghost use Rattle.sql_bound.specs.HostFacts.{facts_of};
ghost use Rattle.sql_words.specs.Collations.{by_bytes};
ghost use Rattle.sql_words.specs.Spelled.{name_at};

use crate::columns::or_bytes;
use crate::facts::collation_there;
use crate::memory::{name, put, small};
use bound_tree::{BoundColumn, IndexPart};
use eng_entry::is_same_name;
use eng_value::{Cause, Collation};
use sql_bound::HostFacts;
use sql_tree::{ColumnConstraint, ColumnDefinition, IndexedColumn, TableConstraint, Token};
use sqlite_items::{Items, at};
use std::alloc::Global;

/// The collation of the column in a place, BINARY where there is none.
fn collation_at(columns: &[BoundColumn], place: usize) -> Collation
    ensures { result ≡ collation_at (slice_get columns.now place) }
{
    match at(columns, place) {
        Some(column) => column.collation,
        None => or_bytes(None),
    }
}

/// The place of the column of this name.
pub fn place_of_column(columns: &[BoundColumn], name: &str) -> Option<usize>
    ensures { result ≡ place_of_column columns.now name.now }
{
    columns.iter().position(|column| is_same_name(column.name.as_bytes(), name.as_bytes()))
}

// ---- parts of an index

fn written_collation(
    alloc: Global,
    facts: &HostFacts,
    text: &str,
    token: &Option<Token>,
) -> Result<Option<Collation>, Cause>
    ensures ok { IfOk result (λ c. c ≡ written_collation (facts_of facts.now) text.now token.now) }
    ensures mem { OnlyMem result }
{
    match token {
        Some(token) => {
            let name = name(alloc, text, token)?;
            collation_there(facts, name.as_str())
        }
        None => Ok(None),
    }
}

/// What is written of a column, or else what it is declared with.
fn or_declared(written: Option<Collation>, declared: Collation) -> Collation
    ensures { result ≡ unwrap_or written declared }
{
    match written {
        Some(collation) => collation,
        None => declared,
    }
}

fn index_part(
    alloc: Global,
    facts: &HostFacts,
    text: &str,
    columns: &[BoundColumn],
    part: &IndexedColumn,
    place: usize,
) -> Result<IndexPart, Cause>
    ensures ok { IfOk result (λ p. p ≡ index_part (facts_of facts.now) text.now columns.now part.now place) }
    ensures mem { OnlyMem result }
{
    let written = written_collation(alloc, facts, text, &part.collation)?;
    Ok(IndexPart {
        column: small(place)?,
        collation: or_declared(written, collation_at(columns, place)),
        descending: part.descending,
    })
}

/// The part of an index, if the table has its column.
fn part_found(
    alloc: Global,
    facts: &HostFacts,
    text: &str,
    columns: &[BoundColumn],
    part: &IndexedColumn,
) -> Result<Option<IndexPart>, Cause>
    ensures ok { IfOk result (λ p. p ≡ option_map (index_part (facts_of facts.now) text.now columns.now part.now) (place_of_column columns.now (name_at text.now part.now.name))) }
    ensures mem { OnlyMem result }
{
    let name = name(alloc, text, &part.name)?;
    match place_of_column(columns, name.as_str()) {
        Some(place) => Ok(Some(index_part(alloc, facts, text, columns, part, place)?)),
        None => Ok(None),
    }
}

fn put_part(parts: &mut Items<IndexPart>, part: Option<IndexPart>) -> Result<(), Cause>
    ensures ok { OnOk result (parts.new ≡ parts.old ++ option_to_list part) }
    ensures mem { OnlyMem result }
{
    match part {
        Some(part) => put(parts, part),
        None => Ok(()),
    }
}

/// The parts of an index. Only memory can fail.
pub fn index_parts(
    alloc: Global,
    facts: &HostFacts,
    text: &str,
    columns: &[BoundColumn],
    written: &[IndexedColumn],
) -> Result<Items<IndexPart>, Cause>
    ensures ok { IfOk result (λ parts. parts ≡ index_parts (facts_of facts.now) text.now columns.now written.now) }
    ensures mem { OnlyMem result }
{
    let mut parts = Items::new(alloc);
    for part in written {
        let found = part_found(alloc, facts, text, columns, part)?;
        put_part(&mut parts, found)?;
    }
    Ok(parts)
}

// ---- keys behind a column

fn is_the_rowid(rowid: Option<u32>, place: usize) -> bool
    ensures { result ≡ is_the_rowid rowid place }
{
    match rowid {
        Some(rowid) => rowid as usize == place,
        None => false,
    }
}

fn key_part(columns: &[BoundColumn], place: usize) -> Result<IndexPart, Cause>
    ensures ok { IfOk result (λ p. p ≡ key_part columns.now place) }
    ensures mem { OnlyMem result }
{
    Ok(IndexPart {
        column: small(place)?,
        collation: collation_at(columns, place),
        descending: false,
    })
}

/// A key of one column more.
fn put_column_key(
    alloc: Global,
    columns: &[BoundColumn],
    place: usize,
    keys: &mut Items<Items<IndexPart>>,
) -> Result<(), Cause>
    ensures ok { OnOk result (keys.new ≡ keys.old ++ (key_part columns.now place ∷ []) ∷ []) }
    ensures mem { OnlyMem result }
{
    let part = key_part(columns, place)?;
    let mut parts = Items::new(alloc);
    put(&mut parts, part)?;
    put(keys, parts)
}

fn put_own_key(
    alloc: Global,
    rowid: Option<u32>,
    columns: &[BoundColumn],
    place: usize,
    constraint: &ColumnConstraint,
    keys: &mut Items<Items<IndexPart>>,
) -> Result<(), Cause>
    ensures ok { OnOk result (keys.new ≡ keys.old ++ own_key rowid columns.now place constraint.now) }
    ensures mem { OnlyMem result }
{
    match constraint {
        ColumnConstraint::PrimaryKey if is_the_rowid(rowid, place) => Ok(()),
        ColumnConstraint::PrimaryKey => put_column_key(alloc, columns, place, keys),
        ColumnConstraint::Unique => put_column_key(alloc, columns, place, keys),
        _ => Ok(()),
    }
}

fn put_keys_of_column(
    alloc: Global,
    rowid: Option<u32>,
    columns: &[BoundColumn],
    place: usize,
    constraints: &[ColumnConstraint],
    keys: &mut Items<Items<IndexPart>>,
) -> Result<(), Cause>
    ensures ok { OnOk result (keys.new ≡ keys.old ++ flat_map (own_key rowid columns.now place) constraints.now) }
    ensures mem { OnlyMem result }
{
    for constraint in constraints {
        put_own_key(alloc, rowid, columns, place, constraint, keys)?;
    }
    Ok(())
}

/// The keys that stand behind columns, in order of text, but for that which is the rowid. Only memory can fail.
pub fn own_keys(
    alloc: Global,
    rowid: Option<u32>,
    columns: &[BoundColumn],
    definitions: &[ColumnDefinition],
) -> Result<Items<Items<IndexPart>>, Cause>
    ensures ok { IfOk result (λ keys. keys ≡ own_keys rowid columns.now 0 definitions.now) }
    ensures mem { OnlyMem result }
{
    let mut keys = Items::new(alloc);
    let mut place = 0;
    for definition in definitions {
        put_keys_of_column(
            alloc,
            rowid,
            columns,
            place,
            definition.constraints.as_slice(),
            &mut keys,
        )?;
        place += 1;
    }
    Ok(keys)
}

// ---- keys behind the columns

fn is_rowid_key(rowid: Option<u32>, parts: &[IndexPart]) -> bool
    ensures { result ≡ is_rowid_key rowid parts.now }
{
    match (rowid, parts) {
        (Some(rowid), [part]) => rowid == part.column,
        _ => false,
    }
}

/// A key more, unless it is the rowid.
fn put_unless_rowid(
    rowid: Option<u32>,
    parts: Items<IndexPart>,
    keys: &mut Items<Items<IndexPart>>,
) -> Result<(), Cause>
    ensures ok { OnOk result (keys.new ≡ keys.old ++ filter (λ key. not (is_rowid_key rowid key)) (parts ∷ [])) }
    ensures mem { OnlyMem result }
{
    if is_rowid_key(rowid, parts.as_slice()) {
        return Ok(());
    }
    put(keys, parts)
}

/// Puts the key of a constraint behind the others, if it is one and not the rowid. Only memory can fail.
pub fn put_table_key(
    alloc: Global,
    facts: &HostFacts,
    text: &str,
    rowid: Option<u32>,
    columns: &[BoundColumn],
    constraint: &TableConstraint,
    keys: &mut Items<Items<IndexPart>>,
) -> Result<(), Cause>
    ensures ok { OnOk result (keys.new ≡ keys.old ++ table_key (facts_of facts.now) text.now rowid columns.now constraint.now) }
    ensures mem { OnlyMem result }
{
    match constraint {
        TableConstraint::PrimaryKey(written) => {
            let parts = index_parts(alloc, facts, text, columns, written.as_slice())?;
            put_unless_rowid(rowid, parts, keys)
        }
        TableConstraint::Unique(written) => {
            let parts = index_parts(alloc, facts, text, columns, written.as_slice())?;
            put(keys, parts)
        }
        TableConstraint::Check(_) => Ok(()),
    }
}

/// Puts the keys of all these constraints behind the others.
pub(crate) fn put_table_keys(
    alloc: Global,
    facts: &HostFacts,
    text: &str,
    rowid: Option<u32>,
    columns: &[BoundColumn],
    constraints: &[TableConstraint],
    keys: &mut Items<Items<IndexPart>>,
) -> Result<(), Cause>
    ensures ok { OnOk result (keys.new ≡ keys.old ++ flat_map (table_key (facts_of facts.now) text.now rowid columns.now) constraints.now) }
    ensures mem { OnlyMem result }
{
    for constraint in constraints {
        put_table_key(alloc, facts, text, rowid, columns, constraint, keys)?;
    }
    Ok(())
}
