// CREATE INDEX: on the columns of a table.
ghost use Rattle.std.specs.Prelude.{◌≡◌, ◌∷◌, Some};
ghost use Rattle.sql_bound.specs.Answers.{Answers};
ghost use Rattle.sql_bound.specs.Creates.{creation_of, index_created, index_on, is_column, part_is_there, parts_are_there, written_is_there};
ghost use Rattle.sql_bound.specs.Declarations.{definition_of, table_in};
ghost use Rattle.sql_bound.specs.HostFacts.{facts_of};
ghost use Rattle.sql_bound.specs.Limits.{walked};
ghost use Rattle.bind_command.specs.Indexes.{index_over};
ghost use Rattle.bind_command.specs.Tops.{around_of};
ghost use Rattle.bound_tree.specs.declared.statements.ThingKind.TheVariants.{AnIndex};

use crate::names::no_entry;
use bind_entry::{
    Declared, collation_called, collations_kept, copied, declared_table, host_module, index_parts,
    name, place_of_column, table_named, table_of,
};
use bound_tree::{BoundColumn, BoundCreation, IndexPart, ThingKind};
use eng_catalog::{Catalog, Entry};
use eng_value::{Cause, LimitKind, MAX_COLUMNS, NameKind, Text};
use sql_bound::HostFacts;
use sql_tree::{IndexDefinition, IndexedColumn, TableDefinition, Token};
use sqlite_items::Items;
use std::alloc::Global;

/// CREATE INDEX of this name: on a table, whose columns its parts name, with collations that there are (SQL As Understood By SQLite,
/// "CREATE INDEX"). A view and a table of a module take none (`Misuse` of it).
pub fn index_created(
    alloc: Global,
    text: &str,
    catalog: &Catalog,
    facts: &HostFacts,
    called: Text,
    index: &IndexDefinition,
) -> Result<BoundCreation, Cause>
    ensures { Answers (index_created (around_of catalog.now facts.now) text.now called index.now) result }
{
    let table = name(alloc, text, &index.table)?;
    match table_named(table.as_str(), catalog) {
        Some(entry) => index_by(alloc, text, catalog, facts, called, index, entry),
        None => {
            let module = host_module(facts, table.as_str());
            no_entry(table, module)
        }
    }
}

fn index_by(
    alloc: Global,
    text: &str,
    catalog: &Catalog,
    facts: &HostFacts,
    called: Text,
    index: &IndexDefinition,
    entry: &Entry,
) -> Result<BoundCreation, Cause>
    ensures { Answers (index_on (around_of catalog.now facts.now) text.now called index.now entry.now (table_in (definition_of entry.now))) result }
{
    match table_of(entry) {
        Some(table) => index_on(alloc, text, catalog, facts, called, index, entry, table),
        None => Err(Cause::Misuse(copied(&entry.name)?)),
    }
}

fn index_on(
    alloc: Global,
    text: &str,
    catalog: &Catalog,
    facts: &HostFacts,
    called: Text,
    index: &IndexDefinition,
    entry: &Entry,
    table: &TableDefinition,
) -> Result<BoundCreation, Cause>
    ensures { Answers (index_on (around_of catalog.now facts.now) text.now called index.now entry.now (Some table.now)) result }
{
    collations_kept(alloc, facts, catalog, entry, table)?;
    let Declared { columns, .. } = declared_table(alloc, facts, entry.text.as_str(), table)?;
    index_over(alloc, text, facts, called, index, entry, columns.as_slice())
}

/// An index on a table with these columns.
fn index_over(
    alloc: Global,
    text: &str,
    facts: &HostFacts,
    called: Text,
    index: &IndexDefinition,
    entry: &Entry,
    columns: &[BoundColumn],
) -> Result<BoundCreation, Cause>
    ensures { Answers (index_over (facts_of facts.now) text.now called index.now entry.now columns.now) result }
{
    let written = index.columns.as_slice();
    parts_are_there(alloc, facts, text, columns, written)?;
    let parts = index_parts(alloc, facts, text, columns, written)?;
    let owner = copied(&entry.name)?;
    Ok(index_creation(alloc, called, owner, index.unique, parts))
}

fn index_creation(
    alloc: Global,
    name: Text,
    owner: Text,
    unique: bool,
    parts: Items<IndexPart>,
) -> BoundCreation
    ensures { result ≡ record (creation_of AnIndex name owner) { unique = unique; parts = parts } }
{
    BoundCreation {
        kind: ThingKind::AnIndex,
        name,
        owner,
        unique,
        parts,
        arguments: Items::new(alloc),
    }
}

/// The columns of a key or an index are there, with their collations, and are not too many; or the first refusal in their order.
pub fn parts_are_there(
    alloc: Global,
    facts: &HostFacts,
    text: &str,
    columns: &[BoundColumn],
    parts: &[IndexedColumn],
) -> Result<(), Cause>
    ensures { Answers (parts_are_there (facts_of facts.now) text.now columns.now parts.now) result }
{
    parts_within(alloc, facts, text, columns, parts, MAX_COLUMNS)
}

#[cycle(walking)]
fn parts_within(
    alloc: Global,
    facts: &HostFacts,
    text: &str,
    columns: &[BoundColumn],
    parts: &[IndexedColumn],
    room: usize,
) -> Result<(), Cause>
    ensures { Answers (walked (part_is_there (facts_of facts.now) text.now columns.now) room parts.now tt) result }
{
    match parts {
        [] => Ok(()),
        [part, rest @ ..] => part_within(alloc, facts, text, columns, part, rest, room),
    }
}

#[cycle(walking)]
fn part_within(
    alloc: Global,
    facts: &HostFacts,
    text: &str,
    columns: &[BoundColumn],
    part: &IndexedColumn,
    rest: &[IndexedColumn],
    room: usize,
) -> Result<(), Cause>
    ensures { Answers (walked (part_is_there (facts_of facts.now) text.now columns.now) room (part.now ∷ rest.now) tt) result }
{
    let Some(left) = room.checked_sub(1) else {
        return Err(Cause::Limit(LimitKind::Columns));
    };
    part_is_there(alloc, facts, text, columns, part)?;
    parts_within(alloc, facts, text, columns, rest, left)
}

fn part_is_there(
    alloc: Global,
    facts: &HostFacts,
    text: &str,
    columns: &[BoundColumn],
    part: &IndexedColumn,
) -> Result<(), Cause>
    ensures { Answers (part_is_there (facts_of facts.now) text.now columns.now part.now tt) result }
{
    is_column(columns, name(alloc, text, &part.name)?)?;
    written_is_there(alloc, facts, text, &part.collation)
}

fn is_column(columns: &[BoundColumn], name: Text) -> Result<(), Cause>
    ensures { Answers (is_column columns.now name) result }
{
    match place_of_column(columns, name.as_str()) {
        Some(_) => Ok(()),
        None => Err(Cause::Unknown(NameKind::Column, name)),
    }
}

fn written_is_there(
    alloc: Global,
    facts: &HostFacts,
    text: &str,
    token: &Option<Token>,
) -> Result<(), Cause>
    ensures { Answers (written_is_there (facts_of facts.now) text.now token.now) result }
{
    match token {
        Some(token) => {
            let name = name(alloc, text, token)?;
            collation_called(facts, name)?;
            Ok(())
        }
        None => Ok(()),
    }
}
