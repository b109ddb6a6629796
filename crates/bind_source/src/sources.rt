// Where the rows of an item of a FROM come from, before it is joined (SELECT, section 2.1).
ghost use Rattle.std.specs.Prelude.{◌≡◌, Some, false, true, map, IfOk};
ghost use Rattle.std.specs.Option.{option_copied};
ghost use Rattle.bind_source.specs.Arounds.{around_of, table_rows};
ghost use Rattle.bound_tree.specs.declared.units.BoundSource.TheVariants as source;
ghost use Rattle.eng_value.specs.declared.cause.Cause.TheVariants.{Misuse};
ghost use Rattle.sql_bound.specs.Answers.{Answers, OnlyMem, Refuses};
ghost use Rattle.sql_bound.specs.Declarations.{declared_table, definition_of, table_in};
ghost use Rattle.sql_bound.specs.Froms.{as_column, as_columns, declared_source, no_table, of_queue, of_table, plain_source, with_source};
ghost use Rattle.sql_bound.specs.HostFacts.{facts_of};
ghost use Rattle.sql_bound.specs.Operands.{collation_of_result};
ghost use Rattle.sql_bound.specs.Scopes.{Outer};
ghost use Rattle.sql_words.specs.Refusals.{or_else};

use bind_entry::{
    Declared, collations_kept, copied, declared_table, indexes_of, or_bytes, put, table_of,
};
use bound_tree::{BoundColumn, BoundExpr, BoundIndex, BoundSource};
use eng_catalog::Catalog;
use eng_entry::{Entry, is_same_name};
use eng_value::{Cause, Collation, NameKind, Text};
use sql_bound::{HostFacts, QueueTable, ResultColumn, Sourced};
use sql_tree::TableDefinition;
use sqlite_items::Items;
use std::alloc::Global;

/// A copy of a text.
fn text_of(alloc: Global, text: &str) -> Result<Text, Cause>
    ensures ok { IfOk result (λ copy. copy ≡ text.now) }
    ensures mem { OnlyMem result }
{
    match Text::from_str(alloc, text) {
        Ok(copy) => Ok(copy),
        Err(_) => Err(Cause::Mem),
    }
}

/// As many times false as there are columns.
fn falses(alloc: Global, columns: &[BoundColumn]) -> Result<Items<bool>, Cause>
    ensures ok { IfOk result (λ made. made ≡ map (λ c. false) columns.now) }
    ensures mem { OnlyMem result }
{
    let mut made = Items::new(alloc);
    for column in columns {
        put(&mut made, false)?;
    }
    Ok(made)
}

/// Columns that are all shown, without a rowid. Only memory can fail.
pub fn plain_source(
    alloc: Global,
    name: Option<Text>,
    source: BoundSource,
    columns: Items<BoundColumn>,
) -> Result<Sourced, Cause>
    ensures ok { IfOk result (λ s. s ≡ plain_source name source columns) }
    ensures mem { OnlyMem result }
{
    let hidden = falses(alloc, columns.as_slice())?;
    Ok(Sourced {
        name,
        source,
        columns,
        kinds: Items::new(alloc),
        hidden,
        has_rowid: false,
        rowid: None,
        indexes: Items::new(alloc),
        is_queue: false,
    })
}

// ---- results as columns

fn or_written(first: Option<Collation>, second: Option<Collation>) -> Option<Collation>
    ensures { result ≡ or_else first second }
{
    match first {
        Some(collation) => Some(collation),
        None => second,
    }
}

/// The collation of a column of a query, BINARY where it has none.
pub fn collation_of_result(column: &ResultColumn) -> Collation
    ensures { result ≡ collation_of_result column.now }
{
    or_bytes(or_written(column.explicit, column.column))
}

/// A result as a column. Only memory can fail.
pub fn as_column(column: &ResultColumn) -> Result<BoundColumn, Cause>
    ensures ok { IfOk result (λ c. c ≡ as_column column.now) }
    ensures mem { OnlyMem result }
{
    let name = copied(&column.name)?;
    Ok(BoundColumn {
        name,
        affinity: column.affinity,
        collation: collation_of_result(column),
    })
}

/// Results as columns. Only memory can fail.
pub fn as_columns(alloc: Global, columns: &[ResultColumn]) -> Result<Items<BoundColumn>, Cause>
    ensures ok { IfOk result (λ cs. cs ≡ as_columns columns.now) }
    ensures mem { OnlyMem result }
{
    let mut found = Items::new(alloc);
    for column in columns {
        let one = as_column(column)?;
        put(&mut found, one)?;
    }
    Ok(found)
}

// ---- tables of the catalog

/// The rows of a table of these indexes.
fn table_source(
    alloc: Global,
    rowids: bool,
    entry: &Entry,
    indexes: Items<BoundIndex>,
    columns: Items<BoundColumn>,
    rowid: Option<u32>,
) -> Result<Sourced, Cause>
    ensures ok { IfOk result (λ s. s ≡ table_rows rowids entry.now indexes columns rowid) }
    ensures mem { OnlyMem result }
{
    let hidden = falses(alloc, columns.as_slice())?;
    let name = copied(&entry.name)?;
    let source = BoundSource::Table(copied(&entry.name)?, entry.number);
    Ok(Sourced {
        name: Some(name),
        source,
        columns,
        kinds: Items::new(alloc),
        hidden,
        has_rowid: rowids,
        rowid,
        indexes,
        is_queue: false,
    })
}

/// The rows of a table as its text declares it. Only memory can fail.
pub fn declared_source(
    alloc: Global,
    facts: &HostFacts,
    catalog: &Catalog,
    entry: &Entry,
    table: &TableDefinition,
) -> Result<Sourced, Cause>
    ensures ok { (o : Outer) → o.around ≡ around_of catalog.now facts.now → IfOk result (λ s. s ≡ declared_source o entry.now (declared_table (facts_of facts.now) entry.now.text table.now)) }
    ensures mem { OnlyMem result }
{
    let Declared {
        columns,
        rowid,
        keys,
    } = declared_table(alloc, facts, entry.text.as_str(), table)?;
    let indexes = indexes_of(
        alloc,
        facts,
        catalog,
        entry,
        columns.as_slice(),
        keys.as_slice(),
    )?;
    table_source(alloc, facts.rowids, entry, indexes, columns, rowid)
}

/// No table or view has the name.
pub fn no_table(alloc: Global, name: &str) -> Result<Sourced, Cause>
    ensures { Answers (no_table name.now) result }
{
    let name = text_of(alloc, name)?;
    Err(Cause::Unknown(NameKind::Table, name))
}

/// The rows of the table that an entry of a catalog defines, or the first collation that is no longer there; the name is told where it
/// defines none.
pub fn of_table(
    alloc: Global,
    facts: &HostFacts,
    catalog: &Catalog,
    name: &str,
    entry: &Entry,
) -> Result<Sourced, Cause>
    ensures { (o : Outer) → o.around ≡ around_of catalog.now facts.now → Answers (of_table o name.now entry.now (table_in (definition_of entry.now))) result }
{
    match table_of(entry) {
        Some(table) => kept_source(alloc, facts, catalog, name, entry, table),
        None => no_table(alloc, name),
    }
}

fn kept_source(
    alloc: Global,
    facts: &HostFacts,
    catalog: &Catalog,
    name: &str,
    entry: &Entry,
    table: &TableDefinition,
) -> Result<Sourced, Cause>
    ensures { (o : Outer) → o.around ≡ around_of catalog.now facts.now → Answers (of_table o name.now entry.now (Some table.now)) result }
{
    collations_kept(alloc, facts, catalog, entry, table)?;
    declared_source(alloc, facts, catalog, entry, table)
}

// ---- WITH tables

fn misused(alloc: Global, name: &str) -> Result<Sourced, Cause>
    ensures { Refuses (Misuse name.now) result }
{
    let name = text_of(alloc, name)?;
    Err(Cause::Misuse(name))
}

/// The queue of a recursive table, which stands once, and only in the FROM of the part itself; else its name is misused.
pub fn of_queue(
    alloc: Global,
    name: &str,
    queue: Option<&QueueTable>,
    has_queue: bool,
) -> Result<Sourced, Cause>
    ensures { Answers (of_queue name.now (option_copied queue.entry) has_queue) result }
{
    match queue {
        Some(queue) => queue_once(alloc, name, queue, has_queue),
        None => misused(alloc, name),
    }
}

fn queue_once(
    alloc: Global,
    name: &str,
    queue: &QueueTable,
    has_queue: bool,
) -> Result<Sourced, Cause>
    ensures { Answers (of_queue name.now (Some queue.now) has_queue) result }
{
    if has_queue || !is_same_name(queue.name.as_bytes(), name.as_bytes()) {
        misused(alloc, name)
    } else {
        queue_source(alloc, name, queue)
    }
}

fn queue_source(alloc: Global, name: &str, queue: &QueueTable) -> Result<Sourced, Cause>
    ensures ok { IfOk result (λ s. s ≡ record (plain_source (Some name.now) source.Queue (as_columns queue.now.columns)) { is_queue = true }) }
    ensures mem { OnlyMem result }
{
    let columns = as_columns(alloc, queue.columns.as_slice())?;
    let hidden = falses(alloc, columns.as_slice())?;
    let name = text_of(alloc, name)?;
    Ok(Sourced {
        name: Some(name),
        source: BoundSource::Queue,
        columns,
        kinds: Items::new(alloc),
        hidden,
        has_rowid: false,
        rowid: None,
        indexes: Items::new(alloc),
        is_queue: true,
    })
}

/// A WITH table by its unit. Takes no memory.
pub fn with_source(recursive: bool, unit: u32, arguments: Items<BoundExpr>) -> BoundSource
    ensures { result ≡ with_source recursive unit arguments }
{
    if recursive {
        BoundSource::Recursive(unit, arguments)
    } else {
        BoundSource::With(unit, arguments)
    }
}
