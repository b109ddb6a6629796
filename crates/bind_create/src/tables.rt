// CREATE TABLE.
ghost use Rattle.std.specs.Prelude.{◌≡◌, IfOk};
ghost use Rattle.bind_create.specs.Meant.{creating_of, declaring_of};
ghost use Rattle.bind_create.specs.Steps.{all_declared, nothing_declared, table_with};
ghost use Rattle.bind_source.specs.Arounds.{around_of};
ghost use Rattle.sql_bound.specs.Answers.{Answers, OnlyMem};
ghost use Rattle.sql_bound.specs.Creates.{creating, table_created};

use crate::columns::{Creating, Declaring, with_columns, with_table_constraints};
use crate::levels::level_with;
use bind_command::creation_of;
use bind_entry::{Declared, declared_table};
use bind_scope::text_of;
use bound_tree::{BoundCreation, ThingKind};
use eng_catalog::Catalog;
use eng_value::{Cause, Text};
use sql_bound::HostFacts;
use sql_tree::TableDefinition;
use sqlite_items::Items;
use std::alloc::Global;

/// CREATE TABLE of this name: each column with its constraints in turn, then the constraints behind them (CREATE TABLE).
pub(crate) fn table_created<'a>(
    alloc: Global,
    text: &'a str,
    catalog: &'a Catalog,
    facts: &'a HostFacts,
    name: Text,
    table: &'a TableDefinition,
) -> Result<BoundCreation, Cause>
    ensures { Answers (table_created (around_of catalog.now facts.now) text.now name table.now) result }
{
    let creating = creating(alloc, text, catalog, facts, name, table)?;
    created(alloc, creating, table)
}

/// What a table of this name is created in. Only memory can fail.
fn creating<'a>(
    alloc: Global,
    text: &'a str,
    catalog: &'a Catalog,
    facts: &'a HostFacts,
    name: Text,
    table: &'a TableDefinition,
) -> Result<Creating<'a>, Cause>
    ensures ok { IfOk result (λ c. creating_of c ≡ creating (around_of catalog.now facts.now) text.now name table.now) }
    ensures mem { OnlyMem result }
{
    let Declared {
        columns,
        rowid,
        keys: _,
    } = declared_table(alloc, facts, text, table)?;
    let level = level_with(alloc, &name, columns.as_slice(), rowid)?;
    Ok(Creating {
        catalog,
        facts,
        text,
        name,
        level,
        columns,
    })
}

/// The table, where all that it declares holds.
fn created<'a>(
    alloc: Global,
    creating: Creating<'a>,
    table: &'a TableDefinition,
) -> Result<BoundCreation, Cause>
    ensures { Answers (table_with (creating_of creating.entry) table.now) result }
{
    all_declared(alloc, &creating, table)?;
    Ok(creation_of(alloc, ThingKind::ATable, creating.name, text_of(alloc, "")?))
}

fn nothing_declared(alloc: Global) -> Declaring
    ensures { declaring_of result ≡ nothing_declared }
{
    Declaring {
        names: Items::new(alloc),
        has_primary: false,
    }
}

/// All that a table declares, in turn.
fn all_declared<'a>(
    alloc: Global,
    creating: &Creating<'a>,
    table: &'a TableDefinition,
) -> Result<(), Cause>
    ensures { Answers (all_declared (creating_of creating.now) table.now) result }
{
    let mut declaring = nothing_declared(alloc);
    with_columns(alloc, creating, table.columns.as_slice(), &mut declaring)?;
    with_table_constraints(
        alloc,
        creating,
        table.constraints.as_slice(),
        &mut declaring,
    )?;
    Ok(())
}
