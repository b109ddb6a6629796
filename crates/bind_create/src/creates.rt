// Any CREATE. IF NOT EXISTS is asked before all else.
ghost use Rattle.std.specs.Prelude.{◌≡◌};
ghost use Rattle.std.specs.Option.{option_copied};
ghost use Rattle.bind_command.specs.Tops.{top_of};
ghost use Rattle.eng_entry.specs.Entries.{entry_named};
ghost use Rattle.sql_bound.specs.Answers.{Answers};
ghost use Rattle.sql_bound.specs.Creates.{create_bound, create_there, created_by, entries_beside};
ghost use Rattle.sql_bound.specs.Scopes.{Facts};

use crate::tables::table_created;
use crate::triggers::trigger_created;
use bind_command::{
    index_created, is_free, module_created, name_of_entry, nothing_created, view_created,
};
use bind_entry::name;
use bound_tree::{BoundCommand, BoundCreation};
use eng_catalog::{Catalog, Entry, Space};
use eng_value::{Cause, Text};
use sql_bound::HostFacts;
use sql_tree::{Create, Definition};
use std::alloc::Global;

/// CREATE of a thing: its name is not reserved and nothing has it, or nothing is created with IF NOT EXISTS; then what is defined.
pub fn bind_create<'a>(
    alloc: Global,
    text: &'a str,
    catalog: &'a Catalog,
    facts: &'a HostFacts,
    create: &'a Create,
) -> Result<BoundCommand, Cause>
    ensures { Answers (create_bound (top_of catalog.now facts.now text.now) create.now) result }
{
    let called = name(alloc, text, &create.name)?;
    let there = entry_beside(catalog, &create.definition, called.as_str());
    create_there(alloc, text, catalog, facts, create, called, there)
}

/// The entry of this name where a thing so defined would stand: triggers have names of their own.
fn entry_beside<'a>(catalog: &'a Catalog, definition: &Definition, name: &str) -> Option<&'a Entry>
    ensures { (facts : Facts) → option_copied result ≡ entry_named name.now (entries_beside (record { catalog = catalog.now; facts = facts }) definition.now) }
{
    match definition {
        Definition::Trigger(_) => catalog.find(Space::Triggers, name),
        _ => catalog.find(Space::Names, name),
    }
}

fn create_there<'a>(
    alloc: Global,
    text: &'a str,
    catalog: &'a Catalog,
    facts: &'a HostFacts,
    create: &'a Create,
    called: Text,
    there: Option<&Entry>,
) -> Result<BoundCommand, Cause>
    ensures { Answers (create_there (top_of catalog.now facts.now text.now) create.now called (option_copied there.entry)) result }
{
    if create.if_not_exists && there.is_some() {
        let called = name_of_entry(called, there)?;
        return nothing_created(alloc, text, catalog, facts, called, &create.definition);
    }
    is_free(&called, there)?;
    let made = created_by(alloc, text, catalog, facts, called, &create.definition)?;
    Ok(BoundCommand::Created(made))
}

/// What is defined, under this name.
fn created_by<'a>(
    alloc: Global,
    text: &'a str,
    catalog: &'a Catalog,
    facts: &'a HostFacts,
    called: Text,
    definition: &'a Definition,
) -> Result<BoundCreation, Cause>
    ensures { Answers (created_by (top_of catalog.now facts.now text.now) called definition.now) result }
{
    match definition {
        Definition::Table(table) => table_created(alloc, text, catalog, facts, called, table),
        Definition::Index(index) => index_created(alloc, text, catalog, facts, called, index),
        Definition::View(view) => view_created(alloc, text, called, view),
        Definition::Trigger(trigger) => trigger_created(
            alloc, text, catalog, facts, called, trigger,
        ),
        Definition::VirtualTable(table) => module_created(alloc, text, facts, called, table),
    }
}
