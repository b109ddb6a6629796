// What the entries of a catalog define.
ghost use Rattle.std.specs.Prelude.{◌≡◌};
ghost use Rattle.std.specs.Option.{option_copied};
ghost use Rattle.sql_bound.specs.Declarations.{definition_in, definition_of, index_in, is_index_of, table_in, table_named, trigger_in, unless_index, view_in};

use eng_catalog::Catalog;
use eng_entry::{Entry, EntryKind, Space, is_same_name};
use sql_tree::{
    Command, Definition, IndexDefinition, TableDefinition, TriggerDefinition, ViewDefinition,
};

/// What an entry's text defines.
pub fn definition_of(entry: &Entry) -> Option<&Definition>
    ensures { option_copied result ≡ definition_of entry.now }
{
    definition_in(&entry.def.command)
}

fn definition_in(command: &Command) -> Option<&Definition>
    ensures { option_copied result ≡ definition_in command.now }
{
    match command {
        Command::Create(create) => Some(&create.definition),
        _ => None,
    }
}

/// The table that an entry defines.
pub fn table_of(entry: &Entry) -> Option<&TableDefinition>
    ensures { option_copied result ≡ table_in (definition_of entry.now) }
{
    match definition_of(entry) {
        Some(Definition::Table(table)) => Some(table),
        _ => None,
    }
}

/// The index that an entry defines.
pub fn index_of(entry: &Entry) -> Option<&IndexDefinition>
    ensures { option_copied result ≡ index_in (definition_of entry.now) }
{
    match definition_of(entry) {
        Some(Definition::Index(index)) => Some(index),
        _ => None,
    }
}

/// The view that an entry defines.
pub fn view_of(entry: &Entry) -> Option<&ViewDefinition>
    ensures { option_copied result ≡ view_in (definition_of entry.now) }
{
    match definition_of(entry) {
        Some(Definition::View(view)) => Some(view),
        _ => None,
    }
}

/// The trigger that an entry defines.
pub fn trigger_of(entry: &Entry) -> Option<&TriggerDefinition>
    ensures { option_copied result ≡ trigger_in (definition_of entry.now) }
{
    match definition_of(entry) {
        Some(Definition::Trigger(trigger)) => Some(trigger),
        _ => None,
    }
}

/// The table, module table or view of a name: an index, which has its name from the same space, is none. Takes no memory.
pub fn table_named<'a>(name: &str, catalog: &'a Catalog) -> Option<&'a Entry>
    ensures { option_copied result ≡ table_named name.now catalog.now }
{
    match catalog.find(Space::Names, name) {
        Some(entry) => unless_index(entry),
        None => None,
    }
}

fn unless_index(entry: &Entry) -> Option<&Entry>
    ensures { option_copied result ≡ unless_index entry.now.kind entry.now }
{
    match entry.kind {
        EntryKind::Index => None,
        _ => Some(entry),
    }
}

/// Whether an entry belongs to the table of this name.
pub fn is_index_of(table: &str, entry: &Entry) -> bool
    ensures { result ≡ is_index_of table.now entry.now }
{
    is_same_name(entry.owner.as_bytes(), table.as_bytes())
}
