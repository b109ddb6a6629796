// CREATE TRIGGER: INSTEAD OF on a view, the others on a table; UPDATE OF names columns that there are (CREATE TRIGGER).
ghost use Rattle.std.specs.Prelude.{◌≡◌, [], Some, IfOk};
ghost use Rattle.bind_command.specs.Tops.{top_of};
ghost use Rattle.bind_create.specs.Steps.{columns_there};
ghost use Rattle.bind_query.specs.Scopes.{outer_of};
ghost use Rattle.sql_bound.specs.Answers.{Answers, OnlyMem};
ghost use Rattle.sql_bound.specs.Creates.{columns_of_event, entry_of, event_fits, fits_kind, is_instead, one_is_there, trigger_on};
ghost use Rattle.sql_bound.specs.Limits.{walked};
ghost use Rattle.sql_words.specs.Spelled.{name_at};

use bind_command::{creation_of, no_entry, without_parameter};
use bind_entry::{copied, host_module, name, table_named};
use bind_parameter::trigger_has_parameter;
use bind_query::{IN_STATEMENT, Scope};
use bind_result::begun;
use bind_target::found_place;
use bind_with::names_of;
use bind_write::bind_rows;
use bound_tree::{BoundCreation, ThingKind};
use eng_catalog::{Catalog, Entry, EntryKind};
use eng_value::{Cause, LimitKind, MAX_COLUMNS, NameKind, Text};
use sql_bound::{HostFacts, Sourced};
use sql_tree::{TriggerDefinition, TriggerEvent, TriggerTime};
use sqlite_items::Items;
use std::alloc::Global;

fn is_instead(time: TriggerTime) -> bool
    ensures { result ≡ is_instead time }
{
    matches!(time, TriggerTime::InsteadOf)
}

/// INSTEAD OF is for views, the other times are for tables.
fn fits_kind(table: &Text, entry: &Entry, time: TriggerTime) -> Result<(), Cause>
    ensures { Answers (fits_kind table.now entry.now entry.now.kind time) result }
{
    let fits = match entry.kind {
        EntryKind::Table => !is_instead(time),
        EntryKind::View => is_instead(time),
        EntryKind::Module => false,
        EntryKind::Index | EntryKind::Trigger => {
            return Err(Cause::Unknown(NameKind::Table, copied(table)?));
        }
    };
    if fits {
        Ok(())
    } else {
        Err(Cause::Misuse(copied(&entry.name)?))
    }
}

/// The names that UPDATE OF names. Only memory can fail.
fn columns_of_event(alloc: Global, text: &str, event: &TriggerEvent) -> Result<Items<Text>, Cause>
    ensures ok { IfOk result (λ names. names ≡ columns_of_event text.now event.now) }
    ensures mem { OnlyMem result }
{
    match event {
        TriggerEvent::Update(tokens) => names_of(alloc, text, tokens.as_slice()),
        TriggerEvent::Delete | TriggerEvent::Insert => Ok(Items::new(alloc)),
    }
}

/// The columns of these names are there, no more of them than a table may have.
fn are_there(alloc: Global, s: &Sourced, names: &[Text], room: usize) -> Result<(), Cause>
    ensures { Answers (walked (one_is_there s.now) room names.now tt) result }
{
    match names {
        [] => Ok(()),
        [name, rest @ ..] => {
            let Some(left) = room.checked_sub(1) else {
                return Err(Cause::Limit(LimitKind::Columns));
            };
            found_place(alloc, s, name.as_str())?;
            are_there(alloc, s, rest, left)
        }
    }
}

/// The columns of these names are there, in the table or view of the name.
fn columns_there<'a>(
    alloc: Global,
    scope: &Scope<'a>,
    table: &str,
    names: &[Text],
) -> Result<(), Cause>
    ensures { Answers (columns_there (outer_of scope.now [] []) table.now names.now) result }
{
    let mut work = begun(alloc, Items::new(alloc));
    let entry = table_named(table, scope.catalog);
    let rows = bind_rows(alloc, scope, table, entry, &mut work)?;
    are_there(alloc, &rows, names, MAX_COLUMNS)
}

/// What UPDATE OF names is there. The table or view is asked only where columns are named.
fn event_fits<'a>(
    alloc: Global,
    text: &'a str,
    catalog: &'a Catalog,
    facts: &'a HostFacts,
    table: &str,
    names: &[Text],
) -> Result<(), Cause>
    ensures { Answers (event_fits (top_of catalog.now facts.now text.now) table.now names.now) result }
{
    match names {
        [] => Ok(()),
        [_, ..] => {
            let scope = Scope::of_text(text, catalog, facts, IN_STATEMENT);
            columns_there(alloc, &scope, table, names)
        }
    }
}

/// CREATE TRIGGER of this name.
pub(crate) fn trigger_created<'a>(
    alloc: Global,
    text: &'a str,
    catalog: &'a Catalog,
    facts: &'a HostFacts,
    called: Text,
    trigger: &'a TriggerDefinition,
) -> Result<BoundCreation, Cause>
    ensures { Answers (trigger_on (top_of catalog.now facts.now text.now) called trigger.now (entry_of (top_of catalog.now facts.now text.now).around (name_at text.now trigger.now.table))) result }
{
    let table = name(alloc, text, &trigger.table)?;
    match table_named(table.as_str(), catalog) {
        Some(entry) => trigger_on(alloc, text, catalog, facts, called, trigger, &table, entry),
        None => {
            let module = host_module(facts, table.as_str());
            no_entry(table, module)
        }
    }
}

fn trigger_on<'a>(
    alloc: Global,
    text: &'a str,
    catalog: &'a Catalog,
    facts: &'a HostFacts,
    called: Text,
    trigger: &'a TriggerDefinition,
    table: &Text,
    entry: &Entry,
) -> Result<BoundCreation, Cause>
    ensures { table.now ≡ name_at text.now trigger.now.table → Answers (trigger_on (top_of catalog.now facts.now text.now) called trigger.now (Some entry.now)) result }
{
    fits_kind(table, entry, trigger.time)?;
    let names = columns_of_event(alloc, text, &trigger.event)?;
    event_fits(
        alloc,
        text,
        catalog,
        facts,
        entry.name.as_str(),
        names.as_slice(),
    )?;
    without_parameter(alloc, trigger_has_parameter(trigger))?;
    Ok(creation_of(alloc, ThingKind::ATrigger, called, copied(&entry.name)?))
}
