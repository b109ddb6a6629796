// DROP.
ghost use Rattle.std.specs.Prelude.{◌≡◌, None};
ghost use Rattle.std.specs.Option.{option_copied};
ghost use Rattle.eng_entry.specs.Entries.{entry_named};
ghost use Rattle.sql_bound.specs.Answers.{Answers};
ghost use Rattle.sql_bound.specs.Scopes.{Facts};
ghost use Rattle.sql_bound.specs.Statements.{entries_of, remove_bound, remove_of, removed, removed_kind, thing_meant, thing_of};
ghost use Rattle.bind_command.specs.Tops.{top_of};

use crate::names::name_of_entry;
use bind_entry::{copied, name};
use bind_scope::text_of;
use bound_tree::{BoundCommand, BoundRemoval, ThingKind};
use eng_catalog::{Catalog, Entry, EntryKind, Space};
use eng_value::{Cause, NameKind, Text};
use sql_bound::HostFacts;
use sql_tree::{ObjectKind, Remove};
use std::alloc::Global;

/// DROP of a thing of the kind that is named (SQL As Understood By SQLite, "DROP TABLE" and its kin). Where there is none it is unknown
/// by that kind, and nothing is dropped with IF EXISTS.
pub fn bind_remove(
    alloc: Global,
    text: &str,
    catalog: &Catalog,
    facts: &HostFacts,
    remove: &Remove,
) -> Result<BoundCommand, Cause>
    ensures { Answers (remove_bound (top_of catalog.now facts.now text.now) remove.now) result }
{
    let name = name(alloc, text, &remove.name)?;
    let there = entry_for(catalog, remove.kind, name.as_str());
    removed(alloc, remove.if_exists, remove.kind, name, there)
}

/// The entry of this name where a thing of the kind would stand.
fn entry_for<'a>(catalog: &'a Catalog, kind: ObjectKind, name: &str) -> Option<&'a Entry>
    ensures { (facts : Facts) → option_copied result ≡ entry_named name.now (entries_of (record { catalog = catalog.now; facts = facts }) kind) }
{
    match kind {
        ObjectKind::Trigger => catalog.find(Space::Triggers, name),
        _ => catalog.find(Space::Names, name),
    }
}

/// The thing, where the entry is one of the kind.
fn removed(
    alloc: Global,
    if_exists: bool,
    kind: ObjectKind,
    name: Text,
    there: Option<&Entry>,
) -> Result<BoundCommand, Cause>
    ensures { Answers (remove_of if_exists kind name (option_copied there.entry)) result }
{
    match there {
        Some(entry) => match thing_of(kind, entry.kind) {
            Some(thing) => Ok(BoundCommand::Removed(BoundRemoval {
                kind: thing,
                name: copied(&entry.name)?,
                owner: copied(&entry.owner)?,
            })),
            None => missing(alloc, if_exists, kind, name, there),
        },
        None => missing(alloc, if_exists, kind, name, there),
    }
}

/// No thing of the kind has the name; an entry of another kind may.
fn missing(
    alloc: Global,
    if_exists: bool,
    kind: ObjectKind,
    name: Text,
    there: Option<&Entry>,
) -> Result<BoundCommand, Cause>
    ensures { Answers (removed if_exists kind name (option_copied there.entry) None) result }
{
    if if_exists {
        let name = name_of_entry(name, there)?;
        Ok(BoundCommand::Nothing(thing_meant(kind), name, text_of(alloc, "")?))
    } else {
        Err(Cause::Unknown(removed_kind(kind), name))
    }
}

fn removed_kind(kind: ObjectKind) -> NameKind
    ensures { result ≡ removed_kind kind }
{
    match kind {
        ObjectKind::Table => NameKind::Table,
        ObjectKind::Index => NameKind::Index,
        ObjectKind::View => NameKind::View,
        ObjectKind::Trigger => NameKind::Trigger,
    }
}

fn thing_meant(kind: ObjectKind) -> ThingKind
    ensures { result ≡ thing_meant kind }
{
    match kind {
        ObjectKind::Table => ThingKind::ATable,
        ObjectKind::Index => ThingKind::AnIndex,
        ObjectKind::View => ThingKind::AView,
        ObjectKind::Trigger => ThingKind::ATrigger,
    }
}

fn thing_of(kind: ObjectKind, there: EntryKind) -> Option<ThingKind>
    ensures { result ≡ thing_of kind there }
{
    match (kind, there) {
        (ObjectKind::Table, EntryKind::Table) => Some(ThingKind::ATable),
        (ObjectKind::Table, EntryKind::Module) => Some(ThingKind::AModuleTable),
        (ObjectKind::Index, EntryKind::Index) => Some(ThingKind::AnIndex),
        (ObjectKind::View, EntryKind::View) => Some(ThingKind::AView),
        (ObjectKind::Trigger, EntryKind::Trigger) => Some(ThingKind::ATrigger),
        _ => None,
    }
}
