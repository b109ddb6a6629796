// What can be written: tables, tables of modules that allow it, and views that have a trigger for it (INSERT; CREATE TRIGGER, section 3).
ghost use Rattle.std.specs.Prelude.{◌≡◌, Some, None};
ghost use Rattle.std.specs.Option.{option_copied};
ghost use Rattle.bind_source.specs.Arounds.{around_of};
ghost use Rattle.bind_target.specs.Meant.{firing_meant};
ghost use Rattle.eng_entry.specs.Entries.{Entries};
ghost use Rattle.eng_value.specs.declared.cause.Cause.TheVariants.{Misuse, Unknown};
ghost use Rattle.eng_value.specs.declared.cause.NameKind.TheVariants as kind;
ghost use Rattle.sql_bound.specs.Answers.{Answers, Refuses};
ghost use Rattle.sql_bound.specs.HostFacts.{facts_of};
ghost use Rattle.sql_bound.specs.Targets.{if_writable, may_write_module, may_write_view, writable_entry};

use crate::firing::fires_one;
use bind_entry::{copied, host_module};
use bind_scope::text_of;
use bound_tree::{BoundSource, FiringEvent};
use eng_catalog::Catalog;
use eng_entry::{Entry, EntryKind, Space};
use eng_value::{Cause, NameKind, Text};
use sql_bound::{HostFacts, Sourced};
use std::alloc::Global;

fn misused(alloc: Global, name: &str) -> Result<(), Cause>
    ensures { Refuses (Misuse name.now) result }
{
    let name = text_of(alloc, name)?;
    Err(Cause::Misuse(name))
}

fn if_writable(alloc: Global, name: &str, writable: bool) -> Result<(), Cause>
    ensures { Answers (if_writable name.now writable) result }
{
    if writable {
        Ok(())
    } else {
        misused(alloc, name)
    }
}

fn unknown_module(entry: &Entry) -> Result<(), Cause>
    ensures { Refuses (Unknown kind.Module entry.now.owner) result }
{
    let owner = copied(&entry.owner)?;
    Err(Cause::Unknown(NameKind::Module, owner))
}

fn writable_entry(alloc: Global, facts: &HostFacts, entry: &Entry) -> Result<(), Cause>
    ensures { Answers (writable_entry entry.now ((facts_of facts.now).host_module entry.now.owner)) result }
{
    match host_module(facts, entry.owner.as_str()) {
        Some((_, writable)) => if_writable(alloc, entry.name.as_str(), writable),
        None => unknown_module(entry),
    }
}

fn may_write_entry(alloc: Global, facts: &HostFacts, name: &str, entry: &Entry) -> Result<(), Cause>
    ensures { (catalog : Entries) → Answers (may_write_module (around_of catalog facts.now) name.now (Some entry.now)) result }
{
    match entry.kind {
        EntryKind::Module => writable_entry(alloc, facts, entry),
        EntryKind::Table | EntryKind::Index | EntryKind::View | EntryKind::Trigger => Ok(()),
    }
}

fn may_write_own(alloc: Global, facts: &HostFacts, name: &str) -> Result<(), Cause>
    ensures { (catalog : Entries) → Answers (may_write_module (around_of catalog facts.now) name.now None) result }
{
    match host_module(facts, name) {
        Some((eponymous, writable)) => {
            if eponymous {
                return if_writable(alloc, name, writable);
            }
            Ok(())
        }
        None => Ok(()),
    }
}

/// Whether a table of a module can be written, before the module is asked for its columns; what is no such table passes.
pub fn may_write_module(
    alloc: Global,
    facts: &HostFacts,
    name: &str,
    entry: Option<&Entry>,
) -> Result<(), Cause>
    ensures { (catalog : Entries) → Answers (may_write_module (around_of catalog facts.now) name.now (option_copied entry.entry)) result }
{
    match entry {
        Some(entry) => may_write_entry(alloc, facts, name, entry),
        None => may_write_own(alloc, facts, name),
    }
}

/// Whether a view has a trigger that can fire; what is no view passes.
pub fn may_write_view(
    alloc: Global,
    facts: &HostFacts,
    catalog: &Catalog,
    s: &Sourced,
    event: FiringEvent,
    sets: &[Text],
) -> Result<(), Cause>
    ensures { Answers (may_write_view (around_of catalog.now facts.now) s.now (firing_meant event sets.now) s.now.source) result }
{
    match &s.source {
        BoundSource::View(view, _) => {
            let entries = catalog.entries(Space::Triggers);
            let fires = fires_one(alloc, view.as_str(), s, event, sets, entries)?;
            if_writable(alloc, view.as_str(), fires)
        }
        _ => Ok(()),
    }
}
