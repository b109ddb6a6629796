// What statements are bound over.
use crate::binding::Found;
use bound_tree::{BoundCommand, BoundCreation, BoundRemoval, ThingKind};
use eng_catalog::{Catalog, Entry, EntryKind, Space};
use eng_entry::is_same_name;
use eng_value::{Action, Text};
use sql_bound::HostFacts;
use sql_tree::Statement;
use sqlite_items::Items;
use std::alloc::{AllocError, Global};

/// How far the numbers of two things that are created one after another stand apart, so that the keys of a table have numbers between.
const NUMBERS_APART: u64 = 10;

/// What stands below a statement that is not refused.
#[derive(Clone, Copy, PartialEq, Eq)]
pub(crate) enum Shown {
    /// What it is bound to.
    Bound,
    /// What an authorizer is asked about it.
    Actions,
}

/// The catalog, and what hosts and the connection tell.
#[derive(Drop)]
pub(crate) struct Scene {
    pub(crate) catalog: Catalog,
    pub(crate) facts: HostFacts,
    /// The reads that the authorizer ignores.
    pub(crate) ignored: Items<Action>,
    pub(crate) shown: Shown,
    /// The number of what was created last.
    last_number: u64,
}

impl Scene {
    /// An empty catalog, and nobody tells anything; what statements are bound to is shown.
    pub(crate) fn new(alloc: Global) -> Scene {
        Scene {
            catalog: Catalog::new(alloc),
            facts: HostFacts {
                functions: Items::new(alloc),
                aggregates: Items::new(alloc),
                collations: Items::new(alloc),
                modules: Items::new(alloc),
                told: Items::new(alloc),
                savepoints: Items::new(alloc),
                recursive_triggers: false,
                rowids: true,
            },
            ignored: Items::new(alloc),
            shown: Shown::Bound,
            last_number: 0,
        }
    }

    /// Keeps what a statement creates, and takes out what it drops, unless it is only explained.
    pub(crate) fn keep(&mut self, alloc: Global, found: Found<'_>) -> Result<(), AllocError> {
        let Found { body, tree, bound } = found;
        if bound.explain.is_some() {
            return Ok(());
        }
        match &bound.command {
            BoundCommand::Created(creation) => self.create(alloc, creation, body, tree),
            BoundCommand::Removed(removal) => self.remove(alloc, removal),
            _ => Ok(()),
        }
    }

    fn create(
        &mut self,
        alloc: Global,
        creation: &BoundCreation,
        body: &str,
        tree: Statement,
    ) -> Result<(), AllocError> {
        self.last_number = self.last_number.saturating_add(NUMBERS_APART);
        let entry = Entry {
            kind: entry_kind(creation.kind),
            name: creation.name.clone()?,
            owner: creation.owner.clone()?,
            number: self.last_number,
            text: Text::from_str(alloc, body)?,
            def: tree,
        };
        self.add(entry)
    }

    /// Adds an entry, whose name is free where it was bound.
    fn add(&mut self, entry: Entry) -> Result<(), AllocError> {
        let other = self.catalog.find(entry.kind.space(), entry.name.as_str());
        if other.is_some() {
            return Ok(());
        }
        self.catalog.add(entry)
    }

    /// Takes a thing out, and with it what belongs to it: indexes and triggers.
    fn remove(&mut self, alloc: Global, removal: &BoundRemoval) -> Result<(), AllocError> {
        let space = entry_kind(removal.kind).space();
        let _ = self.catalog.drop_name(space, removal.name.as_str());
        if !matches!(removal.kind, ThingKind::AnIndex | ThingKind::ATrigger) {
            self.remove_owned(alloc, Space::Names, &removal.name)?;
            self.remove_owned(alloc, Space::Triggers, &removal.name)?;
        }
        Ok(())
    }

    fn remove_owned(
        &mut self,
        alloc: Global,
        space: Space,
        owner: &Text,
    ) -> Result<(), AllocError> {
        let names = owned_names(alloc, self.catalog.entries(space), owner)?;
        for name in names.as_slice() {
            let _ = self.catalog.drop_name(space, name.as_str());
        }
        Ok(())
    }
}

/// The names of the indexes and triggers of a table or a view.
fn owned_names(alloc: Global, entries: &[Entry], owner: &Text) -> Result<Items<Text>, AllocError> {
    let mut names = Items::new(alloc);
    for entry in entries {
        if is_owned(entry.kind) && is_same_name(entry.owner.as_bytes(), owner.as_bytes()) {
            names.push(entry.name.clone()?)?;
        }
    }
    Ok(names)
}

/// Whether things of this kind go with what they belong to; the owner of a module's table is the module.
fn is_owned(kind: EntryKind) -> bool {
    matches!(kind, EntryKind::Index | EntryKind::Trigger)
}

fn entry_kind(kind: ThingKind) -> EntryKind {
    match kind {
        ThingKind::ATable => EntryKind::Table,
        ThingKind::AModuleTable => EntryKind::Module,
        ThingKind::AnIndex => EntryKind::Index,
        ThingKind::AView => EntryKind::View,
        ThingKind::ATrigger => EntryKind::Trigger,
    }
}
