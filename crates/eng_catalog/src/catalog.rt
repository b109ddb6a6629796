// The catalog.
ghost use Rattle.std.specs.Prelude.{◌≡◌, None, IfNone, OnErr, OnOk};
ghost use Rattle.std.specs.Option.{option_copied};
ghost use Rattle.eng_entry.specs.Entries.{HaveDistinctNames, entries_in, entry_named, no_entries, with_entry, without_indexes, without_name};
ghost use Rattle.eng_entry.specs.Spaces.{space_of};

use crate::entry_map::EntryMap;
use eng_entry::{Entry, Space};
use std::alloc::{AllocError, Global};
use std::marker::Model;

/// What was created and not dropped since. Contracts see two lists of entries, oldest first: `names`, of tables, module tables,
/// indexes and views, and `triggers`. In each no two entries have one name; names do not regard the case of ASCII letters.
pub struct Catalog {
    names: EntryMap,
    triggers: EntryMap,
}

impl Drop for Catalog {
    fn drop(self) {
        let Catalog { names, triggers } = self;
        drop(names);
        drop(triggers);
    }
}

impl Model for Catalog {
    ghost use Rattle.std.specs.Coded.{codes};
    ghost use Rattle.sql_tree.specs.contracts.expr.Expr as expr;
    ghost use Rattle.sql_tree.specs.contracts.query.Query as query;
    ghost use Rattle.eng_entry.specs.Entries.{Entries};

    ghost Value = { Entries };

    ghost coded = { Prim.hlevel (codes, expr.the_row.coded, query.the_row.coded) };

    ghost view = { λ c. record { names = c.names; triggers = c.triggers } };
}

impl Catalog {
    /// Nothing was created yet. Takes no memory.
    pub fn new(alloc: Global) -> Catalog
        ensures { result ≡ no_entries }
    {
        Catalog {
            names: EntryMap::new(alloc),
            triggers: EntryMap::new(alloc),
        }
    }

    /// The entries of a space, oldest first.
    pub fn entries(&self, space: Space) -> &[Entry]
        ensures entries { result.now ≡ entries_in space self.now }
        ensures distinct { HaveDistinctNames (entries_in space self.now) }
    {
        match space {
            Space::Names => self.names.entries(),
            Space::Triggers => self.triggers.entries(),
        }
    }

    /// The entry of this name in a space. A name of up to 64 bytes is found by its hash, a longer one by looking at one entry after
    /// another. Takes no memory.
    pub fn find(&self, space: Space, name: &str) -> Option<&Entry>
        ensures { option_copied result ≡ entry_named name.now (entries_in space self.now) }
    {
        match space {
            Space::Names => self.names.find(name),
            Space::Triggers => self.triggers.find(name),
        }
    }

    /// Puts an entry behind the others of its space, where no entry has its name yet (`find` tells). Without memory nothing changes.
    pub fn add(&mut self, entry: Entry) -> Result<(), AllocError>
        requires { entry_named entry.name (entries_in (space_of entry.kind) self.old) ≡ None }
        ensures ok { OnOk result (self.new ≡ with_entry entry self.old) }
        ensures err { OnErr result (self.new ≡ self.old) }
    {
        match entry.kind.space() {
            Space::Names => self.names.add(entry),
            Space::Triggers => self.triggers.add(entry),
        }
    }

    /// Takes the entries of the indexes on the table of this name out; the others stay in their order. Takes no memory.
    pub fn drop_indexes(&mut self, table: &str)
        ensures { self.new ≡ without_indexes table.now self.old }
    {
        self.names.drop_indexes(table);
    }

    /// Takes the entry of this name out of a space; the others stay in their order. Where none has the name nothing changes. Takes no
    /// memory.
    pub fn drop_name(&mut self, space: Space, name: &str) -> Option<Entry>
        ensures entry { result ≡ entry_named name.now (entries_in space self.old) }
        ensures rest { self.new ≡ without_name space name.now self.old }
        ensures none { IfNone result (self.new ≡ self.old) }
    {
        match space {
            Space::Names => self.names.drop_name(name),
            Space::Triggers => self.triggers.drop_name(name),
        }
    }
}
