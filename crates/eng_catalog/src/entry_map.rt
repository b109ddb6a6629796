// The entries of one space.
ghost use Rattle.std.specs.Prelude.{◌≡◌, ◌≤◌, [], ◌∷◌, ◌++◌, None, IfNone, OnErr, OnOk, length, position, slice_get};
ghost use Rattle.std.specs.Option.{option_copied};
ghost use Rattle.eng_entry.specs.Entries.{HaveDistinctNames, entries_not_named, entries_not_on, entry_named, is_index_on, is_named};

use eng_entry::{Entry, is_same_name};
use indexmap::IndexMap;
use std::alloc::{AllocError, Global};
use std::marker::Model;

/// A name of at most so many bytes is folded on the stack and found by its hash.
const HASHED_LEN: usize = 64;

/// Entries of distinct names, each under its name in lower case, in the order in which they were added. Contracts see the list of
/// them.
#[derive(Drop)]
pub(crate) struct EntryMap {
    entries: IndexMap<Vec<u8>, Entry>,
}

impl Model for EntryMap {
    ghost use Rattle.std.specs.Prelude.{List};
    ghost use Rattle.std.specs.Coded.{codes};
    ghost use Rattle.eng_entry.specs.declared.entry.Entry.{Entry as Kept};
    ghost use Rattle.sql_tree.specs.contracts.expr.Expr as expr;
    ghost use Rattle.sql_tree.specs.contracts.query.Query as query;
    ghost use Rattle.indexmap.specs.IndexMap.{values};
    ghost use Rattle.eng_catalog.specs.Keyed.{AreKeyed};

    ghost Value = { List Kept };

    ghost coded = { Prim.hlevel (codes, expr.the_row.coded, query.the_row.coded) };

    ghost view = { λ m. values m.entries };

    ghost invariant = { λ m. AreKeyed m.entries.entries };
}

impl EntryMap {
    pub(crate) fn new(alloc: Global) -> EntryMap
        ensures { result ≡ [] }
    {
        EntryMap {
            entries: IndexMap::new(alloc),
        }
    }

    /// The entries, oldest first.
    pub(crate) fn entries(&self) -> &[Entry]
        ensures entries { result.now ≡ self.now }
        ensures distinct { HaveDistinctNames self.now }
    {
        // `len` is called for its clause that the keys are distinct.
        let _len = self.entries.len();
        self.entries.values().as_slice()
    }

    /// The entry of this name.
    pub(crate) fn find(&self, name: &str) -> Option<&Entry>
        ensures { option_copied result ≡ entry_named name.now self.now }
    {
        match self.place(name) {
            Some(place) => self.at(place),
            None => None,
        }
    }

    /// Puts an entry of a new name behind the others. Without memory nothing changes.
    pub(crate) fn add(&mut self, entry: Entry) -> Result<(), AllocError>
        requires { entry_named entry.name self.old ≡ None }
        ensures ok { OnOk result (self.new ≡ self.old ++ entry ∷ []) }
        ensures err { OnErr result (self.new ≡ self.old) }
    {
        let alloc = *self.entries.allocator();
        let key = entry.name.as_bytes().to_ascii_lowercase(alloc)?;
        match self.entries.insert(key, entry) {
            Ok(_) => Ok(()),
            Err(_) => Err(AllocError),
        }
    }

    /// Takes the entry of this name out; the others stay in their order. Takes no memory.
    pub(crate) fn drop_name(&mut self, name: &str) -> Option<Entry>
        ensures entry { result ≡ entry_named name.now self.old }
        ensures rest { self.new ≡ entries_not_named name.now self.old }
        ensures none { IfNone result (self.new ≡ self.old) }
    {
        // `len` is called for its clause that the keys are distinct.
        let _len = self.entries.len();
        match self.place(name) {
            Some(place) => match self.entries.shift_remove_index(place) {
                Some((_, entry)) => Some(entry),
                None => None,
            },
            None => None,
        }
    }

    /// Takes the entries of the indexes on the table of this name out; the others stay in their order. Takes no memory.
    pub(crate) fn drop_indexes(&mut self, table: &str)
        ensures { self.new ≡ entries_not_on table.now self.old }
    {
        while let Some(place) = self.index_place(table) {
            self.entries.shift_remove_index(place);
        }
    }

    /// The place of the oldest index on the table of this name.
    fn index_place(&self, table: &str) -> Option<usize>
        ensures { result ≡ position (is_index_on table.now) self.now }
    {
        self.entries
            .values()
            .position(|e| e.is_index_on(table.as_bytes()))
    }

    /// The place of the entry of this name.
    fn place(&self, name: &str) -> Option<usize>
        ensures { result ≡ position (is_named name.now) self.now }
    {
        let bytes = name.as_bytes();
        if bytes.len() <= HASHED_LEN {
            self.hashed_place(bytes)
        } else {
            self.searched_place(bytes)
        }
    }

    fn hashed_place(&self, name: &[u8]) -> Option<usize>
        requires { length name.now ≤ HASHED_LEN }
        ensures { result ≡ position (is_named name.now) self.now }
    {
        let mut room = [0; HASHED_LEN];
        let key = &mut room[..name.len()];
        key.copy_from_slice(name);
        key.make_ascii_lowercase();
        self.entries.get_index_of(&*key)
    }

    fn searched_place(&self, name: &[u8]) -> Option<usize>
        ensures { result ≡ position (is_named name.now) self.now }
    {
        self.entries
            .values()
            .position(|e| is_same_name(e.name.as_bytes(), name))
    }

    fn at(&self, place: usize) -> Option<&Entry>
        ensures { option_copied result ≡ slice_get self.now place }
    {
        match self.entries.get_index(place) {
            Some((_, entry)) => Some(entry),
            None => None,
        }
    }
}
