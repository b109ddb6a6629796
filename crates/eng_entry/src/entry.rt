// Entries of a catalog.
ghost use Rattle.std.specs.Prelude.{◌≡◌};
ghost use Rattle.eng_entry.specs.Entries.{is_index, is_index_on};
ghost use Rattle.eng_entry.specs.Spaces.{space_of};

use crate::is_same_name;
use eng_value::Text;
use sql_tree::Statement;

/// A space of names, in which no two things have one name. Tables, module tables, indexes and views share one (CREATE TABLE), and
/// triggers have another.
#[derive(Clone, Copy)]
pub enum Space {
    Names,
    Triggers,
}

/// What kind of thing has an entry.
#[derive(Clone, Copy)]
pub enum EntryKind {
    Table,
    /// A table of a module (CREATE VIRTUAL TABLE).
    Module,
    Index,
    View,
    Trigger,
}

impl EntryKind {
    /// The space in which a thing of this kind has its name.
    pub fn space(self) -> Space
        ensures { result ≡ space_of self }
    {
        match self {
            EntryKind::Table | EntryKind::Module | EntryKind::Index | EntryKind::View =>
                Space::Names,
            EntryKind::Trigger => Space::Triggers,
        }
    }

    fn is_index(self) -> bool
        ensures { result ≡ is_index self }
    {
        match self {
            EntryKind::Index => true,
            _ => false,
        }
    }
}

/// What is kept of a thing that was created.
pub struct Entry {
    pub kind: EntryKind,
    /// As it was written where the thing was created.
    pub name: Text,
    /// The table of an index or a trigger, or the module of a table; empty for a table without one and for a view.
    pub owner: Text,
    /// The number of the tree that holds a table or an index, or of the table in its module; it means nothing for a view and a
    /// trigger.
    pub number: u64,
    /// The text of its CREATE, from the first token to the last.
    pub text: Text,
    /// What the text is parsed into. Its tokens tell names and literals by their places in the text.
    pub def: Statement,
}

impl Entry {
    /// Whether it is that of an index on the table of this name. Takes no memory.
    pub fn is_index_on(&self, table: &[u8]) -> bool
        ensures { result ≡ is_index_on table.now self.now }
    {
        self.kind.is_index() && is_same_name(self.owner.as_bytes(), table)
    }
}

impl Drop for Entry {
    fn drop(self) {
        let Entry {
            kind: _,
            name,
            owner,
            number: _,
            text,
            def,
        } = self;
        drop(name);
        drop(owner);
        drop(text);
        drop(def);
    }
}
