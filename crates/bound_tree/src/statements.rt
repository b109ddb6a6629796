// Whole statements whose names are bound. Drops are written out, since those that are derived would be proved again in each library
// above, but for those of what is taken apart there.
use crate::{BoundTrigger, BoundUnit, BoundWrite, IndexPart};
use eng_value::Text;
use sql_tree::Explain;
use sqlite_items::Items;

#[derive(Clone, Copy, PartialEq, Eq)]
pub enum ThingKind {
    ATable,
    AModuleTable,
    AnIndex,
    AView,
    ATrigger,
}

/// A thing that is created: its kind, its name, the table of an index or a trigger or the module of a table, the parts of an index and
/// whether it is unique, and the arguments of a module.
pub struct BoundCreation {
    pub kind: ThingKind,
    pub name: Text,
    pub owner: Text,
    pub unique: bool,
    pub parts: Items<IndexPart>,
    pub arguments: Items<Text>,
}

impl Drop for BoundCreation {
    fn drop(self) {
        let BoundCreation {
            kind: _,
            name,
            owner,
            unique: _,
            parts,
            arguments,
        } = self;
        drop(name);
        drop(owner);
        drop(parts);
        drop(arguments);
    }
}

pub struct BoundRemoval {
    pub kind: ThingKind,
    pub name: Text,
    pub owner: Text,
}

impl Drop for BoundRemoval {
    fn drop(self) {
        let BoundRemoval {
            kind: _,
            name,
            owner,
        } = self;
        drop(name);
        drop(owner);
    }
}

pub enum BoundTransaction {
    Begins,
    Commits,
    RollsBack,
    RollsBackTo(Text),
    Saves(Text),
    Releases(Text),
}

impl Drop for BoundTransaction {
    fn drop(self) {
        match self {
            BoundTransaction::Begins => {}
            BoundTransaction::Commits => {}
            BoundTransaction::RollsBack => {}
            BoundTransaction::RollsBackTo(a) => drop(a),
            BoundTransaction::Saves(a) => drop(a),
            BoundTransaction::Releases(a) => drop(a),
        }
    }
}

#[derive(Drop)]
pub enum BoundCommand {
    Asked(u32),
    Written(BoundWrite),
    Created(BoundCreation),
    Removed(BoundRemoval),
    Transacted(BoundTransaction),
    Pragma(Text),
    /// IF [NOT] EXISTS: the kind of the thing, and what it touches: its name and, where that is told, that of its table or module.
    Nothing(ThingKind, Text, Text),
}

/// A statement.
#[derive(Drop)]
pub struct BoundStatement {
    pub explain: Option<Explain>,
    pub units: Items<BoundUnit>,
    pub triggers: Items<BoundTrigger>,
    pub command: BoundCommand,
}
