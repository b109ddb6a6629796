// Entries that are gathered for an index.
ghost use Rattle.std.specs.Prelude.{◌≡◌, ◌++◌, ◌∷◌, [], IfOk, OnErr, OnOk, List};
ghost use Rattle.eng_tree.specs.Map.{IsAscending as AreInOrder};
ghost use Rattle.eng_value.specs.Arrangements.{Shuffled};
ghost use Rattle.eng_value.specs.StoredRows.{StoredRow as MeantRow, IsAscending};
ghost use Rattle.eng_index.specs.Stored.{AreEntriesOf, HaveOwnKeys, IsIndexOf};

use crate::entry_keys::EntryKeys;
use crate::{Index, KeyTerm};
use eng_tree::{Bytes, Tree};
use eng_value::StoredRow;
use std::alloc::{AllocError, Global};
use std::marker::Model;

/// The entries of rows, gathered to make an index of them at once: that sorts them, and puts each behind those before it, where `insert`
/// would make room for each among the others. Contracts see the terms and the entries as pairs, and say of which rows these are
/// (`AreEntriesOf`).
#[derive(Drop)]
pub struct Entries {
    keys: EntryKeys,
    entries: Vec<(Bytes, Bytes)>,
}

impl Model for Entries {
    ghost use Rattle.eng_index.specs.Stored.{Indexed};

    ghost Value = { Indexed };

    ghost view = { λ e. record { terms = e.keys; pairs = e.entries.items } };
}

impl Entries {
    /// No entries yet, by these terms.
    pub fn new(alloc: Global, terms: Vec<KeyTerm>) -> Result<Entries, AllocError>
        ensures terms { IfOk result (λ entries. entries.terms ≡ terms.items) }
        ensures rows { IfOk result (λ entries. AreEntriesOf entries []) }
    {
        Ok(Entries {
            keys: EntryKeys::new(alloc, terms)?,
            entries: Vec::new(alloc),
        })
    }

    /// Adds the entry of a row. Without memory nothing changes.
    pub fn push(&mut self, row: &StoredRow) -> Result<(), AllocError>
        ensures terms { self.new.terms ≡ self.old.terms }
        ensures rows { OnOk result ((rows : List MeantRow) → AreEntriesOf self.old rows → AreEntriesOf self.new (rows ++ row.now ∷ [])) }
        ensures err { OnErr result (self.new ≡ self.old) }
    {
        let entry = self.keys.entry(row)?;
        self.entries.push(entry)?;
        Ok(())
    }

    /// The index of the rows whose entries were added, of which no two have one rowid. Time to sort the entries. Only memory can fail.
    pub fn into_index(self) -> Result<Index, AllocError>
        ensures terms { IfOk result (λ index. index.terms ≡ self.terms) }
        ensures rows { IfOk result (λ index. (rows : List MeantRow) → IsAscending rows → AreEntriesOf self rows → IsIndexOf index rows) }
    {
        let Entries { keys, mut entries } = self;
        last_first(&mut entries);
        let tree = tree_of(entries)?;
        Ok(Index::of_tree(keys, tree))
    }
}

/// Sorts entries by their keys, the greatest first.
fn last_first(entries: &mut Vec<(Bytes, Bytes)>)
    ensures { Shuffled entries.old.items entries.new.items }
{
    entries.sort_unstable_by(|a, b| b.0.as_slice().cmp(&a.0.as_slice()));
}

/// The tree of these entries, which it takes from the back.
fn tree_of(mut entries: Vec<(Bytes, Bytes)>) -> Result<Tree, AllocError>
    ensures entries { IfOk result (λ tree. HaveOwnKeys entries.items → Shuffled entries.items tree.pairs) }
    ensures order { IfOk result (λ tree. AreInOrder tree.pairs) }
{
    let mut tree = Tree::new(*entries.allocator());
    while let Some((key, mark)) = entries.pop() {
        tree.insert(key, mark)?;
    }
    // `len` is called for its clause that the keys ascend.
    let _len = tree.len();
    Ok(tree)
}
