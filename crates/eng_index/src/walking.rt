// The entries between two fronts.
ghost use Rattle.std.specs.Prelude.{◌≡◌, IfOk, length};
ghost use Rattle.eng_cursor.specs.Places.{row_at, sought};
ghost use Rattle.eng_cursor.specs.declared.cursor.How.TheVariants.{Ge};
ghost use Rattle.eng_index.specs.Fronts.{pairs_at, pairs_between, rowid_below, rowids_below};
ghost use Rattle.eng_index.specs.Stored.{rowid_in};
ghost use Rattle.eng_tree.specs.Map.{IsAscending, place};

use crate::fronts::Fronts;
use eng_cursor::{Cursor, How};
use eng_key::rowid_of_key;
use eng_tree::Tree;
use std::alloc::{AllocError, Global};
use std::cmp::Ordering;

const ROWID_BYTES: usize = 8;

/// The rowids of the entries between two fronts, in the order of the keys.
pub(crate) fn rowids_between(
    alloc: Global,
    tree: &Tree,
    fronts: &Fronts,
) -> Result<Vec<i64>, AllocError>
    ensures { IfOk result (λ rowids. rowids.items ≡ rowids_below fronts.now.to (pairs_at tree.now.pairs (sought Ge fronts.now.from tree.now.pairs))) }
{
    let mut rowids = Vec::new(alloc);
    let mut cursor = Cursor::new();
    cursor.seek(tree, fronts.from.as_slice(), How::Ge);
    while let Some(rowid) = rowid_at(tree, &cursor, fronts.to.as_slice()) {
        rowids.push(rowid)?;
        cursor.next(tree);
    }
    Ok(rowids)
}

/// How many entries lie between two fronts. None of them is visited.
#[tactic(auto, using(crate::proofs::Counting::places_apart))]
pub(crate) fn count_between(tree: &Tree, fronts: &Fronts) -> usize
    ensures { result ≡ length (pairs_between fronts.now tree.now.pairs) }
{
    let from = place_of(tree, fronts.from.as_slice());
    let to = place_of(tree, fronts.to.as_slice());
    to.saturating_sub(from)
}

/// How many entries have a key below this one.
fn place_of(tree: &Tree, key: &[u8]) -> usize
    ensures place { result ≡ place key.now tree.now.pairs }
    ensures order { IsAscending tree.now.pairs }
{
    match tree.place(key) {
        Ok(place) => place,
        Err(place) => place,
    }
}

/// The rowid of the entry that the cursor is on, if its key is below this one.
fn rowid_at(tree: &Tree, cursor: &Cursor, to: &[u8]) -> Option<i64>
    ensures { result ≡ rowid_below to.now (row_at tree.now.pairs cursor.now) }
{
    match cursor.row(tree) {
        None => None,
        Some((key, _)) => match key.cmp(&to) {
            Ordering::Less => rowid_in(key),
            Ordering::Equal | Ordering::Greater => None,
        },
    }
}

/// The rowid of an entry, which stands at the end of its key.
fn rowid_in(key: &[u8]) -> Option<i64>
    ensures { result ≡ rowid_in key.now }
{
    rowid_of_key(&key[key.len().saturating_sub(ROWID_BYTES)..])
}
