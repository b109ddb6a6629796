// What an access leaves to be tested.
ghost use Rattle.std.specs.Prelude.{◌≡◌, false, slice_index_or, IfOk};
ghost use Rattle.plan_tree.specs.Visits as visits;

use plan_tree::Conjunct;
use sqlite_items::Items;
use std::alloc::{AllocError, Global};

/// The conjuncts that are not consumed.
pub(crate) fn tested<'a>(
    alloc: Global,
    conjuncts: &[Conjunct<'a>],
    consumed: &[bool],
) -> Result<Items<Conjunct<'a>>, AllocError>
    ensures { IfOk result (λ all. all ≡ visits.tested consumed.now conjuncts.now) }
{
    let mut all = Items::new(alloc);
    for (place, conjunct) in conjuncts.iter().enumerate() {
        if !is_consumed(consumed, place) {
            all.push(conjunct.copied())?;
        }
    }
    Ok(all)
}

/// Whether the conjunct in a place is consumed.
fn is_consumed(consumed: &[bool], place: usize) -> bool
    ensures { result ≡ slice_index_or consumed.now place false }
{
    match consumed.get(place) {
        Some(is) => *is,
        None => false,
    }
}
