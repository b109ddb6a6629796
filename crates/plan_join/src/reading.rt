// Where a conjunct is tested.
ghost use Rattle.std.specs.Prelude.{◌≡◌, IfOk};
ghost use Rattle.std.specs.List.{filter};
ghost use Rattle.plan_join.specs.Orders.{items_at};
ghost use Rattle.plan_join.specs.Ready.{is_ready, reads_none, tested_in};

use crate::placing::Placed;
use plan_tree::Conjunct;
use sqlite_items::Items;
use std::alloc::{AllocError, Global};

/// Whether a conjunct reads no row of these items.
pub(crate) fn reads_none(conjunct: &Conjunct, items: &[Placed]) -> bool
    ensures { result ≡ reads_none (items_at items.now) conjunct.now }
{
    for next in items {
        if !conjunct.ignores(next.place) {
            return false;
        }
    }
    true
}

/// Whether a conjunct may be tested in front of the loops over these items, which are all that are left. An item that stands alone tests
/// all, so that its access sees each of them.
fn is_ready(conjunct: &Conjunct, left: &[Placed], alone: bool) -> bool
    ensures { result ≡ is_ready alone (items_at left.now) conjunct.now }
{
    if alone {
        left.is_empty()
    } else {
        reads_none(conjunct, left)
    }
}

/// The conjuncts that are tested in front of all loops over these items.
pub(crate) fn tested_first<'a>(
    alloc: Global,
    conjuncts: &[Conjunct<'a>],
    order: &[Placed],
    alone: bool,
) -> Result<Items<Conjunct<'a>>, AllocError>
    ensures { IfOk result (λ those. those ≡ filter (is_ready alone (items_at order.now)) conjuncts.now) }
{
    let mut those = Items::new(alloc);
    for conjunct in conjuncts {
        if is_ready(conjunct, order, alone) {
            those.push(conjunct.copied())?;
        }
    }
    Ok(those)
}

/// The conjuncts that may be tested in front of the loops that are left, and not in front of these, one of which is the loop that tests them.
pub(crate) fn tested_in<'a>(
    alloc: Global,
    conjuncts: &[Conjunct<'a>],
    here: &[Placed],
    left: &[Placed],
    alone: bool,
) -> Result<Items<Conjunct<'a>>, AllocError>
    ensures { IfOk result (λ those. those ≡ tested_in alone (items_at here.now) (items_at left.now) conjuncts.now) }
{
    let mut those = Items::new(alloc);
    for conjunct in conjuncts {
        if is_ready(conjunct, left, alone) && !is_ready(conjunct, here, alone) {
            those.push(conjunct.copied())?;
        }
    }
    Ok(those)
}
