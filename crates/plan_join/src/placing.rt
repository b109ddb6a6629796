// The order of loops.
ghost use Rattle.std.specs.Prelude.{◌≡◌, ◌++◌, [], ◌∷◌, List, IfOk, OnOk, length, true};
ghost use Rattle.plan_join.specs.Orders.{IsInner, IsOrderOf, IsSlotFor};
ghost use Rattle.sql_meaning.specs.declared.bound.FromTable.{FromTable as Item};
ghost use Rattle.sql_meaning.specs.declared.bound.Join.TheVariants.{Inner};

use sql_meaning::{FromTable, Join};
use std::alloc::{AllocError, Global};

/// An item of a FROM in its place.
#[derive(Clone, Copy)]
pub(crate) struct Placed<'a> {
    pub(crate) place: u32,
    pub(crate) item: &'a FromTable,
}

/// The items of a FROM in the order of their loops.
#[derive(Drop)]
pub(crate) struct LoopOrder<'a> {
    pub(crate) items: Vec<Placed<'a>>,
    /// Whether one of them was moved in front of others.
    pub(crate) moved: bool,
}

impl<'a> LoopOrder<'a> {
    /// The next item of the FROM, as far to the front as it is wanted and may go.
    fn put(&mut self, place: u32, item: &'a FromTable, wanted: &[u32]) -> Result<(), AllocError>
        ensures { (from : List Item) → length from ≡ place → IsOrderOf from self.old.items.items self.old.moved → OnOk result (IsOrderOf (from ++ item.now ∷ []) self.new.items.items self.new.moved) }
    {
        let count = self.items.len();
        let slot = slot(self.items.as_slice(), item, rank_of(place, wanted), wanted);
        self.items.insert(slot, Placed { place, item })?;
        if slot < count {
            self.moved = true;
        }
        Ok(())
    }
}

/// The items of a FROM as near to the order of places that is wanted as exchanges of neighbours lead, neither of which is a LEFT JOIN. Those that
/// are not named come behind those that are, in the order of the FROM.
pub(crate) fn order_near<'a>(
    alloc: Global,
    from: &'a [FromTable],
    wanted: &[u32],
) -> Result<LoopOrder<'a>, AllocError>
    ensures { IfOk result (λ o. IsOrderOf from.now o.items.items o.moved) }
{
    let mut order = LoopOrder {
        items: Vec::new(alloc),
        moved: false,
    };
    for (place, item) in from.iter().enumerate() {
        let number = small(place)?;
        order.put(number, item, wanted)?;
    }
    Ok(order)
}

/// A place as plans count places. One that is too large is want of memory: no list is so long.
fn small(place: usize) -> Result<u32, AllocError>
    ensures { IfOk result (λ n. n ≡ place) }
{
    match u32::try_from(place) {
        Ok(number) => Ok(number),
        Err(_) => Err(AllocError),
    }
}

/// Where an item of this rank goes: in front of all that give way to it, which a LEFT JOIN never does, and it itself is none.
fn slot(order: &[Placed], item: &FromTable, rank: usize, wanted: &[u32]) -> usize
    ensures { IsSlotFor order.now item.now result }
{
    if is_inner(item) {
        behind_others(order, rank, wanted)
    } else {
        order.len()
    }
}

/// The place behind the last that gives no way to this rank.
fn behind_others(order: &[Placed], rank: usize, wanted: &[u32]) -> usize
    ensures { (item : Item) → item.join ≡ Inner → IsSlotFor order.now item result }
{
    let mut slot = 0;
    for (index, other) in order.iter().enumerate() {
        if !gives_way(other, rank, wanted) {
            slot = index + 1;
        }
    }
    slot
}

/// Whether an item is wanted behind one of this rank, and may go there.
fn gives_way(item: &Placed, rank: usize, wanted: &[u32]) -> bool
    ensures { result ≡ true → IsInner item.now }
{
    is_inner(item.item) && rank < rank_of(item.place, wanted)
}

pub(crate) fn is_inner(item: &FromTable) -> bool
    ensures { result ≡ true → item.now.join ≡ Inner }
{
    match &item.join {
        Join::Inner => true,
        Join::Left(_) => false,
    }
}

/// Where a place is wanted; behind all others where it is not named.
fn rank_of(place: u32, wanted: &[u32]) -> usize {
    for (rank, other) in wanted.iter().enumerate() {
        if *other == place {
            return rank;
        }
    }
    wanted.len()
}
