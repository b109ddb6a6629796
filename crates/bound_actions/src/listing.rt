// What is listed so far.
ghost use Rattle.std.specs.Prelude.{◌≡◌, OnOk, nat_eq};
ghost use Rattle.bound_actions.specs.Writes.{is_listed, marked, more};

use crate::Piece;
use crate::pieces::put_actions;
use eng_value::Action;
use sqlite_items::Items;
use std::alloc::AllocError;

/// The actions that are listed so far, and the triggers that are, by their places.
#[derive(Drop)]
pub(crate) struct Listed {
    pub actions: Items<Action>,
    pub triggers: Items<u32>,
}

pub(crate) fn put_more(pieces: &[Piece], listed: &mut Listed) -> Result<(), AllocError>
    ensures { OnOk result (listed.new ≡ more pieces.now listed.old) }
{
    put_actions(pieces, &mut listed.actions)
}

pub(crate) fn mark(place: u32, listed: &mut Listed) -> Result<(), AllocError>
    ensures { OnOk result (listed.new ≡ marked place listed.old) }
{
    listed.triggers.push(place)
}

pub(crate) fn is_listed(place: u32, listed: &Listed) -> bool
    ensures { result ≡ is_listed place listed.now }
{
    for other in listed.triggers.as_slice() {
        if place == *other {
            return true;
        }
    }
    false
}
