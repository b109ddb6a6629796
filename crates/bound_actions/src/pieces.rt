// Lists of what a unit does, before its arguments are handed over.
ghost use Rattle.std.specs.Prelude.{◌≡◌, ◌++◌, IfOk, OnOk};
ghost use Rattle.std.specs.List.{list_any};
ghost use Rattle.bound_actions.specs.Pieces.{action, action_of, actions_in, asked, filled, filled_one, reads_item, settled, settled_one, standing, unit_named};

use eng_value::{Action, ActionKind, Text};
use sqlite_items::{Items, at};
use std::alloc::{AllocError, Global};

/// A piece of a list: an action, or what stands for some.
#[derive(Drop)]
pub(crate) enum Piece {
    Does(Action),
    /// What the argument of this place reads, wherever it comes from.
    Brings(u32),
    /// A column of an item of the own FROM is read.
    Reads(u32, Action),
    /// An item of the own FROM is a table or a view: that it is read, unless a column of it is.
    Stands(usize, Action),
}

/// What reads of an item's columns are told as: the table or view, where it is one, and the names of its columns.
#[derive(Drop)]
pub(crate) struct Readable {
    pub table: Option<Text>,
    pub columns: Items<Text>,
}

/// Where an expression stands: the innermost view or trigger, the items whose columns it reads, and what the aggregates of its SELECT
/// do, by their slots.
#[derive(Drop)]
pub(crate) struct Spot {
    pub within: Option<Text>,
    pub items: Items<Readable>,
    pub slots: Items<Items<Piece>>,
}

// ---- actions

pub(crate) fn copied_name(name: &Option<Text>) -> Result<Option<Text>, AllocError>
    ensures { IfOk result (λ copy. copy ≡ name.now) }
{
    match name {
        Some(text) => Ok(Some(text.clone()?)),
        None => Ok(None),
    }
}

pub(crate) fn new_action(
    alloc: Global,
    within: &Option<Text>,
    kind: ActionKind,
    first: &str,
    second: &str,
) -> Result<Action, AllocError>
    ensures { IfOk result (λ made. made ≡ action within.now kind first.now second.now) }
{
    let first = Text::from_str(alloc, first)?;
    let second = Text::from_str(alloc, second)?;
    let within = copied_name(within)?;
    Ok(Action {
        kind,
        first,
        second,
        within,
    })
}

pub(crate) fn copied_action(action: &Action) -> Result<Action, AllocError>
    ensures { IfOk result (λ copy. copy ≡ action.now) }
{
    let first = action.first.clone()?;
    let second = action.second.clone()?;
    let within = copied_name(&action.within)?;
    Ok(Action {
        kind: action.kind,
        first,
        second,
        within,
    })
}

fn copied_piece(piece: &Piece) -> Result<Piece, AllocError>
    ensures { IfOk result (λ copy. copy ≡ piece.now) }
{
    match piece {
        Piece::Does(action) => Ok(Piece::Does(copied_action(action)?)),
        Piece::Brings(place) => Ok(Piece::Brings(*place)),
        Piece::Reads(item, action) => Ok(Piece::Reads(*item, copied_action(action)?)),
        Piece::Stands(item, action) => Ok(Piece::Stands(*item, copied_action(action)?)),
    }
}

pub(crate) fn put_copies(pieces: &[Piece], out: &mut Items<Piece>) -> Result<(), AllocError>
    ensures { OnOk result (out.new ≡ out.old ++ pieces.now) }
{
    for piece in pieces {
        out.push(copied_piece(piece)?)?;
    }
    Ok(())
}

// ---- what a unit does where it is asked

/// What the unit of this number does.
pub(crate) fn put_unit(
    units: &[Items<Piece>],
    unit: u32,
    out: &mut Items<Piece>,
) -> Result<(), AllocError>
    ensures { OnOk result (out.new ≡ out.old ++ unit_named units.now unit) }
{
    match at(units, unit as usize) {
        Some(pieces) => put_copies(pieces.as_slice(), out),
        None => Ok(()),
    }
}

fn put_filled_one(
    handed: &[Items<Piece>],
    piece: &Piece,
    out: &mut Items<Piece>,
) -> Result<(), AllocError>
    ensures { OnOk result (out.new ≡ out.old ++ filled_one handed.now piece.now) }
{
    match piece {
        Piece::Brings(place) => put_unit(handed, *place, out),
        Piece::Does(action) => out.push(Piece::Does(copied_action(action)?)),
        Piece::Reads(item, action) => out.push(Piece::Reads(*item, copied_action(action)?)),
        Piece::Stands(item, action) => out.push(Piece::Stands(*item, copied_action(action)?)),
    }
}

pub(crate) fn put_filled(
    handed: &[Items<Piece>],
    pieces: &[Piece],
    out: &mut Items<Piece>,
) -> Result<(), AllocError>
    ensures { OnOk result (out.new ≡ out.old ++ filled handed.now pieces.now) }
{
    for piece in pieces {
        put_filled_one(handed, piece, out)?;
    }
    Ok(())
}

/// What the unit of this number does, with what is handed over to it.
pub(crate) fn put_asked(
    units: &[Items<Piece>],
    unit: u32,
    handed: &[Items<Piece>],
    out: &mut Items<Piece>,
) -> Result<(), AllocError>
    ensures { OnOk result (out.new ≡ out.old ++ asked units.now unit handed.now) }
{
    match at(units, unit as usize) {
        Some(pieces) => put_filled(handed, pieces.as_slice(), out),
        None => Ok(()),
    }
}

// ---- a SELECT as a whole

/// Whether a column of the item is read.
fn is_read(item: usize, pieces: &[Piece]) -> bool
    ensures { result ≡ list_any (reads_item item) pieces.now }
{
    for piece in pieces {
        if reads(item, piece) {
            return true;
        }
    }
    false
}

fn reads(item: usize, piece: &Piece) -> bool
    ensures { result ≡ reads_item item piece.now }
{
    match piece {
        Piece::Reads(other, _) => *other as usize == item,
        Piece::Does(_) | Piece::Brings(_) | Piece::Stands(_, _) => false,
    }
}

fn put_standing(
    item: usize,
    action: &Action,
    all: &[Piece],
    out: &mut Items<Piece>,
) -> Result<(), AllocError>
    ensures { OnOk result (out.new ≡ out.old ++ standing item action.now all.now) }
{
    if is_read(item, all) {
        return Ok(());
    }
    out.push(Piece::Does(copied_action(action)?))
}

fn put_settled_one(all: &[Piece], piece: &Piece, out: &mut Items<Piece>) -> Result<(), AllocError>
    ensures { OnOk result (out.new ≡ out.old ++ settled_one all.now piece.now) }
{
    match piece {
        Piece::Does(action) => out.push(Piece::Does(copied_action(action)?)),
        Piece::Brings(place) => out.push(Piece::Brings(*place)),
        Piece::Reads(_, action) => out.push(Piece::Does(copied_action(action)?)),
        Piece::Stands(item, action) => put_standing(*item, action, all, out),
    }
}

/// The pieces of a SELECT, where a table of which no column is read is read itself.
pub(crate) fn put_settled(pieces: &[Piece], out: &mut Items<Piece>) -> Result<(), AllocError>
    ensures { OnOk result (out.new ≡ out.old ++ settled pieces.now) }
{
    for piece in pieces {
        put_settled_one(pieces, piece, out)?;
    }
    Ok(())
}

// ---- a list that is handed nothing more

fn put_action_of(piece: &Piece, out: &mut Items<Action>) -> Result<(), AllocError>
    ensures { OnOk result (out.new ≡ out.old ++ action_of piece.now) }
{
    match piece {
        Piece::Does(action) | Piece::Reads(_, action) => out.push(copied_action(action)?),
        Piece::Brings(_) | Piece::Stands(_, _) => Ok(()),
    }
}

pub(crate) fn put_actions(pieces: &[Piece], out: &mut Items<Action>) -> Result<(), AllocError>
    ensures { OnOk result (out.new ≡ out.old ++ actions_in pieces.now) }
{
    for piece in pieces {
        put_action_of(piece, out)?;
    }
    Ok(())
}
