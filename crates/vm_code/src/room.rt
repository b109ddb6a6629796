// How many registers instructions name.
ghost use Rattle.std.specs.List.{flat_map};
ghost use Rattle.std.specs.Prelude.{◌≡◌, ◌+◌, max};
ghost use Rattle.eng_index.specs.Searching.{bound_count, limit_count};
ghost use Rattle.vm_code.specs.Track.{one, operand_spans, room_for, spans_of};

use crate::{Op, Operand};
use eng_index::{Bounds, Edge};

impl Op {
    /// How many registers a frame has that has all which the instruction names.
    #[tactic(auto, using(crate::proofs::Rooms::room_append))]
    pub fn room(&self) -> u64
        ensures { result ≡ room_for (spans_of self.now) }
    {
        match self {
            Op::If { register, .. } => one(*register),
            Op::IfNot { register, .. } => one(*register),
            Op::IsNull { register, .. } => one(*register),
            Op::NotNull { register, .. } => one(*register),
            Op::IsBad { register, .. } => one(*register),
            Op::HaltBad { register } => one(*register),
            Op::Call {
                first,
                count,
                to,
                ..
            } => also(*first, *count, one(*to)),
            Op::Ret { first, count } => also(*first, *count, 0),
            Op::Argument { to, .. } => one(*to),
            Op::ResultRow { first, count } => also(*first, *count, 0),
            Op::Null { to } => one(*to),
            Op::Integer { to, .. } => one(*to),
            Op::String8 { to, .. } => one(*to),
            Op::Blob { to, .. } => one(*to),
            Op::Bad { to, .. } => one(*to),
            Op::Variable { to, .. } => one(*to),
            Op::Copy { from, to } => also(*from, 1, one(*to)),
            Op::Affinity { register, .. } => one(*register),
            Op::Beside { register, .. } => one(*register),
            Op::MustBeInt { register } => one(*register),
            Op::Unary { operand, to, .. } => operand_room(operand).max(one(*to)),
            Op::Binary {
                left,
                right,
                to,
                ..
            } => two_rooms(left, right).max(one(*to)),
            Op::LikeEscaped {
                text,
                pattern,
                escape,
                to,
            } => two_rooms(text, pattern)
                .max(operand_room(escape))
                .max(one(*to)),
            Op::Function { args, to, .. } => operands_room(args.as_slice()).max(one(*to)),
            Op::Merge { from, to } => also(*from, 1, one(*to)),
            Op::RowOf {
                rowid,
                first,
                count,
                ..
            } => also(*rowid, 1, also(*first, *count, 0)),
            Op::Search { bounds, first, .. } => bound_room(*first, bounds),
            Op::SeekRowid { rowid, .. } => one(*rowid),
            Op::SorterInsert { first, count } => also(*first, *count, 0),
            Op::SorterData { first, count, .. } => also(*first, *count, 0),
            Op::Column { to, .. } => one(*to),
            Op::Rowid { to, .. } => one(*to),
            Op::NotExists { rowid, .. } => one(*rowid),
            Op::NoConflict {
                rowid,
                first,
                count,
                ..
            } => also(*rowid, 1, also(*first, *count, 0)),
            Op::NewRowid { to, .. } => one(*to),
            Op::Insert {
                rowid,
                first,
                count,
                ..
            } => also(*rowid, 1, also(*first, *count, 0)),
            _ => 0,
        }
    }
}

/// Room for one register.
fn one(register: u32) -> u64
    ensures { result ≡ room_for (one register) }
{
    also(register, 1, 0)
}

/// Room for so many registers from one on, beside what there has to be anyway.
fn also(first: u32, count: u32, room: u64) -> u64
    ensures { result ≡ max (first + count) room }
{
    (u64::from(first) + u64::from(count)).max(room)
}

fn operand_room(operand: &Operand) -> u64
    ensures { result ≡ room_for (operand_spans operand.now) }
{
    match operand {
        Operand::Register(register) => one(*register),
        _ => 0,
    }
}

fn two_rooms(left: &Operand, right: &Operand) -> u64
    ensures { result ≡ max (room_for (operand_spans left.now)) (room_for (operand_spans right.now)) }
{
    operand_room(left).max(operand_room(right))
}

/// Room for what the operands of a call name.
#[tactic(auto, using(crate::proofs::Rooms::room_step))]
fn operands_room(operands: &[Operand]) -> u64
    ensures { result ≡ room_for (flat_map operand_spans operands.now) }
{
    let mut room = 0;
    for operand in operands {
        room = operand_room(operand).max(room);
    }
    room
}

/// Room for what bounds a search, from a register on.
fn bound_room(first: u32, bounds: &Bounds) -> u64
    ensures { result ≡ max (first + bound_count bounds.now) 0 }
{
    u64::from(first) + u64::from(bounds.equal) + limit_room(bounds.lower) + limit_room(bounds.upper)
}

fn limit_room(limit: Option<Edge>) -> u64
    ensures { result ≡ limit_count limit }
{
    match limit {
        Some(_) => 1,
        None => 0,
    }
}
