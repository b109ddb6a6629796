// What instructions need of cursors.
ghost use Rattle.std.specs.List.{flat_map, list_all};
ghost use Rattle.std.specs.Prelude.{◌≡◌, true, false, [], ◌∷◌, ◌++◌, All};
ghost use Rattle.vm_code.specs.Needs.{is_kind, is_on, is_this, meets};
ghost use Rattle.vm_code.specs.Track.{Meets, needs_of, operand_needs};

use crate::{CursorKind, Need, Op, OpenCursor, Operand};

impl Op {
    /// Whether what the instruction needs of cursors is so, where these are open. Takes no memory.
    pub fn needs_are_met(&self, open: &[OpenCursor]) -> bool
        ensures met { result ≡ true → All (Meets open.now) (needs_of self.now) }
        ensures lacking { result ≡ false → ¬ (All (Meets open.now) (needs_of self.now)) }
    {
        self.finds(open)
    }

    fn finds(&self, open: &[OpenCursor]) -> bool
        ensures { result ≡ list_all (meets open.now) (needs_of self.now) }
    {
        match self {
            Op::Unary { operand, .. } => operand_finds(operand, open),
            Op::Binary { left, right, .. } => two_find(left, right, open),
            Op::LikeEscaped {
                text,
                pattern,
                escape,
                ..
            } => three_find(text, pattern, escape, open),
            Op::Function { args, .. } => operands_find(args.as_slice(), open),
            Op::Close { cursor } => one_is_met(Need::Open(*cursor), open),
            Op::Rewind { cursor, .. } => one_is_met(Need::Table(*cursor), open),
            Op::Next { cursor, .. } => one_is_met(Need::Table(*cursor), open),
            Op::Search { cursor, .. } => one_is_met(Need::Table(*cursor), open),
            Op::SeekRowid { cursor, .. } => one_is_met(Need::Table(*cursor), open),
            Op::SorterSort { cursor, .. } => one_is_met(Need::Sorter(*cursor), open),
            Op::SorterData { cursor, .. } => one_is_met(Need::Sorter(*cursor), open),
            Op::SorterNext { cursor, .. } => one_is_met(Need::Sorter(*cursor), open),
            Op::Column { cursor, .. } => one_is_met(Need::Rows(*cursor), open),
            Op::Rowid { cursor, .. } => one_is_met(Need::Rows(*cursor), open),
            Op::NotExists { cursor, .. } => one_is_met(Need::Table(*cursor), open),
            Op::NoConflict { cursor, .. } => one_is_met(Need::Table(*cursor), open),
            Op::NewRowid { cursor, .. } => one_is_met(Need::Table(*cursor), open),
            Op::Insert { cursor, .. } => one_is_met(Need::Table(*cursor), open),
            Op::BuildIndex { cursor, .. } => one_is_met(Need::Table(*cursor), open),
            _ => true,
        }
    }
}

/// Whether what an operand reads is open.
fn operand_finds(operand: &Operand, open: &[OpenCursor]) -> bool
    ensures { result ≡ list_all (meets open.now) (operand_needs operand.now) }
{
    match operand {
        Operand::Column { cursor, .. } => one_is_met(Need::Rows(*cursor), open),
        Operand::Rowid { cursor } => one_is_met(Need::Rows(*cursor), open),
        _ => true,
    }
}

#[tactic(auto, using(crate::proofs::Meeting::find_both))]
fn two_find(left: &Operand, right: &Operand, open: &[OpenCursor]) -> bool
    ensures { result ≡ list_all (meets open.now) (operand_needs left.now ++ operand_needs right.now) }
{
    operand_finds(left, open) && operand_finds(right, open)
}

#[tactic(auto, using(crate::proofs::Meeting::find_both))]
fn three_find(first: &Operand, second: &Operand, third: &Operand, open: &[OpenCursor]) -> bool
    ensures { result ≡ list_all (meets open.now) (operand_needs first.now ++ operand_needs second.now ++ operand_needs third.now) }
{
    two_find(first, second, open) && operand_finds(third, open)
}

/// Whether what the operands of a call read is open.
#[tactic(auto, using(crate::proofs::Meeting::find_step))]
fn operands_find(operands: &[Operand], open: &[OpenCursor]) -> bool
    ensures { result ≡ list_all (meets open.now) (flat_map operand_needs operands.now) }
{
    let mut found = true;
    for operand in operands {
        found = found && operand_finds(operand, open);
    }
    found
}

fn one_is_met(need: Need, open: &[OpenCursor]) -> bool
    ensures { result ≡ list_all (meets open.now) (need ∷ []) }
{
    is_met(need, open)
}

/// Whether this is so of a cursor.
fn is_met(need: Need, open: &[OpenCursor]) -> bool
    ensures { result ≡ meets open.now need }
{
    match need {
        Need::Open(cursor) => {
            is_on(CursorKind::Table, cursor, open)
                || is_on(CursorKind::Row, cursor, open)
                || is_on(CursorKind::Sorter, cursor, open)
        }
        Need::Table(cursor) => is_on(CursorKind::Table, cursor, open),
        Need::Rows(cursor) => {
            is_on(CursorKind::Table, cursor, open) || is_on(CursorKind::Row, cursor, open)
        }
        Need::Sorter(cursor) => is_on(CursorKind::Sorter, cursor, open),
    }
}

/// Whether a cursor is open on what is of this kind.
fn is_on(kind: CursorKind, cursor: u32, open: &[OpenCursor]) -> bool
    ensures { result ≡ is_on kind cursor open.now }
{
    open.iter().any(|each| is_this(kind, cursor, each))
}

fn is_this(kind: CursorKind, cursor: u32, open: &OpenCursor) -> bool
    ensures { result ≡ is_this kind cursor open.now }
{
    open.cursor == cursor && is_kind(open.kind, kind)
}

fn is_kind(kind: CursorKind, other: CursorKind) -> bool
    ensures { result ≡ is_kind kind other }
{
    match (kind, other) {
        (CursorKind::Table, CursorKind::Table) => true,
        (CursorKind::Row, CursorKind::Row) => true,
        (CursorKind::Sorter, CursorKind::Sorter) => true,
        _ => false,
    }
}
