// Where instructions lead, and what they make of what is open.
ghost use Rattle.std.specs.Prelude.{◌≡◌};
ghost use Rattle.vm_code.specs.Track.{on, way_of};
ghost use Rattle.vm_code.specs.declared.way.Way.TheVariants as way;

use crate::{CursorKind, Op, OpenCursor};

/// What an instruction makes of the set of open cursors, and where its unit goes on behind it. What a jump goes to is a label while a unit
/// is under construction.
#[derive(Clone, Copy)]
pub enum Way {
    /// Behind the instruction, with the same cursors open.
    Continues,
    /// Behind the instruction, with one cursor more open.
    Opens(OpenCursor),
    /// Behind the instruction, with one cursor fewer open.
    Closes(u32),
    /// Behind the instruction, without the cursors from a number on.
    ClosesFrom(u32),
    /// Behind the instruction or at a label, with the same cursors open.
    Forks(usize),
    /// At a label, with the same cursors open.
    Jumps(usize),
    /// Into a unit that is called with so many arguments, and then behind the instruction with its results in the registers from one on.
    Calls { unit: u32, count: u32, to: u32 },
    /// Nowhere: the run ends, or the unit gives up.
    Leaves,
    /// Back to who called the unit, with so many results.
    Returns(u32),
}

impl Op {
    /// Where it leads, and what it makes of what is open.
    pub fn way(&self) -> Way
        ensures { result ≡ way_of self.now }
    {
        match self {
            Op::Goto { target } => Way::Jumps(*target),
            Op::If { target, .. } => Way::Forks(*target),
            Op::IfNot { target, .. } => Way::Forks(*target),
            Op::IsNull { target, .. } => Way::Forks(*target),
            Op::NotNull { target, .. } => Way::Forks(*target),
            Op::IsBad { target, .. } => Way::Forks(*target),
            Op::Halt => Way::Leaves,
            Op::HaltBad { .. } => Way::Leaves,
            Op::Call {
                unit,
                first: _,
                count,
                to,
            } => Way::Calls {
                unit: *unit,
                count: *count,
                to: *to,
            },
            Op::Ret { first: _, count } => Way::Returns(*count),
            Op::OpenRead { cursor, .. } => opens(*cursor, CursorKind::Table),
            Op::OpenWrite { cursor, .. } => opens(*cursor, CursorKind::Table),
            Op::RowOf { cursor, .. } => opens(*cursor, CursorKind::Row),
            Op::Close { cursor } => Way::Closes(*cursor),
            Op::CloseFrom { cursor } => Way::ClosesFrom(*cursor),
            Op::Rewind { target, .. } => Way::Forks(*target),
            Op::Next { target, .. } => Way::Forks(*target),
            Op::Search { target, .. } => Way::Forks(*target),
            Op::SorterOpen { cursor } => opens(*cursor, CursorKind::Sorter),
            Op::SorterSort { target, .. } => Way::Forks(*target),
            Op::SorterNext { target, .. } => Way::Forks(*target),
            Op::NotExists { target, .. } => Way::Forks(*target),
            Op::NoConflict { target, .. } => Way::Forks(*target),
            _ => Way::Continues,
        }
    }
}

fn opens(cursor: u32, kind: CursorKind) -> Way
    ensures { result ≡ way.Opens (on kind cursor) }
{
    Way::Opens(OpenCursor { cursor, kind })
}
