// Sets of open cursors.
ghost use Rattle.std.specs.Prelude.{◌≡◌, [], ◌∷◌};
ghost use Rattle.vm_check.specs.Tests.{added, are_below, is_cursor, is_kind, is_set, left, stays};

use vm_code::{CursorKind, OpenCursor, Way};

fn is_kind(a: CursorKind, b: CursorKind) -> bool
    ensures { result ≡ is_kind a b }
{
    match (a, b) {
        (CursorKind::Table, CursorKind::Table) => true,
        (CursorKind::Row, CursorKind::Row) => true,
        (CursorKind::Sorter, CursorKind::Sorter) => true,
        _ => false,
    }
}

fn is_cursor(x: &OpenCursor, y: &OpenCursor) -> bool
    ensures { result ≡ is_cursor x.now y.now }
{
    x.cursor == y.cursor && is_kind(x.kind, y.kind)
}

/// Whether a cursor that is open stays open behind an instruction of this way.
fn stays(way: Way, x: &OpenCursor) -> bool
    ensures { result ≡ stays way x.now }
{
    match way {
        Way::Opens(opened) => x.cursor != opened.cursor,
        Way::Closes(cursor) => x.cursor != cursor,
        Way::ClosesFrom(cursor) => x.cursor < cursor,
        _ => true,
    }
}

/// Whether the cursors are those that an instruction of this way opens.
fn are_added(way: Way, cursors: &[OpenCursor]) -> bool
    ensures { result ≡ is_set (added way) cursors.now }
{
    match way {
        Way::Opens(opened) => is_only(&opened, cursors),
        _ => cursors.is_empty(),
    }
}

fn is_only(x: &OpenCursor, cursors: &[OpenCursor]) -> bool
    ensures { result ≡ is_set (x.now ∷ []) cursors.now }
{
    match cursors {
        [y] => is_cursor(x, y),
        _ => false,
    }
}

/// Whether these are the cursors that are open behind an instruction of this way, where those are open in front of it.
pub(crate) fn are_left(way: Way, front: &[OpenCursor], behind: &[OpenCursor]) -> bool
    ensures { result ≡ is_set (left way front.now) behind.now }
{
    let mut rest = behind;
    for x in front {
        if stays(way, x) {
            match rest {
                [] => return false,
                [y, others @ ..] => {
                    if !is_cursor(x, y) {
                        return false;
                    }
                    rest = others;
                }
            }
        }
    }
    are_added(way, rest)
}

/// Whether the numbers of all cursors are below this one.
pub(crate) fn are_below(number: u32, cursors: &[OpenCursor]) -> bool
    ensures { result ≡ are_below number cursors.now }
{
    cursors.iter().all(|x| x.cursor < number)
}
