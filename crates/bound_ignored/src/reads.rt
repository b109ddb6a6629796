// The reads that are ignored.
ghost use Rattle.std.specs.Prelude.{◌≡◌};
ghost use Rattle.std.specs.Str.{bytes_eq};
ghost use Rattle.bound_ignored.specs.Marked.{is_ignored, is_read, is_read_kind, same_within};

use eng_value::{Action, ActionKind, Text};

fn same_bytes(a: &[u8], b: &[u8]) -> bool
    ensures { result ≡ bytes_eq a.now b.now }
{
    a == b
}

fn is_read_kind(kind: ActionKind) -> bool
    ensures { result ≡ is_read_kind kind }
{
    match kind {
        ActionKind::Read => true,
        _ => false,
    }
}

/// Whether both stand in the text of the same view or trigger, or in that of none.
fn same_within(a: &Option<Text>, b: &Option<Text>) -> bool
    ensures { result ≡ same_within a.now b.now }
{
    match (a, b) {
        (None, None) => true,
        (Some(a), Some(b)) => same_bytes(a.as_bytes(), b.as_bytes()),
        _ => false,
    }
}

/// Whether the action is that this column is read there.
fn is_read(within: &Option<Text>, table: &str, column: &str, action: &Action) -> bool
    ensures { result ≡ is_read within.now table.now column.now action.now }
{
    is_read_kind(action.kind)
        && same_bytes(action.first.as_bytes(), table.as_bytes())
        && same_bytes(action.second.as_bytes(), column.as_bytes())
        && same_within(&action.within, within)
}

/// Whether it is ignored that this column is read there.
pub(crate) fn is_ignored(
    ignored: &[Action],
    within: &Option<Text>,
    table: &str,
    column: &str,
) -> bool
    ensures { result ≡ is_ignored ignored.now within.now table.now column.now }
{
    for action in ignored {
        if is_read(within, table, column, action) {
            return true;
        }
    }
    false
}
