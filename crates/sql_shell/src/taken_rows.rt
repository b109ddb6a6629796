// The rows that a sink took, as contracts see them.
ghost use Rattle.std.specs.Prelude.{◌≡◌, ◌++◌, ◌∷◌, []};
ghost use Rattle.sql_shell.specs.Taken.{rows_of};

use eng_value::Row;
use std::snapshot::Snapshot;

/// A list of rows that only contracts read: `rows_of` says which. When the program runs it knows of no row.
#[derive(Drop)]
pub(crate) enum TakenRows {
    Nothing,
    Then {
        before: Snapshot<TakenRows>,
        last: Snapshot<Row>,
    },
}

/// None yet.
pub(crate) fn no_rows() -> TakenRows
    ensures { rows_of result ≡ [] }
{
    TakenRows::Nothing
}

/// One row more.
pub(crate) fn take(taken: &mut TakenRows, row: &Row)
    ensures { rows_of taken.new ≡ rows_of taken.old ++ row.now ∷ [] }
{
    let before = Snapshot::of(taken);
    *taken = TakenRows::Then {
        before,
        last: Snapshot::of(row),
    };
}
