// A sink that keeps no row.
ghost use Rattle.std.specs.Prelude.{None};

use crate::row_sink::{RowSink, Took};
use eng_value::Row;

/// A sink that takes each row and keeps none, so that it tells none. It never fails and takes no memory.
#[derive(Drop)]
pub(crate) struct UnkeptRows;

impl RowSink for UnkeptRows {
    ghost taken = { λ _. None };

    ghost fault_count = { λ _. 0 };

    fn row(&mut self, _row: &Row) -> Took {
        Took::Yes
    }

    fn faults(&self) -> u64 {
        0
    }
}
