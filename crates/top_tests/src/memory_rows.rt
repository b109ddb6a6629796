// A sink of rows in memory.
ghost use Rattle.std.specs.Prelude.{◌≡◌, [], ◌∷◌, ◌++◌, Some, OnOk, OnErr};

use eng_value::{Row, Rows};
use engine::{RowSink, Took};
use std::alloc::{AllocError, Global};

/// A sink that keeps the rows that it takes. Of its calls, counted from 0, some fail and some find no memory.
#[derive(Drop)]
pub(crate) struct MemoryRows {
    alloc: Global,
    rows: Rows,
    failing: Vec<u64>,
    starved: Vec<u64>,
    calls: u64,
    faults: u64,
}

impl MemoryRows {
    /// No row yet. The calls of the numbers in `failing` fail, and those in `starved` find no memory.
    pub(crate) fn new(alloc: Global, failing: Vec<u64>, starved: Vec<u64>) -> MemoryRows {
        MemoryRows {
            alloc,
            rows: Rows::empty(alloc),
            failing,
            starved,
            calls: 0,
            faults: 0,
        }
    }

    /// All that it took.
    pub(crate) fn rows(&self) -> &[Row] {
        self.rows.as_slice()
    }
}

impl RowSink for MemoryRows {
    ghost taken = { λ s. Some s.rows };

    ghost fault_count = { λ s. s.faults };

    fn row(&mut self, row: &Row) -> Took {
        let call = self.calls;
        self.calls = call.saturating_add(1);
        if self.failing.contains(&call) {
            self.faults = self.faults.saturating_add(1);
            return Took::Failed;
        }
        if self.starved.contains(&call) {
            return Took::Mem;
        }
        match add_copy(&mut self.rows, self.alloc, row) {
            Ok(()) => Took::Yes,
            Err(_) => Took::Mem,
        }
    }

    fn faults(&self) -> u64 {
        self.faults
    }
}

// Adds a copy of a row behind others.
fn add_copy(rows: &mut Rows, alloc: Global, row: &Row) -> Result<(), AllocError>
    ensures ok { OnOk result (rows.new ≡ rows.old ++ row.now ∷ []) }
    ensures err { OnErr result (rows.new ≡ rows.old) }
{
    rows.push(Row::new(row.as_slice().to_vec(alloc)?))
}
