// A sink that keeps its rows.
ghost use Rattle.std.specs.Prelude.{◌≡◌, [], ◌∷◌, ◌++◌, Some, OnOk, OnErr};

use crate::row_sink::{RowSink, Took};
use eng_value::{Row, Rows};
use std::alloc::{AllocError, Global};
use std::marker::Model;

/// A sink that keeps the rows that it takes. It never fails, but it may find no memory. Contracts see the rows.
#[derive(Drop)]
pub struct KeptRows {
    rows: Rows,
}

impl Model for KeptRows {
    ghost use Rattle.std.specs.Prelude.{List};
    ghost use Rattle.eng_value.specs.declared.value.Value.{Value as SqlValue};

    ghost Value = { List (List SqlValue) };

    ghost view = { λ k. k.rows };
}

impl KeptRows {
    /// No row yet. Takes no memory.
    pub fn new(alloc: Global) -> KeptRows
        ensures { result ≡ [] }
    {
        KeptRows {
            rows: Rows::empty(alloc),
        }
    }

    /// The rows that were taken.
    pub fn rows(&self) -> &[Row]
        ensures { result.now ≡ self.now }
    {
        self.rows.as_slice()
    }

    /// Takes no memory.
    pub fn into_rows(self) -> Rows
        ensures { result ≡ self }
    {
        let KeptRows { rows } = self;
        rows
    }

    /// Keeps a copy of a row behind the others.
    fn keep(&mut self, row: &Row) -> Result<(), AllocError>
        ensures ok { OnOk result (self.new ≡ self.old ++ row.now ∷ []) }
        ensures err { OnErr result (self.new ≡ self.old) }
    {
        self.rows.push(row.clone()?)
    }
}

impl RowSink for KeptRows {
    ghost taken = { λ k. Some k };

    ghost fault_count = { λ _. 0 };

    fn row(&mut self, row: &Row) -> Took {
        match self.keep(row) {
            Ok(()) => Took::Yes,
            Err(_) => Took::Mem,
        }
    }

    fn faults(&self) -> u64 {
        0
    }
}
