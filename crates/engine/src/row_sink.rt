// Where the rows of a query go.
ghost use Rattle.std.specs.Prelude.{◌≡◌, ℕ, List, Option};
ghost use Rattle.eng_value.specs.declared.value.Value.{Value};
ghost use Rattle.engine.specs.Taking.{Takes};
ghost use Rattle.host_traits.specs.Faults.{HasCount};

use eng_value::Row;

/// What a sink answers to a row.
#[derive(Clone, Copy, PartialEq, Eq)]
pub enum Took {
    /// The row was taken.
    Yes,
    /// The sink failed, and its count of faults rose.
    Failed,
    /// No memory was found.
    Mem,
}

/// Something that takes the rows of a query, one after another.
pub trait RowSink {
    /// The rows that were taken, where the sink tells them.
    ghost taken: { Self → Option (List (List Value)) };

    /// How often the sink has failed.
    ghost fault_count: { Self → ℕ };

    /// Takes a row, or says why not, and takes nothing then.
    fn row(&mut self, row: &Row) -> Took
        ensures rows { Takes (taken self.old) (taken self.new) result row.now }
        ensures cause { HasCount (fault_count self.old) (fault_count self.new) (result ≡ Took.Failed) };

    /// The count of faults, which stands still at the type's end.
    fn faults(&self) -> u64
        ensures { result ≡ fault_count self.now };
}
