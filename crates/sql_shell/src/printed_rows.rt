// The rows of a statement, printed as they come.
ghost use Rattle.std.specs.Prelude.{◌≡◌, [], true, Some, IfOk, IfErr};
ghost use Rattle.std.specs.List.{flat_map};
ghost use Rattle.sql_meaning.specs.Script.{row_line};
ghost use Rattle.sql_shell.specs.Taken.{rows_of};

use crate::given::Given;
use crate::printing::print_row;
use crate::stop::Stop;
use crate::taken_rows::{TakenRows, no_rows, take};
use eng_value::Row;
use engine::{RowSink, Took};
use sql_meaning::Failure;
use std::alloc::Global;

/// A sink that prints each row behind those before it, and so keeps none. It never fails, but it may find no memory; the line of that
/// row may then stand there in part, and the lines are of no use.
#[derive(Drop)]
pub(crate) struct PrintedRows {
    lines: Vec<u8>,
    taken: TakenRows,
    is_whole: bool,
    ghost printed: { is_whole ≡ true → lines.items ≡ flat_map row_line (rows_of taken) },
}

impl PrintedRows {
    /// No row yet.
    pub(crate) fn new(alloc: Global) -> PrintedRows
        ensures { rows_of result.taken ≡ [] }
    {
        PrintedRows {
            lines: Vec::new(alloc),
            taken: no_rows(),
            is_whole: true,
        }
    }

    /// What a part gave that has these rows, and why it failed, if it did. Takes no memory, but a row may have found none.
    pub(crate) fn into_given(self, failure: Option<Failure>) -> Result<Given, Stop>
        ensures rows { IfOk result (λ g. rows_of g.rows ≡ rows_of self.taken) }
        ensures failure { IfOk result (λ g. g.failure ≡ failure) }
        ensures memory { IfErr result (λ stop. stop ≡ Stop.Memory) }
    {
        let PrintedRows {
            lines,
            taken,
            is_whole,
        } = self;
        if is_whole {
            Ok(Given {
                lines,
                rows: taken,
                failure,
            })
        } else {
            Err(Stop::Memory)
        }
    }
}

impl RowSink for PrintedRows {
    ghost taken = { λ s. Some (rows_of s.taken) };

    ghost fault_count = { λ _. 0 };

    #[tactic(auto, using(crate::proofs::Joined::line_behind))]
    fn row(&mut self, row: &Row) -> Took {
        match print_row(row, &mut self.lines) {
            Ok(()) => {
                take(&mut self.taken, row);
                Took::Yes
            }
            Err(_) => {
                self.is_whole = false;
                Took::Mem
            }
        }
    }

    fn faults(&self) -> u64 {
        0
    }
}
