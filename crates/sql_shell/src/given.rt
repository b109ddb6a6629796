// What a part of a script gave.
ghost use Rattle.std.specs.Prelude.{◌≡◌, ◌≢◌, Some, IfOk, IfErr};
ghost use Rattle.std.specs.List.{flat_map};
ghost use Rattle.sql_meaning.specs.Script.{row_line};
ghost use Rattle.sql_shell.specs.Taken.{rows_of};

use crate::printed_rows::PrintedRows;
use crate::stop::Stop;
use crate::taken_rows::TakenRows;
use eng_value::Cause;
use sql_meaning::Failure;

/// What a part of a script gave: the lines of its rows, and why it has an error line, if it has one. A refused statement gave the rows
/// in front of what is bad.
#[derive(Drop)]
pub(crate) struct Given {
    pub lines: Vec<u8>,
    pub rows: TakenRows,
    pub failure: Option<Failure>,
    ghost printed: { lines.items ≡ flat_map row_line (rows_of rows) },
}

/// A statement is refused behind its rows; want of memory ends the run.
pub(crate) fn refused(rows: PrintedRows, why: Cause) -> Result<Given, Stop>
    ensures rows { IfOk result (λ g. rows_of g.rows ≡ rows_of rows.taken) }
    ensures failure { IfOk result (λ g. g.failure ≡ Some (Failure.Refused why)) }
    ensures other { IfOk result (λ g. why ≢ Cause.Mem) }
    ensures memory { IfErr result (λ stop. stop ≡ Stop.Memory) }
{
    match &why {
        Cause::Mem => Err(Stop::Memory),
        _ => rows.into_given(Some(Failure::Refused(why))),
    }
}
