// Dot lines.
ghost use Rattle.std.specs.Prelude.{◌≡◌, ◌≤◌, ◌++◌, ◌∷◌, [], pos, IfOk, IsErrOf, OnOk};
ghost use Rattle.std.specs.Fmt.{signed_decimal};
ghost use Rattle.std.specs.Io.KnownBytes.{Appends};
ghost use Rattle.host_traits.specs.Faults.{Rose};
ghost use Rattle.sql_meaning.specs.Due.{CutShort};
ghost use Rattle.sql_meaning.specs.Script.{came_lines, dot_line_came, is_failed, line_feed};

use crate::printing::print_failure;
use crate::stop::Stop;
use crate::writing::write_all;
use engine::Connection;
use host_traits::Sink;
use itoa::Buffer;
use sql_meaning::Failure;
use std::alloc::{AllocError, Global};

/// Writes what a dot line comes to: `.changes` and `.rowid` print a number, and any other one is unknown. It says whether there is an
/// error line.
pub(crate) fn run_dot_line<K: Sink>(
    alloc: Global,
    connection: &Connection,
    line: &str,
    out: &mut K,
) -> Result<bool, Stop>
    ensures failed { IfOk result (λ failed. failed ≡ is_failed (dot_line_came connection.now.state line.now)) }
    ensures ok { OnOk result (Appends (K.written out.old) (K.written out.new) (came_lines (dot_line_came connection.now.state line.now))) }
    ensures part { CutShort (K.written out.old) (K.written out.new) (came_lines (dot_line_came connection.now.state line.now)) }
    ensures fault { IsErrOf result Stop.SinkFault → Rose (K.fault_count out.old) (K.fault_count out.new) }
    ensures later { K.fault_count out.old ≤ K.fault_count out.new }
{
    let mut lines = Vec::new(alloc);
    let failed = print_dot_line(connection, line, &mut lines)?;
    write_all(out, &lines)?;
    Ok(failed)
}

/// Prints what a dot line comes to, and says whether that is an error line.
fn print_dot_line(
    connection: &Connection,
    line: &str,
    lines: &mut Vec<u8>,
) -> Result<bool, AllocError>
    ensures failed { IfOk result (λ failed. failed ≡ is_failed (dot_line_came connection.now.state line.now)) }
    ensures lines { OnOk result (lines.new.items ≡ lines.old.items ++ came_lines (dot_line_came connection.now.state line.now)) }
{
    if line == ".changes" {
        print_count(connection.changes(), lines)?;
        return Ok(false);
    }
    if line == ".rowid" {
        print_number(connection.last_rowid(), lines)?;
        return Ok(false);
    }
    print_failure(&Failure::UnknownDotLine, lines)?;
    Ok(true)
}

fn print_count(count: u64, lines: &mut Vec<u8>) -> Result<(), AllocError>
    ensures { OnOk result (lines.new.items ≡ lines.old.items ++ (signed_decimal (pos count) ++ line_feed ∷ [])) }
{
    lines.extend_from_slice(Buffer::new().format(count).as_bytes())?;
    lines.push(b'\n')?;
    Ok(())
}

fn print_number(number: i64, lines: &mut Vec<u8>) -> Result<(), AllocError>
    ensures { OnOk result (lines.new.items ≡ lines.old.items ++ (signed_decimal number ++ line_feed ∷ [])) }
{
    lines.extend_from_slice(Buffer::new().format(number).as_bytes())?;
    lines.push(b'\n')?;
    Ok(())
}
