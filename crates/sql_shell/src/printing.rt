// The lines of a statement's outcome.
ghost use Rattle.std.specs.Fmt.{decimal};
ghost use Rattle.std.specs.Prelude.{◌≡◌, ◌++◌, ◌∷◌, [], codes, map, is_some, OnOk, IfOk};
ghost use Rattle.std.specs.List.{flat_map, join_with_byte};
ghost use Rattle.sql_meaning.specs.Script.{bar, error_line, error_lines, failure_code, failure_text, printed, row_line};
ghost use Rattle.sql_shell.specs.Taken.{rows_of};

use crate::given::Given;
use eng_value::{Row, Value};
use itoa::Buffer;
use sql_meaning::Failure;
use std::alloc::AllocError;

/// Writes a value behind `lines`: NULL as nothing, a text and a blob as their bytes.
fn print_value(value: &Value, lines: &mut Vec<u8>) -> Result<(), AllocError>
    ensures { OnOk result (lines.new.items ≡ lines.old.items ++ printed value.now) }
{
    match value {
        Value::Null => Ok(()),
        Value::Integer(n) => lines.extend_from_slice(Buffer::new().format(*n).as_bytes()),
        Value::Text(text) => lines.extend_from_slice(text.as_bytes()),
        Value::Blob(blob) => lines.extend_from_slice(blob.as_slice()),
    }
}

/// Writes each value with a `|` in front.
fn print_others(values: &[Value], lines: &mut Vec<u8>) -> Result<(), AllocError>
    ensures { OnOk result (lines.new.items ≡ lines.old.items ++ flat_map (λ v. bar ∷ printed v) values.now) }
{
    for value in values {
        lines.push(b'|')?;
        print_value(value, lines)?;
    }
    Ok(())
}

/// Writes the values of a row, joined by `|`.
fn print_values(values: &[Value], lines: &mut Vec<u8>) -> Result<(), AllocError>
    ensures { OnOk result (lines.new.items ≡ lines.old.items ++ join_with_byte bar (map printed values.now)) }
{
    match values {
        [] => Ok(()),
        [first, others @ ..] => {
            print_value(first, lines)?;
            print_others(others, lines)?;
            Ok(())
        }
    }
}

/// Writes the line of a row.
pub(crate) fn print_row(row: &Row, lines: &mut Vec<u8>) -> Result<(), AllocError>
    ensures { OnOk result (lines.new.items ≡ lines.old.items ++ row_line row.now) }
{
    print_values(row.as_slice(), lines)?;
    lines.push(b'\n')?;
    Ok(())
}

/// The code of an error line.
fn failure_code(failure: &Failure) -> u8
    ensures { result ≡ failure_code failure.now }
{
    match failure {
        Failure::Refused(why) => why.code(),
        Failure::UnknownDotLine | Failure::NotUtf8(_) => 1,
    }
}

/// Writes where a character is not whole UTF-8.
fn print_bad_place(place: usize, lines: &mut Vec<u8>) -> Result<(), AllocError>
    ensures { OnOk result (lines.new.items ≡ lines.old.items ++ (codes "not UTF-8 at byte " ++ decimal place)) }
{
    lines.extend_from_slice(b"not UTF-8 at byte ")?;
    lines.extend_from_slice(Buffer::new().format(place).as_bytes())?;
    Ok(())
}

/// Writes why there is an error line.
fn print_reason(failure: &Failure, lines: &mut Vec<u8>) -> Result<(), AllocError>
    ensures { OnOk result (lines.new.items ≡ lines.old.items ++ failure_text failure.now) }
{
    match failure {
        Failure::Refused(why) => why.write_text(lines),
        Failure::UnknownDotLine => lines.extend_from_slice(b"unknown dot line"),
        Failure::NotUtf8(place) => print_bad_place(*place, lines),
    }
}

/// Writes an error line: `Error <code>: <text>`.
pub(crate) fn print_failure(failure: &Failure, lines: &mut Vec<u8>) -> Result<(), AllocError>
    ensures { OnOk result (lines.new.items ≡ lines.old.items ++ error_line failure.now) }
{
    lines.extend_from_slice(b"Error ")?;
    lines.extend_from_slice(Buffer::new().format(failure_code(failure)).as_bytes())?;
    lines.extend_from_slice(b": ")?;
    print_reason(failure, lines)?;
    lines.push(b'\n')?;
    Ok(())
}

/// Writes an error line, where there is one.
fn print_failures(failure: &Option<Failure>, lines: &mut Vec<u8>) -> Result<(), AllocError>
    ensures { OnOk result (lines.new.items ≡ lines.old.items ++ error_lines failure.now) }
{
    match failure {
        None => Ok(()),
        Some(why) => print_failure(why, lines),
    }
}

/// The lines of a part, and whether one of them is an error line.
#[derive(Drop)]
pub(crate) struct Printed {
    pub lines: Vec<u8>,
    pub has_failed: bool,
}

/// Writes the error line of what a statement gave, if it has one, behind the lines of its rows.
pub(crate) fn print_given(given: Given) -> Result<Printed, AllocError>
    ensures lines { IfOk result (λ p. p.lines.items ≡ flat_map row_line (rows_of given.rows) ++ error_lines given.failure) }
    ensures failed { IfOk result (λ p. p.has_failed ≡ is_some given.failure) }
{
    let Given {
        lines,
        rows: _,
        failure,
    } = given;
    let mut lines = lines;
    print_failures(&failure, &mut lines)?;
    Ok(Printed {
        lines,
        has_failed: failure.is_some(),
    })
}
