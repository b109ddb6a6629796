// The rows of a listing.
ghost use Rattle.std.specs.Prelude.{◌≡◌, ℕ, IfOk, pos};
ghost use Rattle.vm_listing.specs.Listing.{comment_of, line_of, listing_of, row_front, row_of, with_code, with_op, with_unit};

use crate::comments::comment;
use crate::fourth::fourth;
use crate::moves::Names;
use crate::names::opcode;
use crate::numbers::{fifth, first, second, signed, third};
use eng_value::{Row, Rows, Text, Value};
use std::alloc::{AllocError, Global};
use table_labels::TableLabel;
use vm_code::{Op, Program, Unit};

/// The listing of a program over tables of these names, by their numbers: a row of addr, opcode, p1, p2, p3, p4, p5 and comment for each
/// instruction, those of the main unit first, then those of each called unit. Only memory can fail, and numbers that no column holds.
pub fn listing(alloc: Global, program: &Program, tables: &[TableLabel]) -> Result<Rows, AllocError>
    ensures { IfOk result (λ rows. rows ≡ listing_of program.now tables.now) }
{
    let mut rows = Rows::empty(alloc);
    list_code(alloc, &mut rows, tables, program.main.code.as_slice())?;
    for unit in program.units.as_slice() {
        list_unit(alloc, &mut rows, tables, unit)?;
    }
    Ok(rows)
}

fn list_unit(
    alloc: Global,
    rows: &mut Rows,
    tables: &[TableLabel],
    unit: &Option<Unit>,
) -> Result<(), AllocError>
    ensures { IfOk result (λ _. rows.new ≡ with_unit tables.now rows.old unit.now) }
{
    match unit {
        None => Ok(()),
        Some(unit) => list_code(alloc, rows, tables, unit.code.as_slice()),
    }
}

fn list_code(
    alloc: Global,
    rows: &mut Rows,
    tables: &[TableLabel],
    code: &[Op],
) -> Result<(), AllocError>
    ensures { IfOk result (λ _. rows.new ≡ with_code tables.now rows.old code.now) }
{
    let base = rows.as_slice().len();
    for op in code {
        list_op(alloc, rows, tables, code, base, op)?;
    }
    Ok(())
}

fn list_op(
    alloc: Global,
    rows: &mut Rows,
    tables: &[TableLabel],
    code: &[Op],
    base: usize,
    op: &Op,
) -> Result<(), AllocError>
    ensures { IfOk result (λ _. rows.new ≡ with_op tables.now code.now base rows.old op.now) }
{
    let addr = signed(rows.as_slice().len())?;
    let names = Names {
        alloc,
        tables,
        code,
    };
    let comment = comment(names, base, op)?;
    rows.push(row_of(alloc, addr, base, op, comment)?)
}

/// The eight columns of a row.
fn row_of(alloc: Global, addr: i64, base: usize, op: &Op, comment: Text) -> Result<Row, AllocError>
    ensures { IfOk result (λ row. (n : ℕ) → addr ≡ pos n → row ≡ row_of n (line_of base op.now) comment) }
{
    let p4 = fourth(alloc, op)?;
    let mut row = begun(alloc, addr, base, op)?;
    row.push(p4)?;
    row.push(Value::Integer(fifth(op)?))?;
    row.push(Value::Text(comment))?;
    Ok(row)
}

/// The columns up to p3.
fn begun(alloc: Global, addr: i64, base: usize, op: &Op) -> Result<Row, AllocError>
    ensures { IfOk result (λ row. row ≡ row_front addr (line_of base op.now)) }
{
    let name = Text::from_str(alloc, opcode(op))?;
    let p2 = second(base, op)?;
    let mut row = Row::empty(alloc);
    row.push(Value::Integer(addr))?;
    row.push(Value::Text(name))?;
    row.push(Value::Integer(first(op)))?;
    row.push(Value::Integer(p2))?;
    row.push(Value::Integer(third(op)))?;
    Ok(row)
}
