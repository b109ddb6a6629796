// The rowids of the rows that are put.
ghost use Rattle.std.specs.Prelude.{◌≡◌, ◌+◌, IfOk, OnOk};
ghost use Rattle.sql_meaning.specs.declared.bound.RowidFrom.TheVariants as rowid;
ghost use Rattle.gen_write.specs.Stretches.{rowid_register, stored_rowid, with_row_stored, with_rowid_drawn, with_rowid_fixed, with_rowid_tested};
ghost use Rattle.gen_write.specs.Writes.{is_within, rowid_given};

use crate::rows::TABLE;
use eng_value::Text;
use sql_meaning::RowidFrom;
use std::alloc::AllocError;
use vm_code::{Builder, Op};

/// Where among so many columns, and what is stored behind them, the rowid stands, if something is given for it.
pub(crate) fn rowid_given(from: RowidFrom, width: u32) -> Option<u32>
    ensures { result ≡ rowid_given from width }
{
    match from {
        RowidFrom::Drawn => None,
        RowidFrom::Given(_) => Some(width),
        RowidFrom::Column(place) => within(place, width),
    }
}

fn within(place: u32, width: u32) -> Option<u32>
    ensures { result ≡ rowid_given (rowid.Column place) width }
{
    if place < width { Some(place) } else { None }
}

/// Whether the rowid stands among so many columns.
pub(crate) fn is_within(from: RowidFrom, width: u32) -> bool
    ensures { result ≡ is_within from width }
{
    match from {
        RowidFrom::Drawn => false,
        RowidFrom::Given(_) => false,
        RowidFrom::Column(place) => place < width,
    }
}

/// The register at a place behind the first one. There are fewer than 2 ^ 32 of them.
pub(crate) fn register_at(first: u32, place: u32) -> Result<u32, AllocError>
    ensures { IfOk result (λ r. r ≡ first + place) }
{
    match first.checked_add(place) {
        Some(register) => Ok(register),
        None => Err(AllocError),
    }
}

/// Writes code that draws a rowid where none is given, or where the one that is given is missing, and gives up where that is no integer.
/// The register that it is in.
pub(crate) fn fix_rowid(
    b: &mut Builder,
    given: Option<u32>,
    first: u32,
    table: &Text,
) -> Result<u32, AllocError>
    ensures register { IfOk result (λ r. r ≡ rowid_register given first b.old.next) }
    ensures fixes { IfOk result (λ _. b.new ≡ with_rowid_fixed given b.old first table.now) }
{
    match given {
        None => {
            let register = b.take()?;
            draw_rowid(b, register, table)?;
            Ok(register)
        }
        Some(place) => {
            let register = register_at(first, place)?;
            test_rowid(b, register, table)?;
            Ok(register)
        }
    }
}

fn test_rowid(b: &mut Builder, register: u32, table: &Text) -> Result<(), AllocError>
    ensures { OnOk result (b.new ≡ with_rowid_tested b.old register table.now) }
{
    let fixed = b.label()?;
    let missing = b.label()?;
    b.op(Op::IsNull {
        register,
        target: missing,
    })?;
    b.op(Op::MustBeInt { register })?;
    b.op(Op::Goto { target: fixed })?;
    b.bind(missing)?;
    draw_rowid(b, register, table)?;
    b.bind(fixed)
}

fn draw_rowid(b: &mut Builder, to: u32, table: &Text) -> Result<(), AllocError>
    ensures { OnOk result (b.new ≡ with_rowid_drawn b.old to table.now) }
{
    b.op(Op::NewRowid {
        cursor: TABLE,
        to,
        table: table.clone()?,
    })
}

/// Writes code that makes a row in registers that of the table: where its rowid stands among the columns, the row is stored with NULL in that
/// place. The register that the rowid is in then.
pub(crate) fn store_rowid(b: &mut Builder, is_within: bool, rowid: u32) -> Result<u32, AllocError>
    ensures register { IfOk result (λ r. r ≡ stored_rowid is_within rowid b.old.next) }
    ensures stores { IfOk result (λ _. b.new ≡ with_row_stored is_within b.old rowid) }
{
    if !is_within {
        return Ok(rowid);
    }
    let kept = b.take()?;
    b.op(Op::Copy {
        from: rowid,
        to: kept,
    })?;
    b.op(Op::Null { to: rowid })?;
    Ok(kept)
}
