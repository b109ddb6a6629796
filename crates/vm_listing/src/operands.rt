// Operands, as numbers of registers and as texts.
ghost use Rattle.std.specs.Prelude.{◌≡◌, IfOk, codes, pos};
ghost use Rattle.std.specs.List.{join_by};
ghost use Rattle.vm_listing.specs.Listing.{calls};
ghost use Rattle.vm_listing.specs.Pieces.{first_register, first_side, operand_register, operand_text, second_side};

use crate::cursors::{column, rowid};
use crate::literals::constant;
use crate::pieces::{number_between, numbered, register, text_of};
use eng_value::{BinaryOperator, Text};
use std::alloc::{AllocError, Global};
use table_labels::TableLabel;
use vm_code::{Op, Operand};

/// The number of an operand's register; 0 where it is none.
pub(crate) fn operand_register(operand: &Operand) -> i64
    ensures { result ≡ pos (operand_register operand.now) }
{
    match operand {
        Operand::Register(register) => i64::from(*register),
        _ => 0,
    }
}

/// That of the first operand.
pub(crate) fn first_register(operands: &[Operand]) -> i64
    ensures { result ≡ pos (first_register operands.now) }
{
    match operands.first() {
        Some(operand) => operand_register(operand),
        None => 0,
    }
}

pub(crate) fn operand_text(
    alloc: Global,
    tables: &[TableLabel],
    code: &[Op],
    operand: &Operand,
) -> Result<Text, AllocError>
    ensures { IfOk result (λ text. text ≡ operand_text tables.now code.now operand.now) }
{
    match operand {
        Operand::Register(number) => register(alloc, *number),
        Operand::Constant(out) => constant(alloc, out.get()),
        Operand::Parameter(number) => numbered(alloc, "?", *number),
        Operand::Argument(number) => number_between(alloc, "argument[", *number, "]"),
        Operand::Column {
            cursor,
            column: number,
        } => column(alloc, tables, code, *cursor, *number),
        Operand::Rowid { cursor } => rowid(alloc, tables, code, *cursor),
    }
}

/// Operands with commas between them.
fn operands_text(
    alloc: Global,
    tables: &[TableLabel],
    code: &[Op],
    operands: &[Operand],
) -> Result<Text, AllocError>
    ensures { IfOk result (λ text. text ≡ join_by (operand_text tables.now code.now) (codes ", ") operands.now) }
{
    let Some((first, rest)) = operands.split_first() else {
        return Text::from_str(alloc, "");
    };
    let mut shown = operand_text(alloc, tables, code, first)?.into_string();
    for operand in rest {
        shown.push_str(", ")?;
        shown.push_str(operand_text(alloc, tables, code, operand)?.as_str())?;
    }
    Ok(Text::new(shown))
}

/// A function of operands.
pub(crate) fn calls(
    alloc: Global,
    tables: &[TableLabel],
    code: &[Op],
    name: &str,
    operands: &[Operand],
) -> Result<Text, AllocError>
    ensures { IfOk result (λ text. text ≡ calls (operand_text tables.now code.now) name.now operands.now) }
{
    let operands = operands_text(alloc, tables, code, operands)?;
    text_of(alloc, &[name, "(", operands.as_str(), ")"])
}

/// What stands in p1 of an operator: the left operand of a comparison, the right one of any other.
pub(crate) fn first_side<'a>(
    operator: BinaryOperator,
    left: &'a Operand,
    right: &'a Operand,
) -> &'a Operand
    ensures { result.now ≡ first_side operator left.now right.now }
{
    match operator {
        BinaryOperator::Compare(_, _) => left,
        BinaryOperator::Is(_) => left,
        BinaryOperator::Like => left,
        BinaryOperator::Glob => left,
        _ => right,
    }
}

/// What stands in p2.
pub(crate) fn second_side<'a>(
    operator: BinaryOperator,
    left: &'a Operand,
    right: &'a Operand,
) -> &'a Operand
    ensures { result.now ≡ second_side operator left.now right.now }
{
    match operator {
        BinaryOperator::Compare(_, _) => right,
        BinaryOperator::Is(_) => right,
        BinaryOperator::Like => right,
        BinaryOperator::Glob => right,
        _ => left,
    }
}
