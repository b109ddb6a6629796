// What stands behind the codes of operands: instructions that read their values.
ghost use Rattle.std.specs.Prelude.{◌≡◌, ◌≤◌, true, OnOk, IfOk, IfSome, None, Some, length, slice_get};
ghost use Rattle.bound_tree.specs.Seen.{seen};
ghost use Rattle.gen_expr.specs.Parts.{IsDecidedBy, jump_on, with_arm_left, with_arm_tested, with_between, with_known_left, with_left_tested, with_like_escaped, with_member_begun, with_or_equal};
ghost use Rattle.gen_expr.specs.Steps.{steps_of, test_steps};
ghost use Rattle.vm_code.specs.Draft.{released, with_op};
ghost use Rattle.vm_code.specs.declared.op.Op.TheVariants as op;

use bound_tree::ExprTree;
use eng_value::{BinaryOperator, Builtin, Collation, CompareOp, Sides, UnaryOperator};
use sqlite_items::Items;
use std::alloc::AllocError;
use vm_code::{Builder, Op, Operand};

/// Three operands in their order.
#[derive(Drop)]
pub(crate) struct Operands {
    pub(crate) first: Operand,
    pub(crate) second: Operand,
    pub(crate) third: Operand,
}

/// A column of the item of the cursor with this number.
pub(crate) fn read_column(
    b: &mut Builder,
    cursor: u32,
    column: u32,
    to: u32,
) -> Result<(), AllocError>
    ensures { OnOk result (b.new ≡ with_op b.old (op.Column cursor column to)) }
{
    b.op(Op::Column { cursor, column, to })
}

/// The rowid of the row of the item of the cursor with this number.
pub(crate) fn read_rowid(b: &mut Builder, cursor: u32, to: u32) -> Result<(), AllocError>
    ensures { OnOk result (b.new ≡ with_op b.old (op.Rowid cursor to)) }
{
    b.op(Op::Rowid { cursor, to })
}

/// The parameter of this number.
pub(crate) fn read_parameter(b: &mut Builder, number: u32, to: u32) -> Result<(), AllocError>
    ensures { OnOk result (b.new ≡ with_op b.old (op.Variable number to)) }
{
    b.op(Op::Variable { number, to })
}

/// An operator on an operand, whose registers, from `first` on, are free behind it.
pub(crate) fn unary(
    b: &mut Builder,
    operator: UnaryOperator,
    operand: Operand,
    first: u32,
    to: u32,
) -> Result<(), AllocError>
    requires { first ≤ b.old.next }
    ensures { OnOk result (b.new ≡ released (with_op b.old (op.Unary operator operand to)) first) }
{
    b.op(Op::Unary {
        operator,
        operand,
        to,
    })?;
    b.release(first);
    Ok(())
}

/// An operator on two operands, whose registers, from `first` on, are free behind it.
pub(crate) fn binary(
    b: &mut Builder,
    operator: BinaryOperator,
    left: Operand,
    right: Operand,
    first: u32,
    to: u32,
) -> Result<(), AllocError>
    requires { first ≤ b.old.next }
    ensures { OnOk result (b.new ≡ released (with_op b.old (op.Binary operator left right to)) first) }
{
    b.op(Op::Binary {
        operator,
        left,
        right,
        to,
    })?;
    b.release(first);
    Ok(())
}

/// The truth of the left side that decides an operator alone, where it has one, so that the right side need not be evaluated. There
/// is none, either, where the right side is so short that a test of the left one gains nothing.
pub(crate) fn deciding(operator: BinaryOperator, right: &ExprTree) -> Option<bool>
    ensures decided { IfSome result (λ wanted. IsDecidedBy operator wanted) }
    ensures steps { IfSome result (λ _. test_steps operator ≡ 2) }
{
    if is_short(right) {
        return None;
    }
    match operator {
        BinaryOperator::And => Some(false),
        BinaryOperator::Or => Some(true),
        _ => None,
    }
}

/// Whether an expression is a leaf or a comparison of two leaves.
fn is_short(e: &ExprTree) -> bool
    ensures { result ≡ true → steps_of (seen e.now) ≤ 3 }
{
    match e {
        ExprTree::Binary(BinaryOperator::Compare(_, _), left, right) => {
            is_leaf(left.get()) && is_leaf(right.get())
        }
        ExprTree::Binary(BinaryOperator::Is(_), left, right) => {
            is_leaf(left.get()) && is_leaf(right.get())
        }
        _ => is_leaf(e),
    }
}

/// Whether an expression has no code as an operand.
fn is_leaf(e: &ExprTree) -> bool
    ensures { result ≡ true → steps_of (seen e.now) ≡ 1 }
{
    match e {
        ExprTree::Literal(_) => true,
        ExprTree::Column { item: _, column: _ } => true,
        ExprTree::Parameter(_) => true,
        _ => false,
    }
}

/// Goes to a label that it gives where the truth in the register `to` is the one that is wanted.
pub(crate) fn test_left(b: &mut Builder, wanted: bool, to: u32) -> Result<usize, AllocError>
    ensures { IfOk result (λ end. (end ≡ length b.old.labels) × (b.new ≡ with_left_tested b.old wanted to)) }
{
    let end = b.label()?;
    b.op(jump_on(wanted, to, end))?;
    Ok(end)
}

/// A jump where a register has the truth that is wanted; NULL has none.
fn jump_on(wanted: bool, register: u32, target: usize) -> Op
    ensures { result ≡ jump_on wanted register target }
{
    if wanted {
        Op::If {
            register,
            target,
            on_null: false,
        }
    } else {
        Op::IfNot {
            register,
            target,
            on_null: false,
        }
    }
}

/// A function of arguments, whose registers, from `first` on, are free behind it.
pub(crate) fn call(
    b: &mut Builder,
    function: Builtin,
    collation: Collation,
    args: Items<Operand>,
    first: u32,
    to: u32,
) -> Result<(), AllocError>
    requires { first ≤ b.old.next }
    ensures { OnOk result (b.new ≡ released (with_op b.old (op.Function function collation args to)) first) }
{
    b.op(Op::Function {
        function,
        collation,
        args,
        to,
    })?;
    b.release(first);
    Ok(())
}

/// LIKE with an ESCAPE of three operands, whose registers, from `first` on, are free behind it.
pub(crate) fn like_escaped(
    b: &mut Builder,
    operands: Operands,
    first: u32,
    to: u32,
) -> Result<(), AllocError>
    requires { first ≤ b.old.next }
    ensures { OnOk result (b.new ≡ with_like_escaped b.old operands first to) }
{
    let Operands {
        first: text,
        second: pattern,
        third: escape,
    } = operands;
    b.op(Op::LikeEscaped {
        text,
        pattern,
        escape,
        to,
    })?;
    b.release(first);
    Ok(())
}

/// BETWEEN of three operands, whose registers, from `first` on, are free behind it. The lower bound is compared in a register
/// beside them, since they are still read then, and the upper one in the register `to`.
pub(crate) fn between(
    b: &mut Builder,
    above: Sides,
    below: Sides,
    operands: Operands,
    first: u32,
    to: u32,
) -> Result<(), AllocError>
    requires { first ≤ b.old.next }
    ensures { OnOk result (b.new ≡ with_between b.old above below operands first to) }
{
    let Operands {
        first: tested,
        second: low,
        third: high,
    } = operands;
    let found = b.take()?;
    b.op(Op::Binary {
        operator: BinaryOperator::Compare(CompareOp::Ge, above),
        left: tested.clone()?,
        right: low,
        to: found,
    })?;
    b.op(Op::Binary {
        operator: BinaryOperator::Compare(CompareOp::Le, below),
        left: tested,
        right: high,
        to,
    })?;
    let (at_least, at_most) = (Operand::Register(found), Operand::Register(to));
    binary(b, BinaryOperator::And, at_least, at_most, first, to)
}

/// That none is equal to the value in the register `value` so far: false, and bad where the value is.
pub(crate) fn begin_member(b: &mut Builder, value: u32, to: u32) -> Result<(), AllocError>
    ensures { OnOk result (b.new ≡ with_member_begun b.old value to) }
{
    b.op(Op::Integer { value: 0, to })?;
    b.op(Op::Merge { from: value, to })
}

/// That an operand is equal to the value in the register `value`, or one of those before was. The operand's registers, from
/// `first` on, are free behind it.
pub(crate) fn or_equal(
    b: &mut Builder,
    sides: Sides,
    value: u32,
    other: Operand,
    first: u32,
    to: u32,
) -> Result<(), AllocError>
    requires { first ≤ b.old.next }
    ensures { OnOk result (b.new ≡ with_or_equal b.old sides value other first to) }
{
    let found = b.take()?;
    b.op(Op::Binary {
        operator: BinaryOperator::Compare(CompareOp::Eq, sides),
        left: Operand::Register(value),
        right: other,
        to: found,
    })?;
    let (before, found) = (Operand::Register(to), Operand::Register(found));
    binary(b, BinaryOperator::Or, before, found, first, to)
}

/// Goes to a label unless the register `to` holds NULL.
pub(crate) fn unless_null(b: &mut Builder, to: u32, end: usize) -> Result<(), AllocError>
    ensures { OnOk result (b.new ≡ with_known_left b.old to end) }
{
    let next = b.label()?;
    b.op(Op::IsNull {
        register: to,
        target: next,
    })?;
    b.op(Op::Goto { target: end })?;
    b.bind(next)
}

/// Tests the truth of an arm's condition: goes on where it is true, to the label `end` with the causes where it is bad, and else to a
/// label that it gives.
pub(crate) fn test_arm(b: &mut Builder, to: u32, end: usize) -> Result<usize, AllocError>
    ensures { IfOk result (λ next. (next ≡ length b.old.labels) × (b.new ≡ with_arm_tested b.old to end)) }
{
    let next = b.label()?;
    b.op(Op::IsBad {
        register: to,
        target: end,
    })?;
    b.op(Op::IfNot {
        register: to,
        target: next,
        on_null: true,
    })?;
    Ok(next)
}

/// Leaves an arm by the label `end`. The next one begins behind it.
pub(crate) fn leave_arm(b: &mut Builder, end: usize, next: usize) -> Result<(), AllocError>
    requires { slice_get b.old.labels next ≡ Some None }
    ensures { OnOk result (b.new ≡ with_arm_left b.old end next) }
{
    b.op(Op::Goto { target: end })?;
    b.bind(next)
}
