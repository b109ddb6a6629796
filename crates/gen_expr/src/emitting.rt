// The code of an expression.
ghost use Rattle.std.specs.List.{flat_map};
ghost use Rattle.std.specs.Prelude.{◌≡◌, ◌+◌, ◌<◌, ◌≤◌, [], ◌∷◌, ◌++◌, OnOk, IfOk, map, sum_by};
ghost use Rattle.eng_value.specs.Applied.{binary_of, member_of};
ghost use Rattle.eng_value.specs.Collations.{keys_of};
ghost use Rattle.bound_tree.specs.Exprs as e;
ghost use Rattle.bound_tree.specs.Seen.{seen, seen_arm, seen_match};
ghost use Rattle.eng_value.specs.Truths.{choice_of, truth_of};
ghost use Rattle.gen_expr.specs.Needs.{arm_needs_of, match_needs_of, needs_of};
ghost use Rattle.gen_expr.specs.Parts.{IsDecidedBy};
ghost use Rattle.gen_expr.specs.Steps.{arm_steps_of, match_steps_of, steps_of, test_steps};
ghost use Rattle.sql_meaning.specs.Expression.{arm_of, chosen_in, first_known, in_all, match_of, matched_in, value_of};
ghost use Rattle.vm_code.specs.Frames.{Leaves, Offers, needing};

use crate::giving::gives_truth;
use crate::literals::{constant, emit_literal, emit_unbuilt};
use crate::parts::{
    Operands, begin_member, between, binary, call, deciding, leave_arm, like_escaped, or_equal,
    read_column, read_parameter, read_rowid, test_arm, test_left, unary, unless_null,
};
use bound_tree::{ArmTree, ExprTree, MatchTree};
use eng_value::{BinaryOperator, CompareOp, Sides, UnaryOperator};
use sqlite_items::Items;
use std::alloc::{AllocError, Global};
use vm_code::{Builder, Op, Operand};

/// Writes the code of a stored tree.
#[cycle(emitting)]
pub(crate) fn emit(alloc: Global, b: &mut Builder, e: &ExprTree, to: u32) -> Result<(), AllocError>
    requires taken { to < b.old.next }
    requires counted { b.old.next ≤ b.old.most }
    ensures leaves { OnOk result (Leaves (needing (needs_of (seen e.now))) b.old b.new to (λ env. value_of (seen e.now) env) (λ _. steps_of (seen e.now))) }
    ensures units { OnOk result (b.new.units ≡ b.old.units) }
    ensures cursors { OnOk result (b.new.cursors ≡ b.old.cursors) }
{
    let first = b.next_register();
    match e {
        ExprTree::Literal(literal) => emit_literal(b, literal, to)?,
        ExprTree::Column { item, column } => read_column(b, *item, *column, to)?,
        ExprTree::Rowid { item } => read_rowid(b, *item, to)?,
        ExprTree::Parameter(number) => read_parameter(b, *number, to)?,
        ExprTree::Unary(operator, inner) => {
            let inner = operand(alloc, b, inner.get())?;
            unary(b, *operator, inner, first, to)?;
        }
        ExprTree::Binary(operator, left, right) => {
            emit_binary(alloc, b, *operator, left.get(), right.get(), to)?;
        }
        ExprTree::LikeEscaped(text, pattern, escape) => {
            let operands = three_operands(alloc, b, text.get(), pattern.get(), escape.get())?;
            like_escaped(b, operands, first, to)?;
        }
        ExprTree::Between(above, below, tested, low, high) => {
            let operands = three_operands(alloc, b, tested.get(), low.get(), high.get())?;
            between(b, *above, *below, operands, first, to)?;
        }
        ExprTree::In(sides, tested, others) => {
            emit_member(alloc, b, *sides, tested.get(), others.as_slice(), to)?;
        }
        ExprTree::Coalesce(_, operands) => emit_known(alloc, b, operands.as_slice(), to)?,
        ExprTree::Iif(condition, value, otherwise) => {
            emit_iif(alloc, b, condition.get(), value.get(), otherwise.get(), to)?;
        }
        ExprTree::Choose(arms, otherwise) => {
            emit_choice(alloc, b, arms.as_slice(), otherwise.get(), to)?;
        }
        ExprTree::Match(tested, arms, otherwise) => {
            emit_match(alloc, b, tested.get(), arms.as_slice(), otherwise.get(), to)?;
        }
        ExprTree::Call(function, collation, args) => {
            let args = all_operands(alloc, b, args.as_slice())?;
            call(b, *function, *collation, args, first, to)?;
        }
        ExprTree::Argument(_)
        | ExprTree::Aggregate(_)
        | ExprTree::HostCall(_, _)
        | ExprTree::Scalar(_, _)
        | ExprTree::Exists(_, _)
        | ExprTree::InQuery(_, _, _, _)
        | ExprTree::RaiseIgnore
        | ExprTree::RaiseAbort(_) => emit_unbuilt(b, to)?,
    }
    Ok(())
}

/// Writes code that leaves the truth of a stored tree. What gives truths already needs no instruction more.
#[cycle(emitting)]
pub(crate) fn emit_truth(
    alloc: Global,
    b: &mut Builder,
    e: &ExprTree,
    to: u32,
) -> Result<(), AllocError>
    requires taken { to < b.old.next }
    requires counted { b.old.next ≤ b.old.most }
    ensures leaves { OnOk result (Leaves (needing (needs_of (seen e.now))) b.old b.new to (λ env. truth_of (value_of (seen e.now) env)) (λ _. steps_of (seen e.now) + 1)) }
    ensures units { OnOk result (b.new.units ≡ b.old.units) }
    ensures cursors { OnOk result (b.new.cursors ≡ b.old.cursors) }
{
    emit(alloc, b, e, to)?;
    if gives_truth(e) {
        return Ok(());
    }
    b.op(Op::Unary {
        operator: UnaryOperator::Truth,
        operand: Operand::Register(to),
        to,
    })
}

// What an operator makes of two expressions.
#[cycle(emitting)]
pub(crate) fn emit_binary(
    alloc: Global,
    b: &mut Builder,
    operator: BinaryOperator,
    left: &ExprTree,
    right: &ExprTree,
    to: u32,
) -> Result<(), AllocError>
    requires taken { to < b.old.next }
    requires counted { b.old.next ≤ b.old.most }
    ensures leaves { OnOk result (Leaves (needing (needs_of (seen left.now) ++ needs_of (seen right.now))) b.old b.new to (λ env. binary_of (keys_of env.hosts) operator (value_of (seen left.now) env) (value_of (seen right.now) env)) (λ _. steps_of (seen left.now) + steps_of (seen right.now) + 1 + test_steps operator)) }
    ensures units { OnOk result (b.new.units ≡ b.old.units) }
    ensures cursors { OnOk result (b.new.cursors ≡ b.old.cursors) }
{
    if let Some(wanted) = deciding(operator, right) {
        return emit_decided(alloc, b, operator, wanted, left, right, to);
    }
    let first = b.next_register();
    let left = operand(alloc, b, left)?;
    let right = operand(alloc, b, right)?;
    binary(b, operator, left, right, first, to)
}

// The same where a truth of the left side decides: where it has that truth the right side is not evaluated.
#[cycle(emitting)]
fn emit_decided(
    alloc: Global,
    b: &mut Builder,
    operator: BinaryOperator,
    wanted: bool,
    left: &ExprTree,
    right: &ExprTree,
    to: u32,
) -> Result<(), AllocError>
    requires decided { IsDecidedBy operator wanted }
    requires taken { to < b.old.next }
    requires counted { b.old.next ≤ b.old.most }
    ensures leaves { OnOk result (Leaves (needing (needs_of (seen left.now) ++ needs_of (seen right.now))) b.old b.new to (λ env. binary_of (keys_of env.hosts) operator (value_of (seen left.now) env) (value_of (seen right.now) env)) (λ _. steps_of (seen left.now) + steps_of (seen right.now) + 3)) }
    ensures units { OnOk result (b.new.units ≡ b.old.units) }
    ensures cursors { OnOk result (b.new.cursors ≡ b.old.cursors) }
{
    emit_truth(alloc, b, left, to)?;
    let end = test_left(b, wanted, to)?;
    let first = b.next_register();
    let right = operand(alloc, b, right)?;
    binary(b, operator, Operand::Register(to), right, first, to)?;
    b.bind(end)
}

// An operand that reads what an expression comes to. What is always the same, a parameter and a column take no code; anything
// else is left in a register that it takes.
#[cycle(emitting)]
fn operand(alloc: Global, b: &mut Builder, e: &ExprTree) -> Result<Operand, AllocError>
    requires counted { b.old.next ≤ b.old.most }
    ensures offers { IfOk result (λ o. Offers (needing (needs_of (seen e.now))) b.old b.new (o ∷ []) (λ env. value_of (seen e.now) env ∷ []) (λ _. steps_of (seen e.now))) }
    ensures units { OnOk result (b.new.units ≡ b.old.units) }
    ensures cursors { OnOk result (b.new.cursors ≡ b.old.cursors) }
{
    match e {
        ExprTree::Literal(literal) => Ok(Operand::Constant(constant(alloc, literal)?)),
        ExprTree::Column { item, column } => Ok(Operand::Column {
            cursor: *item,
            column: *column,
        }),
        ExprTree::Parameter(number) => Ok(Operand::Parameter(*number)),
        _ => {
            let register = b.take()?;
            emit(alloc, b, e, register)?;
            Ok(Operand::Register(register))
        }
    }
}

// The operands that read three expressions.
#[cycle(emitting)]
fn three_operands(
    alloc: Global,
    b: &mut Builder,
    x: &ExprTree,
    y: &ExprTree,
    z: &ExprTree,
) -> Result<Operands, AllocError>
    requires counted { b.old.next ≤ b.old.most }
    ensures offers { IfOk result (λ o. Offers (needing (needs_of (seen x.now) ++ needs_of (seen y.now) ++ needs_of (seen z.now))) b.old b.new (o.first ∷ o.second ∷ o.third ∷ []) (λ env. value_of (seen x.now) env ∷ value_of (seen y.now) env ∷ value_of (seen z.now) env ∷ []) (λ _. steps_of (seen x.now) + steps_of (seen y.now) + steps_of (seen z.now))) }
    ensures units { OnOk result (b.new.units ≡ b.old.units) }
    ensures cursors { OnOk result (b.new.cursors ≡ b.old.cursors) }
{
    let first = operand(alloc, b, x)?;
    let second = operand(alloc, b, y)?;
    let third = operand(alloc, b, z)?;
    Ok(Operands {
        first,
        second,
        third,
    })
}

// The operands that read some expressions.
#[cycle(emitting)]
fn all_operands(
    alloc: Global,
    b: &mut Builder,
    all: &[ExprTree],
) -> Result<Items<Operand>, AllocError>
    requires counted { b.old.next ≤ b.old.most }
    ensures offers { IfOk result (λ os. Offers (needing (flat_map needs_of (map seen all.now))) b.old b.new os (λ env. in_all (map value_of (map seen all.now)) env) (λ _. sum_by steps_of (map seen all.now))) }
    ensures units { OnOk result (b.new.units ≡ b.old.units) }
    ensures cursors { OnOk result (b.new.cursors ≡ b.old.cursors) }
{
    let mut operands = Items::new(alloc);
    for e in all {
        operands.push(operand(alloc, b, e)?)?;
    }
    Ok(operands)
}

// Whether one of the others is equal to a value. The value is compared with each of them, and stands in a register meanwhile.
#[cycle(emitting)]
fn emit_member(
    alloc: Global,
    b: &mut Builder,
    sides: Sides,
    tested: &ExprTree,
    others: &[ExprTree],
    to: u32,
) -> Result<(), AllocError>
    requires taken { to < b.old.next }
    requires counted { b.old.next ≤ b.old.most }
    ensures leaves { OnOk result (Leaves (needing (needs_of (seen tested.now) ++ flat_map needs_of (map seen others.now))) b.old b.new to (λ env. member_of (keys_of env.hosts) sides (value_of (seen tested.now) env) (in_all (map value_of (map seen others.now)) env)) (λ _. steps_of (seen tested.now) + 2 + sum_by (λ e. steps_of e + 2) (map seen others.now))) }
    ensures units { OnOk result (b.new.units ≡ b.old.units) }
    ensures cursors { OnOk result (b.new.cursors ≡ b.old.cursors) }
{
    let value = b.take()?;
    emit(alloc, b, tested, value)?;
    begin_member(b, value, to)?;
    for e in others {
        let first = b.next_register();
        let other = operand(alloc, b, e)?;
        or_equal(b, sides, value, other, first, to)?;
    }
    b.give_back();
    Ok(())
}

// The first value that is not NULL; behind it nothing more is evaluated.
#[cycle(emitting)]
fn emit_known(
    alloc: Global,
    b: &mut Builder,
    operands: &[ExprTree],
    to: u32,
) -> Result<(), AllocError>
    requires taken { to < b.old.next }
    requires counted { b.old.next ≤ b.old.most }
    ensures leaves { OnOk result (Leaves (needing (flat_map needs_of (map seen operands.now))) b.old b.new to (λ env. first_known (in_all (map value_of (map seen operands.now)) env)) (λ _. sum_by (λ e. steps_of e + 2) (map seen operands.now) + 1)) }
    ensures units { OnOk result (b.new.units ≡ b.old.units) }
    ensures cursors { OnOk result (b.new.cursors ≡ b.old.cursors) }
{
    let end = b.label()?;
    for e in operands {
        emit(alloc, b, e, to)?;
        unless_null(b, to, end)?;
    }
    b.op(Op::Null { to })?;
    b.bind(end)?;
    Ok(())
}

// The value of the first arm whose condition is true, else the last one; behind it nothing more is evaluated.
#[cycle(emitting)]
fn emit_choice(
    alloc: Global,
    b: &mut Builder,
    arms: &[ArmTree],
    otherwise: &ExprTree,
    to: u32,
) -> Result<(), AllocError>
    requires taken { to < b.old.next }
    requires counted { b.old.next ≤ b.old.most }
    ensures leaves { OnOk result (Leaves (needing (flat_map arm_needs_of (map seen_arm arms.now) ++ needs_of (seen otherwise.now))) b.old b.new to (λ env. chosen_in env (map arm_of (map seen_arm arms.now)) (value_of (seen otherwise.now) env)) (λ _. sum_by arm_steps_of (map seen_arm arms.now) + steps_of (seen otherwise.now))) }
    ensures units { OnOk result (b.new.units ≡ b.old.units) }
    ensures cursors { OnOk result (b.new.cursors ≡ b.old.cursors) }
{
    let end = b.label()?;
    for arm in arms {
        emit_truth(alloc, b, &arm.condition, to)?;
        let next = test_arm(b, to, end)?;
        emit(alloc, b, &arm.value, to)?;
        leave_arm(b, end, next)?;
    }
    emit(alloc, b, otherwise, to)?;
    b.bind(end)?;
    Ok(())
}

// The one value where the condition is true, else the other; only one of them is evaluated.
#[cycle(emitting)]
fn emit_iif(
    alloc: Global,
    b: &mut Builder,
    condition: &ExprTree,
    value: &ExprTree,
    otherwise: &ExprTree,
    to: u32,
) -> Result<(), AllocError>
    requires taken { to < b.old.next }
    requires counted { b.old.next ≤ b.old.most }
    ensures leaves { OnOk result (Leaves (needing (needs_of (seen condition.now) ++ needs_of (seen value.now) ++ needs_of (seen otherwise.now))) b.old b.new to (λ env. choice_of (value_of (seen condition.now) env) (value_of (seen value.now) env) (value_of (seen otherwise.now) env)) (λ _. steps_of (e.Iif (seen condition.now) (seen value.now) (seen otherwise.now)))) }
    ensures units { OnOk result (b.new.units ≡ b.old.units) }
    ensures cursors { OnOk result (b.new.cursors ≡ b.old.cursors) }
{
    let end = b.label()?;
    emit_truth(alloc, b, condition, to)?;
    let next = test_arm(b, to, end)?;
    emit(alloc, b, value, to)?;
    leave_arm(b, end, next)?;
    emit(alloc, b, otherwise, to)?;
    b.bind(end)?;
    Ok(())
}

// The value of the first arm whose operand is equal to a value, else the last one. The value is compared with each operand, and
// stands in a register meanwhile; behind the arm nothing more is evaluated.
#[cycle(emitting)]
fn emit_match(
    alloc: Global,
    b: &mut Builder,
    tested: &ExprTree,
    arms: &[MatchTree],
    otherwise: &ExprTree,
    to: u32,
) -> Result<(), AllocError>
    requires taken { to < b.old.next }
    requires counted { b.old.next ≤ b.old.most }
    ensures leaves { OnOk result (Leaves (needing (needs_of (seen tested.now) ++ flat_map match_needs_of (map seen_match arms.now) ++ needs_of (seen otherwise.now))) b.old b.new to (λ env. matched_in env (value_of (seen tested.now) env) (map match_of (map seen_match arms.now)) (value_of (seen otherwise.now) env)) (λ _. steps_of (seen tested.now) + sum_by match_steps_of (map seen_match arms.now) + steps_of (seen otherwise.now))) }
    ensures units { OnOk result (b.new.units ≡ b.old.units) }
    ensures cursors { OnOk result (b.new.cursors ≡ b.old.cursors) }
{
    let value = b.take()?;
    emit(alloc, b, tested, value)?;
    let end = b.label()?;
    for arm in arms {
        let first = b.next_register();
        let other = operand(alloc, b, &arm.operand)?;
        let operator = BinaryOperator::Compare(CompareOp::Eq, arm.sides);
        binary(b, operator, Operand::Register(value), other, first, to)?;
        let next = test_arm(b, to, end)?;
        emit(alloc, b, &arm.value, to)?;
        leave_arm(b, end, next)?;
    }
    emit(alloc, b, otherwise, to)?;
    b.bind(end)?;
    b.give_back();
    Ok(())
}
