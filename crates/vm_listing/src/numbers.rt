// The numbers of instructions: p1, p2, p3 and p5.
ghost use Rattle.std.specs.Prelude.{◌≡◌, ◌+◌, ℕ, IfOk, pos};
ghost use Rattle.vm_listing.specs.Listing.{change_number, flag, line_of};

use crate::operands::{first_register, first_side, operand_register, second_side};
use crate::words::comparison;
use std::alloc::AllocError;
use vm_code::{Op, SchemaChange};

/// The addr of a place of a unit whose first instruction has the addr `base`. There are fewer than 2 ^ 64 of them.
pub(crate) fn at(base: usize, place: usize) -> Result<usize, AllocError>
    ensures { IfOk result (λ addr. addr ≡ base + place) }
{
    match base.checked_add(place) {
        Some(addr) => Ok(addr),
        None => Err(AllocError),
    }
}

/// A number that stands in a column. It is less than 2 ^ 63.
pub(crate) fn signed(number: usize) -> Result<i64, AllocError>
    ensures { IfOk result (λ n. n ≡ pos number) }
{
    match i64::try_from(number) {
        Ok(n) => Ok(n),
        Err(_) => Err(AllocError),
    }
}

fn jump(base: usize, target: usize) -> Result<i64, AllocError>
    ensures { IfOk result (λ n. n ≡ pos (base + target)) }
{
    signed(at(base, target)?)
}

fn flag(is_set: bool) -> i64
    ensures { result ≡ pos (flag is_set) }
{
    if is_set { 1 } else { 0 }
}

fn change_number(change: SchemaChange) -> i64
    ensures { result ≡ pos (change_number change) }
{
    match change {
        SchemaChange::AddTable => 0,
        SchemaChange::DropTable { table } => i64::from(table),
    }
}

/// p1.
pub(crate) fn first(op: &Op) -> i64
    ensures { (base : ℕ) → result ≡ (line_of base op.now).p1 }
{
    match op {
        Op::If { register, .. } => i64::from(*register),
        Op::IfNot { register, .. } => i64::from(*register),
        Op::IsNull { register, .. } => i64::from(*register),
        Op::NotNull { register, .. } => i64::from(*register),
        Op::IsBad { register, .. } => i64::from(*register),
        Op::HaltBad { register } => i64::from(*register),
        Op::Call { unit, .. } => i64::from(*unit),
        Op::Ret { first, .. } => i64::from(*first),
        Op::Argument { number, .. } => i64::from(*number),
        Op::ResultRow { first, .. } => i64::from(*first),
        Op::Integer { value, .. } => *value,
        Op::Variable { number, .. } => i64::from(*number),
        Op::Copy { from, .. } => i64::from(*from),
        Op::Affinity { register, .. } => i64::from(*register),
        Op::Beside { register, .. } => i64::from(*register),
        Op::MustBeInt { register } => i64::from(*register),
        Op::Unary { operand, .. } => operand_register(operand),
        Op::Binary {
            operator,
            left,
            right,
            ..
        } => operand_register(first_side(*operator, left, right)),
        Op::Merge { from, .. } => i64::from(*from),
        Op::OpenRead { cursor, .. } => i64::from(*cursor),
        Op::OpenWrite { cursor, .. } => i64::from(*cursor),
        Op::RowOf { cursor, .. } => i64::from(*cursor),
        Op::Close { cursor } => i64::from(*cursor),
        Op::CloseFrom { cursor } => i64::from(*cursor),
        Op::Rewind { cursor, .. } => i64::from(*cursor),
        Op::Next { cursor, .. } => i64::from(*cursor),
        Op::Search { cursor, .. } => i64::from(*cursor),
        Op::SeekRowid { cursor, .. } => i64::from(*cursor),
        Op::SorterOpen { cursor } => i64::from(*cursor),
        Op::SorterSort { cursor, .. } => i64::from(*cursor),
        Op::SorterData { cursor, .. } => i64::from(*cursor),
        Op::SorterNext { cursor, .. } => i64::from(*cursor),
        Op::Column { cursor, .. } => i64::from(*cursor),
        Op::Rowid { cursor, .. } => i64::from(*cursor),
        Op::NotExists { cursor, .. } => i64::from(*cursor),
        Op::NoConflict { cursor, .. } => i64::from(*cursor),
        Op::NewRowid { cursor, .. } => i64::from(*cursor),
        Op::Insert { cursor, .. } => i64::from(*cursor),
        Op::BuildIndex { cursor, .. } => i64::from(*cursor),
        Op::Schema { change } => change_number(*change),
        _ => 0,
    }
}

/// p2, where a jump's target is an addr of the listing.
pub(crate) fn second(base: usize, op: &Op) -> Result<i64, AllocError>
    ensures { IfOk result (λ n. n ≡ (line_of base op.now).p2) }
{
    match op {
        Op::Goto { target } => jump(base, *target),
        Op::If { target, .. } => jump(base, *target),
        Op::IfNot { target, .. } => jump(base, *target),
        Op::IsNull { target, .. } => jump(base, *target),
        Op::NotNull { target, .. } => jump(base, *target),
        Op::IsBad { target, .. } => jump(base, *target),
        Op::Call { first, .. } => Ok(i64::from(*first)),
        Op::Ret { count, .. } => Ok(i64::from(*count)),
        Op::Argument { to, .. } => Ok(i64::from(*to)),
        Op::ResultRow { count, .. } => Ok(i64::from(*count)),
        Op::Null { to } => Ok(i64::from(*to)),
        Op::Integer { to, .. } => Ok(i64::from(*to)),
        Op::String8 { to, .. } => Ok(i64::from(*to)),
        Op::Blob { to, .. } => Ok(i64::from(*to)),
        Op::Bad { to, .. } => Ok(i64::from(*to)),
        Op::Variable { to, .. } => Ok(i64::from(*to)),
        Op::Copy { to, .. } => Ok(i64::from(*to)),
        Op::Unary { to, .. } => Ok(i64::from(*to)),
        Op::Binary {
            operator,
            left,
            right,
            ..
        } => Ok(operand_register(second_side(*operator, left, right))),
        Op::LikeEscaped { text, .. } => Ok(operand_register(text)),
        Op::Function { args, .. } => Ok(first_register(args.as_slice())),
        Op::Merge { to, .. } => Ok(i64::from(*to)),
        Op::OpenRead { table, .. } => Ok(i64::from(*table)),
        Op::OpenWrite { table, .. } => Ok(i64::from(*table)),
        Op::RowOf { rowid, .. } => Ok(i64::from(*rowid)),
        Op::Rewind { target, .. } => jump(base, *target),
        Op::Next { target, .. } => jump(base, *target),
        Op::Search { target, .. } => jump(base, *target),
        Op::SorterInsert { first, .. } => Ok(i64::from(*first)),
        Op::SorterSort { target, .. } => jump(base, *target),
        Op::SorterData { first, .. } => Ok(i64::from(*first)),
        Op::SorterNext { target, .. } => jump(base, *target),
        Op::Column { column, .. } => Ok(i64::from(*column)),
        Op::Rowid { to, .. } => Ok(i64::from(*to)),
        Op::NotExists { target, .. } => jump(base, *target),
        Op::NoConflict { target, .. } => jump(base, *target),
        Op::NewRowid { to, .. } => Ok(i64::from(*to)),
        Op::Insert { first, .. } => Ok(i64::from(*first)),
        _ => Ok(0),
    }
}

/// p3.
pub(crate) fn third(op: &Op) -> i64
    ensures { (base : ℕ) → result ≡ (line_of base op.now).p3 }
{
    match op {
        Op::If { on_null, .. } => flag(*on_null),
        Op::IfNot { on_null, .. } => flag(*on_null),
        Op::Call { to, .. } => i64::from(*to),
        Op::Binary { to, .. } => i64::from(*to),
        Op::LikeEscaped { to, .. } => i64::from(*to),
        Op::Function { to, .. } => i64::from(*to),
        Op::RowOf { first, .. } => i64::from(*first),
        Op::Search { first, .. } => i64::from(*first),
        Op::SeekRowid { rowid, .. } => i64::from(*rowid),
        Op::SorterInsert { count, .. } => i64::from(*count),
        Op::SorterData { count, .. } => i64::from(*count),
        Op::Column { to, .. } => i64::from(*to),
        Op::NotExists { rowid, .. } => i64::from(*rowid),
        Op::NoConflict { first, .. } => i64::from(*first),
        Op::Insert { rowid, .. } => i64::from(*rowid),
        _ => 0,
    }
}

/// p5.
pub(crate) fn fifth(op: &Op) -> Result<i64, AllocError>
    ensures { IfOk result (λ n. (base : ℕ) → n ≡ (line_of base op.now).p5) }
{
    match op {
        Op::Call { count, .. } => Ok(i64::from(*count)),
        Op::Binary { operator, .. } => Ok(comparison(*operator)),
        Op::LikeEscaped { .. } => Ok(3),
        Op::Function { args, .. } => signed(args.len()),
        Op::RowOf { count, .. } => Ok(i64::from(*count)),
        Op::Search { bounds, .. } => Ok(i64::from(bounds.equal)),
        Op::NoConflict { count, .. } => Ok(i64::from(*count)),
        Op::Insert { count, .. } => Ok(i64::from(*count)),
        Op::BuildIndex { unique, .. } => Ok(flag(unique.is_some())),
        _ => Ok(0),
    }
}
