// The operators on numbers that can leave the 64 bits.
ghost use Rattle.std.specs.Prelude.{◌≡◌, ℤ, FitsSigned, IfOk, SomeIff};
ghost use Rattle.std.specs.Int.{w64};
ghost use Rattle.eng_value.specs.Casts.{to_number};
ghost use Rattle.eng_value.specs.Operators.{arithmetic_of, integer_in_range, negated, negative_of, of_integers, of_numbers};
ghost use Rattle.eng_value.specs.Outs.{turned};

use eng_value::{ArithmeticOp, Cause, Out, Value, to_number};
use std::alloc::{AllocError, Global};

/// `+`, `-`, `*` and `/` (SQL Language Expressions, "Operators") of the numbers that the operands are or begin with: NULL beside
/// NULL, and `/` by zero. `/` truncates towards zero. There is no REAL: an operand that begins with one is bad (`Real`), and so is
/// a result that leaves the 64 bits (`Overflow`).
#[tactic(auto, unfolding(eng_value::specs::Operators::arithmetic_of))]
pub fn arithmetic(alloc: Global, op: ArithmeticOp, a: &Out, b: &Out) -> Result<Out, AllocError>
    ensures { IfOk result (λ out. out ≡ arithmetic_of op a.now b.now) }
{
    match (number(alloc, a)?, number(alloc, b)?) {
        (Out::Good(a), Out::Good(b)) => Ok(of_numbers(alloc, op, &a, &b)),
        (Out::Good(_), Out::Bad(causes)) => Ok(Out::Bad(causes)),
        (Out::Bad(causes), Out::Good(_)) => Ok(Out::Bad(causes)),
        (Out::Bad(c), Out::Bad(d)) => Ok(Out::Bad(c.union(&d)?)),
    }
}

/// `-` (SQL Language Expressions, "Operators") of the number that the operand is or begins with, NULL of NULL. The least integer
/// has no negative (`Overflow`), and an operand that begins with a REAL is bad (`Real`).
#[tactic(auto, unfolding(eng_value::specs::Operators::negative_of))]
pub fn negative(alloc: Global, a: &Out) -> Result<Out, AllocError>
    ensures { IfOk result (λ out. out ≡ negative_of a.now) }
{
    match number(alloc, a)? {
        Out::Good(value) => Ok(negated(alloc, &value)),
        Out::Bad(causes) => Ok(Out::Bad(causes)),
    }
}

fn number(alloc: Global, a: &Out) -> Result<Out, AllocError>
    ensures { IfOk result (λ out. out ≡ turned to_number a.now) }
{
    match a {
        Out::Good(value) => Ok(to_number(alloc, value)),
        Out::Bad(causes) => Ok(Out::Bad(causes.clone()?)),
    }
}

fn of_numbers(alloc: Global, op: ArithmeticOp, a: &Value, b: &Value) -> Out
    ensures { result ≡ of_numbers op a.now b.now }
{
    match (a, b) {
        (Value::Integer(a), Value::Integer(b)) => of_integers(alloc, op, *a, *b),
        _ => Out::Good(Value::Null),
    }
}

fn of_integers(alloc: Global, op: ArithmeticOp, a: i64, b: i64) -> Out
    ensures { result ≡ of_integers op a b }
{
    match op {
        ArithmeticOp::Add => integer_or_overflow(alloc, a.checked_add(b)),
        ArithmeticOp::Subtract => integer_or_overflow(alloc, a.checked_sub(b)),
        ArithmeticOp::Multiply => integer_or_overflow(alloc, a.checked_mul(b)),
        ArithmeticOp::Divide if b == 0 => Out::Good(Value::Null),
        ArithmeticOp::Divide => integer_or_overflow(alloc, a.checked_div(b)),
    }
}

fn negated(alloc: Global, value: &Value) -> Out
    ensures { result ≡ negated value.now }
{
    match value {
        Value::Integer(n) => integer_or_overflow(alloc, n.checked_neg()),
        _ => Out::Good(Value::Null),
    }
}

// The integer, where it is one of 64 bits.
fn integer_or_overflow(alloc: Global, number: Option<i64>) -> Out
    ensures { (n : ℤ) → SomeIff number (FitsSigned w64 n) n → result ≡ integer_in_range n }
{
    match number {
        Some(n) => Out::Good(Value::Integer(n)),
        None => Out::bad(alloc, Cause::Overflow),
    }
}
