// The operators on bits, and the remainder: none of them leaves the 64 bits.
ghost use Rattle.std.specs.Prelude.{◌≡◌, IfOk};
ghost use Rattle.eng_value.specs.Operators.{integers_of, inverse_of, inverted, of_bits, of_whole_numbers, shifted_left, shifted_right};
ghost use Rattle.eng_value.specs.declared.out.Out.TheVariants.{Good};

use eng_value::{IntegerOp, Out, Value, to_integer};
use std::alloc::AllocError;

/// `%`, `&`, `|`, `<<` and `>>` (SQL Language Expressions, "Operators") of the operands as CAST to INTEGER makes them: NULL beside
/// NULL, and `%` by zero. A remainder has the sign of the first operand. `>>` fills with the sign, and a shift by a negative
/// number goes the other way.
#[tactic(auto, unfolding(eng_value::specs::Operators::integers_of))]
pub fn integers(op: IntegerOp, a: &Out, b: &Out) -> Result<Out, AllocError>
    ensures { IfOk result (λ out. out ≡ integers_of op a.now b.now) }
{
    match (a, b) {
        (Out::Good(a), Out::Good(b)) => {
            let value = of_whole_numbers(op, &to_integer(a), &to_integer(b));
            Ok(Out::Good(value))
        }
        (Out::Good(_), Out::Bad(causes)) => Ok(Out::Bad(causes.clone()?)),
        (Out::Bad(causes), Out::Good(_)) => Ok(Out::Bad(causes.clone()?)),
        (Out::Bad(c), Out::Bad(d)) => Ok(Out::Bad(c.union(d)?)),
    }
}

/// `~` (SQL Language Expressions, "Operators") of the operand as CAST to INTEGER makes it: each bit the other one, and NULL of
/// NULL.
#[tactic(auto, unfolding(eng_value::specs::Operators::inverse_of))]
pub fn inverse(a: &Out) -> Result<Out, AllocError>
    ensures { IfOk result (λ out. out ≡ inverse_of a.now) }
{
    match a {
        Out::Good(value) => Ok(Out::Good(inverted(&to_integer(value)))),
        Out::Bad(causes) => Ok(Out::Bad(causes.clone()?)),
    }
}

fn of_whole_numbers(op: IntegerOp, a: &Value, b: &Value) -> Value
    ensures { Good result ≡ of_whole_numbers op a.now b.now }
{
    match (a, b) {
        (Value::Integer(a), Value::Integer(b)) => of_bits(op, *a, *b),
        _ => Value::Null,
    }
}

pub(crate) fn of_bits(op: IntegerOp, a: i64, b: i64) -> Value
    ensures { result ≡ of_bits op a b }
{
    match op {
        IntegerOp::Remainder if b == 0 => Value::Null,
        IntegerOp::Remainder => Value::Integer(a.wrapping_rem(b)),
        IntegerOp::And => Value::Integer(a & b),
        IntegerOp::Or => Value::Integer(a | b),
        IntegerOp::ShiftLeft if b < 0 => Value::Integer(shifted_right(a, b.unsigned_abs())),
        IntegerOp::ShiftLeft => Value::Integer(shifted_left(a, b.unsigned_abs())),
        IntegerOp::ShiftRight if b < 0 => Value::Integer(shifted_left(a, b.unsigned_abs())),
        IntegerOp::ShiftRight => Value::Integer(shifted_right(a, b.unsigned_abs())),
    }
}

fn shifted_left(a: i64, places: u64) -> i64
    ensures { result ≡ shifted_left a places }
{
    if places < 64 { a << places } else { 0 }
}

fn shifted_right(a: i64, places: u64) -> i64
    ensures { result ≡ shifted_right a places }
{
    if places < 64 { a >> places } else { a >> 63 }
}

fn inverted(value: &Value) -> Value
    ensures { result ≡ inverted value.now }
{
    match value {
        Value::Integer(n) => Value::Integer(!*n),
        _ => Value::Null,
    }
}
