// The size of a number.
ghost use Rattle.std.specs.Prelude.{◌≡◌};
ghost use Rattle.eng_value.specs.Functions.{abs_of, given};
ghost use Rattle.eng_value.specs.declared.value.Value.TheVariants as sql;

use eng_value::{Cause, Out, Value};
use std::alloc::Global;

/// How far an integer is from 0 (Built-in Scalar SQL Functions, "abs"). Of the least integer it is Overflow, and of a text or a
/// blob Real, as it would be a REAL.
pub(crate) fn abs(alloc: Global, value: &Value) -> Out
    ensures { result ≡ given (abs_of value.now) }
{
    match value {
        Value::Null => Out::Good(Value::Null),
        Value::Integer(n) => abs_of_integer(alloc, *n),
        Value::Text(_) | Value::Blob(_) => Out::bad(alloc, Cause::Real),
    }
}

fn abs_of_integer(alloc: Global, n: i64) -> Out
    ensures { result ≡ given (abs_of (sql.Integer n)) }
{
    match n.checked_abs() {
        Some(size) => Out::Good(Value::Integer(size)),
        None => Out::bad(alloc, Cause::Overflow),
    }
}
