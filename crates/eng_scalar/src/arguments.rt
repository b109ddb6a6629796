// What the arguments of a function are.
ghost use Rattle.std.specs.Prelude.{◌≡◌};
ghost use Rattle.std.specs.List.{list_any};
ghost use Rattle.eng_value.specs.Functions.{int_of, is_null};

use eng_value::{Value, to_integer};

/// The integer that an argument is cast to, as CAST to INTEGER has it. NULL counts as 0.
pub(crate) fn int_of(value: &Value) -> i64
    ensures { result ≡ int_of value.now }
{
    match to_integer(value) {
        Value::Integer(n) => n,
        Value::Null | Value::Text(_) | Value::Blob(_) => 0,
    }
}

/// Whether an argument is NULL.
pub(crate) fn any_null(args: &[Value]) -> bool
    ensures { result ≡ list_any is_null args.now }
{
    args.iter().any(is_null)
}

/// Whether a value is NULL.
pub(crate) fn is_null(value: &Value) -> bool
    ensures { result ≡ is_null value.now }
{
    matches!(value, Value::Null)
}
