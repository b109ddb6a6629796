// What something holds that can be lent without a copy.
ghost use Rattle.std.specs.Prelude.{◌≡◌};
ghost use Rattle.std.specs.Option.{option_copied};
ghost use Rattle.vm_store.specs.Held.{held_integer, held_text};

use eng_value::{Out, Value};

/// The integer that it is, if it is one.
#[inline]
pub fn held_integer(out: &Out) -> Option<i64>
    ensures { result ≡ held_integer out.now }
{
    match out {
        Out::Good(Value::Integer(n)) => Some(*n),
        _ => None,
    }
}

/// The text that it is, if it is one.
#[inline]
pub fn held_text(out: &Out) -> Option<&str>
    ensures { option_copied result ≡ held_text out.now }
{
    match out {
        Out::Good(Value::Text(text)) => Some(text.as_str()),
        _ => None,
    }
}
