// What columns store as it is.
ghost use Rattle.std.specs.Prelude.{◌≡◌, true};
ghost use Rattle.std.specs.Option.{option_copied};
ghost use Rattle.gen_write.specs.Stretches.{HoldsKept, HoldsLiteral, is_integer, is_text, stays};

use crate::source::Kept;
use eng_value::{Affinity, Value};
use sql_words::Literal;

/// Whether a column of an affinity is known to store what was kept of a value, or NULL, as it is.
pub(crate) fn is_held(affinity: Affinity, kept: Option<&Kept>) -> bool
    ensures { result ≡ true → HoldsKept affinity (option_copied kept.entry) }
{
    match kept {
        None => holds(affinity, &Value::Null),
        Some(Kept::Literal(literal)) => holds_literal(affinity, literal),
        Some(Kept::Register(_)) => false,
    }
}

fn holds_literal(affinity: Affinity, literal: &Literal) -> bool
    ensures { result ≡ true → HoldsLiteral affinity literal.now }
{
    match literal {
        Literal::Value(value) => holds(affinity, value),
        Literal::Bad(_) => false,
    }
}

/// Whether it stores a value as it is, by their kinds (Datatypes In SQLite, section 3).
fn holds(affinity: Affinity, value: &Value) -> bool
    ensures { result ≡ stays affinity value.now }
{
    match affinity {
        Affinity::Integer => !is_text(value),
        Affinity::Numeric => !is_text(value),
        Affinity::Real => false,
        Affinity::Text => !is_integer(value),
        Affinity::Blob => true,
        Affinity::None => true,
    }
}

fn is_text(value: &Value) -> bool
    ensures { result ≡ is_text value.now }
{
    match value {
        Value::Text(_) => true,
        _ => false,
    }
}

fn is_integer(value: &Value) -> bool
    ensures { result ≡ is_integer value.now }
{
    match value {
        Value::Integer(_) => true,
        _ => false,
    }
}
