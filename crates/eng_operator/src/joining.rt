// Texts behind one another.
ghost use Rattle.std.specs.Prelude.{◌≡◌, ◌++◌, IfOk};
ghost use Rattle.eng_value.specs.OperandTexts.{value_of};
ghost use Rattle.eng_value.specs.Operators.{concatenation_of, joined, made};
ghost use Rattle.eng_value.specs.declared.value.Value.TheVariants as sql;

use eng_value::{BothTexts, Cause, MAX_VALUE_BYTES, Out, Spelling, Text, Value};
use std::alloc::{AllocError, Global};

/// `||` (SQL Language Expressions, "Operators") of the operands as CAST to TEXT makes them: NULL beside NULL. It is bad where the
/// text would have more bytes than `MAX_VALUE_BYTES` (`TooBig`), which is found before it is made, and where an operand is a blob
/// that is not UTF-8 (`NotText`).
#[tactic(auto, unfolding(eng_value::specs::Operators::concatenation_of))]
pub fn concatenation(alloc: Global, a: &Out, b: &Out) -> Result<Out, AllocError>
    ensures { IfOk result (λ out. out ≡ concatenation_of a.now b.now) }
{
    match BothTexts::of(alloc, a, b)? {
        BothTexts::Good(a, b) => joined(alloc, &a, &b),
        BothTexts::Bad(causes) => Ok(Out::Bad(causes)),
    }
}

fn joined(alloc: Global, a: &Spelling<'_>, b: &Spelling<'_>) -> Result<Out, AllocError>
    ensures { IfOk result (λ out. out ≡ joined (value_of a.now) (value_of b.now)) }
{
    match (a.as_str(), b.as_str()) {
        (Some(a), Some(b)) => joined_texts(alloc, a, b),
        _ => Ok(Out::Good(Value::Null)),
    }
}

fn joined_texts(alloc: Global, a: &str, b: &str) -> Result<Out, AllocError>
    ensures { IfOk result (λ out. out ≡ made (sql.Text (a.now ++ b.now))) }
{
    if a.len().saturating_add(b.len()) > MAX_VALUE_BYTES {
        return Ok(Out::bad(alloc, Cause::TooBig));
    }
    let mut joined = String::from_str(alloc, a)?;
    joined.push_str(b)?;
    Ok(Out::Good(Value::Text(Text::new(joined))))
}
