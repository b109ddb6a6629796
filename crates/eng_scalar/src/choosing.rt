// The argument that is chosen.
ghost use Rattle.std.specs.Prelude.{◌≡◌, IfOk};
ghost use Rattle.eng_value.specs.Functions.{first_known, iif_of};
ghost use Rattle.eng_value.specs.Truths.{chosen, truth_in, truth_of};
ghost use Rattle.eng_value.specs.declared.out.Out.TheVariants.{Good};

use crate::arguments::is_null;
use eng_value::{Out, Truth, Value, to_number};
use std::alloc::{AllocError, Global};

/// The first argument that is not NULL (Built-in Scalar SQL Functions, "coalesce" and "ifnull").
pub(crate) fn first_known(args: &[Value]) -> Result<Out, AllocError>
    ensures { IfOk result (λ out. out ≡ Good (first_known args.now)) }
{
    for arg in args {
        if !is_null(arg) {
            return good(arg);
        }
    }
    Ok(Out::Good(Value::Null))
}

/// A copy of an argument.
pub(crate) fn good(value: &Value) -> Result<Out, AllocError>
    ensures { IfOk result (λ out. out ≡ Good value.now) }
{
    Ok(Out::Good(value.clone()?))
}

/// The second argument where the first is true, else the third (Built-in Scalar SQL Functions, "iif").
pub(crate) fn iif(alloc: Global, args: &[Value]) -> Result<Out, AllocError>
    ensures { IfOk result (λ out. out ≡ iif_of args.now) }
{
    match args {
        [x, y, z, ..] => choice(truth(alloc, x)?, y, z),
        _ => Ok(Out::Good(Value::Null)),
    }
}

// The truth of a value that is a number first, so that no text is copied.
fn truth(alloc: Global, value: &Value) -> Result<Truth, AllocError>
    ensures { IfOk result (λ truth. truth ≡ truth_in (truth_of (Good value.now))) }
{
    Truth::of(alloc, &to_number(alloc, value))
}

fn choice(condition: Truth, a: &Value, b: &Value) -> Result<Out, AllocError>
    ensures { IfOk result (λ out. out ≡ chosen condition (Good a.now) (Good b.now)) }
{
    match condition {
        Truth::True => good(a),
        Truth::False | Truth::Unknown => good(b),
        Truth::Failed(causes) => Ok(Out::Bad(causes)),
    }
}
