// What an evaluation gives.
ghost use Rattle.std.specs.Prelude.{◌≡◌, IfOk};
ghost use Rattle.eng_value.specs.Outs.{bad, compare_outs, compare_values, truth_value};

use crate::{Cause, Causes, CompareOp, Value};
use std::alloc::{AllocError, Global};

/// A value, or what went wrong. An error is a value too: it goes where a value would go, and whether it counts is decided
/// where the result is used.
#[derive(Drop)]
pub enum Out {
    Good(Value),
    Bad(Causes),
}

impl Out {
    /// Bad for one cause.
    pub fn bad(alloc: Global, cause: Cause) -> Out
        ensures { result ≡ bad cause }
    {
        Out::Bad(Causes::one(alloc, cause))
    }

    /// A comparison of what two operands gave: NULL beside NULL, and bad where one of them is.
    pub fn compare(&self, op: CompareOp, other: &Out) -> Result<Out, AllocError>
        ensures { IfOk result (λ out. out ≡ compare_outs op self.now other.now) }
    {
        match (self, other) {
            (Out::Good(a), Out::Good(b)) => Ok(Out::Good(compare_values(op, a, b))),
            (Out::Good(_), Out::Bad(causes)) => Ok(Out::Bad(causes.clone()?)),
            (Out::Bad(causes), Out::Good(_)) => Ok(Out::Bad(causes.clone()?)),
            (Out::Bad(c), Out::Bad(d)) => Ok(Out::Bad(c.union(d)?)),
        }
    }
}

impl Clone for Out {
    ghost is_clone = { λ source copy. copy ≡ source };

    fn clone(&self) -> Result<Out, AllocError> {
        match self {
            Out::Good(value) => Ok(Out::Good(value.clone()?)),
            Out::Bad(causes) => Ok(Out::Bad(causes.clone()?)),
        }
    }
}

/// A comparison of two values, NULL where one of them is.
fn compare_values(op: CompareOp, a: &Value, b: &Value) -> Value
    ensures { result ≡ compare_values op a.now b.now }
{
    match (a, b) {
        (Value::Null, _) | (_, Value::Null) => Value::Null,
        _ => Value::of_truth(op.passes(a.compare(b))),
    }
}
