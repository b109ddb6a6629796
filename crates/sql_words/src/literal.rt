// What literals stand for.
ghost use Rattle.std.specs.Prelude.{◌≡◌};

use eng_value::{Cause, Value};
use std::alloc::AllocError;

/// What a literal stands for: a value, or why it has none.
#[derive(Drop)]
pub enum Literal {
    Value(Value),
    Bad(Cause),
}

impl Clone for Literal {
    ghost is_clone = { λ source copy. copy ≡ source };

    fn clone(&self) -> Result<Literal, AllocError> {
        match self {
            Literal::Value(value) => Ok(Literal::Value(value.clone()?)),
            Literal::Bad(cause) => Ok(Literal::Bad(cause.clone()?)),
        }
    }
}
