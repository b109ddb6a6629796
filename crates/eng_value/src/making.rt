// Values of what a program holds.
ghost use Rattle.std.specs.Prelude.{◌≡◌, IfOk};
ghost use Rattle.eng_value.specs.declared.value.Value.TheVariants as sql;

use crate::{Text, Value};
use std::alloc::{AllocError, Global};

impl Value {
    /// The value of a copy of a text.
    pub fn text(alloc: Global, text: &str) -> Result<Value, AllocError>
        ensures { IfOk result (λ value. value ≡ sql.Text text.now) }
    {
        Ok(Value::Text(Text::from_str(alloc, text)?))
    }
}

impl From<i64> for Value {
    ghost from_gives = { λ n value. value ≡ sql.Integer n };

    fn from(n: i64) -> Value {
        Value::Integer(n)
    }
}
