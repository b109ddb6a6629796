// Values.
ghost use Rattle.std.specs.Prelude.{◌≡◌};
ghost use Rattle.eng_value.specs.Compare.{value_cmp};
ghost use Rattle.eng_value.specs.Outs.{truth_value};

use crate::{Blob, Text};
use std::alloc::AllocError;
use std::cmp::Ordering;

/// A value of SQL, by its storage class (Datatypes In SQLite, section 2). There is no REAL.
#[derive(Debug, Drop)]
pub enum Value {
    Null,
    Integer(i64),
    Text(Text),
    Blob(Blob),
}

impl Value {
    /// True is 1, and false is 0 (SQL Language Expressions, section 8).
    pub fn of_truth(truth: bool) -> Value
        ensures { result ≡ truth_value truth }
    {
        if truth {
            Value::Integer(1)
        } else {
            Value::Integer(0)
        }
    }

    /// How this value stands to another: NULL before INTEGER before TEXT before BLOB, numbers by size, texts and blobs
    /// by their bytes (Datatypes In SQLite, section 4.1, under the collation BINARY).
    pub fn compare(&self, other: &Value) -> Ordering
        ensures { result ≡ value_cmp self.now other.now }
    {
        match (self, other) {
            (Value::Null, Value::Null) => Ordering::Equal,
            (Value::Null, _) => Ordering::Less,
            (_, Value::Null) => Ordering::Greater,
            (Value::Integer(a), Value::Integer(b)) => a.cmp(b),
            (Value::Integer(_), _) => Ordering::Less,
            (_, Value::Integer(_)) => Ordering::Greater,
            (Value::Text(a), Value::Text(b)) => a.as_bytes().cmp(&b.as_bytes()),
            (Value::Text(_), Value::Blob(_)) => Ordering::Less,
            (Value::Blob(_), Value::Text(_)) => Ordering::Greater,
            (Value::Blob(a), Value::Blob(b)) => a.as_slice().cmp(&b.as_slice()),
        }
    }
}

impl Clone for Value {
    ghost is_clone = { λ source copy. copy ≡ source };

    fn clone(&self) -> Result<Value, AllocError> {
        match self {
            Value::Null => Ok(Value::Null),
            Value::Integer(n) => Ok(Value::Integer(*n)),
            Value::Text(text) => Ok(Value::Text(text.clone()?)),
            Value::Blob(blob) => Ok(Value::Blob(blob.clone()?)),
        }
    }
}
