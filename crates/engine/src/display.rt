// How a refusal is written.
ghost use Rattle.std.specs.Prelude.{Some};
ghost use Rattle.engine.specs.Uncounted.{refusal_text};

use crate::answers::Refusal;
use std::error::Error;
use std::fmt;

/// `Error <code>: <text>`, as the shell writes it.
impl fmt::Display for Refusal {
    ghost output = { λ refusal. Some (refusal_text refusal.cause) };

    fn fmt<W: fmt::Write>(&self, f: &mut fmt::Formatter<W>) -> fmt::Result {
        write!(f, "Error {}: {}", self.cause.code(), self.cause)
    }
}

impl Error for Refusal {}
