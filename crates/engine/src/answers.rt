// What a statement's run answers.
ghost use Rattle.std.specs.Prelude.{◌≡◌};

use eng_value::Cause;

/// What a statement did that was not refused.
#[derive(Clone, Copy, Debug, PartialEq, Eq)]
pub struct Done {
    /// How many rows it gave.
    pub given: u64,
    /// After a write, how many rows it changed, as `changes` then answers; else 0.
    pub changed: u64,
}

/// Why a statement was refused.
#[derive(Debug, Drop)]
pub struct Refusal {
    pub cause: Cause,
}
