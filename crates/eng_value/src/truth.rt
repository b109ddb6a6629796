// The truth of what an evaluation gave.
ghost use Rattle.std.specs.Prelude.{◌≡◌, IfOk};
ghost use Rattle.eng_value.specs.Outs.{turned};
ghost use Rattle.eng_value.specs.Truths.{both, one_of_both, opposite, out_of, truth_in, truth_of, truth_of_number};
ghost use Rattle.eng_value.specs.declared.out.Out.TheVariants.{Good};

use crate::casts::to_number;
use crate::{Causes, Out, Value};
use std::alloc::{AllocError, Global};

/// The truth of a value, NULL being unknown (SQL Language Expressions, section 8), or why it is bad.
#[derive(Drop)]
pub enum Truth {
    True,
    False,
    Unknown,
    Failed(Causes),
}

impl Truth {
    /// A number is true where it is not 0, and a text or a blob is the number at its front.
    #[tactic(auto, unfolding(crate::specs::Truths::truth_of))]
    pub fn of(alloc: Global, out: &Out) -> Result<Truth, AllocError>
        ensures { IfOk result (λ truth. truth ≡ truth_in (truth_of out.now)) }
    {
        match out {
            Out::Good(value) => Ok(Truth::of_number(to_number(alloc, value))),
            Out::Bad(causes) => Ok(Truth::Failed(causes.clone()?)),
        }
    }

    fn of_number(number: Out) -> Truth
        ensures { result ≡ truth_in (turned (λ v. Good (truth_of_number v)) number) }
    {
        match number {
            Out::Good(Value::Integer(0)) => Truth::False,
            Out::Good(Value::Integer(_)) => Truth::True,
            Out::Good(_) => Truth::Unknown,
            Out::Bad(causes) => Truth::Failed(causes),
        }
    }

    /// True is 1, false is 0 and unknown is NULL.
    pub fn into_out(self) -> Out
        ensures { result ≡ out_of self }
    {
        match self {
            Truth::True => Out::Good(Value::Integer(1)),
            Truth::False => Out::Good(Value::Integer(0)),
            Truth::Unknown => Out::Good(Value::Null),
            Truth::Failed(causes) => Out::Bad(causes),
        }
    }

    /// Whether both are true. A false side decides, even beside one that is bad.
    pub fn and(self, other: Truth) -> Result<Truth, AllocError>
        ensures { IfOk result (λ truth. truth ≡ both self other) }
    {
        match (self, other) {
            (Truth::False, _) | (_, Truth::False) => Ok(Truth::False),
            (Truth::Failed(c), Truth::Failed(d)) => Ok(Truth::Failed(c.union(&d)?)),
            (Truth::Failed(causes), _) | (_, Truth::Failed(causes)) => Ok(Truth::Failed(causes)),
            (Truth::True, Truth::True) => Ok(Truth::True),
            _ => Ok(Truth::Unknown),
        }
    }

    /// Whether one of both is true. A true side decides, even beside one that is bad.
    pub fn or(self, other: Truth) -> Result<Truth, AllocError>
        ensures { IfOk result (λ truth. truth ≡ one_of_both self other) }
    {
        Ok(self.not().and(other.not())?.not())
    }

    /// Whether it is false.
    pub fn not(self) -> Truth
        ensures { result ≡ opposite self }
    {
        match self {
            Truth::True => Truth::False,
            Truth::False => Truth::True,
            Truth::Unknown => Truth::Unknown,
            Truth::Failed(causes) => Truth::Failed(causes),
        }
    }
}
