// The sum of a group.
ghost use Rattle.std.specs.Prelude.{◌≡◌, ◌-◌, ◌^◌, ◌<◌, [], pos};
ghost use Rattle.eng_aggr.specs.Accumulators.{HasRoomInSum, added, sum_after, sum_out, total_out};
ghost use Rattle.eng_aggr.specs.Totals.{integer_total, with_integer};
ghost use Rattle.eng_value.specs.declared.value.Value.TheVariants.{Integer};
ghost use Rattle.eng_value.specs.Operators.{integer_in_range};

use eng_value::{Cause, Out, Value};
use std::alloc::Global;
use std::marker::Model;

/// The exact sum of some integers, and how many they are: as long as a count of 64 bits holds them, their sum is one of 128.
#[derive(Drop)]
pub(crate) struct Total {
    count: u64,
    total: i128,
}

impl Model for Total {
    ghost use Rattle.eng_aggr.specs.Totals.{IntegerTotal, IsWithin, integer_total};

    ghost Value = { IntegerTotal };

    ghost view = { λ t. integer_total t.count t.total };

    ghost invariant = { λ t. IsWithin t.count t.total };
}

/// The sum of the values so far. That one of them is no integer is not taken back by what comes behind it.
#[derive(Drop)]
pub(crate) enum Sum {
    Exact(Total),
    Real,
}

impl Total {
    fn none() -> Total
        ensures { result ≡ integer_total 0 (pos 0) }
    {
        Total { count: 0, total: 0 }
    }

    fn add(&mut self, n: i64)
        requires { self.old.count < 2 ^ 64 - 1 }
        ensures { self.new ≡ with_integer n self.old }
    {
        self.count += 1;
        self.total += n as i128;
    }

    fn out(&self, alloc: Global) -> Out
        ensures { result ≡ total_out self.now }
    {
        if self.count == 0 {
            return Out::Good(Value::Null);
        }
        integer_out(alloc, self.total)
    }
}

impl Sum {
    /// Of nothing.
    pub(crate) fn none() -> Sum
        ensures { result ≡ sum_after [] }
    {
        Sum::Exact(Total::none())
    }

    /// Adds a value that is not NULL: with a text or a blob the sum would be a REAL.
    pub(crate) fn add(&mut self, value: &Value)
        requires { HasRoomInSum self.old }
        ensures { self.new ≡ added value.now self.old }
    {
        match value {
            Value::Integer(n) => self.add_integer(*n),
            _ => *self = Sum::Real,
        }
    }

    fn add_integer(&mut self, n: i64)
        requires { HasRoomInSum self.old }
        ensures { self.new ≡ added (Integer n) self.old }
    {
        if let Sum::Exact(total) = self {
            total.add(n);
        }
    }

    /// The sum, NULL of nothing. It is Overflow only where the exact sum is outside of 64 bits.
    pub(crate) fn out(&self, alloc: Global) -> Out
        ensures { result ≡ sum_out self.now }
    {
        match self {
            Sum::Exact(total) => total.out(alloc),
            Sum::Real => Out::bad(alloc, Cause::Real),
        }
    }
}

/// An integer of 64 bits, or Overflow.
pub(crate) fn integer_out(alloc: Global, n: i128) -> Out
    ensures { result ≡ integer_in_range n }
{
    match i64::try_from(n) {
        Ok(n) => Out::Good(Value::Integer(n)),
        Err(_) => Out::bad(alloc, Cause::Overflow),
    }
}
