// Aggregates, row by row.
ghost use Rattle.std.specs.Prelude.{◌≡◌, ◌-◌, ◌^◌, ◌<◌, ◌++◌, ◌∷◌, List, [], OnErr, OnOk};
ghost use Rattle.eng_aggr.specs.Accumulators.{HasRoom, WasGivenFew, after, finished, passed, so_far_after, stepped, taken};
ghost use Rattle.eng_aggr.specs.Aggregates.{aggregate_of, separator};
ghost use Rattle.eng_aggr.specs.declared.aggregate.Aggregate.{Aggregate};
ghost use Rattle.eng_value.specs.declared.collation.Collation.{Collation};
ghost use Rattle.eng_value.specs.declared.value.Value.{Value};

use crate::aggregate::Aggregate;
use crate::arguments::known;
use crate::best::{Best, Extreme};
use crate::joining::Joined;
use crate::summing::{Sum, integer_out};
use eng_value::{Collation, Out, Value};
use std::alloc::{AllocError, Global};

/// What an aggregate has come to after some rows of a group (Built-in Aggregate Functions). It keeps no row.
#[derive(Drop)]
pub struct Accumulator {
    so_far: SoFar,
}

/// What is kept of the rows: how many they are, how many of them are not NULL, or what was made of those.
#[derive(Drop)]
pub(crate) enum SoFar {
    Rows(u64),
    Known(u64),
    Sum(Sum),
    Best(Best),
    Joined(Joined),
}

impl Accumulator {
    /// Before the first row. The collation is that by which min and max compare texts, BINARY in the place of a host's. Takes no
    /// memory.
    #[tactic(auto, unfolding(crate::specs::Accumulators::after))]
    pub fn start(aggregate: Aggregate, collation: Collation) -> Accumulator
        ensures { result ≡ after aggregate collation [] }
    {
        Accumulator {
            so_far: SoFar::start(aggregate, collation),
        }
    }

    /// One row more: `args` are the values of the aggregate's arguments, none for count(*). Where there is no argument it is NULL, and
    /// those behind the second are not looked at. Fewer than 2^64 - 1 rows stand in front of it, so that 64 bits count them and 128 bits
    /// hold their sum. Only memory can fail, and then all is as before.
    pub fn step(&mut self, alloc: Global, args: &[Value]) -> Result<(), AllocError>
        requires few { WasGivenFew self.old }
        ensures stepped { (f : Aggregate) (c : Collation) (rows : List (List Value)) → self.old ≡ after f c rows → OnOk result (self.new ≡ after f c (rows ++ args.now ∷ [])) }
        ensures kept { OnErr result (self.new ≡ self.old) }
    {
        self.so_far.step(alloc, args)
    }

    /// What the aggregate gives for the rows. count is Overflow over 9223372036854775807 and sum where the exact sum is outside of 64
    /// bits; with a text or a blob sum is Real, as it would be a REAL. group_concat is NotText where one of its texts or separators is
    /// a blob that is not UTF-8, and TooBig where it would have more than `MAX_VALUE_BYTES` bytes. Takes no memory.
    pub fn finish(self, alloc: Global) -> Out
        ensures { (f : Aggregate) (c : Collation) (rows : List (List Value)) → self ≡ after f c rows → result ≡ aggregate_of f c rows }
    {
        let Accumulator { so_far } = self;
        so_far.finish(alloc)
    }
}

impl SoFar {
    fn start(aggregate: Aggregate, collation: Collation) -> SoFar
        ensures { result ≡ so_far_after aggregate collation [] }
    {
        match aggregate {
            Aggregate::CountRows => SoFar::Rows(0),
            Aggregate::Count => SoFar::Known(0),
            Aggregate::Sum => SoFar::Sum(Sum::none()),
            Aggregate::Min => SoFar::Best(Best::none(Extreme::Smallest, collation)),
            Aggregate::Max => SoFar::Best(Best::none(Extreme::Largest, collation)),
            Aggregate::GroupConcat => SoFar::Joined(Joined::Nothing),
        }
    }

    fn step(&mut self, alloc: Global, args: &[Value]) -> Result<(), AllocError>
        requires { HasRoom self.old }
        ensures stepped { OnOk result (self.new ≡ stepped args.now self.old) }
        ensures kept { OnErr result (self.new ≡ self.old) }
    {
        match known(args) {
            None => {
                self.pass();
                Ok(())
            }
            Some(value) => self.take(alloc, args, value),
        }
    }

    // A row whose argument is NULL.
    fn pass(&mut self)
        requires { HasRoom self.old }
        ensures { self.new ≡ passed self.old }
    {
        if let SoFar::Rows(count) = self {
            *count += 1;
        }
    }

    // A row whose argument is this value, and not NULL.
    fn take(&mut self, alloc: Global, args: &[Value], value: &Value) -> Result<(), AllocError>
        requires { HasRoom self.old }
        ensures taken { OnOk result (self.new ≡ taken (separator args.now) value.now self.old) }
        ensures kept { OnErr result (self.new ≡ self.old) }
    {
        match self {
            SoFar::Rows(count) => {
                *count += 1;
                Ok(())
            }
            SoFar::Known(count) => {
                *count += 1;
                Ok(())
            }
            SoFar::Sum(sum) => {
                sum.add(value);
                Ok(())
            }
            SoFar::Best(best) => best.see(value),
            SoFar::Joined(joined) => joined.add(alloc, args, value),
        }
    }

    fn finish(self, alloc: Global) -> Out
        ensures { result ≡ finished self }
    {
        match self {
            SoFar::Rows(count) | SoFar::Known(count) => integer_out(alloc, count as i128),
            SoFar::Sum(sum) => sum.out(alloc),
            SoFar::Best(best) => Out::Good(best.into_value()),
            SoFar::Joined(joined) => joined.into_out(alloc),
        }
    }
}
