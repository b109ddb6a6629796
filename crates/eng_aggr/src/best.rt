// The smallest and the largest value of a group.
ghost use Rattle.std.specs.Prelude.{◌≡◌, [], if◌then◌else◌, OnErr, OnOk, Some};
ghost use Rattle.std.specs.Option.{unwrap_or};
ghost use Rattle.eng_aggr.specs.Accumulators.{best_after, better, better_value, seen};
ghost use Rattle.eng_value.specs.declared.value.Value.TheVariants.{Null};

use eng_value::{Collation, Value, compare_under};
use std::alloc::AllocError;

/// Which value is wanted.
#[derive(Clone, Copy)]
pub(crate) enum Extreme {
    Largest,
    Smallest,
}

/// The value that is wanted most so far under a collation, none of nothing.
#[derive(Drop)]
pub(crate) struct Best {
    extreme: Extreme,
    collation: Collation,
    value: Option<Value>,
}

impl Extreme {
    // Whether a value is wanted more than the other: of two that are equal neither is.
    fn beats(self, collation: Collation, value: &Value, other: &Value) -> bool
        ensures { better self collation other.now value.now ≡ (if result then value.now else other.now) }
    {
        let ordering = compare_under(value, other, collation);
        match self {
            Extreme::Largest => ordering.is_gt(),
            Extreme::Smallest => ordering.is_lt(),
        }
    }
}

impl Best {
    /// Of nothing.
    pub(crate) fn none(extreme: Extreme, collation: Collation) -> Best
        ensures { result ≡ best_after extreme collation [] }
    {
        Best {
            extreme,
            collation,
            value: None,
        }
    }

    /// One value more, which is copied where it is wanted more than all in front of it.
    pub(crate) fn see(&mut self, value: &Value) -> Result<(), AllocError>
        ensures seen { OnOk result (self.new ≡ seen value.now self.old) }
        ensures kept { OnErr result (self.new ≡ self.old) }
    {
        if self.is_beaten_by(value) {
            self.value = Some(value.clone()?);
        }
        Ok(())
    }

    fn is_beaten_by(&self, value: &Value) -> bool
        ensures { (if result then Some value.now else self.now.value) ≡ Some (better_value self.now.extreme self.now.collation self.now.value value.now) }
    {
        match &self.value {
            Some(best) => self.extreme.beats(self.collation, value, best),
            None => true,
        }
    }

    /// The value, NULL of nothing.
    pub(crate) fn into_value(self) -> Value
        ensures { result ≡ unwrap_or self.value Null }
    {
        let Best {
            extreme: _,
            collation: _,
            value,
        } = self;
        value.unwrap_or(Value::Null)
    }
}
