// Why something is bad.
ghost use Rattle.std.specs.Prelude.{◌≡◌, true, IfOk, OnOk};
ghost use Rattle.std.specs.FinSet as set;
ghost use Rattle.eng_value.specs.Causes.{cause_key, is_same_cause, only, has_cause, named};
ghost use Rattle.eng_value.specs.declared.cause.Cause.TheVariants.{Skip};

use crate::Cause;
use std::alloc::{AllocError, Global};
use std::marker::Model;
use std::mem;

/// The causes of something bad, at least one. Contracts see their set: a refusal names any one of them.
pub struct Causes {
    first: Cause,
    others: Vec<Cause>,
}

impl Model for Causes {
    ghost use Rattle.std.specs.Prelude.{map, ◌∷◌};
    ghost use Rattle.std.specs.Ordering.{nat_cmp};
    ghost use Rattle.std.specs.Cmp.Lexicographic.{slice_cmp};
    ghost use Rattle.std.specs.FinSet as set;
    ghost use Rattle.std.specs.Coded.{coded_ℕ, coded_list};
    ghost use Rattle.eng_value.specs.Causes.{StandOnce, cause_key};

    ghost Value = { set.FinSet (slice_cmp nat_cmp) };

    ghost coded = { set.code (coded_list coded_ℕ) };

    ghost view = { λ c. set.from_list (map cause_key (c.first ∷ c.others.items)) };

    ghost invariant = { λ c. StandOnce (c.first ∷ c.others.items) };
}

impl Causes {
    /// One cause.
    pub fn one(alloc: Global, cause: Cause) -> Causes
        ensures { result ≡ only cause }
    {
        Causes {
            first: cause,
            others: Vec::new(alloc),
        }
    }

    /// How many they are. Each stands once, so that a set never holds more than there are causes, however it came together.
    pub fn count(&self) -> usize
        ensures { result ≡ set.len self.now }
    {
        self.others.len() + 1
    }

    /// Whether a cause is one of them.
    pub fn contains(&self, cause: &Cause) -> bool
        ensures { result ≡ has_cause self.now cause.now }
    {
        cause.is_same(&self.first) || self.others.iter().any(|c| cause.is_same(c))
    }

    /// The causes of both.
    pub fn union(&self, other: &Causes) -> Result<Causes, AllocError>
        ensures { IfOk result (λ causes. causes ≡ set.union self.now other.now) }
    {
        let mut all = self.clone()?;
        all.add(&other.first)?;
        for cause in &other.others {
            all.add(cause)?;
        }
        Ok(all)
    }

    /// Adds a cause, unless it is there.
    fn add(&mut self, cause: &Cause) -> Result<(), AllocError>
        ensures { OnOk result (self.new ≡ set.insert self.old (cause_key cause.now)) }
    {
        if self.contains(cause) {
            return Ok(());
        }
        self.others.push(cause.clone()?)?;
        Ok(())
    }

    /// Those that may be named: that a row is left is one of them only where there is no other. Takes no memory.
    pub fn named(self) -> Causes
        ensures { result ≡ named self }
    {
        let Causes { first, mut others } = self;
        others.retain(|cause| !is_skip(cause));
        if !is_skip(&first) {
            return Causes { first, others };
        }
        if let Some(other) = others.pop() {
            return Causes {
                first: other,
                others,
            };
        }
        Causes { first, others }
    }

    /// One of them.
    pub fn into_first(self) -> Cause
        ensures { has_cause self result ≡ true }
    {
        let mut causes = self;
        causes.others.clear();
        mem::replace(&mut causes.first, Cause::NotYet)
    }
}

/// Whether it says that the row is left.
fn is_skip(cause: &Cause) -> bool
    ensures { result ≡ is_same_cause cause.now Skip }
{
    matches!(cause, Cause::Skip)
}

impl Clone for Causes {
    ghost is_clone = { λ source copy. copy ≡ source };

    fn clone(&self) -> Result<Causes, AllocError> {
        Ok(Causes {
            first: self.first.clone()?,
            others: self.others.clone()?,
        })
    }
}

// By hand, as that of a cause.
impl Drop for Causes {
    fn drop(self) {
        let Causes { first, others } = self;
        drop(first);
        drop(others);
    }
}
