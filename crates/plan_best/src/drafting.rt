// Searches that are drafted key by key.
ghost use Rattle.std.specs.Prelude.{◌≡◌, ◌<◌, length, IfOk, OnOk, Some};
ghost use Rattle.plan_best.specs.Drafts.{with_bound, with_key, without_keys};

use crate::comparing::Comparison;
use eng_index::{Bounds, Edge, KeyTerm};
use eng_value::CompareOp;
use plan_tree::Search;
use sqlite_items::Items;
use std::alloc::{AllocError, Global};

/// A search, and which conjuncts are true at each row that it finds.
#[derive(Drop)]
pub(crate) struct Draft<'a> {
    pub search: Search<'a>,
    pub consumed: Items<bool>,
}

impl<'a> Draft<'a> {
    /// The search by these terms that has no key yet, where there are so many conjuncts.
    pub(crate) fn new(
        alloc: Global,
        terms: &[KeyTerm],
        conjuncts: usize,
    ) -> Result<Draft<'a>, AllocError>
        ensures { IfOk result (λ d. d ≡ without_keys terms.now conjuncts) }
    {
        Ok(Draft {
            search: Search {
                terms: Items::from_slice(alloc, terms)?,
                bounds: Bounds {
                    equal: 0,
                    lower: None,
                    upper: None,
                },
                keys: Items::new(alloc),
            },
            consumed: Items::from_vec(vec![in alloc; false; conjuncts]?),
        })
    }

    /// With the key of a comparison behind the others.
    pub(crate) fn add_key(
        &mut self,
        place: usize,
        comparison: &Comparison<'a>,
    ) -> Result<(), AllocError>
        requires place { place < length self.old.consumed }
        requires room { self.old.search.bounds.equal < 2000 }
        ensures { OnOk result (self.new ≡ with_key self.old place comparison.now) }
    {
        self.search.keys.push(comparison.key)?;
        self.search.bounds = with_bound(comparison.op, self.search.bounds);
        if comparison.given {
            self.consumed.set(place, true);
        }
        Ok(())
    }
}

fn with_bound(op: CompareOp, bounds: Bounds) -> Bounds
    requires { bounds.equal < 2000 }
    ensures { result ≡ with_bound op bounds }
{
    match op {
        CompareOp::Eq => Bounds {
            equal: bounds.equal + 1,
            lower: bounds.lower,
            upper: bounds.upper,
        },
        CompareOp::Lt => with_upper(bounds, Edge::Excluded),
        CompareOp::Le => with_upper(bounds, Edge::Included),
        CompareOp::Gt => with_lower(bounds, Edge::Excluded),
        CompareOp::Ge => with_lower(bounds, Edge::Included),
    }
}

fn with_lower(bounds: Bounds, edge: Edge) -> Bounds
    ensures { result ≡ record { equal = bounds.equal; lower = Some edge; upper = bounds.upper } }
{
    Bounds {
        equal: bounds.equal,
        lower: Some(edge),
        upper: bounds.upper,
    }
}

fn with_upper(bounds: Bounds, edge: Edge) -> Bounds
    ensures { result ≡ record { equal = bounds.equal; lower = bounds.lower; upper = Some edge } }
{
    Bounds {
        equal: bounds.equal,
        lower: bounds.lower,
        upper: Some(edge),
    }
}
