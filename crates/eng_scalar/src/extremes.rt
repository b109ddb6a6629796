// The largest and the smallest of some values, and whether two are equal, by keys that they have under a collation.
ghost use Rattle.std.specs.Prelude.{◌≡◌, if◌then◌else◌, IfOk};
ghost use Rattle.std.specs.Cmp.Lexicographic.{slice_cmp};
ghost use Rattle.std.specs.Ordering.{is_eq, nat_cmp};
ghost use Rattle.eng_value.specs.Functions.{best_behind, best_of, unless_equal};
ghost use Rattle.eng_value.specs.declared.out.Out.TheVariants.{Good};
ghost use Rattle.eng_value.specs.declared.value.Value.TheVariants.{Null};
ghost use Rattle.eng_scalar.specs.Extremes.{beats};

use crate::choosing::good;
use eng_value::{Blob, Out, Value};
use std::alloc::AllocError;

/// Which value is wanted.
#[derive(Clone, Copy)]
pub(crate) enum Extreme {
    Largest,
    Smallest,
}

impl Extreme {
    // Whether a value with the first key is wanted more than one with the second.
    fn beats(self, key: &[u8], other: &[u8]) -> bool
        ensures { result ≡ beats self key.now other.now }
    {
        match self {
            Extreme::Largest => key.cmp(&other).is_gt(),
            Extreme::Smallest => key.cmp(&other).is_lt(),
        }
    }
}

/// The largest or the smallest argument by its key, the first of those that are equal (Built-in Scalar SQL Functions, "max" and
/// "min").
pub(crate) fn best(extreme: Extreme, args: &[Value], keys: &[Blob]) -> Result<Out, AllocError>
    ensures { IfOk result (λ out. out ≡ Good (best_of (beats extreme) args.now keys.now)) }
{
    match (args, keys) {
        ([first, rest @ ..], [key, others @ ..]) => {
            good(best_behind(extreme, first, key, rest, others))
        }
        _ => Ok(Out::Good(Value::Null)),
    }
}

fn best_behind<'v>(
    extreme: Extreme,
    first: &'v Value,
    first_key: &Blob,
    args: &'v [Value],
    keys: &[Blob],
) -> &'v Value
    ensures { result.now ≡ best_behind (beats extreme) first.now first_key.now args.now keys.now }
{
    let mut best = first;
    let mut best_key = first_key.as_slice();
    for (arg, key) in args.iter().zip(keys) {
        if extreme.beats(key.as_slice(), best_key) {
            best = arg;
            best_key = key.as_slice();
        }
    }
    best
}

/// The first argument, or NULL where both have the same key (Built-in Scalar SQL Functions, "nullif").
pub(crate) fn unless_equal(args: &[Value], keys: &[Blob]) -> Result<Out, AllocError>
    ensures { IfOk result (λ out. out ≡ Good (unless_equal args.now keys.now)) }
{
    match (args, keys) {
        ([x, ..], [a, b, ..]) => unless_same(x, a.as_slice(), b.as_slice()),
        _ => Ok(Out::Good(Value::Null)),
    }
}

fn unless_same(x: &Value, a: &[u8], b: &[u8]) -> Result<Out, AllocError>
    ensures { IfOk result (λ out. out ≡ Good (if is_eq (slice_cmp nat_cmp a.now b.now) then Null else x.now)) }
{
    if a.cmp(&b).is_eq() {
        Ok(Out::Good(Value::Null))
    } else {
        good(x)
    }
}
