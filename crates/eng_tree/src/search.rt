// Where a key stands among pairs in the order of their keys.
ghost use Rattle.std.specs.Prelude.{◌≡◌, MatchResult};
ghost use Rattle.eng_tree.specs.Map.{IsAscending, IsFree, IsLower, IsThere};

use crate::entry::{Entry, Wanted};
use std::cmp::Ordering;

/// The place of the key, or, where it is not there, the place at which it would stand. Constant time where that is `near`
/// or the next one and the key at `near` is not above.
pub(crate) fn search_near(entries: &[Entry], key: &[u8], near: usize) -> Result<usize, usize>
    requires { IsAscending entries.now }
    ensures { MatchResult result (IsThere key.now entries.now) (IsFree key.now entries.now) }
{
    let wanted = Wanted::new(key);
    match entries.get(near) {
        Some(entry) => match entry.order(&wanted) {
            Ordering::Equal => Ok(near),
            Ordering::Less => search_behind(entries, &wanted, near),
            Ordering::Greater => search_all(entries, &wanted),
        },
        None => search_all(entries, &wanted),
    }
}

// The same where a pair is known to be lower, looking first at the pair behind that one.
fn search_behind(entries: &[Entry], key: &Wanted<'_>, lower: usize) -> Result<usize, usize>
    requires order { IsAscending entries.now }
    requires lower { IsLower key.now entries.now lower }
    ensures { MatchResult result (IsThere key.now entries.now) (IsFree key.now entries.now) }
{
    let next = lower + 1;
    match entries.get(next) {
        Some(entry) => match entry.order(key) {
            Ordering::Equal => Ok(next),
            Ordering::Less => search_all(entries, key),
            Ordering::Greater => Err(next),
        },
        None => Err(next),
    }
}

/// The same by halving.
pub(crate) fn search(entries: &[Entry], key: &[u8]) -> Result<usize, usize>
    requires { IsAscending entries.now }
    ensures { MatchResult result (IsThere key.now entries.now) (IsFree key.now entries.now) }
{
    search_all(entries, &Wanted::new(key))
}

fn search_all(entries: &[Entry], key: &Wanted<'_>) -> Result<usize, usize>
    requires { IsAscending entries.now }
    ensures { MatchResult result (IsThere key.now entries.now) (IsFree key.now entries.now) }
{
    entries.binary_search_by(|entry| entry.order(key))
}

/// The place that a search answered, whether the key is there or not.
pub(crate) fn place_of(found: Result<usize, usize>) -> usize
    ensures { MatchResult found (λ at. result ≡ at) (λ at. result ≡ at) }
{
    match found {
        Ok(at) => at,
        Err(at) => at,
    }
}
