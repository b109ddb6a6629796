// The sets of GLOB, tested where they stand in the pattern.
ghost use Rattle.std.specs.Prelude.{◌≡◌, ◌≢◌, ◌<◌, ◌≤◌, Bool, ◌||◌, ◌∷◌, None, length, IfSome};
ghost use Rattle.std.specs.Option.{option_map};
ghost use Rattle.std.specs.Str.{chars};
ghost use Rattle.eng_text.specs.Heads.{Takes, set_parts};
ghost use Rattle.eng_text.specs.Patterns.{in_range};
ghost use Rattle.eng_text.specs.Sets.{IsRangeOf, behind_members, behind_opening, members_behind};

use crate::head::first_char;
use crate::syntax::Syntax;

/// The pattern behind a set, given the pattern behind the `[` of it, where the set is closed and takes the character.
pub(crate) fn behind_set(set: &str, c: char) -> Option<&str>
    ensures takes { Takes Syntax.Glob (set_parts (chars set.now)) c result }
    ensures shorter { IfSome result (λ behind. length behind.now ≤ length set.now) }
{
    match first_char(set) {
        None => None,
        Some((first, behind)) => {
            if first == '^' {
                behind_opening(false, behind, c)
            } else {
                behind_opening(true, set, c)
            }
        }
    }
}

// The same, given what is behind the `[` or `[^`, and whether members are taken, or all others. A `]` there is a member.
fn behind_opening(takes_members: bool, set: &str, c: char) -> Option<&str>
    ensures value { option_map (λ behind. chars behind.now) result ≡ behind_opening c takes_members (chars set.now) }
    ensures shorter { IfSome result (λ behind. length behind.now ≤ length set.now) }
{
    match first_char(set) {
        None => None,
        Some((first, behind)) => {
            if first == ']' {
                behind_members(takes_members, first == c, behind, c)
            } else {
                behind_members(takes_members, false, set, c)
            }
        }
    }
}

// The same, given the members that are left, and whether the character is among those in front of them.
fn behind_members(takes_members: bool, is_member: bool, set: &str, c: char) -> Option<&str>
    ensures value { option_map (λ behind. chars behind.now) result ≡ behind_members c takes_members is_member None (chars set.now) }
    ensures shorter { IfSome result (λ behind. length behind.now ≤ length set.now) }
{
    let mut members = Members {
        is_member,
        prior: None,
        rest: set,
    };
    while let Some((first, behind)) = first_char(members.rest) {
        if first == ']' {
            return if members.is_member == takes_members {
                Some(behind)
            } else {
                None
            };
        }
        members = members.behind_first(first, behind, c);
    }
    None
}

// The members of a set that are still to be read.
#[derive(Clone, Copy)]
struct Members<'p> {
    // Whether the character is among those that were read.
    is_member: bool,
    // The member in front, where it may begin a range.
    prior: Option<char>,
    rest: &'p str,
}

// A range of a set, and what is behind it.
#[derive(Clone, Copy)]
struct Range<'p> {
    low: char,
    high: char,
    rest: &'p str,
}

impl<'p> Members<'p> {
    // The members behind the next one, or the next range.
    fn behind_first(self, first: char, behind: &'p str, c: char) -> Members<'p>
        requires first { chars self.rest.now ≡ first ∷ chars behind.now }
        requires member { first ≢ 0x5d }
        requires shorter { length behind.now < length self.rest.now }
        ensures same { (takes_members : Bool) → members_behind c takes_members result ≡ members_behind c takes_members self.entry }
        ensures shorter { length result.rest.now < length self.entry.rest.now }
    {
        match self.range(first, behind) {
            Some(range) => Members {
                is_member: self.with(range.low, range.high, c),
                prior: None,
                rest: range.rest,
            },
            None => Members {
                is_member: self.with(first, first, c),
                prior: Some(first),
                rest: behind,
            },
        }
    }

    // Whether the character is a member, given that those from one to another are members too.
    fn with(self, low: char, high: char, c: char) -> bool
        ensures { result ≡ (in_range c (low, high) || self.entry.is_member) }
    {
        low <= c && c <= high || self.is_member
    }

    // The range that `-` makes of the members around it, but not in front of the end of the set.
    fn range(self, first: char, behind: &'p str) -> Option<Range<'p>>
        ensures { IsRangeOf self.entry.prior first behind.now result }
    {
        if first != '-' {
            return None;
        }
        match self.prior {
            None => None,
            Some(low) => match first_char(behind) {
                None => None,
                Some((high, rest)) => if high == ']' {
                    None
                } else {
                    Some(Range { low, high, rest })
                },
            },
        }
    }
}
