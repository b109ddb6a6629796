// How LIKE and GLOB write patterns, and which characters count as one.
ghost use Rattle.std.specs.Prelude.{◌≡◌, ◌≤◌, length, IfSome};
ghost use Rattle.std.specs.Str.{chars};
ghost use Rattle.eng_text.specs.Heads.{BeginsWith, IsEscaped, IsOf, Takes, same_of, single_parts, single_rest, test_of};
ghost use Rattle.eng_text.specs.Patterns.{passes, is_escape};

use crate::head::{Head, Single, Wanted, first_char};
use crate::sets::behind_set;

/// Whose patterns they are.
#[derive(Clone, Copy)]
pub(crate) enum Syntax {
    /// LIKE's, with the character of its ESCAPE.
    Like(Option<char>),
    Glob,
}

impl Syntax {
    /// What a pattern begins with.
    pub(crate) fn head(self, pattern: &str) -> Head<'_>
        ensures { BeginsWith self pattern.now result }
    {
        match self {
            Syntax::Like(escape) => like_head(escape, pattern),
            Syntax::Glob => glob_head(pattern),
        }
    }

    /// The pattern behind what stands for one character, where that may be this one.
    pub(crate) fn behind<'p>(self, single: Single<'p>, c: char) -> Option<&'p str>
        requires { IsOf self single }
        ensures takes { Takes self (single_parts self single.entry) c result }
        ensures shorter { IfSome result (λ behind. length behind.now ≤ length (single_rest single.entry)) }
    {
        match single {
            Single::Char(wanted, behind) => {
                if self.fits(wanted, c) {
                    Some(behind)
                } else {
                    None
                }
            }
            Single::Set(set) => behind_set(set, c),
        }
    }

    // Whether a character is what is wanted.
    fn fits(self, wanted: Wanted, c: char) -> bool
        ensures { result ≡ passes (same_of self) (test_of wanted) c }
    {
        match wanted {
            Wanted::Any => true,
            Wanted::Exactly(d) => self.is_same(d, c),
            Wanted::Never => false,
        }
    }

    // Whether two characters count as one: for LIKE, letters of ASCII do in either case.
    fn is_same(self, c: char, d: char) -> bool
        ensures { result ≡ same_of self c d }
    {
        match self {
            Syntax::Like(_) => c.to_ascii_lowercase() == d.to_ascii_lowercase(),
            Syntax::Glob => c == d,
        }
    }
}

fn like_head(escape: Option<char>, pattern: &str) -> Head<'_>
    ensures { BeginsWith (Syntax.Like escape) pattern.now result }
{
    match first_char(pattern) {
        None => Head::End,
        Some((c, behind)) => {
            if is_escape(escape, c) {
                Head::One(escaped(behind))
            } else if c == '%' {
                Head::Run(behind)
            } else if c == '_' {
                Head::One(Single::Char(Wanted::Any, behind))
            } else {
                Head::One(Single::Char(Wanted::Exactly(c), behind))
            }
        }
    }
}

fn is_escape(escape: Option<char>, c: char) -> bool
    ensures { result ≡ is_escape escape c }
{
    match escape {
        None => false,
        Some(escape) => escape == c,
    }
}

// What stands behind an escape: the next character, for itself.
fn escaped(behind: &str) -> Single<'_>
    ensures is { IsEscaped (chars behind.now) result }
    ensures shorter { length (single_rest result) ≤ length behind.now }
{
    match first_char(behind) {
        None => Single::Char(Wanted::Never, behind),
        Some((c, behind)) => Single::Char(Wanted::Exactly(c), behind),
    }
}

fn glob_head(pattern: &str) -> Head<'_>
    ensures { BeginsWith Syntax.Glob pattern.now result }
{
    match first_char(pattern) {
        None => Head::End,
        Some((c, behind)) => {
            if c == '[' {
                Head::One(Single::Set(behind))
            } else if c == '*' {
                Head::Run(behind)
            } else if c == '?' {
                Head::One(Single::Char(Wanted::Any, behind))
            } else {
                Head::One(Single::Char(Wanted::Exactly(c), behind))
            }
        }
    }
}
