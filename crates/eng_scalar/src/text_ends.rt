// The characters at both ends of a text, and how many there are.
ghost use Rattle.std.specs.Prelude.{◌≡◌, ◌∷◌, [], ◌++◌, ◌<◌, ◌≤◌, length, take, drop, MatchOption};
ghost use Rattle.std.specs.Str.{chars};

use eng_text::first_char;

/// The last character of a text, and the text in front of it.
pub(crate) fn last_char(text: &str) -> Option<(char, &str)>
    ensures { MatchOption result (chars text.now ≡ [])
        (λ last. (chars text.now ≡ chars last.1.now ++ (last.0 ∷ [])) × (length last.1.now < length text.now)) }
{
    let mut rest = text.chars();
    match rest.next_back() {
        Some(c) => Some((c, rest.as_str())),
        None => None,
    }
}

/// How many characters a text has.
pub(crate) fn count(text: &str) -> usize
    ensures count { result ≡ length (chars text.now) }
    ensures short { result ≤ length text.now }
{
    text.chars().count()
}

/// The text behind its first so many characters, which is empty where it has fewer.
#[tactic(auto, using(crate::proofs::TextLaws::drop_steps))]
pub(crate) fn behind(text: &str, n: usize) -> &str
    ensures { chars result.now ≡ drop n (chars text.now) }
{
    let mut rest = text;
    for _ in 0..n {
        match first_char(rest) {
            Some((_, more)) => rest = more,
            None => break,
        }
    }
    rest
}

/// The first so many characters of a text, or all of it where it has fewer.
pub(crate) fn front(text: &str, n: usize) -> &str
    ensures { chars result.now ≡ take n (chars text.now) }
{
    let rest = behind(text, n);
    &text[..text.len() - rest.len()]
}
