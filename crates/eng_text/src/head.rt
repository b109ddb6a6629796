// What a text, and a pattern, begins with.
ghost use Rattle.std.specs.Prelude.{◌≡◌, ◌∷◌, [], ◌<◌, length, MatchOption};
ghost use Rattle.std.specs.Str.{chars};

/// The first character of a text, and the text behind it. Takes no memory.
pub fn first_char(text: &str) -> Option<(char, &str)>
    ensures { MatchOption result (chars text.now ≡ [])
        (λ first. (chars text.now ≡ first.0 ∷ chars first.1.now) × (length first.1.now < length text.now)) }
{
    let mut rest = text.chars();
    match rest.next() {
        Some(c) => Some((c, rest.as_str())),
        None => None,
    }
}

/// What a pattern begins with.
#[derive(Clone, Copy)]
pub(crate) enum Head<'p> {
    /// Nothing is left of it.
    End,
    /// A run of any characters, and the pattern behind it.
    Run(&'p str),
    One(Single<'p>),
}

/// What stands for one character.
#[derive(Clone, Copy)]
pub(crate) enum Single<'p> {
    /// What it has to be, and the pattern behind that.
    Char(Wanted, &'p str),
    /// A set of GLOB: the pattern behind its `[`.
    Set(&'p str),
}

/// What a character has to be.
#[derive(Clone, Copy)]
pub(crate) enum Wanted {
    Any,
    Exactly(char),
    /// No character is this.
    Never,
}
