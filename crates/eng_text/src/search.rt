// The search for a way in which a pattern matches a text.
ghost use Rattle.std.specs.Prelude.{◌≡◌, false};
ghost use Rattle.std.specs.Str.{chars};
ghost use Rattle.eng_text.specs.Heads.{BeginsWith, is_match};
ghost use Rattle.eng_text.specs.Search.{accepts, Advances, IsLed};

use crate::head::{Head, Single, first_char};
use crate::syntax::Syntax;

// What is left of a pattern and of a text.
#[derive(Clone, Copy)]
struct Front<'a> {
    pattern: &'a str,
    text: &'a str,
}

// How far a search is.
#[derive(Clone, Copy)]
struct Search<'a> {
    syntax: Syntax,
    front: Front<'a>,
    // What was left behind the last run of any characters, for as many of them as it has taken. The runs before it need not take
    // more: whatever a match by them leaves to the last run, that run can take itself.
    run: Option<Front<'a>>,
}

enum Step<'a> {
    On(Search<'a>),
    // Whether there is a match.
    Done(bool),
}

/// Whether a pattern matches a text. The time is at most as the length of the pattern times that of the text.
#[tactic(auto, using(crate::proofs::SearchLaws::accepts_match))]
pub(crate) fn matches(syntax: Syntax, pattern: &str, text: &str) -> bool
    ensures { result ≡ is_match syntax (chars pattern.now) (chars text.now) }
{
    let mut search = Search {
        syntax,
        front: Front { pattern, text },
        run: None,
    };
    loop {
        match search.step() {
            Step::On(next) => search = next,
            Step::Done(is_match) => return is_match,
        }
    }
}

impl<'a> Search<'a> {
    // The search behind the first part of the pattern, or back at the last run.
    fn step(self) -> Step<'a>
        requires { IsLed self }
        ensures { Advances self.entry result }
    {
        match self.syntax.head(self.front.pattern) {
            Head::End => match first_char(self.front.text) {
                None => Step::Done(true),
                Some(_) => self.back(),
            },
            Head::Run(pattern) => {
                let front = Front {
                    pattern,
                    text: self.front.text,
                };
                Step::On(Search {
                    front,
                    run: Some(front),
                    ..self
                })
            }
            Head::One(single) => self.take(single),
        }
    }

    // The search behind one character, where that fits what the pattern begins with, or back at the last run.
    fn take(self, single: Single<'a>) -> Step<'a>
        requires led { IsLed self }
        requires single { BeginsWith self.syntax self.front.pattern.now (Head.One single) }
        ensures { Advances self.entry result }
    {
        match first_char(self.front.text) {
            None => Step::Done(false),
            Some((c, text)) => match self.syntax.behind(single, c) {
                None => self.back(),
                Some(pattern) => {
                    let front = Front { pattern, text };
                    Step::On(Search { front, ..self })
                }
            },
        }
    }

    // The search with the last run taking one character more.
    fn back(self) -> Step<'a>
        requires { accepts self.syntax self.front.pattern.now self.front.text.now ≡ false }
        ensures { Advances self.entry result }
    {
        match self.run {
            None => Step::Done(false),
            Some(run) => match first_char(run.text) {
                None => Step::Done(false),
                Some((_, text)) => {
                    let front = Front {
                        pattern: run.pattern,
                        text,
                    };
                    Step::On(Search {
                        front,
                        run: Some(front),
                        ..self
                    })
                }
            },
        }
    }
}
