// The character of an ESCAPE.
ghost use Rattle.std.specs.Prelude.{◌≡◌, [], ◌∷◌, IfOk, MatchOption};
ghost use Rattle.std.specs.Str.{chars};
ghost use Rattle.eng_operator.specs.Escapes.{escape_out};
ghost use Rattle.eng_value.specs.Comparisons.{escape_char, one_char, to_escape};
ghost use Rattle.eng_value.specs.OperandTexts.{value_of};
ghost use Rattle.eng_value.specs.Outs.{bad};
ghost use Rattle.eng_value.specs.declared.cause.Cause.TheVariants as cause;

use eng_text::first_char;
use eng_value::{Cause, Causes, OperandText, Out, Spelling};
use std::alloc::{AllocError, Global};

/// What an ESCAPE came to.
#[derive(Drop)]
pub(crate) enum Escape {
    Null,
    Char(char),
    Bad(Causes),
}

impl Escape {
    /// The one character of its text, and bad where that has another number of them.
    pub(crate) fn of(alloc: Global, operand: &Out) -> Result<Escape, AllocError>
        ensures { IfOk result (λ escape. escape_out escape ≡ to_escape operand.now) }
    {
        match OperandText::of(alloc, operand)? {
            OperandText::Good(text) => Ok(Escape::of_spelling(alloc, &text)),
            OperandText::Bad(causes) => Ok(Escape::Bad(causes)),
        }
    }

    fn of_spelling(alloc: Global, text: &Spelling<'_>) -> Escape
        ensures { escape_out result ≡ escape_char (value_of text.now) }
    {
        match text.as_str() {
            Some(text) => Escape::of_text(alloc, text),
            None => Escape::Null,
        }
    }

    fn of_text(alloc: Global, text: &str) -> Escape
        ensures { escape_out result ≡ one_char (chars text.now) }
    {
        match one_char(text) {
            Some(c) => Escape::Char(c),
            None => Escape::Bad(Causes::one(alloc, Cause::Escape)),
        }
    }
}

// The character of a text that has just one.
fn one_char(text: &str) -> Option<char>
    ensures { MatchOption result (one_char (chars text.now) ≡ bad cause.Escape) (λ c. chars text.now ≡ c ∷ []) }
{
    let (c, behind) = first_char(text)?;
    match first_char(behind) {
        Some(_) => None,
        None => Some(c),
    }
}
