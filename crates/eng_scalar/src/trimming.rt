// Texts without some characters at their ends.
ghost use Rattle.std.specs.Prelude.{◌≡◌, ◌==◌, codes, encode_utf8_all, IfOk};
ghost use Rattle.std.specs.List.{list_any};
ghost use Rattle.std.specs.Str.{chars};
ghost use Rattle.eng_value.specs.Functions.{given, on_texts, text_of_chars, trim_by, trim_of, without_back, without_front};
ghost use Rattle.eng_value.specs.declared.out.Out.TheVariants.{Good};
ghost use Rattle.eng_scalar.specs.Trims.{trimmed};

use crate::characters::{OfText, on_text};
use crate::text_ends::last_char;
use eng_text::first_char;
use eng_value::{BothTexts, Builtin, Out, Text, Value};
use std::alloc::{AllocError, Global};

/// X without the spaces at its ends, or without the characters of Y there: trim(X) and trim(X,Y), ltrim at the beginning and rtrim
/// at the end alone (Built-in Scalar SQL Functions). `which` tells the three apart.
pub(crate) fn trim(alloc: Global, which: Builtin, args: &[Value]) -> Result<Out, AllocError>
    ensures { IfOk result (λ out. out ≡ given (trim_of which args.now)) }
{
    match args {
        [x] => on_text(alloc, OfText::Trim(which), x),
        [x, y, ..] => trim_these(alloc, which, x, y),
        [] => Ok(Out::Good(Value::Null)),
    }
}

/// A text without the spaces at its ends.
#[tactic(auto, using(crate::proofs::TrimLaws::chars_space))]
pub(crate) fn trim_spaces(alloc: Global, which: Builtin, text: &str) -> Result<Out, AllocError>
    ensures { IfOk result (λ out. out ≡ Good (text_of_chars (trim_by which (codes " ") (chars text.now)))) }
{
    trim_text(alloc, which, text, " ")
}

fn trim_these(alloc: Global, which: Builtin, x: &Value, y: &Value) -> Result<Out, AllocError>
    ensures { IfOk result (λ out. out ≡ on_texts (trimmed which) x.now y.now) }
{
    match BothTexts::of_values(alloc, x, y)? {
        BothTexts::Good(x, y) => trim_text(alloc, which, x.or_empty(), y.or_empty()),
        BothTexts::Bad(causes) => Ok(Out::Bad(causes)),
    }
}

fn trim_text(alloc: Global, which: Builtin, text: &str, these: &str) -> Result<Out, AllocError>
    ensures { IfOk result (λ out. out ≡ trimmed which text.now these.now) }
{
    let kept = without_ends(which, text, these);
    Ok(Out::Good(Value::Text(Text::from_str(alloc, kept)?)))
}

#[tactic(auto, using(crate::proofs::TextLaws::spelled))]
fn without_ends<'t>(which: Builtin, text: &'t str, these: &str) -> &'t str
    ensures { result.now ≡ encode_utf8_all (trim_by which (chars these.now) (chars text.now)) }
{
    match which {
        Builtin::TrimLeft => without_front(text, these),
        Builtin::TrimRight => without_back(text, these),
        _ => without_back(without_front(text, these), these),
    }
}

// The text without the longest beginning of these characters.
#[tactic(auto, using(crate::proofs::TrimLaws::front_steps))]
fn without_front<'t>(text: &'t str, these: &str) -> &'t str
    ensures { chars result.now ≡ without_front (chars these.now) (chars text.now) }
{
    let mut rest = text;
    while let Some((c, more)) = first_char(rest) {
        if !is_among(c, these) {
            return rest;
        }
        rest = more;
    }
    rest
}

// The text without the longest end of these characters.
#[tactic(auto, using(crate::proofs::TrimLaws::back_steps))]
fn without_back<'t>(text: &'t str, these: &str) -> &'t str
    ensures { chars result.now ≡ without_back (chars these.now) (chars text.now) }
{
    let mut rest = text;
    while let Some((c, more)) = last_char(rest) {
        if !is_among(c, these) {
            return rest;
        }
        rest = more;
    }
    rest
}

fn is_among(c: char, these: &str) -> bool
    ensures { result ≡ list_any (λ t. t == c) (chars these.now) }
{
    these.chars().any(|t| t == c)
}
