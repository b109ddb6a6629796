// Where one text or blob stands in another.
ghost use Rattle.std.specs.Prelude.{◌≡◌, ◌+◌, ◌^◌, ◌<◌, Some, IfOk};
ghost use Rattle.std.specs.Str.{chars};
ghost use Rattle.eng_text.specs.Texts.{place_of};
ghost use Rattle.eng_value.specs.Functions.{given, instr_of, number_of_place, on_texts};
ghost use Rattle.eng_scalar.specs.Places.{text_place};

use crate::text_ends::count;
use eng_text::find;
use eng_value::{BothTexts, Out, Value};
use std::alloc::{AllocError, Global};

/// The first place, counted from 1, from which on Y stands in X, and 0 where it does not: instr(X,Y) (Built-in Scalar SQL
/// Functions). Of two blobs places count bytes, and else the characters of the texts that X and Y are cast to.
pub(crate) fn instr(alloc: Global, x: &Value, y: &Value) -> Result<Out, AllocError>
    ensures { IfOk result (λ out. out ≡ given (instr_of x.now y.now)) }
{
    match (x, y) {
        (Value::Blob(hay), Value::Blob(needle)) => {
            Ok(Out::Good(place_in_bytes(hay.as_slice(), needle.as_slice())))
        }
        _ => place_in_texts(alloc, x, y),
    }
}

fn place_in_texts(alloc: Global, x: &Value, y: &Value) -> Result<Out, AllocError>
    ensures { IfOk result (λ out. out ≡ on_texts text_place x.now y.now) }
{
    match BothTexts::of_values(alloc, x, y)? {
        BothTexts::Good(x, y) => Ok(Out::Good(place_in_text(x.or_empty(), y.or_empty()))),
        BothTexts::Bad(causes) => Ok(Out::Bad(causes)),
    }
}

fn place_in_text(text: &str, needle: &str) -> Value
    ensures { result ≡ number_of_place (place_of (chars needle.now) (chars text.now)) }
{
    match find(text.as_bytes(), needle.as_bytes()) {
        Some(place) => number_of(count(&text[..place])),
        None => Value::Integer(0),
    }
}

#[tactic(auto, using(crate::proofs::PlaceLaws::place_small))]
fn place_in_bytes(hay: &[u8], needle: &[u8]) -> Value
    ensures { result ≡ number_of_place (place_of needle.now hay.now) }
{
    match find(hay, needle) {
        Some(place) => number_of(place),
        None => Value::Integer(0),
    }
}

// Places count from 1.
fn number_of(place: usize) -> Value
    requires { place + 1 < 2 ^ 63 }
    ensures { result ≡ number_of_place (Some place) }
{
    Value::Integer(place as i64 + 1)
}
