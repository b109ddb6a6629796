// Parts of texts and blobs.
ghost use Rattle.std.specs.Prelude.{◌≡◌, ℕ, ◌^◌, ◌<◌, ◌≤◌, List, length, min, encode_utf8_all, IfOk};
ghost use Rattle.std.specs.Str.{chars};
ghost use Rattle.eng_value.specs.Functions.{given, on_bytes, start_of, substr_by, substr_in, substr_of, text_of_chars};
ghost use Rattle.eng_value.specs.OperandTexts.{value_of};
ghost use Rattle.eng_value.specs.declared.out.Out.TheVariants.{Good};
ghost use Rattle.eng_value.specs.declared.value.Value.TheVariants as sql;
ghost use Rattle.eng_scalar.specs.Parts.{IsNearby, between, in_front, substr_from};

use crate::arguments::int_of;
use crate::text_ends::{behind, count, front};
use eng_value::{Blob, OperandText, Out, Spelling, Text, Value};
use std::alloc::{AllocError, Global};

/// The part of X from the place Y on, Z characters long: substr(X,Y) and substr(X,Y,Z) (Built-in Scalar SQL Functions). Of a
/// blob places count bytes, and of anything else the characters of the text that it is cast to. Time is linear in X, and only
/// the part is copied.
pub(crate) fn substr(alloc: Global, args: &[Value]) -> Result<Out, AllocError>
    ensures { IfOk result (λ out. out ≡ given (substr_of args.now)) }
{
    match args {
        [x, y] => substr_by(alloc, x, int_of(y), None),
        [x, y, z, ..] => substr_by(alloc, x, int_of(y), Some(int_of(z))),
        _ => Ok(Out::Good(Value::Null)),
    }
}

fn substr_by(
    alloc: Global,
    value: &Value,
    start: i64,
    wanted: Option<i64>,
) -> Result<Out, AllocError>
    ensures { IfOk result (λ out. out ≡ given (substr_by value.now start wanted)) }
{
    match value {
        Value::Blob(blob) => part_of_blob(alloc, blob.as_slice(), start, wanted),
        _ => match OperandText::of_value(alloc, value)? {
            OperandText::Good(text) => part_of_spelling(alloc, &text, start, wanted),
            OperandText::Bad(causes) => Ok(Out::Bad(causes)),
        },
    }
}

fn part_of_spelling(
    alloc: Global,
    text: &Spelling<'_>,
    start: i64,
    wanted: Option<i64>,
) -> Result<Out, AllocError>
    ensures { IfOk result (λ out. out ≡ on_bytes (λ t. Good (text_of_chars (substr_in start wanted (chars t)))) (value_of text.now)) }
{
    match text.as_str() {
        Some(text) => part_of_text(alloc, text, start, wanted),
        None => Ok(Out::Good(Value::Null)),
    }
}

fn part_of_blob(
    alloc: Global,
    bytes: &[u8],
    start: i64,
    wanted: Option<i64>,
) -> Result<Out, AllocError>
    ensures { IfOk result (λ out. out ≡ Good (sql.Blob (substr_in start wanted bytes.now))) }
{
    let part = part_of(bytes.len(), start, wanted);
    let found = bytes_between(bytes, part.start, part.end);
    Ok(Out::Good(Value::Blob(Blob::from_slice(alloc, found)?)))
}

fn part_of_text(
    alloc: Global,
    text: &str,
    start: i64,
    wanted: Option<i64>,
) -> Result<Out, AllocError>
    ensures { IfOk result (λ out. out ≡ Good (text_of_chars (substr_in start wanted (chars text.now)))) }
{
    let part = part_of(count(text), start, wanted);
    let found = chars_between(text, part.start, part.end);
    Ok(Out::Good(Value::Text(Text::from_str(alloc, found)?)))
}

fn bytes_between(bytes: &[u8], start: usize, end: usize) -> &[u8]
    requires { end ≤ length bytes.now }
    ensures { result.now ≡ between start end bytes.now }
{
    if start < end { &bytes[start..end] } else { &[] }
}

#[tactic(auto, using(crate::proofs::TextLaws::spelled))]
fn chars_between(text: &str, start: usize, end: usize) -> &str
    ensures { result.now ≡ encode_utf8_all (between start end (chars text.now)) }
{
    front(behind(text, start), end.saturating_sub(start))
}

// Where a part begins and where it ends, in elements from 0 on, neither behind the end.
#[derive(Clone, Copy)]
struct Part {
    start: usize,
    end: usize,
}

// Places count from 1, and from the end where the start is negative. Without a length the part goes to the end, and a negative
// length takes what stands in front of the start.
fn part_of(len: usize, start: i64, wanted: Option<i64>) -> Part
    requires { len < 2 ^ 63 }
    ensures part { (xs : List ℕ) → length xs ≡ len → substr_in start wanted xs ≡ between result.start result.end xs }
    ensures within { (result.start ≤ len) × (result.end ≤ len) }
{
    let from = start_of(len, start);
    match wanted {
        None => within(from, len as i128 + 1, len),
        Some(n) => part_of_length(len, from, n),
    }
}

fn part_of_length(len: usize, from: i128, wanted: i64) -> Part
    requires { IsNearby from }
    ensures part { (xs : List ℕ) → length xs ≡ len → substr_from from wanted xs ≡ between result.start result.end xs }
    ensures within { (result.start ≤ len) × (result.end ≤ len) }
{
    if wanted < 0 {
        within(from + wanted as i128, from, len)
    } else {
        within(from, from + wanted as i128, len)
    }
}

// A negative place counts from the end.
fn start_of(len: usize, place: i64) -> i128
    requires { len < 2 ^ 63 }
    ensures start { result ≡ start_of len place }
    ensures nearby { IsNearby result }
{
    if place < 0 {
        len as i128 + place as i128 + 1
    } else {
        place as i128
    }
}

// What stands in the places from the first to in front of the last.
fn within(from: i128, to: i128, len: usize) -> Part
    ensures start { result.start ≡ min (in_front from) len }
    ensures end { result.end ≡ min (in_front to) len }
{
    Part {
        start: in_front(from, len),
        end: in_front(to, len),
    }
}

// How many of so many elements stand in front of a place.
fn in_front(place: i128, len: usize) -> usize
    ensures { result ≡ min (in_front place) len }
{
    if place < 1 {
        0
    } else if place > len as i128 {
        len
    } else {
        (place - 1) as usize
    }
}
