// Constants as literals.
ghost use Rattle.std.specs.Prelude.{◌≡◌, ◌<◌, IfOk, length, take};
ghost use Rattle.vm_listing.specs.Pieces.{blob_literal, constant, front, literal, shortened, text_literal};

use crate::pieces::text_of;
use eng_value::{Blob, Out, Text, Value};
use std::alloc::{AllocError, Global};

/// How many bytes of a text or a blob are shown.
const SHOWN: usize = 40;

/// The front of a text with as many bytes as this at most, which ends between two characters.
fn front(text: &str, most: usize) -> &str
    requires { most < length text.now }
    ensures { result.now ≡ front text.now most }
{
    &text[..text.floor_char_boundary(most)]
}

fn shortened(text: &str) -> &str
    ensures { result.now ≡ shortened text.now }
{
    if text.len() <= SHOWN {
        text
    } else {
        front(text, SHOWN)
    }
}

pub(crate) fn text_literal(alloc: Global, text: &str) -> Result<Text, AllocError>
    ensures { IfOk result (λ shown. shown ≡ text_literal text.now) }
{
    text_of(alloc, &["'", shortened(text), "'"])
}

/// The first bytes, as many as this at most.
fn first_bytes(bytes: &[u8], most: usize) -> &[u8]
    ensures { result.now ≡ take most bytes.now }
{
    if bytes.len() < most {
        bytes
    } else {
        &bytes[..most]
    }
}

pub(crate) fn blob_literal(alloc: Global, blob: &[u8]) -> Result<Text, AllocError>
    ensures { IfOk result (λ shown. shown ≡ blob_literal blob.now) }
{
    let value = Value::Blob(Blob::from_slice(alloc, first_bytes(blob, SHOWN))?);
    Ok(Text::new(value.to_string(alloc)?))
}

fn literal(alloc: Global, value: &Value) -> Result<Text, AllocError>
    ensures { IfOk result (λ shown. shown ≡ literal value.now) }
{
    match value {
        Value::Null => Text::from_str(alloc, "NULL"),
        Value::Integer(n) => Text::of_integer(alloc, *n),
        Value::Text(text) => text_literal(alloc, text.as_str()),
        Value::Blob(blob) => blob_literal(alloc, blob.as_slice()),
    }
}

pub(crate) fn constant(alloc: Global, out: &Out) -> Result<Text, AllocError>
    ensures { IfOk result (λ shown. shown ≡ constant out.now) }
{
    match out {
        Out::Good(value) => literal(alloc, value),
        Out::Bad(_) => Text::from_str(alloc, "bad"),
    }
}
