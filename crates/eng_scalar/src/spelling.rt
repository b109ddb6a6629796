// How values are spelled, and blobs of zeros.
ghost use Rattle.std.specs.Prelude.{◌≡◌, ◌≤◌, ◌++◌, IfOk, codes, length, replicate, string_bytes};
ghost use Rattle.std.specs.Fmt.{signed_decimal};
ghost use Rattle.std.specs.Option.{option_map};
ghost use Rattle.eng_text.specs.Texts.{IsWithin};
ghost use Rattle.eng_value.specs.Functions.{bytes_of, doubled, given, hex_of, hex_of_bytes, quoted, type_name, zeroblob_of};
ghost use Rattle.eng_value.specs.Operators.{made};
ghost use Rattle.eng_value.specs.declared.out.Out.TheVariants.{Good};
ghost use Rattle.eng_value.specs.declared.value.Value.TheVariants as sql;

use crate::arguments::int_of;
use eng_text::replace;
use eng_value::{Blob, Cause, MAX_VALUE_BYTES, Out, Text, Value};
use itoa::Buffer;
use std::alloc::{AllocError, Global};

/// The bytes of an argument in hexadecimal digits, with letters in upper case (Built-in Scalar SQL Functions, "hex"). Of NULL it
/// is the empty text.
pub(crate) fn hex(alloc: Global, value: &Value) -> Result<Out, AllocError>
    ensures { IfOk result (λ out. out ≡ given (hex_of value.now)) }
{
    match value {
        Value::Null => hex_of_bytes(alloc, b""),
        Value::Integer(n) => hex_of_bytes(alloc, Buffer::new().format(*n).as_bytes()),
        Value::Text(text) => hex_of_bytes(alloc, text.as_bytes()),
        Value::Blob(blob) => hex_of_bytes(alloc, blob.as_slice()),
    }
}

fn hex_of_bytes(alloc: Global, bytes: &[u8]) -> Result<Out, AllocError>
    ensures { IfOk result (λ out. out ≡ made (sql.Text (hex_of_bytes bytes.now))) }
{
    if bytes.len() > MAX_VALUE_BYTES / 2 {
        Ok(Out::bad(alloc, Cause::TooBig))
    } else {
        Ok(Out::Good(Value::Text(Text::new(hex_text(alloc, bytes)?))))
    }
}

fn hex_text(alloc: Global, bytes: &[u8]) -> Result<String, AllocError>
    ensures { IfOk result (λ text. string_bytes text ≡ hex_of_bytes bytes.now) }
{
    hex::encode_upper(alloc, bytes)
}

/// The literal that spells a value (Built-in Scalar SQL Functions, "quote").
pub(crate) fn quote(alloc: Global, value: &Value) -> Result<Out, AllocError>
    ensures { IfOk result (λ out. out ≡ made (sql.Text (quoted value.now))) }
{
    match value {
        Value::Null => good_text(alloc, "NULL"),
        Value::Integer(n) => good_text(alloc, Buffer::new().format(*n)),
        Value::Text(text) => quote_text(alloc, text.as_str()),
        Value::Blob(blob) => quote_bytes(alloc, blob.as_slice()),
    }
}

fn good_text(alloc: Global, text: &str) -> Result<Out, AllocError>
    ensures { IfOk result (λ out. out ≡ Good (sql.Text text.now)) }
{
    Ok(Out::Good(Value::Text(Text::from_str(alloc, text)?)))
}

fn quote_text(alloc: Global, text: &str) -> Result<Out, AllocError>
    ensures { IfOk result (λ out. out ≡ made (sql.Text (codes "'" ++ doubled text.now ++ codes "'"))) }
{
    match doubled(alloc, text, MAX_VALUE_BYTES - 2)? {
        Some(doubled) => between(alloc, "'", &doubled),
        None => Ok(Out::bad(alloc, Cause::TooBig)),
    }
}

fn doubled(alloc: Global, text: &str, limit: usize) -> Result<Option<String>, AllocError>
    ensures { IfOk result (λ made. IsWithin limit (doubled text.now) (option_map string_bytes made)) }
{
    replace(alloc, text, "'", "''", limit)
}

fn quote_bytes(alloc: Global, bytes: &[u8]) -> Result<Out, AllocError>
    ensures { IfOk result (λ out. out ≡ made (sql.Text (codes "X'" ++ hex_of_bytes bytes.now ++ codes "'"))) }
{
    if bytes.len() > (MAX_VALUE_BYTES - 3) / 2 {
        Ok(Out::bad(alloc, Cause::TooBig))
    } else {
        between(alloc, "X'", &hex_text(alloc, bytes)?)
    }
}

// A text between what opens it and a quote.
fn between(alloc: Global, front: &str, text: &str) -> Result<Out, AllocError>
    ensures { IfOk result (λ out. out ≡ Good (sql.Text (front.now ++ text.now ++ codes "'"))) }
{
    let mut made = String::from_str(alloc, front)?;
    made.push_str(text)?;
    made.push_str("'")?;
    Ok(Out::Good(Value::Text(Text::new(made))))
}

/// The name of the storage class (Built-in Scalar SQL Functions, "typeof"). There is no REAL.
pub(crate) fn type_of(alloc: Global, value: &Value) -> Result<Out, AllocError>
    ensures { IfOk result (λ out. out ≡ Good (sql.Text (type_name value.now))) }
{
    match value {
        Value::Null => good_text(alloc, "null"),
        Value::Integer(_) => good_text(alloc, "integer"),
        Value::Text(_) => good_text(alloc, "text"),
        Value::Blob(_) => good_text(alloc, "blob"),
    }
}

/// A blob of so many zeros, none where the number is negative (Built-in Scalar SQL Functions, "zeroblob").
pub(crate) fn zeroblob(alloc: Global, value: &Value) -> Result<Out, AllocError>
    ensures { IfOk result (λ out. out ≡ given (zeroblob_of value.now)) }
{
    let n = int_of(value);
    if n < 0 {
        return Ok(Out::Good(Value::Blob(Blob::new(Vec::new(alloc)))));
    }
    zeros(alloc, n as usize)
}

fn zeros(alloc: Global, n: usize) -> Result<Out, AllocError>
    ensures { IfOk result (λ out. out ≡ made (sql.Blob (replicate n 0))) }
{
    if n > MAX_VALUE_BYTES {
        Ok(Out::bad(alloc, Cause::TooBig))
    } else {
        Ok(Out::Good(Value::Blob(Blob::new(vec![in alloc; 0; n]?))))
    }
}
