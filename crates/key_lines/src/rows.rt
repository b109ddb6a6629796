// The rows of the table, and how they are compared.
use eng_key::{KeyPart, key};
use eng_value::{Blob, Built, Text, Value};
use hex::FromHexError;
use std::alloc::{AllocError, Global};

/// The parts that these words name.
pub(crate) fn parts_of(alloc: Global, words: &str) -> Result<Vec<KeyPart>, AllocError> {
    let mut parts = Vec::new(alloc);
    for word in words.split_whitespace() {
        parts.push(part_of(word))?;
    }
    Ok(parts)
}

fn part_of(word: &str) -> KeyPart {
    KeyPart {
        coll: collation_of(word),
        host: None,
        desc: word.contains(",desc"),
        nulls_first: !word.contains(",nulls_last"),
    }
}

fn collation_of(word: &str) -> Built {
    if word.starts_with("nocase") {
        return Built::NoCase;
    }
    if word.starts_with("rtrim") {
        return Built::Rtrim;
    }
    Built::Binary
}

/// The key of the row that these words name.
pub(crate) fn key_of(alloc: Global, words: &str, parts: &[KeyPart]) -> Result<Blob, AllocError> {
    let mut row = Vec::new(alloc);
    for word in words.split_whitespace() {
        row.push(value_of(alloc, word)?)?;
    }
    key(alloc, &row, parts)
}

fn value_of(alloc: Global, word: &str) -> Result<Value, AllocError> {
    if word == "null" {
        return Ok(Value::Null);
    }
    if let Some(digits) = word.strip_prefix("text:") {
        return text_of(alloc, digits);
    }
    if let Some(digits) = word.strip_prefix("blob:") {
        return Ok(Value::Blob(Blob::new(bytes_of(alloc, digits)?)));
    }
    match word.parse::<i64>() {
        Ok(n) => Ok(Value::Integer(n)),
        Err(_) => Ok(Value::Text(Text::from_str(alloc, word)?)),
    }
}

/// The text of these bytes, and NULL where they are no text.
fn text_of(alloc: Global, digits: &str) -> Result<Value, AllocError> {
    match String::from_utf8(bytes_of(alloc, digits)?) {
        Ok(text) => Ok(Value::Text(Text::new(text))),
        Err(_) => Ok(Value::Null),
    }
}

fn bytes_of(alloc: Global, digits: &str) -> Result<Vec<u8>, AllocError> {
    match hex::decode(alloc, digits) {
        Ok(bytes) => Ok(bytes),
        Err(FromHexError::OutOfMemory) => Err(AllocError),
        Err(_) => Ok(Vec::new(alloc)),
    }
}
