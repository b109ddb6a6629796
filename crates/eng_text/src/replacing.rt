// One text for another within a text.
ghost use Rattle.std.specs.Prelude.{◌++◌, ◌<◌, ◌≤◌, length, IfOk, string_bytes};
ghost use Rattle.std.specs.Option.{option_map};
ghost use Rattle.eng_text.specs.Replacing.{IsAroundFirst, IsPut};
ghost use Rattle.eng_text.specs.Texts.{replaced, IsWithin};

use std::alloc::{AllocError, Global};

/// The text with `new` for each `old`, from the left (Built-In Scalar SQL Functions, "replace"). Nothing is replaced where `old` is
/// empty. None exactly where the result is longer than `limit` bytes; it is then not made beyond them. Only memory can fail.
pub fn replace(
    alloc: Global,
    text: &str,
    old: &str,
    new: &str,
    limit: usize,
) -> Result<Option<String>, AllocError>
    ensures { IfOk result (λ made. IsWithin limit (replaced old.now new.now text.now) (option_map string_bytes made)) }
{
    if old.is_empty() {
        return with_rest(String::new(alloc), text, limit);
    }
    let mut made = String::new(alloc);
    let mut rest = text;
    while let Some((before, behind)) = around_first(rest, old) {
        if !push_both(&mut made, before, new, limit)? {
            return Ok(None);
        }
        rest = behind;
    }
    with_rest(made, rest, limit)
}

// The text in front of the first `old`, and the text behind it.
fn around_first<'t>(text: &'t str, old: &str) -> Option<(&'t str, &'t str)>
    requires { 0 < length old.now }
    ensures { IsAroundFirst old.now text.now (option_map (λ parts. (parts.0.now, parts.1.now)) result) }
{
    text.split_once(old)
}

// What was made, and the rest of the text.
fn with_rest(mut made: String, rest: &str, limit: usize) -> Result<Option<String>, AllocError>
    requires { length (string_bytes made) ≤ limit }
    ensures { IfOk result (λ all. IsWithin limit (string_bytes made ++ rest.now) (option_map string_bytes all)) }
{
    if push(&mut made, rest, limit)? {
        Ok(Some(made))
    } else {
        Ok(None)
    }
}

// Puts two pieces behind what was made. It says whether all that has at most `limit` bytes.
fn push_both(made: &mut String, first: &str, second: &str, limit: usize) -> Result<bool, AllocError>
    requires { length (string_bytes made.old) ≤ limit }
    ensures { IfOk result (IsPut limit (string_bytes made.old ++ first.now ++ second.now) (string_bytes made.new)) }
{
    if push(made, first, limit)? {
        push(made, second, limit)
    } else {
        Ok(false)
    }
}

// Puts a piece behind what was made, where all that has at most `limit` bytes. It says whether it has.
fn push(made: &mut String, piece: &str, limit: usize) -> Result<bool, AllocError>
    requires { length (string_bytes made.old) ≤ limit }
    ensures { IfOk result (IsPut limit (string_bytes made.old ++ piece.now) (string_bytes made.new)) }
{
    if limit - made.len() < piece.len() {
        return Ok(false);
    }
    made.push_str(piece)?;
    Ok(true)
}
