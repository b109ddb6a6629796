// The texts of a group, one behind the other.
ghost use Rattle.std.specs.Prelude.{◌≡◌, ◌+◌, ◌≤◌, ◌++◌, if◌then◌else◌, length, nat_lt, IfOk, OnErr, OnOk, string_bytes, string_len};
ghost use Rattle.eng_aggr.specs.Accumulators.{appended, are_texts, joined_out, joined_with, text_or_too_big};
ghost use Rattle.eng_aggr.specs.Aggregates.{is_text, separator, text_of};
ghost use Rattle.eng_aggr.specs.declared.joining.Joined.TheVariants as joined;
ghost use Rattle.eng_value.specs.declared.limits.TheConstants.{MAX_VALUE_BYTES};

use crate::arguments::separator;
use eng_value::{Cause, MAX_VALUE_BYTES, OperandText, Out, Text, Value};
use std::alloc::{AllocError, Global};
use std::mem;

/// The texts so far. That one of them is no text is not taken back by what comes behind it, and that they are too long only by what is
/// no text.
#[derive(Drop)]
pub(crate) enum Joined {
    Nothing,
    Text(Text),
    TooBig,
    NotText,
}

impl Joined {
    /// One row more, whose argument is this value and not NULL: its separator, unless it is the first, and its text.
    pub(crate) fn add(
        &mut self,
        alloc: Global,
        args: &[Value],
        value: &Value,
    ) -> Result<(), AllocError>
        ensures joined { OnOk result (self.new ≡ joined_with (separator args.now) value.now self.old) }
        ensures kept { OnErr result (self.new ≡ self.old) }
    {
        match self {
            Joined::NotText => Ok(()),
            Joined::Nothing => {
                *self = first_text(alloc, value)?;
                Ok(())
            }
            Joined::Text(_) | Joined::TooBig => self.go_on(alloc, args, value),
        }
    }

    fn go_on(&mut self, alloc: Global, args: &[Value], value: &Value) -> Result<(), AllocError>
        ensures joined { OnOk result (self.new ≡ (if are_texts (separator args.now) value.now then appended (text_of (separator args.now)) (text_of value.now) self.old else joined.NotText)) }
        ensures kept { OnErr result (self.new ≡ self.old) }
    {
        let separator = separator(alloc, args)?;
        let text = OperandText::of_value(alloc, value)?;
        match (separator, text) {
            (OperandText::Good(separator), OperandText::Good(text)) => {
                self.append(alloc, separator.or_empty(), text.or_empty())
            }
            _ => {
                *self = Joined::NotText;
                Ok(())
            }
        }
    }

    fn append(&mut self, alloc: Global, separator: &str, more: &str) -> Result<(), AllocError>
        ensures appended { OnOk result (self.new ≡ appended separator.now more.now self.old) }
        ensures kept { OnErr result (self.new ≡ self.old) }
    {
        let Joined::Text(text) = self else {
            return Ok(());
        };
        if is_too_big(text, separator, more) {
            *self = Joined::TooBig;
            return Ok(());
        }
        append(alloc, text, separator, more)
    }

    /// The text, NULL of nothing.
    pub(crate) fn into_out(self, alloc: Global) -> Out
        ensures { result ≡ joined_out self }
    {
        match self {
            Joined::Nothing => Out::Good(Value::Null),
            Joined::Text(text) => Out::Good(Value::Text(text)),
            Joined::TooBig => Out::bad(alloc, Cause::TooBig),
            Joined::NotText => Out::bad(alloc, Cause::NotText),
        }
    }
}

// The text of the first row.
fn first_text(alloc: Global, value: &Value) -> Result<Joined, AllocError>
    ensures { IfOk result (λ text. text ≡ (if is_text value.now then text_or_too_big (text_of value.now) else joined.NotText)) }
{
    match OperandText::of_value(alloc, value)? {
        OperandText::Good(text) => text_or_too_big(alloc, text.or_empty()),
        OperandText::Bad(_) => Ok(Joined::NotText),
    }
}

fn text_or_too_big(alloc: Global, text: &str) -> Result<Joined, AllocError>
    ensures { IfOk result (λ made. made ≡ text_or_too_big text.now) }
{
    if text.len() > MAX_VALUE_BYTES {
        return Ok(Joined::TooBig);
    }
    Ok(Joined::Text(Text::from_str(alloc, text)?))
}

fn is_too_big(text: &Text, separator: &str, more: &str) -> bool
    ensures { result ≡ nat_lt MAX_VALUE_BYTES (length (text.now ++ separator.now ++ more.now)) }
{
    let added = separator.len().saturating_add(more.len());
    text.as_str().len().saturating_add(added) > MAX_VALUE_BYTES
}

// Puts both behind the text, in its own memory where that is enough.
fn append(alloc: Global, text: &mut Text, separator: &str, more: &str) -> Result<(), AllocError>
    requires { length (text.old ++ separator.now ++ more.now) ≤ MAX_VALUE_BYTES }
    ensures appended { OnOk result (text.new ≡ text.old ++ separator.now ++ more.now) }
    ensures kept { OnErr result (text.new ≡ text.old) }
{
    let mut string = mem::replace(text, Text::new(String::new(alloc))).into_string();
    let appended = push_both(&mut string, separator, more);
    *text = Text::new(string);
    appended
}

fn push_both(string: &mut String, separator: &str, more: &str) -> Result<(), AllocError>
    requires { string_len string.old + (length separator.now + length more.now) ≤ MAX_VALUE_BYTES }
    ensures pushed { OnOk result (string_bytes string.new ≡ string_bytes string.old ++ separator.now ++ more.now) }
    ensures kept { OnErr result (string_bytes string.new ≡ string_bytes string.old) }
{
    string.reserve(separator.len() + more.len())?;
    string.push_str(separator)?;
    string.push_str(more)
}
