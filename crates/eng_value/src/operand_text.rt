// The texts of operands and arguments.
ghost use Rattle.std.specs.Prelude.{◌≡◌, IfOk, MatchOption};
ghost use Rattle.eng_value.specs.Casts.{to_text};
ghost use Rattle.eng_value.specs.Functions.{bytes_of};
ghost use Rattle.eng_value.specs.OperandTexts.{applied, out_of, value_of};
ghost use Rattle.eng_value.specs.Outs.{on_both, turned};
ghost use Rattle.eng_value.specs.declared.out.Out.{Out};
ghost use Rattle.eng_value.specs.declared.value.Value.{Value};
ghost use Rattle.eng_value.specs.declared.value.Value.TheVariants as sql;

use crate::{Blob, Cause, Causes, Out, Text, Value};
use std::alloc::{AllocError, Global};
use std::str;

/// The text of a value: lent by the value that holds it, or made for its reader alone.
pub enum Spelling<'v> {
    Null,
    Lent(&'v str),
    Made(Text),
}

/// The text of an operand or an argument, or the causes why there is none.
#[derive(Drop)]
pub enum OperandText<'v> {
    Good(Spelling<'v>),
    Bad(Causes),
}

/// The texts of two, or the causes of all that are bad.
#[derive(Drop)]
pub enum BothTexts<'v> {
    Good(Spelling<'v>, Spelling<'v>),
    Bad(Causes),
}

impl<'v> OperandText<'v> {
    /// What an operand came to, as CAST to TEXT makes it.
    pub fn of(alloc: Global, operand: &'v Out) -> Result<OperandText<'v>, AllocError>
        ensures { IfOk result (λ text. out_of text ≡ turned to_text operand.now) }
    {
        match operand {
            Out::Good(value) => OperandText::of_value(alloc, value),
            Out::Bad(causes) => Ok(OperandText::Bad(causes.clone()?)),
        }
    }

    /// A value as CAST to TEXT makes it (SQL Language Expressions, section 9): a text and a blob in UTF-8 are lent, and an integer's
    /// digits are made.
    pub fn of_value(alloc: Global, value: &'v Value) -> Result<OperandText<'v>, AllocError>
        ensures { IfOk result (λ text. out_of text ≡ to_text value.now) }
    {
        match value {
            Value::Null => Ok(OperandText::Good(Spelling::Null)),
            Value::Integer(n) => Ok(OperandText::Good(Spelling::Made(Text::of_integer(
                alloc, *n,
            )?))),
            Value::Text(text) => Ok(OperandText::Good(Spelling::Lent(text.as_str()))),
            Value::Blob(blob) => Ok(OperandText::of_blob(alloc, blob)),
        }
    }

    fn of_blob(alloc: Global, blob: &'v Blob) -> OperandText<'v>
        ensures { out_of result ≡ to_text (sql.Blob blob.now) }
    {
        match str::from_utf8(blob.as_slice()) {
            Ok(text) => OperandText::Good(Spelling::Lent(text)),
            Err(_) => OperandText::Bad(Causes::one(alloc, Cause::NotText)),
        }
    }
}

impl<'v> BothTexts<'v> {
    /// What two operands came to, as CAST to TEXT makes them.
    pub fn of(alloc: Global, a: &'v Out, b: &'v Out) -> Result<BothTexts<'v>, AllocError>
        ensures { IfOk result (λ both. (f : Value → Value → Out) → applied f both ≡ on_both f (turned to_text a.now) (turned to_text b.now)) }
    {
        BothTexts::both(OperandText::of(alloc, a)?, OperandText::of(alloc, b)?)
    }

    /// Two values as CAST to TEXT makes them.
    pub fn of_values(alloc: Global, a: &'v Value, b: &'v Value) -> Result<BothTexts<'v>, AllocError>
        ensures { IfOk result (λ both. (f : Value → Value → Out) → applied f both ≡ on_both f (to_text a.now) (to_text b.now)) }
    {
        BothTexts::both(
            OperandText::of_value(alloc, a)?,
            OperandText::of_value(alloc, b)?,
        )
    }

    fn both(a: OperandText<'v>, b: OperandText<'v>) -> Result<BothTexts<'v>, AllocError>
        ensures { IfOk result (λ both. (f : Value → Value → Out) → applied f both ≡ on_both f (out_of a.entry) (out_of b.entry)) }
    {
        match (a, b) {
            (OperandText::Good(a), OperandText::Good(b)) => Ok(BothTexts::Good(a, b)),
            (OperandText::Good(_), OperandText::Bad(causes)) => Ok(BothTexts::Bad(causes)),
            (OperandText::Bad(causes), OperandText::Good(_)) => Ok(BothTexts::Bad(causes)),
            (OperandText::Bad(c), OperandText::Bad(d)) => Ok(BothTexts::Bad(c.union(&d)?)),
        }
    }
}

impl<'v> Spelling<'v> {
    /// The text, none for NULL.
    pub fn as_str(&self) -> Option<&str>
        ensures { MatchOption result (value_of self.now ≡ sql.Null) (λ text. value_of self.now ≡ sql.Text text.now) }
    {
        match self {
            Spelling::Null => None,
            Spelling::Lent(text) => Some(text),
            Spelling::Made(text) => Some(text.as_str()),
        }
    }

    /// The text, which is empty for NULL.
    pub fn or_empty(&self) -> &str
        ensures { result.now ≡ bytes_of (value_of self.now) }
    {
        match self {
            Spelling::Null => "",
            Spelling::Lent(text) => text,
            Spelling::Made(text) => text.as_str(),
        }
    }
}

// By hand, so that what drops a spelling calls this, and no proof goes through its variants again.
impl Drop for Spelling<'_> {
    fn drop(self) {
        match self {
            Spelling::Null => {}
            Spelling::Lent(_) => {}
            Spelling::Made(text) => drop(text),
        }
    }
}
