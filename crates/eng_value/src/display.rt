// How `{}` writes texts, values and causes.
ghost use Rattle.std.specs.Prelude.{◌≡◌, ◌<◌, Some};
ghost use Rattle.std.specs.Fmt.{DisplaysOnOk};
ghost use Rattle.eng_value.specs.Functions.{hex_digit, hex_of_bytes};
ghost use Rattle.eng_value.specs.Shown.{said, shown};

use crate::cause::transaction_words;
use crate::{Cause, Text, Value};
use std::{fmt, str};

impl fmt::Display for Text {
    ghost output = { λ text. Some text };

    fn fmt<W: fmt::Write>(&self, f: &mut fmt::Formatter<W>) -> fmt::Result {
        f.write_str(self.as_str())
    }
}

/// NULL is written as nothing, a text as it is, and a blob as `X'..'` with its bytes in hexadecimal digits.
impl fmt::Display for Value {
    ghost output = { λ value. Some (shown value) };

    fn fmt<W: fmt::Write>(&self, f: &mut fmt::Formatter<W>) -> fmt::Result {
        match self {
            Value::Null => Ok(()),
            Value::Integer(n) => write!(f, "{n}"),
            Value::Text(text) => f.write_str(text.as_str()),
            Value::Blob(blob) => write!(f, "X'{}'", Hexadecimal(blob.as_slice())),
        }
    }
}

// Bytes in hexadecimal digits.
#[derive(Clone, Copy)]
struct Hexadecimal<'b>(&'b [u8]);

impl fmt::Display for Hexadecimal<'_> {
    ghost output = { λ bytes. Some (hex_of_bytes bytes.0.now) };

    fn fmt<W: fmt::Write>(&self, f: &mut fmt::Formatter<W>) -> fmt::Result {
        for byte in self.0 {
            let digits = [hex_digit(*byte / 16), hex_digit(*byte % 16)];
            f.write_str(str::from_utf8(&digits).map_err(|_| fmt::Error)?)?;
        }
        Ok(())
    }
}

// The digit of a number below 16, with letters in upper case.
fn hex_digit(number: u8) -> u8
    requires { number < 16 }
    ensures { result ≡ hex_digit number }
{
    if number < 10 {
        b'0' + number
    } else {
        b'A' + (number - 10)
    }
}

/// The text of a cause; that the sink failed has one here alone.
impl fmt::Display for Cause {
    ghost output = { λ cause. Some (said cause) };

    fn fmt<W: fmt::Write>(&self, f: &mut fmt::Formatter<W>) -> fmt::Result {
        match self {
            Cause::NotYet => f.write_str("not built yet"),
            Cause::Mem => f.write_str("out of memory"),
            Cause::Interrupted(n) => write!(f, "interrupted after {n} instructions"),
            Cause::SinkFault => f.write_str("the sink of the rows failed"),
            Cause::Real => f.write_str("REAL is not supported"),
            Cause::Overflow => f.write_str("integer overflow"),
            Cause::NotText => f.write_str("blob is not text"),
            Cause::Escape => f.write_str("ESCAPE must be one character"),
            Cause::TooBig => f.write_str("value longer than 1000000 bytes"),
            Cause::Full(table) => write!(f, "table is full: {table}"),
            Cause::Unknown(kind, name) => write!(f, "no such {}: {name}", kind.word()),
            Cause::Exists(kind, name) => write!(f, "{} already exists: {name}", kind.word()),
            Cause::Reserved(name) => write!(f, "reserved name: {name}"),
            Cause::Arity(name) => write!(f, "wrong number of values: {name}"),
            Cause::Misuse(name) => write!(f, "misuse of: {name}"),
            Cause::Limit(kind) => write!(f, "limit of {}", kind.words()),
            Cause::Syntax(at) => write!(f, "syntax error at byte {at}"),
            Cause::Skip => Ok(()),
            Cause::Ambiguous(name) => write!(f, "ambiguous column name: {name}"),
            Cause::BareColumn(name) => write!(f, "column outside aggregate: {name}"),
            Cause::Fault(host) => write!(f, "fault of {host}"),
            Cause::Denied(action) => write!(f, "denied: action {action}"),
            Cause::Constraint(kind, table) => {
                write!(f, "{} constraint failed: {table}", kind.words())
            }
            Cause::Mismatch => f.write_str("datatype mismatch"),
            Cause::HostRefused(text) => f.write_str(text.as_str()),
            Cause::ModuleRefused(text) => f.write_str(text.as_str()),
            Cause::TriggerDepth(most) => write!(f, "trigger depth over {most}"),
            Cause::TransactionState(inside) => f.write_str(transaction_words(*inside)),
            Cause::NoPlan(module) => write!(f, "missing argument of {module}"),
            Cause::BestIndex(module) => write!(f, "bad index answer of {module}"),
            Cause::Locked(table, number) => {
                write!(f, "table {table} is read by statement {number}")
            }
            Cause::Raise(text) => f.write_str(text.as_str()),
            Cause::CommitRefused => f.write_str("commit refused by hook"),
            Cause::NotQuery => f.write_str("not a query"),
            Cause::NoSuchStatement(number) => write!(f, "no statement {number}"),
            Cause::StatementsFull => f.write_str("sixteen statements are open"),
        }
    }
}
