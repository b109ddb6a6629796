// A call of a built-in function.
ghost use Rattle.std.specs.Prelude.{◌≡◌, List, [], ℕ, IfOk};
ghost use Rattle.eng_value.specs.Functions.{call_of, given, instr_of, on_two};
ghost use Rattle.eng_scalar.specs.Arguments.{IsFirst};

use crate::arguments::any_null;
use crate::characters::{OfText, char_text, length, on_text};
use crate::choosing::{first_known, iif};
use crate::extremes::{Extreme, best, unless_equal};
use crate::numbers::abs;
use crate::parts::substr;
use crate::places::instr;
use crate::replacing::replace;
use crate::spelling::{hex, quote, type_of, zeroblob};
use crate::trimming::trim;
use eng_value::{Blob, Builtin, Out, Text, Value};
use std::alloc::{AllocError, Global};

/// What a built-in function gives for some arguments (Built-in Scalar SQL Functions). `keys` are the arguments' sort keys, by which
/// max, min and nullif compare. Where there are fewer arguments than it wants, it is NULL. Other than in SQLite U+0000 is a
/// character like any other, a blob that is not UTF-8 is NotText where a text is wanted, and what would be a REAL is Real. A
/// result of more than `MAX_VALUE_BYTES` bytes is TooBig, and is not made. Only memory can fail.
pub fn call(alloc: Global, f: Builtin, args: &[Value], keys: &[Blob]) -> Result<Out, AllocError>
    ensures { IfOk result (λ out. out ≡ call_of f args.now keys.now) }
{
    match args {
        [] => call_of_none(alloc, f),
        [first, ..] => call_of_some(alloc, f, first, args, keys),
    }
}

// With no argument.
#[tactic(auto, unfolding(eng_value::specs::Functions::call_of, eng_value::specs::Functions::kind_of))]
fn call_of_none(alloc: Global, f: Builtin) -> Result<Out, AllocError>
    ensures { IfOk result (λ out. (keys : List (List ℕ)) → out ≡ call_of f [] keys) }
{
    match f {
        Builtin::Char => Ok(Out::Good(Value::Text(Text::from_str(alloc, "")?))),
        _ => Ok(Out::Good(Value::Null)),
    }
}

#[tactic(auto, unfolding(eng_value::specs::Functions::call_of, eng_value::specs::Functions::kind_of))]
fn call_of_some(
    alloc: Global,
    f: Builtin,
    first: &Value,
    args: &[Value],
    keys: &[Blob],
) -> Result<Out, AllocError>
    requires { IsFirst first.now args.now }
    ensures { IfOk result (λ out. out ≡ call_of f args.now keys.now) }
{
    match (f, any_null(args)) {
        (Builtin::Abs, _) => Ok(abs(alloc, first)),
        (Builtin::Char, _) => char_text(alloc, args),
        (Builtin::Coalesce | Builtin::IfNull, _) => first_known(args),
        (Builtin::Hex, _) => hex(alloc, first),
        (Builtin::Iif, _) => iif(alloc, args),
        (Builtin::Length, _) => length(alloc, first),
        (Builtin::NullIf, _) => unless_equal(args, keys),
        (Builtin::Quote, _) => quote(alloc, first),
        (Builtin::TypeOf, _) => type_of(alloc, first),
        (Builtin::ZeroBlob, _) => zeroblob(alloc, first),
        (Builtin::Lower | Builtin::Unicode | Builtin::Upper, _) => {
            on_text(alloc, OfText::Function(f), first)
        }
        (_, true) => Ok(Out::Good(Value::Null)),
        (Builtin::Max, false) => best(Extreme::Largest, args, keys),
        (Builtin::Min, false) => best(Extreme::Smallest, args, keys),
        (Builtin::Instr, false) => place(alloc, args),
        (Builtin::Trim | Builtin::TrimLeft | Builtin::TrimRight, false) => trim(alloc, f, args),
        (Builtin::Replace, false) => replace(alloc, args),
        (Builtin::Substr, false) => substr(alloc, args),
    }
}

fn place(alloc: Global, args: &[Value]) -> Result<Out, AllocError>
    ensures { IfOk result (λ out. out ≡ given (on_two instr_of args.now)) }
{
    match args {
        [x, y, ..] => instr(alloc, x, y),
        _ => Ok(Out::Good(Value::Null)),
    }
}
