// The names of functions.
use eng_value::Builtin;

/// How many arguments a function takes.
#[derive(Clone, Copy, PartialEq, Eq)]
pub enum ArgumentCount {
    Exactly(usize),
    /// From the first number to the second.
    Between(usize, usize),
    AtLeast(usize),
}

/// The names of the built-in functions, and how many arguments each takes (Built-in Scalar SQL Functions). They count without
/// regard to the case of ASCII letters.
pub const BUILTINS: [(&str, Builtin, ArgumentCount); 23] = [
    ("abs", Builtin::Abs, ArgumentCount::Exactly(1)),
    ("char", Builtin::Char, ArgumentCount::AtLeast(1)),
    ("coalesce", Builtin::Coalesce, ArgumentCount::AtLeast(2)),
    ("hex", Builtin::Hex, ArgumentCount::Exactly(1)),
    ("ifnull", Builtin::IfNull, ArgumentCount::Exactly(2)),
    ("iif", Builtin::Iif, ArgumentCount::Exactly(3)),
    ("instr", Builtin::Instr, ArgumentCount::Exactly(2)),
    ("length", Builtin::Length, ArgumentCount::Exactly(1)),
    ("lower", Builtin::Lower, ArgumentCount::Exactly(1)),
    ("ltrim", Builtin::TrimLeft, ArgumentCount::Between(1, 2)),
    ("max", Builtin::Max, ArgumentCount::AtLeast(2)),
    ("min", Builtin::Min, ArgumentCount::AtLeast(2)),
    ("nullif", Builtin::NullIf, ArgumentCount::Exactly(2)),
    ("quote", Builtin::Quote, ArgumentCount::Exactly(1)),
    ("replace", Builtin::Replace, ArgumentCount::Exactly(3)),
    ("rtrim", Builtin::TrimRight, ArgumentCount::Between(1, 2)),
    ("substr", Builtin::Substr, ArgumentCount::Between(2, 3)),
    ("substring", Builtin::Substr, ArgumentCount::Between(2, 3)),
    ("trim", Builtin::Trim, ArgumentCount::Between(1, 2)),
    ("typeof", Builtin::TypeOf, ArgumentCount::Exactly(1)),
    ("unicode", Builtin::Unicode, ArgumentCount::Exactly(1)),
    ("upper", Builtin::Upper, ArgumentCount::Exactly(1)),
    ("zeroblob", Builtin::ZeroBlob, ArgumentCount::Exactly(1)),
];
