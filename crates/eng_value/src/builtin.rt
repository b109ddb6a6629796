/// The built-in functions of values (Built-in Scalar SQL Functions). In an expression coalesce, ifnull and iif do not look past
/// the argument that decides.
#[derive(Clone, Copy, PartialEq, Eq)]
pub enum Builtin {
    Abs,
    Char,
    Coalesce,
    IfNull,
    Iif,
    Hex,
    Instr,
    Length,
    Lower,
    Upper,
    Trim,
    TrimLeft,
    TrimRight,
    Max,
    Min,
    NullIf,
    Quote,
    Replace,
    Substr,
    TypeOf,
    Unicode,
    ZeroBlob,
}
