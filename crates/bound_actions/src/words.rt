// The names by which functions are told.
ghost use Rattle.std.specs.Prelude.{◌≡◌};
ghost use Rattle.bound_actions.specs.Words.{aggregate_word, builtin_word};

use bound_tree::AggregateKind;
use eng_value::Builtin;

pub(crate) fn builtin_word(builtin: Builtin) -> &'static str
    ensures { result.now ≡ builtin_word builtin }
{
    match builtin {
        Builtin::Abs => "abs",
        Builtin::Char => "char",
        Builtin::Coalesce => "coalesce",
        Builtin::IfNull => "ifnull",
        Builtin::Iif => "iif",
        Builtin::Hex => "hex",
        Builtin::Instr => "instr",
        Builtin::Length => "length",
        Builtin::Lower => "lower",
        Builtin::Upper => "upper",
        Builtin::Trim => "trim",
        Builtin::TrimLeft => "ltrim",
        Builtin::TrimRight => "rtrim",
        Builtin::Max => "max",
        Builtin::Min => "min",
        Builtin::NullIf => "nullif",
        Builtin::Quote => "quote",
        Builtin::Replace => "replace",
        Builtin::Substr => "substr",
        Builtin::TypeOf => "typeof",
        Builtin::Unicode => "unicode",
        Builtin::ZeroBlob => "zeroblob",
    }
}

pub(crate) fn aggregate_word(kind: &AggregateKind) -> &str
    ensures { result.now ≡ aggregate_word kind.now }
{
    match kind {
        AggregateKind::CountRows => "count",
        AggregateKind::Count => "count",
        AggregateKind::Sum => "sum",
        AggregateKind::Min => "min",
        AggregateKind::Max => "max",
        AggregateKind::GroupConcat => "group_concat",
        AggregateKind::HostAggregate(name) => name.as_str(),
    }
}
