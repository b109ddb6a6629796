// The arguments of a row.
ghost use Rattle.std.specs.Prelude.{◌≡◌, IfOk, MatchOption, false, true};
ghost use Rattle.eng_aggr.specs.Aggregates.{argument, is_known, separator};
ghost use Rattle.eng_value.specs.Casts.{to_text};
ghost use Rattle.eng_value.specs.OperandTexts.{out_of};

use eng_value::{OperandText, Spelling, Value};
use std::alloc::{AllocError, Global};

/// The argument that is aggregated, none where it is NULL.
pub(crate) fn known(args: &[Value]) -> Option<&Value>
    ensures { MatchOption result (is_known args.now ≡ false) (λ value. (is_known args.now ≡ true) × (value.now ≡ argument args.now)) }
{
    match args {
        [] | [Value::Null, ..] => None,
        [value, ..] => Some(value),
    }
}

/// The text that stands in front of that of the row: a comma where none is written.
pub(crate) fn separator(alloc: Global, args: &[Value]) -> Result<OperandText<'_>, AllocError>
    ensures { IfOk result (λ text. out_of text ≡ to_text (separator args.now)) }
{
    match args {
        [_, written, ..] => OperandText::of_value(alloc, written),
        _ => Ok(OperandText::Good(Spelling::Lent(","))),
    }
}
