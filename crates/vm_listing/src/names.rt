// The names of opcodes.
ghost use Rattle.std.specs.Prelude.{◌≡◌, ℕ};
ghost use Rattle.vm_listing.specs.Listing.{line_of};

use crate::words::{binary_name, unary_name};
use vm_code::Op;

/// The name of an instruction's opcode.
pub(crate) fn opcode(op: &Op) -> &'static str
    ensures { (base : ℕ) → result.now ≡ (line_of base op.now).name }
{
    match op {
        Op::Goto { .. } => "Goto",
        Op::If { .. } => "If",
        Op::IfNot { .. } => "IfNot",
        Op::IsNull { .. } => "IsNull",
        Op::NotNull { .. } => "NotNull",
        Op::IsBad { .. } => "IsBad",
        Op::Halt => "Halt",
        Op::HaltBad { .. } => "HaltBad",
        Op::Call { .. } => "Call",
        Op::Ret { .. } => "Ret",
        Op::Argument { .. } => "Argument",
        Op::ResultRow { .. } => "ResultRow",
        Op::Null { .. } => "Null",
        Op::Integer { .. } => "Integer",
        Op::String8 { .. } => "String8",
        Op::Blob { .. } => "Blob",
        Op::Bad { .. } => "Bad",
        Op::Variable { .. } => "Variable",
        Op::Copy { .. } => "Copy",
        Op::Affinity { .. } => "Affinity",
        Op::Beside { .. } => "Beside",
        Op::MustBeInt { .. } => "MustBeInt",
        Op::Unary { operator, .. } => unary_name(*operator),
        Op::Binary { operator, .. } => binary_name(*operator),
        Op::LikeEscaped { .. } => "Function",
        Op::Function { .. } => "Function",
        Op::Merge { .. } => "Merge",
        Op::OpenRead { .. } => "OpenRead",
        Op::OpenWrite { .. } => "OpenWrite",
        Op::RowOf { .. } => "RowOf",
        Op::Close { .. } => "Close",
        Op::CloseFrom { .. } => "CloseFrom",
        Op::Rewind { .. } => "Rewind",
        Op::Next { .. } => "Next",
        Op::Search { .. } => "Search",
        Op::SeekRowid { .. } => "SeekRowid",
        Op::SorterOpen { .. } => "SorterOpen",
        Op::SorterInsert { .. } => "SorterInsert",
        Op::SorterSort { .. } => "SorterSort",
        Op::SorterData { .. } => "SorterData",
        Op::SorterNext { .. } => "SorterNext",
        Op::Column { .. } => "Column",
        Op::Rowid { .. } => "Rowid",
        Op::NotExists { .. } => "NotExists",
        Op::NoConflict { .. } => "NoConflict",
        Op::NewRowid { .. } => "NewRowid",
        Op::Insert { .. } => "Insert",
        Op::BuildIndex { .. } => "BuildIndex",
        Op::Schema { .. } => "Schema",
    }
}
