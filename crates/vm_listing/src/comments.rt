// The comments of instructions.
ghost use Rattle.std.specs.Prelude.{◌≡◌, IfOk};
ghost use Rattle.vm_listing.specs.Listing.{comment_of};

use crate::moves::{Names, sort, sorter_next};
use crate::numbers::at;
use crate::pieces::{gets, goes, goes_if, number_between, numbered};
use crate::says::{
    about, all_behind, argument, behind, blob, call, copy, integer, merge, or_null, row_of,
    sorter_data, text, variable,
};
use crate::words::function_name;
use eng_value::Text;
use std::alloc::{AllocError, Global};
use vm_code::Op;

/// What an instruction does, for a reader of the listing.
pub(crate) fn comment(names: Names<'_>, base: usize, op: &Op) -> Result<Text, AllocError>
    ensures { IfOk result (λ text. text ≡ comment_of names.entry.tables.now names.entry.code.now base op.now) }
{
    let alloc = names.alloc;
    match op {
        Op::Goto { target } => goes(alloc, base, *target),
        Op::If {
            register,
            target,
            on_null,
        } => goes_if(alloc, "", *register, or_null(*on_null), base, *target),
        Op::IfNot {
            register,
            target,
            on_null,
        } => goes_if(alloc, "not ", *register, or_null(*on_null), base, *target),
        Op::IsNull { register, target } => goes_if(alloc, "", *register, "=NULL", base, *target),
        Op::NotNull { register, target } => goes_if(alloc, "", *register, "!=NULL", base, *target),
        Op::IsBad { register, target } => goes_if(alloc, "", *register, " is bad", base, *target),
        Op::Halt => Text::from_str(alloc, "end"),
        Op::HaltBad { register } => about(alloc, "fail if ", *register, " is bad"),
        Op::Call {
            unit,
            first,
            count,
            to,
        } => call(alloc, *unit, *first, *count, *to),
        Op::Ret { first, count } => all_behind(alloc, "result=", *first, *count),
        Op::Argument { number, to } => argument(alloc, *number, *to),
        Op::ResultRow { first, count } => all_behind(alloc, "output=", *first, *count),
        Op::Null { to } => gets(alloc, *to, "NULL"),
        Op::Integer { value, to } => integer(alloc, *value, *to),
        Op::String8 { text: held, to } => text(alloc, held.as_str(), *to),
        Op::Blob { blob: held, to } => blob(alloc, held.as_slice(), *to),
        Op::Bad { to, .. } => gets(alloc, *to, "bad"),
        Op::Variable { number, to } => variable(alloc, *number, *to),
        Op::Copy { from, to } => copy(alloc, *from, *to),
        Op::Affinity { register, .. } => behind(alloc, "affinity of ", *register),
        Op::Beside { register, .. } => about(alloc, "affinity of ", *register, " to compare"),
        Op::MustBeInt { register } => about(alloc, "fail if ", *register, " is no integer"),
        Op::Unary {
            operator,
            operand,
            to,
        } => names.unary(*operator, operand, *to),
        Op::Binary {
            operator,
            left,
            right,
            to,
        } => names.binary(*operator, left, right, *to),
        Op::LikeEscaped {
            text,
            pattern,
            escape,
            to,
        } => names.like_escaped(text, pattern, escape, *to),
        Op::Function {
            function,
            args,
            to,
            ..
        } => names.function(function_name(*function), args.as_slice(), *to),
        Op::Merge { from, to } => merge(alloc, *from, *to),
        Op::OpenRead { cursor, table } => names.opened(*cursor, *table, ""),
        Op::OpenWrite { cursor, table } => names.opened(*cursor, *table, " for writing"),
        Op::RowOf {
            cursor,
            rowid,
            first,
            count,
        } => row_of(alloc, *cursor, *rowid, *first, *count),
        Op::Close { cursor } => names.says("close ", *cursor),
        Op::CloseFrom { cursor } => numbered(alloc, "close all from c", *cursor),
        Op::Rewind { cursor, target } => names.rewind(*cursor, base, *target),
        Op::Next { cursor, target } => names.next(*cursor, base, *target),
        Op::Search {
            cursor,
            terms,
            bounds,
            first,
            target,
        } => names.search(
            *cursor,
            terms.as_slice(),
            *bounds,
            *first,
            at(base, *target)?,
        ),
        Op::SeekRowid { cursor, rowid } => names.seek(*cursor, *rowid),
        Op::SorterOpen { cursor } => number_between(alloc, "c", *cursor, " on a sorter"),
        Op::SorterInsert { first, count } => all_behind(alloc, "sorter gets ", *first, *count),
        Op::SorterSort {
            cursor,
            terms,
            target,
        } => sort(alloc, *cursor, terms.as_slice(), base, *target),
        Op::SorterData {
            cursor,
            first,
            count,
        } => sorter_data(alloc, *cursor, *first, *count),
        Op::SorterNext { cursor, target } => sorter_next(alloc, *cursor, base, *target),
        Op::Column { cursor, column, to } => names.column(*cursor, *column, *to),
        Op::Rowid { cursor, to } => names.rowid(*cursor, *to),
        Op::NotExists {
            cursor,
            rowid,
            target,
        } => names.missing(*cursor, *rowid, base, *target),
        Op::NoConflict {
            cursor,
            rowid,
            first,
            count,
            target,
            ..
        } => names.fits(*cursor, *rowid, *first, *count, at(base, *target)?),
        Op::NewRowid { cursor, to, .. } => names.new_rowid(*cursor, *to),
        Op::Insert {
            cursor,
            rowid,
            first,
            count,
        } => names.insert(*cursor, *rowid, *first, *count),
        Op::BuildIndex {
            cursor,
            terms,
            unique,
        } => names.index(*cursor, terms.as_slice(), unique),
        Op::Schema { change } => names.schema(*change),
    }
}
