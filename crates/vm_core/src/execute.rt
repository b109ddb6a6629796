// One instruction.
ghost use Rattle.std.specs.Prelude.{◌≡◌, ◌+◌, ◌^◌, ◌<◌, [], Some, IfOk};
ghost use Rattle.vm_code.specs.Machine.{act, cursor_at, cursor_rows, drawn, setting, step, world_of};
ghost use Rattle.eng_value.specs.HostMeanings.{Oracle, no_hosts};
ghost use Rattle.eng_value.specs.StoredRows.{next_rowid};
ghost use Rattle.vm_core.specs.Events.{ActsAs, ActsOver};
ghost use Rattle.vm_core.specs.declared.event.Event.TheVariants as event_is;
ghost use Rattle.vm_core.specs.declared.pace.Pace.TheVariants as pace_is;

use crate::Event;
use crate::jumping::Test;
use crate::pace::Pace;
use crate::running::Running;
use eng_value::{Cause, Causes, Row, Text};
use std::alloc::{AllocError, Global};
use vm_code::{Op, Program};
use vm_tables::Tables;

/// Runs the instruction that comes next. Where the run stops or pauses for an event, that is left in `event`.
pub(crate) fn instruction(
    running: &mut Running,
    alloc: Global,
    program: &Program,
    params: &Row,
    tables: &mut Tables,
    event: &mut Event,
) -> Pace
    ensures leads { (ask : Oracle) → ActsAs result event.new running.old tables.old.world running.new tables.new.world (step (setting no_hosts ask params.now program.now)) }
    ensures marks { tables.new.marks ≡ tables.old.marks }
{
    match running.op(program) {
        None => stop_at_end(event),
        Some(op) => match execute(running, alloc, program, params, op, tables, event) {
            Ok(pace) => pace,
            Err(_) => pause_for_memory(event),
        },
    }
}

/// Leaves word that the run is at its end. This and the next are functions of their own, so that no instruction pays for the room of an
/// event.
#[inline(never)]
fn stop_at_end(event: &mut Event) -> Pace
    ensures event { event.new ≡ event_is.Done }
    ensures pace { result ≡ pace_is.Stopping }
{
    *event = Event::Done;
    Pace::Stopping
}

/// Leaves word that memory was wanting.
#[inline(never)]
fn pause_for_memory(event: &mut Event) -> Pace
    ensures event { event.new ≡ event_is.Mem }
    ensures pace { result ≡ pace_is.Pausing }
{
    *event = Event::Mem;
    Pace::Pausing
}

/// Runs an instruction, by an arm each. An arm is one call that answers in its place, so that no instruction pays for the locals of
/// another.
fn execute(
    running: &mut Running,
    alloc: Global,
    program: &Program,
    params: &Row,
    op: &Op,
    tables: &mut Tables,
    event: &mut Event,
) -> Result<Pace, AllocError>
    requires { running.old.pc + 1 < 2 ^ 64 }
    ensures leads { (ask : Oracle) → ActsOver result event.new running.old tables.old.world running.new tables.new.world (act (setting no_hosts ask params.now program.now) (Some op.now)) }
    ensures marks { tables.new.marks ≡ tables.old.marks }
{
    match op {
        Op::Goto { target } => running.go_to(*target),
        Op::If {
            register,
            target,
            on_null,
        } => running.jump_where(alloc, Test::True(*on_null), *register, *target),
        Op::IfNot {
            register,
            target,
            on_null,
        } => running.jump_where(alloc, Test::False(*on_null), *register, *target),
        Op::IsNull { register, target } => running.jump_where(
            alloc,
            Test::Null,
            *register,
            *target,
        ),
        Op::NotNull { register, target } => running.jump_where(
            alloc,
            Test::Known,
            *register,
            *target,
        ),
        Op::IsBad { register, target } => running.jump_where(alloc, Test::Bad, *register, *target),
        Op::Halt => running.finish(event),
        Op::HaltBad { register } => running.halt(*register, event),
        Op::Call {
            unit,
            first,
            count,
            to,
        } => running.call(alloc, program, *unit, *first, *count, *to),
        Op::Ret { first, count } => running.ret(*first, *count, event),
        Op::Argument { number, to } => running.put_argument(*number, *to),
        Op::ResultRow { first, count } => running.give(alloc, *first, *count, event),
        Op::Null { to } => running.put_null(*to),
        Op::Integer { value, to } => running.put_integer(*value, *to),
        Op::String8 { text, to } => running.put_text(alloc, text, *to),
        Op::Blob { blob, to } => running.put_blob(blob, *to),
        Op::Bad { cause, to } => running.put_bad(alloc, cause, *to),
        Op::Variable { number, to } => running.put_parameter(alloc, params, *number, *to),
        Op::Copy { from, to } => running.put_copy(*from, *to),
        Op::Affinity { register, affinity } => running.store_as(alloc, *register, *affinity),
        Op::Beside {
            register,
            other,
            own,
        } => running.compare_as(alloc, *register, *other, *own),
        Op::MustBeInt { register } => running.must_be_int(alloc, *register, event),
        Op::Unary {
            operator,
            operand,
            to,
        } => running.put_unary(alloc, params, tables, *operator, operand, *to),
        Op::Binary {
            operator,
            left,
            right,
            to,
        } => running.put_binary(alloc, params, tables, operator, left, right, *to),
        Op::LikeEscaped {
            text,
            pattern,
            escape,
            to,
        } => running.put_like_escaped(alloc, params, tables, text, pattern, escape, *to),
        Op::Function {
            function: name,
            collation,
            args,
            to,
        } => running.put_call(
            alloc,
            params,
            tables,
            *name,
            *collation,
            args.as_slice(),
            *to,
        ),
        Op::Merge { from, to } => running.put_merged(*from, *to),
        Op::OpenRead { cursor, table } => running.open(*cursor, *table),
        Op::OpenWrite { cursor, table } => running.open(*cursor, *table),
        Op::RowOf {
            cursor,
            rowid,
            first,
            count,
        } => running.stand_on(alloc, *cursor, *rowid, *first, *count),
        Op::Close { cursor } => running.close(*cursor),
        Op::CloseFrom { cursor } => running.close_from(*cursor),
        Op::Rewind { cursor, target } => running.jump_where_empty(tables, *cursor, *target),
        Op::Next { cursor, target } => running.jump_where_next(tables, *cursor, *target),
        Op::Search {
            cursor,
            terms,
            bounds,
            first,
            target,
        } => running.search(
            alloc,
            tables,
            *cursor,
            terms.as_slice(),
            *bounds,
            *first,
            *target,
        ),
        Op::SeekRowid { cursor, rowid } => running.seek_rowid(tables, *cursor, *rowid),
        Op::SorterOpen { cursor } => running.open_sorter(alloc, *cursor),
        Op::SorterInsert { first, count } => running.insert_sorted(alloc, *first, *count),
        Op::SorterSort {
            cursor,
            terms,
            target,
        } => running.sort(alloc, *cursor, terms.as_slice(), *target),
        Op::SorterData {
            cursor,
            first,
            count,
        } => running.put_sorted(*cursor, *first, *count),
        Op::SorterNext { cursor, target } => running.jump_where_sorted(*cursor, *target),
        Op::Column { cursor, column, to } => running.put_column(
            alloc, tables, *cursor, *column, *to,
        ),
        Op::Rowid { cursor, to } => running.put_rowid(tables, *cursor, *to),
        Op::NotExists {
            cursor,
            rowid,
            target,
        } => running.jump_where_missing(tables, *cursor, *rowid, *target),
        Op::NoConflict {
            cursor,
            rowid,
            first,
            count,
            keys,
            target,
        } => running.jump_without_conflict(
            alloc,
            tables,
            *cursor,
            *rowid,
            *first,
            *count,
            keys.as_slice(),
            *target,
        ),
        Op::NewRowid { cursor, to, table } => new_rowid(
            running, alloc, tables, *cursor, *to, table, event,
        ),
        Op::Insert {
            cursor,
            rowid,
            first,
            count,
        } => running.insert_registers(alloc, tables, *cursor, *rowid, *first, *count),
        Op::BuildIndex {
            cursor,
            terms,
            unique,
        } => running.build_index(alloc, tables, *cursor, terms.as_slice(), unique, event),
        Op::Schema { change } => running.change_schema(alloc, tables, *change),
    }
}

/// Writes the rowid behind the last of a cursor's table into a register, or gives up, naming the table.
#[inline(never)]
fn new_rowid(
    running: &mut Running,
    alloc: Global,
    tables: &Tables,
    cursor: u32,
    to: u32,
    table: &Text,
    event: &mut Event,
) -> Result<Pace, AllocError>
    requires { running.old.pc + 1 < 2 ^ 64 }
    ensures { ActsOver result event.new running.old tables.now.world running.new tables.now.world
        (λ s. drawn s to table.now (next_rowid (cursor_rows (world_of s.shared) (cursor_at s.scene.cursors cursor)))) }
{
    match running.next_rowid(tables, cursor) {
        None => {
            let cause = Cause::Full(table.clone()?);
            running.give_up(Causes::one(alloc, cause), event)
        }
        Some(rowid) => running.put_integer(rowid, to),
    }
}
