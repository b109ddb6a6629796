// Running a script's parts, one after another.
ghost use Rattle.std.specs.Prelude.{◌≡◌, ◌≤◌, ◌&&◌, ◌||◌, ◌∷◌, [], Some, IfOk, IsErrOf, OnOk, true};
ghost use Rattle.std.specs.Io.KnownBytes.{Appends};
ghost use Rattle.host_traits.specs.Faults.{Rose};
ghost use Rattle.sql_meaning.specs.Due.{CutShort, IsScript};
ghost use Rattle.sql_meaning.specs.Parts.{looked_at, parts_from, parts_of, runs_pending};
ghost use Rattle.sql_meaning.specs.Parts as part;
ghost use Rattle.sql_meaning.specs.Script.{error_line};
ghost use Rattle.sql_meaning.specs.World.{State, new_state};
ghost use Rattle.sql_shell.specs.Courses.{ended_in, failed_in, status_in};
ghost use Rattle.sql_shell.specs.Cuts.{part_list};
ghost use Rattle.sql_shell.specs.Running.{Ran, RanPartly};
ghost use Rattle.vm_core.specs.Meant.{meant};

use crate::characters::whole_characters;
use crate::course::Course;
use crate::cutting::{Part, cut};
use crate::dot_lines::run_dot_line;
use crate::printing::{print_failure, print_given};
use crate::statement::run_text;
use crate::stop::Stop;
use crate::writing::write_all;
use eng_value::{MAX_SCRIPT_BYTES, Meanings, Steps};
use engine::{Connection, Hosts, JoinOrder};
use host_traits::Sink;
use sql_meaning::{Ending, Failure, Options};
use std::alloc::Global;
use std::sync::ledger::Ledger;

/// Runs a statement and writes its lines whole. It says whether there is an error line.
fn run_statement<M: Meanings, K: Sink, L: Ledger>(
    alloc: Global,
    hosts: &mut Hosts,
    connection: &mut Connection,
    options: Options,
    text: &str,
    steps: &mut Steps<L>,
    out: &mut K,
) -> Result<bool, Stop>
    requires told { meant (λ b. verdicts (b.vtable, b.value)) hosts.old ≡ M.hosts }
    requires budget { connection.old.budget ≡ options.budget }
    ensures ran { IfOk result (λ failed.
        Ran M.hosts options connection.old.state connection.new.state (part.Statement text.now ∷ [])
        (K.written out.old) (K.written out.new) steps.old steps.new failed (options.bail && failed)) }
    ensures part { RanPartly M.hosts options connection.old.state (part.Statement text.now ∷ [])
        (K.written out.old) (K.written out.new) steps.old steps.new }
    ensures fault { IsErrOf result Stop.SinkFault → Rose (K.fault_count out.old) (K.fault_count out.new) }
    ensures later { K.fault_count out.old ≤ K.fault_count out.new }
    ensures budget { connection.new.budget ≡ connection.old.budget }
    ensures ticks { steps.old ≤ steps.new }
    ensures hosts { meant (λ b. verdicts (b.vtable, b.value)) hosts.new ≡ M.hosts }
{
    let given = run_text::<M, L>(alloc, hosts, connection, text, steps)?;
    let printed = print_given(given)?;
    write_all(out, &printed.lines)?;
    Ok(printed.has_failed)
}

/// Writes an error line.
fn write_failure<K: Sink>(alloc: Global, failure: &Failure, out: &mut K) -> Result<(), Stop>
    ensures ok { OnOk result (Appends (K.written out.old) (K.written out.new) (error_line failure.now)) }
    ensures part { CutShort (K.written out.old) (K.written out.new) (error_line failure.now) }
    ensures fault { IsErrOf result Stop.SinkFault → Rose (K.fault_count out.old) (K.fault_count out.new) }
    ensures later { K.fault_count out.old ≤ K.fault_count out.new }
{
    let mut line = Vec::new(alloc);
    print_failure(failure, &mut line)?;
    write_all(out, &line)?;
    Ok(())
}

/// Writes the error line of a character that is not whole UTF-8, which begins at a place.
fn write_bad_place<K: Sink>(alloc: Global, place: usize, out: &mut K) -> Result<(), Stop>
    ensures ok { OnOk result (Appends (K.written out.old) (K.written out.new) (error_line (Failure.NotUtf8 place))) }
    ensures part { CutShort (K.written out.old) (K.written out.new) (error_line (Failure.NotUtf8 place)) }
    ensures fault { IsErrOf result Stop.SinkFault → Rose (K.fault_count out.old) (K.fault_count out.new) }
    ensures later { K.fault_count out.old ≤ K.fault_count out.new }
{
    write_failure(alloc, &Failure::NotUtf8(place), out)
}

/// Runs a part and writes its lines whole. It says whether there is an error line.
fn run_one<M: Meanings, K: Sink, L: Ledger>(
    alloc: Global,
    hosts: &mut Hosts,
    connection: &mut Connection,
    options: Options,
    part: Part<'_>,
    steps: &mut Steps<L>,
    out: &mut K,
) -> Result<bool, Stop>
    requires told { meant (λ b. verdicts (b.vtable, b.value)) hosts.old ≡ M.hosts }
    requires budget { connection.old.budget ≡ options.budget }
    ensures ran { IfOk result (λ failed.
        Ran M.hosts options connection.old.state connection.new.state (part_list (Some part.entry))
        (K.written out.old) (K.written out.new) steps.old steps.new failed (options.bail && failed)) }
    ensures part { RanPartly M.hosts options connection.old.state (part_list (Some part.entry))
        (K.written out.old) (K.written out.new) steps.old steps.new }
    ensures fault { IsErrOf result Stop.SinkFault → Rose (K.fault_count out.old) (K.fault_count out.new) }
    ensures later { K.fault_count out.old ≤ K.fault_count out.new }
    ensures budget { connection.new.budget ≡ connection.old.budget }
    ensures ticks { steps.old ≤ steps.new }
    ensures hosts { meant (λ b. verdicts (b.vtable, b.value)) hosts.new ≡ M.hosts }
{
    match part {
        Part::Statement(text) => {
            run_statement::<M, K, L>(alloc, hosts, connection, options, text, steps, out)
        }
        Part::DotLine(line) => run_dot_line(alloc, connection, line, out),
    }
}

/// The same of a part, if there is one.
fn run_part<M: Meanings, K: Sink, L: Ledger>(
    alloc: Global,
    hosts: &mut Hosts,
    connection: &mut Connection,
    options: Options,
    part: Option<Part<'_>>,
    steps: &mut Steps<L>,
    out: &mut K,
) -> Result<bool, Stop>
    requires told { meant (λ b. verdicts (b.vtable, b.value)) hosts.old ≡ M.hosts }
    requires budget { connection.old.budget ≡ options.budget }
    ensures ran { IfOk result (λ failed.
        Ran M.hosts options connection.old.state connection.new.state (part_list part.entry)
        (K.written out.old) (K.written out.new) steps.old steps.new failed (options.bail && failed)) }
    ensures part { RanPartly M.hosts options connection.old.state (part_list part.entry)
        (K.written out.old) (K.written out.new) steps.old steps.new }
    ensures fault { IsErrOf result Stop.SinkFault → Rose (K.fault_count out.old) (K.fault_count out.new) }
    ensures later { K.fault_count out.old ≤ K.fault_count out.new }
    ensures budget { connection.new.budget ≡ connection.old.budget }
    ensures ticks { steps.old ≤ steps.new }
    ensures hosts { meant (λ b. verdicts (b.vtable, b.value)) hosts.new ≡ M.hosts }
{
    match part {
        None => Ok(false),
        Some(part) => run_one::<M, K, L>(alloc, hosts, connection, options, part, steps, out),
    }
}

/// Whether the script ends at an error line, if there was one.
fn ends(options: Options, fails: bool) -> bool
    ensures { result ≡ (options.bail && fails) }
{
    options.bail && fails
}

/// Either of the two.
fn either(a: bool, b: bool) -> bool
    ensures { result ≡ (a || b) }
{
    a || b
}

/// Runs the parts of a text, one after another from no tables on, and writes the lines of each whole. What is pending at its end
/// runs only where `pending_runs` says so.
fn run_parts<M: Meanings, K: Sink, L: Ledger>(
    alloc: Global,
    hosts: &mut Hosts,
    options: Options,
    order: JoinOrder,
    text: &str,
    pending_runs: bool,
    steps: &mut Steps<L>,
    out: &mut K,
) -> Result<Course, Stop>
    requires told { meant (λ b. verdicts (b.vtable, b.value)) hosts.old ≡ M.hosts }
    ensures ran { IfOk result (λ course.
        (next : State) × Ran M.hosts options new_state next (parts_from pending_runs true 0 text.now)
        (K.written out.old) (K.written out.new) steps.old steps.new (failed_in course) (ended_in course)) }
    ensures part { RanPartly M.hosts options new_state (parts_from pending_runs true 0 text.now)
        (K.written out.old) (K.written out.new) steps.old steps.new }
    ensures fault { IsErrOf result Stop.SinkFault → Rose (K.fault_count out.old) (K.fault_count out.new) }
    ensures later { K.fault_count out.old ≤ K.fault_count out.new }
    ensures ticks { steps.old ≤ steps.new }
    ensures hosts { meant (λ b. verdicts (b.vtable, b.value)) hosts.new ≡ M.hosts }
{
    let mut connection = Connection::new(alloc, options.budget);
    connection.set_join_order(order);
    let mut failed = false;
    let mut rest = text;
    let mut is_fresh = true;
    while !rest.is_empty() {
        let front = cut(rest, is_fresh, pending_runs);
        let fails = run_part::<M, K, L>(
            alloc,
            hosts,
            &mut connection,
            options,
            front.part,
            steps,
            out,
        )?;
        if ends(options, fails) {
            return Ok(Course::Ended);
        }
        failed = either(failed, fails);
        rest = front.rest;
        is_fresh = front.is_fresh;
    }
    Ok(Course::at_end(failed))
}

/// The bytes of a script that are looked at: not the one past the limit.
fn looked_at(bytes: &[u8], ending: Ending) -> &[u8]
    ensures { result.now ≡ looked_at ending bytes.now }
{
    match ending {
        Ending::End | Ending::ReadFault => bytes,
        Ending::TooLong => &bytes[..MAX_SCRIPT_BYTES.min(bytes.len())],
    }
}

/// Whether what is pending at the end of a script's characters runs: at the end of a script in which no character is bad.
fn runs_pending(ending: Ending, bad: Option<usize>) -> bool
    ensures { result ≡ runs_pending ending bad }
{
    match ending {
        Ending::End => bad.is_none(),
        Ending::ReadFault | Ending::TooLong => false,
    }
}

/// Runs the script of these bytes with this ending, whose joins are in this order. A character that is not whole UTF-8 ends it.
pub(crate) fn run_script<M: Meanings, K: Sink, L: Ledger>(
    alloc: Global,
    hosts: &mut Hosts,
    options: Options,
    order: JoinOrder,
    bytes: &[u8],
    ending: Ending,
    steps: &mut Steps<L>,
    out: &mut K,
) -> Result<Course, Stop>
    requires told { meant (λ b. verdicts (b.vtable, b.value)) hosts.old ≡ M.hosts }
    ensures ok { IfOk result (λ course.
        IsScript M.hosts options bytes.now ending (K.written out.old) (K.written out.new) steps.old steps.new (status_in ending course)) }
    ensures part { RanPartly M.hosts options new_state (parts_of bytes.now ending)
        (K.written out.old) (K.written out.new) steps.old steps.new }
    ensures fault { IsErrOf result Stop.SinkFault → Rose (K.fault_count out.old) (K.fault_count out.new) }
    ensures later { K.fault_count out.old ≤ K.fault_count out.new }
    ensures ticks { steps.old ≤ steps.new }
    ensures hosts { meant (λ b. verdicts (b.vtable, b.value)) hosts.new ≡ M.hosts }
{
    let found = whole_characters(looked_at(bytes, ending), ending);
    let runs = runs_pending(ending, found.bad);
    let course = run_parts::<M, K, L>(alloc, hosts, options, order, found.text, runs, steps, out)?;
    if course.has_ended() {
        return Ok(course);
    }
    match found.bad {
        None => Ok(course),
        Some(place) => {
            write_bad_place(alloc, place, out)?;
            Ok(Course::Ended)
        }
    }
}
