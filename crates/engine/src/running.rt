// Running a program to its end.
ghost use Rattle.std.specs.Prelude.{IfOk, OnErr, ◌≡◌, ◌≤◌, ◌+◌, ◌-◌, ℕ, []};
ghost use Rattle.eng_value.specs.HostMeanings.{Oracle};
ghost use Rattle.engine.specs.Running.{RunsAs};
ghost use Rattle.engine.specs.Stretches.{DriveIs, NextIs, TakesOne};
ghost use Rattle.host_traits.specs.Faults.{Rose};
ghost use Rattle.vm_code.specs.Accepted.{IsAccepted};
ghost use Rattle.vm_code.specs.Honesty.{ProgramIsTold};
ghost use Rattle.vm_code.specs.Machine.{Ending, Ends, Shared, setting, start};
ghost use Rattle.vm_core.specs.Events.{NoneInVain};
ghost use Rattle.vm_core.specs.Meant.{meant};
ghost use Rattle.vm_core.specs.Paused.{at_start, state_of};

use crate::row_sink::{RowSink, Took};
use eng_value::{Causes, Meanings, Row, Steps, Value};
use std::alloc::{AllocError, Global};
use std::sync::ledger::Ledger;
use vm_check::check;
use vm_code::Program;
use vm_core::{Budget, Event, Hosts, Machine};
use vm_tables::Tables;

/// What a program did that ran to its end: how many rows it gave and changed, and the rowid of the last row that was put then.
#[derive(Clone, Copy)]
pub(crate) struct Completed {
    pub(crate) given: u64,
    pub(crate) changed: u64,
    pub(crate) last_rowid: i64,
}

/// Why a program did not run to its end. The tables are as they were in front of it.
#[derive(Drop)]
pub(crate) enum Stop {
    Bad(Causes),
    /// So many instructions were run, and that is the budget.
    Interrupted(u64),
    SinkFault,
    Mem,
}

/// Runs a program that keeps the rules over the tables, hands each row that it gives to the sink, and gives the tables back as they were where it does not
/// come to its end. The rowid is that of the last row that was put before.
pub(crate) fn run_program<M: Meanings, R: RowSink, L: Ledger>(
    alloc: Global,
    program: Program,
    params: &[Value],
    last_rowid: i64,
    tables: &mut Tables,
    hosts: &mut Hosts,
    budget: u64,
    rows: &mut R,
    steps: &mut Steps<L>,
) -> Result<Completed, Stop>
    requires accepted { IsAccepted program }
    requires told { meant (λ b. verdicts (b.vtable, b.value)) hosts.old ≡ M.hosts }
    ensures runs { ProgramIsTold M.hosts program → (ask : Oracle) (most : ℕ) (e : Ending) (x : Shared) →
        Ends (setting M.hosts ask params.now program) most (start program tables.old.world last_rowid) e x →
        RunsAs e x most budget (steps.new - steps.old) tables.new.world (R.taken rows.old) (R.taken rows.new)
        (Rose (R.fault_count rows.old) (R.fault_count rows.new)) result }
    ensures kept { OnErr result (tables.new.world ≡ tables.old.world) }
    ensures marks { tables.new.marks ≡ tables.old.marks }
    ensures told { meant (λ b. verdicts (b.vtable, b.value)) hosts.new ≡ M.hosts }
    ensures ticks { steps.old ≤ steps.new }
    ensures within { steps.new ≤ steps.old + budget }
    ensures faults { R.fault_count rows.old ≤ R.fault_count rows.new }
{
    let mut machine = match machine(alloc, program, params, last_rowid) {
        Ok(machine) => machine,
        Err(_) => return Err(Stop::Mem),
    };
    let Ok(()) = tables.mark() else {
        return Err(Stop::Mem);
    };
    match drive::<M, R, L>(&mut machine, alloc, tables, hosts, budget, rows, steps) {
        Ok(given) => {
            tables.forget();
            Ok(completion(given, &machine))
        }
        Err(stop) => {
            tables.undo();
            Err(stop)
        }
    }
}

/// A machine for a program that keeps the rules, with copies of the parameters.
fn machine(
    alloc: Global,
    program: Program,
    params: &[Value],
    last_rowid: i64,
) -> Result<Machine, AllocError>
    requires { IsAccepted program }
    ensures { IfOk result (λ m. m ≡ at_start program params.now last_rowid) }
{
    let Some(program) = check(program) else {
        unreachable!();
    };
    Machine::new(alloc, program, Row::new(params.to_vec(alloc)?), last_rowid)
}

/// What a machine did that is at its end and gave so many rows.
fn completion(given: u64, machine: &Machine) -> Completed
    ensures given { result.given ≡ given }
    ensures changed { result.changed ≡ machine.now.changes }
    ensures last_rowid { result.last_rowid ≡ machine.now.last_rowid }
{
    Completed {
        given,
        changed: machine.changes(),
        last_rowid: machine.last_rowid(),
    }
}

/// Runs a machine to its end and hands each row over; answers how many rows there were.
fn drive<M: Meanings, R: RowSink, L: Ledger>(
    machine: &mut Machine,
    alloc: Global,
    tables: &mut Tables,
    hosts: &mut Hosts,
    budget: u64,
    rows: &mut R,
    steps: &mut Steps<L>,
) -> Result<u64, Stop>
    requires told { meant (λ b. verdicts (b.vtable, b.value)) hosts.old ≡ M.hosts }
    ensures ticks { steps.old ≤ steps.new }
    ensures within { steps.new ≤ steps.old + budget }
    ensures marks { tables.new.marks ≡ tables.old.marks }
    ensures needed { ProgramIsTold M.hosts machine.old.prog → (ask : Oracle) →
        NoneInVain (setting M.hosts ask machine.old.params machine.old.prog) (steps.new - steps.old) (state_of machine.old tables.old.world []) }
    ensures run { ProgramIsTold M.hosts machine.old.prog → (ask : Oracle) →
        DriveIs (setting M.hosts ask machine.old.params machine.old.prog) (steps.new - steps.old) (state_of machine.old tables.old.world []) (state_of machine.new tables.new.world)
        budget (Rose (R.fault_count rows.old) (R.fault_count rows.new)) (R.taken rows.old) (R.taken rows.new) result }
    ensures told { meant (λ b. verdicts (b.vtable, b.value)) hosts.new ≡ M.hosts }
    ensures faults { R.fault_count rows.old ≤ R.fault_count rows.new }
{
    let mut budget = Budget {
        whole: budget,
        ran: 0,
    };
    let mut given = 0;
    while next::<M, R, L>(machine, alloc, tables, hosts, &mut budget, rows, steps)? {
        given += 1;
    }
    Ok(given)
}

/// Runs a machine to its next row and hands it over; answers `false` where there is none and the machine is at its end.
fn next<M: Meanings, R: RowSink, L: Ledger>(
    machine: &mut Machine,
    alloc: Global,
    tables: &mut Tables,
    hosts: &mut Hosts,
    budget: &mut Budget,
    rows: &mut R,
    steps: &mut Steps<L>,
) -> Result<bool, Stop>
    requires within { budget.old.ran ≤ budget.old.whole }
    requires told { meant (λ b. verdicts (b.vtable, b.value)) hosts.old ≡ M.hosts }
    ensures ran { budget.old.ran ≤ budget.new.ran }
    ensures within { budget.new.ran ≤ budget.old.whole }
    ensures whole { budget.new.whole ≡ budget.old.whole }
    ensures counted { steps.new ≡ steps.old + (budget.new.ran - budget.old.ran) }
    ensures program { machine.new.prog ≡ machine.old.prog }
    ensures params { machine.new.params ≡ machine.old.params }
    ensures marks { tables.new.marks ≡ tables.old.marks }
    ensures needed { ProgramIsTold M.hosts machine.old.prog → (ask : Oracle) →
        NoneInVain (setting M.hosts ask machine.old.params machine.old.prog) (budget.new.ran - budget.old.ran) (state_of machine.old tables.old.world []) }
    ensures next { ProgramIsTold M.hosts machine.old.prog → (ask : Oracle) →
        NextIs (setting M.hosts ask machine.old.params machine.old.prog) (budget.new.ran - budget.old.ran) (state_of machine.old tables.old.world []) (state_of machine.new tables.new.world)
        budget.old.whole budget.new.ran (Rose (R.fault_count rows.old) (R.fault_count rows.new)) (R.taken rows.old) (R.taken rows.new) result }
    ensures told { meant (λ b. verdicts (b.vtable, b.value)) hosts.new ≡ M.hosts }
    ensures faults { R.fault_count rows.old ≤ R.fault_count rows.new }
{
    match machine.step::<M, L>(alloc, tables, hosts, budget, steps) {
        Event::Row(row) => {
            let taken = hand_over(rows, &row);
            machine.take_back(row);
            taken
        }
        Event::Done => Ok(false),
        Event::Bad(causes) => Err(Stop::Bad(causes)),
        Event::Interrupted(ran) => Err(Stop::Interrupted(ran)),
        Event::Mem => Err(Stop::Mem),
    }
}

/// Hands a row to the sink; answers `true` where it was taken.
fn hand_over<R: RowSink>(rows: &mut R, row: &Row) -> Result<bool, Stop>
    ensures row { TakesOne (R.taken rows.old) (R.taken rows.new) (Rose (R.fault_count rows.old) (R.fault_count rows.new)) row.now result }
    ensures faults { R.fault_count rows.old ≤ R.fault_count rows.new }
{
    match rows.row(row) {
        Took::Yes => Ok(true),
        Took::Failed => Err(Stop::SinkFault),
        Took::Mem => Err(Stop::Mem),
    }
}
