// The execution of programs, by causes.
ghost use Rattle.std.specs.Prelude.{◌≡◌, ◌≤◌, ◌+◌, ◌-◌, ℕ, OnErr};
ghost use Rattle.eng_value.specs.HostMeanings.{Oracle};
ghost use Rattle.engine.specs.Executing.{ExecutesAs, NamesStop};
ghost use Rattle.host_traits.specs.Faults.{Rose};
ghost use Rattle.vm_code.specs.Accepted.{IsAccepted};
ghost use Rattle.vm_code.specs.Honesty.{ProgramIsTold};
ghost use Rattle.vm_code.specs.Machine.{Ending, Ends, Shared, setting, start};
ghost use Rattle.vm_core.specs.Meant.{meant};

use crate::row_sink::RowSink;
use crate::running::{Completed, Stop, run_program};
use eng_value::{Cause, Meanings, Steps, Value};
use std::alloc::Global;
use std::sync::ledger::Ledger;
use vm_code::Program;
use vm_core::Hosts;
use vm_tables::Tables;

/// The cause of a stop; of several any one.
fn cause_of(stop: Stop) -> Cause
    ensures { NamesStop stop result }
{
    match stop {
        Stop::Bad(causes) => causes.into_first(),
        Stop::Interrupted(instructions) => Cause::Interrupted(instructions),
        Stop::SinkFault => Cause::SinkFault,
        Stop::Mem => Cause::Mem,
    }
}

/// Runs a program that keeps the rules, with the cause where it does not come to its end. The tables are then as before.
pub(crate) fn execute<M: Meanings, R: RowSink, L: Ledger>(
    alloc: Global,
    program: Program,
    params: &[Value],
    last_rowid: i64,
    tables: &mut Tables,
    hosts: &mut Hosts,
    budget: u64,
    rows: &mut R,
    steps: &mut Steps<L>,
) -> Result<Completed, Cause>
    requires accepted { IsAccepted program }
    requires told { meant (λ b. verdicts (b.vtable, b.value)) hosts.old ≡ M.hosts }
    ensures runs { ProgramIsTold M.hosts program → (ask : Oracle) (most : ℕ) (e : Ending) (x : Shared) →
        Ends (setting M.hosts ask params.now program) most (start program tables.old.world last_rowid) e x →
        ExecutesAs e x most budget (steps.new - steps.old) tables.new.world (R.taken rows.old) (R.taken rows.new)
        (Rose (R.fault_count rows.old) (R.fault_count rows.new)) result }
    ensures kept { OnErr result (tables.new.world ≡ tables.old.world) }
    ensures marks { tables.new.marks ≡ tables.old.marks }
    ensures told { meant (λ b. verdicts (b.vtable, b.value)) hosts.new ≡ M.hosts }
    ensures ticks { steps.old ≤ steps.new }
    ensures within { steps.new ≤ steps.old + budget }
    ensures faults { R.fault_count rows.old ≤ R.fault_count rows.new }
{
    match run_program::<M, R, L>(
        alloc, program, params, last_rowid, tables, hosts, budget, rows, steps,
    ) {
        Ok(completed) => Ok(completed),
        Err(stop) => Err(cause_of(stop)),
    }
}
