// The machine.
ghost use Rattle.std.specs.Prelude.{◌≡◌, ◌+◌, ◌-◌, ◌≤◌, ◌<◌, [], IfOk};
ghost use Rattle.eng_value.specs.HostMeanings.{Oracle};
ghost use Rattle.vm_code.specs.Honesty.{ProgramIsTold};
ghost use Rattle.vm_code.specs.Machine.{setting};
ghost use Rattle.vm_core.specs.Events.{EventIs, NamesBudget, NoneInVain};
ghost use Rattle.vm_core.specs.Meant.{meant};
ghost use Rattle.vm_core.specs.Paused.{at_start, state_of};

use crate::execute::instruction;
use crate::pace::Pace;
use crate::running::Running;
use crate::{Budget, Event, Hosts};
use eng_value::{Meanings, Row, Steps};
use std::alloc::{AllocError, Global};
use std::marker::Model;
use std::sync::ledger::Ledger;
use vm_check::Checked;
use vm_tables::Tables;

/// A program, its parameters, and what its run has come to, between two instructions.
#[derive(Drop)]
pub struct Machine {
    program: Checked,
    params: Row,
    running: Running,
}

impl Model for Machine {
    ghost use Rattle.vm_core.specs.Paused.{Paused, paused};

    ghost Value = { Paused };

    ghost use Rattle.std.specs.Coded.{codes};
    ghost use Rattle.eng_value.specs.contracts.causes.Causes as causes;
    ghost use Rattle.eng_value.specs.contracts.out.Out as out;

    ghost coded = { Prim.hlevel (codes, causes.the_row.coded, out.the_row.coded) };

    ghost view = { λ m. paused m.program m.params m.running };
}

impl Machine {
    /// A machine in front of a program's first instruction, with the values of the parameters 1, 2 and so on, where `last_rowid` is the
    /// rowid of the row that was put last.
    pub fn new(
        alloc: Global,
        program: Checked,
        params: Row,
        last_rowid: i64,
    ) -> Result<Machine, AllocError>
        ensures { IfOk result (λ m. m ≡ at_start program params last_rowid) }
    {
        let running = Running::new(alloc, &program.program().main, last_rowid)?;
        Ok(Machine {
            program,
            params,
            running,
        })
    }

    /// Runs to the next event. Each instruction that was done counts once against the budget and ticks once; where the budget is used
    /// up none is run. Where each host that the program names tells what it means, the event is the one of the machine over lists,
    /// whoever answers what the hosts ask.
    pub fn step<M: Meanings, L: Ledger>(
        &mut self,
        alloc: Global,
        tables: &mut Tables,
        hosts: &mut Hosts,
        budget: &mut Budget,
        steps: &mut Steps<L>,
    ) -> Event
        requires ran { budget.old.ran ≤ budget.old.whole }
        requires told { meant verdicts hosts.old ≡ M.hosts }
        ensures ran { budget.old.ran ≤ budget.new.ran }
        ensures within { budget.new.ran ≤ budget.old.whole }
        ensures whole { budget.new.whole ≡ budget.old.whole }
        ensures counted { steps.new ≡ steps.old + (budget.new.ran - budget.old.ran) }
        ensures program { self.new.prog ≡ self.old.prog }
        ensures params { self.new.params ≡ self.old.params }
        ensures event { ProgramIsTold M.hosts self.old.prog → (ask : Oracle) →
            EventIs (setting M.hosts ask self.old.params self.old.prog) (budget.new.ran - budget.old.ran)
            (state_of self.old tables.old.world []) (state_of self.new tables.new.world) (budget.new.ran ≡ budget.old.whole) result }
        ensures needed { ProgramIsTold M.hosts self.old.prog → (ask : Oracle) →
            NoneInVain (setting M.hosts ask self.old.params self.old.prog) (budget.new.ran - budget.old.ran)
            (state_of self.old tables.old.world []) }
        ensures interrupted { NamesBudget budget.old.whole result }
        ensures marks { tables.new.marks ≡ tables.old.marks }
        ensures told { meant verdicts hosts.new ≡ M.hosts }
    {
        let mut event = Event::Done;
        while budget.ran < budget.whole {
            match instruction(
                &mut self.running,
                alloc,
                self.program.program(),
                &self.params,
                tables,
                &mut event,
            ) {
                Pace::Pausing => return event,
                Pace::Going => count(budget, steps),
                Pace::Stopping => {
                    count(budget, steps);
                    return event;
                }
            }
        }
        Event::Interrupted(budget.whole)
    }

    /// Takes back a row that was given and is done with, so that the next one needs no memory of its own.
    pub fn take_back(&mut self, row: Row)
        ensures { self.new ≡ self.old }
    {
        self.running.take_back(row);
    }

    /// How many rows the run changed.
    pub fn changes(&self) -> u64
        ensures { result ≡ self.now.changes }
    {
        self.running.changes()
    }

    /// The rowid of the row that was put last, by the run or before it.
    pub fn last_rowid(&self) -> i64
        ensures { result ≡ self.now.last_rowid }
    {
        self.running.last_rowid()
    }
}

/// Counts an instruction that was done.
fn count<L: Ledger>(budget: &mut Budget, steps: &mut Steps<L>)
    requires { budget.old.ran < budget.old.whole }
    ensures budget { budget.new ≡ record budget.old { ran = budget.old.ran + 1 } }
    ensures steps { steps.new ≡ steps.old + 1 }
{
    budget.ran += 1;
    steps.tick();
}
