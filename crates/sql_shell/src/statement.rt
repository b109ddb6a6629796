// Running one statement over a connection.
ghost use Rattle.std.specs.Prelude.{◌≡◌, ◌≤◌, ◌+◌, ◌-◌, [], false, IfOk, IfErr};
ghost use Rattle.sql_meaning.specs.Named.{TextIsTold};
ghost use Rattle.sql_meaning.specs.Script.{is_bad_character};
ghost use Rattle.sql_meaning.specs.Work.{instruction_bound};
ghost use Rattle.sql_meaning.specs.World.{context};
ghost use Rattle.sql_shell.specs.Running.{CameTo};
ghost use Rattle.sql_shell.specs.Taken.{rows_of};
ghost use Rattle.vm_core.specs.Meant.{meant};

use crate::given::{Given, refused};
use crate::printed_rows::PrintedRows;
use crate::stop::Stop;
use eng_value::{Meanings, Steps};
use engine::{Connection, Hosts};
use std::alloc::Global;
use std::sync::ledger::Ledger;

/// Runs the statement of a text.
pub(crate) fn run_text<M: Meanings, L: Ledger>(
    alloc: Global,
    hosts: &mut Hosts,
    connection: &mut Connection,
    text: &str,
    steps: &mut Steps<L>,
) -> Result<Given, Stop>
    requires told { meant (λ b. verdicts (b.vtable, b.value)) hosts.old ≡ M.hosts }
    ensures came { IfOk result (λ g. CameTo M.hosts connection.old.budget connection.old.state text.now
        (rows_of g.rows) g.failure (steps.new - steps.old) connection.new.state) }
    ensures characters { IfOk result (λ g. is_bad_character g.failure ≡ false) }
    ensures memory { IfErr result (λ stop. stop ≡ Stop.Memory) }
    ensures budget { connection.new.budget ≡ connection.old.budget }
    ensures ticks { steps.old ≤ steps.new }
    ensures within { steps.new ≤ steps.old + connection.old.budget }
    ensures bound { TextIsTold (context M.hosts connection.old.state []) text.now
        → steps.new ≤ steps.old + instruction_bound (context M.hosts connection.old.state []) text.now }
    ensures hosts { meant (λ b. verdicts (b.vtable, b.value)) hosts.new ≡ M.hosts }
{
    let mut rows = PrintedRows::new(alloc);
    match connection.run(alloc, hosts, text, &[], &mut rows, steps) {
        Ok(_) => rows.into_given(None),
        Err(refusal) => refused(rows, refusal.cause),
    }
}
