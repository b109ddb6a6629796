// What EXPLAIN shows of a statement (EXPLAIN; EXPLAIN QUERY PLAN).
ghost use Rattle.std.specs.Prelude.{◌≡◌, ◌≤◌, ◌-◌, ℕ, IfErr, IfOk, OnOk, Some};
ghost use Rattle.eng_value.specs.declared.cause.Cause.TheVariants.{Mem};
ghost use Rattle.engine.specs.Connected.{CarriesOut};
ghost use Rattle.engine.specs.Explained.{AreLinesOf, Explaining, GivesReady, ListsReady, PlansBound, PlansReady, ShowsReady, TakesLine, TakesLines, no_loops};
ghost use Rattle.engine.specs.Held.{state_of, world_in};
ghost use Rattle.engine.specs.Outcomes.{outcome_behind};
ghost use Rattle.host_traits.specs.Faults.{Rose};
ghost use Rattle.sql_meaning.specs.Permits.{WhereAsked};
ghost use Rattle.sql_meaning.specs.Statement.{Outcome};
ghost use Rattle.sql_meaning.specs.Valid.{IsWorld};
ghost use Rattle.sql_meaning.specs.World.{State};
ghost use Rattle.vm_core.specs.Meant.{meant};

use crate::answers::Done;
use crate::database::{Database, compiled};
use crate::labels::{item_labels, table_labels};
use crate::planning::query_plan;
use crate::preparing::{Ready, prepare};
use crate::row_sink::{RowSink, Took};
use eng_value::{Cause, Row, Rows};
use plan_lines::plan_lines;
use plan_tree::JoinPlan;
use sql_meaning::BoundSelect;
use sql_tree::Explain;
use sqlite_items::Items;
use std::alloc::Global;
use vm_core::Hosts;
use vm_listing::listing;

/// The lines that show how the statement of a text would be run now, with each parameter NULL. It may stand behind EXPLAIN, which is passed over.
/// Nothing is run.
pub(crate) fn explain_text(
    alloc: Global,
    database: &Database,
    hosts: &mut Hosts,
    how: Explain,
    text: &str,
) -> Result<Rows, Cause>
    requires valid { IsWorld (world_in database.now.schema database.now.tables.world) }
    ensures shows { WhereAsked (meant (λ b. verdicts (b.vtable, b.value)) hosts.old).authorizer (λ asked. Explaining how asked (meant (λ b. verdicts (b.vtable, b.value)) hosts.old)
        (state_of database.now.schema database.now.tables.world database.now.changes database.now.last_rowid) text.now result) }
    ensures hosts { meant (λ b. verdicts (b.vtable, b.value)) hosts.new ≡ meant (λ b. verdicts (b.vtable, b.value)) hosts.old }
{
    database.tables.order();
    let number = database.tables.len();
    match prepare(alloc, hosts, &database.schema, number, text) {
        Ok(prepared) => shown(alloc, database, how, &prepared.ready),
        Err(cause) => Err(cause),
    }
}

/// Shows how a statement would be run: hands the lines to the sink.
pub(crate) fn show<R: RowSink>(
    alloc: Global,
    database: &Database,
    how: Explain,
    ready: &Ready,
    rows: &mut R,
) -> Result<Done, Cause>
    ensures carried { (state : State) (o : Outcome) (budget steps : ℕ) → CarriesOut (outcome_behind (Some how) state o) state state budget 0 (steps - steps)
        (R.taken rows.old) (R.taken rows.new) (Rose (R.fault_count rows.old) (R.fault_count rows.new)) result }
    ensures plan { OnOk result (GivesReady (Some how) ready.now (R.taken rows.old) (R.taken rows.new)) }
    ensures faults { R.fault_count rows.old ≤ R.fault_count rows.new }
{
    match shown(alloc, database, how, ready) {
        Ok(lines) => hand_over(lines.as_slice(), rows),
        Err(cause) => Err(cause),
    }
}

/// The lines of a statement. Only memory can fail.
fn shown(alloc: Global, database: &Database, how: Explain, ready: &Ready) -> Result<Rows, Cause>
    ensures shows { IfOk result (λ lines. ShowsReady how ready.now lines) }
    ensures memory { IfErr result (λ why. why ≡ Mem) }
{
    match how {
        Explain::Instructions => instructions(alloc, database, ready),
        Explain::QueryPlan => plan_of(alloc, database, ready),
    }
}

/// The listing of a statement's program.
fn instructions(alloc: Global, database: &Database, ready: &Ready) -> Result<Rows, Cause>
    ensures shows { IfOk result (λ lines. ListsReady ready.now lines) }
    ensures memory { IfErr result (λ why. why ≡ Mem) }
{
    let Ok(program) = compiled(alloc, ready, &[], &database.tables, database.join_order) else {
        return Err(Cause::Mem);
    };
    let Ok(labels) = table_labels(alloc, &database.schema, database.tables.len()) else {
        return Err(Cause::Mem);
    };
    match listing(alloc, &program, labels.as_slice()) {
        Ok(lines) => Ok(lines),
        Err(_) => Err(Cause::Mem),
    }
}

/// The lines of a statement's plan. One that is neither a query nor a VALUES has none.
fn plan_of(alloc: Global, database: &Database, ready: &Ready) -> Result<Rows, Cause>
    ensures shows { IfOk result (λ lines. PlansReady ready.now lines) }
    ensures memory { IfErr result (λ why. why ≡ Mem) }
{
    match ready {
        Ready::Select(select) => plan_of_query(alloc, database, select),
        Ready::Values(_) => plan_of_values(alloc),
        _ => Ok(Rows::empty(alloc)),
    }
}

fn plan_of_query(alloc: Global, database: &Database, select: &BoundSelect) -> Result<Rows, Cause>
    ensures shows { IfOk result (λ lines. PlansBound select.now lines) }
    ensures memory { IfErr result (λ why. why ≡ Mem) }
{
    let order = database.join_order;
    let Ok(plan) = query_plan(alloc, select, &[], &database.tables, order) else {
        return Err(Cause::Mem);
    };
    let Ok(labels) = item_labels(alloc, &database.schema, select.from.as_slice()) else {
        return Err(Cause::Mem);
    };
    match plan_lines(alloc, &plan, labels.as_slice()) {
        Ok(lines) => Ok(lines),
        Err(_) => Err(Cause::Mem),
    }
}

fn plan_of_values(alloc: Global) -> Result<Rows, Cause>
    ensures shows { IfOk result (λ lines. AreLinesOf no_loops lines) }
    ensures memory { IfErr result (λ why. why ≡ Mem) }
{
    let plan = JoinPlan {
        checks: Items::new(alloc),
        loops: Items::new(alloc),
        sort: false,
    };
    match plan_lines(alloc, &plan, &[]) {
        Ok(lines) => Ok(lines),
        Err(_) => Err(Cause::Mem),
    }
}

/// Hands lines to a sink, and tells how many there were.
fn hand_over<R: RowSink>(lines: &[Row], rows: &mut R) -> Result<Done, Cause>
    ensures lines { TakesLines (R.taken rows.old) (R.taken rows.new) (Rose (R.fault_count rows.old) (R.fault_count rows.new)) lines.now result }
    ensures faults { R.fault_count rows.old ≤ R.fault_count rows.new }
{
    for line in lines {
        hand_over_line(line, rows)?;
    }
    Ok(Done {
        given: lines.len() as u64,
        changed: 0,
    })
}

fn hand_over_line<R: RowSink>(line: &Row, rows: &mut R) -> Result<(), Cause>
    ensures line { TakesLine (R.taken rows.old) (R.taken rows.new) (Rose (R.fault_count rows.old) (R.fault_count rows.new)) line.now result }
    ensures faults { R.fault_count rows.old ≤ R.fault_count rows.new }
{
    match rows.row(line) {
        Took::Yes => Ok(()),
        Took::Failed => Err(Cause::SinkFault),
        Took::Mem => Err(Cause::Mem),
    }
}
