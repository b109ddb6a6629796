// What a connection holds, and how a statement changes it.
ghost use Rattle.std.specs.Prelude.{◌≡◌, ◌≤◌, ◌+◌, ◌-◌, [], length, pos, IfOk, OnErr, OnOk};
ghost use Rattle.engine.specs.Causes.{WhereSaid, WhereTold};
ghost use Rattle.engine.specs.Connected.{CarriesOut};
ghost use Rattle.engine.specs.Explained.{GivesLines, GivesReady};
ghost use Rattle.sql_meaning.specs.Permits.{WhereAsked};
ghost use Rattle.eng_entry.specs.Entries.{no_entries};
ghost use Rattle.engine.specs.Held.{state_of, world_in};
ghost use Rattle.sql_meaning.specs.Statement.{create_outcome};
ghost use Rattle.sql_meaning.specs.Valid.{IsWorld};
ghost use Rattle.engine.specs.Outcomes.{IsOther, changed_by, index_outcome_in, outcome_behind, outcome_in, run_in, state_after, steps_behind, steps_in, surroundings_in};
ghost use Rattle.engine.specs.Prepared.{IsNew, IsNewIndex, MayRun, NamesWhatIsThere};
ghost use Rattle.gen_write.specs.Writes.{create_steps, index_run, index_steps};
ghost use Rattle.host_traits.specs.Faults.{Rose};
ghost use Rattle.vm_code.specs.Accepted.{IsAccepted};
ghost use Rattle.vm_code.specs.Machine.{IsSound, Performs, PerformsWith};
ghost use Rattle.vm_core.specs.Meant.{meant};

use crate::answers::Done;
use crate::executing::execute;
use crate::explaining::show;
use crate::planning::{JoinOrder, compiled_query};
use crate::preparing::{NewEntry, NewIndexEntry, Prepared, Ready, prepare};
use crate::row_sink::RowSink;
use crate::running::Completed;
use crate::schema::Schema;
use bind_stmt::NewIndex;
use eng_value::{Cause, Meanings, Steps, Value};
use gen_write::{compile_create, compile_drop, compile_index, compile_insert, compile_nothing};
use sqlite_items::Boxed;
use std::alloc::{AllocError, Global};
use std::marker::Brand;
use std::sync::ledger::Ledger;
use vm_code::Program;
use vm_core::Hosts;
use vm_tables::Tables;

/// The catalog, the rows of its tables by their numbers, and what the last writes left behind.
#[derive(Drop)]
pub(crate) struct Database {
    pub(crate) schema: Schema,
    pub(crate) tables: Tables,
    pub(crate) changes: u64,
    pub(crate) last_rowid: i64,
    pub(crate) join_order: JoinOrder,
}

impl Database {
    /// No table yet.
    pub(crate) fn new(alloc: Global) -> Database
        ensures schema { result.schema ≡ no_entries }
        ensures tables { result.tables ≡ record { world = []; marks = [] } }
        ensures changes { result.changes ≡ 0 }
        ensures last_rowid { result.last_rowid ≡ pos 0 }
    {
        Database {
            schema: Schema::new(alloc),
            tables: Tables::new(alloc),
            changes: 0,
            last_rowid: 0,
            join_order: JoinOrder::Cheapest,
        }
    }

    /// Keeps what a statement leaves whose program ran to its end: a table that is dropped loses its entry and its indexes theirs, an index
    /// that is dropped its own, and an INSERT tells how many rows it put and under which rowid the last one.
    fn finish(&mut self, ready: &Ready, completed: &Completed) -> Done
        requires runs { MayRun self.old.schema ready.now }
        ensures state { state_of self.new.schema self.new.tables.world self.new.changes self.new.last_rowid
            ≡ state_after ready.now self.old.schema self.old.tables.world self.old.changes self.old.last_rowid completed.now.changed completed.now.last_rowid }
        ensures marks { self.new.tables.marks ≡ self.old.tables.marks }
        ensures given { result.given ≡ completed.now.given }
        ensures changed { result.changed ≡ changed_by ready.now completed.now.changed }
    {
        match ready {
            Ready::Drop(dropped) => {
                self.schema.remove_table(dropped.name.as_str());
                done(completed, 0)
            }
            Ready::DropIndex(name) => {
                self.schema.remove(name.as_str());
                done(completed, 0)
            }
            Ready::Insert(_) => {
                self.changes = completed.changed;
                self.last_rowid = completed.last_rowid;
                done(completed, completed.changed)
            }
            _ => done(completed, 0),
        }
    }
}

/// Runs the statement of a text. One that is refused changes nothing.
pub(crate) fn run_text<R: RowSink, L: Ledger>(
    alloc: Global,
    database: &mut Database,
    hosts: &mut Hosts,
    budget: u64,
    text: &str,
    params: &[Value],
    rows: &mut R,
    steps: &mut Steps<L>,
) -> Result<Done, Cause>
    requires valid { IsWorld (world_in database.old.schema database.old.tables.world) }
    ensures marks { database.new.tables.marks ≡ database.old.tables.marks }
    ensures said { WhereSaid (meant (λ b. verdicts (b.vtable, b.value)) hosts.old)
        (state_of database.old.schema database.old.tables.world database.old.changes database.old.last_rowid) params.now text.now
        (λ o bound. CarriesOut o
        (state_of database.old.schema database.old.tables.world database.old.changes database.old.last_rowid)
        (state_of database.new.schema database.new.tables.world database.new.changes database.new.last_rowid)
        budget bound (steps.new - steps.old) (R.taken rows.old) (R.taken rows.new)
        (Rose (R.fault_count rows.old) (R.fault_count rows.new)) result) }
    ensures carried { WhereTold (meant (λ b. verdicts (b.vtable, b.value)) hosts.old)
        (state_of database.old.schema database.old.tables.world database.old.changes database.old.last_rowid) params.now text.now
        (λ o bound. CarriesOut o
        (state_of database.old.schema database.old.tables.world database.old.changes database.old.last_rowid)
        (state_of database.new.schema database.new.tables.world database.new.changes database.new.last_rowid)
        budget bound (steps.new - steps.old) (R.taken rows.old) (R.taken rows.new)
        (Rose (R.fault_count rows.old) (R.fault_count rows.new)) result) }
    ensures plan { WhereAsked (meant (λ b. verdicts (b.vtable, b.value)) hosts.old).authorizer (λ asked. OnOk result (GivesLines asked (meant (λ b. verdicts (b.vtable, b.value)) hosts.old)
        (state_of database.old.schema database.old.tables.world database.old.changes database.old.last_rowid) text.now (R.taken rows.old) (R.taken rows.new))) }
    ensures kept { OnErr result
        (state_of database.new.schema database.new.tables.world database.new.changes database.new.last_rowid
        ≡ state_of database.old.schema database.old.tables.world database.old.changes database.old.last_rowid) }
    ensures ticks { steps.old ≤ steps.new }
    ensures within { steps.new ≤ steps.old + budget }
    ensures faults { R.fault_count rows.old ≤ R.fault_count rows.new }
    ensures hosts { meant (λ b. verdicts (b.vtable, b.value)) hosts.new ≡ meant (λ b. verdicts (b.vtable, b.value)) hosts.old }
{
    database.tables.order();
    let number = database.tables.len();
    match prepare(alloc, hosts, &database.schema, number, text) {
        Ok(prepared) => run_prepared::<Brand, R, L>(
            alloc, database, hosts, budget, prepared, params, rows, steps,
        ),
        Err(cause) => Err(cause),
    }
}

/// Runs a statement, or shows how it would be run where it stands behind EXPLAIN.
fn run_prepared<M: Meanings, R: RowSink, L: Ledger>(
    alloc: Global,
    database: &mut Database,
    hosts: &mut Hosts,
    budget: u64,
    prepared: Prepared,
    params: &[Value],
    rows: &mut R,
    steps: &mut Steps<L>,
) -> Result<Done, Cause>
    requires runs { MayRun database.old.schema prepared.ready }
    requires sound { IsSound database.old.tables.world }
    requires told { meant (λ b. verdicts (b.vtable, b.value)) hosts.old ≡ M.hosts }
    ensures marks { database.new.tables.marks ≡ database.old.tables.marks }
    ensures carried { CarriesOut
        (outcome_behind prepared.explain (state_of database.old.schema database.old.tables.world database.old.changes database.old.last_rowid)
        (outcome_in M.hosts database.old.schema database.old.tables.world database.old.changes database.old.last_rowid params.now prepared.ready))
        (state_of database.old.schema database.old.tables.world database.old.changes database.old.last_rowid)
        (state_of database.new.schema database.new.tables.world database.new.changes database.new.last_rowid)
        budget (steps_behind prepared.explain (steps_in (surroundings_in M.hosts params.now database.old.tables.world) prepared.ready)) (steps.new - steps.old) (R.taken rows.old) (R.taken rows.new)
        (Rose (R.fault_count rows.old) (R.fault_count rows.new)) result }
    ensures plan { OnOk result (GivesReady prepared.explain prepared.ready (R.taken rows.old) (R.taken rows.new)) }
    ensures kept { OnErr result
        (state_of database.new.schema database.new.tables.world database.new.changes database.new.last_rowid
        ≡ state_of database.old.schema database.old.tables.world database.old.changes database.old.last_rowid) }
    ensures ticks { steps.old ≤ steps.new }
    ensures within { steps.new ≤ steps.old + budget }
    ensures faults { R.fault_count rows.old ≤ R.fault_count rows.new }
    ensures told { meant (λ b. verdicts (b.vtable, b.value)) hosts.new ≡ M.hosts }
{
    let Prepared { explain, ready } = prepared;
    match explain {
        Some(how) => show(alloc, database, how, &ready, rows),
        None => run_ready::<M, R, L>(alloc, database, hosts, budget, ready, params, rows, steps),
    }
}

/// Runs a statement whose names are bound.
fn run_ready<M: Meanings, R: RowSink, L: Ledger>(
    alloc: Global,
    database: &mut Database,
    hosts: &mut Hosts,
    budget: u64,
    ready: Ready,
    params: &[Value],
    rows: &mut R,
    steps: &mut Steps<L>,
) -> Result<Done, Cause>
    requires runs { MayRun database.old.schema ready }
    requires sound { IsSound database.old.tables.world }
    requires told { meant (λ b. verdicts (b.vtable, b.value)) hosts.old ≡ M.hosts }
    ensures marks { database.new.tables.marks ≡ database.old.tables.marks }
    ensures carried { CarriesOut
        (outcome_in M.hosts database.old.schema database.old.tables.world database.old.changes database.old.last_rowid params.now ready)
        (state_of database.old.schema database.old.tables.world database.old.changes database.old.last_rowid)
        (state_of database.new.schema database.new.tables.world database.new.changes database.new.last_rowid)
        budget (steps_in (surroundings_in M.hosts params.now database.old.tables.world) ready) (steps.new - steps.old) (R.taken rows.old) (R.taken rows.new)
        (Rose (R.fault_count rows.old) (R.fault_count rows.new)) result }
    ensures kept { OnErr result
        (state_of database.new.schema database.new.tables.world database.new.changes database.new.last_rowid
        ≡ state_of database.old.schema database.old.tables.world database.old.changes database.old.last_rowid) }
    ensures ticks { steps.old ≤ steps.new }
    ensures within { steps.new ≤ steps.old + budget }
    ensures faults { R.fault_count rows.old ≤ R.fault_count rows.new }
    ensures told { meant (λ b. verdicts (b.vtable, b.value)) hosts.new ≡ M.hosts }
{
    match ready {
        Ready::Create(new) => {
            run_create::<M, R, L>(alloc, database, hosts, budget, new, rows, steps)
        }
        Ready::CreateIndex(new) => {
            run_index::<M, R, L>(alloc, database, hosts, budget, new, rows, steps)
        }
        other => {
            run_other::<M, R, L>(alloc, database, hosts, budget, &other, params, rows, steps)
        }
    }
}

/// Runs a CREATE TABLE: its entry comes into the catalog, and its list of rows into the tables.
fn run_create<M: Meanings, R: RowSink, L: Ledger>(
    alloc: Global,
    database: &mut Database,
    hosts: &mut Hosts,
    budget: u64,
    new: Boxed<NewEntry>,
    rows: &mut R,
    steps: &mut Steps<L>,
) -> Result<Done, Cause>
    requires new { IsNew database.old.schema new }
    requires sound { IsSound database.old.tables.world }
    requires told { meant (λ b. verdicts (b.vtable, b.value)) hosts.old ≡ M.hosts }
    ensures marks { database.new.tables.marks ≡ database.old.tables.marks }
    ensures carried { CarriesOut
        (create_outcome (state_of database.old.schema database.old.tables.world database.old.changes database.old.last_rowid) new.entry)
        (state_of database.old.schema database.old.tables.world database.old.changes database.old.last_rowid)
        (state_of database.new.schema database.new.tables.world database.new.changes database.new.last_rowid)
        budget (create_steps (surroundings_in M.hosts [] database.old.tables.world)) (steps.new - steps.old) (R.taken rows.old) (R.taken rows.new)
        (Rose (R.fault_count rows.old) (R.fault_count rows.new)) result }
    ensures kept { OnErr result
        (state_of database.new.schema database.new.tables.world database.new.changes database.new.last_rowid
        ≡ state_of database.old.schema database.old.tables.world database.old.changes database.old.last_rowid) }
    ensures ticks { steps.old ≤ steps.new }
    ensures within { steps.new ≤ steps.old + budget }
    ensures faults { R.fault_count rows.old ≤ R.fault_count rows.new }
    ensures told { meant (λ b. verdicts (b.vtable, b.value)) hosts.new ≡ M.hosts }
{
    let Ok(program) = compile_create(alloc) else {
        return Err(Cause::Mem);
    };
    let NewEntry { entry, table } = new.into_inner();
    let name = entry.name.clone()?;
    let Ok(()) = database.schema.add(entry, table) else {
        return Err(Cause::Mem);
    };
    match execute::<M, R, L>(
        alloc,
        program,
        &[],
        database.last_rowid,
        &mut database.tables,
        hosts,
        budget,
        rows,
        steps,
    ) {
        Ok(completed) => Ok(done(&completed, 0)),
        Err(cause) => {
            database.schema.remove(name.as_str());
            Err(cause)
        }
    }
}

/// Runs a CREATE INDEX: its entry comes into the catalog, where it isn't unique or no two rows share the key.
fn run_index<M: Meanings, R: RowSink, L: Ledger>(
    alloc: Global,
    database: &mut Database,
    hosts: &mut Hosts,
    budget: u64,
    new: Boxed<NewIndexEntry>,
    rows: &mut R,
    steps: &mut Steps<L>,
) -> Result<Done, Cause>
    requires new { IsNewIndex database.old.schema new }
    requires sound { IsSound database.old.tables.world }
    requires told { meant (λ b. verdicts (b.vtable, b.value)) hosts.old ≡ M.hosts }
    ensures marks { database.new.tables.marks ≡ database.old.tables.marks }
    ensures carried { CarriesOut
        (index_outcome_in database.old.schema database.old.tables.world database.old.changes database.old.last_rowid new)
        (state_of database.old.schema database.old.tables.world database.old.changes database.old.last_rowid)
        (state_of database.new.schema database.new.tables.world database.new.changes database.new.last_rowid)
        budget (index_steps (surroundings_in M.hosts [] database.old.tables.world)) (steps.new - steps.old) (R.taken rows.old) (R.taken rows.new)
        (Rose (R.fault_count rows.old) (R.fault_count rows.new)) result }
    ensures kept { OnErr result
        (state_of database.new.schema database.new.tables.world database.new.changes database.new.last_rowid
        ≡ state_of database.old.schema database.old.tables.world database.old.changes database.old.last_rowid) }
    ensures ticks { steps.old ≤ steps.new }
    ensures within { steps.new ≤ steps.old + budget }
    ensures faults { R.fault_count rows.old ≤ R.fault_count rows.new }
    ensures told { meant (λ b. verdicts (b.vtable, b.value)) hosts.new ≡ M.hosts }
{
    let Ok(program) = compiled_index(alloc, &new.get().index) else {
        return Err(Cause::Mem);
    };
    let NewIndexEntry { entry, index: _ } = new.into_inner();
    let name = entry.name.clone()?;
    let Ok(()) = database.schema.add_index(entry) else {
        return Err(Cause::Mem);
    };
    match execute::<M, R, L>(
        alloc,
        program,
        &[],
        database.last_rowid,
        &mut database.tables,
        hosts,
        budget,
        rows,
        steps,
    ) {
        Ok(completed) => Ok(done(&completed, 0)),
        Err(cause) => {
            database.schema.remove(name.as_str());
            Err(cause)
        }
    }
}

/// Runs any other statement, and then keeps of it what is no row of a table.
fn run_other<M: Meanings, R: RowSink, L: Ledger>(
    alloc: Global,
    database: &mut Database,
    hosts: &mut Hosts,
    budget: u64,
    ready: &Ready,
    params: &[Value],
    rows: &mut R,
    steps: &mut Steps<L>,
) -> Result<Done, Cause>
    requires other { IsOther ready.now }
    requires runs { MayRun database.old.schema ready.now }
    requires sound { IsSound database.old.tables.world }
    requires told { meant (λ b. verdicts (b.vtable, b.value)) hosts.old ≡ M.hosts }
    ensures marks { database.new.tables.marks ≡ database.old.tables.marks }
    ensures carried { CarriesOut
        (outcome_in M.hosts database.old.schema database.old.tables.world database.old.changes database.old.last_rowid params.now ready.now)
        (state_of database.old.schema database.old.tables.world database.old.changes database.old.last_rowid)
        (state_of database.new.schema database.new.tables.world database.new.changes database.new.last_rowid)
        budget (steps_in (surroundings_in M.hosts params.now database.old.tables.world) ready.now) (steps.new - steps.old) (R.taken rows.old) (R.taken rows.new)
        (Rose (R.fault_count rows.old) (R.fault_count rows.new)) result }
    ensures kept { OnErr result
        (state_of database.new.schema database.new.tables.world database.new.changes database.new.last_rowid
        ≡ state_of database.old.schema database.old.tables.world database.old.changes database.old.last_rowid) }
    ensures ticks { steps.old ≤ steps.new }
    ensures within { steps.new ≤ steps.old + budget }
    ensures faults { R.fault_count rows.old ≤ R.fault_count rows.new }
    ensures told { meant (λ b. verdicts (b.vtable, b.value)) hosts.new ≡ M.hosts }
{
    let order = database.join_order;
    let Ok(program) = compiled(alloc, ready, params, &database.tables, order) else {
        return Err(Cause::Mem);
    };
    match execute::<M, R, L>(
        alloc,
        program,
        params,
        database.last_rowid,
        &mut database.tables,
        hosts,
        budget,
        rows,
        steps,
    ) {
        Ok(completed) => Ok(database.finish(ready, &completed)),
        Err(cause) => Err(cause),
    }
}

/// The program of a statement with these parameters, over tables that stand so.
pub(crate) fn compiled(
    alloc: Global,
    ready: &Ready,
    params: &[Value],
    tables: &Tables,
    order: JoinOrder,
) -> Result<Program, AllocError>
    ensures performs { IfOk result (λ p. PerformsWith params.now p (run_in ready.now) (λ x. steps_in x ready.now)) }
    ensures accepted { IfOk result (λ p. NamesWhatIsThere ready.now → IsAccepted p) }
{
    match ready {
        Ready::Create(_) => compile_create(alloc),
        Ready::Drop(dropped) => compile_drop(alloc, dropped.table),
        Ready::CreateIndex(new) => compiled_index(alloc, &new.get().index),
        Ready::DropIndex(_) => compile_nothing(alloc),
        Ready::Insert(insert) => compile_insert(alloc, insert),
        Ready::Select(select) => compiled_query(alloc, select, params, tables, order),
        Ready::Values(values) => gen_query::compile_values(alloc, values.as_slice()),
        Ready::Nothing => compile_nothing(alloc),
    }
}

fn compiled_index(alloc: Global, index: &NewIndex) -> Result<Program, AllocError>
    ensures performs { IfOk result (λ p. Performs p (index_run index.now.table index.now.table_name index.now.terms index.now.unique) index_steps) }
    ensures accepted { IfOk result (λ p. IsAccepted p) }
{
    compile_index(
        alloc,
        index.table,
        &index.table_name,
        index.terms.as_slice(),
        index.unique,
    )
}

/// What a statement did whose program ran to its end and that changed so many rows.
fn done(completed: &Completed, changed: u64) -> Done
    ensures given { result.given ≡ completed.now.given }
    ensures changed { result.changed ≡ changed }
{
    Done {
        given: completed.given,
        changed,
    }
}
