// A connection.
ghost use Rattle.std.specs.Prelude.{◌≡◌, ◌≤◌, ◌+◌, ◌-◌, map, slice_set, None, Some, OnOk, OnErr, IfOk, IfErr};
ghost use Rattle.eng_value.specs.declared.cause.Cause.TheVariants.{Mem};
ghost use Rattle.engine.specs.Causes.{GivesCounted, GivesFront, IsCause, WhereTold};
ghost use Rattle.engine.specs.Explained.{Explaining, GivesLines, by_cause};
ghost use Rattle.sql_meaning.specs.Permits.{WhereAsked};
ghost use Rattle.sql_tree.specs.declared.statement.Explain.TheVariants.{Instructions, QueryPlan};
ghost use Rattle.std.specs.Option.{option_copied};
ghost use Rattle.sql_meaning.specs.Declarations.{table_called};
ghost use Rattle.host_traits.specs.Faults.{Rose};
ghost use Rattle.sql_meaning.specs.Valid.{IsValid};
ghost use Rattle.sql_meaning.specs.World.{is_in_transaction, new_state, rows_at, seen, table_rows, with_rowid};
ghost use Rattle.vm_core.specs.Meant.{meant};

use crate::answers::{Done, Refusal};
use crate::database::{Database, run_text};
use crate::explaining::explain_text;
use crate::planning::JoinOrder;
use crate::row_sink::RowSink;
use eng_entry::is_same_name;
use eng_value::{Cause, Row, Rows, Steps, StoredRow, Value};
use sql_meaning::TableEntry;
use sql_tree::Explain;
use std::alloc::{AllocError, Global};
use std::marker::Model;
use std::sync::ledger::Ledger;
use vm_core::Hosts;
use vm_tables::Tables;

/// A connection: the tables of a database in memory, and what its statements leave behind. Contracts see the state of the
/// definitions, which is always valid, and the budget of a statement in instructions.
#[derive(Drop)]
pub struct Connection {
    database: Database,
    budget: u64,
}

impl Model for Connection {
    ghost use Rattle.engine.specs.Causes.{Held};
    ghost use Rattle.engine.specs.Held.{IsConsistent, state_of};

    ghost Value = { Held };

    ghost use Rattle.std.specs.Coded.{codes};
    ghost use Rattle.bound_tree.specs.declared.expr.BoundExpr.{the_code};
    ghost use Rattle.sql_tree.specs.contracts.expr.Expr as expr;
    ghost use Rattle.sql_tree.specs.contracts.query.Query as query;

    ghost coded = { Prim.hlevel (codes, the_code, expr.the_row.coded, query.the_row.coded) };

    ghost view = { λ c.
        record {
          state = state_of c.database.schema c.database.tables.world c.database.changes c.database.last_rowid;
          budget = c.budget;
        } };

    ghost invariant = { λ c. IsConsistent c.database.schema c.database.tables.world c.database.tables.marks c.database.changes c.database.last_rowid };
}

impl Connection {
    /// A connection without tables, whose statements may run so many instructions each. Takes no memory.
    pub fn new(alloc: Global, budget: u64) -> Connection
        ensures { result ≡ record { state = new_state; budget = budget } }
    {
        Connection {
            database: Database::new(alloc),
            budget,
        }
    }

    /// From now on the loops of joins are in this order, as near as may be. No answer changes: it is for comparing how long one takes, and for
    /// tests. A new connection takes the cheapest one.
    pub fn set_join_order(&mut self, order: JoinOrder)
        ensures { self.new ≡ self.old }
    {
        self.database.join_order = order;
    }

    /// Runs one statement and hands its rows to the sink. A parameter that is missing is NULL. Where each host that the statement
    /// names tells what it means:
    ///
    /// - Ok: the statement did what it means, and all its rows were taken;
    /// - Interrupted: the budget of instructions is used up. It never comes where the budget is at least the bound of size and
    ///   work, which is 0 for a statement that is refused before it is evaluated;
    /// - SinkFault: the sink failed;
    /// - Mem: no memory was found;
    /// - any other cause: that is one of those that it means, the rows in front of it were taken, and the connection holds what the
    ///   refusal means, which is what it held before.
    ///
    /// Behind EXPLAIN nothing is run, and the rows are the lines that `explain` or `query_plan` answer.
    ///
    /// After any refusal the connection is as it was, whatever the hosts do. The rows that were taken are a front of what the statement
    /// means, where the hosts tell.
    pub fn run<R: RowSink, L: Ledger>(
        &mut self,
        alloc: Global,
        hosts: &mut Hosts,
        sql: &str,
        params: &[Value],
        rows: &mut R,
        steps: &mut Steps<L>,
    ) -> Result<Done, Refusal>
        // Where each host that the text names tells: Ok is what the statement means,
        ensures done { OnOk result (WhereTold (meant (λ b. verdicts (b.vtable, b.value)) hosts.old) self.old.state params.now sql.now (λ o bound. o.refusal ≡ None)) }
        ensures next { OnOk result (WhereTold (meant (λ b. verdicts (b.vtable, b.value)) hosts.old) self.old.state params.now sql.now (λ o bound. self.new.state ≡ o.next)) }
        ensures rows { IfOk result (λ d. WhereTold (meant (λ b. verdicts (b.vtable, b.value)) hosts.old) self.old.state params.now sql.now
            (λ o bound. GivesCounted o (R.taken rows.old) (R.taken rows.new) d.given)) }
        ensures changed { IfOk result (λ d. WhereTold (meant (λ b. verdicts (b.vtable, b.value)) hosts.old) self.old.state params.now sql.now (λ o bound. d.changed ≡ o.changed)) }

        // of a statement behind EXPLAIN the rows are those of `explain` or `query_plan`,
        ensures plan { OnOk result (WhereAsked (meant (λ b. verdicts (b.vtable, b.value)) hosts.old).authorizer (λ asked. GivesLines asked (meant (λ b. verdicts (b.vtable, b.value)) hosts.old) self.old.state sql.now (R.taken rows.old) (R.taken rows.new))) }

        // a refusal has its cause, and leaves what it means, or all as it was,
        ensures cause { IfErr result (λ r. WhereTold (meant (λ b. verdicts (b.vtable, b.value)) hosts.old) self.old.state params.now sql.now
            (λ o bound. IsCause o self.old.state self.new.state self.old.budget bound (steps.new - steps.old)
            (R.taken rows.old) (R.taken rows.new) (Rose (R.fault_count rows.old) (R.fault_count rows.new)) r.cause)) }

        // and a front of the rows was taken, by no more instructions than it needs.
        ensures front { WhereTold (meant (λ b. verdicts (b.vtable, b.value)) hosts.old) self.old.state params.now sql.now (λ o bound. GivesFront o (R.taken rows.old) (R.taken rows.new)) }
        ensures bound { WhereTold (meant (λ b. verdicts (b.vtable, b.value)) hosts.old) self.old.state params.now sql.now (λ o bound. steps.new ≤ steps.old + bound) }

        // Whatever the hosts.
        ensures kept { OnErr result (self.new ≡ self.old) }
        ensures within { steps.new ≤ steps.old + self.old.budget }
        ensures ticks { steps.old ≤ steps.new }
        ensures faults { R.fault_count rows.old ≤ R.fault_count rows.new }
        ensures budget { self.new.budget ≡ self.old.budget }
        ensures hosts { meant (λ b. verdicts (b.vtable, b.value)) hosts.new ≡ meant (λ b. verdicts (b.vtable, b.value)) hosts.old }
        ensures valid { IsValid self.new.state }
    {
        match run_text(
            alloc,
            &mut self.database,
            hosts,
            self.budget,
            sql,
            params,
            rows,
            steps,
        ) {
            Ok(done) => Ok(done),
            Err(cause) => Err(Refusal { cause }),
        }
    }

    /// The program of a statement as it would run now with each parameter NULL: a row of eight columns for each instruction, addr, opcode, p1 to
    /// p5 and comment. Nothing is run. The statement may stand behind EXPLAIN or EXPLAIN QUERY PLAN. The refusals are those of the
    /// statement before it runs, and want of memory (EXPLAIN; docs/BYTECODE.md tells of the opcodes).
    pub fn explain(&self, alloc: Global, hosts: &mut Hosts, sql: &str) -> Result<Rows, Refusal>
        ensures shows { WhereAsked (meant (λ b. verdicts (b.vtable, b.value)) hosts.old).authorizer (λ asked. Explaining Instructions asked (meant (λ b. verdicts (b.vtable, b.value)) hosts.old) self.now.state sql.now (by_cause result)) }
        ensures hosts { meant (λ b. verdicts (b.vtable, b.value)) hosts.new ≡ meant (λ b. verdicts (b.vtable, b.value)) hosts.old }
    {
        match explain_text(alloc, &self.database, hosts, Explain::Instructions, sql) {
            Ok(lines) => Ok(lines),
            Err(cause) => Err(Refusal { cause }),
        }
    }

    /// The plan by which a query would read its tables now, with each parameter NULL: a row of id, parent, 0 and detail for each loop, outermost
    /// first, and for the sort behind them; without a loop one row says so. A statement that queries nothing has none. All else is as `explain` (EXPLAIN QUERY PLAN).
    pub fn query_plan(&self, alloc: Global, hosts: &mut Hosts, sql: &str) -> Result<Rows, Refusal>
        ensures shows { WhereAsked (meant (λ b. verdicts (b.vtable, b.value)) hosts.old).authorizer (λ asked. Explaining QueryPlan asked (meant (λ b. verdicts (b.vtable, b.value)) hosts.old) self.now.state sql.now (by_cause result)) }
        ensures hosts { meant (λ b. verdicts (b.vtable, b.value)) hosts.new ≡ meant (λ b. verdicts (b.vtable, b.value)) hosts.old }
    {
        match explain_text(alloc, &self.database, hosts, Explain::QueryPlan, sql) {
            Ok(lines) => Ok(lines),
            Err(cause) => Err(Refusal { cause }),
        }
    }

    /// The rows of a table by ascending rowid, each with its rowid in front, or None where there is no table of this name. A column that is
    /// the rowid shows it. The only refusal is want of memory.
    pub fn table(&self, alloc: Global, name: &str) -> Result<Option<Rows>, Refusal>
        ensures table { IfOk result (λ found. found ≡ table_rows self.now.state name.now) }
        ensures memory { IfErr result (λ r. r.cause ≡ Mem) }
    {
        let Some(table) = table_named(self.database.schema.tables(), name) else {
            return Ok(None);
        };
        match rows_seen(alloc, &self.database.tables, table) {
            Ok(rows) => Ok(Some(rows)),
            Err(_) => Err(Refusal { cause: Cause::Mem }),
        }
    }

    /// How many rows the last INSERT put that was not refused.
    pub fn changes(&self) -> u64
        ensures { result ≡ self.now.state.changes }
    {
        self.database.changes
    }

    /// The rowid of the last row that an INSERT put, 0 where none was.
    pub fn last_rowid(&self) -> i64
        ensures { result ≡ self.now.state.last_rowid }
    {
        self.database.last_rowid
    }

    /// Whether a transaction is open. No statement opens one yet.
    pub fn in_transaction(&self) -> bool
        ensures { result ≡ is_in_transaction self.now.state }
    {
        let _budget = self.budget;
        false
    }
}

/// The table of this name.
fn table_named<'a>(tables: &'a [TableEntry], name: &str) -> Option<&'a TableEntry>
    ensures { option_copied result ≡ table_called tables.now name.now }
{
    tables
        .iter()
        .find(|t| is_same_name(t.name.as_bytes(), name.as_bytes()))
}

/// The rows of a table as they are seen, with their rowids in front.
fn rows_seen(alloc: Global, tables: &Tables, table: &TableEntry) -> Result<Rows, AllocError>
    ensures { IfOk result (λ found. found ≡ map (λ r. with_rowid (seen table.now.rowid r)) (rows_at tables.now.world table.now.number)) }
{
    let rows = tables.rows(alloc, table.number as usize)?;
    let mut found = Rows::empty(alloc);
    for row in &rows {
        found.push(row_seen(alloc, row, table.rowid)?)?;
    }
    Ok(found)
}

/// A row as it is seen, with its rowid in front: that stands in the column that is the rowid, too.
fn row_seen(alloc: Global, row: &StoredRow, column: Option<u32>) -> Result<Row, AllocError>
    ensures { IfOk result (λ values. values ≡ with_rowid (seen column row.now)) }
{
    let mut values = with_rowid(alloc, row)?;
    match column {
        None => Ok(Row::new(values)),
        Some(place) => {
            put_at(&mut values, place as usize + 1, Value::Integer(row.rowid()));
            Ok(Row::new(values))
        }
    }
}

/// The values of a row with its rowid in front.
fn with_rowid(alloc: Global, row: &StoredRow) -> Result<Vec<Value>, AllocError>
    ensures { IfOk result (λ values. values.items ≡ with_rowid row.now) }
{
    let mut values = Vec::new(alloc);
    values.push(Value::Integer(row.rowid()))?;
    for value in row.values() {
        values.push(value.clone()?)?;
    }
    Ok(values)
}

/// Puts a value in a place, where there is one.
fn put_at(values: &mut Vec<Value>, place: usize, value: Value)
    ensures { values.new.items ≡ slice_set values.old.items place value }
{
    if place < values.len() {
        values[place] = value;
    }
}
