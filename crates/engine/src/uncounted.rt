// Statements whose instructions nobody counts.
ghost use Rattle.std.specs.Prelude.{◌≡◌, ◌<◌, None, OnOk, OnErr, IfOk, IfErr};
ghost use Rattle.engine.specs.Causes.{GivesCounted, WhereTold};
ghost use Rattle.engine.specs.Uncounted.{IsPlainCause};
ghost use Rattle.host_traits.specs.Faults.{Rose};
ghost use Rattle.sql_meaning.specs.Statement.{MayGive};
ghost use Rattle.sql_meaning.specs.Valid.{IsValid};
ghost use Rattle.vm_core.specs.Meant.{meant};

use crate::answers::{Done, Refusal};
use crate::connection::Connection;
use crate::kept_rows::KeptRows;
use crate::row_sink::RowSink;
use crate::unkept_rows::UnkeptRows;
use eng_value::{Rows, Steps, Value};
use std::alloc::Global;
use std::marker::Brand;
use std::sync::ledger::{Blank, Ledger};
use vm_core::Hosts;

impl Connection {
    /// Runs one statement, of any kind, and answers the rows that it gives. A parameter that is missing is NULL. Where each host that
    /// the statement names tells what it means, a refusal has a cause that the statement means, or Interrupted, where the budget is used
    /// up and less than the statement needs, or Mem, where no memory was found. After any refusal the connection is as it was, and no row
    /// is kept.
    pub fn query(
        &mut self,
        alloc: Global,
        hosts: &mut Hosts,
        sql: &str,
        params: &[Value],
    ) -> Result<Rows, Refusal>
        // Where each host that the text names tells: Ok is what the statement means, and these are its rows,
        ensures done { OnOk result (WhereTold (meant (λ b. verdicts (b.vtable, b.value)) hosts.old) self.old.state params.now sql.now (λ o bound. o.refusal ≡ None)) }
        ensures next { OnOk result (WhereTold (meant (λ b. verdicts (b.vtable, b.value)) hosts.old) self.old.state params.now sql.now (λ o bound. self.new.state ≡ o.next)) }
        ensures rows { IfOk result (λ rows. WhereTold (meant (λ b. verdicts (b.vtable, b.value)) hosts.old) self.old.state params.now sql.now (λ o bound. MayGive o rows)) }

        // and a refusal has its cause.
        ensures cause { IfErr result (λ r. WhereTold (meant (λ b. verdicts (b.vtable, b.value)) hosts.old) self.old.state params.now sql.now
            (λ o bound. IsPlainCause o self.old.budget bound r.cause)) }

        // Whatever the hosts.
        ensures kept { OnErr result (self.new ≡ self.old) }
        ensures budget { self.new.budget ≡ self.old.budget }
        ensures hosts { meant (λ b. verdicts (b.vtable, b.value)) hosts.new ≡ meant (λ b. verdicts (b.vtable, b.value)) hosts.old }
        ensures valid { IsValid self.new.state }
    {
        let mut kept = KeptRows::new(alloc);
        let asked = Asked { sql, params };
        run_uncounted::<_, Brand>(Blank::new(1), self, alloc, hosts, &asked, &mut kept)?;
        Ok(kept.into_rows())
    }

    /// Runs one statement, of any kind, and keeps none of the rows that it gives; `given` tells how many they were. All else is as
    /// `query` has it.
    pub fn execute(
        &mut self,
        alloc: Global,
        hosts: &mut Hosts,
        sql: &str,
        params: &[Value],
    ) -> Result<Done, Refusal>
        // Where each host that the text names tells: Ok is what the statement means, with the number of its rows and of those that it
        // changed,
        ensures done { OnOk result (WhereTold (meant (λ b. verdicts (b.vtable, b.value)) hosts.old) self.old.state params.now sql.now (λ o bound. o.refusal ≡ None)) }
        ensures next { OnOk result (WhereTold (meant (λ b. verdicts (b.vtable, b.value)) hosts.old) self.old.state params.now sql.now (λ o bound. self.new.state ≡ o.next)) }
        ensures given { IfOk result (λ d. WhereTold (meant (λ b. verdicts (b.vtable, b.value)) hosts.old) self.old.state params.now sql.now (λ o bound. GivesCounted o None None d.given)) }
        ensures changed { IfOk result (λ d. WhereTold (meant (λ b. verdicts (b.vtable, b.value)) hosts.old) self.old.state params.now sql.now (λ o bound. d.changed ≡ o.changed)) }

        // and a refusal has its cause.
        ensures cause { IfErr result (λ r. WhereTold (meant (λ b. verdicts (b.vtable, b.value)) hosts.old) self.old.state params.now sql.now
            (λ o bound. IsPlainCause o self.old.budget bound r.cause)) }

        // Whatever the hosts.
        ensures kept { OnErr result (self.new ≡ self.old) }
        ensures budget { self.new.budget ≡ self.old.budget }
        ensures hosts { meant (λ b. verdicts (b.vtable, b.value)) hosts.new ≡ meant (λ b. verdicts (b.vtable, b.value)) hosts.old }
        ensures valid { IsValid self.new.state }
    {
        let asked = Asked { sql, params };
        run_uncounted::<_, Brand>(Blank::new(1), self, alloc, hosts, &asked, &mut UnkeptRows)
    }
}

// The text of a statement, and the values of its parameters.
#[derive(Clone, Copy)]
struct Asked<'a> {
    sql: &'a str,
    params: &'a [Value],
}

// Runs a statement with steps that nobody reads.
fn run_uncounted<R: RowSink, L: Ledger>(
    blank: Blank,
    connection: &mut Connection,
    alloc: Global,
    hosts: &mut Hosts,
    asked: &Asked<'_>,
    rows: &mut R,
) -> Result<Done, Refusal>
    requires name { blank.name ≡ L.name }
    requires parts { blank.parts ≡ L.parts }
    requires some { 0 < blank.parts }
    ensures done { OnOk result (WhereTold (meant (λ b. verdicts (b.vtable, b.value)) hosts.old) connection.old.state asked.now.params.now asked.now.sql.now (λ o bound. o.refusal ≡ None)) }
    ensures next { OnOk result (WhereTold (meant (λ b. verdicts (b.vtable, b.value)) hosts.old) connection.old.state asked.now.params.now asked.now.sql.now (λ o bound. connection.new.state ≡ o.next)) }
    ensures rows { IfOk result (λ d. WhereTold (meant (λ b. verdicts (b.vtable, b.value)) hosts.old) connection.old.state asked.now.params.now asked.now.sql.now
        (λ o bound. GivesCounted o (R.taken rows.old) (R.taken rows.new) d.given)) }
    ensures changed { IfOk result (λ d. WhereTold (meant (λ b. verdicts (b.vtable, b.value)) hosts.old) connection.old.state asked.now.params.now asked.now.sql.now (λ o bound. d.changed ≡ o.changed)) }
    ensures cause { IfErr result (λ r. WhereTold (meant (λ b. verdicts (b.vtable, b.value)) hosts.old) connection.old.state asked.now.params.now asked.now.sql.now
        (λ o bound. (Rose (R.fault_count rows.old) (R.fault_count rows.new) → ⊥) → IsPlainCause o connection.old.budget bound r.cause)) }
    ensures kept { OnErr result (connection.new ≡ connection.old) }
    ensures budget { connection.new.budget ≡ connection.old.budget }
    ensures hosts { meant (λ b. verdicts (b.vtable, b.value)) hosts.new ≡ meant (λ b. verdicts (b.vtable, b.value)) hosts.old }
    ensures valid { IsValid connection.new.state }
{
    let mut steps = Steps::<L>::new(blank);
    connection.run(alloc, hosts, asked.sql, asked.params, rows, &mut steps)
}
