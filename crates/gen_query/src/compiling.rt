// The program of a query.
ghost use Rattle.std.specs.Prelude.{◌≡◌, List, IfOk};
ghost use Rattle.eng_value.specs.declared.value.Value.{Value};
ghost use Rattle.gen_query.specs.Queries.{NamesItsItems, NamesNoItem, conjuncts_of, query_run, query_steps, values_run, values_steps};
ghost use Rattle.plan_tree.specs.Plans.{AreOver, IsSmall, PlanFits};
ghost use Rattle.vm_code.specs.Accepted.{IsAccepted};
ghost use Rattle.vm_code.specs.Machine.{Performs, PerformsWith};

use crate::giving::Giver;
use crate::values::emit_values;
use bound_tree::BoundExpr;
use plan_tree::JoinPlan;
use sql_meaning::BoundSelect;
use sqlite_items::Items;
use std::alloc::{AllocError, Global};
use vm_code::{Builder, Op, Program};

/// The program of a query (SQL As Understood By SQLite, "SELECT"): it gives a row of results for each row of its FROM that no
/// conjunct rejects, in their order. Where a conjunct or a result of such a row is bad the run fails for the causes of all of them, as
/// far as they may be named, behind the rows in front. It writes nothing. It comes by the rows in the loops of the plan; what it gives is
/// the same by each plan that fits for the parameters of the run. It keeps the rules of programs where the query names no item but those of
/// its FROM, and the plan tests nothing beside it. Only memory can fail.
pub fn compile(alloc: Global, query: &BoundSelect, plan: &JoinPlan) -> Result<Program, AllocError>
    ensures performs { IfOk result (λ p. (params : List Value) → PlanFits params query.now.from (conjuncts_of query.now) plan.now → PerformsWith params p (query_run query.now) (query_steps query.now)) }
    ensures accepted { IfOk result (λ p. AreOver query.now.from plan.now.loops → IsSmall query.now.from (conjuncts_of query.now) plan.now → NamesItsItems query.now → IsAccepted p) }
{
    let mut b = Builder::new(alloc, Items::new(alloc));
    let mut giver = Giver {
        alloc,
        results: query.results.as_slice(),
    };
    gen_loop::emit(alloc, &mut b, plan, &mut giver)?;
    b.op(Op::Halt)?;
    Ok(b.finish_program())
}

/// The program of `VALUES (e, ..), (e, ..)` (SQL As Understood By SQLite, "SELECT"): it gives the results of each row in turn. Where
/// one is bad the run fails for the causes of all results of its row, as far as they may be named, behind the rows in front. It
/// reads and writes no table, and keeps the rules of programs where its expressions name no item. Only memory can fail.
pub fn compile_values(alloc: Global, rows: &[Items<BoundExpr>]) -> Result<Program, AllocError>
    ensures performs { IfOk result (λ p. Performs p (values_run rows.now) (values_steps rows.now)) }
    ensures accepted { IfOk result (λ p. NamesNoItem rows.now → IsAccepted p) }
{
    let mut b = Builder::new(alloc, Items::new(alloc));
    emit_values(alloc, &mut b, rows)?;
    b.op(Op::Halt)?;
    Ok(b.finish_program())
}
