// The rows of a query.
ghost use Rattle.std.specs.Prelude.{◌≡◌, ◌+◌, ◌-◌, ◌<◌, ◌≤◌, ℕ, length, map, sum_by, slice_get, OnOk, None, Some};
ghost use Rattle.gen_expr.specs.Steps.{steps_of};
ghost use Rattle.gen_query.specs.Queries.{results_read, row_effect, row_steps, value_effect};
ghost use Rattle.gen_query.specs.Stretches.{Gathers, Shows, with_row_given};
ghost use Rattle.sql_meaning.specs.Expression.{value_of};
ghost use Rattle.vm_code.specs.Frames.{Does, Fills, needing};

use bound_tree::BoundExpr;
use gen_expr::emit;
use gen_loop::LoopBody;
use std::alloc::{AllocError, Global};
use vm_code::{Builder, Op};

/// Gives the results of a row of a FROM, or gives up for the causes of the row and of all results.
#[derive(Drop)]
pub(crate) struct Giver<'a> {
    pub alloc: Global,
    pub results: &'a [BoundExpr],
}

impl<'a> LoopBody for Giver<'a> {
    ghost effect = { λ g. row_effect g.results.now };

    ghost cost = { λ g. row_steps g.results.now };

    ghost own = { λ g. 0 };

    ghost needs = { λ g. results_read g.results.now };

    fn emit(&mut self, b: &mut Builder, causes: u32) -> Result<(), AllocError> {
        let next = b.label()?;
        let mine = b.take()?;
        b.op(Op::Copy {
            from: causes,
            to: mine,
        })?;
        emit_shown(self.alloc, b, self.results, mine, next)?;
        b.release(mine);
        Ok(())
    }
}

/// Writes code that gives a row of VALUES, or gives up for the causes of all of its results.
pub(crate) fn emit_value_row(
    alloc: Global,
    b: &mut Builder,
    results: &[BoundExpr],
) -> Result<(), AllocError>
    requires counted { b.old.next ≤ b.old.most }
    ensures does { OnOk result (Does (needing (results_read results.now)) b.old b.new 0 0 None (value_effect results.now) (λ _ _ _. row_steps results.now)) }
    ensures cursors { OnOk result (b.new.cursors ≡ b.old.cursors) }
    ensures units { OnOk result (b.new.units ≡ b.old.units) }
{
    let next = b.label()?;
    let mine = b.take()?;
    b.op(Op::Null { to: mine })?;
    emit_shown(alloc, b, results, mine, next)?;
    b.release(mine);
    Ok(())
}

/// Writes code that gives results as a row, or gives up for their causes and those in the register `causes`. The label `next` gets its
/// place behind it.
fn emit_shown(
    alloc: Global,
    b: &mut Builder,
    results: &[BoundExpr],
    causes: u32,
    next: usize,
) -> Result<(), AllocError>
    requires taken { causes < b.old.next }
    requires counted { b.old.next ≤ b.old.most }
    requires open { slice_get b.old.labels next ≡ Some None }
    ensures { OnOk result (Shows b.old b.new results.now causes next) }
{
    let first = b.next_register();
    emit_results(alloc, b, results)?;
    let end = b.next_register();
    gather(b, first, end, causes)?;
    give_row(b, first, end - first, causes, next)
}

/// Writes code that leaves the results in registers that it takes, one after another.
fn emit_results(alloc: Global, b: &mut Builder, results: &[BoundExpr]) -> Result<(), AllocError>
    requires counted { b.old.next ≤ b.old.most }
    ensures fills { OnOk result (Fills (needing (results_read results.now)) b.old b.new (length results.now) (λ env. map (λ e. value_of e env) results.now) (λ _. sum_by steps_of results.now)) }
    ensures cursors { OnOk result (b.new.cursors ≡ b.old.cursors) }
    ensures units { OnOk result (b.new.units ≡ b.old.units) }
{
    for result in results {
        let to = b.take()?;
        emit(alloc, b, result, to)?;
    }
    Ok(())
}

/// Writes code that adds the causes of the registers from `first` to in front of `end` to those of the register `causes`.
fn gather(b: &mut Builder, first: u32, end: u32, causes: u32) -> Result<(), AllocError>
    requires ordered { first ≤ end }
    requires apart { causes < first }
    requires taken { end ≤ b.old.next }
    requires counted { b.old.next ≤ b.old.most }
    ensures gathers { OnOk result (Gathers b.old b.new first (end - first) causes) }
    ensures cursors { OnOk result (b.new.cursors ≡ b.old.cursors) }
    ensures units { OnOk result (b.new.units ≡ b.old.units) }
{
    for from in first..end {
        b.op(Op::Merge { from, to: causes })?;
    }
    Ok(())
}

/// Writes code that gives registers as a row, or gives up where `causes` is bad. The label `next` gets its place behind it.
fn give_row(
    b: &mut Builder,
    first: u32,
    count: u32,
    causes: u32,
    next: usize,
) -> Result<(), AllocError>
    requires open { slice_get b.old.labels next ≡ Some None }
    ensures { OnOk result (b.new ≡ with_row_given b.old first count causes next) }
{
    let fail = b.label()?;
    b.op(Op::IsBad {
        register: causes,
        target: fail,
    })?;
    b.op(Op::ResultRow { first, count })?;
    b.op(Op::Goto { target: next })?;
    b.bind(fail)?;
    b.op(Op::HaltBad { register: causes })?;
    b.bind(next)
}
