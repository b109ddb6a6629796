// Plans whose rows are put in the order of the FROM behind their loops.
ghost use Rattle.std.specs.Prelude.{◌≡◌, ◌+◌, ◌-◌, ◌≤◌, ◌++◌, [], None, true, length, IfOk, OnOk};
ghost use Rattle.gen_loop.specs.Loops.{from_cost, from_effect};
ghost use Rattle.gen_loop.specs.Needs.{NamesBelow, plan_reads, rowids_needs};
ghost use Rattle.gen_loop.specs.Sorting.{Walks, all_taken, collect, position_terms, rowids_of, sought_all, walk_end, walk_top, with_row_taken};
ghost use Rattle.gen_loop.specs.Stretches.{AreSpread};
ghost use Rattle.vm_code.specs.Frames.{Does, Fills, needing};
ghost use Rattle.vm_code.specs.Tracked.{Steady};

use crate::body::LoopBody;
use crate::gathering::emit_gathering;
use crate::opening::open_cursors;
use eng_index::{KeyTerm, TermSource};
use eng_value::Built;
use plan_tree::JoinPlan;
use sqlite_items::Items;
use std::alloc::{AllocError, Global};
use vm_code::{Builder, Op};

/// Writes the loops of a plan around a body, which runs once for each row that the plan gives, in its order. The loops put what tells each
/// row into a sorter: the rowids of the rows of its items, and its causes. They are taken from it in the order of the FROM, and each
/// item's cursor goes back onto its row.
pub(crate) fn emit_sorted<B: LoopBody>(
    alloc: Global,
    b: &mut Builder,
    plan: &JoinPlan,
    body: &mut B,
) -> Result<(), AllocError>
    requires sorted { plan.now.sort ≡ true }
    requires first { b.old.cursors ≡ 0 }
    requires owned { B.own body.old ≤ b.old.next }
    requires counted { b.old.next ≤ b.old.most }
    ensures does { OnOk result (AreSpread plan.now.loops → Does (needing (plan_reads plan.now ++ B.needs body.old)) b.old b.new (B.own body.old) 0 None (from_effect plan.now (B.effect body.old)) (from_cost plan.now (B.cost body.old))) }
    ensures steady { OnOk result (AreSpread plan.now.loops → NamesBelow (length plan.now.loops) (plan_reads plan.now ++ B.needs body.old) → Steady [] [] b.old b.new) }
    ensures cursors { OnOk result (b.new.cursors ≡ length plan.now.loops + 1) }
    ensures units { OnOk result (b.new.units ≡ b.old.units) }
{
    open_cursors(b, plan.loops.as_slice())?;
    let sorter = b.cursor()?;
    b.op(Op::SorterOpen { cursor: sorter })?;
    emit_gathering(alloc, b, plan, &mut Collector { width: sorter })?;
    emit_walk(alloc, b, sorter, body)?;
    b.op(Op::CloseFrom { cursor: 0 })?;
    Ok(())
}

/// Puts what tells a row of a FROM of so many items into the sorter that was opened last.
#[derive(Drop)]
struct Collector {
    width: u32,
}

impl LoopBody for Collector {
    ghost effect = { λ c. collect c.width };

    ghost cost = { λ c. c.width + 2 };

    ghost own = { λ c. 0 };

    ghost needs = { λ c. rowids_needs c.width };

    fn emit(&mut self, b: &mut Builder, causes: u32) -> Result<(), AllocError> {
        let first = b.next_register();
        emit_rowids(b, self.width)?;
        let copy = b.take()?;
        b.op(Op::Copy {
            from: causes,
            to: copy,
        })?;
        let count = b.next_register() - first;
        b.op(Op::SorterInsert { first, count })?;
        b.release(first);
        Ok(())
    }
}

/// Writes code that leaves the rowids of the rows of the first items in registers that it takes, one after another.
fn emit_rowids(b: &mut Builder, width: u32) -> Result<(), AllocError>
    requires counted { b.old.next ≤ b.old.most }
    ensures fills { OnOk result (Fills (needing (rowids_needs width)) b.old b.new width (λ env. rowids_of width env.rows) (λ _. width)) }
    ensures cursors { OnOk result (b.new.cursors ≡ b.old.cursors) }
    ensures units { OnOk result (b.new.units ≡ b.old.units) }
{
    for place in 0..width {
        let to = b.take()?;
        b.op(Op::Rowid { cursor: place, to })?;
    }
    Ok(())
}

/// Writes a walk over a sorter in the order of a FROM of so many items, where the sorter's cursor has their number. The body runs at
/// each row, with the cursors of all items on their rows.
fn emit_walk<B: LoopBody>(
    alloc: Global,
    b: &mut Builder,
    sorter: u32,
    body: &mut B,
) -> Result<(), AllocError>
    requires owned { B.own body.old ≤ b.old.next }
    requires counted { b.old.next ≤ b.old.most }
    ensures { OnOk result (Walks (B.needs body.old) b.old b.new sorter (B.own body.old) (B.effect body.old) (B.cost body.old)) }
{
    let Turns {
        end,
        top,
        first,
        causes,
        count,
    } = open_walk(b, sorter)?;
    let terms = order_of_items(alloc, sorter)?;
    b.op(Op::SorterSort {
        cursor: sorter,
        terms,
        target: end,
    })?;
    b.bind(top)?;
    b.op(Op::SorterData {
        cursor: sorter,
        first,
        count,
    })?;
    emit_seeks(b, first, causes)?;
    body.emit(b, causes)?;
    b.op(Op::SorterNext {
        cursor: sorter,
        target: top,
    })?;
    b.bind(end)?;
    b.release(first);
    Ok(())
}

/// The labels behind a walk and of a turn, and the registers of a row: those of the rowids from the first one on, and that of the causes behind
/// them.
#[derive(Clone, Copy)]
struct Turns {
    end: usize,
    top: usize,
    first: u32,
    causes: u32,
    count: u32,
}

/// Labels and registers of a walk over rows of so many items.
fn open_walk(b: &mut Builder, width: u32) -> Result<Turns, AllocError>
    ensures end { IfOk result (λ t. t.end ≡ walk_end b.old) }
    ensures top { IfOk result (λ t. t.top ≡ walk_top b.old) }
    ensures first { IfOk result (λ t. t.first ≡ b.old.next) }
    ensures causes { IfOk result (λ t. t.causes ≡ b.old.next + width) }
    ensures count { IfOk result (λ t. t.count ≡ width + 1) }
    ensures b { OnOk result (b.new ≡ with_row_taken b.old width) }
{
    let end = b.label()?;
    let top = b.label()?;
    let first = b.next_register();
    take_registers(b, width)?;
    let causes = b.take()?;
    let count = b.next_register() - first;
    Ok(Turns {
        end,
        top,
        first,
        causes,
        count,
    })
}

/// Takes so many registers.
fn take_registers(b: &mut Builder, count: u32) -> Result<(), AllocError>
    ensures { OnOk result (b.new ≡ all_taken b.old count) }
{
    for place in 0..count {
        b.take()?;
    }
    Ok(())
}

/// Writes code that brings the cursors of the first items onto the rows of the rowids in the registers from `first` to in front of `end`.
fn emit_seeks(b: &mut Builder, first: u32, end: u32) -> Result<(), AllocError>
    requires { first ≤ end }
    ensures { OnOk result (b.new ≡ sought_all b.old first (end - first)) }
{
    for rowid in first..end {
        b.op(Op::SeekRowid {
            cursor: rowid - first,
            rowid,
        })?;
    }
    Ok(())
}

/// The order of a FROM of so many items, by what stands for its rows.
fn order_of_items(alloc: Global, width: u32) -> Result<Items<KeyTerm>, AllocError>
    ensures { IfOk result (λ terms. terms ≡ position_terms width) }
{
    let mut terms = Items::new(alloc);
    for place in 0..width {
        terms.push(KeyTerm {
            source: TermSource::Column(place),
            collation: Built::Binary,
            descending: false,
        })?;
    }
    Ok(terms)
}
