// Loops, one in the other.
ghost use Rattle.std.specs.Prelude.{◌≡◌, ◌+◌, ◌<◌, ◌≤◌, ◌∷◌, length, IfOk, OnOk};
ghost use Rattle.gen_loop.specs.Loops.{KeepsWritten, nested, nested_steps};
ghost use Rattle.gen_loop.specs.Needs.{loops_needs};
ghost use Rattle.gen_loop.specs.Stretches.{Nests};
ghost use Rattle.plan_tree.specs.declared.access.Pairs.TheVariants.{Each, OrAlone};
ghost use Rattle.vm_code.specs.Draft.{taken, with_label};

use crate::body::LoopBody;
use crate::sifting::emit_conjuncts;
use crate::visiting::emit_first_row;
use plan_tree::{Conjunct, Loop, Pairs};
use std::alloc::{AllocError, Global};
use vm_code::{Builder, Op};

/// Writes loops, the outermost first, around a body, where the register `causes` holds the causes of the rows around them. Their cursors
/// are open on no row.
#[cycle(nest)]
pub(crate) fn emit_nest<B: LoopBody>(
    alloc: Global,
    b: &mut Builder,
    loops: &[Loop],
    causes: u32,
    body: &mut B,
) -> Result<(), AllocError>
    requires taken { causes < b.old.next }
    requires owned { B.own body.old ≤ causes }
    requires counted { b.old.next ≤ b.old.most }
    ensures nests { OnOk result (Nests (loops_needs loops.now (B.needs body.old)) loops.now b.old b.new (B.own body.old) causes (nested loops.now (B.effect body.old)) (nested_steps loops.now (B.cost body.old))) }
    ensures keeps { OnOk result (KeepsWritten (B.effect body.old)) }
    ensures cursors { OnOk result (b.new.cursors ≡ b.old.cursors) }
    ensures units { OnOk result (b.new.units ≡ b.old.units) }
{
    match loops.split_first() {
        None => body.emit(b, causes)?,
        Some((first, inner)) => match &first.pairs {
            Pairs::Each => emit_each(alloc, b, first, inner, causes, body)?,
            Pairs::OrAlone(ons) => {
                emit_or_alone(alloc, b, first, ons.as_slice(), inner, causes, body)?;
            }
        },
    }
    Ok(())
}

/// A loop in which each row that is visited makes a pair.
#[cycle(nest)]
fn emit_each<B: LoopBody>(
    alloc: Global,
    b: &mut Builder,
    outer: &Loop,
    inner: &[Loop],
    causes: u32,
    body: &mut B,
) -> Result<(), AllocError>
    requires each { outer.now.pairs ≡ Each }
    requires taken { causes < b.old.next }
    requires owned { B.own body.old ≤ causes }
    requires counted { b.old.next ≤ b.old.most }
    ensures nests { OnOk result (Nests (loops_needs (outer.now ∷ inner.now) (B.needs body.old)) (outer.now ∷ inner.now) b.old b.new (B.own body.old) causes (nested (outer.now ∷ inner.now) (B.effect body.old)) (nested_steps (outer.now ∷ inner.now) (B.cost body.old))) }
    ensures keeps { OnOk result (KeepsWritten (B.effect body.old)) }
    ensures cursors { OnOk result (b.new.cursors ≡ b.old.cursors) }
    ensures units { OnOk result (b.new.units ≡ b.old.units) }
{
    let Places {
        end,
        top,
        next,
        mine,
    } = open_loop(b)?;
    emit_first_row(alloc, b, &outer.path, outer.place, end)?;
    b.bind(top)?;
    b.op(Op::Copy {
        from: causes,
        to: mine,
    })?;
    emit_conjuncts(alloc, b, outer.checks.as_slice(), mine, next)?;
    emit_nest(alloc, b, inner, mine, body)?;
    b.bind(next)?;
    b.op(Op::Next {
        cursor: outer.place,
        target: top,
    })?;
    b.bind(end)?;
    b.release(mine);
    Ok(())
}

/// A loop of a LEFT JOIN: where no row is kept that is visited, its body is done once with the cursor on no row. The flag is NULL until
/// a row is kept, so that `Next` behind that one turn more, which has no row to go to, leads to the end as well.
#[cycle(nest)]
fn emit_or_alone<B: LoopBody>(
    alloc: Global,
    b: &mut Builder,
    outer: &Loop,
    ons: &[Conjunct],
    inner: &[Loop],
    causes: u32,
    body: &mut B,
) -> Result<(), AllocError>
    requires alone { outer.now.pairs ≡ OrAlone ons.now }
    requires taken { causes < b.old.next }
    requires owned { B.own body.old ≤ causes }
    requires counted { b.old.next ≤ b.old.most }
    ensures nests { OnOk result (Nests (loops_needs (outer.now ∷ inner.now) (B.needs body.old)) (outer.now ∷ inner.now) b.old b.new (B.own body.old) causes (nested (outer.now ∷ inner.now) (B.effect body.old)) (nested_steps (outer.now ∷ inner.now) (B.cost body.old))) }
    ensures keeps { OnOk result (KeepsWritten (B.effect body.old)) }
    ensures cursors { OnOk result (b.new.cursors ≡ b.old.cursors) }
    ensures units { OnOk result (b.new.units ≡ b.old.units) }
{
    let pair = b.label()?;
    let done = b.label()?;
    let flag = b.take()?;
    let Places {
        end,
        top,
        next,
        mine,
    } = open_loop(b)?;
    b.op(Op::Null { to: flag })?;
    emit_first_row(alloc, b, &outer.path, outer.place, end)?;
    b.bind(top)?;
    b.op(Op::Copy {
        from: causes,
        to: mine,
    })?;
    emit_conjuncts(alloc, b, ons, mine, next)?;
    b.bind(pair)?;
    b.op(Op::Integer { value: 1, to: flag })?;
    emit_conjuncts(alloc, b, outer.checks.as_slice(), mine, next)?;
    emit_nest(alloc, b, inner, mine, body)?;
    b.bind(next)?;
    b.op(Op::Next {
        cursor: outer.place,
        target: top,
    })?;
    b.bind(end)?;
    b.op(Op::NotNull {
        register: flag,
        target: done,
    })?;
    b.op(Op::Copy {
        from: causes,
        to: mine,
    })?;
    b.op(Op::Goto { target: pair })?;
    b.bind(done)?;
    b.release(flag);
    Ok(())
}

/// The labels of a loop, behind it, of the code of a row and behind that code, and the register that holds the causes of its rows.
#[derive(Clone, Copy)]
struct Places {
    end: usize,
    top: usize,
    next: usize,
    mine: u32,
}

/// Labels and a register of a loop's own.
fn open_loop(b: &mut Builder) -> Result<Places, AllocError>
    ensures end { IfOk result (λ l. l.end ≡ length b.old.labels) }
    ensures top { IfOk result (λ l. l.top ≡ length (with_label b.old).labels) }
    ensures next { IfOk result (λ l. l.next ≡ length (with_label (with_label b.old)).labels) }
    ensures mine { IfOk result (λ l. l.mine ≡ b.old.next) }
    ensures b { OnOk result (b.new ≡ taken (with_label (with_label (with_label b.old)))) }
{
    let end = b.label()?;
    let top = b.label()?;
    let next = b.label()?;
    let mine = b.take()?;
    Ok(Places {
        end,
        top,
        next,
        mine,
    })
}
