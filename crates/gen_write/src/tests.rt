// The tests that a row passes before it is put.
ghost use Rattle.std.specs.Prelude.{◌≡◌, ◌≤◌, ◌<◌, [], ◌∷◌, None, IfOk, OnOk, Some, slice_get};
ghost use Rattle.eng_value.specs.declared.cause.ConstraintKind.TheVariants as constraint;
ghost use Rattle.gen_expr.specs.Needs.{needs_of};
ghost use Rattle.gen_write.specs.Stretches.{Checks, ChecksRow, with_null_refused, with_met_refused, with_met_tested, with_nulls_refused, with_refused, with_truth_refused};
ghost use Rattle.gen_write.specs.Writes.{may_be_met, needs_of_each, rowid_given};
ghost use Rattle.vm_code.specs.Frames.{needing};

use crate::rowids::{register_at, rowid_given};
use crate::rows::{ROW, TABLE};
use bound_tree::BoundExpr;
use eng_index::KeyTerm;
use eng_value::{Cause, ConstraintKind, Text};
use gen_expr::emit_truth;
use sql_meaning::{BoundInsert, PutColumn};
use sqlite_items::Items;
use std::alloc::{AllocError, Global};
use vm_code::{Builder, Op};

/// Writes code that gives up for a constraint of the table. The register serves for it.
fn refuse(
    b: &mut Builder,
    kind: ConstraintKind,
    table: &Text,
    register: u32,
) -> Result<(), AllocError>
    ensures { OnOk result (b.new ≡ with_refused b.old kind table.now register) }
{
    b.op(Op::Bad {
        cause: Cause::Constraint(kind, table.clone()?),
        to: register,
    })?;
    b.op(Op::HaltBad { register })
}

/// Writes code that gives up where a column is NULL that may not be. The columns are in the registers from `first` on.
pub(crate) fn refuse_nulls(
    b: &mut Builder,
    columns: &[PutColumn],
    table: &Text,
    first: u32,
    causes: u32,
) -> Result<(), AllocError>
    ensures { OnOk result (b.new ≡ with_nulls_refused b.old columns.now table.now first causes) }
{
    let mut register = first;
    for column in columns {
        if column.not_null {
            refuse_null(b, table, register, causes)?;
        }
        register = register_at(register, 1)?;
    }
    Ok(())
}

fn refuse_null(b: &mut Builder, table: &Text, register: u32, causes: u32) -> Result<(), AllocError>
    ensures { OnOk result (b.new ≡ with_null_refused b.old table.now register causes) }
{
    let next = b.label()?;
    b.op(Op::NotNull {
        register,
        target: next,
    })?;
    refuse(b, ConstraintKind::NotNull, table, causes)?;
    b.bind(next)
}

/// Writes code that lets the CHECKs read the row, and gives up at the first that is false or bad.
pub(crate) fn refuse_by_checks(
    alloc: Global,
    b: &mut Builder,
    checks: &[BoundExpr],
    table: &Text,
    rowid: u32,
    first: u32,
    count: u32,
) -> Result<(), AllocError>
    requires counted { b.old.next ≤ b.old.most }
    ensures checks { OnOk result (ChecksRow (needing (needs_of_each checks.now)) b.old b.new table.now checks.now rowid first count) }
    ensures cursors { OnOk result (b.new.cursors ≡ b.old.cursors) }
    ensures units { OnOk result (b.new.units ≡ b.old.units) }
{
    if checks.is_empty() {
        return Ok(());
    }
    b.op(Op::RowOf {
        cursor: ROW,
        rowid,
        first,
        count,
    })?;
    refuse_by_all(alloc, b, checks, table)?;
    b.op(Op::Close { cursor: ROW })?;
    Ok(())
}

fn refuse_by_all(
    alloc: Global,
    b: &mut Builder,
    checks: &[BoundExpr],
    table: &Text,
) -> Result<(), AllocError>
    requires counted { b.old.next ≤ b.old.most }
    ensures checks { OnOk result (Checks (needing (needs_of_each checks.now)) b.old b.new table.now checks.now) }
    ensures cursors { OnOk result (b.new.cursors ≡ b.old.cursors) }
    ensures units { OnOk result (b.new.units ≡ b.old.units) }
{
    for check in checks {
        refuse_by_check(alloc, b, check, table)?;
    }
    Ok(())
}

/// The same for one. NULL lets the row pass.
fn refuse_by_check(
    alloc: Global,
    b: &mut Builder,
    check: &BoundExpr,
    table: &Text,
) -> Result<(), AllocError>
    requires counted { b.old.next ≤ b.old.most }
    ensures checks { OnOk result (Checks (needing (needs_of check.now)) b.old b.new table.now (check.now ∷ [])) }
    ensures cursors { OnOk result (b.new.cursors ≡ b.old.cursors) }
    ensures units { OnOk result (b.new.units ≡ b.old.units) }
{
    let passed = b.label()?;
    let bad = b.label()?;
    let truth = b.take()?;
    emit_truth(alloc, b, check, truth)?;
    refuse_truth(b, truth, passed, bad, table)?;
    b.give_back();
    Ok(())
}

/// The same for what it came to, with the label behind it and that of giving up.
fn refuse_truth(
    b: &mut Builder,
    truth: u32,
    passed: usize,
    bad: usize,
    table: &Text,
) -> Result<(), AllocError>
    requires passed { slice_get b.old.labels passed ≡ Some None }
    requires bad { slice_get b.old.labels bad ≡ Some None }
    requires apart { passed < bad }
    ensures { OnOk result (b.new ≡ with_truth_refused b.old truth passed bad table.now) }
{
    b.op(Op::If {
        register: truth,
        target: passed,
        on_null: true,
    })?;
    b.op(Op::IsBad {
        register: truth,
        target: bad,
    })?;
    b.op(Op::Bad {
        cause: Cause::Constraint(ConstraintKind::Check, table.clone()?),
        to: truth,
    })?;
    b.bind(bad)?;
    b.op(Op::HaltBad { register: truth })?;
    b.bind(passed)
}

/// Writes code that gives up where a row of the table is in the way of the one that the registers hold as it is stored: it has the same rowid, or
/// shares a key with it. There is no code where the rowid is drawn and there are no keys.
pub(crate) fn refuse_met(
    alloc: Global,
    b: &mut Builder,
    insert: &BoundInsert,
    rowid: u32,
    first: u32,
    count: u32,
    causes: u32,
) -> Result<(), AllocError>
    ensures { OnOk result (b.new ≡ with_met_tested (may_be_met (rowid_given insert.now.rowid count) insert.now.keys) b.old insert.now.name insert.now.keys rowid first count causes) }
{
    if may_be_met(rowid_given(insert.rowid, count), insert.keys.as_slice()) {
        refuse_conflict(alloc, b, insert, rowid, first, count, causes)
    } else {
        Ok(())
    }
}

/// Whether a row may be in the way of one with what is given for its rowid.
fn may_be_met(given: Option<u32>, keys: &[Items<KeyTerm>]) -> bool
    ensures { result ≡ may_be_met given keys.now }
{
    match given {
        Some(_) => true,
        None => !keys.is_empty(),
    }
}

fn refuse_conflict(
    alloc: Global,
    b: &mut Builder,
    insert: &BoundInsert,
    rowid: u32,
    first: u32,
    count: u32,
    causes: u32,
) -> Result<(), AllocError>
    ensures { OnOk result (b.new ≡ with_met_refused b.old insert.now.name insert.now.keys rowid first count causes) }
{
    let free = b.label()?;
    let keys = copied(alloc, insert.keys.as_slice())?;
    b.op(Op::NoConflict {
        cursor: TABLE,
        rowid,
        first,
        count,
        keys,
        target: free,
    })?;
    refuse(b, ConstraintKind::Unique, &insert.name, causes)?;
    b.bind(free)
}

/// The same keys for one more instruction.
fn copied(alloc: Global, keys: &[Items<KeyTerm>]) -> Result<Items<Items<KeyTerm>>, AllocError>
    ensures { IfOk result (λ copy. copy ≡ keys.now) }
{
    let mut copy = Items::new(alloc);
    for terms in keys {
        copy.push(Items::from_slice(alloc, terms.as_slice())?)?;
    }
    Ok(copy)
}
