// The rows that an INSERT puts.
ghost use Rattle.std.specs.Prelude.{◌≡◌, ◌*◌, ◌<◌, ◌≤◌, [], ◌∷◌, false, length, IfOk, None, OnOk, Some};
ghost use Rattle.std.specs.List.{flat_map};
ghost use Rattle.std.specs.Option.{option_copied};
ghost use Rattle.gen_write.specs.Writes.{NamesWhatIsThere, column_with, columns_beside, default_needs, needs_within, row_put, row_steps, rows_run};
ghost use Rattle.gen_write.specs.Stretches.{AreAllKept, AreHeld, AreKept, Loads, Puts, Stores, kept_at, with_stored};
ghost use Rattle.vm_code.specs.Frames.{needing};

use crate::holding::is_held;
use crate::refusing::refuse_if;
use crate::rowids::{fix_rowid, is_within, rowid_given, store_rowid};
use crate::source::Kept;
use crate::tests::{refuse_by_checks, refuse_met, refuse_nulls};
use bound_tree::BoundExpr;
use eng_value::Affinity;
use gen_expr::{emit, emit_literal};
use sql_meaning::{BoundInsert, PutColumn, RowidFrom};
use sqlite_items::Items;
use std::alloc::{AllocError, Global};
use vm_code::{Builder, Op};

/// The cursor of the row that CHECKs read, which is their item 0.
pub(crate) const ROW: u32 = 0;
/// The cursor that is open on the table.
pub(crate) const TABLE: u32 = 1;

/// Writes code that puts each row of the source in turn. The registers of one row serve the next. There are no causes in the register
/// `causes` in front of a row.
pub(crate) fn put_rows(
    alloc: Global,
    b: &mut Builder,
    insert: &BoundInsert,
    causes: u32,
    source: &[Items<Kept>],
) -> Result<(), AllocError>
    requires taken { causes < b.old.next }
    requires counted { b.old.next ≤ b.old.most }
    requires cursors { b.old.cursors ≡ 2 }
    ensures puts { OnOk result (Puts (NamesWhatIsThere insert.now) b.old b.new insert.now.table causes (AreAllKept causes b.old.next source.now) (λ env. rows_run env insert.now) (length source.now * row_steps insert.now)) }
    ensures cursors { OnOk result (b.new.cursors ≡ b.old.cursors) }
    ensures units { OnOk result (b.new.units ≡ b.old.units) }
{
    for kept in source {
        put_row(alloc, b, insert, causes, kept.as_slice())?;
    }
    Ok(())
}

/// Writes code that stores the values that are placed for the columns, and their defaults, by the affinities, fixes the rowid, tests the row
/// and puts it, or gives up where it may not be put. Whether a row is in its way is tested on what is put, with the same registers.
fn put_row(
    alloc: Global,
    b: &mut Builder,
    insert: &BoundInsert,
    causes: u32,
    kept: &[Kept],
) -> Result<(), AllocError>
    requires taken { causes < b.old.next }
    requires counted { b.old.next ≤ b.old.most }
    requires cursors { b.old.cursors ≡ 2 }
    ensures puts { OnOk result (Puts (NamesWhatIsThere insert.now) b.old b.new insert.now.table causes (AreKept causes b.old.next kept.now) (λ env. row_put env insert.now) (row_steps insert.now)) }
    ensures cursors { OnOk result (b.new.cursors ≡ b.old.cursors) }
    ensures units { OnOk result (b.new.units ≡ b.old.units) }
{
    let first = b.next_register();
    let stored = emit_columns(alloc, b, insert.columns.as_slice(), kept, causes)?;
    let count = b.next_register() - first;
    let beside = emit_beside(b, insert.rowid, kept, causes)?;
    let may_fail = stored | beside;
    refuse_if(b, may_fail, causes)?;
    let given = rowid_given(insert.rowid, count);
    let rowid = fix_rowid(b, given, first, &insert.name)?;
    refuse_nulls(b, insert.columns.as_slice(), &insert.name, first, causes)?;
    refuse_by_checks(
        alloc,
        b,
        insert.checks.as_slice(),
        &insert.name,
        rowid,
        first,
        count,
    )?;
    let is_within = is_within(insert.rowid, count);
    let rowid = store_rowid(b, is_within, rowid)?;
    refuse_met(alloc, b, insert, rowid, first, count, causes)?;
    b.op(Op::Insert {
        cursor: TABLE,
        rowid,
        first,
        count,
    })?;
    b.release(first);
    Ok(())
}

/// Writes code that leaves what the columns store of a row's values in registers that it takes, one after another, and adds their
/// causes to those in the register `causes`. Whether there may be any.
fn emit_columns(
    alloc: Global,
    b: &mut Builder,
    columns: &[PutColumn],
    kept: &[Kept],
    causes: u32,
) -> Result<bool, AllocError>
    requires taken { causes < b.old.next }
    requires counted { b.old.next ≤ b.old.most }
    ensures stores { IfOk result (λ may. Stores (needing (flat_map default_needs columns.now)) b.old b.new causes kept.now columns.now) }
    ensures held { IfOk result (λ may. may ≡ false → AreHeld kept.now columns.now) }
    ensures cursors { OnOk result (b.new.cursors ≡ b.old.cursors) }
    ensures units { OnOk result (b.new.units ≡ b.old.units) }
{
    let mut may_fail = false;
    for column in columns {
        let may = emit_column(alloc, b, column, kept, causes)?;
        may_fail |= may;
    }
    Ok(may_fail)
}

/// The same for one column.
fn emit_column(
    alloc: Global,
    b: &mut Builder,
    column: &PutColumn,
    kept: &[Kept],
    causes: u32,
) -> Result<bool, AllocError>
    requires taken { causes < b.old.next }
    requires counted { b.old.next ≤ b.old.most }
    ensures stores { IfOk result (λ may. Stores (needing (default_needs column.now)) b.old b.new causes kept.now (column.now ∷ [])) }
    ensures held { IfOk result (λ may. may ≡ false → AreHeld kept.now (column.now ∷ [])) }
    ensures cursors { OnOk result (b.new.cursors ≡ b.old.cursors) }
    ensures units { OnOk result (b.new.units ≡ b.old.units) }
{
    match column.place {
        Some(place) => emit_value(b, column.affinity, Some(place), kept, causes),
        None => emit_default(alloc, b, column.affinity, &column.default, kept, causes),
    }
}

/// The same for one without a value, which is NULL where it has no default.
fn emit_default(
    alloc: Global,
    b: &mut Builder,
    affinity: Affinity,
    default: &Option<BoundExpr>,
    kept: &[Kept],
    causes: u32,
) -> Result<bool, AllocError>
    requires taken { causes < b.old.next }
    requires counted { b.old.next ≤ b.old.most }
    ensures stores { IfOk result (λ may. Stores (needing (needs_within default.now)) b.old b.new causes kept.now (column_with affinity None default.now ∷ [])) }
    ensures held { IfOk result (λ may. may ≡ false → AreHeld kept.now (column_with affinity None default.now ∷ [])) }
    ensures cursors { OnOk result (b.new.cursors ≡ b.old.cursors) }
    ensures units { OnOk result (b.new.units ≡ b.old.units) }
{
    match default {
        None => emit_value(b, affinity, None, kept, causes),
        Some(default) => {
            let to = b.take()?;
            emit(alloc, b, default, to)?;
            store(b, affinity, to, causes)?;
            Ok(true)
        }
    }
}

/// The same for what is given for the rowid beside the columns.
fn emit_beside(
    b: &mut Builder,
    from: RowidFrom,
    kept: &[Kept],
    causes: u32,
) -> Result<bool, AllocError>
    requires taken { causes < b.old.next }
    requires counted { b.old.next ≤ b.old.most }
    ensures stores { IfOk result (λ may. Stores (needing []) b.old b.new causes kept.now (columns_beside from)) }
    ensures held { IfOk result (λ may. may ≡ false → AreHeld kept.now (columns_beside from)) }
    ensures cursors { OnOk result (b.new.cursors ≡ b.old.cursors) }
    ensures units { OnOk result (b.new.units ≡ b.old.units) }
{
    match from {
        RowidFrom::Given(place) => emit_value(b, Affinity::Integer, Some(place), kept, causes),
        RowidFrom::Drawn => Ok(false),
        RowidFrom::Column(_) => Ok(false),
    }
}

/// Writes code for the value at a place, which is NULL where there is none. What a column of this affinity stores as it is takes no
/// more than an instruction.
fn emit_value(
    b: &mut Builder,
    affinity: Affinity,
    place: Option<u32>,
    kept: &[Kept],
    causes: u32,
) -> Result<bool, AllocError>
    requires taken { causes < b.old.next }
    requires counted { b.old.next ≤ b.old.most }
    ensures stores { IfOk result (λ may. Stores (needing []) b.old b.new causes kept.now (column_with affinity place None ∷ [])) }
    ensures held { IfOk result (λ may. may ≡ false → AreHeld kept.now (column_with affinity place None ∷ [])) }
    ensures cursors { OnOk result (b.new.cursors ≡ b.old.cursors) }
    ensures units { OnOk result (b.new.units ≡ b.old.units) }
{
    let to = b.take()?;
    let value = kept_at(kept, place);
    load(b, value, to)?;
    if is_held(affinity, value) {
        return Ok(false);
    }
    store(b, affinity, to, causes)?;
    Ok(true)
}

fn store(b: &mut Builder, affinity: Affinity, to: u32, causes: u32) -> Result<(), AllocError>
    ensures { OnOk result (b.new ≡ with_stored b.old affinity to causes) }
{
    b.op(Op::Affinity {
        register: to,
        affinity,
    })?;
    b.op(Op::Merge {
        from: to,
        to: causes,
    })
}

/// What is kept of the value at a place of a row, if there is one.
fn kept_at<'a, 'b>(kept: &'b [Kept<'a>], place: Option<u32>) -> Option<&'b Kept<'a>>
    ensures { option_copied result ≡ kept_at kept.now place }
{
    match place {
        None => None,
        Some(place) => kept.get(place as usize),
    }
}

/// Writes code that leaves a value that was kept in the register `to`, and NULL where there is none.
fn load(b: &mut Builder, kept: Option<&Kept>, to: u32) -> Result<(), AllocError>
    requires taken { to < b.old.next }
    requires counted { b.old.next ≤ b.old.most }
    ensures loads { OnOk result (Loads (needing []) b.old b.new to (option_copied kept.entry)) }
    ensures cursors { OnOk result (b.new.cursors ≡ b.old.cursors) }
    ensures units { OnOk result (b.new.units ≡ b.old.units) }
{
    match kept {
        None => b.op(Op::Null { to })?,
        Some(kept) => load_kept(b, kept, to)?,
    }
    Ok(())
}

fn load_kept(b: &mut Builder, kept: &Kept, to: u32) -> Result<(), AllocError>
    requires taken { to < b.old.next }
    requires counted { b.old.next ≤ b.old.most }
    ensures loads { OnOk result (Loads (needing []) b.old b.new to (Some kept.now)) }
    ensures cursors { OnOk result (b.new.cursors ≡ b.old.cursors) }
    ensures units { OnOk result (b.new.units ≡ b.old.units) }
{
    match kept {
        Kept::Literal(literal) => emit_literal(b, literal, to)?,
        Kept::Register(from) => b.op(Op::Copy { from: *from, to })?,
    }
    Ok(())
}
