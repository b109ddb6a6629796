// The rows that a path visits.
ghost use Rattle.std.specs.Prelude.{◌≡◌, ◌+◌, ◌<◌, ◌≤◌, length, sum_by, OnOk};
ghost use Rattle.gen_loop.specs.Loops.{key_steps};
ghost use Rattle.gen_loop.specs.Needs.{key_read, keys_read};
ghost use Rattle.gen_loop.specs.Stretches.{Comes, Seeks};
ghost use Rattle.plan_tree.specs.Visits.{key_out, key_outs};
ghost use Rattle.vm_code.specs.Frames.{Fills, Leaves, needing};

use gen_expr::emit_tree;
use plan_tree::{Key, Path, Search};
use sqlite_items::Items;
use std::alloc::{AllocError, Global};
use vm_code::{Builder, Op};

/// Writes code that brings a cursor that is open on a table onto the first row that a path visits, and goes to the label `end` where
/// there is none.
pub(crate) fn emit_first_row(
    alloc: Global,
    b: &mut Builder,
    path: &Path,
    cursor: u32,
    end: usize,
) -> Result<(), AllocError>
    requires counted { b.old.next ≤ b.old.most }
    ensures { OnOk result (Comes b.old b.new cursor end path.now) }
{
    match path {
        Path::Scan => b.op(Op::Rewind {
            cursor,
            target: end,
        }),
        Path::Search(search) => emit_search(alloc, b, search, cursor, end),
    }
}

/// The same of a search: its keys are in registers one after another, which are free behind it.
fn emit_search(
    alloc: Global,
    b: &mut Builder,
    search: &Search,
    cursor: u32,
    end: usize,
) -> Result<(), AllocError>
    requires counted { b.old.next ≤ b.old.most }
    ensures { OnOk result (Seeks b.old b.new cursor end search.now) }
{
    let first = b.next_register();
    emit_keys(alloc, b, search.keys.as_slice())?;
    let terms = Items::from_slice(alloc, search.terms.as_slice())?;
    b.op(Op::Search {
        cursor,
        terms,
        bounds: search.bounds,
        first,
        target: end,
    })?;
    b.release(first);
    Ok(())
}

/// Writes code that leaves keys in registers that it takes, one after another.
fn emit_keys(alloc: Global, b: &mut Builder, keys: &[Key]) -> Result<(), AllocError>
    requires counted { b.old.next ≤ b.old.most }
    ensures fills { OnOk result (Fills (needing (keys_read keys.now)) b.old b.new (length keys.now) (λ env. key_outs env keys.now) (λ _. sum_by key_steps keys.now)) }
    ensures cursors { OnOk result (b.new.cursors ≡ b.old.cursors) }
    ensures units { OnOk result (b.new.units ≡ b.old.units) }
{
    for key in keys {
        let to = b.take()?;
        emit_key(alloc, b, key, to)?;
    }
    Ok(())
}

/// Writes code that leaves a key in the register `to`: its value as the comparison takes it, by the affinities of both sides.
fn emit_key(alloc: Global, b: &mut Builder, key: &Key, to: u32) -> Result<(), AllocError>
    requires taken { to < b.old.next }
    requires counted { b.old.next ≤ b.old.most }
    ensures leaves { OnOk result (Leaves (needing (key_read key.now)) b.old b.new to (λ env. key_out key.now env) (λ _. key_steps key.now)) }
    ensures cursors { OnOk result (b.new.cursors ≡ b.old.cursors) }
    ensures units { OnOk result (b.new.units ≡ b.old.units) }
{
    emit_tree(alloc, b, key.value, to)?;
    b.op(Op::Beside {
        register: to,
        other: key.other,
        own: key.own,
    })
}
