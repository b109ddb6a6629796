// The source of an INSERT.
ghost use Rattle.std.specs.Prelude.{◌≡◌, ◌<◌, ◌≤◌, [], ◌∷◌, IfOk, OnOk, is_some};
ghost use Rattle.std.specs.List.{flat_map};
ghost use Rattle.std.specs.Option.{option_copied};
ghost use Rattle.gen_write.specs.Stretches.{KeepsRows, KeepsValues};
ghost use Rattle.gen_expr.specs.Needs.{needs_of};
ghost use Rattle.gen_write.specs.Writes.{needs_of_each, plain_literal, plain_of};
ghost use Rattle.vm_code.specs.Frames.{needing};

use crate::refusing::refuse_bad;
use bound_tree::{BoundExpr, ExprTree};
use gen_expr::emit;
use sql_words::Literal;
use sqlite_items::Items;
use std::alloc::{AllocError, Global};
use vm_code::{Builder, Op};

/// Where the value of an expression of the source stands until its row is put.
#[derive(Drop)]
pub(crate) enum Kept<'a> {
    /// In the literal, which has a value, and is loaded where that is put.
    Literal(&'a Literal),
    /// In this register.
    Register(u32),
}

/// Writes code that evaluates the rows of the source in turn, and gives up behind the first that is bad, for its causes. What their
/// expressions came to is then kept in registers that it takes.
pub(crate) fn keep_rows<'a>(
    alloc: Global,
    b: &mut Builder,
    rows: &'a [Items<BoundExpr>],
    causes: u32,
) -> Result<Items<Items<Kept<'a>>>, AllocError>
    requires taken { causes < b.old.next }
    requires counted { b.old.next ≤ b.old.most }
    ensures keeps { IfOk result (λ source. KeepsRows (needing (flat_map needs_of_each rows.now)) b.old b.new causes rows.now source) }
    ensures cursors { OnOk result (b.new.cursors ≡ b.old.cursors) }
    ensures units { OnOk result (b.new.units ≡ b.old.units) }
{
    let mut source = Items::new(alloc);
    for row in rows {
        source.push(keep_row(alloc, b, row.as_slice(), causes)?)?;
    }
    Ok(source)
}

/// The same for one row. One that is made of values alone is never bad.
fn keep_row<'a>(
    alloc: Global,
    b: &mut Builder,
    row: &'a [BoundExpr],
    causes: u32,
) -> Result<Items<Kept<'a>>, AllocError>
    requires taken { causes < b.old.next }
    requires counted { b.old.next ≤ b.old.most }
    ensures keeps { IfOk result (λ kept. KeepsRows (needing (needs_of_each row.now)) b.old b.new causes (row.now ∷ []) (kept ∷ [])) }
    ensures cursors { OnOk result (b.new.cursors ≡ b.old.cursors) }
    ensures units { OnOk result (b.new.units ≡ b.old.units) }
{
    let first = b.next_register();
    let kept = keep_values(alloc, b, row, causes)?;
    if b.next_register() > first {
        refuse_bad(b, causes)?;
    }
    Ok(kept)
}

/// Writes code that evaluates the expressions of a row, and adds their causes to those in the register `causes`.
fn keep_values<'a>(
    alloc: Global,
    b: &mut Builder,
    row: &'a [BoundExpr],
    causes: u32,
) -> Result<Items<Kept<'a>>, AllocError>
    requires taken { causes < b.old.next }
    requires counted { b.old.next ≤ b.old.most }
    ensures keeps { IfOk result (λ kept. KeepsValues (needing (needs_of_each row.now)) b.old b.new causes row.now kept) }
    ensures cursors { OnOk result (b.new.cursors ≡ b.old.cursors) }
    ensures units { OnOk result (b.new.units ≡ b.old.units) }
{
    let mut kept = Items::new(alloc);
    for e in row {
        kept.push(keep_value(alloc, b, e, causes)?)?;
    }
    Ok(kept)
}

/// The same for one expression. What is always good and the same takes no code.
fn keep_value<'a>(
    alloc: Global,
    b: &mut Builder,
    e: &'a BoundExpr,
    causes: u32,
) -> Result<Kept<'a>, AllocError>
    requires taken { causes < b.old.next }
    requires counted { b.old.next ≤ b.old.most }
    ensures keeps { IfOk result (λ kept. KeepsValues (needing (needs_of e.now)) b.old b.new causes (e.now ∷ []) (kept ∷ [])) }
    ensures cursors { OnOk result (b.new.cursors ≡ b.old.cursors) }
    ensures units { OnOk result (b.new.units ≡ b.old.units) }
{
    match plain_literal(e) {
        Some(literal) => Ok(Kept::Literal(literal)),
        None => {
            let register = b.take()?;
            emit(alloc, b, e, register)?;
            b.op(Op::Merge {
                from: register,
                to: causes,
            })?;
            Ok(Kept::Register(register))
        }
    }
}

/// The literal that an expression is, if that has a value.
fn plain_literal(e: &BoundExpr) -> Option<&Literal>
    ensures { option_copied result ≡ plain_literal e.now }
{
    match e.tree() {
        ExprTree::Literal(literal) if has_value(literal) => Some(literal),
        _ => None,
    }
}

fn has_value(literal: &Literal) -> bool
    ensures { result ≡ is_some (plain_of literal.now) }
{
    match literal {
        Literal::Value(_) => true,
        Literal::Bad(_) => false,
    }
}
