// What expressions do.
ghost use Rattle.std.specs.Prelude.{◌≡◌, ◌++◌, [], ◌∷◌, Some, IfOk, OnOk, map, slice_get};
ghost use Rattle.bound_tree.specs.Exprs.{arms, exprs, matches};
ghost use Rattle.bound_tree.specs.Seen.{seen, seen_arm, seen_match};
ghost use Rattle.bound_actions.specs.Expressions.{call, column_read, lists_in, pieces_in, pieces_in_arms, pieces_in_matches, pieces_of, read_as, rowid_read};
ghost use Rattle.bound_actions.specs.Froms.{all_pieces};
ghost use Rattle.bound_actions.specs.Pieces.{action};
ghost use Rattle.bound_actions.specs.declared.pieces.Piece.TheVariants.{Does};

use crate::pieces::{new_action, put_asked, put_unit};
use crate::words::builtin_word;
use crate::{Piece, Readable, Spot};
use bound_tree::{ArmTree, BoundExpr, ExprTree, MatchTree};
use eng_value::{ActionKind, Text};
use sqlite_items::{Items, at};
use std::alloc::{AllocError, Global};

// ---- single actions

pub(crate) fn put_action(
    alloc: Global,
    spot: &Spot,
    kind: ActionKind,
    first: &str,
    second: &str,
    out: &mut Items<Piece>,
) -> Result<(), AllocError>
    ensures { OnOk result (out.new ≡ out.old ++ Does (action spot.now.within kind first.now second.now) ∷ []) }
{
    let action = new_action(alloc, &spot.within, kind, first, second)?;
    out.push(Piece::Does(action))
}

pub(crate) fn put_call(
    alloc: Global,
    spot: &Spot,
    name: &str,
    out: &mut Items<Piece>,
) -> Result<(), AllocError>
    ensures { OnOk result (out.new ≡ out.old ++ call spot.now name.now ∷ []) }
{
    put_action(alloc, spot, ActionKind::Function, name, "", out)
}

fn put_read(
    alloc: Global,
    spot: &Spot,
    item: u32,
    column: &str,
    table: &Option<Text>,
    out: &mut Items<Piece>,
) -> Result<(), AllocError>
    ensures { OnOk result (out.new ≡ out.old ++ read_as spot.now item (Some column.now) table.now) }
{
    match table {
        Some(table) => {
            let read = ActionKind::Read;
            let action = new_action(alloc, &spot.within, read, table.as_str(), column)?;
            out.push(Piece::Reads(item, action))
        }
        None => Ok(()),
    }
}

fn put_column_of(
    alloc: Global,
    spot: &Spot,
    item: u32,
    column: u32,
    read: &Readable,
    out: &mut Items<Piece>,
) -> Result<(), AllocError>
    ensures { OnOk result (out.new ≡ out.old ++ column_read spot.now item column (Some read.now)) }
{
    match at(read.columns.as_slice(), column as usize) {
        Some(name) => put_read(alloc, spot, item, name.as_str(), &read.table, out),
        None => Ok(()),
    }
}

fn put_column(
    alloc: Global,
    spot: &Spot,
    item: u32,
    column: u32,
    out: &mut Items<Piece>,
) -> Result<(), AllocError>
    ensures { OnOk result (out.new ≡ out.old ++ column_read spot.now item column (slice_get spot.now.items item)) }
{
    match at(spot.items.as_slice(), item as usize) {
        Some(read) => put_column_of(alloc, spot, item, column, read, out),
        None => Ok(()),
    }
}

fn put_rowid(
    alloc: Global,
    spot: &Spot,
    item: u32,
    out: &mut Items<Piece>,
) -> Result<(), AllocError>
    ensures { OnOk result (out.new ≡ out.old ++ rowid_read spot.now item (slice_get spot.now.items item)) }
{
    match at(spot.items.as_slice(), item as usize) {
        Some(read) => put_read(alloc, spot, item, "rowid", &read.table, out),
        None => Ok(()),
    }
}

// ---- stored trees

/// What a stored tree does, over what the units in front do.
#[cycle(listing)]
#[tactic(auto, using(crate::proofs::TreeLaws::does_laws))]
fn put_tree(
    alloc: Global,
    units: &[Items<Piece>],
    spot: &Spot,
    e: &ExprTree,
    out: &mut Items<Piece>,
) -> Result<(), AllocError>
    ensures { OnOk result (out.new ≡ out.old ++ pieces_of units.now spot.now (seen e.now)) }
{
    match e {
        ExprTree::Literal(_) => Ok(()),
        ExprTree::Parameter(_) => Ok(()),
        ExprTree::Column { item, column } => put_column(alloc, spot, *item, *column, out),
        ExprTree::Rowid { item } => put_rowid(alloc, spot, *item, out),
        ExprTree::Argument(place) => out.push(Piece::Brings(*place)),
        ExprTree::Aggregate(slot) => put_unit(spot.slots.as_slice(), *slot, out),
        ExprTree::Unary(_, a) => put_tree(alloc, units, spot, a.get(), out),
        ExprTree::Binary(_, a, b) => {
            put_tree(alloc, units, spot, a.get(), out)?;
            put_tree(alloc, units, spot, b.get(), out)
        }
        ExprTree::LikeEscaped(a, b, c) => {
            put_tree(alloc, units, spot, a.get(), out)?;
            put_tree(alloc, units, spot, b.get(), out)?;
            put_tree(alloc, units, spot, c.get(), out)
        }
        ExprTree::Between(_, _, a, low, high) => {
            put_tree(alloc, units, spot, a.get(), out)?;
            put_tree(alloc, units, spot, low.get(), out)?;
            put_tree(alloc, units, spot, high.get(), out)
        }
        ExprTree::In(_, a, others) => {
            put_tree(alloc, units, spot, a.get(), out)?;
            put_trees(alloc, units, spot, others.as_slice(), out)
        }
        ExprTree::Choose(arms, last) => {
            put_arms(alloc, units, spot, arms.as_slice(), out)?;
            put_tree(alloc, units, spot, last.get(), out)
        }
        ExprTree::Match(a, arms, last) => {
            put_tree(alloc, units, spot, a.get(), out)?;
            put_matches(alloc, units, spot, arms.as_slice(), out)?;
            put_tree(alloc, units, spot, last.get(), out)
        }
        ExprTree::Iif(a, b, c) => {
            put_call(alloc, spot, "iif", out)?;
            put_tree(alloc, units, spot, a.get(), out)?;
            put_tree(alloc, units, spot, b.get(), out)?;
            put_tree(alloc, units, spot, c.get(), out)
        }
        ExprTree::Coalesce(function, args) => {
            put_call(alloc, spot, builtin_word(*function), out)?;
            put_trees(alloc, units, spot, args.as_slice(), out)
        }
        ExprTree::Call(function, _, args) => {
            put_call(alloc, spot, builtin_word(*function), out)?;
            put_trees(alloc, units, spot, args.as_slice(), out)
        }
        ExprTree::HostCall(name, args) => {
            put_call(alloc, spot, name.as_str(), out)?;
            put_trees(alloc, units, spot, args.as_slice(), out)
        }
        ExprTree::Scalar(unit, handed) => {
            let lists = lists_of(alloc, units, spot, handed.as_slice())?;
            put_asked(units, *unit, lists.as_slice(), out)
        }
        ExprTree::Exists(unit, handed) => {
            let lists = lists_of(alloc, units, spot, handed.as_slice())?;
            put_asked(units, *unit, lists.as_slice(), out)
        }
        ExprTree::InQuery(_, a, unit, handed) => {
            put_tree(alloc, units, spot, a.get(), out)?;
            let lists = lists_of(alloc, units, spot, handed.as_slice())?;
            put_asked(units, *unit, lists.as_slice(), out)
        }
        ExprTree::RaiseIgnore => Ok(()),
        ExprTree::RaiseAbort(_) => Ok(()),
    }
}

#[cycle(listing)]
fn put_trees(
    alloc: Global,
    units: &[Items<Piece>],
    spot: &Spot,
    es: &[ExprTree],
    out: &mut Items<Piece>,
) -> Result<(), AllocError>
    ensures { OnOk result (out.new ≡ out.old ++ pieces_in units.now spot.now (exprs (map seen es.now))) }
{
    for e in es {
        put_tree(alloc, units, spot, e, out)?;
    }
    Ok(())
}

#[cycle(listing)]
#[tactic(auto, using(crate::proofs::TreeLaws::list_laws))]
fn put_arms(
    alloc: Global,
    units: &[Items<Piece>],
    spot: &Spot,
    those: &[ArmTree],
    out: &mut Items<Piece>,
) -> Result<(), AllocError>
    ensures { OnOk result (out.new ≡ out.old ++ pieces_in_arms units.now spot.now (arms (map seen_arm those.now))) }
{
    for arm in those {
        put_tree(alloc, units, spot, &arm.condition, out)?;
        put_tree(alloc, units, spot, &arm.value, out)?;
    }
    Ok(())
}

#[cycle(listing)]
#[tactic(auto, using(crate::proofs::TreeLaws::list_laws))]
fn put_matches(
    alloc: Global,
    units: &[Items<Piece>],
    spot: &Spot,
    those: &[MatchTree],
    out: &mut Items<Piece>,
) -> Result<(), AllocError>
    ensures { OnOk result (out.new ≡ out.old ++ pieces_in_matches units.now spot.now (matches (map seen_match those.now))) }
{
    for arm in those {
        put_tree(alloc, units, spot, &arm.operand, out)?;
        put_tree(alloc, units, spot, &arm.value, out)?;
    }
    Ok(())
}

/// What each of these does.
#[cycle(listing)]
fn lists_of(
    alloc: Global,
    units: &[Items<Piece>],
    spot: &Spot,
    es: &[ExprTree],
) -> Result<Items<Items<Piece>>, AllocError>
    ensures { IfOk result (λ lists. lists ≡ lists_in units.now spot.now (exprs (map seen es.now))) }
{
    let mut lists = Items::new(alloc);
    for e in es {
        let mut list = Items::new(alloc);
        put_tree(alloc, units, spot, e, &mut list)?;
        lists.push(list)?;
    }
    Ok(lists)
}

// ---- expressions

pub(crate) fn put_expr(
    alloc: Global,
    units: &[Items<Piece>],
    spot: &Spot,
    e: &BoundExpr,
    out: &mut Items<Piece>,
) -> Result<(), AllocError>
    ensures { OnOk result (out.new ≡ out.old ++ pieces_of units.now spot.now e.now) }
{
    put_tree(alloc, units, spot, e.tree(), out)
}

pub(crate) fn put_all(
    alloc: Global,
    units: &[Items<Piece>],
    spot: &Spot,
    es: &[BoundExpr],
    out: &mut Items<Piece>,
) -> Result<(), AllocError>
    ensures { OnOk result (out.new ≡ out.old ++ all_pieces units.now spot.now es.now) }
{
    for e in es {
        put_expr(alloc, units, spot, e, out)?;
    }
    Ok(())
}

fn list_of(
    alloc: Global,
    units: &[Items<Piece>],
    spot: &Spot,
    e: &BoundExpr,
) -> Result<Items<Piece>, AllocError>
    ensures { IfOk result (λ list. list ≡ pieces_of units.now spot.now e.now) }
{
    let mut list = Items::new(alloc);
    put_expr(alloc, units, spot, e, &mut list)?;
    Ok(list)
}

/// What each of these does, which is handed over.
pub(crate) fn handed_of(
    alloc: Global,
    units: &[Items<Piece>],
    spot: &Spot,
    es: &[BoundExpr],
) -> Result<Items<Items<Piece>>, AllocError>
    ensures { IfOk result (λ lists. lists ≡ map (pieces_of units.now spot.now) es.now) }
{
    let mut lists = Items::new(alloc);
    for e in es {
        lists.push(list_of(alloc, units, spot, e)?)?;
    }
    Ok(lists)
}
