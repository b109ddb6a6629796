// Expressions as they read rows that are stored: NULL in place of the columns that are ignored, and the rowid in place of the column that is it.
ghost use Rattle.std.specs.Prelude.{◌≡◌, IfOk, Some, map};
ghost use Rattle.std.specs.List.{list_any};
ghost use Rattle.bound_tree.specs.Seen.{seen, seen_arm, seen_match};
ghost use Rattle.bound_ignored.specs.Erased.{column_or_rowid, erased, erased_arm, erased_match, is_marked, is_rowid, marks_of, null, or_null, same_place};

use bound_tree::{ArmTree, BoundArm, BoundExpr, BoundItem, BoundMatch, ExprTree, MatchTree};
use eng_value::Value;
use sql_words::Literal;
use sqlite_items::{Items, at};
use std::alloc::{AllocError, Global};

// ---- what is marked

fn is_same_place(a: Option<u32>, b: Option<u32>) -> bool
    ensures { result ≡ same_place a b }
{
    match (a, b) {
        (None, None) => true,
        (Some(a), Some(b)) => a == b,
        _ => false,
    }
}

fn is_among(place: Option<u32>, places: &[Option<u32>]) -> bool
    ensures { result ≡ list_any (same_place place) places.now }
{
    for other in places {
        if is_same_place(place, *other) {
            return true;
        }
    }
    false
}

/// Whether this column of an item is ignored, or without a place its rowid.
#[tactic(auto, using(crate::proofs::Marks::marks_of_at))]
fn is_marked(items: &[BoundItem], item: u32, place: Option<u32>) -> bool
    ensures { result ≡ is_marked (marks_of items.now) item place }
{
    match at(items, item as usize) {
        Some(item) => is_among(place, item.ignored.as_slice()),
        None => false,
    }
}

/// Whether this column of an item is its rowid.
#[tactic(auto, using(crate::proofs::Marks::marks_of_at))]
fn is_rowid(items: &[BoundItem], item: u32, column: u32) -> bool
    ensures { result ≡ is_rowid (marks_of items.now) item column }
{
    match at(items, item as usize) {
        Some(item) => is_same_place(Some(column), item.rowid),
        None => false,
    }
}

fn null() -> BoundExpr
    ensures { result ≡ null }
{
    BoundExpr::literal(Literal::Value(Value::Null))
}

/// NULL, or else the expression.
fn or_null(is_marked: bool, e: BoundExpr) -> BoundExpr
    ensures { result ≡ or_null is_marked e }
{
    if is_marked { null() } else { e }
}

/// The column, or the rowid where it is that.
fn column_or_rowid(is_rowid: bool, item: u32, column: u32) -> BoundExpr
    ensures { result ≡ column_or_rowid is_rowid item column }
{
    if is_rowid {
        BoundExpr::rowid(item)
    } else {
        BoundExpr::column(item, column)
    }
}

// ---- stored trees

#[cycle(erasing)]
#[tactic(auto, using(crate::proofs::ErasedTrees::erased_laws))]
fn erased_tree(alloc: Global, items: &[BoundItem], e: &ExprTree) -> Result<BoundExpr, AllocError>
    ensures { IfOk result (λ made. made ≡ erased (marks_of items.now) (seen e.now)) }
{
    match e {
        ExprTree::Literal(literal) => Ok(BoundExpr::literal(literal.clone()?)),
        ExprTree::Parameter(number) => Ok(BoundExpr::parameter(*number)),
        ExprTree::Column { item, column } => {
            let is_marked = is_marked(items, *item, Some(*column));
            let is_rowid = is_rowid(items, *item, *column);
            Ok(or_null(is_marked, column_or_rowid(is_rowid, *item, *column)))
        }
        ExprTree::Rowid { item } => {
            let is_marked = is_marked(items, *item, None);
            Ok(or_null(is_marked, BoundExpr::rowid(*item)))
        }
        ExprTree::Argument(place) => Ok(BoundExpr::argument(*place)),
        ExprTree::Aggregate(slot) => Ok(BoundExpr::aggregate(*slot)),
        ExprTree::Unary(op, a) => {
            let a = erased_tree(alloc, items, a.get())?;
            BoundExpr::unary(alloc, *op, a)
        }
        ExprTree::Binary(op, a, b) => {
            let a = erased_tree(alloc, items, a.get())?;
            let b = erased_tree(alloc, items, b.get())?;
            BoundExpr::binary(alloc, *op, a, b)
        }
        ExprTree::LikeEscaped(a, b, c) => {
            let a = erased_tree(alloc, items, a.get())?;
            let b = erased_tree(alloc, items, b.get())?;
            let c = erased_tree(alloc, items, c.get())?;
            BoundExpr::like_escaped(alloc, a, b, c)
        }
        ExprTree::Between(above, below, a, low, high) => {
            let a = erased_tree(alloc, items, a.get())?;
            let low = erased_tree(alloc, items, low.get())?;
            let high = erased_tree(alloc, items, high.get())?;
            BoundExpr::between(alloc, *above, *below, a, low, high)
        }
        ExprTree::In(sides, a, others) => {
            let a = erased_tree(alloc, items, a.get())?;
            let others = erased_trees(alloc, items, others.as_slice())?;
            BoundExpr::member(alloc, *sides, a, others)
        }
        ExprTree::Choose(arms, last) => {
            let arms = erased_arms(alloc, items, arms.as_slice())?;
            let last = erased_tree(alloc, items, last.get())?;
            BoundExpr::choose(alloc, arms, last)
        }
        ExprTree::Match(a, arms, last) => {
            let a = erased_tree(alloc, items, a.get())?;
            let arms = erased_matches(alloc, items, arms.as_slice())?;
            let last = erased_tree(alloc, items, last.get())?;
            BoundExpr::matched(alloc, a, arms, last)
        }
        ExprTree::Iif(a, b, c) => {
            let a = erased_tree(alloc, items, a.get())?;
            let b = erased_tree(alloc, items, b.get())?;
            let c = erased_tree(alloc, items, c.get())?;
            BoundExpr::iif(alloc, a, b, c)
        }
        ExprTree::Coalesce(function, args) => {
            let args = erased_trees(alloc, items, args.as_slice())?;
            BoundExpr::coalesce(alloc, *function, args)
        }
        ExprTree::Call(function, collation, args) => {
            let args = erased_trees(alloc, items, args.as_slice())?;
            BoundExpr::call(alloc, *function, *collation, args)
        }
        ExprTree::HostCall(name, args) => {
            let name = name.clone()?;
            let args = erased_trees(alloc, items, args.as_slice())?;
            BoundExpr::host_call(alloc, name, args)
        }
        ExprTree::Scalar(unit, handed) => {
            let handed = erased_trees(alloc, items, handed.as_slice())?;
            BoundExpr::scalar(alloc, *unit, handed)
        }
        ExprTree::Exists(unit, handed) => {
            let handed = erased_trees(alloc, items, handed.as_slice())?;
            BoundExpr::exists(alloc, *unit, handed)
        }
        ExprTree::InQuery(sides, a, unit, handed) => {
            let a = erased_tree(alloc, items, a.get())?;
            let handed = erased_trees(alloc, items, handed.as_slice())?;
            BoundExpr::in_query(alloc, *sides, a, *unit, handed)
        }
        ExprTree::RaiseIgnore => Ok(BoundExpr::raise_ignore()),
        ExprTree::RaiseAbort(text) => Ok(BoundExpr::raise_abort(text.clone()?)),
    }
}

#[cycle(erasing)]
fn erased_trees(
    alloc: Global,
    items: &[BoundItem],
    es: &[ExprTree],
) -> Result<Items<BoundExpr>, AllocError>
    ensures { IfOk result (λ made. made ≡ map (erased (marks_of items.now)) (map seen es.now)) }
{
    let mut made = Items::new(alloc);
    for e in es {
        made.push(erased_tree(alloc, items, e)?)?;
    }
    Ok(made)
}

#[cycle(erasing)]
fn erased_arms(
    alloc: Global,
    items: &[BoundItem],
    arms: &[ArmTree],
) -> Result<Items<BoundArm>, AllocError>
    ensures { IfOk result (λ made. made ≡ map (erased_arm (marks_of items.now)) (map seen_arm arms.now)) }
{
    let mut made = Items::new(alloc);
    for arm in arms {
        made.push(erased_arm(alloc, items, arm)?)?;
    }
    Ok(made)
}

#[cycle(erasing)]
#[tactic(auto, using(crate::proofs::ErasedTrees::arm_laws))]
fn erased_arm(alloc: Global, items: &[BoundItem], arm: &ArmTree) -> Result<BoundArm, AllocError>
    ensures { IfOk result (λ made. made ≡ erased_arm (marks_of items.now) (seen_arm arm.now)) }
{
    let condition = erased_tree(alloc, items, &arm.condition)?;
    let value = erased_tree(alloc, items, &arm.value)?;
    Ok(BoundArm::new(condition, value))
}

#[cycle(erasing)]
fn erased_matches(
    alloc: Global,
    items: &[BoundItem],
    arms: &[MatchTree],
) -> Result<Items<BoundMatch>, AllocError>
    ensures { IfOk result (λ made. made ≡ map (erased_match (marks_of items.now)) (map seen_match arms.now)) }
{
    let mut made = Items::new(alloc);
    for arm in arms {
        made.push(erased_match(alloc, items, arm)?)?;
    }
    Ok(made)
}

#[cycle(erasing)]
#[tactic(auto, using(crate::proofs::ErasedTrees::arm_laws))]
fn erased_match(
    alloc: Global,
    items: &[BoundItem],
    arm: &MatchTree,
) -> Result<BoundMatch, AllocError>
    ensures { IfOk result (λ made. made ≡ erased_match (marks_of items.now) (seen_match arm.now)) }
{
    let operand = erased_tree(alloc, items, &arm.operand)?;
    let value = erased_tree(alloc, items, &arm.value)?;
    Ok(BoundMatch::new(arm.sides, operand, value))
}

// ---- expressions

/// The expression with NULL in place of the columns that are ignored at these items, which are those of the own FROM, and with the rowid
/// in place of the column that is the rowid of its item.
pub fn erased(alloc: Global, items: &[BoundItem], e: &BoundExpr) -> Result<BoundExpr, AllocError>
    ensures { IfOk result (λ made. made ≡ erased (marks_of items.now) e.now) }
{
    erased_tree(alloc, items, e.tree())
}

/// The expressions, each with NULL in place of the columns that are ignored at these items, and with the rowid in place of that which is it.
pub fn erased_all(
    alloc: Global,
    items: &[BoundItem],
    es: &[BoundExpr],
) -> Result<Items<BoundExpr>, AllocError>
    ensures { IfOk result (λ made. made ≡ map (erased (marks_of items.now)) es.now) }
{
    let mut made = Items::new(alloc);
    for e in es {
        made.push(erased(alloc, items, e)?)?;
    }
    Ok(made)
}
