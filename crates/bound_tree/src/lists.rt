// Lists of expressions and arms, as they are stored.
ghost use Rattle.std.specs.Prelude.{◌≡◌, map, reverse, IfOk};
ghost use Rattle.bound_tree.specs.Seen.{seen, seen_arm, seen_match};

use crate::tree::{ArmTree, ExprTree, MatchTree};
use crate::{BoundArm, BoundExpr, BoundMatch};
use sqlite_items::Items;
use std::alloc::{AllocError, Global};

/// The last one first.
pub fn reversed<T: Drop>(alloc: Global, mut items: Items<T>) -> Result<Items<T>, AllocError>
    ensures { IfOk result (λ made. made ≡ reverse items) }
{
    let mut made = Items::new(alloc);
    while let Some(item) = items.pop() {
        made.push(item)?;
    }
    Ok(made)
}

/// The stored trees of expressions.
pub(crate) fn expr_trees(
    alloc: Global,
    exprs: Items<BoundExpr>,
) -> Result<Items<ExprTree>, AllocError>
    ensures { IfOk result (λ trees. map seen trees ≡ exprs) }
{
    let mut rest = reversed(alloc, exprs)?;
    let mut trees = Items::new(alloc);
    while let Some(expr) = rest.pop() {
        trees.push(expr.tree)?;
    }
    Ok(trees)
}

/// The stored arms of a CASE without an operand.
pub(crate) fn arm_trees(alloc: Global, arms: Items<BoundArm>) -> Result<Items<ArmTree>, AllocError>
    ensures { IfOk result (λ trees. map seen_arm trees ≡ arms) }
{
    let mut rest = reversed(alloc, arms)?;
    let mut trees = Items::new(alloc);
    while let Some(arm) = rest.pop() {
        let BoundArm { condition, value } = arm;
        trees.push(ArmTree {
            condition: condition.tree,
            value: value.tree,
        })?;
    }
    Ok(trees)
}

/// The stored arms of a CASE with an operand.
pub(crate) fn match_trees(
    alloc: Global,
    arms: Items<BoundMatch>,
) -> Result<Items<MatchTree>, AllocError>
    ensures { IfOk result (λ trees. map seen_match trees ≡ arms) }
{
    let mut rest = reversed(alloc, arms)?;
    let mut trees = Items::new(alloc);
    while let Some(arm) = rest.pop() {
        let BoundMatch {
            sides,
            operand,
            value,
        } = arm;
        trees.push(MatchTree {
            sides,
            operand: operand.tree,
            value: value.tree,
        })?;
    }
    Ok(trees)
}
