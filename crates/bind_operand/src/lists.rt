// Lists of operands and arms.
ghost use Rattle.std.specs.Prelude.{◌≡◌, map, IfOk};
ghost use Rattle.sql_bound.specs.Answers.{OnlyMem};
ghost use Rattle.sql_bound.specs.Operands.{chosen_arm, matched_arm, trees_of};

use crate::collations::sides_of;
use bound_tree::{BoundArm, BoundExpr, BoundMatch, reversed};
use eng_value::Cause;
use sql_bound::{ArmOperands, Operand};
use sqlite_items::Items;
use std::alloc::Global;

/// The trees of operands.
pub fn trees_of(alloc: Global, operands: Items<Operand>) -> Result<Items<BoundExpr>, Cause>
    ensures ok { IfOk result (λ trees. trees ≡ trees_of operands) }
    ensures mem { OnlyMem result }
{
    let mut rest = reversed(alloc, operands)?;
    let mut trees = Items::new(alloc);
    while let Some(a) = rest.pop() {
        trees.push(a.tree)?;
    }
    Ok(trees)
}

/// An arm of a CASE without an operand.
fn chosen_arm(arm: ArmOperands) -> BoundArm
    ensures { result ≡ chosen_arm arm }
{
    let ArmOperands { condition, value } = arm;
    BoundArm::new(condition.tree, value.tree)
}

/// The arms of a CASE without an operand.
pub(crate) fn chosen_arms(alloc: Global, arms: Items<ArmOperands>) -> Result<Items<BoundArm>, Cause>
    ensures ok { IfOk result (λ made. made ≡ map chosen_arm arms) }
    ensures mem { OnlyMem result }
{
    let mut rest = reversed(alloc, arms)?;
    let mut made = Items::new(alloc);
    while let Some(arm) = rest.pop() {
        made.push(chosen_arm(arm))?;
    }
    Ok(made)
}

/// An arm of a CASE with this operand.
fn matched_arm(a: &Operand, arm: ArmOperands) -> BoundMatch
    ensures { result ≡ matched_arm a.now arm }
{
    let ArmOperands { condition, value } = arm;
    let sides = sides_of(a, &condition);
    BoundMatch::new(sides, condition.tree, value.tree)
}

/// The arms of a CASE with this operand.
pub(crate) fn matched_arms(
    alloc: Global,
    a: &Operand,
    arms: Items<ArmOperands>,
) -> Result<Items<BoundMatch>, Cause>
    ensures ok { IfOk result (λ made. made ≡ map (matched_arm a.now) arms) }
    ensures mem { OnlyMem result }
{
    let mut rest = reversed(alloc, arms)?;
    let mut made = Items::new(alloc);
    while let Some(arm) = rest.pop() {
        made.push(matched_arm(a, arm))?;
    }
    Ok(made)
}
