// Bound expressions, copied.
ghost use Rattle.std.specs.Prelude.{◌≡◌, IfOk};

use crate::tree::{ArmTree, ExprTree, MatchTree};
use crate::{BoundColumn, BoundExpr};
use sqlite_items::{Boxed, Items};
use std::alloc::{AllocError, Global};

impl BoundExpr {
    /// The same expression once more.
    pub fn copied(&self, alloc: Global) -> Result<BoundExpr, AllocError>
        ensures { IfOk result (λ copy. copy ≡ self.now) }
    {
        Ok(BoundExpr {
            tree: copied(alloc, &self.tree)?,
        })
    }
}

/// The same expressions once more.
pub fn copied_exprs(alloc: Global, es: &[BoundExpr]) -> Result<Items<BoundExpr>, AllocError>
    ensures { IfOk result (λ copies. copies ≡ es.now) }
{
    let mut copies = Items::new(alloc);
    for e in es {
        copies.push(e.copied(alloc)?)?;
    }
    Ok(copies)
}

impl BoundColumn {
    /// The same column once more.
    pub fn copied(&self) -> Result<BoundColumn, AllocError>
        ensures { IfOk result (λ copy. copy ≡ self.now) }
    {
        Ok(BoundColumn {
            name: self.name.clone()?,
            affinity: self.affinity,
            collation: self.collation,
        })
    }
}

/// The same columns once more.
pub fn copied_columns(
    alloc: Global,
    columns: &[BoundColumn],
) -> Result<Items<BoundColumn>, AllocError>
    ensures { IfOk result (λ copies. copies ≡ columns.now) }
{
    let mut copies = Items::new(alloc);
    for column in columns {
        copies.push(column.copied()?)?;
    }
    Ok(copies)
}

#[cycle(copying)]
fn copied(alloc: Global, e: &ExprTree) -> Result<ExprTree, AllocError>
    ensures { IfOk result (λ copy. copy ≡ e.now) }
{
    match e {
        ExprTree::Literal(literal) => Ok(ExprTree::Literal(literal.clone()?)),
        ExprTree::Parameter(number) => Ok(ExprTree::Parameter(*number)),
        ExprTree::Column { item, column } => Ok(ExprTree::Column {
            item: *item,
            column: *column,
        }),
        ExprTree::Rowid { item } => Ok(ExprTree::Rowid { item: *item }),
        ExprTree::Argument(place) => Ok(ExprTree::Argument(*place)),
        ExprTree::Aggregate(slot) => Ok(ExprTree::Aggregate(*slot)),
        ExprTree::Unary(op, a) => Ok(ExprTree::Unary(*op, copied_box(alloc, a)?)),
        ExprTree::Binary(op, a, b) => {
            let a = copied_box(alloc, a)?;
            Ok(ExprTree::Binary(*op, a, copied_box(alloc, b)?))
        }
        ExprTree::LikeEscaped(a, b, c) => {
            let a = copied_box(alloc, a)?;
            let b = copied_box(alloc, b)?;
            Ok(ExprTree::LikeEscaped(a, b, copied_box(alloc, c)?))
        }
        ExprTree::Between(above, below, a, low, high) => {
            let a = copied_box(alloc, a)?;
            let low = copied_box(alloc, low)?;
            let high = copied_box(alloc, high)?;
            Ok(ExprTree::Between(*above, *below, a, low, high))
        }
        ExprTree::In(sides, a, others) => {
            let a = copied_box(alloc, a)?;
            Ok(ExprTree::In(*sides, a, copied_all(alloc, others.as_slice())?))
        }
        ExprTree::Choose(arms, last) => {
            let arms = copied_arms(alloc, arms.as_slice())?;
            Ok(ExprTree::Choose(arms, copied_box(alloc, last)?))
        }
        ExprTree::Match(a, arms, last) => {
            let a = copied_box(alloc, a)?;
            let arms = copied_matches(alloc, arms.as_slice())?;
            Ok(ExprTree::Match(a, arms, copied_box(alloc, last)?))
        }
        ExprTree::Iif(a, b, c) => {
            let a = copied_box(alloc, a)?;
            let b = copied_box(alloc, b)?;
            Ok(ExprTree::Iif(a, b, copied_box(alloc, c)?))
        }
        ExprTree::Coalesce(f, args) => Ok(ExprTree::Coalesce(
            *f,
            copied_all(alloc, args.as_slice())?,
        )),
        ExprTree::Call(f, collation, args) => {
            let args = copied_all(alloc, args.as_slice())?;
            Ok(ExprTree::Call(*f, *collation, args))
        }
        ExprTree::HostCall(name, args) => {
            let name = name.clone()?;
            Ok(ExprTree::HostCall(name, copied_all(alloc, args.as_slice())?))
        }
        ExprTree::Scalar(unit, handed) => Ok(ExprTree::Scalar(
            *unit,
            copied_all(alloc, handed.as_slice())?,
        )),
        ExprTree::Exists(unit, handed) => Ok(ExprTree::Exists(
            *unit,
            copied_all(alloc, handed.as_slice())?,
        )),
        ExprTree::InQuery(sides, a, unit, handed) => {
            let a = copied_box(alloc, a)?;
            let handed = copied_all(alloc, handed.as_slice())?;
            Ok(ExprTree::InQuery(*sides, a, *unit, handed))
        }
        ExprTree::RaiseIgnore => Ok(ExprTree::RaiseIgnore),
        ExprTree::RaiseAbort(text) => Ok(ExprTree::RaiseAbort(text.clone()?)),
    }
}

#[cycle(copying)]
fn copied_box(alloc: Global, e: &Boxed<ExprTree>) -> Result<Boxed<ExprTree>, AllocError>
    ensures { IfOk result (λ copy. copy ≡ e.now) }
{
    Boxed::new(alloc, copied(alloc, e.get())?)
}

#[cycle(copying)]
fn copied_all(alloc: Global, es: &[ExprTree]) -> Result<Items<ExprTree>, AllocError>
    ensures { IfOk result (λ copies. copies ≡ es.now) }
{
    let mut copies = Items::new(alloc);
    for e in es {
        copies.push(copied(alloc, e)?)?;
    }
    Ok(copies)
}

#[cycle(copying)]
fn copied_arms(alloc: Global, arms: &[ArmTree]) -> Result<Items<ArmTree>, AllocError>
    ensures { IfOk result (λ copies. copies ≡ arms.now) }
{
    let mut copies = Items::new(alloc);
    for arm in arms {
        copies.push(copied_arm(alloc, arm)?)?;
    }
    Ok(copies)
}

#[cycle(copying)]
fn copied_arm(alloc: Global, arm: &ArmTree) -> Result<ArmTree, AllocError>
    ensures { IfOk result (λ copy. copy ≡ arm.now) }
{
    let condition = copied(alloc, &arm.condition)?;
    let value = copied(alloc, &arm.value)?;
    Ok(ArmTree { condition, value })
}

#[cycle(copying)]
fn copied_matches(alloc: Global, arms: &[MatchTree]) -> Result<Items<MatchTree>, AllocError>
    ensures { IfOk result (λ copies. copies ≡ arms.now) }
{
    let mut copies = Items::new(alloc);
    for arm in arms {
        copies.push(copied_match(alloc, arm)?)?;
    }
    Ok(copies)
}

#[cycle(copying)]
fn copied_match(alloc: Global, arm: &MatchTree) -> Result<MatchTree, AllocError>
    ensures { IfOk result (λ copy. copy ≡ arm.now) }
{
    let operand = copied(alloc, &arm.operand)?;
    let value = copied(alloc, &arm.value)?;
    Ok(MatchTree {
        sides: arm.sides,
        operand,
        value,
    })
}
