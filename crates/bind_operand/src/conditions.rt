// A condition that is bound, split at its ANDs.
ghost use Rattle.std.specs.Prelude.{◌≡◌, [], ◌∷◌, ◌++◌, OnOk};
ghost use Rattle.sql_bound.specs.Answers.{OnlyMem};
ghost use Rattle.sql_bound.specs.Expressions.{split_by};
ghost use Rattle.sql_bound.specs.Trees.{of_expr};

use bound_tree::BoundExpr;
use eng_value::Cause;
use sql_tree::{BinaryOp, Expr};
use sqlite_items::Items;
use std::alloc::Global;

/// Puts what a bound condition is split into behind others: at the ANDs of the condition as it is written, so that what a name of a
/// result stands for stays one. Only memory can fail, and some of them are then there.
pub fn conjuncts(
    alloc: Global,
    condition: &Expr,
    tree: BoundExpr,
    into: &mut Items<BoundExpr>,
) -> Result<(), Cause>
    ensures ok { OnOk result (into.new ≡ into.old ++ (of_expr condition.now).conjuncts tree) }
    ensures mem { OnlyMem result }
{
    match condition {
        Expr::Binary(op, a, b) => match op {
            BinaryOp::And => match tree.halves(alloc)? {
                Ok((left, right)) => {
                    conjuncts(alloc, a.get(), left, into)?;
                    conjuncts(alloc, b.get(), right, into)
                }
                Err(tree) => push_one(into, tree),
            },
            _ => push_one(into, tree),
        },
        _ => push_one(into, tree),
    }
}

/// Puts one behind others.
fn push_one(into: &mut Items<BoundExpr>, tree: BoundExpr) -> Result<(), Cause>
    ensures ok { OnOk result (into.new ≡ into.old ++ tree ∷ []) }
    ensures mem { OnlyMem result }
{
    into.push(tree)?;
    Ok(())
}
