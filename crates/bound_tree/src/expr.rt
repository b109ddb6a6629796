// Bound expressions.
ghost use Rattle.std.specs.Prelude.{◌≡◌, map, IfOk};
ghost use Rattle.bound_tree.specs.Exprs as e;
ghost use Rattle.bound_tree.specs.Halves.{halves_of};
ghost use Rattle.bound_tree.specs.Seen.{seen};

use crate::arms::{BoundArm, BoundMatch};
use crate::lists::{arm_trees, expr_trees, match_trees};
use crate::tree::ExprTree;
use eng_value::{BinaryOperator, Builtin, Collation, Sides, Text, UnaryOperator};
use sql_words::Literal;
use sqlite_items::{Boxed, Items};
use std::alloc::{AllocError, Global};
use std::marker::Model;
use std::mem;

/// An expression whose names are bound. Contracts see the data of specs/Exprs.antt.
#[derive(Drop)]
pub struct BoundExpr {
    pub(crate) tree: ExprTree,
}

impl Model for BoundExpr {
    ghost use Rattle.std.specs.Coded.{code_by, codes};
    ghost use Rattle.bound_tree.specs.declared.tree.ExprTree.{ExprTree};
    ghost use Rattle.bound_tree.specs.contracts.tree.ExprTree.{the_row};
    ghost use Rattle.bound_tree.specs.Exprs as e;
    ghost use Rattle.bound_tree.specs.Seen.{seen, tree_of};
    ghost use Rattle.bound_tree.specs.SeenLaws.{seen-tree_of};

    ghost Value = { e.BoundExpr };

    ghost coded = { code_by ExprTree (Prim.hlevel (codes, the_row.coded)) tree_of seen seen-tree_of };

    ghost view = { λ x. seen x.tree };
}

impl BoundExpr {
    /// The stored tree.
    pub fn tree(&self) -> &ExprTree
        ensures { seen result.now ≡ self.now }
    {
        &self.tree
    }

    pub fn literal(literal: Literal) -> BoundExpr
        ensures { result ≡ e.Literal literal }
    {
        BoundExpr {
            tree: ExprTree::Literal(literal),
        }
    }

    pub fn parameter(number: u32) -> BoundExpr
        ensures { result ≡ e.Parameter number }
    {
        BoundExpr {
            tree: ExprTree::Parameter(number),
        }
    }

    pub fn column(item: u32, column: u32) -> BoundExpr
        ensures { result ≡ e.Column item column }
    {
        BoundExpr {
            tree: ExprTree::Column { item, column },
        }
    }

    pub fn rowid(item: u32) -> BoundExpr
        ensures { result ≡ e.Rowid item }
    {
        BoundExpr {
            tree: ExprTree::Rowid { item },
        }
    }

    pub fn argument(place: u32) -> BoundExpr
        ensures { result ≡ e.Argument place }
    {
        BoundExpr {
            tree: ExprTree::Argument(place),
        }
    }

    pub fn aggregate(slot: u32) -> BoundExpr
        ensures { result ≡ e.Aggregate slot }
    {
        BoundExpr {
            tree: ExprTree::Aggregate(slot),
        }
    }

    pub fn raise_ignore() -> BoundExpr
        ensures { result ≡ e.RaiseIgnore }
    {
        BoundExpr {
            tree: ExprTree::RaiseIgnore,
        }
    }

    pub fn raise_abort(text: Text) -> BoundExpr
        ensures { result ≡ e.RaiseAbort text }
    {
        BoundExpr {
            tree: ExprTree::RaiseAbort(text),
        }
    }

    pub fn unary(alloc: Global, op: UnaryOperator, a: BoundExpr) -> Result<BoundExpr, AllocError>
        ensures { IfOk result (λ x. x ≡ e.Unary op a) }
    {
        let a = Boxed::new(alloc, a.tree)?;
        Ok(BoundExpr {
            tree: ExprTree::Unary(op, a),
        })
    }

    pub fn binary(
        alloc: Global,
        op: BinaryOperator,
        a: BoundExpr,
        b: BoundExpr,
    ) -> Result<BoundExpr, AllocError>
        ensures { IfOk result (λ x. x ≡ e.Binary op a b) }
    {
        let a = Boxed::new(alloc, a.tree)?;
        let b = Boxed::new(alloc, b.tree)?;
        Ok(BoundExpr {
            tree: ExprTree::Binary(op, a, b),
        })
    }

    pub fn like_escaped(
        alloc: Global,
        a: BoundExpr,
        b: BoundExpr,
        c: BoundExpr,
    ) -> Result<BoundExpr, AllocError>
        ensures { IfOk result (λ x. x ≡ e.LikeEscaped a b c) }
    {
        let a = Boxed::new(alloc, a.tree)?;
        let b = Boxed::new(alloc, b.tree)?;
        let c = Boxed::new(alloc, c.tree)?;
        Ok(BoundExpr {
            tree: ExprTree::LikeEscaped(a, b, c),
        })
    }

    pub fn between(
        alloc: Global,
        above: Sides,
        below: Sides,
        a: BoundExpr,
        b: BoundExpr,
        c: BoundExpr,
    ) -> Result<BoundExpr, AllocError>
        ensures { IfOk result (λ x. x ≡ e.Between above below a b c) }
    {
        let a = Boxed::new(alloc, a.tree)?;
        let b = Boxed::new(alloc, b.tree)?;
        let c = Boxed::new(alloc, c.tree)?;
        Ok(BoundExpr {
            tree: ExprTree::Between(above, below, a, b, c),
        })
    }

    /// `a IN (others)`
    pub fn member(
        alloc: Global,
        sides: Sides,
        a: BoundExpr,
        others: Items<BoundExpr>,
    ) -> Result<BoundExpr, AllocError>
        ensures { IfOk result (λ x. x ≡ e.In sides a others) }
    {
        let a = Boxed::new(alloc, a.tree)?;
        let others = expr_trees(alloc, others)?;
        Ok(BoundExpr {
            tree: ExprTree::In(sides, a, others),
        })
    }

    /// CASE without an operand.
    pub fn choose(
        alloc: Global,
        arms: Items<BoundArm>,
        otherwise: BoundExpr,
    ) -> Result<BoundExpr, AllocError>
        ensures { IfOk result (λ x. x ≡ e.Choose arms otherwise) }
    {
        let arms = arm_trees(alloc, arms)?;
        let otherwise = Boxed::new(alloc, otherwise.tree)?;
        Ok(BoundExpr {
            tree: ExprTree::Choose(arms, otherwise),
        })
    }

    /// CASE with an operand.
    pub fn matched(
        alloc: Global,
        a: BoundExpr,
        arms: Items<BoundMatch>,
        otherwise: BoundExpr,
    ) -> Result<BoundExpr, AllocError>
        ensures { IfOk result (λ x. x ≡ e.Match a arms otherwise) }
    {
        let a = Boxed::new(alloc, a.tree)?;
        let arms = match_trees(alloc, arms)?;
        let otherwise = Boxed::new(alloc, otherwise.tree)?;
        Ok(BoundExpr {
            tree: ExprTree::Match(a, arms, otherwise),
        })
    }

    pub fn iif(
        alloc: Global,
        a: BoundExpr,
        b: BoundExpr,
        c: BoundExpr,
    ) -> Result<BoundExpr, AllocError>
        ensures { IfOk result (λ x. x ≡ e.Iif a b c) }
    {
        let a = Boxed::new(alloc, a.tree)?;
        let b = Boxed::new(alloc, b.tree)?;
        let c = Boxed::new(alloc, c.tree)?;
        Ok(BoundExpr {
            tree: ExprTree::Iif(a, b, c),
        })
    }

    pub fn coalesce(
        alloc: Global,
        function: Builtin,
        arguments: Items<BoundExpr>,
    ) -> Result<BoundExpr, AllocError>
        ensures { IfOk result (λ x. x ≡ e.Coalesce function arguments) }
    {
        let arguments = expr_trees(alloc, arguments)?;
        Ok(BoundExpr {
            tree: ExprTree::Coalesce(function, arguments),
        })
    }

    pub fn call(
        alloc: Global,
        function: Builtin,
        collation: Collation,
        arguments: Items<BoundExpr>,
    ) -> Result<BoundExpr, AllocError>
        ensures { IfOk result (λ x. x ≡ e.Call function collation arguments) }
    {
        let arguments = expr_trees(alloc, arguments)?;
        Ok(BoundExpr {
            tree: ExprTree::Call(function, collation, arguments),
        })
    }

    pub fn host_call(
        alloc: Global,
        name: Text,
        arguments: Items<BoundExpr>,
    ) -> Result<BoundExpr, AllocError>
        ensures { IfOk result (λ x. x ≡ e.HostCall name arguments) }
    {
        let arguments = expr_trees(alloc, arguments)?;
        Ok(BoundExpr {
            tree: ExprTree::HostCall(name, arguments),
        })
    }

    pub fn scalar(
        alloc: Global,
        unit: u32,
        handed: Items<BoundExpr>,
    ) -> Result<BoundExpr, AllocError>
        ensures { IfOk result (λ x. x ≡ e.Scalar unit handed) }
    {
        let handed = expr_trees(alloc, handed)?;
        Ok(BoundExpr {
            tree: ExprTree::Scalar(unit, handed),
        })
    }

    pub fn exists(
        alloc: Global,
        unit: u32,
        handed: Items<BoundExpr>,
    ) -> Result<BoundExpr, AllocError>
        ensures { IfOk result (λ x. x ≡ e.Exists unit handed) }
    {
        let handed = expr_trees(alloc, handed)?;
        Ok(BoundExpr {
            tree: ExprTree::Exists(unit, handed),
        })
    }

    /// `a IN (query)`
    pub fn in_query(
        alloc: Global,
        sides: Sides,
        a: BoundExpr,
        unit: u32,
        handed: Items<BoundExpr>,
    ) -> Result<BoundExpr, AllocError>
        ensures { IfOk result (λ x. x ≡ e.InQuery sides a unit handed) }
    {
        let a = Boxed::new(alloc, a.tree)?;
        let handed = expr_trees(alloc, handed)?;
        Ok(BoundExpr {
            tree: ExprTree::InQuery(sides, a, unit, handed),
        })
    }
}

impl BoundExpr {
    /// The operands of an AND, or else the expression itself.
    pub fn halves(
        self,
        alloc: Global,
    ) -> Result<Result<(BoundExpr, BoundExpr), BoundExpr>, AllocError>
        ensures { IfOk result (λ h. h ≡ halves_of self) }
    {
        let BoundExpr { mut tree } = self;
        match &mut tree {
            ExprTree::Binary(BinaryOperator::And, a, b) => {
                let a = taken(alloc, a)?;
                let b = taken(alloc, b)?;
                Ok(Ok((BoundExpr { tree: a }, BoundExpr { tree: b })))
            }
            _ => Ok(Err(BoundExpr { tree })),
        }
    }
}

/// What stands in a box, which is left with another tree.
fn taken(alloc: Global, from: &mut Boxed<ExprTree>) -> Result<ExprTree, AllocError>
    ensures { IfOk result (λ tree. tree ≡ from.old) }
{
    let other = Boxed::new(alloc, ExprTree::RaiseIgnore)?;
    Ok(mem::replace(from, other).into_inner())
}
