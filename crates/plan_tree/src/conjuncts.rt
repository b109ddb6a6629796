// The conjuncts of a WHERE as they are tested.
ghost use Rattle.std.specs.Prelude.{◌≡◌, ◌++◌, OnOk, IfOk};
ghost use Rattle.std.specs.List.{flat_map};
ghost use Rattle.bound_tree.specs.Conditions.{conditions_of};
ghost use Rattle.bound_tree.specs.Exprs as e;
ghost use Rattle.bound_tree.specs.Seen.{seen};
ghost use Rattle.eng_value.specs.declared.operators.BinaryOperator.TheVariants as binary;
ghost use Rattle.plan_tree.specs.Conjuncts.{meant};
ghost use Rattle.plan_tree.specs.Ignoring.{ignores};

use crate::reading::ignores;
use bound_tree::{BoundExpr, ExprTree};
use eng_value::{CompareOp, Sides};
use sqlite_items::Items;
use std::alloc::{AllocError, Global};
use std::marker::Model;

/// What rejects a row unless it is true. Contracts see the expression that it means.
#[derive(Drop)]
pub struct Conjunct<'a> {
    form: Form<'a>,
}

/// A conjunct in parts.
#[derive(Clone, Copy)]
pub enum Form<'a> {
    /// A whole expression.
    Whole(&'a BoundExpr),
    /// One of the two comparisons that a BETWEEN is.
    Comparison(CompareOp, Sides, &'a ExprTree, &'a ExprTree),
}

impl<'a> Model for Conjunct<'a> {
    ghost use Rattle.bound_tree.specs.Exprs.{BoundExpr};
    ghost use Rattle.bound_tree.specs.declared.expr.BoundExpr.{the_code};
    ghost use Rattle.plan_tree.specs.Conjuncts.{meant};

    ghost Value = { BoundExpr };

    ghost coded = { the_code };

    ghost view = { λ c. meant c.form };
}

impl<'a> Conjunct<'a> {
    /// Its parts.
    pub fn form(&self) -> &Form<'a>
        ensures { meant result.now ≡ self.now }
    {
        &self.form
    }

    /// The same once more.
    pub fn copied(&self) -> Conjunct<'a>
        ensures { result ≡ self.now }
    {
        Conjunct { form: self.form }
    }

    /// Whether it reads nothing of the row of the item in a place.
    pub fn ignores(&self, item: u32) -> bool
        ensures { result ≡ ignores item self.now }
    {
        match &self.form {
            Form::Whole(expression) => ignores(expression.tree(), item),
            Form::Comparison(_, _, left, right) => ignores(left, item) && ignores(right, item),
        }
    }
}

/// The conjuncts of a WHERE that was split at its ANDs: a BETWEEN among them is two.
pub fn split<'a>(
    alloc: Global,
    conjuncts: &'a [BoundExpr],
) -> Result<Items<Conjunct<'a>>, AllocError>
    ensures { IfOk result (λ all. all ≡ flat_map conditions_of conjuncts.now) }
{
    let mut all = Items::new(alloc);
    for conjunct in conjuncts {
        push(&mut all, conjunct)?;
    }
    Ok(all)
}

fn push<'a>(all: &mut Items<Conjunct<'a>>, conjunct: &'a BoundExpr) -> Result<(), AllocError>
    ensures { OnOk result (all.new ≡ all.old ++ conditions_of conjunct.now) }
{
    match conjunct.tree() {
        ExprTree::Between(above, below, tested, low, high) => {
            all.push(comparison(CompareOp::Ge, *above, tested.get(), low.get()))?;
            all.push(comparison(CompareOp::Le, *below, tested.get(), high.get()))
        }
        _ => all.push(whole(conjunct)),
    }
}

fn whole<'a>(expression: &'a BoundExpr) -> Conjunct<'a>
    ensures { result ≡ expression.now }
{
    Conjunct {
        form: Form::Whole(expression),
    }
}

fn comparison<'a>(
    op: CompareOp,
    sides: Sides,
    left: &'a ExprTree,
    right: &'a ExprTree,
) -> Conjunct<'a>
    ensures { result ≡ e.Binary (binary.Compare op sides) (seen left.now) (seen right.now) }
{
    Conjunct {
        form: Form::Comparison(op, sides, left, right),
    }
}
