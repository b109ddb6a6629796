// CASE (SQL Language Expressions, section 7, The CASE expression).
ghost use Rattle.std.specs.Prelude.{◌≡◌, None, Some, IfOk};
ghost use Rattle.sql_bound.specs.Answers.{OnlyMem};
ghost use Rattle.sql_bound.specs.Operands.{case_of, or_null};

use crate::collations::{explicit_of_arms, explicit_of_option, or_else};
use crate::leaves::bare;
use crate::lists::{chosen_arms, matched_arms};
use bound_tree::BoundExpr;
use eng_value::{Cause, Value};
use sql_bound::{ArmOperands, Operand};
use sql_words::Literal;
use sqlite_items::Items;
use std::alloc::Global;

/// What ELSE gives, or NULL.
fn or_null(otherwise: Option<Operand>) -> BoundExpr
    ensures { result ≡ or_null otherwise }
{
    match otherwise {
        Some(a) => a.tree,
        None => BoundExpr::literal(Literal::Value(Value::Null)),
    }
}

/// CASE, over its operand, if any, its arms and what ELSE gives. Only memory can fail.
pub fn case_of(
    alloc: Global,
    operand: Option<Operand>,
    arms: Items<ArmOperands>,
    otherwise: Option<Operand>,
) -> Result<Operand, Cause>
    ensures ok { IfOk result (λ x. x ≡ case_of operand arms otherwise) }
    ensures mem { OnlyMem result }
{
    match operand {
        Some(a) => matched(alloc, a, arms, otherwise),
        None => chosen(alloc, arms, otherwise),
    }
}

/// CASE without an operand.
#[tactic(auto, using(crate::proofs::Explicits::first_explicit_appends))]
fn chosen(
    alloc: Global,
    arms: Items<ArmOperands>,
    otherwise: Option<Operand>,
) -> Result<Operand, Cause>
    ensures ok { IfOk result (λ x. x ≡ case_of None arms otherwise) }
    ensures mem { OnlyMem result }
{
    let explicit = or_else(
        explicit_of_arms(arms.as_slice()),
        explicit_of_option(&otherwise),
    );
    let arms = chosen_arms(alloc, arms)?;
    let tree = BoundExpr::choose(alloc, arms, or_null(otherwise))?;
    Ok(bare(explicit, tree))
}

/// CASE with an operand.
#[tactic(auto, using(crate::proofs::Explicits::first_explicit_appends))]
fn matched(
    alloc: Global,
    a: Operand,
    arms: Items<ArmOperands>,
    otherwise: Option<Operand>,
) -> Result<Operand, Cause>
    ensures ok { IfOk result (λ x. x ≡ case_of (Some a) arms otherwise) }
    ensures mem { OnlyMem result }
{
    let behind = or_else(
        explicit_of_arms(arms.as_slice()),
        explicit_of_option(&otherwise),
    );
    let explicit = or_else(a.explicit, behind);
    let arms = matched_arms(alloc, &a, arms)?;
    let tree = BoundExpr::matched(alloc, a.tree, arms, or_null(otherwise))?;
    Ok(bare(explicit, tree))
}
