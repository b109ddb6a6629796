// Which expressions come to truths.
ghost use Rattle.std.specs.Prelude.{◌≡◌, true};
ghost use Rattle.bound_tree.specs.Seen.{seen};
ghost use Rattle.eng_value.specs.Applied.{binary_of, unary_of};
ghost use Rattle.eng_value.specs.Collations.{Keys};
ghost use Rattle.eng_value.specs.declared.out.Out.{Out};
ghost use Rattle.gen_expr.specs.Truths.{GivesTruth, IsTruth};

use bound_tree::ExprTree;
use eng_value::{BinaryOperator, UnaryOperator};

/// Whether an expression is known by its form to give truths.
#[tactic(auto, using(crate::proofs::Truths::and_truth, crate::proofs::Truths::like_escaped_truth, crate::proofs::Truths::member_truth))]
pub(crate) fn gives_truth(e: &ExprTree) -> bool
    ensures { result ≡ true → GivesTruth (seen e.now) }
{
    match e {
        ExprTree::Unary(operator, _) => unary_gives_truth(*operator),
        ExprTree::Binary(operator, _, _) => binary_gives_truth(*operator),
        ExprTree::LikeEscaped(_, _, _) => true,
        ExprTree::Between(_, _, _, _, _) => true,
        ExprTree::In(_, _, _) => true,
        _ => false,
    }
}

#[tactic(auto, using(crate::proofs::Truths::truth_truth, crate::proofs::Truths::not_truth, crate::proofs::Truths::is_null_truth, crate::proofs::Truths::not_null_truth, crate::proofs::Truths::is_truth_truth))]
fn unary_gives_truth(operator: UnaryOperator) -> bool
    ensures { result ≡ true → (a : Out) → IsTruth (unary_of operator a) }
{
    match operator {
        UnaryOperator::Truth => true,
        UnaryOperator::Not => true,
        UnaryOperator::IsNull => true,
        UnaryOperator::NotNull => true,
        UnaryOperator::IsTruth(_) => true,
        _ => false,
    }
}

#[tactic(auto, using(crate::proofs::Truths::and_truth, crate::proofs::Truths::or_truth, crate::proofs::Truths::comparison_truth, crate::proofs::Truths::is_truth, crate::proofs::Truths::like_truth, crate::proofs::Truths::glob_truth))]
fn binary_gives_truth(operator: BinaryOperator) -> bool
    ensures { result ≡ true → (keys : Keys) (a b : Out) → IsTruth (binary_of keys operator a b) }
{
    match operator {
        BinaryOperator::And => true,
        BinaryOperator::Or => true,
        BinaryOperator::Compare(_, _) => true,
        BinaryOperator::Is(_) => true,
        BinaryOperator::Like => true,
        BinaryOperator::Glob => true,
        _ => false,
    }
}
