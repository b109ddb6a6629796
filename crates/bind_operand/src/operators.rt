// Operators over operands (SQL Language Expressions, sections 2 to 7).
ghost use Rattle.std.specs.Prelude.{◌≡◌, [], ◌∷◌, IfOk};
ghost use Rattle.eng_value.specs.declared.operators.BinaryOperator.TheVariants as operator;
ghost use Rattle.eng_value.specs.declared.operators.UnaryOperator.TheVariants as unary;
ghost use Rattle.bound_tree.specs.Exprs as e;
ghost use Rattle.sql_bound.specs.Answers.{OnlyMem};
ghost use Rattle.sql_bound.specs.Operands.{between_of, binary_of, both, cast_of, compared, is_of, like_of, negated, negative_of, over, unary_of};

use crate::collations::{explicit_of, explicit_of_three, explicit_of_two, sides_of};
use crate::leaves::{bare, plain};
use bound_tree::BoundExpr;
use eng_value::{
    Affinity, ArithmeticOp, BinaryOperator, Cause, CompareOp, IntegerOp, UnaryOperator, Value,
};
use sql_bound::{Form, Operand};
use sql_tree::{BinaryOp, UnaryOp};
use sql_words::Literal;
use std::alloc::Global;

/// An operator of the bound tree over its operand.
fn over_one(alloc: Global, op: UnaryOperator, a: Operand) -> Result<Operand, Cause>
    ensures ok { IfOk result (λ x. x ≡ over (a ∷ []) (e.Unary op a.tree)) }
    ensures mem { OnlyMem result }
{
    let explicit = explicit_of(&a);
    let tree = BoundExpr::unary(alloc, op, a.tree)?;
    Ok(bare(explicit, tree))
}

/// A minus in front of its operand.
fn negative_of(alloc: Global, a: Operand) -> Result<Operand, Cause>
    ensures ok { IfOk result (λ x. x ≡ negative_of a.form a) }
    ensures mem { OnlyMem result }
{
    match a.form {
        Form::LeastMagnitude => Ok(plain(BoundExpr::literal(Literal::Value(Value::Integer(
            i64::MIN,
        ))))),
        _ => over_one(alloc, UnaryOperator::Negative, a),
    }
}

/// A plus in front of its operand, which takes the affinity off.
fn positive(a: Operand) -> Operand
    ensures { result ≡ unary_of UnaryOp.Positive a }
{
    let explicit = explicit_of(&a);
    Operand {
        tree: a.tree,
        affinity: Affinity::None,
        explicit,
        column: a.column,
        form: Form::Plain,
        name: None,
    }
}

/// An operator in front of its operand, or a test behind it.
pub fn unary_of(alloc: Global, op: UnaryOp, a: Operand) -> Result<Operand, Cause>
    ensures ok { IfOk result (λ x. x ≡ unary_of op a) }
    ensures mem { OnlyMem result }
{
    match op {
        UnaryOp::Negative => negative_of(alloc, a),
        UnaryOp::Positive => Ok(positive(a)),
        UnaryOp::BitNot => over_one(alloc, UnaryOperator::BitNot, a),
        UnaryOp::Not => over_one(alloc, UnaryOperator::Not, a),
        UnaryOp::IsNull => over_one(alloc, UnaryOperator::IsNull, a),
        UnaryOp::NotNull => over_one(alloc, UnaryOperator::NotNull, a),
    }
}

/// A cast to a type of this affinity.
pub fn cast_of(alloc: Global, to: Affinity, a: Operand) -> Result<Operand, Cause>
    ensures ok { IfOk result (λ x. x ≡ cast_of to a) }
    ensures mem { OnlyMem result }
{
    let explicit = explicit_of(&a);
    let column = a.column;
    let tree = BoundExpr::unary(alloc, UnaryOperator::Cast(to), a.tree)?;
    Ok(Operand {
        tree,
        affinity: to,
        explicit,
        column,
        form: Form::Plain,
        name: None,
    })
}

/// An operator of the bound tree between its operands.
fn both(alloc: Global, op: BinaryOperator, a: Operand, b: Operand) -> Result<Operand, Cause>
    ensures ok { IfOk result (λ x. x ≡ both op a b) }
    ensures mem { OnlyMem result }
{
    let explicit = explicit_of_two(&a, &b);
    let tree = BoundExpr::binary(alloc, op, a.tree, b.tree)?;
    Ok(bare(explicit, tree))
}

/// A comparison.
pub fn compared(alloc: Global, op: CompareOp, a: Operand, b: Operand) -> Result<Operand, Cause>
    ensures ok { IfOk result (λ x. x ≡ compared op a b) }
    ensures mem { OnlyMem result }
{
    let sides = sides_of(&a, &b);
    both(alloc, BinaryOperator::Compare(op, sides), a, b)
}

/// A test that NOT turns.
fn negated(alloc: Global, a: Operand) -> Result<Operand, Cause>
    ensures ok { IfOk result (λ x. x ≡ negated a) }
    ensures mem { OnlyMem result }
{
    over_one(alloc, UnaryOperator::Not, a)
}

/// IS TRUE or IS FALSE.
fn is_truth(alloc: Global, wanted: bool, a: Operand, b: Operand) -> Result<Operand, Cause>
    ensures ok { IfOk result (λ x. x ≡ over (a ∷ b ∷ []) (e.Unary (unary.IsTruth wanted) a.tree)) }
    ensures mem { OnlyMem result }
{
    let explicit = explicit_of_two(&a, &b);
    let tree = BoundExpr::unary(alloc, UnaryOperator::IsTruth(wanted), a.tree)?;
    Ok(bare(explicit, tree))
}

/// IS, which asks TRUE and FALSE for the truth.
fn is_of(alloc: Global, a: Operand, b: Operand) -> Result<Operand, Cause>
    ensures ok { IfOk result (λ x. x ≡ is_of b.form a b) }
    ensures mem { OnlyMem result }
{
    match b.form {
        Form::Truth(wanted) => is_truth(alloc, wanted, a, b),
        _ => {
            let sides = sides_of(&a, &b);
            both(alloc, BinaryOperator::Is(sides), a, b)
        }
    }
}

/// An operator on two integers.
fn integers(alloc: Global, op: IntegerOp, a: Operand, b: Operand) -> Result<Operand, Cause>
    ensures ok { IfOk result (λ x. x ≡ both (operator.Integers op) a b) }
    ensures mem { OnlyMem result }
{
    both(alloc, BinaryOperator::Integers(op), a, b)
}

/// An operator on two numbers.
fn arithmetic(alloc: Global, op: ArithmeticOp, a: Operand, b: Operand) -> Result<Operand, Cause>
    ensures ok { IfOk result (λ x. x ≡ both (operator.Arithmetic op) a b) }
    ensures mem { OnlyMem result }
{
    both(alloc, BinaryOperator::Arithmetic(op), a, b)
}

/// An operator between its operands. Only memory can fail.
pub fn binary_of(alloc: Global, op: BinaryOp, a: Operand, b: Operand) -> Result<Operand, Cause>
    ensures ok { IfOk result (λ x. x ≡ binary_of op a b) }
    ensures mem { OnlyMem result }
{
    match op {
        BinaryOp::Or => both(alloc, BinaryOperator::Or, a, b),
        BinaryOp::And => both(alloc, BinaryOperator::And, a, b),
        BinaryOp::Equal => compared(alloc, CompareOp::Eq, a, b),
        BinaryOp::NotEqual => negated(alloc, compared(alloc, CompareOp::Eq, a, b)?),
        BinaryOp::Is => is_of(alloc, a, b),
        BinaryOp::IsNot => negated(alloc, is_of(alloc, a, b)?),
        BinaryOp::Glob => both(alloc, BinaryOperator::Glob, a, b),
        BinaryOp::Less => compared(alloc, CompareOp::Lt, a, b),
        BinaryOp::LessEqual => compared(alloc, CompareOp::Le, a, b),
        BinaryOp::Greater => compared(alloc, CompareOp::Gt, a, b),
        BinaryOp::GreaterEqual => compared(alloc, CompareOp::Ge, a, b),
        BinaryOp::BitAnd => integers(alloc, IntegerOp::And, a, b),
        BinaryOp::BitOr => integers(alloc, IntegerOp::Or, a, b),
        BinaryOp::ShiftLeft => integers(alloc, IntegerOp::ShiftLeft, a, b),
        BinaryOp::ShiftRight => integers(alloc, IntegerOp::ShiftRight, a, b),
        BinaryOp::Add => arithmetic(alloc, ArithmeticOp::Add, a, b),
        BinaryOp::Subtract => arithmetic(alloc, ArithmeticOp::Subtract, a, b),
        BinaryOp::Multiply => arithmetic(alloc, ArithmeticOp::Multiply, a, b),
        BinaryOp::Divide => arithmetic(alloc, ArithmeticOp::Divide, a, b),
        BinaryOp::Remainder => integers(alloc, IntegerOp::Remainder, a, b),
        BinaryOp::Concatenate => both(alloc, BinaryOperator::Concatenate, a, b),
    }
}

/// `a BETWEEN low AND high`. Only memory can fail.
pub fn between_of(alloc: Global, a: Operand, low: Operand, high: Operand) -> Result<Operand, Cause>
    ensures ok { IfOk result (λ x. x ≡ between_of a low high) }
    ensures mem { OnlyMem result }
{
    let above = sides_of(&a, &low);
    let below = sides_of(&a, &high);
    let explicit = explicit_of_three(&a, &low, &high);
    let tree = BoundExpr::between(alloc, above, below, a.tree, low.tree, high.tree)?;
    Ok(bare(explicit, tree))
}

/// LIKE, with its ESCAPE if any. Only memory can fail.
pub fn like_of(
    alloc: Global,
    a: Operand,
    b: Operand,
    escape: Option<Operand>,
) -> Result<Operand, Cause>
    ensures ok { IfOk result (λ x. x ≡ like_of a b escape) }
    ensures mem { OnlyMem result }
{
    match escape {
        None => both(alloc, BinaryOperator::Like, a, b),
        Some(c) => like_escaped(alloc, a, b, c),
    }
}

/// LIKE with an ESCAPE.
fn like_escaped(alloc: Global, a: Operand, b: Operand, c: Operand) -> Result<Operand, Cause>
    ensures ok { IfOk result (λ x. x ≡ over (a ∷ b ∷ c ∷ []) (e.LikeEscaped a.tree b.tree c.tree)) }
    ensures mem { OnlyMem result }
{
    let explicit = explicit_of_three(&a, &b, &c);
    let tree = BoundExpr::like_escaped(alloc, a.tree, b.tree, c.tree)?;
    Ok(bare(explicit, tree))
}
