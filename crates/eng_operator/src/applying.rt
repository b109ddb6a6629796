// The operators by what they are told apart by.
ghost use Rattle.std.specs.Prelude.{◌≡◌, Bool, not, IfOk};
ghost use Rattle.eng_value.specs.Applied.{binary_of, is_null_of, not_null_of, unary_of};
ghost use Rattle.eng_value.specs.Collations.{own_keys};
ghost use Rattle.eng_value.specs.Casts.{cast};
ghost use Rattle.eng_value.specs.Functions.{is_null};
ghost use Rattle.eng_value.specs.Outs.{turned};
ghost use Rattle.eng_value.specs.Truths.{truth_of};

use crate::bits::{integers, inverse};
use crate::comparing::{comparison, is};
use crate::joining::concatenation;
use crate::matching::{glob, like};
use crate::numbers::{arithmetic, negative};
use crate::truths::{and, not, or, truth_is};
use eng_value::{
    Affinity, BinaryOperator, Cause, Out, Truth, UnaryOperator, Value, cast, to_integer, to_number,
};
use std::alloc::{AllocError, Global};

/// What an operator with one operand gives, casts among them (SQL Language Expressions, "Operators" and "CAST expressions"). Only
/// memory can fail.
pub fn unary(alloc: Global, op: UnaryOperator, a: &Out) -> Result<Out, AllocError>
    ensures { IfOk result (λ out. out ≡ unary_of op a.now) }
{
    match op {
        UnaryOperator::Truth => truth(alloc, a),
        UnaryOperator::Negative => negative(alloc, a),
        UnaryOperator::BitNot => inverse(a),
        UnaryOperator::Not => not(alloc, a),
        UnaryOperator::IsNull => is_null(a),
        UnaryOperator::NotNull => not_null(a),
        UnaryOperator::IsTruth(wanted) => truth_is(alloc, wanted, a),
        UnaryOperator::Cast(to) => cast_of(alloc, to, a),
    }
}

/// What an operator with two operands gives (SQL Language Expressions, "Operators"). Only memory can fail.
pub fn binary(alloc: Global, op: BinaryOperator, a: &Out, b: &Out) -> Result<Out, AllocError>
    ensures { IfOk result (λ out. out ≡ binary_of own_keys op a.now b.now) }
{
    match op {
        BinaryOperator::Arithmetic(op) => arithmetic(alloc, op, a, b),
        BinaryOperator::Integers(op) => integers(op, a, b),
        BinaryOperator::Concatenate => concatenation(alloc, a, b),
        BinaryOperator::And => and(alloc, a, b),
        BinaryOperator::Or => or(alloc, a, b),
        BinaryOperator::Compare(op, sides) => comparison(alloc, op, sides, a, b),
        BinaryOperator::Is(sides) => is(alloc, sides, a, b),
        BinaryOperator::Like => like(alloc, a, b),
        BinaryOperator::Glob => glob(alloc, a, b),
    }
}

#[tactic(auto, using(crate::proofs::TruthLaws::truth_spelled))]
fn truth(alloc: Global, a: &Out) -> Result<Out, AllocError>
    ensures { IfOk result (λ out. out ≡ truth_of a.now) }
{
    Ok(Truth::of(alloc, a)?.into_out())
}

fn is_null(a: &Out) -> Result<Out, AllocError>
    ensures { IfOk result (λ out. out ≡ is_null_of a.now) }
{
    match a {
        Out::Good(value) => Ok(Out::Good(Value::of_truth(is_value_null(value)))),
        Out::Bad(causes) => Ok(Out::Bad(causes.clone()?)),
    }
}

fn not_null(a: &Out) -> Result<Out, AllocError>
    ensures { IfOk result (λ out. out ≡ not_null_of a.now) }
{
    match a {
        Out::Good(value) => Ok(Out::Good(Value::of_truth(!is_value_null(value)))),
        Out::Bad(causes) => Ok(Out::Bad(causes.clone()?)),
    }
}

fn is_value_null(value: &Value) -> bool
    ensures { result ≡ is_null value.now }
{
    matches!(value, Value::Null)
}

fn cast_of(alloc: Global, to: Affinity, a: &Out) -> Result<Out, AllocError>
    ensures { IfOk result (λ out. out ≡ turned (cast to) a.now) }
{
    match a {
        Out::Good(value) => cast_of_value(alloc, to, value),
        Out::Bad(causes) => Ok(Out::Bad(causes.clone()?)),
    }
}

// It copies the value only where the cast leaves something of it.
#[tactic(auto, unfolding(eng_value::specs::Casts::cast))]
fn cast_of_value(alloc: Global, to: Affinity, value: &Value) -> Result<Out, AllocError>
    ensures { IfOk result (λ out. out ≡ cast to value.now) }
{
    match to {
        Affinity::Integer => Ok(Out::Good(to_integer(value))),
        Affinity::Numeric => Ok(to_number(alloc, value)),
        Affinity::Real => Ok(Out::bad(alloc, Cause::Real)),
        Affinity::Text | Affinity::Blob | Affinity::None => cast(alloc, to, value.clone()?),
    }
}
