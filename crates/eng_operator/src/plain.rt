// The operators on two integers and on two texts, where the result is an integer: the most common cases, which need no memory.
ghost use Rattle.std.specs.Prelude.{◌≡◌, ◌&&◌, ℤ, true, not, is_some, IfSome};
ghost use Rattle.eng_operator.specs.Plain.{is_integer, is_integer_value, is_of_integers, is_of_texts, is_text, keep_integers};
ghost use Rattle.eng_value.specs.Applied.{binary_of};
ghost use Rattle.eng_value.specs.Casts.{beside};
ghost use Rattle.eng_value.specs.Collations.{own_keys};
ghost use Rattle.eng_value.specs.Comparisons.{comparison, globbed, liked};
ghost use Rattle.eng_value.specs.Operators.{of_bits, of_integers};
ghost use Rattle.eng_value.specs.Outs.{truth_value};
ghost use Rattle.eng_value.specs.Truths.{and_of, or_of};
ghost use Rattle.eng_value.specs.declared.out.Out.TheVariants.{Good};
ghost use Rattle.eng_value.specs.declared.value.Value.TheVariants as sql;
ghost use Rattle.eng_value.specs.declared.value.Value.TheVariants.{Integer};

use crate::bits::of_bits;
use eng_value::{Affinity, ArithmeticOp, BinaryOperator, CompareOp, IntegerOp, Sides, Value};

/// What an operator gives for two integers: Some exactly where it is one that looks at two integers as they are and an integer comes
/// of it. Else `binary` answers.
#[tactic(auto, unfolding(eng_value::specs::Operators::arithmetic_of, eng_value::specs::Operators::integers_of, eng_value::specs::Comparisons::comparison_of))]
pub fn binary_of_integers(op: &BinaryOperator, a: i64, b: i64) -> Option<i64>
    ensures some { IfSome result (λ n. binary_of own_keys op.now (Good (Integer a)) (Good (Integer b)) ≡ Good (Integer n)) }
    ensures exactly { is_some result ≡ is_of_integers op.now && is_integer (binary_of own_keys op.now (Good (Integer a)) (Good (Integer b))) }
{
    match op {
        BinaryOperator::Arithmetic(op) => arithmetic(*op, a, b),
        BinaryOperator::Integers(op) => integers(*op, a, b),
        BinaryOperator::And => Some(and(a, b)),
        BinaryOperator::Or => Some(or(a, b)),
        BinaryOperator::Compare(op, sides) => comparison(*op, *sides, a, b),
        _ => None,
    }
}

/// The same of two texts: 1 or 0 for LIKE and GLOB, and None exactly for the others.
#[tactic(auto, unfolding(eng_value::specs::Comparisons::like_of, eng_value::specs::Comparisons::glob_of))]
pub fn binary_of_texts(op: &BinaryOperator, a: &str, b: &str) -> Option<i64>
    ensures some { IfSome result (λ n. binary_of own_keys op.now (Good (sql.Text a.now)) (Good (sql.Text b.now)) ≡ Good (Integer n)) }
    ensures exactly { is_some result ≡ is_of_texts op.now }
{
    match op {
        BinaryOperator::Like => Some(like(a, b)),
        BinaryOperator::Glob => Some(glob(a, b)),
        _ => None,
    }
}

fn arithmetic(op: ArithmeticOp, a: i64, b: i64) -> Option<i64>
    ensures some { IfSome result (λ n. of_integers op a b ≡ Good (Integer n)) }
    ensures exactly { is_some result ≡ is_integer (of_integers op a b) }
{
    match op {
        ArithmeticOp::Add => a.checked_add(b),
        ArithmeticOp::Subtract => a.checked_sub(b),
        ArithmeticOp::Multiply => a.checked_mul(b),
        ArithmeticOp::Divide if b == 0 => None,
        ArithmeticOp::Divide => a.checked_div(b),
    }
}

fn integers(op: IntegerOp, a: i64, b: i64) -> Option<i64>
    ensures some { IfSome result (λ n. of_bits op a b ≡ Integer n) }
    ensures exactly { is_some result ≡ is_integer_value (of_bits op a b) }
{
    match of_bits(op, a, b) {
        Value::Integer(n) => Some(n),
        _ => None,
    }
}

fn comparison(op: CompareOp, sides: Sides, a: i64, b: i64) -> Option<i64>
    ensures some { IfSome result (λ n. comparison own_keys op sides (Integer a) (Integer b) ≡ Integer n) }
    ensures exactly { is_some result ≡ keep_integers sides }
{
    if keeps_integers(sides.right, sides.left) && keeps_integers(sides.left, sides.right) {
        Some(truth(op.passes(a.cmp(&b))))
    } else {
        None
    }
}

fn like(text: &str, pattern: &str) -> i64
    ensures { liked (sql.Text text.now) (sql.Text pattern.now) ≡ Integer result }
{
    truth(eng_text::like(pattern, text, None))
}

fn glob(text: &str, pattern: &str) -> i64
    ensures { globbed (sql.Text text.now) (sql.Text pattern.now) ≡ Integer result }
{
    truth(eng_text::glob(pattern, text))
}

// Whether an integer of an affinity stays as it is beside the other affinity. Only TEXT changes one.
#[tactic(auto, using(crate::proofs::PlainLaws::kept_beside))]
fn keeps_integers(other: Affinity, own: Affinity) -> bool
    ensures kept { result ≡ true → (n : ℤ) → beside other own (Integer n) ≡ Integer n }
    ensures test { result ≡ not (is_text other) }
{
    !matches!(other, Affinity::Text)
}

#[tactic(auto, using(crate::proofs::PlainLaws::and_integers))]
fn and(a: i64, b: i64) -> i64
    ensures { and_of (Good (Integer a)) (Good (Integer b)) ≡ Good (Integer result) }
{
    if a == 0 {
        0
    } else if b == 0 {
        0
    } else {
        1
    }
}

#[tactic(auto, using(crate::proofs::PlainLaws::or_integers))]
fn or(a: i64, b: i64) -> i64
    ensures { or_of (Good (Integer a)) (Good (Integer b)) ≡ Good (Integer result) }
{
    if a != 0 {
        1
    } else if b != 0 {
        1
    } else {
        0
    }
}

fn truth(truth: bool) -> i64
    ensures { truth_value truth ≡ Integer result }
{
    if truth { 1 } else { 0 }
}
