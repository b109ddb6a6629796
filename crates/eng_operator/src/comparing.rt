// Comparisons and IS.
ghost use Rattle.std.specs.Prelude.{◌≡◌, IfOk, MatchOption};
ghost use Rattle.std.specs.Ordering.{is_eq};
ghost use Rattle.eng_value.specs.Collations.{own_keys};
ghost use Rattle.eng_value.specs.Comparisons.{compare_sides, comparison, comparison_of, is_of};
ghost use Rattle.eng_value.specs.Outs.{truth_value};

use eng_value::{CompareOp, Out, Sides, Value, changed_beside, compare_under};
use std::alloc::{AllocError, Global};
use std::cmp::Ordering;

/// A comparison (SQL Language Expressions, "Operators") under the collation of its sides, each side as the affinities of both
/// want it (Datatypes In SQLite, sections 4.2 and 7.1): NULL beside NULL. A text beside a number that spells no integer stays a
/// text.
#[tactic(auto, unfolding(eng_value::specs::Comparisons::comparison_of))]
pub fn comparison(
    alloc: Global,
    op: CompareOp,
    sides: Sides,
    a: &Out,
    b: &Out,
) -> Result<Out, AllocError>
    ensures { IfOk result (λ out. out ≡ comparison_of own_keys op sides a.now b.now) }
{
    match (a, b) {
        (Out::Good(a), Out::Good(b)) => Ok(Out::Good(compared(alloc, op, sides, a, b)?)),
        (Out::Good(_), Out::Bad(causes)) => Ok(Out::Bad(causes.clone()?)),
        (Out::Bad(causes), Out::Good(_)) => Ok(Out::Bad(causes.clone()?)),
        (Out::Bad(c), Out::Bad(d)) => Ok(Out::Bad(c.union(d)?)),
    }
}

/// IS (SQL Language Expressions, "Operators") under the collation of its sides, each side as the affinities of both want it: as
/// `=`, but NULL is NULL, and no other value is.
#[tactic(auto, unfolding(eng_value::specs::Comparisons::is_of))]
pub fn is(alloc: Global, sides: Sides, a: &Out, b: &Out) -> Result<Out, AllocError>
    ensures { IfOk result (λ out. out ≡ is_of own_keys sides a.now b.now) }
{
    match (a, b) {
        (Out::Good(a), Out::Good(b)) => Ok(Out::Good(sameness(alloc, sides, a, b)?)),
        (Out::Good(_), Out::Bad(causes)) => Ok(Out::Bad(causes.clone()?)),
        (Out::Bad(causes), Out::Good(_)) => Ok(Out::Bad(causes.clone()?)),
        (Out::Bad(c), Out::Bad(d)) => Ok(Out::Bad(c.union(d)?)),
    }
}

fn compared(
    alloc: Global,
    op: CompareOp,
    sides: Sides,
    a: &Value,
    b: &Value,
) -> Result<Value, AllocError>
    ensures { IfOk result (λ value. value ≡ comparison own_keys op sides a.now b.now) }
{
    match (a, b) {
        (Value::Null, _) | (_, Value::Null) => Ok(Value::Null),
        _ => Ok(Value::of_truth(op.passes(compare_sides(alloc, sides, a, b)?))),
    }
}

fn sameness(alloc: Global, sides: Sides, a: &Value, b: &Value) -> Result<Value, AllocError>
    ensures { IfOk result (λ value. value ≡ truth_value (is_eq (compare_sides own_keys sides a.now b.now))) }
{
    Ok(Value::of_truth(compare_sides(alloc, sides, a, b)?.is_eq()))
}

fn compare_sides(alloc: Global, sides: Sides, a: &Value, b: &Value) -> Result<Ordering, AllocError>
    ensures { IfOk result (λ ordering. ordering ≡ compare_sides own_keys sides a.now b.now) }
{
    let left = changed_beside(alloc, sides.right, sides.left, a)?;
    let right = changed_beside(alloc, sides.left, sides.right, b)?;
    Ok(compare_under(
        changed_or_same(&left, a),
        changed_or_same(&right, b),
        sides.collation,
    ))
}

fn changed_or_same<'v>(changed: &'v Option<Value>, value: &'v Value) -> &'v Value
    ensures { MatchOption changed.now (result.now ≡ value.now) (λ v. result.now ≡ v) }
{
    match changed {
        Some(changed) => changed,
        None => value,
    }
}
