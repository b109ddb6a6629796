// The operators on truths.
ghost use Rattle.std.specs.Prelude.{◌≡◌, IfOk};
ghost use Rattle.eng_value.specs.Truths.{and_of, choice_of, chosen, is_truth_of, not_of, or_of};

use eng_value::{Out, Truth, Value};
use std::alloc::{AllocError, Global};

/// AND (SQL Language Expressions, "Boolean Expressions"). A false operand decides, even beside one that is bad.
#[tactic(auto, unfolding(eng_value::specs::Truths::and_of))]
pub fn and(alloc: Global, a: &Out, b: &Out) -> Result<Out, AllocError>
    ensures { IfOk result (λ out. out ≡ and_of a.now b.now) }
{
    let both = Truth::of(alloc, a)?.and(Truth::of(alloc, b)?)?;
    Ok(both.into_out())
}

/// OR (SQL Language Expressions, "Boolean Expressions"). A true operand decides, even beside one that is bad.
#[tactic(auto, unfolding(eng_value::specs::Truths::or_of))]
pub fn or(alloc: Global, a: &Out, b: &Out) -> Result<Out, AllocError>
    ensures { IfOk result (λ out. out ≡ or_of a.now b.now) }
{
    let one_of_both = Truth::of(alloc, a)?.or(Truth::of(alloc, b)?)?;
    Ok(one_of_both.into_out())
}

/// NOT (SQL Language Expressions, "Boolean Expressions"): NULL of NULL.
#[tactic(auto, unfolding(eng_value::specs::Truths::not_of))]
pub fn not(alloc: Global, a: &Out) -> Result<Out, AllocError>
    ensures { IfOk result (λ out. out ≡ not_of a.now) }
{
    Ok(Truth::of(alloc, a)?.not().into_out())
}

/// The first where the condition is true, and else the second, as CASE has it (SQL Language Expressions, "The CASE expression").
/// It takes both over, and what it does not choose counts no more, bad or not. A condition that is bad decides for neither.
#[tactic(auto, unfolding(eng_value::specs::Truths::choice_of))]
pub fn choice(alloc: Global, condition: &Out, first: Out, second: Out) -> Result<Out, AllocError>
    ensures { IfOk result (λ out. out ≡ choice_of condition.now first second) }
{
    Ok(chosen(Truth::of(alloc, condition)?, first, second))
}

fn chosen(truth: Truth, first: Out, second: Out) -> Out
    ensures { result ≡ chosen truth first second }
{
    match truth {
        Truth::True => first,
        Truth::False | Truth::Unknown => second,
        Truth::Failed(causes) => Out::Bad(causes),
    }
}

/// IS TRUE, or IS FALSE where that is wanted (SQL Language Expressions, "Boolean Expressions"): whether the operand has this
/// truth. NULL has neither.
#[tactic(auto, using(crate::proofs::TruthLaws::told_by_truth))]
pub fn truth_is(alloc: Global, wanted: bool, a: &Out) -> Result<Out, AllocError>
    ensures { IfOk result (λ out. out ≡ is_truth_of wanted a.now) }
{
    match Truth::of(alloc, a)? {
        Truth::True => Ok(Out::Good(Value::of_truth(wanted))),
        Truth::False => Ok(Out::Good(Value::of_truth(!wanted))),
        Truth::Unknown => Ok(Out::Good(Value::of_truth(false))),
        Truth::Failed(causes) => Ok(Out::Bad(causes)),
    }
}
