// LIKE and GLOB.
ghost use Rattle.std.specs.Prelude.{◌≡◌, IfOk, pos};
ghost use Rattle.std.specs.FinSet as set;
ghost use Rattle.eng_operator.specs.Escapes.{escape_out};
ghost use Rattle.eng_value.specs.Comparisons.{glob_of, globbed, like_escaped_of, like_of, liked, liked_beside};
ghost use Rattle.eng_value.specs.OperandTexts.{out_of, value_of};
ghost use Rattle.eng_value.specs.Outs.{causes_in, on_both};
ghost use Rattle.eng_value.specs.declared.out.Out.TheVariants.{Good};
ghost use Rattle.eng_value.specs.declared.value.Value.TheVariants as sql;

use crate::escapes::Escape;
use eng_value::{BothTexts, Causes, OperandText, Out, Spelling, Value};
use std::alloc::{AllocError, Global};

/// LIKE (SQL Language Expressions, "The LIKE, GLOB, REGEXP, MATCH, and extract operators") of a text and a pattern as CAST to TEXT
/// makes them: NULL beside NULL. It is bad where an operand is a blob that is not UTF-8 (`NotText`).
#[tactic(auto, unfolding(eng_value::specs::Comparisons::like_of))]
pub fn like(alloc: Global, text: &Out, pattern: &Out) -> Result<Out, AllocError>
    ensures { IfOk result (λ out. out ≡ like_of text.now pattern.now) }
{
    match BothTexts::of(alloc, text, pattern)? {
        BothTexts::Good(text, pattern) => Ok(Out::Good(liked(&text, &pattern))),
        BothTexts::Bad(causes) => Ok(Out::Bad(causes)),
    }
}

/// GLOB (SQL Language Expressions, "The LIKE, GLOB, REGEXP, MATCH, and extract operators"), else as `like`.
#[tactic(auto, unfolding(eng_value::specs::Comparisons::glob_of))]
pub fn glob(alloc: Global, text: &Out, pattern: &Out) -> Result<Out, AllocError>
    ensures { IfOk result (λ out. out ≡ glob_of text.now pattern.now) }
{
    match BothTexts::of(alloc, text, pattern)? {
        BothTexts::Good(text, pattern) => Ok(Out::Good(globbed(&text, &pattern))),
        BothTexts::Bad(causes) => Ok(Out::Bad(causes)),
    }
}

/// LIKE with an ESCAPE (SQL Language Expressions, "The LIKE, GLOB, REGEXP, MATCH, and extract operators"), else as `like`: NULL
/// where one of the three is, and bad where the escape is not one character (`Escape`).
#[tactic(auto, unfolding(eng_value::specs::Comparisons::like_escaped_of))]
pub fn like_escaped(
    alloc: Global,
    text: &Out,
    pattern: &Out,
    escape: &Out,
) -> Result<Out, AllocError>
    ensures { IfOk result (λ out. out ≡ like_escaped_of text.now pattern.now escape.now) }
{
    let pattern = OperandText::of(alloc, pattern)?;
    let escape = Escape::of(alloc, escape)?;
    match OperandText::of(alloc, text)? {
        OperandText::Good(text) => matched_beside(&text, pattern, escape),
        OperandText::Bad(causes) => Ok(Out::Bad(all_causes(causes, pattern, escape)?)),
    }
}

fn liked(text: &Spelling<'_>, pattern: &Spelling<'_>) -> Value
    ensures { result ≡ liked (value_of text.now) (value_of pattern.now) }
{
    match (text.as_str(), pattern.as_str()) {
        (Some(text), Some(pattern)) => Value::of_truth(eng_text::like(pattern, text, None)),
        _ => Value::Null,
    }
}

fn globbed(text: &Spelling<'_>, pattern: &Spelling<'_>) -> Value
    ensures { result ≡ globbed (value_of text.now) (value_of pattern.now) }
{
    match (text.as_str(), pattern.as_str()) {
        (Some(text), Some(pattern)) => Value::of_truth(eng_text::glob(pattern, text)),
        _ => Value::Null,
    }
}

// Of a text, where the pattern or the escape may be bad.
fn matched_beside(
    text: &Spelling<'_>,
    pattern: OperandText<'_>,
    escape: Escape,
) -> Result<Out, AllocError>
    ensures { IfOk result (λ out. out ≡ on_both (λ p e. Good (liked_beside (value_of text.now) p e)) (out_of pattern.entry) (escape_out escape)) }
{
    match (pattern, escape) {
        (OperandText::Good(pattern), Escape::Char(c)) => {
            Ok(Out::Good(liked_beside(text, &pattern, c)))
        }
        (OperandText::Good(_), Escape::Null) => Ok(Out::Good(Value::Null)),
        (OperandText::Good(_), Escape::Bad(causes)) => Ok(Out::Bad(causes)),
        (OperandText::Bad(c), Escape::Bad(d)) => Ok(Out::Bad(c.union(&d)?)),
        (OperandText::Bad(causes), _) => Ok(Out::Bad(causes)),
    }
}

fn liked_beside(text: &Spelling<'_>, pattern: &Spelling<'_>, escape: char) -> Value
    ensures { result ≡ liked_beside (value_of text.now) (value_of pattern.now) (sql.Integer (pos escape)) }
{
    match (text.as_str(), pattern.as_str()) {
        (Some(text), Some(pattern)) => Value::of_truth(eng_text::like(pattern, text, Some(escape))),
        _ => Value::Null,
    }
}

// These causes, and those of a pattern and an escape.
#[tactic(auto, using(crate::proofs::CauseUnions::union_none, crate::proofs::CauseUnions::none_union))]
fn all_causes(
    causes: Causes,
    pattern: OperandText<'_>,
    escape: Escape,
) -> Result<Causes, AllocError>
    ensures { IfOk result (λ all. all ≡ set.union causes (set.union (causes_in (out_of pattern.entry)) (causes_in (escape_out escape)))) }
{
    match (pattern, escape) {
        (OperandText::Bad(c), Escape::Bad(d)) => causes.union(&c.union(&d)?),
        (OperandText::Bad(more), _) => causes.union(&more),
        (OperandText::Good(_), Escape::Bad(more)) => causes.union(&more),
        (OperandText::Good(_), _) => Ok(causes),
    }
}
