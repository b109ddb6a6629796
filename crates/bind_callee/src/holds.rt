// Whether an aggregate stands in an expression, outside its queries.
ghost use Rattle.std.specs.Prelude.{◌≡◌, map, IfOk};
ghost use Rattle.std.specs.List.{list_any};
ghost use Rattle.std.specs.Option.{option_map};
ghost use Rattle.sql_bound.specs.Answers.{OnlyMem};
ghost use Rattle.sql_bound.specs.Callees.{is_aggregate};
ghost use Rattle.sql_bound.specs.Expressions.{any_holds, arm_holds, calls_aggregate, option_holds};
ghost use Rattle.sql_bound.specs.HostFacts.{facts_of};
ghost use Rattle.sql_bound.specs.Scopes.{Outer};
ghost use Rattle.sql_bound.specs.Trees.{of_expr};
ghost use Rattle.bind_callee.specs.Meant.{callee_meant};
ghost use Rattle.bind_callee.specs.Told.{of_arm, told};

use crate::Called;
use crate::callees::callee_of;
use bind_name::name;
use eng_value::Cause;
use sql_bound::HostFacts;
use sql_tree::{Arguments, Arm, Expr, Token};
use sqlite_items::Boxed;
use std::alloc::Global;

/// Whether an aggregate stands in an expression of the text, outside its queries. Only memory can fail.
pub fn holds_aggregate(
    alloc: Global,
    text: &str,
    facts: &HostFacts,
    e: &Expr,
) -> Result<bool, Cause>
    ensures ok { IfOk result (λ b. (o : Outer) → o.text ≡ text.now → o.around.facts ≡ facts_of facts.now → (of_expr e.now).aggregates o ≡ b) }
    ensures mem { OnlyMem result }
{
    holds(alloc, text, facts, e)
}

/// The same, as told of no other place than the text and the facts.
#[cycle(holding)]
#[tactic(auto, using(crate::proofs::HoldLaws::holds_laws))]
fn holds(alloc: Global, text: &str, facts: &HostFacts, e: &Expr) -> Result<bool, Cause>
    ensures ok { IfOk result (λ b. b ≡ (of_expr e.now).aggregates (told text.now (facts_of facts.now))) }
    ensures mem { OnlyMem result }
{
    match e {
        Expr::Literal(_) => Ok(false),
        Expr::Parameter(_) => Ok(false),
        Expr::Column(_) => Ok(false),
        Expr::TableColumn(_, _) => Ok(false),
        Expr::Unary(_, a) => holds(alloc, text, facts, a.get()),
        Expr::Binary(_, a, b) => {
            if holds(alloc, text, facts, a.get())? {
                return Ok(true);
            }
            holds(alloc, text, facts, b.get())
        }
        Expr::Between(a, low, high) => {
            if holds(alloc, text, facts, a.get())? {
                return Ok(true);
            }
            if holds(alloc, text, facts, low.get())? {
                return Ok(true);
            }
            holds(alloc, text, facts, high.get())
        }
        Expr::Like(a, b, escape) => {
            if holds(alloc, text, facts, a.get())? {
                return Ok(true);
            }
            if holds(alloc, text, facts, b.get())? {
                return Ok(true);
            }
            option_holds(alloc, text, facts, escape)
        }
        Expr::In(a, others) => {
            if holds(alloc, text, facts, a.get())? {
                return Ok(true);
            }
            any_holds(alloc, text, facts, others.as_slice())
        }
        Expr::InQuery(a, _) => holds(alloc, text, facts, a.get()),
        Expr::Subquery(_) => Ok(false),
        Expr::Exists(_) => Ok(false),
        Expr::Collate(a, _) => holds(alloc, text, facts, a.get()),
        Expr::Cast(a, _) => holds(alloc, text, facts, a.get()),
        Expr::Call(token, how, arguments, filter) => {
            if calls_aggregate(alloc, text, facts, token, *how, arguments.len())? {
                return Ok(true);
            }
            if any_holds(alloc, text, facts, arguments.as_slice())? {
                return Ok(true);
            }
            option_holds(alloc, text, facts, filter)
        }
        Expr::Case(a, arms, otherwise) => {
            if option_holds(alloc, text, facts, a)? {
                return Ok(true);
            }
            if any_arm_holds(alloc, text, facts, arms.as_slice())? {
                return Ok(true);
            }
            option_holds(alloc, text, facts, otherwise)
        }
        Expr::RaiseIgnore => Ok(false),
        Expr::RaiseAbort(_) => Ok(false),
    }
}

/// The same of an expression that may be absent.
#[cycle(holding)]
fn option_holds(
    alloc: Global,
    text: &str,
    facts: &HostFacts,
    e: &Option<Boxed<Expr>>,
) -> Result<bool, Cause>
    ensures ok { IfOk result (λ b. b ≡ option_holds (told text.now (facts_of facts.now)) (option_map of_expr e.now)) }
    ensures mem { OnlyMem result }
{
    match e {
        Some(e) => holds(alloc, text, facts, e.get()),
        None => Ok(false),
    }
}

/// The same of some expressions.
#[cycle(holding)]
fn any_holds(alloc: Global, text: &str, facts: &HostFacts, es: &[Expr]) -> Result<bool, Cause>
    ensures ok { IfOk result (λ b. b ≡ any_holds (told text.now (facts_of facts.now)) (map of_expr es.now)) }
    ensures mem { OnlyMem result }
{
    for e in es {
        if holds(alloc, text, facts, e)? {
            return Ok(true);
        }
    }
    Ok(false)
}

/// The same of the arms of a CASE.
#[cycle(holding)]
fn any_arm_holds(alloc: Global, text: &str, facts: &HostFacts, arms: &[Arm]) -> Result<bool, Cause>
    ensures ok { IfOk result (λ b. b ≡ list_any (arm_holds (told text.now (facts_of facts.now))) (map of_arm arms.now)) }
    ensures mem { OnlyMem result }
{
    for arm in arms {
        if holds(alloc, text, facts, &arm.condition)? {
            return Ok(true);
        }
        if holds(alloc, text, facts, &arm.value)? {
            return Ok(true);
        }
    }
    Ok(false)
}

/// Whether a call is that of an aggregate.
fn calls_aggregate(
    alloc: Global,
    text: &str,
    facts: &HostFacts,
    token: &Token,
    how: Arguments,
    given: usize,
) -> Result<bool, Cause>
    ensures ok { IfOk result (λ b. b ≡ calls_aggregate (told text.now (facts_of facts.now)) token.now how given) }
    ensures mem { OnlyMem result }
{
    let name = name(alloc, text, token)?;
    let called = callee_of(alloc, facts, name.as_str(), how, given)?;
    Ok(is_aggregate(&called))
}

/// Whether it is an aggregate.
fn is_aggregate(called: &Called) -> bool
    ensures { result ≡ is_aggregate (callee_meant called.now) }
{
    match called {
        Called::Aggregate(_) => true,
        Called::Function(_, _, _) => false,
        Called::HostFunction(_, _) => false,
        Called::Nobody => false,
    }
}
