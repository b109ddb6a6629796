// Whether a SELECT is grouped (SELECT, section 2.5).
ghost use Rattle.std.specs.Prelude.{◌≡◌, ◌||◌, not, is_some, map, IfOk};
ghost use Rattle.std.specs.List.{list_any};
ghost use Rattle.bind_callee.specs.Told.{told};
ghost use Rattle.sql_bound.specs.Answers.{OnlyMem};
ghost use Rattle.sql_bound.specs.Carriers.{TermParts};
ghost use Rattle.sql_bound.specs.Cores.{is_grouped, result_aggregates};
ghost use Rattle.sql_bound.specs.Declarations.{is_empty};
ghost use Rattle.sql_bound.specs.HostFacts.{facts_of};
ghost use Rattle.sql_bound.specs.Orders.{orders_by_aggregate};
ghost use Rattle.sql_bound.specs.Scopes.{Outer};
ghost use Rattle.sql_bound.specs.Trees.{of_core, of_expr, of_result, of_term};

use bind_callee::holds_aggregate;
use eng_value::Cause;
use sql_bound::HostFacts;
use sql_tree::{Expr, OrderingTerm, ResultColumn, SelectCore};
use std::alloc::Global;

/// Whether an aggregate stands in an expression, as told of no other place than the text and the facts.
fn holds(alloc: Global, text: &str, facts: &HostFacts, e: &Expr) -> Result<bool, Cause>
    ensures ok { IfOk result (λ b. b ≡ (of_expr e.now).aggregates (told text.now (facts_of facts.now))) }
    ensures mem { OnlyMem result }
{
    holds_aggregate(alloc, text, facts, e)
}

fn result_holds(
    alloc: Global,
    text: &str,
    facts: &HostFacts,
    column: &ResultColumn,
) -> Result<bool, Cause>
    ensures ok { IfOk result (λ b. b ≡ result_aggregates (told text.now (facts_of facts.now)) (of_result column.now)) }
    ensures mem { OnlyMem result }
{
    match column {
        ResultColumn::All => Ok(false),
        ResultColumn::AllOf(_) => Ok(false),
        ResultColumn::Expression(spanned, _) => holds(alloc, text, facts, &spanned.expr),
    }
}

/// Whether an aggregate stands in one of the results.
fn any_holds(
    alloc: Global,
    text: &str,
    facts: &HostFacts,
    results: &[ResultColumn],
) -> Result<bool, Cause>
    ensures ok { IfOk result (λ b. b ≡ list_any (result_aggregates (told text.now (facts_of facts.now))) (map of_result results.now)) }
    ensures mem { OnlyMem result }
{
    for column in results {
        if result_holds(alloc, text, facts, column)? {
            return Ok(true);
        }
    }
    Ok(false)
}

/// Whether it is written with GROUP BY or HAVING.
fn has_groups(core: &SelectCore) -> bool
    ensures { result ≡ not (is_empty (of_core core.now).group_by) || is_some (of_core core.now).having }
{
    match core.group_by.as_slice() {
        [] => core.having.is_some(),
        [_, ..] => true,
    }
}

#[tactic(auto, using(crate::proofs::GroupLaws::group_laws))]
fn is_grouped_so(
    alloc: Global,
    text: &str,
    facts: &HostFacts,
    core: &SelectCore,
    ordered: bool,
) -> Result<bool, Cause>
    ensures ok { IfOk result (λ b. b ≡ is_grouped (told text.now (facts_of facts.now)) (of_core core.now) ordered) }
    ensures mem { OnlyMem result }
{
    if has_groups(core) {
        return Ok(true);
    }
    if ordered {
        return Ok(true);
    }
    any_holds(alloc, text, facts, core.results.as_slice())
}

/// Whether a SELECT is grouped: GROUP BY, HAVING or an aggregate in a result makes it so, or one in ORDER BY, which is told. Only memory can fail.
pub fn is_grouped(
    alloc: Global,
    text: &str,
    facts: &HostFacts,
    core: &SelectCore,
    ordered: bool,
) -> Result<bool, Cause>
    ensures ok { IfOk result (λ b. (o : Outer) → o.text ≡ text.now → o.around.facts ≡ facts_of facts.now → is_grouped o (of_core core.now) ordered ≡ b) }
    ensures mem { OnlyMem result }
{
    is_grouped_so(alloc, text, facts, core, ordered)
}

fn any_orders(
    alloc: Global,
    text: &str,
    facts: &HostFacts,
    order: &[OrderingTerm],
) -> Result<bool, Cause>
    ensures ok { IfOk result (λ b. b ≡ orders_by_aggregate (told text.now (facts_of facts.now)) (map of_term order.now)) }
    ensures mem { OnlyMem result }
{
    for term in order {
        if holds(alloc, text, facts, &term.key.expr)? {
            return Ok(true);
        }
    }
    Ok(false)
}

/// Whether ORDER BY holds an aggregate. Only memory can fail.
pub fn orders_by_aggregate(
    alloc: Global,
    text: &str,
    facts: &HostFacts,
    order: &[OrderingTerm],
) -> Result<bool, Cause>
    ensures ok { IfOk result (λ b. (o : Outer) → o.text ≡ text.now → o.around.facts ≡ facts_of facts.now → orders_by_aggregate o (map of_term order.now) ≡ b) }
    ensures mem { OnlyMem result }
{
    any_orders(alloc, text, facts, order)
}
