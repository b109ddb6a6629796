// Whether a parameter stands in an expression.
ghost use Rattle.std.specs.Prelude.{◌≡◌, map};
ghost use Rattle.std.specs.List.{list_any};
ghost use Rattle.sql_bound.specs.Parameters.{expr_has_parameter, some};
ghost use Rattle.std.specs.Option.{option_map};
ghost use Rattle.bind_parameter.specs.Held.{arm_has};

use crate::queries::query_has;
use sql_tree::{Arm, Expr};
use sqlite_items::Boxed;

/// Whether a parameter stands in an expression.
#[cycle(seeking)]
#[tactic(auto, using(crate::proofs::HeldLaws::expr_laws))]
pub(crate) fn expr_has(e: &Expr) -> bool
    ensures { result ≡ expr_has_parameter e.now }
{
    match e {
        Expr::Literal(_) => false,
        Expr::Parameter(_) => true,
        Expr::Column(_) => false,
        Expr::TableColumn(_, _) => false,
        Expr::Unary(_, a) => expr_has(a.get()),
        Expr::Binary(_, a, b) => expr_has(a.get()) || expr_has(b.get()),
        Expr::Between(a, low, high) => {
            if expr_has(a.get()) {
                return true;
            }
            expr_has(low.get()) || expr_has(high.get())
        }
        Expr::Like(a, b, escape) => {
            if expr_has(a.get()) {
                return true;
            }
            expr_has(b.get()) || boxed_has(escape)
        }
        Expr::In(a, others) => expr_has(a.get()) || any_has(others.as_slice()),
        Expr::InQuery(a, query) => expr_has(a.get()) || query_has(query.get()),
        Expr::Subquery(query) => query_has(query.get()),
        Expr::Exists(query) => query_has(query.get()),
        Expr::Collate(a, _) => expr_has(a.get()),
        Expr::Cast(a, _) => expr_has(a.get()),
        Expr::Call(_, _, arguments, filter) => any_has(arguments.as_slice()) || boxed_has(filter),
        Expr::Case(a, arms, otherwise) => {
            if boxed_has(a) {
                return true;
            }
            if any_arm_has(arms.as_slice()) {
                return true;
            }
            boxed_has(otherwise)
        }
        Expr::RaiseIgnore => false,
        Expr::RaiseAbort(_) => false,
    }
}

/// The same of an expression that may be absent.
#[cycle(seeking)]
fn boxed_has(e: &Option<Boxed<Expr>>) -> bool
    ensures { result ≡ some (option_map expr_has_parameter e.now) }
{
    match e {
        Some(e) => expr_has(e.get()),
        None => false,
    }
}

/// The same of an expression that may be absent.
#[cycle(seeking)]
pub(crate) fn option_has(e: &Option<Expr>) -> bool
    ensures { result ≡ some (option_map expr_has_parameter e.now) }
{
    match e {
        Some(e) => expr_has(e),
        None => false,
    }
}

/// The same of some expressions.
#[cycle(seeking)]
pub(crate) fn any_has(es: &[Expr]) -> bool
    ensures { result ≡ list_any expr_has_parameter es.now }
{
    for e in es {
        if expr_has(e) {
            return true;
        }
    }
    false
}

/// The same of the arms of a CASE.
#[cycle(seeking)]
fn any_arm_has(arms: &[Arm]) -> bool
    ensures { result ≡ list_any arm_has arms.now }
{
    for arm in arms {
        if arm_has(arm) {
            return true;
        }
    }
    false
}

/// The same of an arm.
#[cycle(seeking)]
#[tactic(auto, using(crate::proofs::HeldLaws::arm_laws))]
fn arm_has(arm: &Arm) -> bool
    ensures { result ≡ arm_has arm.now }
{
    expr_has(&arm.condition) || expr_has(&arm.value)
}
