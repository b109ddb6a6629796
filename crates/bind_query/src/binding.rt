// Expressions with their names bound.
ghost use Rattle.std.specs.Prelude.{map};
ghost use Rattle.std.specs.Option.{option_map};
ghost use Rattle.sql_tree.specs.declared.expr.Expr.TheOpen.{Expr-F};
ghost use Rattle.bind_query.specs.Scopes.{scope_of};
ghost use Rattle.bind_query.specs.Turns.{arm_bound};
ghost use Rattle.sql_bound.specs.Answers.{Comes};
ghost use Rattle.sql_bound.specs.Expressions.{all_bound, arms_bound, bound_step, option_bound};
ghost use Rattle.sql_bound.specs.Trees.{of_arm, of_expr};

use crate::asking::{bind_exists, bind_in_query, bind_scalar};
use crate::calls::bind_call;
use crate::fuel::less;
use crate::leaves::{named, parameter, raise_abort, raise_ignore};
use crate::naming::{called_column, column};
use crate::scope::Scope;
use bind_callee::collation_called;
use bind_name::affinity_of_type;
use bind_operand::{
    between_of, binary_of, case_of, cast_of, collated, in_of, like_of, literal_operand, unary_of,
};
use bind_scope::pushed;
use eng_value::Cause;
use sql_bound::{ArmOperands, Operand, ScopeItem, WithEntry, Work};
use sql_tree::{Arm, BinaryOp, Expr, Token, TypeName, UnaryOp};
use sqlite_items::{Boxed, Items};
use std::alloc::Global;

/// An expression.
#[cycle(binding)]
pub fn bind<'a>(
    alloc: Global,
    fuel: u32,
    scope: &Scope<'a>,
    levels: &[Items<ScopeItem>],
    tables: &[WithEntry],
    e: &'a Expr,
    work: &mut Work,
) -> Result<Operand, Cause>
    ensures { Comes ((of_expr e.now).bound (scope_of scope.now levels.now tables.now) work.old) result work.new }
{
    let fuel = less(fuel)?;
    match e {
        Expr::Literal(token) => literal_operand(alloc, scope.text, token),
        Expr::Parameter(token) => parameter(alloc, scope, token),
        Expr::Column(token) => column(alloc, fuel, scope, levels, tables, token, work),
        Expr::TableColumn(table, token) => called_column(
            alloc, scope, levels, tables, table, token, work,
        ),
        Expr::Unary(op, a) => bind_unary(alloc, fuel, scope, levels, tables, *op, a.get(), work),
        Expr::Binary(op, a, b) => bind_binary(
            alloc,
            fuel,
            scope,
            levels,
            tables,
            *op,
            a.get(),
            b.get(),
            work,
        ),
        Expr::Between(a, low, high) => bind_between(
            alloc,
            fuel,
            scope,
            levels,
            tables,
            a.get(),
            low.get(),
            high.get(),
            work,
        ),
        Expr::Like(a, b, escape) => bind_like(
            alloc,
            fuel,
            scope,
            levels,
            tables,
            a.get(),
            b.get(),
            escape,
            work,
        ),
        Expr::In(a, others) => bind_in(
            alloc,
            fuel,
            scope,
            levels,
            tables,
            a.get(),
            others.as_slice(),
            work,
        ),
        Expr::InQuery(a, query) => bind_in_query(
            alloc,
            fuel,
            scope,
            levels,
            tables,
            a.get(),
            query.get(),
            work,
        ),
        Expr::Subquery(query) => bind_scalar(alloc, fuel, scope, levels, tables, query.get(), work),
        Expr::Exists(query) => bind_exists(alloc, fuel, scope, levels, tables, query.get(), work),
        Expr::Collate(a, token) => bind_collate(
            alloc,
            fuel,
            scope,
            levels,
            tables,
            a.get(),
            token,
            work,
        ),
        Expr::Cast(a, type_name) => bind_cast(
            alloc,
            fuel,
            scope,
            levels,
            tables,
            a.get(),
            type_name,
            work,
        ),
        Expr::Call(token, how, arguments, filter) => bind_call(
            alloc,
            fuel,
            scope,
            levels,
            tables,
            token,
            *how,
            arguments.as_slice(),
            filter,
            work,
        ),
        Expr::Case(a, arms, otherwise) => bind_case(
            alloc,
            fuel,
            scope,
            levels,
            tables,
            a,
            arms.as_slice(),
            otherwise,
            work,
        ),
        Expr::RaiseIgnore => raise_ignore(alloc, scope),
        Expr::RaiseAbort(token) => raise_abort(alloc, scope, token),
    }
}

/// An operator in front of its operand, or a test behind it.
#[cycle(binding)]
fn bind_unary<'a>(
    alloc: Global,
    fuel: u32,
    scope: &Scope<'a>,
    levels: &[Items<ScopeItem>],
    tables: &[WithEntry],
    op: UnaryOp,
    a: &'a Expr,
    work: &mut Work,
) -> Result<Operand, Cause>
    ensures { Comes (bound_step (Expr-F.Unary op (of_expr a.now)) (scope_of scope.now levels.now tables.now) work.old) result work.new }
{
    let fuel = less(fuel)?;
    let a = bind(alloc, fuel, scope, levels, tables, a, work)?;
    unary_of(alloc, op, a)
}

/// An operator between two operands.
#[cycle(binding)]
fn bind_binary<'a>(
    alloc: Global,
    fuel: u32,
    scope: &Scope<'a>,
    levels: &[Items<ScopeItem>],
    tables: &[WithEntry],
    op: BinaryOp,
    a: &'a Expr,
    b: &'a Expr,
    work: &mut Work,
) -> Result<Operand, Cause>
    ensures { Comes (bound_step (Expr-F.Binary op (of_expr a.now) (of_expr b.now)) (scope_of scope.now levels.now tables.now) work.old) result work.new }
{
    let fuel = less(fuel)?;
    let a = bind(alloc, fuel, scope, levels, tables, a, work)?;
    let b = bind(alloc, fuel, scope, levels, tables, b, work)?;
    binary_of(alloc, op, a, b)
}

/// `a BETWEEN low AND high`
#[cycle(binding)]
fn bind_between<'a>(
    alloc: Global,
    fuel: u32,
    scope: &Scope<'a>,
    levels: &[Items<ScopeItem>],
    tables: &[WithEntry],
    a: &'a Expr,
    low: &'a Expr,
    high: &'a Expr,
    work: &mut Work,
) -> Result<Operand, Cause>
    ensures { Comes (bound_step (Expr-F.Between (of_expr a.now) (of_expr low.now) (of_expr high.now)) (scope_of scope.now levels.now tables.now) work.old) result work.new }
{
    let fuel = less(fuel)?;
    let a = bind(alloc, fuel, scope, levels, tables, a, work)?;
    let low = bind(alloc, fuel, scope, levels, tables, low, work)?;
    let high = bind(alloc, fuel, scope, levels, tables, high, work)?;
    between_of(alloc, a, low, high)
}

/// `a LIKE b ESCAPE escape`
#[cycle(binding)]
fn bind_like<'a>(
    alloc: Global,
    fuel: u32,
    scope: &Scope<'a>,
    levels: &[Items<ScopeItem>],
    tables: &[WithEntry],
    a: &'a Expr,
    b: &'a Expr,
    escape: &'a Option<Boxed<Expr>>,
    work: &mut Work,
) -> Result<Operand, Cause>
    ensures { Comes (bound_step (Expr-F.Like (of_expr a.now) (of_expr b.now) (option_map of_expr escape.now)) (scope_of scope.now levels.now tables.now) work.old) result work.new }
{
    let fuel = less(fuel)?;
    let a = bind(alloc, fuel, scope, levels, tables, a, work)?;
    let b = bind(alloc, fuel, scope, levels, tables, b, work)?;
    let escape = bind_option(alloc, fuel, scope, levels, tables, escape, work)?;
    like_of(alloc, a, b, escape)
}

/// `a IN (other, ..)`
#[cycle(binding)]
fn bind_in<'a>(
    alloc: Global,
    fuel: u32,
    scope: &Scope<'a>,
    levels: &[Items<ScopeItem>],
    tables: &[WithEntry],
    a: &'a Expr,
    others: &'a [Expr],
    work: &mut Work,
) -> Result<Operand, Cause>
    ensures { Comes (bound_step (Expr-F.In (of_expr a.now) (map of_expr others.now)) (scope_of scope.now levels.now tables.now) work.old) result work.new }
{
    let fuel = less(fuel)?;
    let a = bind(alloc, fuel, scope, levels, tables, a, work)?;
    let others = bind_all(alloc, fuel, scope, levels, tables, others, work)?;
    in_of(alloc, a, others)
}

/// COLLATE.
#[cycle(binding)]
fn bind_collate<'a>(
    alloc: Global,
    fuel: u32,
    scope: &Scope<'a>,
    levels: &[Items<ScopeItem>],
    tables: &[WithEntry],
    a: &'a Expr,
    token: &Token,
    work: &mut Work,
) -> Result<Operand, Cause>
    ensures { Comes (bound_step (Expr-F.Collate (of_expr a.now) token.now) (scope_of scope.now levels.now tables.now) work.old) result work.new }
{
    let fuel = less(fuel)?;
    let a = bind(alloc, fuel, scope, levels, tables, a, work)?;
    let name = named(alloc, scope.text, token)?;
    let collation = collation_called(alloc, scope.facts, name.as_str())?;
    Ok(collated(collation, a))
}

/// CAST.
#[cycle(binding)]
fn bind_cast<'a>(
    alloc: Global,
    fuel: u32,
    scope: &Scope<'a>,
    levels: &[Items<ScopeItem>],
    tables: &[WithEntry],
    a: &'a Expr,
    to: &TypeName,
    work: &mut Work,
) -> Result<Operand, Cause>
    ensures { Comes (bound_step (Expr-F.Cast (of_expr a.now) to.now) (scope_of scope.now levels.now tables.now) work.old) result work.new }
{
    let fuel = less(fuel)?;
    let a = bind(alloc, fuel, scope, levels, tables, a, work)?;
    let to = affinity_of_type(alloc, scope.text, to)?;
    cast_of(alloc, to, a)
}

/// CASE.
#[cycle(binding)]
fn bind_case<'a>(
    alloc: Global,
    fuel: u32,
    scope: &Scope<'a>,
    levels: &[Items<ScopeItem>],
    tables: &[WithEntry],
    a: &'a Option<Boxed<Expr>>,
    arms: &'a [Arm],
    otherwise: &'a Option<Boxed<Expr>>,
    work: &mut Work,
) -> Result<Operand, Cause>
    ensures { Comes (bound_step (Expr-F.Case (option_map of_expr a.now) (map of_arm arms.now) (option_map of_expr otherwise.now)) (scope_of scope.now levels.now tables.now) work.old) result work.new }
{
    let fuel = less(fuel)?;
    let a = bind_option(alloc, fuel, scope, levels, tables, a, work)?;
    let arms = bind_arms(alloc, fuel, scope, levels, tables, arms, work)?;
    let otherwise = bind_option(alloc, fuel, scope, levels, tables, otherwise, work)?;
    case_of(alloc, a, arms, otherwise)
}

/// An expression that may be left out.
#[cycle(binding)]
pub(crate) fn bind_option<'a>(
    alloc: Global,
    fuel: u32,
    scope: &Scope<'a>,
    levels: &[Items<ScopeItem>],
    tables: &[WithEntry],
    e: &'a Option<Boxed<Expr>>,
    work: &mut Work,
) -> Result<Option<Operand>, Cause>
    ensures { Comes (option_bound (scope_of scope.now levels.now tables.now) (option_map of_expr e.now) work.old) result work.new }
{
    let fuel = less(fuel)?;
    match e {
        Some(e) => Ok(Some(bind(alloc, fuel, scope, levels, tables, e.get(), work)?)),
        None => Ok(None),
    }
}

/// Expressions, from left to right.
#[cycle(binding)]
pub(crate) fn bind_all<'a>(
    alloc: Global,
    fuel: u32,
    scope: &Scope<'a>,
    levels: &[Items<ScopeItem>],
    tables: &[WithEntry],
    es: &'a [Expr],
    work: &mut Work,
) -> Result<Items<Operand>, Cause>
    ensures { Comes (all_bound (scope_of scope.now levels.now tables.now) (map of_expr es.now) work.old) result work.new }
{
    let fuel = less(fuel)?;
    let mut all = Items::new(alloc);
    for e in es {
        let a = bind(alloc, fuel, scope, levels, tables, e, work)?;
        pushed(&mut all, a)?;
    }
    Ok(all)
}

/// The arms of a CASE.
#[cycle(binding)]
fn bind_arms<'a>(
    alloc: Global,
    fuel: u32,
    scope: &Scope<'a>,
    levels: &[Items<ScopeItem>],
    tables: &[WithEntry],
    arms: &'a [Arm],
    work: &mut Work,
) -> Result<Items<ArmOperands>, Cause>
    ensures { Comes (arms_bound (scope_of scope.now levels.now tables.now) (map of_arm arms.now) work.old) result work.new }
{
    let fuel = less(fuel)?;
    let mut all = Items::new(alloc);
    for arm in arms {
        let operands = bind_arm(alloc, fuel, scope, levels, tables, arm, work)?;
        pushed(&mut all, operands)?;
    }
    Ok(all)
}

/// An arm of a CASE.
#[cycle(binding)]
fn bind_arm<'a>(
    alloc: Global,
    fuel: u32,
    scope: &Scope<'a>,
    levels: &[Items<ScopeItem>],
    tables: &[WithEntry],
    arm: &'a Arm,
    work: &mut Work,
) -> Result<ArmOperands, Cause>
    ensures { Comes (arm_bound (scope_of scope.now levels.now tables.now) (of_arm arm.now) work.old) result work.new }
{
    let fuel = less(fuel)?;
    let condition = bind(alloc, fuel, scope, levels, tables, &arm.condition, work)?;
    let value = bind(alloc, fuel, scope, levels, tables, &arm.value, work)?;
    Ok(ArmOperands { condition, value })
}
