// Calls of functions and aggregates.
ghost use Rattle.std.specs.Prelude.{◌+◌, ◌++◌, length, map};
ghost use Rattle.std.specs.Option.{option_map};
ghost use Rattle.bind_callee.specs.Meant.{aggregator_meant, callee_meant};
ghost use Rattle.bind_operand.specs.Kinds.{of_kind};
ghost use Rattle.bind_query.specs.Scopes.{scope_of};
ghost use Rattle.bound_tree.specs.Exprs as e;
ghost use Rattle.sql_bound.specs.Answers.{Becomes, Comes};
ghost use Rattle.sql_bound.specs.Callees.{takes_arity};
ghost use Rattle.sql_bound.specs.Expressions.{aggregate_bound, aggregate_of, bound_step, call_bound, function_bound, if_allowed, with_aggregate};
ghost use Rattle.sql_bound.specs.Operands.{call_of, host_call_of, option_list, over};
ghost use Rattle.sql_bound.specs.Trees.{of_expr};
ghost use Rattle.sql_words.specs.Builtins.{takes};
ghost use Rattle.sql_tree.specs.declared.expr.Expr.TheOpen.{Expr-F};

use crate::binding::{bind_all, bind_option};
use crate::fuel::less;
use crate::leaves::named;
use crate::scope::Scope;
use bind_callee::{
    Called, CalledAggregate, callee_of, if_allowed, may_aggregate, may_call, may_call_host,
    without_filter,
};
use bind_operand::{aggregate_of, call_of, host_call_of, slot_operand};
use bind_scope::{pushed, small};
use bound_tree::AggregateKind;
use eng_value::{Builtin, Cause, NameKind, Text};
use sql_bound::{Operand, ScopeItem, WithEntry, Work};
use sql_tree::{Arguments, Expr, Token};
use sql_words::ArgumentCount;
use sqlite_items::{Boxed, Items};
use std::alloc::Global;

/// A call.
#[cycle(binding)]
pub(crate) fn bind_call<'a>(
    alloc: Global,
    fuel: u32,
    scope: &Scope<'a>,
    levels: &[Items<ScopeItem>],
    tables: &[WithEntry],
    token: &Token,
    how: Arguments,
    args: &'a [Expr],
    filter: &'a Option<Boxed<Expr>>,
    work: &mut Work,
) -> Result<Operand, Cause>
    ensures { Comes (bound_step (Expr-F.Call token.now how (map of_expr args.now) (option_map of_expr filter.now)) (scope_of scope.now levels.now tables.now) work.old) result work.new }
{
    let fuel = less(fuel)?;
    let name = named(alloc, scope.text, token)?;
    let called = callee_of(alloc, scope.facts, name.as_str(), how, args.len())?;
    bind_called(
        alloc, fuel, scope, levels, tables, name, called, how, args, filter, work,
    )
}

/// A call of what its name stands for.
#[cycle(binding)]
fn bind_called<'a>(
    alloc: Global,
    fuel: u32,
    scope: &Scope<'a>,
    levels: &[Items<ScopeItem>],
    tables: &[WithEntry],
    name: Text,
    called: Called,
    how: Arguments,
    args: &'a [Expr],
    filter: &'a Option<Boxed<Expr>>,
    work: &mut Work,
) -> Result<Operand, Cause>
    ensures { Comes (call_bound (scope_of scope.now levels.now tables.now) name (callee_meant called) how (map of_expr args.now) (option_map of_expr filter.now) work.old) result work.new }
{
    let fuel = less(fuel)?;
    match called {
        Called::Function(shown, f, count) => bind_function(
            alloc, fuel, scope, levels, tables, shown, f, count, how, args, filter, work,
        ),
        Called::HostFunction(shown, arity) => bind_host_function(
            alloc, fuel, scope, levels, tables, shown, arity, how, args, filter, work,
        ),
        Called::Aggregate(a) => {
            bind_aggregate(
                alloc, fuel, scope, levels, tables, a, how, args, filter, work,
            )
        }
        Called::Nobody => Err(Cause::Unknown(NameKind::Function, name)),
    }
}

/// A call of a function that is built in.
#[cycle(binding)]
fn bind_function<'a>(
    alloc: Global,
    fuel: u32,
    scope: &Scope<'a>,
    levels: &[Items<ScopeItem>],
    tables: &[WithEntry],
    shown: Text,
    f: Builtin,
    count: ArgumentCount,
    how: Arguments,
    args: &'a [Expr],
    filter: &'a Option<Boxed<Expr>>,
    work: &mut Work,
) -> Result<Operand, Cause>
    ensures { Comes (function_bound (scope_of scope.now levels.now tables.now) shown (takes count) (call_of f) how (map of_expr args.now) (option_map of_expr filter.now) work.old) result work.new }
{
    let fuel = less(fuel)?;
    may_call(alloc, shown.as_str(), count, how, args.len())?;
    let args = bind_all(alloc, fuel, scope, levels, tables, args, work)?;
    without_filter(alloc, shown.as_str(), filter)?;
    call_of(alloc, f, args)
}

/// A call of a function of a host.
#[cycle(binding)]
fn bind_host_function<'a>(
    alloc: Global,
    fuel: u32,
    scope: &Scope<'a>,
    levels: &[Items<ScopeItem>],
    tables: &[WithEntry],
    shown: Text,
    arity: i32,
    how: Arguments,
    args: &'a [Expr],
    filter: &'a Option<Boxed<Expr>>,
    work: &mut Work,
) -> Result<Operand, Cause>
    ensures { Comes (if_allowed scope.now.allowed.hosts shown (function_bound (scope_of scope.now levels.now tables.now) shown (takes_arity arity) (host_call_of shown) how (map of_expr args.now) (option_map of_expr filter.now) work.old)) result work.new }
{
    let fuel = less(fuel)?;
    if_allowed(alloc, scope.allowed.hosts, shown.as_str())?;
    may_call_host(alloc, shown.as_str(), arity, how, args.len())?;
    let args = bind_all(alloc, fuel, scope, levels, tables, args, work)?;
    without_filter(alloc, shown.as_str(), filter)?;
    host_call_of(alloc, shown, args)
}

/// A call of an aggregate, which takes a slot of the core.
#[cycle(binding)]
fn bind_aggregate<'a>(
    alloc: Global,
    fuel: u32,
    scope: &Scope<'a>,
    levels: &[Items<ScopeItem>],
    tables: &[WithEntry],
    a: CalledAggregate,
    how: Arguments,
    args: &'a [Expr],
    filter: &'a Option<Boxed<Expr>>,
    work: &mut Work,
) -> Result<Operand, Cause>
    ensures { Comes (aggregate_bound (scope_of scope.now levels.now tables.now) (aggregator_meant a) how (map of_expr args.now) (option_map of_expr filter.now) work.old) result work.new }
{
    let fuel = less(fuel)?;
    may_aggregate(alloc, &a, scope.standing, how, args.len())?;
    let within = scope.within_aggregate();
    let args = bind_all(alloc, fuel, &within, levels, tables, args, work)?;
    let filter = bind_option(alloc, fuel, &within, levels, tables, filter, work)?;
    let CalledAggregate {
        name: _,
        kind,
        count: _,
        star: _,
    } = a;
    with_slot(alloc, kind, how, args, filter, work)
}

/// An aggregate over these arguments in the next slot of the core.
fn with_slot(
    alloc: Global,
    kind: AggregateKind,
    how: Arguments,
    args: Items<Operand>,
    filter: Option<Operand>,
    work: &mut Work,
) -> Result<Operand, Cause>
    ensures { Becomes (over (args ++ option_list filter) (e.Aggregate (length work.old.aggregates)), with_aggregate (aggregate_of (of_kind kind) how args filter) work.old) result work.new }
{
    let slot = small(work.aggregates.len())?;
    let operand = slot_operand(args.as_slice(), &filter, slot);
    let made = aggregate_of(alloc, kind, how, args, filter)?;
    pushed(&mut work.aggregates, made)?;
    Ok(operand)
}
