// What the name of a call stands for (Built-in Scalar SQL Functions; Built-in Aggregate Functions).
ghost use Rattle.std.specs.Prelude.{◌≡◌, Some, map, nat_eq, IfOk};
ghost use Rattle.std.specs.List.{find};
ghost use Rattle.std.specs.Option.{option_map};
ghost use Rattle.bound_tree.specs.declared.units.AggregateKind.TheVariants as kind;
ghost use Rattle.eng_entry.specs.Names.{is_same_name};
ghost use Rattle.sql_words.specs.Builtins.{builtin_named, takes};
ghost use Rattle.sql_bound.specs.Answers.{OnlyMem};
ghost use Rattle.sql_bound.specs.Callees.{HostScalar, Scalar, built_aggregator, built_scalar, callee_of, count_by, host_aggregator, host_scalar, is_one, one_of, takes_arity};
ghost use Rattle.sql_bound.specs.HostFacts.{facts_of};
ghost use Rattle.bind_callee.specs.Meant.{aggregator_meant, callee_meant, counts_meant, named_in, row};

use crate::hosts::{host_aggregate_named, host_function_named};
use crate::{AggregateCount, Called, CalledAggregate};
use bound_tree::AggregateKind;
use eng_entry::is_same_name;
use eng_value::{Builtin, Cause, Text};
use sql_bound::HostFacts;
use sql_tree::Arguments;
use sql_words::{ArgumentCount, BUILTINS};
use std::alloc::Global;

/// The function of this name in a table of names.
fn named_in(
    table: &[(&'static str, Builtin, ArgumentCount)],
    name: &[u8],
) -> Option<(&'static str, Builtin, ArgumentCount)>
    ensures { option_map (λ b. row b.0.now b.1 b.2) result ≡ named_in (map (λ b. row b.0.now b.1 b.2) table.now) name.now }
{
    for known in table {
        if is_same_name(known.0.as_bytes(), name) {
            return Some(*known);
        }
    }
    None
}

/// The built-in function of this name.
fn builtin_named(name: &[u8]) -> Option<(&'static str, Builtin, ArgumentCount)>
    ensures { option_map (λ b. row b.0.now b.1 b.2) result ≡ builtin_named name.now }
{
    named_in(&BUILTINS, name)
}

/// An aggregate that takes so many arguments.
fn aggregate(
    alloc: Global,
    kind: AggregateKind,
    name: &str,
    count: AggregateCount,
    star: bool,
) -> Result<Option<CalledAggregate>, Cause>
    ensures ok { IfOk result (λ a. option_map aggregator_meant a ≡ Some (record { name = name.now; kind = kind; takes_count = counts_meant count; takes_star = star })) }
    ensures mem { OnlyMem result }
{
    let name = Text::from_str(alloc, name)?;
    Ok(Some(CalledAggregate {
        name,
        kind,
        count,
        star,
    }))
}

/// An aggregate of one argument.
fn one_of(alloc: Global, kind: AggregateKind, name: &str) -> Result<Option<CalledAggregate>, Cause>
    ensures ok { IfOk result (λ a. option_map aggregator_meant a ≡ Some (one_of kind name.now)) }
    ensures mem { OnlyMem result }
{
    aggregate(alloc, kind, name, AggregateCount::One, false)
}

/// count
fn count_by(alloc: Global, how: Arguments) -> Result<Option<CalledAggregate>, Cause>
    ensures ok { IfOk result (λ a. option_map aggregator_meant a ≡ Some (count_by how)) }
    ensures mem { OnlyMem result }
{
    match how {
        Arguments::Star => aggregate(
            alloc,
            AggregateKind::CountRows,
            "count",
            AggregateCount::One,
            true,
        ),
        _ => one_of(alloc, AggregateKind::Count, "count"),
    }
}

/// Whether there is one argument.
fn is_one(how: Arguments, given: usize) -> bool
    ensures { result ≡ is_one how given }
{
    match how {
        Arguments::Star => false,
        _ => given == 1,
    }
}

/// The built-in aggregate of this name; max and min are aggregates of one argument alone.
fn built_aggregate(
    alloc: Global,
    name: &[u8],
    how: Arguments,
    given: usize,
) -> Result<Option<CalledAggregate>, Cause>
    ensures ok { IfOk result (λ a. option_map aggregator_meant a ≡ built_aggregator name.now how given) }
    ensures mem { OnlyMem result }
{
    if is_same_name(name, b"count") {
        count_by(alloc, how)
    } else if is_same_name(name, b"sum") {
        one_of(alloc, AggregateKind::Sum, "sum")
    } else if is_same_name(name, b"group_concat") {
        aggregate(
            alloc,
            AggregateKind::GroupConcat,
            "group_concat",
            AggregateCount::OneOrTwo,
            false,
        )
    } else if is_same_name(name, b"min") && is_one(how, given) {
        one_of(alloc, AggregateKind::Min, "min")
    } else if is_same_name(name, b"max") && is_one(how, given) {
        one_of(alloc, AggregateKind::Max, "max")
    } else {
        Ok(None)
    }
}

/// What the name of a call stands for, with so many arguments given so: what is built in comes first, then a function of a host, then an
/// aggregate of a host. Only memory can fail.
pub fn callee_of(
    alloc: Global,
    facts: &HostFacts,
    name: &str,
    how: Arguments,
    given: usize,
) -> Result<Called, Cause>
    ensures ok { IfOk result (λ c. callee_meant c ≡ callee_of (facts_of facts.now) name.now how given) }
    ensures mem { OnlyMem result }
{
    match built_aggregate(alloc, name.as_bytes(), how, given)? {
        Some(a) => Ok(Called::Aggregate(a)),
        None => built_scalar(alloc, facts, name),
    }
}

/// The same of what is no built-in aggregate.
fn built_scalar(alloc: Global, facts: &HostFacts, name: &str) -> Result<Called, Cause>
    ensures ok { IfOk result (λ c. callee_meant c ≡ built_scalar (facts_of facts.now) name.now (builtin_named name.now)) }
    ensures mem { OnlyMem result }
{
    match builtin_named(name.as_bytes()) {
        Some(known) => function(alloc, known),
        None => host_scalar(alloc, facts, name),
    }
}

/// A built-in function.
fn function(alloc: Global, known: (&'static str, Builtin, ArgumentCount)) -> Result<Called, Cause>
    ensures ok { IfOk result (λ c. callee_meant c ≡ Scalar known.entry.0.now known.entry.1 (takes known.entry.2)) }
    ensures mem { OnlyMem result }
{
    let name = Text::from_str(alloc, known.0)?;
    Ok(Called::Function(name, known.1, known.2))
}

/// A function or an aggregate of a host, or nobody.
fn host_scalar(alloc: Global, facts: &HostFacts, name: &str) -> Result<Called, Cause>
    ensures ok { IfOk result (λ c. callee_meant c ≡ host_scalar (facts_of facts.now) name.now ((facts_of facts.now).scalar name.now)) }
    ensures mem { OnlyMem result }
{
    match host_function_named(facts, name) {
        Some((arity, _)) => host_function(alloc, name, arity),
        None => host_aggregate(alloc, name, host_aggregate_named(facts, name)),
    }
}

/// A function of a host.
fn host_function(alloc: Global, name: &str, arity: i32) -> Result<Called, Cause>
    ensures ok { IfOk result (λ c. callee_meant c ≡ HostScalar name.now (takes_arity arity)) }
    ensures mem { OnlyMem result }
{
    let name = Text::from_str(alloc, name)?;
    Ok(Called::HostFunction(name, arity))
}

/// An aggregate of a host that takes so many arguments, or nobody.
fn host_aggregate(alloc: Global, name: &str, arity: Option<i32>) -> Result<Called, Cause>
    ensures ok { IfOk result (λ c. callee_meant c ≡ host_aggregator name.now arity) }
    ensures mem { OnlyMem result }
{
    match arity {
        Some(arity) => aggregate_of_host(alloc, name, arity),
        None => Ok(Called::Nobody),
    }
}

/// An aggregate of a host.
fn aggregate_of_host(alloc: Global, name: &str, arity: i32) -> Result<Called, Cause>
    ensures ok { IfOk result (λ c. callee_meant c ≡ host_aggregator name.now (Some arity)) }
    ensures mem { OnlyMem result }
{
    let kind = AggregateKind::HostAggregate(Text::from_str(alloc, name)?);
    let name = Text::from_str(alloc, name)?;
    Ok(Called::Aggregate(CalledAggregate {
        name,
        kind,
        count: AggregateCount::Arity(arity),
        star: false,
    }))
}
