// Whether a callee may be called so, and what may not stand everywhere.
ghost use Rattle.std.specs.Prelude.{◌≡◌, nat_eq, Ok, Err, if◌then◌else◌};
ghost use Rattle.std.specs.Option.{option_map};
ghost use Rattle.eng_value.specs.declared.cause.Cause.TheVariants as cause;
ghost use Rattle.sql_words.specs.Builtins.{takes};
ghost use Rattle.sql_bound.specs.Answers.{Answers, Refuses};
ghost use Rattle.sql_bound.specs.Callees.{aggregates_so, may_aggregate, may_call, takes_arity, without_filter};
ghost use Rattle.sql_bound.specs.Expressions.{if_allowed};
ghost use Rattle.sql_bound.specs.Trees.{of_expr};
ghost use Rattle.bind_callee.specs.Meant.{aggregator_meant, called_so, counts_meant};

use crate::{AggregateCount, CalledAggregate};
use eng_value::{Cause, Text};
use sql_bound::Standing;
use sql_tree::{Arguments, Expr};
use sql_words::ArgumentCount;
use sqlite_items::Boxed;
use std::alloc::Global;

/// Refuses a name that may not stand there.
fn misused(alloc: Global, name: &str) -> Result<(), Cause>
    ensures { Refuses (cause.Misuse name.now) result }
{
    let name = Text::from_str(alloc, name)?;
    Err(Cause::Misuse(name))
}

/// Refuses another number of arguments than a name takes.
fn wrongly_counted(alloc: Global, name: &str) -> Result<(), Cause>
    ensures { Refuses (cause.Arity name.now) result }
{
    let name = Text::from_str(alloc, name)?;
    Err(Cause::Arity(name))
}

/// What may stand only where it is allowed.
pub fn if_allowed(alloc: Global, allowed: bool, name: &str) -> Result<(), Cause>
    ensures { Answers (if_allowed allowed name.now (Ok tt)) result }
{
    if allowed {
        Ok(())
    } else {
        misused(alloc, name)
    }
}

/// Whether a function takes so many arguments.
fn takes(count: ArgumentCount, given: usize) -> bool
    ensures { result ≡ takes count given }
{
    match count {
        ArgumentCount::Exactly(n) => given == n,
        ArgumentCount::Between(least, most) => least <= given && given <= most,
        ArgumentCount::AtLeast(least) => least <= given,
    }
}

/// Whether what a host declares takes so many arguments: -1 takes any number.
fn takes_arity(arity: i32, given: usize) -> bool
    ensures { result ≡ takes_arity arity given }
{
    arity == -1 || usize::try_from(arity) == Ok(given)
}

/// A call of a function, where it is known whether it takes so many arguments.
fn called_so(alloc: Global, name: &str, takes: bool, how: Arguments) -> Result<(), Cause>
    ensures { Answers (called_so name.now takes how) result }
{
    match how {
        Arguments::Distinct => misused(alloc, name),
        Arguments::All if takes => Ok(()),
        _ => wrongly_counted(alloc, name),
    }
}

/// Whether a built-in function may be called so: `*` is no argument of a function, and DISTINCT no word of it.
#[tactic(auto, using(crate::proofs::CheckLaws::called))]
pub fn may_call(
    alloc: Global,
    name: &str,
    count: ArgumentCount,
    how: Arguments,
    given: usize,
) -> Result<(), Cause>
    ensures { Answers (may_call name.now (takes count) how given) result }
{
    called_so(alloc, name, takes(count, given), how)
}

/// Whether a host's function may be called so.
#[tactic(auto, using(crate::proofs::CheckLaws::called))]
pub fn may_call_host(
    alloc: Global,
    name: &str,
    arity: i32,
    how: Arguments,
    given: usize,
) -> Result<(), Cause>
    ensures { Answers (may_call name.now (takes_arity arity) how given) result }
{
    called_so(alloc, name, takes_arity(arity, given), how)
}

/// Whether an aggregate takes so many arguments.
fn counts(count: AggregateCount, given: usize) -> bool
    ensures { result ≡ counts_meant count given }
{
    match count {
        AggregateCount::One => given == 1,
        AggregateCount::OneOrTwo => given == 1 || given == 2,
        AggregateCount::Arity(arity) => takes_arity(arity, given),
    }
}

/// A call with so many arguments, where it is known whether that many are taken.
fn counted(alloc: Global, name: &str, takes: bool) -> Result<(), Cause>
    ensures { Answers (if takes then Ok tt else Err (cause.Arity name.now)) result }
{
    if takes {
        Ok(())
    } else {
        wrongly_counted(alloc, name)
    }
}

/// A call with DISTINCT, which goes with one argument.
fn distinct(alloc: Global, name: &str, takes: bool, given: usize) -> Result<(), Cause>
    ensures { Answers (if nat_eq given 1 then if takes then Ok tt else Err (cause.Arity name.now) else Err (cause.Misuse name.now)) result }
{
    if given == 1 {
        counted(alloc, name, takes)
    } else {
        misused(alloc, name)
    }
}

/// Whether an aggregate may be called so.
fn aggregates_so(
    alloc: Global,
    a: &CalledAggregate,
    how: Arguments,
    given: usize,
) -> Result<(), Cause>
    ensures { Answers (aggregates_so (aggregator_meant a.now) how given) result }
{
    let name = a.name.as_str();
    match how {
        Arguments::Star => counted(alloc, name, a.star),
        Arguments::Distinct => distinct(alloc, name, counts(a.count, given), given),
        Arguments::All => counted(alloc, name, counts(a.count, given)),
    }
}

/// Whether an aggregate may be called so, where no aggregate may stand that comes first.
pub fn may_aggregate(
    alloc: Global,
    a: &CalledAggregate,
    standing: Standing,
    how: Arguments,
    given: usize,
) -> Result<(), Cause>
    ensures { Answers (may_aggregate (aggregator_meant a.now) standing how given) result }
{
    match standing {
        Standing::Nowhere => misused(alloc, a.name.as_str()),
        Standing::Taken => aggregates_so(alloc, a, how, given),
    }
}

/// A FILTER goes with an aggregate alone.
pub fn without_filter(alloc: Global, name: &str, filter: &Option<Boxed<Expr>>) -> Result<(), Cause>
    ensures { Answers (without_filter name.now (option_map of_expr filter.now)) result }
{
    match filter {
        None => Ok(()),
        Some(_) => misused(alloc, name),
    }
}
