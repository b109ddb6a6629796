// What hosts tell of a name (src/facts.rt of the library sql_bound): of several of one name the first counts.
ghost use Rattle.std.specs.Prelude.{◌≡◌, position};
ghost use Rattle.std.specs.List.{find};
ghost use Rattle.std.specs.Option.{option_map};
ghost use Rattle.eng_entry.specs.Names.{is_same_name};
ghost use Rattle.eng_value.specs.declared.cause.Cause.TheVariants as cause;
ghost use Rattle.eng_value.specs.declared.cause.NameKind.TheVariants as kind;
ghost use Rattle.sql_bound.specs.declared.facts.HostAggregate.{HostAggregate};
ghost use Rattle.sql_bound.specs.declared.facts.HostFunction.{HostFunction};
ghost use Rattle.sql_words.specs.Collations.{collation_named};
ghost use Rattle.sql_bound.specs.Answers.{Answers, Refuses};
ghost use Rattle.sql_bound.specs.Expressions.{collation_called, host_collation};
ghost use Rattle.sql_bound.specs.HostFacts.{facts_of};

use eng_entry::is_same_name;
use eng_value::{Built, Cause, Collation, NameKind, Text};
use sql_bound::{HostAggregate, HostFacts, HostFunction};
use std::alloc::Global;

/// How many arguments a host's function of this name takes, and whether it may ask queries.
fn function_in(functions: &[HostFunction], name: &[u8]) -> Option<(i32, bool)>
    ensures { result ≡ option_map (λ (f : HostFunction). (f.arity, f.asks)) (find (λ (f : HostFunction). is_same_name f.name name.now) functions.now) }
{
    for f in functions {
        if is_same_name(f.name.as_bytes(), name) {
            return Some((f.arity, f.asks));
        }
    }
    None
}

/// The same of the functions of hosts.
pub(crate) fn host_function_named(facts: &HostFacts, name: &str) -> Option<(i32, bool)>
    ensures { result ≡ (facts_of facts.now).scalar name.now }
{
    function_in(facts.functions.as_slice(), name.as_bytes())
}

/// How many arguments a host's aggregate of this name takes.
fn aggregate_in(aggregates: &[HostAggregate], name: &[u8]) -> Option<i32>
    ensures { result ≡ option_map (λ (f : HostAggregate). f.arity) (find (λ (f : HostAggregate). is_same_name f.name name.now) aggregates.now) }
{
    for f in aggregates {
        if is_same_name(f.name.as_bytes(), name) {
            return Some(f.arity);
        }
    }
    None
}

/// The same of the aggregates of hosts.
pub(crate) fn host_aggregate_named(facts: &HostFacts, name: &str) -> Option<i32>
    ensures { result ≡ (facts_of facts.now).aggregate name.now }
{
    aggregate_in(facts.aggregates.as_slice(), name.as_bytes())
}

/// The place of a host's collation of this name.
fn collation_in(collations: &[Text], name: &[u8]) -> Option<usize>
    ensures { result ≡ position (λ c. is_same_name c name.now) collations.now }
{
    collations
        .iter()
        .position(|c| is_same_name(c.as_bytes(), name))
}

/// The same of the collations of hosts.
fn host_collation_named(facts: &HostFacts, name: &str) -> Option<usize>
    ensures { result ≡ (facts_of facts.now).collation name.now }
{
    collation_in(facts.collations.as_slice(), name.as_bytes())
}

/// The built-in collation of this name (Datatypes In SQLite, section 7).
fn collation_named(name: &[u8]) -> Option<Collation>
    ensures { result ≡ collation_named name.now }
{
    if is_same_name(name, b"BINARY") {
        Some(Collation::Built(Built::Binary))
    } else if is_same_name(name, b"NOCASE") {
        Some(Collation::Built(Built::NoCase))
    } else if is_same_name(name, b"RTRIM") {
        Some(Collation::Built(Built::Rtrim))
    } else {
        None
    }
}

/// The collation of this name: one that is built in comes first, then one of a host. There may be none.
pub fn collation_called(alloc: Global, facts: &HostFacts, name: &str) -> Result<Collation, Cause>
    ensures { Answers (collation_called (facts_of facts.now) name.now) result }
{
    match collation_named(name.as_bytes()) {
        Some(collation) => Ok(collation),
        None => host_collation(alloc, name, host_collation_named(facts, name)),
    }
}

/// A collation of a host, by its place.
fn host_collation(alloc: Global, name: &str, place: Option<usize>) -> Result<Collation, Cause>
    ensures { Answers (host_collation name.now place) result }
{
    match place {
        Some(at) => match u32::try_from(at) {
            Ok(at) => Ok(Collation::Host(at)),
            Err(_) => Err(Cause::Mem),
        },
        None => unknown(alloc, name),
    }
}

/// Refuses a collation that there is not.
fn unknown(alloc: Global, name: &str) -> Result<Collation, Cause>
    ensures { Refuses (cause.Unknown kind.Collation name.now) result }
{
    let name = Text::from_str(alloc, name)?;
    Err(Cause::Unknown(NameKind::Collation, name))
}
