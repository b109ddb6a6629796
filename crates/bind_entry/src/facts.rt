// What hosts tell, by names. Of several of one name the first counts.
ghost use Rattle.std.specs.Prelude.{◌≡◌, IfOk};
ghost use Rattle.std.specs.Option.{option_copied};
ghost use Rattle.sql_bound.specs.Answers.{OnlyMem};
ghost use Rattle.sql_bound.specs.Declarations.{collation_there, or_host};
ghost use Rattle.sql_bound.specs.HostFacts.{facts_of};
ghost use Rattle.sql_words.specs.Collations.{collation_named};

use crate::memory::small;
use eng_entry::is_same_name;
use eng_value::{Built, Cause, Collation, ModColumn, Text};
use sql_bound::{HostFacts, HostFunction};
use sqlite_items::Items;

/// How many arguments the function of this name takes, -1 for any number, and whether it may ask queries.
pub fn scalar(facts: &HostFacts, name: &str) -> Option<(i32, bool)>
    ensures { result ≡ (facts_of facts.now).scalar name.now }
{
    match facts
        .functions
        .as_slice()
        .iter()
        .find(|f| is_same_name(f.name.as_bytes(), name.as_bytes()))
    {
        Some(f) => Some((f.arity, f.asks)),
        None => None,
    }
}

/// How many arguments the aggregate of this name takes, -1 for any number.
pub fn aggregate(facts: &HostFacts, name: &str) -> Option<i32>
    ensures { result ≡ (facts_of facts.now).aggregate name.now }
{
    match facts
        .aggregates
        .as_slice()
        .iter()
        .find(|f| is_same_name(f.name.as_bytes(), name.as_bytes()))
    {
        Some(f) => Some(f.arity),
        None => None,
    }
}

/// The place of the collation of this name among those of the hosts.
pub fn collation_place(facts: &HostFacts, name: &str) -> Option<usize>
    ensures { result ≡ (facts_of facts.now).collation name.now }
{
    facts
        .collations
        .as_slice()
        .iter()
        .position(|c| is_same_name(c.as_bytes(), name.as_bytes()))
}

/// Whether the name of this module stands for a table, too, and whether its tables can be written.
pub fn host_module(facts: &HostFacts, name: &str) -> Option<(bool, bool)>
    ensures { result ≡ (facts_of facts.now).host_module name.now }
{
    match facts
        .modules
        .as_slice()
        .iter()
        .find(|m| is_same_name(m.name.as_bytes(), name.as_bytes()))
    {
        Some(m) => Some((m.eponymous, m.writable)),
        None => None,
    }
}

/// The columns of a table of this module, where they are told.
pub fn told_columns<'a>(
    facts: &'a HostFacts,
    name: &str,
    table: u64,
) -> Option<&'a Items<ModColumn>>
    ensures { option_copied result ≡ (facts_of facts.now).columns name.now table }
{
    match facts.told.as_slice().iter().find(|t| is_same_name(t.module.as_bytes(), name.as_bytes())
        && t.table == table)
    {
        Some(t) => Some(&t.columns),
        None => None,
    }
}

/// Whether a savepoint of this name is open.
pub fn savepoint(facts: &HostFacts, name: &str) -> bool
    ensures { result ≡ (facts_of facts.now).savepoint name.now }
{
    facts
        .savepoints
        .as_slice()
        .iter()
        .any(|s| is_same_name(s.as_bytes(), name.as_bytes()))
}

/// The built-in collation of this name (Datatypes In SQLite, section 7).
pub fn collation_named(name: &str) -> Option<Collation>
    ensures { result ≡ collation_named name.now }
{
    if is_same_name(name.as_bytes(), b"BINARY") {
        Some(Collation::Built(Built::Binary))
    } else if is_same_name(name.as_bytes(), b"NOCASE") {
        Some(Collation::Built(Built::NoCase))
    } else if is_same_name(name.as_bytes(), b"RTRIM") {
        Some(Collation::Built(Built::Rtrim))
    } else {
        None
    }
}

/// The collation of this name: one that is built in, or one of a host. Only memory can fail.
pub fn collation_there(facts: &HostFacts, name: &str) -> Result<Option<Collation>, Cause>
    ensures ok { IfOk result (λ c. c ≡ collation_there (facts_of facts.now) name.now) }
    ensures mem { OnlyMem result }
{
    match collation_named(name) {
        Some(collation) => Ok(Some(collation)),
        None => host_collation(collation_place(facts, name)),
    }
}

fn host_collation(place: Option<usize>) -> Result<Option<Collation>, Cause>
    ensures ok { IfOk result (λ c. c ≡ or_host place) }
    ensures mem { OnlyMem result }
{
    match place {
        Some(place) => Ok(Some(Collation::Host(small(place)?))),
        None => Ok(None),
    }
}
