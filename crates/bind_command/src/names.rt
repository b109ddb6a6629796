// Names that a CREATE may take, and those that are there.
ghost use Rattle.std.specs.Prelude.{◌≡◌, IfOk};
ghost use Rattle.std.specs.Option.{option_copied};
ghost use Rattle.sql_bound.specs.Answers.{Answers, OnlyMem};
ghost use Rattle.sql_bound.specs.Creates.{is_free, name_of_entry, named_kind, no_entry, not_there, table_called};
ghost use Rattle.sql_words.specs.Names.{is_reserved_name};
ghost use Rattle.bind_command.specs.Tops.{top_of};

use bind_entry::{copied, name, table_named};
use eng_catalog::{Catalog, Entry, EntryKind};
use eng_entry::is_same_name;
use eng_value::{Cause, NameKind, Text};
use sql_bound::HostFacts;
use sql_tree::Token;
use std::alloc::Global;

/// What a reserved name begins with.
const RESERVED_PREFIX: &[u8] = b"sqlite_";

/// Whether a name is one that nothing may be created with: `sqlite_` begins it, in whatever case.
pub fn is_reserved(name: &[u8]) -> bool
    ensures { result ≡ is_reserved_name name.now }
{
    let end = RESERVED_PREFIX.len().min(name.len());
    is_same_name(&name[..end], RESERVED_PREFIX)
}

/// The word for what there is.
fn named_kind(kind: EntryKind) -> NameKind
    ensures { result ≡ named_kind kind }
{
    match kind {
        EntryKind::Table => NameKind::Table,
        EntryKind::Module => NameKind::Table,
        EntryKind::Index => NameKind::Index,
        EntryKind::View => NameKind::View,
        EntryKind::Trigger => NameKind::Trigger,
    }
}

/// Whether a CREATE may take the name: it is not reserved (`Reserved`), and nothing has it (`Exists`, by the name that it has there).
pub fn is_free(name: &Text, there: Option<&Entry>) -> Result<(), Cause>
    ensures { Answers (is_free name.now (option_copied there.entry)) result }
{
    if is_reserved(name.as_bytes()) {
        return Err(Cause::Reserved(copied(name)?));
    }
    match there {
        Some(entry) => Err(Cause::Exists(named_kind(entry.kind), copied(&entry.name)?)),
        None => Ok(()),
    }
}

/// The name that an entry has, or the one that was asked for where there is none.
pub fn name_of_entry(name: Text, there: Option<&Entry>) -> Result<Text, Cause>
    ensures ok { IfOk result (λ n. n ≡ name_of_entry name (option_copied there.entry)) }
    ensures mem { OnlyMem result }
{
    match there {
        Some(entry) => copied(&entry.name),
        None => Ok(name),
    }
}

/// What the table that a token names is called: as it was created, if there is one.
pub fn table_called(
    alloc: Global,
    text: &str,
    catalog: &Catalog,
    facts: &HostFacts,
    token: &Token,
) -> Result<Text, Cause>
    ensures ok { IfOk result (λ n. n ≡ table_called (top_of catalog.now facts.now text.now) token.now) }
    ensures mem { OnlyMem result }
{
    let name = name(alloc, text, token)?;
    let there = table_named(name.as_str(), catalog);
    name_of_entry(name, there)
}

/// No entry has the name of a table: a module that is a table itself takes neither an index nor a trigger (`Misuse`), and else the table
/// is unknown.
pub fn no_entry<T>(table: Text, host: Option<(bool, bool)>) -> Result<T, Cause>
    ensures { result ≡ no_entry table host }
{
    match host {
        Some((true, _)) => Err(Cause::Misuse(table)),
        _ => Err(Cause::Unknown(NameKind::Table, table)),
    }
}
