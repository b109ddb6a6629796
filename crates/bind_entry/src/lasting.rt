// Whether the collations that a table and its indexes were created with are still there: hosts may have gone since.
ghost use Rattle.std.specs.Prelude.{◌≡◌, [], ◌∷◌, ◌++◌};
ghost use Rattle.std.specs.List.{flat_map};
ghost use Rattle.std.specs.Option.{option_to_list};
ghost use Rattle.sql_bound.specs.Answers.{Answers};
ghost use Rattle.sql_bound.specs.Declarations.{definition_of, index_in};
ghost use Rattle.sql_bound.specs.Expressions.{collation_called};
ghost use Rattle.sql_bound.specs.HostFacts.{facts_of};
ghost use Rattle.sql_words.specs.Refusals.{or_else};
ghost use Rattle.sql_bound.specs.Lasting.{all_there, collations_kept, index_there, indexes_there, last_collate, of_column, of_key, of_parts};

use crate::entries::{index_of, is_index_of};
use crate::facts::collation_there;
use crate::memory::name;
use eng_catalog::Catalog;
use eng_entry::{Entry, Space};
use eng_value::{Cause, Collation, NameKind, Text};
use sql_bound::HostFacts;
use sql_tree::{
    ColumnConstraint, ColumnDefinition, IndexedColumn, TableConstraint, TableDefinition, Token,
};
use std::alloc::Global;

/// The collation of this name, built in or of a host, or that it is unknown.
pub fn collation_called(facts: &HostFacts, name: Text) -> Result<Collation, Cause>
    ensures { Answers (collation_called (facts_of facts.now) name) result }
{
    match collation_there(facts, name.as_str())? {
        Some(collation) => Ok(collation),
        None => Err(Cause::Unknown(NameKind::Collation, name)),
    }
}

fn is_there(alloc: Global, facts: &HostFacts, text: &str, token: &Token) -> Result<(), Cause>
    ensures { Answers (all_there (facts_of facts.now) text.now (token.now ∷ [])) result }
{
    let name = name(alloc, text, token)?;
    collation_called(facts, name)?;
    Ok(())
}

fn option_there(
    alloc: Global,
    facts: &HostFacts,
    text: &str,
    token: &Option<Token>,
) -> Result<(), Cause>
    ensures { Answers (all_there (facts_of facts.now) text.now (option_to_list token.now)) result }
{
    match token {
        Some(token) => is_there(alloc, facts, text, token),
        None => Ok(()),
    }
}

fn collate_in(constraint: &ColumnConstraint) -> Option<Token>
    ensures { result ≡ last_collate (constraint.now ∷ []) }
{
    match constraint {
        ColumnConstraint::Collate(token) => Some(*token),
        _ => None,
    }
}

fn later(last: Option<Token>, found: Option<Token>) -> Option<Token>
    ensures { result ≡ or_else last found }
{
    match last {
        Some(token) => Some(token),
        None => found,
    }
}

/// The name of a column's collation: of several the last counts.
#[tactic(auto, using(crate::proofs::ThereLaws::last_steps))]
fn last_collate(constraints: &[ColumnConstraint]) -> Option<Token>
    ensures { result ≡ last_collate constraints.now }
{
    let mut found = None;
    for constraint in constraints {
        found = later(collate_in(constraint), found);
    }
    found
}

fn column_there(
    alloc: Global,
    facts: &HostFacts,
    text: &str,
    column: &ColumnDefinition,
) -> Result<(), Cause>
    ensures { Answers (all_there (facts_of facts.now) text.now (of_column column.now)) result }
{
    let token = last_collate(column.constraints.as_slice());
    option_there(alloc, facts, text, &token)
}

#[tactic(auto, using(crate::proofs::ThereLaws::there_steps))]
fn columns_there(
    alloc: Global,
    facts: &HostFacts,
    text: &str,
    columns: &[ColumnDefinition],
) -> Result<(), Cause>
    ensures { Answers (all_there (facts_of facts.now) text.now (flat_map of_column columns.now)) result }
{
    for column in columns {
        column_there(alloc, facts, text, column)?;
    }
    Ok(())
}

#[tactic(auto, using(crate::proofs::ThereLaws::there_steps))]
fn parts_there(
    alloc: Global,
    facts: &HostFacts,
    text: &str,
    parts: &[IndexedColumn],
) -> Result<(), Cause>
    ensures { Answers (all_there (facts_of facts.now) text.now (of_parts parts.now)) result }
{
    for part in parts {
        option_there(alloc, facts, text, &part.collation)?;
    }
    Ok(())
}

fn key_there(
    alloc: Global,
    facts: &HostFacts,
    text: &str,
    constraint: &TableConstraint,
) -> Result<(), Cause>
    ensures { Answers (all_there (facts_of facts.now) text.now (of_key constraint.now)) result }
{
    match constraint {
        TableConstraint::PrimaryKey(parts) => parts_there(alloc, facts, text, parts.as_slice()),
        TableConstraint::Unique(parts) => parts_there(alloc, facts, text, parts.as_slice()),
        TableConstraint::Check(_) => Ok(()),
    }
}

#[tactic(auto, using(crate::proofs::ThereLaws::there_steps))]
fn keys_there(
    alloc: Global,
    facts: &HostFacts,
    text: &str,
    constraints: &[TableConstraint],
) -> Result<(), Cause>
    ensures { Answers (all_there (facts_of facts.now) text.now (flat_map of_key constraints.now)) result }
{
    for constraint in constraints {
        key_there(alloc, facts, text, constraint)?;
    }
    Ok(())
}

/// Those of a table's own text.
#[tactic(auto, using(crate::proofs::ThereLaws::there_steps))]
fn table_there(
    alloc: Global,
    facts: &HostFacts,
    text: &str,
    table: &TableDefinition,
) -> Result<(), Cause>
    ensures { Answers (all_there (facts_of facts.now) text.now (flat_map of_column table.now.columns ++ flat_map of_key table.now.constraints)) result }
{
    columns_there(alloc, facts, text, table.columns.as_slice())?;
    keys_there(alloc, facts, text, table.constraints.as_slice())
}

/// Those of an index's text.
fn index_there(alloc: Global, facts: &HostFacts, entry: &Entry) -> Result<(), Cause>
    ensures { Answers (index_there (facts_of facts.now) entry.now (index_in (definition_of entry.now))) result }
{
    match index_of(entry) {
        Some(index) => parts_there(alloc, facts, entry.text.as_str(), index.columns.as_slice()),
        None => Ok(()),
    }
}

/// Those of an entry, if it is an index of the table.
fn entry_there(alloc: Global, facts: &HostFacts, table: &str, entry: &Entry) -> Result<(), Cause>
    ensures { Answers (indexes_there (facts_of facts.now) table.now (entry.now ∷ [])) result }
{
    if is_index_of(table, entry) {
        index_there(alloc, facts, entry)
    } else {
        Ok(())
    }
}

#[tactic(auto, using(crate::proofs::ThereLaws::there_steps))]
fn indexes_there(
    alloc: Global,
    facts: &HostFacts,
    table: &str,
    entries: &[Entry],
) -> Result<(), Cause>
    ensures { Answers (indexes_there (facts_of facts.now) table.now entries.now) result }
{
    for entry in entries {
        entry_there(alloc, facts, table, entry)?;
    }
    Ok(())
}

/// Whether the collations are still there that a table of the catalog and its indexes were created with, or the first that is unknown.
pub fn collations_kept(
    alloc: Global,
    facts: &HostFacts,
    catalog: &Catalog,
    entry: &Entry,
    table: &TableDefinition,
) -> Result<(), Cause>
    ensures { Answers (collations_kept (record { catalog = catalog.now; facts = facts_of facts.now }) entry.now table.now) result }
{
    table_there(alloc, facts, entry.text.as_str(), table)?;
    indexes_there(
        alloc,
        facts,
        entry.name.as_str(),
        catalog.entries(Space::Names),
    )
}
