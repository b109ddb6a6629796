// The columns of a table, as CREATE TABLE declares them.
ghost use Rattle.std.specs.Prelude.{◌≡◌, [], ◌∷◌, ◌++◌, map, IfOk, OnOk, unwrap_or};
ghost use Rattle.std.specs.List.{list_any};
ghost use Rattle.std.specs.Option.{option_copied, option_to_list};
ghost use Rattle.bind_entry.specs.TableParts.{column_of};
ghost use Rattle.sql_bound.specs.Answers.{OnlyMem};
ghost use Rattle.sql_bound.specs.Declarations.{checks_of, collate_of, default_of, is_not_null, table_checks};
ghost use Rattle.sql_bound.specs.HostFacts.{facts_of};
ghost use Rattle.sql_words.specs.Collations.{by_bytes};
ghost use Rattle.sql_words.specs.Refusals.{or_else};
ghost use Rattle.sql_words.specs.Types.{affinity_of_type};
ghost use Rattle.sql_words.specs.Types.{type_affinity};

use crate::facts::collation_there;
use crate::memory::{name, put};
use bind_name::affinity_of_type;
use bound_tree::BoundColumn;
use eng_value::{Affinity, Built, Cause, Collation};
use sql_bound::HostFacts;
use sql_tree::{ColumnConstraint, ColumnDefinition, Expr, TableConstraint, TypeName};
use sqlite_items::Items;
use std::alloc::Global;

/// The affinity of a column's type, BLOB where it has none (Datatypes In SQLite, section 3.1). Only memory can fail.
pub fn type_affinity(
    alloc: Global,
    text: &str,
    type_name: &Option<TypeName>,
) -> Result<Affinity, Cause>
    ensures ok { IfOk result (λ a. a ≡ type_affinity text.now type_name.now) }
    ensures mem { OnlyMem result }
{
    match type_name {
        Some(type_name) => written_affinity(alloc, text, type_name),
        None => Ok(Affinity::Blob),
    }
}

fn written_affinity(alloc: Global, text: &str, type_name: &TypeName) -> Result<Affinity, Cause>
    ensures ok { IfOk result (λ a. a ≡ affinity_of_type text.now type_name.now) }
    ensures mem { OnlyMem result }
{
    match affinity_of_type(alloc, text, type_name) {
        Ok(affinity) => Ok(affinity),
        Err(_) => Err(Cause::Mem),
    }
}

/// A collation, BINARY where there is none.
pub fn or_bytes(collation: Option<Collation>) -> Collation
    ensures { result ≡ unwrap_or collation by_bytes }
{
    match collation {
        Some(collation) => collation,
        None => Collation::Built(Built::Binary),
    }
}

/// The first, or else the second.
fn or_else(first: Option<Collation>, second: Option<Collation>) -> Option<Collation>
    ensures { result ≡ or_else first second }
{
    match first {
        Some(value) => Some(value),
        None => second,
    }
}

fn collate_in(
    alloc: Global,
    facts: &HostFacts,
    text: &str,
    constraint: &ColumnConstraint,
) -> Result<Option<Collation>, Cause>
    ensures ok { IfOk result (λ c. c ≡ collate_of (facts_of facts.now) text.now (constraint.now ∷ [])) }
    ensures mem { OnlyMem result }
{
    match constraint {
        ColumnConstraint::Collate(token) => {
            let name = name(alloc, text, token)?;
            collation_there(facts, name.as_str())
        }
        _ => Ok(None),
    }
}

/// The collation of a column: of several words for it the last counts.
#[tactic(auto, using(crate::proofs::ColumnLaws::or_steps))]
fn collate_of(
    alloc: Global,
    facts: &HostFacts,
    text: &str,
    constraints: &[ColumnConstraint],
) -> Result<Option<Collation>, Cause>
    ensures ok { IfOk result (λ c. c ≡ collate_of (facts_of facts.now) text.now constraints.now) }
    ensures mem { OnlyMem result }
{
    let mut found = None;
    for constraint in constraints {
        found = or_else(collate_in(alloc, facts, text, constraint)?, found);
    }
    Ok(found)
}

/// A column as it is declared. Only memory can fail.
pub fn declared_column(
    alloc: Global,
    facts: &HostFacts,
    text: &str,
    column: &ColumnDefinition,
) -> Result<BoundColumn, Cause>
    ensures ok { IfOk result (λ c. c ≡ column_of (facts_of facts.now) text.now column.now) }
    ensures mem { OnlyMem result }
{
    let name = name(alloc, text, &column.name)?;
    let affinity = type_affinity(alloc, text, &column.type_name)?;
    let collation = collate_of(alloc, facts, text, column.constraints.as_slice())?;
    Ok(BoundColumn {
        name,
        affinity,
        collation: or_bytes(collation),
    })
}

/// Columns as they are declared. Only memory can fail.
pub fn declared_columns(
    alloc: Global,
    facts: &HostFacts,
    text: &str,
    columns: &[ColumnDefinition],
) -> Result<Items<BoundColumn>, Cause>
    ensures ok { IfOk result (λ cs. cs ≡ map (column_of (facts_of facts.now) text.now) columns.now) }
    ensures mem { OnlyMem result }
{
    let mut found = Items::new(alloc);
    for column in columns {
        let one = declared_column(alloc, facts, text, column)?;
        put(&mut found, one)?;
    }
    Ok(found)
}

// ---- what stays in the syntax tree

/// Whether a column is NOT NULL.
pub fn is_not_null(column: &ColumnDefinition) -> bool
    ensures { result ≡ list_any is_not_null column.now.constraints }
{
    column
        .constraints
        .as_slice()
        .iter()
        .any(|constraint| forbids_null(constraint))
}

fn forbids_null(constraint: &ColumnConstraint) -> bool
    ensures { result ≡ is_not_null constraint.now }
{
    match constraint {
        ColumnConstraint::NotNull => true,
        _ => false,
    }
}

fn default_in(constraint: &ColumnConstraint) -> Option<&Expr>
    ensures { option_copied result ≡ default_of (constraint.now ∷ []) }
{
    match constraint {
        ColumnConstraint::Default(value) => Some(value),
        _ => None,
    }
}

fn later<'a>(last: Option<&'a Expr>, found: Option<&'a Expr>) -> Option<&'a Expr>
    ensures { option_copied result ≡ or_else (option_copied last.entry) (option_copied found.entry) }
{
    match last {
        Some(value) => Some(value),
        None => found,
    }
}

/// The DEFAULT of a column: of several the last counts.
#[tactic(auto, using(crate::proofs::ColumnLaws::or_steps))]
pub fn default_of(column: &ColumnDefinition) -> Option<&Expr>
    ensures { option_copied result ≡ default_of column.now.constraints }
{
    let mut found = None;
    for constraint in column.constraints.as_slice() {
        found = later(default_in(constraint), found);
    }
    found
}

/// The condition of a CHECK behind a column. Those of a column are those of its constraints in turn.
pub fn check_in(constraint: &ColumnConstraint) -> Option<&Expr>
    ensures { option_to_list (option_copied result) ≡ checks_of (constraint.now ∷ []) }
{
    match constraint {
        ColumnConstraint::Check(condition) => Some(condition),
        _ => None,
    }
}

/// The condition of a CHECK behind the columns. Those of a table are those of its constraints in turn.
pub fn table_check_in(constraint: &TableConstraint) -> Option<&Expr>
    ensures { option_to_list (option_copied result) ≡ table_checks (constraint.now ∷ []) }
{
    match constraint {
        TableConstraint::Check(condition) => Some(condition),
        _ => None,
    }
}
