// What a write writes, without defaults and constraints.
ghost use Rattle.std.specs.Prelude.{◌≡◌, List, [], map, None, false, IfOk};
ghost use Rattle.bind_target.specs.Meant.{target_meant};
ghost use Rattle.sql_bound.specs.Answers.{OnlyMem};
ghost use Rattle.sql_bound.specs.Declarations.{DeclaredColumn, declared_column};
ghost use Rattle.sql_bound.specs.HostFacts.{facts_of};
ghost use Rattle.sql_bound.specs.Targets.{plain_target, target_of};

use crate::written::Target;
use bind_entry::{is_not_null, put};
use bound_tree::{BoundColumn, BoundExpr};
use eng_value::{Cause, Text};
use sql_bound::{HostFacts, Sourced};
use sql_tree::ColumnDefinition;
use sqlite_items::Items;
use std::alloc::Global;

/// As many times none as there are columns.
fn nones(alloc: Global, columns: &[BoundColumn]) -> Result<Items<Option<BoundExpr>>, Cause>
    ensures ok { IfOk result (λ made. made ≡ map (λ c. None) columns.now) }
    ensures mem { OnlyMem result }
{
    let mut made = Items::new(alloc);
    for column in columns {
        put(&mut made, None)?;
    }
    Ok(made)
}

/// As many times false as there are columns.
fn falses(alloc: Global, columns: &[BoundColumn]) -> Result<Items<bool>, Cause>
    ensures ok { IfOk result (λ made. made ≡ map (λ c. false) columns.now) }
    ensures mem { OnlyMem result }
{
    let mut made = Items::new(alloc);
    for column in columns {
        put(&mut made, false)?;
    }
    Ok(made)
}

/// Rows that are written as they are. Only memory can fail.
pub fn plain_target(alloc: Global, name: Text, s: Sourced) -> Result<Target, Cause>
    ensures ok { IfOk result (λ t. target_meant t ≡ target_of name s (plain_target s name)) }
    ensures mem { OnlyMem result }
{
    let defaults = nones(alloc, s.columns.as_slice())?;
    let not_nulls = falses(alloc, s.columns.as_slice())?;
    Ok(Target {
        name,
        source: s,
        defaults,
        not_nulls,
        checks: Items::new(alloc),
    })
}

/// For each column whether it is NOT NULL. Only memory can fail.
pub fn not_nulls_of(
    alloc: Global,
    facts: &HostFacts,
    text: &str,
    columns: &[ColumnDefinition],
) -> Result<Items<bool>, Cause>
    ensures ok { IfOk result (λ made. made ≡ map (λ (c : DeclaredColumn). c.not_null) (map (declared_column (facts_of facts.now) text.now) columns.now)) }
    ensures mem { OnlyMem result }
{
    let mut made = Items::new(alloc);
    for column in columns {
        put(&mut made, is_not_null(column))?;
    }
    Ok(made)
}
