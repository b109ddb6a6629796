// DEFAULT and CHECK, where a row is put (CREATE TABLE, sections 3.2 and 3.7).
ghost use Rattle.std.specs.Prelude.{◌∷◌, [], map, Some};
ghost use Rattle.std.specs.Option.{option_copied, option_to_list};
ghost use Rattle.bind_source.specs.Arounds.{around_of};
ghost use Rattle.bind_write.specs.Turns.{check_bound, in_turn};
ghost use Rattle.sql_bound.specs.Answers.{Comes, Goes};
ghost use Rattle.sql_bound.specs.Declarations.{checks_of, declared_column, declared_table, default_of, table_checks};
ghost use Rattle.sql_bound.specs.Froms.{scope_item};
ghost use Rattle.sql_bound.specs.HostFacts.{facts_of};
ghost use Rattle.sql_bound.specs.Targets.{checks_bound, constraint_bound, default_bound, defaults_bound};
ghost use Rattle.sql_bound.specs.Trees.{of_expr};
ghost use Rattle.std.specs.List.{flat_map};
ghost use Rattle.sql_tree.specs.declared.statement.ColumnDefinition.{ColumnDefinition};

use crate::scoped::target_level;
use bind_entry::{check_in, default_of, table_check_in};
use bind_query::{STEPS, Scope, bind};
use bind_scope::pushed;
use bound_tree::BoundExpr;
use eng_catalog::Catalog;
use eng_value::{Cause, Text};
use sql_bound::{Allowed, HostFacts, ScopeItem, Sourced, Work};
use sql_tree::{ColumnConstraint, ColumnDefinition, Expr, TableConstraint, TableDefinition};
use sqlite_items::Items;
use std::alloc::Global;

/// A CHECK names columns.
pub const IN_CHECK: Allowed = Allowed {
    hosts: false,
    queries: false,
    columns: true,
    parameters: false,
    raises: false,
};

/// A DEFAULT names no column.
pub const IN_DEFAULT: Allowed = Allowed {
    hosts: false,
    queries: false,
    columns: false,
    parameters: false,
    raises: false,
};

/// A constraint's expression over a FROM, in which this may stand.
pub fn bind_constraint<'a>(
    alloc: Global,
    catalog: &'a Catalog,
    facts: &'a HostFacts,
    text: &'a str,
    level: Items<ScopeItem>,
    allowed: Allowed,
    e: &'a Expr,
    work: &mut Work,
) -> Result<BoundExpr, Cause>
    ensures { Comes (constraint_bound (around_of catalog.now facts.now) text.now level allowed (of_expr e.now) work.old) result work.new }
{
    let scope = Scope::of_text(text, catalog, facts, allowed);
    let mut levels = Items::new(alloc);
    pushed(&mut levels, level)?;
    let a = bind(alloc, STEPS, &scope, levels.as_slice(), &[], e, work)?;
    Ok(a.tree)
}

// ---- DEFAULT

/// The DEFAULT of a column, if it has any.
pub fn bind_default<'a>(
    alloc: Global,
    catalog: &'a Catalog,
    facts: &'a HostFacts,
    text: &'a str,
    column: &'a ColumnDefinition,
    work: &mut Work,
) -> Result<Option<BoundExpr>, Cause>
    ensures { Comes (default_bound (around_of catalog.now facts.now) text.now (default_of column.now.constraints) work.old) result work.new }
{
    match default_of(column) {
        Some(e) => {
            let none = Items::new(alloc);
            Ok(Some(bind_constraint(alloc, catalog, facts, text, none, IN_DEFAULT, e, work)?))
        }
        None => Ok(None),
    }
}

/// For each column its DEFAULT.
pub(crate) fn bind_defaults<'a>(
    alloc: Global,
    catalog: &'a Catalog,
    facts: &'a HostFacts,
    text: &'a str,
    columns: &'a [ColumnDefinition],
    work: &mut Work,
) -> Result<Items<Option<BoundExpr>>, Cause>
    ensures { Comes (defaults_bound (around_of catalog.now facts.now) text.now (map (declared_column (facts_of facts.now) text.now) columns.now) work.old) result work.new }
{
    let mut defaults = Items::new(alloc);
    for column in columns {
        let default = bind_default(alloc, catalog, facts, text, column, work)?;
        pushed(&mut defaults, default)?;
    }
    Ok(defaults)
}

// ---- CHECK

/// Puts a CHECK behind others, where there is one.
fn put_check<'a>(
    alloc: Global,
    catalog: &'a Catalog,
    facts: &'a HostFacts,
    text: &'a str,
    name: &Text,
    s: &Sourced,
    check: Option<&'a Expr>,
    checks: &mut Items<BoundExpr>,
    work: &mut Work,
) -> Result<(), Cause>
    ensures { Goes (in_turn (check_bound (around_of catalog.now facts.now) text.now (scope_item 0 (Some name.now) s.now ∷ [])) (option_to_list (option_copied check.entry)) checks.old work.old) result checks.new work.new }
{
    match check {
        Some(e) => {
            let level = target_level(alloc, name, s)?;
            let tree = bind_constraint(alloc, catalog, facts, text, level, IN_CHECK, e, work)?;
            pushed(checks, tree)
        }
        None => Ok(()),
    }
}

/// Puts the CHECKs of a column behind others.
fn put_checks_of_column<'a>(
    alloc: Global,
    catalog: &'a Catalog,
    facts: &'a HostFacts,
    text: &'a str,
    name: &Text,
    s: &Sourced,
    constraints: &'a [ColumnConstraint],
    checks: &mut Items<BoundExpr>,
    work: &mut Work,
) -> Result<(), Cause>
    ensures { Goes (in_turn (check_bound (around_of catalog.now facts.now) text.now (scope_item 0 (Some name.now) s.now ∷ [])) (checks_of constraints.now) checks.old work.old) result checks.new work.new }
{
    for constraint in constraints {
        put_check(
            alloc,
            catalog,
            facts,
            text,
            name,
            s,
            check_in(constraint),
            checks,
            work,
        )?;
    }
    Ok(())
}

/// Puts those of all columns behind others.
fn put_checks_of_columns<'a>(
    alloc: Global,
    catalog: &'a Catalog,
    facts: &'a HostFacts,
    text: &'a str,
    name: &Text,
    s: &Sourced,
    columns: &'a [ColumnDefinition],
    checks: &mut Items<BoundExpr>,
    work: &mut Work,
) -> Result<(), Cause>
    ensures { Goes (in_turn (check_bound (around_of catalog.now facts.now) text.now (scope_item 0 (Some name.now) s.now ∷ [])) (flat_map (λ (d : ColumnDefinition). checks_of d.constraints) columns.now) checks.old work.old) result checks.new work.new }
{
    for column in columns {
        put_checks_of_column(
            alloc,
            catalog,
            facts,
            text,
            name,
            s,
            column.constraints.as_slice(),
            checks,
            work,
        )?;
    }
    Ok(())
}

/// Puts those behind the columns behind others.
fn put_checks_of_table<'a>(
    alloc: Global,
    catalog: &'a Catalog,
    facts: &'a HostFacts,
    text: &'a str,
    name: &Text,
    s: &Sourced,
    constraints: &'a [TableConstraint],
    checks: &mut Items<BoundExpr>,
    work: &mut Work,
) -> Result<(), Cause>
    ensures { Goes (in_turn (check_bound (around_of catalog.now facts.now) text.now (scope_item 0 (Some name.now) s.now ∷ [])) (table_checks constraints.now) checks.old work.old) result checks.new work.new }
{
    for constraint in constraints {
        put_check(
            alloc,
            catalog,
            facts,
            text,
            name,
            s,
            table_check_in(constraint),
            checks,
            work,
        )?;
    }
    Ok(())
}

/// The CHECKs of a table over its rows, in order of text.
pub(crate) fn bind_checks<'a>(
    alloc: Global,
    catalog: &'a Catalog,
    facts: &'a HostFacts,
    text: &'a str,
    name: &Text,
    s: &Sourced,
    table: &'a TableDefinition,
    work: &mut Work,
) -> Result<Items<BoundExpr>, Cause>
    ensures { Comes (checks_bound (around_of catalog.now facts.now) text.now (scope_item 0 (Some name.now) s.now ∷ []) (declared_table (facts_of facts.now) text.now table.now).checks work.old) result work.new }
{
    let mut checks = Items::new(alloc);
    let columns = table.columns.as_slice();
    put_checks_of_columns(
        alloc,
        catalog,
        facts,
        text,
        name,
        s,
        columns,
        &mut checks,
        work,
    )?;
    let constraints = table.constraints.as_slice();
    put_checks_of_table(
        alloc,
        catalog,
        facts,
        text,
        name,
        s,
        constraints,
        &mut checks,
        work,
    )?;
    Ok(checks)
}
