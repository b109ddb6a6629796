// Statements that are bound, asked about, and may run.
ghost use Rattle.std.specs.Prelude.{◌≡◌, ℕ, []};
ghost use Rattle.bind_asked.specs.Said.{permit};
ghost use Rattle.bind_stmt.specs.Binds.{Answers, Binds};
ghost use Rattle.sql_meaning.specs.Declarations.{tables_of};
ghost use Rattle.sql_meaning.specs.Permits.{Ignores, Permit, WhereAsked, asked_as, permitted};
ghost use Rattle.vm_core.specs.Meant.{meant};

use crate::asking::{Said, ask_all};
use bind_stmt::{Bound, bind_names, runnable};
use bound_actions::actions;
use bound_ignored::ignoring;
use bound_tree::BoundStatement;
use eng_catalog::Catalog;
use eng_value::{Action, Cause, Meanings};
use sql_meaning::TableEntry;
use sql_tree::Statement;
use sqlite_items::Items;
use std::alloc::Global;
use std::marker::Brand;
use vm_core::Hosts;

/// What runs of a statement in a text, or why it is refused, as `bind_stmt::bind`, where the authorizer of these hosts is asked for each of
/// its actions, behind the binding of its names and before anything else. Columns whose read it ignores read NULL.
///
/// Errors: those of `bind_stmt::bind`, and `Denied`, with the number of the first action that is denied, counted from 1.
pub fn bind(
    alloc: Global,
    hosts: &mut Hosts,
    catalog: &Catalog,
    tables: &[TableEntry],
    text: &str,
    statement: &Statement,
) -> Result<Bound, Cause>
    requires tables { tables.now ≡ tables_of catalog.now }
    requires untriggered { catalog.now.triggers ≡ [] }
    ensures binds { WhereAsked (meant (λ b. verdicts (b.vtable, b.value)) hosts.old).authorizer (λ asked. (number : ℕ) → Binds asked catalog.now number text.now statement.now result) }
    ensures hosts { meant (λ b. verdicts (b.vtable, b.value)) hosts.new ≡ meant (λ b. verdicts (b.vtable, b.value)) hosts.old }
{
    if hosts.authorizer.is_none() {
        return bind_stmt::bind(alloc, catalog, tables, text, statement);
    }
    let bound = bind_names(alloc, catalog, text, statement)?;
    let allowed = permit::<Brand>(alloc, hosts, bound)?;
    runnable(alloc, tables, text, statement, allowed)
}

/// What of a statement may run by what the authorizer says.
fn permit<M: Meanings>(
    alloc: Global,
    hosts: &mut Hosts,
    bound: BoundStatement,
) -> Result<BoundStatement, Cause>
    requires told { meant (λ b. verdicts (b.vtable, b.value)) hosts.old ≡ M.hosts }
    ensures permitted { (anything : Permit) × Answers (permitted bound (asked_as M.hosts.authorizer anything bound)) result }
    ensures told { meant (λ b. verdicts (b.vtable, b.value)) hosts.new ≡ M.hosts }
{
    let listed = actions(alloc, &bound)?;
    let said = ask_all::<M>(alloc, hosts, listed.as_slice())?;
    allowed(alloc, bound, said)
}

/// A statement of which this was said.
fn allowed(alloc: Global, bound: BoundStatement, said: Said) -> Result<BoundStatement, Cause>
    ensures { Answers (permitted bound (permit said)) result }
{
    match said {
        Said::Denied(action) => Err(Cause::Denied(action)),
        Said::Ignored(ignored) => without(alloc, bound, ignored.as_slice()),
    }
}

/// A statement where these reads are ignored.
fn without(
    alloc: Global,
    bound: BoundStatement,
    ignored: &[Action],
) -> Result<BoundStatement, Cause>
    ensures { Answers (permitted bound (Ignores ignored.now)) result }
{
    let mut bound = bound;
    if !ignored.is_empty() {
        ignoring(alloc, &mut bound, ignored)?;
    }
    Ok(bound)
}
