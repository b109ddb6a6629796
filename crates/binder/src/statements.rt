// Every statement.
ghost use Rattle.std.specs.Prelude.{◌≡◌, []};
ghost use Rattle.bind_command.specs.Tops.{top_of};
ghost use Rattle.bind_query.specs.Scopes.{AnswersAs, outer_of};
ghost use Rattle.bind_source.specs.Arounds.{around_of};
ghost use Rattle.bind_target.specs.Meant.{opened_meant};
ghost use Rattle.binder.specs.Commands.{command_meant, write_command};
ghost use Rattle.bound_tree.specs.declared.writes.BoundWrite.{BoundWrite as WriteMeant};
ghost use Rattle.sql_bound.specs.Answers.{Answers, Comes};
ghost use Rattle.sql_bound.specs.Carriers.{Queries};
ghost use Rattle.sql_bound.specs.Refusals.{Checked};
ghost use Rattle.sql_bound.specs.Statements.{bound_of, command_bound, nothing_opened, opening_nothing, rows_bound};
ghost use Rattle.sql_bound.specs.Trees.{of_query, of_rows};
ghost use Rattle.sql_bound.specs.Writes.{Opened as OpenedMeant};
ghost use Rattle.sql_tree.specs.declared.statement.RowCommand.TheVariants as rows_by;

use bind_command::{bind_pragma, bind_remove, bind_transaction};
use bind_create::bind_create;
use bind_query::{IN_STATEMENT, STEPS, Scope, bind_query};
use bind_target::Opened;
use bind_write::{bind_delete, bind_insert, bind_update};
use bound_tree::{BoundCommand, BoundStatement, BoundWrite};
use eng_catalog::Catalog;
use eng_value::Cause;
use sql_bound::HostFacts;
use sql_tree::{Command, Delete, Insert, Query, RowCommand, Statement, Update};
use sqlite_items::Items;
use std::alloc::Global;

/// A statement of this text with its names bound, over a catalog and what hosts tell: its units, each of which asks only units in front of
/// it, the triggers that it can fire, and its command; or the first refusal.
pub fn bind<'a>(
    alloc: Global,
    text: &'a str,
    catalog: &'a Catalog,
    facts: &'a HostFacts,
    statement: &'a Statement,
) -> Result<BoundStatement, Cause>
    ensures { Answers (bound_of (around_of catalog.now facts.now) text.now statement.now) result }
{
    let (command, opened) = command_bound(alloc, text, catalog, facts, &statement.command)?;
    let Opened { units, triggers } = opened;
    Ok(BoundStatement {
        explain: statement.explain,
        units,
        triggers,
        command,
    })
}

/// A command, with the units and the triggers that it opens.
fn command_bound<'a>(
    alloc: Global,
    text: &'a str,
    catalog: &'a Catalog,
    facts: &'a HostFacts,
    command: &'a Command,
) -> Result<(BoundCommand, Opened), Cause>
    ensures { AnswersAs command_meant (command_bound (top_of catalog.now facts.now text.now) command.now) result }
{
    match command {
        Command::Rows(rows) => {
            let scope = Scope::of_text(text, catalog, facts, IN_STATEMENT);
            rows_bound(alloc, &scope, rows)
        }
        Command::Create(create) => {
            opening_nothing(alloc, bind_create(alloc, text, catalog, facts, create))
        }
        Command::Remove(remove) => {
            opening_nothing(alloc, bind_remove(alloc, text, catalog, facts, remove))
        }
        Command::Transaction(transaction) => opening_nothing(
            alloc,
            bind_transaction(alloc, text, catalog, facts, transaction),
        ),
        Command::Pragma(pragma) => {
            opening_nothing(alloc, bind_pragma(alloc, text, catalog, facts, pragma))
        }
    }
}

/// A command that opens nothing.
fn opening_nothing(
    alloc: Global,
    command: Result<BoundCommand, Cause>,
) -> Result<(BoundCommand, Opened), Cause>
    ensures { AnswersAs command_meant (opening_nothing command) result }
{
    Ok((command?, nothing_opened(alloc)))
}

fn nothing_opened(alloc: Global) -> Opened
    ensures { opened_meant result ≡ nothing_opened }
{
    Opened {
        units: Items::new(alloc),
        triggers: Items::new(alloc),
    }
}

/// A query or a write.
fn rows_bound<'a>(
    alloc: Global,
    scope: &Scope<'a>,
    rows: &'a RowCommand,
) -> Result<(BoundCommand, Opened), Cause>
    ensures { AnswersAs command_meant (rows_bound (outer_of scope.now [] []) (of_rows rows.now)) result }
{
    match rows {
        RowCommand::Query(query) => query_bound(alloc, scope, query),
        RowCommand::Insert(insert) => insert_bound(alloc, scope, insert),
        RowCommand::Update(update) => update_bound(alloc, scope, update),
        RowCommand::Delete(delete) => delete_bound(alloc, scope, delete),
    }
}

/// A write with what it opens.
fn with_opened(
    write: Result<BoundWrite, Cause>,
    opened: Opened,
) -> Result<(BoundCommand, Opened), Cause>
    ensures { (meant : Checked (WriteMeant × OpenedMeant)) → Comes meant write (opened_meant opened) → AnswersAs command_meant (write_command meant) result }
{
    Ok((BoundCommand::Written(write?), opened))
}

fn insert_bound<'a>(
    alloc: Global,
    scope: &Scope<'a>,
    insert: &'a Insert,
) -> Result<(BoundCommand, Opened), Cause>
    ensures { AnswersAs command_meant (rows_bound (outer_of scope.now [] []) (of_rows (rows_by.Insert insert.now))) result }
{
    let mut opened = nothing_opened(alloc);
    let write = bind_insert(alloc, scope, insert, &mut opened);
    with_opened(write, opened)
}

fn update_bound<'a>(
    alloc: Global,
    scope: &Scope<'a>,
    update: &'a Update,
) -> Result<(BoundCommand, Opened), Cause>
    ensures { AnswersAs command_meant (rows_bound (outer_of scope.now [] []) (of_rows (rows_by.Update update.now))) result }
{
    let mut opened = nothing_opened(alloc);
    let write = bind_update(alloc, scope, update, &mut opened);
    with_opened(write, opened)
}

fn delete_bound<'a>(
    alloc: Global,
    scope: &Scope<'a>,
    delete: &'a Delete,
) -> Result<(BoundCommand, Opened), Cause>
    ensures { AnswersAs command_meant (rows_bound (outer_of scope.now [] []) (of_rows (rows_by.Delete delete.now))) result }
{
    let mut opened = nothing_opened(alloc);
    let write = bind_delete(alloc, scope, delete, &mut opened);
    with_opened(write, opened)
}

/// A query as a statement.
fn query_bound<'a>(
    alloc: Global,
    scope: &Scope<'a>,
    query: &'a Query,
) -> Result<(BoundCommand, Opened), Cause>
    ensures { AnswersAs command_meant (rows_bound (outer_of scope.now [] []) (Queries (of_query query.now))) result }
{
    let (asked, units) = bind_query(alloc, STEPS, scope, &[], &[], query, Items::new(alloc))?;
    let opened = Opened {
        units,
        triggers: Items::new(alloc),
    };
    Ok((BoundCommand::Asked(asked.unit), opened))
}
