// Any statement.
ghost use Rattle.std.specs.Prelude.{◌≡◌, ℕ, [], None};
ghost use Rattle.bind_stmt.specs.Binds.{AnswersBy, Binds, IsBound};
ghost use Rattle.std.specs.Prelude.{Some};
ghost use Rattle.sql_tree.specs.declared.statement.ObjectKind.TheVariants as object;
ghost use Rattle.sql_bound.specs.Answers.{Answers};
ghost use Rattle.sql_bound.specs.HostFacts.{facts_of};
ghost use Rattle.sql_bound.specs.Statements.{bound_of};
ghost use Rattle.sql_meaning.specs.Built.{is_built};
ghost use Rattle.sql_meaning.specs.Declarations.{tables_of};
ghost use Rattle.sql_meaning.specs.Permits.{asked_by};
ghost use Rattle.sql_meaning.specs.Running.{if_built, kind_removed, removal_of, runnable_of};
ghost use Rattle.sql_meaning.specs.Statement.{around, nobody_tells};

use crate::built::is_built;
use crate::creating::{NewIndex, NewTable, created};
use crate::plain_rows::plain_rows;
use crate::putting::put;
use crate::querying::query;
use crate::tables::found_table;
use bound_tree::{BoundCommand, BoundExpr, BoundRemoval, BoundStatement};
use eng_catalog::Catalog;
use eng_value::{Cause, Text};
use sql_bound::HostFacts;
use sql_meaning::{BoundInsert, BoundSelect, TableEntry};
use sql_tree::{Command, ObjectKind, Statement};
use sqlite_items::Items;
use std::alloc::Global;

/// A table that is dropped: its name, and its number.
#[derive(Drop)]
pub struct DroppedTable {
    pub name: Text,
    pub table: u32,
}

/// A statement whose names are bound.
#[derive(Drop)]
pub enum Bound {
    CreateTable(NewTable),
    DropTable(DroppedTable),
    CreateIndex(NewIndex),
    /// The index of this name.
    DropIndex(Text),
    /// The rows, and the table that takes them.
    Insert(BoundInsert),
    Select(BoundSelect),
    /// The rows of a VALUES that is a query.
    Values(Items<Items<BoundExpr>>),
    /// IF NOT EXISTS found the name, or IF EXISTS did not; or a PRAGMA that means nothing.
    Nothing,
}

/// What runs of a statement in a text where nobody is asked whether it may (SQL As Understood By SQLite), or why it is refused: of several
/// causes that which comes first in the order of work. The statement's tokens are places in the text, and a table is told by its number.
/// Bound expressions are at most a few times as large as those of the tree, beside the columns that a `*` shows.
///
/// Errors: `NotYet` where a part of the statement is not built; those of binding; and `Mem` where memory is wanting, whatever else
/// there is.
pub fn bind(
    alloc: Global,
    catalog: &Catalog,
    tables: &[TableEntry],
    text: &str,
    statement: &Statement,
) -> Result<Bound, Cause>
    requires tables { tables.now ≡ tables_of catalog.now }
    requires untriggered { catalog.now.triggers ≡ [] }
    ensures { (number : ℕ) → Binds (asked_by None) catalog.now number text.now statement.now result }
{
    if !is_built(text, statement) {
        return Err(Cause::NotYet);
    }
    if let Some(insert) = plain_rows(alloc, catalog, tables, text, statement)? {
        return Ok(Bound::Insert(insert));
    }
    let bound = named(alloc, catalog, text, statement)?;
    runnable(alloc, tables, text, statement, bound)
}

/// The statement of a text with its names bound, where all of it is built: what it may do can be asked about before it runs.
///
/// Errors: as those of `bind`.
pub fn bind_names(
    alloc: Global,
    catalog: &Catalog,
    body: &str,
    statement: &Statement,
) -> Result<BoundStatement, Cause>
    ensures { Answers (if_built (is_built body.now statement.now) (bound_of (around catalog.now) body.now statement.now)) result }
{
    if !is_built(body, statement) {
        return Err(Cause::NotYet);
    }
    named(alloc, catalog, body, statement)
}

fn named(
    alloc: Global,
    catalog: &Catalog,
    text: &str,
    statement: &Statement,
) -> Result<BoundStatement, Cause>
    ensures { Answers (bound_of (around catalog.now) text.now statement.now) result }
{
    let facts = nobody_tells(alloc);
    binder::bind(alloc, text, catalog, &facts, statement)
}

/// There are no hosts.
fn nobody_tells(alloc: Global) -> HostFacts
    ensures { facts_of result ≡ nobody_tells }
{
    HostFacts {
        functions: Items::new(alloc),
        aggregates: Items::new(alloc),
        collations: Items::new(alloc),
        modules: Items::new(alloc),
        told: Items::new(alloc),
        savepoints: Items::new(alloc),
        recursive_triggers: false,
        rowids: true,
    }
}

/// What runs of a statement whose names are bound. Columns that are ignored read NULL, and those that are rowids read the rowid.
pub fn runnable(
    alloc: Global,
    tables: &[TableEntry],
    text: &str,
    statement: &Statement,
    bound: BoundStatement,
) -> Result<Bound, Cause>
    ensures { (number : ℕ) → AnswersBy IsBound (runnable_of tables.now number text.now statement.now bound) result }
{
    let BoundStatement {
        explain: _,
        units,
        triggers,
        command,
    } = bound;
    drop(triggers);
    match command {
        BoundCommand::Asked(place) => query(alloc, tables, units, place),
        BoundCommand::Written(write) => put(alloc, tables, units, write),
        BoundCommand::Created(creation) => created(alloc, tables, text, statement, &creation),
        BoundCommand::Removed(removal) => removed(tables, &statement.command, &removal),
        BoundCommand::Transacted(_) => Err(Cause::NotYet),
        BoundCommand::Pragma(_) => Ok(Bound::Nothing),
        BoundCommand::Nothing(_, _, _) => Ok(Bound::Nothing),
    }
}

/// A table or an index that is dropped; nothing else can be dropped yet.
fn removed(tables: &[TableEntry], command: &Command, removal: &BoundRemoval) -> Result<Bound, Cause>
    ensures { AnswersBy IsBound (removal_of tables.now (kind_removed command.now) removal.now.name) result }
{
    match command {
        Command::Remove(remove) => match remove.kind {
            ObjectKind::Table => dropped(tables, removal.name.as_bytes()),
            ObjectKind::Index => Ok(Bound::DropIndex(removal.name.clone()?)),
            ObjectKind::View | ObjectKind::Trigger => Err(Cause::NotYet),
        },
        _ => Err(Cause::NotYet),
    }
}

fn dropped(tables: &[TableEntry], name: &[u8]) -> Result<Bound, Cause>
    ensures { AnswersBy IsBound (removal_of tables.now (Some object.Table) name.now) result }
{
    let table = found_table(tables, name)?;
    Ok(Bound::DropTable(DroppedTable {
        name: table.name.clone()?,
        table: table.number,
    }))
}
