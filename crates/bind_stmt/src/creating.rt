// CREATE TABLE and CREATE INDEX.
ghost use Rattle.std.specs.Prelude.{◌≡◌, ℕ, map, IfOk};
ghost use Rattle.bind_stmt.specs.Binds.{AnswersBy, IsBound};
ghost use Rattle.bind_stmt.specs.Steps.{index_meant};
ghost use Rattle.sql_meaning.specs.Declarations.{column_of};
ghost use Rattle.sql_meaning.specs.Running.{creation_of};
ghost use Rattle.sql_words.specs.Types.{type_affinity};

use crate::keys::{are_own, terms_of};
use crate::statement::Bound;
use crate::tables::found_table;
use bind_entry::rowid_of;
use bind_name::{affinity_of_type, name};
use bound_tree::BoundCreation;
use eng_index::KeyTerm;
use eng_value::{Affinity, Cause, MAX_COLUMNS, Text};
use sql_meaning::{Column, TableEntry};
use sql_tree::{ColumnDefinition, Command, Definition, Statement, TypeName};
use sqlite_items::Items;
use std::alloc::{AllocError, Global};

/// A table that is created: its name, its columns, and which of them is the rowid, if one is.
#[derive(Drop)]
pub struct NewTable {
    pub name: Text,
    pub columns: Items<Column>,
    pub rowid: Option<u32>,
}

/// An index that is created: its name, the name and the number of its table, the terms of its key, and whether no two rows may share that.
#[derive(Drop)]
pub struct NewIndex {
    pub name: Text,
    pub table_name: Text,
    pub table: u32,
    pub terms: Items<KeyTerm>,
    pub unique: bool,
}

/// The table or index that a statement creates; what else CREATE makes is not built.
pub(crate) fn created(
    alloc: Global,
    tables: &[TableEntry],
    text: &str,
    statement: &Statement,
    creation: &BoundCreation,
) -> Result<Bound, Cause>
    ensures { (number : ℕ) → AnswersBy IsBound (creation_of tables.now number text.now statement.now creation.now) result }
{
    match &statement.command {
        Command::Create(create) => match &create.definition {
            Definition::Table(table) if table.columns.len() <= MAX_COLUMNS => Ok(
                Bound::CreateTable(NewTable {
                    name: creation.name.clone()?,
                    columns: declared_columns(alloc, text, table.columns.as_slice())?,
                    rowid: rowid_of(alloc, text, table)?,
                }),
            ),
            Definition::Index(_) => indexed(alloc, tables, text, statement, creation),
            _ => Err(Cause::NotYet),
        },
        _ => Err(Cause::NotYet),
    }
}

/// An index on a table, without a collation of a host.
fn indexed(
    alloc: Global,
    tables: &[TableEntry],
    text: &str,
    statement: &Statement,
    creation: &BoundCreation,
) -> Result<Bound, Cause>
    ensures { AnswersBy IsBound (index_meant tables.now text.now statement.now creation.now) result }
{
    let parts = creation.parts.as_slice();
    if !are_own(parts) {
        return Err(Cause::NotYet);
    }
    let table = found_table(tables, creation.owner.as_bytes())?;
    Ok(Bound::CreateIndex(NewIndex {
        name: creation.name.clone()?,
        table_name: table.name.clone()?,
        table: table.number,
        terms: terms_of(alloc, table.rowid, parts)?,
        unique: creation.unique,
    }))
}

fn declared_columns(
    alloc: Global,
    text: &str,
    definitions: &[ColumnDefinition],
) -> Result<Items<Column>, AllocError>
    ensures { IfOk result (λ columns. columns ≡ map (column_of text.now) definitions.now) }
{
    let mut columns = Items::new(alloc);
    for definition in definitions {
        columns.push(declared_column(alloc, text, definition)?)?;
    }
    Ok(columns)
}

fn declared_column(
    alloc: Global,
    text: &str,
    definition: &ColumnDefinition,
) -> Result<Column, AllocError>
    ensures { IfOk result (λ c. c ≡ column_of text.now definition.now) }
{
    let name = name(alloc, text, &definition.name)?;
    let affinity = type_affinity(alloc, text, &definition.type_name)?;
    Ok(Column { name, affinity })
}

fn type_affinity(
    alloc: Global,
    text: &str,
    type_name: &Option<TypeName>,
) -> Result<Affinity, AllocError>
    ensures { IfOk result (λ a. a ≡ type_affinity text.now type_name.now) }
{
    match type_name {
        Some(type_name) => affinity_of_type(alloc, text, type_name),
        None => Ok(Affinity::Blob),
    }
}
