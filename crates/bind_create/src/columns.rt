// The columns and constraints of a table that is being created, in order of text.
ghost use Rattle.std.specs.Prelude.{◌≡◌};
ghost use Rattle.bind_create.specs.Meant.{Declares, creating_of, declaring_of};
ghost use Rattle.bind_create.specs.declared.columns.Declaring.{Declaring as Here};
ghost use Rattle.std.specs.List.{find};
ghost use Rattle.eng_entry.specs.Names.{is_same_name};
ghost use Rattle.sql_bound.specs.Answers.{Answers};
ghost use Rattle.sql_bound.specs.Creates.{constraint_holds, in_turn, is_new_column, is_no_real, key_of, with_collation, with_column, with_constraint, with_primary, with_table_constraint};

use bind_column::room_behind;
use bind_command::parts_are_there;
use bind_entry::{collation_called, name, type_affinity};
use bind_scope::{copied_level, copied_text, pushed};
use bind_write::{IN_CHECK, IN_DEFAULT, bind_constraint};
use bound_tree::BoundColumn;
use eng_catalog::Catalog;
use eng_entry::is_same_name;
use eng_value::{Affinity, Cause, NameKind, Text};
use sql_bound::{Allowed, HostFacts, ScopeItem, Work};
use sql_tree::{ColumnConstraint, ColumnDefinition, Expr, IndexedColumn, TableConstraint, Token};
use sqlite_items::Items;
use std::alloc::Global;

/// What a table is created in: the catalog, what hosts tell, the text, its name, the table as CHECKs see it, and its columns.
#[derive(Drop)]
pub(crate) struct Creating<'a> {
    pub catalog: &'a Catalog,
    pub facts: &'a HostFacts,
    pub text: &'a str,
    pub name: Text,
    pub level: Items<ScopeItem>,
    pub columns: Items<BoundColumn>,
}

/// What the columns so far are called, and whether there is a primary key.
#[derive(Drop)]
pub(crate) struct Declaring {
    pub names: Items<Text>,
    pub has_primary: bool,
}

// ---- constraints

/// There is one primary key at most.
fn with_primary(creating: &Creating<'_>, declaring: &mut Declaring) -> Result<(), Cause>
    ensures { Declares (with_primary (creating_of creating.now) (declaring_of declaring.old)) result declaring.new }
{
    if declaring.has_primary {
        return Err(Cause::Misuse(copied_text(&creating.name)?));
    }
    declaring.has_primary = true;
    Ok(())
}

/// The expression of a CHECK or a DEFAULT can be bound.
fn constraint_holds<'a>(
    alloc: Global,
    creating: &Creating<'a>,
    allowed: Allowed,
    e: &'a Expr,
) -> Result<(), Cause>
    ensures { (d : Here) → Declares (constraint_holds (creating_of creating.now) allowed creating.now.level e.now (declaring_of d)) result d }
{
    let mut work = Work {
        units: Items::new(alloc),
        needs: Items::new(alloc),
        aggregates: Items::new(alloc),
    };
    let level = copied_level(alloc, creating.level.as_slice())?;
    bind_constraint(
        alloc,
        creating.catalog,
        creating.facts,
        creating.text,
        level,
        allowed,
        e,
        &mut work,
    )?;
    Ok(())
}

/// COLLATE names a collation that there is.
fn with_collation(alloc: Global, creating: &Creating<'_>, token: &Token) -> Result<(), Cause>
    ensures { (d : Here) → Declares (with_collation (creating_of creating.now) token.now (declaring_of d)) result d }
{
    let name = name(alloc, creating.text, token)?;
    collation_called(creating.facts, name)?;
    Ok(())
}

/// A constraint of a column.
fn with_constraint<'a>(
    alloc: Global,
    creating: &Creating<'a>,
    constraint: &'a ColumnConstraint,
    declaring: &mut Declaring,
) -> Result<(), Cause>
    ensures { Declares (with_constraint (creating_of creating.now) constraint.now (declaring_of declaring.old)) result declaring.new }
{
    match constraint {
        ColumnConstraint::PrimaryKey => with_primary(creating, declaring),
        ColumnConstraint::Check(e) => constraint_holds(alloc, creating, IN_CHECK, e),
        ColumnConstraint::Default(e) => constraint_holds(alloc, creating, IN_DEFAULT, e),
        ColumnConstraint::Collate(token) => with_collation(alloc, creating, token),
        ColumnConstraint::Null | ColumnConstraint::NotNull | ColumnConstraint::Unique => Ok(()),
    }
}

/// The constraints of a column, in turn.
fn with_constraints<'a>(
    alloc: Global,
    creating: &Creating<'a>,
    constraints: &'a [ColumnConstraint],
    declaring: &mut Declaring,
) -> Result<(), Cause>
    ensures { Declares (in_turn (with_constraint (creating_of creating.now)) constraints.now (declaring_of declaring.old)) result declaring.new }
{
    for constraint in constraints {
        with_constraint(alloc, creating, constraint, declaring)?;
    }
    Ok(())
}

// ---- columns

/// No column in front has the name.
fn is_new_column(names: &[Text], name: &str) -> Result<(), Cause>
    ensures { Answers (is_new_column (find (is_same_name name.now) names.now)) result }
{
    for there in names {
        if is_same_name(name.as_bytes(), there.as_bytes()) {
            return Err(Cause::Exists(NameKind::Column, copied_text(there)?));
        }
    }
    Ok(())
}

/// A column is of no REAL type.
fn is_no_real(affinity: Affinity) -> Result<(), Cause>
    ensures { Answers (is_no_real affinity) result }
{
    match affinity {
        Affinity::Real => Err(Cause::Real),
        _ => Ok(()),
    }
}

/// A column with its constraints.
fn with_column<'a>(
    alloc: Global,
    creating: &Creating<'a>,
    column: &'a ColumnDefinition,
    declaring: &mut Declaring,
) -> Result<(), Cause>
    ensures { Declares (with_column (creating_of creating.now) column.now (declaring_of declaring.old)) result declaring.new }
{
    let name = name(alloc, creating.text, &column.name)?;
    is_new_column(declaring.names.as_slice(), name.as_str())?;
    is_no_real(type_affinity(alloc, creating.text, &column.type_name)?)?;
    room_behind(declaring.names.as_slice())?;
    pushed(&mut declaring.names, name)?;
    with_constraints(alloc, creating, column.constraints.as_slice(), declaring)
}

/// The columns of a table, in turn.
pub(crate) fn with_columns<'a>(
    alloc: Global,
    creating: &Creating<'a>,
    columns: &'a [ColumnDefinition],
    declaring: &mut Declaring,
) -> Result<(), Cause>
    ensures { Declares (in_turn (with_column (creating_of creating.now)) columns.now (declaring_of declaring.old)) result declaring.new }
{
    for column in columns {
        with_column(alloc, creating, column, declaring)?;
    }
    Ok(())
}

// ---- constraints behind the columns

/// The columns of a key are there.
fn key_of(alloc: Global, creating: &Creating<'_>, parts: &[IndexedColumn]) -> Result<(), Cause>
    ensures { (d : Here) → Declares (key_of (creating_of creating.now) parts.now (declaring_of d)) result d }
{
    parts_are_there(
        alloc,
        creating.facts,
        creating.text,
        creating.columns.as_slice(),
        parts,
    )
}

/// A constraint behind the columns.
fn with_table_constraint<'a>(
    alloc: Global,
    creating: &Creating<'a>,
    constraint: &'a TableConstraint,
    declaring: &mut Declaring,
) -> Result<(), Cause>
    ensures { Declares (with_table_constraint (creating_of creating.now) constraint.now (declaring_of declaring.old)) result declaring.new }
{
    match constraint {
        TableConstraint::PrimaryKey(parts) => {
            with_primary(creating, declaring)?;
            key_of(alloc, creating, parts.as_slice())
        }
        TableConstraint::Unique(parts) => key_of(alloc, creating, parts.as_slice()),
        TableConstraint::Check(e) => constraint_holds(alloc, creating, IN_CHECK, e),
    }
}

/// The constraints behind the columns, in turn.
pub(crate) fn with_table_constraints<'a>(
    alloc: Global,
    creating: &Creating<'a>,
    constraints: &'a [TableConstraint],
    declaring: &mut Declaring,
) -> Result<(), Cause>
    ensures { Declares (in_turn (with_table_constraint (creating_of creating.now)) constraints.now (declaring_of declaring.old)) result declaring.new }
{
    for constraint in constraints {
        with_table_constraint(alloc, creating, constraint, declaring)?;
    }
    Ok(())
}
