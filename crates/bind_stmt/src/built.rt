// Which statements are built.
ghost use Rattle.std.specs.Prelude.{◌≡◌};
ghost use Rattle.std.specs.List.{list_all};
ghost use Rattle.sql_meaning.specs.Built.{are_built_rows, is_built, is_built_behind, is_built_column, is_built_command, is_built_constraint, is_built_definition, is_built_filter, is_built_insert, is_built_item, is_built_join, is_built_part, is_built_query, is_built_result, is_built_rows, is_built_rows_source, is_built_select, is_built_source, is_built_table, is_built_values, is_built_row, is_plain_select, is_removed, stands_alone};
ghost use Rattle.sql_tree.specs.Layers.{of_constraint, of_part, of_query, of_result, of_select, of_source};

use crate::built_expressions::is_built as is_built_expr;
use sql_tree::{
    ColumnConstraint, ColumnDefinition, Command, ConflictChoice, Definition, Expr, FromItem,
    Insert, InsertSource, JoinConstraint, ObjectKind, Query, QueryPart, ResultColumn, RowCommand,
    SelectCore, Source, Statement, TableConstraint, TableDefinition,
};
use sqlite_items::Items;

/// Whether all of a statement is built.
pub(crate) fn is_built(text: &str, statement: &Statement) -> bool
    ensures { result ≡ is_built text.now statement.now }
{
    is_built_command(text, &statement.command)
}

fn is_built_command(text: &str, command: &Command) -> bool
    ensures { result ≡ is_built_command text.now command.now }
{
    match command {
        Command::Rows(rows) => is_built_rows(text, rows),
        Command::Create(create) => is_built_definition(text, &create.definition),
        Command::Remove(remove) => is_removed(remove.kind),
        Command::Pragma(_) => true,
        Command::Transaction(_) => false,
    }
}

fn is_built_rows(text: &str, command: &RowCommand) -> bool
    ensures { result ≡ is_built_rows text.now command.now }
{
    match command {
        RowCommand::Query(query) => is_built_query(text, query),
        RowCommand::Insert(insert) => is_built_insert(text, insert),
        RowCommand::Update(_) | RowCommand::Delete(_) => false,
    }
}

// ---- CREATE

fn is_built_definition(text: &str, definition: &Definition) -> bool
    ensures { result ≡ is_built_definition text.now definition.now }
{
    match definition {
        Definition::Table(table) => is_built_table(text, table),
        Definition::Index(_) => true,
        _ => false,
    }
}

/// Whether the expressions of a table's constraints are built.
fn is_built_table(text: &str, table: &TableDefinition) -> bool
    ensures { result ≡ is_built_table text.now table.now }
{
    are_built_columns(text, table.columns.as_slice())
        && are_built_behind(text, table.constraints.as_slice())
}

fn are_built_columns(text: &str, columns: &[ColumnDefinition]) -> bool
    ensures { result ≡ list_all (is_built_column text.now) columns.now }
{
    columns.iter().all(|column| is_built_column(text, column))
}

fn is_built_column(text: &str, column: &ColumnDefinition) -> bool
    ensures { result ≡ is_built_column text.now column.now }
{
    are_built_constraints(text, column.constraints.as_slice())
}

fn are_built_constraints(text: &str, constraints: &[ColumnConstraint]) -> bool
    ensures { result ≡ list_all (is_built_constraint text.now) constraints.now }
{
    constraints
        .iter()
        .all(|constraint| is_built_constraint(text, constraint))
}

fn is_built_constraint(text: &str, constraint: &ColumnConstraint) -> bool
    ensures { result ≡ is_built_constraint text.now constraint.now }
{
    match constraint {
        ColumnConstraint::Check(x) | ColumnConstraint::Default(x) => is_built_expr(text, x),
        _ => true,
    }
}

fn are_built_behind(text: &str, constraints: &[TableConstraint]) -> bool
    ensures { result ≡ list_all (is_built_behind text.now) constraints.now }
{
    constraints
        .iter()
        .all(|constraint| is_built_behind(text, constraint))
}

fn is_built_behind(text: &str, constraint: &TableConstraint) -> bool
    ensures { result ≡ is_built_behind text.now constraint.now }
{
    match constraint {
        TableConstraint::Check(x) => is_built_expr(text, x),
        _ => true,
    }
}

/// Whether things of this kind can be dropped: tables and indexes.
fn is_removed(kind: ObjectKind) -> bool
    ensures { result ≡ is_removed kind }
{
    match kind {
        ObjectKind::Table | ObjectKind::Index => true,
        ObjectKind::View | ObjectKind::Trigger => false,
    }
}

// ---- queries

/// Whether a query has no WITH, one part, no ORDER BY and no LIMIT.
pub(crate) fn stands_alone(query: &Query) -> bool
    ensures { result ≡ stands_alone (of_query query.now) }
{
    query.with.is_empty()
        && query.others.is_empty()
        && query.order_by.is_empty()
        && query.limit.is_none()
}

fn is_built_query(text: &str, query: &Query) -> bool
    ensures { result ≡ is_built_query text.now (of_query query.now) }
{
    stands_alone(query) && is_built_part(text, &query.first)
}

fn is_built_part(text: &str, part: &QueryPart) -> bool
    ensures { result ≡ is_built_part text.now (of_part part.now) }
{
    match part {
        QueryPart::Select(core) => is_built_select(text, core),
        QueryPart::Values(rows) => are_built_rows(text, rows.as_slice()),
    }
}

fn is_built_select(text: &str, core: &SelectCore) -> bool
    ensures { result ≡ is_built_select text.now (of_select core.now) }
{
    is_plain_select(core)
        && are_built_items(text, core.from.as_slice())
        && are_built_results(text, core.results.as_slice())
        && is_built_filter(text, &core.filter)
}

/// Whether there is no DISTINCT, no GROUP BY and no HAVING.
fn is_plain_select(core: &SelectCore) -> bool
    ensures { result ≡ is_plain_select (of_select core.now) }
{
    !core.distinct && core.group_by.is_empty() && core.having.is_none()
}

fn are_built_items(text: &str, items: &[FromItem]) -> bool
    ensures { result ≡ list_all (is_built_item text.now) items.now }
{
    items.iter().all(|item| is_built_item(text, item))
}

fn is_built_item(text: &str, item: &FromItem) -> bool
    ensures { result ≡ is_built_item text.now item.now }
{
    is_built_source(&item.source) && is_built_join(text, &item.constraint)
}

fn is_built_join(text: &str, constraint: &JoinConstraint) -> bool
    ensures { result ≡ is_built_join text.now (of_constraint constraint.now) }
{
    match constraint {
        JoinConstraint::On(e) => is_built_expr(text, e),
        JoinConstraint::Unconstrained | JoinConstraint::Using(_) => true,
    }
}

fn is_built_source(source: &Source) -> bool
    ensures { result ≡ is_built_source (of_source source.now) }
{
    match source {
        Source::Table(_, None) => true,
        Source::Table(_, Some(_)) => false,
        Source::Derived(_) => false,
    }
}

fn are_built_results(text: &str, columns: &[ResultColumn]) -> bool
    ensures { result ≡ list_all (is_built_result text.now) columns.now }
{
    columns.iter().all(|column| is_built_result(text, column))
}

fn is_built_result(text: &str, column: &ResultColumn) -> bool
    ensures { result ≡ is_built_result text.now column.now }
{
    match column {
        ResultColumn::All | ResultColumn::AllOf(_) => true,
        ResultColumn::Expression(spanned, _) => is_built_expr(text, &spanned.expr),
    }
}

fn is_built_filter(text: &str, filter: &Option<Expr>) -> bool
    ensures { result ≡ is_built_filter text.now filter.now }
{
    match filter {
        Some(e) => is_built_expr(text, e),
        None => true,
    }
}

// ---- rows of values

fn are_built_rows(text: &str, rows: &[Items<Expr>]) -> bool
    ensures { result ≡ list_all (is_built_row text.now) rows.now }
{
    rows.iter().all(|row| is_built_row(text, row.as_slice()))
}

fn is_built_row(text: &str, row: &[Expr]) -> bool
    ensures { result ≡ is_built_row text.now row.now }
{
    row.iter().all(|value| is_built_expr(text, value))
}

// ---- INSERT

fn is_built_insert(text: &str, insert: &Insert) -> bool
    ensures { result ≡ is_built_insert text.now insert.now }
{
    insert.choice == ConflictChoice::Abort && is_built_rows_source(text, &insert.source)
}

fn is_built_rows_source(text: &str, source: &InsertSource) -> bool
    ensures { result ≡ is_built_rows_source text.now source.now }
{
    match source {
        InsertSource::Query(query) => is_built_values(text, query),
        InsertSource::Defaults => true,
    }
}

fn is_built_values(text: &str, query: &Query) -> bool
    ensures { result ≡ is_built_values text.now (of_query query.now) }
{
    stands_alone(query) && is_built_values_part(text, &query.first)
}

fn is_built_values_part(text: &str, part: &QueryPart) -> bool
    ensures { result ≡ are_built_rows text.now (of_part part.now) }
{
    match part {
        QueryPart::Select(_) => false,
        QueryPart::Values(rows) => are_built_rows(text, rows.as_slice()),
    }
}
