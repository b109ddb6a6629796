// INSERTs of rows of values that name nothing into tables without constraints: what these run as is told at once.
ghost use Rattle.std.specs.Prelude.{◌≡◌, ◌≤◌, ℕ, length, true, [], None, IfOk, IfSome};
ghost use Rattle.std.specs.List.{list_all};
ghost use Rattle.std.specs.Option.{option_copied};
ghost use Rattle.bind_stmt.specs.Binds.{Binds};
ghost use Rattle.bind_stmt.specs.declared.statement.Bound.TheVariants as bound;
ghost use Rattle.bind_stmt.specs.Plain.{AreRows, AreValues, IsPlainTable, IsValue, PutsPlain, defines_plain, has_no_index, insert_of, is_plain_column, is_plain_entry, is_plain_table, is_table_kind, placed_from, rows_in, rows_of, rows_of_query, rows_of_source};
ghost use Rattle.bound_tree.specs.Exprs as e;
ghost use Rattle.eng_value.specs.declared.limits.TheConstants.{MAX_COLUMNS};
ghost use Rattle.sql_meaning.specs.Built.{is_built};
ghost use Rattle.sql_meaning.specs.Declarations.{tables_of};
ghost use Rattle.sql_meaning.specs.Permits.{asked_by};
ghost use Rattle.sql_tree.specs.Layers.{of_part, of_query};
ghost use Rattle.sql_tree.specs.declared.expr.Expr.TheVariants as x;
ghost use Rattle.sql_tree.specs.declared.expr.UnaryOp.TheVariants as sign;
ghost use Rattle.sql_words.specs.Spelled.{literal_at};

use crate::built::stands_alone;
use crate::tables::table_called;
use bind_entry::{is_index_of, table_named, table_of};
use bind_name::{is_least_magnitude, literal, plain_name, slice_of};
use bound_tree::BoundExpr;
use eng_catalog::Catalog;
use eng_entry::{Entry, EntryKind, Space};
use eng_value::{MAX_COLUMNS, UnaryOperator};
use sql_meaning::{BoundInsert, Column, PutColumn, RowidFrom, TableEntry};
use sql_tree::{
    ColumnDefinition, Command, Expr, Insert, InsertSource, Query, QueryPart, RowCommand, Statement,
    TableDefinition, Token, UnaryOp,
};
use sqlite_items::Items;
use std::alloc::{AllocError, Global};

/// What a statement runs as that puts rows of literals into a table without constraints and indexes; none where it is another one,
/// which says nothing of whether it is refused.
pub(crate) fn plain_rows(
    alloc: Global,
    catalog: &Catalog,
    tables: &[TableEntry],
    text: &str,
    statement: &Statement,
) -> Result<Option<BoundInsert>, AllocError>
    requires tables { tables.now ≡ tables_of catalog.now }
    requires untriggered { catalog.now.triggers ≡ [] }
    requires built { is_built text.now statement.now ≡ true }
    ensures { (number : ℕ) → IfOk result (λ found. IfSome found (λ b. Binds (asked_by None) catalog.now number text.now statement.now (Ok (bound.Insert b)))) }
{
    let Some(insert) = insert_of(statement) else {
        return Ok(None);
    };
    let Some(rows) = rows_of(insert) else {
        return Ok(None);
    };
    rows_put(alloc, catalog, tables, text, &insert.table, rows.as_slice())
}

// ---- the statement

/// The INSERT that a statement is.
fn insert_of(statement: &Statement) -> Option<&Insert>
    ensures { option_copied result ≡ insert_of statement.now }
{
    match &statement.command {
        Command::Rows(RowCommand::Insert(insert)) => Some(insert),
        _ => None,
    }
}

/// The rows that an INSERT without names of columns puts, where they are those of VALUES.
fn rows_of(insert: &Insert) -> Option<&Items<Items<Expr>>>
    ensures { option_copied result ≡ rows_of insert.now }
{
    if insert.columns.is_empty() {
        rows_of_source(&insert.source)
    } else {
        None
    }
}

fn rows_of_source(source: &InsertSource) -> Option<&Items<Items<Expr>>>
    ensures { option_copied result ≡ rows_of_source source.now }
{
    match source {
        InsertSource::Query(query) => rows_of_query(query),
        InsertSource::Defaults => None,
    }
}

fn rows_of_query(query: &Query) -> Option<&Items<Items<Expr>>>
    ensures { option_copied result ≡ rows_of_query (of_query query.now) }
{
    if stands_alone(query) {
        rows_in(&query.first)
    } else {
        None
    }
}

fn rows_in(part: &QueryPart) -> Option<&Items<Items<Expr>>>
    ensures { option_copied result ≡ rows_in (of_part part.now) }
{
    match part {
        QueryPart::Values(rows) if !rows.is_empty() => Some(rows),
        _ => None,
    }
}

// ---- the table

fn is_table_kind(kind: EntryKind) -> bool
    ensures { result ≡ is_table_kind kind }
{
    match kind {
        EntryKind::Table => true,
        _ => false,
    }
}

fn is_plain_column(column: &ColumnDefinition) -> bool
    ensures { result ≡ is_plain_column column.now }
{
    column.constraints.is_empty()
}

fn are_plain_columns(columns: &[ColumnDefinition]) -> bool
    ensures { result ≡ list_all is_plain_column columns.now }
{
    columns.iter().all(|column| is_plain_column(column))
}

/// Whether a table has no constraint, neither at a column nor behind them.
fn is_plain_table(table: &TableDefinition) -> bool
    ensures { result ≡ is_plain_table table.now }
{
    table.constraints.is_empty() && are_plain_columns(table.columns.as_slice())
}

/// Whether an entry defines a table of so many columns without a constraint.
fn defines_plain(entry: &Entry, width: usize) -> bool
    ensures { result ≡ defines_plain entry.now width }
{
    match table_of(entry) {
        Some(table) => is_plain_table(table) && table.columns.len() == width,
        None => false,
    }
}

fn has_no_index(table: &str, entries: &[Entry]) -> bool
    ensures { result ≡ has_no_index table.now entries.now }
{
    entries.iter().all(|entry| !is_index_of(table, entry))
}

/// Whether an entry is that of a table of so many columns, not too many, without a constraint and an index.
fn is_plain_entry(catalog: &Catalog, entry: &Entry, width: usize) -> bool
    ensures { result ≡ is_plain_entry catalog.now entry.now width }
{
    width <= MAX_COLUMNS
        && is_table_kind(entry.kind)
        && defines_plain(entry, width)
        && has_no_index(entry.name.as_str(), catalog.entries(Space::Names))
}

/// The table of this name, where it has no constraint and no index.
fn plain_table<'a>(
    catalog: &'a Catalog,
    tables: &'a [TableEntry],
    name: &str,
) -> Option<&'a TableEntry>
    ensures { IfSome result (λ t. IsPlainTable catalog.now tables.now name.now t.now) }
{
    let entry = table_named(name, catalog)?;
    let table = table_called(tables, entry.name.as_bytes())?;
    if table.rowid.is_none() && is_plain_entry(catalog, entry, table.columns.len()) {
        Some(table)
    } else {
        None
    }
}

/// What each column takes: the value in its own place.
fn placed(alloc: Global, columns: &[Column]) -> Result<Items<PutColumn>, AllocError>
    requires { length columns.now ≤ MAX_COLUMNS }
    ensures { IfOk result (λ found. found ≡ placed_from 0 columns.now) }
{
    let mut found = Vec::with_capacity(alloc, columns.len())?;
    let mut place: u32 = 0;
    for column in columns {
        found.push(PutColumn {
            affinity: column.affinity,
            place: Some(place),
            default: None,
            not_null: false,
        })?;
        place += 1;
    }
    Ok(Items::from_vec(found))
}

// ---- the values

fn literal_of(alloc: Global, text: &str, token: &Token) -> Result<BoundExpr, AllocError>
    ensures { IfOk result (λ b. b ≡ e.Literal (literal_at text.now token.now)) }
{
    Ok(BoundExpr::literal(literal(alloc, text, token)?))
}

/// What minus is bound to in front of a literal, unless that is the number that is an integer only so.
fn negative_of(alloc: Global, text: &str, value: &Expr) -> Result<Option<BoundExpr>, AllocError>
    ensures { IfOk result (λ found. IfSome found (λ b. IsValue text.now (x.Unary sign.Negative value.now) b)) }
{
    match value {
        Expr::Literal(token) if !is_least_magnitude(slice_of(text, token)) => {
            let positive = literal_of(alloc, text, token)?;
            Ok(Some(BoundExpr::unary(alloc, UnaryOperator::Negative, positive)?))
        }
        _ => Ok(None),
    }
}

/// What a literal is bound to, or a number behind a minus: it is the same wherever it stands.
fn value_of(alloc: Global, text: &str, value: &Expr) -> Result<Option<BoundExpr>, AllocError>
    ensures { IfOk result (λ found. IfSome found (λ b. IsValue text.now value.now b)) }
{
    match value {
        Expr::Literal(token) => Ok(Some(literal_of(alloc, text, token)?)),
        Expr::Unary(UnaryOp::Negative, a) => negative_of(alloc, text, a.get()),
        _ => Ok(None),
    }
}

/// What the values of a row are bound to.
fn values_of(
    alloc: Global,
    text: &str,
    row: &[Expr],
) -> Result<Option<Items<BoundExpr>>, AllocError>
    ensures { IfOk result (λ found. IfSome found (λ values. AreValues text.now row.now values)) }
{
    let mut values = Vec::with_capacity(alloc, row.len())?;
    for value in row {
        let Some(bound) = value_of(alloc, text, value)? else {
            return Ok(None);
        };
        values.push(bound)?;
    }
    Ok(Some(Items::from_vec(values)))
}

/// Rows of so many values.
fn rows_bound(
    alloc: Global,
    text: &str,
    width: usize,
    rows: &[Items<Expr>],
) -> Result<Option<Items<Items<BoundExpr>>>, AllocError>
    ensures { IfOk result (λ found. IfSome found (λ made. AreRows text.now width rows.now made)) }
{
    let mut made = Vec::with_capacity(alloc, rows.len())?;
    for row in rows {
        if row.len() != width {
            return Ok(None);
        }
        let Some(values) = values_of(alloc, text, row.as_slice())? else {
            return Ok(None);
        };
        made.push(values)?;
    }
    Ok(Some(Items::from_vec(made)))
}

// ---- the whole

fn rows_put(
    alloc: Global,
    catalog: &Catalog,
    tables: &[TableEntry],
    text: &str,
    table: &Token,
    rows: &[Items<Expr>],
) -> Result<Option<BoundInsert>, AllocError>
    ensures { IfOk result (λ found. IfSome found (λ b. PutsPlain catalog.now tables.now text.now table.now rows.now b)) }
{
    let Some(name) = plain_name(text, table) else {
        return Ok(None);
    };
    let Some(table) = plain_table(catalog, tables, name) else {
        return Ok(None);
    };
    let Some(rows) = rows_bound(alloc, text, table.columns.len(), rows)? else {
        return Ok(None);
    };
    Ok(Some(BoundInsert {
        table: table.number,
        name: table.name.clone()?,
        columns: placed(alloc, table.columns.as_slice())?,
        rowid: RowidFrom::Drawn,
        checks: Items::new(alloc),
        keys: Items::new(alloc),
        rows,
    }))
}
