// Which column of a table is its rowid (ROWIDs and the INTEGER PRIMARY KEY).
ghost use Rattle.std.specs.Prelude.{◌≡◌, [], ◌∷◌, codes, position, IfOk};
ghost use Rattle.std.specs.List.{list_any};
ghost use Rattle.eng_entry.specs.Names.{is_same_name};
ghost use Rattle.sql_bound.specs.Answers.{OnlyMem};
ghost use Rattle.sql_bound.specs.Declarations.{is_integer_type, is_own_rowid, is_primary, is_rowid_called, is_word, rowid_of, rowid_of_constraints, rowid_of_key};
ghost use Rattle.sql_words.specs.Spelled.{name_at};

use crate::memory::{name, small};
use eng_entry::is_same_name;
use eng_value::Cause;
use sql_tree::{
    ColumnConstraint, ColumnDefinition, IndexedColumn, TableConstraint, TableDefinition, Token,
    TypeName,
};
use std::alloc::Global;

/// Whether a name of the text is this one.
fn is_called(alloc: Global, text: &str, token: &Token, wanted: &str) -> Result<bool, Cause>
    ensures ok { IfOk result (λ is. is ≡ is_same_name (name_at text.now token.now) wanted.now) }
    ensures mem { OnlyMem result }
{
    let name = name(alloc, text, token)?;
    Ok(is_same_name(name.as_bytes(), wanted.as_bytes()))
}

fn is_integer_word(alloc: Global, text: &str, words: &[Token]) -> Result<bool, Cause>
    ensures ok { IfOk result (λ is. is ≡ is_word text.now (codes "INTEGER") words.now) }
    ensures mem { OnlyMem result }
{
    match words {
        [word] => is_called(alloc, text, word, "INTEGER"),
        _ => Ok(false),
    }
}

/// Whether the type is INTEGER and nothing else.
fn is_integer_type(alloc: Global, text: &str, type_name: &Option<TypeName>) -> Result<bool, Cause>
    ensures ok { IfOk result (λ is. is ≡ is_integer_type text.now type_name.now) }
    ensures mem { OnlyMem result }
{
    match type_name {
        Some(t) => {
            let is_word = is_integer_word(alloc, text, t.words.as_slice())?;
            Ok(is_word && t.sizes.is_empty())
        }
        None => Ok(false),
    }
}

fn is_primary(constraint: &ColumnConstraint) -> bool
    ensures { result ≡ is_primary constraint.now }
{
    match constraint {
        ColumnConstraint::PrimaryKey => true,
        _ => false,
    }
}

fn has_primary(column: &ColumnDefinition) -> bool
    ensures { result ≡ list_any is_primary column.now.constraints }
{
    column.constraints.as_slice().iter().any(|c| is_primary(c))
}

fn is_own_rowid(alloc: Global, text: &str, column: &ColumnDefinition) -> Result<bool, Cause>
    ensures ok { IfOk result (λ is. is ≡ is_own_rowid text.now column.now) }
    ensures mem { OnlyMem result }
{
    if !has_primary(column) {
        return Ok(false);
    }
    is_integer_type(alloc, text, &column.type_name)
}

fn is_rowid_called(
    alloc: Global,
    text: &str,
    wanted: &str,
    column: &ColumnDefinition,
) -> Result<bool, Cause>
    ensures ok { IfOk result (λ is. is ≡ is_rowid_called text.now wanted.now column.now) }
    ensures mem { OnlyMem result }
{
    let is_integer = is_integer_type(alloc, text, &column.type_name)?;
    let is_named = is_called(alloc, text, &column.name, wanted)?;
    Ok(is_integer && is_named)
}

/// The first column that makes itself the rowid.
#[tactic(auto, using(crate::proofs::PlaceLaws::place_steps))]
fn own_rowid(
    alloc: Global,
    text: &str,
    columns: &[ColumnDefinition],
) -> Result<Option<usize>, Cause>
    ensures ok { IfOk result (λ place. place ≡ position (is_own_rowid text.now) columns.now) }
    ensures mem { OnlyMem result }
{
    let mut place = 0;
    for column in columns {
        if is_own_rowid(alloc, text, column)? {
            return Ok(Some(place));
        }
        place += 1;
    }
    Ok(None)
}

/// The first column of a name that can be the rowid.
#[tactic(auto, using(crate::proofs::PlaceLaws::place_steps))]
fn rowid_called(
    alloc: Global,
    text: &str,
    wanted: &str,
    columns: &[ColumnDefinition],
) -> Result<Option<usize>, Cause>
    ensures ok { IfOk result (λ place. place ≡ position (is_rowid_called text.now wanted.now) columns.now) }
    ensures mem { OnlyMem result }
{
    let mut place = 0;
    for column in columns {
        if is_rowid_called(alloc, text, wanted, column)? {
            return Ok(Some(place));
        }
        place += 1;
    }
    Ok(None)
}

fn rowid_of_key(
    alloc: Global,
    text: &str,
    columns: &[ColumnDefinition],
    key: &[IndexedColumn],
) -> Result<Option<usize>, Cause>
    ensures ok { IfOk result (λ place. place ≡ rowid_of_key text.now columns.now key.now) }
    ensures mem { OnlyMem result }
{
    match key {
        [part] => {
            let wanted = name(alloc, text, &part.name)?;
            rowid_called(alloc, text, wanted.as_str(), columns)
        }
        _ => Ok(None),
    }
}

fn rowid_in(
    alloc: Global,
    text: &str,
    columns: &[ColumnDefinition],
    constraint: &TableConstraint,
) -> Result<Option<usize>, Cause>
    ensures ok { IfOk result (λ place. place ≡ rowid_of_constraints text.now columns.now (constraint.now ∷ [])) }
    ensures mem { OnlyMem result }
{
    match constraint {
        TableConstraint::PrimaryKey(key) => rowid_of_key(alloc, text, columns, key.as_slice()),
        _ => Ok(None),
    }
}

#[tactic(auto, using(crate::proofs::ColumnLaws::or_steps))]
fn rowid_of_constraints(
    alloc: Global,
    text: &str,
    columns: &[ColumnDefinition],
    constraints: &[TableConstraint],
) -> Result<Option<usize>, Cause>
    ensures ok { IfOk result (λ place. place ≡ rowid_of_constraints text.now columns.now constraints.now) }
    ensures mem { OnlyMem result }
{
    for constraint in constraints {
        if let Some(place) = rowid_in(alloc, text, columns, constraint)? {
            return Ok(Some(place));
        }
    }
    Ok(None)
}

fn rowid_place(alloc: Global, text: &str, table: &TableDefinition) -> Result<Option<usize>, Cause>
    ensures ok { IfOk result (λ place. place ≡ rowid_of text.now table.now) }
    ensures mem { OnlyMem result }
{
    match own_rowid(alloc, text, table.columns.as_slice())? {
        Some(place) => Ok(Some(place)),
        None => rowid_of_constraints(
            alloc,
            text,
            table.columns.as_slice(),
            table.constraints.as_slice(),
        ),
    }
}

fn small_place(place: Option<usize>) -> Result<Option<u32>, Cause>
    ensures ok { IfOk result (λ number. number ≡ place) }
    ensures mem { OnlyMem result }
{
    match place {
        Some(place) => Ok(Some(small(place)?)),
        None => Ok(None),
    }
}

/// Which column is the rowid, if one is. Only memory can fail.
pub fn rowid_of(alloc: Global, text: &str, table: &TableDefinition) -> Result<Option<u32>, Cause>
    ensures ok { IfOk result (λ place. place ≡ rowid_of text.now table.now) }
    ensures mem { OnlyMem result }
{
    small_place(rowid_place(alloc, text, table)?)
}
