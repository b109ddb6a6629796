// The columns that queries give (SELECT, sections 2.4 and 3).
ghost use Rattle.std.specs.Prelude.{◌≡◌, ◌++◌, codes, Ok, Err, IfOk, IfErr};
ghost use Rattle.std.specs.Fmt.{decimal};
ghost use Rattle.sql_bound.specs.Answers.{Answers, OnlyMem};
ghost use Rattle.sql_bound.specs.Compounds.{collation_of_both, collations_of, values_columns, width_fits};
ghost use Rattle.sql_bound.specs.Froms.{as_column, as_columns, renamed, with_names};
ghost use Rattle.sql_bound.specs.Limits.{room_behind, within_columns};
ghost use Rattle.sql_bound.specs.Operands.{collation_of_result};
ghost use Rattle.sql_bound.specs.Results.{result_column};
ghost use Rattle.sql_words.specs.Refusals.{or_else};
ghost use Rattle.bind_column.specs.Lists.{column_called};

use bind_scope::{copied_text, pushed, text_of};
use bound_tree::BoundColumn;
use eng_value::{Built, Cause, Collation, LimitKind, MAX_COLUMNS, Text};
use itoa::Buffer;
use sql_bound::{Operand, ResultColumn};
use sqlite_items::Items;
use std::alloc::Global;

/// A column of a query that has this name.
pub fn result_column(name: Text, a: &Operand) -> ResultColumn
    ensures { result ≡ result_column name a.now }
{
    ResultColumn {
        name,
        affinity: a.affinity,
        explicit: a.explicit,
        column: a.column,
    }
}

/// The first of two that there is.
fn or_else(a: Option<Collation>, b: Option<Collation>) -> Option<Collation>
    ensures { result ≡ or_else a b }
{
    match a {
        Some(a) => Some(a),
        None => b,
    }
}

/// The collation by which a query's column compares: BINARY where it has none.
pub fn collation_of_result(column: &ResultColumn) -> Collation
    ensures { result ≡ collation_of_result column.now }
{
    match or_else(column.explicit, column.column) {
        Some(collation) => collation,
        None => Collation::Built(Built::Binary),
    }
}

fn as_column(column: &ResultColumn) -> Result<BoundColumn, Cause>
    ensures ok { IfOk result (λ c. c ≡ as_column column.now) }
    ensures mem { OnlyMem result }
{
    let name = copied_text(&column.name)?;
    Ok(BoundColumn {
        name,
        affinity: column.affinity,
        collation: collation_of_result(column),
    })
}

/// The columns of a query as those of an item.
pub fn as_columns(alloc: Global, columns: &[ResultColumn]) -> Result<Items<BoundColumn>, Cause>
    ensures ok { IfOk result (λ cs. cs ≡ as_columns columns.now) }
    ensures mem { OnlyMem result }
{
    let mut found = Items::new(alloc);
    for column in columns {
        let one = as_column(column)?;
        pushed(&mut found, one)?;
    }
    Ok(found)
}

/// The same column by another name.
fn column_called(name: &Text, column: &ResultColumn) -> Result<ResultColumn, Cause>
    ensures ok { IfOk result (λ c. c ≡ column_called name.now column.now) }
    ensures mem { OnlyMem result }
{
    let name = copied_text(name)?;
    Ok(ResultColumn {
        name,
        affinity: column.affinity,
        explicit: column.explicit,
        column: column.column,
    })
}

/// The same columns by other names.
fn renamed(
    alloc: Global,
    names: &[Text],
    columns: &[ResultColumn],
) -> Result<Items<ResultColumn>, Cause>
    ensures ok { IfOk result (λ cs. cs ≡ renamed names.now columns.now) }
    ensures mem { OnlyMem result }
{
    let mut found = Items::new(alloc);
    let mut others = columns;
    for name in names {
        match others {
            [] => return Ok(found),
            [column, rest @ ..] => {
                let one = column_called(name, column)?;
                pushed(&mut found, one)?;
                others = rest;
            }
        }
    }
    Ok(found)
}

/// The columns by the names that are written, if there are any, which must be as many as they.
pub fn with_names(
    alloc: Global,
    table: &str,
    names: &[Text],
    columns: Items<ResultColumn>,
) -> Result<Items<ResultColumn>, Cause>
    ensures { Answers (with_names table.now names.now columns) result }
{
    match names {
        [] => Ok(columns),
        [_, ..] => {
            if names.len() == columns.len() {
                return renamed(alloc, names, columns.as_slice());
            }
            let table = text_of(alloc, table)?;
            Err(Cause::Arity(table))
        }
    }
}

/// The collation by which a column of a part is compared with that of the first one.
fn collation_of_both(a: &ResultColumn, b: &ResultColumn) -> Collation
    ensures { result ≡ collation_of_both a.now b.now }
{
    match or_else(or_else(a.explicit, b.explicit), or_else(a.column, b.column)) {
        Some(collation) => collation,
        None => Collation::Built(Built::Binary),
    }
}

/// The collations by which the columns of a part are compared with those of the first one.
pub fn collations_of(
    alloc: Global,
    first: &[ResultColumn],
    part: &[ResultColumn],
) -> Result<Items<Collation>, Cause>
    ensures ok { IfOk result (λ cs. cs ≡ collations_of first.now part.now) }
    ensures mem { OnlyMem result }
{
    let mut found = Items::new(alloc);
    let mut others = part;
    for a in first {
        match others {
            [] => return Ok(found),
            [b, rest @ ..] => {
                pushed(&mut found, collation_of_both(a, b))?;
                others = rest;
            }
        }
    }
    Ok(found)
}

/// As wide as is wanted, or what the word stands for has the wrong number of values.
pub fn width_fits(alloc: Global, word: &str, wanted: usize, width: usize) -> Result<(), Cause>
    ensures { Answers (width_fits word.now wanted width) result }
{
    if width == wanted {
        return Ok(());
    }
    let word = text_of(alloc, word)?;
    Err(Cause::Arity(word))
}

/// `column1`, `column2`, ..
fn numbered_name(alloc: Global, number: usize) -> Result<Text, Cause>
    ensures ok { IfOk result (λ n. n ≡ codes "column" ++ decimal number) }
    ensures mem { OnlyMem result }
{
    let mut name = String::from_str(alloc, "column")?;
    name.push_str(Buffer::new().format(number))?;
    Ok(Text::new(name))
}

/// The columns of VALUES, by its first row.
pub fn values_columns(alloc: Global, row: &[Operand]) -> Result<Items<ResultColumn>, Cause>
    ensures ok { IfOk result (λ cs. cs ≡ values_columns 1 row.now) }
    ensures mem { OnlyMem result }
{
    let mut found = Items::new(alloc);
    for a in row {
        let name = numbered_name(alloc, found.len() + 1)?;
        pushed(&mut found, result_column(name, a))?;
    }
    Ok(found)
}

/// One more column may go behind these.
pub fn room_behind<T>(columns: &[T]) -> Result<(), Cause>
    ensures { Answers (room_behind columns.now) result }
{
    if columns.len() < MAX_COLUMNS {
        Ok(())
    } else {
        Err(Cause::Limit(LimitKind::Columns))
    }
}

/// No more columns than there may be.
pub fn within_columns<T>(columns: &[T]) -> Result<(), Cause>
    ensures ok { IfOk result (λ u. within_columns columns.now ≡ Ok columns.now) }
    ensures err { IfErr result (λ why. within_columns columns.now ≡ Err why) }
{
    if columns.len() <= MAX_COLUMNS {
        Ok(())
    } else {
        Err(Cause::Limit(LimitKind::Columns))
    }
}
