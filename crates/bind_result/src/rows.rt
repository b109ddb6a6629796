// Rows of VALUES (SELECT, section 3).
ghost use Rattle.std.specs.Prelude.{◌≡◌, map, IfOk};
ghost use Rattle.sql_bound.specs.Answers.{Answers, OnlyMem};
ghost use Rattle.sql_bound.specs.Compounds.{trees_in, values_given};
ghost use Rattle.bind_result.specs.Rows.{columns_of_rows, row_fits, row_put};
ghost use Rattle.bind_result.specs.Shows.{Changes};

use bind_column::{values_columns, width_fits};
use bind_operand::trees_of;
use bind_scope::pushed;
use bound_tree::{BoundExpr, BoundPart, reversed};
use eng_value::Cause;
use sql_bound::{Given, Operand, ResultColumn};
use sqlite_items::Items;
use std::alloc::Global;

/// A row has to be as wide as the first one.
fn row_fits(alloc: Global, rows: &[Items<Operand>], row: &[Operand]) -> Result<(), Cause>
    ensures { Answers (row_fits rows.now row.now) result }
{
    match rows {
        [] => Ok(()),
        [first, ..] => width_fits(alloc, "VALUES", first.len(), row.len()),
    }
}

/// A row behind others, which has to be as wide as the first one.
pub fn put_row(
    alloc: Global,
    rows: &mut Items<Items<Operand>>,
    row: Items<Operand>,
) -> Result<(), Cause>
    ensures { Changes (row_put rows.old row) result rows.new }
{
    row_fits(alloc, rows.as_slice(), row.as_slice())?;
    pushed(rows, row)
}

/// The trees of rows.
fn trees_of_rows(
    alloc: Global,
    rows: Items<Items<Operand>>,
) -> Result<Items<Items<BoundExpr>>, Cause>
    ensures ok { IfOk result (λ trees. trees ≡ map trees_in rows) }
    ensures mem { OnlyMem result }
{
    let mut rest = reversed(alloc, rows)?;
    let mut trees = Items::new(alloc);
    while let Some(row) = rest.pop() {
        pushed(&mut trees, trees_of(alloc, row)?)?;
    }
    Ok(trees)
}

/// The columns of VALUES, by its first row.
fn columns_of_rows(alloc: Global, rows: &[Items<Operand>]) -> Result<Items<ResultColumn>, Cause>
    ensures ok { IfOk result (λ cs. cs ≡ columns_of_rows rows.now) }
    ensures mem { OnlyMem result }
{
    match rows {
        [] => Ok(Items::new(alloc)),
        [first, ..] => values_columns(alloc, first.as_slice()),
    }
}

/// Rows of VALUES as a part of a query, whose columns are to others what those of the first row are. Only memory can fail.
#[tactic(auto, using(crate::proofs::RowLaws::row_laws))]
pub fn values_given(alloc: Global, rows: Items<Items<Operand>>) -> Result<Given, Cause>
    ensures ok { IfOk result (λ g. g ≡ values_given rows) }
    ensures mem { OnlyMem result }
{
    let columns = columns_of_rows(alloc, rows.as_slice())?;
    let trees = trees_of_rows(alloc, rows)?;
    Ok(Given {
        part: BoundPart::Values(trees),
        columns,
    })
}
