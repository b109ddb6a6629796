// Recursive tables: the row of the queue, and the unit (WITH Clause, section 3).
ghost use Rattle.std.specs.Prelude.{◌≡◌, length, map, IfOk};
ghost use Rattle.bind_with.specs.Units.{recursion_with};
ghost use Rattle.sql_bound.specs.Answers.{Answers, OnlyMem};
ghost use Rattle.sql_bound.specs.Queries.{asked_as};
ghost use Rattle.sql_bound.specs.Recursions.{named_columns, unordered};
ghost use Rattle.sql_bound.specs.Trees.{of_term};

use crate::names::misused;
use bind_column::{as_columns, collations_of, with_names};
use bind_scope::{asked_as, copied_result_columns, small, text_of};
use bound_tree::{BoundCompound, BoundCore, BoundPart, BoundRecursion, BoundUnit};
use eng_value::{Cause, Text};
use sql_bound::{Asked, BoundLimit, QueueTable, ResultColumn, Work};
use sql_tree::OrderingTerm;
use sqlite_items::Items;
use std::alloc::Global;

/// The row of the queue as a table. Only memory can fail.
pub fn queue_table(alloc: Global, name: &str, columns: &[ResultColumn]) -> Result<QueueTable, Cause>
    ensures ok { IfOk result (λ q. q ≡ record { name = name.now; columns = columns.now }) }
    ensures mem { OnlyMem result }
{
    let name = text_of(alloc, name)?;
    let columns = copied_result_columns(alloc, columns)?;
    Ok(QueueTable { name, columns })
}

/// A recursive table has no ORDER BY.
pub fn unordered(alloc: Global, name: &str, order: &[OrderingTerm]) -> Result<(), Cause>
    ensures { Answers (unordered name.now (map of_term order.now)) result }
{
    match order {
        [] => Ok(()),
        [_, ..] => misused(alloc, name),
    }
}

/// The query of a WITH table whose columns have the names that are written.
pub fn named_columns(
    alloc: Global,
    name: &str,
    names: &[Text],
    asked: Asked,
    units: Items<BoundUnit>,
) -> Result<(Asked, Items<BoundUnit>), Cause>
    ensures { Answers (named_columns name.now names.now (asked, units)) result }
{
    let Asked {
        unit,
        needs,
        columns,
    } = asked;
    let columns = with_names(alloc, name, names, columns)?;
    Ok((
        Asked {
            unit,
            needs,
            columns,
        },
        units,
    ))
}

// ---- the unit

/// The unit of a recursive table that was bound: in this view or trigger, behind these WITH tables of its own; what stands in front, and
/// gives these columns, and the part that names the table, with the columns that it gives. Only memory can fail.
pub fn asked_recursion(
    alloc: Global,
    within: Option<Text>,
    tables: Items<u32>,
    first: BoundPart,
    others: Items<BoundCompound>,
    columns: Items<ResultColumn>,
    all: bool,
    part: BoundCore,
    shown: &[ResultColumn],
    limit: BoundLimit,
    work: Work,
) -> Result<(Asked, Items<BoundUnit>), Cause>
    ensures ok { IfOk result (λ a. a ≡ asked_as (recursion_with within (length work.needs) tables first others columns all part shown.now limit) columns work) }
    ensures mem { OnlyMem result }
{
    let arguments = small(work.needs.len())?;
    let collations = collations_of(alloc, columns.as_slice(), shown)?;
    let given = as_columns(alloc, columns.as_slice())?;
    let unit = BoundUnit::Recursed(BoundRecursion {
        within,
        arguments,
        tables,
        first,
        others,
        all,
        part,
        collations,
        limit: limit.count,
        offset: limit.offset,
        columns: given,
    });
    asked_as(unit, columns, work)
}
