// What a name in FROM stands for, once its query is bound: a query, a view or a WITH table.
ghost use Rattle.std.specs.Prelude.{◌≡◌, ◌-◌, ◌∷◌, None, Some, IfOk};
ghost use Rattle.std.specs.Option.{option_copied};
ghost use Rattle.bind_with.specs.Items.{of_with_at, rows_at, view_given};
ghost use Rattle.bound_tree.specs.declared.units.BoundSource.TheVariants as source;
ghost use Rattle.sql_bound.specs.Answers.{Answers, Becomes, Comes, OnlyMem};
ghost use Rattle.sql_bound.specs.Froms.{as_columns, plain_source};

use crate::names::names_of;
use bind_column::{as_columns, with_names};
use bind_scope::{copied_text, further, handed, pushed, small};
use bind_source::{of_queue, plain_source, with_source};
use bound_tree::{BoundExpr, BoundSource};
use eng_entry::Entry;
use eng_value::Cause;
use sql_bound::{Found, Need, QueueTable, ResultColumn, Sourced, WithEntry, WithMeaning, Work};
use sql_tree::ViewDefinition;
use sqlite_items::Items;
use std::alloc::Global;

/// A query as an item. Only memory can fail.
pub fn derived_source(
    alloc: Global,
    unit: u32,
    arguments: Items<BoundExpr>,
    columns: Items<ResultColumn>,
) -> Result<Sourced, Cause>
    ensures ok { IfOk result (λ s. s ≡ plain_source None (source.Query unit arguments) (as_columns columns)) }
    ensures mem { OnlyMem result }
{
    let columns = as_columns(alloc, columns.as_slice())?;
    plain_source(alloc, None, BoundSource::Query(unit, arguments), columns)
}

/// What a WITH table's name means where so many FROMs are around the query: its rows, or the queue.
pub fn table_of_with(
    alloc: Global,
    around: usize,
    queue: Option<&QueueTable>,
    table: &WithEntry,
    found: &Found,
    work: &mut Work,
) -> Result<Sourced, Cause>
    ensures { Comes (of_with_at around (option_copied queue.entry) table.now table.now.meaning found.now work.old) result work.new }
{
    match &table.meaning {
        WithMeaning::Itself => of_queue(alloc, table.name.as_str(), queue, found.has_queue),
        WithMeaning::Bound(unit, recursive, needs, columns) => rows_of_with(
            alloc,
            around,
            table,
            *unit,
            *recursive,
            needs.as_slice(),
            columns.as_slice(),
            work,
        ),
    }
}

/// How many FROMs more there are around than this.
fn distance(around: usize, table: &WithEntry) -> Result<u32, Cause>
    ensures ok { IfOk result (λ n. n ≡ around - table.now.around) }
    ensures mem { OnlyMem result }
{
    small(around.saturating_sub(table.around as usize))
}

/// The rows of a WITH table by its unit.
fn rows_of_with(
    alloc: Global,
    around: usize,
    table: &WithEntry,
    unit: u32,
    recursive: bool,
    needs: &[Need],
    columns: &[ResultColumn],
    work: &mut Work,
) -> Result<Sourced, Cause>
    ensures { Becomes (rows_at around table.now unit recursive needs.now columns.now work.old) result work.new }
{
    let distance = distance(around, table)?;
    let needs = further(alloc, distance, needs)?;
    let arguments = handed(alloc, needs.as_slice(), work)?;
    let name = copied_text(&table.name)?;
    let columns = as_columns(alloc, columns)?;
    let source = with_source(recursive, unit, arguments);
    plain_source(alloc, Some(name), source, columns)
}

/// A view as an item, once its query is bound: the names that are written take the place of its query's.
pub fn view_source(
    alloc: Global,
    entry: &Entry,
    view: &ViewDefinition,
    unit: u32,
    columns: Items<ResultColumn>,
) -> Result<Sourced, Cause>
    ensures { Answers (view_given entry.now view.now unit columns) result }
{
    let names = names_of(alloc, entry.text.as_str(), view.columns.as_slice())?;
    let columns = with_names(alloc, entry.name.as_str(), names.as_slice(), columns)?;
    view_with(alloc, entry, unit, columns)
}

fn view_with(
    alloc: Global,
    entry: &Entry,
    unit: u32,
    columns: Items<ResultColumn>,
) -> Result<Sourced, Cause>
    ensures ok { IfOk result (λ s. s ≡ plain_source (Some entry.now.name) (source.View entry.now.name unit) (as_columns columns)) }
    ensures mem { OnlyMem result }
{
    let columns = as_columns(alloc, columns.as_slice())?;
    let source = BoundSource::View(copied_text(&entry.name)?, unit);
    let name = copied_text(&entry.name)?;
    plain_source(alloc, Some(name), source, columns)
}

/// A WITH table in front of others. Only memory can fail.
pub fn in_front(
    alloc: Global,
    entry: WithEntry,
    entries: Items<WithEntry>,
) -> Result<Items<WithEntry>, Cause>
    ensures ok { IfOk result (λ all. all ≡ entry ∷ entries) }
    ensures mem { OnlyMem result }
{
    let mut all = Items::new(alloc);
    pushed(&mut all, entry)?;
    all.append(entries)?;
    Ok(all)
}
