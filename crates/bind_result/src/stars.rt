// Results that stars show (SELECT, section 2.4).
ghost use Rattle.std.specs.Prelude.{◌≡◌, IfOk};
ghost use Rattle.sql_words.specs.Spelled.{name_at};
ghost use Rattle.bind_column.specs.Stars.{all_of, those_of};
ghost use Rattle.bind_result.specs.Shows.{Changes, column_put, columns_put, star_put};

use crate::naming::put;
use bind_column::{all_shown, column_operand, grouped_checked, room_behind, shown_of};
use bind_name::name;
use bind_scope::copied_text;
use bound_tree::{BoundKey, reversed};
use eng_value::Cause;
use sql_bound::{ScopeColumn, ScopeItem, Shown};
use sql_tree::Token;
use sqlite_items::Items;
use std::alloc::Global;

/// A column more that is shown.
fn show_column(
    alloc: Global,
    own: &[ScopeItem],
    grouped: bool,
    keys: &[BoundKey],
    column: ScopeColumn,
    shown: &mut Shown,
) -> Result<(), Cause>
    ensures { Changes (column_put grouped keys.now own.now column shown.old) result shown.new }
{
    room_behind(shown.trees.as_slice())?;
    let name = copied_text(&column.name)?;
    let a = column_operand(column);
    grouped_checked(alloc, grouped, keys, own, &a.tree)?;
    put(a, name, shown)
}

/// Columns more that are shown, from left to right.
fn show_columns(
    alloc: Global,
    own: &[ScopeItem],
    grouped: bool,
    keys: &[BoundKey],
    columns: Items<ScopeColumn>,
    shown: &mut Shown,
) -> Result<(), Cause>
    ensures { Changes (columns_put grouped keys.now own.now columns shown.old) result shown.new }
{
    let mut rest = reversed(alloc, columns)?;
    while let Some(column) = rest.pop() {
        show_column(alloc, own, grouped, keys, column, shown)?;
    }
    Ok(())
}

/// The columns that `*` shows, each once that USING joins. In a grouped query none of them may be bare.
pub fn show_all(
    alloc: Global,
    own: &[ScopeItem],
    grouped: bool,
    keys: &[BoundKey],
    shown: &mut Shown,
) -> Result<(), Cause>
    ensures { Changes (star_put grouped keys.now own.now (all_of own.now) shown.old) result shown.new }
{
    let columns = all_shown(alloc, own)?;
    show_columns(alloc, own, grouped, keys, columns, shown)
}

/// The columns that `table.*` shows.
pub fn show_table(
    alloc: Global,
    text: &str,
    own: &[ScopeItem],
    grouped: bool,
    keys: &[BoundKey],
    token: &Token,
    shown: &mut Shown,
) -> Result<(), Cause>
    ensures { Changes (star_put grouped keys.now own.now (those_of (name_at text.now token.now) own.now) shown.old) result shown.new }
{
    let table = name(alloc, text, token)?;
    let columns = shown_of(alloc, table.as_str(), own)?;
    show_columns(alloc, own, grouped, keys, columns, shown)
}
