// USING and NATURAL: that columns of a name are equal is tested, and that on the left is shown (SELECT, section 2.1).
ghost use Rattle.std.specs.Prelude.{◌≡◌, ◌+◌, ◌∷◌, ◌++◌, [], filter, IfOk, MatchResult, OnOk};
ghost use Rattle.bind_join.specs.Joins.{counted, is_joinable};
ghost use Rattle.eng_entry.specs.Names.{is_same_name};
ghost use Rattle.eng_value.specs.declared.cause.Cause.TheVariants.{Limit};
ghost use Rattle.eng_value.specs.declared.cause.LimitKind.TheVariants as limit;
ghost use Rattle.sql_bound.specs.Answers.{Answers, OnlyMem};
ghost use Rattle.sql_bound.specs.Froms.{common_names, equality_of, is_any, on_left, using_all, using_one, with_joined};
ghost use Rattle.sql_bound.specs.Scopes.{columns_named, is_shown};
ghost use Rattle.sql_bound.specs.declared.scopes.ScopeColumn.{ScopeColumn};

use crate::joins::{
    Counts, common_names, equality_of, is_counted, is_joinable, one_of, with_joined,
};
use bind_entry::put;
use bind_scope::copied_column;
use eng_value::{Cause, LimitKind, MAX_COLUMNS, Text};
use sql_bound::{Joining, ScopeColumn, ScopeItem};
use sqlite_items::Items;
use std::alloc::Global;

fn put_joinable(
    alloc: Global,
    which: Counts,
    name: &str,
    column: &ScopeColumn,
    found: &mut Items<ScopeColumn>,
) -> Result<(), Cause>
    ensures ok { OnOk result (found.new ≡ found.old ++ filter (is_joinable which name.now) (column.now ∷ [])) }
    ensures mem { OnlyMem result }
{
    if is_joinable(which, name, column) {
        put(found, copied_column(alloc, column)?)
    } else {
        Ok(())
    }
}

fn put_item(
    alloc: Global,
    which: Counts,
    name: &str,
    item: &ScopeItem,
    found: &mut Items<ScopeColumn>,
) -> Result<(), Cause>
    ensures ok { OnOk result (found.new ≡ found.old ++ filter (is_joinable which name.now) item.now.columns) }
    ensures mem { OnlyMem result }
{
    for column in item.columns.as_slice() {
        put_joinable(alloc, which, name, column, found)?;
    }
    Ok(())
}

/// The columns of a name on the left that count and are not joined. Only memory can fail.
pub fn on_left(
    alloc: Global,
    which: Counts,
    name: &str,
    left: &[ScopeItem],
) -> Result<Items<ScopeColumn>, Cause>
    ensures ok { IfOk result (λ cs. cs ≡ on_left (counted which) name.now left.now) }
    ensures mem { OnlyMem result }
{
    let mut found = Items::new(alloc);
    for item in left {
        put_item(alloc, which, name, item, &mut found)?;
    }
    Ok(found)
}

fn put_counted(
    alloc: Global,
    which: Counts,
    name: &str,
    column: &ScopeColumn,
    found: &mut Items<ScopeColumn>,
) -> Result<(), Cause>
    ensures ok { OnOk result (found.new ≡ found.old ++ filter (counted which) (filter (λ (c : ScopeColumn). is_same_name c.name name.now) (column.now ∷ []))) }
    ensures mem { OnlyMem result }
{
    if is_counted(which, name, column) {
        put(found, copied_column(alloc, column)?)
    } else {
        Ok(())
    }
}

/// The columns of a name in the item that is joined.
fn on_right(
    alloc: Global,
    which: Counts,
    name: &str,
    right: &ScopeItem,
) -> Result<Items<ScopeColumn>, Cause>
    ensures ok { IfOk result (λ cs. cs ≡ filter (counted which) (columns_named name.now right.now)) }
    ensures mem { OnlyMem result }
{
    let mut found = Items::new(alloc);
    for column in right.columns.as_slice() {
        put_counted(alloc, which, name, column, &mut found)?;
    }
    Ok(found)
}

// ---- names in turn

fn with_equality(
    alloc: Global,
    which: Counts,
    name: &str,
    j: Joining,
    l: ScopeColumn,
    r: ScopeColumn,
) -> Result<Joining, Cause>
    ensures ok { IfOk result (λ k. k ≡ record { right = with_joined (counted which) name.now j.right; ons = j.ons ++ equality_of l r ∷ [] }) }
    ensures mem { OnlyMem result }
{
    let Joining { right, mut ons } = j;
    let right = with_joined(alloc, which, name, right)?;
    put(&mut ons, equality_of(alloc, l, r)?)?;
    Ok(Joining { right, ons })
}

/// Joins by one name: the left has one column of it and the right has one, or the name is unknown or ambiguous.
pub fn using_one(
    alloc: Global,
    which: Counts,
    left: &[ScopeItem],
    name: &str,
    j: Joining,
) -> Result<Joining, Cause>
    ensures { Answers (using_one (counted which) left.now name.now j) result }
{
    let lefts = on_left(alloc, which, name, left)?;
    let l = one_of(alloc, name, lefts)?;
    let rights = on_right(alloc, which, name, &j.right)?;
    let r = one_of(alloc, name, rights)?;
    with_equality(alloc, which, name, j, l, r)
}

/// Room for one less, or the limit where there is none.
fn one_less(room: usize) -> Result<usize, Cause>
    ensures { MatchResult result (λ n. room ≡ n + 1) (λ why. (room ≡ 0) × (why ≡ Limit limit.Columns)) }
{
    match room.checked_sub(1) {
        Some(less) => Ok(less),
        None => Err(Cause::Limit(LimitKind::Columns)),
    }
}

/// Joins by all these names in turn, of which there are not more than `MAX_COLUMNS`.
fn joined_by(
    alloc: Global,
    which: Counts,
    left: &[ScopeItem],
    names: &[Text],
    j: Joining,
) -> Result<Joining, Cause>
    ensures { Answers (using_all (counted which) left.now names.now j) result }
{
    let mut joining = j;
    let mut room = MAX_COLUMNS;
    for name in names {
        let less = one_less(room)?;
        let more = using_one(alloc, which, left, name.as_str(), joining)?;
        joining = more;
        room = less;
    }
    Ok(joining)
}

/// USING: joins by the names in turn.
pub fn using_all(
    alloc: Global,
    left: &[ScopeItem],
    names: &[Text],
    j: Joining,
) -> Result<Joining, Cause>
    ensures { Answers (using_all is_any left.now names.now j) result }
{
    joined_by(alloc, Counts::All, left, names, j)
}

/// NATURAL: joins by the names of columns that are shown on both sides.
pub fn natural_all(alloc: Global, left: &[ScopeItem], j: Joining) -> Result<Joining, Cause>
    ensures { Answers (using_all is_shown left.now (common_names left.now j.right) j) result }
{
    let names = common_names(alloc, left, &j.right)?;
    joined_by(alloc, Counts::ShownOnly, left, names.as_slice(), j)
}
