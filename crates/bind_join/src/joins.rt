// USING and NATURAL: which columns of a name they join (SELECT, section 2.1).
ghost use Rattle.std.specs.Prelude.{◌≡◌, ◌∷◌, ◌++◌, [], ◌&&◌, filter, map, IfOk, OnOk};
ghost use Rattle.std.specs.List.{list_any};
ghost use Rattle.bind_join.specs.Joins.{counted, is_joinable};
ghost use Rattle.eng_entry.specs.Names.{is_same_name};
ghost use Rattle.sql_bound.specs.Answers.{Answers, OnlyMem};
ghost use Rattle.sql_bound.specs.Froms.{common_names, equality_of, is_shown_left, joined_if, one_of, with_joined};
ghost use Rattle.sql_bound.specs.declared.scopes.ScopeColumn.{ScopeColumn};
ghost use Rattle.sql_bound.specs.declared.scopes.ScopeItem.{ScopeItem};

use bind_entry::{copied, put};
use bound_tree::BoundExpr;
use eng_entry::is_same_name;
use eng_value::{BinaryOperator, Cause, CompareOp, NameKind, Sides, Text};
use sql_bound::{ScopeColumn, ScopeItem};
use sqlite_items::Items;
use std::alloc::Global;

/// Which columns a join counts: USING any, NATURAL those that are shown.
#[derive(Clone, Copy, PartialEq, Eq)]
pub enum Counts {
    All,
    ShownOnly,
}

fn does_count(which: Counts, column: &ScopeColumn) -> bool
    ensures { result ≡ counted which column.now }
{
    match which {
        Counts::All => true,
        Counts::ShownOnly => !column.hidden,
    }
}

pub(crate) fn is_joinable(which: Counts, name: &str, column: &ScopeColumn) -> bool
    ensures { result ≡ is_joinable which name.now column.now }
{
    is_same_name(column.name.as_bytes(), name.as_bytes())
        && !column.joined
        && does_count(which, column)
}

/// Whether a column of the right has the name and counts.
pub(crate) fn is_counted(which: Counts, name: &str, column: &ScopeColumn) -> bool
    ensures { result ≡ is_same_name column.now.name name.now && counted which column.now }
{
    is_same_name(column.name.as_bytes(), name.as_bytes()) && does_count(which, column)
}

// ---- the columns of a name

/// The only one of these columns: without one the name is unknown, and two are ambiguous.
#[tactic(auto, using(crate::proofs::JoinLaws::one_steps))]
pub fn one_of(alloc: Global, name: &str, columns: Items<ScopeColumn>) -> Result<ScopeColumn, Cause>
    ensures { Answers (one_of name.now columns) result }
{
    let mut columns = columns;
    match columns.as_slice() {
        [] => Err(Cause::Unknown(NameKind::Column, Text::from_str(alloc, name)?)),
        [_] => Ok(columns.remove(0)),
        [_, _, ..] => Err(Cause::Ambiguous(Text::from_str(alloc, name)?)),
    }
}

// ---- joined columns

/// The test that two columns are equal. Only memory can fail.
pub fn equality_of(alloc: Global, l: ScopeColumn, r: ScopeColumn) -> Result<BoundExpr, Cause>
    ensures ok { IfOk result (λ x. x ≡ equality_of l r) }
    ensures mem { OnlyMem result }
{
    let sides = Sides {
        left: l.affinity,
        right: r.affinity,
        collation: l.collation,
    };
    let op = BinaryOperator::Compare(CompareOp::Eq, sides);
    match BoundExpr::binary(alloc, op, l.tree, r.tree) {
        Ok(test) => Ok(test),
        Err(_) => Err(Cause::Mem),
    }
}

fn joined_if(which: Counts, name: &str, column: ScopeColumn) -> ScopeColumn
    ensures { result ≡ joined_if (counted which) name.now column }
{
    let mut column = column;
    if is_counted(which, name, &column) {
        column.joined = true;
    }
    column
}

fn push(columns: &mut Vec<ScopeColumn>, column: ScopeColumn) -> Result<(), Cause>
    ensures ok { OnOk result (columns.new.items ≡ columns.old.items ++ column ∷ []) }
    ensures mem { OnlyMem result }
{
    match columns.push(column) {
        Ok(()) => Ok(()),
        Err(_) => Err(Cause::Mem),
    }
}

/// The columns, of which those of the name are joined.
fn joined_columns(
    alloc: Global,
    which: Counts,
    name: &str,
    columns: Items<ScopeColumn>,
) -> Result<Items<ScopeColumn>, Cause>
    ensures ok { IfOk result (λ cs. cs ≡ map (joined_if (counted which) name.now) columns) }
    ensures mem { OnlyMem result }
{
    let mut columns = columns;
    let mut made = Vec::new(alloc);
    while let Some(column) = columns.pop() {
        push(&mut made, joined_if(which, name, column))?;
    }
    made.reverse();
    Ok(Items::from_vec(made))
}

/// An item whose columns of a name are joined with one on the left. Only memory can fail.
pub fn with_joined(
    alloc: Global,
    which: Counts,
    name: &str,
    item: ScopeItem,
) -> Result<ScopeItem, Cause>
    ensures ok { IfOk result (λ i. i ≡ with_joined (counted which) name.now item) }
    ensures mem { OnlyMem result }
{
    let ScopeItem {
        name: called,
        columns,
        rowid,
        bare,
    } = item;
    let columns = joined_columns(alloc, which, name, columns)?;
    Ok(ScopeItem {
        name: called,
        columns,
        rowid,
        bare,
    })
}

// ---- NATURAL

fn has_joinable(which: Counts, name: &str, item: &ScopeItem) -> bool
    ensures { result ≡ list_any (is_joinable which name.now) item.now.columns }
{
    item.columns
        .as_slice()
        .iter()
        .any(|column| is_joinable(which, name, column))
}

fn has_left(which: Counts, name: &str, left: &[ScopeItem]) -> bool
    ensures { result ≡ list_any (λ (item : ScopeItem). list_any (is_joinable which name.now) item.columns) left.now }
{
    left.iter().any(|item| has_joinable(which, name, item))
}

/// Whether a column of the right is shown on both sides.
fn is_shown_left(left: &[ScopeItem], column: &ScopeColumn) -> bool
    ensures { result ≡ is_shown_left left.now column.now }
{
    !column.hidden && has_left(Counts::ShownOnly, column.name.as_str(), left)
}

fn put_common(
    left: &[ScopeItem],
    column: &ScopeColumn,
    names: &mut Items<Text>,
) -> Result<(), Cause>
    ensures ok { OnOk result (names.new ≡ names.old ++ map (λ (c : ScopeColumn). c.name) (filter (is_shown_left left.now) (column.now ∷ []))) }
    ensures mem { OnlyMem result }
{
    if is_shown_left(left, column) {
        put(names, copied(&column.name)?)
    } else {
        Ok(())
    }
}

/// The names that NATURAL joins by: those of columns that are shown on both sides. Only memory can fail.
pub fn common_names(
    alloc: Global,
    left: &[ScopeItem],
    right: &ScopeItem,
) -> Result<Items<Text>, Cause>
    ensures ok { IfOk result (λ names. names ≡ common_names left.now right.now) }
    ensures mem { OnlyMem result }
{
    let mut names = Items::new(alloc);
    for column in right.columns.as_slice() {
        put_common(left, column, &mut names)?;
    }
    Ok(names)
}
