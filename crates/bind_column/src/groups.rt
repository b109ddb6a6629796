// Columns of a grouped query that stand in no group expression (SELECT, section 2.5).
ghost use Rattle.std.specs.Prelude.{◌≡◌, map, Some};
ghost use Rattle.std.specs.Option.{option_copied};
ghost use Rattle.bound_tree.specs.Exprs.{arms, exprs, matches};
ghost use Rattle.bound_tree.specs.Seen.{seen, seen_arm, seen_match};
ghost use Rattle.sql_bound.specs.Answers.{Answers};
ghost use Rattle.sql_bound.specs.Groups.{◌then◌, bare_column, bare_in_arms, bare_in_list, bare_in_matches, grouped_checked, is_key, name_at_place, name_in_item};

use bind_scope::text_of;
use bound_tree::{ArmTree, BoundExpr, BoundKey, ExprTree, MatchTree, same_tree};
use eng_value::Cause;
use sql_bound::ScopeItem;
use sqlite_items::at;
use std::alloc::Global;

/// Whether a stored tree is that of a group expression.
fn is_key(keys: &[BoundKey], tree: &ExprTree) -> bool
    ensures { result ≡ is_key keys.now (seen tree.now) }
{
    for key in keys {
        if same_tree(key.expr.tree(), tree) {
            return true;
        }
    }
    false
}

/// The name of the column in a place, as it is declared; nothing where there is none.
fn name_at_place(own: &[ScopeItem], item: u32, column: u32) -> &str
    ensures { result.now ≡ name_at_place own.now item column }
{
    match at(own, item as usize) {
        Some(item) => name_in_item(item, column),
        None => "",
    }
}

fn name_in_item(item: &ScopeItem, column: u32) -> &str
    ensures { result.now ≡ name_in_item (Some item.now) column }
{
    match at(item.columns.as_slice(), column as usize) {
        Some(column) => column.name.as_str(),
        None => "",
    }
}

/// The first of two that there is.
fn or_else<'a>(a: Option<&'a str>, b: Option<&'a str>) -> Option<&'a str>
    ensures { option_copied result ≡ (option_copied a.entry) then (option_copied b.entry) }
{
    match a {
        Some(name) => Some(name),
        None => b,
    }
}

/// The first column of a tree that stands in no group expression.
#[cycle(grouping)]
#[tactic(auto, using(crate::proofs::GroupLaws::group_steps))]
fn bare<'a>(keys: &[BoundKey], own: &'a [ScopeItem], tree: &ExprTree) -> Option<&'a str>
    ensures { option_copied result ≡ bare_column keys.now own.now (seen tree.now) }
{
    if is_key(keys, tree) {
        return None;
    }
    match tree {
        ExprTree::Literal(_) => None,
        ExprTree::Parameter(_) => None,
        ExprTree::Column { item, column } => Some(name_at_place(own, *item, *column)),
        ExprTree::Rowid { item: _ } => Some("rowid"),
        ExprTree::Argument(_) => None,
        ExprTree::Aggregate(_) => None,
        ExprTree::Unary(_, a) => bare(keys, own, a.get()),
        ExprTree::Binary(_, a, b) => {
            let first = bare(keys, own, a.get());
            or_else(first, bare(keys, own, b.get()))
        }
        ExprTree::LikeEscaped(a, b, c) => {
            let first = bare(keys, own, a.get());
            let second = bare(keys, own, b.get());
            or_else(first, or_else(second, bare(keys, own, c.get())))
        }
        ExprTree::Between(_, _, a, b, c) => {
            let first = bare(keys, own, a.get());
            let second = bare(keys, own, b.get());
            or_else(first, or_else(second, bare(keys, own, c.get())))
        }
        ExprTree::In(_, a, others) => {
            let first = bare(keys, own, a.get());
            or_else(first, bare_in_list(keys, own, others.as_slice()))
        }
        ExprTree::Choose(those, a) => {
            let first = bare_in_arms(keys, own, those.as_slice());
            or_else(first, bare(keys, own, a.get()))
        }
        ExprTree::Match(a, those, b) => {
            let first = bare(keys, own, a.get());
            let second = bare_in_matches(keys, own, those.as_slice());
            or_else(first, or_else(second, bare(keys, own, b.get())))
        }
        ExprTree::Iif(a, b, c) => {
            let first = bare(keys, own, a.get());
            let second = bare(keys, own, b.get());
            or_else(first, or_else(second, bare(keys, own, c.get())))
        }
        ExprTree::Coalesce(_, args) => bare_in_list(keys, own, args.as_slice()),
        ExprTree::Call(_, _, args) => bare_in_list(keys, own, args.as_slice()),
        ExprTree::HostCall(_, args) => bare_in_list(keys, own, args.as_slice()),
        ExprTree::Scalar(_, handed) => bare_in_list(keys, own, handed.as_slice()),
        ExprTree::Exists(_, handed) => bare_in_list(keys, own, handed.as_slice()),
        ExprTree::InQuery(_, a, _, handed) => {
            let first = bare(keys, own, a.get());
            or_else(first, bare_in_list(keys, own, handed.as_slice()))
        }
        ExprTree::RaiseIgnore => None,
        ExprTree::RaiseAbort(_) => None,
    }
}

#[cycle(grouping)]
fn bare_in_list<'a>(keys: &[BoundKey], own: &'a [ScopeItem], trees: &[ExprTree]) -> Option<&'a str>
    ensures { option_copied result ≡ bare_in_list keys.now own.now (exprs (map seen trees.now)) }
{
    for tree in trees {
        if let Some(name) = bare(keys, own, tree) {
            return Some(name);
        }
    }
    None
}

#[cycle(grouping)]
fn bare_in_arms<'a>(keys: &[BoundKey], own: &'a [ScopeItem], those: &[ArmTree]) -> Option<&'a str>
    ensures { option_copied result ≡ bare_in_arms keys.now own.now (arms (map seen_arm those.now)) }
{
    for arm in those {
        if let Some(name) = bare_in_arm(keys, own, arm) {
            return Some(name);
        }
    }
    None
}

#[cycle(grouping)]
fn bare_in_arm<'a>(keys: &[BoundKey], own: &'a [ScopeItem], arm: &ArmTree) -> Option<&'a str>
    ensures { option_copied result ≡ (bare_column keys.now own.now (seen_arm arm.now).condition) then (bare_column keys.now own.now (seen_arm arm.now).value) }
{
    let first = bare(keys, own, &arm.condition);
    or_else(first, bare(keys, own, &arm.value))
}

#[cycle(grouping)]
fn bare_in_matches<'a>(
    keys: &[BoundKey],
    own: &'a [ScopeItem],
    those: &[MatchTree],
) -> Option<&'a str>
    ensures { option_copied result ≡ bare_in_matches keys.now own.now (matches (map seen_match those.now)) }
{
    for arm in those {
        if let Some(name) = bare_in_match(keys, own, arm) {
            return Some(name);
        }
    }
    None
}

#[cycle(grouping)]
fn bare_in_match<'a>(keys: &[BoundKey], own: &'a [ScopeItem], arm: &MatchTree) -> Option<&'a str>
    ensures { option_copied result ≡ (bare_column keys.now own.now (seen_match arm.now).operand) then (bare_column keys.now own.now (seen_match arm.now).value) }
{
    let first = bare(keys, own, &arm.operand);
    or_else(first, bare(keys, own, &arm.value))
}

/// In a grouped query each column of a tree stands in a group expression, or the first that does not is refused.
pub fn grouped_checked(
    alloc: Global,
    grouped: bool,
    keys: &[BoundKey],
    own: &[ScopeItem],
    tree: &BoundExpr,
) -> Result<(), Cause>
    ensures { Answers (grouped_checked grouped keys.now own.now tree.now) result }
{
    if !grouped {
        return Ok(());
    }
    match bare(keys, own, tree.tree()) {
        None => Ok(()),
        Some(name) => {
            let name = text_of(alloc, name)?;
            Err(Cause::BareColumn(name))
        }
    }
}
