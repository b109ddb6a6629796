// Which expressions read nothing of an item's row.
ghost use Rattle.std.specs.Prelude.{◌≡◌, ◌&&◌, map};
ghost use Rattle.bound_tree.specs.Exprs.{arms, exprs, matches};
ghost use Rattle.bound_tree.specs.Seen.{seen, seen_arm, seen_match};
ghost use Rattle.plan_tree.specs.Ignoring.{all_ignore, arms_ignore, ignores, matches_ignore};

use bound_tree::{ArmTree, ExprTree, MatchTree};

/// Whether an expression reads nothing of the row of the item in a place: no column of it, nor its rowid. Of what does not run yet nothing is
/// known.
#[cycle(reading)]
pub fn ignores(tree: &ExprTree, item: u32) -> bool
    ensures { result ≡ ignores item (seen tree.now) }
{
    match tree {
        ExprTree::Literal(_) | ExprTree::Parameter(_) => true,
        ExprTree::Column {
            item: other,
            column: _,
        } => *other != item,
        ExprTree::Rowid { item: other } => *other != item,
        ExprTree::Unary(_, a) => ignores(a.get(), item),
        ExprTree::Binary(_, a, b) => ignores(a.get(), item) && ignores(b.get(), item),
        ExprTree::LikeEscaped(a, b, c) => {
            ignores(a.get(), item) && ignores(b.get(), item) && ignores(c.get(), item)
        }
        ExprTree::Between(_, _, a, low, high) => {
            ignores(a.get(), item) && ignores(low.get(), item) && ignores(high.get(), item)
        }
        ExprTree::In(_, a, others) => {
            ignores(a.get(), item) && all_ignore(others.as_slice(), item)
        }
        ExprTree::Choose(arms, otherwise) => {
            arms_ignore(arms.as_slice(), item) && ignores(otherwise.get(), item)
        }
        ExprTree::Match(a, arms, otherwise) => {
            ignores(a.get(), item)
                && matches_ignore(arms.as_slice(), item)
                && ignores(otherwise.get(), item)
        }
        ExprTree::Iif(a, b, c) => {
            ignores(a.get(), item) && ignores(b.get(), item) && ignores(c.get(), item)
        }
        ExprTree::Coalesce(_, args) => all_ignore(args.as_slice(), item),
        ExprTree::Call(_, _, args) => all_ignore(args.as_slice(), item),
        _ => false,
    }
}

#[cycle(reading)]
fn all_ignore(trees: &[ExprTree], item: u32) -> bool
    ensures { result ≡ all_ignore item (exprs (map seen trees.now)) }
{
    for tree in trees {
        if !ignores(tree, item) {
            return false;
        }
    }
    true
}

#[cycle(reading)]
fn arms_ignore(those: &[ArmTree], item: u32) -> bool
    ensures { result ≡ arms_ignore item (arms (map seen_arm those.now)) }
{
    for arm in those {
        if !arm_ignores(arm, item) {
            return false;
        }
    }
    true
}

#[cycle(reading)]
fn arm_ignores(arm: &ArmTree, item: u32) -> bool
    ensures { result ≡ (ignores item (seen_arm arm.now).condition && ignores item (seen_arm arm.now).value) }
{
    ignores(&arm.condition, item) && ignores(&arm.value, item)
}

#[cycle(reading)]
fn matches_ignore(those: &[MatchTree], item: u32) -> bool
    ensures { result ≡ matches_ignore item (matches (map seen_match those.now)) }
{
    for arm in those {
        if !match_ignores(arm, item) {
            return false;
        }
    }
    true
}

#[cycle(reading)]
fn match_ignores(arm: &MatchTree, item: u32) -> bool
    ensures { result ≡ (ignores item (seen_match arm.now).operand && ignores item (seen_match arm.now).value) }
{
    ignores(&arm.operand, item) && ignores(&arm.value, item)
}
