// Whether two bound expressions, or two units, are the same.
ghost use Rattle.std.specs.Prelude.{◌≡◌, ◌&&◌, map};
ghost use Rattle.std.specs.Str.{bytes_eq};
ghost use Rattle.bound_tree.specs.Exprs.{arms, exprs, matches};
ghost use Rattle.bound_tree.specs.Same.{same_arms, same_binary, same_collation, same_expr, same_list, same_literal, same_matches, same_sides, same_unary};
ghost use Rattle.bound_tree.specs.Seen.{seen, seen_arm, seen_match};

use crate::BoundExpr;
use crate::tree::{ArmTree, ExprTree, MatchTree};
use eng_entry::is_same_name;
use eng_value::{BinaryOperator, Collation, Sides, Text, UnaryOperator};
use sql_words::Literal;

/// Whether two expressions are the same.
pub fn same_expr(a: &BoundExpr, b: &BoundExpr) -> bool
    ensures { result ≡ same_expr a.now b.now }
{
    same_tree(&a.tree, &b.tree)
}

pub(crate) fn same_bytes(a: &[u8], b: &[u8]) -> bool
    ensures { result ≡ bytes_eq a.now b.now }
{
    a == b
}

pub(crate) fn same_collation(a: Collation, b: Collation) -> bool
    ensures { result ≡ same_collation a b }
{
    match (a, b) {
        (Collation::Built(a), Collation::Built(b)) => a == b,
        (Collation::Host(a), Collation::Host(b)) => a == b,
        _ => false,
    }
}

fn same_sides(a: Sides, b: Sides) -> bool
    ensures { result ≡ same_sides a b }
{
    a.left == b.left && a.right == b.right && same_collation(a.collation, b.collation)
}

fn same_unary(a: UnaryOperator, b: UnaryOperator) -> bool
    ensures { result ≡ same_unary a b }
{
    match (a, b) {
        (UnaryOperator::Truth, UnaryOperator::Truth) => true,
        (UnaryOperator::Negative, UnaryOperator::Negative) => true,
        (UnaryOperator::BitNot, UnaryOperator::BitNot) => true,
        (UnaryOperator::Not, UnaryOperator::Not) => true,
        (UnaryOperator::IsNull, UnaryOperator::IsNull) => true,
        (UnaryOperator::NotNull, UnaryOperator::NotNull) => true,
        (UnaryOperator::IsTruth(a), UnaryOperator::IsTruth(b)) => a == b,
        (UnaryOperator::Cast(a), UnaryOperator::Cast(b)) => a == b,
        _ => false,
    }
}

fn same_binary(a: BinaryOperator, b: BinaryOperator) -> bool
    ensures { result ≡ same_binary a b }
{
    match (a, b) {
        (BinaryOperator::Arithmetic(a), BinaryOperator::Arithmetic(b)) => a == b,
        (BinaryOperator::Integers(a), BinaryOperator::Integers(b)) => a == b,
        (BinaryOperator::Concatenate, BinaryOperator::Concatenate) => true,
        (BinaryOperator::And, BinaryOperator::And) => true,
        (BinaryOperator::Or, BinaryOperator::Or) => true,
        (BinaryOperator::Compare(a, s), BinaryOperator::Compare(b, t)) => {
            a == b && same_sides(s, t)
        }
        (BinaryOperator::Is(s), BinaryOperator::Is(t)) => same_sides(s, t),
        (BinaryOperator::Like, BinaryOperator::Like) => true,
        (BinaryOperator::Glob, BinaryOperator::Glob) => true,
        _ => false,
    }
}

fn same_literal(a: &Literal, b: &Literal) -> bool
    ensures { result ≡ same_literal a.now b.now }
{
    match (a, b) {
        (Literal::Value(a), Literal::Value(b)) => a.compare(b).is_eq(),
        (Literal::Bad(a), Literal::Bad(b)) => a.is_same(b),
        _ => false,
    }
}

/// Whether two stored trees are the same.
#[cycle(comparing)]
pub fn same_tree(a: &ExprTree, b: &ExprTree) -> bool
    ensures { result ≡ same_expr (seen a.now) (seen b.now) }
{
    match (a, b) {
        (ExprTree::Literal(a), ExprTree::Literal(b)) => same_literal(a, b),
        (ExprTree::Parameter(m), ExprTree::Parameter(n)) => *m == *n,
        (ExprTree::Column { item: i, column: c }, ExprTree::Column { item: j, column: d }) => *i
            == *j
            && *c == *d,
        (ExprTree::Rowid { item: i }, ExprTree::Rowid { item: j }) => *i == *j,
        (ExprTree::Argument(m), ExprTree::Argument(n)) => *m == *n,
        (ExprTree::Aggregate(m), ExprTree::Aggregate(n)) => *m == *n,
        (ExprTree::Unary(o, a), ExprTree::Unary(p, x)) => {
            same_unary(*o, *p) && same_tree(a.get(), x.get())
        }
        (ExprTree::Binary(o, a, b), ExprTree::Binary(p, x, y)) => {
            same_binary(*o, *p) && same_tree(a.get(), x.get()) && same_tree(b.get(), y.get())
        }
        (ExprTree::LikeEscaped(a, b, c), ExprTree::LikeEscaped(x, y, z)) => {
            same_tree(a.get(), x.get())
                && same_tree(b.get(), y.get())
                && same_tree(c.get(), z.get())
        }
        (ExprTree::Between(s, t, a, b, c), ExprTree::Between(u, v, x, y, z)) => {
            same_sides(*s, *u)
                && same_sides(*t, *v)
                && same_tree(a.get(), x.get())
                && same_tree(b.get(), y.get())
                && same_tree(c.get(), z.get())
        }
        (ExprTree::In(s, a, more), ExprTree::In(t, x, others)) => {
            same_sides(*s, *t)
                && same_tree(a.get(), x.get())
                && same_trees(more.as_slice(), others.as_slice())
        }
        (ExprTree::Choose(arms, a), ExprTree::Choose(others, x)) => {
            same_arms(arms.as_slice(), others.as_slice()) && same_tree(a.get(), x.get())
        }
        (ExprTree::Match(a, arms, b), ExprTree::Match(x, others, y)) => {
            same_tree(a.get(), x.get())
                && same_matches(arms.as_slice(), others.as_slice())
                && same_tree(b.get(), y.get())
        }
        (ExprTree::Iif(a, b, c), ExprTree::Iif(x, y, z)) => {
            same_tree(a.get(), x.get())
                && same_tree(b.get(), y.get())
                && same_tree(c.get(), z.get())
        }
        (ExprTree::Coalesce(f, more), ExprTree::Coalesce(g, others)) => {
            *f == *g && same_trees(more.as_slice(), others.as_slice())
        }
        (ExprTree::Call(f, s, more), ExprTree::Call(g, t, others)) => {
            *f == *g && same_collation(*s, *t) && same_trees(more.as_slice(), others.as_slice())
        }
        (ExprTree::HostCall(f, more), ExprTree::HostCall(g, others)) => {
            is_same_name(f.as_bytes(), g.as_bytes())
                && same_trees(more.as_slice(), others.as_slice())
        }
        (ExprTree::Scalar(m, more), ExprTree::Scalar(n, others)) => {
            *m == *n && same_trees(more.as_slice(), others.as_slice())
        }
        (ExprTree::Exists(m, more), ExprTree::Exists(n, others)) => {
            *m == *n && same_trees(more.as_slice(), others.as_slice())
        }
        (ExprTree::InQuery(s, a, m, more), ExprTree::InQuery(t, x, n, others)) => {
            same_sides(*s, *t)
                && same_tree(a.get(), x.get())
                && *m == *n
                && same_trees(more.as_slice(), others.as_slice())
        }
        (ExprTree::RaiseIgnore, ExprTree::RaiseIgnore) => true,
        (ExprTree::RaiseAbort(a), ExprTree::RaiseAbort(b)) => {
            same_bytes(a.as_bytes(), b.as_bytes())
        }
        _ => false,
    }
}

#[cycle(comparing)]
fn same_trees(a: &[ExprTree], b: &[ExprTree]) -> bool
    ensures { result ≡ same_list (exprs (map seen a.now)) (exprs (map seen b.now)) }
{
    let mut others = b;
    for x in a {
        match others {
            [] => return false,
            [y, rest @ ..] => {
                if !same_tree(x, y) {
                    return false;
                }
                others = rest;
            }
        }
    }
    match others {
        [] => true,
        [_, ..] => false,
    }
}

#[cycle(comparing)]
fn same_arms(a: &[ArmTree], b: &[ArmTree]) -> bool
    ensures { result ≡ same_arms (arms (map seen_arm a.now)) (arms (map seen_arm b.now)) }
{
    let mut others = b;
    for x in a {
        match others {
            [] => return false,
            [y, rest @ ..] => {
                if !same_arm(x, y) {
                    return false;
                }
                others = rest;
            }
        }
    }
    match others {
        [] => true,
        [_, ..] => false,
    }
}

#[cycle(comparing)]
fn same_arm(a: &ArmTree, b: &ArmTree) -> bool
    ensures { result ≡ same_expr (seen_arm a.now).condition (seen_arm b.now).condition && same_expr (seen_arm a.now).value (seen_arm b.now).value }
{
    same_tree(&a.condition, &b.condition) && same_tree(&a.value, &b.value)
}

#[cycle(comparing)]
fn same_matches(a: &[MatchTree], b: &[MatchTree]) -> bool
    ensures { result ≡ same_matches (matches (map seen_match a.now)) (matches (map seen_match b.now)) }
{
    let mut others = b;
    for x in a {
        match others {
            [] => return false,
            [y, rest @ ..] => {
                if !same_match(x, y) {
                    return false;
                }
                others = rest;
            }
        }
    }
    match others {
        [] => true,
        [_, ..] => false,
    }
}

#[cycle(comparing)]
fn same_match(a: &MatchTree, b: &MatchTree) -> bool
    ensures { result ≡ same_sides (seen_match a.now).sides (seen_match b.now).sides && same_expr (seen_match a.now).operand (seen_match b.now).operand && same_expr (seen_match a.now).value (seen_match b.now).value }
{
    same_sides(a.sides, b.sides)
        && same_tree(&a.operand, &b.operand)
        && same_tree(&a.value, &b.value)
}
