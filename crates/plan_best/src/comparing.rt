// What conjuncts compare with keys.
ghost use Rattle.std.specs.Prelude.{◌≡◌};
ghost use Rattle.bound_tree.specs.Exprs as e;
ghost use Rattle.bound_tree.specs.Seen.{seen};
ghost use Rattle.eng_value.specs.declared.operators.BinaryOperator.TheVariants as binary;
ghost use Rattle.plan_best.specs.Comparing.{MayCompare, MayStand, MayStandTo, is_begun, is_equal_search, is_of_term, is_wanted};
ghost use Rattle.sql_meaning.specs.Searches.{is_collation, same_built};

use crate::sides::{is_given, is_kept_beside, op_round, sides_round, source_of};
use bound_tree::ExprTree;
use eng_index::{KeyTerm, TermSource};
use eng_value::{Affinity, BinaryOperator, Built, Collation, CompareOp, Sides, Value};
use plan_tree::{Conjunct, Form, Key, ignores};

/// A comparison of the rowid or a column of an item with a key.
#[derive(Clone, Copy)]
pub(crate) struct Comparison<'a> {
    /// What the item's side reads.
    pub source: TermSource,
    pub collation: Collation,
    /// How the item's side stands to the key.
    pub op: CompareOp,
    pub key: Key<'a>,
    /// Whether the key is a literal or a parameter that has a value; else it may be bad.
    pub given: bool,
}

/// What a search can take a comparison for.
#[derive(Clone, Copy, PartialEq, Eq)]
pub(crate) enum Wanted {
    Equal,
    Lower,
    Upper,
}

/// How a conjunct compares the rowid or a column of the item with a key, if it does.
pub(crate) fn comparison_of<'a>(
    conjunct: &Conjunct<'a>,
    item: u32,
    params: &[Value],
) -> Option<Comparison<'a>>
    ensures { MayCompare params.now item conjunct.now result }
{
    match conjunct.form() {
        Form::Whole(expression) => tree_comparison(expression.tree(), item, params),
        Form::Comparison(op, sides, a, b) => either_way(*op, *sides, a, b, item, params),
    }
}

fn tree_comparison<'a>(tree: &'a ExprTree, item: u32, params: &[Value]) -> Option<Comparison<'a>>
    ensures { MayCompare params.now item (seen tree.now) result }
{
    match tree {
        ExprTree::Binary(BinaryOperator::Compare(op, sides), a, b) => {
            either_way(*op, *sides, a.get(), b.get(), item, params)
        }
        _ => None,
    }
}

fn either_way<'a>(
    op: CompareOp,
    sides: Sides,
    a: &'a ExprTree,
    b: &'a ExprTree,
    item: u32,
    params: &[Value],
) -> Option<Comparison<'a>>
    ensures { MayCompare params.now item (e.Binary (binary.Compare op sides) (seen a.now) (seen b.now)) result }
{
    match one_way(op, sides, a, b, item, params) {
        Some(comparison) => Some(comparison),
        None => one_way(op_round(op), sides_round(sides), b, a, item, params),
    }
}

/// The comparison where the rowid or the column is the left side.
fn one_way<'a>(
    op: CompareOp,
    sides: Sides,
    a: &'a ExprTree,
    b: &'a ExprTree,
    item: u32,
    params: &[Value],
) -> Option<Comparison<'a>>
    ensures { MayStand params.now item op sides (seen a.now) (seen b.now) result }
{
    match source_of(a, item) {
        Some(source) => with_source(source, op, sides, b, item, params),
        None => None,
    }
}

fn with_source<'a>(
    source: TermSource,
    op: CompareOp,
    sides: Sides,
    key: &'a ExprTree,
    item: u32,
    params: &[Value],
) -> Option<Comparison<'a>>
    ensures { MayStandTo params.now item source op sides (seen key.now) result }
{
    if !ignores(key, item) {
        return None;
    }
    if !is_kept_beside(sides.right, sides.left) {
        return None;
    }
    Some(Comparison {
        source,
        collation: sides.collation,
        op,
        key: Key {
            value: key,
            other: sides.left,
            own: sides.right,
        },
        given: is_given(params, key),
    })
}

impl<'a> Comparison<'a> {
    /// Whether it is the `=` of a search, where its side is what a search can go by.
    pub(crate) fn is_equal_search(&self) -> bool
        ensures { result ≡ is_equal_search self.now }
    {
        matches!(self.op, CompareOp::Eq) && self.given && matches!(self.key.own, Affinity::None)
    }

    /// Whether a term of a key orders rows by what it compares: by the same column under the same collation, or by the rowid.
    pub(crate) fn is_of_term(&self, term: &KeyTerm) -> bool
        ensures { result ≡ is_of_term self.now term.now }
    {
        match (self.source, term.source) {
            (TermSource::Rowid, TermSource::Rowid) => true,
            (TermSource::Column(own), TermSource::Column(other)) => {
                own == other && is_collation(self.collation, term.collation)
            }
            _ => false,
        }
    }

    /// The term of a key that has its column alone, where the column is to be equal to the key.
    pub(crate) fn column_term(&self) -> Option<KeyTerm> {
        match (self.op, self.source, self.collation) {
            (CompareOp::Eq, TermSource::Column(_), Collation::Built(collation)) => Some(KeyTerm {
                source: self.source,
                collation,
                descending: false,
            }),
            _ => None,
        }
    }

    /// Whether the first of these terms is one of those.
    pub(crate) fn begins(&self, terms: &[KeyTerm]) -> bool
        ensures { result ≡ is_begun self.now terms.now }
    {
        match terms.first() {
            Some(term) => self.is_of_term(term),
            None => false,
        }
    }

    /// Whether a search can take it for what it wants.
    pub(crate) fn is_wanted(&self, wanted: Wanted) -> bool
        ensures { result ≡ is_wanted wanted self.now.op }
    {
        match wanted {
            Wanted::Equal => matches!(self.op, CompareOp::Eq),
            Wanted::Lower => matches!(self.op, CompareOp::Gt | CompareOp::Ge),
            Wanted::Upper => matches!(self.op, CompareOp::Lt | CompareOp::Le),
        }
    }
}

/// Whether a comparison under a collation is one under this one that is built in.
fn is_collation(collation: Collation, own: Built) -> bool
    ensures { result ≡ is_collation collation own }
{
    match collation {
        Collation::Built(built) => same_built(built, own),
        Collation::Host(_) => false,
    }
}

fn same_built(a: Built, b: Built) -> bool
    ensures { result ≡ same_built a b }
{
    match (a, b) {
        (Built::Binary, Built::Binary) => true,
        (Built::NoCase, Built::NoCase) => true,
        (Built::Rtrim, Built::Rtrim) => true,
        _ => false,
    }
}
