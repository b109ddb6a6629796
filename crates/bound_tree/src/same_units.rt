// Whether two units are the same.
ghost use Rattle.std.specs.Prelude.{◌≡◌, nat_eq, Bool};
ghost use Rattle.std.specs.Str.{bytes_eq};
ghost use denote.Enum.Bare.{sameb};
ghost use Rattle.eng_value.specs.contracts.modules.ColumnKind as column_kind;
ghost use Rattle.bound_tree.specs.Same.{all_same, both_same, same_collation, same_expr, same_exprs};
ghost use Rattle.bound_tree.specs.SameUnits.{same_aggregate, same_column, same_compound, same_core, same_groups, same_index, same_item, same_join, same_key, same_kind, same_part, same_part_of_index, same_query, same_recursion, same_source, same_term, same_term_key, same_unit, same_within};

use crate::same::{same_bytes, same_collation, same_expr};
use crate::{
    AggregateKind, BoundAggregate, BoundColumn, BoundCompound, BoundCore, BoundExpr, BoundGroups,
    BoundIndex, BoundItem, BoundKey, BoundPart, BoundQuery, BoundRecursion, BoundSource, BoundTerm,
    BoundUnit, IndexPart, JoinKind, TermKey,
};
use eng_entry::is_same_name;
use eng_value::{Collation, ColumnKind, Text};
use sqlite_items::Items;

/// Things of which it can be told whether two are the same.
pub trait Same {
    ghost same: { Self → Self → Bool };

    fn is_same(&self, other: &Self) -> bool
        ensures { result ≡ same self.now other.now };
}

/// Whether two lists are the same.
pub fn all_same<T: Same>(a: &[T], b: &[T]) -> bool
    ensures { result ≡ all_same T.same a.now b.now }
{
    let mut others = b;
    for x in a {
        match others {
            [] => return false,
            [y, rest @ ..] => {
                if !x.is_same(y) {
                    return false;
                }
                others = rest;
            }
        }
    }
    match others {
        [] => true,
        [_, ..] => false,
    }
}

/// Whether there is neither, or both are there and the same.
fn both_same<T: Same>(a: &Option<T>, b: &Option<T>) -> bool
    ensures { result ≡ both_same T.same a.now b.now }
{
    match (a, b) {
        (None, None) => true,
        (Some(a), Some(b)) => a.is_same(b),
        _ => false,
    }
}

impl Same for u32 {
    ghost same = { nat_eq };

    fn is_same(&self, other: &u32) -> bool {
        *self == *other
    }
}

impl Same for Collation {
    ghost same = { same_collation };

    fn is_same(&self, other: &Collation) -> bool {
        same_collation(*self, *other)
    }
}

impl Same for ColumnKind {
    ghost same = { sameb column_kind.the_type };

    fn is_same(&self, other: &ColumnKind) -> bool {
        *self == *other
    }
}

impl Same for Text {
    ghost same = { bytes_eq };

    fn is_same(&self, other: &Text) -> bool {
        same_bytes(self.as_bytes(), other.as_bytes())
    }
}

impl Same for BoundExpr {
    ghost same = { same_expr };

    fn is_same(&self, other: &BoundExpr) -> bool {
        same_expr(self, other)
    }
}

impl Same for Items<BoundExpr> {
    ghost same = { same_exprs };

    fn is_same(&self, other: &Items<BoundExpr>) -> bool {
        all_same(self.as_slice(), other.as_slice())
    }
}

impl Same for BoundColumn {
    ghost same = { same_column };

    fn is_same(&self, other: &BoundColumn) -> bool {
        is_same_name(self.name.as_bytes(), other.name.as_bytes())
            && self.affinity == other.affinity
            && same_collation(self.collation, other.collation)
    }
}

impl Same for IndexPart {
    ghost same = { same_part_of_index };

    fn is_same(&self, other: &IndexPart) -> bool {
        self.column == other.column
            && same_collation(self.collation, other.collation)
            && self.descending == other.descending
    }
}

impl Same for BoundIndex {
    ghost same = { same_index };

    fn is_same(&self, other: &BoundIndex) -> bool {
        self.number == other.number
            && self.name.is_same(&other.name)
            && self.unique == other.unique
            && all_same(self.parts.as_slice(), other.parts.as_slice())
    }
}

fn same_source(a: &BoundSource, b: &BoundSource) -> bool
    ensures { result ≡ same_source a.now b.now }
{
    match (a, b) {
        (BoundSource::Given, BoundSource::Given) => true,
        (BoundSource::Table(a, m), BoundSource::Table(b, n)) => a.is_same(b) && *m == *n,
        (BoundSource::Module(a, h, m, xs), BoundSource::Module(b, i, n, ys)) => {
            is_same_name(a.as_bytes(), b.as_bytes())
                && is_same_name(h.as_bytes(), i.as_bytes())
                && *m == *n
                && xs.is_same(ys)
        }
        (BoundSource::View(a, m), BoundSource::View(b, n)) => a.is_same(b) && *m == *n,
        (BoundSource::Query(m, xs), BoundSource::Query(n, ys)) => *m == *n && xs.is_same(ys),
        (BoundSource::With(m, xs), BoundSource::With(n, ys)) => *m == *n && xs.is_same(ys),
        (BoundSource::Recursive(m, xs), BoundSource::Recursive(n, ys)) => {
            *m == *n && xs.is_same(ys)
        }
        (BoundSource::Queue, BoundSource::Queue) => true,
        _ => false,
    }
}

fn same_join(a: JoinKind, b: JoinKind) -> bool
    ensures { result ≡ same_join a b }
{
    match (a, b) {
        (JoinKind::Inner, JoinKind::Inner) => true,
        (JoinKind::Left, JoinKind::Left) => true,
        _ => false,
    }
}

impl Same for BoundItem {
    ghost same = { same_item };

    fn is_same(&self, other: &BoundItem) -> bool {
        same_join(self.join, other.join)
            && self.ons.is_same(&other.ons)
            && self.ons_made == other.ons_made
            && is_same_name(self.shown.as_bytes(), other.shown.as_bytes())
            && same_source(&self.source, &other.source)
            && all_same(self.columns.as_slice(), other.columns.as_slice())
            && all_same(self.kinds.as_slice(), other.kinds.as_slice())
            && both_same(&self.rowid, &other.rowid)
            && all_same(self.indexes.as_slice(), other.indexes.as_slice())
    }
}

fn same_kind(a: &AggregateKind, b: &AggregateKind) -> bool
    ensures { result ≡ same_kind a.now b.now }
{
    match (a, b) {
        (AggregateKind::CountRows, AggregateKind::CountRows) => true,
        (AggregateKind::Count, AggregateKind::Count) => true,
        (AggregateKind::Sum, AggregateKind::Sum) => true,
        (AggregateKind::Min, AggregateKind::Min) => true,
        (AggregateKind::Max, AggregateKind::Max) => true,
        (AggregateKind::GroupConcat, AggregateKind::GroupConcat) => true,
        (AggregateKind::HostAggregate(a), AggregateKind::HostAggregate(b)) => {
            is_same_name(a.as_bytes(), b.as_bytes())
        }
        _ => false,
    }
}

impl Same for BoundAggregate {
    ghost same = { same_aggregate };

    fn is_same(&self, other: &BoundAggregate) -> bool {
        same_kind(&self.kind, &other.kind)
            && self.distinct == other.distinct
            && same_collation(self.collation, other.collation)
            && self.arguments.is_same(&other.arguments)
            && both_same(&self.filter, &other.filter)
    }
}

impl Same for BoundKey {
    ghost same = { same_key };

    fn is_same(&self, other: &BoundKey) -> bool {
        same_expr(&self.expr, &other.expr) && same_collation(self.collation, other.collation)
    }
}

impl Same for BoundGroups {
    ghost same = { same_groups };

    fn is_same(&self, other: &BoundGroups) -> bool {
        all_same(self.keys.as_slice(), other.keys.as_slice())
            && all_same(self.aggregates.as_slice(), other.aggregates.as_slice())
            && self.having.is_same(&other.having)
    }
}

fn same_core(a: &BoundCore, b: &BoundCore) -> bool
    ensures { result ≡ same_core a.now b.now }
{
    all_same(a.items.as_slice(), b.items.as_slice())
        && a.conjuncts.is_same(&b.conjuncts)
        && both_same(&a.groups, &b.groups)
        && a.results.is_same(&b.results)
        && all_same(a.collations.as_slice(), b.collations.as_slice())
        && a.distinct == b.distinct
}

fn same_part(a: &BoundPart, b: &BoundPart) -> bool
    ensures { result ≡ same_part a.now b.now }
{
    match (a, b) {
        (BoundPart::Select(a), BoundPart::Select(b)) => same_core(a, b),
        (BoundPart::Values(a), BoundPart::Values(b)) => all_same(a.as_slice(), b.as_slice()),
        _ => false,
    }
}

impl Same for BoundCompound {
    ghost same = { same_compound };

    fn is_same(&self, other: &BoundCompound) -> bool {
        self.op == other.op
            && same_part(&self.part, &other.part)
            && all_same(self.collations.as_slice(), other.collations.as_slice())
    }
}

fn same_term_key(a: &TermKey, b: &TermKey) -> bool
    ensures { result ≡ same_term_key a.now b.now }
{
    match (a, b) {
        (TermKey::Result(m), TermKey::Result(n)) => *m == *n,
        (TermKey::Expression(a), TermKey::Expression(b)) => same_expr(a, b),
        _ => false,
    }
}

impl Same for BoundTerm {
    ghost same = { same_term };

    fn is_same(&self, other: &BoundTerm) -> bool {
        same_term_key(&self.key, &other.key)
            && same_collation(self.collation, other.collation)
            && self.descending == other.descending
            && self.nulls_first == other.nulls_first
    }
}

fn same_query(a: &BoundQuery, b: &BoundQuery) -> bool
    ensures { result ≡ same_query a.now b.now }
{
    both_same(&a.within, &b.within)
        && a.arguments == b.arguments
        && all_same(a.tables.as_slice(), b.tables.as_slice())
        && same_part(&a.first, &b.first)
        && all_same(a.others.as_slice(), b.others.as_slice())
        && all_same(a.order.as_slice(), b.order.as_slice())
        && both_same(&a.limit, &b.limit)
        && both_same(&a.offset, &b.offset)
        && all_same(a.columns.as_slice(), b.columns.as_slice())
}

fn same_recursion(a: &BoundRecursion, b: &BoundRecursion) -> bool
    ensures { result ≡ same_recursion a.now b.now }
{
    both_same(&a.within, &b.within)
        && a.arguments == b.arguments
        && all_same(a.tables.as_slice(), b.tables.as_slice())
        && same_part(&a.first, &b.first)
        && all_same(a.others.as_slice(), b.others.as_slice())
        && a.all == b.all
        && same_core(&a.part, &b.part)
        && all_same(a.collations.as_slice(), b.collations.as_slice())
        && both_same(&a.limit, &b.limit)
        && both_same(&a.offset, &b.offset)
        && all_same(a.columns.as_slice(), b.columns.as_slice())
}

/// Whether two units are the same.
pub fn same_unit(a: &BoundUnit, b: &BoundUnit) -> bool
    ensures { result ≡ same_unit a.now b.now }
{
    match (a, b) {
        (BoundUnit::Queried(a), BoundUnit::Queried(b)) => same_query(a, b),
        (BoundUnit::Recursed(a), BoundUnit::Recursed(b)) => same_recursion(a, b),
        _ => false,
    }
}
