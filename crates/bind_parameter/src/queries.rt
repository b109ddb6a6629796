// Whether a parameter stands in a query.
ghost use Rattle.std.specs.Prelude.{◌≡◌, map};
ghost use Rattle.std.specs.List.{list_any};
ghost use Rattle.std.specs.Option.{option_map};
ghost use Rattle.sql_bound.specs.Parameters.{expr_has_parameter, query_has_parameter, some};
ghost use Rattle.bind_parameter.specs.Held.{compound_has, constraint_has, core_has, item_has, limit_has, part_has, result_has, source_has, spanned_has, table_has, term_has};

use crate::expressions::{any_has, expr_has, option_has};
use sql_tree::{
    CommonTable, CompoundPart, Expr, FromItem, JoinConstraint, OrderingTerm, Query, QueryPart,
    ResultColumn, RowLimit, SelectCore, Source, SpannedExpr,
};
use sqlite_items::Items;

/// Whether a parameter stands in a query, or in a query inside it.
pub fn query_has_parameter(query: &Query) -> bool
    ensures { result ≡ query_has_parameter query.now }
{
    query_has(query)
}

#[cycle(seeking)]
#[tactic(auto, using(crate::proofs::HeldLaws::query_laws))]
pub(crate) fn query_has(query: &Query) -> bool
    ensures { result ≡ query_has_parameter query.now }
{
    if any_table_has(query.with.as_slice()) {
        return true;
    }
    if part_has(&query.first) {
        return true;
    }
    if any_compound_has(query.others.as_slice()) {
        return true;
    }
    if any_term_has(query.order_by.as_slice()) {
        return true;
    }
    limit_has(&query.limit)
}

#[cycle(seeking)]
#[tactic(auto, using(crate::proofs::HeldLaws::table_laws))]
fn table_has(table: &CommonTable) -> bool
    ensures { result ≡ table_has table.now }
{
    query_has(table.query.get())
}

#[cycle(seeking)]
fn any_table_has(tables: &[CommonTable]) -> bool
    ensures { result ≡ list_any table_has tables.now }
{
    for table in tables {
        if table_has(table) {
            return true;
        }
    }
    false
}

#[cycle(seeking)]
#[tactic(auto, using(crate::proofs::HeldLaws::part_laws))]
fn part_has(part: &QueryPart) -> bool
    ensures { result ≡ part_has part.now }
{
    match part {
        QueryPart::Select(core) => core_has(core),
        QueryPart::Values(rows) => {
            let rows = rows.as_slice();
            for row in rows {
                if any_has(row.as_slice()) {
                    return true;
                }
            }
            false
        }
    }
}

#[cycle(seeking)]
#[tactic(auto, using(crate::proofs::HeldLaws::compound_laws))]
fn compound_has(compound: &CompoundPart) -> bool
    ensures { result ≡ compound_has compound.now }
{
    part_has(&compound.part)
}

#[cycle(seeking)]
fn any_compound_has(compounds: &[CompoundPart]) -> bool
    ensures { result ≡ list_any compound_has compounds.now }
{
    for compound in compounds {
        if compound_has(compound) {
            return true;
        }
    }
    false
}

#[cycle(seeking)]
#[tactic(auto, using(crate::proofs::HeldLaws::core_laws))]
fn core_has(core: &SelectCore) -> bool
    ensures { result ≡ core_has core.now }
{
    if any_result_has(core.results.as_slice()) {
        return true;
    }
    if any_item_has(core.from.as_slice()) {
        return true;
    }
    if option_has(&core.filter) {
        return true;
    }
    if any_spanned_has(core.group_by.as_slice()) {
        return true;
    }
    option_has(&core.having)
}

#[cycle(seeking)]
#[tactic(auto, using(crate::proofs::HeldLaws::result_laws))]
fn result_has(column: &ResultColumn) -> bool
    ensures { result ≡ result_has column.now }
{
    match column {
        ResultColumn::All => false,
        ResultColumn::AllOf(_) => false,
        ResultColumn::Expression(spanned, _) => spanned_has(spanned),
    }
}

#[cycle(seeking)]
fn any_result_has(columns: &[ResultColumn]) -> bool
    ensures { result ≡ list_any result_has columns.now }
{
    for column in columns {
        if result_has(column) {
            return true;
        }
    }
    false
}

#[cycle(seeking)]
#[tactic(auto, using(crate::proofs::HeldLaws::spanned_laws))]
fn spanned_has(spanned: &SpannedExpr) -> bool
    ensures { result ≡ spanned_has spanned.now }
{
    expr_has(&spanned.expr)
}

#[cycle(seeking)]
fn any_spanned_has(keys: &[SpannedExpr]) -> bool
    ensures { result ≡ list_any spanned_has keys.now }
{
    for key in keys {
        if spanned_has(key) {
            return true;
        }
    }
    false
}

#[cycle(seeking)]
#[tactic(auto, using(crate::proofs::HeldLaws::item_laws))]
fn item_has(item: &FromItem) -> bool
    ensures { result ≡ item_has item.now }
{
    source_has(&item.source) || constraint_has(&item.constraint)
}

#[cycle(seeking)]
fn any_item_has(items: &[FromItem]) -> bool
    ensures { result ≡ list_any item_has items.now }
{
    for item in items {
        if item_has(item) {
            return true;
        }
    }
    false
}

#[cycle(seeking)]
#[tactic(auto, using(crate::proofs::HeldLaws::source_laws))]
fn source_has(source: &Source) -> bool
    ensures { result ≡ source_has source.now }
{
    match source {
        Source::Table(_, arguments) => match arguments {
            Some(arguments) => any_has(arguments.as_slice()),
            None => false,
        },
        Source::Derived(query) => query_has(query.get()),
    }
}

#[cycle(seeking)]
#[tactic(auto, using(crate::proofs::HeldLaws::constraint_laws))]
fn constraint_has(constraint: &JoinConstraint) -> bool
    ensures { result ≡ constraint_has constraint.now }
{
    match constraint {
        JoinConstraint::Unconstrained => false,
        JoinConstraint::On(e) => expr_has(e),
        JoinConstraint::Using(_) => false,
    }
}

#[cycle(seeking)]
#[tactic(auto, using(crate::proofs::HeldLaws::term_laws))]
fn term_has(term: &OrderingTerm) -> bool
    ensures { result ≡ term_has term.now }
{
    spanned_has(&term.key)
}

#[cycle(seeking)]
fn any_term_has(terms: &[OrderingTerm]) -> bool
    ensures { result ≡ list_any term_has terms.now }
{
    for term in terms {
        if term_has(term) {
            return true;
        }
    }
    false
}

#[cycle(seeking)]
fn limit_has(limit: &Option<RowLimit>) -> bool
    ensures { result ≡ some (option_map limit_has limit.now) }
{
    match limit {
        Some(limit) => bounds_have(limit),
        None => false,
    }
}

#[cycle(seeking)]
#[tactic(auto, using(crate::proofs::HeldLaws::limit_laws))]
fn bounds_have(limit: &RowLimit) -> bool
    ensures { result ≡ limit_has limit.now }
{
    expr_has(&limit.count) || option_has(&limit.offset)
}
