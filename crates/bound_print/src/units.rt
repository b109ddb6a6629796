// Units: queries and recursive tables.
use crate::Page;
use crate::exprs::{print_each, print_optional, write_expr, write_exprs};
use crate::items::{print_columns, print_items};
use crate::words::{write_bracketed_collation, write_collations, write_other_collation};
use bound_tree::{
    AggregateKind, BoundAggregate, BoundCompound, BoundCore, BoundExpr, BoundGroups, BoundKey,
    BoundPart, BoundQuery, BoundRecursion, BoundTerm, BoundUnit, TermKey,
};
use eng_value::Text;
use sql_tree::CompoundOp;
use sqlite_items::Items;

/// Prints units from number 0 on.
pub(crate) fn print_units(page: &mut Page, units: &[BoundUnit]) {
    for (number, unit) in units.iter().enumerate() {
        page.begin("u");
        page.write_number(number as u64);
        match unit {
            BoundUnit::Queried(query) => print_query(page, query),
            BoundUnit::Recursed(recursion) => print_recursion(page, recursion),
        }
    }
}

/// What stands in the line of a unit behind its number and kind.
fn end_head(page: &mut Page, within: &Option<Text>, arguments: u32, tables: &[u32]) {
    if let Some(name) = within {
        page.write(" within ");
        page.write(name.as_str());
    }
    if arguments > 0 {
        page.write(" arguments ");
        page.write_place(arguments);
    }
    write_tables(page, tables);
    page.end();
}

fn write_tables(page: &mut Page, tables: &[u32]) {
    if tables.is_empty() {
        return;
    }
    page.write(" tables ");
    for (place, unit) in tables.iter().enumerate() {
        page.separate(place);
        page.write("u");
        page.write_place(*unit);
    }
}

fn print_query(page: &mut Page, query: &BoundQuery) {
    end_head(
        page,
        &query.within,
        query.arguments,
        query.tables.as_slice(),
    );
    page.indent();
    print_part(page, &query.first);
    print_compounds(page, query.others.as_slice());
    print_order(page, query.order.as_slice());
    print_optional(page, "limit ", &query.limit);
    print_optional(page, "offset ", &query.offset);
    print_columns(page, query.columns.as_slice());
    page.outdent();
}

fn print_recursion(page: &mut Page, recursion: &BoundRecursion) {
    page.write(" recursive");
    end_head(
        page,
        &recursion.within,
        recursion.arguments,
        recursion.tables.as_slice(),
    );
    page.indent();
    print_part(page, &recursion.first);
    print_compounds(page, recursion.others.as_slice());
    page.line(if recursion.all {
        "repeat all"
    } else {
        "repeat"
    });
    write_collations(page, recursion.collations.as_slice());
    print_core(page, &recursion.part);
    print_optional(page, "limit ", &recursion.limit);
    print_optional(page, "offset ", &recursion.offset);
    print_columns(page, recursion.columns.as_slice());
    page.outdent();
}

fn print_part(page: &mut Page, part: &BoundPart) {
    match part {
        BoundPart::Select(core) => print_core(page, core),
        BoundPart::Values(rows) => print_rows(page, rows.as_slice()),
    }
}

fn print_rows(page: &mut Page, rows: &[Items<BoundExpr>]) {
    page.begin("values ");
    for (place, row) in rows.iter().enumerate() {
        page.separate(place);
        page.write("(");
        write_exprs(page, row.as_slice());
        page.write(")");
    }
    page.end();
}

fn print_core(page: &mut Page, core: &BoundCore) {
    print_items(page, core.items.as_slice());
    print_each(page, "where ", core.conjuncts.as_slice());
    if let Some(groups) = &core.groups {
        print_groups(page, groups);
    }
    page.begin(if core.distinct {
        "select distinct "
    } else {
        "select "
    });
    write_exprs(page, core.results.as_slice());
    page.end();
    if core.distinct {
        write_collations(page, core.collations.as_slice());
    }
}

fn print_groups(page: &mut Page, groups: &BoundGroups) {
    page.begin("grouped");
    write_keys(page, groups.keys.as_slice());
    page.end();
    for (slot, aggregate) in groups.aggregates.as_slice().iter().enumerate() {
        page.begin("aggregate @");
        page.write_number(slot as u64);
        page.write(" = ");
        write_aggregate(page, aggregate);
        page.end();
    }
    print_each(page, "having ", groups.having.as_slice());
}

fn write_keys(page: &mut Page, keys: &[BoundKey]) {
    for (place, key) in keys.iter().enumerate() {
        page.write(if place > 0 { ", " } else { " " });
        write_expr(page, &key.expr);
        write_other_collation(page, key.collation);
    }
}

fn write_kind(page: &mut Page, kind: &AggregateKind) {
    match kind {
        AggregateKind::CountRows => page.write("count(*)"),
        AggregateKind::Count => page.write("count"),
        AggregateKind::Sum => page.write("sum"),
        AggregateKind::Min => page.write("min"),
        AggregateKind::Max => page.write("max"),
        AggregateKind::GroupConcat => page.write("group_concat"),
        AggregateKind::HostAggregate(name) => {
            page.write("host ");
            page.write(name.as_str());
        }
    }
}

fn write_aggregate(page: &mut Page, aggregate: &BoundAggregate) {
    write_kind(page, &aggregate.kind);
    write_bracketed_collation(page, aggregate.collation);
    if !matches!(&aggregate.kind, AggregateKind::CountRows) {
        page.write("(");
        page.write(if aggregate.distinct { "distinct " } else { "" });
        write_exprs(page, aggregate.arguments.as_slice());
        page.write(")");
    }
    if let Some(filter) = &aggregate.filter {
        page.write(" filter ");
        write_expr(page, filter);
    }
}

fn compound_word(op: CompoundOp) -> &'static str {
    match op {
        CompoundOp::Union => "union",
        CompoundOp::UnionAll => "union all",
        CompoundOp::Intersect => "intersect",
        CompoundOp::Except => "except",
    }
}

fn print_compounds(page: &mut Page, compounds: &[BoundCompound]) {
    for compound in compounds {
        page.line(compound_word(compound.op));
        print_part(page, &compound.part);
        write_collations(page, compound.collations.as_slice());
    }
}

fn print_order(page: &mut Page, terms: &[BoundTerm]) {
    for term in terms {
        page.begin("order ");
        write_term(page, term);
        page.end();
    }
}

fn write_term(page: &mut Page, term: &BoundTerm) {
    match &term.key {
        TermKey::Result(place) => {
            page.write("result ");
            page.write_place(*place);
        }
        TermKey::Expression(e) => write_expr(page, e),
    }
    write_other_collation(page, term.collation);
    match (term.descending, term.nulls_first) {
        (false, true) => {}
        (false, false) => page.write(" nulls last"),
        (true, false) => page.write(" desc"),
        (true, true) => page.write(" desc nulls first"),
    }
}
