// The items of a FROM, the targets of writes and the rows of triggers.
use crate::Page;
use crate::exprs::{print_each, write_exprs, write_unit_call};
use crate::words::{affinity_word, write_other_collation};
use bound_tree::{BoundColumn, BoundExpr, BoundIndex, BoundItem, BoundSource, IndexPart, JoinKind};
use eng_value::{Affinity, ColumnKind};

/// Prints the items of a FROM.
pub(crate) fn print_items(page: &mut Page, items: &[BoundItem]) {
    for item in items {
        match item.join {
            JoinKind::Inner => print_item(page, "from ", item),
            JoinKind::Left => print_item(page, "left ", item),
        }
    }
}

/// Prints an item behind a word.
pub(crate) fn print_item(page: &mut Page, word: &str, item: &BoundItem) {
    page.begin(word);
    page.write(item.shown.as_str());
    page.write(" = ");
    write_source(page, &item.source);
    page.write(" (");
    write_columns(page, item.columns.as_slice());
    page.write(")");
    if let Some(place) = item.rowid {
        page.write(" rowid ");
        page.write_place(place);
    }
    page.end();
    page.indent();
    print_below(page, item);
    page.outdent();
}

/// What stands below the line of an item.
fn print_below(page: &mut Page, item: &BoundItem) {
    print_kinds(page, item.kinds.as_slice());
    print_indexes(page, item.indexes.as_slice());
    let word = if item.ons_made { "on made " } else { "on " };
    print_each(page, word, item.ons.as_slice());
    print_ignored(page, item.ignored.as_slice());
}

fn write_source(page: &mut Page, source: &BoundSource) {
    match source {
        BoundSource::Given => page.write("given"),
        BoundSource::Table(name, number) => {
            page.write("table ");
            page.write(name.as_str());
            page.write(" ");
            page.write_number(*number);
        }
        BoundSource::Module(name, module, number, arguments) => {
            page.write("module ");
            page.write(name.as_str());
            page.write(" ");
            page.write(module.as_str());
            page.write(" ");
            page.write_number(*number);
            write_bracketed(page, arguments.as_slice());
        }
        BoundSource::View(name, unit) => {
            page.write("view ");
            page.write(name.as_str());
            page.write(" u");
            page.write_place(*unit);
        }
        BoundSource::Query(unit, handed) => {
            page.write("query ");
            write_unit_call(page, *unit, handed.as_slice());
        }
        BoundSource::With(unit, handed) => {
            page.write("with ");
            write_unit_call(page, *unit, handed.as_slice());
        }
        BoundSource::Recursive(unit, handed) => {
            page.write("recursive ");
            write_unit_call(page, *unit, handed.as_slice());
        }
        BoundSource::Queue => page.write("queue"),
    }
}

/// The arguments of a module's table.
fn write_bracketed(page: &mut Page, arguments: &[BoundExpr]) {
    page.write("[");
    write_exprs(page, arguments);
    page.write("]");
}

/// Writes columns with what stands between them.
pub(crate) fn write_columns(page: &mut Page, columns: &[BoundColumn]) {
    for (place, column) in columns.iter().enumerate() {
        page.separate(place);
        write_column(page, column);
    }
}

fn write_column(page: &mut Page, column: &BoundColumn) {
    page.write(column.name.as_str());
    if column.affinity != Affinity::None {
        page.write(" ");
        page.write(affinity_word(column.affinity));
    }
    write_other_collation(page, column.collation);
}

/// Prints the line of the columns that a unit or a write gives.
pub(crate) fn print_columns(page: &mut Page, columns: &[BoundColumn]) {
    page.begin("columns ");
    write_columns(page, columns);
    page.end();
}

fn kind_word(kind: ColumnKind) -> &'static str {
    match kind {
        ColumnKind::Shown => "shown",
        ColumnKind::Optional => "optional",
        ColumnKind::Required => "required",
    }
}

fn print_kinds(page: &mut Page, kinds: &[ColumnKind]) {
    if kinds.is_empty() {
        return;
    }
    page.begin("kinds ");
    for (place, kind) in kinds.iter().enumerate() {
        page.separate(place);
        page.write(kind_word(*kind));
    }
    page.end();
}

fn print_indexes(page: &mut Page, indexes: &[BoundIndex]) {
    for index in indexes {
        page.begin("index ");
        page.write_number(index.number);
        page.write(" ");
        page.write(index.name.as_str());
        if index.unique {
            page.write(" unique");
        }
        write_parts(page, index.parts.as_slice());
        page.end();
    }
}

/// Writes the parts of an index in brackets.
pub(crate) fn write_parts(page: &mut Page, parts: &[IndexPart]) {
    page.write(" (");
    for (place, part) in parts.iter().enumerate() {
        page.separate(place);
        write_part(page, *part);
    }
    page.write(")");
}

fn write_part(page: &mut Page, part: IndexPart) {
    page.write_place(part.column);
    write_other_collation(page, part.collation);
    if part.descending {
        page.write(" desc");
    }
}

fn print_ignored(page: &mut Page, ignored: &[Option<u32>]) {
    if ignored.is_empty() {
        return;
    }
    page.begin("ignored ");
    for (place, column) in ignored.iter().enumerate() {
        page.separate(place);
        match column {
            Some(column) => page.write_place(*column),
            None => page.write("rowid"),
        }
    }
    page.end();
}
