// Expressions.
use crate::Page;
use crate::words::{
    affinity_word, are_plain, builtin_word, write_binary_operator, write_bracketed_collation,
    write_literal, write_other_sides, write_quoted, write_sides,
};
use bound_tree::{ArmTree, BoundExpr, ExprTree, MatchTree};
use eng_value::{Sides, UnaryOperator};
use sqlite_items::Boxed;

/// Writes an expression.
pub(crate) fn write_expr(page: &mut Page, e: &BoundExpr) {
    write_tree(page, e.tree());
}

/// Writes expressions with what stands between them.
pub(crate) fn write_exprs(page: &mut Page, es: &[BoundExpr]) {
    for (place, e) in es.iter().enumerate() {
        page.separate(place);
        write_expr(page, e);
    }
}

/// Writes a unit with what is handed over to it.
pub(crate) fn write_unit_call(page: &mut Page, unit: u32, handed: &[BoundExpr]) {
    page.write("u");
    page.write_place(unit);
    page.write("(");
    write_exprs(page, handed);
    page.write(")");
}

/// Writes a line of one expression.
pub(crate) fn print_expr(page: &mut Page, word: &str, e: &BoundExpr) {
    page.begin(word);
    write_expr(page, e);
    page.end();
}

/// Writes a line for each expression.
pub(crate) fn print_each(page: &mut Page, word: &str, es: &[BoundExpr]) {
    for e in es {
        print_expr(page, word, e);
    }
}

/// Writes a line of an expression, where there is one.
pub(crate) fn print_optional(page: &mut Page, word: &str, e: &Option<BoundExpr>) {
    if let Some(e) = e {
        print_expr(page, word, e);
    }
}

/// Writes a line of all expressions, where there are some.
pub(crate) fn print_all(page: &mut Page, word: &str, es: &[BoundExpr]) {
    if es.is_empty() {
        return;
    }
    page.begin(word);
    write_exprs(page, es);
    page.end();
}

#[cycle(printing)]
fn write_tree(page: &mut Page, e: &ExprTree) {
    match e {
        ExprTree::Literal(literal) => write_literal(page, literal),
        ExprTree::Parameter(number) => write_numbered(page, "?", *number),
        ExprTree::Column { item, column } => write_column(page, *item, *column),
        ExprTree::Rowid { item } => {
            write_numbered(page, "#", *item);
            page.write(".rowid");
        }
        ExprTree::Argument(place) => write_numbered(page, "$", *place),
        ExprTree::Aggregate(slot) => write_numbered(page, "@", *slot),
        ExprTree::Unary(op, a) => {
            begin_unary(page, *op);
            write_tree(page, a.get());
            page.write(")");
        }
        ExprTree::Binary(op, a, b) => {
            write_binary_operator(page, *op);
            write_next(page, "(", a);
            write_next(page, ", ", b);
            page.write(")");
        }
        ExprTree::LikeEscaped(a, b, c) => {
            write_next(page, "like(", a);
            write_next(page, ", ", b);
            write_next(page, ", ", c);
            page.write(")");
        }
        ExprTree::Between(above, below, a, low, high) => {
            begin_between(page, *above, *below);
            write_next(page, "(", a);
            write_next(page, ", ", low);
            write_next(page, ", ", high);
            page.write(")");
        }
        ExprTree::In(sides, a, others) => {
            begin_in(page, *sides);
            write_next(page, "(", a);
            page.write(";");
            write_behind(page, others.as_slice());
        }
        ExprTree::Choose(arms, last) => {
            page.write("case(");
            write_arms(page, arms.as_slice());
            write_next(page, "", last);
            page.write(")");
        }
        ExprTree::Match(a, arms, last) => {
            write_next(page, "match(", a);
            page.write(", ");
            write_matches(page, arms.as_slice());
            write_next(page, "", last);
            page.write(")");
        }
        ExprTree::Iif(a, b, c) => {
            write_next(page, "iif(", a);
            write_next(page, ", ", b);
            write_next(page, ", ", c);
            page.write(")");
        }
        ExprTree::Coalesce(function, args) => {
            page.write(builtin_word(*function));
            write_arguments(page, args.as_slice());
        }
        ExprTree::Call(function, collation, args) => {
            page.write("call ");
            page.write(builtin_word(*function));
            write_bracketed_collation(page, *collation);
            write_arguments(page, args.as_slice());
        }
        ExprTree::HostCall(name, args) => {
            page.write("host ");
            page.write(name.as_str());
            write_arguments(page, args.as_slice());
        }
        ExprTree::Scalar(unit, handed) => {
            write_numbered(page, "scalar u", *unit);
            write_arguments(page, handed.as_slice());
        }
        ExprTree::Exists(unit, handed) => {
            write_numbered(page, "exists u", *unit);
            write_arguments(page, handed.as_slice());
        }
        ExprTree::InQuery(sides, a, unit, handed) => {
            begin_in(page, *sides);
            write_next(page, "(", a);
            write_numbered(page, "; u", *unit);
            write_arguments(page, handed.as_slice());
            page.write(")");
        }
        ExprTree::RaiseIgnore => page.write("raise(ignore)"),
        ExprTree::RaiseAbort(text) => {
            page.write("raise(abort, ");
            write_quoted(page, text.as_bytes());
            page.write(")");
        }
    }
}

/// What stands in front of an expression, and the expression.
#[cycle(printing)]
fn write_next(page: &mut Page, front: &str, e: &Boxed<ExprTree>) {
    page.write(front);
    write_tree(page, e.get());
}

/// Expressions in brackets.
#[cycle(printing)]
fn write_arguments(page: &mut Page, args: &[ExprTree]) {
    page.write("(");
    for (place, e) in args.iter().enumerate() {
        page.separate(place);
        write_tree(page, e);
    }
    page.write(")");
}

/// Expressions behind a `;`, and the closing bracket.
#[cycle(printing)]
fn write_behind(page: &mut Page, others: &[ExprTree]) {
    for (place, e) in others.iter().enumerate() {
        page.write(if place > 0 { ", " } else { " " });
        write_tree(page, e);
    }
    page.write(")");
}

#[cycle(printing)]
fn write_arms(page: &mut Page, arms: &[ArmTree]) {
    for arm in arms {
        write_tree(page, &arm.condition);
        page.write(" -> ");
        write_tree(page, &arm.value);
        page.write(", ");
    }
}

#[cycle(printing)]
fn write_matches(page: &mut Page, arms: &[MatchTree]) {
    for arm in arms {
        write_other_sides(page, arm.sides);
        write_tree(page, &arm.operand);
        page.write(" -> ");
        write_tree(page, &arm.value);
        page.write(", ");
    }
}

fn write_numbered(page: &mut Page, word: &str, number: u32) {
    page.write(word);
    page.write_place(number);
}

fn write_column(page: &mut Page, item: u32, column: u32) {
    write_numbered(page, "#", item);
    write_numbered(page, ".", column);
}

/// An operator and the opening bracket.
fn begin_unary(page: &mut Page, op: UnaryOperator) {
    match op {
        UnaryOperator::Truth => page.write("truth("),
        UnaryOperator::Negative => page.write("neg("),
        UnaryOperator::BitNot => page.write("bitnot("),
        UnaryOperator::Not => page.write("not("),
        UnaryOperator::IsNull => page.write("isnull("),
        UnaryOperator::NotNull => page.write("notnull("),
        UnaryOperator::IsTruth(true) => page.write("istrue("),
        UnaryOperator::IsTruth(false) => page.write("isfalse("),
        UnaryOperator::Cast(affinity) => {
            page.write("cast(");
            page.write(affinity_word(affinity));
            page.write(", ");
        }
    }
}

/// BETWEEN, with both sides where one is not the default.
fn begin_between(page: &mut Page, above: Sides, below: Sides) {
    page.write("between");
    if !are_plain(above) || !are_plain(below) {
        write_sides(page, above);
        write_sides(page, below);
    }
}

fn begin_in(page: &mut Page, sides: Sides) {
    page.write("in");
    write_other_sides(page, sides);
}
