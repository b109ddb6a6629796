// Words for affinities, collations, functions and operators, and literals.
use crate::Page;
use eng_value::{
    Affinity, ArithmeticOp, BinaryOperator, Built, Builtin, Collation, CompareOp, IntegerOp, Sides,
    Value,
};
use itoa::Buffer;
use sql_words::Literal;

pub(crate) fn affinity_word(affinity: Affinity) -> &'static str {
    match affinity {
        Affinity::Integer => "integer",
        Affinity::Numeric => "numeric",
        Affinity::Real => "real",
        Affinity::Text => "text",
        Affinity::Blob => "blob",
        Affinity::None => "none",
    }
}

/// Whether it is BINARY.
pub(crate) fn is_binary(collation: Collation) -> bool {
    matches!(collation, Collation::Built(Built::Binary))
}

/// Writes a collation's name, of one of a host its place.
pub(crate) fn write_collation(page: &mut Page, collation: Collation) {
    match collation {
        Collation::Built(Built::Binary) => page.write("binary"),
        Collation::Built(Built::NoCase) => page.write("nocase"),
        Collation::Built(Built::Rtrim) => page.write("rtrim"),
        Collation::Host(place) => {
            page.write("host");
            page.write_place(place);
        }
    }
}

/// Writes a collation behind a word, unless it is BINARY.
pub(crate) fn write_other_collation(page: &mut Page, collation: Collation) {
    if !is_binary(collation) {
        page.write(" ");
        write_collation(page, collation);
    }
}

/// Writes a collation in brackets, unless it is BINARY.
pub(crate) fn write_bracketed_collation(page: &mut Page, collation: Collation) {
    if !is_binary(collation) {
        page.write("[");
        write_collation(page, collation);
        page.write("]");
    }
}

/// Writes the collations of columns, all of them, where one is not BINARY.
pub(crate) fn write_collations(page: &mut Page, collations: &[Collation]) {
    if collations.iter().all(|collation| is_binary(*collation)) {
        return;
    }
    page.begin("by ");
    for (place, collation) in collations.iter().enumerate() {
        page.separate(place);
        write_collation(page, *collation);
    }
    page.end();
}

/// Whether there is neither an affinity nor another collation than BINARY.
pub(crate) fn are_plain(sides: Sides) -> bool {
    sides.left == Affinity::None && sides.right == Affinity::None && is_binary(sides.collation)
}

/// Writes how two sides are compared.
pub(crate) fn write_sides(page: &mut Page, sides: Sides) {
    page.write("[");
    page.write(affinity_word(sides.left));
    page.write(",");
    page.write(affinity_word(sides.right));
    if !is_binary(sides.collation) {
        page.write(",");
        write_collation(page, sides.collation);
    }
    page.write("]");
}

/// Writes how two sides are compared, unless that is the default.
pub(crate) fn write_other_sides(page: &mut Page, sides: Sides) {
    if !are_plain(sides) {
        write_sides(page, sides);
    }
}

pub(crate) fn builtin_word(builtin: Builtin) -> &'static str {
    match builtin {
        Builtin::Abs => "abs",
        Builtin::Char => "char",
        Builtin::Coalesce => "coalesce",
        Builtin::IfNull => "ifnull",
        Builtin::Iif => "iif",
        Builtin::Hex => "hex",
        Builtin::Instr => "instr",
        Builtin::Length => "length",
        Builtin::Lower => "lower",
        Builtin::Upper => "upper",
        Builtin::Trim => "trim",
        Builtin::TrimLeft => "ltrim",
        Builtin::TrimRight => "rtrim",
        Builtin::Max => "max",
        Builtin::Min => "min",
        Builtin::NullIf => "nullif",
        Builtin::Quote => "quote",
        Builtin::Replace => "replace",
        Builtin::Substr => "substr",
        Builtin::TypeOf => "typeof",
        Builtin::Unicode => "unicode",
        Builtin::ZeroBlob => "zeroblob",
    }
}

fn arithmetic_word(op: ArithmeticOp) -> &'static str {
    match op {
        ArithmeticOp::Add => "add",
        ArithmeticOp::Subtract => "sub",
        ArithmeticOp::Multiply => "mul",
        ArithmeticOp::Divide => "div",
    }
}

fn integers_word(op: IntegerOp) -> &'static str {
    match op {
        IntegerOp::Remainder => "rem",
        IntegerOp::And => "bitand",
        IntegerOp::Or => "bitor",
        IntegerOp::ShiftLeft => "shl",
        IntegerOp::ShiftRight => "shr",
    }
}

fn compare_word(op: CompareOp) -> &'static str {
    match op {
        CompareOp::Eq => "eq",
        CompareOp::Lt => "lt",
        CompareOp::Le => "le",
        CompareOp::Gt => "gt",
        CompareOp::Ge => "ge",
    }
}

/// Writes an operator, and of a comparison its sides.
pub(crate) fn write_binary_operator(page: &mut Page, op: BinaryOperator) {
    match op {
        BinaryOperator::Arithmetic(op) => page.write(arithmetic_word(op)),
        BinaryOperator::Integers(op) => page.write(integers_word(op)),
        BinaryOperator::Concatenate => page.write("concat"),
        BinaryOperator::And => page.write("and"),
        BinaryOperator::Or => page.write("or"),
        BinaryOperator::Compare(op, sides) => {
            page.write(compare_word(op));
            write_other_sides(page, sides);
        }
        BinaryOperator::Is(sides) => {
            page.write("is");
            write_other_sides(page, sides);
        }
        BinaryOperator::Like => page.write("like"),
        BinaryOperator::Glob => page.write("glob"),
    }
}

/// Writes what a literal stands for.
pub(crate) fn write_literal(page: &mut Page, literal: &Literal) {
    match literal {
        Literal::Value(value) => write_value(page, value),
        Literal::Bad(cause) => {
            page.write("bad(");
            page.write_cause(cause);
            page.write(")");
        }
    }
}

fn write_value(page: &mut Page, value: &Value) {
    match value {
        Value::Null => page.write("NULL"),
        Value::Integer(number) => page.write(Buffer::new().format(*number)),
        Value::Text(text) => write_quoted(page, text.as_bytes()),
        Value::Blob(blob) => write_blob(page, blob.as_slice()),
    }
}

/// Writes a text between quotes, with each quote in it twice.
pub(crate) fn write_quoted(page: &mut Page, text: &[u8]) {
    page.write("'");
    for byte in text {
        if *byte == b'\'' {
            page.write("'");
        }
        page.write_bytes(&[*byte]);
    }
    page.write("'");
}

fn write_blob(page: &mut Page, bytes: &[u8]) {
    page.write("X'");
    for byte in bytes {
        page.write_bytes(&[digit(*byte / 16), digit(*byte % 16)]);
    }
    page.write("'");
}

/// The hexadecimal digit of a number below 16.
fn digit(number: u8) -> u8 {
    match number {
        0..=9 => b'0' + number,
        10..=15 => b'A' + (number - 10),
        _ => b'?',
    }
}
