// Words for operators, functions, affinities and collations.
ghost use Rattle.std.specs.Prelude.{◌≡◌, IfOk, pos};
ghost use Rattle.vm_listing.specs.Words.{affinities_word, affinity_word, arithmetic_name, arithmetic_sign, binary_name, binary_sign, bounds_word, collation_mark, collation_word, compare_number, compare_sign, comparison, function_name, integer_name, integer_sign, lower_word, order_mark, sides_word, unary_name, unary_sign, upper_word};

use crate::pieces::{numbered, text_of};
use eng_index::{Bounds, Edge};
use eng_value::{
    Affinity, ArithmeticOp, BinaryOperator, Built, Builtin, Collation, CompareOp, IntegerOp, Sides,
    Text, UnaryOperator,
};
use itoa::Buffer;
use std::alloc::{AllocError, Global};

/// The opcode of an operator with one operand.
pub(crate) fn unary_name(operator: UnaryOperator) -> &'static str
    ensures { result.now ≡ unary_name operator }
{
    match operator {
        UnaryOperator::Truth => "Truth",
        UnaryOperator::Negative => "Negative",
        UnaryOperator::BitNot => "BitNot",
        UnaryOperator::Not => "Not",
        UnaryOperator::IsNull => "TestNull",
        UnaryOperator::NotNull => "TestNotNull",
        UnaryOperator::IsTruth(_) => "IsTruth",
        UnaryOperator::Cast(_) => "Cast",
    }
}

/// What stands in front of its operand.
pub(crate) fn unary_sign(operator: UnaryOperator) -> &'static str
    ensures { result.now ≡ unary_sign operator }
{
    match operator {
        UnaryOperator::Truth => "truth of ",
        UnaryOperator::Negative => "-",
        UnaryOperator::BitNot => "~",
        UnaryOperator::Not => "not ",
        UnaryOperator::IsNull => "is NULL ",
        UnaryOperator::NotNull => "is not NULL ",
        UnaryOperator::IsTruth(true) => "is true ",
        UnaryOperator::IsTruth(false) => "is false ",
        UnaryOperator::Cast(_) => "cast ",
    }
}

fn arithmetic_name(operator: ArithmeticOp) -> &'static str
    ensures { result.now ≡ arithmetic_name operator }
{
    match operator {
        ArithmeticOp::Add => "Add",
        ArithmeticOp::Subtract => "Subtract",
        ArithmeticOp::Multiply => "Multiply",
        ArithmeticOp::Divide => "Divide",
    }
}

fn arithmetic_sign(operator: ArithmeticOp) -> &'static str
    ensures { result.now ≡ arithmetic_sign operator }
{
    match operator {
        ArithmeticOp::Add => "+",
        ArithmeticOp::Subtract => "-",
        ArithmeticOp::Multiply => "*",
        ArithmeticOp::Divide => "/",
    }
}

fn integer_name(operator: IntegerOp) -> &'static str
    ensures { result.now ≡ integer_name operator }
{
    match operator {
        IntegerOp::Remainder => "Remainder",
        IntegerOp::And => "BitAnd",
        IntegerOp::Or => "BitOr",
        IntegerOp::ShiftLeft => "ShiftLeft",
        IntegerOp::ShiftRight => "ShiftRight",
    }
}

fn integer_sign(operator: IntegerOp) -> &'static str
    ensures { result.now ≡ integer_sign operator }
{
    match operator {
        IntegerOp::Remainder => "%",
        IntegerOp::And => "&",
        IntegerOp::Or => "|",
        IntegerOp::ShiftLeft => "<<",
        IntegerOp::ShiftRight => ">>",
    }
}

/// The opcode of an operator with two operands.
pub(crate) fn binary_name(operator: BinaryOperator) -> &'static str
    ensures { result.now ≡ binary_name operator }
{
    match operator {
        BinaryOperator::Arithmetic(operator) => arithmetic_name(operator),
        BinaryOperator::Integers(operator) => integer_name(operator),
        BinaryOperator::Concatenate => "Concat",
        BinaryOperator::And => "And",
        BinaryOperator::Or => "Or",
        BinaryOperator::Compare(_, _) => "Compare",
        BinaryOperator::Is(_) => "Compare",
        BinaryOperator::Like => "Compare",
        BinaryOperator::Glob => "Compare",
    }
}

fn compare_sign(operator: CompareOp) -> &'static str
    ensures { result.now ≡ compare_sign operator }
{
    match operator {
        CompareOp::Eq => "=",
        CompareOp::Lt => "<",
        CompareOp::Le => "<=",
        CompareOp::Gt => ">",
        CompareOp::Ge => ">=",
    }
}

/// What stands between its operands.
pub(crate) fn binary_sign(operator: BinaryOperator) -> &'static str
    ensures { result.now ≡ binary_sign operator }
{
    match operator {
        BinaryOperator::Arithmetic(operator) => arithmetic_sign(operator),
        BinaryOperator::Integers(operator) => integer_sign(operator),
        BinaryOperator::Concatenate => "||",
        BinaryOperator::And => " and ",
        BinaryOperator::Or => " or ",
        BinaryOperator::Compare(operator, _) => compare_sign(operator),
        BinaryOperator::Is(_) => " is ",
        BinaryOperator::Like => " like ",
        BinaryOperator::Glob => " glob ",
    }
}

fn compare_number(operator: CompareOp) -> i64
    ensures { result ≡ pos (compare_number operator) }
{
    match operator {
        CompareOp::Eq => 1,
        CompareOp::Lt => 2,
        CompareOp::Le => 3,
        CompareOp::Gt => 4,
        CompareOp::Ge => 5,
    }
}

/// The number of a comparison, 0 for another operator.
pub(crate) fn comparison(operator: BinaryOperator) -> i64
    ensures { result ≡ pos (comparison operator) }
{
    match operator {
        BinaryOperator::Compare(operator, _) => compare_number(operator),
        BinaryOperator::Is(_) => 6,
        BinaryOperator::Like => 7,
        BinaryOperator::Glob => 8,
        _ => 0,
    }
}

/// The name of a function.
pub(crate) fn function_name(function: Builtin) -> &'static str
    ensures { result.now ≡ function_name function }
{
    match function {
        Builtin::Abs => "abs",
        Builtin::Char => "char",
        Builtin::Coalesce => "coalesce",
        Builtin::IfNull => "ifnull",
        Builtin::Iif => "iif",
        Builtin::Hex => "hex",
        Builtin::Instr => "instr",
        Builtin::Length => "length",
        Builtin::Lower => "lower",
        Builtin::Upper => "upper",
        Builtin::Trim => "trim",
        Builtin::TrimLeft => "ltrim",
        Builtin::TrimRight => "rtrim",
        Builtin::Max => "max",
        Builtin::Min => "min",
        Builtin::NullIf => "nullif",
        Builtin::Quote => "quote",
        Builtin::Replace => "replace",
        Builtin::Substr => "substr",
        Builtin::TypeOf => "typeof",
        Builtin::Unicode => "unicode",
        Builtin::ZeroBlob => "zeroblob",
    }
}

pub(crate) fn affinity_word(affinity: Affinity) -> &'static str
    ensures { result.now ≡ affinity_word affinity }
{
    match affinity {
        Affinity::Integer => "INTEGER",
        Affinity::Numeric => "NUMERIC",
        Affinity::Real => "REAL",
        Affinity::Text => "TEXT",
        Affinity::Blob => "BLOB",
        Affinity::None => "NONE",
    }
}

/// Two affinities.
pub(crate) fn affinities_word(alloc: Global, a: Affinity, b: Affinity) -> Result<Text, AllocError>
    ensures { IfOk result (λ text. text ≡ affinities_word a b) }
{
    text_of(alloc, &[affinity_word(a), " ", affinity_word(b)])
}

/// The collation of a term.
pub(crate) fn collation_mark(collation: Built) -> &'static str
    ensures { result.now ≡ collation_mark collation }
{
    match collation {
        Built::Binary => "",
        Built::NoCase => " NOCASE",
        Built::Rtrim => " RTRIM",
    }
}

fn collation_word(alloc: Global, collation: Collation) -> Result<Text, AllocError>
    ensures { IfOk result (λ text. text ≡ collation_word collation) }
{
    match collation {
        Collation::Built(Built::Binary) => Text::from_str(alloc, "BINARY"),
        Collation::Built(Built::NoCase) => Text::from_str(alloc, "NOCASE"),
        Collation::Built(Built::Rtrim) => Text::from_str(alloc, "RTRIM"),
        Collation::Host(place) => numbered(alloc, "host ", place),
    }
}

/// The collation of a comparison and the affinities of its sides.
pub(crate) fn sides_word(alloc: Global, sides: Sides) -> Result<Text, AllocError>
    ensures { IfOk result (λ text. text ≡ sides_word sides) }
{
    let collation = collation_word(alloc, sides.collation)?;
    text_of(
        alloc,
        &[
            collation.as_str(),
            " ",
            affinity_word(sides.left),
            " ",
            affinity_word(sides.right),
        ],
    )
}

/// The order of a term.
pub(crate) fn order_mark(descending: bool) -> &'static str
    ensures { result.now ≡ order_mark descending }
{
    if descending { " DESC" } else { "" }
}

/// The lower limit of a search.
fn lower_word(limit: Option<Edge>) -> &'static str
    ensures { result.now ≡ lower_word limit }
{
    match limit {
        None => "",
        Some(Edge::Included) => " >=",
        Some(Edge::Excluded) => " >",
    }
}

/// The upper limit of a search.
fn upper_word(limit: Option<Edge>) -> &'static str
    ensures { result.now ≡ upper_word limit }
{
    match limit {
        None => "",
        Some(Edge::Included) => " <=",
        Some(Edge::Excluded) => " <",
    }
}

/// What a search looks for: how many terms are equal to a key, and the limits of the next one.
pub(crate) fn bounds_word(alloc: Global, bounds: Bounds) -> Result<Text, AllocError>
    ensures { IfOk result (λ text. text ≡ bounds_word bounds) }
{
    text_of(
        alloc,
        &[
            Buffer::new().format(bounds.equal),
            " equal",
            lower_word(bounds.lower),
            upper_word(bounds.upper),
        ],
    )
}
