// What the sides of a comparison read.
ghost use Rattle.std.specs.Prelude.{◌≡◌, slice_index_or};
ghost use Rattle.bound_tree.specs.Seen.{seen};
ghost use Rattle.eng_value.specs.Operators.{length_of, made};
ghost use Rattle.eng_value.specs.declared.value.Value.TheVariants.{Null};
ghost use Rattle.plan_best.specs.Sides.{is_kept_beside, op_round, sides_round, source_at, source_of};
ghost use Rattle.sql_meaning.specs.Expression.{parameter_of};
ghost use Rattle.sql_meaning.specs.Searches.{is_given, is_good};

use bound_tree::ExprTree;
use eng_index::TermSource;
use eng_value::{Affinity, CompareOp, MAX_VALUE_BYTES, Sides, Value};
use sql_words::Literal;

/// The rowid or the column of the item that an expression is, if it is one.
pub(crate) fn source_of(tree: &ExprTree, item: u32) -> Option<TermSource>
    ensures { result ≡ source_of item (seen tree.now) }
{
    match tree {
        ExprTree::Rowid { item: own } => source_at(item, *own, TermSource::Rowid),
        ExprTree::Column { item: own, column } => {
            source_at(item, *own, TermSource::Column(*column))
        }
        _ => None,
    }
}

fn source_at(item: u32, own: u32, source: TermSource) -> Option<TermSource>
    ensures { result ≡ source_at item own source }
{
    if own == item { Some(source) } else { None }
}

/// Whether it is a literal or a parameter that has a value.
pub(crate) fn is_given(params: &[Value], tree: &ExprTree) -> bool
    ensures { result ≡ is_given params.now (seen tree.now) }
{
    match tree {
        ExprTree::Literal(Literal::Value(_)) => true,
        ExprTree::Parameter(number) => is_good_parameter(params, *number),
        _ => false,
    }
}

/// Whether each value of one side is compared as it is, by its own affinity and that of the other side (Datatypes In SQLite, section 4.2).
pub(crate) fn is_kept_beside(other: Affinity, own: Affinity) -> bool
    ensures { result ≡ is_kept_beside other own }
{
    match other {
        Affinity::Integer | Affinity::Numeric => {
            matches!(own, Affinity::Integer | Affinity::Numeric)
        }
        Affinity::Text => !matches!(own, Affinity::None),
        Affinity::Real | Affinity::Blob | Affinity::None => true,
    }
}

/// The comparison with its sides the other way round.
pub(crate) fn op_round(op: CompareOp) -> CompareOp
    ensures { result ≡ op_round op }
{
    match op {
        CompareOp::Eq => CompareOp::Eq,
        CompareOp::Lt => CompareOp::Gt,
        CompareOp::Le => CompareOp::Ge,
        CompareOp::Gt => CompareOp::Lt,
        CompareOp::Ge => CompareOp::Le,
    }
}

pub(crate) fn sides_round(sides: Sides) -> Sides
    ensures { result ≡ sides_round sides }
{
    Sides {
        left: sides.right,
        right: sides.left,
        collation: sides.collation,
    }
}

/// Whether the parameter of a number, from 1 on, has a value: one that is missing is NULL, and one that is longer than `MAX_VALUE_BYTES`
/// has none.
fn is_good_parameter(params: &[Value], number: u32) -> bool
    ensures { result ≡ is_good (parameter_of params.now number) }
{
    match number.checked_sub(1) {
        None => true,
        Some(behind) => is_good_behind(params, behind as usize),
    }
}

fn is_good_behind(params: &[Value], behind: usize) -> bool
    ensures { result ≡ is_good (made (slice_index_or params.now behind Null)) }
{
    match params.get(behind) {
        None => true,
        Some(value) => is_within_limit(value),
    }
}

fn is_within_limit(value: &Value) -> bool
    ensures { result ≡ is_good (made value.now) }
{
    byte_length(value) <= MAX_VALUE_BYTES
}

fn byte_length(value: &Value) -> usize
    ensures { result ≡ length_of value.now }
{
    match value {
        Value::Null => 0,
        Value::Integer(_) => 0,
        Value::Text(text) => text.as_bytes().len(),
        Value::Blob(blob) => blob.as_slice().len(),
    }
}
