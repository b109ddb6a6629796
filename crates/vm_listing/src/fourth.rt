// What stands in p4.
ghost use Rattle.std.specs.Prelude.{◌≡◌, ℕ, IfOk};
ghost use Rattle.vm_listing.specs.Pieces.{blob_literal};
ghost use Rattle.eng_value.specs.Shown.{said};
ghost use Rattle.eng_value.specs.declared.value.Value.TheVariants as value;
ghost use Rattle.vm_listing.specs.Listing.{binary_fourth, change_word, line_of, unary_fourth};
ghost use Rattle.vm_listing.specs.Words.{affinities_word, keys_word, sides_word, terms_word};

use crate::literals::blob_literal;
use crate::terms::{keys_word, terms_word};
use crate::words::{affinities_word, affinity_word, function_name, sides_word};
use eng_index::KeyTerm;
use eng_value::{Affinity, BinaryOperator, Cause, Sides, Text, UnaryOperator, Value};
use sqlite_items::Items;
use std::alloc::{AllocError, Global};
use vm_code::{Op, SchemaChange};

fn word(alloc: Global, word: &str) -> Result<Value, AllocError>
    ensures { IfOk result (λ v. v ≡ value.Text word.now) }
{
    Ok(Value::Text(Text::from_str(alloc, word)?))
}

fn unary_fourth(alloc: Global, operator: UnaryOperator) -> Result<Value, AllocError>
    ensures { IfOk result (λ v. v ≡ unary_fourth operator) }
{
    match operator {
        UnaryOperator::Cast(to) => word(alloc, affinity_word(to)),
        _ => Ok(Value::Null),
    }
}

fn of_sides(alloc: Global, sides: Sides) -> Result<Value, AllocError>
    ensures { IfOk result (λ v. v ≡ value.Text (sides_word sides)) }
{
    Ok(Value::Text(sides_word(alloc, sides)?))
}

fn binary_fourth(alloc: Global, operator: BinaryOperator) -> Result<Value, AllocError>
    ensures { IfOk result (λ v. v ≡ binary_fourth operator) }
{
    match operator {
        BinaryOperator::Compare(_, sides) => of_sides(alloc, sides),
        BinaryOperator::Is(sides) => of_sides(alloc, sides),
        _ => Ok(Value::Null),
    }
}

fn change_word(change: SchemaChange) -> &'static str
    ensures { result.now ≡ change_word change }
{
    match change {
        SchemaChange::AddTable => "add table",
        SchemaChange::DropTable { .. } => "drop table",
    }
}

fn of_blob(alloc: Global, blob: &[u8]) -> Result<Value, AllocError>
    ensures { IfOk result (λ v. v ≡ value.Text (blob_literal blob.now)) }
{
    Ok(Value::Text(blob_literal(alloc, blob)?))
}

fn of_cause(alloc: Global, cause: &Cause) -> Result<Value, AllocError>
    ensures { IfOk result (λ v. v ≡ value.Text (said cause.now)) }
{
    Ok(Value::Text(Text::new(cause.to_string(alloc)?)))
}

fn of_affinities(alloc: Global, own: Affinity, other: Affinity) -> Result<Value, AllocError>
    ensures { IfOk result (λ v. v ≡ value.Text (affinities_word own other)) }
{
    Ok(Value::Text(affinities_word(alloc, own, other)?))
}

fn of_terms(alloc: Global, terms: &[KeyTerm]) -> Result<Value, AllocError>
    ensures { IfOk result (λ v. v ≡ value.Text (terms_word terms.now)) }
{
    Ok(Value::Text(terms_word(alloc, terms)?))
}

fn of_keys(alloc: Global, keys: &[Items<KeyTerm>]) -> Result<Value, AllocError>
    ensures { IfOk result (λ v. v ≡ value.Text (keys_word keys.now)) }
{
    Ok(Value::Text(keys_word(alloc, keys)?))
}

/// p4.
pub(crate) fn fourth(alloc: Global, op: &Op) -> Result<Value, AllocError>
    ensures { IfOk result (λ v. (base : ℕ) → v ≡ (line_of base op.now).p4) }
{
    match op {
        Op::String8 { text, .. } => word(alloc, text.as_str()),
        Op::Blob { blob, .. } => of_blob(alloc, blob.as_slice()),
        Op::Bad { cause, .. } => of_cause(alloc, cause),
        Op::Affinity { affinity, .. } => word(alloc, affinity_word(*affinity)),
        Op::Beside { other, own, .. } => of_affinities(alloc, *own, *other),
        Op::Unary { operator, .. } => unary_fourth(alloc, *operator),
        Op::Binary { operator, .. } => binary_fourth(alloc, *operator),
        Op::LikeEscaped { .. } => word(alloc, "like"),
        Op::Function { function, .. } => word(alloc, function_name(*function)),
        Op::Search { terms, .. } => of_terms(alloc, terms.as_slice()),
        Op::SorterSort { terms, .. } => of_terms(alloc, terms.as_slice()),
        Op::NoConflict { keys, .. } => of_keys(alloc, keys.as_slice()),
        Op::NewRowid { table, .. } => word(alloc, table.as_str()),
        Op::BuildIndex { terms, .. } => of_terms(alloc, terms.as_slice()),
        Op::Schema { change } => word(alloc, change_word(*change)),
        _ => Ok(Value::Null),
    }
}
