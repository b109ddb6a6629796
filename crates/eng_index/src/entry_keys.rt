// The keys of entries.
ghost use Rattle.std.specs.Prelude.{◌≡◌, IfOk, OnOk};
ghost use Rattle.std.specs.List.{list_any};
ghost use Rattle.eng_index.specs.Stored.{IsSoundEntry, entry_key, entry_values, is_null, mark_of, null_mark, parts_of, rowid_part};

use crate::KeyTerm;
use eng_key::{KeyPart, key};
use eng_tree::Bytes;
use eng_value::{Built, StoredRow, Value};
use std::alloc::{AllocError, Global};
use std::marker::Model;

/// What makes the keys of an index's entries: its terms, and the parts of the keys, which are those of the terms and one of the rowid.
/// Contracts see the terms.
#[derive(Drop)]
pub(crate) struct EntryKeys {
    terms: Vec<KeyTerm>,
    parts: Vec<KeyPart>,
}

impl Model for EntryKeys {
    ghost use Rattle.std.specs.Prelude.{◌≡◌, List};
    ghost use Rattle.eng_index.specs.declared.key_term.KeyTerm.{KeyTerm as MeantTerm};
    ghost use Rattle.eng_index.specs.Stored.{parts_of};

    ghost Value = { List MeantTerm };

    ghost view = { λ k. k.terms.items };

    ghost invariant = { λ k. k.parts.items ≡ parts_of k.terms.items };
}

impl EntryKeys {
    pub fn new(alloc: Global, terms: Vec<KeyTerm>) -> Result<EntryKeys, AllocError>
        ensures { IfOk result (λ keys. keys ≡ terms.items) }
    {
        let parts = parts_of(alloc, &terms)?;
        Ok(EntryKeys { terms, parts })
    }

    pub fn terms(&self) -> &[KeyTerm]
        ensures { result.now ≡ self.now }
    {
        &self.terms
    }

    /// The parts of the keys.
    pub fn parts(&self) -> &[KeyPart]
        ensures { result.now ≡ parts_of self.now }
    {
        &self.parts
    }

    /// The key of a row's entry.
    pub fn key(&self, row: &StoredRow) -> Result<Bytes, AllocError>
        ensures key { IfOk result (λ key. key ≡ entry_key self.now row.now) }
        ensures sound { OnOk result (IsSoundEntry self.now row.now) }
    {
        let alloc = *self.terms.allocator();
        let values = entry_values(alloc, &self.terms, row)?;
        let key = key(alloc, &values, &self.parts)?;
        Ok(Bytes::new(key.into_vec()))
    }

    /// The entry of a row: its key, and the mark of a NULL.
    pub fn entry(&self, row: &StoredRow) -> Result<(Bytes, Bytes), AllocError>
        ensures key { IfOk result (λ entry. entry.0 ≡ entry_key self.now row.now) }
        ensures mark { IfOk result (λ entry. entry.1 ≡ null_mark (entry_values self.now row.now)) }
        ensures sound { OnOk result (IsSoundEntry self.now row.now) }
    {
        let alloc = *self.terms.allocator();
        let values = entry_values(alloc, &self.terms, row)?;
        let key = key(alloc, &values, &self.parts)?;
        let mark = mark_of(alloc, has_null(&values))?;
        Ok((Bytes::new(key.into_vec()), mark))
    }
}

/// The parts of the terms, and one of the rowid.
fn parts_of(alloc: Global, terms: &[KeyTerm]) -> Result<Vec<KeyPart>, AllocError>
    ensures { IfOk result (λ parts. parts.items ≡ parts_of terms.now) }
{
    let mut parts = Vec::new(alloc);
    for term in terms {
        parts.push(term.part())?;
    }
    parts.push(rowid_part())?;
    Ok(parts)
}

fn rowid_part() -> KeyPart
    ensures { result ≡ rowid_part }
{
    KeyPart {
        coll: Built::Binary,
        host: None,
        desc: false,
        nulls_first: true,
    }
}

/// What the terms read of a row, and its rowid.
fn entry_values(alloc: Global, terms: &[KeyTerm], row: &StoredRow) -> Result<Vec<Value>, AllocError>
    ensures { IfOk result (λ values. values.items ≡ entry_values terms.now row.now) }
{
    let mut values = Vec::new(alloc);
    for term in terms {
        values.push(term.value(row)?)?;
    }
    values.push(Value::Integer(row.rowid()))?;
    Ok(values)
}

/// Whether one of them is NULL.
pub(crate) fn has_null(values: &[Value]) -> bool
    ensures { result ≡ list_any is_null values.now }
{
    values.iter().any(is_null)
}

pub(crate) fn is_null(value: &Value) -> bool
    ensures { result ≡ is_null value.now }
{
    matches!(value, Value::Null)
}

fn mark_of(alloc: Global, is_null: bool) -> Result<Bytes, AllocError>
    ensures { IfOk result (λ mark. mark ≡ mark_of is_null) }
{
    if is_null {
        Bytes::from_slice(alloc, &[0])
    } else {
        Ok(Bytes::new(Vec::new(alloc)))
    }
}
