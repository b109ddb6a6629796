// The terms of the keys of an index.
ghost use Rattle.std.specs.Prelude.{◌≡◌, IfOk, slice_index_or};
ghost use Rattle.eng_value.specs.declared.value.Value.TheVariants.{Null};
ghost use Rattle.eng_index.specs.Keys.{term_value};
ghost use Rattle.eng_index.specs.Stored.{term_part};

use eng_key::KeyPart;
use eng_value::{Built, StoredRow, Value};
use std::alloc::AllocError;

/// What a term of a key reads of a row: the rowid, or the column of this number.
#[derive(Clone, Copy, PartialEq, Eq)]
pub enum TermSource {
    Rowid,
    Column(u32),
}

/// A term of a key (CREATE INDEX, section 1): what it reads, the collation of its texts, and whether it descends.
#[derive(Clone, Copy, PartialEq, Eq)]
pub struct KeyTerm {
    pub source: TermSource,
    pub collation: Built,
    pub descending: bool,
}

impl KeyTerm {
    /// The part of a key that orders as the term does: NULL comes first, and last where it descends.
    pub(crate) fn part(&self) -> KeyPart
        ensures { result ≡ term_part self.now }
    {
        KeyPart {
            coll: self.collation,
            host: None,
            desc: self.descending,
            nulls_first: !self.descending,
        }
    }

    /// What the term reads of a row: NULL where the row has no such column.
    pub fn value(&self, row: &StoredRow) -> Result<Value, AllocError>
        ensures { IfOk result (λ value. value ≡ term_value self.now row.now) }
    {
        match self.source {
            TermSource::Rowid => Ok(Value::Integer(row.rowid())),
            TermSource::Column(column) => value_at(row.values(), column as usize),
        }
    }
}

/// A copy of the value in a place, NULL past the end.
fn value_at(values: &[Value], place: usize) -> Result<Value, AllocError>
    ensures { IfOk result (λ value. value ≡ slice_index_or values.now place Null) }
{
    match values.get(place) {
        Some(value) => value.clone(),
        None => Ok(Value::Null),
    }
}
