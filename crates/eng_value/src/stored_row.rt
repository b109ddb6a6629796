// The rows of a table.
ghost use Rattle.std.specs.Prelude.{◌≡◌};

use crate::{Row, Value};
use std::marker::Model;

/// A row of a table under its rowid (Rowid Tables).
#[derive(Drop)]
pub struct StoredRow {
    rowid: i64,
    values: Row,
}

impl Model for StoredRow {
    ghost use Rattle.eng_value.specs.StoredRows.{StoredRow as MeantRow};

    ghost Value = { MeantRow };

    ghost view = { λ r. record { rowid = r.rowid; values = r.values } };
}

impl StoredRow {
    pub fn new(rowid: i64, values: Row) -> StoredRow
        ensures rowid { result.rowid ≡ rowid }
        ensures values { result.values ≡ values }
    {
        StoredRow { rowid, values }
    }

    pub fn rowid(&self) -> i64
        ensures { result ≡ self.now.rowid }
    {
        self.rowid
    }

    pub fn values(&self) -> &[Value]
        ensures { result.now ≡ self.now.values }
    {
        self.values.as_slice()
    }
}
