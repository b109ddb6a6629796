//! Rows as records, the bytes under which tables keep them.
//!
//! A record is a header and the bodies of its values behind it (Database File Format, section 2.1). specs/Spelling.antt gives
//! each row its one spelling, specs/Reading.antt what bytes mean, with the first fault from left to right, and specs/Columns.antt
//! what one column is. `encode` writes the spelling, `decode` reads nothing else, `column` and `lent_column` read one value alone,
//! and the laws that join all of them are in `laws`. Begin with `encode` and `decode`.
#![tactic(auto)]

mod columns;
pub mod laws;
mod reading;
mod record_error;
mod serial_type;
mod varint;
mod writing;

pub use columns::{Lent, column, lent_column};
pub use reading::decode;
pub use record_error::RecordErr;
pub use writing::encode;
