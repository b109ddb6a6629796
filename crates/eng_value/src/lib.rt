//! Values of SQL, the plain types that hold them, and the causes of refusals.
//!
//! Contracts see each plain type as a list: a text and a blob as their bytes, a row as its values, rows as their
//! rows. So `≡` between two of them compares what they hold, and never a capacity or a pointer. Begin with `Value`;
//! `Cause` says why a statement is refused, `Steps` counts what a run costs, `Meanings` names what hosts mean, and
//! `OperandText` is how operators and functions read a text.
#![tactic(auto)]

mod affinity;
mod arrangements;
mod asking;
mod authorizing;
mod blob;
mod built;
mod builtin;
mod casts;
mod cause;
mod cause_key;
mod causes;
mod collation;
mod collations;
mod compare_op;
mod display;
mod laws;
mod limits;
mod making;
mod meanings;
mod modules;
mod operand_text;
mod operators;
mod out;
mod row;
mod steps;
mod stored_row;
mod text;
mod truth;
mod value;

pub use affinity::Affinity;
pub use arrangements::{arranging_is_stable, shuffled_lists_hold_the_same, stable_sorts_arrange};
pub use asking::{Answer, Query, Reply};
pub use authorizing::{Action, ActionKind, Verdict};
pub use blob::Blob;
pub use built::Built;
pub use builtin::Builtin;
pub use casts::{apply, cast, changed_beside, store_as, to_blob, to_integer, to_number, to_text};
pub use cause::{Cause, ConstraintKind, LimitKind, NameKind};
pub use causes::Causes;
pub use collation::Collation;
pub use collations::{compare, compare_under};
pub use compare_op::CompareOp;
pub use laws::{
    back_is_trimmed, collations_are_orders, front_is_trimmed, last_case_counts, quote_reads_back,
    rows_read_as_they_are, substr_is_a_part,
};
pub use limits::{DEFAULT_BUDGET, MAX_COLUMNS, MAX_ROWID, MAX_SCRIPT_BYTES, MAX_VALUE_BYTES};
pub use meanings::Meanings;
pub use modules::{Change, ColumnKind, ModColumn, RowOp};
pub use operand_text::{BothTexts, OperandText, Spelling};
pub use operators::{ArithmeticOp, BinaryOperator, IntegerOp, Sides, UnaryOperator};
pub use out::Out;
pub use row::{Row, Rows};
pub use steps::Steps;
pub use stored_row::StoredRow;
pub use text::Text;
pub use truth::Truth;
pub use value::Value;
