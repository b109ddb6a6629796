//! What becomes of a statement where the authorizer ignores that columns are read (Compile-Time Authorization Callbacks).
//!
//! `ignoring` marks at each item of a bound statement the columns that are ignored, and `erased` is an expression as it reads rows that are
//! stored: with NULL in place of what the items of its FROM are marked with, and the rowid in place of the column that is it. From that
//! code is generated. Their contracts are that this is `ignoring` of
//! specs/Marked.antt, and `erased` of specs/Erased.antt. Begin reading there.
#![tactic(auto)]

mod erasing;
mod marking;
mod places;
mod queries;
mod reads;
mod statements;
mod writes;

pub use erasing::{erased, erased_all};
pub use statements::ignoring;
