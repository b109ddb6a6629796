//! Hosts for tests and examples.
//!
//! `TableAuthorizer` answers by a table of verdicts, and tells them: it is honest. `UntoldAuthorizer` tells nothing, and answers
//! otherwise each time. Begin with specs/Tables.antt, which says what a table means.
#![tactic(auto)]

mod tables;
mod untold;

pub use tables::{TableAuthorizer, VerdictRow};
pub use untold::UntoldAuthorizer;
