//! What of a statement may run: the authorizer is asked for each of its actions before anything runs (Compile-Time Authorization Callbacks).
//!
//! `bind` gives what `plain_bound` of sql_meaning's specs/Statement.antt gives, by what the authorizer says, and by what it tells where
//! it tells its verdicts. Where there is no authorizer it is the `bind` of bind_stmt. Begin with `bind`, then specs/Said.antt.
#![tactic(auto)]

mod asking;
mod binding;

pub use binding::bind;
