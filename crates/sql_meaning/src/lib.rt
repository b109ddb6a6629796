//! What statements and scripts mean, over lists of rows: the definitions in specs/, and the plain types that they
//! speak of.
//!
//! Nothing here runs. A statement's meaning is an `Outcome` (specs/Statement.antt), a script's meaning is the list of
//! the outcomes of its statements, from which its lines and its status follow (specs/Script.antt). Above the definitions
//! stand laws in the subject's own words (src/laws.rt, src/states.rt). Begin with specs/World.antt and read on in the order of specs/Lib.antt.
#![tactic(auto)]

mod bound;
mod column;
mod laws;
mod script;
mod states;

pub use bound::{BoundInsert, BoundSelect, FromTable, Join, PutColumn, RowidFrom};
pub use column::{Column, TableEntry};
pub use laws::{
    a_refusal_keeps_the_state, a_search_counts_the_rows_that_meet_it, each_refusal_has_a_cause,
    enough_budget_leaves_the_meaning, parts_stay, scripts_are_put_together,
    scripts_keep_their_outcomes, statuses_tell_of_failures, without_hosts_all_is_told,
};
pub use script::{Ending, Failure, Options};
pub use states::{
    a_false_conjunct_rejects, a_rowid_is_drawn_where_none_is_given,
    a_table_is_full_at_the_largest_rowid, constraints_are_spelled_out, statements_do_what_they_say,
    states_stay_valid, tests_change_nothing,
};
