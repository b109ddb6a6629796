//! What every statement comes to where its names are bound, or the first refusal: a definition, and nothing that runs.
//!
//! `bound_of` (specs/Statements.antt) is the whole, over a catalog and what hosts tell: a flat list of units, each query, use of a
//! view and WITH table once, the triggers that writes open, and the command. What runs is bound by the definitions of the library
//! sql_meaning, of which this is to take the place. Read on in the order of specs/Lib.antt; beside each topic stand worked examples.
#![tactic(auto)]

mod facts;
mod froms;
mod laws;
mod queries;
mod scopes;

pub use facts::{HostAggregate, HostFacts, HostFunction, HostModule, ToldColumns};
pub use froms::{Found, Joining, QueueTable, Sourced};
pub use laws::{
    a_column_comes_before_a_result, a_need_is_brought_once, as_much_is_handed_over_as_is_needed,
    natural_joins_by_the_common_columns, the_case_of_a_name_does_not_count,
    the_nearest_from_decides, trees_come_to_their_parts, using_joins_all_of_the_name,
    what_is_bound_keeps_the_limits,
};
pub use queries::{BoundLimit, BoundSelect, Gathered, Given, Shown};
pub use scopes::{
    Allowed, ArmOperands, Asked, Form, Need, Operand, ResultColumn, ScopeColumn, ScopeItem, Sight,
    Standing, WithEntry, WithMeaning, Work,
};
