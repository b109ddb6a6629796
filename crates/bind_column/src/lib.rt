//! The columns that queries give, what `*` shows, groups, and ORDER BY but for its expressions.
//!
//! Each function is equal to the definition that its contract names (specs of the library sql_bound: Results, Compounds, Froms, Limits,
//! Groups and Orders; where one of them takes what only a definition can hold, specs/ here says the same of what it holds). Begin with `as_columns`.
#![tactic(auto)]

mod groups;
mod orders;
mod results;
mod stars;

pub use groups::grouped_checked;
pub use orders::{at_place, by_result, nulls_first, place_called, place_named, term_with};
pub use results::{
    as_columns, collation_of_result, collations_of, result_column, room_behind, values_columns,
    width_fits, with_names, within_columns,
};
pub use stars::{all_shown, column_operand, shown_of};
