//! What results, groups, orders and whole queries come to, as far as no expression has to be bound.
//!
//! Each function gives what the definition that its contract names says (specs of the library sql_bound: Results, Cores, Orders,
//! Compounds and Queries); where that takes what only a definition can hold, specs/ here says the same of plain data. Begin with `show`.
#![tactic(auto)]

mod compounds;
mod given;
mod grouping;
mod naming;
mod numbering;
mod orders;
mod rows;
mod stars;
mod terms;
mod units;

pub use compounds::{compound_with, terms_of_compound};
pub use given::{core_given, gathered_alone, key_of, select_given};
pub use grouping::{is_grouped, orders_by_aggregate};
pub use naming::{show, text_of, unknown_text};
pub use numbering::{ShownAt, place_given, shown_at};
pub use orders::{TermPlace, checked_term, result_term, term_place};
pub use rows::{put_row, values_given};
pub use stars::{show_all, show_table};
pub use terms::{TermForm, place_of, term_form};
pub use units::{begun, checked_conjuncts, conjuncts_of, query_unit};
