//! The items of a FROM as names see them, and what USING and NATURAL join.
#![tactic(auto)]

mod by_names;
mod constraints;
mod joins;
mod scoped;

pub use by_names::{natural_all, on_left, using_all, using_one};
pub use constraints::{is_made, natural_join, using_join, with_right};
pub use joins::{Counts, common_names, equality_of, one_of, with_joined};
pub use scoped::{columns_from, rowid_in, scope_item, the_rowid};
