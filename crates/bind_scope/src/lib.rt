//! What names are looked up in, and what is gathered on the way: the parts of binding that bind no expression and no query.
//!
//! Each function is equal to the definition that its contract names (specs of the library sql_bound: Scopes, Columns, Groups, Queries,
//! Withs, Compounds, Limits, Orders and Results). A refusal is either that definition's or want of memory. Begin with `nearest_bare`.
#![tactic(auto)]

mod copies;
mod names;
mod needs;
mod places;
mod sights;
mod units;

pub use copies::{
    copied_column, copied_entries, copied_entry, copied_item, copied_level, copied_need,
    copied_needs, copied_result_column, copied_result_columns, copied_text, text_of,
};
pub use names::{further_out, name_shown, nearest_bare, nearest_called, no_column, own_bare};
pub use needs::{brought, further, handed, needed, seen};
pub use places::{pushed, small};
pub use sights::{is_called, is_rowid_name};
pub use units::{asked_as, is_recursion, itself_entry, table_entry, with_named, with_unit};
