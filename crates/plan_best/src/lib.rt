//! Which access the rows of an item of a FROM are come by.
//!
//! `access` goes by what conjuncts compare with keys (SQLite Query Optimizer Overview, section 2): with values that the item's own rows have
//! no part in; columns of the items around it are keys. It takes the search that seems to find fewest rows: of the rowid, or of the terms of an index, so many that are equal
//! to keys and then a range; and all rows where nothing can be searched. Its contract, `AccessFits` (plan_tree), says what every access has
//! to keep to, and no more: which one is taken is free. Where a conjunct of the first item is a search by `=`, only accesses that go by one
//! come into question, since those alone keep to the bound. `rows_visited` estimates what an access costs. Begin with `access`, then `Draft::extend`.
#![tactic(auto)]

mod choosing;
mod comparing;
mod counts;
mod drafting;
mod estimating;
mod extending;
mod sides;

pub use choosing::access;
pub use counts::Counts;
pub use estimating::rows_visited;
