//! What a query is planned by: its conjuncts, how the rows that they ask for are accessed, and the loops over the items of its FROM.
//!
//! `split` takes the conjuncts of a WHERE apart, so that each bound of a BETWEEN is one of its own. An `Access` says which rows of an item
//! are visited: all of them, or those that a search finds by keys (SQLite Query Optimizer Overview, section 2). What it has to keep to
//! is `Fits` (specs/Visits.antt): no row that is left out would have been kept, and a conjunct that is not tested any more is true
//! wherever a row is visited. A `JoinPlan` is a loop for each item, in any order. What it has to keep to is `PlanFits` (specs/Plans.antt): its loops, and
//! the sort behind them, give the rows of the FROM that the conjuncts keep, in their order. `conjuncts_move_in` says which plans do so. Which access and which plan is taken is no part of what a query means.
//! `ignores` tells an expression that comes to the same whatever row an item has (specs/Ignoring.antt). Begin with `Access`, then
//! specs/Visits.antt.
#![tactic(auto)]

mod access;
mod conjuncts;
mod laws;
mod reading;

pub use access::{Access, JoinPlan, Key, Loop, Order, Pairs, Path, Search};
pub use conjuncts::{Conjunct, Form, split};
pub use laws::conjuncts_move_in;
pub use reading::ignores;
