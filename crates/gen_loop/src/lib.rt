//! The bytecode of nested loops.
//!
//! `emit` writes the loops of a plan (plan_tree's `JoinPlan`) around a body, which is written once and runs once for each row that the plan
//! gives, in their order. Its contract, `Does`, says so by `from_effect`: the body's effect at each row of plan_tree's `planned`, one after
//! the other. The body is handed in as a `LoopBody`, so that queries and writes have the same loops. The code goes in layers, each with one
//! contract: conjuncts (`Sifts`), what comes onto the first row of a path (`Comes`), a loop over what is left of the plan (`Nests`), and the
//! cursors, which are opened in front of all loops and closed behind them. The cursor of an item has the number of its place, so that
//! expressions read the item's row by it, and NULLs where it is on no row: that is what a LEFT JOIN leaves where a row stays alone.
//! Where the loops stand in another order than the items of the FROM, they put each row into a sorter, as the rowids of its items and its
//! causes, and the body runs in a walk over the sorter (`Walks`), with each item's cursor back on its row.
//! What loops need of cursors says specs/Needs.antt. `emit` opens its own, so it needs nothing of those in front of it, and it leaves what
//! it finds (`Steady`), where the plan and the body name rows of the plan's items alone (`NamesBelow`).
//! Begin with `LoopBody`, then `emit`.
#![tactic(auto)]

mod body;
mod gathering;
mod nesting;
mod opening;
mod sifting;
mod sorting;
mod visiting;

pub use body::LoopBody;
pub use opening::emit;
