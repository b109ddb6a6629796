//! The bytecode of queries.
//!
//! `compile` writes the program of a query in the loops of a plan (gen_loop); its contract, `PerformsWith`, says that with any parameters
//! for which the plan fits (plan_tree's `PlanFits`), and from every world, a run of the program gives the items that the query means
//! (sql_meaning's `items_at`, row by row; specs/Queries.antt) up to the first bad one, for whose causes it fails, and that it writes
//! nothing, in at most so many instructions. Neither names the plan. What is done with a row is the body of the loops, `Giver`: its
//! results (`Fills`), whose causes are added to those of the row (`Gathers`), are given. `compile_values` does the same for VALUES, with
//! the code of one row behind that of another. Both programs keep vm_code's rules (`IsAccepted`) where their expressions name no items but
//! those of the FROM (`NamesItsItems`, `NamesNoItem`). Begin with `compile`, then `Giver`.
#![tactic(auto)]

mod compiling;
mod giving;
mod laws;
mod values;

pub use compiling::{compile, compile_values};
pub use laws::{a_query_takes_few_steps, values_take_few_steps};
