//! How the rows of a FROM are come by: loops over its items.
//!
//! `order` gives a loop for each item, by the access that seems best for it (plan_best), in the order that seems best: that of the FROM, unless another
//! visits far fewer rows, which are then sorted. `order_as` takes an order that is wanted. A conjunct is tested where all that it reads is there: in front of
//! all loops, or in the loop of the last item, in the order of the loops, that it reads. The ON of a LEFT JOIN is tested on its pairs alone, and no item
//! moves past one. Their contract, `PlanFits` (plan_tree), says what every plan has to keep to; the law behind it is `conjuncts_move_in` of plan_tree.
//! Begin with `order_as`, then `order_near` (src/placing.rt). What chooses needs no proof: src/choosing.rt, which takes the items run by run between LEFT
//! JOINs, src/searching.rt for the cheapest order of a short run, src/greedy.rt for a good one of a long run, and src/estimating.rt for what they cost.
#![tactic(auto)]

mod choosing;
mod estimating;
mod greedy;
mod looping;
mod ordering;
mod placing;
mod reading;
mod searching;
mod testing;
mod walking;

pub use ordering::{order, order_as};
