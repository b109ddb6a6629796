//! The lines of EXPLAIN QUERY PLAN: what a plan does, a line for each of its loops.
//!
//! `plan_lines` gives them as rows of four columns: id, parent, a third that is always 0, and detail (EXPLAIN QUERY PLAN, section 1). What
//! they are is `lines_of` (specs/Lines.antt). A plan knows tables, columns and indexes by number alone, so that their names come as
//! labels, `ItemLabel` for each item of the FROM. Begin with specs/Lines.antt.
#![tactic(auto)]

mod conditions;
mod fitting;
mod labels;
mod lines;
mod naming;

pub use labels::{IndexLabel, ItemLabel};
pub use lines::plan_lines;
