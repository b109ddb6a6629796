//! The test of programs before they run.
//!
//! A unit tells for each of its instructions which cursors are open there, and on what. `check` goes over the instructions once: where each
//! leads the same must be open as it leaves open, what it needs must be so, and what it names must be there (vm_code's specs/Accepted.antt
//! has the rules). A program passes exactly where they hold, and `accepted_never_misses` says what that is good for: in no run of it, over any
//! tables, is a register, a cursor, a unit or a frame missing. Begin with `check`, then specs/Missing.antt.
#![tactic(auto)]

mod checking;
mod instructions;
mod laws;
mod sets;
#[cfg(test)]
mod tests;

pub use checking::{Checked, check};
pub use laws::accepted_never_misses;
