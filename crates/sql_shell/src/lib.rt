//! The top call: from the bytes of a script to the written bytes and an exit status.
//!
//! The way of a script, a module for each step: `reading` takes the source's bytes up to their ending, `characters` finds
//! where they stop being UTF-8, `cutting` cuts them into statements and dot lines, `dot_lines` prints what dot lines ask for, `statement` runs a statement over a
//! connection of the engine, whose rows `printed_rows` prints as they come for what it gave (`given`; `taken_rows` tells contracts which they are), `printing` makes lines of rows and of why a part failed,
//! `writing` hands them to the sink, and `script` goes from part to part; `course` says how that went. `top` has the one
//! public call, `run`, whose contract is the theorem of the engine.
#![tactic(auto)]

mod characters;
mod course;
mod cutting;
mod dot_lines;
mod given;
mod printed_rows;
mod printing;
mod reading;
mod script;
mod statement;
mod stop;
mod taken_rows;
mod top;
mod writing;

pub use engine::{Hosts, JoinOrder};
pub use top::run;
