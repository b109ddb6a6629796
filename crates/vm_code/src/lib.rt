//! Bytecode: instructions, units, programs, the builder that generators write them with, and what they mean.
//!
//! Nothing here runs. `specs/Machine.antt` is the machine over lists: what each instruction does to registers, cursors and
//! tables that are lists of rows; vm_core runs the same over the real tables, and is proved against it. A generator
//! states what its code does by the words of `specs/Frames.antt` (`Leaves`, `Sifts`, `Does`, `Serves`, `Performs`), in every program
//! that the code becomes part of, and proves it with the rules of `proofs/` (see `proofs/Lib.antt` for the order to read
//! them in). Each unit carries what is open at its instructions, so that a program can be checked by the rules of `specs/Accepted.antt`.
//! Begin with `Op`, then specs/Machine.antt.
#![tactic(auto)]

mod builder;
mod laws;
mod needs;
mod op;
mod open_cursor;
mod open_sets;
mod operand;
mod program;
mod room;
mod schema_change;
mod track;
mod way;

pub use builder::Builder;
pub use laws::{
    a_program_reads_only_the_tables_that_it_opens, a_run_has_one_end, runs_add_up,
    what_was_given_before_has_no_influence,
};
pub use op::Op;
pub use open_cursor::{CursorKind, Need, OpenCursor};
pub use open_sets::OpenSets;
pub use operand::{Constant, Operand};
pub use program::{Program, Unit, UnitKind};
pub use schema_change::SchemaChange;
pub use way::Way;
