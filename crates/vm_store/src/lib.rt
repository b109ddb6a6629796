//! What a run keeps of its units: registers, cursors, sorters, and the frames that wait.
//!
//! Contracts see each as the machine over lists has it (vm_code's specs/Machine.antt): registers as the list of what they
//! hold, a cursor without the hint that makes its next search short, and the stack of the frames that wait with the last called first.
//! What moves a cursor over tables is vm_core's. Begin with `Registers`; `jumps` says what the jumps of
//! instructions go by, and `held` what is read without a copy.
#![tactic(auto)]

mod cursor;
mod frame;
mod held;
mod jumps;
mod registers;
mod rowids;
mod sorters;

pub use cursor::{Cursor, Place, Spot};
pub use frame::{Frame, Frames};
pub use held::{held_integer, held_text};
pub use jumps::{is_accepted, is_bad, is_integer, is_known, is_null, is_rejected};
pub use registers::Registers;
pub use rowids::Rowids;
pub use sorters::{SortedRows, SorterRow, Sorters};
