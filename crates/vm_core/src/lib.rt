//! The machine that runs bytecode over tables.
//!
//! vm_code says what each instruction does, over tables that are lists (specs/Machine.antt there). Here the same runs over
//! tables in memory, and the contract of `Machine::step` says that it is the same, event by event: the event is the next one
//! of the machine over lists after exactly as many instructions as were counted. An instruction counts when it was done: one that
//! finds no memory counts nothing. The tables are vm_tables', which keep marks, and go back to the last whatever a run did since.
//! Begin with `machine`; `execute` has one arm for each instruction, whose method stands in `jumping`, `searching`,
//! `writing`, `calling` or `running`, and `operands`, `values` and `cursor` do the work; what registers, cursors and frames hold is vm_store's.
#![tactic(auto)]

mod calling;
mod cursor;
mod event;
mod execute;
mod hosts;
mod jumping;
mod machine;
mod operands;
mod pace;
mod running;
mod searching;
mod sorting;
mod values;
mod writing;

pub use event::{Budget, Event};
pub use hosts::Hosts;
pub use machine::Machine;
