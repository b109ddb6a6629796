// What a run comes to, and how long it may go on.
use eng_value::{Causes, Row};

/// How many instructions a statement may run, and how many of them ran.
#[derive(Clone, Copy)]
pub struct Budget {
    pub whole: u64,
    pub ran: u64,
}

/// What a run comes to next.
#[derive(Drop)]
pub enum Event {
    /// A row was given. The run goes on behind it.
    Row(Row),
    /// The run is at its end.
    Done,
    /// The run failed, for one of these causes.
    Bad(Causes),
    /// The budget, of so many instructions, is used up.
    Interrupted(u64),
    /// No memory was found. The instruction that wanted it was not done and does not count; what it may have left of itself is for
    /// `Tables::undo` to take back.
    Mem,
}
