/// Whether a run goes on behind an instruction, stops there for an event, or pauses in front of the instruction, which was not done.
#[derive(Clone, Copy)]
pub(crate) enum Pace {
    Going,
    Stopping,
    Pausing,
}
