// How a script is run, how it ends, and why a part of it has an error line.
use eng_value::Cause;

/// How a script is run (Command Line Shell For SQLite, "-bail").
#[derive(Clone, Copy, PartialEq, Eq)]
pub struct Options {
    /// How many instructions a statement may run.
    pub budget: u64,
    /// Whether the first error line ends the script.
    pub bail: bool,
}

/// How the bytes of a script end.
#[derive(Clone, Copy, PartialEq, Eq)]
pub enum Ending {
    /// There is no byte behind them.
    End,
    /// The next read failed.
    ReadFault,
    /// There is a byte past the limit of a script.
    TooLong,
}

/// Why a part of a script has an error line.
#[derive(Drop)]
pub enum Failure {
    /// The statement was refused, for this cause.
    Refused(Cause),
    /// There is no such dot line.
    UnknownDotLine,
    /// The character that begins at this byte of the script, counted from 0, is not whole UTF-8.
    NotUtf8(usize),
}
