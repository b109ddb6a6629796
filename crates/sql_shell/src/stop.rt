// Why a run ends early.
ghost use Rattle.std.specs.Prelude.{◌≡◌};
ghost use Rattle.sql_shell.specs.declared.stop.Stop.TheVariants.{Memory};

use std::alloc::AllocError;

/// Why a run ends before its script does.
#[derive(Clone, Copy, PartialEq, Eq)]
pub(crate) enum Stop {
    /// No memory was found.
    Memory,
    /// A write failed.
    SinkFault,
}

impl From<AllocError> for Stop {
    ghost from_gives = { λ _ stop. stop ≡ Memory };

    fn from(_: AllocError) -> Stop {
        Stop::Memory
    }
}
