// Why bytes are no record.
ghost use Rattle.std.specs.Prelude.{◌≡◌};
ghost use Rattle.eng_record.specs.declared.record_error.RecordErr.TheVariants.{Mem};

use std::alloc::{AllocError, AllocFailed};

/// What is wrong with the bytes: the first fault from left to right, in the header and then in the bodies.
#[derive(Clone, Copy, PartialEq, Eq)]
pub enum RecordErr {
    /// The bytes or the header end inside a varint or a body.
    Short,
    /// A serial type is none of a value.
    BadKind,
    /// A text is not UTF-8.
    BadText,
    /// Bytes stand behind the last body.
    Trailing,
    /// A varint or an integer takes more bytes than it needs.
    NotShortest,
    /// No memory was found.
    Mem,
}

impl From<AllocError> for RecordErr {
    ghost from_gives = { λ _ e. e ≡ Mem };

    fn from(_e: AllocError) -> RecordErr {
        RecordErr::Mem
    }
}

impl<T: Drop> From<AllocFailed<T>> for RecordErr {
    ghost from_gives = { λ _ e. e ≡ Mem };

    fn from(_e: AllocFailed<T>) -> RecordErr {
        RecordErr::Mem
    }
}
