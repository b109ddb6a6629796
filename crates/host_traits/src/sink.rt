// Sinks for bytes.
ghost use Rattle.std.specs.Prelude.{◌≡◌, ◌<◌, ℕ, List, Option, length};
ghost use Rattle.host_traits.specs.Writing.{Puts};
ghost use Rattle.host_traits.specs.Faults.{HasCount};

/// What a write answers.
#[derive(Clone, Copy, Debug, PartialEq, Eq)]
pub enum WriteAnswer {
    /// So many first bytes of the piece were taken, at least one.
    Put(usize),
    /// The write failed, and the count of faults rose.
    Failed,
}

/// Something that bytes are written to.
pub trait Sink {
    /// The bytes that were written, where the sink tells them.
    ghost written: { Self → Option (List ℕ) };

    /// How often a write has failed.
    ghost fault_count: { Self → ℕ };

    /// Writes the front of a piece, which is not empty. `Put(n)` appends the first n bytes of the piece, and a write that
    /// fails appends nothing.
    fn write(&mut self, piece: &[u8]) -> WriteAnswer
        requires { 0 < length piece.now }
        ensures bytes { Puts (written self.old) (written self.new) result piece.now }
        ensures cause { HasCount (fault_count self.old) (fault_count self.new) (result ≡ WriteAnswer.Failed) };

    /// The count of faults, which stands still at the type's end.
    fn faults(&self) -> u64
        ensures { result ≡ fault_count self.now };
}
