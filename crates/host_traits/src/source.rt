// Sources of bytes.
ghost use Rattle.std.specs.Prelude.{◌≡◌, ◌<◌, ℕ, List, Option, length};
ghost use Rattle.host_traits.specs.Reading.{Takes};
ghost use Rattle.host_traits.specs.Faults.{HasCount};

/// What a read answers.
#[derive(Clone, Copy, Debug, PartialEq, Eq)]
pub enum ReadAnswer {
    /// So many first bytes of the buffer were filled, at least one.
    Got(usize),
    /// Nothing is left.
    End,
    /// The read failed, and the count of faults rose.
    Failed,
}

/// Something that bytes are read from.
pub trait Source {
    /// The bytes that are left, where the source tells them.
    ghost left: { Self → Option (List ℕ) };

    /// How often a read has failed.
    ghost fault_count: { Self → ℕ };

    /// Reads some bytes into the front of a buffer, which is not empty. `Got(n)` hands over the next n bytes of what is
    /// left, `End` comes only where nothing is left, and a read that fails takes nothing.
    fn read(&mut self, buf: &mut [u8]) -> ReadAnswer
        requires { 0 < length buf.old }
        ensures bytes { Takes (left self.old) (left self.new) result buf.new }
        ensures cause { HasCount (fault_count self.old) (fault_count self.new) (result ≡ ReadAnswer.Failed) };

    /// The count of faults, which stands still at the type's end.
    fn faults(&self) -> u64
        ensures { result ≡ fault_count self.now };
}
