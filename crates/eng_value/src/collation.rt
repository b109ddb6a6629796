// Collations, built in or of a host.
ghost use Rattle.std.specs.Prelude.{◌≡◌};
ghost use Rattle.eng_value.specs.Collations.{built_in};

use crate::Built;

/// A collation: one that is built in, or one of a host, by its place among those of the hosts.
#[derive(Clone, Copy, PartialEq, Eq)]
pub enum Collation {
    Built(Built),
    Host(u32),
}

impl Collation {
    /// The collation by which texts are compared where no host has one: BINARY in the place of a host's.
    pub fn built_in(self) -> Built
        ensures { result ≡ built_in self }
    {
        match self {
            Collation::Built(built) => built,
            Collation::Host(_) => Built::Binary,
        }
    }
}
