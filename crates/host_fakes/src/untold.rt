// An authorizer that tells nothing.
ghost use Rattle.std.specs.Prelude.{◌≡◌, None};

use eng_value::{Action, Verdict};
use host_traits::Authorizer;

/// An authorizer that tells no verdicts. It allows the first action that it is asked about, ignores the second, denies the third, and
/// begins again, whatever they are.
#[derive(Drop)]
pub struct UntoldAuthorizer {
    asked: u64,
}

impl UntoldAuthorizer {
    pub fn new() -> Self
        ensures { ⟦<UntoldAuthorizer as Authorizer>⟧.verdicts result ≡ None }
    {
        UntoldAuthorizer { asked: 0 }
    }
}

impl Authorizer for UntoldAuthorizer {
    ghost verdicts = { λ a. None };

    fn ask(&mut self, _action: &Action) -> Verdict {
        let asked = self.asked;
        self.asked = asked.wrapping_add(1);
        match asked % 3 {
            0 => Verdict::Allow,
            1 => Verdict::Ignore,
            _ => Verdict::Deny,
        }
    }
}
