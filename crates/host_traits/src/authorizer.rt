// Who is asked whether a statement may do what it would do.
ghost use Rattle.std.specs.Prelude.{◌≡◌, Option, IfSome};
ghost use Rattle.eng_value.specs.declared.authorizing.Action.{Action as Asked};
ghost use Rattle.eng_value.specs.declared.authorizing.Verdict.{Verdict as Said};

use eng_value::{Action, Verdict};

/// An authorizer (Compile-Time Authorization Callbacks). An honest one tells a verdict for each action, and answers by it each
/// time; one that tells none may answer anything.
pub trait Authorizer: Drop {
    /// The verdict of each action, where the authorizer tells them.
    ghost verdicts: { Self → Option (Asked → Said) };

    /// Its verdict on an action. What it tells stays the same.
    fn ask(&mut self, action: &Action) -> Verdict
        ensures verdict { IfSome (verdicts self.old) (λ says. result ≡ says action.now) }
        ensures same { verdicts self.new ≡ verdicts self.old };
}
