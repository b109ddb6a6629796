// What the embedding program lends to a run.
ghost use Rattle.std.specs.Prelude.{◌≡◌, IfSome, Some};
ghost use Rattle.eng_value.specs.HostMeanings.{IsTold, no_hosts, verdict_of};
ghost use Rattle.vm_core.specs.Meant.{meant};

use eng_value::{Action, Verdict};
use host_traits::Authorizer;

/// What the embedding program lends to a run.
#[derive(Drop)]
pub struct Hosts {
    /// Who is asked whether a statement may do what it would do; where there is none, it may do everything.
    pub authorizer: Option<Box<dyn Authorizer>>,
}

impl Hosts {
    /// No hosts. Takes no memory.
    pub fn new() -> Hosts
        ensures { meant verdicts result ≡ no_hosts }
    {
        Hosts { authorizer: None }
    }

    /// Lends an authorizer, in place of the one that was lent before.
    pub fn set_authorizer(&mut self, authorizer: Box<dyn Authorizer>)
        ensures { meant verdicts self.new ≡ record (meant verdicts self.old) { authorizer = Some (verdicts authorizer) } }
    {
        self.authorizer = Some(authorizer);
    }

    /// The verdict of the authorizer on an action; where there is none, everything is allowed. What the hosts mean stays the same.
    pub fn ask(&mut self, action: &Action) -> Verdict
        ensures verdict { let told = (meant verdicts self.old).authorizer in IsTold told → result ≡ verdict_of told action.now }
        ensures same { meant verdicts self.new ≡ meant verdicts self.old }
    {
        match &mut self.authorizer {
            None => Verdict::Allow,
            Some(authorizer) => ask_in_box(authorizer, action),
        }
    }
}

/// Asks the authorizer in a box.
fn ask_in_box(authorizer: &mut Box<dyn Authorizer>, action: &Action) -> Verdict
    ensures verdict { IfSome (verdicts authorizer.old) (λ says. result ≡ says action.now) }
    ensures same { verdicts authorizer.new ≡ verdicts authorizer.old }
{
    authorizer.ask(action)
}
