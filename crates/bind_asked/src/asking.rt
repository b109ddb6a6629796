// Asking the authorizer, action by action.
ghost use Rattle.std.specs.Prelude.{◌≡◌, IfOk};
ghost use Rattle.bind_asked.specs.Said.{permit};
ghost use Rattle.eng_value.specs.HostMeanings.{IsTold, verdict_of};
ghost use Rattle.sql_meaning.specs.Permits.{permit_of};
ghost use Rattle.vm_core.specs.Meant.{meant};

use eng_value::{Action, Meanings, Verdict};
use sqlite_items::Items;
use std::alloc::{AllocError, Global};
use vm_core::Hosts;

/// What the authorizer said to a list of actions.
#[derive(Drop)]
pub(crate) enum Said {
    /// It denied the action of this number, counted from 1, and none in front.
    Denied(usize),
    /// It denied none, and ignores these.
    Ignored(Items<Action>),
}

/// Asks for each action in turn, up to the first that is denied.
pub(crate) fn ask_all<M: Meanings>(
    alloc: Global,
    hosts: &mut Hosts,
    actions: &[Action],
) -> Result<Said, AllocError>
    requires told { meant (λ b. verdicts (b.vtable, b.value)) hosts.old ≡ M.hosts }
    ensures said { IfOk result (λ s. IsTold M.hosts.authorizer → permit s ≡ permit_of (verdict_of M.hosts.authorizer) actions.now) }
    ensures told { meant (λ b. verdicts (b.vtable, b.value)) hosts.new ≡ M.hosts }
{
    let mut ignored = Items::new(alloc);
    for (i, action) in actions.iter().enumerate() {
        match ask_one::<M>(hosts, action) {
            Verdict::Allow => {}
            Verdict::Deny => return Ok(Said::Denied(i + 1)),
            Verdict::Ignore => ignored.push(copied(action)?)?,
        }
    }
    Ok(Said::Ignored(ignored))
}

/// The same action once more.
fn copied(action: &Action) -> Result<Action, AllocError>
    ensures { IfOk result (λ copy. copy ≡ action.now) }
{
    let within = match &action.within {
        Some(name) => Some(name.clone()?),
        None => None,
    };
    Ok(Action {
        kind: action.kind,
        first: action.first.clone()?,
        second: action.second.clone()?,
        within,
    })
}

fn ask_one<M: Meanings>(hosts: &mut Hosts, action: &Action) -> Verdict
    requires told { meant (λ b. verdicts (b.vtable, b.value)) hosts.old ≡ M.hosts }
    ensures verdict { IsTold M.hosts.authorizer → result ≡ verdict_of M.hosts.authorizer action.now }
    ensures told { meant (λ b. verdicts (b.vtable, b.value)) hosts.new ≡ M.hosts }
{
    hosts.ask(action)
}
