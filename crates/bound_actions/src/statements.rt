// What an authorizer is asked about a statement.
ghost use Rattle.std.specs.Prelude.{◌≡◌, [], ◌∷◌, None, IfOk};
ghost use Rattle.bound_actions.specs.Pieces.{action, actions_in, unit_named};
ghost use Rattle.bound_actions.specs.Statements.{actions_of, command_actions, creation_kind, removal_kind, transaction_action};
ghost use Rattle.bound_actions.specs.Writes.{nothing_listed, opened, write_listed};

use crate::firing::list_write;
use crate::pieces::{new_action, put_actions, put_unit};
use crate::queries::unit_lists;
use crate::{Listed, Piece};
use bound_tree::{
    BoundCommand, BoundStatement, BoundTransaction, BoundTrigger, BoundWrite, ThingKind,
};
use eng_value::{Action, ActionKind};
use sqlite_items::Items;
use std::alloc::{AllocError, Global};

fn creation_kind(kind: ThingKind) -> ActionKind
    ensures { result ≡ creation_kind kind }
{
    match kind {
        ThingKind::ATable => ActionKind::CreateTable,
        ThingKind::AModuleTable => ActionKind::CreateModule,
        ThingKind::AnIndex => ActionKind::CreateIndex,
        ThingKind::AView => ActionKind::CreateView,
        ThingKind::ATrigger => ActionKind::CreateTrigger,
    }
}

fn removal_kind(kind: ThingKind) -> ActionKind
    ensures { result ≡ removal_kind kind }
{
    match kind {
        ThingKind::ATable => ActionKind::DropTable,
        ThingKind::AModuleTable => ActionKind::DropTable,
        ThingKind::AnIndex => ActionKind::DropIndex,
        ThingKind::AView => ActionKind::DropView,
        ThingKind::ATrigger => ActionKind::DropTrigger,
    }
}

/// One action outside of views and triggers.
fn one(
    alloc: Global,
    kind: ActionKind,
    first: &str,
    second: &str,
) -> Result<Items<Action>, AllocError>
    ensures { IfOk result (λ found. found ≡ action None kind first.now second.now ∷ []) }
{
    let mut found = Items::new(alloc);
    found.push(new_action(alloc, &None, kind, first, second)?)?;
    Ok(found)
}

fn transaction_actions(
    alloc: Global,
    transaction: &BoundTransaction,
) -> Result<Items<Action>, AllocError>
    ensures { IfOk result (λ found. found ≡ transaction_action transaction.now ∷ []) }
{
    match transaction {
        BoundTransaction::Begins => one(alloc, ActionKind::Transaction, "BEGIN", ""),
        BoundTransaction::Commits => one(alloc, ActionKind::Transaction, "COMMIT", ""),
        BoundTransaction::RollsBack => one(alloc, ActionKind::Transaction, "ROLLBACK", ""),
        BoundTransaction::Saves(name) => {
            one(alloc, ActionKind::Savepoint, "BEGIN", name.as_str())
        }
        BoundTransaction::Releases(name) => {
            one(alloc, ActionKind::Savepoint, "RELEASE", name.as_str())
        }
        BoundTransaction::RollsBackTo(name) => {
            one(alloc, ActionKind::Savepoint, "ROLLBACK", name.as_str())
        }
    }
}

fn query_actions(
    alloc: Global,
    units: &[Items<Piece>],
    unit: u32,
) -> Result<Items<Action>, AllocError>
    ensures { IfOk result (λ found. found ≡ actions_in (unit_named units.now unit)) }
{
    let mut own = Items::new(alloc);
    put_unit(units, unit, &mut own)?;
    let mut found = Items::new(alloc);
    put_actions(own.as_slice(), &mut found)?;
    Ok(found)
}

fn write_actions(
    alloc: Global,
    units: &[Items<Piece>],
    triggers: &[BoundTrigger],
    write: &BoundWrite,
) -> Result<Items<Action>, AllocError>
    ensures { IfOk result (λ found. found ≡ (write_listed (opened units.now triggers.now triggers.now) units.now None [] write.now nothing_listed).actions) }
{
    let handed = Items::new(alloc);
    let mut listed = Listed {
        actions: Items::new(alloc),
        triggers: Items::new(alloc),
    };
    list_write(
        alloc,
        units,
        triggers,
        triggers,
        &None,
        handed.as_slice(),
        write,
        &mut listed,
    )?;
    let Listed {
        actions,
        triggers: _,
    } = listed;
    Ok(actions)
}

fn command_actions(
    alloc: Global,
    units: &[Items<Piece>],
    triggers: &[BoundTrigger],
    command: &BoundCommand,
) -> Result<Items<Action>, AllocError>
    ensures { IfOk result (λ found. found ≡ command_actions units.now triggers.now command.now) }
{
    match command {
        BoundCommand::Asked(unit) => query_actions(alloc, units, *unit),
        BoundCommand::Written(write) => write_actions(alloc, units, triggers, write),
        BoundCommand::Created(made) => one(
            alloc,
            creation_kind(made.kind),
            made.name.as_str(),
            made.owner.as_str(),
        ),
        BoundCommand::Removed(removed) => one(
            alloc,
            removal_kind(removed.kind),
            removed.name.as_str(),
            removed.owner.as_str(),
        ),
        BoundCommand::Transacted(transaction) => transaction_actions(alloc, transaction),
        BoundCommand::Pragma(name) => one(alloc, ActionKind::Pragma, name.as_str(), ""),
        BoundCommand::Nothing(_, _, _) => Ok(Items::new(alloc)),
    }
}

/// What a statement would do, in the order of its text: what an authorizer is asked, one after another. Only memory can fail.
pub fn actions(alloc: Global, b: &BoundStatement) -> Result<Items<Action>, AllocError>
    ensures { IfOk result (λ found. found ≡ actions_of b.now) }
{
    let units = unit_lists(alloc, b.units.as_slice())?;
    command_actions(alloc, units.as_slice(), b.triggers.as_slice(), &b.command)
}
