// Transactions and savepoints.
ghost use Rattle.std.specs.Prelude.{◌≡◌};
ghost use Rattle.sql_bound.specs.Answers.{Answers};
ghost use Rattle.sql_bound.specs.Statements.{transaction_bound};
ghost use Rattle.bind_command.specs.Tops.{top_of};
ghost use Rattle.eng_entry.specs.Entries.{Entries};
ghost use Rattle.sql_bound.specs.declared.facts.HostFacts.{HostFacts as Told};
ghost use Rattle.sql_tree.specs.declared.statement.Transaction.TheVariants as transaction;

use bind_entry::{name, savepoint};
use bound_tree::{BoundCommand, BoundTransaction};
use eng_catalog::Catalog;
use eng_value::{Cause, NameKind};
use sql_bound::HostFacts;
use sql_tree::{Token, Transaction};
use std::alloc::Global;

/// BEGIN, COMMIT, ROLLBACK, SAVEPOINT, RELEASE and ROLLBACK TO (SQL As Understood By SQLite, "Savepoints"). A savepoint that is rolled
/// back to or released is open, or else unknown.
pub fn bind_transaction(
    alloc: Global,
    text: &str,
    catalog: &Catalog,
    facts: &HostFacts,
    transaction: &Transaction,
) -> Result<BoundCommand, Cause>
    ensures { Answers (transaction_bound (top_of catalog.now facts.now text.now) transaction.now) result }
{
    match transaction {
        Transaction::Begin => Ok(BoundCommand::Transacted(BoundTransaction::Begins)),
        Transaction::Commit => Ok(BoundCommand::Transacted(BoundTransaction::Commits)),
        Transaction::Rollback => Ok(BoundCommand::Transacted(BoundTransaction::RollsBack)),
        Transaction::RollbackTo(token) => rolls_back_to(alloc, text, facts, token),
        Transaction::Savepoint(token) => saves(alloc, text, token),
        Transaction::Release(token) => releases(alloc, text, facts, token),
    }
}

fn saves(alloc: Global, text: &str, token: &Token) -> Result<BoundCommand, Cause>
    ensures { (catalog : Entries) (facts : Told) → Answers (transaction_bound (top_of catalog facts text.now) (transaction.Savepoint token.now)) result }
{
    let name = name(alloc, text, token)?;
    Ok(BoundCommand::Transacted(BoundTransaction::Saves(name)))
}

fn rolls_back_to(
    alloc: Global,
    text: &str,
    facts: &HostFacts,
    token: &Token,
) -> Result<BoundCommand, Cause>
    ensures { (catalog : Entries) → Answers (transaction_bound (top_of catalog facts.now text.now) (transaction.RollbackTo token.now)) result }
{
    let name = name(alloc, text, token)?;
    if savepoint(facts, name.as_str()) {
        Ok(BoundCommand::Transacted(BoundTransaction::RollsBackTo(name)))
    } else {
        Err(Cause::Unknown(NameKind::Savepoint, name))
    }
}

fn releases(
    alloc: Global,
    text: &str,
    facts: &HostFacts,
    token: &Token,
) -> Result<BoundCommand, Cause>
    ensures { (catalog : Entries) → Answers (transaction_bound (top_of catalog facts.now text.now) (transaction.Release token.now)) result }
{
    let name = name(alloc, text, token)?;
    if savepoint(facts, name.as_str()) {
        Ok(BoundCommand::Transacted(BoundTransaction::Releases(name)))
    } else {
        Err(Cause::Unknown(NameKind::Savepoint, name))
    }
}
