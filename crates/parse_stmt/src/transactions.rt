// BEGIN, COMMIT, ROLLBACK, SAVEPOINT and RELEASE.

ghost use Rattle.std.specs.Prelude.{ℕ, ◌≡◌};
ghost use Rattle.sql_grammar.specs.Grammar.{Name};
ghost use Rattle.sql_grammar.specs.Bodies.{rules};
ghost use Rattle.sql_grammar.specs.Rules.{reads};
ghost use Rattle.sql_grammar.specs.Statements as spec;
ghost use Rattle.parse_cursor.specs.Gives.{Gives};

use parse_cursor::{Cursor, ParseError, given_word, name};
use sql_grammar::Role;
use sql_tree::{Token, TokenKind, Transaction};

const BEGINNINGS: [TokenKind; 3] = [
    TokenKind::Deferred,
    TokenKind::Immediate,
    TokenKind::Exclusive,
];

/// `[DEFERRED | IMMEDIATE | EXCLUSIVE]`
#[tactic(auto, using(crate::proofs::Transacted::begin_words))]
fn begin_word(tokens: &mut Cursor<'_>) -> Result<bool, ParseError>
    ensures { (d : ℕ) → Gives (reads Name rules d spec.begin_word tokens.old.counts tokens.old.rest.now) result tokens.new.counts tokens.new.rest.now }
{
    let there = tokens.sees_any(&BEGINNINGS);
    if there {
        tokens.expect_any(&BEGINNINGS, Role::Outside)?;
    }
    Ok(there)
}

/// `BEGIN [DEFERRED | IMMEDIATE | EXCLUSIVE] [TRANSACTION]`
#[tactic(auto, using(crate::proofs::Transacted::begin_is))]
fn begin(tokens: &mut Cursor<'_>) -> Result<Transaction, ParseError>
    ensures { (d : ℕ) → Gives (reads Name rules d spec.begin tokens.old.counts tokens.old.rest.now) result tokens.new.counts tokens.new.rest.now }
{
    tokens.expect(TokenKind::Begin, Role::Outside)?;
    begin_word(tokens)?;
    given_word(tokens, TokenKind::Transaction)?;
    Ok(Transaction::Begin)
}

/// `(COMMIT | END) [TRANSACTION]`
#[tactic(auto, using(crate::proofs::Transacted::commit_is))]
fn commit(tokens: &mut Cursor<'_>) -> Result<Transaction, ParseError>
    ensures { (d : ℕ) → Gives (reads Name rules d spec.commit tokens.old.counts tokens.old.rest.now) result tokens.new.counts tokens.new.rest.now }
{
    tokens.expect_any(&[TokenKind::Commit, TokenKind::End], Role::Outside)?;
    given_word(tokens, TokenKind::Transaction)?;
    Ok(Transaction::Commit)
}

/// `[SAVEPOINT] name`
#[tactic(auto, using(crate::proofs::Transacted::savepoint_name_is))]
fn savepoint_name(tokens: &mut Cursor<'_>) -> Result<Token, ParseError>
    ensures { (d : ℕ) → Gives (reads Name rules d spec.savepoint_name tokens.old.counts tokens.old.rest.now) result tokens.new.counts tokens.new.rest.now }
{
    given_word(tokens, TokenKind::Savepoint)?;
    name(tokens)
}

/// `[TO [SAVEPOINT] name]`
#[tactic(auto, using(crate::proofs::Transacted::savepoints))]
fn to_savepoint(tokens: &mut Cursor<'_>) -> Result<Option<Token>, ParseError>
    ensures { (d : ℕ) → Gives (reads Name rules d spec.to_savepoint tokens.old.counts tokens.old.rest.now) result tokens.new.counts tokens.new.rest.now }
{
    if tokens.sees(TokenKind::To) {
        tokens.expect(TokenKind::To, Role::Outside)?;
        Ok(Some(savepoint_name(tokens)?))
    } else {
        Ok(None)
    }
}

fn rollback_of(savepoint: Option<Token>) -> Transaction
    ensures { result ≡ spec.rollback_of savepoint }
{
    match savepoint {
        None => Transaction::Rollback,
        Some(name) => Transaction::RollbackTo(name),
    }
}

/// `ROLLBACK [TRANSACTION] [TO [SAVEPOINT] name]`
#[tactic(auto, using(crate::proofs::Transacted::rollback_is))]
fn rollback(tokens: &mut Cursor<'_>) -> Result<Transaction, ParseError>
    ensures { (d : ℕ) → Gives (reads Name rules d spec.rollback tokens.old.counts tokens.old.rest.now) result tokens.new.counts tokens.new.rest.now }
{
    tokens.expect(TokenKind::Rollback, Role::Outside)?;
    given_word(tokens, TokenKind::Transaction)?;
    let savepoint = to_savepoint(tokens)?;
    Ok(rollback_of(savepoint))
}

/// `SAVEPOINT name`
#[tactic(auto, using(crate::proofs::Transacted::savepoint_is))]
fn savepoint(tokens: &mut Cursor<'_>) -> Result<Transaction, ParseError>
    ensures { (d : ℕ) → Gives (reads Name rules d spec.savepoint tokens.old.counts tokens.old.rest.now) result tokens.new.counts tokens.new.rest.now }
{
    tokens.expect(TokenKind::Savepoint, Role::Outside)?;
    let name = name(tokens)?;
    Ok(Transaction::Savepoint(name))
}

/// `RELEASE [SAVEPOINT] name`
#[tactic(auto, using(crate::proofs::Transacted::release_is))]
fn release(tokens: &mut Cursor<'_>) -> Result<Transaction, ParseError>
    ensures { (d : ℕ) → Gives (reads Name rules d spec.release tokens.old.counts tokens.old.rest.now) result tokens.new.counts tokens.new.rest.now }
{
    tokens.expect(TokenKind::Release, Role::Outside)?;
    let name = savepoint_name(tokens)?;
    Ok(Transaction::Release(name))
}

/// `begin | commit | rollback | savepoint | release` (Transaction, SAVEPOINT)
#[tactic(auto, using(crate::proofs::Transacted::transactions))]
pub(crate) fn transaction(tokens: &mut Cursor<'_>) -> Result<Transaction, ParseError>
    ensures { (d : ℕ) → Gives (reads Name rules d spec.transaction tokens.old.counts tokens.old.rest.now) result tokens.new.counts tokens.new.rest.now }
{
    if tokens.sees(TokenKind::Begin) {
        return begin(tokens);
    }
    if tokens.sees_any(&[TokenKind::Commit, TokenKind::End]) {
        return commit(tokens);
    }
    if tokens.sees(TokenKind::Rollback) {
        return rollback(tokens);
    }
    if tokens.sees(TokenKind::Savepoint) {
        return savepoint(tokens);
    }
    release(tokens)
}
