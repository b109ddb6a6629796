// A text of tokens as one statement.

ghost use Rattle.std.specs.Prelude.{ℕ};
ghost use Rattle.sql_tree.specs.declared.statement.Command.TheVariants as command_is;
ghost use Rattle.sql_tree.specs.declared.statement.Statement.{Statement};
ghost use Rattle.sql_grammar.specs.Answers.{Answer};
ghost use Rattle.sql_grammar.specs.Grammar.{Name};
ghost use Rattle.sql_grammar.specs.Bodies.{rules};
ghost use Rattle.sql_grammar.specs.Definitions.{create};
ghost use Rattle.sql_grammar.specs.Rules.{reads, to};
ghost use Rattle.sql_grammar.specs.Statements as spec;
ghost use Rattle.sql_grammar.specs.StatementTexts.{AnswersAs};
ghost use Rattle.sql_grammar.specs.Writes.{row_command};
ghost use Rattle.parse_cursor.specs.Gives.{Gives};
ghost use Rattle.parse_cursor.specs.Whole.{Shows};
ghost use Rattle.parse_stmt.specs.Parts as part;

use crate::pragmas::pragma;
use crate::removals::remove;
use crate::transactions::transaction;
use parse_create::{create, row_command, sees_row_command};
use parse_cursor::{Cursor, Failure, ParseError, failure_at, place};
use parse_query::MAX_OPEN;
use sql_grammar::{Counts, Role};
use sql_tree::{Command, Explain, Statement, Token, TokenKind};
use std::alloc::Global;

const TRANSACTIONS: [TokenKind; 6] = [
    TokenKind::Begin,
    TokenKind::Commit,
    TokenKind::End,
    TokenKind::Rollback,
    TokenKind::Savepoint,
    TokenKind::Release,
];

/// A command that reads or changes rows. Each kind of command has a function of its own, so that no command pays for the locals of
/// another.
fn of_rows(alloc: Global, tokens: &mut Cursor<'_>, depth: usize) -> Result<Command, ParseError>
    ensures { Gives (reads Name rules depth (to command_is.Rows row_command) tokens.old.counts tokens.old.rest.now) result tokens.new.counts tokens.new.rest.now }
{
    match row_command(alloc, tokens, depth) {
        Ok(found) => Ok(Command::Rows(found)),
        Err(why) => Err(why),
    }
}

/// One that creates.
#[inline(never)]
fn of_create(alloc: Global, tokens: &mut Cursor<'_>, depth: usize) -> Result<Command, ParseError>
    ensures { Gives (reads Name rules depth (to command_is.Create create) tokens.old.counts tokens.old.rest.now) result tokens.new.counts tokens.new.rest.now }
{
    match create(alloc, tokens, depth) {
        Ok(found) => Ok(Command::Create(found)),
        Err(why) => Err(why),
    }
}

/// One that drops.
#[inline(never)]
fn of_remove(tokens: &mut Cursor<'_>) -> Result<Command, ParseError>
    ensures { (d : ℕ) → Gives (reads Name rules d (to command_is.Remove spec.remove) tokens.old.counts tokens.old.rest.now) result tokens.new.counts tokens.new.rest.now }
{
    match remove(tokens) {
        Ok(found) => Ok(Command::Remove(found)),
        Err(why) => Err(why),
    }
}

/// One of a transaction.
#[inline(never)]
fn of_transaction(tokens: &mut Cursor<'_>) -> Result<Command, ParseError>
    ensures { (d : ℕ) → Gives (reads Name rules d (to command_is.Transaction spec.transaction) tokens.old.counts tokens.old.rest.now) result tokens.new.counts tokens.new.rest.now }
{
    match transaction(tokens) {
        Ok(found) => Ok(Command::Transaction(found)),
        Err(why) => Err(why),
    }
}

/// A PRAGMA.
#[inline(never)]
fn of_pragma(tokens: &mut Cursor<'_>, depth: usize) -> Result<Command, ParseError>
    ensures { Gives (reads Name rules depth (to command_is.Pragma spec.pragma) tokens.old.counts tokens.old.rest.now) result tokens.new.counts tokens.new.rest.now }
{
    match pragma(tokens, depth) {
        Ok(found) => Ok(Command::Pragma(found)),
        Err(why) => Err(why),
    }
}

/// `query | insert | update | delete | create | drop | transaction | pragma`
#[tactic(auto, using(crate::proofs::Clear::command_firsts), unfolding(sql_grammar::specs::Statements::command))]
fn command(alloc: Global, tokens: &mut Cursor<'_>, depth: usize) -> Result<Command, ParseError>
    ensures { Gives (reads Name rules depth spec.command tokens.old.counts tokens.old.rest.now) result tokens.new.counts tokens.new.rest.now }
{
    if sees_row_command(tokens) {
        return of_rows(alloc, tokens, depth);
    }
    if tokens.sees(TokenKind::Create) {
        return of_create(alloc, tokens, depth);
    }
    if tokens.sees(TokenKind::Drop) {
        return of_remove(tokens);
    }
    if tokens.sees_any(&TRANSACTIONS) {
        return of_transaction(tokens);
    }
    of_pragma(tokens, depth)
}

/// `[QUERY PLAN]`
#[tactic(auto, using(crate::proofs::Ends::explanations))]
fn explained(tokens: &mut Cursor<'_>) -> Result<Explain, ParseError>
    ensures { (d : ℕ) → Gives (reads Name rules d spec.explained tokens.old.counts tokens.old.rest.now) result tokens.new.counts tokens.new.rest.now }
{
    if !tokens.sees(TokenKind::Query) {
        return Ok(Explain::Instructions);
    }
    tokens.expect(TokenKind::Query, Role::Outside)?;
    tokens.expect(TokenKind::Plan, Role::Outside)?;
    Ok(Explain::QueryPlan)
}

/// `[EXPLAIN [QUERY PLAN]]` (EXPLAIN)
#[tactic(auto, using(crate::proofs::Ends::explains))]
fn explain(tokens: &mut Cursor<'_>) -> Result<Option<Explain>, ParseError>
    ensures { (d : ℕ) → Gives (reads Name rules d spec.explain tokens.old.counts tokens.old.rest.now) result tokens.new.counts tokens.new.rest.now }
{
    if tokens.sees(TokenKind::Explain) {
        tokens.expect(TokenKind::Explain, Role::Outside)?;
        Ok(Some(explained(tokens)?))
    } else {
        Ok(None)
    }
}

/// `[;]`
#[tactic(auto, using(crate::proofs::Ends::semicolons))]
fn semicolon(tokens: &mut Cursor<'_>) -> Result<Option<Token>, ParseError>
    ensures { (d : ℕ) → Gives (reads Name rules d spec.semicolon tokens.old.counts tokens.old.rest.now) result tokens.new.counts tokens.new.rest.now }
{
    if tokens.sees(TokenKind::Semicolon) {
        Ok(Some(tokens.expect(TokenKind::Semicolon, Role::Outside)?))
    } else {
        Ok(None)
    }
}

/// A command with what EXPLAIN asks of it, and the `;` that may end it.
fn ended(
    tokens: &mut Cursor<'_>,
    explain: Option<Explain>,
    command: Command,
) -> Result<Statement, ParseError>
    ensures { (d : ℕ) → Gives (part.ended (record { explain = explain; command = command }) (reads Name rules d spec.semicolon tokens.old.counts tokens.old.rest.now)) result tokens.new.counts tokens.new.rest.now }
{
    match semicolon(tokens) {
        Ok(_) => Ok(Statement { explain, command }),
        Err(why) => Err(why),
    }
}

/// Parses the statement that the next tokens are, with the `;` that may end it, as far as it goes (SQL As Understood By SQLite), where
/// so many nestings may still be opened. After an error the cursor stands at the first token that cannot stand there or passes a limit.
#[tactic(auto, using(crate::proofs::Ends::statement_is))]
pub fn statement(
    alloc: Global,
    tokens: &mut Cursor<'_>,
    depth: usize,
) -> Result<Statement, ParseError>
    ensures { Gives (reads Name rules depth spec.statement tokens.old.counts tokens.old.rest.now) result tokens.new.counts tokens.new.rest.now }
{
    let explain = explain(tokens)?;
    match command(alloc, tokens, depth) {
        Ok(command) => ended(tokens, explain, command),
        Err(why) => Err(why),
    }
}

/// Parses the tokens of a text of so many bytes as one statement (SQL As Understood By SQLite), which a `;` may end: its tree, or the
/// first token that cannot stand there or passes a limit. Each list of tokens has one answer (`sql_grammar::each_text_has_an_answer`,
/// `reading_gives_the_answer`).
pub fn parse(alloc: Global, tokens: &[Token], len: usize) -> Result<Statement, Failure>
    ensures { (x : Answer Statement) → AnswersAs tokens.now x → Shows len x result }
{
    let mut cursor = Cursor {
        rest: tokens,
        counts: Counts::start(),
    };
    let read = statement(alloc, &mut cursor, MAX_OPEN);
    let at = place(cursor.rest, len);
    match read {
        Ok(tree) => {
            if cursor.rest.len() == 0 {
                Ok(tree)
            } else {
                Err(Failure::Syntax(at))
            }
        }
        Err(error) => Err(failure_at(error, at)),
    }
}
