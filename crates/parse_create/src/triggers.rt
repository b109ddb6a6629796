// CREATE TRIGGER.

ghost use Rattle.std.specs.Prelude.{ℕ};
ghost use Rattle.sql_grammar.specs.Grammar.{Name};
ghost use Rattle.sql_grammar.specs.Bodies.{rules};
ghost use Rattle.sql_grammar.specs.Definitions as spec;
ghost use Rattle.sql_grammar.specs.Rules.{reads};
ghost use Rattle.parse_cursor.specs.Gives.{Gives};
ghost use Rattle.parse_create.specs.Parts as part;

use crate::readers::Elements;
use crate::tables::{Named, header};
use crate::writes::{STARTS, row_command};
use parse_cursor::{Cursor, Element, ParseError, all_names, name, several};
use parse_query::expr;
use sql_grammar::Role;
use sql_tree::{
    Definition, Expr, RowCommand, Token, TokenKind, TriggerDefinition, TriggerEvent, TriggerTime,
};
use sqlite_items::Items;
use std::alloc::Global;

/// `[BEFORE | AFTER | INSTEAD OF]`
#[tactic(auto, using(crate::proofs::Triggered::times))]
fn trigger_time(tokens: &mut Cursor<'_>) -> Result<TriggerTime, ParseError>
    ensures { (d : ℕ) → Gives (reads Name rules d spec.trigger_time tokens.old.counts tokens.old.rest.now) result tokens.new.counts tokens.new.rest.now }
{
    if tokens.sees(TokenKind::Before) {
        tokens.expect(TokenKind::Before, Role::Outside)?;
        return Ok(TriggerTime::Before);
    }
    if tokens.sees(TokenKind::After) {
        tokens.expect(TokenKind::After, Role::Outside)?;
        return Ok(TriggerTime::After);
    }
    if tokens.sees(TokenKind::Instead) {
        tokens.expect(TokenKind::Instead, Role::Outside)?;
        tokens.expect(TokenKind::Of, Role::Outside)?;
        return Ok(TriggerTime::InsteadOf);
    }
    Ok(TriggerTime::Before)
}

/// `[OF name {, name}]`
#[tactic(auto, using(crate::proofs::Triggered::columns))]
fn of_columns(alloc: Global, tokens: &mut Cursor<'_>) -> Result<Items<Token>, ParseError>
    ensures { (d : ℕ) → Gives (reads Name rules d spec.of_columns tokens.old.counts tokens.old.rest.now) result tokens.new.counts tokens.new.rest.now }
{
    if !tokens.sees(TokenKind::Of) {
        return Ok(Items::new(alloc));
    }
    tokens.expect(TokenKind::Of, Role::Outside)?;
    all_names(alloc, tokens)
}

/// `DELETE | INSERT | UPDATE [OF name {, name}]`
#[tactic(auto, using(crate::proofs::Triggered::events))]
fn trigger_event(alloc: Global, tokens: &mut Cursor<'_>) -> Result<TriggerEvent, ParseError>
    ensures { (d : ℕ) → Gives (reads Name rules d spec.trigger_event tokens.old.counts tokens.old.rest.now) result tokens.new.counts tokens.new.rest.now }
{
    if tokens.sees(TokenKind::Delete) {
        tokens.expect(TokenKind::Delete, Role::Outside)?;
        return Ok(TriggerEvent::Delete);
    }
    if tokens.sees(TokenKind::Insert) {
        tokens.expect(TokenKind::Insert, Role::Outside)?;
        return Ok(TriggerEvent::Insert);
    }
    tokens.expect(TokenKind::Update, Role::Outside)?;
    Ok(TriggerEvent::Update(of_columns(alloc, tokens)?))
}

/// `ON name`
#[tactic(auto, using(crate::proofs::Triggered::on_table_is))]
fn on_table(tokens: &mut Cursor<'_>) -> Result<Token, ParseError>
    ensures { (d : ℕ) → Gives (reads Name rules d part.on_table tokens.old.counts tokens.old.rest.now) result tokens.new.counts tokens.new.rest.now }
{
    tokens.expect(TokenKind::On, Role::Outside)?;
    name(tokens)
}

/// `[FOR EACH ROW]`
#[tactic(auto, using(crate::proofs::Triggered::rows))]
fn for_each_row(tokens: &mut Cursor<'_>) -> Result<bool, ParseError>
    ensures { (d : ℕ) → Gives (reads Name rules d spec.for_each_row tokens.old.counts tokens.old.rest.now) result tokens.new.counts tokens.new.rest.now }
{
    if !tokens.sees(TokenKind::For) {
        return Ok(false);
    }
    tokens.expect(TokenKind::For, Role::Outside)?;
    tokens.expect(TokenKind::Each, Role::Outside)?;
    tokens.expect(TokenKind::Row, Role::Outside)?;
    Ok(true)
}

/// `[WHEN expr]`
#[tactic(auto, unfolding(sql_grammar::specs::Definitions::when))]
fn when(alloc: Global, tokens: &mut Cursor<'_>, depth: usize) -> Result<Option<Expr>, ParseError>
    ensures { Gives (reads Name rules depth spec.when tokens.old.counts tokens.old.rest.now) result tokens.new.counts tokens.new.rest.now }
{
    if tokens.sees(TokenKind::When) {
        tokens.expect(TokenKind::When, Role::Outside)?;
        match expr(alloc, tokens, depth) {
            Ok(condition) => Ok(Some(condition)),
            Err(why) => Err(why),
        }
    } else {
        Ok(None)
    }
}

/// `command ;`, in lists.
impl Element<RowCommand> for Elements {
    ghost is_ready = { λ it. Unit {0} };

    ghost rule = { λ it. spec.body_command };

    ghost depth = { λ it. it.depth };

    #[tactic(auto, using(crate::proofs::Triggered::body_command_is))]
    fn read(&self, tokens: &mut Cursor<'_>) -> Result<RowCommand, ParseError> {
        match row_command(self.alloc, tokens, self.depth) {
            Ok(command) => tokens.close(command, TokenKind::Semicolon, Role::Fresh),
            Err(why) => Err(why),
        }
    }
}

/// `command ; {command ;}`
#[tactic(auto, using(crate::proofs::Lists::commands_steps))]
fn body_commands(
    alloc: Global,
    tokens: &mut Cursor<'_>,
    depth: usize,
) -> Result<Items<RowCommand>, ParseError>
    ensures { Gives (reads Name rules depth spec.body_commands tokens.old.counts tokens.old.rest.now) result tokens.new.counts tokens.new.rest.now }
{
    several(alloc, tokens, &STARTS, &Elements { alloc, depth })
}

/// `BEGIN command ; {command ;} END`
#[tactic(auto, unfolding(sql_grammar::specs::Definitions::trigger_body))]
fn trigger_body(
    alloc: Global,
    tokens: &mut Cursor<'_>,
    depth: usize,
) -> Result<Items<RowCommand>, ParseError>
    ensures { Gives (reads Name rules depth spec.trigger_body tokens.old.counts tokens.old.rest.now) result tokens.new.counts tokens.new.rest.now }
{
    tokens.expect(TokenKind::Begin, Role::Fresh)?;
    match body_commands(alloc, tokens, depth) {
        Ok(commands) => tokens.close(commands, TokenKind::End, Role::Outside),
        Err(why) => Err(why),
    }
}

/// `[time] event ON name [FOR EACH ROW] [WHEN expr] BEGIN .. END`
#[tactic(auto, using(crate::proofs::Triggered::trigger_parts_is))]
fn trigger_parts(
    alloc: Global,
    tokens: &mut Cursor<'_>,
    depth: usize,
) -> Result<TriggerDefinition, ParseError>
    ensures { Gives (reads Name rules depth spec.trigger_parts tokens.old.counts tokens.old.rest.now) result tokens.new.counts tokens.new.rest.now }
{
    let time = trigger_time(tokens)?;
    let event = trigger_event(alloc, tokens)?;
    let table = on_table(tokens)?;
    for_each_row(tokens)?;
    let condition = match when(alloc, tokens, depth) {
        Ok(found) => found,
        Err(why) => return Err(why),
    };
    match trigger_body(alloc, tokens, depth) {
        Ok(body) => Ok(TriggerDefinition {
            time,
            event,
            table,
            condition,
            body,
        }),
        Err(why) => Err(why),
    }
}

/// `TRIGGER [IF NOT EXISTS] name ..`
#[tactic(auto, using(crate::proofs::Made::create_trigger_is))]
pub(crate) fn create_trigger(
    alloc: Global,
    tokens: &mut Cursor<'_>,
    depth: usize,
) -> Result<Named, ParseError>
    ensures { Gives (reads Name rules depth spec.create_trigger tokens.old.counts tokens.old.rest.now) result tokens.new.counts tokens.new.rest.now }
{
    tokens.expect(TokenKind::Trigger, Role::Outside)?;
    let header = header(tokens)?;
    match trigger_parts(alloc, tokens, depth) {
        Ok(trigger) => Ok((header, Definition::Trigger(trigger))),
        Err(why) => Err(why),
    }
}
