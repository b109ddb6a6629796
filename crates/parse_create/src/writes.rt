// Reading and changing rows: queries, INSERT, UPDATE and DELETE.

ghost use Rattle.std.specs.Prelude.{ℕ, ◌≡◌};
ghost use Rattle.sql_tree.specs.declared.statement.RowCommand.TheVariants as rows_by;
ghost use Rattle.sql_grammar.specs.Grammar.{Name};
ghost use Rattle.sql_grammar.specs.Bodies.{rules};
ghost use Rattle.sql_grammar.specs.Queries as queries;
ghost use Rattle.sql_grammar.specs.Rules.{reads, first, starts, to};
ghost use Rattle.sql_grammar.specs.Writes as spec;
ghost use Rattle.parse_cursor.specs.Gives.{Gives};

use crate::readers::Elements;
use parse_cursor::{Cursor, Element, ParseError, column_names, list, name};
use parse_query::{expr, filter_by, query};
use sql_grammar::Role;
use sql_tree::{
    Assignment, ConflictChoice, Delete, Insert, InsertSource, RowCommand, TokenKind, Update,
};
use sqlite_items::Items;
use std::alloc::Global;

/// What a command that reads or changes rows begins with.
pub(crate) const STARTS: [TokenKind; 7] = [
    TokenKind::With,
    TokenKind::Select,
    TokenKind::Values,
    TokenKind::Insert,
    TokenKind::Replace,
    TokenKind::Update,
    TokenKind::Delete,
];

/// Whether a query comes next.
#[tactic(auto, using(crate::proofs::Clear::first_query))]
fn sees_query(tokens: &Cursor<'_>) -> bool
    ensures { result ≡ starts (first queries.query) tokens.now.rest.now }
{
    tokens.sees_any(&[TokenKind::With, TokenKind::Select, TokenKind::Values])
}

/// `ABORT | IGNORE | REPLACE`
#[tactic(auto, using(crate::proofs::Straight::choice_words))]
fn choice_word(tokens: &mut Cursor<'_>) -> Result<ConflictChoice, ParseError>
    ensures { (d : ℕ) → Gives (reads Name rules d spec.choice_word tokens.old.counts tokens.old.rest.now) result tokens.new.counts tokens.new.rest.now }
{
    if tokens.sees(TokenKind::Abort) {
        tokens.expect(TokenKind::Abort, Role::Outside)?;
        return Ok(ConflictChoice::Abort);
    }
    if tokens.sees(TokenKind::Ignore) {
        tokens.expect(TokenKind::Ignore, Role::Outside)?;
        return Ok(ConflictChoice::Ignore);
    }
    tokens.expect(TokenKind::Replace, Role::Outside)?;
    Ok(ConflictChoice::Replace)
}

/// `[OR choice]` (ON CONFLICT)
#[tactic(auto, using(crate::proofs::Straight::conflict_choices))]
fn conflict_choice(tokens: &mut Cursor<'_>) -> Result<ConflictChoice, ParseError>
    ensures { (d : ℕ) → Gives (reads Name rules d spec.conflict_choice tokens.old.counts tokens.old.rest.now) result tokens.new.counts tokens.new.rest.now }
{
    if !tokens.sees(TokenKind::Or) {
        return Ok(ConflictChoice::Abort);
    }
    tokens.expect(TokenKind::Or, Role::Outside)?;
    choice_word(tokens)
}

/// `INSERT [OR choice] | REPLACE`
#[tactic(auto, using(crate::proofs::Straight::inserting_words))]
fn insert_words(tokens: &mut Cursor<'_>) -> Result<ConflictChoice, ParseError>
    ensures { (d : ℕ) → Gives (reads Name rules d spec.insert_words tokens.old.counts tokens.old.rest.now) result tokens.new.counts tokens.new.rest.now }
{
    if tokens.sees(TokenKind::Insert) {
        tokens.expect(TokenKind::Insert, Role::Outside)?;
        return conflict_choice(tokens);
    }
    tokens.expect(TokenKind::Replace, Role::Outside)?;
    Ok(ConflictChoice::Replace)
}

/// `query | DEFAULT VALUES`
#[tactic(auto, unfolding(sql_grammar::specs::Writes::insert_source_of))]
fn insert_source(
    alloc: Global,
    tokens: &mut Cursor<'_>,
    depth: usize,
) -> Result<InsertSource, ParseError>
    ensures { Gives (reads Name rules depth spec.insert_source_of tokens.old.counts tokens.old.rest.now) result tokens.new.counts tokens.new.rest.now }
{
    if sees_query(tokens) {
        return match query(alloc, tokens, depth) {
            Ok(found) => Ok(InsertSource::Query(found)),
            Err(why) => Err(why),
        };
    }
    tokens.expect(TokenKind::Default, Role::Outside)?;
    tokens.expect(TokenKind::Values, Role::Outside)?;
    Ok(InsertSource::Defaults)
}

/// `(INSERT [OR choice] | REPLACE) INTO name [( name {, name} )] (query | DEFAULT VALUES)` (INSERT)
#[tactic(auto, unfolding(sql_grammar::specs::Writes::insert))]
fn insert(alloc: Global, tokens: &mut Cursor<'_>, depth: usize) -> Result<Insert, ParseError>
    ensures { Gives (reads Name rules depth spec.insert tokens.old.counts tokens.old.rest.now) result tokens.new.counts tokens.new.rest.now }
{
    let choice = insert_words(tokens)?;
    tokens.expect(TokenKind::Into, Role::Outside)?;
    let table = name(tokens)?;
    let columns = column_names(alloc, tokens, depth)?;
    match insert_source(alloc, tokens, depth) {
        Ok(source) => Ok(Insert {
            choice,
            table,
            columns,
            source,
        }),
        Err(why) => Err(why),
    }
}

/// `name = expr`, in lists.
impl Element<Assignment> for Elements {
    ghost is_ready = { λ it. Unit {0} };

    ghost rule = { λ it. spec.assignment };

    ghost depth = { λ it. it.depth };

    #[tactic(auto, unfolding(sql_grammar::specs::Writes::assignment))]
    fn read(&self, tokens: &mut Cursor<'_>) -> Result<Assignment, ParseError> {
        let column = name(tokens)?;
        tokens.expect(TokenKind::Equal, Role::Outside)?;
        match expr(self.alloc, tokens, self.depth) {
            Ok(value) => Ok(Assignment { column, value }),
            Err(why) => Err(why),
        }
    }
}

/// `assignment {, assignment}`
#[tactic(auto, using(crate::proofs::Lists::assignments_steps))]
fn assignments(
    alloc: Global,
    tokens: &mut Cursor<'_>,
    depth: usize,
) -> Result<Items<Assignment>, ParseError>
    ensures { Gives (reads Name rules depth spec.assignments tokens.old.counts tokens.old.rest.now) result tokens.new.counts tokens.new.rest.now }
{
    list(alloc, tokens, &Elements { alloc, depth })
}

/// `UPDATE [OR choice] name SET assignment {, assignment} [WHERE expr]` (UPDATE)
#[tactic(auto, using(crate::proofs::Straight::update_is))]
fn update(alloc: Global, tokens: &mut Cursor<'_>, depth: usize) -> Result<Update, ParseError>
    ensures { Gives (reads Name rules depth spec.update tokens.old.counts tokens.old.rest.now) result tokens.new.counts tokens.new.rest.now }
{
    tokens.expect(TokenKind::Update, Role::Outside)?;
    let choice = conflict_choice(tokens)?;
    let table = name(tokens)?;
    tokens.expect(TokenKind::Set, Role::Outside)?;
    let assignments = match assignments(alloc, tokens, depth) {
        Ok(found) => found,
        Err(why) => return Err(why),
    };
    match filter_by(alloc, tokens, depth) {
        Ok(filter) => Ok(Update {
            choice,
            table,
            assignments,
            filter,
        }),
        Err(why) => Err(why),
    }
}

/// `DELETE FROM name [WHERE expr]` (DELETE)
#[tactic(auto, unfolding(sql_grammar::specs::Writes::delete, sql_grammar::specs::Writes::delete_parts))]
fn delete(alloc: Global, tokens: &mut Cursor<'_>, depth: usize) -> Result<Delete, ParseError>
    ensures { Gives (reads Name rules depth spec.delete tokens.old.counts tokens.old.rest.now) result tokens.new.counts tokens.new.rest.now }
{
    tokens.expect(TokenKind::Delete, Role::Outside)?;
    tokens.expect(TokenKind::From, Role::Outside)?;
    let table = name(tokens)?;
    match filter_by(alloc, tokens, depth) {
        Ok(filter) => Ok(Delete { table, filter }),
        Err(why) => Err(why),
    }
}

/// Whether a command that reads or changes rows comes next.
#[tactic(auto, using(crate::proofs::Clear::first_row_command))]
pub fn sees_row_command(tokens: &Cursor<'_>) -> bool
    ensures { result ≡ starts (first spec.row_command) tokens.now.rest.now }
{
    tokens.sees_any(&STARTS)
}

/// A command that is a query. Each kind of command has a function of its own, so that no command pays for the locals of another.
#[inline(never)]
fn of_query(alloc: Global, tokens: &mut Cursor<'_>, depth: usize) -> Result<RowCommand, ParseError>
    ensures { Gives (reads Name rules depth (to rows_by.Query queries.query) tokens.old.counts tokens.old.rest.now) result tokens.new.counts tokens.new.rest.now }
{
    match query(alloc, tokens, depth) {
        Ok(found) => Ok(RowCommand::Query(found)),
        Err(why) => Err(why),
    }
}

/// One that is an INSERT.
fn of_insert(alloc: Global, tokens: &mut Cursor<'_>, depth: usize) -> Result<RowCommand, ParseError>
    ensures { Gives (reads Name rules depth (to rows_by.Insert spec.insert) tokens.old.counts tokens.old.rest.now) result tokens.new.counts tokens.new.rest.now }
{
    match insert(alloc, tokens, depth) {
        Ok(found) => Ok(RowCommand::Insert(found)),
        Err(why) => Err(why),
    }
}

/// One that is an UPDATE.
#[inline(never)]
fn of_update(alloc: Global, tokens: &mut Cursor<'_>, depth: usize) -> Result<RowCommand, ParseError>
    ensures { Gives (reads Name rules depth (to rows_by.Update spec.update) tokens.old.counts tokens.old.rest.now) result tokens.new.counts tokens.new.rest.now }
{
    match update(alloc, tokens, depth) {
        Ok(found) => Ok(RowCommand::Update(found)),
        Err(why) => Err(why),
    }
}

/// One that is a DELETE.
#[inline(never)]
fn of_delete(alloc: Global, tokens: &mut Cursor<'_>, depth: usize) -> Result<RowCommand, ParseError>
    ensures { Gives (reads Name rules depth (to rows_by.Delete spec.delete) tokens.old.counts tokens.old.rest.now) result tokens.new.counts tokens.new.rest.now }
{
    match delete(alloc, tokens, depth) {
        Ok(found) => Ok(RowCommand::Delete(found)),
        Err(why) => Err(why),
    }
}

/// `query | insert | update | delete`, where so many nestings may still be opened
#[tactic(auto, using(crate::proofs::Clear::write_firsts), unfolding(sql_grammar::specs::Writes::row_command))]
pub fn row_command(
    alloc: Global,
    tokens: &mut Cursor<'_>,
    depth: usize,
) -> Result<RowCommand, ParseError>
    ensures { Gives (reads Name rules depth spec.row_command tokens.old.counts tokens.old.rest.now) result tokens.new.counts tokens.new.rest.now }
{
    if sees_query(tokens) {
        return of_query(alloc, tokens, depth);
    }
    if tokens.sees(TokenKind::Insert) || tokens.sees(TokenKind::Replace) {
        return of_insert(alloc, tokens, depth);
    }
    if tokens.sees(TokenKind::Update) {
        return of_update(alloc, tokens, depth);
    }
    of_delete(alloc, tokens, depth)
}
