// CREATE TABLE.

ghost use Rattle.std.specs.Prelude.{ℕ};
ghost use Rattle.sql_grammar.specs.Grammar.{Name};
ghost use Rattle.sql_grammar.specs.Bodies.{rules};
ghost use Rattle.sql_grammar.specs.Definitions as spec;
ghost use Rattle.sql_grammar.specs.Rules.{reads};
ghost use Rattle.parse_cursor.specs.Gives.{Gives};
ghost use Rattle.parse_create.specs.Parts as part;

use crate::constraints::{check, collate, column_constraints, constraint_name, primary_key};
use parse_cursor::{Cursor, Element, ParseError, given_word, list, name, sees_name, type_name};
use sql_grammar::Role;
use sql_tree::{
    ColumnDefinition, Definition, IndexedColumn, TableConstraint, TableDefinition, Token,
    TokenKind, TypeName,
};
use sqlite_items::Items;
use std::alloc::Global;

/// `[IF NOT EXISTS]` and a name, and what is made of it
pub(crate) type Named = ((bool, Token), Definition);

/// `[type]`
#[tactic(auto, using(crate::proofs::Clear::first_type_name), unfolding(crate::specs::Parts::column_type))]
fn column_type(
    alloc: Global,
    tokens: &mut Cursor<'_>,
    depth: usize,
) -> Result<Option<TypeName>, ParseError>
    ensures { Gives (reads Name rules depth part.column_type tokens.old.counts tokens.old.rest.now) result tokens.new.counts tokens.new.rest.now }
{
    if sees_name(tokens) {
        Ok(Some(type_name(alloc, tokens, depth)?))
    } else {
        Ok(None)
    }
}

/// `name [type] {constraint}`
#[tactic(auto, using(crate::proofs::Elements::column_is))]
fn column(
    alloc: Global,
    tokens: &mut Cursor<'_>,
    depth: usize,
) -> Result<ColumnDefinition, ParseError>
    ensures { Gives (reads Name rules depth spec.column tokens.old.counts tokens.old.rest.now) result tokens.new.counts tokens.new.rest.now }
{
    let name = name(tokens)?;
    let type_name = column_type(alloc, tokens, depth)?;
    match column_constraints(alloc, tokens, depth) {
        Ok(constraints) => Ok(ColumnDefinition {
            name,
            type_name,
            constraints,
        }),
        Err(why) => Err(why),
    }
}

/// `[COLLATE name]`
#[tactic(auto, using(crate::proofs::Constrained::key_collations))]
pub(crate) fn key_collation(tokens: &mut Cursor<'_>) -> Result<Option<Token>, ParseError>
    ensures { (d : ℕ) → Gives (reads Name rules d part.key_collation tokens.old.counts tokens.old.rest.now) result tokens.new.counts tokens.new.rest.now }
{
    if tokens.sees(TokenKind::Collate) {
        Ok(Some(collate(tokens)?))
    } else {
        Ok(None)
    }
}

/// `name [COLLATE name] [ASC]`, in lists.
struct KeyColumns;

impl Element<IndexedColumn> for KeyColumns {
    ghost is_ready = { λ it. Unit {0} };

    ghost rule = { λ it. spec.key_column };

    ghost depth = { λ it. 0 };

    #[tactic(auto, using(crate::proofs::Constrained::key_column_is))]
    fn read(&self, tokens: &mut Cursor<'_>) -> Result<IndexedColumn, ParseError> {
        let name = name(tokens)?;
        let collation = key_collation(tokens)?;
        given_word(tokens, TokenKind::Asc)?;
        Ok(IndexedColumn {
            name,
            collation,
            descending: false,
        })
    }
}

/// `( column {, column} )` of a key
#[tactic(auto, using(crate::proofs::Bracketed::in_key_steps))]
fn in_key(
    alloc: Global,
    tokens: &mut Cursor<'_>,
    depth: usize,
) -> Result<Items<IndexedColumn>, ParseError>
    ensures { Gives (reads Name rules depth spec.in_key tokens.old.counts tokens.old.rest.now) result tokens.new.counts tokens.new.rest.now }
{
    tokens.open(depth, TokenKind::LeftParen, Role::Opening)?;
    let columns = list(alloc, tokens, &KeyColumns)?;
    tokens.close(columns, TokenKind::RightParen, Role::Closing)
}

/// `PRIMARY KEY ( .. ) | UNIQUE ( .. ) | CHECK ( expr )`
#[tactic(auto, using(crate::proofs::Constrained::table_rules))]
fn table_rule(
    alloc: Global,
    tokens: &mut Cursor<'_>,
    depth: usize,
) -> Result<TableConstraint, ParseError>
    ensures { Gives (reads Name rules depth spec.table_rule_of tokens.old.counts tokens.old.rest.now) result tokens.new.counts tokens.new.rest.now }
{
    if tokens.sees(TokenKind::Primary) {
        primary_key(tokens)?;
        return match in_key(alloc, tokens, depth) {
            Ok(columns) => Ok(TableConstraint::PrimaryKey(columns)),
            Err(why) => Err(why),
        };
    }
    if tokens.sees(TokenKind::Unique) {
        tokens.expect(TokenKind::Unique, Role::Outside)?;
        return match in_key(alloc, tokens, depth) {
            Ok(columns) => Ok(TableConstraint::Unique(columns)),
            Err(why) => Err(why),
        };
    }
    match check(alloc, tokens, depth) {
        Ok(condition) => Ok(TableConstraint::Check(condition)),
        Err(why) => Err(why),
    }
}

/// A constraint of a table, whose name means nothing.
#[tactic(auto, unfolding(sql_grammar::specs::Definitions::table_constraint))]
fn table_constraint(
    alloc: Global,
    tokens: &mut Cursor<'_>,
    depth: usize,
) -> Result<TableConstraint, ParseError>
    ensures { Gives (reads Name rules depth spec.table_constraint tokens.old.counts tokens.old.rest.now) result tokens.new.counts tokens.new.rest.now }
{
    constraint_name(tokens)?;
    table_rule(alloc, tokens, depth)
}

/// `column {, column} {, constraint}`
#[tactic(auto, using(crate::proofs::Elements::elements_steps))]
fn all_columns(
    alloc: Global,
    tokens: &mut Cursor<'_>,
    depth: usize,
) -> Result<TableDefinition, ParseError>
    ensures { Gives (reads Name rules depth spec.all_columns tokens.old.counts tokens.old.rest.now) result tokens.new.counts tokens.new.rest.now }
{
    let mut columns = Items::new(alloc);
    let mut constraints = Items::new(alloc);
    match column(alloc, tokens, depth) {
        Ok(found) => columns.push(found)?,
        Err(why) => return Err(why),
    }
    while tokens.sees(TokenKind::Comma) {
        tokens.expect(TokenKind::Comma, Role::Outside)?;
        if constraints.len() == 0 && sees_name(tokens) {
            match column(alloc, tokens, depth) {
                Ok(found) => columns.push(found)?,
                Err(why) => return Err(why),
            }
        } else {
            match table_constraint(alloc, tokens, depth) {
                Ok(found) => constraints.push(found)?,
                Err(why) => return Err(why),
            }
        }
    }
    Ok(TableDefinition {
        columns,
        constraints,
    })
}

/// `( column {, column} {, constraint} )`
#[tactic(auto, using(crate::proofs::Bracketed::in_columns_is))]
fn in_columns(
    alloc: Global,
    tokens: &mut Cursor<'_>,
    depth: usize,
) -> Result<TableDefinition, ParseError>
    ensures { Gives (reads Name rules depth part.in_columns tokens.old.counts tokens.old.rest.now) result tokens.new.counts tokens.new.rest.now }
{
    tokens.open(depth, TokenKind::LeftParen, Role::Opening)?;
    match all_columns(alloc, tokens, depth - 1) {
        Ok(columns) => tokens.close(columns, TokenKind::RightParen, Role::Closing),
        Err(why) => Err(why),
    }
}

/// `[IF NOT EXISTS]`
#[tactic(auto, using(crate::proofs::Constrained::existences))]
fn if_not_exists(tokens: &mut Cursor<'_>) -> Result<bool, ParseError>
    ensures { (d : ℕ) → Gives (reads Name rules d spec.if_not_exists tokens.old.counts tokens.old.rest.now) result tokens.new.counts tokens.new.rest.now }
{
    if !tokens.sees(TokenKind::If) {
        return Ok(false);
    }
    tokens.expect(TokenKind::If, Role::Outside)?;
    tokens.expect(TokenKind::Not, Role::Outside)?;
    tokens.expect(TokenKind::Exists, Role::Outside)?;
    Ok(true)
}

/// `[IF NOT EXISTS] name`
#[tactic(auto, using(crate::proofs::Constrained::header_is))]
pub(crate) fn header(tokens: &mut Cursor<'_>) -> Result<(bool, Token), ParseError>
    ensures { (d : ℕ) → Gives (reads Name rules d spec.header tokens.old.counts tokens.old.rest.now) result tokens.new.counts tokens.new.rest.now }
{
    let there = if_not_exists(tokens)?;
    let name = name(tokens)?;
    Ok((there, name))
}

/// `TABLE [IF NOT EXISTS] name ( .. )`
#[tactic(auto, using(crate::proofs::Made::create_table_is))]
pub(crate) fn create_table(
    alloc: Global,
    tokens: &mut Cursor<'_>,
    depth: usize,
) -> Result<Named, ParseError>
    ensures { Gives (reads Name rules depth spec.create_table tokens.old.counts tokens.old.rest.now) result tokens.new.counts tokens.new.rest.now }
{
    tokens.expect(TokenKind::Table, Role::Outside)?;
    let header = header(tokens)?;
    match in_columns(alloc, tokens, depth) {
        Ok(table) => Ok((header, Definition::Table(table))),
        Err(why) => Err(why),
    }
}
