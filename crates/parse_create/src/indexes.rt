// CREATE INDEX and CREATE VIEW.

ghost use Rattle.std.specs.Prelude.{ℕ};
ghost use Rattle.sql_grammar.specs.Queries as queries;
ghost use Rattle.sql_grammar.specs.Grammar.{Name};
ghost use Rattle.sql_grammar.specs.Bodies.{rules};
ghost use Rattle.sql_grammar.specs.Definitions as spec;
ghost use Rattle.sql_grammar.specs.Rules.{reads};
ghost use Rattle.parse_cursor.specs.Gives.{Gives};
ghost use Rattle.parse_create.specs.Parts as part;

use crate::tables::{Named, header, key_collation};
use parse_cursor::{Cursor, Element, ParseError, column_names, given_word, list, name};
use parse_query::query;
use sql_grammar::Role;
use sql_tree::{Definition, IndexDefinition, IndexedColumn, Token, TokenKind, ViewDefinition};
use sqlite_items::Items;
use std::alloc::Global;

/// `[ASC | DESC]`, as whether it is DESC
#[tactic(auto, using(crate::proofs::Indexed::directions))]
fn direction(tokens: &mut Cursor<'_>) -> Result<bool, ParseError>
    ensures { (d : ℕ) → Gives (reads Name rules d queries.direction tokens.old.counts tokens.old.rest.now) result tokens.new.counts tokens.new.rest.now }
{
    if tokens.sees(TokenKind::Desc) {
        tokens.expect(TokenKind::Desc, Role::Outside)?;
        return Ok(true);
    }
    if tokens.sees(TokenKind::Asc) {
        tokens.expect(TokenKind::Asc, Role::Outside)?;
    }
    Ok(false)
}

/// `name [COLLATE name] [ASC | DESC]`, in lists.
struct IndexColumns;

impl Element<IndexedColumn> for IndexColumns {
    ghost is_ready = { λ it. Unit {0} };

    ghost rule = { λ it. spec.index_column };

    ghost depth = { λ it. 0 };

    #[tactic(auto, using(crate::proofs::Indexed::index_column_is))]
    fn read(&self, tokens: &mut Cursor<'_>) -> Result<IndexedColumn, ParseError> {
        let name = name(tokens)?;
        let collation = key_collation(tokens)?;
        let descending = direction(tokens)?;
        Ok(IndexedColumn {
            name,
            collation,
            descending,
        })
    }
}

/// `( column {, column} )` of an index
#[tactic(auto, using(crate::proofs::Bracketed::in_index_steps))]
fn in_index(
    alloc: Global,
    tokens: &mut Cursor<'_>,
    depth: usize,
) -> Result<Items<IndexedColumn>, ParseError>
    ensures { Gives (reads Name rules depth part.in_index tokens.old.counts tokens.old.rest.now) result tokens.new.counts tokens.new.rest.now }
{
    tokens.open(depth, TokenKind::LeftParen, Role::Opening)?;
    let columns = list(alloc, tokens, &IndexColumns)?;
    tokens.close(columns, TokenKind::RightParen, Role::Closing)
}

/// `ON name ( .. )`
#[tactic(auto, using(crate::proofs::Indexed::indexed_is))]
fn indexed(
    alloc: Global,
    tokens: &mut Cursor<'_>,
    depth: usize,
) -> Result<(Token, Items<IndexedColumn>), ParseError>
    ensures { Gives (reads Name rules depth spec.indexed tokens.old.counts tokens.old.rest.now) result tokens.new.counts tokens.new.rest.now }
{
    tokens.expect(TokenKind::On, Role::Outside)?;
    let table = name(tokens)?;
    let columns = in_index(alloc, tokens, depth)?;
    Ok((table, columns))
}

/// `[UNIQUE] INDEX [IF NOT EXISTS] name ON name ( .. )`
#[tactic(auto, using(crate::proofs::Made::create_index_is))]
pub(crate) fn create_index(
    alloc: Global,
    tokens: &mut Cursor<'_>,
    depth: usize,
) -> Result<Named, ParseError>
    ensures { Gives (reads Name rules depth spec.create_index tokens.old.counts tokens.old.rest.now) result tokens.new.counts tokens.new.rest.now }
{
    let unique = given_word(tokens, TokenKind::Unique)?;
    tokens.expect(TokenKind::Index, Role::Outside)?;
    let header = header(tokens)?;
    let (table, columns) = indexed(alloc, tokens, depth)?;
    let index = IndexDefinition {
        unique,
        table,
        columns,
    };
    Ok((header, Definition::Index(index)))
}

/// `VIEW [IF NOT EXISTS] name [( name {, name} )] AS query`
#[tactic(auto, using(crate::proofs::Made::create_view_is))]
pub(crate) fn create_view(
    alloc: Global,
    tokens: &mut Cursor<'_>,
    depth: usize,
) -> Result<Named, ParseError>
    ensures { Gives (reads Name rules depth spec.create_view tokens.old.counts tokens.old.rest.now) result tokens.new.counts tokens.new.rest.now }
{
    tokens.expect(TokenKind::View, Role::Outside)?;
    let header = header(tokens)?;
    let columns = column_names(alloc, tokens, depth)?;
    tokens.expect(TokenKind::As, Role::Outside)?;
    match query(alloc, tokens, depth) {
        Ok(query) => Ok((header, Definition::View(ViewDefinition { columns, query }))),
        Err(why) => Err(why),
    }
}
