// CREATE.

ghost use Rattle.sql_grammar.specs.Grammar.{Name};
ghost use Rattle.sql_grammar.specs.Bodies.{rules};
ghost use Rattle.sql_grammar.specs.Definitions as spec;
ghost use Rattle.sql_grammar.specs.Rules.{reads};
ghost use Rattle.parse_cursor.specs.Gives.{Gives};

use crate::indexes::{create_index, create_view};
use crate::modules::create_virtual_table;
use crate::tables::{Named, create_table};
use crate::triggers::create_trigger;
use parse_cursor::{Cursor, ParseError, text_before};
use sql_grammar::Role;
use sql_tree::{Create, TokenKind};
use std::alloc::Global;

/// What stands behind CREATE.
#[tactic(auto, using(crate::proofs::Clear::creation_firsts), unfolding(sql_grammar::specs::Definitions::named_definition))]
fn named_definition(
    alloc: Global,
    tokens: &mut Cursor<'_>,
    depth: usize,
) -> Result<Named, ParseError>
    ensures { Gives (reads Name rules depth spec.named_definition tokens.old.counts tokens.old.rest.now) result tokens.new.counts tokens.new.rest.now }
{
    if tokens.sees(TokenKind::Table) {
        return create_table(alloc, tokens, depth);
    }
    if tokens.sees_any(&[TokenKind::Unique, TokenKind::Index]) {
        return create_index(alloc, tokens, depth);
    }
    if tokens.sees(TokenKind::View) {
        return create_view(alloc, tokens, depth);
    }
    if tokens.sees(TokenKind::Trigger) {
        return create_trigger(alloc, tokens, depth);
    }
    create_virtual_table(alloc, tokens, depth)
}

/// `CREATE ..`, with its text from CREATE to the last token (CREATE TABLE, CREATE INDEX, CREATE VIEW, CREATE TRIGGER, CREATE VIRTUAL
/// TABLE), where so many nestings may still be opened
#[tactic(auto, using(crate::proofs::Made::create_is))]
pub fn create(alloc: Global, tokens: &mut Cursor<'_>, depth: usize) -> Result<Create, ParseError>
    ensures { Gives (reads Name rules depth spec.create tokens.old.counts tokens.old.rest.now) result tokens.new.counts tokens.new.rest.now }
{
    let start = tokens.rest;
    tokens.expect(TokenKind::Create, Role::Outside)?;
    match named_definition(alloc, tokens, depth) {
        Ok(((if_not_exists, name), definition)) => Ok(Create {
            if_not_exists,
            name,
            definition,
            text: text_before(start, tokens.rest),
        }),
        Err(why) => Err(why),
    }
}
