// DROP.

ghost use Rattle.std.specs.Prelude.{ℕ};
ghost use Rattle.sql_grammar.specs.Grammar.{Name};
ghost use Rattle.sql_grammar.specs.Bodies.{rules};
ghost use Rattle.sql_grammar.specs.Rules.{reads};
ghost use Rattle.sql_grammar.specs.Statements as spec;
ghost use Rattle.parse_cursor.specs.Gives.{Gives};

use parse_cursor::{Cursor, ParseError, name};
use sql_grammar::Role;
use sql_tree::{ObjectKind, Remove, TokenKind};

/// `TABLE | INDEX | VIEW | TRIGGER`
#[tactic(auto, using(crate::proofs::Words::objects))]
fn object_word(tokens: &mut Cursor<'_>) -> Result<ObjectKind, ParseError>
    ensures { (d : ℕ) → Gives (reads Name rules d spec.object_word tokens.old.counts tokens.old.rest.now) result tokens.new.counts tokens.new.rest.now }
{
    if tokens.sees(TokenKind::Table) {
        tokens.expect(TokenKind::Table, Role::Outside)?;
        return Ok(ObjectKind::Table);
    }
    if tokens.sees(TokenKind::Index) {
        tokens.expect(TokenKind::Index, Role::Outside)?;
        return Ok(ObjectKind::Index);
    }
    if tokens.sees(TokenKind::View) {
        tokens.expect(TokenKind::View, Role::Outside)?;
        return Ok(ObjectKind::View);
    }
    tokens.expect(TokenKind::Trigger, Role::Outside)?;
    Ok(ObjectKind::Trigger)
}

/// `[IF EXISTS]`
#[tactic(auto, using(crate::proofs::Words::existences))]
fn if_exists(tokens: &mut Cursor<'_>) -> Result<bool, ParseError>
    ensures { (d : ℕ) → Gives (reads Name rules d spec.if_exists tokens.old.counts tokens.old.rest.now) result tokens.new.counts tokens.new.rest.now }
{
    if !tokens.sees(TokenKind::If) {
        return Ok(false);
    }
    tokens.expect(TokenKind::If, Role::Outside)?;
    tokens.expect(TokenKind::Exists, Role::Outside)?;
    Ok(true)
}

/// `DROP (TABLE | INDEX | VIEW | TRIGGER) [IF EXISTS] name` (DROP TABLE, DROP INDEX, DROP VIEW, DROP TRIGGER)
#[tactic(auto, using(crate::proofs::Words::remove_is))]
pub(crate) fn remove(tokens: &mut Cursor<'_>) -> Result<Remove, ParseError>
    ensures { (d : ℕ) → Gives (reads Name rules d spec.remove tokens.old.counts tokens.old.rest.now) result tokens.new.counts tokens.new.rest.now }
{
    tokens.expect(TokenKind::Drop, Role::Outside)?;
    let kind = object_word(tokens)?;
    let if_exists = if_exists(tokens)?;
    let name = name(tokens)?;
    Ok(Remove {
        kind,
        if_exists,
        name,
    })
}
