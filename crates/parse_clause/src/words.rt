// The name that a result or an item of FROM is given.

ghost use Rattle.std.specs.Prelude.{ℕ};
ghost use Rattle.sql_grammar.specs.Rules.{reads};
ghost use Rattle.sql_grammar.specs.Grammar.{Name};
ghost use Rattle.sql_grammar.specs.Bodies.{rules};
ghost use Rattle.sql_grammar.specs.Queries as spec;
ghost use Rattle.parse_cursor.specs.Gives.{Gives};

use parse_cursor::{Cursor, ParseError, name, sees_name};
use sql_grammar::Role;
use sql_tree::{Token, TokenKind};

/// `[[AS] name]`
#[tactic(auto, using(crate::proofs::Aliases::aliases))]
pub(crate) fn alias(tokens: &mut Cursor<'_>) -> Result<Option<Token>, ParseError>
    ensures { (d : ℕ) → Gives (reads Name rules d spec.alias tokens.old.counts tokens.old.rest.now) result tokens.new.counts tokens.new.rest.now }
{
    if tokens.sees(TokenKind::As) {
        tokens.expect(TokenKind::As, Role::Outside)?;
        return Ok(Some(name(tokens)?));
    }
    if sees_name(tokens) {
        return Ok(Some(name(tokens)?));
    }
    Ok(None)
}
