// PRAGMA.

ghost use Rattle.sql_grammar.specs.Grammar.{Name};
ghost use Rattle.sql_grammar.specs.Bodies.{rules};
ghost use Rattle.sql_grammar.specs.Rules.{reads};
ghost use Rattle.sql_grammar.specs.Statements as spec;
ghost use Rattle.parse_cursor.specs.Gives.{Gives};
ghost use Rattle.parse_stmt.specs.Parts as part;

use parse_cursor::{Cursor, ParseError, any_word, name};
use sql_grammar::Role;
use sql_tree::{Pragma, Token, TokenKind};

/// `( word )`
#[tactic(auto, using(crate::proofs::Words::in_word_is))]
fn in_word(tokens: &mut Cursor<'_>, depth: usize) -> Result<Token, ParseError>
    ensures { Gives (reads Name rules depth part.in_word tokens.old.counts tokens.old.rest.now) result tokens.new.counts tokens.new.rest.now }
{
    tokens.open(depth, TokenKind::LeftParen, Role::Opening)?;
    let word = any_word(tokens)?;
    tokens.close(word, TokenKind::RightParen, Role::Closing)
}

/// `= word | ( word )`
#[tactic(auto, using(crate::proofs::Words::values))]
fn pragma_value(tokens: &mut Cursor<'_>, depth: usize) -> Result<Token, ParseError>
    ensures { Gives (reads Name rules depth spec.pragma_value tokens.old.counts tokens.old.rest.now) result tokens.new.counts tokens.new.rest.now }
{
    if tokens.sees(TokenKind::Equal) {
        tokens.expect(TokenKind::Equal, Role::Outside)?;
        return any_word(tokens);
    }
    in_word(tokens, depth)
}

/// `[= word | ( word )]`
#[tactic(auto, using(crate::proofs::Words::given_values))]
fn some_value(tokens: &mut Cursor<'_>, depth: usize) -> Result<Option<Token>, ParseError>
    ensures { Gives (reads Name rules depth part.some_value tokens.old.counts tokens.old.rest.now) result tokens.new.counts tokens.new.rest.now }
{
    if tokens.sees_any(&[TokenKind::Equal, TokenKind::LeftParen]) {
        Ok(Some(pragma_value(tokens, depth)?))
    } else {
        Ok(None)
    }
}

/// `PRAGMA name [= word | ( word )]` (PRAGMA)
#[tactic(auto, using(crate::proofs::Words::pragma_is))]
pub(crate) fn pragma(tokens: &mut Cursor<'_>, depth: usize) -> Result<Pragma, ParseError>
    ensures { Gives (reads Name rules depth spec.pragma tokens.old.counts tokens.old.rest.now) result tokens.new.counts tokens.new.rest.now }
{
    tokens.expect(TokenKind::Pragma, Role::Outside)?;
    let name = name(tokens)?;
    let value = some_value(tokens, depth)?;
    Ok(Pragma { name, value })
}
