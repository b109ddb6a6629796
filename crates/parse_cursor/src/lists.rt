// Lists: what an element is, is handed in.

ghost use Rattle.std.specs.Prelude.{ℕ, ◌≡◌, true};
ghost use Rattle.sql_grammar.specs.Rules.{first, is_clear, reads};
ghost use Rattle.sql_grammar.specs.Grammar.{Name, Of};
ghost use Rattle.sql_grammar.specs.Bodies.{rules};
ghost use Rattle.parse_cursor.specs.Gives.{Gives};
ghost use Rattle.parse_cursor.specs.Items.{items, run};

use crate::cursor::Cursor;
use crate::error::ParseError;
use sql_grammar::Role;
use sql_tree::TokenKind;
use sqlite_items::Items;
use std::alloc::Global;

/// Parses what lists hold.
pub trait Element<T> {
    ghost is_ready: { Self → Type 0 };

    ghost rule: { Self → Of T };

    ghost depth: { Self → ℕ };

    fn read(&self, tokens: &mut Cursor<'_>) -> Result<T, ParseError>
        requires { is_ready self.now }
        ensures { Gives (reads Name rules (depth self.now) (rule self.now) tokens.old.counts tokens.old.rest.now) result tokens.new.counts tokens.new.rest.now };
}

/// `element {, element}`
#[tactic(auto, using(crate::proofs::Items::items_steps))]
pub fn list<T: Drop, E: Element<T>>(
    alloc: Global,
    tokens: &mut Cursor<'_>,
    element: &E,
) -> Result<Items<T>, ParseError>
    requires ready { E.is_ready element.now }
    requires clear { is_clear Name rules (items (E.rule element.now)) ≡ true }
    ensures { Gives (reads Name rules (E.depth element.now) (items (E.rule element.now)) tokens.old.counts tokens.old.rest.now) result tokens.new.counts tokens.new.rest.now }
{
    let mut found = Items::new(alloc);
    found.push(element.read(tokens)?)?;
    while tokens.sees(TokenKind::Comma) {
        tokens.expect(TokenKind::Comma, Role::Outside)?;
        found.push(element.read(tokens)?)?;
    }
    Ok(found)
}

/// `element {element}`, as long as one of these kinds comes
#[tactic(auto, using(crate::proofs::Items::run_steps))]
pub fn several<T: Drop, E: Element<T>>(
    alloc: Global,
    tokens: &mut Cursor<'_>,
    begins: &[TokenKind],
    element: &E,
) -> Result<Items<T>, ParseError>
    requires ready { E.is_ready element.now }
    requires clear { is_clear Name rules (run (E.rule element.now)) ≡ true }
    requires begins { first (E.rule element.now) ≡ begins.now }
    ensures { Gives (reads Name rules (E.depth element.now) (run (E.rule element.now)) tokens.old.counts tokens.old.rest.now) result tokens.new.counts tokens.new.rest.now }
{
    let mut found = Items::new(alloc);
    found.push(element.read(tokens)?)?;
    while tokens.sees_any(begins) {
        found.push(element.read(tokens)?)?;
    }
    Ok(found)
}
