// The tokens that are left.

ghost use Rattle.std.specs.Prelude.{◌≡◌, ◌<◌, ◌∷◌, [], Ok, Err, IfOk, IfErr};
ghost use Rattle.sql_grammar.specs.Marks as marks;
ghost use Rattle.sql_grammar.specs.Marks.{count, operator, outside, part};
ghost use Rattle.sql_grammar.specs.Rules.{has, one, opening, starts, taken};
ghost use Rattle.parse_cursor.specs.Gives.{Gives, closed};

use crate::error::ParseError;
use sql_grammar::{Counts, Limit, MAX_NESTINGS, MAX_OPERATORS, MAX_PARTS, Role, count};
use sql_tree::{Token, TokenKind};

/// The tokens from the next one on, with what those before it counted.
#[derive(Drop)]
pub struct Cursor<'a> {
    pub rest: &'a [Token],
    pub counts: Counts,
}

impl<'a> Cursor<'a> {
    /// Whether the next token is of this kind.
    pub fn sees(&self, kind: TokenKind) -> bool
        ensures { result ≡ starts (kind ∷ []) self.now.rest.now }
    {
        match self.rest {
            [token, ..] => token.kind == kind,
            [] => false,
        }
    }

    /// Whether the next token is of one of these kinds.
    pub fn sees_any(&self, kinds: &[TokenKind]) -> bool
        ensures { result ≡ starts kinds.now self.now.rest.now }
    {
        match self.rest {
            [token, ..] => holds(kinds, token.kind),
            [] => false,
        }
    }

    /// Takes the next token, which is of one of these kinds, unless it passes a limit.
    pub fn expect_any(&mut self, kinds: &[TokenKind], role: Role) -> Result<Token, ParseError>
        ensures { Gives (one role kinds.now self.old.counts self.old.rest.now) result self.new.counts self.new.rest.now }
    {
        match self.rest {
            [token, rest @ ..] if holds(kinds, token.kind) => self.take(token, rest, role),
            _ => Err(ParseError::Syntax),
        }
    }

    /// Takes the next token, which is of this kind, unless it passes a limit.
    pub fn expect(&mut self, kind: TokenKind, role: Role) -> Result<Token, ParseError>
        ensures { Gives (one role (kind ∷ []) self.old.counts self.old.rest.now) result self.new.counts self.new.rest.now }
    {
        match self.rest {
            [token, rest @ ..] if token.kind == kind => self.take(token, rest, role),
            _ => Err(ParseError::Syntax),
        }
    }

    /// Takes the next token, which stands in front of these, unless it passes a limit.
    fn take(&mut self, token: &Token, rest: &'a [Token], role: Role) -> Result<Token, ParseError>
        requires { self.old.rest.now ≡ token.now ∷ rest.now }
        ensures { Gives (taken (count role self.old.counts) token.now rest.now) result self.new.counts self.new.rest.now }
    {
        match count_here(&mut self.counts, role) {
            Ok(()) => {
                self.rest = rest;
                Ok(*token)
            }
            Err(limit) => Err(ParseError::TooMuch(limit)),
        }
    }

    /// Takes the next token, which is of this kind and opens a nesting, where so many may still be opened.
    #[tactic(auto, using(crate::proofs::Opening::openings))]
    pub fn open(&mut self, depth: usize, kind: TokenKind, role: Role) -> Result<Token, ParseError>
        ensures reads { Gives (opening depth role (kind ∷ []) self.old.counts self.old.rest.now) result self.new.counts self.new.rest.now }
        ensures open { IfOk result (λ _. 0 < depth) }
    {
        if depth > 0 {
            return self.expect(kind, role);
        }
        if self.sees(kind) {
            return Err(ParseError::TooMuch(Limit::Nestings));
        }
        Err(ParseError::Syntax)
    }

    /// What was found, if the token behind it is of this kind and passes no limit.
    pub fn close<T: Drop>(&mut self, found: T, kind: TokenKind, role: Role) -> Result<T, ParseError>
        ensures { Gives (closed found role (kind ∷ []) self.old.counts self.old.rest.now) result self.new.counts self.new.rest.now }
    {
        self.expect(kind, role)?;
        Ok(found)
    }
}

/// Counts a token of this role, unless it passes a limit. The counts are large to copy, and most tokens change little of them.
#[tactic(auto, unfolding(sql_grammar::specs::Marks::count))]
fn count_here(counts: &mut Counts, role: Role) -> Result<(), Limit>
    ensures counts { IfOk result (λ _. count role counts.old ≡ Ok counts.new) }
    ensures limit { IfErr result (λ limit. count role counts.old ≡ Err limit) }
{
    match role {
        Role::Quiet => Ok(()),
        Role::Operator => count_operator(counts),
        Role::Outside => {
            leave(counts);
            Ok(())
        }
        Role::Part => {
            leave(counts);
            count_part(counts)
        }
        Role::Opening => {
            leave(counts);
            count_opening(counts)
        }
        Role::Closing => {
            leave(counts);
            counts.depth = counts.depth.saturating_sub(1);
            Ok(())
        }
        _ => {
            *counts = count(role, *counts)?;
            Ok(())
        }
    }
}

fn count_operator(counts: &mut Counts) -> Result<(), Limit>
    ensures counts { IfOk result (λ _. operator counts.old ≡ Ok counts.new) }
    ensures limit { IfErr result (λ limit. operator counts.old ≡ Err limit) }
{
    if counts.operators < MAX_OPERATORS {
        counts.operators += 1;
        Ok(())
    } else {
        Err(Limit::Operators)
    }
}

fn count_part(counts: &mut Counts) -> Result<(), Limit>
    ensures counts { IfOk result (λ _. part counts.old ≡ Ok counts.new) }
    ensures limit { IfErr result (λ limit. part counts.old ≡ Err limit) }
{
    let depth = counts.depth;
    if depth < MAX_NESTINGS + 1 && counts.parts[depth] < MAX_PARTS {
        counts.parts[depth] += 1;
        Ok(())
    } else {
        Err(Limit::Parts)
    }
}

// The query that stands directly in the bracket begins anew.
fn count_opening(counts: &mut Counts) -> Result<(), Limit>
    ensures counts { IfOk result (λ _. marks.opening counts.old ≡ Ok counts.new) }
    ensures limit { IfErr result (λ limit. marks.opening counts.old ≡ Err limit) }
{
    if counts.depth < MAX_NESTINGS {
        counts.depth += 1;
        counts.parts[counts.depth] = 0;
        Ok(())
    } else {
        Err(Limit::Nestings)
    }
}

// Outside of all expressions the next one begins anew.
fn leave(counts: &mut Counts)
    ensures { counts.new ≡ outside counts.old }
{
    if counts.within == 0 {
        counts.operators = 0;
    }
}

fn holds(kinds: &[TokenKind], kind: TokenKind) -> bool
    ensures { result ≡ has kinds.now kind }
{
    for known in kinds {
        if kind == *known {
            return true;
        }
    }
    false
}
