// The rules at a number of nestings that are left.

ghost use Rattle.std.specs.Prelude.{◌<◌, ◌-◌};
ghost use Rattle.sql_grammar.specs.Rules.{reads};
ghost use Rattle.sql_grammar.specs.Grammar as spec;
ghost use Rattle.sql_grammar.specs.Grammar.{Name};
ghost use Rattle.sql_grammar.specs.Bodies.{rules};
ghost use Rattle.sql_grammar.specs.Queries.{query};
ghost use Rattle.parse_cursor.specs.Gives.{Gives};
ghost use Rattle.parse_operand.specs.Nests.{Nests};
ghost use Rattle.parse_operand.specs.Parts as part;

use crate::primaries::{LITERALS, sees_lone_literal};
use parse_cursor::{Cursor, Element, ParseError};
use sql_grammar::Role;
use sql_tree::{Expr, Query, TokenKind};
use sqlite_items::Boxed;
use std::alloc::Global;

/// Each rule of the grammar is a method, which parses what the rule derives.
#[derive(Clone, Copy)]
pub struct Operands<F, G> {
    pub alloc: Global,
    /// How many nestings may still be opened.
    pub depth: usize,
    /// Parses an expression behind an opening token, with one nesting less.
    pub inner: F,
    /// Parses a query behind an opening token, with one nesting less.
    pub query: G,
}

impl<F: Fn(Global, &mut Cursor<'_>, usize) -> Result<Boxed<Expr>, ParseError>, G> Operands<F, G> {
    /// An expression behind an opening token.
    pub fn inner(&self, tokens: &mut Cursor<'_>) -> Result<Boxed<Expr>, ParseError>
        requires exprs { Nests spec.expr self.now.depth (F.pre self.now.inner) (F.post self.now.inner) }
        requires open { 0 < self.now.depth }
        ensures { Gives (reads Name rules (self.now.depth - 1) spec.expr tokens.old.counts tokens.old.rest.now) result tokens.new.counts tokens.new.rest.now }
    {
        (self.inner)(self.alloc, tokens, self.depth - 1)
    }

    /// `word expr`, behind an opening token
    #[tactic(auto, using(crate::proofs::Straight::behind_is))]
    pub(crate) fn behind(
        &self,
        tokens: &mut Cursor<'_>,
        word: TokenKind,
    ) -> Result<Boxed<Expr>, ParseError>
        requires exprs { Nests spec.expr self.now.depth (F.pre self.now.inner) (F.post self.now.inner) }
        requires open { 0 < self.now.depth }
        ensures { Gives (reads Name rules (self.now.depth - 1) (part.behind word) tokens.old.counts tokens.old.rest.now) result tokens.new.counts tokens.new.rest.now }
    {
        tokens.expect(word, Role::Quiet)?;
        self.inner(tokens)
    }
}

impl<F, G: Fn(Global, &mut Cursor<'_>, usize) -> Result<Boxed<Query>, ParseError>> Operands<F, G> {
    /// A query behind an opening token.
    pub fn inner_query(&self, tokens: &mut Cursor<'_>) -> Result<Boxed<Query>, ParseError>
        requires queries { Nests query self.now.depth (G.pre self.now.query) (G.post self.now.query) }
        requires open { 0 < self.now.depth }
        ensures { Gives (reads Name rules (self.now.depth - 1) query tokens.old.counts tokens.old.rest.now) result tokens.new.counts tokens.new.rest.now }
    {
        (self.query)(self.alloc, tokens, self.depth - 1)
    }
}

/// Expressions, in lists.
impl<F: Fn(Global, &mut Cursor<'_>, usize) -> Result<Boxed<Expr>, ParseError>, G> Element<Expr>
    for Operands<F, G> {
    ghost is_ready = { λ it. Nests spec.expr it.depth (F.pre it.inner) (F.post it.inner) × (0 < it.depth) };

    ghost rule = { λ it. spec.expr };

    ghost depth = { λ it. it.depth - 1 };

    fn read(&self, tokens: &mut Cursor<'_>) -> Result<Expr, ParseError> {
        if sees_lone_literal(tokens) {
            return Ok(Expr::Literal(tokens.expect_any(&LITERALS, Role::Quiet)?));
        }
        Ok(self.inner(tokens)?.into_inner())
    }
}
