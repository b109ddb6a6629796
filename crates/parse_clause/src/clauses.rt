// The rules at a number of nestings that are left, and what several of them share.

ghost use Rattle.sql_grammar.specs.Rules.{reads};
ghost use Rattle.sql_grammar.specs.Grammar.{Name, expr};
ghost use Rattle.sql_grammar.specs.Queries as spec;
ghost use Rattle.sql_grammar.specs.Queries.{query};
ghost use Rattle.sql_grammar.specs.Bodies.{rules};
ghost use Rattle.parse_cursor.specs.Gives.{Gives};
ghost use Rattle.parse_operand.specs.Nests.{Nests};
ghost use Rattle.parse_clause.specs.Parts as part;

use parse_cursor::{Cursor, Element, ParseError, text_before};
use parse_expr::Levels;
use sql_grammar::Role;
use sql_tree::{Expr, Query, SpannedExpr, TokenKind};
use sqlite_items::Boxed;
use std::alloc::Global;

/// Each rule of the grammar is a method, which parses what the rule derives.
#[derive(Clone, Copy)]
pub struct Clauses<F, G> {
    pub levels: Levels<F, G>,
}

impl<
    F: Fn(Global, &mut Cursor<'_>, usize) -> Result<Boxed<Expr>, ParseError>,
    G: Fn(Global, &mut Cursor<'_>, usize) -> Result<Boxed<Query>, ParseError>,
> Clauses<F, G> {
    /// Parses an expression (SQL Language Expressions), and gives its tree with the bytes of its text.
    #[tactic(auto, unfolding(sql_grammar::specs::Queries::spanned_expr))]
    pub fn spanned_expr(&self, tokens: &mut Cursor<'_>) -> Result<SpannedExpr, ParseError>
        requires exprs { Nests expr self.now.levels.operands.depth (F.pre self.now.levels.operands.inner) (F.post self.now.levels.operands.inner) }
        requires queries { Nests query self.now.levels.operands.depth (G.pre self.now.levels.operands.query) (G.post self.now.levels.operands.query) }
        ensures { Gives (reads Name rules self.now.levels.operands.depth spec.spanned_expr tokens.old.counts tokens.old.rest.now) result tokens.new.counts tokens.new.rest.now }
    {
        let behind = tokens.rest;
        match self.levels.expr(tokens) {
            Ok(found) => Ok(SpannedExpr {
                expr: found.into_inner(),
                text: text_before(behind, tokens.rest),
            }),
            Err(why) => Err(why),
        }
    }

    /// Parses `( query )` (SELECT), where a nesting may still be opened.
    #[tactic(auto, using(crate::proofs::Bracketed::in_query_is))]
    pub fn in_query(&self, tokens: &mut Cursor<'_>) -> Result<Boxed<Query>, ParseError>
        requires exprs { Nests expr self.now.levels.operands.depth (F.pre self.now.levels.operands.inner) (F.post self.now.levels.operands.inner) }
        requires queries { Nests query self.now.levels.operands.depth (G.pre self.now.levels.operands.query) (G.post self.now.levels.operands.query) }
        ensures { Gives (reads Name rules self.now.levels.operands.depth part.in_query tokens.old.counts tokens.old.rest.now) result tokens.new.counts tokens.new.rest.now }
    {
        tokens.open(
            self.levels.operands.depth,
            TokenKind::LeftParen,
            Role::Opening,
        )?;
        match self.levels.operands.inner_query(tokens) {
            Ok(found) => tokens.close(found, TokenKind::RightParen, Role::Closing),
            Err(why) => Err(why),
        }
    }

    /// Parses `[word expr]`, for a clause that is a word and an expression.
    #[tactic(auto, using(crate::proofs::Expressions::expr_after_steps))]
    pub fn expr_after(
        &self,
        tokens: &mut Cursor<'_>,
        word: TokenKind,
    ) -> Result<Option<Expr>, ParseError>
        requires exprs { Nests expr self.now.levels.operands.depth (F.pre self.now.levels.operands.inner) (F.post self.now.levels.operands.inner) }
        requires queries { Nests query self.now.levels.operands.depth (G.pre self.now.levels.operands.query) (G.post self.now.levels.operands.query) }
        ensures { Gives (reads Name rules self.now.levels.operands.depth (part.expr_after word) tokens.old.counts tokens.old.rest.now) result tokens.new.counts tokens.new.rest.now }
    {
        if !tokens.sees(word) {
            return Ok(None);
        }
        tokens.expect(word, Role::Outside)?;
        match self.levels.expr(tokens) {
            Ok(found) => Ok(Some(found.into_inner())),
            Err(why) => Err(why),
        }
    }

    /// Parses `[WHERE expr]` (SELECT).
    #[tactic(auto, using(crate::proofs::Expressions::filter_by_is))]
    pub fn filter_by(&self, tokens: &mut Cursor<'_>) -> Result<Option<Expr>, ParseError>
        requires exprs { Nests expr self.now.levels.operands.depth (F.pre self.now.levels.operands.inner) (F.post self.now.levels.operands.inner) }
        requires queries { Nests query self.now.levels.operands.depth (G.pre self.now.levels.operands.query) (G.post self.now.levels.operands.query) }
        ensures { Gives (reads Name rules self.now.levels.operands.depth spec.filter_by tokens.old.counts tokens.old.rest.now) result tokens.new.counts tokens.new.rest.now }
    {
        self.expr_after(tokens, TokenKind::Where)
    }
}

/// Expressions with the bytes of their texts, in lists.
impl<
    F: Fn(Global, &mut Cursor<'_>, usize) -> Result<Boxed<Expr>, ParseError>,
    G: Fn(Global, &mut Cursor<'_>, usize) -> Result<Boxed<Query>, ParseError>,
> Element<SpannedExpr> for Clauses<F, G> {
    ghost is_ready = { λ it. Nests expr it.levels.operands.depth (F.pre it.levels.operands.inner) (F.post it.levels.operands.inner) × Nests query it.levels.operands.depth (G.pre it.levels.operands.query) (G.post it.levels.operands.query) };

    ghost rule = { λ it. spec.spanned_expr };

    ghost depth = { λ it. it.levels.operands.depth };

    fn read(&self, tokens: &mut Cursor<'_>) -> Result<SpannedExpr, ParseError> {
        self.spanned_expr(tokens)
    }
}
