// NOT, AND and OR.

ghost use Rattle.std.specs.Prelude.{◌≡◌, IfOk, IfErr};
ghost use Rattle.sql_grammar.specs.Rules.{reads};
ghost use Rattle.sql_grammar.specs.Grammar as spec;
ghost use Rattle.sql_grammar.specs.Grammar.{Name};
ghost use Rattle.sql_grammar.specs.Bodies.{rules};
ghost use Rattle.sql_grammar.specs.Queries.{query};
ghost use Rattle.parse_cursor.specs.Gives.{Gives, apply_to};
ghost use Rattle.parse_cursor.specs.declared.error.ParseError.TheVariants as error;
ghost use Rattle.parse_operand.specs.Nests.{Nests};

use crate::operators::{binary, prefixes, unary};
use crate::precedence::Levels;
use parse_cursor::{Cursor, ParseError};
use sql_grammar::Role;
use sql_tree::{BinaryOp, Expr, Query, Token, TokenKind, UnaryOp};
use sqlite_items::{Boxed, Items};
use std::alloc::Global;

/// The operand behind these NOTs.
#[tactic(auto, using(crate::proofs::Lists::with_nots_last))]
fn with_nots(
    alloc: Global,
    mut nots: Items<Token>,
    mut operand: Boxed<Expr>,
) -> Result<Boxed<Expr>, ParseError>
    ensures tree { IfOk result (λ e. e ≡ spec.with_nots nots operand) }
    ensures memory { IfErr result (λ e. e ≡ error.Memory) }
{
    while let Some(_) = nots.pop() {
        operand = unary(alloc, UnaryOp::Not, operand)?;
    }
    Ok(operand)
}

impl<
    F: Fn(Global, &mut Cursor<'_>, usize) -> Result<Boxed<Expr>, ParseError>,
    G: Fn(Global, &mut Cursor<'_>, usize) -> Result<Boxed<Query>, ParseError>,
> Levels<F, G> {
    /// `{NOT} equality`
    #[tactic(auto, using(crate::proofs::Straight::nots_first))]
    pub(crate) fn negation(&self, tokens: &mut Cursor<'_>) -> Result<Boxed<Expr>, ParseError>
        requires exprs { Nests spec.expr self.now.operands.depth (F.pre self.now.operands.inner) (F.post self.now.operands.inner) }
        requires queries { Nests query self.now.operands.depth (G.pre self.now.operands.query) (G.post self.now.operands.query) }
        ensures { Gives (reads Name rules self.now.operands.depth spec.negation tokens.old.counts tokens.old.rest.now) result tokens.new.counts tokens.new.rest.now }
    {
        let nots = prefixes(self.operands.alloc, tokens, &[TokenKind::Not])?;
        let operand = self.equality(tokens)?;
        with_nots(self.operands.alloc, nots, operand)
    }

    /// `negation {AND negation}`
    #[tactic(auto, using(crate::proofs::Suffixed::conjunction_is))]
    pub(crate) fn conjunction(&self, tokens: &mut Cursor<'_>) -> Result<Boxed<Expr>, ParseError>
        requires exprs { Nests spec.expr self.now.operands.depth (F.pre self.now.operands.inner) (F.post self.now.operands.inner) }
        requires queries { Nests query self.now.operands.depth (G.pre self.now.operands.query) (G.post self.now.operands.query) }
        ensures { Gives (reads Name rules self.now.operands.depth spec.conjunction tokens.old.counts tokens.old.rest.now) result tokens.new.counts tokens.new.rest.now }
    {
        let left = self.negation(tokens)?;
        self.more_conjunction(tokens, left)
    }

    /// `{AND negation}` behind its left operand
    #[tactic(auto, using(crate::proofs::Suffixed::conjunction_steps))]
    pub(crate) fn more_conjunction(
        &self,
        tokens: &mut Cursor<'_>,
        mut left: Boxed<Expr>,
    ) -> Result<Boxed<Expr>, ParseError>
        requires exprs { Nests spec.expr self.now.operands.depth (F.pre self.now.operands.inner) (F.post self.now.operands.inner) }
        requires queries { Nests query self.now.operands.depth (G.pre self.now.operands.query) (G.post self.now.operands.query) }
        ensures { Gives (apply_to left (reads Name rules self.now.operands.depth spec.more_conjunction tokens.old.counts tokens.old.rest.now)) result tokens.new.counts tokens.new.rest.now }
    {
        while tokens.sees(TokenKind::And) {
            tokens.expect(TokenKind::And, Role::Operator)?;
            let right = self.negation(tokens)?;
            left = binary(self.operands.alloc, BinaryOp::And, left, right)?;
        }
        Ok(left)
    }

    /// `conjunction {OR conjunction}`
    #[tactic(auto, using(crate::proofs::Suffixed::expr_is))]
    pub fn expr(&self, tokens: &mut Cursor<'_>) -> Result<Boxed<Expr>, ParseError>
        requires exprs { Nests spec.expr self.now.operands.depth (F.pre self.now.operands.inner) (F.post self.now.operands.inner) }
        requires queries { Nests query self.now.operands.depth (G.pre self.now.operands.query) (G.post self.now.operands.query) }
        ensures { Gives (reads Name rules self.now.operands.depth spec.expr tokens.old.counts tokens.old.rest.now) result tokens.new.counts tokens.new.rest.now }
    {
        let left = self.conjunction(tokens)?;
        self.more_expr(tokens, left)
    }

    /// `{OR conjunction}` behind its left operand
    #[tactic(auto, using(crate::proofs::Suffixed::expr_steps))]
    pub(crate) fn more_expr(
        &self,
        tokens: &mut Cursor<'_>,
        mut left: Boxed<Expr>,
    ) -> Result<Boxed<Expr>, ParseError>
        requires exprs { Nests spec.expr self.now.operands.depth (F.pre self.now.operands.inner) (F.post self.now.operands.inner) }
        requires queries { Nests query self.now.operands.depth (G.pre self.now.operands.query) (G.post self.now.operands.query) }
        ensures { Gives (apply_to left (reads Name rules self.now.operands.depth spec.more_expr tokens.old.counts tokens.old.rest.now)) result tokens.new.counts tokens.new.rest.now }
    {
        while tokens.sees(TokenKind::Or) {
            tokens.expect(TokenKind::Or, Role::Operator)?;
            let right = self.conjunction(tokens)?;
            left = binary(self.operands.alloc, BinaryOp::Or, left, right)?;
        }
        Ok(left)
    }
}
