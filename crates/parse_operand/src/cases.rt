// CASE (SQL Language Expressions, The CASE expression).

ghost use Rattle.std.specs.Prelude.{◌<◌, ◌-◌};
ghost use Rattle.sql_grammar.specs.Rules.{reads};
ghost use Rattle.sql_grammar.specs.Grammar as spec;
ghost use Rattle.sql_grammar.specs.Grammar.{Name};
ghost use Rattle.sql_grammar.specs.Bodies.{rules};
ghost use Rattle.parse_cursor.specs.Gives.{Gives};
ghost use Rattle.parse_operand.specs.Nests.{Nests};
ghost use Rattle.parse_operand.specs.Parts as part;

use crate::operands::Operands;
use parse_cursor::{Cursor, Element, ParseError, boxed, several};
use sql_grammar::Role;
use sql_tree::{Arm, Expr, TokenKind};
use sqlite_items::{Boxed, Items};
use std::alloc::Global;

/// `WHEN expr THEN expr`, in lists.
impl<F: Fn(Global, &mut Cursor<'_>, usize) -> Result<Boxed<Expr>, ParseError>, G> Element<Arm>
    for Operands<F, G> {
    ghost is_ready = { λ it. Nests spec.expr it.depth (F.pre it.inner) (F.post it.inner) × (0 < it.depth) };

    ghost rule = { λ it. spec.arm };

    ghost depth = { λ it. it.depth - 1 };

    #[tactic(auto, using(crate::proofs::Inside::arm_is))]
    fn read(&self, tokens: &mut Cursor<'_>) -> Result<Arm, ParseError> {
        let condition = self.behind(tokens, TokenKind::When)?;
        let value = self.behind(tokens, TokenKind::Then)?;
        Ok(Arm {
            condition: condition.into_inner(),
            value: value.into_inner(),
        })
    }
}

impl<F: Fn(Global, &mut Cursor<'_>, usize) -> Result<Boxed<Expr>, ParseError>, G> Operands<F, G> {
    /// `arm {arm}`
    #[tactic(auto, using(crate::proofs::Lists::arms_steps))]
    pub(crate) fn arms(&self, tokens: &mut Cursor<'_>) -> Result<Items<Arm>, ParseError>
        requires exprs { Nests spec.expr self.now.depth (F.pre self.now.inner) (F.post self.now.inner) }
        requires open { 0 < self.now.depth }
        ensures { Gives (reads Name rules (self.now.depth - 1) spec.arms tokens.old.counts tokens.old.rest.now) result tokens.new.counts tokens.new.rest.now }
    {
        several(self.alloc, tokens, &[TokenKind::When], self)
    }

    /// `[ELSE expr]`
    #[tactic(auto, using(crate::proofs::Inside::otherwise_steps))]
    pub(crate) fn otherwise(
        &self,
        tokens: &mut Cursor<'_>,
    ) -> Result<Option<Boxed<Expr>>, ParseError>
        requires exprs { Nests spec.expr self.now.depth (F.pre self.now.inner) (F.post self.now.inner) }
        requires open { 0 < self.now.depth }
        ensures { Gives (reads Name rules (self.now.depth - 1) spec.otherwise tokens.old.counts tokens.old.rest.now) result tokens.new.counts tokens.new.rest.now }
    {
        if tokens.sees(TokenKind::Else) {
            Ok(Some(self.behind(tokens, TokenKind::Else)?))
        } else {
            Ok(None)
        }
    }

    /// `arm {arm} [ELSE expr]` behind the operand, if there is one
    #[tactic(auto, using(crate::proofs::Inside::branches_are))]
    pub(crate) fn branches(
        &self,
        tokens: &mut Cursor<'_>,
        operand: Option<Boxed<Expr>>,
    ) -> Result<Boxed<Expr>, ParseError>
        requires exprs { Nests spec.expr self.now.depth (F.pre self.now.inner) (F.post self.now.inner) }
        requires open { 0 < self.now.depth }
        ensures { Gives (reads Name rules (self.now.depth - 1) (part.branches operand) tokens.old.counts tokens.old.rest.now) result tokens.new.counts tokens.new.rest.now }
    {
        let arms = self.arms(tokens)?;
        let other = self.otherwise(tokens)?;
        boxed(self.alloc, Expr::Case(operand, arms, other))
    }

    /// `[expr] arm {arm} [ELSE expr]`
    #[tactic(auto, using(crate::proofs::Inside::case_steps))]
    pub(crate) fn case(&self, tokens: &mut Cursor<'_>) -> Result<Boxed<Expr>, ParseError>
        requires exprs { Nests spec.expr self.now.depth (F.pre self.now.inner) (F.post self.now.inner) }
        requires open { 0 < self.now.depth }
        ensures { Gives (reads Name rules (self.now.depth - 1) spec.case tokens.old.counts tokens.old.rest.now) result tokens.new.counts tokens.new.rest.now }
    {
        if tokens.sees(TokenKind::When) {
            return self.branches(tokens, None);
        }
        let operand = self.inner(tokens)?;
        self.branches(tokens, Some(operand))
    }
}
