// Queries in parentheses, and what else may stand there.

ghost use Rattle.std.specs.Prelude.{◌≡◌, ◌<◌, ◌-◌};
ghost use Rattle.sql_grammar.specs.Rules.{reads, first, starts};
ghost use Rattle.sql_grammar.specs.Grammar as spec;
ghost use Rattle.sql_grammar.specs.Grammar.{Name};
ghost use Rattle.sql_grammar.specs.Bodies.{rules};
ghost use Rattle.sql_grammar.specs.Queries.{query};
ghost use Rattle.parse_cursor.specs.Gives.{Gives, apply_one};
ghost use Rattle.parse_operand.specs.Nests.{Nests};
ghost use Rattle.parse_operand.specs.Parts as part;

use crate::calls::sees_expr;
use crate::operands::Operands;
use parse_cursor::{Cursor, ParseError, boxed};
use sql_grammar::Role;
use sql_tree::{Expr, Query, TokenKind};
use sqlite_items::{Boxed, Items};
use std::alloc::Global;

/// What a query begins with.
const QUERY_STARTS: [TokenKind; 3] = [TokenKind::With, TokenKind::Select, TokenKind::Values];

/// Whether a query begins here.
#[tactic(auto, using(crate::proofs::Clear::first_query))]
pub fn sees_query(tokens: &Cursor<'_>) -> bool
    ensures { result ≡ starts (first query) tokens.now.rest.now }
{
    tokens.sees_any(&QUERY_STARTS)
}

impl<
    F: Fn(Global, &mut Cursor<'_>, usize) -> Result<Boxed<Expr>, ParseError>,
    G: Fn(Global, &mut Cursor<'_>, usize) -> Result<Boxed<Query>, ParseError>,
> Operands<F, G> {
    /// `query | expr`
    #[tactic(auto, using(crate::proofs::Inside::parentheses_steps))]
    pub(crate) fn inside_parentheses(
        &self,
        tokens: &mut Cursor<'_>,
    ) -> Result<Boxed<Expr>, ParseError>
        requires exprs { Nests spec.expr self.now.depth (F.pre self.now.inner) (F.post self.now.inner) }
        requires queries { Nests query self.now.depth (G.pre self.now.query) (G.post self.now.query) }
        requires open { 0 < self.now.depth }
        ensures { Gives (reads Name rules (self.now.depth - 1) part.inside_parentheses tokens.old.counts tokens.old.rest.now) result tokens.new.counts tokens.new.rest.now }
    {
        if sees_query(tokens) {
            let query = self.inner_query(tokens)?;
            return boxed(self.alloc, Expr::Subquery(query));
        }
        self.inner(tokens)
    }

    /// `( query | expr )`
    #[tactic(auto, using(crate::proofs::Bracketed::enclosed_is))]
    pub(crate) fn enclosed(&self, tokens: &mut Cursor<'_>) -> Result<Boxed<Expr>, ParseError>
        requires exprs { Nests spec.expr self.now.depth (F.pre self.now.inner) (F.post self.now.inner) }
        requires queries { Nests query self.now.depth (G.pre self.now.query) (G.post self.now.query) }
        ensures { Gives (reads Name rules self.now.depth spec.enclosed tokens.old.counts tokens.old.rest.now) result tokens.new.counts tokens.new.rest.now }
    {
        tokens.open(self.depth, TokenKind::LeftParen, Role::Inward)?;
        let found = self.inside_parentheses(tokens)?;
        tokens.close(found, TokenKind::RightParen, Role::Outward)
    }

    /// `EXISTS ( query )`
    #[tactic(auto, using(crate::proofs::Wrapped::existing_steps))]
    pub(crate) fn existing(&self, tokens: &mut Cursor<'_>) -> Result<Boxed<Expr>, ParseError>
        requires queries { Nests query self.now.depth (G.pre self.now.query) (G.post self.now.query) }
        ensures { Gives (reads Name rules self.now.depth spec.existing tokens.old.counts tokens.old.rest.now) result tokens.new.counts tokens.new.rest.now }
    {
        tokens.expect(TokenKind::Exists, Role::Quiet)?;
        tokens.open(self.depth, TokenKind::LeftParen, Role::Inward)?;
        let found = self.inner_query(tokens)?;
        let query = tokens.close(found, TokenKind::RightParen, Role::Outward)?;
        boxed(self.alloc, Expr::Exists(query))
    }

    /// `[expr {, expr}]`
    #[tactic(auto, using(crate::proofs::Inside::listed_steps))]
    pub(crate) fn listed_members(&self, tokens: &mut Cursor<'_>) -> Result<Items<Expr>, ParseError>
        requires exprs { Nests spec.expr self.now.depth (F.pre self.now.inner) (F.post self.now.inner) }
        requires open { 0 < self.now.depth }
        ensures { Gives (reads Name rules (self.now.depth - 1) part.listed_members tokens.old.counts tokens.old.rest.now) result tokens.new.counts tokens.new.rest.now }
    {
        if sees_expr(tokens) {
            self.exprs(tokens)
        } else {
            Ok(Items::new(self.alloc))
        }
    }

    /// `query | [expr {, expr}]`, the members of IN behind its left operand
    #[tactic(auto, using(crate::proofs::Inside::members_steps))]
    pub(crate) fn inside_members(
        &self,
        tokens: &mut Cursor<'_>,
        left: Boxed<Expr>,
    ) -> Result<Boxed<Expr>, ParseError>
        requires exprs { Nests spec.expr self.now.depth (F.pre self.now.inner) (F.post self.now.inner) }
        requires queries { Nests query self.now.depth (G.pre self.now.query) (G.post self.now.query) }
        requires open { 0 < self.now.depth }
        ensures { Gives (apply_one left (reads Name rules (self.now.depth - 1) part.inside_members tokens.old.counts tokens.old.rest.now)) result tokens.new.counts tokens.new.rest.now }
    {
        if sees_query(tokens) {
            let query = self.inner_query(tokens)?;
            return boxed(self.alloc, Expr::InQuery(left, query));
        }
        let members = self.listed_members(tokens)?;
        boxed(self.alloc, Expr::In(left, members))
    }

    /// `( query | [expr {, expr}] )`, the members behind IN
    #[tactic(auto, using(crate::proofs::Bracketed::in_members_is))]
    pub fn in_members(
        &self,
        tokens: &mut Cursor<'_>,
        left: Boxed<Expr>,
    ) -> Result<Boxed<Expr>, ParseError>
        requires exprs { Nests spec.expr self.now.depth (F.pre self.now.inner) (F.post self.now.inner) }
        requires queries { Nests query self.now.depth (G.pre self.now.query) (G.post self.now.query) }
        ensures { Gives (apply_one left (reads Name rules self.now.depth part.in_members tokens.old.counts tokens.old.rest.now)) result tokens.new.counts tokens.new.rest.now }
    {
        tokens.open(self.depth, TokenKind::LeftParen, Role::Inward)?;
        let found = self.inside_members(tokens, left)?;
        tokens.close(found, TokenKind::RightParen, Role::Outward)
    }
}
