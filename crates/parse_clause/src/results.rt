// What a SELECT gives of each row.

ghost use Rattle.std.specs.Prelude.{◌≡◌};
ghost use Rattle.sql_grammar.specs.Rules.{reads, before};
ghost use Rattle.sql_grammar.specs.Grammar.{Name, expr};
ghost use Rattle.sql_grammar.specs.Queries as spec;
ghost use Rattle.sql_grammar.specs.Queries.{query};
ghost use Rattle.sql_grammar.specs.Bodies.{rules};
ghost use Rattle.parse_cursor.specs.Gives.{Gives};
ghost use Rattle.parse_operand.specs.Nests.{Nests};
ghost use Rattle.parse_clause.specs.Parts as part;

use crate::clauses::Clauses;
use crate::words::alias;
use parse_cursor::{Cursor, Element, ParseError, boxed, list, name, sees_name, text_before};
use sql_grammar::Role;
use sql_tree::{Expr, Query, ResultColumn, Span, SpannedExpr, Token, TokenKind};
use sqlite_items::{Boxed, Items};
use std::alloc::Global;

/// The bytes of a front, and of the tokens from there to a rest.
#[tactic(auto, using(crate::proofs::Spans::longer_steps))]
fn longer(front: Span, tokens: &[Token], rest: &[Token]) -> Span
    ensures { result ≡ part.longer front (before tokens.now rest.now) }
{
    if tokens.len() <= rest.len() {
        return front;
    }
    Span {
        start: front.start,
        end: text_before(tokens, rest).end,
    }
}

/// The bytes from one token to another.
fn from_to(first: Token, last: Token) -> Span
    ensures { result ≡ part.from_to first last }
{
    Span {
        start: first.span.start,
        end: last.span.end,
    }
}

impl<
    F: Fn(Global, &mut Cursor<'_>, usize) -> Result<Boxed<Expr>, ParseError>,
    G: Fn(Global, &mut Cursor<'_>, usize) -> Result<Boxed<Query>, ParseError>,
> Clauses<F, G> {
    /// An operand at these bytes, and what goes on behind it.
    #[tactic(auto, using(crate::proofs::ResultSteps::spanned_tails_is))]
    fn spanned_tails(
        &self,
        tokens: &mut Cursor<'_>,
        operand: Expr,
        front: Span,
    ) -> Result<SpannedExpr, ParseError>
        requires exprs { Nests expr self.now.levels.operands.depth (F.pre self.now.levels.operands.inner) (F.post self.now.levels.operands.inner) }
        requires queries { Nests query self.now.levels.operands.depth (G.pre self.now.levels.operands.query) (G.post self.now.levels.operands.query) }
        ensures { Gives (part.goes_on operand front (reads Name rules self.now.levels.operands.depth spec.spanned_tails tokens.old.counts tokens.old.rest.now)) result tokens.new.counts tokens.new.rest.now }
    {
        let behind = tokens.rest;
        let operand = boxed(self.levels.operands.alloc, operand)?;
        match self.levels.tails(tokens, operand) {
            Ok(found) => Ok(SpannedExpr {
                expr: found.into_inner(),
                text: longer(front, behind, tokens.rest),
            }),
            Err(why) => Err(why),
        }
    }

    /// A call of this function, and what goes on behind it.
    #[tactic(auto, using(crate::proofs::ResultSteps::spanned_call_is))]
    fn spanned_call(
        &self,
        tokens: &mut Cursor<'_>,
        function: Token,
    ) -> Result<SpannedExpr, ParseError>
        requires exprs { Nests expr self.now.levels.operands.depth (F.pre self.now.levels.operands.inner) (F.post self.now.levels.operands.inner) }
        requires queries { Nests query self.now.levels.operands.depth (G.pre self.now.levels.operands.query) (G.post self.now.levels.operands.query) }
        ensures { Gives (part.called function (reads Name rules self.now.levels.operands.depth spec.spanned_call tokens.old.counts tokens.old.rest.now)) result tokens.new.counts tokens.new.rest.now }
    {
        let behind = tokens.rest;
        let call = match self.levels.operands.call(tokens, function) {
            Ok(found) => found,
            Err(why) => return Err(why),
        };
        match self.levels.tails(tokens, call) {
            Ok(found) => Ok(SpannedExpr {
                expr: found.into_inner(),
                text: longer(function.span, behind, tokens.rest),
            }),
            Err(why) => Err(why),
        }
    }

    /// Behind `table .`: a column and what goes on behind it.
    #[tactic(auto, using(crate::proofs::ResultSteps::column_of_table_is))]
    fn column_of_table(
        &self,
        tokens: &mut Cursor<'_>,
        table: Token,
    ) -> Result<ResultColumn, ParseError>
        requires exprs { Nests expr self.now.levels.operands.depth (F.pre self.now.levels.operands.inner) (F.post self.now.levels.operands.inner) }
        requires queries { Nests query self.now.levels.operands.depth (G.pre self.now.levels.operands.query) (G.post self.now.levels.operands.query) }
        ensures { Gives (part.of_name table (reads Name rules self.now.levels.operands.depth spec.column_of_table tokens.old.counts tokens.old.rest.now)) result tokens.new.counts tokens.new.rest.now }
    {
        let column = name(tokens)?;
        let text = from_to(table, column);
        let shown = match self.spanned_tails(tokens, Expr::TableColumn(table, column), text) {
            Ok(found) => found,
            Err(why) => return Err(why),
        };
        match alias(tokens) {
            Ok(alias) => Ok(ResultColumn::Expression(shown, alias)),
            Err(why) => Err(why),
        }
    }

    /// Behind `table .`: `*`, or a column.
    #[tactic(auto, using(crate::proofs::ResultSteps::behind_dots))]
    fn behind_dot(&self, tokens: &mut Cursor<'_>, table: Token) -> Result<ResultColumn, ParseError>
        requires exprs { Nests expr self.now.levels.operands.depth (F.pre self.now.levels.operands.inner) (F.post self.now.levels.operands.inner) }
        requires queries { Nests query self.now.levels.operands.depth (G.pre self.now.levels.operands.query) (G.post self.now.levels.operands.query) }
        ensures { Gives (part.of_name table (reads Name rules self.now.levels.operands.depth spec.behind_dot tokens.old.counts tokens.old.rest.now)) result tokens.new.counts tokens.new.rest.now }
    {
        if tokens.sees(TokenKind::Star) {
            tokens.expect(TokenKind::Star, Role::Outside)?;
            return Ok(ResultColumn::AllOf(table));
        }
        self.column_of_table(tokens, table)
    }

    /// Behind a name: of a table, of a function, or of a column.
    #[tactic(auto, using(crate::proofs::ResultSteps::behind_first_names))]
    fn behind_first_name(
        &self,
        tokens: &mut Cursor<'_>,
        first: Token,
    ) -> Result<ResultColumn, ParseError>
        requires exprs { Nests expr self.now.levels.operands.depth (F.pre self.now.levels.operands.inner) (F.post self.now.levels.operands.inner) }
        requires queries { Nests query self.now.levels.operands.depth (G.pre self.now.levels.operands.query) (G.post self.now.levels.operands.query) }
        ensures { Gives (part.of_name first (reads Name rules self.now.levels.operands.depth spec.behind_first_name tokens.old.counts tokens.old.rest.now)) result tokens.new.counts tokens.new.rest.now }
    {
        if tokens.sees(TokenKind::Dot) {
            tokens.expect(TokenKind::Dot, Role::Quiet)?;
            return self.behind_dot(tokens, first);
        }
        if tokens.sees(TokenKind::LeftParen) {
            let shown = match self.spanned_call(tokens, first) {
                Ok(found) => found,
                Err(why) => return Err(why),
            };
            return match alias(tokens) {
                Ok(alias) => Ok(ResultColumn::Expression(shown, alias)),
                Err(why) => Err(why),
            };
        }
        let shown = match self.spanned_tails(tokens, Expr::Column(first), first.span) {
            Ok(found) => found,
            Err(why) => return Err(why),
        };
        match alias(tokens) {
            Ok(alias) => Ok(ResultColumn::Expression(shown, alias)),
            Err(why) => Err(why),
        }
    }

    /// A result that begins with a name.
    #[tactic(auto, using(crate::proofs::ResultSteps::named_result_is))]
    fn named_result(&self, tokens: &mut Cursor<'_>) -> Result<ResultColumn, ParseError>
        requires exprs { Nests expr self.now.levels.operands.depth (F.pre self.now.levels.operands.inner) (F.post self.now.levels.operands.inner) }
        requires queries { Nests query self.now.levels.operands.depth (G.pre self.now.levels.operands.query) (G.post self.now.levels.operands.query) }
        ensures { Gives (reads Name rules self.now.levels.operands.depth spec.named_result tokens.old.counts tokens.old.rest.now) result tokens.new.counts tokens.new.rest.now }
    {
        let first = name(tokens)?;
        self.behind_first_name(tokens, first)
    }

    /// An expression that begins with no name.
    #[tactic(auto, using(crate::proofs::ResultSteps::other_result_is))]
    fn other_result(&self, tokens: &mut Cursor<'_>) -> Result<ResultColumn, ParseError>
        requires exprs { Nests expr self.now.levels.operands.depth (F.pre self.now.levels.operands.inner) (F.post self.now.levels.operands.inner) }
        requires queries { Nests query self.now.levels.operands.depth (G.pre self.now.levels.operands.query) (G.post self.now.levels.operands.query) }
        ensures { Gives (reads Name rules self.now.levels.operands.depth spec.other_result tokens.old.counts tokens.old.rest.now) result tokens.new.counts tokens.new.rest.now }
    {
        let behind = tokens.rest;
        let expr = match self.levels.other_expr(tokens) {
            Ok(found) => found.into_inner(),
            Err(why) => return Err(why),
        };
        let text = text_before(behind, tokens.rest);
        let alias = alias(tokens)?;
        Ok(ResultColumn::Expression(SpannedExpr { expr, text }, alias))
    }
}

/// `* | name . * | expr [[AS] name]`, in lists.
impl<
    F: Fn(Global, &mut Cursor<'_>, usize) -> Result<Boxed<Expr>, ParseError>,
    G: Fn(Global, &mut Cursor<'_>, usize) -> Result<Boxed<Query>, ParseError>,
> Element<ResultColumn> for Clauses<F, G> {
    ghost is_ready = { λ it. Nests expr it.levels.operands.depth (F.pre it.levels.operands.inner) (F.post it.levels.operands.inner) × Nests query it.levels.operands.depth (G.pre it.levels.operands.query) (G.post it.levels.operands.query) };

    ghost rule = { λ it. spec.result };

    ghost depth = { λ it. it.levels.operands.depth };

    #[tactic(auto, using(crate::proofs::ResultSteps::result_steps))]
    fn read(&self, tokens: &mut Cursor<'_>) -> Result<ResultColumn, ParseError> {
        if tokens.sees(TokenKind::Star) {
            tokens.expect(TokenKind::Star, Role::Outside)?;
            return Ok(ResultColumn::All);
        }
        if sees_name(tokens) {
            return self.named_result(tokens);
        }
        self.other_result(tokens)
    }
}

impl<
    F: Fn(Global, &mut Cursor<'_>, usize) -> Result<Boxed<Expr>, ParseError>,
    G: Fn(Global, &mut Cursor<'_>, usize) -> Result<Boxed<Query>, ParseError>,
> Clauses<F, G> {
    /// Parses `result {, result}` (SELECT, Generation of the set of result rows): the columns of a result in order, each expression with
    /// the bytes of its text.
    #[tactic(auto, using(crate::proofs::Lists::results_steps))]
    pub fn results(&self, tokens: &mut Cursor<'_>) -> Result<Items<ResultColumn>, ParseError>
        requires exprs { Nests expr self.now.levels.operands.depth (F.pre self.now.levels.operands.inner) (F.post self.now.levels.operands.inner) }
        requires queries { Nests query self.now.levels.operands.depth (G.pre self.now.levels.operands.query) (G.post self.now.levels.operands.query) }
        ensures { Gives (reads Name rules self.now.levels.operands.depth spec.results tokens.old.counts tokens.old.rest.now) result tokens.new.counts tokens.new.rest.now }
    {
        list(self.levels.operands.alloc, tokens, self)
    }
}
