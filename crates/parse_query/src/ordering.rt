// ORDER BY and LIMIT.

ghost use Rattle.std.specs.Prelude.{ℕ, ◌≡◌};
ghost use Rattle.sql_grammar.specs.Rules.{reads, pick_read};
ghost use Rattle.sql_grammar.specs.Grammar.{Name, expr};
ghost use Rattle.sql_grammar.specs.Queries as spec;
ghost use Rattle.sql_grammar.specs.Queries.{query};
ghost use Rattle.sql_grammar.specs.Bodies.{rules};
ghost use Rattle.parse_cursor.specs.Gives.{Gives};
ghost use Rattle.parse_operand.specs.Nests.{Nests};
ghost use Rattle.parse_query.specs.Parts as part;

use crate::queries::Queries;
use parse_cursor::{Cursor, Element, ParseError, list};
use sql_grammar::Role;
use sql_tree::{Expr, NullsOrder, OrderingTerm, Query, RowLimit, Token, TokenKind};
use sqlite_items::{Boxed, Items};
use std::alloc::Global;

/// What stands between the two numbers of a limit.
const SECOND: [TokenKind; 2] = [TokenKind::Offset, TokenKind::Comma];

/// `[ASC | DESC]`, as whether it is DESC
#[tactic(auto, using(crate::proofs::OrderingSteps::directions))]
fn direction(tokens: &mut Cursor<'_>) -> Result<bool, ParseError>
    ensures { (d : ℕ) → Gives (reads Name rules d spec.direction tokens.old.counts tokens.old.rest.now) result tokens.new.counts tokens.new.rest.now }
{
    if tokens.sees(TokenKind::Desc) {
        tokens.expect(TokenKind::Desc, Role::Outside)?;
        return Ok(true);
    }
    if tokens.sees(TokenKind::Asc) {
        tokens.expect(TokenKind::Asc, Role::Outside)?;
        return Ok(false);
    }
    Ok(false)
}

/// `FIRST | LAST`
#[tactic(auto, using(crate::proofs::OrderingSteps::first_or_lasts))]
fn first_or_last(tokens: &mut Cursor<'_>) -> Result<NullsOrder, ParseError>
    ensures { (d : ℕ) → Gives (reads Name rules d spec.first_or_last tokens.old.counts tokens.old.rest.now) result tokens.new.counts tokens.new.rest.now }
{
    if tokens.sees(TokenKind::First) {
        tokens.expect(TokenKind::First, Role::Outside)?;
        return Ok(NullsOrder::First);
    }
    tokens.expect(TokenKind::Last, Role::Outside)?;
    Ok(NullsOrder::Last)
}

/// `[NULLS (FIRST | LAST)]`
#[tactic(auto, using(crate::proofs::OrderingSteps::nulls_steps))]
fn nulls(tokens: &mut Cursor<'_>) -> Result<Option<NullsOrder>, ParseError>
    ensures { (d : ℕ) → Gives (reads Name rules d spec.nulls tokens.old.counts tokens.old.rest.now) result tokens.new.counts tokens.new.rest.now }
{
    if !tokens.sees(TokenKind::Nulls) {
        return Ok(None);
    }
    tokens.expect(TokenKind::Nulls, Role::Outside)?;
    Ok(Some(first_or_last(tokens)?))
}

/// `LIMIT count OFFSET offset`, or `LIMIT offset, count`
fn limit_of(first: Expr, second: Option<(Token, Expr)>) -> RowLimit
    ensures { result ≡ spec.limit_of first second }
{
    match second {
        None => RowLimit {
            count: first,
            offset: None,
        },
        Some((word, second)) => {
            if word.kind == TokenKind::Comma {
                RowLimit {
                    count: second,
                    offset: Some(first),
                }
            } else {
                RowLimit {
                    count: first,
                    offset: Some(second),
                }
            }
        }
    }
}

/// `expr [ASC | DESC] [NULLS (FIRST | LAST)]`, in lists.
impl<
    F: Fn(Global, &mut Cursor<'_>, usize) -> Result<Boxed<Expr>, ParseError>,
    G: Fn(Global, &mut Cursor<'_>, usize) -> Result<Boxed<Query>, ParseError>,
> Element<OrderingTerm> for Queries<F, G> {
    ghost is_ready = { λ it. Nests expr it.clauses.levels.operands.depth (F.pre it.clauses.levels.operands.inner) (F.post it.clauses.levels.operands.inner) × Nests query it.clauses.levels.operands.depth (G.pre it.clauses.levels.operands.query) (G.post it.clauses.levels.operands.query) };

    ghost rule = { λ it. spec.term };

    ghost depth = { λ it. it.clauses.levels.operands.depth };

    #[tactic(auto, using(crate::proofs::OrderingSteps::term_is))]
    fn read(&self, tokens: &mut Cursor<'_>) -> Result<OrderingTerm, ParseError> {
        let key = self.clauses.spanned_expr(tokens)?;
        let descending = direction(tokens)?;
        let nulls = nulls(tokens)?;
        Ok(OrderingTerm {
            key,
            descending,
            nulls,
        })
    }
}

impl<
    F: Fn(Global, &mut Cursor<'_>, usize) -> Result<Boxed<Expr>, ParseError>,
    G: Fn(Global, &mut Cursor<'_>, usize) -> Result<Boxed<Query>, ParseError>,
> Queries<F, G> {
    /// `[ORDER BY term {, term}]`
    #[tactic(auto, using(crate::proofs::OrderingSteps::order_bys))]
    fn order_by(&self, tokens: &mut Cursor<'_>) -> Result<Items<OrderingTerm>, ParseError>
        requires exprs { Nests expr self.now.clauses.levels.operands.depth (F.pre self.now.clauses.levels.operands.inner) (F.post self.now.clauses.levels.operands.inner) }
        requires queries { Nests query self.now.clauses.levels.operands.depth (G.pre self.now.clauses.levels.operands.query) (G.post self.now.clauses.levels.operands.query) }
        ensures { Gives (reads Name rules self.now.clauses.levels.operands.depth spec.order_by tokens.old.counts tokens.old.rest.now) result tokens.new.counts tokens.new.rest.now }
    {
        if !tokens.sees(TokenKind::Order) {
            return Ok(Items::new(self.clauses.levels.operands.alloc));
        }
        tokens.expect(TokenKind::Order, Role::Outside)?;
        tokens.expect(TokenKind::By, Role::Outside)?;
        list(self.clauses.levels.operands.alloc, tokens, self)
    }

    /// `[(OFFSET | ,) expr]`
    #[tactic(auto, using(crate::proofs::OrderingSteps::second_limits))]
    fn second_limit(&self, tokens: &mut Cursor<'_>) -> Result<Option<(Token, Expr)>, ParseError>
        requires exprs { Nests expr self.now.clauses.levels.operands.depth (F.pre self.now.clauses.levels.operands.inner) (F.post self.now.clauses.levels.operands.inner) }
        requires queries { Nests query self.now.clauses.levels.operands.depth (G.pre self.now.clauses.levels.operands.query) (G.post self.now.clauses.levels.operands.query) }
        ensures { Gives (reads Name rules self.now.clauses.levels.operands.depth spec.second_limit tokens.old.counts tokens.old.rest.now) result tokens.new.counts tokens.new.rest.now }
    {
        if !tokens.sees_any(&SECOND) {
            return Ok(None);
        }
        let word = tokens.expect_any(&SECOND, Role::Outside)?;
        match self.clauses.levels.expr(tokens) {
            Ok(second) => Ok(Some((word, second.into_inner()))),
            Err(why) => Err(why),
        }
    }

    /// `expr [(OFFSET | ,) expr]`
    #[tactic(auto, using(crate::proofs::OrderingSteps::row_limit_is))]
    fn row_limit(&self, tokens: &mut Cursor<'_>) -> Result<RowLimit, ParseError>
        requires exprs { Nests expr self.now.clauses.levels.operands.depth (F.pre self.now.clauses.levels.operands.inner) (F.post self.now.clauses.levels.operands.inner) }
        requires queries { Nests query self.now.clauses.levels.operands.depth (G.pre self.now.clauses.levels.operands.query) (G.post self.now.clauses.levels.operands.query) }
        ensures { Gives (reads Name rules self.now.clauses.levels.operands.depth spec.row_limit tokens.old.counts tokens.old.rest.now) result tokens.new.counts tokens.new.rest.now }
    {
        let first = match self.clauses.levels.expr(tokens) {
            Ok(found) => found.into_inner(),
            Err(why) => return Err(why),
        };
        match self.second_limit(tokens) {
            Ok(second) => Ok(limit_of(first, second)),
            Err(why) => Err(why),
        }
    }

    /// `[LIMIT expr [(OFFSET | ,) expr]]`
    #[tactic(auto, using(crate::proofs::OrderingSteps::limits))]
    fn limit(&self, tokens: &mut Cursor<'_>) -> Result<Option<RowLimit>, ParseError>
        requires exprs { Nests expr self.now.clauses.levels.operands.depth (F.pre self.now.clauses.levels.operands.inner) (F.post self.now.clauses.levels.operands.inner) }
        requires queries { Nests query self.now.clauses.levels.operands.depth (G.pre self.now.clauses.levels.operands.query) (G.post self.now.clauses.levels.operands.query) }
        ensures { Gives (reads Name rules self.now.clauses.levels.operands.depth spec.limit tokens.old.counts tokens.old.rest.now) result tokens.new.counts tokens.new.rest.now }
    {
        if !tokens.sees(TokenKind::Limit) {
            return Ok(None);
        }
        tokens.expect(TokenKind::Limit, Role::Outside)?;
        match self.row_limit(tokens) {
            Ok(limit) => Ok(Some(limit)),
            Err(why) => Err(why),
        }
    }

    /// `[ORDER BY ..] [LIMIT ..]`
    #[tactic(auto, using(crate::proofs::OrderingSteps::ordering_is))]
    fn ordering(
        &self,
        tokens: &mut Cursor<'_>,
    ) -> Result<(Items<OrderingTerm>, Option<RowLimit>), ParseError>
        requires exprs { Nests expr self.now.clauses.levels.operands.depth (F.pre self.now.clauses.levels.operands.inner) (F.post self.now.clauses.levels.operands.inner) }
        requires queries { Nests query self.now.clauses.levels.operands.depth (G.pre self.now.clauses.levels.operands.query) (G.post self.now.clauses.levels.operands.query) }
        ensures { Gives (reads Name rules self.now.clauses.levels.operands.depth spec.ordering tokens.old.counts tokens.old.rest.now) result tokens.new.counts tokens.new.rest.now }
    {
        let order_by = match self.order_by(tokens) {
            Ok(found) => found,
            Err(why) => return Err(why),
        };
        match self.limit(tokens) {
            Ok(limit) => Ok((order_by, limit)),
            Err(why) => Err(why),
        }
    }

    /// What stands behind a part: an order and a limit, if it is a SELECT.
    #[tactic(auto, using(crate::proofs::OrderingSteps::orderings_behind))]
    pub(crate) fn ordering_behind(
        &self,
        tokens: &mut Cursor<'_>,
        is_select: bool,
    ) -> Result<(Items<OrderingTerm>, Option<RowLimit>), ParseError>
        requires exprs { Nests expr self.now.clauses.levels.operands.depth (F.pre self.now.clauses.levels.operands.inner) (F.post self.now.clauses.levels.operands.inner) }
        requires queries { Nests query self.now.clauses.levels.operands.depth (G.pre self.now.clauses.levels.operands.query) (G.post self.now.clauses.levels.operands.query) }
        ensures { Gives (pick_read is_select (reads Name rules self.now.clauses.levels.operands.depth spec.ordering) (reads Name rules self.now.clauses.levels.operands.depth part.unordered) tokens.old.counts tokens.old.rest.now) result tokens.new.counts tokens.new.rest.now }
    {
        if is_select {
            return self.ordering(tokens);
        }
        Ok((Items::new(self.clauses.levels.operands.alloc), None))
    }
}
