// SELECT and VALUES.

ghost use Rattle.std.specs.Prelude.{ℕ};
ghost use Rattle.sql_grammar.specs.Rules.{reads};
ghost use Rattle.sql_grammar.specs.Grammar.{Name, expr};
ghost use Rattle.sql_grammar.specs.Queries as spec;
ghost use Rattle.sql_grammar.specs.Queries.{query};
ghost use Rattle.sql_grammar.specs.Bodies.{rules};
ghost use Rattle.parse_cursor.specs.Gives.{Gives};
ghost use Rattle.parse_operand.specs.Nests.{Nests};

use crate::queries::Queries;
use parse_cursor::{Cursor, Element, ParseError, list};
use sql_grammar::Role;
use sql_tree::{Expr, Query, QueryPart, SelectCore, SpannedExpr, TokenKind};
use sqlite_items::{Boxed, Items};
use std::alloc::Global;

/// `[DISTINCT | ALL]`, as whether it is DISTINCT
#[tactic(auto, using(crate::proofs::Selecting::distincts))]
fn distinct(tokens: &mut Cursor<'_>) -> Result<bool, ParseError>
    ensures { (d : ℕ) → Gives (reads Name rules d spec.distinct tokens.old.counts tokens.old.rest.now) result tokens.new.counts tokens.new.rest.now }
{
    if tokens.sees(TokenKind::Distinct) {
        tokens.expect(TokenKind::Distinct, Role::Outside)?;
        return Ok(true);
    }
    if tokens.sees(TokenKind::All) {
        tokens.expect(TokenKind::All, Role::Outside)?;
        return Ok(false);
    }
    Ok(false)
}

/// `( expr {, expr} )`, in lists.
impl<
    F: Fn(Global, &mut Cursor<'_>, usize) -> Result<Boxed<Expr>, ParseError>,
    G: Fn(Global, &mut Cursor<'_>, usize) -> Result<Boxed<Query>, ParseError>,
> Element<Items<Expr>> for Queries<F, G> {
    ghost is_ready = { λ it. Nests expr it.clauses.levels.operands.depth (F.pre it.clauses.levels.operands.inner) (F.post it.clauses.levels.operands.inner) × Nests query it.clauses.levels.operands.depth (G.pre it.clauses.levels.operands.query) (G.post it.clauses.levels.operands.query) };

    ghost rule = { λ it. spec.one_row };

    ghost depth = { λ it. it.clauses.levels.operands.depth };

    #[tactic(auto, using(crate::proofs::Selecting::one_row_is))]
    fn read(&self, tokens: &mut Cursor<'_>) -> Result<Items<Expr>, ParseError> {
        tokens.open(
            self.clauses.levels.operands.depth,
            TokenKind::LeftParen,
            Role::Opening,
        )?;
        match self.clauses.levels.operands.exprs(tokens) {
            Ok(row) => tokens.close(row, TokenKind::RightParen, Role::Closing),
            Err(why) => Err(why),
        }
    }
}

impl<
    F: Fn(Global, &mut Cursor<'_>, usize) -> Result<Boxed<Expr>, ParseError>,
    G: Fn(Global, &mut Cursor<'_>, usize) -> Result<Boxed<Query>, ParseError>,
> Queries<F, G> {
    /// `[GROUP BY expr {, expr}]`
    #[tactic(auto, using(crate::proofs::Selecting::group_bys))]
    fn group_by(&self, tokens: &mut Cursor<'_>) -> Result<Items<SpannedExpr>, ParseError>
        requires exprs { Nests expr self.now.clauses.levels.operands.depth (F.pre self.now.clauses.levels.operands.inner) (F.post self.now.clauses.levels.operands.inner) }
        requires queries { Nests query self.now.clauses.levels.operands.depth (G.pre self.now.clauses.levels.operands.query) (G.post self.now.clauses.levels.operands.query) }
        ensures { Gives (reads Name rules self.now.clauses.levels.operands.depth spec.group_by tokens.old.counts tokens.old.rest.now) result tokens.new.counts tokens.new.rest.now }
    {
        if !tokens.sees(TokenKind::Group) {
            return Ok(Items::new(self.clauses.levels.operands.alloc));
        }
        tokens.expect(TokenKind::Group, Role::Outside)?;
        tokens.expect(TokenKind::By, Role::Outside)?;
        list(self.clauses.levels.operands.alloc, tokens, &self.clauses)
    }

    /// `[HAVING expr]`
    #[tactic(auto, using(crate::proofs::Selecting::having_is))]
    fn having(&self, tokens: &mut Cursor<'_>) -> Result<Option<Expr>, ParseError>
        requires exprs { Nests expr self.now.clauses.levels.operands.depth (F.pre self.now.clauses.levels.operands.inner) (F.post self.now.clauses.levels.operands.inner) }
        requires queries { Nests query self.now.clauses.levels.operands.depth (G.pre self.now.clauses.levels.operands.query) (G.post self.now.clauses.levels.operands.query) }
        ensures { Gives (reads Name rules self.now.clauses.levels.operands.depth spec.having tokens.old.counts tokens.old.rest.now) result tokens.new.counts tokens.new.rest.now }
    {
        self.clauses.expr_after(tokens, TokenKind::Having)
    }

    /// A SELECT behind its first word.
    #[tactic(auto, using(crate::proofs::Selecting::select_core_is))]
    fn select_core(&self, tokens: &mut Cursor<'_>) -> Result<SelectCore, ParseError>
        requires exprs { Nests expr self.now.clauses.levels.operands.depth (F.pre self.now.clauses.levels.operands.inner) (F.post self.now.clauses.levels.operands.inner) }
        requires queries { Nests query self.now.clauses.levels.operands.depth (G.pre self.now.clauses.levels.operands.query) (G.post self.now.clauses.levels.operands.query) }
        ensures { Gives (reads Name rules self.now.clauses.levels.operands.depth spec.select_core tokens.old.counts tokens.old.rest.now) result tokens.new.counts tokens.new.rest.now }
    {
        let distinct = distinct(tokens)?;
        let results = match self.clauses.results(tokens) {
            Ok(found) => found,
            Err(why) => return Err(why),
        };
        let from = match self.clauses.from(tokens) {
            Ok(found) => found,
            Err(why) => return Err(why),
        };
        let filter = match self.clauses.filter_by(tokens) {
            Ok(found) => found,
            Err(why) => return Err(why),
        };
        let group_by = match self.group_by(tokens) {
            Ok(found) => found,
            Err(why) => return Err(why),
        };
        match self.having(tokens) {
            Ok(having) => Ok(SelectCore {
                distinct,
                results,
                from,
                filter,
                group_by,
                having,
            }),
            Err(why) => Err(why),
        }
    }

    /// `SELECT [DISTINCT | ALL] result {, result} [FROM ..] [WHERE ..] [GROUP BY ..] [HAVING ..]` (SELECT)
    #[tactic(auto, using(crate::proofs::Selecting::select_is))]
    fn select(&self, tokens: &mut Cursor<'_>) -> Result<SelectCore, ParseError>
        requires exprs { Nests expr self.now.clauses.levels.operands.depth (F.pre self.now.clauses.levels.operands.inner) (F.post self.now.clauses.levels.operands.inner) }
        requires queries { Nests query self.now.clauses.levels.operands.depth (G.pre self.now.clauses.levels.operands.query) (G.post self.now.clauses.levels.operands.query) }
        ensures { Gives (reads Name rules self.now.clauses.levels.operands.depth spec.select tokens.old.counts tokens.old.rest.now) result tokens.new.counts tokens.new.rest.now }
    {
        tokens.expect(TokenKind::Select, Role::Part)?;
        self.select_core(tokens)
    }

    /// `VALUES row {, row}` (SELECT, The VALUES clause)
    #[tactic(auto, using(crate::proofs::Selecting::values_steps))]
    fn values(&self, tokens: &mut Cursor<'_>) -> Result<Items<Items<Expr>>, ParseError>
        requires exprs { Nests expr self.now.clauses.levels.operands.depth (F.pre self.now.clauses.levels.operands.inner) (F.post self.now.clauses.levels.operands.inner) }
        requires queries { Nests query self.now.clauses.levels.operands.depth (G.pre self.now.clauses.levels.operands.query) (G.post self.now.clauses.levels.operands.query) }
        ensures { Gives (reads Name rules self.now.clauses.levels.operands.depth spec.values tokens.old.counts tokens.old.rest.now) result tokens.new.counts tokens.new.rest.now }
    {
        tokens.expect(TokenKind::Values, Role::Part)?;
        list(self.clauses.levels.operands.alloc, tokens, self)
    }

    /// A SELECT, or VALUES, and whether it is a SELECT.
    #[tactic(auto, using(crate::proofs::Selecting::cores))]
    pub(crate) fn core(&self, tokens: &mut Cursor<'_>) -> Result<(bool, QueryPart), ParseError>
        requires exprs { Nests expr self.now.clauses.levels.operands.depth (F.pre self.now.clauses.levels.operands.inner) (F.post self.now.clauses.levels.operands.inner) }
        requires queries { Nests query self.now.clauses.levels.operands.depth (G.pre self.now.clauses.levels.operands.query) (G.post self.now.clauses.levels.operands.query) }
        ensures { Gives (reads Name rules self.now.clauses.levels.operands.depth spec.core tokens.old.counts tokens.old.rest.now) result tokens.new.counts tokens.new.rest.now }
    {
        if tokens.sees(TokenKind::Select) {
            return match self.select(tokens) {
                Ok(found) => Ok((true, QueryPart::Select(found))),
                Err(why) => Err(why),
            };
        }
        match self.values(tokens) {
            Ok(rows) => Ok((false, QueryPart::Values(rows))),
            Err(why) => Err(why),
        }
    }
}
