// Compound queries: parts, and how they go together.

ghost use Rattle.std.specs.Prelude.{ℕ};
ghost use Rattle.sql_grammar.specs.Rules.{reads};
ghost use Rattle.sql_grammar.specs.Grammar.{Name, expr};
ghost use Rattle.sql_grammar.specs.Queries as spec;
ghost use Rattle.sql_grammar.specs.Queries.{query};
ghost use Rattle.sql_grammar.specs.Bodies.{rules};
ghost use Rattle.parse_cursor.specs.Gives.{Gives};
ghost use Rattle.parse_operand.specs.Nests.{Nests};
ghost use Rattle.parse_query.specs.Parts as part;

use crate::queries::Queries;
use parse_cursor::{Cursor, ParseError, given_word};
use sql_grammar::Role;
use sql_tree::{CompoundOp, CompoundPart, Expr, Query, QueryPart, TokenKind};
use sqlite_items::{Boxed, Items};
use std::alloc::Global;

/// What stands between parts begins with.
const COMPOUNDS: [TokenKind; 3] = [TokenKind::Union, TokenKind::Intersect, TokenKind::Except];

/// `UNION [ALL]`
#[tactic(auto, using(crate::proofs::CompoundSteps::union_is))]
fn union_word(tokens: &mut Cursor<'_>) -> Result<CompoundOp, ParseError>
    ensures { (d : ℕ) → Gives (reads Name rules d spec.union tokens.old.counts tokens.old.rest.now) result tokens.new.counts tokens.new.rest.now }
{
    tokens.expect(TokenKind::Union, Role::Outside)?;
    if given_word(tokens, TokenKind::All)? {
        return Ok(CompoundOp::UnionAll);
    }
    Ok(CompoundOp::Union)
}

/// `UNION [ALL] | INTERSECT | EXCEPT`
#[tactic(auto, using(crate::proofs::CompoundSteps::compound_ops))]
fn compound_op(tokens: &mut Cursor<'_>) -> Result<CompoundOp, ParseError>
    ensures { (d : ℕ) → Gives (reads Name rules d spec.compound_op tokens.old.counts tokens.old.rest.now) result tokens.new.counts tokens.new.rest.now }
{
    if tokens.sees(TokenKind::Union) {
        return union_word(tokens);
    }
    if tokens.sees(TokenKind::Intersect) {
        tokens.expect(TokenKind::Intersect, Role::Outside)?;
        return Ok(CompoundOp::Intersect);
    }
    tokens.expect(TokenKind::Except, Role::Outside)?;
    Ok(CompoundOp::Except)
}

/// The parts of a query.
#[derive(Drop)]
pub(crate) struct FoundParts {
    pub(crate) first: QueryPart,
    pub(crate) others: Items<CompoundPart>,
    /// Whether the last one is a SELECT, behind which an order and a limit may stand.
    pub(crate) ends_in_select: bool,
}

impl<
    F: Fn(Global, &mut Cursor<'_>, usize) -> Result<Boxed<Expr>, ParseError>,
    G: Fn(Global, &mut Cursor<'_>, usize) -> Result<Boxed<Query>, ParseError>,
> Queries<F, G> {
    /// `comp core`, and whether the part is a SELECT
    #[tactic(auto, using(crate::proofs::CompoundSteps::compound_part_is))]
    fn compound_part(&self, tokens: &mut Cursor<'_>) -> Result<(bool, CompoundPart), ParseError>
        requires exprs { Nests expr self.now.clauses.levels.operands.depth (F.pre self.now.clauses.levels.operands.inner) (F.post self.now.clauses.levels.operands.inner) }
        requires queries { Nests query self.now.clauses.levels.operands.depth (G.pre self.now.clauses.levels.operands.query) (G.post self.now.clauses.levels.operands.query) }
        ensures { Gives (reads Name rules self.now.clauses.levels.operands.depth spec.compound_part tokens.old.counts tokens.old.rest.now) result tokens.new.counts tokens.new.rest.now }
    {
        let op = compound_op(tokens)?;
        match self.core(tokens) {
            Ok((is_select, part)) => Ok((is_select, CompoundPart { op, part })),
            Err(why) => Err(why),
        }
    }

    /// `core {comp core}`
    #[tactic(auto, using(crate::proofs::CompoundSteps::parts_steps))]
    pub(crate) fn parts(&self, tokens: &mut Cursor<'_>) -> Result<FoundParts, ParseError>
        requires exprs { Nests expr self.now.clauses.levels.operands.depth (F.pre self.now.clauses.levels.operands.inner) (F.post self.now.clauses.levels.operands.inner) }
        requires queries { Nests query self.now.clauses.levels.operands.depth (G.pre self.now.clauses.levels.operands.query) (G.post self.now.clauses.levels.operands.query) }
        ensures { Gives (reads Name rules self.now.clauses.levels.operands.depth part.found_parts tokens.old.counts tokens.old.rest.now) result tokens.new.counts tokens.new.rest.now }
    {
        let (mut ends_in_select, first) = match self.core(tokens) {
            Ok(found) => found,
            Err(why) => return Err(why),
        };
        let mut others = Items::new(self.clauses.levels.operands.alloc);
        while tokens.sees_any(&COMPOUNDS) {
            let (is_select, part) = match self.compound_part(tokens) {
                Ok(found) => found,
                Err(why) => return Err(why),
            };
            ends_in_select = is_select;
            others.push(part)?;
        }
        Ok(FoundParts {
            first,
            others,
            ends_in_select,
        })
    }
}
