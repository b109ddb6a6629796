// Expressions in two steps, for where their first token may begin something else.

ghost use Rattle.sql_grammar.specs.Rules.{reads};
ghost use Rattle.sql_grammar.specs.Grammar as spec;
ghost use Rattle.sql_grammar.specs.Grammar.{Name};
ghost use Rattle.sql_grammar.specs.Bodies.{rules};
ghost use Rattle.sql_grammar.specs.Queries.{query};
ghost use Rattle.parse_cursor.specs.Gives.{Gives, apply_one};
ghost use Rattle.parse_operand.specs.Nests.{Nests};

use crate::operators::LEVELS;
use crate::precedence::Levels;
use parse_cursor::{Cursor, ParseError, sees_name};
use sql_tree::{Expr, Query};
use sqlite_items::Boxed;
use std::alloc::Global;

impl<
    F: Fn(Global, &mut Cursor<'_>, usize) -> Result<Boxed<Expr>, ParseError>,
    G: Fn(Global, &mut Cursor<'_>, usize) -> Result<Boxed<Query>, ParseError>,
> Levels<F, G> {
    /// What may stand behind an operand that is parsed already: the operators of each level, from the tightest on.
    #[tactic(auto, using(crate::proofs::Tails::tails_steps))]
    pub fn tails(
        &self,
        tokens: &mut Cursor<'_>,
        left: Boxed<Expr>,
    ) -> Result<Boxed<Expr>, ParseError>
        requires exprs { Nests spec.expr self.now.operands.depth (F.pre self.now.operands.inner) (F.post self.now.operands.inner) }
        requires queries { Nests query self.now.operands.depth (G.pre self.now.operands.query) (G.post self.now.operands.query) }
        ensures { Gives (apply_one left (reads Name rules self.now.operands.depth spec.tails tokens.old.counts tokens.old.rest.now)) result tokens.new.counts tokens.new.rest.now }
    {
        let relation = self.behind(tokens, left, LEVELS)?;
        let equality = self.tests(tokens, relation)?;
        let conjunction = self.more_conjunction(tokens, equality)?;
        self.more_expr(tokens, conjunction)
    }

    /// An expression that begins with no name.
    #[tactic(auto, using(crate::proofs::Others::other_expr_cases))]
    pub fn other_expr(&self, tokens: &mut Cursor<'_>) -> Result<Boxed<Expr>, ParseError>
        requires exprs { Nests spec.expr self.now.operands.depth (F.pre self.now.operands.inner) (F.post self.now.operands.inner) }
        requires queries { Nests query self.now.operands.depth (G.pre self.now.operands.query) (G.post self.now.operands.query) }
        ensures { Gives (reads Name rules self.now.operands.depth spec.other_expr tokens.old.counts tokens.old.rest.now) result tokens.new.counts tokens.new.rest.now }
    {
        if sees_name(tokens) {
            return Err(ParseError::Syntax);
        }
        self.expr(tokens)
    }
}
