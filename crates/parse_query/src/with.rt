// WITH, and whole queries.

ghost use Rattle.sql_grammar.specs.Rules.{reads};
ghost use Rattle.sql_grammar.specs.Grammar.{Name, expr};
ghost use Rattle.sql_grammar.specs.Queries as spec;
ghost use Rattle.sql_grammar.specs.Queries.{query};
ghost use Rattle.sql_grammar.specs.Bodies.{rules};
ghost use Rattle.parse_cursor.specs.Gives.{Gives};
ghost use Rattle.parse_operand.specs.Nests.{Nests};
ghost use Rattle.parse_query.specs.Parts as part;

use crate::queries::Queries;
use parse_cursor::{Cursor, Element, ParseError, column_names, given_word, list, name};
use sql_grammar::Role;
use sql_tree::{CommonTable, Expr, Query, TokenKind};
use sqlite_items::{Boxed, Items};
use std::alloc::Global;

impl<
    F: Fn(Global, &mut Cursor<'_>, usize) -> Result<Boxed<Expr>, ParseError>,
    G: Fn(Global, &mut Cursor<'_>, usize) -> Result<Boxed<Query>, ParseError>,
> Queries<F, G> {
    /// `AS ( query )`
    #[tactic(auto, using(crate::proofs::Tables::as_query_is))]
    fn as_query(&self, tokens: &mut Cursor<'_>) -> Result<Boxed<Query>, ParseError>
        requires exprs { Nests expr self.now.clauses.levels.operands.depth (F.pre self.now.clauses.levels.operands.inner) (F.post self.now.clauses.levels.operands.inner) }
        requires queries { Nests query self.now.clauses.levels.operands.depth (G.pre self.now.clauses.levels.operands.query) (G.post self.now.clauses.levels.operands.query) }
        ensures { Gives (reads Name rules self.now.clauses.levels.operands.depth part.as_query tokens.old.counts tokens.old.rest.now) result tokens.new.counts tokens.new.rest.now }
    {
        tokens.expect(TokenKind::As, Role::Outside)?;
        self.clauses.in_query(tokens)
    }
}

/// `name [( name {, name} )] AS ( query )`, in lists.
impl<
    F: Fn(Global, &mut Cursor<'_>, usize) -> Result<Boxed<Expr>, ParseError>,
    G: Fn(Global, &mut Cursor<'_>, usize) -> Result<Boxed<Query>, ParseError>,
> Element<CommonTable> for Queries<F, G> {
    ghost is_ready = { λ it. Nests expr it.clauses.levels.operands.depth (F.pre it.clauses.levels.operands.inner) (F.post it.clauses.levels.operands.inner) × Nests query it.clauses.levels.operands.depth (G.pre it.clauses.levels.operands.query) (G.post it.clauses.levels.operands.query) };

    ghost rule = { λ it. spec.common_table };

    ghost depth = { λ it. it.clauses.levels.operands.depth };

    #[tactic(auto, using(crate::proofs::Tables::common_table_is))]
    fn read(&self, tokens: &mut Cursor<'_>) -> Result<CommonTable, ParseError> {
        let operands = &self.clauses.levels.operands;
        let table = name(tokens)?;
        let columns = column_names(operands.alloc, tokens, operands.depth)?;
        let query = self.as_query(tokens)?;
        Ok(CommonTable {
            name: table,
            columns,
            query,
        })
    }
}

impl<
    F: Fn(Global, &mut Cursor<'_>, usize) -> Result<Boxed<Expr>, ParseError>,
    G: Fn(Global, &mut Cursor<'_>, usize) -> Result<Boxed<Query>, ParseError>,
> Queries<F, G> {
    /// `[RECURSIVE] cte {, cte}`
    #[tactic(auto, using(crate::proofs::Tables::tables_steps))]
    fn tables(&self, tokens: &mut Cursor<'_>) -> Result<Items<CommonTable>, ParseError>
        requires exprs { Nests expr self.now.clauses.levels.operands.depth (F.pre self.now.clauses.levels.operands.inner) (F.post self.now.clauses.levels.operands.inner) }
        requires queries { Nests query self.now.clauses.levels.operands.depth (G.pre self.now.clauses.levels.operands.query) (G.post self.now.clauses.levels.operands.query) }
        ensures { Gives (reads Name rules self.now.clauses.levels.operands.depth spec.tables tokens.old.counts tokens.old.rest.now) result tokens.new.counts tokens.new.rest.now }
    {
        given_word(tokens, TokenKind::Recursive)?;
        list(self.clauses.levels.operands.alloc, tokens, self)
    }

    /// `[WITH [RECURSIVE] cte {, cte}]` (The WITH Clause)
    #[tactic(auto, using(crate::proofs::Tables::common_tables_steps))]
    fn common_tables(&self, tokens: &mut Cursor<'_>) -> Result<Items<CommonTable>, ParseError>
        requires exprs { Nests expr self.now.clauses.levels.operands.depth (F.pre self.now.clauses.levels.operands.inner) (F.post self.now.clauses.levels.operands.inner) }
        requires queries { Nests query self.now.clauses.levels.operands.depth (G.pre self.now.clauses.levels.operands.query) (G.post self.now.clauses.levels.operands.query) }
        ensures { Gives (reads Name rules self.now.clauses.levels.operands.depth spec.common_tables tokens.old.counts tokens.old.rest.now) result tokens.new.counts tokens.new.rest.now }
    {
        if !tokens.sees(TokenKind::With) {
            return Ok(Items::new(self.clauses.levels.operands.alloc));
        }
        tokens.expect(TokenKind::With, Role::Outside)?;
        self.tables(tokens)
    }

    /// `[WITH ..] core {comp core} [ORDER BY ..] [LIMIT ..]`, the last two behind a SELECT alone
    #[tactic(auto, using(crate::proofs::Tables::query_is))]
    pub(crate) fn query(&self, tokens: &mut Cursor<'_>) -> Result<Query, ParseError>
        requires exprs { Nests expr self.now.clauses.levels.operands.depth (F.pre self.now.clauses.levels.operands.inner) (F.post self.now.clauses.levels.operands.inner) }
        requires queries { Nests query self.now.clauses.levels.operands.depth (G.pre self.now.clauses.levels.operands.query) (G.post self.now.clauses.levels.operands.query) }
        ensures { Gives (reads Name rules self.now.clauses.levels.operands.depth spec.query tokens.old.counts tokens.old.rest.now) result tokens.new.counts tokens.new.rest.now }
    {
        let with = match self.common_tables(tokens) {
            Ok(found) => found,
            Err(why) => return Err(why),
        };
        let parts = match self.parts(tokens) {
            Ok(found) => found,
            Err(why) => return Err(why),
        };
        let (order_by, limit) = match self.ordering_behind(tokens, parts.ends_in_select) {
            Ok(found) => found,
            Err(why) => return Err(why),
        };
        Ok(Query {
            with,
            first: parts.first,
            others: parts.others,
            order_by,
            limit,
        })
    }
}
