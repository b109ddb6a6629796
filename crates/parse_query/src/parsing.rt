// Expressions and queries, which stand in one another's brackets.

ghost use Rattle.std.specs.Prelude.{◌≡◌};
ghost use Rattle.sql_grammar.specs.Grammar as grammar;
ghost use Rattle.sql_grammar.specs.Grammar.{Name};
ghost use Rattle.sql_grammar.specs.Queries as spec;
ghost use Rattle.sql_grammar.specs.Bodies.{rules};
ghost use Rattle.sql_grammar.specs.Rules.{reads};
ghost use Rattle.parse_cursor.specs.Gives.{Gives};

use crate::queries::Queries;
use parse_clause::Clauses;
use parse_cursor::{Cursor, ParseError, boxed};
use parse_expr::Levels;
use parse_operand::Operands;
use sql_grammar::MAX_NESTINGS;
use sql_tree::{Expr, Query};
use sqlite_items::Boxed;
use std::alloc::Global;

/// How many brackets and CASEs may be open at one place.
pub const MAX_OPEN: usize = MAX_NESTINGS;

/// Parses the expression that the next tokens are, as far as it goes (SQL Language Expressions), where so many nestings may
/// still be opened. After an error the cursor stands at the first token that cannot stand there or passes a limit.
pub fn expr(alloc: Global, tokens: &mut Cursor<'_>, depth: usize) -> Result<Expr, ParseError>
    ensures { Gives (reads Name rules depth grammar.expr tokens.old.counts tokens.old.rest.now) result tokens.new.counts tokens.new.rest.now }
{
    Ok(boxed_expr(alloc, tokens, depth)?.into_inner())
}

/// Parses the query that the next tokens are, as far as it goes (SELECT), in the same way.
pub fn query(alloc: Global, tokens: &mut Cursor<'_>, depth: usize) -> Result<Query, ParseError>
    ensures { Gives (reads Name rules depth spec.query tokens.old.counts tokens.old.rest.now) result tokens.new.counts tokens.new.rest.now }
{
    let operands = Operands {
        alloc,
        depth,
        inner: boxed_expr,
        query: boxed_query,
    };
    let clauses = Clauses {
        levels: Levels { operands },
    };
    Queries { clauses }.query(tokens)
}

/// Parses `[WHERE expr]` in the same way.
pub fn filter_by(
    alloc: Global,
    tokens: &mut Cursor<'_>,
    depth: usize,
) -> Result<Option<Expr>, ParseError>
    ensures { Gives (reads Name rules depth spec.filter_by tokens.old.counts tokens.old.rest.now) result tokens.new.counts tokens.new.rest.now }
{
    let operands = Operands {
        alloc,
        depth,
        inner: boxed_expr,
        query: boxed_query,
    };
    Clauses {
        levels: Levels { operands },
    }
    .filter_by(tokens)
}

/// An expression in a box. Behind an opening token it is called again.
#[cycle(nesting)]
fn boxed_expr(
    alloc: Global,
    tokens: &mut Cursor<'_>,
    depth: usize,
) -> Result<Boxed<Expr>, ParseError>
    ensures { Gives (reads Name rules depth grammar.expr tokens.old.counts tokens.old.rest.now) result tokens.new.counts tokens.new.rest.now }
{
    let operands = Operands {
        alloc,
        depth,
        inner: boxed_expr,
        query: boxed_query,
    };
    Levels { operands }.expr(tokens)
}

/// A query in a box. Behind an opening token it is called again.
#[cycle(nesting)]
fn boxed_query(
    alloc: Global,
    tokens: &mut Cursor<'_>,
    depth: usize,
) -> Result<Boxed<Query>, ParseError>
    ensures { Gives (reads Name rules depth spec.query tokens.old.counts tokens.old.rest.now) result tokens.new.counts tokens.new.rest.now }
{
    let operands = Operands {
        alloc,
        depth,
        inner: boxed_expr,
        query: boxed_query,
    };
    let clauses = Clauses {
        levels: Levels { operands },
    };
    let queries = Queries { clauses };
    match queries.query(tokens) {
        Ok(found) => boxed(alloc, found),
        Err(why) => Err(why),
    }
}
