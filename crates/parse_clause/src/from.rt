// FROM: tables, derived tables, and how they are joined.

ghost use Rattle.std.specs.Prelude.{ℕ, ◌-◌, ◌<◌};
ghost use Rattle.sql_grammar.specs.Rules.{reads};
ghost use Rattle.sql_grammar.specs.Grammar.{Name, expr};
ghost use Rattle.sql_grammar.specs.Queries as spec;
ghost use Rattle.sql_grammar.specs.Queries.{query};
ghost use Rattle.sql_grammar.specs.Bodies.{rules};
ghost use Rattle.parse_cursor.specs.Gives.{Gives};
ghost use Rattle.parse_operand.specs.Nests.{Nests};
ghost use Rattle.parse_clause.specs.Parts as part;

use crate::clauses::Clauses;
use crate::words::alias;
use parse_cursor::{Cursor, ParseError, given_word, in_names, name, sees_name};
use parse_operand::sees_expr;
use sql_grammar::Role;
use sql_tree::{Expr, FromItem, Join, JoinConstraint, Query, Source, TokenKind};
use sqlite_items::{Boxed, Items};
use std::alloc::Global;

/// What joins an item with those in front of it begins with.
const JOINS: [TokenKind; 6] = [
    TokenKind::Comma,
    TokenKind::Natural,
    TokenKind::Inner,
    TokenKind::Cross,
    TokenKind::Left,
    TokenKind::Join,
];

const INNER: [TokenKind; 2] = [TokenKind::Inner, TokenKind::Cross];

/// The join of an item behind a comma.
const PLAIN: Join = Join {
    natural: false,
    left: false,
};

/// `LEFT [OUTER]`
#[tactic(auto, using(crate::proofs::Joins::left_word_is))]
fn left_word(tokens: &mut Cursor<'_>) -> Result<bool, ParseError>
    ensures { (d : ℕ) → Gives (reads Name rules d spec.left_word tokens.old.counts tokens.old.rest.now) result tokens.new.counts tokens.new.rest.now }
{
    tokens.expect(TokenKind::Left, Role::Outside)?;
    given_word(tokens, TokenKind::Outer)?;
    Ok(true)
}

/// `[INNER | CROSS | LEFT [OUTER]]`, as whether it is LEFT
#[tactic(auto, using(crate::proofs::Joins::join_sides))]
fn join_side(tokens: &mut Cursor<'_>) -> Result<bool, ParseError>
    ensures { (d : ℕ) → Gives (reads Name rules d spec.join_side tokens.old.counts tokens.old.rest.now) result tokens.new.counts tokens.new.rest.now }
{
    if tokens.sees_any(&INNER) {
        tokens.expect_any(&INNER, Role::Outside)?;
        return Ok(false);
    }
    if tokens.sees(TokenKind::Left) {
        return left_word(tokens);
    }
    Ok(false)
}

/// `[NATURAL] [INNER | CROSS | LEFT [OUTER]] JOIN`
#[tactic(auto, using(crate::proofs::Joins::join_words_is))]
fn join_words(tokens: &mut Cursor<'_>) -> Result<Join, ParseError>
    ensures { (d : ℕ) → Gives (reads Name rules d spec.join_words tokens.old.counts tokens.old.rest.now) result tokens.new.counts tokens.new.rest.now }
{
    let natural = given_word(tokens, TokenKind::Natural)?;
    let left = join_side(tokens)?;
    tokens.expect(TokenKind::Join, Role::Outside)?;
    Ok(Join { natural, left })
}

/// `, | [NATURAL] [INNER | CROSS | LEFT [OUTER]] JOIN`
#[tactic(auto, using(crate::proofs::Joins::joins))]
fn join(tokens: &mut Cursor<'_>) -> Result<Join, ParseError>
    ensures { (d : ℕ) → Gives (reads Name rules d spec.join tokens.old.counts tokens.old.rest.now) result tokens.new.counts tokens.new.rest.now }
{
    if tokens.sees(TokenKind::Comma) {
        tokens.expect(TokenKind::Comma, Role::Outside)?;
        return Ok(PLAIN);
    }
    join_words(tokens)
}

impl<
    F: Fn(Global, &mut Cursor<'_>, usize) -> Result<Boxed<Expr>, ParseError>,
    G: Fn(Global, &mut Cursor<'_>, usize) -> Result<Boxed<Query>, ParseError>,
> Clauses<F, G> {
    /// `[expr {, expr}]`
    #[tactic(auto, using(crate::proofs::Bracketed::inside_table_arguments_steps))]
    fn inside_table_arguments(&self, tokens: &mut Cursor<'_>) -> Result<Items<Expr>, ParseError>
        requires exprs { Nests expr self.now.levels.operands.depth (F.pre self.now.levels.operands.inner) (F.post self.now.levels.operands.inner) }
        requires queries { Nests query self.now.levels.operands.depth (G.pre self.now.levels.operands.query) (G.post self.now.levels.operands.query) }
        requires open { 0 < self.now.levels.operands.depth }
        ensures { Gives (reads Name rules (self.now.levels.operands.depth - 1) part.inside_table_arguments tokens.old.counts tokens.old.rest.now) result tokens.new.counts tokens.new.rest.now }
    {
        if sees_expr(tokens) {
            return self.levels.operands.exprs(tokens);
        }
        Ok(Items::new(self.levels.operands.alloc))
    }

    /// `[( [expr {, expr}] )]`
    #[tactic(auto, using(crate::proofs::Bracketed::maybe_table_arguments_steps))]
    fn table_arguments(&self, tokens: &mut Cursor<'_>) -> Result<Option<Items<Expr>>, ParseError>
        requires exprs { Nests expr self.now.levels.operands.depth (F.pre self.now.levels.operands.inner) (F.post self.now.levels.operands.inner) }
        requires queries { Nests query self.now.levels.operands.depth (G.pre self.now.levels.operands.query) (G.post self.now.levels.operands.query) }
        ensures { Gives (reads Name rules self.now.levels.operands.depth part.maybe_table_arguments tokens.old.counts tokens.old.rest.now) result tokens.new.counts tokens.new.rest.now }
    {
        if !tokens.sees(TokenKind::LeftParen) {
            return Ok(None);
        }
        tokens.open(
            self.levels.operands.depth,
            TokenKind::LeftParen,
            Role::Opening,
        )?;
        match self.inside_table_arguments(tokens) {
            Ok(found) => tokens.close(Some(found), TokenKind::RightParen, Role::Closing),
            Err(why) => Err(why),
        }
    }

    /// `name [( [expr {, expr}] )] | ( query )`
    #[tactic(auto, using(crate::proofs::Joins::sources))]
    fn source(&self, tokens: &mut Cursor<'_>) -> Result<Source, ParseError>
        requires exprs { Nests expr self.now.levels.operands.depth (F.pre self.now.levels.operands.inner) (F.post self.now.levels.operands.inner) }
        requires queries { Nests query self.now.levels.operands.depth (G.pre self.now.levels.operands.query) (G.post self.now.levels.operands.query) }
        ensures { Gives (reads Name rules self.now.levels.operands.depth spec.source tokens.old.counts tokens.old.rest.now) result tokens.new.counts tokens.new.rest.now }
    {
        if sees_name(tokens) {
            let table = name(tokens)?;
            return match self.table_arguments(tokens) {
                Ok(arguments) => Ok(Source::Table(table, arguments)),
                Err(why) => Err(why),
            };
        }
        match self.in_query(tokens) {
            Ok(query) => Ok(Source::Derived(query)),
            Err(why) => Err(why),
        }
    }

    /// `[ON expr | USING ( name {, name} )]`
    #[tactic(auto, using(crate::proofs::Joins::join_constraints))]
    fn join_constraint(&self, tokens: &mut Cursor<'_>) -> Result<JoinConstraint, ParseError>
        requires exprs { Nests expr self.now.levels.operands.depth (F.pre self.now.levels.operands.inner) (F.post self.now.levels.operands.inner) }
        requires queries { Nests query self.now.levels.operands.depth (G.pre self.now.levels.operands.query) (G.post self.now.levels.operands.query) }
        ensures { Gives (reads Name rules self.now.levels.operands.depth spec.join_constraint tokens.old.counts tokens.old.rest.now) result tokens.new.counts tokens.new.rest.now }
    {
        if tokens.sees(TokenKind::On) {
            tokens.expect(TokenKind::On, Role::Outside)?;
            return match self.levels.expr(tokens) {
                Ok(found) => Ok(JoinConstraint::On(found.into_inner())),
                Err(why) => Err(why),
            };
        }
        if tokens.sees(TokenKind::Using) {
            tokens.expect(TokenKind::Using, Role::Outside)?;
            let operands = &self.levels.operands;
            return Ok(JoinConstraint::Using(in_names(operands.alloc, tokens, operands.depth)?));
        }
        Ok(JoinConstraint::Unconstrained)
    }

    /// The first item.
    #[tactic(auto, using(crate::proofs::Joins::first_item_is))]
    fn first_item(&self, tokens: &mut Cursor<'_>) -> Result<FromItem, ParseError>
        requires exprs { Nests expr self.now.levels.operands.depth (F.pre self.now.levels.operands.inner) (F.post self.now.levels.operands.inner) }
        requires queries { Nests query self.now.levels.operands.depth (G.pre self.now.levels.operands.query) (G.post self.now.levels.operands.query) }
        ensures { Gives (reads Name rules self.now.levels.operands.depth spec.first_item tokens.old.counts tokens.old.rest.now) result tokens.new.counts tokens.new.rest.now }
    {
        let source = match self.source(tokens) {
            Ok(found) => found,
            Err(why) => return Err(why),
        };
        let alias = alias(tokens)?;
        Ok(FromItem {
            join: PLAIN,
            source,
            alias,
            constraint: JoinConstraint::Unconstrained,
        })
    }

    /// An item behind the first one.
    #[tactic(auto, using(crate::proofs::Joins::joined_item_is))]
    fn joined_item(&self, tokens: &mut Cursor<'_>) -> Result<FromItem, ParseError>
        requires exprs { Nests expr self.now.levels.operands.depth (F.pre self.now.levels.operands.inner) (F.post self.now.levels.operands.inner) }
        requires queries { Nests query self.now.levels.operands.depth (G.pre self.now.levels.operands.query) (G.post self.now.levels.operands.query) }
        ensures { Gives (reads Name rules self.now.levels.operands.depth spec.joined_item tokens.old.counts tokens.old.rest.now) result tokens.new.counts tokens.new.rest.now }
    {
        let join = join(tokens)?;
        let source = match self.source(tokens) {
            Ok(found) => found,
            Err(why) => return Err(why),
        };
        let alias = alias(tokens)?;
        match self.join_constraint(tokens) {
            Ok(constraint) => Ok(FromItem {
                join,
                source,
                alias,
                constraint,
            }),
            Err(why) => Err(why),
        }
    }

    /// `item {join item [on]}`
    #[tactic(auto, using(crate::proofs::Lists::items_steps))]
    fn items(&self, tokens: &mut Cursor<'_>) -> Result<Items<FromItem>, ParseError>
        requires exprs { Nests expr self.now.levels.operands.depth (F.pre self.now.levels.operands.inner) (F.post self.now.levels.operands.inner) }
        requires queries { Nests query self.now.levels.operands.depth (G.pre self.now.levels.operands.query) (G.post self.now.levels.operands.query) }
        ensures { Gives (reads Name rules self.now.levels.operands.depth spec.items tokens.old.counts tokens.old.rest.now) result tokens.new.counts tokens.new.rest.now }
    {
        let mut found = Items::new(self.levels.operands.alloc);
        found.push(self.first_item(tokens)?)?;
        while tokens.sees_any(&JOINS) {
            found.push(self.joined_item(tokens)?)?;
        }
        Ok(found)
    }

    /// Parses `[FROM item {join item [on]}]` (SELECT, Determination of input data): the items in order, none without FROM.
    #[tactic(auto, using(crate::proofs::Joins::froms))]
    pub fn from(&self, tokens: &mut Cursor<'_>) -> Result<Items<FromItem>, ParseError>
        requires exprs { Nests expr self.now.levels.operands.depth (F.pre self.now.levels.operands.inner) (F.post self.now.levels.operands.inner) }
        requires queries { Nests query self.now.levels.operands.depth (G.pre self.now.levels.operands.query) (G.post self.now.levels.operands.query) }
        ensures { Gives (reads Name rules self.now.levels.operands.depth spec.from tokens.old.counts tokens.old.rest.now) result tokens.new.counts tokens.new.rest.now }
    {
        if !tokens.sees(TokenKind::From) {
            return Ok(Items::new(self.levels.operands.alloc));
        }
        tokens.expect(TokenKind::From, Role::Outside)?;
        self.items(tokens)
    }
}
