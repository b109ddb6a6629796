// Tests that stand behind their operand (SQL Language Expressions).

ghost use Rattle.std.specs.Prelude.{ℕ, ◌≡◌, ◌<◌, ◌-◌, IfOk};
ghost use Rattle.sql_grammar.specs.Rules.{reads};
ghost use Rattle.sql_grammar.specs.Grammar as spec;
ghost use Rattle.sql_grammar.specs.Grammar.{Name};
ghost use Rattle.sql_grammar.specs.Bodies.{rules};
ghost use Rattle.sql_grammar.specs.Queries.{query};
ghost use Rattle.parse_cursor.specs.Gives.{Gives, apply_one, apply_to};
ghost use Rattle.parse_operand.specs.Nests.{Nests};
ghost use Rattle.parse_expr.specs.Parts as part;

use crate::operators::{binary, unary};
use crate::precedence::Levels;
use parse_cursor::{Cursor, ParseError, boxed};
use sql_grammar::Role;
use sql_tree::{BinaryOp, Expr, Query, Token, TokenKind, UnaryOp};
use sqlite_items::{Boxed, Items};
use std::alloc::Global;

const EQUALITIES: [TokenKind; 4] = [
    TokenKind::Equal,
    TokenKind::DoubleEqual,
    TokenKind::LessGreater,
    TokenKind::BangEqual,
];

/// What a test begins with that NOT may stand in front of.
const POSITIVES: [TokenKind; 4] = [
    TokenKind::Between,
    TokenKind::Like,
    TokenKind::Glob,
    TokenKind::In,
];

const NULL_TESTS: [TokenKind; 2] = [TokenKind::IsNull, TokenKind::NotNull];

/// What a test begins with.
const TESTS: [TokenKind; 12] = [
    TokenKind::Equal,
    TokenKind::DoubleEqual,
    TokenKind::LessGreater,
    TokenKind::BangEqual,
    TokenKind::Is,
    TokenKind::Between,
    TokenKind::Like,
    TokenKind::Glob,
    TokenKind::In,
    TokenKind::IsNull,
    TokenKind::NotNull,
    TokenKind::Not,
];

/// `[NOT]`
#[tactic(auto, using(crate::proofs::Straight::opposites))]
fn opposite(tokens: &mut Cursor<'_>) -> Result<Option<Token>, ParseError>
    ensures { (d : ℕ) → Gives (reads Name rules d part.opposite tokens.old.counts tokens.old.rest.now) result tokens.new.counts tokens.new.rest.now }
{
    if tokens.sees(TokenKind::Not) {
        Ok(Some(tokens.expect(TokenKind::Not, Role::Quiet)?))
    } else {
        Ok(None)
    }
}

/// `[DISTINCT FROM]`
#[tactic(auto, using(crate::proofs::Straight::distinct_froms))]
fn distinct_from(tokens: &mut Cursor<'_>) -> Result<Option<Token>, ParseError>
    ensures { (d : ℕ) → Gives (reads Name rules d spec.distinct_from tokens.old.counts tokens.old.rest.now) result tokens.new.counts tokens.new.rest.now }
{
    if tokens.sees(TokenKind::Distinct) {
        tokens.expect(TokenKind::Distinct, Role::Quiet)?;
        Ok(Some(tokens.expect(TokenKind::From, Role::Quiet)?))
    } else {
        Ok(None)
    }
}

/// `ISNULL | NOTNULL`
#[tactic(auto, using(crate::proofs::Straight::null_test_is))]
fn null_test(
    alloc: Global,
    tokens: &mut Cursor<'_>,
    left: Boxed<Expr>,
) -> Result<Boxed<Expr>, ParseError>
    ensures { (d : ℕ) → Gives (apply_one left (reads Name rules d spec.null_test tokens.old.counts tokens.old.rest.now)) result tokens.new.counts tokens.new.rest.now }
{
    let word = tokens.expect_any(&NULL_TESTS, Role::Operator)?;
    unary(alloc, null_op(word.kind), left)
}

impl<
    F: Fn(Global, &mut Cursor<'_>, usize) -> Result<Boxed<Expr>, ParseError>,
    G: Fn(Global, &mut Cursor<'_>, usize) -> Result<Boxed<Query>, ParseError>,
> Levels<F, G> {
    /// `(= | == | <> | !=) relation`
    #[tactic(auto, unfolding(sql_grammar::specs::Grammar::equal_to))]
    pub(crate) fn equal_to(
        &self,
        tokens: &mut Cursor<'_>,
        left: Boxed<Expr>,
    ) -> Result<Boxed<Expr>, ParseError>
        requires exprs { Nests spec.expr self.now.operands.depth (F.pre self.now.operands.inner) (F.post self.now.operands.inner) }
        requires queries { Nests query self.now.operands.depth (G.pre self.now.operands.query) (G.post self.now.operands.query) }
        ensures { Gives (apply_one left (reads Name rules self.now.operands.depth spec.equal_to tokens.old.counts tokens.old.rest.now)) result tokens.new.counts tokens.new.rest.now }
    {
        let sign = tokens.expect_any(&EQUALITIES, Role::Operator)?;
        let op = equality_op(sign.kind);
        let right = self.relation(tokens)?;
        binary(self.operands.alloc, op, left, right)
    }

    /// `IS [NOT] [DISTINCT FROM] relation`
    #[tactic(auto, using(crate::proofs::Straight::is_test_is))]
    pub(crate) fn is_test(
        &self,
        tokens: &mut Cursor<'_>,
        left: Boxed<Expr>,
    ) -> Result<Boxed<Expr>, ParseError>
        requires exprs { Nests spec.expr self.now.operands.depth (F.pre self.now.operands.inner) (F.post self.now.operands.inner) }
        requires queries { Nests query self.now.operands.depth (G.pre self.now.operands.query) (G.post self.now.operands.query) }
        ensures { Gives (apply_one left (reads Name rules self.now.operands.depth spec.is_test tokens.old.counts tokens.old.rest.now)) result tokens.new.counts tokens.new.rest.now }
    {
        tokens.expect(TokenKind::Is, Role::Operator)?;
        let not = opposite(tokens)?;
        let distinct = distinct_from(tokens)?;
        let op = is_op(not, distinct);
        let right = self.relation(tokens)?;
        binary(self.operands.alloc, op, left, right)
    }

    /// `word relation`
    #[tactic(auto, using(crate::proofs::Straight::relation_behind_is))]
    pub(crate) fn relation_behind(
        &self,
        tokens: &mut Cursor<'_>,
        word: TokenKind,
        role: Role,
    ) -> Result<Boxed<Expr>, ParseError>
        requires exprs { Nests spec.expr self.now.operands.depth (F.pre self.now.operands.inner) (F.post self.now.operands.inner) }
        requires queries { Nests query self.now.operands.depth (G.pre self.now.operands.query) (G.post self.now.operands.query) }
        ensures { Gives (reads Name rules self.now.operands.depth (part.relation_behind role word) tokens.old.counts tokens.old.rest.now) result tokens.new.counts tokens.new.rest.now }
    {
        tokens.expect(word, role)?;
        self.relation(tokens)
    }

    /// `BETWEEN relation AND relation`
    #[tactic(auto, using(crate::proofs::Straight::between_is))]
    pub(crate) fn between(
        &self,
        tokens: &mut Cursor<'_>,
        left: Boxed<Expr>,
        role: Role,
    ) -> Result<Boxed<Expr>, ParseError>
        requires exprs { Nests spec.expr self.now.operands.depth (F.pre self.now.operands.inner) (F.post self.now.operands.inner) }
        requires queries { Nests query self.now.operands.depth (G.pre self.now.operands.query) (G.post self.now.operands.query) }
        ensures { Gives (apply_one left (reads Name rules self.now.operands.depth (spec.between role) tokens.old.counts tokens.old.rest.now)) result tokens.new.counts tokens.new.rest.now }
    {
        let low = self.relation_behind(tokens, TokenKind::Between, role)?;
        let high = self.relation_behind(tokens, TokenKind::And, Role::Quiet)?;
        boxed(self.operands.alloc, Expr::Between(left, low, high))
    }

    /// `[ESCAPE relation]`
    #[tactic(auto, using(crate::proofs::Straight::escapes))]
    pub(crate) fn escape(&self, tokens: &mut Cursor<'_>) -> Result<Option<Boxed<Expr>>, ParseError>
        requires exprs { Nests spec.expr self.now.operands.depth (F.pre self.now.operands.inner) (F.post self.now.operands.inner) }
        requires queries { Nests query self.now.operands.depth (G.pre self.now.operands.query) (G.post self.now.operands.query) }
        ensures { Gives (reads Name rules self.now.operands.depth part.escape tokens.old.counts tokens.old.rest.now) result tokens.new.counts tokens.new.rest.now }
    {
        if tokens.sees(TokenKind::Escape) {
            let escape = self.relation_behind(tokens, TokenKind::Escape, Role::Quiet)?;
            Ok(Some(escape))
        } else {
            Ok(None)
        }
    }

    /// `LIKE relation [ESCAPE relation]`
    #[tactic(auto, using(crate::proofs::Straight::like_is, crate::proofs::Straight::like_stops))]
    pub(crate) fn like(
        &self,
        tokens: &mut Cursor<'_>,
        left: Boxed<Expr>,
        role: Role,
    ) -> Result<Boxed<Expr>, ParseError>
        requires exprs { Nests spec.expr self.now.operands.depth (F.pre self.now.operands.inner) (F.post self.now.operands.inner) }
        requires queries { Nests query self.now.operands.depth (G.pre self.now.operands.query) (G.post self.now.operands.query) }
        ensures { Gives (apply_one left (reads Name rules self.now.operands.depth (spec.like role) tokens.old.counts tokens.old.rest.now)) result tokens.new.counts tokens.new.rest.now }
    {
        let pattern = self.relation_behind(tokens, TokenKind::Like, role)?;
        match self.escape(tokens) {
            Ok(escape) => boxed(self.operands.alloc, Expr::Like(left, pattern, escape)),
            Err(error) => Err(error),
        }
    }

    /// `GLOB relation`
    #[tactic(auto, using(crate::proofs::Straight::glob_is))]
    pub(crate) fn glob(
        &self,
        tokens: &mut Cursor<'_>,
        left: Boxed<Expr>,
        role: Role,
    ) -> Result<Boxed<Expr>, ParseError>
        requires exprs { Nests spec.expr self.now.operands.depth (F.pre self.now.operands.inner) (F.post self.now.operands.inner) }
        requires queries { Nests query self.now.operands.depth (G.pre self.now.operands.query) (G.post self.now.operands.query) }
        ensures { Gives (apply_one left (reads Name rules self.now.operands.depth (spec.glob role) tokens.old.counts tokens.old.rest.now)) result tokens.new.counts tokens.new.rest.now }
    {
        let pattern = self.relation_behind(tokens, TokenKind::Glob, role)?;
        binary(self.operands.alloc, BinaryOp::Glob, left, pattern)
    }

    /// `IN ( query | [expr {, expr}] )`
    #[tactic(auto, using(crate::proofs::Straight::member_of_is))]
    pub(crate) fn member_of(
        &self,
        tokens: &mut Cursor<'_>,
        left: Boxed<Expr>,
        role: Role,
    ) -> Result<Boxed<Expr>, ParseError>
        requires exprs { Nests spec.expr self.now.operands.depth (F.pre self.now.operands.inner) (F.post self.now.operands.inner) }
        requires queries { Nests query self.now.operands.depth (G.pre self.now.operands.query) (G.post self.now.operands.query) }
        ensures { Gives (apply_one left (reads Name rules self.now.operands.depth (spec.member_of role) tokens.old.counts tokens.old.rest.now)) result tokens.new.counts tokens.new.rest.now }
    {
        tokens.expect(TokenKind::In, role)?;
        self.operands.in_members(tokens, left)
    }

    /// BETWEEN, LIKE, GLOB or IN.
    #[tactic(auto, using(crate::proofs::Clear::positive_test_firsts), unfolding(sql_grammar::specs::Grammar::positive_test))]
    pub(crate) fn positive_test(
        &self,
        tokens: &mut Cursor<'_>,
        left: Boxed<Expr>,
        role: Role,
    ) -> Result<Boxed<Expr>, ParseError>
        requires exprs { Nests spec.expr self.now.operands.depth (F.pre self.now.operands.inner) (F.post self.now.operands.inner) }
        requires queries { Nests query self.now.operands.depth (G.pre self.now.operands.query) (G.post self.now.operands.query) }
        ensures { Gives (apply_one left (reads Name rules self.now.operands.depth (spec.positive_test role) tokens.old.counts tokens.old.rest.now)) result tokens.new.counts tokens.new.rest.now }
    {
        if tokens.sees(TokenKind::Between) {
            self.between(tokens, left, role)
        } else if tokens.sees(TokenKind::Like) {
            self.like(tokens, left, role)
        } else if tokens.sees(TokenKind::Glob) {
            self.glob(tokens, left, role)
        } else {
            self.member_of(tokens, left, role)
        }
    }

    /// What stands behind NOT: a test, or NULL.
    #[tactic(auto, using(crate::proofs::Straight::negateds))]
    pub(crate) fn negated(
        &self,
        tokens: &mut Cursor<'_>,
        left: Boxed<Expr>,
    ) -> Result<Boxed<Expr>, ParseError>
        requires exprs { Nests spec.expr self.now.operands.depth (F.pre self.now.operands.inner) (F.post self.now.operands.inner) }
        requires queries { Nests query self.now.operands.depth (G.pre self.now.operands.query) (G.post self.now.operands.query) }
        ensures { Gives (apply_one left (reads Name rules self.now.operands.depth spec.negated tokens.old.counts tokens.old.rest.now)) result tokens.new.counts tokens.new.rest.now }
    {
        if tokens.sees_any(&POSITIVES) {
            let test = self.positive_test(tokens, left, Role::Quiet)?;
            return unary(self.operands.alloc, UnaryOp::Not, test);
        }
        tokens.expect(TokenKind::Null, Role::Quiet)?;
        unary(self.operands.alloc, UnaryOp::NotNull, left)
    }

    /// `NOT`, and what stands behind it
    #[tactic(auto, using(crate::proofs::Straight::opposed_is))]
    pub(crate) fn opposed(
        &self,
        tokens: &mut Cursor<'_>,
        left: Boxed<Expr>,
    ) -> Result<Boxed<Expr>, ParseError>
        requires exprs { Nests spec.expr self.now.operands.depth (F.pre self.now.operands.inner) (F.post self.now.operands.inner) }
        requires queries { Nests query self.now.operands.depth (G.pre self.now.operands.query) (G.post self.now.operands.query) }
        ensures { Gives (apply_one left (reads Name rules self.now.operands.depth part.opposed tokens.old.counts tokens.old.rest.now)) result tokens.new.counts tokens.new.rest.now }
    {
        tokens.expect(TokenKind::Not, Role::Operator)?;
        self.negated(tokens, left)
    }

    /// A test behind its operand.
    #[tactic(auto, using(crate::proofs::Straight::tests_are, crate::proofs::Clear::test_firsts))]
    pub(crate) fn test(
        &self,
        tokens: &mut Cursor<'_>,
        left: Boxed<Expr>,
    ) -> Result<Boxed<Expr>, ParseError>
        requires exprs { Nests spec.expr self.now.operands.depth (F.pre self.now.operands.inner) (F.post self.now.operands.inner) }
        requires queries { Nests query self.now.operands.depth (G.pre self.now.operands.query) (G.post self.now.operands.query) }
        ensures { Gives (apply_one left (reads Name rules self.now.operands.depth spec.test tokens.old.counts tokens.old.rest.now)) result tokens.new.counts tokens.new.rest.now }
    {
        if tokens.sees_any(&EQUALITIES) {
            self.equal_to(tokens, left)
        } else if tokens.sees(TokenKind::Is) {
            self.is_test(tokens, left)
        } else if tokens.sees_any(&POSITIVES) {
            self.positive_test(tokens, left, Role::Operator)
        } else if tokens.sees_any(&NULL_TESTS) {
            null_test(self.operands.alloc, tokens, left)
        } else {
            self.opposed(tokens, left)
        }
    }

    /// `relation {test}`
    #[tactic(auto, using(crate::proofs::Suffixed::equality_is))]
    pub(crate) fn equality(&self, tokens: &mut Cursor<'_>) -> Result<Boxed<Expr>, ParseError>
        requires exprs { Nests spec.expr self.now.operands.depth (F.pre self.now.operands.inner) (F.post self.now.operands.inner) }
        requires queries { Nests query self.now.operands.depth (G.pre self.now.operands.query) (G.post self.now.operands.query) }
        ensures { Gives (reads Name rules self.now.operands.depth spec.equality tokens.old.counts tokens.old.rest.now) result tokens.new.counts tokens.new.rest.now }
    {
        let left = self.relation(tokens)?;
        self.tests(tokens, left)
    }

    /// `{test}` behind its left operand
    #[tactic(auto, using(crate::proofs::Suffixed::equality_steps))]
    pub(crate) fn tests(
        &self,
        tokens: &mut Cursor<'_>,
        mut left: Boxed<Expr>,
    ) -> Result<Boxed<Expr>, ParseError>
        requires exprs { Nests spec.expr self.now.operands.depth (F.pre self.now.operands.inner) (F.post self.now.operands.inner) }
        requires queries { Nests query self.now.operands.depth (G.pre self.now.operands.query) (G.post self.now.operands.query) }
        ensures { Gives (apply_to left (reads Name rules self.now.operands.depth spec.tests tokens.old.counts tokens.old.rest.now)) result tokens.new.counts tokens.new.rest.now }
    {
        while tokens.sees_any(&TESTS) {
            left = self.test(tokens, left)?;
        }
        Ok(left)
    }
}

fn equality_op(kind: TokenKind) -> BinaryOp
    ensures { result ≡ spec.equality_op kind }
{
    match kind {
        TokenKind::Equal => BinaryOp::Equal,
        TokenKind::DoubleEqual => BinaryOp::Equal,
        _ => BinaryOp::NotEqual,
    }
}

fn null_op(kind: TokenKind) -> UnaryOp
    ensures { result ≡ spec.null_op kind }
{
    match kind {
        TokenKind::IsNull => UnaryOp::IsNull,
        _ => UnaryOp::NotNull,
    }
}

/// `IS` behind NOT is its opposite, and so it is in front of DISTINCT FROM.
fn is_op(not: Option<Token>, distinct: Option<Token>) -> BinaryOp
    ensures { result ≡ spec.is_op not distinct }
{
    match (not, distinct) {
        (None, None) | (Some(_), Some(_)) => BinaryOp::Is,
        (Some(_), None) | (None, Some(_)) => BinaryOp::IsNot,
    }
}
