// Operators, from the tightest on (SQL Language Expressions, Operators, and Parse-Affecting Attributes).

ghost use Rattle.std.specs.Prelude.{ℕ, true, ◌≡◌, ◌≤◌, IfOk, IfErr};
ghost use Rattle.sql_grammar.specs.Rules.{is_clear, reads};
ghost use Rattle.sql_grammar.specs.Grammar as spec;
ghost use Rattle.sql_grammar.specs.Grammar.{Name};
ghost use Rattle.sql_grammar.specs.Bodies.{rules};
ghost use Rattle.sql_grammar.specs.Queries.{query};
ghost use Rattle.parse_cursor.specs.Gives.{Gives, apply_one, apply_to};
ghost use Rattle.parse_cursor.specs.declared.error.ParseError.TheVariants as error;
ghost use Rattle.parse_operand.specs.Nests.{Nests};
ghost use Rattle.parse_expr.specs.Parts as part;

use crate::precedence::Levels;
use parse_cursor::{Cursor, ParseError, boxed, name};
use sql_grammar::Role;
use sql_tree::{BinaryOp, Expr, Query, Token, TokenKind, UnaryOp};
use sqlite_items::{Boxed, Items};
use std::alloc::Global;

/// How many levels of operators join operands: `||`, products, sums, bits and relations.
pub(crate) const LEVELS: usize = 5;

const SIGNS: [TokenKind; 3] = [TokenKind::Minus, TokenKind::Plus, TokenKind::Tilde];

const CONCATENATIONS: [TokenKind; 1] = [TokenKind::DoubleBar];

const PRODUCTS: [TokenKind; 3] = [TokenKind::Star, TokenKind::Slash, TokenKind::Percent];

const SUMS: [TokenKind; 2] = [TokenKind::Plus, TokenKind::Minus];

const BITS: [TokenKind; 4] = [
    TokenKind::Ampersand,
    TokenKind::Bar,
    TokenKind::ShiftLeft,
    TokenKind::ShiftRight,
];

const RELATIONS: [TokenKind; 4] = [
    TokenKind::Less,
    TokenKind::LessEqual,
    TokenKind::Greater,
    TokenKind::GreaterEqual,
];

pub(crate) fn unary(
    alloc: Global,
    op: UnaryOp,
    operand: Boxed<Expr>,
) -> Result<Boxed<Expr>, ParseError>
    ensures tree { IfOk result (λ e. e ≡ Expr.Unary op operand) }
    ensures memory { IfErr result (λ e. e ≡ error.Memory) }
{
    boxed(alloc, Expr::Unary(op, operand))
}

pub(crate) fn binary(
    alloc: Global,
    op: BinaryOp,
    left: Boxed<Expr>,
    right: Boxed<Expr>,
) -> Result<Boxed<Expr>, ParseError>
    ensures tree { IfOk result (λ e. e ≡ Expr.Binary op left right) }
    ensures memory { IfErr result (λ e. e ≡ error.Memory) }
{
    boxed(alloc, Expr::Binary(op, left, right))
}

/// Any number of these operators, which stand in front of an operand.
#[tactic(auto, using(crate::proofs::Lists::prefixes_steps))]
pub(crate) fn prefixes(
    alloc: Global,
    tokens: &mut Cursor<'_>,
    kinds: &[TokenKind],
) -> Result<Items<Token>, ParseError>
    requires clear { is_clear Name rules (part.prefixes kinds.now) ≡ true }
    ensures { (d : ℕ) → Gives (reads Name rules d (part.prefixes kinds.now) tokens.old.counts tokens.old.rest.now) result tokens.new.counts tokens.new.rest.now }
{
    let mut found = Items::new(alloc);
    while tokens.sees_any(kinds) {
        found.push(tokens.expect_any(kinds, Role::Operator)?)?;
    }
    Ok(found)
}

/// The operand behind these signs, of which the last comes first.
#[tactic(auto, using(crate::proofs::Lists::with_signs_last))]
fn with_signs(
    alloc: Global,
    mut signs: Items<Token>,
    mut operand: Boxed<Expr>,
) -> Result<Boxed<Expr>, ParseError>
    ensures tree { IfOk result (λ e. e ≡ spec.with_signs signs operand) }
    ensures memory { IfErr result (λ e. e ≡ error.Memory) }
{
    while let Some(sign) = signs.pop() {
        operand = unary(alloc, sign_op(sign.kind), operand)?;
    }
    Ok(operand)
}

/// `COLLATE name` behind an operand
#[tactic(auto, using(crate::proofs::Straight::collation_is))]
fn collation(
    alloc: Global,
    tokens: &mut Cursor<'_>,
    operand: Boxed<Expr>,
) -> Result<Boxed<Expr>, ParseError>
    ensures { (d : ℕ) → Gives (apply_one operand (reads Name rules d spec.collation tokens.old.counts tokens.old.rest.now)) result tokens.new.counts tokens.new.rest.now }
{
    tokens.expect(TokenKind::Collate, Role::Operator)?;
    let by = name(tokens)?;
    boxed(alloc, Expr::Collate(operand, by))
}

/// `{COLLATE name}` behind an operand
#[tactic(auto, using(crate::proofs::Suffixed::collated_steps))]
pub(crate) fn collations(
    alloc: Global,
    tokens: &mut Cursor<'_>,
    mut left: Boxed<Expr>,
) -> Result<Boxed<Expr>, ParseError>
    ensures { (d : ℕ) → Gives (apply_to left (reads Name rules d spec.collations tokens.old.counts tokens.old.rest.now)) result tokens.new.counts tokens.new.rest.now }
{
    while tokens.sees(TokenKind::Collate) {
        left = collation(alloc, tokens, left)?;
    }
    Ok(left)
}

impl<
    F: Fn(Global, &mut Cursor<'_>, usize) -> Result<Boxed<Expr>, ParseError>,
    G: Fn(Global, &mut Cursor<'_>, usize) -> Result<Boxed<Query>, ParseError>,
> Levels<F, G> {
    /// `{- | + | ~} primary`
    #[tactic(auto, using(crate::proofs::Straight::signs_first))]
    pub(crate) fn signed_primary(&self, tokens: &mut Cursor<'_>) -> Result<Boxed<Expr>, ParseError>
        requires exprs { Nests spec.expr self.now.operands.depth (F.pre self.now.operands.inner) (F.post self.now.operands.inner) }
        requires queries { Nests query self.now.operands.depth (G.pre self.now.operands.query) (G.post self.now.operands.query) }
        ensures { Gives (reads Name rules self.now.operands.depth spec.signed_primary tokens.old.counts tokens.old.rest.now) result tokens.new.counts tokens.new.rest.now }
    {
        let signs = prefixes(self.operands.alloc, tokens, &SIGNS)?;
        let operand = self.operands.primary(tokens)?;
        with_signs(self.operands.alloc, signs, operand)
    }

    /// A signed primary and what stands behind it, up to this level.
    #[cycle(levels)]
    #[tactic(auto, using(crate::proofs::Joined::operand_is))]
    fn operand(&self, tokens: &mut Cursor<'_>, level: usize) -> Result<Boxed<Expr>, ParseError>
        requires exprs { Nests spec.expr self.now.operands.depth (F.pre self.now.operands.inner) (F.post self.now.operands.inner) }
        requires queries { Nests query self.now.operands.depth (G.pre self.now.operands.query) (G.post self.now.operands.query) }
        requires level { level ≤ 5 }
        ensures { Gives (reads Name rules self.now.operands.depth (part.operand level) tokens.old.counts tokens.old.rest.now) result tokens.new.counts tokens.new.rest.now }
    {
        let left = self.signed_primary(tokens)?;
        self.behind(tokens, left, level)
    }

    /// What stands behind a signed primary, up to this level: COLLATE, and the operators of each level below it with their right operands.
    #[cycle(levels)]
    #[tactic(auto, using(crate::proofs::Joined::behind_steps))]
    pub(crate) fn behind(
        &self,
        tokens: &mut Cursor<'_>,
        left: Boxed<Expr>,
        level: usize,
    ) -> Result<Boxed<Expr>, ParseError>
        requires exprs { Nests spec.expr self.now.operands.depth (F.pre self.now.operands.inner) (F.post self.now.operands.inner) }
        requires queries { Nests query self.now.operands.depth (G.pre self.now.operands.query) (G.post self.now.operands.query) }
        requires level { level ≤ 5 }
        ensures { Gives (part.behind self.now.operands.depth level left tokens.old.counts tokens.old.rest.now) result tokens.new.counts tokens.new.rest.now }
    {
        if level == 0 {
            return collations(self.operands.alloc, tokens, left);
        }
        let below = level - 1;
        let signs = operators(below);
        let mut joined = self.behind(tokens, left, below)?;
        while tokens.sees_any(signs) {
            let sign = tokens.expect_any(signs, Role::Operator)?;
            let right = self.operand(tokens, below)?;
            let op = operator(below, sign.kind);
            joined = binary(self.operands.alloc, op, joined, right)?;
        }
        Ok(joined)
    }

    /// An operand of a test: all operators up to `bits {(< | <= | > | >=) bits}`.
    #[tactic(auto, using(crate::proofs::Joined::relation_is))]
    pub(crate) fn relation(&self, tokens: &mut Cursor<'_>) -> Result<Boxed<Expr>, ParseError>
        requires exprs { Nests spec.expr self.now.operands.depth (F.pre self.now.operands.inner) (F.post self.now.operands.inner) }
        requires queries { Nests query self.now.operands.depth (G.pre self.now.operands.query) (G.post self.now.operands.query) }
        ensures { Gives (reads Name rules self.now.operands.depth spec.relation tokens.old.counts tokens.old.rest.now) result tokens.new.counts tokens.new.rest.now }
    {
        self.operand(tokens, LEVELS)
    }
}

/// The operators of a level, from the tightest on.
fn operators(level: usize) -> &'static [TokenKind]
    ensures { result.now ≡ part.operators level }
{
    match level {
        0 => &CONCATENATIONS,
        1 => &PRODUCTS,
        2 => &SUMS,
        3 => &BITS,
        _ => &RELATIONS,
    }
}

/// What an operator of a level does.
fn operator(level: usize, kind: TokenKind) -> BinaryOp
    ensures { result ≡ part.operator level kind }
{
    match level {
        0 => BinaryOp::Concatenate,
        1 => product_op(kind),
        2 => sum_op(kind),
        3 => bits_op(kind),
        _ => relation_op(kind),
    }
}

fn sign_op(kind: TokenKind) -> UnaryOp
    ensures { result ≡ spec.sign_op kind }
{
    match kind {
        TokenKind::Minus => UnaryOp::Negative,
        TokenKind::Plus => UnaryOp::Positive,
        _ => UnaryOp::BitNot,
    }
}

fn product_op(kind: TokenKind) -> BinaryOp
    ensures { result ≡ spec.product_op kind }
{
    match kind {
        TokenKind::Star => BinaryOp::Multiply,
        TokenKind::Slash => BinaryOp::Divide,
        _ => BinaryOp::Remainder,
    }
}

fn sum_op(kind: TokenKind) -> BinaryOp
    ensures { result ≡ spec.sum_op kind }
{
    match kind {
        TokenKind::Plus => BinaryOp::Add,
        _ => BinaryOp::Subtract,
    }
}

fn bits_op(kind: TokenKind) -> BinaryOp
    ensures { result ≡ spec.bits_op kind }
{
    match kind {
        TokenKind::Ampersand => BinaryOp::BitAnd,
        TokenKind::Bar => BinaryOp::BitOr,
        TokenKind::ShiftLeft => BinaryOp::ShiftLeft,
        _ => BinaryOp::ShiftRight,
    }
}

fn relation_op(kind: TokenKind) -> BinaryOp
    ensures { result ≡ spec.relation_op kind }
{
    match kind {
        TokenKind::Less => BinaryOp::Less,
        TokenKind::LessEqual => BinaryOp::LessEqual,
        TokenKind::Greater => BinaryOp::Greater,
        _ => BinaryOp::GreaterEqual,
    }
}
