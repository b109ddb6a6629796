// Constraints of columns (CREATE TABLE).

ghost use Rattle.std.specs.Prelude.{ℕ, ◌≡◌, IfOk};
ghost use Rattle.sql_grammar.specs.Grammar as grammar;
ghost use Rattle.sql_grammar.specs.Grammar.{Name};
ghost use Rattle.sql_grammar.specs.Bodies.{rules};
ghost use Rattle.sql_grammar.specs.Definitions as spec;
ghost use Rattle.sql_grammar.specs.Rules.{reads};
ghost use Rattle.parse_cursor.specs.Gives.{Gives};
ghost use Rattle.parse_create.specs.Parts as part;

use crate::readers::Elements;
use parse_cursor::{Cursor, Element, ParseError, given_word, name, several, signed};
use parse_query::expr;
use sql_grammar::Role;
use sql_tree::{ColumnConstraint, Expr, SignedNumber, Token, TokenKind, UnaryOp};
use sqlite_items::{Boxed, Items};
use std::alloc::{AllocError, Global};

/// Literals that no sign stands in front of.
const UNSIGNED: [TokenKind; 5] = [
    TokenKind::Text,
    TokenKind::Blob,
    TokenKind::Null,
    TokenKind::True,
    TokenKind::False,
];

/// What a constraint of a column begins with.
const STARTS: [TokenKind; 8] = [
    TokenKind::Constraint,
    TokenKind::Primary,
    TokenKind::Not,
    TokenKind::Null,
    TokenKind::Unique,
    TokenKind::Check,
    TokenKind::Default,
    TokenKind::Collate,
];

/// `( expr )`
#[tactic(auto, using(crate::proofs::Bracketed::in_expression_is))]
fn in_expression(alloc: Global, tokens: &mut Cursor<'_>, depth: usize) -> Result<Expr, ParseError>
    ensures { Gives (reads Name rules depth spec.in_expression tokens.old.counts tokens.old.rest.now) result tokens.new.counts tokens.new.rest.now }
{
    tokens.open(depth, TokenKind::LeftParen, Role::Opening)?;
    match expr(alloc, tokens, depth - 1) {
        Ok(found) => tokens.close(found, TokenKind::RightParen, Role::Closing),
        Err(why) => Err(why),
    }
}

/// `CHECK ( expr )`
#[tactic(auto, unfolding(sql_grammar::specs::Definitions::check))]
pub(crate) fn check(
    alloc: Global,
    tokens: &mut Cursor<'_>,
    depth: usize,
) -> Result<Expr, ParseError>
    ensures { Gives (reads Name rules depth spec.check tokens.old.counts tokens.old.rest.now) result tokens.new.counts tokens.new.rest.now }
{
    tokens.expect(TokenKind::Check, Role::Outside)?;
    in_expression(alloc, tokens, depth)
}

fn sign_op(kind: TokenKind) -> UnaryOp
    ensures { result ≡ grammar.sign_op kind }
{
    match kind {
        TokenKind::Minus => UnaryOp::Negative,
        TokenKind::Plus => UnaryOp::Positive,
        _ => UnaryOp::BitNot,
    }
}

/// A number with its sign as an expression.
fn signed_literal(alloc: Global, found: SignedNumber) -> Result<Expr, AllocError>
    ensures { IfOk result (λ x. x ≡ spec.signed_literal found found.sign) }
{
    let number = Expr::Literal(found.number);
    match found.sign {
        None => Ok(number),
        Some(sign) => Ok(Expr::Unary(sign_op(sign.kind), Boxed::new(alloc, number)?)),
    }
}

/// `[+ | -] number | text | blob | NULL | TRUE | FALSE | ( expr )`
#[tactic(auto, using(crate::proofs::Clear::first_in_expression), unfolding(sql_grammar::specs::Definitions::default_value))]
fn default_value(alloc: Global, tokens: &mut Cursor<'_>, depth: usize) -> Result<Expr, ParseError>
    ensures { Gives (reads Name rules depth spec.default_value tokens.old.counts tokens.old.rest.now) result tokens.new.counts tokens.new.rest.now }
{
    if tokens.sees_any(&UNSIGNED) {
        let literal = tokens.expect_any(&UNSIGNED, Role::Outside)?;
        return Ok(Expr::Literal(literal));
    }
    if tokens.sees(TokenKind::LeftParen) {
        return in_expression(alloc, tokens, depth);
    }
    let number = signed(tokens)?;
    match signed_literal(alloc, number) {
        Ok(literal) => Ok(literal),
        Err(_) => Err(ParseError::Memory),
    }
}

/// `PRIMARY KEY`
#[tactic(auto, using(crate::proofs::Constrained::primary_key_is))]
pub(crate) fn primary_key(tokens: &mut Cursor<'_>) -> Result<Token, ParseError>
    ensures { (d : ℕ) → Gives (reads Name rules d spec.primary_key tokens.old.counts tokens.old.rest.now) result tokens.new.counts tokens.new.rest.now }
{
    tokens.expect(TokenKind::Primary, Role::Outside)?;
    tokens.expect(TokenKind::Key, Role::Outside)
}

/// `PRIMARY KEY [ASC]`
#[tactic(auto, using(crate::proofs::Constrained::column_key_is))]
fn column_key(tokens: &mut Cursor<'_>) -> Result<ColumnConstraint, ParseError>
    ensures { (d : ℕ) → Gives (reads Name rules d spec.column_key tokens.old.counts tokens.old.rest.now) result tokens.new.counts tokens.new.rest.now }
{
    primary_key(tokens)?;
    given_word(tokens, TokenKind::Asc)?;
    Ok(ColumnConstraint::PrimaryKey)
}

/// `NOT NULL`
#[tactic(auto, using(crate::proofs::Constrained::not_null_is))]
fn not_null(tokens: &mut Cursor<'_>) -> Result<ColumnConstraint, ParseError>
    ensures { (d : ℕ) → Gives (reads Name rules d spec.not_null tokens.old.counts tokens.old.rest.now) result tokens.new.counts tokens.new.rest.now }
{
    tokens.expect(TokenKind::Not, Role::Outside)?;
    tokens.expect(TokenKind::Null, Role::Outside)?;
    Ok(ColumnConstraint::NotNull)
}

/// `COLLATE name`
#[tactic(auto, using(crate::proofs::Constrained::collate_is))]
pub(crate) fn collate(tokens: &mut Cursor<'_>) -> Result<Token, ParseError>
    ensures { (d : ℕ) → Gives (reads Name rules d spec.collate tokens.old.counts tokens.old.rest.now) result tokens.new.counts tokens.new.rest.now }
{
    tokens.expect(TokenKind::Collate, Role::Outside)?;
    name(tokens)
}

/// What a column is constrained to.
#[tactic(auto, using(crate::proofs::Clear::constraint_firsts), unfolding(sql_grammar::specs::Definitions::column_rule_of, sql_grammar::specs::Definitions::null, sql_grammar::specs::Definitions::unique_column))]
fn column_rule(
    alloc: Global,
    tokens: &mut Cursor<'_>,
    depth: usize,
) -> Result<ColumnConstraint, ParseError>
    ensures { Gives (reads Name rules depth spec.column_rule_of tokens.old.counts tokens.old.rest.now) result tokens.new.counts tokens.new.rest.now }
{
    if tokens.sees(TokenKind::Primary) {
        return column_key(tokens);
    }
    if tokens.sees(TokenKind::Not) {
        return not_null(tokens);
    }
    if tokens.sees(TokenKind::Null) {
        tokens.expect(TokenKind::Null, Role::Outside)?;
        return Ok(ColumnConstraint::Null);
    }
    if tokens.sees(TokenKind::Unique) {
        tokens.expect(TokenKind::Unique, Role::Outside)?;
        return Ok(ColumnConstraint::Unique);
    }
    if tokens.sees(TokenKind::Check) {
        return match check(alloc, tokens, depth) {
            Ok(condition) => Ok(ColumnConstraint::Check(condition)),
            Err(why) => Err(why),
        };
    }
    if tokens.sees(TokenKind::Default) {
        tokens.expect(TokenKind::Default, Role::Outside)?;
        return match default_value(alloc, tokens, depth) {
            Ok(value) => Ok(ColumnConstraint::Default(value)),
            Err(why) => Err(why),
        };
    }
    Ok(ColumnConstraint::Collate(collate(tokens)?))
}

/// `[CONSTRAINT name]`
#[tactic(auto, using(crate::proofs::Constrained::constraint_names))]
pub(crate) fn constraint_name(tokens: &mut Cursor<'_>) -> Result<Option<Token>, ParseError>
    ensures { (d : ℕ) → Gives (reads Name rules d spec.constraint_name tokens.old.counts tokens.old.rest.now) result tokens.new.counts tokens.new.rest.now }
{
    if tokens.sees(TokenKind::Constraint) {
        tokens.expect(TokenKind::Constraint, Role::Outside)?;
        Ok(Some(name(tokens)?))
    } else {
        Ok(None)
    }
}

/// Constraints of a column, whose names mean nothing.
impl Element<ColumnConstraint> for Elements {
    ghost is_ready = { λ it. Unit {0} };

    ghost rule = { λ it. spec.column_constraint };

    ghost depth = { λ it. it.depth };

    #[tactic(auto, unfolding(sql_grammar::specs::Definitions::column_constraint))]
    fn read(&self, tokens: &mut Cursor<'_>) -> Result<ColumnConstraint, ParseError> {
        constraint_name(tokens)?;
        column_rule(self.alloc, tokens, self.depth)
    }
}

/// `{constraint}`
#[tactic(auto, using(crate::proofs::Lists::constraints_steps))]
pub(crate) fn column_constraints(
    alloc: Global,
    tokens: &mut Cursor<'_>,
    depth: usize,
) -> Result<Items<ColumnConstraint>, ParseError>
    ensures { Gives (reads Name rules depth part.column_constraints tokens.old.counts tokens.old.rest.now) result tokens.new.counts tokens.new.rest.now }
{
    if tokens.sees_any(&STARTS) {
        several(alloc, tokens, &STARTS, &Elements { alloc, depth })
    } else {
        Ok(Items::new(alloc))
    }
}
