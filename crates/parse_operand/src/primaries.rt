// Operands: literals, names, and what stands in brackets.

ghost use Rattle.std.specs.Prelude.{ℕ, ◌≡◌, ◌<◌, ◌-◌, ◌&&◌, drop};
ghost use Rattle.sql_grammar.specs.Rules.{reads, starts};
ghost use Rattle.sql_grammar.specs.Grammar as spec;
ghost use Rattle.sql_grammar.specs.Grammar.{Name};
ghost use Rattle.sql_grammar.specs.Bodies.{rules};
ghost use Rattle.sql_grammar.specs.Queries.{query};
ghost use Rattle.parse_cursor.specs.Gives.{Gives, apply_one};
ghost use Rattle.parse_operand.specs.Nests.{Nests};
ghost use Rattle.parse_operand.specs.Parts as part;

use crate::operands::Operands;
use parse_cursor::{Cursor, ParseError, boxed, name, sees_name, type_name};
use sql_grammar::Role;
use sql_tree::{Expr, Query, Token, TokenKind, TypeName};
use sqlite_items::Boxed;
use std::alloc::Global;

pub(crate) const LITERALS: [TokenKind; 6] = [
    TokenKind::Number,
    TokenKind::Text,
    TokenKind::Blob,
    TokenKind::Null,
    TokenKind::True,
    TokenKind::False,
];

/// Whether an expression comes next that is a literal and nothing else, as a comma or a closing bracket right behind it tells. Most
/// values of an INSERT are such.
pub(crate) fn sees_lone_literal(tokens: &Cursor<'_>) -> bool
    ensures { result ≡ (starts spec.literal_kinds tokens.now.rest.now && starts part.list_ends (drop 1 tokens.now.rest.now)) }
{
    match tokens.rest {
        [_, next, ..] => tokens.sees_any(&LITERALS)
            && (next.kind == TokenKind::Comma || next.kind == TokenKind::RightParen),
        _ => false,
    }
}

/// A number, a text, a blob, NULL, TRUE or FALSE.
#[tactic(auto, using(crate::proofs::Straight::literal_is))]
fn literal(alloc: Global, tokens: &mut Cursor<'_>) -> Result<Boxed<Expr>, ParseError>
    ensures { (d : ℕ) → Gives (reads Name rules d spec.literal tokens.old.counts tokens.old.rest.now) result tokens.new.counts tokens.new.rest.now }
{
    let token = tokens.expect_any(&LITERALS, Role::Quiet)?;
    boxed(alloc, Expr::Literal(token))
}

#[tactic(auto, using(crate::proofs::Straight::parameter_is))]
fn parameter(alloc: Global, tokens: &mut Cursor<'_>) -> Result<Boxed<Expr>, ParseError>
    ensures { (d : ℕ) → Gives (reads Name rules d spec.parameter tokens.old.counts tokens.old.rest.now) result tokens.new.counts tokens.new.rest.now }
{
    let token = tokens.expect(TokenKind::Parameter, Role::Quiet)?;
    boxed(alloc, Expr::Parameter(token))
}

/// `. name` behind the name of a table
#[tactic(auto, using(crate::proofs::Straight::of_table_is))]
fn of_table(alloc: Global, tokens: &mut Cursor<'_>, table: Token) -> Result<Boxed<Expr>, ParseError>
    ensures { (d : ℕ) → Gives (apply_one table (reads Name rules d spec.of_table tokens.old.counts tokens.old.rest.now)) result tokens.new.counts tokens.new.rest.now }
{
    tokens.expect(TokenKind::Dot, Role::Quiet)?;
    let column = name(tokens)?;
    boxed(alloc, Expr::TableColumn(table, column))
}

/// `IGNORE | ABORT , text`
#[tactic(auto, using(crate::proofs::Straight::raise_whats))]
fn raise_what(alloc: Global, tokens: &mut Cursor<'_>) -> Result<Boxed<Expr>, ParseError>
    ensures { (d : ℕ) → Gives (reads Name rules d spec.raise_what tokens.old.counts tokens.old.rest.now) result tokens.new.counts tokens.new.rest.now }
{
    if tokens.sees(TokenKind::Ignore) {
        tokens.expect(TokenKind::Ignore, Role::Quiet)?;
        return boxed(alloc, Expr::RaiseIgnore);
    }
    tokens.expect(TokenKind::Abort, Role::Quiet)?;
    tokens.expect(TokenKind::Comma, Role::Quiet)?;
    let why = tokens.expect(TokenKind::Text, Role::Quiet)?;
    boxed(alloc, Expr::RaiseAbort(why))
}

impl<F: Fn(Global, &mut Cursor<'_>, usize) -> Result<Boxed<Expr>, ParseError>, G> Operands<F, G> {
    /// What stands behind a name: a column of that table, the arguments of a call, or nothing.
    #[tactic(auto, using(crate::proofs::Clear::behind_name_firsts), unfolding(sql_grammar::specs::Grammar::behind_name))]
    pub(crate) fn behind_name(
        &self,
        tokens: &mut Cursor<'_>,
        word: Token,
    ) -> Result<Boxed<Expr>, ParseError>
        requires exprs { Nests spec.expr self.now.depth (F.pre self.now.inner) (F.post self.now.inner) }
        ensures { Gives (apply_one word (reads Name rules self.now.depth spec.behind_name tokens.old.counts tokens.old.rest.now)) result tokens.new.counts tokens.new.rest.now }
    {
        if tokens.sees(TokenKind::Dot) {
            of_table(self.alloc, tokens, word)
        } else if tokens.sees(TokenKind::LeftParen) {
            self.call(tokens, word)
        } else {
            boxed(self.alloc, Expr::Column(word))
        }
    }

    /// A column or a call.
    #[tactic(auto, using(crate::proofs::Straight::named_is))]
    pub(crate) fn named(&self, tokens: &mut Cursor<'_>) -> Result<Boxed<Expr>, ParseError>
        requires exprs { Nests spec.expr self.now.depth (F.pre self.now.inner) (F.post self.now.inner) }
        ensures { Gives (reads Name rules self.now.depth spec.named tokens.old.counts tokens.old.rest.now) result tokens.new.counts tokens.new.rest.now }
    {
        let word = name(tokens)?;
        self.behind_name(tokens, word)
    }

    /// `expr AS type`
    #[tactic(auto, unfolding(crate::specs::Parts::inside_cast))]
    pub(crate) fn inside_cast(
        &self,
        tokens: &mut Cursor<'_>,
    ) -> Result<(Boxed<Expr>, TypeName), ParseError>
        requires exprs { Nests spec.expr self.now.depth (F.pre self.now.inner) (F.post self.now.inner) }
        requires open { 0 < self.now.depth }
        ensures { Gives (reads Name rules (self.now.depth - 1) part.inside_cast tokens.old.counts tokens.old.rest.now) result tokens.new.counts tokens.new.rest.now }
    {
        let operand = self.inner(tokens)?;
        tokens.expect(TokenKind::As, Role::Quiet)?;
        let to = type_name(self.alloc, tokens, self.depth - 1)?;
        Ok((operand, to))
    }

    /// `( expr AS type )`
    #[tactic(auto, using(crate::proofs::Bracketed::in_cast_is))]
    pub(crate) fn in_cast(
        &self,
        tokens: &mut Cursor<'_>,
    ) -> Result<(Boxed<Expr>, TypeName), ParseError>
        requires exprs { Nests spec.expr self.now.depth (F.pre self.now.inner) (F.post self.now.inner) }
        ensures { Gives (reads Name rules self.now.depth part.in_cast tokens.old.counts tokens.old.rest.now) result tokens.new.counts tokens.new.rest.now }
    {
        tokens.open(self.depth, TokenKind::LeftParen, Role::Inward)?;
        let parts = self.inside_cast(tokens)?;
        tokens.close(parts, TokenKind::RightParen, Role::Outward)
    }

    /// `CAST ( expr AS type )`
    #[tactic(auto, using(crate::proofs::Straight::casting_is))]
    pub(crate) fn casting(&self, tokens: &mut Cursor<'_>) -> Result<Boxed<Expr>, ParseError>
        requires exprs { Nests spec.expr self.now.depth (F.pre self.now.inner) (F.post self.now.inner) }
        ensures { Gives (reads Name rules self.now.depth spec.casting tokens.old.counts tokens.old.rest.now) result tokens.new.counts tokens.new.rest.now }
    {
        tokens.expect(TokenKind::Cast, Role::Quiet)?;
        let (operand, to) = self.in_cast(tokens)?;
        boxed(self.alloc, Expr::Cast(operand, to))
    }

    /// `CASE .. END`
    #[tactic(auto, using(crate::proofs::Bracketed::choosing_is))]
    pub(crate) fn choosing(&self, tokens: &mut Cursor<'_>) -> Result<Boxed<Expr>, ParseError>
        requires exprs { Nests spec.expr self.now.depth (F.pre self.now.inner) (F.post self.now.inner) }
        ensures { Gives (reads Name rules self.now.depth spec.choosing tokens.old.counts tokens.old.rest.now) result tokens.new.counts tokens.new.rest.now }
    {
        tokens.open(self.depth, TokenKind::Case, Role::Inward)?;
        let found = self.case(tokens)?;
        tokens.close(found, TokenKind::End, Role::Outward)
    }

    /// `RAISE ( IGNORE | ABORT , text )`
    #[tactic(auto, using(crate::proofs::Wrapped::raising_steps))]
    pub(crate) fn raising(&self, tokens: &mut Cursor<'_>) -> Result<Boxed<Expr>, ParseError>
        requires exprs { Nests spec.expr self.now.depth (F.pre self.now.inner) (F.post self.now.inner) }
        ensures { Gives (reads Name rules self.now.depth spec.raising tokens.old.counts tokens.old.rest.now) result tokens.new.counts tokens.new.rest.now }
    {
        tokens.expect(TokenKind::Raise, Role::Quiet)?;
        tokens.open(self.depth, TokenKind::LeftParen, Role::Inward)?;
        let found = raise_what(self.alloc, tokens)?;
        tokens.close(found, TokenKind::RightParen, Role::Outward)
    }
}

impl<
    F: Fn(Global, &mut Cursor<'_>, usize) -> Result<Boxed<Expr>, ParseError>,
    G: Fn(Global, &mut Cursor<'_>, usize) -> Result<Boxed<Query>, ParseError>,
> Operands<F, G> {
    /// An operand.
    #[tactic(auto, using(crate::proofs::Clear::primary_firsts), unfolding(sql_grammar::specs::Grammar::primary))]
    pub fn primary(&self, tokens: &mut Cursor<'_>) -> Result<Boxed<Expr>, ParseError>
        requires exprs { Nests spec.expr self.now.depth (F.pre self.now.inner) (F.post self.now.inner) }
        requires queries { Nests query self.now.depth (G.pre self.now.query) (G.post self.now.query) }
        ensures { Gives (reads Name rules self.now.depth spec.primary tokens.old.counts tokens.old.rest.now) result tokens.new.counts tokens.new.rest.now }
    {
        if tokens.sees_any(&LITERALS) {
            literal(self.alloc, tokens)
        } else if tokens.sees(TokenKind::Parameter) {
            parameter(self.alloc, tokens)
        } else if sees_name(tokens) {
            self.named(tokens)
        } else if tokens.sees(TokenKind::LeftParen) {
            self.enclosed(tokens)
        } else if tokens.sees(TokenKind::Exists) {
            self.existing(tokens)
        } else if tokens.sees(TokenKind::Cast) {
            self.casting(tokens)
        } else if tokens.sees(TokenKind::Case) {
            self.choosing(tokens)
        } else {
            self.raising(tokens)
        }
    }
}
