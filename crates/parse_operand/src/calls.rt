// Calls of functions, and lists of expressions.

ghost use Rattle.std.specs.Prelude.{◌≡◌, ◌<◌, ◌-◌};
ghost use Rattle.sql_grammar.specs.Rules.{reads, first, starts};
ghost use Rattle.sql_grammar.specs.Grammar as spec;
ghost use Rattle.sql_grammar.specs.Grammar.{Name};
ghost use Rattle.sql_grammar.specs.Bodies.{rules};
ghost use Rattle.parse_cursor.specs.Gives.{Gives, apply_one};
ghost use Rattle.parse_operand.specs.Nests.{Nests};
ghost use Rattle.parse_operand.specs.Parts as part;

use crate::operands::Operands;
use parse_cursor::{Cursor, ParseError, boxed, list};
use sql_grammar::Role;
use sql_tree::{Arguments, Expr, Token, TokenKind};
use sqlite_items::{Boxed, Items};
use std::alloc::Global;

/// What an expression begins with.
const EXPR_STARTS: [TokenKind; 49] = [
    TokenKind::Not,
    TokenKind::Minus,
    TokenKind::Plus,
    TokenKind::Tilde,
    TokenKind::Number,
    TokenKind::Text,
    TokenKind::Blob,
    TokenKind::Null,
    TokenKind::True,
    TokenKind::False,
    TokenKind::Parameter,
    TokenKind::Word,
    TokenKind::QuotedName,
    TokenKind::Abort,
    TokenKind::After,
    TokenKind::Asc,
    TokenKind::Before,
    TokenKind::Begin,
    TokenKind::By,
    TokenKind::Deferred,
    TokenKind::Desc,
    TokenKind::Each,
    TokenKind::Exclusive,
    TokenKind::Explain,
    TokenKind::First,
    TokenKind::For,
    TokenKind::Ignore,
    TokenKind::Immediate,
    TokenKind::Instead,
    TokenKind::Key,
    TokenKind::Last,
    TokenKind::Nulls,
    TokenKind::Of,
    TokenKind::Offset,
    TokenKind::Plan,
    TokenKind::Pragma,
    TokenKind::Query,
    TokenKind::Release,
    TokenKind::Replace,
    TokenKind::Rollback,
    TokenKind::Row,
    TokenKind::Trigger,
    TokenKind::View,
    TokenKind::Virtual,
    TokenKind::LeftParen,
    TokenKind::Exists,
    TokenKind::Cast,
    TokenKind::Case,
    TokenKind::Raise,
];

/// Whether an expression begins here.
#[tactic(auto, using(crate::proofs::Clear::first_exprs))]
pub fn sees_expr(tokens: &Cursor<'_>) -> bool
    ensures { result ≡ starts (first spec.exprs) tokens.now.rest.now }
{
    tokens.sees_any(&EXPR_STARTS)
}

/// Whether arguments begin here.
#[tactic(auto, using(crate::proofs::Straight::starts_arguments))]
fn sees_arguments(tokens: &Cursor<'_>) -> bool
    ensures { result ≡ starts (first spec.some_arguments) tokens.now.rest.now }
{
    if tokens.sees_any(&[TokenKind::Star, TokenKind::Distinct]) {
        return true;
    }
    sees_expr(tokens)
}

impl<F: Fn(Global, &mut Cursor<'_>, usize) -> Result<Boxed<Expr>, ParseError>, G> Operands<F, G> {
    /// `expr {, expr}`
    #[tactic(auto, using(crate::proofs::Lists::exprs_steps))]
    pub fn exprs(&self, tokens: &mut Cursor<'_>) -> Result<Items<Expr>, ParseError>
        requires exprs { Nests spec.expr self.now.depth (F.pre self.now.inner) (F.post self.now.inner) }
        requires open { 0 < self.now.depth }
        ensures { Gives (reads Name rules (self.now.depth - 1) spec.exprs tokens.old.counts tokens.old.rest.now) result tokens.new.counts tokens.new.rest.now }
    {
        list(self.alloc, tokens, self)
    }

    /// `* | [DISTINCT] expr {, expr}`
    #[tactic(auto, unfolding(sql_grammar::specs::Grammar::some_arguments))]
    pub(crate) fn some_arguments(
        &self,
        tokens: &mut Cursor<'_>,
    ) -> Result<(Arguments, Items<Expr>), ParseError>
        requires exprs { Nests spec.expr self.now.depth (F.pre self.now.inner) (F.post self.now.inner) }
        requires open { 0 < self.now.depth }
        ensures { Gives (reads Name rules (self.now.depth - 1) spec.some_arguments tokens.old.counts tokens.old.rest.now) result tokens.new.counts tokens.new.rest.now }
    {
        if tokens.sees(TokenKind::Star) {
            tokens.expect(TokenKind::Star, Role::Quiet)?;
            return Ok((Arguments::Star, Items::new(self.alloc)));
        }
        if tokens.sees(TokenKind::Distinct) {
            tokens.expect(TokenKind::Distinct, Role::Quiet)?;
            return Ok((Arguments::Distinct, self.exprs(tokens)?));
        }
        Ok((Arguments::All, self.exprs(tokens)?))
    }

    /// `[* | [DISTINCT] expr {, expr}]`
    #[tactic(auto, using(crate::proofs::Inside::arguments_steps))]
    pub(crate) fn inside_arguments(
        &self,
        tokens: &mut Cursor<'_>,
    ) -> Result<(Arguments, Items<Expr>), ParseError>
        requires exprs { Nests spec.expr self.now.depth (F.pre self.now.inner) (F.post self.now.inner) }
        requires open { 0 < self.now.depth }
        ensures { Gives (reads Name rules (self.now.depth - 1) part.inside_arguments tokens.old.counts tokens.old.rest.now) result tokens.new.counts tokens.new.rest.now }
    {
        if sees_arguments(tokens) {
            self.some_arguments(tokens)
        } else {
            Ok((Arguments::All, Items::new(self.alloc)))
        }
    }

    /// `( .. )` behind the name of a function
    #[tactic(auto, using(crate::proofs::Bracketed::in_arguments_is))]
    pub(crate) fn in_arguments(
        &self,
        tokens: &mut Cursor<'_>,
    ) -> Result<(Arguments, Items<Expr>), ParseError>
        requires exprs { Nests spec.expr self.now.depth (F.pre self.now.inner) (F.post self.now.inner) }
        ensures { Gives (reads Name rules self.now.depth part.in_arguments tokens.old.counts tokens.old.rest.now) result tokens.new.counts tokens.new.rest.now }
    {
        tokens.open(self.depth, TokenKind::LeftParen, Role::Inward)?;
        let found = self.inside_arguments(tokens)?;
        tokens.close(found, TokenKind::RightParen, Role::Outward)
    }

    /// `[FILTER ( WHERE expr )]`
    #[tactic(auto, using(crate::proofs::Wrapped::filters))]
    pub(crate) fn filter(&self, tokens: &mut Cursor<'_>) -> Result<Option<Boxed<Expr>>, ParseError>
        requires exprs { Nests spec.expr self.now.depth (F.pre self.now.inner) (F.post self.now.inner) }
        ensures { Gives (reads Name rules self.now.depth spec.filter tokens.old.counts tokens.old.rest.now) result tokens.new.counts tokens.new.rest.now }
    {
        if tokens.sees(TokenKind::Filter) {
            tokens.expect(TokenKind::Filter, Role::Quiet)?;
            tokens.open(self.depth, TokenKind::LeftParen, Role::Inward)?;
            let found = self.behind(tokens, TokenKind::Where)?;
            let condition = tokens.close(found, TokenKind::RightParen, Role::Outward)?;
            Ok(Some(condition))
        } else {
            Ok(None)
        }
    }

    /// What stands behind the name of a function (SQL Language Expressions, Functions).
    #[tactic(auto, using(crate::proofs::Straight::call_is))]
    pub fn call(&self, tokens: &mut Cursor<'_>, function: Token) -> Result<Boxed<Expr>, ParseError>
        requires exprs { Nests spec.expr self.now.depth (F.pre self.now.inner) (F.post self.now.inner) }
        ensures { Gives (apply_one function (reads Name rules self.now.depth spec.call tokens.old.counts tokens.old.rest.now)) result tokens.new.counts tokens.new.rest.now }
    {
        let (how, arguments) = self.in_arguments(tokens)?;
        let filter = self.filter(tokens)?;
        boxed(self.alloc, Expr::Call(function, how, arguments, filter))
    }
}
