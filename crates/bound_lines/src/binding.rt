// From the text of a statement to what it is bound to.
use crate::scene::Scene;
use binder::bind;
use bound_tree::BoundStatement;
use eng_value::{Cause, LimitKind};
use parse_stmt::{Failure, parse};
use sql_grammar::Limit;
use sql_lex::tokens;
use sql_tree::{Statement, Token, TokenKind};
use std::alloc::Global;

/// A statement: its text up to the last token, without `;`, its tree, and what it is bound to.
#[derive(Drop)]
pub(crate) struct Found<'t> {
    pub(crate) body: &'t str,
    pub(crate) tree: Statement,
    pub(crate) bound: BoundStatement,
}

/// The statement of a text over a scene, or its first refusal.
pub(crate) fn bound<'t>(alloc: Global, scene: &Scene, text: &'t str) -> Result<Found<'t>, Cause> {
    let tokens = tokens(alloc, text)?;
    let tree = match parse(alloc, &tokens, text.len()) {
        Ok(tree) => tree,
        Err(failure) => return Err(cause_of(failure)),
    };
    let body = body_of(text, &tokens);
    let bound = bind(alloc, body, &scene.catalog, &scene.facts, &tree)?;
    Ok(Found { body, tree, bound })
}

/// The text up to the last token, without a `;`.
fn body_of<'t>(text: &'t str, tokens: &[Token]) -> &'t str {
    let front = match tokens {
        [front @ .., last] if last.kind == TokenKind::Semicolon => front,
        _ => tokens,
    };
    let end = match front.last() {
        Some(token) => token.span.end,
        None => 0,
    };
    match text.split_at_checked(end) {
        Some((body, _)) => body,
        None => text,
    }
}

/// Why a text is no statement: memory is wanting, the grammar does not derive it, or there is too much of something.
fn cause_of(failure: Failure) -> Cause {
    match failure {
        Failure::Memory => Cause::Mem,
        Failure::Syntax(at) => Cause::Syntax(at),
        Failure::TooMuch(limit, _) => Cause::Limit(limit_kind(limit)),
    }
}

fn limit_kind(limit: Limit) -> LimitKind {
    match limit {
        Limit::Nestings => LimitKind::Nestings,
        Limit::Operators => LimitKind::Operators,
        Limit::Parts => LimitKind::Parts,
    }
}
