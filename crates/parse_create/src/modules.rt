// CREATE VIRTUAL TABLE.

ghost use Rattle.std.specs.Prelude.{ℕ, ◌≡◌};
ghost use Rattle.sql_grammar.specs.Grammar.{Name};
ghost use Rattle.sql_grammar.specs.Bodies.{rules};
ghost use Rattle.sql_grammar.specs.Definitions as spec;
ghost use Rattle.sql_grammar.specs.Rules.{reads, before, first, starts};
ghost use Rattle.parse_cursor.specs.Gives.{Gives};
ghost use Rattle.parse_create.specs.Arguments as arguments;

use crate::readers::Elements;
use crate::tables::{Named, header};
use parse_cursor::{Cursor, Element, ParseError, any_word, list, name, sees_word, text_before};
use sql_grammar::Role;
use sql_tree::{Definition, Span, Token, TokenKind, VirtualTableDefinition};
use sqlite_items::Items;
use std::alloc::Global;

/// What an argument is made of, beside words and what stands in parentheses.
const MARKS: [TokenKind; 25] = [
    TokenKind::QuotedName,
    TokenKind::Text,
    TokenKind::Blob,
    TokenKind::Number,
    TokenKind::Parameter,
    TokenKind::Dot,
    TokenKind::Star,
    TokenKind::Plus,
    TokenKind::Minus,
    TokenKind::Slash,
    TokenKind::Percent,
    TokenKind::Ampersand,
    TokenKind::Bar,
    TokenKind::Tilde,
    TokenKind::ShiftLeft,
    TokenKind::ShiftRight,
    TokenKind::DoubleBar,
    TokenKind::Less,
    TokenKind::LessEqual,
    TokenKind::Greater,
    TokenKind::GreaterEqual,
    TokenKind::Equal,
    TokenKind::DoubleEqual,
    TokenKind::LessGreater,
    TokenKind::BangEqual,
];

/// Whether a token comes next that an argument is made of.
#[tactic(auto, using(crate::proofs::Pieces::token_starts))]
fn sees_argument_token(tokens: &Cursor<'_>) -> bool
    ensures { result ≡ starts (first arguments.argument_token) tokens.now.rest.now }
{
    sees_word(tokens) || tokens.sees_any(&MARKS)
}

/// A token that an argument is made of.
#[tactic(auto, using(crate::proofs::Pieces::token_steps))]
fn argument_token(tokens: &mut Cursor<'_>) -> Result<(), ParseError>
    ensures { (d : ℕ) → Gives (reads Name rules d arguments.argument_token tokens.old.counts tokens.old.rest.now) result tokens.new.counts tokens.new.rest.now }
{
    if sees_word(tokens) {
        any_word(tokens)?;
    } else {
        tokens.expect_any(&MARKS, Role::Outside)?;
    }
    Ok(())
}

/// Whether a piece of an argument comes next.
#[tactic(auto, using(crate::proofs::Pieces::piece_starts))]
fn sees_piece(tokens: &Cursor<'_>) -> bool
    ensures { result ≡ starts (first spec.argument_piece) tokens.now.rest.now }
{
    sees_argument_token(tokens) || tokens.sees(TokenKind::LeftParen)
}

/// A token, or anything in parentheses, within which a comma cuts nothing.
#[tactic(auto, using(crate::proofs::Pieces::piece_steps))]
fn argument_piece(tokens: &mut Cursor<'_>, depth: usize) -> Result<(), ParseError>
    ensures { Gives (reads Name rules depth spec.argument_piece tokens.old.counts tokens.old.rest.now) result tokens.new.counts tokens.new.rest.now }
{
    if sees_argument_token(tokens) {
        return argument_token(tokens);
    }
    tokens.open(depth, TokenKind::LeftParen, Role::Opening)?;
    loop {
        if sees_piece(tokens) {
            argument_piece(tokens, depth - 1)?;
        } else if tokens.sees(TokenKind::Comma) {
            tokens.expect(TokenKind::Comma, Role::Outside)?;
        } else {
            break;
        }
    }
    tokens.expect(TokenKind::RightParen, Role::Closing)?;
    Ok(())
}

/// `{piece}`
#[tactic(auto, using(crate::proofs::Pieces::pieces_steps))]
fn argument_pieces(tokens: &mut Cursor<'_>, depth: usize) -> Result<(), ParseError>
    ensures { Gives (reads Name rules depth arguments.pieces tokens.old.counts tokens.old.rest.now) result tokens.new.counts tokens.new.rest.now }
{
    while sees_piece(tokens) {
        argument_piece(tokens, depth)?;
    }
    Ok(())
}

/// The bytes from the first of the tokens in front of a rest to the last one, if there is one.
#[tactic(auto, using(crate::proofs::Pieces::texts))]
fn text_between(tokens: &[Token], rest: &[Token]) -> Option<Span>
    ensures { result ≡ spec.text_of (before tokens.now rest.now) }
{
    if tokens.len() <= rest.len() {
        None
    } else {
        Some(text_before(tokens, rest))
    }
}

/// The texts of arguments, each of which may have no token.
impl Element<Option<Span>> for Elements {
    ghost is_ready = { λ it. Unit {0} };

    ghost rule = { λ it. spec.module_argument };

    ghost depth = { λ it. it.depth };

    #[tactic(auto, using(crate::proofs::Pieces::module_argument_is))]
    fn read(&self, tokens: &mut Cursor<'_>) -> Result<Option<Span>, ParseError> {
        let start = tokens.rest;
        argument_pieces(tokens, self.depth)?;
        Ok(text_between(start, tokens.rest))
    }
}

/// These arguments; nothing between the parentheses is no argument.
fn without_nothing(alloc: Global, found: Items<Option<Span>>) -> Items<Option<Span>>
    ensures { result ≡ arguments.without_nothing found }
{
    match found.as_slice() {
        [None] => Items::new(alloc),
        _ => found,
    }
}

/// `argument {, argument}`, or nothing
#[tactic(auto, using(crate::proofs::Pieces::all_arguments_steps))]
fn all_arguments(
    alloc: Global,
    tokens: &mut Cursor<'_>,
    depth: usize,
) -> Result<Items<Option<Span>>, ParseError>
    ensures { Gives (reads Name rules depth spec.all_module_arguments tokens.old.counts tokens.old.rest.now) result tokens.new.counts tokens.new.rest.now }
{
    let found = list(alloc, tokens, &Elements { alloc, depth })?;
    Ok(without_nothing(alloc, found))
}

/// `( argument {, argument} )`
#[tactic(auto, using(crate::proofs::Pieces::in_arguments_is))]
fn in_arguments(
    alloc: Global,
    tokens: &mut Cursor<'_>,
    depth: usize,
) -> Result<Items<Option<Span>>, ParseError>
    ensures { Gives (reads Name rules depth arguments.in_arguments tokens.old.counts tokens.old.rest.now) result tokens.new.counts tokens.new.rest.now }
{
    tokens.open(depth, TokenKind::LeftParen, Role::Opening)?;
    let found = all_arguments(alloc, tokens, depth - 1)?;
    tokens.close(found, TokenKind::RightParen, Role::Closing)
}

/// `[( argument {, argument} )]`
#[tactic(auto, using(crate::proofs::Pieces::given_arguments))]
fn some_arguments(
    alloc: Global,
    tokens: &mut Cursor<'_>,
    depth: usize,
) -> Result<Items<Option<Span>>, ParseError>
    ensures { Gives (reads Name rules depth arguments.some_arguments tokens.old.counts tokens.old.rest.now) result tokens.new.counts tokens.new.rest.now }
{
    if tokens.sees(TokenKind::LeftParen) {
        in_arguments(alloc, tokens, depth)
    } else {
        Ok(Items::new(alloc))
    }
}

/// `USING name [( argument {, argument} )]`
#[tactic(auto, using(crate::proofs::Pieces::using_module_is))]
fn using_module(
    alloc: Global,
    tokens: &mut Cursor<'_>,
    depth: usize,
) -> Result<VirtualTableDefinition, ParseError>
    ensures { Gives (reads Name rules depth spec.using_module tokens.old.counts tokens.old.rest.now) result tokens.new.counts tokens.new.rest.now }
{
    tokens.expect(TokenKind::Using, Role::Outside)?;
    let module_name = name(tokens)?;
    let arguments = some_arguments(alloc, tokens, depth)?;
    Ok(VirtualTableDefinition {
        module_name,
        arguments,
    })
}

/// `VIRTUAL TABLE [IF NOT EXISTS] name USING name ..`
#[tactic(auto, using(crate::proofs::Made::create_virtual_table_is))]
pub(crate) fn create_virtual_table(
    alloc: Global,
    tokens: &mut Cursor<'_>,
    depth: usize,
) -> Result<Named, ParseError>
    ensures { Gives (reads Name rules depth spec.create_virtual_table tokens.old.counts tokens.old.rest.now) result tokens.new.counts tokens.new.rest.now }
{
    tokens.expect(TokenKind::Virtual, Role::Outside)?;
    tokens.expect(TokenKind::Table, Role::Outside)?;
    let header = header(tokens)?;
    let table = using_module(alloc, tokens, depth)?;
    Ok((header, Definition::VirtualTable(table)))
}
