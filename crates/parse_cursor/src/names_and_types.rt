// Names, and the types that a column or a CAST names.

ghost use Rattle.std.specs.Prelude.{ℕ, ◌≡◌, IfOk};
ghost use Rattle.sql_grammar.specs.Rules.{reads, one, starts};
ghost use Rattle.sql_grammar.specs.Grammar as spec;
ghost use Rattle.sql_grammar.specs.Grammar.{Name};
ghost use Rattle.sql_grammar.specs.Bodies.{rules};
ghost use Rattle.sql_grammar.specs.declared.counts.Role.TheVariants as role;
ghost use Rattle.sql_grammar.specs.Definitions.{all_names};
ghost use Rattle.sql_grammar.specs.Queries.{column_names};
ghost use Rattle.parse_cursor.specs.Gives.{Gives};
ghost use Rattle.parse_cursor.specs.Parts as part;

use crate::cursor::Cursor;
use crate::error::ParseError;
use crate::lists::{Element, list, several};
use sql_grammar::Role;
use sql_tree::{SignedNumber, Token, TokenKind, TypeName};
use sqlite_items::Items;
use std::alloc::{AllocError, Global};

/// Words that are not reserved.
const NAMES: [TokenKind; 33] = [
    TokenKind::Word,
    TokenKind::QuotedName,
    TokenKind::Abort,
    TokenKind::After,
    TokenKind::Asc,
    TokenKind::Before,
    TokenKind::Begin,
    TokenKind::By,
    TokenKind::Deferred,
    TokenKind::Desc,
    TokenKind::Each,
    TokenKind::Exclusive,
    TokenKind::Explain,
    TokenKind::First,
    TokenKind::For,
    TokenKind::Ignore,
    TokenKind::Immediate,
    TokenKind::Instead,
    TokenKind::Key,
    TokenKind::Last,
    TokenKind::Nulls,
    TokenKind::Of,
    TokenKind::Offset,
    TokenKind::Plan,
    TokenKind::Pragma,
    TokenKind::Query,
    TokenKind::Release,
    TokenKind::Replace,
    TokenKind::Rollback,
    TokenKind::Row,
    TokenKind::Trigger,
    TokenKind::View,
    TokenKind::Virtual,
];

const SIGNS: [TokenKind; 2] = [TokenKind::Plus, TokenKind::Minus];

/// Whether a name comes next.
pub fn sees_name(tokens: &Cursor<'_>) -> bool
    ensures { result ≡ starts spec.names tokens.now.rest.now }
{
    tokens.sees_any(&NAMES)
}

/// A name (SQLite Keywords).
pub fn name(tokens: &mut Cursor<'_>) -> Result<Token, ParseError>
    ensures { Gives (one role.Quiet spec.names tokens.old.counts tokens.old.rest.now) result tokens.new.counts tokens.new.rest.now }
{
    tokens.expect_any(&NAMES, Role::Quiet)
}

/// Names, in lists.
struct Names;

impl Element<Token> for Names {
    ghost is_ready = { λ it. Unit {0} };

    ghost rule = { λ it. spec.name };

    ghost depth = { λ it. 0 };

    fn read(&self, tokens: &mut Cursor<'_>) -> Result<Token, ParseError> {
        name(tokens)
    }
}

/// `[+ | -]`
#[tactic(auto, using(crate::proofs::Types::sign_steps))]
fn sign(tokens: &mut Cursor<'_>) -> Result<Option<Token>, ParseError>
    ensures { (d : ℕ) → Gives (reads Name rules d part.sign tokens.old.counts tokens.old.rest.now) result tokens.new.counts tokens.new.rest.now }
{
    if tokens.sees_any(&SIGNS) {
        Ok(Some(tokens.expect_any(&SIGNS, Role::Outside)?))
    } else {
        Ok(None)
    }
}

/// `[+ | -] number`
#[tactic(auto, using(crate::proofs::Types::signed_is))]
pub fn signed(tokens: &mut Cursor<'_>) -> Result<SignedNumber, ParseError>
    ensures { (d : ℕ) → Gives (reads Name rules d spec.signed tokens.old.counts tokens.old.rest.now) result tokens.new.counts tokens.new.rest.now }
{
    let sign = sign(tokens)?;
    let number = tokens.expect(TokenKind::Number, Role::Outside)?;
    Ok(SignedNumber { sign, number })
}

/// `[, signed]`
#[tactic(auto, using(crate::proofs::Types::second_size_some, crate::proofs::Types::second_size_none))]
fn second_size(tokens: &mut Cursor<'_>) -> Result<Option<SignedNumber>, ParseError>
    ensures { (d : ℕ) → Gives (reads Name rules d part.second_size tokens.old.counts tokens.old.rest.now) result tokens.new.counts tokens.new.rest.now }
{
    if tokens.sees(TokenKind::Comma) {
        tokens.expect(TokenKind::Comma, Role::Outside)?;
        Ok(Some(signed(tokens)?))
    } else {
        Ok(None)
    }
}

fn one_or_two(
    alloc: Global,
    first: SignedNumber,
    second: Option<SignedNumber>,
) -> Result<Items<SignedNumber>, AllocError>
    ensures { IfOk result (λ sizes. sizes ≡ spec.one_or_two first second) }
{
    match second {
        None => Items::from_slice(alloc, &[first]),
        Some(second) => Items::from_slice(alloc, &[first, second]),
    }
}

/// `signed [, signed]`
#[tactic(auto, using(crate::proofs::Types::two_sizes_is))]
fn two_sizes(alloc: Global, tokens: &mut Cursor<'_>) -> Result<Items<SignedNumber>, ParseError>
    ensures { (d : ℕ) → Gives (reads Name rules d spec.two_sizes tokens.old.counts tokens.old.rest.now) result tokens.new.counts tokens.new.rest.now }
{
    let first = signed(tokens)?;
    let second = second_size(tokens)?;
    Ok(one_or_two(alloc, first, second)?)
}

/// `[( signed [, signed] )]`, where so many nestings may still be opened
#[tactic(auto, using(crate::proofs::Types::type_sizes_steps))]
fn type_sizes(
    alloc: Global,
    tokens: &mut Cursor<'_>,
    depth: usize,
) -> Result<Items<SignedNumber>, ParseError>
    ensures { Gives (reads Name rules depth spec.type_sizes tokens.old.counts tokens.old.rest.now) result tokens.new.counts tokens.new.rest.now }
{
    if !tokens.sees(TokenKind::LeftParen) {
        return Ok(Items::new(alloc));
    }
    tokens.open(depth, TokenKind::LeftParen, Role::Opening)?;
    let sizes = two_sizes(alloc, tokens)?;
    tokens.expect(TokenKind::RightParen, Role::Closing)?;
    Ok(sizes)
}

/// `name {name}`
#[tactic(auto, using(crate::proofs::Types::type_words_steps))]
fn type_words(alloc: Global, tokens: &mut Cursor<'_>) -> Result<Items<Token>, ParseError>
    ensures { (d : ℕ) → Gives (reads Name rules d spec.type_words tokens.old.counts tokens.old.rest.now) result tokens.new.counts tokens.new.rest.now }
{
    several(alloc, tokens, &NAMES, &Names)
}

/// `name {name} [( signed [, signed] )]`, where so many nestings may still be opened
#[tactic(auto, using(crate::proofs::Types::type_name_is))]
pub fn type_name(
    alloc: Global,
    tokens: &mut Cursor<'_>,
    depth: usize,
) -> Result<TypeName, ParseError>
    ensures { Gives (reads Name rules depth spec.type_name tokens.old.counts tokens.old.rest.now) result tokens.new.counts tokens.new.rest.now }
{
    let words = type_words(alloc, tokens)?;
    let sizes = type_sizes(alloc, tokens, depth)?;
    Ok(TypeName { words, sizes })
}

/// `name {, name}`
#[tactic(auto, using(crate::proofs::Names::all_names_steps))]
pub fn all_names(alloc: Global, tokens: &mut Cursor<'_>) -> Result<Items<Token>, ParseError>
    ensures { (d : ℕ) → Gives (reads Name rules d all_names tokens.old.counts tokens.old.rest.now) result tokens.new.counts tokens.new.rest.now }
{
    list(alloc, tokens, &Names)
}

/// `( name {, name} )`, where so many nestings may still be opened
#[tactic(auto, using(crate::proofs::Names::in_names_is))]
pub fn in_names(
    alloc: Global,
    tokens: &mut Cursor<'_>,
    depth: usize,
) -> Result<Items<Token>, ParseError>
    ensures { Gives (reads Name rules depth part.in_names tokens.old.counts tokens.old.rest.now) result tokens.new.counts tokens.new.rest.now }
{
    tokens.open(depth, TokenKind::LeftParen, Role::Opening)?;
    let names = all_names(alloc, tokens)?;
    tokens.expect(TokenKind::RightParen, Role::Closing)?;
    Ok(names)
}

/// `[( name {, name} )]`, where so many nestings may still be opened
#[tactic(auto, using(crate::proofs::Names::column_names_steps))]
pub fn column_names(
    alloc: Global,
    tokens: &mut Cursor<'_>,
    depth: usize,
) -> Result<Items<Token>, ParseError>
    ensures { Gives (reads Name rules depth column_names tokens.old.counts tokens.old.rest.now) result tokens.new.counts tokens.new.rest.now }
{
    if tokens.sees(TokenKind::LeftParen) {
        in_names(alloc, tokens, depth)
    } else {
        Ok(Items::new(alloc))
    }
}
