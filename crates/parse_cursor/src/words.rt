// Words: any, or one that may stand there or not.

ghost use Rattle.std.specs.Prelude.{ℕ, ◌≡◌};
ghost use Rattle.sql_grammar.specs.Grammar.{Name};
ghost use Rattle.sql_grammar.specs.Bodies.{rules};
ghost use Rattle.sql_grammar.specs.Rules.{reads, first, starts};
ghost use Rattle.parse_cursor.specs.Gives.{Gives};
ghost use Rattle.parse_cursor.specs.Parts as part;

use crate::cursor::Cursor;
use crate::error::ParseError;
use sql_grammar::Role;
use sql_tree::{Token, TokenKind};

/// Words, reserved or not.
const WORDS: [TokenKind; 106] = [
    TokenKind::Word,
    TokenKind::All,
    TokenKind::And,
    TokenKind::As,
    TokenKind::Autoincrement,
    TokenKind::Between,
    TokenKind::Case,
    TokenKind::Cast,
    TokenKind::Check,
    TokenKind::Collate,
    TokenKind::Commit,
    TokenKind::Constraint,
    TokenKind::Create,
    TokenKind::Cross,
    TokenKind::Default,
    TokenKind::Delete,
    TokenKind::Distinct,
    TokenKind::Drop,
    TokenKind::Else,
    TokenKind::End,
    TokenKind::Escape,
    TokenKind::Except,
    TokenKind::Exists,
    TokenKind::False,
    TokenKind::Filter,
    TokenKind::From,
    TokenKind::Full,
    TokenKind::Glob,
    TokenKind::Group,
    TokenKind::Having,
    TokenKind::If,
    TokenKind::In,
    TokenKind::Index,
    TokenKind::Inner,
    TokenKind::Insert,
    TokenKind::Intersect,
    TokenKind::Into,
    TokenKind::Is,
    TokenKind::IsNull,
    TokenKind::Join,
    TokenKind::Left,
    TokenKind::Like,
    TokenKind::Limit,
    TokenKind::Natural,
    TokenKind::Not,
    TokenKind::NotNull,
    TokenKind::Null,
    TokenKind::On,
    TokenKind::Or,
    TokenKind::Order,
    TokenKind::Outer,
    TokenKind::Over,
    TokenKind::Primary,
    TokenKind::Raise,
    TokenKind::Recursive,
    TokenKind::References,
    TokenKind::Returning,
    TokenKind::Right,
    TokenKind::Savepoint,
    TokenKind::Select,
    TokenKind::Set,
    TokenKind::Table,
    TokenKind::Then,
    TokenKind::To,
    TokenKind::Transaction,
    TokenKind::True,
    TokenKind::Union,
    TokenKind::Unique,
    TokenKind::Update,
    TokenKind::Using,
    TokenKind::Values,
    TokenKind::When,
    TokenKind::Where,
    TokenKind::Window,
    TokenKind::With,
    TokenKind::Abort,
    TokenKind::After,
    TokenKind::Asc,
    TokenKind::Before,
    TokenKind::Begin,
    TokenKind::By,
    TokenKind::Deferred,
    TokenKind::Desc,
    TokenKind::Each,
    TokenKind::Exclusive,
    TokenKind::Explain,
    TokenKind::First,
    TokenKind::For,
    TokenKind::Ignore,
    TokenKind::Immediate,
    TokenKind::Instead,
    TokenKind::Key,
    TokenKind::Last,
    TokenKind::Nulls,
    TokenKind::Of,
    TokenKind::Offset,
    TokenKind::Plan,
    TokenKind::Pragma,
    TokenKind::Query,
    TokenKind::Release,
    TokenKind::Replace,
    TokenKind::Rollback,
    TokenKind::Row,
    TokenKind::Trigger,
    TokenKind::View,
    TokenKind::Virtual,
];

/// Whether a word comes next, reserved or not.
#[tactic(auto, using(crate::proofs::Names::first_word))]
pub fn sees_word(tokens: &Cursor<'_>) -> bool
    ensures { result ≡ starts (first part.any_word) tokens.now.rest.now }
{
    tokens.sees_any(&WORDS)
}

/// A word, reserved or not.
#[tactic(auto, using(crate::proofs::Names::any_word_is))]
pub fn any_word(tokens: &mut Cursor<'_>) -> Result<Token, ParseError>
    ensures { (d : ℕ) → Gives (reads Name rules d part.any_word tokens.old.counts tokens.old.rest.now) result tokens.new.counts tokens.new.rest.now }
{
    tokens.expect_any(&WORDS, Role::Outside)
}

/// `[word]`, as whether it stands there.
#[tactic(auto, using(crate::proofs::Names::given_words))]
pub fn given_word(tokens: &mut Cursor<'_>, word: TokenKind) -> Result<bool, ParseError>
    ensures { (d : ℕ) → Gives (reads Name rules d (part.given_word word) tokens.old.counts tokens.old.rest.now) result tokens.new.counts tokens.new.rest.now }
{
    if tokens.sees(word) {
        tokens.expect(word, Role::Outside)?;
        return Ok(true);
    }
    Ok(false)
}
