// Why parsing stops.
use sql_grammar::Limit;
use std::alloc::AllocError;

#[derive(Clone, Copy, PartialEq, Eq)]
pub enum ParseError {
    Memory,
    /// The next token cannot stand there.
    Syntax,
    /// The next token passes a limit.
    TooMuch(Limit),
}

impl From<AllocError> for ParseError {
    ghost use Rattle.std.specs.Prelude.{◌≡◌};
    ghost use Rattle.parse_cursor.specs.declared.error.ParseError.TheVariants.{Memory};

    ghost from_gives = { λ _ e. e ≡ Memory };

    fn from(_: AllocError) -> ParseError {
        ParseError::Memory
    }
}
