//! The tokens of a statement's text, and where the statements of a script end.
//!
//! `tokens` gives them in order, with the bytes where they stand: white space and comments are left out, and what stands in no
//! statement is a token of its own kind. specs/Pieces.antt says what a text begins with, and specs/Tokens.antt what follows.
//! Begin with `lexer`, then `piece`; the other modules each know one sort of piece. `KEYWORDS` is the one table of keywords.
//!
//! `statement_end` and `blank_width` cut a script without memory of their own, by what specs/Cutting.antt says; `laws` has what
//! holds of them, as that an end stays where it is when a text grows.
#![tactic(auto)]

mod blanks;
mod cutting;
mod front;
mod keywords;
mod laws;
mod lexer;
mod numbers;
mod parameters;
mod piece;
mod placing;
mod quotes;
mod reading;
mod signs;
mod words;

pub use cutting::{blank_width, statement_end};
pub use keywords::KEYWORDS;
pub use laws::{
    a_blank_stays, a_cut_text_keeps_its_tokens, a_token_alone_is_itself, an_end_stays,
    the_end_is_the_first, tokens_make_up_the_text,
};
pub use lexer::tokens;
