//! Reading tokens one after another: what the parsers of expressions and of statements share.
//!
//! A `Cursor` holds the tokens that are left, with what those before them counted against the limits. `sees` looks at the next one, and
//! `expect` takes it. `name`, `signed`, `type_name`, the lists of names, `any_word` and `given_word` parse what stands in expressions and in statements alike. `place` and
//! `text_before` tell the bytes of a text where tokens stand.
//!
//! A function that parses gives what its rule of the grammar (sql_grammar) reads: the tree, or that the next token cannot stand there or
//! passes a limit (specs/Gives.antt). proofs/Steps.antt says what the words of the grammar read, in the steps of such functions. Begin with
//! src/cursor.rt.
#![tactic(auto)]

mod boxes;
mod cursor;
mod error;
mod lists;
mod names_and_types;
mod texts;
mod words;

pub use boxes::boxed;
pub use cursor::Cursor;
pub use error::ParseError;
pub use lists::{Element, list, several};
pub use names_and_types::{all_names, column_names, in_names, name, sees_name, signed, type_name};
pub use texts::{Failure, failure_at, place, text_before};
pub use words::{any_word, given_word, sees_word};
