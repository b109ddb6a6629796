//! The integers that texts and blobs spell.
//!
//! There is no REAL: a text that spells a number which is no integer of 64 bits is told apart, and what uses it decides. Numbers
//! are *forms* of texts, put together in specs/Forms.antt; specs/Numbers.antt says what a text is between white space, and what
//! the longest beginning of a form is worth. `scanning` finds how long these beginnings are. Begin with `numbers`.
#![tactic(auto)]

mod numbers;
mod scanning;

pub use numbers::{TextKind, integer_prefix, number_prefix, text_kind};
