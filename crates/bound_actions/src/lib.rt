//! What an authorizer is asked about a statement, told from the bound statement alone (Compile-Time Authorization Callbacks).
//!
//! `actions` lists what a statement would do, in the order of its text: its one contract is that this is `actions_of` of
//! specs/Statements.antt. Begin reading there, and go up by the order of specs/Lib.antt: words, pieces of lists, expressions, FROM,
//! queries, writes with the triggers that they can fire.
#![tactic(auto)]

mod exprs;
mod firing;
mod froms;
mod listing;
mod pieces;
mod queries;
mod statements;
mod words;
mod writes;

pub(crate) use listing::Listed;
pub(crate) use pieces::{Piece, Readable, Spot};
pub use statements::actions;
