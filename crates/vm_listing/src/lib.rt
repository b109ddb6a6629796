//! The listing of a program that EXPLAIN gives: a row of eight columns for each instruction (The SQLite Bytecode Engine).
//!
//! Begin with `listing`, then specs/Listing.antt: `line_of` says what stands in the columns of numbers, and `comment_of` what an
//! instruction is said to do. A comparison has its number in p5: 1 is `=`, 2 `<`, 3 `<=`, 4 `>`, 5 `>=`, 6 IS, 7 LIKE and 8 GLOB.
#![tactic(auto)]

mod comments;
mod cursors;
mod fourth;
mod literals;
mod moves;
mod names;
mod numbers;
mod operands;
mod pieces;
mod rows;
mod says;
mod terms;
mod words;

pub use rows::listing;
