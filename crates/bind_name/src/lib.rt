//! What single tokens of a statement stand for: names, literals and the affinities of types.
//!
//! `name` and `literal` say what a token stands for, and `affinity_of_type` what a type prefers. The definitions are those of the
//! library sql_words (specs/Spelled.antt and Types.antt there).
#![tactic(auto)]

mod literals;
mod names;
mod numerals;
mod quotes;
mod slices;
mod types;

pub use literals::literal;
pub use names::{name, plain_name};
pub use numerals::is_least_magnitude;
pub use quotes::past_second;
pub use slices::{inside, slice_of};
pub use types::affinity_of_type;
