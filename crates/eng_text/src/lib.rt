//! Texts: what LIKE and GLOB match, where one text stands in another, replacing, and the fold of NOCASE.
//!
//! specs/Patterns.antt says of what parts a pattern is and which texts it matches, specs/Texts.antt has the rest. `like` and
//! `glob` share one search (`search`), which goes back no further than to the last run of any characters; `syntax` says what a
//! pattern begins with, and `sets` tests a character against a set of GLOB. The module `laws` says what the definitions promise.
//! Begin with `patterns`.
#![tactic(auto)]

mod finding;
mod folding;
mod head;
mod laws;
mod patterns;
mod replacing;
mod search;
mod sets;
mod syntax;

pub use finding::find;
pub use folding::fold;
pub use head::first_char;
pub use laws::{
    escaped_matches_but_for_case, escaped_matches_itself, glob_escaped_matches_itself,
    percent_matches_all, place_is_first, replaced_by_pieces, sets_match_their_ranges,
};
pub use patterns::{glob, like};
pub use replacing::replace;
