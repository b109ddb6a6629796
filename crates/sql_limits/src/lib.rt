//! What the limits of a statement mean.
//!
//! The scan of sql_grammar counts along the tokens, and stops at the first that passes a limit. Here the limits are said of how the tokens
//! stand in brackets, without a count that runs along them: specs/Nestings.antt nests marked tokens, specs/Limits.antt says what keeps a
//! limit, specs/Outermost.antt what an outermost expression of a statement is, specs/Fronts.antt where a limit is passed, and
//! specs/Answers.antt what answer tokens then have. specs/Examples.antt has these of small texts. Nothing here runs. Begin with
//! specs/Limits.antt; the laws are in src/laws.rt.
//!
//! proofs/Scans.antt follows the scan through nested tokens; proofs/Nests.antt nests what is derived, by the roles that the rules have
//! (proofs/Shapes.antt); proofs/Outermost.antt goes through the rules of statements.
#![tactic(auto)]

mod laws;

pub use laws::{
    a_query_has_the_parts_of_its_tree, answers_are_within_the_limits, derived_tokens_are_nested,
    each_token_counts_once, the_scan_fits_where_the_limits_are_kept,
};
