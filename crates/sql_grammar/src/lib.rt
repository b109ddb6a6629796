//! Grammars as data, and the grammar of SQL.
//!
//! A rule (specs/Rules.antt) derives trees from tokens, and says how one token of look-ahead reads them. Where that token always tells
//! what to do, which is computed (`is_clear`), reading is exact (specs/Answers.antt, proofs/Whole.antt): a tree exactly where one is
//! derived, never two, else the first token that cannot stand there, or the first that passes a limit.
//!
//! specs/Grammar.antt has the rules of expressions, Queries.antt those of queries, Writes.antt of INSERT, UPDATE and DELETE,
//! Definitions.antt of CREATE, Statements.antt of the other statements and of what a statement is; Bodies.antt says what stands between
//! an opening and a closing token. So that one token tells what to do, some of them are factored: specs/Written.antt has these as the
//! documents of SQL write them, and they derive the same trees (specs/Alike.antt, proofs/FactoredExpressions.antt and the other
//! Factored files). The trees of small texts and the places of what is refused are in specs/Examples.antt, QueryExamples.antt,
//! WriteExamples.antt, DefinitionExamples.antt and StatementExamples.antt.
//!
//! What tokens count against the limits is said in specs/Marks.antt, and `count` does it; specs/CountExamples.antt counts small texts.
//! No tree is larger than the number of its tokens (proofs/ExpressionSizes.antt, StatementSizes.antt), so what is done for each node of
//! a tree is bounded by its text. Begin with specs/Grammar.antt.
#![tactic(auto)]

mod counts;
mod laws;

pub use counts::{Counts, Limit, MAX_NESTINGS, MAX_OPERATORS, MAX_PARTS, Role, count};
pub use laws::{
    each_text_has_an_answer, factored_rules_derive_the_same, no_text_has_two_trees,
    no_tree_is_larger_than_its_text, reading_gives_the_answer,
};
