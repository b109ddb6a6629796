// What the counts of the grammar mean. Nothing here runs: each contract is a law.
ghost use Rattle.std.specs.List.{All, count_by, sum_by};
ghost use Rattle.std.specs.Prelude.{◌≡◌, ◌↔◌, ℕ, ◌+◌, List, [], ◌∷◌, length};
ghost use Rattle.sql_tree.specs.Layers.{of_query};
ghost use Rattle.sql_tree.specs.declared.expr.Expr.{Expr};
ghost use Rattle.sql_tree.specs.declared.query.Query.{Query};
ghost use Rattle.sql_tree.specs.declared.statement.Statement.{Statement};
ghost use Rattle.sql_tree.specs.declared.token.Token.{Token};
ghost use Rattle.sql_grammar.specs.declared.counts.TheConstants.{MAX_NESTINGS};
ghost use Rattle.sql_grammar.specs.Answers.{Answer, Within};
ghost use Rattle.sql_grammar.specs.Bodies.{rules};
ghost use Rattle.sql_grammar.specs.Expressions as expressions;
ghost use Rattle.sql_grammar.specs.Expressions.{Expression};
ghost use Rattle.sql_grammar.specs.Grammar.{Name};
ghost use Rattle.sql_grammar.specs.Marks.{Marked, start};
ghost use Rattle.sql_grammar.specs.Queries.{query};
ghost use Rattle.sql_grammar.specs.Rules.{derives};
ghost use Rattle.sql_grammar.specs.StatementTexts as statements;
ghost use Rattle.sql_grammar.specs.StatementTexts.{IsStatement};
ghost use Rattle.sql_limits.specs.Answers.{IsAnswer};
ghost use Rattle.sql_limits.specs.Limits.{KeepsAll, first_query, is_operator, is_part, operators, outermost_expressions, parts, queries};
ghost use Rattle.sql_limits.specs.Nestings.{Nested, flat};
ghost use Rattle.sql_limits.specs.Outermost.{IsOneAtMost};

/// The marked tokens of each derivation are nested, and in one way. Those of an expression are one outermost expression; and each
/// outermost expression of a statement is one that the grammar derives, with names behind it at most, or names alone: between two of
/// them there is always a token that stands in none.
pub fn derived_tokens_are_nested()
    ensures expression { (depth : ℕ) (w : List Marked) (tree : Expr) → Expression depth w tree → (n : Nested) × (w ≡ flat n) × (outermost_expressions n ≡ n ∷ []) }
    ensures statement { (depth : ℕ) (w : List Marked) (tree : Statement) → IsStatement depth w tree → (n : Nested) × (w ≡ flat n) × All IsOneAtMost (outermost_expressions n) }
    ensures one_way { (m n : Nested) → flat m ≡ flat n → m ≡ n }
{}

/// The scan of a derivation's marked tokens passes no limit exactly where they keep the limits: at most 100 brackets and CASEs are open
/// at one place, each outermost expression has at most 1,000 operators with its queries, and each query at most 500 parts.
pub fn the_scan_fits_where_the_limits_are_kept()
    ensures expression { (depth : ℕ) (w : List Marked) (tree : Expr) → Expression depth w tree → (n : Nested) × (w ≡ flat n) × (Within MAX_NESTINGS start w ↔ KeepsAll n) }
    ensures statement { (depth : ℕ) (w : List Marked) (tree : Statement) → IsStatement depth w tree → (n : Nested) × (w ≡ flat n) × (Within MAX_NESTINGS start w ↔ KeepsAll n) }
{}

/// The answer of tokens, in the words of the limits: a tree exactly where one is derived from tokens that keep them; else the first
/// token that cannot stand there, where the tokens in front keep them; or, earlier, the first token with which a limit is no longer kept.
pub fn answers_are_within_the_limits()
    ensures expression { (tokens : List Token) (x : Answer Expr) → expressions.AnswersAs tokens x ↔ IsAnswer Expression tokens x }
    ensures statement { (tokens : List Token) (x : Answer Statement) → statements.AnswersAs tokens x ↔ IsAnswer IsStatement tokens x }
{}

/// Each operator is of one outermost expression, and each part of one query: none is left out, and none counts twice.
pub fn each_token_counts_once()
    ensures operators { (n : Nested) → sum_by operators (outermost_expressions n) ≡ count_by (λ x. is_operator x.mark) (flat n) }
    ensures parts { (n : Nested) → sum_by parts (queries n) ≡ count_by (λ x. is_part x.mark) (flat n) }
{}

/// The tokens of a query are one query, with as many parts as its tree has.
pub fn a_query_has_the_parts_of_its_tree()
    ensures { (depth : ℕ) (w : List Marked) (tree : Query) → derives Name rules depth query w tree → (n : Nested) × (w ≡ flat n) × (first_query n ≡ n) × (parts n ≡ 1 + length (of_query tree).others) }
{}
