// What the grammar promises whoever parses it or reads it. Nothing here runs: each contract is a law.
ghost use Rattle.std.specs.Prelude.{◌≡◌, ℕ, ◌≤◌, List, length};
ghost use Rattle.sql_tree.specs.Sizes.{size_of, size_of_statement};
ghost use Rattle.sql_tree.specs.declared.expr.Expr.{Expr};
ghost use Rattle.sql_tree.specs.declared.statement.Statement.{Statement};
ghost use Rattle.sql_tree.specs.declared.token.Token.{Token};
ghost use Rattle.sql_grammar.specs.Alike.{Alike};
ghost use Rattle.sql_grammar.specs.Answers.{Answer, whole};
ghost use Rattle.sql_grammar.specs.Bodies.{rules};
ghost use Rattle.sql_grammar.specs.Definitions as definitions;
ghost use Rattle.sql_grammar.specs.Expressions as expressions;
ghost use Rattle.sql_grammar.specs.Expressions.{Expression, read_expr};
ghost use Rattle.sql_grammar.specs.Grammar as grammar;
ghost use Rattle.sql_grammar.specs.Grammar.{Name};
ghost use Rattle.sql_grammar.specs.Marks.{Marked, plain, start};
ghost use Rattle.sql_grammar.specs.Queries as queries;
ghost use Rattle.sql_grammar.specs.Statements as others;
ghost use Rattle.sql_grammar.specs.StatementTexts as statements;
ghost use Rattle.sql_grammar.specs.StatementTexts.{IsStatement, read_statement};
ghost use Rattle.sql_grammar.specs.Written as written;

/// Each list of tokens has an answer: a tree, where one is derived within the limits; or the first token such that nothing derived
/// begins with the tokens up to and with it, the end counting as one; or, earlier, the first that passes a limit.
pub fn each_text_has_an_answer()
    ensures expression { (tokens : List Token) → (x : Answer Expr) × expressions.AnswersAs tokens x }
    ensures statement { (tokens : List Token) → (x : Answer Statement) × statements.AnswersAs tokens x }
{}

/// Tokens with a tree have no other, whatever their marks.
pub fn no_text_has_two_trees()
    ensures expression { (tokens : List Token) (a b : Expr) → expressions.HasTree tokens a → (e : ℕ) (w : List Marked) → tokens ≡ plain w → Expression e w b → a ≡ b }
    ensures statement { (tokens : List Token) (a b : Statement) → statements.HasTree tokens a → (e : ℕ) (w : List Marked) → tokens ≡ plain w → IsStatement e w b → a ≡ b }
{}

/// One token of look-ahead reads the answer, and so there is only one.
pub fn reading_gives_the_answer()
    ensures expression { (tokens : List Token) (x : Answer Expr) → expressions.AnswersAs tokens x → whole (read_expr start tokens) ≡ x }
    ensures statement { (tokens : List Token) (x : Answer Statement) → statements.AnswersAs tokens x → whole (read_statement start tokens) ≡ x }
{}

/// A tree is no larger than the number of its tokens: each node stands for a token of its own, and a CASE for its two words.
pub fn no_tree_is_larger_than_its_text()
    ensures expression { (tokens : List Token) (tree : Expr) → expressions.HasTree tokens tree → size_of tree ≤ length tokens }
    ensures statement { (tokens : List Token) (tree : Statement) → statements.HasTree tokens tree → size_of_statement tree ≤ length tokens }
{}

/// Where the grammar is factored, so that one token tells what to do, it derives the same trees from the same marked tokens as the
/// rule that is written in the documents of SQL, with each number of nestings. A run of signs or of NOTs is an operator in front of
/// what is again such an operand.
pub fn factored_rules_derive_the_same()
    ensures primary { Alike Name rules grammar.primary written.primary }
    ensures arguments { Alike Name rules grammar.some_arguments written.some_arguments }
    ensures members { Alike Name rules (rules _ grammar.members) written.members }
    ensures case { Alike Name rules grammar.case written.case }
    ensures signs { Alike Name rules grammar.signed_primary written.signed_primary }
    ensures nots { Alike Name rules grammar.negation written.negation }
    ensures tests { Alike Name rules grammar.test written.test }
    ensures result { Alike Name rules queries.result written.result }
    ensures alias { Alike Name rules queries.alias written.alias }
    ensures limit { Alike Name rules queries.row_limit written.row_limit }
    ensures query { Alike Name rules queries.query written.query }
    ensures table_rules { Alike Name rules definitions.table_rule_of written.table_rule_of }
    ensures columns { Alike Name rules definitions.all_columns written.all_columns }
    ensures create { Alike Name rules definitions.create written.create }
    ensures explain { Alike Name rules others.explain written.explain }
    ensures transaction { Alike Name rules others.transaction written.transaction }
{}
