// What is promised of the definitions. Nothing here runs: the contract is the law.
ghost use Rattle.std.specs.List.{All, flat_map};
ghost use Rattle.std.specs.Prelude.{◌≡◌, ℕ, ◌<◌, ◌≤◌, slice_index_or, Bool, Option, codes, true, false, List, [], ◌∷◌, ◌++◌, length, map, Some, None, Ok, Err};
ghost use Rattle.eng_entry.specs.Names.{is_same_name};
ghost use Rattle.sql_tree.specs.declared.expr.BinaryOp.{BinaryOp};
ghost use Rattle.sql_tree.specs.declared.expr.Expr.{Expr};
ghost use Rattle.sql_tree.specs.declared.expr.Expr.TheOpen.{Expr-F};
ghost use Rattle.sql_tree.specs.declared.expr.Expr.TheVariants as e;
ghost use Rattle.sql_tree.specs.declared.query.Query.{Query};
ghost use Rattle.sql_tree.specs.declared.token.Token.{Token};
ghost use Rattle.sql_bound.specs.Expressions.{asked, expr_step};
ghost use Rattle.sql_bound.specs.Carriers.{ConstraintParts, Expression, ItemParts, On, ResultParts, Unconstrained, Using};
ghost use Rattle.sql_bound.specs.Columns.{alias_named, called_column_bound, column_bound, name_shown};
ghost use Rattle.sql_bound.specs.Compounds.{row_bound};
ghost use Rattle.bound_tree.specs.Exprs.{BoundExpr};
ghost use Rattle.bound_tree.specs.Exprs as bound;
ghost use Rattle.sql_bound.specs.Froms.{Inside, common_names, constrained, is_any, items_found, joined_to, nothing_found, scope_item, using_all, using_one};
ghost use Rattle.eng_value.specs.declared.cause.NameKind.TheVariants as kind;
ghost use Rattle.sql_bound.specs.Operands.{column_operand};
ghost use Rattle.sql_bound.specs.Results.{ResultScope, nothing_shown, results_bound};
ghost use Rattle.bound_tree.specs.Same.{same_expr};
ghost use Rattle.sql_bound.specs.Scopes.{Alias, Level, Scope, UnitsAnswer, bare_in, called_in, columns_named, counted_once, handed, is_need, name_of_ambiguous, nearest, needed, unjoined, with_named};
ghost use Rattle.sql_bound.specs.Trees.{of_expr, of_query};
ghost use Rattle.sql_words.specs.Spelled.{name_at};
ghost use Rattle.eng_value.specs.declared.cause.Cause.{Cause};
ghost use Rattle.eng_value.specs.declared.cause.Cause.TheVariants.{Ambiguous, Misuse, Unknown};
ghost use Rattle.sql_bound.specs.declared.froms.Found.{Found};
ghost use Rattle.sql_bound.specs.declared.froms.Joining.{Joining};
ghost use Rattle.sql_bound.specs.declared.froms.QueueTable.{QueueTable};
ghost use Rattle.sql_bound.specs.declared.froms.Sourced.{Sourced};
ghost use Rattle.sql_bound.specs.declared.queries.Shown.{Shown};
ghost use Rattle.sql_bound.specs.declared.scopes.Asked.{Asked};
ghost use Rattle.sql_bound.specs.declared.scopes.Need.{Need};
ghost use Rattle.sql_bound.specs.declared.scopes.Operand.{Operand};
ghost use Rattle.sql_bound.specs.declared.scopes.ScopeColumn.{ScopeColumn};
ghost use Rattle.sql_bound.specs.declared.scopes.ScopeItem.{ScopeItem};
ghost use Rattle.sql_bound.specs.declared.scopes.WithEntry.{WithEntry};
ghost use Rattle.sql_bound.specs.declared.scopes.Work.{Work};

/// An expression comes to what its parts come to, by one step, and so does one that asks a query.
pub fn trees_come_to_their_parts()
    ensures binary { (o : BinaryOp) (a b : Expr) → of_expr (e.Binary o a b) ≡ expr_step (Expr-F.Binary o (of_expr a) (of_expr b)) }
    ensures members { (a : Expr) (others : List Expr) → of_expr (e.In a others) ≡ expr_step (Expr-F.In (of_expr a) (map of_expr others)) }
    ensures query { (q : Query) → of_expr (e.Subquery q) ≡ expr_step (Expr-F.Subquery (of_query q)) }
{}

/// The nearest FROM that has a column of a name decides what the name means, whatever stands further out: two of its columns that USING
/// and NATURAL do not join are ambiguous, and one is found, with as many FROMs in between as have none. If no FROM has one, none is found.
pub fn the_nearest_from_decides()
    ensures two { (name : List ℕ) (candidates : ScopeItem → List ScopeColumn) (nearer : List Level) (own : Level) (outer : List Level) (c d : ScopeColumn) (between others : List ScopeColumn) → All (λ level. flat_map candidates level ≡ []) nearer → flat_map candidates own ≡ c ∷ (between ++ d ∷ others) → d.joined ≡ false → nearest name candidates (nearer ++ own ∷ outer) ≡ Err (Ambiguous (name_of_ambiguous name c)) }
    ensures one { (name : List ℕ) (candidates : ScopeItem → List ScopeColumn) (nearer : List Level) (own : Level) (outer : List Level) (c : ScopeColumn) (others : List ScopeColumn) → All (λ level. flat_map candidates level ≡ []) nearer → flat_map candidates own ≡ c ∷ others → All (λ (d : ScopeColumn). d.joined ≡ true) others → nearest name candidates (nearer ++ own ∷ outer) ≡ Ok (Some (record { up = length nearer; column = c })) }
    ensures none { (name : List ℕ) (candidates : ScopeItem → List ScopeColumn) (levels : List Level) → All (λ level. flat_map candidates level ≡ []) levels → nearest name candidates levels ≡ Ok None }
{}

/// A name is a column of the own FROM, if one has it, and ambiguous if two have it, whatever results have its name and whatever stands
/// further out; else a result of the name; else a column of the nearest FROM further out, which comes as an argument, so many FROMs
/// out; else it is unknown. Behind the name of a table it is never a result.
pub fn a_column_comes_before_a_result()
    ensures own { (s : Scope) (own : Level) (outer : List Level) (name : List ℕ) (w : Work) (c : ScopeColumn) → s.outer.allowed.columns ≡ true → s.outer.levels ≡ own ∷ outer → counted_once (flat_map (bare_in name) own) ≡ c ∷ [] → column_bound s name w ≡ Ok (column_operand c c.tree, w) }
    ensures ambiguous { (s : Scope) (own : Level) (outer : List Level) (name : List ℕ) (w : Work) (c d : ScopeColumn) (others : List ScopeColumn) → s.outer.allowed.columns ≡ true → s.outer.levels ≡ own ∷ outer → counted_once (flat_map (bare_in name) own) ≡ c ∷ (d ∷ others) → column_bound s name w ≡ Err (Ambiguous (name_of_ambiguous name c)) }
    ensures result { (s : Scope) (own : Level) (outer : List Level) (name : List ℕ) (w : Work) (a : Alias) (x : Operand) (v : Work) → s.outer.allowed.columns ≡ true → s.outer.levels ≡ own ∷ outer → flat_map (bare_in name) own ≡ [] → alias_named name s.aliases ≡ Some a → a.shown s.aggregates w ≡ Ok (x, v) → column_bound s name w ≡ Ok (x, v) }
    ensures refused_result { (s : Scope) (own : Level) (outer : List Level) (name : List ℕ) (w : Work) (a : Alias) (why : Cause) → s.outer.allowed.columns ≡ true → s.outer.levels ≡ own ∷ outer → flat_map (bare_in name) own ≡ [] → alias_named name s.aliases ≡ Some a → a.shown s.aggregates w ≡ Err why → column_bound s name w ≡ Err why }
    ensures further_out { (s : Scope) (own : Level) (outer : List Level) (name : List ℕ) (w : Work) (up : ℕ) (c : ScopeColumn) → s.outer.allowed.columns ≡ true → s.outer.levels ≡ own ∷ outer → flat_map (bare_in name) own ≡ [] → alias_named name s.aliases ≡ None → nearest name (bare_in name) outer ≡ Ok (Some (record { up = up; column = c })) → column_bound s name w ≡ Ok (column_operand c (needed (record { up = up; tree = c.tree }) w).0, (needed (record { up = up; tree = c.tree }) w).1) }
    ensures unknown { (s : Scope) (own : Level) (outer : List Level) (name : List ℕ) (w : Work) → s.outer.allowed.columns ≡ true → s.outer.levels ≡ own ∷ outer → flat_map (bare_in name) own ≡ [] → alias_named name s.aliases ≡ None → nearest name (bare_in name) outer ≡ Ok None → column_bound s name w ≡ Err (Unknown kind.Column name) }
    ensures behind_a_table { (s : Scope) (results : List Alias) (table name : List ℕ) (w : Work) → called_column_bound (record s { aliases = results }) table name w ≡ called_column_bound s table name w }
    ensures misused { (s : Scope) (name : List ℕ) (w : Work) → s.outer.allowed.columns ≡ false → column_bound s name w ≡ Err (Misuse (name_shown s.outer.levels name)) }
{}

/// What a query is handed over where it is asked is as many expressions as it has needs; the units and the aggregates stay as they
/// are, and what was needed before is needed still, in its place.
pub fn as_much_is_handed_over_as_is_needed()
    ensures count { (needs : List Need) (w : Work) → length (handed needs w).0 ≡ length needs }
    ensures units { (needs : List Need) (w : Work) → (handed needs w).1.units ≡ w.units }
    ensures aggregates { (needs : List Need) (w : Work) → (handed needs w).1.aggregates ≡ w.aggregates }
    ensures asked { (w v : Work) (answer : UnitsAnswer Asked) (a : Asked) (arguments : List BoundExpr) → asked w answer ≡ Ok ((a, arguments), v) → (answer ≡ Ok (a, v.units)) × (length arguments ≡ length a.needs) }
    ensures kept { (needs : List Need) (w : Work) → (more : List Need) × ((handed needs w).1.needs ≡ w.needs ++ more) }
{}

/// NATURAL joins as USING with the names that both sides have, in the order of those on the right, where neither side hides a column.
/// So an item of a FROM that is joined in the one way is bound as if it were joined in the other. With an ON or a USING of its own
/// NATURAL is refused.
pub fn natural_joins_by_the_common_columns()
    ensures as_using { (i : Inside) (left : Level) (names : List Token) (j : Joining) (w : Work) → map (name_at i.outer.text) names ≡ common_names left j.right → All (λ (item : ScopeItem). All (λ (c : ScopeColumn). c.hidden ≡ false) item.columns) left → All (λ (c : ScopeColumn). c.hidden ≡ false) j.right.columns → constrained i left true Unconstrained j w ≡ constrained i left false (Using names) j w }
    ensures item_as_using { (i : Inside) (item : ItemParts) (names : List Token) (name : Option (List ℕ)) (s : Sourced) (f : Found) (w : Work) → map (name_at i.outer.text) names ≡ common_names f.level (scope_item (length f.items) name s) → All (λ (x : ScopeItem). All (λ (c : ScopeColumn). c.hidden ≡ false) x.columns) f.level → All (λ hidden. hidden ≡ false) s.hidden → joined_to i (record item { join = record item.join { natural = true }; constraint = Unconstrained }) name s f w ≡ joined_to i (record item { join = record item.join { natural = false }; constraint = Using names }) name s f w }
    ensures not_with_on { (i : Inside) (left : Level) (x : Expression) (j : Joining) (w : Work) → constrained i left true (On x) j w ≡ Err (Misuse (codes "NATURAL")) }
    ensures not_with_using { (i : Inside) (left : Level) (names : List Token) (j : Joining) (w : Work) → constrained i left true (Using names) j w ≡ Err (Misuse (codes "NATURAL")) }
{}

/// The same name with letters of ASCII in the other case means the same: the same column or rowid, or the same ambiguity, the same
/// result and the same WITH table. So what is bound by a name is bound alike by the other.
pub fn the_case_of_a_name_does_not_count()
    ensures alone { (a b : List ℕ) (levels : List Level) → is_same_name a b ≡ true → nearest a (bare_in a) levels ≡ nearest b (bare_in b) levels }
    ensures called { (t u a b : List ℕ) (levels : List Level) → is_same_name t u ≡ true → is_same_name a b ≡ true → nearest a (called_in t a) levels ≡ nearest b (called_in u b) levels }
    ensures result { (a b : List ℕ) (results : List Alias) → is_same_name a b ≡ true → alias_named a results ≡ alias_named b results }
    ensures with_table { (a b : List ℕ) (tables : List WithEntry) → is_same_name a b ≡ true → with_named a tables ≡ with_named b tables }
    ensures bound { (s : Scope) (a b : List ℕ) (w v : Work) (x : Operand) → is_same_name a b ≡ true → column_bound s a w ≡ Ok (x, v) → column_bound s b w ≡ Ok (x, v) }
    ensures bound_of_its_item { (s : Scope) (t u a b : List ℕ) (w v : Work) (x : Operand) → is_same_name t u ≡ true → is_same_name a b ≡ true → called_column_bound s t a w ≡ Ok (x, v) → called_column_bound s u b w ≡ Ok (x, v) }
{}

/// No more than 100 values stand in a row that is bound, each one as it is written; a query shows no more than 100 columns, with those
/// that `*` stands for; USING and NATURAL join by no more than 100; and a FROM has no more than 16 items. Whatever else is refused in
/// what is longer, it is never bound.
pub fn what_is_bound_keeps_the_limits()
    ensures row { (s : Scope) (values : List Expression) (w v : Work) (row : List Operand) → row_bound s values ([], w) ≡ Ok (row, v) → (length row ≡ length values) × (length row ≤ 100) }
    ensures results { (s : ResultScope) (results : List ResultParts) (w v : Work) (shown : Shown) → results_bound s results (nothing_shown, w) ≡ Ok (shown, v) → length shown.trees ≤ 100 }
    ensures joined_by { (counts : ScopeColumn → Bool) (left : Level) (names : List (List ℕ)) (before after : Joining) → using_all counts left names before ≡ Ok after → length names ≤ 100 }
    ensures from { (i : Inside) (queue : Option QueueTable) (items : List ItemParts) (w v : Work) (found : Found) → items_found i queue items nothing_found w ≡ Ok (found, v) → (length found.items ≡ length items) × (length found.items ≤ 16) }
{}

/// Each bound expression is the same as itself. So what is needed is not brought twice: where it is asked for again, it is the same
/// argument, and nothing more is needed. The argument's place is that of the need.
pub fn a_need_is_brought_once()
    ensures itself { (x : BoundExpr) → same_expr x x ≡ true }
    ensures argument { (n : Need) (w : Work) → (place : ℕ) × ((needed n w).0 ≡ bound.Argument place) × (place < length (needed n w).1.needs) × (is_need n (slice_index_or (needed n w).1.needs place n) ≡ true) }
    ensures again { (n : Need) (w : Work) → needed n (needed n w).1 ≡ needed n w }
{}

/// What USING joins is no other column: on its right no column of the name is left that is not joined with the one on the left.
pub fn using_joins_all_of_the_name()
    ensures { (left : Level) (name : List ℕ) (before after : Joining) → using_one is_any left name before ≡ Ok after → unjoined (columns_named name after.right) ≡ [] }
{}
