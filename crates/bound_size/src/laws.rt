// What is promised of the definitions. Nothing here runs: the contract is the law.
ghost use Rattle.std.specs.List.{flat_map, list_all};
ghost use Rattle.std.specs.Prelude.{◌≡◌, ◌≤◌, ℕ, ◌*◌, List, [], length, map, Option, Some, true, Ok};
ghost use Rattle.bound_tree.specs.Exprs.{BoundExpr};
ghost use Rattle.bound_tree.specs.declared.statements.BoundCommand.TheVariants.{Asked as AskedOf, Written};
ghost use Rattle.bound_tree.specs.declared.statements.BoundStatement.{BoundStatement};
ghost use Rattle.bound_tree.specs.declared.units.BoundUnit.{BoundUnit};
ghost use Rattle.bound_tree.specs.declared.writes.BoundChange.{BoundChange};
ghost use Rattle.bound_tree.specs.declared.writes.BoundWrite.{BoundWrite};
ghost use Rattle.sql_bound.specs.Carriers.{ItemParts};
ghost use Rattle.sql_bound.specs.Compounds.{trees_in, values_bound};
ghost use Rattle.sql_bound.specs.Declarations.{table_named};
ghost use Rattle.sql_bound.specs.Froms.{Inside, items_found, nothing_found};
ghost use Rattle.sql_bound.specs.Results.{ResultScope, nothing_shown, results_bound};
ghost use Rattle.sql_bound.specs.Scopes.{Around, Outer, Scope};
ghost use Rattle.sql_bound.specs.Statements.{bound_of};
ghost use Rattle.sql_bound.specs.Targets.{Target};
ghost use Rattle.sql_bound.specs.Trees.{of_expr, of_query, of_result};
ghost use Rattle.sql_bound.specs.Writes.{inserted_from, insertion};
ghost use Rattle.sql_bound.specs.declared.froms.Found.{Found};
ghost use Rattle.sql_bound.specs.declared.froms.QueueTable.{QueueTable};
ghost use Rattle.sql_bound.specs.declared.queries.Shown.{Shown};
ghost use Rattle.sql_bound.specs.declared.scopes.Asked.{Asked};
ghost use Rattle.sql_bound.specs.declared.scopes.Operand.{Operand};
ghost use Rattle.sql_bound.specs.declared.scopes.Work.{Work};
ghost use Rattle.sql_tree.specs.Sizes.{size_of, size_of_result, size_of_row, total};
ghost use Rattle.sql_tree.specs.declared.expr.Expr.{Expr};
ghost use Rattle.sql_tree.specs.declared.query.Query.{Query};
ghost use Rattle.sql_tree.specs.declared.query.ResultColumn.{ResultColumn};
ghost use Rattle.sql_tree.specs.declared.statement.Command.TheVariants.{Rows};
ghost use Rattle.sql_tree.specs.declared.statement.Insert.{Insert};
ghost use Rattle.sql_tree.specs.declared.statement.InsertSource.TheVariants.{Query as FromQuery};
ghost use Rattle.sql_tree.specs.declared.statement.RowCommand.TheVariants.{Insert as RowsInserted, Query as RowsAsked};
ghost use Rattle.sql_tree.specs.declared.statement.Statement.{Statement};
ghost use Rattle.sql_words.specs.Spelled.{name_at};
ghost use Rattle.bound_size.specs.Brought.{AllBringNodes, own_of};
ghost use Rattle.bound_size.specs.Plain.{is_plain, is_plain_query, is_plain_result, is_plain_row};
ghost use Rattle.bound_tree.specs.Conditions.{conditions_of};
ghost use Rattle.bound_size.specs.Sizes.{all_nodes, nodes_of};
ghost use Rattle.bound_size.specs.Small.{AreFewRows, AreFewShown, InsertsSmall, IsSmallTarget, MakesSmall, columns_in, seen_columns};

/// Where an expression asks no query, no result has a name and each column of the own FROM is one node, what it is bound to has at most
/// twice as many nodes as its tree, and so has what a condition is split into; what is tested of a condition, of which each BETWEEN makes
/// two, has at most four times as many.
pub fn expressions_are_linear()
    ensures tree { (x : Expr) (s : Scope) (w : Work) (r : Operand × Work) → is_plain x ≡ true → s.aliases ≡ [] → AllBringNodes (own_of s.outer.levels) → (of_expr x).bound s w ≡ Ok r → nodes_of r.0.tree ≤ 2 * size_of x }
    ensures conjuncts { (x : Expr) (s : Scope) (w : Work) (r : Operand × Work) → is_plain x ≡ true → s.aliases ≡ [] → AllBringNodes (own_of s.outer.levels) → (of_expr x).bound s w ≡ Ok r → all_nodes ((of_expr x).conjuncts r.0.tree) ≤ 2 * size_of x }
    ensures tests { (x : Expr) (s : Scope) (w : Work) (r : Operand × Work) → is_plain x ≡ true → s.aliases ≡ [] → AllBringNodes (own_of s.outer.levels) → (of_expr x).bound s w ≡ Ok r → all_nodes (flat_map conditions_of ((of_expr x).conjuncts r.0.tree)) ≤ 4 * size_of x }
{}

/// Each column that a FROM brings is one node, whatever stands in it and however it is joined, and names see no more columns than its items
/// have.
pub fn columns_are_nodes()
    ensures nodes { (i : Inside) (queue : Option QueueTable) (items : List ItemParts) (w : Work) (r : Found × Work) → items_found i queue items nothing_found w ≡ Ok r → AllBringNodes r.0.level }
    ensures count { (i : Inside) (queue : Option QueueTable) (items : List ItemParts) (w : Work) (r : Found × Work) → items_found i queue items nothing_found w ≡ Ok r → seen_columns r.0.level ≤ columns_in r.0.items }
{}

/// What results show that ask no query has at most twice as many nodes as they have, and one for each column of a `*`, of which there are
/// at most a hundred.
pub fn results_are_linear()
    ensures { (s : ResultScope) (results : List ResultColumn) (w : Work) (r : Shown × Work) → s.scope.aliases ≡ [] → AllBringNodes (own_of s.scope.outer.levels) → AllBringNodes s.own → list_all is_plain_result results ≡ true → results_bound s (map of_result results) (nothing_shown, w) ≡ Ok r → AreFewShown (total (map size_of_result results)) (seen_columns s.own) r.0.trees }
{}

/// Rows of VALUES that ask no query are as many as are written, and have at most twice as many nodes, with one more for each row.
pub fn rows_are_linear()
    ensures { (s : Scope) (rows : List (List Expr)) (w : Work) (r : List (List Operand) × Work) → s.aliases ≡ [] → AllBringNodes (own_of s.outer.levels) → list_all is_plain_row rows ≡ true → values_bound s (map (map of_expr) rows) w ≡ Ok r → AreFewRows (total (map size_of_row rows)) (map trees_in r.0) }
{}

/// A query of one part that asks no query in its results, its WHERE or its rows makes a unit that is small beside its tree, wherever it
/// stands, and so does the source of an INSERT.
pub fn queries_are_linear()
    ensures anywhere { (q : Query) (o : Outer) (units : List BoundUnit) (r : Asked × List BoundUnit) → is_plain_query q ≡ true → (of_query q).bound o units ≡ Ok r → MakesSmall q r.0.unit r.1 }
    ensures source { (q : Query) (o : Outer) (t : Target) (listed : List (Option ℕ)) (w : Work) (r : BoundChange × Work) → is_plain_query q ≡ true → inserted_from o t listed (Some (of_query q)) w ≡ Ok r → (place : ℕ) × (arguments : List BoundExpr) × (r.0 ≡ insertion t listed place arguments) × MakesSmall q place r.1.units }
{}

/// So a statement that is such a query asks a unit that is small, and so does an INSERT whose source is one, where the catalog has no
/// triggers.
pub fn statements_are_linear()
    ensures query { (around : Around) (text : List ℕ) (s : Statement) (q : Query) (b : BoundStatement) → s.command ≡ Rows (RowsAsked q) → is_plain_query q ≡ true → bound_of around text s ≡ Ok b → (place : ℕ) × (b.command ≡ AskedOf place) × MakesSmall q place b.units }
    ensures insert { (around : Around) (text : List ℕ) (s : Statement) (i : Insert) (q : Query) (b : BoundStatement) → s.command ≡ Rows (RowsInserted i) → i.source ≡ FromQuery q → around.catalog.triggers ≡ [] → is_plain_query q ≡ true → bound_of around text s ≡ Ok b → (write : BoundWrite) × (b.command ≡ Written write) × InsertsSmall q write.change b.units }
{}

/// What an INSERT puts by default and tests of a row has at most twice as many nodes as the tree of the CREATE TABLE that spells it out,
/// where no DEFAULT and no CHECK there asks a query.
pub fn constraints_are_linear()
    ensures { (around : Around) (text : List ℕ) (s : Statement) (i : Insert) (b : BoundStatement) → s.command ≡ Rows (RowsInserted i) → bound_of around text s ≡ Ok b → (write : BoundWrite) × (b.command ≡ Written write) × IsSmallTarget (table_named (name_at text i.table) around.catalog) write.target }
{}
