// What is promised of the definitions. Nothing here runs: the contract is the law.
ghost use Rattle.std.specs.Prelude.{◌≡◌, ℕ, suc, Bool, true, false, List, [], length, Option, Some, Ok, Err};
ghost use Rattle.bound_tree.specs.declared.statements.BoundStatement.{BoundStatement};
ghost use Rattle.bound_tree.specs.declared.units.BoundSource.TheVariants.{Query as OfQuery};
ghost use Rattle.bound_tree.specs.declared.units.BoundUnit.{BoundUnit};
ghost use Rattle.eng_entry.specs.declared.entry.Entry.{Entry};
ghost use Rattle.eng_value.specs.declared.cause.Cause.TheVariants.{Arity};
ghost use Rattle.eng_value.specs.declared.cause.Cause.{Cause};
ghost use Rattle.sql_bound.specs.Froms.{Inside, of_view};
ghost use Rattle.sql_bound.specs.Queries.{entered};
ghost use Rattle.sql_bound.specs.Scopes.{Around, Outer, UnitsAnswer};
ghost use Rattle.sql_bound.specs.Statements.{bound_of};
ghost use Rattle.sql_bound.specs.Trees.{of_query};
ghost use Rattle.sql_bound.specs.declared.froms.Sourced.{Sourced};
ghost use Rattle.sql_bound.specs.declared.scopes.Asked.{Asked};
ghost use Rattle.sql_bound.specs.declared.scopes.Work.{Work};
ghost use Rattle.sql_tree.specs.declared.query.Query.{Query};
ghost use Rattle.sql_tree.specs.declared.statement.Statement.{Statement};
ghost use Rattle.sql_tree.specs.declared.statement.ViewDefinition.{ViewDefinition};
ghost use Rattle.bound_laws.specs.Order.{AddsUnits, AreInOrder};
ghost use Rattle.bound_laws.specs.Reach.{Serves};
ghost use Rattle.bound_laws.specs.Views.{as_view, beyond, in_brackets, levels_deep, names_fit, names_written, views_at};
ghost use Rattle.bound_laws.specs.Writes.{StatementIsWithin};

/// A view's use in a FROM is bound as its query would be in brackets, in the view's own text, with no FROM and no WITH table around it, and
/// as deep: the same unit, the same columns, by the names that are written behind the view's own if there are any, and the same units
/// gathered; or the same refusal. It is handed nothing, since its query needs nothing of what is around its use. Where the names are not
/// as many as the columns, that is refused, by the view's name.
pub fn a_view_is_its_query_in_brackets()
    ensures bound { (around : Around) (depth : ℕ) (o : Outer) (name : List ℕ) (entry : Entry) (v : ViewDefinition) (w after : Work) (s : Sourced) → in_brackets around depth entry v w ≡ Ok (s, after) → names_fit (names_written entry v) s.columns ≡ true → (unit : ℕ) × (s.source ≡ OfQuery unit []) × (of_view (record { outer = o; views = views_at around depth }) name entry (Some v) w ≡ Ok (as_view entry v unit s, after)) }
    ensures misnamed { (around : Around) (depth : ℕ) (o : Outer) (name : List ℕ) (entry : Entry) (v : ViewDefinition) (w after : Work) (s : Sourced) → in_brackets around depth entry v w ≡ Ok (s, after) → names_fit (names_written entry v) s.columns ≡ false → of_view (record { outer = o; views = views_at around depth }) name entry (Some v) w ≡ Err (Arity entry.name) }
    ensures refused { (around : Around) (depth : ℕ) (o : Outer) (name : List ℕ) (entry : Entry) (v : ViewDefinition) (w : Work) (why : Cause) → in_brackets around depth entry v w ≡ Err why → of_view (record { outer = o; views = views_at around depth }) name entry (Some v) w ≡ Err why }
    ensures as_deep { (around : Around) (depth : ℕ) (o : Outer) (f : Inside → List BoundUnit → UnitsAnswer Asked) (units : List BoundUnit) → entered o (levels_deep around (suc depth)) f units ≡ f (record { outer = record o { depth = levels_deep around depth }; views = views_at around depth }) units }
{}

/// What a query is bound to is there: the units that it adds stand in order behind those that there were, each of which names only units
/// in front of it, and hands them as many arguments as they take, columns of items that its own FROM has, arguments that it takes itself,
/// aggregates that its own SELECT has and, in ORDER BY, results that it has. An item whose rows come from a unit has as many columns as
/// that gives, and one where a value is asked of it. The query's own unit is one of them all and gives the query's columns. Where no FROM
/// is around the query, it takes nothing.
pub fn a_query_names_what_is_there()
    ensures adds { (around : Around) (depth : ℕ) (q : Query) (o : Outer) (units more : List BoundUnit) (a : Asked) → o.depth ≡ levels_deep around depth → o.levels ≡ [] → o.tables ≡ [] → (of_query q).bound o units ≡ Ok (a, more) → AddsUnits units more }
    ensures order { (around : Around) (depth : ℕ) (q : Query) (o : Outer) (units more : List BoundUnit) (a : Asked) → o.depth ≡ levels_deep around depth → o.levels ≡ [] → o.tables ≡ [] → AreInOrder units → (of_query q).bound o units ≡ Ok (a, more) → AreInOrder more }
    ensures own { (around : Around) (depth : ℕ) (q : Query) (o : Outer) (units more : List BoundUnit) (a : Asked) → o.depth ≡ levels_deep around depth → o.levels ≡ [] → o.tables ≡ [] → (of_query q).bound o units ≡ Ok (a, more) → Serves more a.unit 0 (length a.columns) }
    ensures nothing_needed { (around : Around) (depth : ℕ) (q : Query) (o : Outer) (units more : List BoundUnit) (a : Asked) → o.depth ≡ levels_deep around depth → o.levels ≡ [] → o.tables ≡ [] → (of_query q).bound o units ≡ Ok (a, more) → a.needs ≡ [] }
{}

/// So is what any statement is bound to: its units stand in order, and its command and each trigger that it opens name units that it has,
/// columns of the target, or of OLD and NEW, where these are seen, columns that the source of an INSERT gives, and triggers that are in its
/// list.
pub fn a_statement_names_what_is_there()
    ensures { (around : Around) (text : List ℕ) (s : Statement) (b : BoundStatement) → bound_of around text s ≡ Ok b → StatementIsWithin b }
{}

/// An empty FROM beyond all that are around a query changes nothing: it is bound the same, or refused the same. So a query in the brackets
/// of a FROM, which sees an empty one in the place of that FROM, is bound as it is where it stands alone.
pub fn an_empty_from_beyond_changes_nothing()
    ensures { (q : Query) (o : Outer) (units : List BoundUnit) → (of_query q).bound (beyond o) units ≡ (of_query q).bound o units }
{}
