// What the definitions promise of states and of what statements do to them. Nothing here runs: each contract is a law.
ghost use Rattle.std.specs.Prelude.{◌≡◌, ◌≤◌, ◌*◌, ◌↔◌, ◌⊎◌, ◌∷◌, ◌++◌, ℕ, ℤ, List, None, Ok, [], length};
ghost use Rattle.eng_entry.specs.declared.entry.Entry.{Entry};
ghost use Rattle.eng_value.specs.Causes.{only};
ghost use Rattle.eng_value.specs.Environments.{Environment};
ghost use Rattle.eng_value.specs.StoredRows.{StoredRow};
ghost use Rattle.eng_value.specs.Truths.{truth_in, truth_of};
ghost use Rattle.eng_value.specs.Written.{Written};
ghost use Rattle.eng_value.specs.declared.cause.Cause.TheVariants.{Full};
ghost use Rattle.eng_value.specs.declared.out.Out.{Out};
ghost use Rattle.eng_value.specs.declared.truth.Truth.TheVariants as truth;
ghost use Rattle.eng_value.specs.declared.value.Value.TheVariants as value;
ghost use Rattle.bound_tree.specs.Exprs.{BoundExpr};
ghost use Rattle.sql_meaning.specs.declared.bound.BoundInsert.{BoundInsert};
ghost use Rattle.sql_meaning.specs.declared.column.TableEntry.{TableEntry};
ghost use Rattle.sql_meaning.specs.Effects.{AddsIndex, AddsRows, AddsTable, DropsIndex, DropsTable, IsFull, IsOneMore, KeepsWritten};
ghost use Rattle.sql_meaning.specs.Expression.{value_of};
ghost use Rattle.sql_meaning.specs.Runnables.{Creates, Drops, Indexes, NewIndex, Put, Puts, Queries, Query, Shows, Unindexes};
ghost use Rattle.sql_meaning.specs.Rows.{NewRow, fitted, fixed};
ghost use Rattle.sql_meaning.specs.Statement.{bound_for, items_at, text_outcome};
ghost use Rattle.sql_meaning.specs.Steps.{Done, Fails};
ghost use Rattle.sql_meaning.specs.Valid.{AreRowsOf, IsValid};
ghost use Rattle.sql_meaning.specs.Work.{constraints_size};
ghost use Rattle.sql_meaning.specs.World.{Context, environment_at, new_state, rows_at};

/// The state of a new connection is valid, and every statement leaves a valid state valid.
pub fn states_stay_valid()
    ensures first { IsValid new_state }
    ensures next { (ctx : Context) (text : List ℕ) → IsValid ctx.state → IsValid (text_outcome ctx text).next }
{}

/// What a statement that is not refused does: an INSERT adds its rows to its table, each under its rowid, which is one more than the
/// largest where none is given, and none of them breaks a constraint; a CREATE TABLE adds a table without rows, and a DROP TABLE takes one out with its rows and indexes, and neither
/// touches another table; CREATE INDEX and DROP INDEX change nothing but the catalog; queries change nothing.
pub fn statements_do_what_they_say()
    ensures inserts { (ctx : Context) (text : List ℕ) (p : Put)
        → IsValid ctx.state → bound_for ctx text ≡ Ok (Puts p) → (text_outcome ctx text).refusal ≡ None
        → AddsRows ctx.state (environment_at ctx []) p (length p.insert.rows) (text_outcome ctx text) }
    ensures creates { (ctx : Context) (text : List ℕ) (e : Entry)
        → IsValid ctx.state → bound_for ctx text ≡ Ok (Creates e) → AddsTable ctx.state e (text_outcome ctx text) }
    ensures drops { (ctx : Context) (text : List ℕ) (t : TableEntry)
        → IsValid ctx.state → bound_for ctx text ≡ Ok (Drops t) → DropsTable ctx.state t (text_outcome ctx text) }
    ensures indexes { (ctx : Context) (text : List ℕ) (i : NewIndex)
        → IsValid ctx.state → bound_for ctx text ≡ Ok (Indexes i) → (text_outcome ctx text).refusal ≡ None → AddsIndex ctx.state i (text_outcome ctx text) }
    ensures unindexes { (ctx : Context) (text : List ℕ) (name : List ℕ)
        → IsValid ctx.state → bound_for ctx text ≡ Ok (Unindexes name) → DropsIndex ctx.state name (text_outcome ctx text) }
    ensures selects { (ctx : Context) (text : List ℕ) (q : Query)
        → bound_for ctx text ≡ Ok (Queries q) → (text_outcome ctx text).next ≡ ctx.state }
    ensures shows { (ctx : Context) (text : List ℕ) (rows : List (List BoundExpr))
        → bound_for ctx text ≡ Ok (Shows rows) → (text_outcome ctx text).next ≡ ctx.state }
{}

/// What an INSERT puts by default and tests of a row, the CREATE TABLE of its table spells out: it has at most two nodes for each token of
/// that text.
pub fn constraints_are_spelled_out()
    ensures { (ctx : Context) (text : List ℕ) (p : Put)
        → IsValid ctx.state → bound_for ctx text ≡ Ok (Puts p) → constraints_size p.insert ≤ 2 * p.table.tokens }
{}

/// A row for which no rowid is given gets one, but where the largest rowid is taken: there it is refused, as one of a full table.
pub fn a_table_is_full_at_the_largest_rowid()
    ensures { (t : TableEntry) (x : Written)
        → AreRowsOf t (rows_at x.world t.number)
        → ((fixed t.name (rows_at x.world t.number) value.Null x ≡ Fails (only (Full t.name)) x) ↔ IsFull (rows_at x.world t.number))
        × (((n : ℤ) × (fixed t.name (rows_at x.world t.number) value.Null x ≡ Done n x)) ⊎ IsFull (rows_at x.world t.number)) }
{}

/// A row for whose rowid nothing is given, or NULL, gets one more than the largest of its table, and 1 where this has no row. An integer
/// that is given for it is its rowid.
pub fn a_rowid_is_drawn_where_none_is_given()
    ensures drawn { (t : TableEntry) (env : Environment) (b : BoundInsert) (rows : List StoredRow) (new : NewRow) (x y : Written) (r : StoredRow)
        → AreRowsOf t rows → new.rowid ≡ value.Null → fitted env b rows new x ≡ Done r y → IsOneMore rows r.rowid }
    ensures given { (env : Environment) (b : BoundInsert) (rows : List StoredRow) (new : NewRow) (x y : Written) (r : StoredRow) (n : ℤ)
        → new.rowid ≡ value.Integer n → fitted env b rows new x ≡ Done r y → r.rowid ≡ n }
{}

/// Fixing a rowid and testing a row change nothing, whatever they come to.
pub fn tests_change_nothing()
    ensures { (env : Environment) (b : BoundInsert) (rows : List StoredRow) (new : NewRow) (x : Written) → KeepsWritten x (fitted env b rows new x) }
{}

/// A conjunct that is false or NULL rejects a row, whatever the others are, values or bad, and whatever causes the row carries.
pub fn a_false_conjunct_rejects()
    ensures { (before after : List BoundExpr) (conjunct : BoundExpr) (results : List BoundExpr) (env : Environment) (causes : Out)
        → (truth_in (truth_of (value_of conjunct env)) ≡ truth.False) ⊎ (truth_in (truth_of (value_of conjunct env)) ≡ truth.Unknown)
        → items_at (before ++ conjunct ∷ after) results env causes ≡ [] }
{}
