// What is promised of the definitions. Nothing here runs: the contract is the law.
ghost use Rattle.std.specs.Prelude.{◌≡◌, ℕ, List, length, Ok};
ghost use Rattle.bound_ignored.specs.Erased.{Marks, erased};
ghost use Rattle.bound_laws.specs.Reach.{IsWithin, Reach};
ghost use Rattle.bound_tree.specs.Exprs.{BoundExpr};
ghost use Rattle.eng_entry.specs.Entries.{Entries};
ghost use Rattle.meaning_laws.specs.Names.{NamesBelow};
ghost use Rattle.meaning_laws.specs.Runs.{NamesColumns, RunnableIsWithin};
ghost use Rattle.sql_meaning.specs.Permits.{Asking};
ghost use Rattle.sql_meaning.specs.Runnables.{Runnable};
ghost use Rattle.sql_meaning.specs.Statement.{statement_bound};
ghost use Rattle.sql_tree.specs.declared.statement.Statement.{Statement};

/// What names columns, rowids, arguments, aggregates and units that are there names items of that FROM alone.
pub fn what_is_within_names_items_below()
    ensures { (r : Reach) (from : List ℕ) (x : BoundExpr) → IsWithin r from x → NamesBelow (length from) x }
{}

/// Where what is ignored reads NULL, and the column that is the rowid reads that, no other item is named.
pub fn what_reads_stored_rows_names_no_other_items()
    ensures { (m : Marks) (count : ℕ) (x : BoundExpr) → NamesBelow count x → NamesBelow count (erased m x) }
{}

/// Whatever the authorizer says, what runs of a statement names only what is there: in a query what is tested and what is shown name items of
/// its FROM, and what makes the pairs of a LEFT JOIN names those up to its own item; rows of values and defaults name none; and the CHECKs
/// of an INSERT name the row that is put.
pub fn a_runnable_names_what_is_there()
    ensures { (asked : Asking) (entries : Entries) (number : ℕ) (body : List ℕ) (s : Statement) (r : Runnable) → statement_bound asked entries number body s ≡ Ok r → RunnableIsWithin r }
{}

/// What is tested and shown in a query names columns that the items of its FROM have, and no argument and no aggregate; and rows of values
/// that are shown name no column either.
pub fn a_query_names_columns_that_are_there()
    ensures { (asked : Asking) (entries : Entries) (number : ℕ) (body : List ℕ) (s : Statement) (r : Runnable) → statement_bound asked entries number body s ≡ Ok r → NamesColumns r }
{}
