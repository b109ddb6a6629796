// What the definitions promise, in the subject's own words. Nothing here runs: each contract is a law.
ghost use Rattle.std.specs.Prelude.{◌≡◌, ◌≤◌, ◌↔◌, ◌⊎◌, ℕ, List, [], ◌++◌, length, Any, Bool, Option, Some, None, take, true, false};
ghost use Rattle.std.specs.List.{All, flat_map, list_any};
ghost use Rattle.bound_tree.specs.Exprs.{BoundExpr};
ghost use Rattle.eng_index.specs.declared.key_term.KeyTerm.{KeyTerm};
ghost use Rattle.eng_value.specs.Causes.{CauseSet};
ghost use Rattle.eng_value.specs.Environments.{Surroundings};
ghost use Rattle.eng_value.specs.HostMeanings.{HostMeanings, no_hosts};
ghost use Rattle.eng_value.specs.StoredRows.{StoredRow};
ghost use Rattle.eng_value.specs.declared.cause.Cause.{Cause};
ghost use Rattle.eng_value.specs.declared.value.Value.{Value};
ghost use Rattle.sql_meaning.specs.declared.script.Ending.{Ending};
ghost use Rattle.sql_meaning.specs.declared.script.Options.{Options};
ghost use Rattle.sql_meaning.specs.Parts.{bad_character, parts_from, parts_of};
ghost use Rattle.sql_meaning.specs.Runs.{AreAsMeant, IsEnough, IsFrontOf};
ghost use Rattle.sql_meaning.specs.Searches.{is_search, rows_counted, rows_met};
ghost use Rattle.sql_meaning.specs.Segments.{AreSegments, Segment, bytes_of, parts_in};
ghost use Rattle.sql_meaning.specs.Script.{AreOutcomes, Came, ends, is_failed, status_by};
ghost use Rattle.sql_meaning.specs.Statement.{IsNamed, text_outcome};
ghost use Rattle.sql_meaning.specs.Named.{TextIsTold};
ghost use Rattle.sql_meaning.specs.World.{Context, State, context, new_state};

use eng_value::MAX_SCRIPT_BYTES;

/// A refused statement changes no row, tells the update hook nothing, and what the connection holds stays as it was.
pub fn a_refusal_keeps_the_state()
    ensures { (ctx : Context) (text : List ℕ) (causes : CauseSet) → (text_outcome ctx text).refusal ≡ Some causes
        → ((text_outcome ctx text).next ≡ ctx.state) × ((text_outcome ctx text).changed ≡ 0) × ((text_outcome ctx text).told ≡ []) }
{}

/// Each refusal has a cause that can be named.
pub fn each_refusal_has_a_cause()
    ensures { (ctx : Context) (text : List ℕ) → (why : Option Cause) × IsNamed (text_outcome ctx text).refusal why }
{}

/// A script always comes to something, be it what its statements mean. Where the budget is enough for each of them, and each names only
/// hosts that tell, it comes to nothing else.
pub fn enough_budget_leaves_the_meaning()
    ensures some { (hosts : HostMeanings) (options : Options) (bytes : List ℕ) (ending : Ending)
        → (came : List Came) × AreOutcomes hosts options bytes ending came }
    ensures meant { (hosts : HostMeanings) (options : Options) (bytes : List ℕ) (ending : Ending) (came : List Came)
        → AreAsMeant hosts options new_state (parts_of bytes ending) came → AreOutcomes hosts options bytes ending came }
    ensures only { (hosts : HostMeanings) (options : Options) (bytes : List ℕ) (ending : Ending) (came : List Came)
        → IsEnough hosts options.budget new_state (parts_of bytes ending) → AreOutcomes hosts options bytes ending came
        → AreAsMeant hosts options new_state (parts_of bytes ending) came }
{}

/// Where there is no host, each statement names only hosts that tell: whatever a host's place or name, nothing stands there.
pub fn without_hosts_all_is_told()
    ensures { (state : State) (params : List Value) (text : List ℕ) → TextIsTold (context no_hosts state params) text }
{}

/// By searches no more rows count than a table has, and no fewer than meet one of them; without a search all count.
pub fn a_search_counts_the_rows_that_meet_it()
    ensures within { (x : Surroundings) (indexes : List (List KeyTerm)) (conjuncts : List BoundExpr) (rows : List StoredRow)
        → rows_counted x indexes conjuncts rows ≤ length rows }
    ensures each { (x : Surroundings) (indexes : List (List KeyTerm)) (conjuncts : List BoundExpr) (rows : List StoredRow)
        → All (λ (e : BoundExpr). is_search indexes x.params e ≡ true → rows_met x rows e ≤ rows_counted x indexes conjuncts rows) conjuncts }
    ensures without { (x : Surroundings) (indexes : List (List KeyTerm)) (conjuncts : List BoundExpr) (rows : List StoredRow)
        → list_any (is_search indexes x.params) conjuncts ≡ false → rows_counted x indexes conjuncts rows ≡ length rows }
{}

/// A part that has its end stays a part, whatever the script goes on with.
pub fn parts_stay()
    ensures { (text more : List ℕ) → IsFrontOf (parts_from false true 0 text) (parts_from false true 0 (text ++ more)) }
{}

/// What is pending behind the outcomes of a script whose reading failed may still come at its end, and past the limit no byte counts.
pub fn scripts_keep_their_outcomes()
    ensures front { (hosts : HostMeanings) (options : Options) (bytes : List ℕ) (came : List Came)
        → AreOutcomes hosts options bytes Ending.End came
        → (front : List Came) × AreOutcomes hosts options bytes Ending.ReadFault front × IsFrontOf front came }
    ensures limit { (hosts : HostMeanings) (options : Options) (bytes : List ℕ) (came : List Came)
        → AreOutcomes hosts options bytes Ending.TooLong came
        ↔ AreOutcomes hosts options (take MAX_SCRIPT_BYTES bytes) Ending.ReadFault came }
{}

/// The status is 1 exactly where there is an error line at the end of a script, or one that ended it. Every other status tells of the
/// ending.
pub fn statuses_tell_of_failures()
    ensures failed { (options : Options) (ending : Ending) (came : List Came) → (status_by options ending came ≡ 1)
        ↔ Any (λ o. is_failed o ≡ true) came × ((ending ≡ Ending.End) ⊎ Any (λ o. ends options o ≡ true) came) }
    ensures passed { (options : Options) (ending : Ending) (came : List Came) → status_by options ending came ≡ 0 → ending ≡ Ending.End }
    ensures read_fault { (options : Options) (ending : Ending) (came : List Came)
        → status_by options ending came ≡ 3 → ending ≡ Ending.ReadFault }
    ensures too_long { (options : Options) (ending : Ending) (came : List Came)
        → status_by options ending came ≡ 5 → ending ≡ Ending.TooLong }
{}

/// A text is put together of blanks, of dot lines and statements with the bytes that end them, and of what is pending at its end, and that
/// in one way; its parts are those of these. A script without a bad character is such a text.
pub fn scripts_are_put_together()
    ensures segments { (runs fresh : Bool) (text : List ℕ) → (segments : List Segment) × AreSegments fresh text segments
        × (parts_from runs fresh 0 text ≡ flat_map (parts_in runs) segments) }
    ensures bytes { (fresh : Bool) (text : List ℕ) (segments : List Segment) → AreSegments fresh text segments
        → flat_map bytes_of segments ≡ text }
    ensures one_way { (fresh : Bool) (text : List ℕ) (some others : List Segment)
        → AreSegments fresh text some → AreSegments fresh text others → some ≡ others }
    ensures script { (bytes : List ℕ) → bad_character Ending.End bytes ≡ None
        → parts_of bytes Ending.End ≡ parts_from true true 0 bytes }
{}
