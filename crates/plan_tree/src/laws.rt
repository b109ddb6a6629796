// What is known of plans. Nothing here runs: each contract is a law.
ghost use Rattle.std.specs.Prelude.{List, ℕ};
ghost use Rattle.bound_tree.specs.Exprs.{BoundExpr};
ghost use Rattle.eng_value.specs.declared.value.Value.{Value};
ghost use Rattle.plan_tree.specs.Assigned.{IsAssigned};
ghost use Rattle.plan_tree.specs.Plans.{PlanFits};
ghost use Rattle.plan_tree.specs.declared.access.JoinPlan.{JoinPlan};
ghost use Rattle.sql_meaning.specs.declared.bound.FromTable.{FromTable};

/// Conjuncts that are tested in a loop behind which nothing more is there that they read keep what they keep behind all loops; and loops in any
/// order that keeps to the LEFT JOINs give the rows of the FROM, in its order once they are sorted by the rowids of its items.
pub fn conjuncts_move_in()
    ensures { (params : List Value) (from : List FromTable) (conjuncts : List BoundExpr) (order : List (ℕ × FromTable)) (assigned : List (List BoundExpr)) (p : JoinPlan)
        → IsAssigned params from conjuncts order assigned p → PlanFits params from conjuncts p }
{}
