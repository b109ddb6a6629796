// What is known of the instructions of queries. Nothing here runs: each contract is a law.
ghost use Rattle.gen_query.specs.Queries.{StepsAreFew, ValuesStepsAreFew};
ghost use Rattle.std.specs.Prelude.{List};
ghost use Rattle.bound_tree.specs.Exprs.{BoundExpr};
ghost use Rattle.sql_meaning.specs.declared.bound.BoundSelect.{BoundSelect};

/// The instructions are at most so many for each turn and each node of an expression or item of the FROM, and a few for the whole.
pub fn a_query_takes_few_steps()
    ensures { (q : BoundSelect) → StepsAreFew q }
{}

/// The instructions of VALUES are at most four for each node of an expression, five for each row and one for the whole.
pub fn values_take_few_steps()
    ensures { (rows : List (List BoundExpr)) → ValuesStepsAreFew rows }
{}
