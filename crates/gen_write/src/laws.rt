// What is known of the instructions of writes. Nothing here runs: each contract is a law.
ghost use Rattle.gen_write.specs.Writes.{LiteralsTakeNoSteps, StepsAreFew};
ghost use Rattle.sql_meaning.specs.declared.bound.BoundInsert.{BoundInsert};

/// The instructions of an INSERT are at most three for each node and each row of its source; for each row that is put three for each node of
/// a default or a CHECK, six for each column, three for each CHECK, and 16; and four for the whole.
pub fn an_insert_takes_few_steps()
    ensures { (b : BoundInsert) → StepsAreFew b }
{}

/// Where the source is made of literals that have values, no instruction is spent on it before its rows are put; and where there are no
/// defaults, NOT NULLs and CHECKs, and rowids are drawn, none on those. A row then takes three for each column and five, and three more where
/// there are keys, however many.
pub fn literals_are_loaded_where_they_are_put()
    ensures { (b : BoundInsert) → LiteralsTakeNoSteps b }
{}
