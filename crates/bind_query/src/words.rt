// First words of queries.
ghost use Rattle.std.specs.Prelude.{◌≡◌};
ghost use Rattle.sql_bound.specs.Compounds.{first_word as first_word_of_part};
ghost use Rattle.sql_bound.specs.Trees.{of_part, of_query};

use sql_tree::{Query, QueryPart};

/// The first word of a query, in capitals.
pub(crate) fn first_word(query: &Query) -> &'static str
    ensures { result.now ≡ (of_query query.now).first_word }
{
    match query.with.as_slice() {
        [] => word_of_part(&query.first),
        [_, ..] => "WITH",
    }
}

/// The first word of a part.
pub(crate) fn word_of_part(part: &QueryPart) -> &'static str
    ensures { result.now ≡ first_word_of_part (of_part part.now) }
{
    match part {
        QueryPart::Select(_) => "SELECT",
        QueryPart::Values(_) => "VALUES",
    }
}
