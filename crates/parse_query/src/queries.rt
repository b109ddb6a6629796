// The rules at a number of nestings that are left.

use parse_clause::Clauses;

/// Each rule of the grammar is a method, which parses what the rule derives.
#[derive(Clone, Copy)]
pub(crate) struct Queries<F, G> {
    pub(crate) clauses: Clauses<F, G>,
}
