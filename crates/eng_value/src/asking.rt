// What functions of hosts reply, and what queries that they ask are answered.
use crate::{Row, Rows, Text, Value};

/// A query that a function of a host asks: its text, and its parameters.
#[derive(Drop)]
pub struct Query {
    pub sql: Text,
    pub params: Row,
}

/// The answer to a query that was asked.
#[derive(Drop)]
pub enum Answer {
    /// Its rows.
    Rows(Rows),
    /// The text is not one query, it is refused, or one of its rows is bad.
    Failed,
    /// As many queries as may are asked in one another already.
    TooDeep,
    /// It has more rows than an answer may have.
    TooMany,
}

/// What a function of a host replies.
#[derive(Drop)]
pub enum Reply {
    /// Its value.
    Give(Value),
    /// It asks a query, and is called again with the answer.
    Ask(Query),
    /// It has no value, for this reason.
    Refuse(Text),
    /// The host failed.
    Fault,
    /// No memory was found.
    Mem,
}
