// What the names of calls stand for, as plain data.

use bound_tree::AggregateKind;
use eng_value::{Builtin, Text};
use sql_words::ArgumentCount;

/// How many arguments an aggregate takes.
#[derive(Clone, Copy)]
pub enum AggregateCount {
    One,
    OneOrTwo,
    /// That of a host: so many, or any number where it is -1.
    Arity(i32),
}

/// An aggregate: its name, its kind, how many arguments it takes, and whether it may be called with `*`.
#[derive(Drop)]
pub struct CalledAggregate {
    pub name: Text,
    pub kind: AggregateKind,
    pub count: AggregateCount,
    pub star: bool,
}

/// What the name of a call stands for.
#[derive(Drop)]
pub enum Called {
    /// A function that is built in.
    Function(Text, Builtin, ArgumentCount),
    /// A function of a host, and how many arguments it takes, -1 for any number.
    HostFunction(Text, i32),
    Aggregate(CalledAggregate),
    Nobody,
}
