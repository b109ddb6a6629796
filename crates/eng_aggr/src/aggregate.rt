/// The aggregates that are built in (Built-in Aggregate Functions). `CountRows` is count(*), and min and max are those of one argument.
#[derive(Clone, Copy, PartialEq, Eq)]
pub enum Aggregate {
    CountRows,
    Count,
    Sum,
    Min,
    Max,
    GroupConcat,
}
