//! Statements whose names are bound: the trees of their expressions, their units, writes and triggers.
#![tactic(auto)]

mod arms;
mod copies;
mod expr;
mod lists;
mod same;
mod same_units;
mod statements;
mod tree;
mod units;
mod writes;

pub use arms::{BoundArm, BoundMatch};
pub use copies::{copied_columns, copied_exprs};
pub use expr::BoundExpr;
pub use lists::reversed;
pub use same::{same_expr, same_tree};
pub use same_units::{Same, all_same, same_unit};
pub use statements::{
    BoundCommand, BoundCreation, BoundRemoval, BoundStatement, BoundTransaction, ThingKind,
};
pub use tree::{ArmTree, ExprTree, MatchTree};
pub use units::{
    AggregateKind, BoundAggregate, BoundColumn, BoundCompound, BoundCore, BoundGroups, BoundIndex,
    BoundItem, BoundKey, BoundPart, BoundQuery, BoundRecursion, BoundSource, BoundTerm, BoundUnit,
    IndexPart, JoinKind, TermKey,
};
pub use writes::{
    BoundChange, BoundReturning, BoundSet, BoundStep, BoundTarget, BoundTrigger, BoundUpsert,
    BoundWrite, ConflictTest, FiringEvent,
};
