//! Tokens of SQL, and the trees that statements are parsed into. All is plain data; trees tell names and literals by their tokens.
#![tactic(auto)]

mod expr;
mod query;
mod statement;
mod token;

pub use expr::{Arguments, Arm, BinaryOp, Expr, SignedNumber, TypeName, UnaryOp};
pub use query::{
    CommonTable, CompoundOp, CompoundPart, FromItem, Join, JoinConstraint, NullsOrder,
    OrderingTerm, Query, QueryPart, ResultColumn, RowLimit, SelectCore, Source, SpannedExpr,
};
pub use statement::{
    Assignment, ColumnConstraint, ColumnDefinition, Command, ConflictChoice, Create, Definition,
    Delete, Explain, IndexDefinition, IndexedColumn, Insert, InsertSource, ObjectKind, Pragma,
    Remove, RowCommand, Statement, TableConstraint, TableDefinition, Transaction,
    TriggerDefinition, TriggerEvent, TriggerTime, Update, ViewDefinition, VirtualTableDefinition,
};
pub use token::{Span, Token, TokenKind};
