// What the operators are told apart by.
use crate::{Affinity, Collation, CompareOp};

/// The operators on two numbers that may leave the 64 bits (SQL Language Expressions, section 2).
#[derive(Clone, Copy, PartialEq, Eq)]
pub enum ArithmeticOp {
    Add,
    Subtract,
    Multiply,
    Divide,
}

/// The operators on two values that are cast to INTEGER first.
#[derive(Clone, Copy, PartialEq, Eq)]
pub enum IntegerOp {
    Remainder,
    And,
    Or,
    ShiftLeft,
    ShiftRight,
}

/// How two sides are compared: the affinities that they have, and the collation (Datatypes In SQLite, sections 4.2 and 7.1).
#[derive(Clone, Copy, PartialEq, Eq)]
pub struct Sides {
    pub left: Affinity,
    pub right: Affinity,
    pub collation: Collation,
}

/// The operators with one operand, casts among them.
#[derive(Clone, Copy, PartialEq, Eq)]
pub enum UnaryOperator {
    /// Whether it is true: NULL, 1 or 0.
    Truth,
    Negative,
    BitNot,
    Not,
    IsNull,
    NotNull,
    /// `IS TRUE`, and `IS FALSE`.
    IsTruth(bool),
    /// A cast to a type of this affinity.
    Cast(Affinity),
}

/// The operators with two operands.
#[derive(Clone, Copy, PartialEq, Eq)]
pub enum BinaryOperator {
    Arithmetic(ArithmeticOp),
    Integers(IntegerOp),
    Concatenate,
    And,
    Or,
    Compare(CompareOp, Sides),
    /// NULL counts as a value.
    Is(Sides),
    /// A text, and the pattern that it may have.
    Like,
    Glob,
}
