// Trees of expressions (SQL Language Expressions). Names and literals are told by their tokens.
use crate::{Query, Token};
use sqlite_items::{Boxed, Items};

/// An operator in front of its operand, or a test behind it.
#[derive(Clone, Copy, PartialEq, Eq)]
pub enum UnaryOp {
    Negative,
    Positive,
    BitNot,
    Not,
    IsNull,
    NotNull,
}

/// An operator between two operands.
#[derive(Clone, Copy, PartialEq, Eq)]
pub enum BinaryOp {
    Or,
    And,
    Equal,
    NotEqual,
    /// `IS`, and `IS NOT DISTINCT FROM`
    Is,
    /// `IS NOT`, and `IS DISTINCT FROM`
    IsNot,
    Glob,
    Less,
    LessEqual,
    Greater,
    GreaterEqual,
    BitAnd,
    BitOr,
    ShiftLeft,
    ShiftRight,
    Add,
    Subtract,
    Multiply,
    Divide,
    Remainder,
    Concatenate,
}

/// What stands between the parentheses of a call.
#[derive(Clone, Copy, PartialEq, Eq)]
pub enum Arguments {
    /// `*`
    Star,
    /// Arguments, or none.
    All,
    /// DISTINCT and arguments.
    Distinct,
}

/// A number with its sign, if any.
#[derive(Clone, Copy, PartialEq, Eq)]
pub struct SignedNumber {
    pub sign: Option<Token>,
    pub number: Token,
}

/// A type as a column or a CAST names it: words, and at most two sizes in parentheses.
pub struct TypeName {
    pub words: Items<Token>,
    pub sizes: Items<SignedNumber>,
}

impl Drop for TypeName {
    fn drop(self) {
        let TypeName { words, sizes } = self;
        drop(words);
        drop(sizes);
    }
}

/// An expression. NOT in front of BETWEEN, LIKE, GLOB and IN is a `Not` around the test. Parentheses leave nothing in the tree.
#[cycle(syntax)]
pub enum Expr {
    /// A number, a text, a blob, NULL, TRUE or FALSE.
    Literal(Token),
    Parameter(Token),
    Column(Token),
    /// A column of a table, by the names of both.
    TableColumn(Token, Token),
    Unary(UnaryOp, Boxed<Expr>),
    Binary(BinaryOp, Boxed<Expr>, Boxed<Expr>),
    /// `a BETWEEN b AND c`
    Between(Boxed<Expr>, Boxed<Expr>, Boxed<Expr>),
    /// `a LIKE b`, with its ESCAPE if any
    Like(Boxed<Expr>, Boxed<Expr>, Option<Boxed<Expr>>),
    /// `a IN (b, ..)`
    In(Boxed<Expr>, Items<Expr>),
    /// `a IN (query)`
    InQuery(Boxed<Expr>, Boxed<Query>),
    /// `(query)`, the value of its one column in its first row
    Subquery(Boxed<Query>),
    /// `EXISTS (query)`
    Exists(Boxed<Query>),
    Collate(Boxed<Expr>, Token),
    Cast(Boxed<Expr>, TypeName),
    /// A call by its name, with its FILTER if any.
    Call(Token, Arguments, Items<Expr>, Option<Boxed<Expr>>),
    /// The operand, the arms and what ELSE gives.
    Case(Option<Boxed<Expr>>, Items<Arm>, Option<Boxed<Expr>>),
    /// RAISE(IGNORE)
    RaiseIgnore,
    /// RAISE(ABORT, text)
    RaiseAbort(Token),
}

impl Drop for Expr {
    #[cycle(dropping)]
    fn drop(self) {
        match self {
            Expr::Literal(_) => {}
            Expr::Parameter(_) => {}
            Expr::Column(_) => {}
            Expr::TableColumn(_, _) => {}
            Expr::Unary(_, a) => drop(a),
            Expr::Binary(_, a, b) => {
                drop(a);
                drop(b);
            }
            Expr::Between(a, b, c) => {
                drop(a);
                drop(b);
                drop(c);
            }
            Expr::Like(a, b, c) => {
                drop(a);
                drop(b);
                drop(c);
            }
            Expr::In(a, b) => {
                drop(a);
                drop(b);
            }
            Expr::InQuery(a, b) => {
                drop(a);
                drop(b);
            }
            Expr::Subquery(a) => drop(a),
            Expr::Exists(a) => drop(a),
            Expr::Collate(a, _) => drop(a),
            Expr::Cast(a, b) => {
                drop(a);
                drop(b);
            }
            Expr::Call(_, _, a, b) => {
                drop(a);
                drop(b);
            }
            Expr::Case(a, b, c) => {
                drop(a);
                drop(b);
                drop(c);
            }
            Expr::RaiseIgnore => {}
            Expr::RaiseAbort(_) => {}
        }
    }
}

/// `WHEN condition THEN value`
#[cycle(syntax)]
pub struct Arm {
    pub condition: Expr,
    pub value: Expr,
}

impl Drop for Arm {
    #[cycle(dropping)]
    fn drop(self) {
        let Arm { condition, value } = self;
        drop(condition);
        drop(value);
    }
}
