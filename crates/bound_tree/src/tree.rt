// Bound expressions as they are stored: they hold no query, but ask one by its unit.
use eng_value::{BinaryOperator, Builtin, Collation, Sides, Text, UnaryOperator};
use sql_words::Literal;
use sqlite_items::{Boxed, Items};

/// An expression over a row of the own FROM, the arguments of the own query, and what its aggregates come to.
#[cycle(trees)]
pub enum ExprTree {
    Literal(Literal),
    /// The parameter of this number, from 1 on.
    Parameter(u32),
    /// A column of an item of the own FROM: the item's place, leftmost 0, and the column's place in it.
    Column { item: u32, column: u32 },
    /// The rowid of an item of the own FROM, where no column of it is the rowid.
    Rowid { item: u32 },
    /// What the asker hands over in this place.
    Argument(u32),
    /// What an aggregate of the own core comes to, by its slot.
    Aggregate(u32),
    Unary(UnaryOperator, Boxed<ExprTree>),
    Binary(BinaryOperator, Boxed<ExprTree>, Boxed<ExprTree>),
    /// `a LIKE b ESCAPE c`
    LikeEscaped(Boxed<ExprTree>, Boxed<ExprTree>, Boxed<ExprTree>),
    /// `a BETWEEN b AND c`, with the sides of `a >= b` and of `a <= c`.
    Between(Sides, Sides, Boxed<ExprTree>, Boxed<ExprTree>, Boxed<ExprTree>),
    /// `a IN (b, ..)`, where each is compared with `a` so.
    In(Sides, Boxed<ExprTree>, Items<ExprTree>),
    /// The value of the first arm whose condition is true, else the last one.
    Choose(Items<ArmTree>, Boxed<ExprTree>),
    /// The value of the first arm whose operand is equal to the first expression, else the last one.
    Match(Boxed<ExprTree>, Items<MatchTree>, Boxed<ExprTree>),
    /// `iif(a, b, c)`
    Iif(Boxed<ExprTree>, Boxed<ExprTree>, Boxed<ExprTree>),
    /// coalesce or ifnull: the first that is not NULL.
    Coalesce(Builtin, Items<ExprTree>),
    /// A built-in function, which compares texts under the collation.
    Call(Builtin, Collation, Items<ExprTree>),
    /// A function of a host.
    HostCall(Text, Items<ExprTree>),
    /// The value of a query's one column in its first row: the query's unit, and what is handed over to it.
    Scalar(u32, Items<ExprTree>),
    /// Whether a query has a row.
    Exists(u32, Items<ExprTree>),
    /// `a IN (query)`
    InQuery(Sides, Boxed<ExprTree>, u32, Items<ExprTree>),
    RaiseIgnore,
    RaiseAbort(Text),
}

impl Drop for ExprTree {
    #[cycle(dropping)]
    fn drop(self) {
        match self {
            ExprTree::Literal(a) => drop(a),
            ExprTree::Parameter(_) => {}
            ExprTree::Column { item: _, column: _ } => {}
            ExprTree::Rowid { item: _ } => {}
            ExprTree::Argument(_) => {}
            ExprTree::Aggregate(_) => {}
            ExprTree::Unary(_, a) => drop(a),
            ExprTree::Binary(_, a, b) => {
                drop(a);
                drop(b);
            }
            ExprTree::LikeEscaped(a, b, c) => {
                drop(a);
                drop(b);
                drop(c);
            }
            ExprTree::Between(_, _, a, b, c) => {
                drop(a);
                drop(b);
                drop(c);
            }
            ExprTree::In(_, a, b) => {
                drop(a);
                drop(b);
            }
            ExprTree::Choose(a, b) => {
                drop(a);
                drop(b);
            }
            ExprTree::Match(a, b, c) => {
                drop(a);
                drop(b);
                drop(c);
            }
            ExprTree::Iif(a, b, c) => {
                drop(a);
                drop(b);
                drop(c);
            }
            ExprTree::Coalesce(_, a) => drop(a),
            ExprTree::Call(_, _, a) => drop(a),
            ExprTree::HostCall(a, b) => {
                drop(a);
                drop(b);
            }
            ExprTree::Scalar(_, a) => drop(a),
            ExprTree::Exists(_, a) => drop(a),
            ExprTree::InQuery(_, a, _, b) => {
                drop(a);
                drop(b);
            }
            ExprTree::RaiseIgnore => {}
            ExprTree::RaiseAbort(a) => drop(a),
        }
    }
}

/// `WHEN condition THEN value`
#[cycle(trees)]
pub struct ArmTree {
    pub condition: ExprTree,
    pub value: ExprTree,
}

impl Drop for ArmTree {
    #[cycle(dropping)]
    fn drop(self) {
        let ArmTree { condition, value } = self;
        drop(condition);
        drop(value);
    }
}

/// `WHEN operand THEN value`, where the operand is compared so.
#[cycle(trees)]
pub struct MatchTree {
    pub sides: Sides,
    pub operand: ExprTree,
    pub value: ExprTree,
}

impl Drop for MatchTree {
    #[cycle(dropping)]
    fn drop(self) {
        let MatchTree {
            sides: _,
            operand,
            value,
        } = self;
        drop(operand);
        drop(value);
    }
}
