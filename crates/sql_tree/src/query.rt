// Trees of queries (SELECT). An empty list stands for a clause that is not there.
use crate::{Expr, Span, Token};
use sqlite_items::{Boxed, Items};

/// How a part of a compound query goes with those in front of it.
#[derive(Clone, Copy, PartialEq, Eq)]
pub enum CompoundOp {
    Union,
    UnionAll,
    Intersect,
    Except,
}

/// Where NULLs stand in an order.
#[derive(Clone, Copy, PartialEq, Eq)]
pub enum NullsOrder {
    First,
    Last,
}

/// How an item of FROM is joined with those in front of it. `,`, JOIN, INNER JOIN and CROSS JOIN are the same.
#[derive(Clone, Copy, PartialEq, Eq)]
pub struct Join {
    pub natural: bool,
    /// LEFT JOIN
    pub left: bool,
}

/// `WITH table, .. parts ORDER BY term, .. LIMIT limit`. RECURSIVE is not told, since it means nothing.
#[cycle(syntax)]
pub struct Query {
    pub with: Items<CommonTable>,
    pub first: QueryPart,
    pub others: Items<CompoundPart>,
    pub order_by: Items<OrderingTerm>,
    pub limit: Option<RowLimit>,
}

impl Drop for Query {
    #[cycle(dropping)]
    fn drop(self) {
        let Query {
            with,
            first,
            others,
            order_by,
            limit,
        } = self;
        drop(with);
        drop(first);
        drop(others);
        drop(order_by);
        drop(limit);
    }
}

/// `name (column, ..) AS (query)` of a WITH
#[cycle(syntax)]
pub struct CommonTable {
    pub name: Token,
    pub columns: Items<Token>,
    pub query: Boxed<Query>,
}

impl Drop for CommonTable {
    #[cycle(dropping)]
    fn drop(self) {
        let CommonTable {
            name: _,
            columns,
            query,
        } = self;
        drop(columns);
        drop(query);
    }
}

/// A part of a query: a SELECT, or the rows of VALUES, of one row at least, each of one value at least.
#[cycle(syntax)]
pub enum QueryPart {
    Select(SelectCore),
    Values(Items<Items<Expr>>),
}

impl Drop for QueryPart {
    #[cycle(dropping)]
    fn drop(self) {
        match self {
            QueryPart::Select(a) => drop(a),
            QueryPart::Values(a) => drop(a),
        }
    }
}

/// A part behind the first one.
#[cycle(syntax)]
pub struct CompoundPart {
    pub op: CompoundOp,
    pub part: QueryPart,
}

impl Drop for CompoundPart {
    #[cycle(dropping)]
    fn drop(self) {
        let CompoundPart { op: _, part } = self;
        drop(part);
    }
}

/// `SELECT [DISTINCT] result, .. FROM item .. WHERE filter GROUP BY term, .. HAVING having`, of one result at least
#[cycle(syntax)]
pub struct SelectCore {
    pub distinct: bool,
    pub results: Items<ResultColumn>,
    pub from: Items<FromItem>,
    pub filter: Option<Expr>,
    pub group_by: Items<SpannedExpr>,
    pub having: Option<Expr>,
}

impl Drop for SelectCore {
    #[cycle(dropping)]
    fn drop(self) {
        let SelectCore {
            distinct: _,
            results,
            from,
            filter,
            group_by,
            having,
        } = self;
        drop(results);
        drop(from);
        drop(filter);
        drop(group_by);
        drop(having);
    }
}

/// What a SELECT gives of each row.
#[cycle(syntax)]
pub enum ResultColumn {
    /// `*`
    All,
    /// `table.*`
    AllOf(Token),
    /// An expression, and its name behind AS if any.
    Expression(SpannedExpr, Option<Token>),
}

impl Drop for ResultColumn {
    #[cycle(dropping)]
    fn drop(self) {
        match self {
            ResultColumn::All => {}
            ResultColumn::AllOf(_) => {}
            ResultColumn::Expression(a, _) => drop(a),
        }
    }
}

/// An expression with its text, from its first token to its last one.
#[cycle(syntax)]
pub struct SpannedExpr {
    pub expr: Expr,
    pub text: Span,
}

impl Drop for SpannedExpr {
    #[cycle(dropping)]
    fn drop(self) {
        let SpannedExpr { expr, text: _ } = self;
        drop(expr);
    }
}

/// An item of FROM with its name behind AS if any. The first one has the plain join without a constraint.
#[cycle(syntax)]
pub struct FromItem {
    pub join: Join,
    pub source: Source,
    pub alias: Option<Token>,
    pub constraint: JoinConstraint,
}

impl Drop for FromItem {
    #[cycle(dropping)]
    fn drop(self) {
        let FromItem {
            join: _,
            source,
            alias: _,
            constraint,
        } = self;
        drop(source);
        drop(constraint);
    }
}

/// Where the rows of an item come from.
#[cycle(syntax)]
pub enum Source {
    /// A table by its name, with the arguments in its parentheses if it has some.
    Table(Token, Option<Items<Expr>>),
    /// `(query)`, a derived table
    Derived(Boxed<Query>),
}

impl Drop for Source {
    #[cycle(dropping)]
    fn drop(self) {
        match self {
            Source::Table(_, a) => drop(a),
            Source::Derived(a) => drop(a),
        }
    }
}

/// Which rows a join keeps.
#[cycle(syntax)]
pub enum JoinConstraint {
    Unconstrained,
    /// `ON condition`
    On(Expr),
    /// `USING (column, ..)`, of one column at least
    Using(Items<Token>),
}

impl Drop for JoinConstraint {
    #[cycle(dropping)]
    fn drop(self) {
        match self {
            JoinConstraint::Unconstrained => {}
            JoinConstraint::On(a) => drop(a),
            JoinConstraint::Using(a) => drop(a),
        }
    }
}

/// `expr [ASC | DESC] [NULLS FIRST | NULLS LAST]`
#[cycle(syntax)]
pub struct OrderingTerm {
    pub key: SpannedExpr,
    pub descending: bool,
    pub nulls: Option<NullsOrder>,
}

impl Drop for OrderingTerm {
    #[cycle(dropping)]
    fn drop(self) {
        let OrderingTerm {
            key,
            descending: _,
            nulls: _,
        } = self;
        drop(key);
    }
}

/// `LIMIT count [OFFSET offset]`
#[cycle(syntax)]
pub struct RowLimit {
    pub count: Expr,
    pub offset: Option<Expr>,
}

impl Drop for RowLimit {
    #[cycle(dropping)]
    fn drop(self) {
        let RowLimit { count, offset } = self;
        drop(count);
        drop(offset);
    }
}
