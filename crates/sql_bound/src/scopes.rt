// What names are looked up in, and what is gathered on the way, as plain data. Drops of what lists hold are written out, since those that
// are derived would be proved again in each library above.
use bound_tree::{BoundAggregate, BoundExpr, BoundUnit};
use eng_value::{Affinity, Collation, Text};
use sqlite_items::Items;

/// A column as names find it: its name as declared, what it carries, and what it stands for over its FROM; joined where USING or NATURAL
/// shows another in its place, hidden where `*` does not show it.
#[derive(Drop)]
pub struct ScopeColumn {
    pub name: Text,
    pub affinity: Affinity,
    pub collation: Collation,
    pub tree: BoundExpr,
    pub joined: bool,
    pub hidden: bool,
}

/// An item of a FROM as names find it: the name by which its columns may be called, if it has one, its columns, its rowid, if it has one,
/// and whether its columns may be called by their own names alone, which those of OLD and NEW may not.
#[derive(Drop)]
pub struct ScopeItem {
    pub name: Option<Text>,
    pub columns: Items<ScopeColumn>,
    pub rowid: Option<ScopeColumn>,
    pub bare: bool,
}

/// A column, and how many FROMs lie between.
#[derive(Drop)]
pub struct Sight {
    pub up: u32,
    pub column: ScopeColumn,
}

/// What a query needs of the FROM that is so many further out: 0 is the FROM in which it is asked.
#[derive(Drop)]
pub struct Need {
    pub up: u32,
    pub tree: BoundExpr,
}

/// What is gathered: the units of the statement so far, what the query needs from further out, and the aggregates of the core.
#[derive(Drop)]
pub struct Work {
    pub units: Items<BoundUnit>,
    pub needs: Items<Need>,
    pub aggregates: Items<BoundAggregate>,
}

/// A column that a query gives: its name, and the affinity, the written collation and the column's collation of what it stands for.
pub struct ResultColumn {
    pub name: Text,
    pub affinity: Affinity,
    pub explicit: Option<Collation>,
    pub column: Option<Collation>,
}

impl Drop for ResultColumn {
    fn drop(self) {
        let ResultColumn {
            name,
            affinity: _,
            explicit: _,
            column: _,
        } = self;
        drop(name);
    }
}

/// A query's unit, what it needs, and the columns that it gives.
#[derive(Drop)]
pub struct Asked {
    pub unit: u32,
    pub needs: Items<Need>,
    pub columns: Items<ResultColumn>,
}

/// What the name of a WITH table means: the table that is being written, which may not be named where the name is met; or a table by its
/// unit, whether it is recursive, and what it needs beside the FROM of the query in whose WITH it is written, and the columns that it gives.
pub enum WithMeaning {
    Itself,
    Bound(u32, bool, Items<Need>, Items<ResultColumn>),
}

impl Drop for WithMeaning {
    fn drop(self) {
        match self {
            WithMeaning::Itself => {}
            WithMeaning::Bound(_, _, a, b) => {
                drop(a);
                drop(b);
            }
        }
    }
}

/// A WITH table by its name; around says how many FROMs there are around the query in whose WITH it is written.
pub struct WithEntry {
    pub name: Text,
    pub around: u32,
    pub meaning: WithMeaning,
}

impl Drop for WithEntry {
    fn drop(self) {
        let WithEntry {
            name,
            around: _,
            meaning,
        } = self;
        drop(name);
        drop(meaning);
    }
}

/// What may stand in an expression: functions of hosts, queries, columns, parameters and RAISE.
#[derive(Clone, Copy)]
pub struct Allowed {
    pub hosts: bool,
    pub queries: bool,
    pub columns: bool,
    pub parameters: bool,
    pub raises: bool,
}

/// Where aggregates may stand they are taken by the query.
#[derive(Clone, Copy)]
pub enum Standing {
    Taken,
    Nowhere,
}

/// What an operator asks of an operand beside its value.
#[derive(Clone, Copy)]
pub enum Form {
    Plain,
    /// 9223372036854775808, which a minus in front makes the least integer.
    LeastMagnitude,
    /// TRUE or FALSE, which IS tests for.
    Truth(bool),
}

/// An expression whose names are bound: its tree; its affinity; the collation of the leftmost COLLATE in it; that of the column that it
/// is; its form; and the name of the column that it is.
#[derive(Drop)]
pub struct Operand {
    pub tree: BoundExpr,
    pub affinity: Affinity,
    pub explicit: Option<Collation>,
    pub column: Option<Collation>,
    pub form: Form,
    pub name: Option<Text>,
}

/// `WHEN condition THEN value`
#[derive(Drop)]
pub struct ArmOperands {
    pub condition: Operand,
    pub value: Operand,
}
