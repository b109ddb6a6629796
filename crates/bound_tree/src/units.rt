// Statements whose names are bound: a flat list of units, each of which asks only units in front of it, the triggers, and the command.
// Drops are written out, since those that are derived would be proved again in each library above.
use crate::BoundExpr;
use eng_value::{Affinity, Collation, ColumnKind, Text};
use sql_tree::CompoundOp;
use sqlite_items::Items;

// ---- FROM

/// A column of an item, a view or a query: its name, its affinity, and the collation by which it compares where no other is written.
pub struct BoundColumn {
    pub name: Text,
    pub affinity: Affinity,
    pub collation: Collation,
}

impl Drop for BoundColumn {
    fn drop(self) {
        let BoundColumn {
            name,
            affinity: _,
            collation: _,
        } = self;
        drop(name);
    }
}

/// A part of an index: the place of its column.
#[derive(Clone, Copy, PartialEq, Eq)]
pub struct IndexPart {
    pub column: u32,
    pub collation: Collation,
    pub descending: bool,
}

/// An index of a table: one that was created by its number and name, or a key that the table declares.
pub struct BoundIndex {
    pub number: u64,
    pub name: Text,
    pub unique: bool,
    pub parts: Items<IndexPart>,
}

impl Drop for BoundIndex {
    fn drop(self) {
        let BoundIndex {
            number: _,
            name,
            unique: _,
            parts,
        } = self;
        drop(name);
        drop(parts);
    }
}

/// Where the rows of an item come from; a number that follows is that of a unit, with what is handed over to it.
pub enum BoundSource {
    /// No other item: a row that is handed over, as OLD and NEW.
    Given,
    /// A table by its name and number.
    Table(Text, u64),
    /// A table of a module: its name, the module, the table's number there, and the arguments.
    Module(Text, Text, u64, Items<BoundExpr>),
    View(Text, u32),
    Query(u32, Items<BoundExpr>),
    With(u32, Items<BoundExpr>),
    Recursive(u32, Items<BoundExpr>),
    /// The row that was taken out of the queue, in the part of a recursive table that names it.
    Queue,
}

impl Drop for BoundSource {
    fn drop(self) {
        match self {
            BoundSource::Given => {}
            BoundSource::Table(a, _) => drop(a),
            BoundSource::Module(a, b, _, c) => {
                drop(a);
                drop(b);
                drop(c);
            }
            BoundSource::View(a, _) => drop(a),
            BoundSource::Query(_, a) => drop(a),
            BoundSource::With(_, a) => drop(a),
            BoundSource::Recursive(_, a) => drop(a),
            BoundSource::Queue => {}
        }
    }
}

/// How an item is joined with those on its left.
#[derive(Clone, Copy, PartialEq, Eq)]
pub enum JoinKind {
    Inner,
    Left,
}

/// An item of a FROM.
pub struct BoundItem {
    pub join: JoinKind,
    /// The conjuncts of its ON, or those that USING and NATURAL make, which read nothing that is named.
    pub ons: Items<BoundExpr>,
    pub ons_made: bool,
    /// The name by which it is called.
    pub shown: Text,
    pub source: BoundSource,
    pub columns: Items<BoundColumn>,
    /// Of a module's table the kinds of its columns, which tell what is hidden and which arguments it must have.
    pub kinds: Items<ColumnKind>,
    /// Which of its columns is the rowid.
    pub rowid: Option<u32>,
    /// Oldest first.
    pub indexes: Items<BoundIndex>,
    /// Which columns read NULL since the authorizer ignores them; without a place that is the rowid.
    pub ignored: Items<Option<u32>>,
}

impl Drop for BoundItem {
    fn drop(self) {
        let BoundItem {
            join: _,
            ons,
            ons_made: _,
            shown,
            source,
            columns,
            kinds,
            rowid: _,
            indexes,
            ignored,
        } = self;
        drop(ons);
        drop(shown);
        drop(source);
        drop(columns);
        drop(kinds);
        drop(indexes);
        drop(ignored);
    }
}

// ---- groups

/// What an aggregate comes to.
pub enum AggregateKind {
    CountRows,
    Count,
    Sum,
    Min,
    Max,
    GroupConcat,
    HostAggregate(Text),
}

impl Drop for AggregateKind {
    fn drop(self) {
        match self {
            AggregateKind::CountRows => {}
            AggregateKind::Count => {}
            AggregateKind::Sum => {}
            AggregateKind::Min => {}
            AggregateKind::Max => {}
            AggregateKind::GroupConcat => {}
            AggregateKind::HostAggregate(a) => drop(a),
        }
    }
}

pub struct BoundAggregate {
    pub kind: AggregateKind,
    pub distinct: bool,
    pub collation: Collation,
    pub arguments: Items<BoundExpr>,
    pub filter: Option<BoundExpr>,
}

impl Drop for BoundAggregate {
    fn drop(self) {
        let BoundAggregate {
            kind,
            distinct: _,
            collation: _,
            arguments,
            filter,
        } = self;
        drop(kind);
        drop(arguments);
        drop(filter);
    }
}

pub struct BoundKey {
    pub expr: BoundExpr,
    pub collation: Collation,
}

impl Drop for BoundKey {
    fn drop(self) {
        let BoundKey { expr, collation: _ } = self;
        drop(expr);
    }
}

/// Results and HAVING are over the group's first row and the aggregates' slots.
pub struct BoundGroups {
    pub keys: Items<BoundKey>,
    pub aggregates: Items<BoundAggregate>,
    pub having: Items<BoundExpr>,
}

impl Drop for BoundGroups {
    fn drop(self) {
        let BoundGroups {
            keys,
            aggregates,
            having,
        } = self;
        drop(keys);
        drop(aggregates);
        drop(having);
    }
}

// ---- queries

/// A SELECT; by the collations DISTINCT compares its results.
pub struct BoundCore {
    pub items: Items<BoundItem>,
    pub conjuncts: Items<BoundExpr>,
    pub groups: Option<BoundGroups>,
    pub results: Items<BoundExpr>,
    pub collations: Items<Collation>,
    pub distinct: bool,
}

impl Drop for BoundCore {
    fn drop(self) {
        let BoundCore {
            items,
            conjuncts,
            groups,
            results,
            collations,
            distinct: _,
        } = self;
        drop(items);
        drop(conjuncts);
        drop(groups);
        drop(results);
        drop(collations);
    }
}

pub enum BoundPart {
    Select(BoundCore),
    Values(Items<Items<BoundExpr>>),
}

impl Drop for BoundPart {
    fn drop(self) {
        match self {
            BoundPart::Select(a) => drop(a),
            BoundPart::Values(a) => drop(a),
        }
    }
}

/// A part behind the first, with the collations by which its columns are compared with those in front.
pub struct BoundCompound {
    pub op: CompoundOp,
    pub part: BoundPart,
    pub collations: Items<Collation>,
}

impl Drop for BoundCompound {
    fn drop(self) {
        let BoundCompound {
            op: _,
            part,
            collations,
        } = self;
        drop(part);
        drop(collations);
    }
}

/// A result by its place, or an expression, which stands only where there is one part.
pub enum TermKey {
    Result(u32),
    Expression(BoundExpr),
}

impl Drop for TermKey {
    fn drop(self) {
        match self {
            TermKey::Result(_) => {}
            TermKey::Expression(a) => drop(a),
        }
    }
}

pub struct BoundTerm {
    pub key: TermKey,
    pub collation: Collation,
    pub descending: bool,
    pub nulls_first: bool,
}

impl Drop for BoundTerm {
    fn drop(self) {
        let BoundTerm {
            key,
            collation: _,
            descending: _,
            nulls_first: _,
        } = self;
        drop(key);
    }
}

/// A query.
pub struct BoundQuery {
    /// The innermost view or trigger in whose text it stands, which the authorizer is told.
    pub within: Option<Text>,
    /// How many arguments are handed over.
    pub arguments: u32,
    /// The units of the WITH tables that are written here.
    pub tables: Items<u32>,
    pub first: BoundPart,
    pub others: Items<BoundCompound>,
    pub order: Items<BoundTerm>,
    pub limit: Option<BoundExpr>,
    pub offset: Option<BoundExpr>,
    /// The columns that it gives.
    pub columns: Items<BoundColumn>,
}

impl Drop for BoundQuery {
    fn drop(self) {
        let BoundQuery {
            within,
            arguments: _,
            tables,
            first,
            others,
            order,
            limit,
            offset,
            columns,
        } = self;
        drop(within);
        drop(tables);
        drop(first);
        drop(others);
        drop(order);
        drop(limit);
        drop(offset);
        drop(columns);
    }
}

/// `first UNION [ALL] part`, where part takes its row from the queue; first may be a compound.
pub struct BoundRecursion {
    pub within: Option<Text>,
    pub arguments: u32,
    pub tables: Items<u32>,
    pub first: BoundPart,
    pub others: Items<BoundCompound>,
    pub all: bool,
    pub part: BoundCore,
    pub collations: Items<Collation>,
    pub limit: Option<BoundExpr>,
    pub offset: Option<BoundExpr>,
    pub columns: Items<BoundColumn>,
}

impl Drop for BoundRecursion {
    fn drop(self) {
        let BoundRecursion {
            within,
            arguments: _,
            tables,
            first,
            others,
            all: _,
            part,
            collations,
            limit,
            offset,
            columns,
        } = self;
        drop(within);
        drop(tables);
        drop(first);
        drop(others);
        drop(part);
        drop(collations);
        drop(limit);
        drop(offset);
        drop(columns);
    }
}

pub enum BoundUnit {
    Queried(BoundQuery),
    Recursed(BoundRecursion),
}

impl Drop for BoundUnit {
    fn drop(self) {
        match self {
            BoundUnit::Queried(a) => drop(a),
            BoundUnit::Recursed(a) => drop(a),
        }
    }
}
