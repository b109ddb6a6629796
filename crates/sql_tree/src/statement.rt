// Trees of statements (SQL As Understood By SQLite). Names are told by their tokens; what means nothing, as the name of a
// constraint, is not told.
use crate::{Expr, Query, Span, Token, TypeName};
use sqlite_items::Items;

/// A statement, with what EXPLAIN asks of it. Whether a `;` ended it is not told.
pub struct Statement {
    pub explain: Option<Explain>,
    pub command: Command,
}

impl Drop for Statement {
    fn drop(self) {
        let Statement {
            explain: _,
            command,
        } = self;
        drop(command);
    }
}

/// What EXPLAIN gives in the place of a statement's rows (EXPLAIN, EXPLAIN QUERY PLAN).
#[derive(Clone, Copy, PartialEq, Eq)]
pub enum Explain {
    /// Its instructions.
    Instructions,
    QueryPlan,
}

/// What a statement does.
pub enum Command {
    Rows(RowCommand),
    Create(Create),
    Remove(Remove),
    Transaction(Transaction),
    Pragma(Pragma),
}

impl Drop for Command {
    fn drop(self) {
        match self {
            Command::Rows(a) => drop(a),
            Command::Create(a) => drop(a),
            Command::Remove(_) => {}
            Command::Transaction(_) => {}
            Command::Pragma(_) => {}
        }
    }
}

/// Reading or changing rows: a statement of its own, or one in the body of a trigger.
pub enum RowCommand {
    Query(Query),
    Insert(Insert),
    Update(Update),
    Delete(Delete),
}

impl Drop for RowCommand {
    fn drop(self) {
        match self {
            RowCommand::Query(a) => drop(a),
            RowCommand::Insert(a) => drop(a),
            RowCommand::Update(a) => drop(a),
            RowCommand::Delete(a) => drop(a),
        }
    }
}

/// What a write does where a constraint fails (ON CONFLICT). ABORT is what comes with no word.
#[derive(Clone, Copy, PartialEq, Eq)]
pub enum ConflictChoice {
    Abort,
    Ignore,
    Replace,
}

/// `INSERT INTO table (column, ..) source`; no columns stand for all. REPLACE is INSERT OR REPLACE.
pub struct Insert {
    pub choice: ConflictChoice,
    pub table: Token,
    pub columns: Items<Token>,
    pub source: InsertSource,
}

impl Drop for Insert {
    fn drop(self) {
        let Insert {
            choice: _,
            table: _,
            columns,
            source,
        } = self;
        drop(columns);
        drop(source);
    }
}

/// What INSERT puts.
pub enum InsertSource {
    /// The rows of a query; VALUES is one.
    Query(Query),
    /// DEFAULT VALUES: one row of defaults.
    Defaults,
}

impl Drop for InsertSource {
    fn drop(self) {
        match self {
            InsertSource::Query(a) => drop(a),
            InsertSource::Defaults => {}
        }
    }
}

/// `UPDATE table SET column = value, .. [WHERE filter]`, of one assignment at least
pub struct Update {
    pub choice: ConflictChoice,
    pub table: Token,
    pub assignments: Items<Assignment>,
    pub filter: Option<Expr>,
}

impl Drop for Update {
    fn drop(self) {
        let Update {
            choice: _,
            table: _,
            assignments,
            filter,
        } = self;
        drop(assignments);
        drop(filter);
    }
}

/// `column = value`
pub struct Assignment {
    pub column: Token,
    pub value: Expr,
}

impl Drop for Assignment {
    fn drop(self) {
        let Assignment { column: _, value } = self;
        drop(value);
    }
}

/// `DELETE FROM table [WHERE filter]`
pub struct Delete {
    pub table: Token,
    pub filter: Option<Expr>,
}

impl Drop for Delete {
    fn drop(self) {
        let Delete { table: _, filter } = self;
        drop(filter);
    }
}

/// `CREATE .. [IF NOT EXISTS] name ..`, with its text from CREATE to the last token.
pub struct Create {
    pub if_not_exists: bool,
    pub name: Token,
    pub definition: Definition,
    pub text: Span,
}

impl Drop for Create {
    fn drop(self) {
        let Create {
            if_not_exists: _,
            name: _,
            definition,
            text: _,
        } = self;
        drop(definition);
    }
}

/// What CREATE makes.
pub enum Definition {
    Table(TableDefinition),
    Index(IndexDefinition),
    View(ViewDefinition),
    Trigger(TriggerDefinition),
    VirtualTable(VirtualTableDefinition),
}

impl Drop for Definition {
    fn drop(self) {
        match self {
            Definition::Table(a) => drop(a),
            Definition::Index(a) => drop(a),
            Definition::View(a) => drop(a),
            Definition::Trigger(a) => drop(a),
            Definition::VirtualTable(a) => drop(a),
        }
    }
}

/// `(column, .., constraint, ..)`, of one column at least (CREATE TABLE)
pub struct TableDefinition {
    pub columns: Items<ColumnDefinition>,
    pub constraints: Items<TableConstraint>,
}

impl Drop for TableDefinition {
    fn drop(self) {
        let TableDefinition {
            columns,
            constraints,
        } = self;
        drop(columns);
        drop(constraints);
    }
}

/// A column's name, with its type and its constraints if any.
pub struct ColumnDefinition {
    pub name: Token,
    pub type_name: Option<TypeName>,
    pub constraints: Items<ColumnConstraint>,
}

impl Drop for ColumnDefinition {
    fn drop(self) {
        let ColumnDefinition {
            name: _,
            type_name,
            constraints,
        } = self;
        drop(type_name);
        drop(constraints);
    }
}

/// A constraint behind a column.
pub enum ColumnConstraint {
    PrimaryKey,
    NotNull,
    /// NULL, which constrains nothing
    Null,
    Unique,
    Check(Expr),
    Default(Expr),
    Collate(Token),
}

impl Drop for ColumnConstraint {
    fn drop(self) {
        match self {
            ColumnConstraint::PrimaryKey => {}
            ColumnConstraint::NotNull => {}
            ColumnConstraint::Null => {}
            ColumnConstraint::Unique => {}
            ColumnConstraint::Check(a) => drop(a),
            ColumnConstraint::Default(a) => drop(a),
            ColumnConstraint::Collate(_) => {}
        }
    }
}

/// A constraint behind the columns. A key has one column at least, and none of it descends.
pub enum TableConstraint {
    PrimaryKey(Items<IndexedColumn>),
    Unique(Items<IndexedColumn>),
    Check(Expr),
}

impl Drop for TableConstraint {
    fn drop(self) {
        match self {
            TableConstraint::PrimaryKey(a) => drop(a),
            TableConstraint::Unique(a) => drop(a),
            TableConstraint::Check(a) => drop(a),
        }
    }
}

/// `name [COLLATE collation] [ASC | DESC]`
#[derive(Clone, Copy, PartialEq, Eq)]
pub struct IndexedColumn {
    pub name: Token,
    pub collation: Option<Token>,
    pub descending: bool,
}

/// `[UNIQUE] INDEX .. ON table (column, ..)`, of one column at least (CREATE INDEX)
pub struct IndexDefinition {
    pub unique: bool,
    pub table: Token,
    pub columns: Items<IndexedColumn>,
}

impl Drop for IndexDefinition {
    fn drop(self) {
        let IndexDefinition {
            unique: _,
            table: _,
            columns,
        } = self;
        drop(columns);
    }
}

/// `VIEW .. [(column, ..)] AS query` (CREATE VIEW)
pub struct ViewDefinition {
    pub columns: Items<Token>,
    pub query: Query,
}

impl Drop for ViewDefinition {
    fn drop(self) {
        let ViewDefinition { columns, query } = self;
        drop(columns);
        drop(query);
    }
}

/// `TRIGGER .. time event ON table [WHEN condition] BEGIN command; .. END`, of one command at least (CREATE TRIGGER)
pub struct TriggerDefinition {
    pub time: TriggerTime,
    pub event: TriggerEvent,
    pub table: Token,
    pub condition: Option<Expr>,
    pub body: Items<RowCommand>,
}

impl Drop for TriggerDefinition {
    fn drop(self) {
        let TriggerDefinition {
            time: _,
            event,
            table: _,
            condition,
            body,
        } = self;
        drop(event);
        drop(condition);
        drop(body);
    }
}

/// When a trigger fires. BEFORE is what comes with no word.
#[derive(Clone, Copy, PartialEq, Eq)]
pub enum TriggerTime {
    Before,
    After,
    InsteadOf,
}

/// What a trigger fires at.
pub enum TriggerEvent {
    Delete,
    Insert,
    /// UPDATE OF column, ..; no columns stand for all.
    Update(Items<Token>),
}

impl Drop for TriggerEvent {
    fn drop(self) {
        match self {
            TriggerEvent::Delete => {}
            TriggerEvent::Insert => {}
            TriggerEvent::Update(a) => drop(a),
        }
    }
}

/// `VIRTUAL TABLE .. USING module (argument, ..)` (CREATE VIRTUAL TABLE)
pub struct VirtualTableDefinition {
    pub module_name: Token,
    /// The text of each argument, from its first token to its last one; none where it has no token.
    pub arguments: Items<Option<Span>>,
}

impl Drop for VirtualTableDefinition {
    fn drop(self) {
        let VirtualTableDefinition {
            module_name: _,
            arguments,
        } = self;
        drop(arguments);
    }
}

/// `DROP kind [IF EXISTS] name`
#[derive(Clone, Copy, PartialEq, Eq)]
pub struct Remove {
    pub kind: ObjectKind,
    pub if_exists: bool,
    pub name: Token,
}

/// What DROP takes out.
#[derive(Clone, Copy, PartialEq, Eq)]
pub enum ObjectKind {
    Table,
    Index,
    View,
    Trigger,
}

/// BEGIN, END and what stands between them (Transaction, SAVEPOINT). DEFERRED, IMMEDIATE and EXCLUSIVE mean nothing.
#[derive(Clone, Copy, PartialEq, Eq)]
pub enum Transaction {
    Begin,
    Commit,
    Rollback,
    RollbackTo(Token),
    Savepoint(Token),
    Release(Token),
}

/// `PRAGMA name [= value]`
#[derive(Clone, Copy, PartialEq, Eq)]
pub struct Pragma {
    pub name: Token,
    pub value: Option<Token>,
}
