// Why a statement is refused.
ghost use Rattle.std.specs.Prelude.{◌≡◌, ◌++◌, codes, OnOk};
ghost use Rattle.std.specs.Fmt.{decimal};
ghost use Rattle.eng_value.specs.CauseText.{code_of, constraint_words, kind_word, limit_words, text_of, transaction_words};
ghost use Rattle.eng_value.specs.declared.cause.Cause.TheVariants.{Mem};

use crate::Text;
use itoa::Buffer;
use std::alloc::AllocError;

/// What a name is the name of.
#[derive(Clone, Copy, Debug, PartialEq, Eq)]
pub enum NameKind {
    Table,
    Column,
    Function,
    Collation,
    Pragma,
    Module,
    Index,
    View,
    Trigger,
    Savepoint,
}

impl NameKind {
    /// The word for it.
    pub fn word(self) -> &'static str
        ensures { result.now ≡ kind_word self }
    {
        match self {
            NameKind::Table => "table",
            NameKind::Column => "column",
            NameKind::Function => "function",
            NameKind::Collation => "collation",
            NameKind::Pragma => "pragma",
            NameKind::Module => "module",
            NameKind::Index => "index",
            NameKind::View => "view",
            NameKind::Trigger => "trigger",
            NameKind::Savepoint => "savepoint",
        }
    }
}

/// What there may not be too much of (Implementation Limits For SQLite; the numbers are this engine's).
#[derive(Clone, Copy, Debug, PartialEq, Eq)]
pub enum LimitKind {
    /// Columns of a table, a result or a list of values: `MAX_COLUMNS`.
    Columns,
    /// Brackets and CASEs that are open at one place.
    Nestings,
    /// Operators of an outermost expression with its queries.
    Operators,
    /// Parts of a compound query.
    Parts,
    /// Items of a FROM.
    Items,
    /// Queries within one another, views opened.
    Queries,
    /// Rows of a recursive table.
    Rows,
    /// Queries that a function asks in one call.
    Asks,
}

impl LimitKind {
    /// The number and the word for it.
    pub fn words(self) -> &'static str
        ensures { result.now ≡ limit_words self }
    {
        match self {
            LimitKind::Columns => "100 columns",
            LimitKind::Nestings => "100 nestings",
            LimitKind::Operators => "1000 operators",
            LimitKind::Parts => "500 parts",
            LimitKind::Items => "16 items",
            LimitKind::Queries => "20 queries",
            LimitKind::Rows => "1000000 rows",
            LimitKind::Asks => "16 asks",
        }
    }
}

/// What a row of a table must hold.
#[derive(Clone, Copy, Debug, PartialEq, Eq)]
pub enum ConstraintKind {
    NotNull,
    Check,
    Unique,
}

impl ConstraintKind {
    /// The words for it.
    pub fn words(self) -> &'static str
        ensures { result.now ≡ constraint_words self }
    {
        match self {
            ConstraintKind::NotNull => "NOT NULL",
            ConstraintKind::Check => "CHECK",
            ConstraintKind::Unique => "UNIQUE",
        }
    }
}

/// Why a statement is refused. Each cause has a result code (Result and Error Codes) and a text.
#[derive(Debug)]
pub enum Cause {
    /// The statement holds a construct that is not built yet.
    NotYet,
    /// No memory was found.
    Mem,
    /// So many instructions were run, and that is the budget.
    Interrupted(u64),
    /// The sink for the rows failed.
    SinkFault,
    /// A number is no integer of 64 bits, and there is no REAL.
    Real,
    /// An integer leaves the 64 bits.
    Overflow,
    /// A blob that is cast to TEXT is not UTF-8.
    NotText,
    /// The ESCAPE of a LIKE is not one character.
    Escape,
    /// A text or a blob would have more bytes than `MAX_VALUE_BYTES`.
    TooBig,
    /// A row of this table would need a rowid above the largest.
    Full(Text),
    /// Nothing of this kind has the name.
    Unknown(NameKind, Text),
    /// Something of this kind has the name already.
    Exists(NameKind, Text),
    /// The name is none that a statement may give.
    Reserved(Text),
    /// What the name stands for is given another number of values than it takes.
    Arity(Text),
    /// What the name stands for may not stand there.
    Misuse(Text),
    /// There is too much of this.
    Limit(LimitKind),
    /// The token at this byte of the statement's text cannot stand there; at the text's length, more is missing.
    Syntax(usize),
    /// The row that is written is left as it is. It is named by none who may name another.
    Skip,
    /// Two columns of the nearest FROM have the name.
    Ambiguous(Text),
    /// This column of a grouped query is neither grouped nor in an aggregate.
    BareColumn(Text),
    /// This host failed.
    Fault(Text),
    /// The action of this number, counted from 1, is the first that the authorizer denies.
    Denied(usize),
    /// A row of this table fails a constraint of this kind.
    Constraint(ConstraintKind, Text),
    /// A rowid is no integer.
    Mismatch,
    /// A host refused the call and said why.
    HostRefused(Text),
    /// A host of a table refused the call and said why.
    ModuleRefused(Text),
    /// One trigger more would run within this many.
    TriggerDepth(u64),
    /// Whether a transaction is open, where none may be or one must be.
    TransactionState(bool),
    /// An argument that this host of a table needs is not given.
    NoPlan(Text),
    /// The plan of this host of a table is not one of those that it was asked for.
    BestIndex(Text),
    /// The table is read by the open statement of this number.
    Locked(Text, u64),
    /// A trigger ends the statement with this text (CREATE TRIGGER, The RAISE() function).
    Raise(Text),
    /// The hook of commits did not go on.
    CommitRefused,
    /// The statement gives no rows.
    NotQuery,
    /// No open statement has the number.
    NoSuchStatement(u64),
    /// As many statements are open as may be.
    StatementsFull,
}

impl Cause {
    /// The result code.
    pub fn code(&self) -> u8
        ensures { result ≡ code_of self.now }
    {
        match self {
            Cause::Locked(..) => 6,
            Cause::Mem => 7,
            Cause::Interrupted(_) => 9,
            Cause::SinkFault => 10,
            Cause::Fault(_) => 10,
            Cause::Full(_) => 13,
            Cause::TooBig => 18,
            Cause::Constraint(..) => 19,
            Cause::Raise(_) => 19,
            Cause::CommitRefused => 19,
            Cause::Mismatch => 20,
            Cause::NotQuery => 21,
            Cause::NoSuchStatement(_) => 21,
            Cause::StatementsFull => 21,
            Cause::Denied(_) => 23,
            _ => 1,
        }
    }

    /// Writes the text behind `out`.
    pub fn write_text(&self, out: &mut Vec<u8>) -> Result<(), AllocError>
        ensures { OnOk result (out.new.items ≡ out.old.items ++ text_of self.now) }
    {
        match self {
            Cause::NotYet => out.extend_from_slice(b"not built yet"),
            Cause::Mem => out.extend_from_slice(b"out of memory"),
            Cause::Interrupted(n) => append_interrupted(out, *n),
            Cause::SinkFault => Ok(()),
            Cause::Real => out.extend_from_slice(b"REAL is not supported"),
            Cause::Overflow => out.extend_from_slice(b"integer overflow"),
            Cause::NotText => out.extend_from_slice(b"blob is not text"),
            Cause::Escape => out.extend_from_slice(b"ESCAPE must be one character"),
            Cause::TooBig => out.extend_from_slice(b"value longer than 1000000 bytes"),
            Cause::Full(table) => append_both(out, b"table is full: ", table.as_bytes()),
            Cause::Unknown(kind, name) => append_unknown(out, *kind, name),
            Cause::Exists(kind, name) => append_exists(out, *kind, name),
            Cause::Reserved(name) => append_both(out, b"reserved name: ", name.as_bytes()),
            Cause::Arity(name) => append_both(out, b"wrong number of values: ", name.as_bytes()),
            Cause::Misuse(name) => append_both(out, b"misuse of: ", name.as_bytes()),
            Cause::Limit(kind) => append_both(out, b"limit of ", kind.words().as_bytes()),
            Cause::Syntax(at) => append_both(
                out,
                b"syntax error at byte ",
                Buffer::new().format(*at).as_bytes(),
            ),
            Cause::Skip => Ok(()),
            Cause::Ambiguous(name) => {
                append_both(out, b"ambiguous column name: ", name.as_bytes())
            }
            Cause::BareColumn(name) => {
                append_both(out, b"column outside aggregate: ", name.as_bytes())
            }
            Cause::Fault(host) => append_both(out, b"fault of ", host.as_bytes()),
            Cause::Denied(action) => append_both(
                out,
                b"denied: action ",
                Buffer::new().format(*action).as_bytes(),
            ),
            Cause::Constraint(kind, table) => append_failed(out, *kind, table),
            Cause::Mismatch => out.extend_from_slice(b"datatype mismatch"),
            Cause::HostRefused(text) => out.extend_from_slice(text.as_bytes()),
            Cause::ModuleRefused(text) => out.extend_from_slice(text.as_bytes()),
            Cause::TriggerDepth(most) => append_both(
                out,
                b"trigger depth over ",
                Buffer::new().format(*most).as_bytes(),
            ),
            Cause::TransactionState(inside) => {
                out.extend_from_slice(transaction_words(*inside).as_bytes())
            }
            Cause::NoPlan(module) => append_both(out, b"missing argument of ", module.as_bytes()),
            Cause::BestIndex(module) => {
                append_both(out, b"bad index answer of ", module.as_bytes())
            }
            Cause::Locked(table, number) => append_locked(out, table, *number),
            Cause::Raise(text) => out.extend_from_slice(text.as_bytes()),
            Cause::CommitRefused => out.extend_from_slice(b"commit refused by hook"),
            Cause::NotQuery => out.extend_from_slice(b"not a query"),
            Cause::NoSuchStatement(number) => append_both(
                out,
                b"no statement ",
                Buffer::new().format(*number).as_bytes(),
            ),
            Cause::StatementsFull => out.extend_from_slice(b"sixteen statements are open"),
        }
    }
}

/// Whether a transaction is open, in words.
pub(crate) fn transaction_words(inside: bool) -> &'static str
    ensures { result.now ≡ transaction_words inside }
{
    if inside {
        "a transaction is open"
    } else {
        "no transaction is open"
    }
}

/// Writes one text and then another behind `out`.
fn append_both(out: &mut Vec<u8>, first: &[u8], second: &[u8]) -> Result<(), AllocError>
    ensures { OnOk result (out.new.items ≡ out.old.items ++ (first.now ++ second.now)) }
{
    out.extend_from_slice(first)?;
    out.extend_from_slice(second)?;
    Ok(())
}

/// Writes that nothing of this kind has the name.
fn append_unknown(out: &mut Vec<u8>, kind: NameKind, name: &Text) -> Result<(), AllocError>
    ensures { OnOk result (out.new.items ≡ out.old.items ++ (codes "no such " ++ kind_word kind ++ codes ": " ++ name.now)) }
{
    out.extend_from_slice(b"no such ")?;
    out.extend_from_slice(kind.word().as_bytes())?;
    append_both(out, b": ", name.as_bytes())
}

/// Writes that something of this kind has the name already.
fn append_exists(out: &mut Vec<u8>, kind: NameKind, name: &Text) -> Result<(), AllocError>
    ensures { OnOk result (out.new.items ≡ out.old.items ++ (kind_word kind ++ (codes " already exists: " ++ name.now))) }
{
    out.extend_from_slice(kind.word().as_bytes())?;
    out.extend_from_slice(b" already exists: ")?;
    out.extend_from_slice(name.as_bytes())?;
    Ok(())
}

/// Writes that a row of this table fails a constraint of this kind.
fn append_failed(out: &mut Vec<u8>, kind: ConstraintKind, table: &Text) -> Result<(), AllocError>
    ensures { OnOk result (out.new.items ≡ out.old.items ++ (constraint_words kind ++ (codes " constraint failed: " ++ table.now))) }
{
    out.extend_from_slice(kind.words().as_bytes())?;
    out.extend_from_slice(b" constraint failed: ")?;
    out.extend_from_slice(table.as_bytes())?;
    Ok(())
}

/// Writes that the open statement of this number reads the table.
fn append_locked(out: &mut Vec<u8>, table: &Text, number: u64) -> Result<(), AllocError>
    ensures { OnOk result (out.new.items ≡
        out.old.items ++ (codes "table " ++ table.now ++ codes " is read by statement " ++ decimal number)) }
{
    out.extend_from_slice(b"table ")?;
    out.extend_from_slice(table.as_bytes())?;
    out.extend_from_slice(b" is read by statement ")?;
    out.extend_from_slice(Buffer::new().format(number).as_bytes())?;
    Ok(())
}

/// Writes the text of an interruption behind `out`.
fn append_interrupted(out: &mut Vec<u8>, instructions: u64) -> Result<(), AllocError>
    ensures { OnOk result (out.new.items ≡
        out.old.items ++ (codes "interrupted after " ++ decimal instructions ++ codes " instructions")) }
{
    out.extend_from_slice(b"interrupted after ")?;
    out.extend_from_slice(Buffer::new().format(instructions).as_bytes())?;
    out.extend_from_slice(b" instructions")?;
    Ok(())
}

impl Clone for Cause {
    ghost is_clone = { λ source copy. copy ≡ source };

    fn clone(&self) -> Result<Cause, AllocError> {
        match self {
            Cause::NotYet => Ok(Cause::NotYet),
            Cause::Mem => Ok(Cause::Mem),
            Cause::Interrupted(n) => Ok(Cause::Interrupted(*n)),
            Cause::SinkFault => Ok(Cause::SinkFault),
            Cause::Real => Ok(Cause::Real),
            Cause::Overflow => Ok(Cause::Overflow),
            Cause::NotText => Ok(Cause::NotText),
            Cause::Escape => Ok(Cause::Escape),
            Cause::TooBig => Ok(Cause::TooBig),
            Cause::Full(table) => Ok(Cause::Full(table.clone()?)),
            Cause::Unknown(kind, name) => Ok(Cause::Unknown(*kind, name.clone()?)),
            Cause::Exists(kind, name) => Ok(Cause::Exists(*kind, name.clone()?)),
            Cause::Reserved(name) => Ok(Cause::Reserved(name.clone()?)),
            Cause::Arity(name) => Ok(Cause::Arity(name.clone()?)),
            Cause::Misuse(name) => Ok(Cause::Misuse(name.clone()?)),
            Cause::Limit(kind) => Ok(Cause::Limit(*kind)),
            Cause::Syntax(at) => Ok(Cause::Syntax(*at)),
            Cause::Skip => Ok(Cause::Skip),
            Cause::Ambiguous(name) => Ok(Cause::Ambiguous(name.clone()?)),
            Cause::BareColumn(name) => Ok(Cause::BareColumn(name.clone()?)),
            Cause::Fault(host) => Ok(Cause::Fault(host.clone()?)),
            Cause::Denied(action) => Ok(Cause::Denied(*action)),
            Cause::Constraint(kind, table) => Ok(Cause::Constraint(*kind, table.clone()?)),
            Cause::Mismatch => Ok(Cause::Mismatch),
            Cause::HostRefused(text) => Ok(Cause::HostRefused(text.clone()?)),
            Cause::ModuleRefused(text) => Ok(Cause::ModuleRefused(text.clone()?)),
            Cause::TriggerDepth(most) => Ok(Cause::TriggerDepth(*most)),
            Cause::TransactionState(inside) => Ok(Cause::TransactionState(*inside)),
            Cause::NoPlan(module) => Ok(Cause::NoPlan(module.clone()?)),
            Cause::BestIndex(module) => Ok(Cause::BestIndex(module.clone()?)),
            Cause::Locked(table, number) => Ok(Cause::Locked(table.clone()?, *number)),
            Cause::Raise(text) => Ok(Cause::Raise(text.clone()?)),
            Cause::CommitRefused => Ok(Cause::CommitRefused),
            Cause::NotQuery => Ok(Cause::NotQuery),
            Cause::NoSuchStatement(number) => Ok(Cause::NoSuchStatement(*number)),
            Cause::StatementsFull => Ok(Cause::StatementsFull),
        }
    }
}

// By hand, so that what drops a cause calls this, and no proof goes through its variants again.
impl Drop for Cause {
    fn drop(self) {
        match self {
            Cause::NotYet => {}
            Cause::Mem => {}
            Cause::Interrupted(_) => {}
            Cause::SinkFault => {}
            Cause::Real => {}
            Cause::Overflow => {}
            Cause::NotText => {}
            Cause::Escape => {}
            Cause::TooBig => {}
            Cause::Full(table) => drop(table),
            Cause::Unknown(_, name) => drop(name),
            Cause::Exists(_, name) => drop(name),
            Cause::Reserved(name) => drop(name),
            Cause::Arity(name) => drop(name),
            Cause::Misuse(name) => drop(name),
            Cause::Limit(_) => {}
            Cause::Syntax(_) => {}
            Cause::Skip => {}
            Cause::Ambiguous(name) => drop(name),
            Cause::BareColumn(name) => drop(name),
            Cause::Fault(host) => drop(host),
            Cause::Denied(_) => {}
            Cause::Constraint(_, table) => drop(table),
            Cause::Mismatch => {}
            Cause::HostRefused(text) => drop(text),
            Cause::ModuleRefused(text) => drop(text),
            Cause::TriggerDepth(_) => {}
            Cause::TransactionState(_) => {}
            Cause::NoPlan(module) => drop(module),
            Cause::BestIndex(module) => drop(module),
            Cause::Locked(table, _) => drop(table),
            Cause::Raise(text) => drop(text),
            Cause::CommitRefused => {}
            Cause::NotQuery => {}
            Cause::NoSuchStatement(_) => {}
            Cause::StatementsFull => {}
        }
    }
}

impl From<AllocError> for Cause {
    ghost from_gives = { λ _ cause. cause ≡ Mem };

    fn from(_: AllocError) -> Cause {
        Cause::Mem
    }
}
