// From the text of a statement to one that is ready to run.
ghost use Rattle.std.specs.Prelude.{◌≡◌, ℕ, All, IfErr, IfOk, Ok, Result, drop, length, true};
ghost use Rattle.std.specs.Str.{IsCharBoundary, is_utf8};
ghost use Rattle.bind_stmt.specs.Binds.{BindsTo};
ghost use Rattle.bind_stmt.specs.declared.statement.Bound.TheVariants as bound;
ghost use Rattle.eng_entry.specs.Entries.{Entries};
ghost use Rattle.eng_value.specs.declared.cause.Cause.{Cause};
ghost use Rattle.eng_value.specs.declared.cause.Cause.TheVariants.{Mem};
ghost use Rattle.engine.specs.Held.{world_in};
ghost use Rattle.engine.specs.Prepared.{CreatesNone, Prepares, Readies, StandsIn, cause_of, index_entry_in};
ghost use Rattle.sql_lex.specs.Cutting.{start_of};
ghost use Rattle.sql_lex.specs.Tokens.{InOrder, slice_of, tokens_of};
ghost use Rattle.sql_meaning.specs.Runnables.{Runnable};
ghost use Rattle.sql_meaning.specs.Declarations.{tables_of};
ghost use Rattle.sql_words.specs.Bodies.{end_of, without_end};
ghost use Rattle.sql_meaning.specs.Permits.{Asking, WhereAsked};
ghost use Rattle.sql_meaning.specs.Running.{entry_with};
ghost use Rattle.sql_meaning.specs.Statement.{limit_kind, plain_bound, text_bound, text_bound_from};
ghost use Rattle.sql_tree.specs.Sizes.{size_of_statement};
ghost use Rattle.vm_code.specs.Machine.{World as Lists};
ghost use Rattle.vm_core.specs.Meant.{meant};

use crate::schema::Schema;
use bind_asked::bind;
use bind_stmt::{Bound, DroppedTable, NewIndex, NewTable};
use bound_tree::BoundExpr;
use eng_catalog::{Entry, EntryKind};
use eng_value::{Cause, LimitKind, Text};
use parse_stmt::{Failure, parse};
use sql_grammar::Limit;
use sql_lex::tokens;
use sql_meaning::{BoundInsert, BoundSelect, TableEntry};
use sql_tree::{Explain, Statement, Token, TokenKind};
use sqlite_items::{Boxed, Items};
use std::alloc::Global;
use vm_core::Hosts;

/// What a CREATE TABLE puts into the catalog: the entry, and what it declares.
#[derive(Drop)]
pub(crate) struct NewEntry {
    pub(crate) entry: Entry,
    pub(crate) table: TableEntry,
}

/// What a CREATE INDEX puts into the catalog, and the index.
#[derive(Drop)]
pub(crate) struct NewIndexEntry {
    pub(crate) entry: Entry,
    pub(crate) index: NewIndex,
}

/// A statement that is ready to run.
#[derive(Drop)]
pub(crate) enum Ready {
    Create(Boxed<NewEntry>),
    Drop(DroppedTable),
    CreateIndex(Boxed<NewIndexEntry>),
    DropIndex(Text),
    Insert(BoundInsert),
    Select(BoundSelect),
    Values(Items<Items<BoundExpr>>),
    Nothing,
}

/// A statement that is ready to run, or whose way of running is shown instead.
#[derive(Drop)]
pub(crate) struct Prepared {
    pub(crate) explain: Option<Explain>,
    pub(crate) ready: Ready,
}

/// The statement of a text over so many tables that ever were, or why it is refused: first by the grammar, then since a part of it is
/// not built, then for names.
pub(crate) fn prepare(
    alloc: Global,
    hosts: &mut Hosts,
    schema: &Schema,
    number: usize,
    text: &str,
) -> Result<Prepared, Cause>
    ensures readies { WhereAsked (meant (λ b. verdicts (b.vtable, b.value)) hosts.old).authorizer (λ asked. (lists : Lists) → length lists ≡ number → Prepares (length (tokens_of text.now)) (text_bound asked (world_in schema.now lists) text.now) result) }
    ensures hosts { meant (λ b. verdicts (b.vtable, b.value)) hosts.new ≡ meant (λ b. verdicts (b.vtable, b.value)) hosts.old }
{
    let found = tokens(alloc, text)?;
    let start = start_of(&found);
    if start == 0 {
        return prepare_from(alloc, hosts, schema, number, text, 0, &found);
    }
    let again = tokens(alloc, &text[start..])?;
    prepare_from(alloc, hosts, schema, number, text, start, &again)
}

/// The statement of a text from a byte on, where these are the tokens.
fn prepare_from(
    alloc: Global,
    hosts: &mut Hosts,
    schema: &Schema,
    number: usize,
    text: &str,
    start: usize,
    tokens: &[Token],
) -> Result<Prepared, Cause>
    requires cut { IsCharBoundary text.now start }
    requires tokens { tokens.now ≡ tokens_of (drop start text.now) }
    requires order { InOrder 0 (length (drop start text.now)) tokens.now }
    requires characters { All (λ t. is_utf8 (slice_of (drop start text.now) t) ≡ true) tokens.now }
    ensures readies { WhereAsked (meant (λ b. verdicts (b.vtable, b.value)) hosts.old).authorizer (λ asked. (lists : Lists) → length lists ≡ number → Prepares (length tokens.now) (text_bound_from asked (world_in schema.now lists) start text.now) result) }
    ensures hosts { meant (λ b. verdicts (b.vtable, b.value)) hosts.new ≡ meant (λ b. verdicts (b.vtable, b.value)) hosts.old }
{
    let from = &text[start..];
    let statement = match parse(alloc, tokens, from.len()) {
        Ok(statement) => statement,
        Err(failure) => return Err(cause_of(text, start, failure)),
    };
    let body = &from[..end_of(without_end(tokens))];
    let bound = bind(
        alloc,
        hosts,
        schema.catalog(),
        schema.tables(),
        body,
        &statement,
    )?;
    let explain = statement.explain;
    let ready = readied(alloc, bound, number, body, statement)?;
    Ok(Prepared { explain, ready })
}

/// A bound statement with what running it takes.
fn readied(
    alloc: Global,
    bound: Bound,
    number: usize,
    body: &str,
    statement: Statement,
) -> Result<Ready, Cause>
    ensures { (lists : Lists) (entries : Entries) → length lists ≡ number → (asked : Asking) → BindsTo (size_of_statement statement) (plain_bound asked entries number body.now statement) (Ok bound)
        → Readies (size_of_statement statement) (plain_bound asked entries number body.now statement) result }
{
    match bound {
        Bound::CreateTable(new) => created(alloc, new, number, body, statement),
        Bound::CreateIndex(new) => indexed(alloc, new, body, statement),
        other => Ok(as_bound(other)),
    }
}

/// Any but a CREATE TABLE and a CREATE INDEX is ready as it is bound.
fn as_bound(bound: Bound) -> Ready
    requires { CreatesNone bound }
    ensures { (size : ℕ) (meant : Result Runnable Cause) → BindsTo size meant (Ok bound) → Readies size meant (Ok result) }
{
    match bound {
        Bound::CreateTable(_) => unreachable!(),
        Bound::CreateIndex(_) => unreachable!(),
        Bound::DropTable(dropped) => Ready::Drop(dropped),
        Bound::DropIndex(name) => Ready::DropIndex(name),
        Bound::Insert(insert) => Ready::Insert(insert),
        Bound::Select(select) => Ready::Select(select),
        Bound::Values(rows) => Ready::Values(rows),
        Bound::Nothing => Ready::Nothing,
    }
}

/// A CREATE TABLE with its entry.
#[inline(never)]
fn created(
    alloc: Global,
    new: NewTable,
    number: usize,
    body: &str,
    statement: Statement,
) -> Result<Ready, Cause>
    ensures { (lists : Lists) (entries : Entries) → length lists ≡ number → (asked : Asking) → BindsTo (size_of_statement statement) (plain_bound asked entries number body.now statement) (Ok (bound.CreateTable new))
        → Readies (size_of_statement statement) (plain_bound asked entries number body.now statement) result }
{
    let entry = new_entry(alloc, new, number, body, statement)?;
    Ok(Ready::Create(Boxed::new(alloc, entry)?))
}

/// A CREATE INDEX with its entry.
#[inline(never)]
fn indexed(alloc: Global, new: NewIndex, body: &str, statement: Statement) -> Result<Ready, Cause>
    ensures { (number : ℕ) (entries : Entries) (asked : Asking) → BindsTo (size_of_statement statement) (plain_bound asked entries number body.now statement) (Ok (bound.CreateIndex new))
        → Readies (size_of_statement statement) (plain_bound asked entries number body.now statement) result }
{
    let entry = new_index_entry(alloc, new, body, statement)?;
    Ok(Ready::CreateIndex(Boxed::new(alloc, entry)?))
}

/// The entry of an index that is created: it has the number of its table.
fn new_index_entry(
    alloc: Global,
    new: NewIndex,
    body: &str,
    statement: Statement,
) -> Result<NewIndexEntry, Cause>
    ensures entry { IfOk result (λ n. n.entry ≡ index_entry_in body.now new statement) }
    ensures index { IfOk result (λ n. n.index ≡ new) }
    ensures memory { IfErr result (λ why. why ≡ Mem) }
{
    let entry = Entry {
        kind: EntryKind::Index,
        name: new.name.clone()?,
        owner: new.table_name.clone()?,
        number: u64::from(new.table),
        text: Text::from_str(alloc, body)?,
        def: statement,
    };
    Ok(NewIndexEntry { entry, index: new })
}

/// The entry of a table that is created, and what it declares.
fn new_entry(
    alloc: Global,
    new: NewTable,
    number: usize,
    body: &str,
    statement: Statement,
) -> Result<NewEntry, Cause>
    ensures entry { IfOk result (λ n. n.entry ≡ entry_with number body.now new.name statement) }
    ensures table { IfOk result (λ n. n.table ≡ record { name = new.name; columns = new.columns; rowid = new.rowid; number = number; tokens = length (tokens_of body.now) }) }
    ensures memory { IfErr result (λ why. why ≡ Mem) }
{
    let NewTable {
        name,
        columns,
        rowid,
    } = new;
    let Ok(place) = u32::try_from(number) else {
        return Err(Cause::Mem);
    };
    let entry = Entry {
        kind: EntryKind::Table,
        name: name.clone()?,
        owner: Text::from_str(alloc, "")?,
        number: u64::from(place),
        text: Text::from_str(alloc, body)?,
        def: statement,
    };
    let table = TableEntry {
        name,
        columns,
        rowid,
        number: place,
        tokens: tokens(alloc, body)?.len(),
    };
    Ok(NewEntry { entry, table })
}

/// The byte where the first token starts.
fn start_of(tokens: &[Token]) -> usize
    ensures { result ≡ start_of tokens.now 0 }
{
    match tokens.first() {
        Some(token) => token.span.start,
        None => 0,
    }
}

/// Tokens without a `;` at their end.
fn without_end(tokens: &[Token]) -> &[Token]
    ensures { result.now ≡ without_end tokens.now }
{
    match tokens {
        [front @ .., last] if last.kind == TokenKind::Semicolon => front,
        _ => tokens,
    }
}

/// The byte behind the last token.
fn end_of(tokens: &[Token]) -> usize
    ensures { result ≡ end_of tokens.now }
{
    match tokens.last() {
        Some(token) => token.span.end,
        None => 0,
    }
}

/// Why a text has no statement from a byte on: memory is wanting, the grammar does not derive it, or there is too much of something.
fn cause_of(text: &str, start: usize, failure: Failure) -> Cause
    requires { StandsIn (length text.now) start failure }
    ensures { result ≡ cause_of start failure }
{
    match failure {
        Failure::Memory => Cause::Mem,
        Failure::Syntax(at) => Cause::Syntax(start + at),
        Failure::TooMuch(limit, _) => Cause::Limit(limit_kind(limit)),
    }
}

/// What there is too much of.
fn limit_kind(limit: Limit) -> LimitKind
    ensures { result ≡ limit_kind limit }
{
    match limit {
        Limit::Nestings => LimitKind::Nestings,
        Limit::Operators => LimitKind::Operators,
        Limit::Parts => LimitKind::Parts,
    }
}
