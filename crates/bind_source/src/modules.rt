// Tables of modules (The Virtual Table Mechanism Of SQLite).
ghost use Rattle.std.specs.Prelude.{◌≡◌, [], ◌∷◌, List, length, map, filter, is_some, not, IfOk};
ghost use Rattle.bind_name.specs.Types.{affinity_of_folded};
ghost use Rattle.bind_source.specs.Answered.{AnswersAt};
ghost use Rattle.eng_text.specs.Texts.{folded, place_of};
ghost use Rattle.eng_value.specs.declared.modules.ModColumn.{ModColumn};
ghost use Rattle.eng_value.specs.declared.cause.Cause.TheVariants.{Arity};
ghost use Rattle.sql_bound.specs.Answers.{Answers, OnlyMem, Refuses};
ghost use Rattle.sql_bound.specs.Carriers.{Expression};
ghost use Rattle.sql_bound.specs.Declarations.{is_empty};
ghost use Rattle.sql_bound.specs.Froms.{arguments_fit, columns_told, hidden_columns, is_hidden, module_column, module_source, module_there, without_arguments};
ghost use Rattle.sql_bound.specs.HostFacts.{facts_of};
ghost use Rattle.sql_bound.specs.Limits.{within_columns};
ghost use Rattle.sql_words.specs.Types.{affinity_of_words};

use bind_entry::{copied, host_module, or_bytes, put, told_columns};
use bound_tree::{BoundColumn, BoundExpr, BoundSource};
use eng_entry::Entry;
use eng_text::{find, fold};
use eng_value::{Affinity, Cause, ColumnKind, LimitKind, MAX_COLUMNS, ModColumn, NameKind, Text};
use sql_bound::{HostFacts, Sourced};
use sqlite_items::Items;
use std::alloc::Global;

// ---- columns

fn holds(word: &[u8], part: &[u8]) -> bool
    ensures { result ≡ is_some (place_of part.now word.now) }
{
    find(word, part).is_some()
}

/// The affinity of a word whose letters are in lower case.
fn affinity_of_folded(word: &[u8]) -> Affinity
    ensures { result ≡ affinity_of_folded (word.now ∷ []) }
{
    if holds(word, b"int") {
        Affinity::Integer
    } else if holds(word, b"char") || holds(word, b"clob") || holds(word, b"text") {
        Affinity::Text
    } else if holds(word, b"blob") {
        Affinity::Blob
    } else if holds(word, b"real") || holds(word, b"floa") || holds(word, b"doub") {
        Affinity::Real
    } else {
        Affinity::Numeric
    }
}

fn affinity_of_word(alloc: Global, word: &Text) -> Result<Affinity, Cause>
    ensures ok { IfOk result (λ a. a ≡ affinity_of_folded (folded word.now ∷ [])) }
    ensures mem { OnlyMem result }
{
    let word = fold(alloc, word.as_str())?;
    Ok(affinity_of_folded(word.as_bytes()))
}

/// The affinity of a column's type, BLOB where it has none.
#[tactic(auto, using(crate::proofs::Words::words))]
fn affinity_of_text(alloc: Global, text: &Text) -> Result<Affinity, Cause>
    ensures ok { IfOk result (λ a. a ≡ affinity_of_words (filter (λ word. not (is_empty word)) (text.now ∷ []))) }
    ensures mem { OnlyMem result }
{
    if text.as_bytes().is_empty() {
        return Ok(Affinity::Blob);
    }
    affinity_of_word(alloc, text)
}

/// A column as its module tells it. Only memory can fail.
pub fn module_column(alloc: Global, column: &ModColumn) -> Result<BoundColumn, Cause>
    ensures ok { IfOk result (λ c. c ≡ module_column column.now) }
    ensures mem { OnlyMem result }
{
    let affinity = affinity_of_text(alloc, &column.type_text)?;
    let name = copied(&column.name)?;
    Ok(BoundColumn {
        name,
        affinity,
        collation: or_bytes(None),
    })
}

fn module_columns(alloc: Global, columns: &[ModColumn]) -> Result<Items<BoundColumn>, Cause>
    ensures ok { IfOk result (λ cs. cs ≡ map module_column columns.now) }
    ensures mem { OnlyMem result }
{
    let mut found = Items::new(alloc);
    for column in columns {
        let one = module_column(alloc, column)?;
        put(&mut found, one)?;
    }
    Ok(found)
}

fn is_hidden(kind: ColumnKind) -> bool
    ensures { result ≡ is_hidden kind }
{
    match kind {
        ColumnKind::Shown => false,
        ColumnKind::Optional | ColumnKind::Required => true,
    }
}

fn kinds(alloc: Global, columns: &[ModColumn]) -> Result<Items<ColumnKind>, Cause>
    ensures ok { IfOk result (λ ks. ks ≡ map (λ (c : ModColumn). c.kind) columns.now) }
    ensures mem { OnlyMem result }
{
    let mut found = Items::new(alloc);
    for column in columns {
        put(&mut found, column.kind)?;
    }
    Ok(found)
}

fn hidden(alloc: Global, columns: &[ModColumn]) -> Result<Items<bool>, Cause>
    ensures ok { IfOk result (λ hs. hs ≡ map (λ (c : ModColumn). is_hidden c.kind) columns.now) }
    ensures mem { OnlyMem result }
{
    let mut found = Items::new(alloc);
    for column in columns {
        put(&mut found, is_hidden(column.kind))?;
    }
    Ok(found)
}

/// How many columns are hidden.
fn hidden_count(columns: &[ModColumn]) -> usize
    ensures { result ≡ length (hidden_columns columns.now) }
{
    columns
        .iter()
        .filter(|column| is_hidden(column.kind))
        .count()
}

fn within_columns(columns: &Items<ModColumn>) -> Result<&Items<ModColumn>, Cause>
    ensures { AnswersAt (within_columns columns.now) result }
{
    if columns.len() > MAX_COLUMNS {
        return Err(Cause::Limit(LimitKind::Columns));
    }
    Ok(columns)
}

/// The columns of a table of a module. Where they are not told it is a fault of the module.
pub fn columns_told<'a>(
    alloc: Global,
    facts: &'a HostFacts,
    name: &str,
    table: u64,
) -> Result<&'a Items<ModColumn>, Cause>
    ensures { AnswersAt (columns_told (facts_of facts.now) name.now table) result }
{
    match told_columns(facts, name, table) {
        Some(columns) => within_columns(columns),
        None => Err(Cause::Fault(Text::from_str(alloc, name)?)),
    }
}

// ---- rows

/// The rows of a table of a module, under the name that is shown. Only memory can fail.
pub fn module_source(
    alloc: Global,
    shown: Text,
    name: Text,
    table: u64,
    columns: &[ModColumn],
    arguments: Items<BoundExpr>,
) -> Result<Sourced, Cause>
    ensures ok { IfOk result (λ s. s ≡ module_source shown name table columns.now arguments) }
    ensures mem { OnlyMem result }
{
    let called = copied(&shown)?;
    let kinds = kinds(alloc, columns)?;
    let hidden = hidden(alloc, columns)?;
    let columns = module_columns(alloc, columns)?;
    Ok(Sourced {
        name: Some(called),
        source: BoundSource::Module(shown, name, table, arguments),
        columns,
        kinds,
        hidden,
        has_rowid: true,
        rowid: None,
        indexes: Items::new(alloc),
        is_queue: false,
    })
}

fn wrong_count(alloc: Global, name: &str) -> Result<(), Cause>
    ensures { Refuses (Arity name.now) result }
{
    Err(Cause::Arity(Text::from_str(alloc, name)?))
}

/// Whether there are no more arguments than hidden columns.
pub fn arguments_fit(
    alloc: Global,
    name: &str,
    columns: &[ModColumn],
    count: usize,
) -> Result<(), Cause>
    ensures { (args : List Expression) → length args ≡ count → Answers (arguments_fit name.now columns.now args) result }
{
    if count <= hidden_count(columns) {
        Ok(())
    } else {
        wrong_count(alloc, name)
    }
}

/// Whether there are no arguments, which only tables of modules take.
#[tactic(auto, using(crate::proofs::ArgumentCounts::counts))]
pub fn without_arguments(alloc: Global, name: &str, count: usize) -> Result<(), Cause>
    ensures { (args : List Expression) → length args ≡ count → Answers (without_arguments name.now args) result }
{
    if count == 0 {
        Ok(())
    } else {
        wrong_count(alloc, name)
    }
}

/// Whether the module of a table is there: hosts may have gone since the table was created.
pub fn module_there(facts: &HostFacts, entry: &Entry) -> Result<(), Cause>
    ensures { Answers (module_there entry.now ((facts_of facts.now).host_module entry.now.owner)) result }
{
    match host_module(facts, entry.owner.as_str()) {
        Some(_) => Ok(()),
        None => Err(Cause::Unknown(NameKind::Module, copied(&entry.owner)?)),
    }
}
