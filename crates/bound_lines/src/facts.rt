// Lines that tell what hosts and the connection tell.
use eng_value::{ColumnKind, ModColumn, Text};
use sql_bound::{HostAggregate, HostFacts, HostFunction, HostModule, ToldColumns};
use sqlite_items::Items;
use std::alloc::{AllocError, Global};

/// Takes a line that begins with `.` up into what is told. Answers whether it is such a line.
pub(crate) fn tell(alloc: Global, facts: &mut HostFacts, line: &str) -> Result<bool, AllocError> {
    let words = words_of(alloc, line)?;
    match words.as_slice() {
        [kind, name, others @ ..] => tell_named(alloc, facts, kind, name, others),
        [kind] => Ok(tell_plain(facts, kind)),
        [] => Ok(false),
    }
}

/// The words of a line.
pub(crate) fn words_of<'t>(alloc: Global, line: &'t str) -> Result<Items<&'t str>, AllocError> {
    let mut words = Items::new(alloc);
    for word in line.split_whitespace() {
        words.push(word)?;
    }
    Ok(words)
}

fn tell_plain(facts: &mut HostFacts, kind: &str) -> bool {
    let is_known = kind == ".recursive_triggers";
    if is_known {
        facts.recursive_triggers = true;
    }
    is_known
}

/// A line that tells something of this kind and name.
fn tell_named(
    alloc: Global,
    facts: &mut HostFacts,
    kind: &str,
    name: &str,
    others: &[&str],
) -> Result<bool, AllocError> {
    let name = Text::from_str(alloc, name)?;
    match kind {
        ".function" => tell_function(facts, name, others),
        ".aggregate" => tell_aggregate(facts, name, others),
        ".collation" => {
            facts.collations.push(name)?;
            Ok(others.is_empty())
        }
        ".module" => tell_module(facts, name, others),
        ".told" => tell_columns(alloc, facts, name, others),
        ".savepoint" => {
            facts.savepoints.push(name)?;
            Ok(others.is_empty())
        }
        _ => Ok(false),
    }
}

/// `.function NAME ARITY [asks]`
fn tell_function(facts: &mut HostFacts, name: Text, others: &[&str]) -> Result<bool, AllocError> {
    let Some(arity) = arity_in(others) else {
        return Ok(false);
    };
    let asks = has_word(others, "asks");
    facts.functions.push(HostFunction { name, arity, asks })?;
    Ok(true)
}

/// `.aggregate NAME ARITY`
fn tell_aggregate(facts: &mut HostFacts, name: Text, others: &[&str]) -> Result<bool, AllocError> {
    let Some(arity) = arity_in(others) else {
        return Ok(false);
    };
    facts.aggregates.push(HostAggregate { name, arity })?;
    Ok(true)
}

/// `.module NAME [eponymous] [writable]`
fn tell_module(facts: &mut HostFacts, name: Text, others: &[&str]) -> Result<bool, AllocError> {
    facts.modules.push(HostModule {
        name,
        eponymous: has_word(others, "eponymous"),
        writable: has_word(others, "writable"),
    })?;
    Ok(true)
}

/// `.told MODULE TABLE COLUMN ..`
fn tell_columns(
    alloc: Global,
    facts: &mut HostFacts,
    module: Text,
    others: &[&str],
) -> Result<bool, AllocError> {
    let [number, columns @ ..] = others else {
        return Ok(false);
    };
    let Ok(table) = number.parse::<u64>() else {
        return Ok(false);
    };
    let columns = columns_of(alloc, columns)?;
    facts.told.push(ToldColumns {
        module,
        table,
        columns,
    })?;
    Ok(true)
}

fn columns_of(alloc: Global, words: &[&str]) -> Result<Items<ModColumn>, AllocError> {
    let mut columns = Items::new(alloc);
    for word in words {
        columns.push(column_of(alloc, word)?)?;
    }
    Ok(columns)
}

/// A column written as `NAME[:TYPE]:KIND`.
fn column_of(alloc: Global, word: &str) -> Result<ModColumn, AllocError> {
    let (name, rest) = word.split_once(':').unwrap_or((word, ""));
    let (type_text, kind) = rest.rsplit_once(':').unwrap_or(("", rest));
    Ok(ModColumn {
        name: Text::from_str(alloc, name)?,
        type_text: Text::from_str(alloc, type_text)?,
        kind: column_kind(kind),
    })
}

fn column_kind(word: &str) -> ColumnKind {
    match word {
        "optional" => ColumnKind::Optional,
        "required" => ColumnKind::Required,
        _ => ColumnKind::Shown,
    }
}

/// The number of arguments, which is the first word.
fn arity_in(words: &[&str]) -> Option<i32> {
    match words {
        [first, ..] => first.parse::<i32>().ok(),
        [] => None,
    }
}

fn has_word(words: &[&str], word: &str) -> bool {
    words.iter().any(|w| *w == word)
}
