// Whether the query of a WITH table is recursive: where it is `first UNION [ALL] part`, part its last one, and an item of part's FROM names
// the table (WITH Clause, section 3).
ghost use Rattle.std.specs.Prelude.{◌≡◌, Some, None, map, if◌then◌else◌, IfOk};
ghost use Rattle.std.specs.List.{list_any};
ghost use Rattle.std.specs.Option.{option_copied, option_map};
ghost use Rattle.bind_with.specs.Recursive.{all_if, core_behind, core_by, core_in, front_of, is_all, is_union, last_of, named_alone, named_by, recursive_of};
ghost use Rattle.eng_entry.specs.Names.{is_same_name};
ghost use Rattle.sql_bound.specs.Answers.{OnlyMem};
ghost use Rattle.sql_bound.specs.Recursions.{is_itself, recursive_in};
ghost use Rattle.sql_bound.specs.Scopes.{Outer, with_named};
ghost use Rattle.sql_bound.specs.Trees.{of_compound};
ghost use Rattle.sql_words.specs.Spelled.{name_at};
ghost use Rattle.sql_tree.specs.Layers.{of_part, of_source};
ghost use Rattle.sql_tree.specs.declared.query.CompoundPart.{out-CompoundPart};
ghost use Rattle.sql_tree.specs.declared.query.SelectCore.{out-SelectCore};

use crate::names::arguments_in;
use bind_entry::name;
use bind_scope::with_named;
use eng_entry::is_same_name;
use eng_value::Cause;
use sql_bound::{WithEntry, WithMeaning};
use sql_tree::{CompoundOp, CompoundPart, FromItem, QueryPart, SelectCore, Source, Token};
use sqlite_items::at;
use std::alloc::Global;

// ---- the last part

/// The last part, if there is one.
#[tactic(auto, using(crate::proofs::LastLaws::last_steps))]
fn last_of(others: &[CompoundPart]) -> Option<&CompoundPart>
    ensures { option_copied result ≡ last_of others.now }
{
    at(others, others.len().saturating_sub(1))
}

/// The parts in front of the last one.
#[tactic(auto, using(crate::proofs::LastLaws::last_steps))]
pub fn front_of(others: &[CompoundPart]) -> &[CompoundPart]
    ensures { result.now ≡ front_of others.now }
{
    &others[..others.len().saturating_sub(1)]
}

fn is_all(op: CompoundOp) -> bool
    ensures { result ≡ is_all op }
{
    match op {
        CompoundOp::UnionAll => true,
        CompoundOp::Union | CompoundOp::Intersect | CompoundOp::Except => false,
    }
}

fn is_union(op: CompoundOp) -> bool
    ensures { result ≡ is_union op }
{
    match op {
        CompoundOp::Union | CompoundOp::UnionAll => true,
        CompoundOp::Intersect | CompoundOp::Except => false,
    }
}

/// Whether the last part is behind UNION ALL.
pub fn is_last_all(others: &[CompoundPart]) -> bool
    ensures { result ≡ all_if (last_of others.now) }
{
    match last_of(others) {
        Some(part) => is_all(part.op),
        None => false,
    }
}

// ---- whether it names the table

fn is_called(alloc: Global, text: &str, called: &str, token: &Token) -> Result<bool, Cause>
    ensures ok { IfOk result (λ b. b ≡ is_same_name (name_at text.now token.now) called.now) }
    ensures mem { OnlyMem result }
{
    let written = name(alloc, text, token)?;
    Ok(is_same_name(written.as_bytes(), called.as_bytes()))
}

fn names_alone(alloc: Global, text: &str, called: &str, source: &Source) -> Result<bool, Cause>
    ensures ok { IfOk result (λ b. b ≡ named_alone text.now called.now (of_source source.now)) }
    ensures mem { OnlyMem result }
{
    match source {
        Source::Table(token, arguments) => {
            let same = is_called(alloc, text, called, token)?;
            Ok(same && arguments_in(arguments).is_empty())
        }
        Source::Derived(_) => Ok(false),
    }
}

/// Whether an item of a FROM names the table.
fn is_named(alloc: Global, text: &str, called: &str, from: &[FromItem]) -> Result<bool, Cause>
    ensures ok { IfOk result (λ b. b ≡ list_any (named_by text.now called.now) from.now) }
    ensures mem { OnlyMem result }
{
    for item in from {
        if names_alone(alloc, text, called, &item.source)? {
            return Ok(true);
        }
    }
    Ok(false)
}

fn core_of<'a>(
    alloc: Global,
    text: &str,
    called: &str,
    core: &'a SelectCore,
) -> Result<Option<&'a SelectCore>, Cause>
    ensures ok { IfOk result (λ found. option_copied found ≡ (if list_any (named_by text.now called.now) (out-SelectCore core.now).from then Some core.now else None)) }
    ensures mem { OnlyMem result }
{
    if is_named(alloc, text, called, core.from.as_slice())? {
        Ok(Some(core))
    } else {
        Ok(None)
    }
}

fn core_by<'a>(
    alloc: Global,
    text: &str,
    called: &str,
    part: &'a QueryPart,
) -> Result<Option<&'a SelectCore>, Cause>
    ensures ok { IfOk result (λ found. option_copied found ≡ core_by text.now called.now (of_part part.now)) }
    ensures mem { OnlyMem result }
{
    match part {
        QueryPart::Select(core) => core_of(alloc, text, called, core),
        QueryPart::Values(_) => Ok(None),
    }
}

fn core_behind<'a>(
    alloc: Global,
    text: &str,
    called: &str,
    last: &'a CompoundPart,
) -> Result<Option<&'a SelectCore>, Cause>
    ensures ok { IfOk result (λ found. option_copied found ≡ core_behind text.now called.now (Some last.now)) }
    ensures mem { OnlyMem result }
{
    if is_union(last.op) {
        core_by(alloc, text, called, &last.part)
    } else {
        Ok(None)
    }
}

/// Whether the name is that of the table that is being written.
fn is_itself(called: &str, tables: &[WithEntry]) -> bool
    ensures { result ≡ is_itself (with_named called.now tables.now) }
{
    match with_named(called, tables) {
        Some(table) => means_itself(table),
        None => false,
    }
}

fn means_itself(table: &WithEntry) -> bool
    ensures { result ≡ is_itself (Some table.now) }
{
    match table.meaning {
        WithMeaning::Itself => true,
        WithMeaning::Bound(_, _, _, _) => false,
    }
}

/// The last part, where it names the table that is being written, which is then recursive. Only memory can fail.
pub fn recursive_core<'a>(
    alloc: Global,
    text: &str,
    tables: &[WithEntry],
    called: &str,
    others: &'a [CompoundPart],
) -> Result<Option<&'a SelectCore>, Cause>
    ensures ok { (o : Outer) → o.text ≡ text.now → o.tables ≡ tables.now → IfOk result (λ found. recursive_in o called.now (map of_compound others.now) ≡ option_map (recursive_of others.now) (option_copied found)) }
    ensures mem { OnlyMem result }
{
    core_in(alloc, text, tables, called, others)
}

fn core_in<'a>(
    alloc: Global,
    text: &str,
    tables: &[WithEntry],
    called: &str,
    others: &'a [CompoundPart],
) -> Result<Option<&'a SelectCore>, Cause>
    ensures ok { IfOk result (λ found. option_copied found ≡ core_in text.now tables.now called.now others.now) }
    ensures mem { OnlyMem result }
{
    if !is_itself(called, tables) {
        return Ok(None);
    }
    match last_of(others) {
        Some(last) => core_behind(alloc, text, called, last),
        None => Ok(None),
    }
}
