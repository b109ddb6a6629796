// The rows of what is written, as far as no query has to be bound.
ghost use Rattle.std.specs.Prelude.{◌≡◌, IfOk};
ghost use Rattle.bind_target.specs.Sources.{module_given};
ghost use Rattle.sql_bound.specs.Answers.{Answers, OnlyMem};
ghost use Rattle.sql_bound.specs.HostFacts.{facts_of};
ghost use Rattle.sql_bound.specs.Targets.{shown_name};

use bind_scope::{copied_text, text_of};
use bind_source::{columns_told, module_source};
use eng_value::{Cause, Text};
use sql_bound::{HostFacts, Sourced};
use sqlite_items::Items;
use std::alloc::Global;

/// The rows of a table of a module that takes no arguments, under the name that is shown.
pub fn module_rows(
    alloc: Global,
    facts: &HostFacts,
    shown: &str,
    name: &str,
    table: u64,
) -> Result<Sourced, Cause>
    ensures { Answers (module_given (facts_of facts.now) shown.now name.now table) result }
{
    let columns = columns_told(alloc, facts, name, table)?;
    let shown = text_of(alloc, shown)?;
    let name = text_of(alloc, name)?;
    module_source(
        alloc,
        shown,
        name,
        table,
        columns.as_slice(),
        Items::new(alloc),
    )
}

/// The name that rows have, or else the one that is written. Only memory can fail.
pub fn shown_name(alloc: Global, name: &str, s: &Sourced) -> Result<Text, Cause>
    ensures ok { IfOk result (λ shown. shown ≡ shown_name name.now s.now.name) }
    ensures mem { OnlyMem result }
{
    match &s.name {
        Some(shown) => copied_text(shown),
        None => text_of(alloc, name),
    }
}
