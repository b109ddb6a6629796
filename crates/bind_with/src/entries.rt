// Tables of the catalog in a FROM, and arguments, which only tables of modules take.
ghost use Rattle.std.specs.Prelude.{◌≡◌, map, IfOk};
ghost use Rattle.bind_source.specs.Arounds.{around_of};
ghost use Rattle.eng_entry.specs.declared.entry.EntryKind.TheVariants as entry_kind;
ghost use Rattle.sql_bound.specs.Answers.{Answers, Comes};
ghost use Rattle.sql_bound.specs.Froms.{Inside, arguments_fit, of_entry, without_arguments};
ghost use Rattle.sql_bound.specs.Trees.{of_expr};
ghost use Rattle.sql_bound.specs.declared.froms.Found.{Found};
ghost use Rattle.sql_bound.specs.declared.scopes.Work.{Work};

use bind_source::{arguments_fit, of_table, without_arguments};
use eng_catalog::Catalog;
use eng_entry::Entry;
use eng_value::{Cause, ModColumn};
use sql_bound::{HostFacts, Sourced};
use sql_tree::Expr;
use std::alloc::Global;

/// Whether there are no arguments.
pub fn no_arguments(alloc: Global, name: &str, arguments: &[Expr]) -> Result<(), Cause>
    ensures { Answers (without_arguments name.now (map of_expr arguments.now)) result }
{
    without_arguments(alloc, name, arguments.len())
}

/// Whether there are no more arguments than hidden columns.
pub fn few_arguments(
    alloc: Global,
    name: &str,
    columns: &[ModColumn],
    arguments: &[Expr],
) -> Result<(), Cause>
    ensures { Answers (arguments_fit name.now columns.now (map of_expr arguments.now)) result }
{
    arguments_fit(alloc, name, columns, arguments.len())
}

/// A table of the catalog, which takes no arguments.
pub fn plain_table(
    alloc: Global,
    facts: &HostFacts,
    catalog: &Catalog,
    name: &str,
    entry: &Entry,
    arguments: &[Expr],
) -> Result<Sourced, Cause>
    ensures { (i : Inside) (f : Found) (w : Work) → i.outer.around ≡ around_of catalog.now facts.now → Comes (of_entry i name.now entry.now entry_kind.Table (map of_expr arguments.now) f w) result w }
{
    no_arguments(alloc, entry.name.as_str(), arguments)?;
    of_table(alloc, facts, catalog, name, entry)
}
