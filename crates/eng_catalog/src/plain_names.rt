// Names as plain data.
ghost use Rattle.std.specs.Prelude.{◌≡◌, IfOk};
ghost use Rattle.std.specs.List.{list_any};
ghost use Rattle.std.specs.Option.{option_copied};
ghost use Rattle.eng_catalog.specs.PlainFacts.{plain_facts};
ghost use Rattle.eng_entry.specs.Names.{is_same_name};
ghost use Rattle.eng_value.specs.HostMeanings.{named};

use crate::names::{Names, NamesErr};
use eng_entry::is_same_name;
use eng_value::{ModColumn, Text};
use std::alloc::{AllocError, Global};

/// What there is to name, as lists. It tells all that they hold and never fails, but for want of memory. The first of a name counts.
#[derive(Drop)]
pub struct PlainNames {
    /// Each function with its number of arguments, -1 for any, and whether it may ask.
    pub scalars: Vec<(Text, (i32, bool))>,
    /// Each aggregate with its number of arguments.
    pub aggregates: Vec<(Text, i32)>,
    pub collations: Vec<Text>,
    pub modules: Vec<(Text, PlainModule)>,
    /// The names of the open savepoints.
    pub savepoints: Vec<Text>,
    pub recursive_triggers: bool,
}

/// A module whose tables all have the same columns.
#[derive(Drop)]
pub struct PlainModule {
    pub eponymous: bool,
    pub writable: bool,
    pub columns: Vec<ModColumn>,
}

impl Names for PlainNames {
    ghost name_facts = { plain_facts };

    ghost name_faults = { λ names name. 0 };

    fn scalar(&self, name: &str) -> Option<(i32, bool)> {
        named(&self.scalars, name).copied()
    }

    fn aggregate(&self, name: &str) -> Option<i32> {
        named(&self.aggregates, name).copied()
    }

    fn collation(&self, name: &str) -> bool {
        is_among(&self.collations, name)
    }

    fn module(&self, name: &str) -> Option<(bool, bool)> {
        match named(&self.modules, name) {
            Some(module) => Some((module.eponymous, module.writable)),
            None => None,
        }
    }

    fn columns(
        &mut self,
        alloc: Global,
        name: &str,
        _table: u64,
    ) -> Result<Vec<ModColumn>, NamesErr> {
        match named(&self.modules, name) {
            Some(module) => Ok(copied(alloc, &module.columns)?),
            None => unreachable!(),
        }
    }

    fn faults(&self, _name: &str) -> u64 {
        0
    }

    fn savepoint(&self, name: &str) -> bool {
        is_among(&self.savepoints, name)
    }

    fn recursive_triggers(&self) -> bool {
        self.recursive_triggers
    }
}

/// What the first of this name is.
fn named<'a, T>(entries: &'a [(Text, T)], name: &str) -> Option<&'a T>
    ensures { option_copied result ≡ named name.now entries.now }
{
    match entries
        .iter()
        .find(|entry| is_same_name(entry.0.as_bytes(), name.as_bytes()))
    {
        Some(entry) => Some(&entry.1),
        None => None,
    }
}

fn is_among(names: &[Text], name: &str) -> bool
    ensures { result ≡ list_any (λ n. is_same_name n name.now) names.now }
{
    names
        .iter()
        .any(|n| is_same_name(n.as_bytes(), name.as_bytes()))
}

fn copied(alloc: Global, columns: &[ModColumn]) -> Result<Vec<ModColumn>, AllocError>
    ensures { IfOk result (λ copies. copies.items ≡ columns.now) }
{
    let mut copies = Vec::with_capacity(alloc, columns.len())?;
    for column in columns {
        copies.push(copied_column(column)?)?;
    }
    Ok(copies)
}

fn copied_column(column: &ModColumn) -> Result<ModColumn, AllocError>
    ensures { IfOk result (λ copy. copy ≡ column.now) }
{
    Ok(ModColumn {
        name: column.name.clone()?,
        type_text: column.type_text.clone()?,
        kind: column.kind,
    })
}
