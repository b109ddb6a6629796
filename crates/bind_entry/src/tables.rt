// Tables as they are declared.
ghost use Rattle.std.specs.Prelude.{◌≡◌, IfOk};
ghost use Rattle.bind_entry.specs.TableParts.{declared_parts};
ghost use Rattle.sql_bound.specs.Answers.{OnlyMem};
ghost use Rattle.sql_bound.specs.Declarations.{declared_table};
ghost use Rattle.sql_bound.specs.HostFacts.{facts_of};

use crate::columns::declared_columns;
use crate::keys::{own_keys, put_table_keys};
use crate::rowids::rowid_of;
use bound_tree::{BoundColumn, IndexPart};
use eng_value::Cause;
use sql_bound::HostFacts;
use sql_tree::TableDefinition;
use sqlite_items::Items;
use std::alloc::Global;

/// A table as it is declared: its columns, which of them is the rowid, and its keys in order of text.
#[derive(Drop)]
pub struct Declared {
    pub columns: Items<BoundColumn>,
    pub rowid: Option<u32>,
    pub keys: Items<Items<IndexPart>>,
}

/// A table as its text declares it. Only memory can fail.
pub fn declared_table(
    alloc: Global,
    facts: &HostFacts,
    text: &str,
    table: &TableDefinition,
) -> Result<Declared, Cause>
    ensures ok { IfOk result (λ d. d ≡ declared_parts (declared_table (facts_of facts.now) text.now table.now)) }
    ensures mem { OnlyMem result }
{
    let columns = declared_columns(alloc, facts, text, table.columns.as_slice())?;
    let rowid = rowid_of(alloc, text, table)?;
    let mut keys = own_keys(alloc, rowid, columns.as_slice(), table.columns.as_slice())?;
    put_table_keys(
        alloc,
        facts,
        text,
        rowid,
        columns.as_slice(),
        table.constraints.as_slice(),
        &mut keys,
    )?;
    Ok(Declared {
        columns,
        rowid,
        keys,
    })
}
