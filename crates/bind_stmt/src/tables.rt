// Tables by the names with which they were bound.
ghost use Rattle.std.specs.Prelude.{◌≡◌};
ghost use Rattle.std.specs.Option.{option_copied};
ghost use Rattle.bind_stmt.specs.Binds.{AnswersBy};
ghost use Rattle.sql_meaning.specs.Declarations.{table_called};
ghost use Rattle.sql_meaning.specs.Running.{found_table, table_of_source};

use bound_tree::BoundSource;
use eng_entry::is_same_name;
use eng_value::Cause;
use sql_meaning::TableEntry;

/// The table of this name.
pub(crate) fn table_called<'a>(tables: &'a [TableEntry], name: &[u8]) -> Option<&'a TableEntry>
    ensures { option_copied result ≡ table_called tables.now name.now }
{
    tables
        .iter()
        .find(|t| is_same_name(t.name.as_bytes(), name))
}

/// The table of this name; without one the statement is not built.
pub(crate) fn found_table<'a>(
    tables: &'a [TableEntry],
    name: &[u8],
) -> Result<&'a TableEntry, Cause>
    ensures { AnswersBy (λ t found. found.now ≡ t) (found_table (table_called tables.now name.now)) result }
{
    match table_called(tables, name) {
        Some(table) => Ok(table),
        None => Err(Cause::NotYet),
    }
}

/// The table from which an item has its rows.
pub(crate) fn table_of_source<'a>(
    tables: &'a [TableEntry],
    source: &BoundSource,
) -> Result<&'a TableEntry, Cause>
    ensures { AnswersBy (λ t found. found.now ≡ t) (table_of_source tables.now source.now) result }
{
    match source {
        BoundSource::Table(name, _) => found_table(tables, name.as_bytes()),
        _ => Err(Cause::NotYet),
    }
}
