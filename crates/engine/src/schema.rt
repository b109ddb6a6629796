// What is declared of the tables.
ghost use Rattle.std.specs.Prelude.{◌≡◌, [], All, not, OnErr, OnOk, None, Some};
ghost use Rattle.eng_entry.specs.Entries.{entry_named, no_entries, with_entry, without_indexes, without_name};
ghost use Rattle.eng_entry.specs.declared.entry.EntryKind.TheVariants as entry_kind;
ghost use Rattle.eng_entry.specs.declared.entry.Space.TheVariants as space;
ghost use Rattle.eng_entry.specs.Entries.{is_index_on};
ghost use Rattle.sql_meaning.specs.Declarations.{table_of, tables_of};
ghost use Rattle.engine.specs.Prepared.{LeavesNoTable};

use eng_catalog::{Catalog, Entry, Space};
use eng_entry::is_same_name;
use sql_meaning::TableEntry;
use std::alloc::{AllocError, Global};
use std::marker::Model;

/// What was created and not dropped since, and beside it what that declares of tables, which statements are bound to. Contracts see
/// the entries of the catalog.
#[derive(Drop)]
pub(crate) struct Schema {
    catalog: Catalog,
    tables: Vec<TableEntry>,
}

impl Model for Schema {
    ghost use Rattle.std.specs.Prelude.{◌≡◌, []};
    ghost use Rattle.std.specs.Coded.{codes};
    ghost use Rattle.sql_tree.specs.contracts.expr.Expr as expr;
    ghost use Rattle.sql_tree.specs.contracts.query.Query as query;
    ghost use Rattle.eng_entry.specs.Entries.{Entries};
    ghost use Rattle.sql_meaning.specs.Declarations.{tables_of as tables_declared};

    ghost Value = { Entries };

    ghost coded = { Prim.hlevel (codes, expr.the_row.coded, query.the_row.coded) };

    ghost view = { λ s. s.catalog };

    ghost invariant = { λ s. (s.tables.items ≡ tables_declared s.catalog) × (s.catalog.triggers ≡ []) };
}

impl Schema {
    /// Nothing was created yet. Takes no memory.
    pub(crate) fn new(alloc: Global) -> Schema
        ensures { result ≡ no_entries }
    {
        Schema {
            catalog: Catalog::new(alloc),
            tables: Vec::new(alloc),
        }
    }

    /// The catalog, which has no trigger yet.
    pub(crate) fn catalog(&self) -> &Catalog
        ensures catalog { result.now ≡ self.now }
        ensures untriggered { result.now.triggers ≡ [] }
    {
        &self.catalog
    }

    /// The tables, oldest first.
    pub(crate) fn tables(&self) -> &[TableEntry]
        ensures { result.now ≡ tables_of self.now }
    {
        &self.tables
    }

    /// Puts the entry of a table behind the others, where no entry has its name yet. Without memory nothing changes.
    pub(crate) fn add(&mut self, entry: Entry, table: TableEntry) -> Result<(), AllocError>
        requires kind { entry.kind ≡ entry_kind.Table }
        requires free { entry_named entry.name self.old.names ≡ None }
        requires declared { table_of entry ≡ Some table }
        ensures ok { OnOk result (self.new ≡ with_entry entry self.old) }
        ensures err { OnErr result (self.new ≡ self.old) }
    {
        self.tables.push(table)?;
        match self.catalog.add(entry) {
            Ok(()) => Ok(()),
            Err(error) => {
                let _ = self.tables.pop();
                Err(error)
            }
        }
    }

    /// Puts the entry of an index behind the others, where no entry has its name yet. Without memory nothing changes.
    pub(crate) fn add_index(&mut self, entry: Entry) -> Result<(), AllocError>
        requires kind { entry.kind ≡ entry_kind.Index }
        requires free { entry_named entry.name self.old.names ≡ None }
        requires undeclared { table_of entry ≡ None }
        ensures ok { OnOk result (self.new ≡ with_entry entry self.old) }
        ensures err { OnErr result (self.new ≡ self.old) }
    {
        self.catalog.add(entry)
    }

    /// Takes the entry of a table and those of its indexes out; the others stay in their order. Takes no memory.
    pub(crate) fn remove_table(&mut self, name: &str)
        requires indexes { All (LeavesNoTable (λ e. not (is_index_on name.now e))) self.old.names }
        ensures { self.new ≡ without_name space.Names name.now (without_indexes name.now self.old) }
    {
        self.catalog.drop_indexes(name);
        self.remove(name);
    }

    /// Takes the entry of a name out; the others stay in their order. Takes no memory.
    pub(crate) fn remove(&mut self, name: &str)
        ensures { self.new ≡ without_name space.Names name.now self.old }
    {
        let _ = self.catalog.drop_name(Space::Names, name);
        self.tables
            .retain(|t| !is_same_name(t.name.as_bytes(), name.as_bytes()));
    }
}
