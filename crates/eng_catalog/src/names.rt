// What a statement may name that no entry of the catalog tells.
ghost use Rattle.std.specs.Prelude.{◌≡◌, ◌≤◌, ℕ, List, Err, IsSome};
ghost use Rattle.eng_catalog.specs.NameFacts.{NameFacts, TellsColumns};
ghost use Rattle.host_traits.specs.Faults.{HasCount};

use eng_value::{ModColumn, Text};
use std::alloc::{AllocError, Global};

/// Why the columns of a module's table are not told.
#[derive(Drop)]
pub enum NamesErr {
    /// The module failed, and its count of faults rose.
    Fault,
    /// No memory was found.
    Mem,
    /// The module refused with this text, as no honest one does.
    Refused(Text),
}

impl From<AllocError> for NamesErr {
    ghost use Rattle.std.specs.Prelude.{◌≡◌};
    ghost use Rattle.eng_catalog.specs.declared.names.NamesErr.TheVariants.{Mem};

    ghost from_gives = { λ _ e. e ≡ Mem };

    fn from(_: AllocError) -> NamesErr {
        NamesErr::Mem
    }
}

/// Whoever tells what functions, collations, modules and savepoints there are. What it tells by `&self` never changes while a
/// statement is bound: `columns` leaves it as it is.
pub trait Names {
    /// What there is.
    ghost name_facts: { Self → NameFacts };

    /// How often the module of a name has failed.
    ghost name_faults: { Self → List ℕ → ℕ };

    /// How many arguments the function of this name takes, -1 for any number, and whether it may ask queries.
    fn scalar(&self, name: &str) -> Option<(i32, bool)>
        ensures { result ≡ (name_facts self.now).scalar_of name.now };

    /// How many arguments the aggregate of this name takes, -1 for any number.
    fn aggregate(&self, name: &str) -> Option<i32>
        ensures { result ≡ (name_facts self.now).aggregate_of name.now };

    /// Whether there is a collation of this name.
    fn collation(&self, name: &str) -> bool
        ensures { result ≡ (name_facts self.now).is_collation name.now };

    /// Whether the name of this module is that of a table, too (The Virtual Table Mechanism Of SQLite, 'Eponymous Virtual Tables'),
    /// and whether its tables can be written.
    fn module(&self, name: &str) -> Option<(bool, bool)>
        ensures { result ≡ (name_facts self.now).module_of name.now };

    /// The columns of a table of a module that is there: of the table that bears the module's name under number 0, of another one
    /// under its own. A module that tells its columns gives these, or fails.
    fn columns(&mut self, alloc: Global, name: &str, table: u64) -> Result<Vec<ModColumn>, NamesErr>
        requires { IsSome ((name_facts self.old).module_of name.now) }
        ensures told { TellsColumns ((name_facts self.old).columns_of name.now table) result }
        ensures facts { name_facts self.new ≡ name_facts self.old }
        ensures cause { HasCount (name_faults self.old name.now) (name_faults self.new name.now) (result ≡ Err NamesErr.Fault) }
        ensures grows { (n : List ℕ) → name_faults self.old n ≤ name_faults self.new n };

    /// How often the module of this name has failed; the count stands still at the type's end.
    fn faults(&self, name: &str) -> u64
        ensures { result ≡ name_faults self.now name.now };

    /// Whether a savepoint of this name is open.
    fn savepoint(&self, name: &str) -> bool
        ensures { result ≡ (name_facts self.now).is_savepoint name.now };

    /// Whether a trigger may fire while it runs (PRAGMA recursive_triggers).
    fn recursive_triggers(&self) -> bool
        ensures { result ≡ (name_facts self.now).recursive_triggers };
}
