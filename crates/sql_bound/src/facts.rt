// What hosts and the connection tell, as plain data that is filled before names are bound.
// Drops are written out, since those that are derived would be proved again in each library above.
use eng_value::{ModColumn, Text};
use sqlite_items::Items;

/// A function of a host: its name, how many arguments it takes, -1 for any number, and whether it may ask queries.
pub struct HostFunction {
    pub name: Text,
    pub arity: i32,
    pub asks: bool,
}

impl Drop for HostFunction {
    fn drop(self) {
        let HostFunction {
            name,
            arity: _,
            asks: _,
        } = self;
        drop(name);
    }
}

/// An aggregate of a host: its name, and how many arguments it takes, -1 for any number.
pub struct HostAggregate {
    pub name: Text,
    pub arity: i32,
}

impl Drop for HostAggregate {
    fn drop(self) {
        let HostAggregate { name, arity: _ } = self;
        drop(name);
    }
}

/// A module: its name, whether that is the name of a table, too (The Virtual Table Mechanism Of SQLite, 'Eponymous Virtual Tables'), and
/// whether its tables can be written.
pub struct HostModule {
    pub name: Text,
    pub eponymous: bool,
    pub writable: bool,
}

impl Drop for HostModule {
    fn drop(self) {
        let HostModule {
            name,
            eponymous: _,
            writable: _,
        } = self;
        drop(name);
    }
}

/// The columns of a module's table, as they were told: the module's name, and the table's number there, 0 for that of the module's name.
pub struct ToldColumns {
    pub module: Text,
    pub table: u64,
    pub columns: Items<ModColumn>,
}

impl Drop for ToldColumns {
    fn drop(self) {
        let ToldColumns {
            module,
            table: _,
            columns,
        } = self;
        drop(module);
        drop(columns);
    }
}

/// What hosts and the connection tell: the functions, aggregates, collations and modules that there are, in the order in which the hosts
/// were given, the columns that modules told, the savepoints that are open, whether triggers may fire while they run, and whether the rows
/// of tables have rowids that can be named.
pub struct HostFacts {
    pub functions: Items<HostFunction>,
    pub aggregates: Items<HostAggregate>,
    pub collations: Items<Text>,
    pub modules: Items<HostModule>,
    pub told: Items<ToldColumns>,
    pub savepoints: Items<Text>,
    pub recursive_triggers: bool,
    pub rowids: bool,
}

impl Drop for HostFacts {
    fn drop(self) {
        let HostFacts {
            functions,
            aggregates,
            collations,
            modules,
            told,
            savepoints,
            recursive_triggers: _,
            rowids: _,
        } = self;
        drop(functions);
        drop(aggregates);
        drop(collations);
        drop(modules);
        drop(told);
        drop(savepoints);
    }
}
