//! The smallest program over the engine: a table of five rows, and those of them that a parameter picks.
#![tactic(auto)]

use anyhow::Result;
use eng_value::{DEFAULT_BUDGET, Value};
use engine::{Connection, Hosts};

const FIVE: &str = "INSERT INTO staff VALUES('Ann', 5), ('Bo', 3), ('Cy', 7), ('Di', 2), ('Ed', 6)";

fn main(rt: HostRuntime) -> Result<()> {
    let alloc = rt.alloc();
    let mut hosts = Hosts::new();
    let mut db = Connection::new(alloc, DEFAULT_BUDGET);
    db.execute(alloc, &mut hosts, "CREATE TABLE staff(name, pay)", &[])?;
    db.execute(alloc, &mut hosts, FIVE, &[])?;
    let sql = "SELECT name, pay FROM staff WHERE pay > ?1";
    let rows = db.query(alloc, &mut hosts, sql, &[Value::from(4)])?;
    for row in rows.as_slice() {
        if let [name, pay] = row.as_slice() {
            println!(rt; "{name} {pay}")?;
        }
    }
    Ok(())
}
