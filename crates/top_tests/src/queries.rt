// Statements through the calls that keep their rows and count nothing, and what is written of their answers.
use eng_value::{Blob, Cause, DEFAULT_BUDGET, Row, Rows, Text, Value};
use engine::{Connection, Hosts, Refusal};
use std::alloc::{AllocError, Global};
use std::test::Fail;

// The first is 5, the second x and the third two bytes.
fn three_params(alloc: Global) -> Result<Vec<Value>, AllocError> {
    let mut params = Vec::new(alloc);
    params.push(Value::from(5))?;
    params.push(Value::text(alloc, "x")?)?;
    params.push(Value::Blob(Blob::from_slice(alloc, &[0, 255])?))?;
    Ok(params)
}

// Each value with a blank behind it.
fn write_row(row: &Row, lines: &mut String) -> Result<(), AllocError> {
    for value in row.as_slice() {
        write!(lines, "{value} ")?;
    }
    Ok(())
}

fn write_rows(rows: &Rows, lines: &mut String) -> Result<(), AllocError> {
    for row in rows.as_slice() {
        write_row(row, lines)?;
        lines.push('/')?;
    }
    Ok(())
}

// What a query answers: its rows, each with a `/` at its end, or why it is refused.
fn answered(alloc: Global, answer: Result<Rows, Refusal>) -> Result<String, AllocError> {
    let mut lines = String::new(alloc);
    match answer {
        Ok(rows) => write_rows(&rows, &mut lines)?,
        Err(refusal) => write!(lines, "{refusal}")?,
    }
    Ok(lines)
}

const QUERIES: [(&str, &str); 16] = [
    ("CREATE TABLE t(a INTEGER, b)", ""),
    ("INSERT INTO t VALUES(?1, ?2), (?1 + 1, ?3)", ""),
    (
        "INSERT INTO t(b, a) VALUES(upper(?2), -?1), (?9, CASE WHEN ?1 > 3 THEN ?1 END)",
        "",
    ),
    ("SELECT a, b FROM t", "5 x /6 X'00FF' /-5 X /5  /"),
    ("SELECT b FROM t WHERE a = ?1 AND b LIKE ?2", "x /"),
    (
        "SELECT a FROM t WHERE a BETWEEN ?1 AND ?1 + 1 OR a IN (-?1, ?2)",
        "5 /6 /-5 /5 /",
    ),
    (
        "SELECT ?, ?, typeof(?3), CAST(?1 AS TEXT) || ?2 AS c, ?1 IS NOT NULL",
        "5 x blob 5x 1 /",
    ),
    ("VALUES(?1, ?2), (max(?1, 7), ?4)", "5 x /7  /"),
    (
        "INSERT INTO t VALUES(?1, ?1), (?2, ?2 + 1, ?3)",
        "Error 1: wrong number of values: VALUES",
    ),
    (
        "INSERT INTO t VALUES(?1, 9223372036854775807 + ?1)",
        "Error 1: integer overflow",
    ),
    (
        "SELECT a + 9223372036854775803 FROM t WHERE a = ?1",
        "Error 1: integer overflow",
    ),
    ("CREATE TABLE u(a CHECK(a > ?1))", "Error 1: misuse of: ?"),
    ("CREATE TABLE u(a DEFAULT (?1))", "Error 1: misuse of: ?"),
    ("SELECT a FROM t LIMIT ?1", "Error 1: not built yet"),
    ("SELECT a FROM u", "Error 1: no such table: u"),
    ("SELECT a FROM t WHERE b = 'X' ;", "-5 /"),
];

// Whether each query answers what it means.
fn queries(alloc: Global, db: &mut Connection) -> Result<bool, AllocError> {
    let params = three_params(alloc)?;
    for (sql, wanted) in QUERIES {
        let answer = db.query(alloc, &mut Hosts::new(), sql, &params);
        if answered(alloc, answer)?.as_str() != wanted {
            return Ok(false);
        }
    }
    Ok(true)
}

// What a statement is refused for, where it is, and else how many rows it gave and changed.
fn executed(alloc: Global, db: &mut Connection, sql: &str) -> Result<String, AllocError> {
    match db.execute(alloc, &mut Hosts::new(), sql, &[]) {
        Ok(done) => format!(in alloc; "{} {}", done.given, done.changed),
        Err(refusal) => format!(in alloc; "{refusal}"),
    }
}

const EXECUTED: [(&str, &str); 4] = [
    ("SELECT a FROM t", "4 0"),
    ("INSERT INTO t VALUES(8, 8), (9, 9)", "0 2"),
    (
        "INSERT INTO t VALUES(8)",
        "Error 1: wrong number of values: t",
    ),
    ("SELECT a FROM t WHERE a > 7", "2 0"),
];

fn executions(alloc: Global, db: &mut Connection) -> Result<bool, AllocError> {
    for (sql, wanted) in EXECUTED {
        if executed(alloc, db, sql)?.as_str() != wanted {
            return Ok(false);
        }
    }
    Ok(true)
}

const PLANS: [(&str, &str); 5] = [
    (
        "SELECT a FROM t WHERE rowid = ?1",
        "1 0 0 SEARCH t USING INTEGER PRIMARY KEY (rowid=?) /",
    ),
    ("EXPLAIN QUERY PLAN SELECT a FROM t", "1 0 0 SCAN t /"),
    ("EXPLAIN VALUES(1)", "1 0 0 SCAN CONSTANT ROW /"),
    ("INSERT INTO t VALUES(8, 8)", ""),
    ("SELECT nosuch FROM t", "Error 1: no such column: nosuch"),
];

// Whether plans and a program are shown, also of what stands behind EXPLAIN, and nothing is run.
fn explanations(alloc: Global, db: &Connection) -> Result<bool, AllocError> {
    let rowid = db.last_rowid();
    for (sql, wanted) in PLANS {
        let answer = db.query_plan(alloc, &mut Hosts::new(), sql);
        if answered(alloc, answer)?.as_str() != wanted {
            return Ok(false);
        }
    }
    let program = "EXPLAIN PRAGMA foreign_keys=OFF";
    let answer = db.explain(alloc, &mut Hosts::new(), program);
    Ok(answered(alloc, answer)?.as_str() == "0 Halt 0 0 0  0 end /" && db.last_rowid() == rowid)
}

fn says(alloc: Global, cause: Cause, wanted: &str) -> Result<bool, AllocError> {
    Ok(format!(in alloc; "{}", Refusal { cause })?.as_str() == wanted)
}

// What no statement of this file is refused for.
fn others(alloc: Global) -> Result<bool, AllocError> {
    let mut short = Connection::new(alloc, 3);
    let full = Cause::Full(Text::from_str(alloc, "t")?);
    Ok(
        executed(alloc, &mut short, "SELECT 1")?.as_str()
            == "Error 9: interrupted after 3 instructions"
            && says(
                alloc,
                Cause::SinkFault,
                "Error 10: the sink of the rows failed",
            )?
            && says(alloc, Cause::Mem, "Error 7: out of memory")?
            && says(alloc, full, "Error 13: table is full: t")?
            && says(alloc, Cause::Denied(3), "Error 23: denied: action 3")?,
    )
}

#[test]
fn queries_answer_what_they_mean(rt: HostRuntime) -> Result<(), Fail> {
    let alloc = rt.alloc();
    let mut db = Connection::new(alloc, DEFAULT_BUDGET);
    assert!(rt; queries(alloc, &mut db)?);
    assert!(rt; executions(alloc, &mut db)?);
    assert!(rt; explanations(alloc, &db)?);
    assert!(rt; others(alloc)?);
    Ok(())
}
