// Statements through a connection.
ghost use Rattle.std.specs.Prelude.{◌≡◌, ◌<◌};

use crate::memory_rows::MemoryRows;
use eng_value::{Blob, Cause, DEFAULT_BUDGET, Row, Steps, Value};
use engine::{Connection, Done, Hosts, Refusal};
use std::alloc::{AllocError, Global};
use std::marker::Brand;
use std::sync::ledger::{Blank, Ledger};
use std::test::Fail;

// What a statement came to; `Refused` has the result code of the cause.
#[derive(Clone, Copy, PartialEq)]
enum Outcome {
    Done { given: u64, changed: u64 },
    Refused(u8),
    Interrupted(u64),
}

fn outcome_of(answer: Result<Done, Refusal>) -> Outcome {
    match answer {
        Ok(done) => Outcome::Done {
            given: done.given,
            changed: done.changed,
        },
        Err(refusal) => outcome_of_cause(&refusal.cause),
    }
}

fn outcome_of_cause(cause: &Cause) -> Outcome {
    match cause {
        Cause::Interrupted(ran) => Outcome::Interrupted(*ran),
        cause => Outcome::Refused(cause.code()),
    }
}

// A connection and a sink that keeps what its statements give.
#[derive(Drop)]
struct Session {
    connection: Connection,
    rows: MemoryRows,
}

fn session_of(alloc: Global, budget: u64) -> Session {
    Session {
        connection: Connection::new(alloc, budget),
        rows: MemoryRows::new(alloc, Vec::new(alloc), Vec::new(alloc)),
    }
}

fn run_counted<L: Ledger>(
    blank: Blank,
    alloc: Global,
    session: &mut Session,
    sql: &String,
    params: &[Value],
) -> Outcome
    requires name { blank.name ≡ L.name }
    requires parts { blank.parts ≡ L.parts }
    requires some { 0 < blank.parts }
{
    let mut steps = Steps::<L>::new(blank);
    outcome_of(
        session.connection.run(
            alloc,
            &mut Hosts::new(),
            sql.as_str(),
            params,
            &mut session.rows,
            &mut steps,
        ),
    )
}

fn run(
    alloc: Global,
    session: &mut Session,
    sql: &str,
    params: &[Value],
) -> Result<Outcome, AllocError> {
    let sql = sql.to_string(alloc)?;
    Ok(run_counted::<Brand>(Blank::new(1), alloc, session, &sql, params))
}

// Whether a statement does what it means, with so many rows given and changed.
fn does(
    alloc: Global,
    session: &mut Session,
    sql: &str,
    given: u64,
    changed: u64,
) -> Result<bool, AllocError> {
    Ok(run(alloc, session, sql, &[])? == Outcome::Done { given, changed })
}

// The integers of rows, one row behind the other, a value of another type as -1.
fn integers(alloc: Global, rows: &[Row]) -> Result<Vec<i64>, AllocError> {
    let mut integers = Vec::new(alloc);
    for row in rows {
        for value in row.as_slice() {
            integers.push(integer(value))?;
        }
    }
    Ok(integers)
}

fn integer(value: &Value) -> i64 {
    match value {
        Value::Integer(n) => *n,
        _ => -1,
    }
}

// The rows of a table with their rowids in front, or one integer of 404 where there is no such table.
fn contents(alloc: Global, session: &Session, name: &str) -> Result<Vec<i64>, AllocError> {
    match session.connection.table(alloc, name) {
        Ok(Some(rows)) => integers(alloc, rows.as_slice()),
        Ok(None) => not_found(alloc),
        Err(_) => Err(AllocError),
    }
}

fn not_found(alloc: Global) -> Result<Vec<i64>, AllocError> {
    let mut integers = Vec::new(alloc);
    integers.push(404)?;
    Ok(integers)
}

fn holds(alloc: Global, session: &Session, name: &str, wanted: &[i64]) -> Result<bool, AllocError> {
    Ok(contents(alloc, session, name)?.as_slice() == wanted)
}

// Whether these are the integers that the statements gave.
fn gave(alloc: Global, session: &Session, wanted: &[i64]) -> Result<bool, AllocError> {
    Ok(integers(alloc, session.rows.rows())?.as_slice() == wanted)
}

fn gave_a_front(alloc: Global, session: &Session, whole: &[i64]) -> Result<bool, AllocError> {
    Ok(whole.starts_with(&integers(alloc, session.rows.rows())?))
}

// A table t of one column with the rows 4, 6 and 5.
fn three_rows(alloc: Global) -> Result<Session, AllocError> {
    let mut session = session_of(alloc, DEFAULT_BUDGET);
    for sql in [
        "CREATE TABLE t(a INTEGER)",
        "INSERT INTO t VALUES(4)",
        "INSERT INTO t VALUES(6)",
        "INSERT INTO t VALUES(5)",
    ] {
        if run(alloc, &mut session, sql, &[])? == Outcome::Refused(Cause::Mem.code()) {
            return Err(AllocError);
        }
    }
    Ok(session)
}

const STATEMENTS: [(&str, u64, u64); 6] = [
    ("CREATE TABLE t(a INTEGER, b INTEGER)", 0, 0),
    ("INSERT INTO t VALUES(1, 10)", 0, 1),
    ("INSERT INTO T VALUES(3, 20)", 0, 1),
    ("INSERT INTO t VALUES(2, 30)", 0, 1),
    ("SELECT b, a FROM t WHERE a > 1", 2, 0),
    ("INSERT INTO t VALUES(4, 40), ('5', 50)", 0, 2),
];

fn statements_do(alloc: Global, session: &mut Session) -> Result<bool, AllocError> {
    for (sql, given, changed) in STATEMENTS {
        if !does(alloc, session, sql, given, changed)? {
            return Ok(false);
        }
    }
    Ok(true)
}

// Statements do what they mean.
fn statements(alloc: Global) -> Result<bool, AllocError> {
    let mut session = session_of(alloc, DEFAULT_BUDGET);
    if !holds(alloc, &session, "t", &[404])? || !statements_do(alloc, &mut session)? {
        return Ok(false);
    }
    let is_numbered = session.connection.changes() == 2
        && session.connection.last_rowid() == 5
        && !session.connection.in_transaction();
    Ok(
        is_numbered
            && gave(alloc, &session, &[20, 3, 30, 2])?
            && holds(
                alloc,
                &session,
                "T",
                &[1, 1, 10, 2, 3, 20, 3, 2, 30, 4, 4, 40, 5, 5, 50],
            )?,
    )
}

const REFUSED: [&str; 9] = [
    "",
    "INSERT INTO t VALUES(7), ('1.5')",
    "INSERT INTO t VALUES(7), (1.5)",
    "INSERT INTO t VALUES(7, 8)",
    "INSERT INTO u VALUES(7)",
    "CREATE TABLE T(b TEXT)",
    "CREATE TABLE u(b REAL)",
    "SELECT b FROM t WHERE a > 1",
    "SELECT a FROM t WHERE a || x'ff'",
];

// Whether a statement is refused, gives no row and changes nothing.
fn is_refused(alloc: Global, session: &mut Session, sql: &str) -> Result<bool, AllocError> {
    let outcome = run(alloc, session, sql, &[])?;
    let is_numbered = session.connection.changes() == 1 && session.connection.last_rowid() == 3;
    Ok(
        outcome == Outcome::Refused(1)
            && is_numbered
            && session.rows.rows().is_empty()
            && holds(alloc, session, "t", &[1, 4, 2, 6, 3, 5])?,
    )
}

// A refused statement leaves the numbers.
fn refusals(alloc: Global) -> Result<bool, AllocError> {
    let mut session = three_rows(alloc)?;
    for sql in REFUSED {
        if !is_refused(alloc, &mut session, sql)? {
            return Ok(false);
        }
    }
    Ok(true)
}

// Whether a sink whose calls of these numbers fail and find no memory ends the statement with this code, and how many rows it
// takes before.
fn sink_ends(
    alloc: Global,
    failing: &[u64],
    starved: &[u64],
    code: u8,
    taken: usize,
) -> Result<bool, AllocError> {
    let mut session = three_rows(alloc)?;
    let failing = failing.to_vec(alloc)?;
    session.rows = MemoryRows::new(alloc, failing, starved.to_vec(alloc)?);
    let outcome = run(alloc, &mut session, "SELECT a FROM t", &[])?;
    Ok(
        outcome == Outcome::Refused(code)
            && session.rows.rows().len() == taken
            && session.connection.last_rowid() == 3,
    )
}

// A sink that takes no row ends the statement: it failed (10) or found no memory (7).
fn sinks(alloc: Global) -> Result<bool, AllocError> {
    Ok(
        sink_ends(alloc, &[0], &[], 10, 0)?
            && sink_ends(alloc, &[1], &[], 10, 1)?
            && sink_ends(alloc, &[2], &[], 10, 2)?
            && sink_ends(alloc, &[], &[1], 7, 1)?,
    )
}

fn blob(alloc: Global, length: usize) -> Result<Value, AllocError> {
    let mut bytes = Vec::new(alloc);
    bytes.resize(length, 0)?;
    Ok(Value::Blob(Blob::new(bytes)))
}

// The first is 5, the second 7, the third as long as may be and the fourth longer.
fn four_params(alloc: Global) -> Result<Vec<Value>, AllocError> {
    let mut params = Vec::new(alloc);
    params.push(Value::Integer(5))?;
    params.push(Value::Integer(7))?;
    params.push(blob(alloc, 1_000_000)?)?;
    params.push(blob(alloc, 1_000_001)?)?;
    Ok(params)
}

const WITH_PARAMS: [(&str, Outcome); 3] = [
    (
        "SELECT a, ?2, ? IS NULL FROM t WHERE a >= ?1",
        Outcome::Done {
            given: 2,
            changed: 0,
        },
    ),
    (
        "SELECT length(?3), ?9 IS NULL, coalesce(?1, ?4)",
        Outcome::Done {
            given: 1,
            changed: 0,
        },
    ),
    ("SELECT length(?4)", Outcome::Refused(18)),
];

fn params_count(
    alloc: Global,
    session: &mut Session,
    params: &[Value],
) -> Result<bool, AllocError> {
    for (sql, wanted) in WITH_PARAMS {
        if run(alloc, session, sql, params)? != wanted {
            return Ok(false);
        }
    }
    Ok(true)
}

// A parameter goes by its number. One that is missing is NULL, and one that is too long is bad where it is looked at.
fn parameters(alloc: Global) -> Result<bool, AllocError> {
    let params = four_params(alloc)?;
    let mut session = three_rows(alloc)?;
    Ok(
        params_count(alloc, &mut session, &params)?
            && gave(alloc, &session, &[6, 7, 0, 5, 7, 0, 1_000_000, 1, 5])?,
    )
}

// Whether two rows are put as the outcome says.
fn is_put(
    alloc: Global,
    session: &Session,
    budget: u64,
    outcome: Outcome,
) -> Result<bool, AllocError> {
    let last = session.connection.last_rowid();
    if outcome == Outcome::Interrupted(budget) {
        return Ok(last == 0 && holds(alloc, session, "t", &[])?);
    }
    let wanted = Outcome::Done {
        given: 0,
        changed: 2,
    };
    Ok(outcome == wanted && last == 2 && holds(alloc, session, "t", &[1, 7, 2, 8])?)
}

// Each statement has the whole budget. One that needs more is interrupted when all of it ran, and changes nothing.
fn is_kept(alloc: Global, budget: u64) -> Result<bool, AllocError> {
    let mut session = session_of(alloc, budget);
    run(alloc, &mut session, "CREATE TABLE t(a INTEGER)", &[])?;
    let outcome = run(alloc, &mut session, "INSERT INTO t VALUES(7), (8)", &[])?;
    let well = is_put(alloc, &session, budget, outcome)?;
    let outcome = run(alloc, &mut session, "SELECT a FROM t", &[])?;
    let is_whole = outcome != Outcome::Interrupted(budget);
    Ok(well && (is_whole || gave_a_front(alloc, &session, &[7, 8])?))
}

fn budgets(alloc: Global) -> Result<bool, AllocError> {
    for budget in 10..60 {
        if !is_kept(alloc, budget)? {
            return Ok(false);
        }
    }
    Ok(true)
}

#[test]
fn statements_do_what_they_mean(rt: HostRuntime) -> Result<(), Fail> {
    let alloc = rt.alloc();
    assert!(rt; statements(alloc)?);
    assert!(rt; refusals(alloc)?);
    assert!(rt; sinks(alloc)?);
    assert!(rt; parameters(alloc)?);
    assert!(rt; budgets(alloc)?);
    Ok(())
}

// Puts 7 and says whether the rows are then as expected, which it adds to where the row was put.
fn puts_or_not(
    alloc: Global,
    session: &mut Session,
    expected: &mut Vec<i64>,
) -> Result<bool, AllocError> {
    let outcome = run(alloc, session, "INSERT INTO t VALUES(7)", &[])?;
    let wrote = Outcome::Done {
        given: 0,
        changed: 1,
    };
    if outcome == wrote {
        expected.push(session.connection.last_rowid())?;
        expected.push(7)?;
        return Ok(true);
    }
    Ok(outcome == Outcome::Refused(Cause::Mem.code()) && holds(alloc, session, "t", expected)?)
}

fn inserts(alloc: Global) -> Result<bool, AllocError> {
    let mut session = three_rows(alloc)?;
    let mut expected = contents(alloc, &session, "t")?;
    expected.reserve(100)?;
    for _ in 0..40 {
        if !puts_or_not(alloc, &mut session, &mut expected)? {
            return Ok(false);
        }
    }
    holds(alloc, &session, "t", &expected)
}

// A table with each constraint, ten rows that keep them all, and what the table then holds: each rowid, and three values.
const CONSTRAINED: &str =
    "CREATE TABLE t(id INTEGER PRIMARY KEY, a NOT NULL DEFAULT 7, b INTEGER CHECK(b > 0), CHECK(a <> b))";

const TEN_ROWS: &str =
    "INSERT INTO t(id, b) VALUES(NULL, 1), (5, 2), (3, 3), (NULL, 4), (NULL, 5), (2, 6), (-1, 8), (NULL, 9), (NULL, 10), (0, 11)";

const ALL_TEN: [i64; 40] = [
    -1, -1, 7, 8, 0, 0, 7, 11, 1, 1, 7, 1, 2, 2, 7, 6, 3, 3, 7, 3, 5, 5, 7, 2, 6, 6, 7, 4, 7, 7, 7,
    5, 8, 8, 7, 9, 9, 9, 7, 10,
];

// Whether an INSERT puts its ten rows or, where it finds no memory or there was none for its table, changes nothing.
fn ten_rows(alloc: Global) -> Result<bool, AllocError> {
    let mut session = session_of(alloc, DEFAULT_BUDGET);
    run(alloc, &mut session, CONSTRAINED, &[])?;
    let before = contents(alloc, &session, "t")?;
    let outcome = run(alloc, &mut session, TEN_ROWS, &[])?;
    let wrote = Outcome::Done {
        given: 0,
        changed: 10,
    };
    if outcome == wrote {
        return holds(alloc, &session, "t", &ALL_TEN);
    }
    let is_due = outcome == Outcome::Refused(Cause::Mem.code())
        || before.as_slice() == [404].as_slice();
    let is_numbered = session.connection.changes() == 0 && session.connection.last_rowid() == 0;
    Ok(is_due && is_numbered && holds(alloc, &session, "t", &before)?)
}

// A test to be run where allocations fail too: an INSERT that finds no memory leaves the rows that were there. What is expected
// takes no memory in the loop.
#[test]
fn an_insert_puts_its_rows_or_changes_nothing(rt: HostRuntime) -> Result<(), Fail> {
    let alloc = rt.alloc();
    assert!(rt; inserts(alloc)?);
    assert!(rt; ten_rows(alloc)?);
    Ok(())
}
