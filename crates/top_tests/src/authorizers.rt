// Scripts whose statements an authorizer is asked about.
use crate::authorizer_tables::{DENIED, IGNORED, ORDER, UNTOLD, UNTOLD_LINES};
use crate::scripts::{Answer, answer_with, source_of};
use eng_value::{ActionKind, Verdict};
use host_fakes::{TableAuthorizer, UntoldAuthorizer, VerdictRow};
use sql_shell::Hosts;
use std::alloc::{AllocError, Global};
use std::test::Fail;

// The words of a row of verdicts.
fn words_of(alloc: Global, row: &[u8]) -> Result<Vec<String>, AllocError> {
    let mut words = Vec::new(alloc);
    for word in row.split(|b| *b == b' ') {
        words.push(String::from_utf8_lossy(alloc, word)?)?;
    }
    Ok(words)
}

fn kind_of(word: &str) -> Option<ActionKind> {
    match word {
        "select" => Some(ActionKind::Select),
        "read" => Some(ActionKind::Read),
        "function" => Some(ActionKind::Function),
        "insert" => Some(ActionKind::Insert),
        "update" => Some(ActionKind::Update),
        "delete" => Some(ActionKind::Delete),
        "create_table" => Some(ActionKind::CreateTable),
        "drop_table" => Some(ActionKind::DropTable),
        "pragma" => Some(ActionKind::Pragma),
        _ => None,
    }
}

fn verdict_of(word: &str) -> Option<Verdict> {
    match word {
        "allow" => Some(Verdict::Allow),
        "deny" => Some(Verdict::Deny),
        "ignore" => Some(Verdict::Ignore),
        _ => None,
    }
}

// A name, where `-` is that there is none.
fn name_of(word: &str) -> &str {
    match word {
        "-" => "",
        name => name,
    }
}

// The row of these words, where they are words of a row.
fn row_of(alloc: Global, words: &[String]) -> Result<Option<VerdictRow>, AllocError> {
    let [kind, first, second, verdict] = words else {
        return Ok(None);
    };
    let (Some(kind), Some(verdict)) = (kind_of(kind.as_str()), verdict_of(verdict.as_str())) else {
        return Ok(None);
    };
    let first = name_of(first.as_str());
    let second = name_of(second.as_str());
    Ok(Some(VerdictRow::new(alloc, kind, first, second, verdict)?))
}

// Rows of verdicts, where all of them are rows.
fn rows_of(alloc: Global, written: &[u8]) -> Result<Option<Vec<VerdictRow>>, AllocError> {
    let mut rows = Vec::new(alloc);
    for row in written.split(|b| *b == b',') {
        let words = words_of(alloc, row)?;
        match row_of(alloc, &words)? {
            Some(row) => rows.push(row)?,
            None => return Ok(None),
        }
    }
    Ok(Some(rows))
}

// What a script comes to where this authorizer is asked.
fn answer_by_table(
    alloc: Global,
    rows: Vec<VerdictRow>,
    script: &[u8],
) -> Result<Answer, AllocError> {
    let mut hosts = Hosts::new();
    hosts.set_authorizer(Box::new(alloc, TableAuthorizer::new(rows))?);
    let mut src = source_of(alloc, script, 10_000, &[])?;
    answer_with(alloc, &mut hosts, b"", &mut src, 4096, &[])
}

// A program that lets nobody see a column or use another one, and keeps a table.
fn staff(alloc: Global) -> Result<Answer, AllocError> {
    let mut rows = Vec::new(alloc);
    rows.push(VerdictRow::new(alloc, ActionKind::Read, "staff", "pay", Verdict::Ignore)?)?;
    rows.push(VerdictRow::new(alloc, ActionKind::Read, "staff", "notes", Verdict::Deny)?)?;
    rows.push(VerdictRow::new(alloc, ActionKind::DropTable, "staff", "", Verdict::Deny)?)?;
    let script = b"CREATE TABLE staff(name TEXT, pay INTEGER, notes TEXT);
        INSERT INTO staff VALUES('Ann', 50, 'new');
        SELECT name, pay FROM staff;
        SELECT name FROM staff WHERE notes = 'new';
        DROP TABLE staff;
        SELECT name FROM staff;";
    answer_by_table(alloc, rows, script)
}

const STAFF_LINES: &[u8] = b"Ann|\nError 23: denied: action 3\nError 23: denied: action 1\nAnn\n";

// Whether a case comes to what it should.
fn is_well(alloc: Global, case: &[u8]) -> Result<bool, AllocError> {
    let mut parts = case.split(|b| *b == b'~');
    let (Some(_), Some(rows), Some(script)) = (parts.next(), parts.next(), parts.next()) else {
        return Ok(false);
    };
    let (Some(written), Some([status])) = (parts.next(), parts.next()) else {
        return Ok(false);
    };
    let Some(rows) = rows_of(alloc, rows)? else {
        return Ok(false);
    };
    let got = answer_by_table(alloc, rows, script)?;
    Ok(got.is(written, status.wrapping_sub(b'0')))
}

// How many cases of a table come to what they should.
fn count_well(alloc: Global, table: &[u8]) -> Result<u64, AllocError> {
    let mut count = 0u64;
    for case in table.split(|b| *b == b'@') {
        if is_well(alloc, case)? {
            count = count.saturating_add(1);
        }
    }
    Ok(count)
}

// ---- an authorizer that tells nothing

// What a script comes to over it.
fn untold(alloc: Global) -> Result<Answer, AllocError> {
    let mut hosts = Hosts::new();
    hosts.set_authorizer(Box::new(alloc, UntoldAuthorizer::new())?);
    let mut src = source_of(alloc, UNTOLD, 10_000, &[])?;
    answer_with(alloc, &mut hosts, b"", &mut src, 4096, &[])
}

#[test]
fn authorizers_are_asked(rt: HostRuntime) -> Result<(), Fail> {
    let alloc = rt.alloc();
    assert!(rt; staff(alloc)?.is(STAFF_LINES, 1));
    assert_eq!(rt; count_well(alloc, DENIED)?, 23);
    assert_eq!(rt; count_well(alloc, ORDER)?, 9);
    assert_eq!(rt; count_well(alloc, IGNORED)?, 17);
    assert!(rt; untold(alloc)?.is(UNTOLD_LINES, 1));
    Ok(())
}
