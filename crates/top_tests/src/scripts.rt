// Scripts over memory, with what they write and the status that they end with.
ghost use Rattle.std.specs.Prelude.{◌≡◌, ◌<◌};

use crate::script_tables::{FAULTS, WORKED};
use eng_value::Steps;
use host_traits::{MemorySink, MemorySource, ReadAnswer, Sink, Source};
use sql_shell::{Hosts, JoinOrder, run};
use std::alloc::{AllocError, Global};
use std::marker::Brand;
use std::sync::ledger::{Blank, Ledger};
use std::test::Fail;

// Runs with steps that nobody reads.
fn run_uncounted<S: Source, K: Sink, L: Ledger>(
    blank: Blank,
    alloc: Global,
    words: &[String],
    hosts: &mut Hosts,
    src: &mut S,
    out: &mut K,
) -> u8
    requires name { blank.name ≡ L.name }
    requires parts { blank.parts ≡ L.parts }
    requires some { 0 < blank.parts }
{
    let mut steps = Steps::<L>::new(blank);
    run(
        alloc,
        words,
        JoinOrder::Cheapest,
        hosts,
        src,
        out,
        &mut steps,
    )
}

#[test]
fn a_program_runs_a_script(rt: HostRuntime) -> Result<(), Fail> {
    let alloc = rt.alloc();
    let words = vec![in alloc; "my_program".to_string(alloc)?]?;
    let script = b"CREATE TABLE t(a INTEGER, b TEXT);
        INSERT INTO t VALUES(12, 'x');
        SELECT b, a FROM t WHERE a > 3;";
    let mut src = MemorySource::new(script.to_vec(alloc)?, 4096, Vec::new(alloc));
    let mut out = MemorySink::new(Vec::new(alloc), 4096, Vec::new(alloc));
    let status = run_uncounted::<_, _, Brand>(
        Blank::new(1),
        alloc,
        &words,
        &mut Hosts::new(),
        &mut src,
        &mut out,
    );
    assert_eq!(rt; out.bytes(), b"x|12\n".as_slice());
    assert_eq!(rt; status, 0);
    Ok(())
}

/// What a run came to.
#[derive(Drop)]
pub(crate) struct Answer {
    status: u8,
    out: MemorySink,
}

impl Answer {
    pub(crate) fn is(&self, written: &[u8], status: u8) -> bool {
        self.status == status && self.out.bytes() == written
    }
}

// The program's name and these words, between which there are spaces.
fn command_line(alloc: Global, words: &[u8]) -> Result<Vec<String>, AllocError> {
    let mut line = Vec::new(alloc);
    line.push("sqlsh".to_string(alloc)?)?;
    for word in words.split(|b| *b == b' ') {
        if !word.is_empty() {
            line.push(String::from_utf8_lossy(alloc, word)?)?;
        }
    }
    Ok(line)
}

// A source of a script, of which so many bytes are read at a time, and whose reads of these numbers fail.
pub(crate) fn source_of(
    alloc: Global,
    script: &[u8],
    piece: usize,
    reads: &[u64],
) -> Result<MemorySource, AllocError> {
    let failing = reads.to_vec(alloc)?;
    Ok(MemorySource::new(script.to_vec(alloc)?, piece.max(1), failing))
}

// What a run over a source comes to. The sink takes so many bytes at a time, and its writes of these numbers fail.
fn answer_from(
    alloc: Global,
    words: &[u8],
    src: &mut MemorySource,
    most: usize,
    writes: &[u64],
) -> Result<Answer, AllocError> {
    answer_with(alloc, &mut Hosts::new(), words, src, most, writes)
}

// The same with these hosts.
pub(crate) fn answer_with(
    alloc: Global,
    hosts: &mut Hosts,
    words: &[u8],
    src: &mut MemorySource,
    most: usize,
    writes: &[u64],
) -> Result<Answer, AllocError> {
    let failing = writes.to_vec(alloc)?;
    let line = command_line(alloc, words)?;
    let mut out = MemorySink::new(Vec::new(alloc), most.max(1), failing);
    let status = run_uncounted::<_, _, Brand>(Blank::new(1), alloc, &line, hosts, src, &mut out);
    Ok(Answer { status, out })
}

// What a script comes to of which so many bytes are read at a time and three are written, where the reads and the writes of these
// numbers fail.
fn answer_to(
    alloc: Global,
    script: &[u8],
    piece: usize,
    reads: &[u64],
    writes: &[u64],
) -> Result<Answer, AllocError> {
    let mut src = source_of(alloc, script, piece, reads)?;
    answer_from(alloc, b"", &mut src, 3, writes)
}

// Whether a case comes to what it should, where the reads of these numbers fail.
fn is_well(alloc: Global, case: &[u8], reads: &[u64]) -> Result<bool, AllocError> {
    let mut parts = case.split(|b| *b == b'~');
    let (Some(_), Some(words), Some(script)) = (parts.next(), parts.next(), parts.next()) else {
        return Ok(false);
    };
    match (parts.next(), parts.next()) {
        (Some(written), Some([status])) => {
            let mut src = source_of(alloc, script, 10_000, reads)?;
            let got = answer_from(alloc, words, &mut src, 4096, &[])?;
            Ok(got.is(written, status.wrapping_sub(b'0')))
        }
        _ => Ok(false),
    }
}

// How many of so many cases of a table come to what they should, where the reads of these numbers fail.
fn count_well(alloc: Global, table: &[u8], reads: &[u64]) -> Result<u64, AllocError> {
    let mut count = 0u64;
    for case in table.split(|b| *b == b'@') {
        if is_well(alloc, case, reads)? {
            count = count.saturating_add(1);
        }
    }
    Ok(count)
}

// How many reads of three bytes come before the one that fails, and what is written then; the tenth read is the end.
const READS: [(u64, &[u8], u8); 12] = [
    (0, b"", 3),
    (1, b"", 3),
    (2, b"", 3),
    (3, b"1\n", 3),
    (4, b"1\n", 3),
    (5, b"1\n", 3),
    (6, b"1\n2\n", 3),
    (7, b"1\n2\n", 3),
    (8, b"1\n2\n", 3),
    (9, b"1\n2\n3\n", 3),
    (10, b"1\n2\n3\n", 0),
    (11, b"1\n2\n3\n", 0),
];

// What is pending does not run behind a failed read.
fn reads_fail(alloc: Global) -> Result<bool, AllocError> {
    for (call, written, status) in READS {
        let got = answer_to(alloc, b"SELECT 1;SELECT 2;SELECT 3;", 3, &[call], &[])?;
        if !got.is(written, status) {
            return Ok(false);
        }
    }
    Ok(true)
}

const PIECES: &[u8] =
    b".x\r\nSELECT '\xC3\xA9';-- \xC3\xA9\n/* ; */\n.y\r\nSELECT 1\n.5;SELECT ';'\r\n;;\nSELECT 2";

const PIECES_LINES: &[u8] = b"Error 1: unknown dot line\n\xC3\xA9\nError 1: unknown dot line\n\
    Error 1: syntax error at byte 9\n;\n2\n";

// Pieces of every size are one script. Not even a character is whole in a piece of one byte.
fn pieces_are_one(alloc: Global) -> Result<bool, AllocError> {
    for piece in 1..80 {
        if !answer_to(alloc, PIECES, piece, &[], &[])?.is(PIECES_LINES, 1) {
            return Ok(false);
        }
    }
    Ok(true)
}

// Two statements with their rows, a refusal, a dot line and a bad character.
const LONG: &[u8] =
    b"CREATE TABLE t(a INTEGER, b TEXT); INSERT INTO t VALUES(12, 'x'); SELECT b, a FROM t;
    INSERT INTO u VALUES(1); SELECT b, a FROM t;
.x
\xC0";

// Its lines, of 5, 26, 5, 26 and 31 bytes: 33 writes of three bytes at most.
const LONG_LINES: &[u8] = b"x|12
Error 1: no such table: u
x|12
Error 1: unknown dot line
Error 1: not UTF-8 at byte 138
";

// Where one of its writes fails, a script writes a front of its lines, and ends with status 3.
fn writes_fail(alloc: Global) -> Result<bool, AllocError> {
    for call in 0..33 {
        let got = answer_to(alloc, LONG, 7, &[], &[call])?;
        let written = got.out.bytes();
        if got.status != 3
            || !LONG_LINES.starts_with(written)
            || written.len() >= LONG_LINES.len()
        {
            return Ok(false);
        }
    }
    Ok(answer_to(alloc, LONG, 7, &[], &[33])?.is(LONG_LINES, 1))
}

const USAGE: &[u8] = b"usage: sqlsh [--budget N] [--bail] [--make N]\n";

// Whether these words are refused with what is written, where the writes of these numbers fail, and nothing is read.
fn is_refused(
    alloc: Global,
    words: &[u8],
    writes: &[u64],
    written: &[u8],
) -> Result<bool, AllocError> {
    let mut src = source_of(alloc, b"SELECT 1;", 1000, &[])?;
    let got = answer_from(alloc, words, &mut src, 3, writes)?;
    Ok(got.is(written, 2) && src.read(&mut [0u8; 20]) == ReadAnswer::Got(9))
}

// Where the usage line is cut by a write that fails, the status stays 2.
fn refused_words(alloc: Global) -> Result<bool, AllocError> {
    for words in b"--budget 0,--bail --bail,x,--make 3".split(|b| *b == b',') {
        if !is_refused(alloc, words, &[], USAGE)? || !is_refused(alloc, words, &[1], b"usa")? {
            return Ok(false);
        }
    }
    Ok(true)
}

#[test]
fn scripts_write_their_lines(rt: HostRuntime) -> Result<(), Fail> {
    let alloc = rt.alloc();
    assert_eq!(rt; count_well(alloc, WORKED, &[])?, 20);
    assert_eq!(rt; count_well(alloc, FAULTS, &[1])?, 25);
    assert!(rt; reads_fail(alloc)?);
    assert!(rt; pieces_are_one(alloc)?);
    assert!(rt; writes_fail(alloc)?);
    assert!(rt; refused_words(alloc)?);
    Ok(())
}

const WANTING: &[u8] =
    b"CREATE TABLE t(a INTEGER, b TEXT);INSERT INTO t VALUES(1,'x');INSERT INTO t VALUES(2);\
    SELECT b, a FROM t WHERE a > 0";

const WANTING_LINES: &[u8] = b"Error 1: wrong number of values: t\nx|1\n";

fn is_front_or_whole(alloc: Global) -> Result<bool, AllocError> {
    let got = answer_to(alloc, WANTING, 1000, &[], &[])?;
    let is_front = got.status == 4 && WANTING_LINES.starts_with(got.out.bytes());
    Ok(is_front || got.is(WANTING_LINES, 1))
}

// For runs in which an allocation fails: no answer changes in place of status 4.
#[test]
fn want_of_memory_leaves_a_front_of_the_lines(rt: HostRuntime) -> Result<(), Fail> {
    assert!(rt; is_front_or_whole(rt.alloc())?);
    Ok(())
}
