//! The shell: the engine over standard input and standard output.
//!
//! `main` makes the adapters over the two streams and calls sql_shell's `run`. All that is printed goes to standard
//! output, and the exit status is the one that `run` answers.
#![tactic(auto)]

ghost use Rattle.std.specs.Prelude.{◌≡◌, ◌<◌, ◌≤◌, ◌⊎◌, map, string_bytes, None};
ghost use Rattle.host_traits.specs.Faults.{Rose};
ghost use Rattle.shell_words.specs.CommandLine.{options_of};

use eng_value::Steps;
use host_traits::{Sink, Source, StreamSink, StreamSource};
use sql_shell::{Hosts, JoinOrder, run};
use std::alloc::{AllocError, Global};
use std::env;
use std::io::{self, ErrorKind};
use std::marker::Brand;
use std::process::ExitCode;
use std::rt::Env;
use std::sync::ledger::{Blank, Ledger};

/// The status for want of memory, as `run` answers it.
const OUT_OF_MEMORY: u8 = 4;

// Runs with steps that nobody reads.
fn run_uncounted<S: Source, K: Sink, L: Ledger>(
    blank: Blank,
    alloc: Global,
    words: &[String],
    order: JoinOrder,
    src: &mut S,
    out: &mut K,
) -> u8
    requires name { blank.name ≡ L.name }
    requires parts { blank.parts ≡ L.parts }
    requires some { 0 < blank.parts }
    ensures refused { result ≡ 2 → options_of (map string_bytes words.now) ≡ None }
    ensures words { options_of (map string_bytes words.now) ≡ None → (result ≡ 2) ⊎ (result ≡ 4) }
    ensures fault { result ≡ 3 →
        Rose (S.fault_count src.old) (S.fault_count src.new) ⊎ Rose (K.fault_count out.old) (K.fault_count out.new) }
    ensures statuses { result ≤ 5 }
{
    let mut hosts = Hosts::new();
    let mut steps = Steps::<L>::new(blank);
    run(alloc, words, order, &mut hosts, src, out, &mut steps)
}

// The words of the command line, the program's name first. One that is no text is refused, so a word stands for such a line that
// is none of the command.
fn command_words<R: Env + AllocGlobal>(rt: &R) -> Result<Vec<String>, AllocError> {
    let alloc = rt.alloc();
    let mut words = Vec::new(alloc);
    match env::args(rt) {
        Ok(args) => {
            for word in args {
                words.push(word)?;
            }
        }
        Err(error) => {
            if error.kind() != ErrorKind::InvalidData {
                return Err(AllocError);
            }
            words.push("sqlsh".to_string(alloc)?)?;
            words.push("?".to_string(alloc)?)?;
        }
    }
    Ok(words)
}

// The order of the loops of joins: that of the number in the environment's SQLSH_JOIN_ORDER, which tests set, or the cheapest one.
fn join_order<R: Env + AllocGlobal>(rt: &R) -> JoinOrder {
    match env::var(rt, "SQLSH_JOIN_ORDER") {
        Ok(text) => match text.parse::<u64>() {
            Ok(number) => JoinOrder::Numbered(number),
            Err(_) => JoinOrder::Cheapest,
        },
        Err(_) => JoinOrder::Cheapest,
    }
}

fn main(rt: HostRuntime) -> ExitCode {
    let alloc = rt.alloc();
    let words = match command_words(&rt) {
        Ok(words) => words,
        Err(_) => return ExitCode::from(OUT_OF_MEMORY),
    };
    let mut src = StreamSource::new(rt.reader());
    let mut out = StreamSink::new(io::writer(&rt));
    let order = join_order(&rt);
    let status = run_uncounted::<_, _, Brand>(
        Blank::new(1),
        alloc,
        &words,
        order,
        &mut src,
        &mut out,
    );
    ExitCode::from(status)
}
