// The top call.
ghost use Rattle.std.specs.Prelude.{◌≡◌, ◌≢◌, ◌⊎◌, ◌<◌, ◌≤◌, ◌+◌, length, map, string_bytes, None, IfSome};
ghost use Rattle.std.specs.Io.KnownBytes.{Appends, IsAtEnd};
ghost use Rattle.host_traits.specs.Faults.{Rose};
ghost use Rattle.shell_words.specs.CommandLine.{options_of};
ghost use Rattle.sql_meaning.specs.declared.script.Ending.{Ending};
ghost use Rattle.sql_meaning.specs.Due.{CutShort, ForTold, IsScript, IsFrontOfScript, MayEnd};
ghost use Rattle.sql_meaning.specs.Script.{usage_line};
ghost use Rattle.vm_core.specs.Meant.{meant};

use crate::reading::read_script;
use crate::script::run_script;
use crate::stop::Stop;
use crate::writing::write_all;
use eng_value::{MAX_SCRIPT_BYTES, Meanings, Steps};
use engine::{Hosts, JoinOrder};
use host_traits::{Sink, Source};
use shell_words::{WordsError, read_options};
use sql_meaning::Options;
use std::alloc::Global;
use std::marker::Brand;
use std::sync::ledger::Ledger;

const USAGE: &[u8] = b"usage: sqlsh [--budget N] [--bail] [--make N]\n";

/// Reads the script and runs it, for hosts that mean M's.
fn run_source<M: Meanings, S: Source, K: Sink, L: Ledger>(
    alloc: Global,
    options: Options,
    order: JoinOrder,
    hosts: &mut Hosts,
    src: &mut S,
    out: &mut K,
    steps: &mut Steps<L>,
) -> u8
    requires told { meant (λ b. verdicts (b.vtable, b.value)) hosts.old ≡ M.hosts }
    ensures script { ForTold (S.left src.old) (S.left src.new) (λ bytes. (result ≡ 4)
        ⊎ (((result ≡ 3) × Rose (K.fault_count out.old) (K.fault_count out.new))
        ⊎ ((ending : Ending) × MayEnd bytes (S.left src.new) ending
        × IsScript M.hosts options bytes ending (K.written out.old) (K.written out.new) steps.old steps.new result))) }
    ensures part { ForTold (S.left src.old) (S.left src.new) (λ bytes. IsFrontOfScript M.hosts options bytes
        (S.left src.new) (K.written out.old) (K.written out.new) steps.old steps.new) }
    ensures limit { ForTold (S.left src.old) (S.left src.new) (λ bytes. length bytes ≤ MAX_SCRIPT_BYTES + 1) }
    ensures end { result ≡ 0 → IsAtEnd (S.left src.new) }
    ensures fault { result ≡ 3 →
        Rose (S.fault_count src.old) (S.fault_count src.new) ⊎ Rose (K.fault_count out.old) (K.fault_count out.new) }
    ensures statuses { (result ≢ 2) × (result ≤ 5) }
    ensures source_count { S.fault_count src.old ≤ S.fault_count src.new }
    ensures sink_count { K.fault_count out.old ≤ K.fault_count out.new }
    ensures steps { steps.old ≤ steps.new }
    ensures hosts { meant (λ b. verdicts (b.vtable, b.value)) hosts.new ≡ M.hosts }
{
    let script = match read_script(alloc, src) {
        Ok(script) => script,
        Err(_) => return 4,
    };
    match run_script::<M, K, L>(
        alloc,
        hosts,
        options,
        order,
        &script.bytes,
        script.ending,
        steps,
        out,
    ) {
        Ok(course) => course.exit_status(script.ending),
        Err(Stop::Memory) => 4,
        Err(Stop::SinkFault) => 3,
    }
}

/// Runs the script that the source gives as the words ask for, writes the lines of its parts to the sink, and answers the exit
/// status:
///
/// - 0: the script was run to its end, and no part of it has an error line;
/// - 1: some part has an error line, and the script was run to its end, or that line ended it;
/// - 2: the words are refused (the program's name is the first); the usage line is written, and nothing is read;
/// - 3: a read or a write failed;
/// - 4: no memory was found;
/// - 5: the script is longer than 16,777,216 bytes.
///
/// A script is cut into statements, each up to its `;`, and into dot lines, which begin with a `.` where no statement is pending.
/// What is pending behind the last of them is run where the source ends, and not behind a failed read or past the limit. A character
/// that is not whole UTF-8 has an error line and ends the script; after `--bail` so does each error line. After `--budget N` a
/// statement runs N instructions at most. The loops of joins are in this order, as near as may be, which decides nothing but how long they take.
pub fn run<S: Source, K: Sink, L: Ledger>(
    alloc: Global,
    words: &[String],
    order: JoinOrder,
    hosts: &mut Hosts,
    src: &mut S,
    out: &mut K,
    steps: &mut Steps<L>,
) -> u8
    // Status 2 comes where clap refuses the words, and there it comes unless memory ran out. Nothing is read and nothing is run then.
    ensures refused { result ≡ 2 → options_of (map string_bytes words.now) ≡ None }
    ensures words { options_of (map string_bytes words.now) ≡ None → (result ≡ 2) ⊎ (result ≡ 4) }
    ensures nothing_read { options_of (map string_bytes words.now) ≡ None → src.new ≡ src.old }
    ensures nothing_run { options_of (map string_bytes words.now) ≡ None → steps.new ≡ steps.old }
    ensures usage { result ≡ 2 →
        Rose (K.fault_count out.old) (K.fault_count out.new) ⊎ Appends (K.written out.old) (K.written out.new) usage_line }
    ensures usage_part { options_of (map string_bytes words.now) ≡ None → CutShort (K.written out.old) (K.written out.new) usage_line }

    // Unless memory ran out or a write failed, all that the bytes mean was written, and the status is theirs.
    ensures script { ForTold (S.left src.old) (S.left src.new) (λ bytes.
        IfSome (options_of (map string_bytes words.now)) (λ options. (result ≡ 4)
        ⊎ (((result ≡ 3) × Rose (K.fault_count out.old) (K.fault_count out.new))
        ⊎ ((ending : Ending) × MayEnd bytes (S.left src.new) ending
        × IsScript (meant (λ b. verdicts (b.vtable, b.value)) hosts.old) options bytes ending (K.written out.old) (K.written out.new) steps.old steps.new result)))) }

    // Whatever the status, a front of what the bytes mean was written, and no more instructions were run than its own.
    ensures part { ForTold (S.left src.old) (S.left src.new) (λ bytes.
        IfSome (options_of (map string_bytes words.now)) (λ options. IsFrontOfScript (meant (λ b. verdicts (b.vtable, b.value)) hosts.old) options bytes
        (S.left src.new) (K.written out.old) (K.written out.new) steps.old steps.new)) }

    ensures limit { ForTold (S.left src.old) (S.left src.new) (λ bytes. length bytes ≤ MAX_SCRIPT_BYTES + 1) }
    ensures end { result ≡ 0 → IsAtEnd (S.left src.new) }
    ensures fault { result ≡ 3 →
        Rose (S.fault_count src.old) (S.fault_count src.new) ⊎ Rose (K.fault_count out.old) (K.fault_count out.new) }
    ensures statuses { result ≤ 5 }
    ensures source_count { S.fault_count src.old ≤ S.fault_count src.new }
    ensures sink_count { K.fault_count out.old ≤ K.fault_count out.new }
    ensures steps { steps.old ≤ steps.new }
{
    match read_options(alloc, words) {
        Ok(options) => run_source::<Brand, S, K, L>(alloc, options, order, hosts, src, out, steps),
        Err(WordsError::Usage) => {
            let _ = write_all(out, USAGE);
            2
        }
        Err(WordsError::Memory) => 4,
    }
}
