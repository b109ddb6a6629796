// Reading a script up to its ending.
ghost use Rattle.std.specs.Prelude.{◌≡◌, ◌≢◌, ◌≤◌, ◌+◌, length, IfOk};
ghost use Rattle.std.specs.Io.KnownBytes.{Consumes};
ghost use Rattle.sql_meaning.specs.Due.{ForTold, MayEnd};
ghost use Rattle.host_traits.specs.Faults.{Rose};

use eng_value::MAX_SCRIPT_BYTES;
use host_traits::{ReadAnswer, Source};
use sql_meaning::Ending;
use std::alloc::{AllocError, Global};

/// How many bytes are asked for at a time.
const CHUNK: usize = 4096;

/// The bytes that were read, and their ending. Where it is `TooLong` the last of them is the one past the limit.
#[derive(Drop)]
pub(crate) struct Script {
    pub bytes: Vec<u8>,
    pub ending: Ending,
}

/// Reads up to the end, a fault or the first byte past the limit.
pub(crate) fn read_script<S: Source>(alloc: Global, src: &mut S) -> Result<Script, AllocError>
    ensures bytes { IfOk result (λ script. Consumes (S.left src.old) (S.left src.new) script.bytes.items) }
    ensures ending { IfOk result (λ script. MayEnd script.bytes.items (S.left src.new) script.ending) }
    ensures short { IfOk result (λ script.
        script.ending ≢ Ending.TooLong → length script.bytes.items ≤ MAX_SCRIPT_BYTES) }
    ensures fault { IfOk result (λ script.
        script.ending ≡ Ending.ReadFault → Rose (S.fault_count src.old) (S.fault_count src.new)) }
    ensures most { ForTold (S.left src.old) (S.left src.new) (λ bytes. length bytes ≤ MAX_SCRIPT_BYTES + 1) }
    ensures later { S.fault_count src.old ≤ S.fault_count src.new }
{
    let mut bytes = Vec::new(alloc);
    let mut chunk = [0u8; CHUNK];
    while bytes.len() <= MAX_SCRIPT_BYTES {
        let room = CHUNK.min(MAX_SCRIPT_BYTES + 1 - bytes.len());
        match src.read(&mut chunk[..room]) {
            ReadAnswer::Got(n) => bytes.extend_from_slice(&chunk[..n])?,
            ReadAnswer::End => {
                return Ok(Script {
                    bytes,
                    ending: Ending::End,
                });
            }
            ReadAnswer::Failed => {
                return Ok(Script {
                    bytes,
                    ending: Ending::ReadFault,
                });
            }
        }
    }
    Ok(Script {
        bytes,
        ending: Ending::TooLong,
    })
}
