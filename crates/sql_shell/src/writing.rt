// Writing pieces of any length.
ghost use Rattle.std.specs.Prelude.{◌≡◌, ◌≤◌, OnOk, IfErr};
ghost use Rattle.std.specs.Io.KnownBytes.{Appends};
ghost use Rattle.host_traits.specs.Faults.{Rose};
ghost use Rattle.sql_meaning.specs.Due.{CutShort};

use crate::stop::Stop;
use host_traits::{Sink, WriteAnswer};

/// Writes all of a piece, unless a write fails.
pub(crate) fn write_all<K: Sink>(out: &mut K, piece: &[u8]) -> Result<(), Stop>
    ensures ok { OnOk result (Appends (K.written out.old) (K.written out.new) piece.now) }
    ensures part { CutShort (K.written out.old) (K.written out.new) piece.now }
    ensures fault { IfErr result (λ stop.
        (stop ≡ Stop.SinkFault) × Rose (K.fault_count out.old) (K.fault_count out.new)) }
    ensures later { K.fault_count out.old ≤ K.fault_count out.new }
{
    let mut rest = piece;
    while !rest.is_empty() {
        match out.write(rest) {
            WriteAnswer::Put(n) => rest = &rest[n..],
            WriteAnswer::Failed => return Err(Stop::SinkFault),
        }
    }
    Ok(())
}
