//! Octets that a machine writes, as `script_lines` has it of texts.
ghost use Rattle.std.specs.Prelude.{◌≡◌, IfOk, List, ℕ};
ghost use Rattle.script_lines.specs.Clauses.{IsWritten};

use plc_base::{Sink, write_all};
use script_lines::StopReason;
use std::alloc::AllocError;

/// Writes octets, if there was memory for them. Never `BadLine`.
pub fn write_octets<K: Sink>(
    sink: &mut K,
    made: Result<Vec<u8>, AllocError>,
) -> Result<(), StopReason>
    ensures { (t : List ℕ) → IfOk made (λ octets. octets.items ≡ t)
        → IsWritten (K.state sink.old) (K.state sink.new) t result }
{
    match made {
        Err(_) => Err(StopReason::Memory),
        Ok(octets) => match write_all(sink, octets.as_slice()) {
            Ok(()) => Ok(()),
            Err(_) => Err(StopReason::WriteFault),
        },
    }
}
