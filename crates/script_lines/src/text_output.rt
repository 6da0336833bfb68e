//! Texts that a machine writes.
ghost use Rattle.std.specs.Prelude.{◌≡◌, IfOk, OnOk, IsErr, string_bytes, List, ℕ};
ghost use Rattle.script_lines.specs.Clauses.{IsWritten, StopsWith};

use plc_base::{Sink, write_all};
use std::alloc::AllocError;

/// Why a machine's call ends the run.
#[derive(Clone, Copy, Debug, PartialEq, Eq)]
pub enum StopReason {
    /// The line is bad, and its report was written.
    BadLine,
    /// There was not enough memory. A prefix of the text was written.
    Memory,
    /// The sink failed. A prefix of the text was written.
    WriteFault,
}

/// Writes a text, if there was memory for it. Never `BadLine`.
pub fn write_text<K: Sink>(sink: &mut K, text: Result<String, AllocError>) -> Result<(), StopReason>
    ensures is_written { (t : List ℕ) → IfOk text (λ s. string_bytes s ≡ t)
        → IsWritten (K.state sink.old) (K.state sink.new) t result }
    ensures memory { result ≡ Err StopReason.Memory → IsErr text }
{
    match text {
        Err(_) => Err(StopReason::Memory),
        Ok(text) => write_made(sink, Ok(()), text.as_str()),
    }
}

/// Writes a text that is in a buffer, if there was memory to make it. Never `BadLine`.
pub fn write_made<K: Sink>(
    sink: &mut K,
    made: Result<(), AllocError>,
    text: &str,
) -> Result<(), StopReason>
    ensures is_written { (t : List ℕ) → OnOk made (text.now ≡ t)
        → IsWritten (K.state sink.old) (K.state sink.new) t result }
    ensures memory { result ≡ Err StopReason.Memory → IsErr made }
{
    match made {
        Err(_) => Err(StopReason::Memory),
        Ok(()) => match write_all(sink, text.as_bytes()) {
            Ok(()) => Ok(()),
            Err(_) => Err(StopReason::WriteFault),
        },
    }
}

/// Writes the report of a bad line, at which the run stops.
pub fn stop<K: Sink>(sink: &mut K, text: Result<String, AllocError>) -> Result<(), StopReason>
    ensures stops { (t : List ℕ) → IfOk text (λ s. string_bytes s ≡ t)
        → StopsWith (K.state sink.old) (K.state sink.new) t result }
    ensures memory { result ≡ Err StopReason.Memory → IsErr text }
{
    match write_text(sink, text) {
        Ok(()) => Err(StopReason::BadLine),
        Err(reason) => Err(reason),
    }
}
