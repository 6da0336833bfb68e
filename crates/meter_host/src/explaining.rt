//! What the program says of itself.
ghost use Rattle.plc_base.specs.Streams.{HasWritten};
ghost use Rattle.meter_host.specs.ProgramRuns.{usage_text, taken_by, Explains};

use crate::serving::Outcome;
use plc_base::{Sink, write_all};

const USAGE: &[u8; 128] =
    b"meter_host holds a meter, and talks in items of octets: docs/FORMATS.md, \"Calls of a meter and their answers\"\nusage: meter_host\n";

/// Says what the program is, where a word was given. Where the sink fails, a prefix of it was written.
pub fn explain<K: Sink>(sink: &mut K) -> Outcome
    ensures outcome { Explains result }
    ensures written { HasWritten (K.state sink.old) (K.state sink.new) (taken_by result) usage_text }
{
    match write_all(sink, USAGE) {
        Ok(()) => Outcome::Usage,
        Err(_) => Outcome::WriteFault,
    }
}
