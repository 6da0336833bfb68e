//! A text that is known before it is written.
ghost use Rattle.script_runs.specs.Texts.{WritesText};

use crate::status::Status;
use plc_base::{Sink, write_all};

/// Writes a text, and answers `done` where all of it was written. `WriteFault` is returned where the sink failed: a prefix of the text was written.
pub fn write_whole<K: Sink>(sink: &mut K, text: &[u8], done: Status) -> Status
    ensures { WritesText text.now done (K.state sink.old) (K.state sink.new) result }
{
    match write_all(sink, text) {
        Ok(()) => done,
        Err(_) => Status::WriteFault,
    }
}
