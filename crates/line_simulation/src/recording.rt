//! The line that a simulation runs.
ghost use Rattle.std.specs.Prelude.{◌≡◌};
ghost use Rattle.std.specs.Option.{option_copied};
ghost use Rattle.line_simulation.specs.Recorders.{Records, Remarks};

use crate::facts::Facts;
use line_events::Event;

/// Why an event, or a remark, is not recorded.
#[derive(Clone, Copy, Debug, PartialEq, Eq)]
pub enum RecordFault {
    /// The script has no room for it.
    Full,
    /// The line does not take the event, or its script cannot have it next.
    Refused,
    Memory,
}

/// What was counted in a line.
#[derive(Clone, Copy, Debug, PartialEq, Eq)]
pub struct Counted {
    pub events: u32,
    pub flights: u32,
    /// The events that were forged.
    pub forged: u32,
}

/// A line that takes events, and the script of those that it took.
pub trait Recording: Drop {
    ghost use Rattle.line_simulation.specs.Recorders.{Recorder};

    /// What it makes of events and remarks.
    ghost recorder: { Recorder Self };

    /// Steps the line by an event, writes its line, and answers what it brought.
    fn record(&mut self, event: &Event<'_>) -> Result<Facts, RecordFault>
        ensures { Records result (recorder.recorded event.now self.old) self.new };

    /// Writes a remark, one line, with its time in thousandths of a second, which is no earlier than that of the line before.
    fn remark(&mut self, at: u64, remark: &str) -> Result<(), RecordFault>
        ensures { Remarks result (recorder.remarked at remark.now self.old) self.new };

    /// The octets of a flight.
    fn flight(&self, flight: u32) -> Option<&[u8]>
        ensures { option_copied result ≡ recorder.flight flight self.now };

    /// The node that sent a flight.
    fn flight_sender(&self, flight: u32) -> Option<u32>
        ensures { result ≡ recorder.sender flight self.now };

    /// What was counted so far.
    fn counted(&self) -> Counted
        ensures { result.flights ≡ recorder.flights self.now };

    /// The clock of the line, in seconds.
    fn clock(&self) -> u64
        ensures { result ≡ recorder.clock self.now };

    /// How many events more the script may have.
    fn room(&self) -> u32
        ensures { result ≡ recorder.room self.now };
}
