//! Records.
ghost use Rattle.std.specs.Prelude.{◌≡◌, ◌≤◌, ◌∷◌, ◌++◌, [], OnOk, OnErr, length};
ghost use Rattle.std.specs.Option.{ForSome, option_copied};
ghost use Rattle.plc_base.specs.declared.limits.TheConstants.{LONGEST_FRAME};
ghost use Rattle.line_record.specs.RunRecords as run_records;

use crate::recorded::{RecordedEvent, RecordedFlight, recorded_event, recorded_flight};
use line_events::{Event, Happenings};
use std::alloc::{AllocError, Global};

/// The record of a run: its events and its flights, each by its number from 1.
#[derive(Drop)]
pub struct RunRecord {
    /// The events that were taken, in their order.
    pub events: Vec<RecordedEvent>,
    /// The flights, in their order.
    pub flights: Vec<RecordedFlight>,
}

impl RunRecord {
    /// The record of nothing. It takes no memory.
    pub fn new(alloc: Global) -> RunRecord
        ensures events { result.events.items ≡ [] }
        ensures flights { result.flights.items ≡ [] }
    {
        RunRecord {
            events: Vec::new(alloc),
            flights: Vec::new(alloc),
        }
    }

    /// Adds an event that was taken, by the number of its line from 1, what happened, the clock after it in seconds, and the flight before it that has the
    /// octets which are injected, 0 where none has.
    ///
    /// It fails only where memory runs out, and nothing changes then.
    pub fn push_event(
        &mut self,
        line: u32,
        event: &Event<'_>,
        happenings: &Happenings<'_>,
        clock: u64,
        same: u32,
    ) -> Result<(), AllocError>
        ensures ok { OnOk result
            (self.new.events.items ≡ self.old.events.items ++ run_records.recorded_event line event.now happenings.now clock same ∷ []) }
        ensures err { OnErr result (self.new.events.items ≡ self.old.events.items) }
        ensures flights { self.new.flights.items ≡ self.old.flights.items }
    {
        self.events
            .push(recorded_event(line, event, happenings, clock, same))?;
        Ok(())
    }

    /// Adds a frame that flew: the node that sent it, its note, its octets, its payload where that is plain or was opened, which has at most
    /// 400 octets, and the node with the EUI-64 that the payload or the header names, where there is one.
    ///
    /// It fails only where memory runs out, and nothing changes then.
    pub fn push_flight(
        &mut self,
        from: u16,
        note: u32,
        octets: &[u8],
        payload: Option<&[u8]>,
        device: Option<u32>,
    ) -> Result<(), AllocError>
        requires { ForSome payload (λ p. length p.now ≤ LONGEST_FRAME) }
        ensures ok { OnOk result
            (self.new.flights.items
            ≡ self.old.flights.items ++ run_records.recorded_flight from note octets.now (option_copied payload.entry) device ∷ []) }
        ensures err { OnErr result (self.new.flights.items ≡ self.old.flights.items) }
        ensures events { self.new.events.items ≡ self.old.events.items }
    {
        self.flights
            .push(recorded_flight(from, note, octets, payload, device))?;
        Ok(())
    }

    /// The event of a number, from 1. None if there is none.
    pub fn event(&self, number: usize) -> Option<&RecordedEvent>
        ensures { option_copied result ≡ run_records.numbered self.now.events.items number }
    {
        if number == 0 {
            return None;
        }
        self.events.get(number - 1)
    }

    /// The flight of a number, from 1. None if there is none.
    pub fn flight(&self, number: usize) -> Option<&RecordedFlight>
        ensures { option_copied result ≡ run_records.numbered self.now.flights.items number }
    {
        if number == 0 {
            return None;
        }
        self.flights.get(number - 1)
    }
}
