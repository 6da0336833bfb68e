//! Where a walk over the events of a run is, and the time of what happens there.
ghost use Rattle.std.specs.Prelude.{◌≡◌, ◌+◌, ◌<◌, ◌≤◌, ◌^◌};
ghost use Rattle.line_capture.specs.Places as places;

use line_record::{Act, RecordedEvent};

// A second.
const NANOSECONDS: u64 = 1_000_000_000;

// What lies between two events of one second. An event has fewer packets.
const STEP: u64 = 1_000;

/// Where a walk over the events of a run is: at an event, before it happens.
#[derive(Clone, Copy, Debug, PartialEq, Eq)]
pub struct Place {
    /// The number of the event, from 1.
    pub number: usize,
    /// The clock, in seconds.
    pub clock: u64,
    /// How many events came since the clock moved.
    pub since: u64,
    /// The number of the next flight.
    pub flight: usize,
    /// How many events before it brought octets that no node sent.
    pub injected: usize,
}

// The clock after an event.
fn clock_after(act: &Act, clock: u64) -> u64
    requires act { places.IsAct act.now }
    requires room { clock + 86400 < u64.MAX }
    ensures { result ≡ places.clock_after act.now clock }
{
    match act {
        Act::Tick { seconds } => clock + u64::from(*seconds),
        _ => clock,
    }
}

// How many events came since the clock moved, this one among them.
fn since_after(act: &Act, since: u64) -> u64
    requires { since + 1 < u64.MAX }
    ensures { result ≡ places.since_after act.now since }
{
    match act {
        Act::Tick { .. } => 0,
        _ => since + 1,
    }
}

fn injected_after(act: &Act, injected: usize) -> usize
    requires { injected + 1 < usize.MAX }
    ensures { result ≡ places.injected_after act.now injected }
{
    match act {
        Act::Inject { .. } => injected + 1,
        _ => injected,
    }
}

impl Place {
    /// At the first event.
    pub fn start() -> Place
        ensures { result ≡ places.start }
    {
        Place {
            number: 1,
            clock: 0,
            since: 0,
            flight: 1,
            injected: 0,
        }
    }

    /// The time of an event here in nanoseconds: the clock after it, and a thousand for each event since the clock moved, this one among them.
    pub fn time(&self, act: &Act) -> u64
        requires place { places.IsPlace self.now }
        requires act { places.IsAct act.now }
        ensures time { result ≡ places.time_at self.now act.now }
        ensures bound { result < 2 ^ 63 }
    {
        clock_after(act, self.clock) * NANOSECONDS + since_after(act, self.since) * STEP
    }

    /// After an event here.
    pub fn after(&self, recorded: &RecordedEvent) -> Place
        requires place { places.IsPlace self.now }
        requires act { places.IsAct recorded.now.act }
        ensures after { result ≡ places.place_after recorded.now self.now }
        ensures place { self.now.number ≤ 50000 → places.IsPlace result }
    {
        Place {
            number: self.number + 1,
            clock: clock_after(&recorded.act, self.clock),
            since: since_after(&recorded.act, self.since),
            flight: self.flight + usize::from(recorded.flights),
            injected: injected_after(&recorded.act, self.injected),
        }
    }
}
