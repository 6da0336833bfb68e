//! A run, as readings go by it.
ghost use Rattle.std.specs.Prelude.{◌≡◌};
ghost use Rattle.std.specs.Option.{option_copied};
ghost use Rattle.line_record.specs.RunRecords as run_records;
ghost use Rattle.line_readings.specs.Readings.{reached_in};

use line_record::{Act, Course, Ends, RecordedEvent, RecordedFlight, Story, sends};

/// What a run was: its events and flights, and its stories with what became of each. Numbers are from 1, 0 is none.
#[derive(Clone, Copy)]
pub struct Run<'a> {
    /// The events.
    pub events: &'a [RecordedEvent],
    /// The flights.
    pub flights: &'a [RecordedFlight],
    /// What became of each flight.
    pub courses: &'a [Course],
    /// The stories.
    pub stories: &'a [Story],
    /// What there is of the flights of each story.
    pub ends: &'a [Ends],
    /// The story of each event.
    pub owners: &'a [usize],
}

/// What stands under a number from 1.
pub fn numbered<T>(items: &[T], number: usize) -> Option<&T>
    ensures { option_copied result ≡ run_records.numbered items.now number }
{
    if number == 0 {
        return None;
    }
    items.get(number - 1)
}

/// Whether an event sends a datagram from a node to a node, and it went out or waits.
pub fn is_send(event: &RecordedEvent, one: u32, other: u32) -> bool {
    match &event.act {
        Act::Send { from, to, .. } => {
            *from == one && *to == other && sends(&event.act, event.answer)
        }
        _ => false,
    }
}

/// The event at which the datagram of a story was handed up first, if it was.
pub fn reached_in(stories: &[Story], number: usize) -> Option<usize>
    ensures { result ≡ reached_in stories.now number }
{
    let Some(story) = numbered(stories, number) else {
        return None;
    };
    story.reached
}

impl<'a> Run<'a> {
    /// The story of a datagram that the event of a number sends from a node to a node; 0 where it sends none.
    pub fn sent_at(&self, number: usize, from: u32, to: u32) -> usize {
        let Some(event) = numbered(self.events, number) else {
            return 0;
        };
        if !is_send(event, from, to) {
            return 0;
        }
        self.owner(number)
    }

    // The story of the event of a number, 0 if there is none.
    fn owner(&self, number: usize) -> usize {
        match numbered(self.owners, number) {
            Some(story) => *story,
            None => 0,
        }
    }

    /// The story by which a meter answered to a request of this number, which was handed up at the event `got`: its first datagram to the
    /// coordinator after that, and before it is asked again; 0 if there is none.
    pub fn reply_to(&self, asked: usize, got: usize, node: u32) -> usize {
        for i in asked..self.events.len() {
            let event = &self.events[i];
            if is_send(event, 0, node) {
                return 0;
            }
            if i + 1 > got && is_send(event, node, 0) {
                return self.owner(i + 1);
            }
        }
        0
    }
}
