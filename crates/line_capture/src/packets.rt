//! The packets of a capture.
ghost use Rattle.std.specs.Prelude.{◌≡◌, ◌+◌, ◌<◌, ◌++◌, ◌^◌, [], true, OnOk, length};
ghost use Rattle.std.specs.Option.{option_copied};
ghost use Rattle.pcapng.specs.Blocks.{PACKET, block_spelling, ended, options_spelling, packet_body, packet_length};
ghost use Rattle.line_record.specs.RunRecords.{numbered};
ghost use Rattle.line_capture.specs.Captures as captures;
ghost use Rattle.line_capture.specs.Captures.{Adds, IsRun, run_of};
ghost use Rattle.line_capture.specs.Places.{AreEvents, HasAct, IsPlace, start};

use crate::comments::{note_delivered, note_flown, note_injected};
use crate::fate::Fate;
use crate::notes::Notes;
use crate::place::Place;
use crate::recording::Recording;
use line_record::{Act, RecordedEvent};
use pcapng::{Direction, Packet, append_packet};
use plc_base::OctetRef;
use std::alloc::{AllocError, Global};

// What stands before the octets of a frame under TAP: the version, the length of all this, and that there is no frame check sequence.
const SENT: [u8; 12] = [0, 0, 12, 0, 0, 0, 1, 0, 0, 0, 0, 0];

/// What is written of a capture so far.
#[derive(Drop)]
pub struct Packets {
    /// Whether what is heard is written too, and the quality of its link before each frame (TAP).
    pub tap: bool,
    /// The octets of the file.
    pub out: Vec<u8>,
    /// The options of the next packet.
    pub notes: Notes,
    // The octets of the next packet.
    frame: Vec<u8>,
}

// The octets of a number, from 1.
fn numbered<'a>(list: &'a [OctetRef<'a>], number: usize) -> Option<&'a [u8]>
    ensures { option_copied result ≡ numbered list.now number }
{
    if number == 0 {
        return None;
    }
    let octets = list.get(number - 1)?;
    Some(octets.octets())
}

fn fate_numbered(fates: &[Fate], number: usize) -> Option<&Fate>
    ensures { option_copied result ≡ numbered fates.now number }
{
    if number == 0 {
        return None;
    }
    fates.get(number - 1)
}

impl Packets {
    /// Nothing so far. It takes no memory.
    pub fn new(alloc: Global, tap: bool) -> Packets
        ensures out { result.out.items ≡ [] }
        ensures tap { result.tap ≡ tap }
    {
        Packets {
            tap,
            out: Vec::new(alloc),
            notes: Notes::new(alloc),
            frame: Vec::new(alloc),
        }
    }

    // Begins the octets of a packet that goes out.
    fn begin_sent(&mut self) -> Result<(), AllocError>
        ensures frame { OnOk result (self.new.frame.items ≡ captures.tap_sent self.old.tap) }
        ensures tap { self.new.tap ≡ self.old.tap }
        ensures out { self.new.out.items ≡ self.old.out.items }
        ensures options { self.new.notes.options ≡ self.old.notes.options }
    {
        self.frame.clear();
        if self.tap {
            return self.frame.extend_from_slice(&SENT);
        }
        Ok(())
    }

    // Begins the octets of a packet that comes over a link of this cost: 254 is the quality of the best link.
    fn begin_heard(&mut self, cost: u8) -> Result<(), AllocError>
        ensures frame { OnOk result (self.new.frame.items ≡ captures.tap_heard self.old.tap cost) }
        ensures tap { self.new.tap ≡ self.old.tap }
        ensures out { self.new.out.items ≡ self.old.out.items }
        ensures options { self.new.notes.options ≡ self.old.notes.options }
    {
        self.frame.clear();
        if self.tap {
            return self.frame.extend_from_slice(&[
                0,
                0,
                20,
                0,
                0,
                0,
                1,
                0,
                0,
                0,
                0,
                0,
                10,
                0,
                1,
                0,
                255 - cost,
                0,
                0,
                0,
            ]);
        }
        Ok(())
    }

    // Writes the packet whose octets begin with what stands in `frame`, with the options that were noted.
    fn push(&mut self, node: u32, time: u64, octets: &[u8]) -> Result<(), AllocError>
        requires { packet_length (length (self.old.frame.items ++ octets.now)) (length self.old.notes.options) < 2 ^ 32 }
        ensures out { OnOk result (self.new.out.items ≡ self.old.out.items
            ++ block_spelling PACKET (packet_body node time (self.old.frame.items ++ octets.now) (ended self.old.notes.options))) }
        ensures tap { self.new.tap ≡ self.old.tap }
    {
        self.frame.extend_from_slice(octets)?;
        let packet = Packet {
            interface: node,
            time,
            octets: self.frame.as_slice(),
        };
        append_packet(&mut self.out, &packet, &self.notes.options)
    }

    // Writes a packet that a node hears over a link of this cost, with the comments that were noted.
    fn push_inbound(
        &mut self,
        node: u32,
        time: u64,
        octets: &[u8],
        cost: u8,
    ) -> Result<(), AllocError>
        requires frame { captures.IsFrame octets.now }
        requires room { length self.old.notes.options < 2 ^ 30 }
        ensures out { OnOk result (self.new.out.items ≡ self.old.out.items
            ++ block_spelling PACKET (packet_body node time (captures.tap_heard self.old.tap cost ++ octets.now)
            (ended (self.old.notes.options ++ options_spelling (captures.direction_notes Direction.Inbound))))) }
        ensures tap { self.new.tap ≡ self.old.tap }
    {
        self.notes.options.direction(Direction::Inbound)?;
        self.begin_heard(cost)?;
        self.push(node, time, octets)
    }

    // Writes a packet that a node sends, with the comments that were noted.
    fn push_outbound(&mut self, node: u32, time: u64, octets: &[u8]) -> Result<(), AllocError>
        requires frame { captures.IsFrame octets.now }
        requires room { length self.old.notes.options < 2 ^ 30 }
        ensures out { OnOk result (self.new.out.items ≡ self.old.out.items
            ++ block_spelling PACKET (packet_body node time (captures.tap_sent self.old.tap ++ octets.now)
            (ended (self.old.notes.options ++ options_spelling (captures.direction_notes Direction.Outbound))))) }
        ensures tap { self.new.tap ≡ self.old.tap }
    {
        self.notes.options.direction(Direction::Outbound)?;
        self.begin_sent()?;
        self.push(node, time, octets)
    }

    // Octets that no node sent are heard.
    fn push_injected(
        &mut self,
        run: &Recording<'_>,
        place: &Place,
        recorded: &RecordedEvent,
        node: u32,
        cost: u8,
    ) -> Result<(), AllocError>
        requires run { IsRun (run_of run.now) }
        requires place { IsPlace place.now }
        requires act { HasAct recorded.now }
        ensures adds { OnOk result (Adds self.old.out.items self.new.out.items
            (captures.injected_packets self.old.tap (run_of run.now) place.now recorded.now node cost)) }
        ensures tap { self.new.tap ≡ self.old.tap }
    {
        let Some(octets) = numbered(run.injected, place.injected + 1) else {
            return Ok(());
        };
        note_injected(&mut self.notes, place.number, recorded, cost)?;
        self.push_inbound(node, place.time(&recorded.act), octets, cost)?;
        Ok(())
    }

    // A flight is heard, and what is heard is written.
    fn push_arrival(
        &mut self,
        run: &Recording<'_>,
        place: &Place,
        recorded: &RecordedEvent,
        flight: u32,
        node: u32,
        cost: u8,
    ) -> Result<(), AllocError>
        requires run { IsRun (run_of run.now) }
        requires place { IsPlace place.now }
        requires act { HasAct recorded.now }
        requires tap { self.old.tap ≡ true }
        ensures adds { OnOk result (Adds self.old.out.items self.new.out.items
            (captures.delivered_packets self.old.tap (run_of run.now) place.now recorded.now flight node cost)) }
        ensures tap { self.new.tap ≡ self.old.tap }
    {
        let Some(flown) = run.run_record.flight(flight as usize) else {
            return Ok(());
        };
        let Some(octets) = numbered(run.octets, flight as usize) else {
            return Ok(());
        };
        let (from, number) = (flown.from, place.number);
        note_delivered(&mut self.notes, number, recorded, flight, from, cost)?;
        self.push_inbound(node, place.time(&recorded.act), octets, cost)?;
        Ok(())
    }

    // A flight is heard.
    fn push_delivered(
        &mut self,
        run: &Recording<'_>,
        place: &Place,
        recorded: &RecordedEvent,
        flight: u32,
        node: u32,
        cost: u8,
    ) -> Result<(), AllocError>
        requires run { IsRun (run_of run.now) }
        requires place { IsPlace place.now }
        requires act { HasAct recorded.now }
        ensures adds { OnOk result (Adds self.old.out.items self.new.out.items
            (captures.delivered_packets self.old.tap (run_of run.now) place.now recorded.now flight node cost)) }
        ensures tap { self.new.tap ≡ self.old.tap }
    {
        if !self.tap {
            return Ok(());
        }
        self.push_arrival(run, place, recorded, flight, node, cost)
    }

    // What is heard at an event.
    fn push_heard(
        &mut self,
        run: &Recording<'_>,
        place: &Place,
        recorded: &RecordedEvent,
    ) -> Result<(), AllocError>
        requires run { IsRun (run_of run.now) }
        requires place { IsPlace place.now }
        requires act { HasAct recorded.now }
        ensures adds { OnOk result (Adds self.old.out.items self.new.out.items
            (captures.heard_packets self.old.tap (run_of run.now) place.now recorded.now recorded.now.act)) }
        ensures tap { self.new.tap ≡ self.old.tap }
    {
        match &recorded.act {
            Act::Inject { node, cost, .. } => self.push_injected(
                run, place, recorded, *node, *cost,
            ),
            Act::Deliver { flight, node, cost } => {
                self.push_delivered(run, place, recorded, *flight, *node, *cost)
            }
            _ => Ok(()),
        }
    }

    // The nth flight of an event, counted from 0.
    fn push_flown(
        &mut self,
        run: &Recording<'_>,
        fates: &[Fate],
        place: &Place,
        recorded: &RecordedEvent,
        nth: u8,
    ) -> Result<(), AllocError>
        requires run { IsRun (run_of run.now) }
        requires place { IsPlace place.now }
        requires act { HasAct recorded.now }
        ensures adds { OnOk result (Adds self.old.out.items self.new.out.items
            (captures.flown_packets self.old.tap (run_of run.now) fates.now place.now recorded.now nth)) }
        ensures tap { self.new.tap ≡ self.old.tap }
    {
        let number = place.flight + usize::from(nth);
        let Some(flown) = run.run_record.flight(number) else {
            return Ok(());
        };
        let Some(octets) = numbered(run.octets, number) else {
            return Ok(());
        };
        let Some(fate) = fate_numbered(fates, number) else {
            return Ok(());
        };
        note_flown(
            &mut self.notes,
            place.number,
            recorded,
            number,
            flown.note,
            fate,
        )?;
        let time = place.time(&recorded.act) + 1 + u64::from(nth);
        self.push_outbound(u32::from(flown.from), time, octets)?;
        Ok(())
    }

    // The flights of an event.
    fn push_flights(
        &mut self,
        run: &Recording<'_>,
        fates: &[Fate],
        place: &Place,
        recorded: &RecordedEvent,
    ) -> Result<(), AllocError>
        requires run { IsRun (run_of run.now) }
        requires place { IsPlace place.now }
        requires act { HasAct recorded.now }
        ensures adds { OnOk result (Adds self.old.out.items self.new.out.items
            (captures.flights_packets self.old.tap (run_of run.now) fates.now place.now recorded.now 0 recorded.now.flights)) }
        ensures tap { self.new.tap ≡ self.old.tap }
    {
        for nth in 0..recorded.flights {
            self.push_flown(run, fates, place, recorded, nth)?;
        }
        Ok(())
    }

    // The packets of an event.
    fn push_event(
        &mut self,
        run: &Recording<'_>,
        fates: &[Fate],
        place: &Place,
        recorded: &RecordedEvent,
    ) -> Result<(), AllocError>
        requires run { IsRun (run_of run.now) }
        requires place { IsPlace place.now }
        requires act { HasAct recorded.now }
        ensures adds { OnOk result (Adds self.old.out.items self.new.out.items
            (captures.event_packets self.old.tap (run_of run.now) fates.now place.now recorded.now)) }
        ensures tap { self.new.tap ≡ self.old.tap }
    {
        self.push_heard(run, place, recorded)?;
        self.push_flights(run, fates, place, recorded)?;
        Ok(())
    }

    // The packets of events, in their order.
    fn push_each(
        &mut self,
        run: &Recording<'_>,
        fates: &[Fate],
        events: &[RecordedEvent],
    ) -> Result<(), AllocError>
        requires run { IsRun (run_of run.now) }
        requires events { AreEvents events.now }
        ensures adds { OnOk result (Adds self.old.out.items self.new.out.items
            (captures.packets_from self.old.tap (run_of run.now) fates.now start events.now)) }
        ensures tap { self.new.tap ≡ self.old.tap }
    {
        let mut place = Place::start();
        for recorded in events {
            self.push_event(run, fates, &place, recorded)?;
            place = place.after(recorded);
        }
        Ok(())
    }

    /// The packets of a run, in the order of the events, by what became of its flights.
    pub fn push_events(&mut self, run: &Recording<'_>, fates: &[Fate]) -> Result<(), AllocError>
        requires { IsRun (run_of run.now) }
        ensures adds { OnOk result (Adds self.old.out.items self.new.out.items
            (captures.packets_from self.old.tap (run_of run.now) fates.now start run.now.run_record.now.events.items)) }
        ensures tap { self.new.tap ≡ self.old.tap }
    {
        self.push_each(run, fates, run.run_record.events.as_slice())
    }
}
