//! The flights of a line, and the first of those that are the same.
ghost use Rattle.std.specs.Prelude.{◌≡◌, ◌+◌, ◌*◌, ◌-◌, ◌<◌, ◌≤◌, ◌++◌, ◌∷◌, [], false, true, max, IsOk, OnOk, OnErr, MatchOption, if◌then◌else◌, length, map};
ghost use Rattle.std.specs.Prelude.{slice_set};
ghost use Rattle.std.specs.Option.{ForSome, option_copied, option_map};
ghost use Rattle.std.specs.Str.{bytes_eq};
ghost use Rattle.line_flights.specs.Flights.{flight_by};
ghost use Rattle.line_flights.specs.Flights.{Flight, is_forged_frame, note_of};
ghost use Rattle.line_flights.specs.Flown.{flight_in, not_lost, is_under};
ghost use Rattle.plc_base.specs.declared.limits.TheConstants.{LONGEST_FRAME};

use byteorder::{BigEndian, ByteOrder};
use octet_log::OctetLog;
use plc_base::{Key, OctetRef, OutFrame};
use std::alloc::{AllocError, Global};
use std::marker::Model;

/// Where octets come from that a key opened.
#[derive(Clone, Copy, Debug, PartialEq, Eq)]
pub struct Origin {
    /// Whether no flight has these octets, sealed under that key.
    pub is_forged: bool,
    /// The note of the first flight that has them, 0 where none has.
    pub note: u32,
}

/// A flight, whose octets stand with those of the others.
#[derive(Drop)]
pub struct FlightRef<'a> {
    /// The number of the node that sent it.
    pub from: u16,
    /// The octets of the frame.
    pub octets: OctetRef<'a>,
    /// The group key that sealed it, None for a plain frame.
    pub key: Option<Key>,
    /// The number of the send that it carries, 0 where it carries none.
    pub note: u32,
    /// Whether it was lost.
    pub lost: bool,
}

impl<'a> Model for FlightRef<'a> {
    ghost use Rattle.line_flights.specs.Flights.{Flight};

    ghost Value = { Flight };

    ghost view = { λ f. record { from = f.from; octets = f.octets; key = f.key; note = f.note; lost = f.lost } };
}

/// What is kept of a flight beside its octets.
#[derive(Drop)]
pub struct Kept {
    from: u16,
    key: Option<Key>,
    note: u32,
    lost: bool,
}

/// Every flight that ever went out, by its number from 1.
///
/// A contract sees the list of them, how many more may be added (`places`), and how many octets those may have together
/// (`room`).
#[derive(Drop)]
pub struct Flights {
    log: OctetLog,
    items: Vec<Kept>,
}

impl Model for Flights {
    ghost use Rattle.std.specs.Prelude.{vec_capacity};
    ghost use Rattle.line_flights.specs.Flown.{Flown};
    ghost use Rattle.line_flights.specs.KeptFlights.{flights_of, AreKept};

    ghost Value = { Flown };

    ghost view = { λ f. record {
      flights = flights_of f.log.strings f.items.items;
      places = f.log.places;
      room = f.log.room;
    } };

    ghost invariant = { λ f. AreKept f.log f.items.items (vec_capacity f.items) };
}

// Whether the octets of two keys are the same, compared as numbers.
fn is_same(first: &[u8; 16], second: &[u8; 16]) -> bool
    ensures { result ≡ bytes_eq first.now second.now }
{
    let one = BigEndian::read_u128(first);
    let other = BigEndian::read_u128(second);
    one == other
}

fn is_under(own: &Option<Key>, key: &Key) -> bool
    ensures { result ≡ is_under own.now key.now }
{
    match own {
        None => false,
        Some(own) => is_same(&key.0, &own.0),
    }
}

impl Flights {
    /// No flight. It takes no memory.
    pub fn new(alloc: Global) -> Flights
        ensures { result ≡ record { flights = []; places = 0; room = 0 } }
    {
        Flights {
            log: OctetLog::new(alloc),
            items: Vec::new(alloc),
        }
    }

    /// How many flights there are, lost ones too.
    pub fn len(&self) -> usize
        ensures { result ≡ length self.now.flights }
    {
        self.log.len()
    }

    /// Reserves the memory for this many more frames of this many octets together, where less is reserved, and else takes
    /// none. It fails only where memory runs out, and nothing changes then.
    pub fn reserve(&mut self, frames: usize, octets: usize) -> Result<(), AllocError>
        ensures ok { OnOk result (self.new ≡ record self.old {
          places = max self.old.places frames;
          room = max self.old.room octets;
        }) }
        ensures err { OnErr result (self.new ≡ self.old) }
        ensures enough { frames ≤ self.old.places → octets ≤ self.old.room → IsOk result }
    {
        self.items.reserve(frames)?;
        self.log.reserve(frames, octets)?;
        Ok(())
    }

    /// A frame of a node flies: a place and room were reserved for it. Its number is the count of flights then.
    pub fn push(&mut self, from: u16, frame: &OutFrame)
        requires places { 1 ≤ self.old.places }
        requires room { length frame.now.octets ≤ self.old.room }
        // A number has 32 bits.
        requires numbers { length self.old.flights < u32.MAX }
        ensures { self.new ≡ record {
          flights = self.old.flights ++ flight_by from frame.now ∷ [];
          places = self.old.places - 1;
          room = self.old.room - length frame.now.octets;
        } }
    {
        self.log.push(frame.octets.octets());
        // The place was reserved.
        self.items
            .push(Kept {
                from,
                key: frame.key,
                note: frame.note,
                lost: false,
            })
            .unwrap();
    }

    // A frame flies, where there is room for any frame.
    fn push_any(&mut self, from: u16, frame: &OutFrame)
        requires places { 1 ≤ self.old.places }
        requires room { LONGEST_FRAME ≤ self.old.room }
        requires numbers { length self.old.flights < u32.MAX }
        ensures flights { self.new.flights ≡ self.old.flights ++ flight_by from frame.now ∷ [] }
        ensures places { self.new.places ≡ self.old.places - 1 }
        ensures room { self.old.room ≤ self.new.room + LONGEST_FRAME }
    {
        let _octets = frame.octets.octets();
        self.push(from, frame);
    }

    /// The frames of a node fly, in order: places and room were reserved for them.
    pub fn send_off(&mut self, from: u16, frames: &[OutFrame])
        requires places { length frames.now ≤ self.old.places }
        // A frame has at most 400 octets.
        requires room { LONGEST_FRAME * length frames.now ≤ self.old.room }
        // A number has 32 bits.
        requires numbers { length self.old.flights + length frames.now ≤ u32.MAX }
        ensures flights { self.new.flights ≡ self.old.flights ++ map (flight_by from) frames.now }
        ensures places { self.new.places ≡ self.old.places - length frames.now }
        ensures room { self.old.room ≤ self.new.room + LONGEST_FRAME * length frames.now }
    {
        for frame in frames {
            self.push_any(from, frame);
        }
    }

    /// The flight of a number, lost or not. None if there is none.
    pub fn get(&self, number: u32) -> Option<FlightRef<'_>>
        ensures { result ≡ flight_in self.now.flights number }
    {
        if number == 0 {
            return None;
        }
        let place = number as usize - 1;
        let Some(octets) = self.log.get(place) else {
            return None;
        };
        let kept = &self.items[place];
        Some(FlightRef {
            from: kept.from,
            octets: OctetRef::new(octets),
            key: kept.key,
            note: kept.note,
            lost: kept.lost,
        })
    }

    /// The octets of the flight of a number, lost or not. None if there is none.
    pub fn octets(&self, number: u32) -> Option<&[u8]>
        ensures { option_copied result ≡ option_map (λ f. f.octets) (flight_in self.now.flights number) }
    {
        let flight = self.get(number)?;
        Some(flight.octets.octets())
    }

    /// The number of the node that sent the flight of a number. None if there is none.
    pub fn sender(&self, number: u32) -> Option<u16>
        ensures { result ≡ option_map (λ f. f.from) (flight_in self.now.flights number) }
    {
        let flight = self.get(number)?;
        Some(flight.from)
    }

    /// The octets of the flight of a number, as it comes to a node. None if there is none, or where it was lost.
    pub fn flying(&self, number: u32) -> Option<&[u8]>
        ensures { option_copied result ≡ option_map (λ f. f.octets) (not_lost (flight_in self.now.flights number)) }
    {
        let flight = self.get(number)?;
        if flight.lost {
            return None;
        }
        Some(flight.octets.octets())
    }

    /// Loses the flight of a number, which keeps its octets. Answers whether it was there and not lost before; else
    /// nothing changes.
    pub fn lose(&mut self, number: u32) -> bool
        ensures { MatchOption (not_lost (flight_in self.old.flights number))
            ((result ≡ false) × (self.new ≡ self.old))
            (λ f. (result ≡ true)
            × (self.new ≡ record self.old {
              flights = slice_set self.old.flights (number - 1) (record f { lost = true });
            })) }
    {
        if number == 0 {
            return false;
        }
        let Some(flight) = self.get(number) else {
            return false;
        };
        if flight.lost {
            return false;
        }
        self.items[number as usize - 1].lost = true;
        true
    }

    // Where octets come from, by their flight of this number, where `later` is what the flights after it give.
    fn earlier(&self, number: u32, key: &Key, later: Origin) -> Origin
        requires some { 0 < number }
        requires within { number ≤ length self.now.flights }
        ensures { ForSome (flight_in self.now.flights number)
            (λ f. result ≡ (if is_under f.key key.now then record { is_forged = false; note = f.note } else later)) }
    {
        let kept = &self.items[number as usize - 1];
        if is_under(&kept.key, key) {
            return Origin {
                is_forged: false,
                note: kept.note,
            };
        }
        later
    }

    /// Where octets come from that a key opened: whether no flight, lost or not, has them under this key, and the note
    /// of the first that has.
    pub fn origin(&self, octets: &[u8], key: &Key) -> Origin
        ensures forged { result.is_forged ≡ is_forged_frame self.now.flights octets.now key.now }
        ensures note { result.note ≡ note_of self.now.flights octets.now key.now }
    {
        let mut origin = Origin {
            is_forged: true,
            note: 0,
        };
        let mut number = self.log.last(octets);
        while number > 0 {
            origin = self.earlier(number, key, origin);
            number = self.log.before(number);
        }
        origin
    }
}
