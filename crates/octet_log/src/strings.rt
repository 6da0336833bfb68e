//! Octet strings in one vector, one after the other.
ghost use Rattle.std.specs.Prelude.{◌≡◌, ◌<◌, ◌≤◌, ◌-◌, ◌++◌, ◌∷◌, ◌&&◌, [], nat_le, max, IsOk, OnOk, OnErr, length, slice_get, slice_index, slice_range};
ghost use Rattle.std.specs.Option.{option_copied};

use std::alloc::{AllocError, Global};
use std::marker::Model;

/// Octet strings, and the room that was reserved for more. A contract sees the log that they are.
#[derive(Drop)]
pub struct Strings {
    octets: Vec<u8>,
    ends: Vec<usize>,
    places: usize,
    room: usize,
}

impl Model for Strings {
    ghost use Rattle.std.specs.Prelude.{vec_capacity};
    ghost use Rattle.octet_log.specs.LogChains.{strings_of, ArePlaced};
    ghost use Rattle.octet_log.specs.Logs.{Log};

    ghost Value = { Log };

    ghost view = { λ s. record {
      strings = strings_of s.octets.items 0 s.ends.items;
      places = s.places;
      room = s.room;
    } };

    ghost invariant = { λ s. ArePlaced s.octets.items s.ends.items s.places s.room
        (vec_capacity s.ends) (vec_capacity s.octets) };
}

// Where the string at a place starts: where the one before it ends.
fn start_of(ends: &[usize], place: usize) -> usize
    requires { place ≤ length ends.now }
    ensures { result ≡ slice_index (0 ∷ ends.now) place }
{
    if place == 0 { 0 } else { ends[place - 1] }
}

fn part(octets: &[u8], start: usize, end: usize) -> &[u8]
    requires order { start ≤ end }
    requires within { end ≤ length octets.now }
    ensures { result.now ≡ slice_range octets.now start end }
{
    &octets[start..end]
}

impl Strings {
    /// No string. It takes no memory.
    pub fn new(alloc: Global) -> Strings
        ensures { result ≡ record { strings = []; places = 0; room = 0 } }
    {
        Strings {
            octets: Vec::new(alloc),
            ends: Vec::new(alloc),
            places: 0,
            room: 0,
        }
    }

    /// How many strings there are.
    pub fn len(&self) -> usize
        ensures { result ≡ length self.now.strings }
    {
        self.ends.len()
    }

    /// The string at a place from 0 on.
    pub fn get(&self, place: usize) -> Option<&[u8]>
        ensures { option_copied result ≡ slice_get self.now.strings place }
    {
        if place >= self.ends.len() {
            return None;
        }
        let (start, end) = (start_of(&self.ends, place), self.ends[place]);
        Some(part(&self.octets, start, end))
    }

    /// Whether there is room for this many more strings of this many octets together.
    pub fn has_room(&self, strings: usize, octets: usize) -> bool
        ensures { result ≡ (nat_le strings self.now.places && nat_le octets self.now.room) }
    {
        strings <= self.places && octets <= self.room
    }

    /// Makes room for this many more strings of this many octets together. It fails only where memory runs out, and nothing changes then.
    pub fn reserve(&mut self, strings: usize, octets: usize) -> Result<(), AllocError>
        ensures ok { OnOk result (self.new ≡ record self.old {
          places = max self.old.places strings;
          room = max self.old.room octets;
        }) }
        ensures err { OnErr result (self.new ≡ self.old) }
        ensures enough { strings ≤ self.old.places → octets ≤ self.old.room → IsOk result }
    {
        self.ends.reserve(strings)?;
        self.octets.reserve(octets)?;
        self.places = self.places.max(strings);
        self.room = self.room.max(octets);
        Ok(())
    }

    /// Appends a string.
    pub fn push(&mut self, octets: &[u8])
        requires places { 1 ≤ self.old.places }
        requires room { length octets.now ≤ self.old.room }
        ensures { self.new ≡ record {
          strings = self.old.strings ++ octets.now ∷ [];
          places = self.old.places - 1;
          room = self.old.room - length octets.now;
        } }
    {
        // Both were reserved.
        self.octets.extend_from_slice(octets).unwrap();
        self.ends.push(self.octets.len()).unwrap();
        self.places -= 1;
        self.room -= octets.len();
    }
}
