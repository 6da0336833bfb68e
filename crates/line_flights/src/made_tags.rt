//! The pair tags that were made, so that one that was made by nobody is known as forged.
ghost use Rattle.std.specs.Prelude.{◌≡◌, ◌+◌, ◌-◌, ◌<◌, ◌≤◌, ◌++◌, ◌∷◌, [], max, IsOk, OnOk, OnErr, length};
ghost use Rattle.std.specs.List.{list_any};
ghost use Rattle.line_flights.specs.Flights.{is_forged_tag};

use octet_log::OctetLog;
use plc_base::PairTag;
use std::alloc::{AllocError, Global};
use std::marker::Model;

/// A spelling has at most this many octets.
const MOST_OCTETS: usize = 158;

/// The pair tags that were made, in their order. They are kept by their spellings.
///
/// A contract sees the list of them, and how many more may be added (`places`).
#[derive(Drop)]
pub struct MadeTags {
    log: OctetLog,
}

impl Model for MadeTags {
    ghost use Rattle.std.specs.Prelude.{map};
    ghost use Rattle.line_flights.specs.Flown.{Made};
    ghost use Rattle.line_flights.specs.SpelledTags.{tag_of, AreSpelled};

    ghost Value = { Made };

    ghost view = { λ m. record { tags = map tag_of m.log.strings; places = m.log.places } };

    ghost invariant = { λ m. AreSpelled m.log };
}

impl MadeTags {
    /// No tag. It takes no memory.
    pub fn new(alloc: Global) -> MadeTags
        ensures { result ≡ record { tags = []; places = 0 } }
    {
        MadeTags {
            log: OctetLog::new(alloc),
        }
    }

    /// How many tags there are.
    pub fn len(&self) -> usize
        ensures { result ≡ length self.now.tags }
    {
        self.log.len()
    }

    /// Reserves the memory for this many more tags, where less is reserved, and else takes none. It fails only where
    /// memory runs out, and nothing changes then.
    pub fn reserve(&mut self, tags: usize) -> Result<(), AllocError>
        // A number has 32 bits.
        requires numbers { tags ≤ u32.MAX }
        ensures ok { OnOk result (self.new ≡ record self.old { places = max self.old.places tags }) }
        ensures err { OnErr result (self.new ≡ self.old) }
        ensures enough { tags ≤ self.old.places → IsOk result }
    {
        self.log.reserve(tags, MOST_OCTETS * tags)
    }

    /// Adds a tag that was made: a place was reserved for it.
    pub fn push(&mut self, tag: &PairTag)
        requires places { 1 ≤ self.old.places }
        // A number has 32 bits.
        requires numbers { length self.old.tags < u32.MAX }
        ensures { self.new ≡ record { tags = self.old.tags ++ tag.now ∷ []; places = self.old.places - 1 } }
    {
        let spelling = tag.spelling();
        let octets = spelling.octets();
        self.log.push(octets);
    }

    /// Adds the tags that were made, in order: places were reserved for them.
    pub fn note(&mut self, tags: &[PairTag])
        requires places { length tags.now ≤ self.old.places }
        // A number has 32 bits.
        requires numbers { length self.old.tags + length tags.now ≤ u32.MAX }
        ensures { self.new ≡ record {
          tags = self.old.tags ++ tags.now;
          places = self.old.places - length tags.now;
        } }
    {
        for tag in tags {
            self.push(tag);
        }
    }

    /// Whether a tag that was found right was made by nobody.
    pub fn is_forged(&self, tag: &PairTag) -> bool
        ensures { result ≡ is_forged_tag self.now.tags tag.now }
    {
        let spelling = tag.spelling();
        let octets = spelling.octets();
        self.log.last(octets) == 0
    }

    /// Whether one of these tags was made by nobody.
    pub fn has_forged(&self, tags: &[PairTag]) -> bool
        ensures { result ≡ list_any (is_forged_tag self.now.tags) tags.now }
    {
        for tag in tags {
            if self.is_forged(tag) {
                return true;
            }
        }
        false
    }
}
