//! What time and broken links end in a station.
ghost use Rattle.std.specs.Prelude.{◌≡◌, [], Some, None, Ok, Err, IfSome, IfNone};
ghost use Rattle.std.specs.Option.{option_map};
ghost use Rattle.node_rules.specs.Calls as calls;
ghost use Rattle.node_rules.specs.Agreement.{Agrees};
ghost use Rattle.plc_station.specs.NextEnds as next_ends;
ghost use Rattle.station_queues.specs.Expiring.{notes_of_expiring};

use crate::station::Station;
use arrayvec::ArrayVec;
use node_rules::Halted;
use plc_base::{Keeper, Short};

// An end, None where it is the last time of the clock.
fn end_given(end: u64) -> Option<u64>
    ensures { result ≡ next_ends.end_given end }
{
    if end == u64::MAX {
        return None;
    }
    Some(end)
}

impl<K: Keeper + Drop> Station<K> {
    /// When the first ends of what its [`tick`](Station::tick) ends, in seconds: a route, a datagram that is gathered, what waits for a
    /// route. A `tick` before that changes nothing, and one at that time ends something. None where it holds nothing that ends, and
    /// where it is halted.
    pub fn next_end(&self) -> Option<u64>
        ensures halted { IfNone self.now.memory (result ≡ None) }
        ensures first { IfSome self.now.memory (λ l. next_ends.IsFirstEnd calls.tick l result) }
    {
        if self.halted {
            return None;
        }
        let routes = self.parts.routing.next_end();
        let bodies = self.bodies.next_end();
        end_given(routes.min(bodies))
    }

    /// The notes of what a [`tick`](Station::tick) at this time gives up, since it has waited for a route for
    /// [`WAITING_TIME`](fragment_buffers::WAITING_TIME) seconds: of datagrams the note of `send`, of commands 0, in the order in which they
    /// came. What else waited still waits after the tick. None where it is halted.
    pub fn expiring(&self, now: u64) -> ArrayVec<u32, 8>
        ensures halted { self.now.memory ≡ None → result.items ≡ [] }
        ensures notes { IfSome self.now.memory (λ l. result.items ≡ notes_of_expiring now l.waiting) }
    {
        if self.halted {
            return ArrayVec::new();
        }
        self.bodies.expiring(now)
    }

    /// Ends the routes by a neighbour, to which the link broke. Halted.
    pub fn broke(&mut self, next: Short) -> Result<(), Halted>
        requires agrees { Agrees self.old }
        ensures halted { IfNone self.old.memory ((result ≡ Err (record {})) × (self.new ≡ self.old)) }
        ensures ended { IfSome self.old.memory
            (λ l. (result ≡ Ok tt) × (self.new ≡ record self.old { memory = Some (calls.broke next l) })) }
        ensures agrees { Agrees self.new }
    {
        if self.halted {
            return Err(Halted);
        }
        self.parts.routing.invalidate_next(next);
        Ok(())
    }

    /// Ends what is old at a time in seconds: routes, what is gathered and what waits. A halted station stays as it is.
    pub fn tick(&mut self, now: u64)
        requires agrees { Agrees self.old }
        ensures state { self.new ≡ record self.old { memory = option_map (calls.tick now) self.old.memory } }
        ensures agrees { Agrees self.new }
    {
        if self.halted {
            return;
        }
        self.parts.routing.expire(now);
        self.bodies.expire(now);
    }
}
