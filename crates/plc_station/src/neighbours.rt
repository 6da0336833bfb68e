//! What a station sends its neighbours by itself.
ghost use Rattle.std.specs.Prelude.{◌≡◌, ◌+◌, ◌<◌, ◌≤◌, Some, None, Err, IfSome, IfNone, IsSome, length, unwrap_or};
ghost use Rattle.mesh_header.specs.declared.unit.Unit.TheVariants as units;
ghost use Rattle.node_rules.specs.Frames.{to_all};
ghost use Rattle.node_rules.specs.Drafts as drafts;
ghost use Rattle.node_rules.specs.Neighbours as local;
ghost use Rattle.node_rules.specs.Neighbours.{CarriesAfter};
ghost use Rattle.node_rules.specs.Agreement.{Agrees};
ghost use Rattle.plc_station.specs.Ready.{After, Ready};
ghost use Rattle.plc_base.specs.declared.limits.TheConstants.{GREATEST_COUNTER, MOST_FRAMES};

use crate::station::Station;
use mesh_header::Unit;
use node_rules::LocalRefusal;
use plc_base::{Destination, Grant, Keeper, OctetRef, Out, Short};
use station_queues::seal;

// A neighbour, or all.
fn destination(to: Option<Short>) -> Destination
    ensures { result ≡ unwrap_or to to_all }
{
    match to {
        Some(to) => Destination::one(to),
        None => Destination::all(),
    }
}

impl<K: Keeper + Drop> Station<K> {
    // Seals a command for a neighbour or for all, with a counter of its own.
    fn local_goes(
        &mut self,
        grant: &Grant,
        code: u8,
        to: Destination,
        body: &[u8],
        out: &mut Out,
    ) -> Result<(), LocalRefusal>
        requires ready { Ready self.old }
        requires ring { IfSome self.old.memory (λ l. l.ring ≡ Some grant.now) }
        requires left { IfSome self.old.memory (λ l. l.counter.next + 1 ≤ GREATEST_COUNTER) }
        requires code { 1 ≤ code }
        requires last_code { code ≤ 5 }
        requires fits { length body.now ≤ 379 }
        requires room { length out.old.frames < MOST_FRAMES }
        ensures carries { IfSome self.old.memory
            (λ l. CarriesAfter self.old (drafts.sealing drafts.alone local.local_ends
            (drafts.goes to (units.Local code body.now) 0 (drafts.empty_draft l)) tt) result out.old out.new self.new) }
        ensures after { After self.old self.new }
    {
        self.halted = true;
        let Ok(counter) = self.parts.counter.reserve(&mut self.keeper, 1) else {
            out.clear();
            return Err(LocalRefusal::Store);
        };
        let key = grant.sealing_key();
        let body = OctetRef::new(body);
        let unit = Unit::Local { code, body };
        self.cipher.renew(&key);
        seal(grant, &key, &self.cipher, counter, to, &unit, 0, out);
        self.halted = false;
        Ok(())
    }

    // Sends a command for neighbours at a station that is joined by this grant.
    fn local_from(
        &mut self,
        grant: &Grant,
        code: u8,
        to: Option<Short>,
        body: &[u8],
        out: &mut Out,
    ) -> Result<(), LocalRefusal>
        requires ready { Ready self.old }
        requires ring { IfSome self.old.memory (λ l. l.ring ≡ Some grant.now) }
        requires code { 3 ≤ code }
        requires last_code { code ≤ 5 }
        requires some { 1 ≤ length body.now }
        requires fits { length body.now ≤ 379 }
        requires room { length out.old.frames < MOST_FRAMES }
        ensures carries { IfSome self.old.memory
            (λ l. CarriesAfter self.old (local.send_local l code to body.now) result out.old out.new self.new) }
        ensures after { After self.old self.new }
    {
        let left = self.parts.counter.left();
        if left < 1 {
            return Err(LocalRefusal::CounterSpent);
        }
        self.local_goes(grant, code, destination(to), body, out)
    }

    /// Sends a command of code 3 to 5, with a body of 1 to 379 octets, to a neighbour, or to all where `to` is None. Its frame comes
    /// after those that `out` has.
    ///
    /// Halted, NotJoined exactly where it has no ring, CounterSpent exactly where no frame counter is left, Store, in this order.
    /// After Store the station is halted and `out` is empty; after the others `out` has what it had.
    pub fn send_local(
        &mut self,
        code: u8,
        to: Option<Short>,
        body: &[u8],
        out: &mut Out,
    ) -> Result<(), LocalRefusal>
        requires agrees { Agrees self.old }
        requires code { 3 ≤ code }
        requires last_code { code ≤ 5 }
        requires some { 1 ≤ length body.now }
        requires fits { length body.now ≤ 379 }
        requires room { length out.old.frames < MOST_FRAMES }
        ensures halted { IfNone self.old.memory
            ((result ≡ Err LocalRefusal.Halted) × (out.new ≡ out.old) × (self.new ≡ self.old)) }
        ensures unjoined { IfSome self.old.memory (λ l. l.ring ≡ None
            → (result ≡ Err LocalRefusal.NotJoined) × (out.new ≡ out.old) × (self.new ≡ self.old)) }
        ensures carries { IfSome self.old.memory (λ l. IsSome l.ring
            → CarriesAfter self.old (local.send_local l code to body.now) result out.old out.new self.new) }
        ensures after { After self.old self.new }
    {
        if self.halted {
            return Err(LocalRefusal::Halted);
        }
        let Some(grant) = self.parts.ring.grant() else {
            return Err(LocalRefusal::NotJoined);
        };
        self.local_from(&grant, code, to, body, out)
    }
}
