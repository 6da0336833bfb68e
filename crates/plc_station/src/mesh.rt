//! What a station makes of units over the mesh.
ghost use Rattle.std.specs.Prelude.{◌≡◌, ◌==◌, ◌+◌, ◌<◌, ◌≤◌, true, false, Some, Ok, Err, IfSome};
ghost use Rattle.mesh_header.specs.Grammar.{IsAllowed, header_length, spelled_length};
ghost use Rattle.mesh_header.specs.declared.unit.Unit.TheVariants as local;
ghost use Rattle.loadng_messages.specs.Grammar as messages;
ghost use Rattle.loadng_messages.specs.declared.message.Message.TheVariants as message;
ghost use Rattle.node_rules.specs.declared.heard.Heard.TheVariants as heard;
ghost use Rattle.node_rules.specs.declared.heard.Way.TheVariants as way;
ghost use Rattle.node_rules.specs.declared.refusal.Dropped.TheVariants as hearing_drops;
ghost use Rattle.node_rules.specs.Memory.{next_hop};
ghost use Rattle.node_rules.specs.Drafts as drafts;
ghost use Rattle.node_rules.specs.HearingRules as hearing_rules;
ghost use Rattle.node_rules.specs.CarriedPlans.{Carries};
ghost use Rattle.plc_station.specs.Ready.{After, ReadyToSend};
ghost use Rattle.plc_base.specs.declared.limits.TheConstants.{GREATEST_COUNTER};

use crate::offers::LastHop;
use crate::station::Station;
use loadng_messages::{Message, MessageBuf, write_message};
use mesh_header::{Mesh, Unit};
use node_rules::{Dropped, Heard, Way};
use plc_base::{DatagramBuf, Destination, Grant, Keeper, OctetRef, Out, Short};
use station_queues::seal;

// The unit of a route error.
pub(crate) fn error_unit<'a>(lost: Short, to: Short, body: &'a mut MessageBuf) -> Unit<'a>
    ensures { result ≡ local.Local 1 (messages.spelling (message.Rerr lost to)) }
{
    body.clear();
    write_message(&Message::Rerr { lost, to }, body);
    Unit::Local {
        code: 1,
        body: OctetRef::new(body.octets()),
    }
}

// A mesh header with one hop less.
fn hop_less(mesh: &Mesh) -> Mesh
    ensures value { result ≡ hearing_rules.hop_less mesh.now }
    ensures shorter { header_length result.hops ≤ header_length mesh.now.hops }
{
    Mesh {
        hops: mesh.hops.saturating_sub(1),
        origin: mesh.origin,
        to: mesh.to,
    }
}

// A whole datagram is handed up.
fn handed_up<'a>(mesh: &Mesh, note: u32, octets: OctetRef<'a>) -> Heard<'a>
    ensures { result ≡ heard.Up mesh.now.origin note octets.entry }
{
    Heard::Up {
        from: mesh.origin,
        note,
        octets,
    }
}

// A joining command came over the mesh.
fn joining_over<'a>(mesh: &Mesh, body: OctetRef<'a>) -> Heard<'a>
    ensures { result ≡ heard.Joining (way.Mesh mesh.now.origin) body.entry }
{
    Heard::Joining {
        way: Way::Mesh(mesh.origin),
        body,
    }
}

impl<K: Keeper + Drop> Station<K> {
    // Seals a unit for a neighbour, or for all, and sends it.
    pub(crate) fn send_unit(
        &mut self,
        grant: &Grant,
        to: Destination,
        unit: &Unit<'_>,
        note: u32,
        out: &mut Out,
    ) -> Result<(), Dropped>
        requires ready { ReadyToSend self.old grant.now out.old }
        requires allowed { IsAllowed unit.now }
        requires fits { spelled_length unit.now ≤ 381 }
        requires left { IfSome self.old.memory (λ l. l.counter.next + 1 ≤ GREATEST_COUNTER) }
        ensures carries { IfSome self.old.memory
            (λ l. Carries self.old (drafts.sealing drafts.alone hearing_rules.dropped
            (drafts.goes to unit.now note (drafts.empty_draft l)) tt) result out.new self.new) }
        ensures after { After self.old self.new }
    {
        self.halted = true;
        let Ok(counter) = self.parts.counter.reserve(&mut self.keeper, 1) else {
            return Err(Dropped::Store);
        };
        let key = grant.sealing_key();
        self.cipher.renew(&key);
        seal(grant, &key, &self.cipher, counter, to, unit, note, out);
        self.halted = false;
        Ok(())
    }

    // Tells the origin of a unit that it can't go on.
    fn report(
        &mut self,
        grant: &Grant,
        mesh: &Mesh,
        out: &mut Out,
    ) -> Result<Heard<'static>, Dropped>
        requires ready { ReadyToSend self.old grant.now out.old }
        ensures carries { IfSome self.old.memory
            (λ l. Carries self.old (drafts.choose (mesh.now.origin == grant.now.address)
            (hearing_rules.drop_it l hearing_drops.NoRoute)
            (hearing_rules.report_by l mesh.now (next_hop l mesh.now.origin))) result out.new self.new) }
        ensures after { After self.old self.new }
    {
        if mesh.origin.number() == grant.address.number() {
            return Err(Dropped::NoRoute);
        }
        let left = self.parts.counter.left();
        let Some(hop) = self.parts.routing.route(mesh.origin) else {
            return Err(Dropped::NoRoute);
        };
        if left < 1 {
            return Err(Dropped::CounterSpent);
        }
        let mut body = MessageBuf::new();
        let unit = error_unit(mesh.to, mesh.origin, &mut body);
        match self.send_unit(grant, Destination::one(hop), &unit, 0, out) {
            Ok(()) => Ok(Heard::Reported),
            Err(reason) => Err(reason),
        }
    }

    // Sends a unit for another node on, as it goes on.
    fn forward(
        &mut self,
        grant: &Grant,
        mesh: &Mesh,
        unit: &Unit<'_>,
        note: u32,
        out: &mut Out,
    ) -> Result<Heard<'static>, Dropped>
        requires ready { ReadyToSend self.old grant.now out.old }
        requires allowed { IsAllowed unit.now }
        requires fits { spelled_length unit.now ≤ 381 }
        ensures carries { IfSome self.old.memory
            (λ l. Carries self.old
            (hearing_rules.forward l grant.now.address mesh.now unit.now note) result out.new self.new) }
        ensures after { After self.old self.new }
    {
        let left = self.parts.counter.left();
        let Some(hop) = self.parts.routing.route(mesh.to) else {
            return self.report(grant, mesh, out);
        };
        if mesh.hops < 2 {
            return Err(Dropped::HopsSpent);
        }
        if left < 1 {
            return Err(Dropped::CounterSpent);
        }
        match self.send_unit(grant, Destination::one(hop), unit, note, out) {
            Ok(()) => Ok(Heard::Relayed),
            Err(reason) => Err(reason),
        }
    }

    // Hears a unit with a mesh header: for this node, or for another one.
    pub(crate) fn hear_over_mesh<'a>(
        &mut self,
        grant: &Grant,
        last: &LastHop,
        unit: &Unit<'a>,
        datagram: &'a mut DatagramBuf,
        out: &mut Out,
    ) -> Result<Heard<'a>, Dropped>
        requires ready { ReadyToSend self.old grant.now out.old }
        requires allowed { IsAllowed unit.now }
        requires fits { spelled_length unit.now ≤ 381 }
        ensures carries { IfSome self.old.memory
            (λ l. Carries self.old
            (hearing_rules.hear_over_mesh l grant.now.address unit.now last.now.note last.now.time) result out.new self.new) }
        ensures after { After self.old self.new }
    {
        match unit {
            Unit::Whole { mesh, octets } => {
                let octets = OctetRef::new(octets.octets());
                if mesh.to.number() == grant.address.number() {
                    return Ok(handed_up(mesh, last.note, octets));
                }
                let on = Unit::Whole {
                    mesh: hop_less(mesh),
                    octets,
                };
                self.forward(grant, mesh, &on, last.note, out)
            }
            Unit::Part { mesh, piece } => {
                if mesh.to.number() == grant.address.number() {
                    return self.gather(mesh.origin, piece, last.note, last.time, datagram, out);
                }
                let on = Unit::Part {
                    mesh: hop_less(mesh),
                    piece: piece.again(),
                };
                self.forward(grant, mesh, &on, last.note, out)
            }
            Unit::Carried { mesh, body } => {
                let body = OctetRef::new(body.octets());
                if mesh.to.number() == grant.address.number() {
                    return Ok(joining_over(mesh, body));
                }
                let on = Unit::Carried {
                    mesh: hop_less(mesh),
                    body,
                };
                self.forward(grant, mesh, &on, last.note, out)
            }
            Unit::Local { .. } => Err(Dropped::BadUnit),
        }
    }
}
