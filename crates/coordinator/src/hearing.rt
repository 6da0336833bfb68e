//! What the coordinator makes of a frame that it accepted.
ghost use Rattle.std.specs.Prelude.{◌≡◌, Some, None, IfSome};
ghost use Rattle.joining_messages.specs.Reader.{join_in};
ghost use Rattle.joining_messages.specs.declared.message.JoinBody.TheVariants as body;
ghost use Rattle.node_rules.specs.HearingRules as hearing_rules;
ghost use Rattle.node_rules.specs.Coordinators as rules;
ghost use Rattle.node_rules.specs.CarriedPlans.{Carries};
ghost use Rattle.node_rules.specs.MemoryDrafts.{unread};
ghost use Rattle.node_rules.specs.Replies.{reply_sent};
ghost use Rattle.coordinator.specs.CoordinatorStates.{node_of, identity_of};
ghost use Rattle.coordinator.specs.CoordinatorAgreement.{CoordinatorReady, CoordinatorReadyToAnswer, CoordinatorAgrees};

use crate::coordinator::Coordinator;
use joining_base::{joining_command, read_message};
use joining_messages::{JoinBody, JoinMessage};
use node_rules::{CoordinatorHeard, Dropped, Heard, Way};
use plc_base::{DatagramBuf, Eui, Keeper, LinkCost, Out};
use plc_station::Accepted;

// Whether a JOIN of a meter may come so.
fn may_come(way: Way, eui: Eui) -> bool
    ensures { result ≡ rules.may_come way eui }
{
    match way {
        Way::Air(from) => from.number() == eui.number(),
        Way::Near(_) => false,
        Way::Mesh(_) => true,
    }
}

// What the station made of a frame, as the coordinator says it.
fn heard_by_station<'a>(heard: Result<Heard<'a>, Dropped>) -> Result<CoordinatorHeard<'a>, Dropped>
    ensures { result ≡ rules.heard_by_station heard.entry }
{
    match heard {
        Ok(heard) => Ok(CoordinatorHeard::Station(heard)),
        Err(reason) => Err(reason),
    }
}

impl<K: Keeper + Drop> Coordinator<K> {
    // Hears a JOIN: without a packet the meter asks, and with one it answers.
    fn hear_packet(
        &mut self,
        way: &Way,
        eui: Eui,
        packet: &[u8],
        now: u64,
        out: &mut Out,
    ) -> Result<CoordinatorHeard<'static>, Dropped>
        requires ready { CoordinatorReadyToAnswer (node_of self.old) out.old }
        ensures carries { IfSome (node_of self.old).memory (λ m. Carries (node_of self.old)
            (rules.hear_join (identity_of self.old) m way.now eui (body.Join packet.now) now)
            result out.new (node_of self.new)) }
        ensures holds { CoordinatorAgrees (node_of self.new) }
    {
        if packet.is_empty() {
            return self.asked(way, eui, now, out);
        }
        self.answered(eui, packet, now, out)
    }

    // Hears a joining message, which is a JOIN or nothing for the coordinator.
    fn hear_body(
        &mut self,
        way: &Way,
        eui: Eui,
        body: &JoinBody,
        now: u64,
        out: &mut Out,
    ) -> Result<CoordinatorHeard<'static>, Dropped>
        requires ready { CoordinatorReadyToAnswer (node_of self.old) out.old }
        ensures carries { IfSome (node_of self.old).memory (λ m. Carries (node_of self.old)
            (rules.hear_join (identity_of self.old) m way.now eui body.now now) result out.new (node_of self.new)) }
        ensures holds { CoordinatorAgrees (node_of self.new) }
    {
        match body {
            JoinBody::Join { eap } => self.hear_packet(way, eui, eap.octets(), now, out),
            JoinBody::Challenge { .. } => return Err(Dropped::BadUnit),
            JoinBody::Accept { .. } => return Err(Dropped::BadUnit),
            JoinBody::Decline => return Err(Dropped::BadUnit),
            JoinBody::Kick => return Err(Dropped::BadUnit),
            JoinBody::Activate { .. } => return Err(Dropped::BadUnit),
        }
    }

    // Hears a joining command that the station handed on.
    fn hear_joining(
        &mut self,
        way: &Way,
        octets: &[u8],
        now: u64,
        out: &mut Out,
    ) -> Result<CoordinatorHeard<'static>, Dropped>
        requires ready { CoordinatorReadyToAnswer (node_of self.old) out.old }
        ensures carries { IfSome (node_of self.old).memory (λ m. Carries (node_of self.old)
            (rules.hear_join_in (identity_of self.old) m way.now (join_in octets.now) now)
            result out.new (node_of self.new)) }
        ensures holds { CoordinatorAgrees (node_of self.new) }
    {
        let read = read_message(octets);
        let Some(join) = &read else {
            return Err(Dropped::BadUnit);
        };
        if !may_come(*way, join.eui) {
            return Err(Dropped::BadUnit);
        }
        self.hear_body(way, join.eui, &join.body, now, out)
    }

    // What the station makes of a frame.
    fn hear_frame<'a>(
        &mut self,
        got: Accepted<'a>,
        cost: LinkCost,
        note: u32,
        now: u64,
        datagram: &'a mut DatagramBuf,
        out: &mut Out,
    ) -> Result<Heard<'a>, Dropped>
        requires ready { CoordinatorReady (node_of self.old) }
        ensures carries { IfSome self.old.station.memory (λ l. Carries self.old.station
            (hearing_rules.hear l got.entry cost note now) result out.new self.new.station) }
        ensures beside { self.new ≡ record self.old { station = self.new.station } }
        ensures replied { IfSome self.old.station.memory (λ l. self.new.station.replied
            ≡ reply_sent (hearing_rules.hear l got.entry cost note now) self.new.station.memory) }
        ensures holds { CoordinatorAgrees (node_of self.new) }
    {
        self.station.hear(got, cost, note, now, datagram, out)
    }

    /// Hears a frame that was accepted, over a link of this cost, under a number of the caller's, at a time in seconds. A meter's
    /// joining message is answered, and all else is what its station makes of it; what goes out is in `out`.
    ///
    /// A meter that asks is challenged where it is allowed, and declined else. The second packet (RFC 4764) of its session is answered
    /// with its grant, whose keys are noted as issued; the fourth ends the session. Dropped for the first reason that its rule names;
    /// after Store it is halted, after the others nothing has changed.
    ///
    /// The last reply of its station is then the route reply that it sent. Of a frame with a joining command nothing is said of it.
    pub fn hear<'a>(
        &mut self,
        got: Accepted<'a>,
        cost: LinkCost,
        note: u32,
        now: u64,
        datagram: &'a mut DatagramBuf,
        out: &mut Out,
    ) -> Result<CoordinatorHeard<'a>, Dropped>
        requires ready { CoordinatorReady (node_of self.old) }
        ensures carries { IfSome (node_of self.old).memory (λ m. Carries (node_of self.old)
            (rules.hear_coordinator (identity_of self.old) m got.entry cost note now)
            result out.new (node_of self.new)) }
        ensures replied { IfSome (node_of self.old).memory (λ m. unread (hearing_rules.hear m.station got.entry cost note now).answer ≡ None
            → self.new.station.replied ≡ reply_sent (rules.hear_coordinator (identity_of self.old) m got.entry cost note now)
            (node_of self.new).memory) }
        ensures holds { CoordinatorAgrees (node_of self.new) }
    {
        let heard = self.hear_frame(got, cost, note, now, datagram, out);
        match joining_command(&heard) {
            Some(command) => self.hear_joining(&command.way, command.body.octets(), now, out),
            None => heard_by_station(heard),
        }
    }
}
