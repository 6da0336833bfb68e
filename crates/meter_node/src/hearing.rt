//! What a meter makes of a frame that it accepted.
ghost use Rattle.std.specs.Prelude.{◌≡◌, Some, None, Ok, Err, IfSome, IsSome};
ghost use Rattle.joining_messages.specs.Messages.{IsBody, IsMessage};
ghost use Rattle.joining_messages.specs.Reader.{join_in};
ghost use Rattle.node_rules.specs.Memory.{StationMemory};
ghost use Rattle.node_rules.specs.Memory as memory;
ghost use Rattle.node_rules.specs.Meters as meters;
ghost use Rattle.node_rules.specs.CarriedPlans.{Carries, nothing};
ghost use Rattle.plc_station.specs.Ready.{Ready, ReadyToAnswer};
ghost use Rattle.meter_node.specs.MeterCalls.{MeterAfter};
ghost use Rattle.node_rules.specs.HearingRules.{hear};
ghost use Rattle.node_rules.specs.MemoryDrafts.{unread};
ghost use Rattle.node_rules.specs.Replies.{reply_sent};
ghost use Rattle.meter_node.specs.MeterStates.{identity_of, memory_with, node_of};
ghost use Rattle.meter_node.specs.Sessions.{session_way_of};
ghost use Rattle.meter_node.specs.MeterAnswers as meter_answers;

use crate::meter::Meter;
use crate::relaying::goes_down;
use crate::session::SessionWay;
use joining_base::{joining_command, push_down, read_message};
use joining_messages::{JoinBody, JoinMessage};
use node_rules::{Dropped, Heard, MeterHeard, RingRefusal, Way};
use plc_base::{DatagramBuf, Keeper, KeyIndex, LinkCost, Out, Short};
use plc_station::Accepted;

// Whether two sessions run alike.
fn same_session_way(a: SessionWay, b: SessionWay) -> bool
    ensures { result ≡ meters.same_session_way (session_way_of a) (session_way_of b) }
{
    match a {
        SessionWay::ByAgent(a) => match b {
            SessionWay::ByAgent(b) => a.number() == b.number(),
            SessionWay::ByCommand => false,
        },
        SessionWay::ByCommand => match b {
            SessionWay::ByAgent(_) => false,
            SessionWay::ByCommand => true,
        },
    }
}

// A key that the station seals with, as a meter says it.
fn activated_as(done: Result<(), RingRefusal>) -> Result<MeterHeard<'static>, Dropped>
    ensures { result ≡ meter_answers.activated_as done }
{
    match done {
        Ok(()) => Ok(MeterHeard::Activated),
        Err(RingRefusal::NotHeld) => Err(Dropped::NotHeld),
        Err(RingRefusal::Halted | RingRefusal::NotJoined | RingRefusal::Store) => Err(
            Dropped::Store,
        ),
    }
}

// What the station made of a frame, as a meter says it.
fn heard_by_station<'a>(heard: Result<Heard<'a>, Dropped>) -> Result<MeterHeard<'a>, Dropped>
    ensures { result ≡ meters.heard_by_station heard.entry }
{
    match heard {
        Ok(heard) => Ok(MeterHeard::Station(heard)),
        Err(reason) => Err(reason),
    }
}

impl<K: Keeper + Drop> Meter<K> {
    // Whether the session that is open runs so.
    pub(crate) fn has_session(&self, session_way: SessionWay) -> bool
        ensures { (l : StationMemory) → result ≡ meters.has_session (memory_with self.now l) (session_way_of session_way) }
    {
        let Some(session) = self.session else {
            return false;
        };
        same_session_way(session.session_way, session_way)
    }

    // The coordinator does not let the meter in, as an agent says.
    fn declined(&mut self, agent: Short) -> Result<MeterHeard<'static>, Dropped>
        requires ready { Ready self.old.station }
        ensures carries { IfSome (node_of self.old).memory (λ m. Carries (node_of self.old)
            (meters.declined m agent) result nothing (node_of self.new)) }
        ensures after { MeterAfter self.old self.new }
    {
        if self.is_joined() {
            return Err(Dropped::BadUnit);
        }
        if !self.has_session(SessionWay::ByAgent(agent)) {
            return Err(Dropped::NoSession);
        }
        self.session = None;
        Ok(MeterHeard::Declined)
    }

    // The coordinator shuts the meter out.
    fn kicked(&mut self) -> Result<MeterHeard<'static>, Dropped>
        requires ready { Ready self.old.station }
        ensures carries { IfSome (node_of self.old).memory (λ m. Carries (node_of self.old)
            (meters.kicked m) result nothing (node_of self.new)) }
        ensures after { MeterAfter self.old self.new }
    {
        self.session = None;
        let Ok(()) = self.station.leave() else {
            return Err(Dropped::Store);
        };
        Ok(MeterHeard::Left)
    }

    // Another key seals from now on.
    fn activated(&mut self, index: KeyIndex) -> Result<MeterHeard<'static>, Dropped>
        requires ready { Ready self.old.station }
        ensures carries { IfSome (node_of self.old).memory (λ m. Carries (node_of self.old)
            (meters.activated m index) result nothing (node_of self.new)) }
        ensures after { MeterAfter self.old self.new }
    {
        let done = self.station.activate(index);
        activated_as(done)
    }

    // Carries a message of the coordinator down to its meter.
    fn carry_down(
        &mut self,
        join: &JoinMessage,
        out: &mut Out,
    ) -> Result<MeterHeard<'static>, Dropped>
        requires ready { ReadyToAnswer self.old.station out.old }
        requires message { IsMessage join.now }
        ensures carries { IfSome (node_of self.old).memory (λ m. Carries (node_of self.old)
            (meters.carry_down m join.now join.now.body) result out.new (node_of self.new)) }
        ensures after { MeterAfter self.old self.new }
    {
        let Some(own) = self.station.ring().joined() else {
            return Err(Dropped::BadUnit);
        };
        if !goes_down(&join.body) {
            return Err(Dropped::BadUnit);
        }
        push_down(join, own, out);
        Ok(MeterHeard::Carried)
    }

    // Hears what an agent says.
    fn hear_near(
        &mut self,
        agent: Short,
        body: &JoinBody,
        now: u64,
        out: &mut Out,
    ) -> Result<MeterHeard<'static>, Dropped>
        requires ready { ReadyToAnswer self.old.station out.old }
        ensures carries { IfSome (node_of self.old).memory (λ m. Carries (node_of self.old)
            (meters.hear_near (identity_of self.old) m agent body.now now) result out.new (node_of self.new)) }
        ensures after { MeterAfter self.old self.new }
    {
        match body {
            JoinBody::Challenge { eap } => self.challenged_by_agent(agent, eap.octets(), now, out),
            JoinBody::Accept { .. } => return Ok(MeterHeard::Noted),
            JoinBody::Decline => self.declined(agent),
            JoinBody::Join { .. } => return Err(Dropped::BadUnit),
            JoinBody::Kick => return Err(Dropped::BadUnit),
            JoinBody::Activate { .. } => return Err(Dropped::BadUnit),
        }
    }

    // Hears what the coordinator says to this meter.
    fn hear_order(
        &mut self,
        body: &JoinBody,
        now: u64,
        out: &mut Out,
    ) -> Result<MeterHeard<'static>, Dropped>
        requires ready { ReadyToAnswer self.old.station out.old }
        requires joined { IfSome self.old.station.memory (λ l. IsSome l.ring) }
        requires body { IsBody body.now }
        ensures carries { IfSome (node_of self.old).memory (λ m. Carries (node_of self.old)
            (meters.hear_order (identity_of self.old) m body.now now) result out.new (node_of self.new)) }
        ensures after { MeterAfter self.old self.new }
    {
        match body {
            JoinBody::Challenge { eap } => self.challenged_by_command(eap.octets(), now, out),
            JoinBody::Accept { .. } => return Ok(MeterHeard::Noted),
            JoinBody::Kick => self.kicked(),
            JoinBody::Activate { index } => self.activated(*index),
            JoinBody::Join { .. } => return Err(Dropped::BadUnit),
            JoinBody::Decline => return Err(Dropped::BadUnit),
        }
    }

    // Hears a joining message, by the way that it came.
    fn hear_join(
        &mut self,
        way: Way,
        join: &JoinMessage,
        now: u64,
        out: &mut Out,
    ) -> Result<MeterHeard<'static>, Dropped>
        requires ready { ReadyToAnswer self.old.station out.old }
        requires came { IfSome self.old.station.memory (λ l. meter_answers.CameBy way l) }
        requires message { IsMessage join.now }
        ensures carries { IfSome (node_of self.old).memory (λ m. Carries (node_of self.old)
            (meters.hear_join (identity_of self.old) m way join.now now) result out.new (node_of self.new)) }
        ensures after { MeterAfter self.old self.new }
    {
        let own = join.eui.number() == self.station.eui().number();
        match way {
            Way::Air(from) => self.carry_up(from, join, now, out),
            Way::Near(agent) => {
                if !own {
                    return Err(Dropped::BadUnit);
                }
                self.hear_near(agent, &join.body, now, out)
            }
            Way::Mesh(origin) => {
                if origin.number() != 0 {
                    return Err(Dropped::BadUnit);
                }
                if own {
                    return self.hear_order(&join.body, now, out);
                }
                self.carry_down(join, out)
            }
        }
    }

    // Hears a joining command that the station handed on.
    fn hear_joining(
        &mut self,
        way: Way,
        body: &[u8],
        now: u64,
        out: &mut Out,
    ) -> Result<MeterHeard<'static>, Dropped>
        requires ready { ReadyToAnswer self.old.station out.old }
        requires came { IfSome self.old.station.memory (λ l. meter_answers.CameBy way l) }
        ensures carries { IfSome (node_of self.old).memory (λ m. Carries (node_of self.old)
            (meters.hear_join_in (identity_of self.old) m way (join_in body.now) now)
            result out.new (node_of self.new)) }
        ensures after { MeterAfter self.old self.new }
    {
        let read = read_message(body);
        let Some(join) = &read else {
            return Err(Dropped::BadUnit);
        };
        self.hear_join(way, join, now, out)
    }

    /// Hears a frame that was accepted, over a link of this cost, under a number of the caller's, at a time in seconds. A joining
    /// message is carried on or answered, and all else is what its station makes of it; what goes out is in `out`.
    ///
    /// Dropped for the first reason that its rule names. After Store it is halted and nothing goes out, after the others nothing has
    /// changed. A frame that came up to its address has to have come to a joined meter: what `accept` of its station answers has, by
    /// the law [`accepted_frames_came`](crate::accepted_frames_came).
    ///
    /// The last reply of its station is then the route reply that it sent. Of a frame with a joining command nothing is said of it.
    pub fn hear<'a>(
        &mut self,
        got: Accepted<'a>,
        cost: LinkCost,
        note: u32,
        now: u64,
        datagram: &'a mut DatagramBuf,
        out: &mut Out,
    ) -> Result<MeterHeard<'a>, Dropped>
        requires ready { Ready self.old.station }
        requires came { IfSome self.old.station.memory (λ l. meter_answers.CameUp got.path l) }
        ensures carries { IfSome (node_of self.old).memory (λ m. Carries (node_of self.old)
            (meters.hear_meter (identity_of self.old) m got.entry cost note now) result out.new (node_of self.new)) }
        ensures after { MeterAfter self.old self.new }
        ensures replied { IfSome (node_of self.old).memory (λ m. unread (hear m.station got.entry cost note now).answer ≡ None
            → self.new.station.replied ≡ reply_sent (meters.hear_meter (identity_of self.old) m got.entry cost note now) (node_of self.new).memory) }
    {
        let heard = self.station.hear(got, cost, note, now, datagram, out);
        match joining_command(&heard) {
            Some(command) => self.hear_joining(command.way, command.body.octets(), now, out),
            None => heard_by_station(heard),
        }
    }
}
