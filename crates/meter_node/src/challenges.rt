//! What a meter does about a challenge.
ghost use Rattle.std.specs.Prelude.{◌≡◌, Some, None, Ok, Err, IfSome, IsSome};
ghost use Rattle.node_rules.specs.JoiningPackets as joining_packets;
ghost use Rattle.node_rules.specs.Memory as memory;
ghost use Rattle.node_rules.specs.Meters as meters;
ghost use Rattle.node_rules.specs.CarriedPlans.{Carries};
ghost use Rattle.plc_station.specs.Ready.{ReadyToAnswer};
ghost use Rattle.meter_node.specs.MeterCalls.{MeterAfter};
ghost use Rattle.meter_node.specs.MeterStates.{identity_of, node_of};

use crate::commanding::{push_answer, send_answer};
use crate::meter::Meter;
use crate::session::{Session, SessionWay};
use node_rules::{Dropped, MeterHeard};
use plc_base::{EapBuf, Keeper, Out, Short};

// Whether a packet counts as a first one.
#[tactic(auto, unfolding(plc_base::specs::Fields::octet))]
fn is_first(packet: &[u8]) -> bool
    ensures { result ≡ joining_packets.is_first packet.now }
{
    if packet.len() <= 5 {
        return false;
    }
    packet[5] / 64 == 0
}

impl<K: Keeper + Drop> Meter<K> {
    // Answers the first packet of an agent.
    fn reply_by_agent(
        &mut self,
        agent: Short,
        packet: &[u8],
        now: u64,
        out: &mut Out,
    ) -> Result<MeterHeard<'static>, Dropped>
        requires ready { ReadyToAnswer self.old.station out.old }
        ensures carries { IfSome (node_of self.old).memory (λ m. Carries (node_of self.old)
            (meters.reply (identity_of self.old) m (memory.ByAgent agent) packet.now now)
            result out.new (node_of self.new)) }
        ensures after { MeterAfter self.old self.new }
    {
        self.awaits(agent)?;
        let mut eap = EapBuf::new();
        let peer = self.second(packet, &mut eap, &mut out.tags)?;
        self.randoms.drop_oldest();
        self.session = Some(Session {
            session_way: SessionWay::ByAgent(agent),
            peer: Some(peer),
            since: now,
        });
        let eui = self.station.eui();
        push_answer(eui, &eap, agent, eui, out);
        Ok(MeterHeard::Replied)
    }

    // Answers a first packet that came in a command.
    fn reply_by_command(
        &mut self,
        packet: &[u8],
        now: u64,
        out: &mut Out,
    ) -> Result<MeterHeard<'static>, Dropped>
        requires ready { ReadyToAnswer self.old.station out.old }
        requires joined { IfSome self.old.station.memory (λ l. IsSome l.ring) }
        ensures carries { IfSome (node_of self.old).memory (λ m. Carries (node_of self.old)
            (meters.reply (identity_of self.old) m memory.ByCommand packet.now now) result out.new (node_of self.new)) }
        ensures after { MeterAfter self.old self.new }
    {
        let mut eap = EapBuf::new();
        let peer = self.second(packet, &mut eap, &mut out.tags)?;
        match self.answer_room(&eap) {
            Err(reason) => {
                out.tags.clear();
                return Err(reason);
            }
            Ok(()) => {}
        }
        self.randoms.drop_oldest();
        self.session = Some(Session {
            session_way: SessionWay::ByCommand,
            peer: Some(peer),
            since: now,
        });
        let Ok(_) = send_answer(&mut self.station, &eap, now, out) else {
            return Err(Dropped::Store);
        };
        Ok(MeterHeard::Replied)
    }

    // Takes the third packet of an agent: keeps the grant in it, and answers.
    fn take_by_agent(
        &mut self,
        agent: Short,
        packet: &[u8],
        now: u64,
        out: &mut Out,
    ) -> Result<MeterHeard<'static>, Dropped>
        requires ready { ReadyToAnswer self.old.station out.old }
        ensures carries { IfSome (node_of self.old).memory (λ m. Carries (node_of self.old)
            (meters.take (identity_of self.old) m (memory.ByAgent agent) packet.now now)
            result out.new (node_of self.new)) }
        ensures after { MeterAfter self.old self.new }
    {
        self.awaits(agent)?;
        let mut eap = EapBuf::new();
        let fourth = self.fourth(packet, &mut eap, &mut out.tags);
        let taken = match &fourth {
            Ok(taken) => taken,
            Err(reason) => return Err(*reason),
        };
        self.session = None;
        let Ok(()) = self.station.install(&taken.grant) else {
            out.tags.made.clear();
            return Err(Dropped::Store);
        };
        push_answer(self.station.eui(), &eap, agent, taken.peer.eui, out);
        Ok(MeterHeard::Took(taken.agreed))
    }

    // Takes a third packet that came in a command: keeps the grant in it, and answers under the new ring.
    fn take_by_command(
        &mut self,
        packet: &[u8],
        now: u64,
        out: &mut Out,
    ) -> Result<MeterHeard<'static>, Dropped>
        requires ready { ReadyToAnswer self.old.station out.old }
        requires joined { IfSome self.old.station.memory (λ l. IsSome l.ring) }
        ensures carries { IfSome (node_of self.old).memory (λ m. Carries (node_of self.old)
            (meters.take (identity_of self.old) m memory.ByCommand packet.now now) result out.new (node_of self.new)) }
        ensures after { MeterAfter self.old self.new }
    {
        if !self.has_session(SessionWay::ByCommand) {
            return Err(Dropped::NoSession);
        }
        let mut eap = EapBuf::new();
        let fourth = self.fourth(packet, &mut eap, &mut out.tags);
        let taken = match &fourth {
            Ok(taken) => taken,
            Err(reason) => return Err(*reason),
        };
        match self.answer_room(&eap) {
            Err(reason) => {
                out.tags.clear();
                return Err(reason);
            }
            Ok(()) => {}
        }
        self.session = None;
        let Ok(()) = self.station.install(&taken.grant) else {
            out.tags.made.clear();
            return Err(Dropped::Store);
        };
        let Ok(_) = send_answer(&mut self.station, &eap, now, out) else {
            return Err(Dropped::Store);
        };
        Ok(MeterHeard::Took(taken.agreed))
    }

    // Takes a challenge of an agent.
    pub(crate) fn challenged_by_agent(
        &mut self,
        agent: Short,
        packet: &[u8],
        now: u64,
        out: &mut Out,
    ) -> Result<MeterHeard<'static>, Dropped>
        requires ready { ReadyToAnswer self.old.station out.old }
        ensures carries { IfSome (node_of self.old).memory (λ m. Carries (node_of self.old)
            (meters.challenged (identity_of self.old) m (memory.ByAgent agent) packet.now now)
            result out.new (node_of self.new)) }
        ensures after { MeterAfter self.old self.new }
    {
        if is_first(packet) {
            return self.reply_by_agent(agent, packet, now, out);
        }
        self.take_by_agent(agent, packet, now, out)
    }

    // Takes a challenge that came in a command.
    pub(crate) fn challenged_by_command(
        &mut self,
        packet: &[u8],
        now: u64,
        out: &mut Out,
    ) -> Result<MeterHeard<'static>, Dropped>
        requires ready { ReadyToAnswer self.old.station out.old }
        requires joined { IfSome self.old.station.memory (λ l. IsSome l.ring) }
        ensures carries { IfSome (node_of self.old).memory (λ m. Carries (node_of self.old)
            (meters.challenged (identity_of self.old) m memory.ByCommand packet.now now)
            result out.new (node_of self.new)) }
        ensures after { MeterAfter self.old self.new }
    {
        if is_first(packet) {
            return self.reply_by_command(packet, now, out);
        }
        self.take_by_command(packet, now, out)
    }
}
