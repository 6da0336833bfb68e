//! What a meter answers to the packets of a joining.
ghost use Rattle.std.specs.Prelude.{◌≡◌, Some, IfOk, IfSome, OnErr, slice_get};
ghost use Rattle.std.specs.Result.{result_err};
ghost use Rattle.eap_psk.specs.Keys.{keys_of};
ghost use Rattle.eap_psk.specs.Sessions.{agreed_by, fourth_packet, granted_by, identifier_of, peer_for, second_packet};
ghost use Rattle.eap_psk.specs.Tags.{first_tags, no_tags, third_tags};
ghost use Rattle.node_rules.specs.Memory as memory;
ghost use Rattle.node_rules.specs.Meters as meters;
ghost use Rattle.meter_node.specs.MeterStates.{memory_with};
ghost use Rattle.meter_node.specs.MeterAnswers as meter_answers;

use crate::meter::Meter;
use crate::session::SessionWay;
use eap_psk::{Agreed, Peer};
use joining_base::dropped_packet;
use node_rules::Dropped;
use plc_base::{EapBuf, Grant, Keeper, Short, TagList};

/// The grant that was taken from a third packet, and with what.
#[derive(Clone, Copy, Debug)]
pub(crate) struct TakenGrant {
    /// The peer that took it.
    pub peer: Peer,
    /// The grant in it.
    pub grant: Grant,
    /// The random values of the session.
    pub agreed: Agreed,
}

impl<K: Keeper + Drop> Meter<K> {
    // What is wrong with a challenge by an agent, whatever its packet is.
    pub(crate) fn awaits(&self, agent: Short) -> Result<(), Dropped>
        ensures { IfSome self.now.station.memory (λ l.
            meters.air_fault (memory_with self.now l) (memory.ByAgent agent) ≡ result_err result) }
    {
        if self.is_joined() {
            return Err(Dropped::BadUnit);
        }
        if !self.has_session(SessionWay::ByAgent(agent)) {
            return Err(Dropped::NoSession);
        }
        Ok(())
    }

    // Writes the second packet, which answers a first one with the oldest random value.
    pub(crate) fn second(
        &self,
        packet: &[u8],
        eap: &mut EapBuf,
        tags: &mut TagList,
    ) -> Result<Peer, Dropped>
        ensures exact { meter_answers.first_refusal self.now.randoms packet.now ≡ result_err result }
        ensures value { IfOk result (λ peer. slice_get self.now.randoms 0 ≡ Some peer.rand_p) }
        ensures peer { IfOk result (λ peer. peer ≡ peer_for self.now.station.eui peer.rand_p packet.now) }
        ensures written { IfOk result (λ peer. eap.new
            ≡ second_packet (keys_of self.now.psk.0) (identifier_of packet.now) peer) }
        ensures tags { IfOk result (λ peer. tags.new ≡ first_tags peer) }
        ensures untagged { OnErr result (tags.old ≡ no_tags → tags.new ≡ no_tags) }
    {
        let Some(value) = self.randoms.oldest() else {
            return Err(Dropped::NoRandom);
        };
        let eui = self.station.eui();
        let keys = self.pair_key.keys();
        match Peer::answer_first(keys, eui, value, packet, eap, tags) {
            Ok(peer) => Ok(peer),
            Err(fault) => Err(dropped_packet(fault)),
        }
    }

    // Writes the fourth packet, which answers a third one in the session that is open.
    pub(crate) fn fourth(
        &self,
        packet: &[u8],
        eap: &mut EapBuf,
        tags: &mut TagList,
    ) -> Result<TakenGrant, Dropped>
        ensures exact { meter_answers.third_refusal (keys_of self.now.psk.0) self.now.session packet.now ≡ result_err result }
        ensures peer { IfOk result (λ x. meter_answers.peer_in self.now.session ≡ Some x.peer) }
        ensures grant { IfOk result (λ x. granted_by (keys_of self.now.psk.0) x.peer packet.now ≡ Some x.grant) }
        ensures agreed { IfOk result (λ x. x.agreed ≡ agreed_by x.peer) }
        ensures written { IfOk result (λ x. eap.new
            ≡ fourth_packet (keys_of self.now.psk.0) (identifier_of packet.now) x.peer) }
        ensures tags { IfOk result (λ x. tags.new ≡ third_tags x.peer (identifier_of packet.now) x.grant) }
        ensures untagged { OnErr result (tags.old ≡ no_tags → tags.new ≡ no_tags) }
    {
        let Some(session) = self.session else {
            return Err(Dropped::NoSession);
        };
        let Some(peer) = session.peer else {
            return Err(Dropped::Form);
        };
        let keys = self.pair_key.keys();
        match peer.take_third(keys, packet, eap, tags) {
            Ok((grant, agreed)) => Ok(TakenGrant {
                peer,
                grant,
                agreed,
            }),
            Err(fault) => Err(dropped_packet(fault)),
        }
    }
}
