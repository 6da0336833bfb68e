//! Meters that ask to be let in.
ghost use Rattle.std.specs.Prelude.{◌≡◌, false, Some, IfSome, IsSome};
ghost use Rattle.joining_messages.specs.Messages.{IsMessage};
ghost use Rattle.joining_messages.specs.declared.message.JoinBody.TheVariants as body;
ghost use Rattle.group_keys.specs.KeyBook as book;
ghost use Rattle.node_rules.specs.JoiningPackets as joining_packets;
ghost use Rattle.node_rules.specs.MemoryDrafts as words;
ghost use Rattle.node_rules.specs.Coordinators as rules;
ghost use Rattle.node_rules.specs.CarriedPlans.{Carries};
ghost use Rattle.coordinator.specs.CoordinatorStates.{node_of, identity_of};
ghost use Rattle.coordinator.specs.CoordinatorAgreement.{CoordinatorReadyToAnswer, CoordinatorAgrees};

use crate::coordinator::Coordinator;
use crate::sessions::ServerSession;
use eap_psk::Server;
use joining_messages::{JoinBody, JoinMessage};
use node_rules::{CoordinatorHeard, Dropped, Way};
use plc_base::{EapBuf, Eui, Keeper, Out, RandomOctets};

impl<K: Keeper + Drop> Coordinator<K> {
    // Whether a meter is allowed.
    fn is_allowed(&self, eui: Eui) -> bool
        ensures { IfSome (node_of self.now).memory (λ m. result ≡ book.is_allowed m.book eui) }
    {
        self.book.allowed(eui)
    }

    // Declines a meter that is not allowed.
    fn decline(
        &mut self,
        way: &Way,
        eui: Eui,
        now: u64,
        out: &mut Out,
    ) -> Result<CoordinatorHeard<'static>, Dropped>
        requires ready { CoordinatorReadyToAnswer (node_of self.old) out.old }
        ensures carries { IfSome (node_of self.old).memory (λ m. Carries (node_of self.old)
            (rules.declines m way.now (joining_packets.message eui body.Decline) now) result out.new (node_of self.new)) }
        ensures holds { CoordinatorAgrees (node_of self.new) }
    {
        let message = JoinMessage {
            eui,
            body: JoinBody::Decline,
        };
        match self.say_room(*way, &message) {
            Err(reason) => return Err(reason),
            Ok(()) => {}
        }
        let Ok(()) = self.say(*way, &message, now, out) else {
            return Err(Dropped::Store);
        };
        Ok(CoordinatorHeard::Declined)
    }

    // This first packet goes to a meter by the way that it asked, and this session of it begins.
    fn open_back(
        &mut self,
        session: ServerSession,
        message: &JoinMessage,
        out: &mut Out,
    ) -> Result<CoordinatorHeard<'static>, Dropped>
        requires ready { CoordinatorReadyToAnswer (node_of self.old) out.old }
        requires room { IfSome (node_of self.old).memory (λ m. rules.sessions_full m session.server.eui ≡ false) }
        requires value { IfSome (node_of self.old).memory (λ m. IsSome (words.oldest m)) }
        requires message { IsMessage message.now }
        requires packet { message.now
            ≡ joining_packets.message session.server.eui (body.Challenge (joining_packets.first_packet session.server)) }
        ensures carries { IfSome (node_of self.old).memory (λ m. Carries (node_of self.old)
            (rules.challenges m session.way session.server session.since) result out.new (node_of self.new)) }
        ensures holds { CoordinatorAgrees (node_of self.new) }
    {
        match self.say_room(session.way, message) {
            Err(reason) => return Err(reason),
            Ok(()) => {}
        }
        self.begin_session(session);
        let Ok(()) = self.say(session.way, message, session.since, out) else {
            return Err(Dropped::Store);
        };
        Ok(CoordinatorHeard::Challenged)
    }

    // Challenges a meter that asked, with this random value, the oldest.
    fn challenge_back(
        &mut self,
        way: &Way,
        eui: Eui,
        value: RandomOctets,
        now: u64,
        out: &mut Out,
    ) -> Result<CoordinatorHeard<'static>, Dropped>
        requires ready { CoordinatorReadyToAnswer (node_of self.old) out.old }
        requires room { IfSome (node_of self.old).memory (λ m. rules.sessions_full m eui ≡ false) }
        requires value { IfSome (node_of self.old).memory (λ m. Some value ≡ words.oldest m) }
        ensures carries { IfSome (node_of self.old).memory (λ m. Carries (node_of self.old)
            (rules.challenges m way.now (joining_packets.server_for eui self.old.station.eui value) now)
            result out.new (node_of self.new)) }
        ensures holds { CoordinatorAgrees (node_of self.new) }
    {
        let mut eap = EapBuf::new();
        let server = Server::first(eui, self.station.eui(), value, &mut eap);
        let session = ServerSession {
            server,
            way: *way,
            since: now,
        };
        let body = JoinBody::Challenge { eap };
        self.open_back(session, &JoinMessage { eui, body }, out)
    }

    // Opens a session of a meter that asked, where there is room for it and a random value is left.
    fn open_session(
        &mut self,
        way: &Way,
        eui: Eui,
        now: u64,
        out: &mut Out,
    ) -> Result<CoordinatorHeard<'static>, Dropped>
        requires ready { CoordinatorReadyToAnswer (node_of self.old) out.old }
        ensures carries { IfSome (node_of self.old).memory (λ m. Carries (node_of self.old)
            (rules.open_session (identity_of self.old) m way.now eui now) result out.new (node_of self.new)) }
        ensures holds { CoordinatorAgrees (node_of self.new) }
    {
        if self.sessions_full(eui) {
            return Err(Dropped::SessionsFull);
        }
        let Some(value) = self.oldest() else {
            return Err(Dropped::NoRandom);
        };
        self.challenge_back(way, eui, value, now, out)
    }

    // A meter asks: it is challenged where it is allowed, and declined else.
    pub(crate) fn asked(
        &mut self,
        way: &Way,
        eui: Eui,
        now: u64,
        out: &mut Out,
    ) -> Result<CoordinatorHeard<'static>, Dropped>
        requires ready { CoordinatorReadyToAnswer (node_of self.old) out.old }
        ensures carries { IfSome (node_of self.old).memory (λ m. Carries (node_of self.old)
            (rules.join_without_packet (identity_of self.old) m way.now eui now) result out.new (node_of self.new)) }
        ensures holds { CoordinatorAgrees (node_of self.new) }
    {
        if !self.is_allowed(eui) {
            return self.decline(way, eui, now, out);
        }
        self.open_session(way, eui, now, out)
    }
}
