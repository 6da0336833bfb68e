//! The packets with which a meter answers.
ghost use Rattle.std.specs.Prelude.{◌≡◌, ◌<◌, [], length, true, false, is_ok, Some, None, IfOk, IfSome, IsSome, OnErr, OnOk};
ghost use Rattle.std.specs.Option.{option_map};
ghost use Rattle.std.specs.Result.{result_err};
ghost use Rattle.eap_psk.specs.Faults.{fourth_fault, second_fault};
ghost use Rattle.eap_psk.specs.Keys.{keys_of};
ghost use Rattle.eap_psk.specs.Sessions.{peer_of, rand_p_in, server_after, third_packet};
ghost use Rattle.eap_psk.specs.Tags.{fourth_tags, no_tags, second_tags};
ghost use Rattle.joining_messages.specs.Messages.{IsMessage};
ghost use Rattle.joining_messages.specs.declared.message.JoinBody.TheVariants as body;
ghost use Rattle.group_keys.specs.KeyBook as book;
ghost use Rattle.node_rules.specs.JoiningPackets.{message};
ghost use Rattle.node_rules.specs.MemoryDrafts.{packet_fault};
ghost use Rattle.node_rules.specs.Coordinators as rules;
ghost use Rattle.node_rules.specs.CarriedPlans.{Carries};
ghost use Rattle.coordinator.specs.CoordinatorStates.{node_of, identity_of};
ghost use Rattle.coordinator.specs.CoordinatorAgreement.{CoordinatorReady, CoordinatorReadyToAnswer, CoordinatorAgrees};
ghost use Rattle.coordinator.specs.DraftsCarriedOut.{Does};
ghost use Rattle.coordinator.specs.Packets as answering;

use crate::coordinator::Coordinator;
use crate::entries::issued;
use crate::sessions::ServerSession;
use eap_psk::{Agreed, PskKeys, Server};
use group_keys::BookEntry;
use joining_base::dropped_packet;
use joining_messages::{JoinBody, JoinMessage};
use node_rules::{CoordinatorHeard, Dropped};
use plc_base::{EapBuf, Eui, Failed, Grant, Keeper, Key, Out, RandomOctets, TagList};

// The message with a third packet.
fn third_with(eui: Eui, eap: EapBuf) -> JoinMessage
    requires { 0 < length eap }
    ensures value { result ≡ message eui (body.Challenge eap) }
    ensures valid { IsMessage result }
{
    JoinMessage {
        eui,
        body: JoinBody::Challenge { eap },
    }
}

// Takes the second packet of a session: the server that awaits the fourth, and the message with the third, which carries this grant. The keys of
// the pair key are gone before that is sent.
fn third_message(
    server: &Server,
    psk: &Key,
    packet: &[u8],
    grant: &Grant,
    tags: &mut TagList,
) -> Result<(Server, JoinMessage), Dropped>
    requires awaits { server.now.rand_p ≡ None }
    ensures exact { option_map packet_fault (second_fault (keys_of psk.now.0) server.now packet.now) ≡ result_err result }
    ensures next { IfOk result (λ x. x.0 ≡ server_after server.now packet.now) }
    ensures message { IfOk result (λ x. x.1 ≡ message server.now.eui (body.Challenge
        (third_packet (keys_of psk.now.0) 2 (peer_of server.now (rand_p_in packet.now)) grant.now))) }
    ensures valid { IfOk result (λ x. IsMessage x.1) }
    ensures tags { OnOk result (tags.new ≡ second_tags (peer_of server.now (rand_p_in packet.now)) grant.now) }
    ensures untagged { OnErr result (tags.new ≡ no_tags) }
{
    let keys = PskKeys::of(psk);
    let mut eap = EapBuf::new();
    match server.take_second(&keys, packet, grant, &mut eap, tags) {
        Err(fault) => Err(dropped_packet(fault)),
        Ok(next) => Ok((next, third_with(server.eui, eap))),
    }
}

// Takes the fourth packet of a session: the random values that both ends hold then. The keys of the pair key are gone before the meter is accepted.
fn check_fourth(
    server: &Server,
    psk: &Key,
    packet: &[u8],
    tags: &mut TagList,
) -> Result<Agreed, Dropped>
    requires awaits { IsSome server.now.rand_p }
    ensures exact { IfSome server.now.rand_p (λ rand_p.
        option_map packet_fault (fourth_fault (keys_of psk.now.0) server.now rand_p.0 packet.now) ≡ result_err result) }
    ensures agreed { IfOk result (λ agreed.
        (agreed.rand_s ≡ server.now.rand_s) × (Some agreed.rand_p ≡ server.now.rand_p)) }
    ensures tags { IfOk result (λ agreed. tags.new ≡ fourth_tags (peer_of server.now agreed.rand_p)) }
    ensures untagged { OnErr result (tags.new ≡ no_tags) }
{
    let keys = PskKeys::of(psk);
    match server.take_fourth(&keys, packet, tags) {
        Err(fault) => Err(dropped_packet(fault)),
        Ok(agreed) => Ok(agreed),
    }
}

// The message that accepts a meter.
fn acceptance(eui: Eui) -> JoinMessage
    ensures value { result ≡ message eui (body.Accept 2) }
    ensures valid { IsMessage result }
{
    JoinMessage {
        eui,
        body: JoinBody::Accept { identifier: 2 },
    }
}

impl<K: Keeper + Drop> Coordinator<K> {
    // The session of a meter.
    fn session_of(&self, eui: Eui) -> Option<ServerSession>
        ensures { IfSome (node_of self.now).memory (λ m. result ≡ rules.session_of m eui) }
    {
        self.sessions.of(eui)
    }

    // A session takes the place of that of its meter.
    fn put_session(&mut self, session: ServerSession)
        requires ready { CoordinatorReady (node_of self.old) }
        requires room { IfSome (node_of self.old).memory (λ m. rules.sessions_full m session.server.eui ≡ false) }
        ensures state { IfSome (node_of self.old).memory (λ m. node_of self.new
            ≡ record (node_of self.old) { memory = Some (rules.with_session session m) }) }
        ensures holds { CoordinatorAgrees (node_of self.new) }
    {
        self.sessions.put(session);
    }

    // A session goes on with this server, and the keys of a grant are noted as issued to its meter. It is halted where that is not stored.
    fn note_keys(
        &mut self,
        session: &ServerSession,
        server: &Server,
        entry: &BookEntry,
        grant: &Grant,
    ) -> Result<(), Failed>
        requires ready { CoordinatorReady (node_of self.old) }
        requires session { IfSome (node_of self.old).memory (λ m. rules.sessions_full m server.now.eui ≡ false) }
        requires entry { IfSome (node_of self.old).memory (λ m. book.has_room m.book session.now.server.eui ≡ true) }
        ensures does { IfSome (node_of self.old).memory (λ m. Does (node_of self.old)
            (answering.noting m (record session.now { server = server.now })
            (book.issued_entry session.now.server.eui grant.now entry.now)) (is_ok result) (node_of self.new)) }
        ensures holds { CoordinatorAgrees (node_of self.new) }
    {
        self.put_session(ServerSession {
            server: *server,
            ..*session
        });
        let Ok(_) = self.keep_entry(issued(session.server.eui, grant, entry)) else {
            return Err(Failed);
        };
        Ok(())
    }

    // This third packet goes to a meter: its session goes on with this server, and the keys of its grant are noted as issued.
    fn give_keys(
        &mut self,
        session: &ServerSession,
        server: &Server,
        entry: &BookEntry,
        message: &JoinMessage,
        grant: &Grant,
        now: u64,
        out: &mut Out,
    ) -> Result<CoordinatorHeard<'static>, Dropped>
        requires ready { CoordinatorReady (node_of self.old) }
        requires quiet { out.old.frames ≡ [] }
        requires session { IfSome (node_of self.old).memory (λ m. rules.sessions_full m server.now.eui ≡ false) }
        requires entry { IfSome (node_of self.old).memory (λ m. book.has_room m.book session.now.server.eui ≡ true) }
        requires message { IsMessage message.now }
        ensures carries { IfSome (node_of self.old).memory (λ m. Carries (node_of self.old)
            (answering.keying m (record session.now { server = server.now })
            (book.issued_entry session.now.server.eui grant.now entry.now) message.now grant.now out.old.tags now)
            result out.new (node_of self.new)) }
        ensures holds { CoordinatorAgrees (node_of self.new) }
    {
        match self.say_room(session.way, message) {
            Err(reason) => {
                out.tags.clear();
                return Err(reason);
            }
            Ok(()) => {}
        }
        let Ok(()) = self.note_keys(session, server, entry, grant) else {
            out.tags.made.clear();
            return Err(Dropped::Store);
        };
        let Ok(()) = self.say(session.way, message, now, out) else {
            return Err(Dropped::Store);
        };
        Ok(CoordinatorHeard::Keyed {
            eui: server.eui,
            grant: *grant,
        })
    }

    // Takes the second packet of a session.
    fn take_second(
        &mut self,
        session: &ServerSession,
        entry: &BookEntry,
        packet: &[u8],
        now: u64,
        out: &mut Out,
    ) -> Result<CoordinatorHeard<'static>, Dropped>
        requires ready { CoordinatorReadyToAnswer (node_of self.old) out.old }
        requires served { IfSome (node_of self.old).memory (λ m. answering.IsServed m session.now.server.eui) }
        requires awaits { session.now.server.rand_p ≡ None }
        ensures carries { IfSome (node_of self.old).memory (λ m. Carries (node_of self.old)
            (rules.take_second (identity_of self.old) m session.now entry.now packet.now now)
            result out.new (node_of self.new)) }
        ensures holds { CoordinatorAgrees (node_of self.new) }
    {
        let grant = self.grant_for(session.server.eui).unwrap();
        let third = third_message(&session.server, &entry.psk, packet, &grant, &mut out.tags);
        match &third {
            Err(reason) => Err(*reason),
            Ok((server, message)) => {
                self.give_keys(session, server, entry, message, &grant, now, out)
            }
        }
    }

    // Accepts a meter: its session ends.
    fn accept_meter(
        &mut self,
        session: &ServerSession,
        agreed: Agreed,
        now: u64,
        out: &mut Out,
    ) -> Result<CoordinatorHeard<'static>, Dropped>
        requires ready { CoordinatorReady (node_of self.old) }
        requires quiet { out.old.frames ≡ [] }
        ensures carries { IfSome (node_of self.old).memory (λ m. Carries (node_of self.old)
            (answering.accepting m session.now agreed out.old.tags now) result out.new (node_of self.new)) }
        ensures holds { CoordinatorAgrees (node_of self.new) }
    {
        let message = acceptance(session.server.eui);
        match self.say_room(session.way, &message) {
            Err(reason) => {
                out.tags.clear();
                return Err(reason);
            }
            Ok(()) => {}
        }
        self.end_session(session.server.eui);
        let Ok(()) = self.say(session.way, &message, now, out) else {
            return Err(Dropped::Store);
        };
        Ok(CoordinatorHeard::Done {
            eui: session.server.eui,
            agreed,
        })
    }

    // Takes the fourth packet of a session.
    fn take_fourth(
        &mut self,
        session: &ServerSession,
        entry: &BookEntry,
        rand_p: RandomOctets,
        packet: &[u8],
        now: u64,
        out: &mut Out,
    ) -> Result<CoordinatorHeard<'static>, Dropped>
        requires ready { CoordinatorReadyToAnswer (node_of self.old) out.old }
        requires awaits { session.now.server.rand_p ≡ Some rand_p }
        ensures carries { IfSome (node_of self.old).memory (λ m. Carries (node_of self.old)
            (rules.take_fourth (identity_of self.old) m session.now entry.now packet.now rand_p now)
            result out.new (node_of self.new)) }
        ensures holds { CoordinatorAgrees (node_of self.new) }
    {
        match check_fourth(&session.server, &entry.psk, packet, &mut out.tags) {
            Err(reason) => Err(reason),
            Ok(agreed) => self.accept_meter(session, agreed, now, out),
        }
    }

    // Takes the packet of a session that it awaits.
    fn take_packet(
        &mut self,
        session: &ServerSession,
        entry: &BookEntry,
        packet: &[u8],
        now: u64,
        out: &mut Out,
    ) -> Result<CoordinatorHeard<'static>, Dropped>
        requires ready { CoordinatorReadyToAnswer (node_of self.old) out.old }
        requires served { IfSome (node_of self.old).memory (λ m. answering.IsServed m session.now.server.eui) }
        ensures carries { IfSome (node_of self.old).memory (λ m. Carries (node_of self.old)
            (rules.take_packet (identity_of self.old) m entry.now packet.now now session.now)
            result out.new (node_of self.new)) }
        ensures holds { CoordinatorAgrees (node_of self.new) }
    {
        let Some(rand_p) = session.server.rand_p else {
            return self.take_second(session, entry, packet, now, out);
        };
        self.take_fourth(session, entry, rand_p, packet, now, out)
    }

    // A meter answers with a packet.
    pub(crate) fn answered(
        &mut self,
        eui: Eui,
        packet: &[u8],
        now: u64,
        out: &mut Out,
    ) -> Result<CoordinatorHeard<'static>, Dropped>
        requires ready { CoordinatorReadyToAnswer (node_of self.old) out.old }
        ensures carries { IfSome (node_of self.old).memory (λ m. Carries (node_of self.old)
            (rules.join_with_packet (identity_of self.old) m eui packet.now now) result out.new (node_of self.new)) }
        ensures holds { CoordinatorAgrees (node_of self.new) }
    {
        let allowed = self.allowed_one(eui);
        let Some(entry) = &allowed else {
            return Err(Dropped::NotAllowed);
        };
        let open = self.session_of(eui);
        let Some(session) = &open else {
            return Err(Dropped::NoSession);
        };
        self.take_packet(session, entry, packet, now, out)
    }
}
