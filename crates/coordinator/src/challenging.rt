//! Sessions that the operator opens with a meter over the mesh.
ghost use Rattle.std.specs.Prelude.{◌≡◌, ◌≤◌, false, Err, Some, None, IfSome, IfNone, IsSome, length};
ghost use Rattle.joining_messages.specs.declared.message.JoinBody.TheVariants as body;
ghost use Rattle.node_rules.specs.JoiningPackets.{command_of};
ghost use Rattle.node_rules.specs.JoiningPackets as joining_packets;
ghost use Rattle.node_rules.specs.MemoryDrafts as words;
ghost use Rattle.node_rules.specs.Coordinators as rules;
ghost use Rattle.node_rules.specs.CarriedPlans.{Carries, nothing};
ghost use Rattle.coordinator.specs.CoordinatorStates.{node_of};
ghost use Rattle.coordinator.specs.CoordinatorAgreement.{CoordinatorReady, CoordinatorReadyToAnswer, CoordinatorAgrees};
ghost use Rattle.station_queues.specs.declared.bodies.TheConstants.{LONGEST_COMMAND};

use crate::coordinator::Coordinator;
use crate::sessions::ServerSession;
use eap_psk::Server;
use joining_base::{CommandBuf, write_command};
use joining_messages::{JoinBody, JoinMessage};
use node_rules::{CoordinatorRefusal, Way};
use plc_base::{EapBuf, Eui, Keeper, Out, RandomOctets, Short};

impl<K: Keeper + Drop> Coordinator<K> {
    // The address of a meter that is allowed.
    fn allowed_address(&self, eui: Eui) -> Option<Short>
        ensures { IfSome (node_of self.now).memory (λ m. result ≡ rules.allowed_address m eui) }
    {
        if self.book.allowed(eui) {
            return self.book.address(eui);
        }
        None
    }

    // Whether a session of a meter can't be opened: it has none, and 8 are open.
    pub(crate) fn sessions_full(&self, eui: Eui) -> bool
        ensures { IfSome (node_of self.now).memory (λ m. result ≡ rules.sessions_full m eui) }
    {
        self.sessions.full_for(eui)
    }

    // The oldest random value.
    pub(crate) fn oldest(&self) -> Option<RandomOctets>
        ensures { IfSome (node_of self.now).memory (λ m. result ≡ words.oldest m) }
    {
        self.randoms.oldest()
    }

    // A session begins, with the oldest random value.
    pub(crate) fn begin_session(&mut self, session: ServerSession)
        requires ready { CoordinatorReady (node_of self.old) }
        requires room { IfSome (node_of self.old).memory (λ m. rules.sessions_full m session.server.eui ≡ false) }
        requires value { IfSome (node_of self.old).memory (λ m. IsSome (words.oldest m)) }
        ensures state { IfSome (node_of self.old).memory (λ m. node_of self.new
            ≡ record (node_of self.old) { memory = Some (rules.with_session session (words.without_oldest m)) }) }
        ensures holds { CoordinatorAgrees (node_of self.new) }
    {
        self.randoms.drop_oldest();
        self.sessions.put(session);
    }

    // Writes the command that carries the first packet of a session with this random value, and answers the session's server.
    fn first_command(&self, eui: Eui, value: RandomOctets, command: &mut CommandBuf) -> Server
        ensures server { result ≡ joining_packets.server_for eui self.now.station.eui value }
        ensures command { command.new
            ≡ command_of (joining_packets.message eui (body.Challenge (joining_packets.first_packet result))) }
        ensures some { 1 ≤ length command.new }
        ensures fits { length command.new ≤ LONGEST_COMMAND }
    {
        let mut eap = EapBuf::new();
        let server = Server::first(eui, self.station.eui(), value, &mut eap);
        let body = JoinBody::Challenge { eap };
        write_command(&JoinMessage { eui, body }, command);
        server
    }

    // The command with the first packet goes to a meter over the mesh, and its session begins.
    fn open_by(
        &mut self,
        server: Server,
        to: Short,
        command: &CommandBuf,
        now: u64,
        out: &mut Out,
    ) -> Result<(), CoordinatorRefusal>
        requires ready { CoordinatorReadyToAnswer (node_of self.old) out.old }
        requires room { IfSome (node_of self.old).memory (λ m. rules.sessions_full m server.eui ≡ false) }
        requires value { IfSome (node_of self.old).memory (λ m. IsSome (words.oldest m)) }
        requires some { 1 ≤ length command.now }
        requires fits { length command.now ≤ LONGEST_COMMAND }
        requires packet { command.now
            ≡ command_of (joining_packets.message server.eui (body.Challenge (joining_packets.first_packet server))) }
        ensures carries { IfSome (node_of self.old).memory (λ m. Carries (node_of self.old)
            (rules.challenge_by self.old.station.eui m to now server) result out.new (node_of self.new)) }
        ensures holds { CoordinatorAgrees (node_of self.new) }
    {
        self.room_for(to, command.len() as u16)?;
        self.begin_session(ServerSession {
            server,
            way: Way::Mesh(to),
            since: now,
        });
        self.send_in_room(to, command, now, out)
    }

    // The first packet goes to a meter over the mesh, and its session begins with this random value, the oldest.
    fn challenge_by(
        &mut self,
        eui: Eui,
        to: Short,
        value: RandomOctets,
        now: u64,
        out: &mut Out,
    ) -> Result<(), CoordinatorRefusal>
        requires ready { CoordinatorReadyToAnswer (node_of self.old) out.old }
        requires room { IfSome (node_of self.old).memory (λ m. rules.sessions_full m eui ≡ false) }
        requires value { IfSome (node_of self.old).memory (λ m. Some value ≡ words.oldest m) }
        ensures carries { IfSome (node_of self.old).memory (λ m. Carries (node_of self.old)
            (rules.challenge_by self.old.station.eui m to now (joining_packets.server_for eui self.old.station.eui value))
            result out.new (node_of self.new)) }
        ensures holds { CoordinatorAgrees (node_of self.new) }
    {
        let mut command = CommandBuf::new();
        let server = self.first_command(eui, value, &mut command);
        self.open_by(server, to, &command, now, out)
    }

    /// Opens a session with a meter over the mesh, at a time in seconds: a random value is taken, and the first packet goes to the meter
    /// in a command, which is in `out`, or waits for a route, and where nothing waited for that one yet, a request for it to all is in
    /// `out`. A session that the meter had ends.
    ///
    /// Halted, NotAllowed, SessionsFull where the meter has none and 8 are open, NoRandom, WaitingFull, SeqSpent, CounterSpent, Store,
    /// in this order. After Store it is halted, after the others nothing has changed.
    pub fn challenge(&mut self, eui: Eui, now: u64, out: &mut Out) -> Result<(), CoordinatorRefusal>
        requires holds { CoordinatorAgrees (node_of self.old) }
        ensures halted { IfNone (node_of self.old).memory
            ((result ≡ Err CoordinatorRefusal.Halted) × (out.new ≡ nothing) × (self.new ≡ self.old)) }
        ensures carries { IfSome (node_of self.old).memory (λ m. Carries (node_of self.old)
            (rules.challenge self.old.station.eui m eui now) result out.new (node_of self.new)) }
        ensures holds { CoordinatorAgrees (node_of self.new) }
    {
        out.clear();
        if self.halted() {
            return Err(CoordinatorRefusal::Halted);
        }
        let Some(to) = self.allowed_address(eui) else {
            return Err(CoordinatorRefusal::NotAllowed);
        };
        if self.sessions_full(eui) {
            return Err(CoordinatorRefusal::SessionsFull);
        }
        let Some(value) = self.oldest() else {
            return Err(CoordinatorRefusal::NoRandom);
        };
        self.challenge_by(eui, to, value, now, out)
    }
}
