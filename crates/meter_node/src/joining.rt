//! What a meter does about its joining by itself.
ghost use Rattle.std.specs.Prelude.{◌≡◌, Some, None, Ok, Err, IfSome, IfNone, is_some};
ghost use Rattle.node_rules.specs.MemoryDrafts as drafts;
ghost use Rattle.node_rules.specs.Meters as meters;
ghost use Rattle.node_rules.specs.CarriedPlans.{Carries, nothing};
ghost use Rattle.node_rules.specs.Agreement.{Agrees};
ghost use Rattle.meter_node.specs.MeterCalls.{MeterAfter};
ghost use Rattle.meter_node.specs.MeterStates.{identity_of, node_of};

use crate::meter::Meter;
use crate::session::{Session, SessionWay};
use joining_base::push_up;
use joining_messages::{JoinBody, JoinMessage};
use node_rules::{JoinRefusal, LeaveRefusal, RandomFault, RingRefusal};
use plc_base::{EapBuf, Grant, Keeper, Out, RandomOctets, Short};

impl<K: Keeper + Drop> Meter<K> {
    // Whether it has a ring.
    pub(crate) fn is_joined(&self) -> bool
        ensures { IfSome self.now.station.memory (λ l. result ≡ is_some l.ring) }
    {
        self.station.ring().joined().is_some()
    }

    /// Takes a random value in, of which 8 are held at most.
    ///
    /// Halted; then RandomsFull exactly where 8 are held.
    pub fn give_random(&mut self, value: RandomOctets) -> Result<(), RandomFault>
        requires agrees { Agrees self.old.station }
        ensures halted { IfNone self.old.station.memory ((result ≡ Err RandomFault.Halted) × (self.new ≡ self.old)) }
        ensures carries { IfSome (node_of self.old).memory (λ m.
            Carries (node_of self.old) (drafts.give_random m value) result nothing (node_of self.new)) }
        ensures after { MeterAfter self.old self.new }
    {
        if self.station.halted() {
            return Err(RandomFault::Halted);
        }
        let Ok(()) = self.randoms.give(value) else {
            return Err(RandomFault::RandomsFull);
        };
        Ok(())
    }

    /// Installs the grant of the workshop. Halted, Store; after Store it is halted.
    pub fn provision(&mut self, grant: &Grant) -> Result<(), RingRefusal>
        requires agrees { Agrees self.old.station }
        ensures halted { IfNone self.old.station.memory ((result ≡ Err RingRefusal.Halted) × (self.new ≡ self.old)) }
        ensures carries { IfSome (node_of self.old).memory (λ m.
            Carries (node_of self.old) (meters.provision m grant.now) result nothing (node_of self.new)) }
        ensures after { MeterAfter self.old self.new }
    {
        if self.station.halted() {
            return Err(RingRefusal::Halted);
        }
        self.station.install(grant)
    }

    /// Begins to join by an agent, at a time in seconds: a session is open from now on, and JOIN goes to the agent.
    ///
    /// Halted; then AlreadyJoined exactly where it has a ring. `out` is then empty.
    pub fn join(&mut self, agent: Short, now: u64, out: &mut Out) -> Result<(), JoinRefusal>
        requires agrees { Agrees self.old.station }
        ensures halted { IfNone self.old.station.memory
            ((result ≡ Err JoinRefusal.Halted) × (out.new ≡ nothing) × (self.new ≡ self.old)) }
        ensures carries { IfSome (node_of self.old).memory (λ m.
            Carries (node_of self.old) (meters.join (identity_of self.old) m agent now) result out.new (node_of self.new)) }
        ensures after { MeterAfter self.old self.new }
    {
        out.clear();
        if self.station.halted() {
            return Err(JoinRefusal::Halted);
        }
        if self.is_joined() {
            return Err(JoinRefusal::AlreadyJoined);
        }
        self.session = Some(Session {
            session_way: SessionWay::ByAgent(agent),
            peer: None,
            since: now,
        });
        let eui = self.station.eui();
        let body = JoinBody::Join { eap: EapBuf::new() };
        push_up(&JoinMessage { eui, body }, agent, eui, out);
        Ok(())
    }

    /// Drops its ring, and with it routes, what is gathered, what waits, and its session. The random values stay.
    ///
    /// Halted; then NotJoined exactly where it has no ring; then Store, after which it is halted.
    pub fn leave(&mut self) -> Result<(), LeaveRefusal>
        requires agrees { Agrees self.old.station }
        ensures halted { IfNone self.old.station.memory ((result ≡ Err LeaveRefusal.Halted) × (self.new ≡ self.old)) }
        ensures carries { IfSome (node_of self.old).memory (λ m.
            Carries (node_of self.old) (meters.leave m) result nothing (node_of self.new)) }
        ensures after { MeterAfter self.old self.new }
    {
        if self.station.halted() {
            return Err(LeaveRefusal::Halted);
        }
        if !self.is_joined() {
            return Err(LeaveRefusal::NotJoined);
        }
        self.session = None;
        let Ok(()) = self.station.leave() else {
            return Err(LeaveRefusal::Store);
        };
        Ok(())
    }
}
