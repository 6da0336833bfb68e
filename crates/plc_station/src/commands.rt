//! Commands that a station sends over the mesh.
ghost use Rattle.std.specs.Prelude.{◌≡◌, ◌≤◌, Err, IfSome, IfNone, length};
ghost use Rattle.node_rules.specs.Calls as calls;
ghost use Rattle.node_rules.specs.CarriedPlans.{Carries, nothing};
ghost use Rattle.node_rules.specs.Agreement.{Agrees};
ghost use Rattle.plc_station.specs.Ready.{After, ReadyToSend};
ghost use Rattle.plc_station.specs.Rooms.{room_answer};
ghost use Rattle.station_queues.specs.declared.bodies.TheConstants.{LONGEST_COMMAND};

use crate::loads::LoadKind;
use crate::next_steps::refusal_of;
use crate::station::Station;
use node_rules::{SendRefusal, SentHow};
use plc_base::{Grant, Keeper, Out, Short};

impl<K: Keeper + Drop> Station<K> {
    // A command is sent from the own address.
    fn command_from(
        &mut self,
        grant: &Grant,
        to: Short,
        octets: &[u8],
        now: u64,
        out: &mut Out,
    ) -> Result<SentHow, SendRefusal>
        requires ready { ReadyToSend self.old grant.now out.old }
        requires some { 1 ≤ length octets.now }
        requires fits { length octets.now ≤ LONGEST_COMMAND }
        ensures carries { IfSome self.old.memory
            (λ l. Carries self.old
            (calls.command_from l grant.now.address to octets.now now) result out.new self.new) }
        ensures after { After self.old self.new }
    {
        self.sets_out(grant, to, LoadKind::Command, octets, 0, now, out)
    }

    /// Sends a command, whose code stands first, to an address, at a time in seconds. The own address is treated as any other.
    ///
    /// Halted, NotJoined, WaitingFull, SeqSpent, CounterSpent, Store, in this order.
    pub fn send_command(
        &mut self,
        to: Short,
        body: &[u8],
        now: u64,
        out: &mut Out,
    ) -> Result<SentHow, SendRefusal>
        requires agrees { Agrees self.old }
        requires some { 1 ≤ length body.now }
        requires fits { length body.now ≤ LONGEST_COMMAND }
        ensures halted { IfNone self.old.memory
            ((result ≡ Err SendRefusal.Halted) × (out.new ≡ nothing) × (self.new ≡ self.old)) }
        ensures carries { IfSome self.old.memory
            (λ l. Carries self.old (calls.send_command l to body.now now) result out.new self.new) }
        ensures after { After self.old self.new }
    {
        out.clear();
        if self.halted {
            return Err(SendRefusal::Halted);
        }
        let Some(grant) = self.parts.ring.grant() else {
            return Err(SendRefusal::NotJoined);
        };
        self.command_from(&grant, to, body, now, out)
    }

    // What a command would be refused for by a station that is joined.
    fn room_for(&self, to: Short, octets: u16) -> Result<(), SendRefusal>
        requires fits { octets ≤ LONGEST_COMMAND }
        ensures { IfSome self.now.memory (λ l. result ≡ room_answer (calls.room_fault l to octets)) }
    {
        refusal_of(self.next_step(to, usize::from(octets), 1))
    }

    /// What a command of this many octets for an address would be refused for. The own address is treated as any other.
    ///
    /// Halted, NotJoined, WaitingFull, SeqSpent, CounterSpent, in this order.
    pub fn room(&self, to: Short, octets: u16) -> Result<(), SendRefusal>
        requires fits { octets ≤ LONGEST_COMMAND }
        ensures halted { IfNone self.now.memory (result ≡ Err SendRefusal.Halted) }
        ensures room { IfSome self.now.memory (λ l. result ≡ room_answer (calls.room l to octets)) }
    {
        if self.halted {
            return Err(SendRefusal::Halted);
        }
        let Some(_) = self.parts.ring.joined() else {
            return Err(SendRefusal::NotJoined);
        };
        self.room_for(to, octets)
    }
}
