//! Meters that the operator shuts out.
ghost use Rattle.std.specs.Prelude.{◌≡◌, ◌≤◌, true, is_ok, length, Err, Some, IfSome, IfNone};
ghost use Rattle.joining_messages.specs.declared.message.JoinBody.TheVariants as body;
ghost use Rattle.group_keys.specs.KeyBook as book;
ghost use Rattle.node_rules.specs.JoiningPackets.{command_of, message};
ghost use Rattle.station_queues.specs.declared.bodies.TheConstants.{LONGEST_COMMAND};
ghost use Rattle.node_rules.specs.Coordinators as rules;
ghost use Rattle.node_rules.specs.CarriedPlans.{Carries, nothing};
ghost use Rattle.coordinator.specs.CoordinatorStates.{node_of};
ghost use Rattle.coordinator.specs.CoordinatorAgreement.{CoordinatorReady, CoordinatorReadyToAnswer, CoordinatorAgrees};
ghost use Rattle.coordinator.specs.DraftsCarriedOut.{Does};
ghost use Rattle.coordinator.specs.MeshCommands as mesh_plans;
ghost use Rattle.coordinator.specs.Kicks as kicks;

use crate::coordinator::Coordinator;
use crate::entries::kicked;
use group_keys::BookEntry;
use joining_base::{CommandBuf, write_command};
use joining_messages::{JoinBody, JoinMessage};
use node_rules::CoordinatorRefusal;
use plc_base::{Eui, Failed, Keeper, Out, Short};

// Writes the command Kick to a meter.
fn write_kick(eui: Eui, command: &mut CommandBuf)
    ensures command { command.new ≡ command_of (message eui body.Kick) }
    ensures some { 1 ≤ length command.new }
    ensures fits { length command.new ≤ LONGEST_COMMAND }
{
    let body = JoinBody::Kick;
    write_command(&JoinMessage { eui, body }, command);
}

impl<K: Keeper + Drop> Coordinator<K> {
    // The entry of a meter is stored as kicked, and its session ends.
    fn shut_out(&mut self, entry: &BookEntry) -> Result<(), Failed>
        requires ready { CoordinatorReady (node_of self.old) }
        requires room { IfSome (node_of self.old).memory (λ m. book.has_room m.book entry.now.eui ≡ true) }
        ensures does { IfSome (node_of self.old).memory (λ m.
            Does (node_of self.old) (kicks.shut_out m entry.now) (is_ok result) (node_of self.new)) }
        ensures holds { CoordinatorAgrees (node_of self.new) }
    {
        let Ok(_) = self.keep_entry(kicked(entry)) else {
            return Err(Failed);
        };
        self.end_session(entry.eui);
        Ok(())
    }

    // A meter that is not reached is shut out.
    fn kick_silently(&mut self, entry: &BookEntry) -> Result<(), CoordinatorRefusal>
        requires ready { CoordinatorReady (node_of self.old) }
        requires room { IfSome (node_of self.old).memory (λ m. book.has_room m.book entry.now.eui ≡ true) }
        ensures carries { IfSome (node_of self.old).memory (λ m.
            Carries (node_of self.old) (kicks.silently m entry.now) result nothing (node_of self.new)) }
        ensures holds { CoordinatorAgrees (node_of self.new) }
    {
        let Ok(()) = self.shut_out(entry) else {
            return Err(CoordinatorRefusal::Store);
        };
        Ok(())
    }

    // A meter with a route to it is shut out, and the command Kick goes to it.
    fn kick_by_command(
        &mut self,
        entry: BookEntry,
        to: Short,
        out: &mut Out,
    ) -> Result<(), CoordinatorRefusal>
        requires ready { CoordinatorReadyToAnswer (node_of self.old) out.old }
        requires room { IfSome (node_of self.old).memory (λ m. book.has_room m.book entry.eui ≡ true) }
        requires reached { IfSome (node_of self.old).memory (λ m. mesh_plans.reaches m to ≡ true) }
        ensures carries { IfSome (node_of self.old).memory (λ m.
            Carries (node_of self.old) (rules.kick_by m entry to) result out.new (node_of self.new)) }
        ensures holds { CoordinatorAgrees (node_of self.new) }
    {
        let Ok(()) = self.shut_out(&entry) else {
            return Err(CoordinatorRefusal::Store);
        };
        let mut command = CommandBuf::new();
        write_kick(entry.eui, &mut command);
        self.send_in_room(to, &command, 0, out)
    }

    /// Shuts a meter out: it may not join any more, the keys that were issued to it are cleared, and its session ends. Where there is
    /// a route to it and a counter for a frame, the command Kick to it is in `out`.
    ///
    /// Halted, NotAllowed, Store, in this order. After Store it is halted, after the others nothing has changed.
    pub fn kick(&mut self, eui: Eui, out: &mut Out) -> Result<(), CoordinatorRefusal>
        requires holds { CoordinatorAgrees (node_of self.old) }
        ensures halted { IfNone (node_of self.old).memory
            ((result ≡ Err CoordinatorRefusal.Halted) × (out.new ≡ nothing) × (self.new ≡ self.old)) }
        ensures carries { IfSome (node_of self.old).memory (λ m.
            Carries (node_of self.old) (rules.kick m eui) result out.new (node_of self.new)) }
        ensures holds { CoordinatorAgrees (node_of self.new) }
    {
        out.clear();
        if self.halted() {
            return Err(CoordinatorRefusal::Halted);
        }
        let Some(entry) = self.allowed_one(eui) else {
            return Err(CoordinatorRefusal::NotAllowed);
        };
        let Some(to) = self.known_address(eui) else {
            return Err(CoordinatorRefusal::NotAllowed);
        };
        if !self.reaches(to) {
            return self.kick_silently(&entry);
        }
        self.kick_by_command(entry, to, out)
    }
}
