//! Messages that go in a command for which there is room.
ghost use Rattle.std.specs.Prelude.{◌≡◌, ◌≤◌, Some, Ok, Err, IfSome, IfOk, IfErr, length};
ghost use Rattle.joining_messages.specs.Messages.{IsMessage};
ghost use Rattle.node_rules.specs.CarriedPlans.{Carries};
ghost use Rattle.node_rules.specs.ComposedPlans.{HasRoom};
ghost use Rattle.coordinator.specs.CoordinatorStates.{node_of};
ghost use Rattle.coordinator.specs.CoordinatorAgreement.{CoordinatorReady, CoordinatorAgrees};
ghost use Rattle.coordinator.specs.MeshCommands as mesh_plans;
ghost use Rattle.station_queues.specs.declared.bodies.TheConstants.{LONGEST_COMMAND};

use crate::coordinator::Coordinator;
use crate::orders::order_refusal;
use joining_base::{CommandBuf, write_command};
use joining_messages::JoinMessage;
use node_rules::CoordinatorRefusal;
use plc_base::{Keeper, Out, Short};

impl<K: Keeper + Drop> Coordinator<K> {
    // What stands in the way of a command of this many octets for an address.
    pub(crate) fn room_for(&self, to: Short, octets: u16) -> Result<(), CoordinatorRefusal>
        requires ready { CoordinatorReady (node_of self.now) }
        requires fits { octets ≤ LONGEST_COMMAND }
        ensures room { IfOk result (λ _. IfSome (node_of self.now).memory (λ m. HasRoom m.station to octets)) }
        ensures refused { IfErr result (λ reason.
            IfSome (node_of self.now).memory (λ m. mesh_plans.lacks m to octets ≡ Some reason)) }
    {
        match self.station.room(to, octets) {
            Ok(()) => Ok(()),
            Err(reason) => Err(order_refusal(reason)),
        }
    }

    // Whether there is a route to an address, and a counter for a frame.
    pub(crate) fn reaches(&self, to: Short) -> bool
        requires ready { CoordinatorReady (node_of self.now) }
        ensures { IfSome (node_of self.now).memory (λ m. result ≡ mesh_plans.reaches m to) }
    {
        let Some(_) = self.station.valid(to) else {
            return false;
        };
        let Ok(()) = self.station.room(to, 1) else {
            return false;
        };
        true
    }

    // Sends a command that has room.
    pub(crate) fn send_in_room(
        &mut self,
        to: Short,
        command: &CommandBuf,
        now: u64,
        out: &mut Out,
    ) -> Result<(), CoordinatorRefusal>
        requires ready { CoordinatorReady (node_of self.old) }
        requires some { 1 ≤ length command.now }
        requires fits { length command.now ≤ LONGEST_COMMAND }
        requires room { IfSome (node_of self.old).memory (λ m. HasRoom m.station to (length command.now)) }
        ensures carries { IfSome (node_of self.old).memory (λ m.
            Carries (node_of self.old) (mesh_plans.command_sent m to command.now now) result out.new (node_of self.new)) }
        ensures holds { CoordinatorAgrees (node_of self.new) }
    {
        let Ok(_) = self.station.send_command(to, command.octets(), now, out) else {
            return Err(CoordinatorRefusal::Store);
        };
        Ok(())
    }

    // Sends a message in a command that has room.
    pub(crate) fn send_join_message(
        &mut self,
        to: Short,
        message: &JoinMessage,
        now: u64,
        out: &mut Out,
    ) -> Result<(), CoordinatorRefusal>
        requires ready { CoordinatorReady (node_of self.old) }
        requires message { IsMessage message.now }
        requires room { IfSome (node_of self.old).memory (λ m. mesh_plans.RoomFor m to message.now) }
        ensures carries { IfSome (node_of self.old).memory (λ m.
            Carries (node_of self.old) (mesh_plans.sent_command m to message.now now) result out.new (node_of self.new)) }
        ensures holds { CoordinatorAgrees (node_of self.new) }
    {
        let mut command = CommandBuf::new();
        write_command(message, &mut command);
        self.send_in_room(to, &command, now, out)
    }
}
