//! What the coordinator says to a meter in answer, by the way of the meter's session.
ghost use Rattle.std.specs.Prelude.{◌≡◌, ◌≤◌, [], Some, IfSome, IfOk, IfErr, length};
ghost use Rattle.joining_messages.specs.Messages.{IsMessage};
ghost use Rattle.node_rules.specs.declared.heard.Way.TheVariants as ways;
ghost use Rattle.node_rules.specs.JoiningPackets.{command_of};
ghost use Rattle.node_rules.specs.HearingRules.{dropped, dropped_for};
ghost use Rattle.node_rules.specs.Calls.{command_fault};
ghost use Rattle.node_rules.specs.CarriedPlans.{Carries};
ghost use Rattle.node_rules.specs.ComposedPlans.{HasRoom};
ghost use Rattle.coordinator.specs.CoordinatorStates.{node_of};
ghost use Rattle.coordinator.specs.CoordinatorAgreement.{CoordinatorReady, CoordinatorAgrees};
ghost use Rattle.coordinator.specs.MeshCommands as mesh_plans;
ghost use Rattle.coordinator.specs.JoiningReplies as saying;
ghost use Rattle.station_queues.specs.declared.bodies.TheConstants.{LONGEST_COMMAND};

use crate::coordinator::Coordinator;
use joining_base::{command_length, dropped_send, push_down};
use joining_messages::JoinMessage;
use node_rules::{Dropped, Way};
use plc_base::{Keeper, Out, Short};
use std::mem::take;

// The address of the coordinator.
fn coordinator_address() -> Short
    ensures { result ≡ 0 }
{
    Short::new(0).unwrap()
}

impl<K: Keeper + Drop> Coordinator<K> {
    // What a command of this many octets for an address would be dropped for.
    fn command_room(&self, to: Short, octets: u16) -> Result<(), Dropped>
        requires ready { CoordinatorReady (node_of self.now) }
        requires fits { octets ≤ LONGEST_COMMAND }
        ensures room { IfOk result (λ _. IfSome (node_of self.now).memory (λ m. HasRoom m.station to octets)) }
        ensures refused { IfErr result (λ reason. IfSome (node_of self.now).memory (λ m.
            command_fault dropped dropped_for m.station to octets ≡ Some reason)) }
    {
        match self.station.room(to, octets) {
            Ok(()) => Ok(()),
            Err(reason) => Err(dropped_send(reason)),
        }
    }

    // What a message over the mesh would be dropped for.
    fn mesh_room(&self, to: Short, message: &JoinMessage) -> Result<(), Dropped>
        requires ready { CoordinatorReady (node_of self.now) }
        requires message { IsMessage message.now }
        ensures room { IfOk result (λ _. IfSome (node_of self.now).memory (λ m. mesh_plans.RoomFor m to message.now)) }
        ensures refused { IfErr result (λ reason. IfSome (node_of self.now).memory (λ m.
            command_fault dropped dropped_for m.station to (length (command_of message.now)) ≡ Some reason)) }
    {
        self.command_room(to, command_length(message))
    }

    // What a message to a meter would be dropped for.
    pub(crate) fn say_room(&self, way: Way, message: &JoinMessage) -> Result<(), Dropped>
        requires ready { CoordinatorReady (node_of self.now) }
        requires message { IsMessage message.now }
        ensures room { IfOk result (λ _. IfSome (node_of self.now).memory (λ m. saying.RoomToSay m way message.now)) }
        ensures refused { IfErr result (λ reason. IfSome (node_of self.now).memory (λ m.
            saying.say_fault m way message.now ≡ Some reason)) }
    {
        match way {
            Way::Air(_) => return Ok(()),
            Way::Near(_) => return Ok(()),
            Way::Mesh(to) => return self.mesh_room(to, message),
        }
    }

    // Says a message for which there is room over the mesh, beside the pair tags of the step. They are put aside meanwhile, since what the station
    // sends replaces all that `out` holds.
    fn say_over_mesh(
        &mut self,
        to: Short,
        message: &JoinMessage,
        now: u64,
        out: &mut Out,
    ) -> Result<(), Dropped>
        requires ready { CoordinatorReady (node_of self.old) }
        requires message { IsMessage message.now }
        requires room { IfSome (node_of self.old).memory (λ m. mesh_plans.RoomFor m to message.now) }
        ensures carries { IfSome (node_of self.old).memory (λ m. Carries (node_of self.old)
            (saying.saying m (ways.Mesh to) message.now out.old.tags now) result out.new (node_of self.new)) }
        ensures holds { CoordinatorAgrees (node_of self.new) }
    {
        let mut tags = take(&mut out.tags);
        let Ok(()) = self.send_join_message(to, message, now, out) else {
            tags.made.clear();
            out.tags = tags;
            return Err(Dropped::Store);
        };
        out.tags = tags;
        Ok(())
    }

    // Says a message for which there is room, beside the pair tags of the step.
    pub(crate) fn say(
        &mut self,
        way: Way,
        message: &JoinMessage,
        now: u64,
        out: &mut Out,
    ) -> Result<(), Dropped>
        requires ready { CoordinatorReady (node_of self.old) }
        requires quiet { out.old.frames ≡ [] }
        requires message { IsMessage message.now }
        requires room { IfSome (node_of self.old).memory (λ m. saying.RoomToSay m way message.now) }
        ensures carries { IfSome (node_of self.old).memory (λ m. Carries (node_of self.old)
            (saying.saying m way message.now out.old.tags now) result out.new (node_of self.new)) }
        ensures holds { CoordinatorAgrees (node_of self.new) }
    {
        match way {
            Way::Air(_) => {
                push_down(message, coordinator_address(), out);
                return Ok(());
            }
            Way::Near(_) => return Ok(()),
            Way::Mesh(to) => return self.say_over_mesh(to, message, now, out),
        }
    }
}
