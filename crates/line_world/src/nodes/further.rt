//! What the nodes of a line do about acknowledgements, broadcasts, beacons and path requests.
ghost use Rattle.std.specs.Prelude.{◌≡◌, ◌<◌, ◌≤◌, length, Err, IfSome, IsSome, Some, None, if◌then◌else◌, is_some, not, slice_get};
ghost use Rattle.std.specs.Option.{option_and_then, option_map};
ghost use Rattle.node_rules.specs.MemoryDrafts.{in_memory};
ghost use Rattle.node_rules.specs.NodeSteps.{acts};
ghost use Rattle.store_tables.specs.SlotTables.{read_into};
ghost use Rattle.reach_rules.specs.Beacons.{cost_to_coordinator};
ghost use Rattle.reach_rules.specs.Broadcasts as broadcast_rules;
ghost use Rattle.reach_rules.specs.CheckedReplies.{acknowledges};
ghost use Rattle.reach_rules.specs.PathRequests.{ask_path};
ghost use Rattle.reach_rules.specs.ReachingNodes.{restarted};
ghost use Rattle.line_world.specs.FurtherOutcomes.{DidAfter, IsLogOf, ReachedCommand, ReachedFirst, command_of};
ghost use Rattle.plc_base.specs.declared.limits.TheConstants.{MOST_FRAMES};

use crate::beside::Beside;
use crate::nodes::Nodes;
use crate::nodes::command::{CommandRef, Commanded};
use crate::nodes::station_broadcasts::broadcast_at;
use crate::nodes::station_further::{acknowledge_at, ask_at, commanded_of, hear_command_at};
use line_events::Answer;
use node_rules::{LocalRefusal, Reply};
use plc_base::{BadStore, FrameBuf, Out, Short};
use reach_rules::{AskRefusal, BroadcastRefusal};

// The coordinator's address.
fn home() -> Short
    ensures { result ≡ 0 }
{
    let Some(address) = Short::new(0) else {
        unreachable!()
    };
    address
}

// The cost of a route.
fn cost_of(route: Option<(Short, u16)>) -> Option<u16>
    ensures { result ≡ option_map (λ r. r.1) route }
{
    let (_, cost) = route?;
    Some(cost)
}

// The cost from the coordinator to itself, which a halted one does not know.
fn own_cost(halted: bool) -> Option<u16>
    ensures { result ≡ (if halted then None else Some 0) }
{
    if halted {
        return None;
    }
    Some(0)
}

impl Nodes {
    /// Whether a node is halted.
    pub fn halted(&mut self, number: usize) -> bool
        requires there { number < length self.old }
        ensures value { IfSome (slice_get self.old number) (λ x. result ≡ not (is_some x.memory)) }
        ensures same { self.new ≡ self.old }
    {
        if number > 0 {
            return self.meters[number - 1].station().halted();
        }
        let Some(coordinator) = &mut self.coordinator else {
            return true;
        };
        coordinator.station().halted()
    }

    /// The cost from a node to the coordinator: nothing from the coordinator itself, and from a meter that of its valid route. A halted node
    /// has none.
    pub fn cost_to_coordinator(&mut self, number: usize) -> Option<u16>
        requires there { number < length self.old }
        ensures value { IfSome (slice_get self.old number) (λ x. result ≡ option_and_then (λ m. cost_to_coordinator x.role m.station) x.memory) }
        ensures same { self.new ≡ self.old }
    {
        if number > 0 {
            return cost_of(self.meters[number - 1].station().valid(home()));
        }
        let Some(coordinator) = &mut self.coordinator else {
            return None;
        };
        own_cost(coordinator.station().halted())
    }

    /// Of what a node holds beside its memory the log of broadcasts alone is left, as its store gives it. It takes no memory.
    pub fn reload_beside(&mut self, number: usize, beside: &mut Beside) -> Result<(), BadStore>
        requires there { number < length self.old }
        ensures value { IfSome (slice_get self.old number) (λ x. read_into result beside.new ≡ restarted x.store.records) }
        ensures same { self.new ≡ self.old }
    {
        if number > 0 {
            return beside.reload(self.meters[number - 1].station().keeper_mut());
        }
        let Some(coordinator) = &mut self.coordinator else {
            return Ok(());
        };
        beside.reload(coordinator.station().keeper_mut())
    }

    /// A node sends a datagram to all. `buffer` is overwritten, and what goes out is in `out`.
    pub fn broadcast(
        &mut self,
        number: usize,
        beside: &mut Beside,
        datagram: &[u8],
        buffer: &mut FrameBuf,
        out: &mut Out,
    ) -> Result<(), BroadcastRefusal>
        requires there { number < length self.old }
        requires log { IfSome (slice_get self.old number) (λ x. IsLogOf beside.old x) }
        ensures { IfSome (slice_get self.old number) (λ x. ReachedFirst x beside.old (Err BroadcastRefusal.Halted)
            (λ y. broadcast_rules.broadcast in_memory y datagram.now) self.old number result out.new self.new beside.new) }
    {
        if number > 0 {
            return broadcast_at(
                self.meters[number - 1].station(),
                beside,
                datagram,
                buffer,
                out,
            );
        }
        let Some(coordinator) = &mut self.coordinator else {
            return Err(BroadcastRefusal::Halted);
        };
        broadcast_at(coordinator.station(), beside, datagram, buffer, out)
    }

    /// A node asks for the way to an address. `buffer` is overwritten, and what goes out is in `out`.
    pub fn ask(
        &mut self,
        number: usize,
        beside: &mut Beside,
        target: Short,
        buffer: &mut FrameBuf,
        out: &mut Out,
    ) -> Result<(), AskRefusal>
        requires there { number < length self.old }
        ensures { IfSome (slice_get self.old number) (λ x. ReachedFirst x beside.old (Err AskRefusal.Halted)
            (λ y. ask_path in_memory y target) self.old number result out.new self.new beside.new) }
    {
        if number > 0 {
            return ask_at(
                self.meters[number - 1].station(),
                beside,
                target,
                buffer,
                out,
            );
        }
        let Some(coordinator) = &mut self.coordinator else {
            return Err(AskRefusal::Halted);
        };
        ask_at(coordinator.station(), beside, target, buffer, out)
    }

    /// A node acknowledges a reply to the neighbour that sent it. `buffer` is overwritten, and what goes out comes after what `out` has.
    pub fn acknowledge(
        &mut self,
        number: usize,
        reply: Reply,
        buffer: &mut FrameBuf,
        out: &mut Out,
    ) -> Result<(), LocalRefusal>
        requires there { number < length self.old }
        requires number { 0 < reply.number }
        requires joined { IfSome (slice_get self.old number) (λ x. IfSome x.memory (λ m. IsSome m.station.ring)) }
        requires room { length out.old.frames < MOST_FRAMES }
        ensures { IfSome (slice_get self.old number) (λ x. DidAfter (acts x (Err LocalRefusal.Store)
            (λ m. acknowledges in_memory reply.to reply.number reply.origin m)) self.old number result out.old out.new self.new) }
    {
        if number > 0 {
            return acknowledge_at(self.meters[number - 1].station(), reply, buffer, out);
        }
        let Some(coordinator) = &mut self.coordinator else {
            return Err(LocalRefusal::Store);
        };
        acknowledge_at(coordinator.station(), reply, buffer, out)
    }

    /// A node hears a command for its neighbours. `buffer` is overwritten, and what goes out comes after what `out` has.
    pub fn hear_command<'a>(
        &mut self,
        number: usize,
        beside: &mut Beside,
        command: &CommandRef<'a>,
        buffer: &mut FrameBuf,
        out: &mut Out,
    ) -> Commanded<'a>
        requires there { number < length self.old }
        requires few { length self.old ≤ 1000 }
        requires log { IfSome (slice_get self.old number) (λ x. IsLogOf beside.old x) }
        requires room { length out.old.frames < MOST_FRAMES }
        ensures { IfSome (slice_get self.old number) (λ x. ReachedCommand x beside.old (command_of command.now) self.old number result out.old out.new
            self.new beside.new) }
    {
        if number > 0 {
            return hear_command_at(
                number as u16,
                self.meters[number - 1].station(),
                beside,
                command,
                buffer,
                out,
            );
        }
        let Some(coordinator) = &mut self.coordinator else {
            return commanded_of(Answer::Store);
        };
        hear_command_at(0, coordinator.station(), beside, command, buffer, out)
    }
}
