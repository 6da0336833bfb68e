//! The nodes of a line by their numbers: the coordinator is node 0, and the meters follow, each over a keeper of its own in
//! memory.
//!
//! Each call of [`Nodes`] names a node, and takes the step that the rules of the nodes give for it, whichever writes of its
//! keeper fail.
ghost use Rattle.std.specs.Prelude.{◌≡◌, ◌≤◌, ◌<◌, [], length, nat_lt, not, position, IfSome, Some, slice_get};
ghost use Rattle.std.specs.List.{list_any};
ghost use Rattle.node_rules.specs.Memory as memory;
ghost use Rattle.node_rules.specs.Acceptance.{same_eui};
ghost use Rattle.line_rules.specs.Steps.{psk_of};
ghost use Rattle.line_world.specs.Nodes.{has_eui};

mod command;
mod creation;
mod further;
mod hearing;
mod joining;
mod node_receptions;
mod ordering;
mod reception;
mod setting;
mod station_broadcasts;
mod station_calls;
mod station_further;
mod station_steps;
mod tables;
mod time;

pub(crate) use command::{CommandRef, command_on};
use coordinator::Coordinator;
use meter_node::Meter;
pub(crate) use node_receptions::reception_of;
use plc_base::{Eui, Key, MemKeeper, Short};
pub(crate) use reception::{HandedUp, Reception};
use std::alloc::Global;
use std::marker::Model;

/// The nodes of a line by their numbers: 0 is the coordinator, and the meters follow from 1 on, in the order in which
/// they were made.
///
/// A contract sees the list of the nodes. Each node that is not halted agrees with its keeper.
#[derive(Drop)]
pub struct Nodes {
    pub(crate) coordinator: Option<Coordinator<MemKeeper>>,
    pub(crate) meters: Vec<Meter<MemKeeper>>,
}

impl Model for Nodes {
    ghost use Rattle.std.specs.Prelude.{List};
    ghost use Rattle.node_rules.specs.Memory.{Node};
    ghost use Rattle.std.specs.Coded.{coded_list};
    ghost use Rattle.line_world.specs.NodeCodes.{node_code};
    ghost use Rattle.line_world.specs.Nodes.{nodes_in};
    ghost use Rattle.line_world.specs.Soundness.{AreSound};

    ghost Value = { List Node };

    ghost coded = { coded_list node_code };

    ghost view = { λ n. nodes_in n.coordinator n.meters.items };

    ghost invariant = { λ n. AreSound n.coordinator n.meters.items };
}

// Whether a meter has an EUI.
fn has_eui(meter: &Meter<MemKeeper>, eui: Eui) -> bool
    ensures { result ≡ has_eui eui meter.now }
{
    meter.eui().number() == eui.number()
}

// The place of the first meter with an EUI.
fn place_of(meters: &[Meter<MemKeeper>], eui: Eui) -> Option<usize>
    ensures { result ≡ position (has_eui eui) meters.now }
{
    meters.iter().position(|meter| has_eui(meter, eui))
}

impl Nodes {
    /// No node. It takes no memory.
    pub fn new(alloc: Global) -> Nodes
        ensures { result ≡ [] }
    {
        Nodes {
            coordinator: None,
            meters: Vec::new(alloc),
        }
    }

    /// How many nodes there are.
    pub fn len(&self) -> usize
        ensures { result ≡ length self.now }
    {
        if self.coordinator.is_none() {
            return 0;
        }
        self.meters.len() + 1
    }

    /// Whether there is no node.
    pub fn is_empty(&self) -> bool
        ensures { result ≡ not (nat_lt 0 (length self.now)) }
    {
        self.coordinator.is_none()
    }

    /// The short address of a node, None where it is halted or not joined.
    pub fn address(&self, number: usize) -> Option<Short>
        requires there { number < length self.now }
        ensures { IfSome (slice_get self.now number) (λ x. result ≡ memory.node_address x) }
    {
        if number > 0 {
            return self.meters[number - 1].address();
        }
        let Some(coordinator) = &self.coordinator else {
            return None;
        };
        coordinator.address()
    }

    /// The EUI of a meter.
    pub fn eui(&self, number: usize) -> Eui
        requires meter { 1 ≤ number }
        requires there { number < length self.now }
        ensures { IfSome (slice_get self.now number) (λ x. result ≡ x.eui) }
    {
        self.meters[number - 1].eui()
    }

    /// The pair key of a meter.
    pub fn psk(&self, number: usize) -> Key
        requires meter { 1 ≤ number }
        requires there { number < length self.now }
        ensures { IfSome (slice_get self.now number) (λ x. psk_of x ≡ Some result) }
    {
        self.meters[number - 1].psk()
    }

    /// The number of the first node with an EUI, None where no node has it.
    pub fn number_of_eui(&self, eui: Eui) -> Option<usize>
        ensures { result ≡ position (λ (x : memory.Node). same_eui x.eui eui) self.now }
    {
        let Some(coordinator) = &self.coordinator else {
            return None;
        };
        if coordinator.eui().number() == eui.number() {
            return Some(0);
        }
        let place = place_of(&self.meters, eui)?;
        Some(place + 1)
    }

    /// Whether a node has this EUI.
    pub fn has(&self, eui: Eui) -> bool
        ensures { result ≡ list_any (λ (x : memory.Node). same_eui x.eui eui) self.now }
    {
        self.number_of_eui(eui).is_some()
    }
}
