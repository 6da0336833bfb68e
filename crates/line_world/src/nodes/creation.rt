//! Nodes that are made.
ghost use Rattle.std.specs.Prelude.{◌≡◌, ◌++◌, ◌∷◌, [], ◌<◌, length, OnOk, OnErr};
ghost use Rattle.node_rules.specs.Memory as memory;
ghost use Rattle.line_rules.specs.Steps.{blank_node, coordinator_node};

use crate::nodes::Nodes;
use coordinator::Coordinator;
use meter_node::Meter;
use plc_base::{Eui, Key, MemKeeper};
use std::alloc::{AllocError, Global};

impl Nodes {
    /// Makes the coordinator, with an empty store in which it puts its first ring: the address 0000 and this group key.
    ///
    /// It fails only where memory runs out, and there is no node then.
    pub fn make_coordinator(&mut self, alloc: Global, eui: Eui, key: &Key) -> Result<(), AllocError>
        requires { self.old ≡ [] }
        ensures ok { OnOk result (self.new ≡ coordinator_node eui key.now ∷ []) }
        ensures err { OnErr result (self.new ≡ self.old) }
    {
        let keeper = MemKeeper::new(alloc)?;
        let Ok(coordinator) = Coordinator::open(alloc, keeper, eui, key) else {
            return Err(AllocError);
        };
        self.coordinator = Some(coordinator);
        Ok(())
    }

    /// Makes the next meter, with an empty store. It fails only where memory runs out, and the nodes are then as before.
    pub fn make_meter(&mut self, alloc: Global, eui: Eui, psk: Key) -> Result<(), AllocError>
        requires begun { 0 < length self.old }
        ensures ok { OnOk result (self.new ≡ self.old ++ blank_node (memory.Meter psk) eui ∷ []) }
        ensures err { OnErr result (self.new ≡ self.old) }
    {
        let keeper = MemKeeper::new(alloc)?;
        let Ok(meter) = Meter::open(alloc, keeper, eui, psk) else {
            return Err(AllocError);
        };
        self.meters.push(meter)?;
        Ok(())
    }
}
