//! What a node of the line holds beside its memory.
ghost use Rattle.std.specs.Prelude.{◌≡◌, IfOk};
ghost use Rattle.store_tables.specs.SlotTables.{read_into};
ghost use Rattle.reach_rules.specs.ReachingNodes.{nothing_beside, restarted, tick_beside};

use broadcast_log::BroadcastLog;
use neighbour_checks::Checks;
use pan_discovery::Scan;
use plc_base::{BadStore, Keeper};
use std::alloc::{AllocError, Global};
use std::marker::Model;

/// Which neighbours a node checks, its log of broadcasts, and its search for an agent.
#[derive(Drop)]
pub(crate) struct Beside {
    pub(crate) checks: Checks,
    pub(crate) log: BroadcastLog,
    pub(crate) scan: Scan,
}

impl Model for Beside {
    ghost use Rattle.reach_rules.specs.ReachingNodes as reaching;
    ghost use Rattle.line_world.specs.WorldCodes.{beside_code};

    ghost Value = { reaching.Beside };

    ghost coded = { beside_code };

    ghost view = { λ b. record { checks = b.checks; log = b.log; scan = b.scan } };
}

impl Beside {
    /// What a new node holds: nobody is checked or listed, no broadcast was given out or heard, and it does not scan. It fails only
    /// where there is no memory for it.
    pub(crate) fn new(alloc: Global) -> Result<Beside, AllocError>
        ensures { IfOk result (λ b. b ≡ nothing_beside) }
    {
        let log = BroadcastLog::new(alloc)?;
        Ok(Beside {
            checks: Checks::new(),
            log,
            scan: Scan::new(),
        })
    }

    /// Of what it holds the log alone is left, as the records of the node give it. It takes no memory. After an error the log is empty too.
    pub(crate) fn reload<K: Keeper>(&mut self, keeper: &K) -> Result<(), BadStore>
        ensures { read_into result self.new ≡ restarted (K.store keeper.now).records }
    {
        self.checks.clear();
        self.scan.clear();
        self.log.reload(keeper)
    }

    /// Neighbours that have been listed for long enough are let go, and those that have not acknowledged in time are listed.
    pub(crate) fn tick(&mut self, now: u64)
        ensures { self.new ≡ tick_beside now self.old }
    {
        self.checks.tick(now);
    }
}
