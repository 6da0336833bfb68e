//! Laws of the tables of a store, whatever becomes of a plan's writes. Each is the contract of a function that does nothing.
ghost use Rattle.node_rules.specs.Tables.{StationsWriteInPlace, MetersWriteInPlace, CoordinatorsWriteInPlace, WritesKeepTables, CarryingOutKeepsTables};
ghost use Rattle.node_rules.specs.Home.{CoordinatorsWriteHome, WritesKeepHome, CarryingOutKeepsHome, CoordinatorsWriteNoRing, WritesKeepRing};
ghost use Rattle.node_rules.specs.LogSlots.{StationsLeaveLog, MetersLeaveLog, CoordinatorsLeaveLog, CarryingOutLeavesLog};
ghost use Rattle.node_rules.specs.StationSlots.{StationsWriteTheirOwn, WritesKeepMembership};

/// Each write of a plan to the marks, the ranks or the book replaces an entry that is held, or adds one right after them: of all
/// plans of a station, of a meter and of the coordinator, where the marks and the ranks have at most as many entries as slots.
#[tactic(auto)]
pub fn plans_write_in_place()
    ensures stations { StationsWriteInPlace }
    ensures meters { MetersWriteInPlace }
    ensures coordinators { CoordinatorsWriteInPlace }
{}

/// Where the records give what is held of the tables, such writes leave no record after the first empty slot of its table, whichever
/// of them fails: opening reads up to that slot, so it reads them all.
#[tactic(auto)]
pub fn carrying_out_keeps_tables<M, A>()
    ensures carried { CarryingOutKeepsTables M A }
    ensures wrote { WritesKeepTables }
{}

/// A coordinator that has the address 0, or no ring, stores no ring of another address, if the grant that it begins with has the
/// address 0.
#[tactic(auto)]
pub fn coordinators_write_home()
    ensures { CoordinatorsWriteHome }
{}

/// Where the ring that the records give has the address 0, or there is none, such writes leave it so, whichever of them fails.
#[tactic(auto)]
pub fn carrying_out_keeps_home<M, A>()
    ensures carried { CarryingOutKeepsHome M A }
    ensures wrote { WritesKeepHome }
{}

/// What a station does that is not about its ring writes neither the ring nor an entry of the book, where the marks and the ranks have
/// at most as many entries as slots; and such writes leave both as they were, whichever of them fails.
#[tactic(auto)]
pub fn stations_write_their_own()
    ensures stations { StationsWriteTheirOwn }
    ensures wrote { WritesKeepMembership }
{}

/// What the coordinator hears, and what it is ordered to do but for its own keys, writes no ring; and such writes leave the record of
/// the ring as it was, whichever of them fails.
#[tactic(auto)]
pub fn coordinators_write_no_ring()
    ensures coordinators { CoordinatorsWriteNoRing }
    ensures wrote { WritesKeepRing }
{}

/// No plan of a station, of a meter or of the coordinator writes a slot of the log of broadcasts, where the marks and the ranks have at most as
/// many entries as slots; and whichever of its writes fails, what stands there is as it was.
#[tactic(auto)]
pub fn plans_leave_the_log<M, A>()
    ensures stations { StationsLeaveLog }
    ensures meters { MetersLeaveLog }
    ensures coordinators { CoordinatorsLeaveLog }
    ensures carried { CarryingOutLeavesLog M A }
{}
