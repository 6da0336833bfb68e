//! Laws of discovery, over its definitions alone: each stands as the contract of a function that does nothing.
ghost use Rattle.pan_discovery.specs.Laws.{DiscoveriesAreRead, ReadDiscoveriesAreSpelled, AgentsAreInOrder, AgentsAreDistinct, AgentsWereHeard};
ghost use Rattle.pan_discovery.specs.Laws.{SendersAreAgents, FirstAgentsSuffice, OneMoreEntry};

/// The request or beacon that octets spell is read out of them.
pub fn discoveries_are_read()
    ensures { DiscoveriesAreRead }
{}

/// The request or beacon that is read out of octets is the one that they spell.
pub fn read_discoveries_are_spelled()
    ensures { ReadDiscoveriesAreSpelled }
{}

/// The agents of a list of beacons are its senders, each once and with its least total, in the order of totals and of
/// addresses.
pub fn agents_are_the_cheapest()
    ensures order { AgentsAreInOrder }
    ensures distinct { AgentsAreDistinct }
    ensures heard { AgentsWereHeard }
    ensures senders { SendersAreAgents }
{}

/// The first 16 agents of a list of beacons, with one more beacon, follow from that beacon and the first 16 agents
/// before it.
pub fn first_agents_suffice()
    ensures { FirstAgentsSuffice }
{}

/// What a scan knows after one more entry of a history follows from what it knew before it.
pub fn one_more_entry()
    ensures { OneMoreEntry }
{}
