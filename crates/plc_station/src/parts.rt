//! What a station holds of its store.
ghost use Rattle.std.specs.Prelude.{◌≡◌, Ok, Err, MatchResult, IfOk, OnOk};
ghost use Rattle.node_rules.specs.RestartStates.{station_of};
ghost use Rattle.node_rules.specs.Agreement.{AgreesWith};
ghost use Rattle.plc_station.specs.OpenFaults.{IsOpeningFault};
ghost use Rattle.plc_station.specs.StationViews.{station_in, no_bodies};

use fragment_buffers::NextTag;
use frame_counters::{PeerMarks, SendCounter};
use group_keys::KeyRing;
use plc_base::{BadStore, Keeper};
use routing_set::{OwnNumber, RoutingSet};
use std::alloc::Global;
use store_tables::OpenFault;

/// The parts of a station that stand on its store.
#[derive(Drop)]
pub struct Parts {
    pub(crate) ring: KeyRing,
    pub(crate) counter: SendCounter,
    pub(crate) marks: PeerMarks,
    pub(crate) routing: RoutingSet,
    pub(crate) own_number: OwnNumber,
    pub(crate) next_tag: NextTag,
}

impl Parts {
    /// What the records of a keeper give. BadStore where one of them has no reading or was lost, Memory where there is none for the tables.
    #[tactic(auto, unfolding(node_rules::specs::RestartStates::station_of))]
    pub(crate) fn open<K: Keeper>(alloc: Global, keeper: &K) -> Result<Parts, OpenFault>
        ensures station { MatchResult result
            (λ p. station_of (K.store keeper.now).records ≡ Ok (station_in p no_bodies))
            (IsOpeningFault (station_of (K.store keeper.now).records)) }
        ensures agrees { IfOk result (λ p. AgreesWith (station_in p no_bodies) (K.store keeper.now).records) }
    {
        let ring = KeyRing::open(keeper)?;
        let counter = SendCounter::open(keeper)?;
        let own_number = OwnNumber::open(keeper)?;
        let next_tag = NextTag::open(keeper)?;
        let routing = RoutingSet::open(alloc, keeper)?;
        let marks = PeerMarks::open(alloc, keeper)?;
        Ok(Parts {
            ring,
            counter,
            marks,
            routing,
            own_number,
            next_tag,
        })
    }

    /// The same, into parts that there are already, so that it takes no memory. After BadStore they may not be used until they are read
    /// again.
    #[tactic(auto, unfolding(node_rules::specs::RestartStates::station_of))]
    pub(crate) fn reload<K: Keeper>(&mut self, keeper: &K) -> Result<(), BadStore>
        ensures station { MatchResult result
            (λ _. station_of (K.store keeper.now).records ≡ Ok (station_in self.new no_bodies))
            (λ bad. station_of (K.store keeper.now).records ≡ Err bad) }
        ensures agrees { OnOk result (AgreesWith (station_in self.new no_bodies) (K.store keeper.now).records) }
    {
        self.ring = KeyRing::open(keeper)?;
        self.counter = SendCounter::open(keeper)?;
        self.own_number = OwnNumber::open(keeper)?;
        self.next_tag = NextTag::open(keeper)?;
        self.routing.reload(keeper)?;
        self.marks.reload(keeper)
    }
}
