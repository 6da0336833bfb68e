//! A frame that comes: accepted by the station and heard in one call.
ghost use Rattle.std.specs.Prelude.{◌≡◌, Err, IfNone, IfSome, IfOk, IsSome};
ghost use Rattle.node_rules.specs.Acceptance as acceptance;
ghost use Rattle.node_rules.specs.CarriedPlans.{Carries, nothing};
ghost use Rattle.node_rules.specs.Ciphers.{network};
ghost use Rattle.node_rules.specs.Coordinators as rules;
ghost use Rattle.node_rules.specs.Frames.{arrived};
ghost use Rattle.node_rules.specs.NodeSteps.{of_station};
ghost use Rattle.node_rules.specs.Receives.{Receives};
ghost use Rattle.coordinator.specs.CoordinatorAgreement.{CoordinatorAgrees};
ghost use Rattle.coordinator.specs.CoordinatorStates.{identity_of, node_of};

use crate::coordinator::Coordinator;
use node_rules::{Came, CoordinatorHeard, FrameRefusal, Unheard, heard_or_why};
use plc_base::{FrameBuf, Keeper, Out};
use plc_station::{Accepted, Buffers};

impl<K: Keeper + Drop> Coordinator<K> {
    // What its station accepts.
    fn accept_frame<'a>(
        &mut self,
        octets: &[u8],
        payload: &'a mut FrameBuf,
    ) -> Result<Accepted<'a>, FrameRefusal>
        requires holds { CoordinatorAgrees (node_of self.old) }
        ensures halted { IfNone self.old.station.memory ((result ≡ Err FrameRefusal.Halted) × (self.new ≡ self.old)) }
        ensures carries { IfSome self.old.station.memory (λ l. Carries self.old.station
            (acceptance.accept l self.old.station.eui (arrived network octets.now)) result nothing self.new.station) }
        ensures beside { self.new ≡ record self.old { station = self.new.station } }
        ensures running { IfOk result (λ _. IsSome (node_of self.new).memory) }
        ensures holds { CoordinatorAgrees (node_of self.new) }
    {
        self.station.accept(octets, payload)
    }

    /// Takes octets that came as a frame: its station accepts them, and [`hear`](Coordinator::hear) takes what is inside. A meter's
    /// joining message is answered, and all else is what its station makes of it. What goes out is in `out`, and what is handed up
    /// stands in `buffers`, which are free again when it is gone.
    ///
    /// Halted where it is halted, and Store where a store write failed, which leaves it halted. Else Refused or Dropped, for the first
    /// reason that the rule names. Then `out` is empty.
    pub fn receive<'a>(
        &mut self,
        octets: &[u8],
        came: Came,
        buffers: &'a mut Buffers,
        out: &mut Out,
    ) -> Result<CoordinatorHeard<'a>, Unheard>
        requires holds { CoordinatorAgrees (node_of self.old) }
        ensures halted { IfNone self.old.station.memory ((result ≡ Err Unheard.Halted) × (out.new ≡ nothing) × (self.new ≡ self.old)) }
        ensures received { IfSome (node_of self.old).memory (λ m. Receives
            (of_station m (acceptance.accept m.station self.old.station.eui (arrived network octets.now)))
            (λ got k. rules.hear_coordinator (identity_of self.old) k got came.cost came.note came.time)
            (node_of self.old) result out.new (node_of self.new)) }
        ensures holds { CoordinatorAgrees (node_of self.new) }
    {
        out.clear();
        match self.accept_frame(octets, &mut buffers.payload) {
            Ok(got) => heard_or_why(self.hear(
                got,
                came.cost,
                came.note,
                came.time,
                &mut buffers.datagram,
                out,
            )),
            Err(reason) => Err(Unheard::from(reason)),
        }
    }
}
