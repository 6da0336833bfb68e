//! A frame that comes: accepted by the station and heard in one call.
ghost use Rattle.std.specs.Prelude.{◌≡◌, Err, IfNone, IfSome, IfOk, IsSome};
ghost use Rattle.node_rules.specs.Acceptance as acceptance;
ghost use Rattle.node_rules.specs.Agreement.{Agrees};
ghost use Rattle.node_rules.specs.CarriedPlans.{Carries, nothing};
ghost use Rattle.node_rules.specs.Ciphers.{network};
ghost use Rattle.node_rules.specs.Frames.{arrived};
ghost use Rattle.node_rules.specs.Meters as meters;
ghost use Rattle.node_rules.specs.NodeSteps.{of_station};
ghost use Rattle.node_rules.specs.Receives.{Receives};
ghost use Rattle.meter_node.specs.MeterAnswers.{CameUp};
ghost use Rattle.meter_node.specs.MeterCalls.{MeterAfter};
ghost use Rattle.meter_node.specs.MeterStates.{identity_of, node_of};

use crate::meter::Meter;
use node_rules::{Came, FrameRefusal, MeterHeard, Unheard, heard_or_why};
use plc_base::{FrameBuf, Keeper, Out};
use plc_station::{Accepted, Buffers};

impl<K: Keeper + Drop> Meter<K> {
    // What its station accepts.
    fn accept_frame<'a>(
        &mut self,
        octets: &[u8],
        payload: &'a mut FrameBuf,
    ) -> Result<Accepted<'a>, FrameRefusal>
        requires agrees { Agrees self.old.station }
        ensures halted { IfNone self.old.station.memory ((result ≡ Err FrameRefusal.Halted) × (self.new ≡ self.old)) }
        ensures carries { IfSome self.old.station.memory (λ l. Carries self.old.station
            (acceptance.accept l self.old.station.eui (arrived network octets.now)) result nothing self.new.station) }
        ensures beside { self.new ≡ record self.old { station = self.new.station } }
        ensures running { IfOk result (λ _. IsSome self.new.station.memory) }
        ensures came { IfOk result (λ got. IfSome self.new.station.memory (CameUp got.path)) }
        ensures agrees { Agrees self.new.station }
    {
        self.station.accept(octets, payload)
    }

    /// Takes octets that came as a frame: its station accepts them, and [`hear`](Meter::hear) takes what is inside. A joining message
    /// is carried on or answered, and all else is what its station makes of it. What goes out is in `out`, and what is handed up stands
    /// in `buffers`, which are free again when it is gone.
    ///
    /// Halted where it is halted, and Store where a store write failed, which leaves it halted. Else Refused or Dropped, for the first
    /// reason that the rule names. Then `out` is empty.
    pub fn receive<'a>(
        &mut self,
        octets: &[u8],
        came: Came,
        buffers: &'a mut Buffers,
        out: &mut Out,
    ) -> Result<MeterHeard<'a>, Unheard>
        requires agrees { Agrees self.old.station }
        ensures halted { IfNone self.old.station.memory ((result ≡ Err Unheard.Halted) × (out.new ≡ nothing) × (self.new ≡ self.old)) }
        ensures received { IfSome (node_of self.old).memory (λ m. Receives
            (of_station m (acceptance.accept m.station self.old.station.eui (arrived network octets.now)))
            (λ got k. meters.hear_meter (identity_of self.old) k got came.cost came.note came.time)
            (node_of self.old) result out.new (node_of self.new)) }
        ensures after { MeterAfter self.old self.new }
    {
        out.clear();
        match self.accept_frame(octets, &mut buffers.payload) {
            Ok(got) => heard_or_why(self.hear(
                got,
                came.cost,
                came.note,
                came.time,
                &mut buffers.datagram,
                out,
            )),
            Err(reason) => Err(Unheard::from(reason)),
        }
    }
}
