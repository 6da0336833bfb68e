//! A frame that comes: accepted and heard in one call.
ghost use Rattle.std.specs.Prelude.{◌≡◌, Err, IfNone, IfSome};
ghost use Rattle.node_rules.specs.Acceptance as acceptance;
ghost use Rattle.node_rules.specs.Agreement.{Agrees};
ghost use Rattle.node_rules.specs.CarriedPlans.{nothing};
ghost use Rattle.node_rules.specs.Ciphers.{network};
ghost use Rattle.node_rules.specs.Frames.{arrived};
ghost use Rattle.node_rules.specs.HearingRules as hearing_rules;
ghost use Rattle.node_rules.specs.Receives.{Receives};

use crate::station::Station;
use node_rules::{Came, Heard, Unheard, heard_or_why};
use plc_base::{DatagramBuf, FrameBuf, Keeper, Out};

/// What a node is lent to hear a frame: its payload is opened in the one, and a datagram that came in pieces is written whole into the
/// other. Make it once.
#[derive(Drop)]
pub struct Buffers {
    /// For the payload of a frame.
    pub payload: FrameBuf,
    /// For a datagram that comes in pieces.
    pub datagram: DatagramBuf,
}

impl Buffers {
    /// Nothing in either of them.
    pub fn new() -> Buffers {
        Buffers {
            payload: FrameBuf::new(),
            datagram: DatagramBuf::new(),
        }
    }
}

impl<K: Keeper + Drop> Station<K> {
    /// Takes octets that came as a frame: accepts them, as [`accept`](Station::accept) does, and hears what is inside, as
    /// [`hear`](Station::hear) does. A datagram or a joining command for this node is handed up, and what goes on or is answered is in
    /// `out`, sealed. What is handed up stands in `buffers`, which are free again when it is gone.
    ///
    /// Halted where it is halted, and Store where a store write failed, which leaves it halted. Else Refused or Dropped, for the first
    /// reason that the rule names. Then `out` is empty.
    pub fn receive<'a>(
        &mut self,
        octets: &[u8],
        came: Came,
        buffers: &'a mut Buffers,
        out: &mut Out,
    ) -> Result<Heard<'a>, Unheard>
        requires agrees { Agrees self.old }
        ensures halted { IfNone self.old.memory ((result ≡ Err Unheard.Halted) × (out.new ≡ nothing) × (self.new ≡ self.old)) }
        ensures received { IfSome self.old.memory (λ l. Receives
            (acceptance.accept l self.old.eui (arrived network octets.now))
            (λ got k. hearing_rules.hear k got came.cost came.note came.time) self.old result out.new self.new) }
        ensures agrees { Agrees self.new }
    {
        out.clear();
        match self.accept(octets, &mut buffers.payload) {
            Ok(got) => heard_or_why(self.hear(
                got,
                came.cost,
                came.note,
                came.time,
                &mut buffers.datagram,
                out,
            )),
            Err(reason) => Err(Unheard::from(reason)),
        }
    }
}
