//! What a station makes of pieces of datagrams.
ghost use Rattle.std.specs.Prelude.{◌≡◌, ◌+◌, ◌<◌, Ok, Err, IfSome};
ghost use Rattle.node_rules.specs.HearingRules as hearing_rules;
ghost use Rattle.plc_station.specs.Pieces as pieces;
ghost use Rattle.node_rules.specs.CarriedPlans.{Carries};
ghost use Rattle.plc_station.specs.Ready.{After, ReadyToAnswer};

use crate::station::Station;
use fragment_buffers::{BufferFull, Taken};
use mesh_header::Piece;
use node_rules::{Dropped, Heard};
use plc_base::{DatagramBuf, Keeper, OctetRef, Out, Short};

// What is answered for a piece.
fn came<'a>(
    from: Short,
    taken: Result<Taken, BufferFull>,
    octets: &'a [u8],
) -> Result<Heard<'a>, Dropped>
    ensures { result ≡ pieces.came from taken octets.now }
{
    match taken {
        Err(_) => Err(Dropped::BufferFull),
        Ok(Taken::Held) => Ok(Heard::Held),
        Ok(Taken::Whole { note }) => Ok(Heard::Up {
            from,
            note,
            octets: OctetRef::new(octets),
        }),
    }
}

impl<K: Keeper + Drop> Station<K> {
    // Takes a piece of a datagram for this node.
    pub(crate) fn gather<'a>(
        &mut self,
        from: Short,
        piece: &Piece<'_>,
        note: u32,
        now: u64,
        datagram: &'a mut DatagramBuf,
        out: &Out,
    ) -> Result<Heard<'a>, Dropped>
        requires ready { ReadyToAnswer self.old out.now }
        ensures carries { IfSome self.old.memory
            (λ l. Carries self.old (hearing_rules.gather l from piece.now note now) result out.now self.new) }
        ensures after { After self.old self.new }
    {
        let taken = self.bodies.gather(from, piece, note, now, datagram);
        came(from, taken, datagram.octets())
    }
}
