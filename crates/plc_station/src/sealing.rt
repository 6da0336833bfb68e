//! Seals what one call of a station sends.
ghost use Rattle.std.specs.Prelude.{◌≡◌, ◌+◌, ◌<◌, ◌≤◌, ◌++◌, ◌∷◌, [], Some, None, IsSome, length, map, not};
ghost use Rattle.std.specs.List.{filter};
ghost use Rattle.mesh_header.specs.declared.unit.Unit.TheVariants as mesh;
ghost use Rattle.loadng_messages.specs.Grammar as messages;
ghost use Rattle.loadng_messages.specs.declared.message.Message.TheVariants as message;
ghost use Rattle.fragment_buffers.specs.Loads.{load_of, units_in};
ghost use Rattle.fragment_buffers.specs.WaitingBodies.{leaving, waits_for};
ghost use Rattle.node_rules.specs.Ciphers.{network};
ghost use Rattle.node_rules.specs.Frames.{spelled};
ghost use Rattle.node_rules.specs.Drafts as drafts;
ghost use Rattle.node_rules.specs.CarriedPlans.{nothing};
ghost use Rattle.node_rules.specs.Frames.{to_all};
ghost use Rattle.plc_station.specs.SentFrames.{only_frames};
ghost use Rattle.plc_base.specs.declared.limits.TheConstants.{GREATEST_COUNTER, LONGEST_DATAGRAM, MOST_FRAMES};
ghost use Rattle.station_queues.specs.declared.bodies.TheConstants.{LONGEST_COMMAND};

use crate::offers::Offer;
use aes_modes::Aes;
use loadng_messages::{Message, MessageBuf, write_message};
use mesh_header::Unit;
use plc_base::{Destination, Grant, Key, OctetRef, Out, Short};
use station_queues::{Bodies, BodyBuffer, seal, seal_load};

// Seals a datagram with its tag, whole or in pieces, or a command, which has none. Here and below `cipher` becomes that of the active key of
// the grant.
pub(crate) fn seal_own(
    cipher: &mut Aes,
    grant: &Grant,
    first: u32,
    hop: Short,
    to: Short,
    note: u32,
    tag: Option<u16>,
    octets: &[u8],
    out: &mut Out,
)
    requires some { 1 ≤ length octets.now }
    requires fits { length octets.now ≤ LONGEST_DATAGRAM }
    requires command { tag ≡ None → length octets.now ≤ LONGEST_COMMAND }
    requires left { first + units_in (load_of tag octets.now) ≤ GREATEST_COUNTER }
    requires empty { out.old ≡ nothing }
    ensures { out.new ≡ record nothing {
      frames = map (spelled network) (drafts.sealed_by (Some grant.now) first
          (drafts.all_go hop note (drafts.units_of grant.now.address to (load_of tag octets.now))));
    } }
{
    let key = grant.sealing_key();
    cipher.renew(&key);
    seal_load(grant, &key, cipher, first, hop, to, note, tag, octets, out);
}

// Seals a message for one neighbour or for all, under the active key of the grant, of which the caller has the schedule.
pub(crate) fn seal_message(
    grant: &Grant,
    key: &Key,
    aes: &Aes,
    counter: u32,
    to: Destination,
    message: &Message,
    out: &mut Out,
)
    requires key { drafts.sealing_key grant.now ≡ Some key.now }
    requires aes { aes.now ≡ key.now.0 }
    requires allowed { messages.IsAllowed message.now }
    requires room { length out.old.frames < MOST_FRAMES }
    ensures message { messages.IsMessage message.now }
    ensures sent { out.new ≡ record out.old {
      frames = out.old.frames ++ map (spelled network) (drafts.sealed_by (Some grant.now) counter
          (record { to = to; unit = mesh.Local 1 (messages.spelling message.now); note = 0 } ∷ []));
    } }
{
    let mut body = MessageBuf::new();
    write_message(message, &mut body);
    let octets = OctetRef::new(body.octets());
    let unit = Unit::Local {
        code: 1,
        body: octets,
    };
    seal(grant, key, aes, counter, to, &unit, 0, out);
}

// Seals what waits for the origin of an offer, for the neighbour that made it, and a message after it, under the active key of the grant and
// with counters from `first` on. Then nothing waits for that origin. Each body is read into `buffer`, whose octets mean nothing before and after.
pub(crate) fn seal_waiting_then(
    bodies: &mut Bodies,
    buffer: &mut BodyBuffer,
    cipher: &mut Aes,
    grant: &Grant,
    offer: &Offer,
    first: u32,
    to: Destination,
    message: &Message,
    out: &mut Out,
)
    requires left { first + (length (leaving grant.now.address offer.now.origin offer.now.by bodies.old.waiting) + 1) ≤ GREATEST_COUNTER }
    requires allowed { messages.IsAllowed message.now }
    requires empty { out.old ≡ nothing }
    ensures key { IsSome (drafts.sealing_key grant.now) }
    ensures message { messages.IsMessage message.now }
    ensures sent { out.new ≡ only_frames (map (spelled network) (drafts.sealed_by (Some grant.now) first
        (leaving grant.now.address offer.now.origin offer.now.by bodies.old.waiting
        ++ record { to = to; unit = mesh.Local 1 (messages.spelling message.now); note = 0 } ∷ []))) }
    ensures left { bodies.new ≡ record bodies.old { waiting = filter (λ b. not (waits_for offer.now.origin b)) bodies.old.waiting } }
{
    let units = bodies.units_for(offer.origin);
    let key = grant.sealing_key();
    cipher.renew(&key);
    bodies.seal_leaving(
        offer.origin,
        grant,
        &key,
        cipher,
        first,
        offer.by,
        buffer,
        out,
    );
    seal_message(grant, &key, cipher, first + units, to, message, out);
    bodies.drop_for(offer.origin);
}

// Seals a request for the route to an address, which goes to all.
pub(crate) fn seal_request(
    cipher: &mut Aes,
    grant: &Grant,
    counter: u32,
    number: u16,
    dest: Short,
    out: &mut Out,
)
    requires number { 1 ≤ number }
    requires empty { out.old ≡ nothing }
    ensures { out.new ≡ record nothing {
      frames = map (spelled network) (drafts.sealed_by (Some grant.now) counter
          (record {
            to = to_all;
            unit = mesh.Local 1 (messages.spelling
                (message.Rreq number 0 grant.now.address dest));
            note = 0;
          } ∷ []));
    } }
{
    let message = Message::Rreq {
        number,
        cost: 0,
        origin: grant.address,
        dest,
    };
    let key = grant.sealing_key();
    cipher.renew(&key);
    seal_message(
        grant,
        &key,
        cipher,
        counter,
        Destination::all(),
        &message,
        out,
    );
}
