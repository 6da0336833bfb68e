//! A frame that came.
ghost use Rattle.std.specs.Prelude.{◌≡◌};
ghost use Rattle.meter_host.specs.CallEffects.{up_of, is_joined_by, joined_by, Hears};

use crate::hosting::Host;
use crate::making::ended;
use host_calls::{Given, ItemOctets, Status};
use node_rules::{Came, Heard, MeterHeard, Unheard};
use plc_base::{LONGEST_DATAGRAM, LinkCost, Short};
use plc_station::Buffers;

// Notes what is handed up of a frame: the sender, the note and the datagram, which has 1,280 octets at most.
fn hand_up(heard: &Result<MeterHeard<'_>, Unheard>, up: &mut ItemOctets)
    ensures { up.new ≡ up_of heard.now }
{
    up.clear();
    let Ok(MeterHeard::Station(Heard::Up { from, note, octets })) = heard else {
        return;
    };
    let octets = octets.octets();
    if octets.len() > LONGEST_DATAGRAM {
        return;
    }
    up.push_be_u16(from.number());
    up.push_be_u32(*note);
    up.append(octets);
}

// Whether the meter has joined by a frame.
fn has_joined(heard: &Result<MeterHeard<'_>, Unheard>) -> bool
    ensures { result ≡ is_joined_by heard.now }
{
    matches!(heard, Ok(MeterHeard::Took(_)))
}

impl Host {
    // The short address of the meter, where it has joined by a frame.
    fn joined_by(&self, heard: &Result<MeterHeard<'_>, Unheard>) -> Option<Short>
        ensures { result ≡ joined_by heard.now self.now }
    {
        if has_joined(heard) {
            return self.meter.address();
        }
        None
    }

    /// Takes a frame that came: accepts it, and hears it.
    pub fn hear(
        &mut self,
        frame: &[u8],
        cost: LinkCost,
        note: u32,
        now: u64,
        buffers: &mut Buffers,
        given: &mut Given,
    ) -> Status
        ensures { Hears frame.now cost note now self.old result given.new self.new }
    {
        let came = Came {
            cost,
            note,
            time: now,
        };
        let heard = self.meter.receive(frame, came, buffers, &mut given.out);
        hand_up(&heard, &mut given.up);
        given.joined = self.joined_by(&heard);
        ended(&heard)
    }
}
