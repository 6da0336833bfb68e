//! The calls of a meter, as items.
ghost use Rattle.std.specs.Prelude.{◌≡◌};
ghost use Rattle.host_calls.specs.Calls.{call_in, granted, provision_in, near_in, random_in, join_in, leave_in, tick_in, send_in, hear_in, broke_in};

use crate::fields::{address_at, cost_at, eight_at, four_at, index_at, rest};
use plc_base::{Grant, Key, KeyIndex, LinkCost, OctetRef, RandomOctets, Short, octets_at};

/// A call of a meter. Octets stay where they are: in the item.
#[derive(Drop)]
pub enum Call<'a> {
    /// 03: installs the grant of a workshop.
    Provision(Grant),
    /// 04: gives a neighbour.
    Near {
        /// The neighbour.
        to: Short,
        /// The cost of the link to it.
        cost: LinkCost,
        /// The time in seconds.
        now: u64,
    },
    /// 05: gives a random value.
    Random(RandomOctets),
    /// 06: begins to join.
    Join {
        /// The agent.
        agent: Short,
        /// The time in seconds.
        now: u64,
    },
    /// 07: drops the ring.
    Leave,
    /// 08: ends what is old.
    Tick {
        /// The time in seconds.
        now: u64,
    },
    /// 09: sends a datagram.
    Send {
        /// Where it is to go.
        to: Short,
        /// The caller's number of it.
        note: u32,
        /// The time in seconds.
        now: u64,
        /// The datagram.
        datagram: OctetRef<'a>,
    },
    /// 0A: takes a frame that came.
    Hear {
        /// The cost of the link on which it came.
        cost: LinkCost,
        /// The caller's number of it.
        note: u32,
        /// The time in seconds.
        now: u64,
        /// The frame.
        frame: OctetRef<'a>,
    },
    /// 0B: ends the routes by a neighbour, which does not answer.
    Broke {
        /// The neighbour.
        next: Short,
    },
}

const PROVISION: u8 = 0x03;

const NEAR: u8 = 0x04;

const RANDOM: u8 = 0x05;

const JOIN: u8 = 0x06;

const LEAVE: u8 = 0x07;

const TICK: u8 = 0x08;

const SEND: u8 = 0x09;

const HEAR: u8 = 0x0A;

const BROKE: u8 = 0x0B;

// The grant of an address, with one group key, at an index.
fn grant(address: Short, active: KeyIndex, key: Key) -> Grant
    ensures { result ≡ granted address active key }
{
    let keys = if active.number() == 0 {
        [Some(key), None]
    } else {
        [None, Some(key)]
    };
    Grant {
        address,
        active,
        keys,
    }
}

// The octets of PROVISION.
fn read_provision<'a>(octets: &'a [u8]) -> Option<Call<'a>>
    ensures { result ≡ provision_in octets.now }
{
    if octets.len() != 19 {
        return None;
    }
    let Some(address) = address_at(octets, 0) else {
        return None;
    };
    let Some(active) = index_at(octets, 2) else {
        return None;
    };
    let Ok(key) = octets_at::<16>(octets, 3) else {
        return None;
    };
    Some(Call::Provision(grant(address, active, Key(key))))
}

// The octets of NEAR.
fn read_near<'a>(octets: &'a [u8]) -> Option<Call<'a>>
    ensures { result ≡ near_in octets.now }
{
    if octets.len() != 11 {
        return None;
    }
    let Some(to) = address_at(octets, 0) else {
        return None;
    };
    let Some(cost) = cost_at(octets, 2) else {
        return None;
    };
    Some(Call::Near {
        to,
        cost,
        now: eight_at(octets, 3),
    })
}

// The octets of RANDOM.
fn read_random<'a>(octets: &'a [u8]) -> Option<Call<'a>>
    ensures { result ≡ random_in octets.now }
{
    if octets.len() != 16 {
        return None;
    }
    let Ok(value) = octets_at::<16>(octets, 0) else {
        return None;
    };
    Some(Call::Random(RandomOctets(value)))
}

// The octets of JOIN.
fn read_join<'a>(octets: &'a [u8]) -> Option<Call<'a>>
    ensures { result ≡ join_in octets.now }
{
    if octets.len() != 10 {
        return None;
    }
    let Some(agent) = address_at(octets, 0) else {
        return None;
    };
    Some(Call::Join {
        agent,
        now: eight_at(octets, 2),
    })
}

// The octets of LEAVE.
fn read_leave<'a>(octets: &'a [u8]) -> Option<Call<'a>>
    ensures { result ≡ leave_in octets.now }
{
    if octets.len() != 0 {
        return None;
    }
    Some(Call::Leave)
}

// The octets of TICK.
fn read_tick<'a>(octets: &'a [u8]) -> Option<Call<'a>>
    ensures { result ≡ tick_in octets.now }
{
    if octets.len() != 8 {
        return None;
    }
    Some(Call::Tick {
        now: eight_at(octets, 0),
    })
}

// The octets of SEND.
fn read_send<'a>(octets: &'a [u8]) -> Option<Call<'a>>
    ensures { result ≡ send_in octets.now }
{
    if octets.len() < 14 {
        return None;
    }
    let Some(to) = address_at(octets, 0) else {
        return None;
    };
    Some(Call::Send {
        to,
        note: four_at(octets, 2),
        now: eight_at(octets, 6),
        datagram: OctetRef::new(rest(octets, 14)),
    })
}

// The octets of HEAR.
fn read_hear<'a>(octets: &'a [u8]) -> Option<Call<'a>>
    ensures { result ≡ hear_in octets.now }
{
    if octets.len() < 13 {
        return None;
    }
    let Some(cost) = cost_at(octets, 0) else {
        return None;
    };
    Some(Call::Hear {
        cost,
        note: four_at(octets, 1),
        now: eight_at(octets, 5),
        frame: OctetRef::new(rest(octets, 13)),
    })
}

// The octets of BROKE.
fn read_broke<'a>(octets: &'a [u8]) -> Option<Call<'a>>
    ensures { result ≡ broke_in octets.now }
{
    if octets.len() != 2 {
        return None;
    }
    let Some(next) = address_at(octets, 0) else {
        return None;
    };
    Some(Call::Broke { next })
}

/// The call that an item spells. None where its kind is that of no call, there are fewer or more octets than the call has, or an address, a cost
/// or an index is out of its range.
pub fn read_call<'a>(kind: u8, octets: &'a [u8]) -> Option<Call<'a>>
    ensures { result ≡ call_in kind octets.now }
{
    match kind {
        PROVISION => read_provision(octets),
        NEAR => read_near(octets),
        RANDOM => read_random(octets),
        JOIN => read_join(octets),
        LEAVE => read_leave(octets),
        TICK => read_tick(octets),
        SEND => read_send(octets),
        HEAR => read_hear(octets),
        BROKE => read_broke(octets),
        _ => None,
    }
}
