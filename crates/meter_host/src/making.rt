//! What each call makes the meter do.
ghost use Rattle.std.specs.Prelude.{◌≡◌, Ok, IsSome};
ghost use Rattle.std.specs.Option.{option_map};
ghost use Rattle.node_rules.specs.Calls as calls;
ghost use Rattle.node_rules.specs.Meters as meters;
ghost use Rattle.node_rules.specs.MemoryDrafts as drafts;
ghost use Rattle.node_rules.specs.CarriedPlans.{nothing};
ghost use Rattle.meter_node.specs.MeterStates.{identity_of, node_of};
ghost use Rattle.host_calls.specs.Answers.{none_given};
ghost use Rattle.host_calls.specs.declared.status.Status.TheVariants.{Done};
ghost use Rattle.meter_host.specs.CallEffects.{status_of, NodeDid, StationDid, Made};
ghost use Rattle.meter_host.specs.Refusals.{ring_number, preset_number, random_number, join_number, leave_number, send_number};

use crate::hosting::Host;
use crate::refusals::Refusal;
use host_calls::{Call, Given, Status};
use plc_base::{Grant, LinkCost, RandomOctets, Short};
use plc_station::Buffers;

/// How a call of the meter ended, by its answer.
pub fn ended<T, E: Refusal>(answer: &Result<T, E>) -> Status
    ensures { result ≡ status_of E.number answer.now }
{
    match answer {
        Ok(_) => Status::Done,
        Err(reason) => Status::Refused(reason.number()),
    }
}

impl Host {
    // Installs the grant of a workshop.
    fn provision(&mut self, grant: &Grant) -> Status
        requires running { IsSome self.old.station.memory }
        ensures { NodeDid ring_number (λ m. meters.provision m grant.now) self.old result nothing self.new }
    {
        ended(&self.meter.provision(grant))
    }

    // Gives a neighbour.
    fn near(&mut self, to: Short, cost: LinkCost, now: u64) -> Status
        requires running { IsSome self.old.station.memory }
        ensures { StationDid preset_number (λ l. calls.preset_near l to cost now) self.old result nothing self.new }
    {
        ended(&self.meter.station().preset_near(to, cost, now))
    }

    // Gives a random value.
    fn random(&mut self, value: RandomOctets) -> Status
        ensures { NodeDid random_number (λ m. drafts.give_random m value) self.old result nothing self.new }
    {
        ended(&self.meter.give_random(value))
    }

    // Begins to join.
    fn join(&mut self, agent: Short, now: u64, given: &mut Given) -> Status
        ensures did { NodeDid join_number (λ m. meters.join (identity_of self.old) m agent now) self.old result given.new.out self.new }
        ensures joined { given.new.joined ≡ given.old.joined }
        ensures up { given.new.up ≡ given.old.up }
    {
        ended(&self.meter.join(agent, now, &mut given.out))
    }

    // Drops the ring.
    fn leave(&mut self) -> Status
        ensures { NodeDid leave_number (λ m. meters.leave m) self.old result nothing self.new }
    {
        ended(&self.meter.leave())
    }

    // Ends what is old.
    fn tick(&mut self, now: u64) -> Status
        ensures done { result ≡ Done }
        ensures state { node_of self.new ≡ record (node_of self.old) { memory = option_map (meters.tick now) (node_of self.old).memory } }
        ensures psk { self.new.psk ≡ self.old.psk }
    {
        self.meter.tick(now);
        Status::Done
    }

    // Sends a datagram.
    fn send(&mut self, to: Short, datagram: &[u8], note: u32, now: u64, given: &mut Given) -> Status
        ensures did { StationDid send_number (λ l. calls.send l to datagram.now note now) self.old result given.new.out self.new }
        ensures joined { given.new.joined ≡ given.old.joined }
        ensures up { given.new.up ≡ given.old.up }
    {
        ended(
            &self
                .meter
                .station()
                .send(to, datagram, note, now, &mut given.out),
        )
    }

    // Ends the routes by a neighbour.
    fn broke(&mut self, next: Short) -> Status
        requires running { IsSome self.old.station.memory }
        ensures done { result ≡ Done }
        ensures state { self.new ≡ record self.old
            { station = record self.old.station { memory = option_map (calls.broke next) self.old.station.memory } } }
    {
        ended(&self.meter.station().broke(next))
    }

    /// Makes a call of a meter that is not halted.
    pub fn make(&mut self, call: &Call<'_>, buffers: &mut Buffers, given: &mut Given) -> Status
        requires running { IsSome self.old.station.memory }
        requires none { given.old ≡ none_given }
        ensures { Made call.now self.old result given.new self.new }
    {
        match call {
            Call::Provision(grant) => self.provision(grant),
            Call::Near { to, cost, now } => self.near(*to, *cost, *now),
            Call::Random(value) => self.random(*value),
            Call::Join { agent, now } => self.join(*agent, *now, given),
            Call::Leave => self.leave(),
            Call::Tick { now } => self.tick(*now),
            Call::Send {
                to,
                note,
                now,
                datagram,
            } => self.send(*to, datagram.octets(), *note, *now, given),
            Call::Hear {
                cost,
                note,
                now,
                frame,
            } => self.hear(frame.octets(), *cost, *note, *now, buffers, given),
            Call::Broke { next } => self.broke(*next),
        }
    }
}
