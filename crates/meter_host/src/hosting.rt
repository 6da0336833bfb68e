//! A meter over a keeper that lists its puts.
ghost use Rattle.std.specs.Prelude.{◌≡◌, [], Some, None, IsSome, IfOk, IfErr, MatchBool};
ghost use Rattle.std.specs.Result.{result_ok};
ghost use Rattle.node_rules.specs.Memory as memory;
ghost use Rattle.node_rules.specs.RestartStates.{memory_of};
ghost use Rattle.meter_node.specs.MeterStates.{node_of};
ghost use Rattle.plc_base.specs.Streams.{HasWritten};
ghost use Rattle.host_calls.specs.Answers.{answer_text};
ghost use Rattle.meter_host.specs.ItemCalls.{Called, Answers, puts_in, NotOpened};

use host_calls::{Given, OutboxKeeper, Status, read_call, write_answer};
use meter_node::Meter;
use plc_base::{Eui, Failed, Key, Sink};
use plc_station::{Buffers, OpenFault};
use std::alloc::Global;
use std::marker::Model;

/// A meter over a keeper that lists its puts. A contract sees the meter.
#[derive(Drop)]
pub struct Host {
    pub(crate) meter: Meter<OutboxKeeper>,
}

impl Model for Host {
    ghost use Rattle.node_rules.specs.Agreement.{Agrees};
    ghost use Rattle.meter_node.specs.MeterStates.{MeterState, meter_code};

    ghost Value = { MeterState };

    ghost coded = { meter_code };

    ghost view = { λ h. h.meter };

    // What its station holds as stored is what the keeper has.
    ghost invariant = { λ h. Agrees h.meter.station };
}

// Writes an answer with the puts that a keeper lists, and clears the list.
fn write_listed<K: Sink>(
    keeper: &mut OutboxKeeper,
    given: &Given,
    status: Status,
    sink: &mut K,
) -> Result<(), Failed>
    ensures written { HasWritten (K.state sink.old) (K.state sink.new) result (answer_text (puts_in keeper.old) given.now status) }
    ensures cleared { keeper.new ≡ record keeper.old { listed = Some [] } }
{
    let written = write_answer(sink, keeper.puts(), given, status);
    keeper.begin();
    written
}

impl Host {
    /// Opens a meter over a keeper: BadStore exactly where a record has no reading or was lost, and Memory where there is no memory.
    pub fn open(alloc: Global, keeper: OutboxKeeper, eui: Eui, psk: Key) -> Result<Host, Status>
        ensures opened { IfOk result (λ h. (h.station.store ≡ keeper) × (h.station.eui ≡ eui) × (h.psk ≡ psk)
            × ((node_of h).memory ≡ result_ok (memory_of (memory.Meter psk) keeper.records))) }
        ensures running { IfOk result (λ h. IsSome h.station.memory) }
        ensures refused { IfErr result (λ status. NotOpened (memory_of (memory.Meter psk) keeper.records) status) }
    {
        match Meter::open(alloc, keeper, eui, psk) {
            Ok(meter) => return Ok(Host { meter }),
            Err((OpenFault::Memory, _)) => return Err(Status::Memory),
            Err(_) => return Err(Status::BadStore),
        }
    }

    /// Whether the meter is halted.
    pub fn halted(&mut self) -> bool
        ensures same { self.new ≡ self.old }
        ensures halted { MatchBool result (self.new.station.memory ≡ None) (IsSome self.new.station.memory) }
    {
        self.meter.station().halted()
    }

    // What an item makes the meter do, and how that ended.
    fn called(
        &mut self,
        kind: u8,
        octets: &[u8],
        buffers: &mut Buffers,
        given: &mut Given,
    ) -> Status
        ensures { Called kind octets.now self.old result given.new self.new }
    {
        given.clear();
        if self.halted() {
            return Status::Halted;
        }
        let Some(call) = read_call(kind, octets) else {
            return Status::Malformed;
        };
        let status = self.make(&call, buffers, given);
        if self.halted() {
            return Status::Halted;
        }
        status
    }

    // Writes the answer to a call, with the puts that are listed, and clears the list.
    fn write_called<K: Sink>(
        &mut self,
        given: &Given,
        status: Status,
        sink: &mut K,
    ) -> Result<(), Failed>
        ensures written { HasWritten (K.state sink.old) (K.state sink.new) result (answer_text (puts_in self.old.station.store) given.now status) }
        ensures cleared { self.new ≡ record self.old { station = record self.old.station { store = record self.old.station.store { listed = Some [] } } } }
    {
        write_listed(self.meter.station().keeper_mut(), given, status, sink)
    }

    /// Answers an item: does what the call says that it spells, and writes the puts of the call, in order, then the frames, in order, then that
    /// the meter has joined, then a datagram that is handed up, and then how the call ended. Where the sink fails, a prefix of that was written.
    pub fn answer<K: Sink>(
        &mut self,
        kind: u8,
        octets: &[u8],
        buffers: &mut Buffers,
        given: &mut Given,
        sink: &mut K,
    ) -> Result<(), Failed>
        requires none { self.old.station.store.listed ≡ Some [] }
        ensures answers { Answers kind octets.now self.old self.new (K.state sink.old) (K.state sink.new) result }
        ensures none { self.new.station.store.listed ≡ Some [] }
    {
        let status = self.called(kind, octets, buffers, given);
        self.write_called(given, status, sink)
    }
}
