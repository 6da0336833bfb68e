//! The two phases: records are loaded, and then the meter is called.
ghost use Rattle.std.specs.Prelude.{◌≡◌, ◌≢◌, [], Some, IfOk};
ghost use Rattle.plc_base.specs.Streams.{SourceFaults, SourceRose, SinkRose};
ghost use Rattle.meter_host.specs.ProgramRuns.{outcome_number, outcome_of, no_records, Loads, Runs, SaysVersion, IsTaken, Opens, NextIs, LoadsAll, Says};
ghost use Rattle.meter_host.specs.ProgramRuns.{Serves};
ghost use Rattle.host_calls.specs.Answers.{status_text};

use crate::hosting::Host;
use crate::loading::Loading;
use byteorder::{BigEndian, ByteOrder};
use host_calls::{Given, ItemFault, ItemOctets, Status, read_item, write_status};
use plc_base::{Eui, Key, Sink, Source, octets_at};
use plc_station::Buffers;
use std::alloc::Global;

/// Why the program ends, with its number.
#[derive(Clone, Copy, Debug, PartialEq, Eq)]
pub enum Outcome {
    /// 0: the input ended before an item.
    Ended,
    /// 1: the meter was not opened, or the input is no list of items.
    Unusable,
    /// 2: a word was given, and the program said what it is.
    Usage,
    /// 3: there was not enough memory.
    Memory,
    /// 4: a read failed.
    ReadFault,
    /// 5: a write failed.
    WriteFault,
}

impl Outcome {
    /// The number that the program ends with.
    pub fn number(self) -> u8
        ensures { result ≡ outcome_number self }
    {
        match self {
            Outcome::Ended => 0,
            Outcome::Unusable => 1,
            Outcome::Usage => 2,
            Outcome::Memory => 3,
            Outcome::ReadFault => 4,
            Outcome::WriteFault => 5,
        }
    }
}

/// A record to be loaded.
const LOAD: u8 = 0x01;
/// The meter is to be opened.
const OPEN: u8 = 0x02;
/// Whether the program speaks a version of the items.
const VERSION: u8 = 0x0C;
/// The version of the items.
const ITEMS_VERSION: u16 = 1;

// Reads the next item, its octets into `item`, and answers its kind.
fn next_item<S: Source>(source: &mut S, item: &mut ItemOctets) -> Result<u8, Outcome>
    ensures next { NextIs (S.state source.old) (S.state source.new) item.new result }
    ensures faults { SourceFaults (S.state source.old) (S.state source.new) }
{
    match read_item(source, item) {
        Ok(Some(kind)) => Ok(kind),
        Ok(None) => Err(Outcome::Ended),
        Err(ItemFault::Failed) => Err(Outcome::ReadFault),
        Err(ItemFault::Torn) => Err(Outcome::Unusable),
        Err(ItemFault::TooLong) => Err(Outcome::Unusable),
    }
}

// Whether the two octets of an item are the version of the items.
fn answer_version(octets: &[u8]) -> Status
    ensures { SaysVersion octets.now result }
{
    if octets.len() != 2 {
        return Status::Malformed;
    }
    if BigEndian::read_u16(octets) != ITEMS_VERSION {
        return Status::Malformed;
    }
    Status::Done
}

// Takes in the record of an item, or says whether the program speaks the version that it asks for, if it does one of the two.
fn take_in(loading: &mut Loading, kind: u8, octets: &[u8]) -> Status
    ensures taken { IsTaken kind octets.now loading.old result loading.new }
    ensures none { loading.new.listed ≡ loading.old.listed }
{
    if kind == LOAD {
        return loading.load(octets);
    }
    if kind == VERSION {
        return answer_version(octets);
    }
    Status::Malformed
}

// Takes in records until the meter is to be opened. The item that says so is then in `item`.
fn load_all<S: Source, K: Sink>(
    loading: &mut Loading,
    item: &mut ItemOctets,
    source: &mut S,
    sink: &mut K,
) -> Result<(), Outcome>
    ensures loads { LoadsAll (Loads loading.old) (S.state source.old) (S.state source.new) (K.state sink.old) (K.state sink.new)
        loading.new item.new result }
    ensures none { loading.new.listed ≡ loading.old.listed }
{
    for turn in 0..u64::MAX {
        let kind = match next_item(source, item) {
            Ok(kind) => kind,
            Err(outcome) => return Err(outcome),
        };
        if kind == OPEN {
            return Ok(());
        }
        let status = take_in(loading, kind, item.octets());
        match write_status(sink, status) {
            Ok(()) => {}
            Err(_) => return Err(Outcome::WriteFault),
        }
    }
    Err(Outcome::Ended)
}

// Why the program ends where the meter was not opened.
fn not_opened(status: Status) -> Outcome
    ensures { result ≡ outcome_of status }
{
    match status {
        Status::Memory => Outcome::Memory,
        _ => Outcome::Unusable,
    }
}

// Opens the meter of an item: its EUI-64, and its pair key. How that ended where it was not.
fn open(alloc: Global, loading: Loading, octets: &[u8]) -> Result<Host, Status>
    requires none { loading.listed ≡ Some [] }
    ensures opens { Opens loading octets.now result }
    ensures none { IfOk result (λ h. h.station.store.listed ≡ Some []) }
{
    if octets.len() != 24 {
        return Err(Status::Malformed);
    }
    let Ok(eui) = octets_at::<8>(octets, 0) else {
        return Err(Status::Malformed);
    };
    let Ok(psk) = octets_at::<16>(octets, 8) else {
        return Err(Status::Malformed);
    };
    Host::open(alloc, loading.into_keeper(), Eui(eui), Key(psk))
}

// Answers each call.
fn answer_all<S: Source, K: Sink>(
    host: &mut Host,
    given: &mut Given,
    item: &mut ItemOctets,
    source: &mut S,
    sink: &mut K,
) -> Outcome
    requires none { host.old.station.store.listed ≡ Some [] }
    ensures serves { Serves (Runs host.old) (S.state source.old) (S.state source.new) (K.state sink.old) (K.state sink.new) result }
    ensures began { result ≢ Outcome.Memory }
{
    let mut buffers = Buffers::new();
    for turn in 0..u64::MAX {
        let kind = match next_item(source, item) {
            Ok(kind) => kind,
            Err(outcome) => return outcome,
        };
        match host.answer(kind, item.octets(), &mut buffers, given, sink) {
            Ok(()) => {}
            Err(_) => return Outcome::WriteFault,
        }
    }
    Outcome::Ended
}

// Says why the meter was not opened, and ends.
fn refuse<K: Sink>(status: Status, sink: &mut K) -> Outcome
    ensures { Says (K.state sink.old) (K.state sink.new) (status_text status) (outcome_of status) result }
{
    match write_status(sink, status) {
        Ok(()) => not_opened(status),
        Err(_) => Outcome::WriteFault,
    }
}

// Loads, opens and answers.
fn serve_all<S: Source, K: Sink>(alloc: Global, source: &mut S, sink: &mut K) -> Outcome
    ensures { Serves (Loads no_records) (S.state source.old) (S.state source.new) (K.state sink.old) (K.state sink.new) result }
{
    let Ok(mut loading) = Loading::new(alloc) else {
        return Outcome::Memory;
    };
    let Ok(mut given) = Given::new(alloc) else {
        return Outcome::Memory;
    };
    let mut item = ItemOctets::new();
    match load_all(&mut loading, &mut item, source, sink) {
        Ok(()) => {}
        Err(outcome) => return outcome,
    }
    match open(alloc, loading, item.octets()) {
        Err(status) => refuse(status, sink),
        Ok(mut host) => match write_status(sink, Status::Done) {
            Ok(()) => answer_all(&mut host, &mut given, &mut item, source, sink),
            Err(_) => Outcome::WriteFault,
        },
    }
}

/// Answers each item of the source, until it ends: first the records and the opening, then the calls.
///
/// What the sink takes is the answers of the items in order, and a prefix of them only where a write failed. ReadFault and WriteFault come only where
/// a read and a write failed; the other outcomes say what the items were.
pub fn serve<S: Source, K: Sink>(alloc: Global, source: &mut S, sink: &mut K) -> Outcome
    ensures serves { Serves (Loads no_records) (S.state source.old) (S.state source.new) (K.state sink.old) (K.state sink.new) result }
    ensures read { result ≡ Outcome.ReadFault → SourceRose (S.state source.old) (S.state source.new) }
    ensures write { result ≡ Outcome.WriteFault → SinkRose (K.state sink.old) (K.state sink.new) }
{
    serve_all(alloc, source, sink)
}
