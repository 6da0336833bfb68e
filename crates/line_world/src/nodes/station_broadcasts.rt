//! What a station does about broadcasts, halted or not.
ghost use Rattle.std.specs.Prelude.{◌≡◌, ◌<◌, ◌≤◌, ◌==◌, ◌||◌, false, length, is_some, nat_lt, Ok, Err, Some, None, IfSome, IsSome, if◌then◌else◌};
ghost use Rattle.std.specs.Option.{option_map};
ghost use Rattle.broadcast_log.specs.Grammar.{spelling};
ghost use Rattle.broadcast_log.specs.Log.{empty_log, AgreesWith, numbered_log, admitted_log};
ghost use Rattle.broadcast_log.specs.NextNumber.{is_spent, number_put};
ghost use Rattle.broadcast_log.specs.OriginMarks.{keep_write, room_for};
ghost use Rattle.broadcast_log.specs.Reader as broadcasts;
ghost use Rattle.node_rules.specs.declared.refusal.Dropped.TheVariants as drops;
ghost use Rattle.node_rules.specs.Agreement.{Agrees};
ghost use Rattle.node_rules.specs.CarriedPlans.{nothing};
ghost use Rattle.node_rules.specs.Drafts.{alone};
ghost use Rattle.node_rules.specs.Memory.{address_of};
ghost use Rattle.plc_base.specs.Keeper.{Stores};
ghost use Rattle.reach_rules.specs.declared.refusal.ReachDropped.TheVariants.{Known};
ghost use Rattle.reach_rules.specs.Broadcasts as broadcast_rules;
ghost use Rattle.line_world.specs.FurtherOutcomes.{Reaches, ReachesCommand, ReachesFirst, ReportsCommand, broadcast_of, handed_up};

use crate::beside::Beside;
use crate::nodes::command::{CommandRef, Commanded};
use crate::nodes::station_further::{commanded_of, dropped_word, ended_by, send_local, sent_on};
use broadcast_log::{BroadcastLog, LogFault, read_broadcast};
use line_events::{Answer, BroadcastUp};
use node_rules::Dropped;
use plc_base::{FrameBuf, MemKeeper, OctetRef, Out, Short};
use plc_station::Station;
use reach_rules::{BroadcastRefusal, ReachDropped};

// # Broadcasts of its own

// Writes the body of a broadcast.
fn write_broadcast(hops: u8, origin: Short, number: u32, octets: &[u8], out: &mut FrameBuf)
    requires { length octets.now ≤ 360 }
    ensures { out.new ≡ spelling (record { hops = hops; origin = origin; number = number; octets = octets.now }) }
{
    out.clear();
    out.push(hops);
    out.push_be_u16(origin.number());
    out.push(0x50);
    out.push((number % 256) as u8);
    out.push_be_u32(number);
    out.append(octets);
}

// The number of the next own broadcast. Where it can't be stored, the station is halted and the log is empty.
fn take_number(station: &mut Station<MemKeeper>, log: &mut BroadcastLog) -> Option<u32>
    requires kept { AgreesWith log.old station.old.store.records }
    requires left { is_spent log.old.numbering ≡ false }
    requires running { IsSome station.old.memory }
    requires agrees { Agrees station.old }
    ensures number { IfSome result (λ number. number ≡ log.old.numbering.next) }
    ensures log { log.new ≡ (if is_some result then numbered_log log.old else empty_log) }
    ensures stores { Stores station.old.store (number_put log.old.numbering) (is_some result) station.new.store }
    ensures station { station.new ≡ record station.old {
      store = station.new.store;
      memory = if is_some result then station.old.memory else None;
    } }
    ensures agrees { Agrees station.new }
{
    let Ok(number) = log.next(station.keeper_mut()) else {
        station.halt();
        log.clear();
        return None;
    };
    Some(number)
}

// Whether no broadcast holds a datagram.
fn is_bad_size(datagram: &[u8]) -> bool
    ensures { result ≡ ((length datagram.now == 0) || nat_lt 360 (length datagram.now)) }
{
    datagram.is_empty() || datagram.len() > 360
}

// A datagram goes to all, from this address.
fn broadcast_from(
    own: Short,
    station: &mut Station<MemKeeper>,
    beside: &mut Beside,
    datagram: &[u8],
    buffer: &mut FrameBuf,
    out: &mut Out,
) -> Result<(), BroadcastRefusal>
    requires running { IsSome station.old.memory }
    requires own { IfSome station.old.memory (λ l. address_of l ≡ Some own) }
    requires agrees { Agrees station.old }
    requires kept { AgreesWith beside.old.log station.old.store.records }
    requires empty { out.old ≡ nothing }
    ensures reaches { ReachesFirst station.old beside.old (Err BroadcastRefusal.Halted)
        (λ y. broadcast_rules.broadcast_from alone y own datagram.now) result out.new station.new beside.new }
    ensures agrees { Agrees station.new }
{
    if is_bad_size(datagram) {
        return Err(BroadcastRefusal::BadSize);
    }
    if beside.log.number_left() == 0 {
        return Err(BroadcastRefusal::NumberSpent);
    }
    if station.counters_left() == 0 {
        return Err(BroadcastRefusal::CounterSpent);
    }
    let Some(number) = take_number(station, &mut beside.log) else {
        out.clear();
        return Err(BroadcastRefusal::Store);
    };
    write_broadcast(14, own, number, datagram, buffer);
    let sent = send_local(station, &mut beside.log, 4, None, buffer.octets(), out);
    ended_by(
        BroadcastRefusal::CounterSpent,
        BroadcastRefusal::Store,
        sent,
    )
}

// A datagram goes to all. `buffer` is overwritten, and what goes out is in `out`.
pub(crate) fn broadcast_at(
    station: &mut Station<MemKeeper>,
    beside: &mut Beside,
    datagram: &[u8],
    buffer: &mut FrameBuf,
    out: &mut Out,
) -> Result<(), BroadcastRefusal>
    requires agrees { Agrees station.old }
    requires kept { IfSome station.old.memory (λ _. AgreesWith beside.old.log station.old.store.records) }
    ensures reaches { ReachesFirst station.old beside.old (Err BroadcastRefusal.Halted)
        (λ y. broadcast_rules.broadcast alone y datagram.now) result out.new station.new beside.new }
    ensures agrees { Agrees station.new }
{
    out.clear();
    if station.halted() {
        return Err(BroadcastRefusal::Halted);
    }
    let Some(own) = station.ring().joined() else {
        return Err(BroadcastRefusal::NotJoined);
    };
    broadcast_from(own, station, beside, datagram, buffer, out)
}

// # Broadcasts that are heard

/// A broadcast as it stands in its body.
#[derive(Drop)]
pub(crate) struct BroadcastRef<'a> {
    pub(crate) hops: u8,
    pub(crate) origin: Short,
    pub(crate) number: u32,
    pub(crate) octets: OctetRef<'a>,
}

// The broadcast that a body is, if it is one.
fn broadcast_in<'a>(body: &'a [u8]) -> Option<BroadcastRef<'a>>
    ensures value { option_map broadcast_of result ≡ broadcasts.broadcast_in body.now }
    ensures fits { IfSome result (λ b. length b.octets ≤ 360) }
{
    let broadcast = read_broadcast(body)?;
    Some(BroadcastRef {
        hops: broadcast.hops,
        origin: broadcast.origin,
        number: broadcast.number,
        octets: OctetRef::new(&body[9..]),
    })
}

// Why a broadcast is not admitted.
fn broadcast_fault(
    own: Short,
    log: &BroadcastLog,
    broadcast: &BroadcastRef<'_>,
) -> Option<ReachDropped>
    ensures { result ≡ broadcast_rules.broadcast_fault own log.now (broadcast_of broadcast.now) }
{
    if broadcast.origin.number() == own.number() {
        return Some(ReachDropped::Old);
    }
    match log.room(broadcast.origin, broadcast.number) {
        Ok(()) => None,
        Err(LogFault::NumberSpent) => Some(ReachDropped::Old),
        Err(LogFault::Store) => Some(ReachDropped::Old),
        Err(LogFault::Old) => Some(ReachDropped::Old),
        Err(LogFault::OriginsFull) => Some(ReachDropped::OriginsFull),
    }
}

// The mark of the origin is kept. Where it can't be stored, the station is halted and the log is empty.
fn keep_mark(
    station: &mut Station<MemKeeper>,
    log: &mut BroadcastLog,
    broadcast: &BroadcastRef<'_>,
) -> bool
    requires kept { AgreesWith log.old station.old.store.records }
    requires room { room_for log.old.marks broadcast.now.origin broadcast.now.number ≡ Ok tt }
    requires agrees { Agrees station.old }
    ensures log { log.new ≡ (if result then admitted_log log.old broadcast.now.origin broadcast.now.number else empty_log) }
    ensures stores { Stores station.old.store (keep_write log.old.marks broadcast.now.origin broadcast.now.number) result
        station.new.store }
    ensures station { station.new ≡ record station.old {
      store = station.new.store;
      memory = if result then station.old.memory else None;
    } }
    ensures agrees { Agrees station.new }
{
    if log
        .admit(station.keeper_mut(), broadcast.origin, broadcast.number)
        .is_err()
    {
        station.halt();
        log.clear();
        return false;
    }
    true
}

// A broadcast that is not at fault is marked, and sent on while it has a hop more.
fn admit_broadcast(
    station: &mut Station<MemKeeper>,
    beside: &mut Beside,
    broadcast: &BroadcastRef<'_>,
    buffer: &mut FrameBuf,
    out: &mut Out,
) -> Result<(), ReachDropped>
    requires running { IsSome station.old.memory }
    requires joined { IfSome station.old.memory (λ l. IsSome l.ring) }
    requires agrees { Agrees station.old }
    requires kept { AgreesWith beside.old.log station.old.store.records }
    requires marks { room_for beside.old.log.marks broadcast.now.origin broadcast.now.number ≡ Ok tt }
    requires fits { length broadcast.now.octets ≤ 360 }
    requires room { length out.old.frames < 24 }
    ensures reaches { Reaches station.old beside.old (Err (Known drops.Store))
        (λ y. broadcast_rules.admits_broadcast alone y (broadcast_of broadcast.now))
        (handed_up (broadcast_of broadcast.now) result) out.old out.new station.new beside.new }
    ensures agrees { Agrees station.new }
{
    if broadcast.hops < 2 {
        if keep_mark(station, &mut beside.log, broadcast) {
            return Ok(());
        }
        out.clear();
        return Err(ReachDropped::Known(Dropped::Store));
    }
    if station.counters_left() == 0 {
        return Err(ReachDropped::Known(Dropped::CounterSpent));
    }
    if !keep_mark(station, &mut beside.log, broadcast) {
        out.clear();
        return Err(ReachDropped::Known(Dropped::Store));
    }
    write_broadcast(
        broadcast.hops - 1,
        broadcast.origin,
        broadcast.number,
        broadcast.octets.octets(),
        buffer,
    );
    let sent = send_local(station, &mut beside.log, 4, None, buffer.octets(), out);
    sent_on(sent)
}

// A broadcast is heard at the node of this address.
fn hear_broadcast(
    own: Short,
    station: &mut Station<MemKeeper>,
    beside: &mut Beside,
    broadcast: &BroadcastRef<'_>,
    buffer: &mut FrameBuf,
    out: &mut Out,
) -> Result<(), ReachDropped>
    requires running { IsSome station.old.memory }
    requires own { IfSome station.old.memory (λ l. address_of l ≡ Some own) }
    requires agrees { Agrees station.old }
    requires kept { AgreesWith beside.old.log station.old.store.records }
    requires fits { length broadcast.now.octets ≤ 360 }
    requires room { length out.old.frames < 24 }
    ensures reaches { Reaches station.old beside.old (Err (Known drops.Store))
        (λ y. broadcast_rules.hear_broadcast_in alone y own (Some (broadcast_of broadcast.now)))
        (handed_up (broadcast_of broadcast.now) result) out.old out.new station.new beside.new }
    ensures agrees { Agrees station.new }
{
    if let Some(fault) = broadcast_fault(own, &beside.log, broadcast) {
        return Err(fault);
    }
    admit_broadcast(station, beside, broadcast, buffer, out)
}

// What the report says of a broadcast, at the node of this number.
fn broadcast_reported<'a>(
    heard: Result<(), ReachDropped>,
    number: u16,
    broadcast: &BroadcastRef<'a>,
) -> Commanded<'a>
    ensures { ReportsCommand result number (handed_up (broadcast_of broadcast.now) heard) }
{
    match heard {
        Ok(()) => Commanded {
            answer: Answer::Bup,
            bup: Some(BroadcastUp {
                node: number,
                origin: broadcast.origin,
                number: broadcast.number,
                octets: OctetRef::new(broadcast.octets.octets()),
            }),
            path: None,
        },
        Err(reason) => commanded_of(dropped_word(reason)),
    }
}

// A broadcast is heard at the node of this number and address, which may not have gone to one node alone.
pub(crate) fn broadcast_command<'a>(
    number: u16,
    own: Short,
    station: &mut Station<MemKeeper>,
    beside: &mut Beside,
    command: &CommandRef<'a>,
    buffer: &mut FrameBuf,
    out: &mut Out,
) -> Commanded<'a>
    requires running { IsSome station.old.memory }
    requires own { IfSome station.old.memory (λ l. address_of l ≡ Some own) }
    requires agrees { Agrees station.old }
    requires kept { AgreesWith beside.old.log station.old.store.records }
    requires room { length out.old.frames < 24 }
    ensures reaches { ReachesCommand station.old beside.old
        (λ y. broadcast_rules.hear_broadcast alone y own command.now.to_all command.now.body) result number out.old out.new
        station.new beside.new }
    ensures agrees { Agrees station.new }
{
    if !command.to_all {
        return commanded_of(Answer::BadUnit);
    }
    let Some(broadcast) = broadcast_in(command.body.octets()) else {
        return commanded_of(Answer::BadUnit);
    };
    let heard = hear_broadcast(own, station, beside, &broadcast, buffer, out);
    broadcast_reported(heard, number, &broadcast)
}
