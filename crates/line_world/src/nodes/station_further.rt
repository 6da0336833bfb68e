//! What a station does about path requests, acknowledgements and the commands that it hears, halted or not.
ghost use Rattle.std.specs.Prelude.{◌≡◌, ◌≢◌, ◌<◌, ◌≤◌, ◌∷◌, [], length, is_some, Ok, Err, Some, None, IfNone, IfSome, IsSome, if◌then◌else◌};
ghost use Rattle.std.specs.Option.{option_map};
ghost use Rattle.broadcast_log.specs.Log.{empty_log, AgreesWith};
ghost use Rattle.node_rules.specs.declared.refusal.Dropped.TheVariants as drops;
ghost use Rattle.node_rules.specs.Agreement.{Agrees};
ghost use Rattle.node_rules.specs.CarriedPlans.{nothing};
ghost use Rattle.node_rules.specs.Drafts.{alone};
ghost use Rattle.node_rules.specs.Memory.{address_of, station_route};
ghost use Rattle.node_rules.specs.Neighbours.{CarriesAfter};
ghost use Rattle.node_rules.specs.Neighbours as local;
ghost use Rattle.path_requests.specs.Messages.{IsPath, path_spelling};
ghost use Rattle.path_requests.specs.PathSteps.{IsStep};
ghost use Rattle.reach_rules.specs.declared.heard.CommandHeard.TheVariants as commands;
ghost use Rattle.reach_rules.specs.declared.refusal.ReachDropped.TheVariants.{Known};
ghost use Rattle.reach_rules.specs.CheckedReplies as reply_rules;
ghost use Rattle.reach_rules.specs.PathRequests as path_rules;
ghost use Rattle.reach_rules.specs.FurtherReceptions as command_rules;
ghost use Rattle.line_rules.specs.Answers.{reach_drop_word};
ghost use Rattle.line_world.specs.FurtherOutcomes.{EndsCheck, Reaches, ReachesCommand, ReachesFirst, ReportsCommand, answer_as, command_of, path_heard};
ghost use Rattle.line_world.specs.FurtherOutcomes.{ended_by};
ghost use Rattle.plc_base.specs.declared.limits.TheConstants.{MOST_FRAMES};

use crate::beside::Beside;
use crate::nodes::command::{CommandRef, Commanded};
use crate::nodes::node_receptions::drop_word;
use crate::nodes::station_broadcasts::broadcast_command;
use broadcast_log::BroadcastLog;
use line_events::{Answer, PathLine};
use neighbour_checks::{Checks, read_ack, write_ack};
use node_rules::{Dropped, LocalRefusal, Reply};
use path_requests::{PathMessage, PathRefusal, PathStep, Walk, read_path, take_path, write_path};
use plc_base::{FrameBuf, MemKeeper, Out, Short};
use plc_station::Station;
use reach_rules::{AskRefusal, ReachDropped};

// # Commands that go out

// A halted station knows nothing of its log.
fn forget_if_halted(station: &Station<MemKeeper>, log: &mut BroadcastLog)
    ensures { log.new ≡ (if is_some station.now.memory then log.old else empty_log) }
{
    if station.halted() {
        log.clear();
    }
}

// A command goes to a neighbour, or to all where `to` is None, after the frames that `out` has.
pub(crate) fn send_local(
    station: &mut Station<MemKeeper>,
    log: &mut BroadcastLog,
    code: u8,
    to: Option<Short>,
    body: &[u8],
    out: &mut Out,
) -> Result<(), LocalRefusal>
    requires running { IsSome station.old.memory }
    requires joined { IfSome station.old.memory (λ l. IsSome l.ring) }
    requires agrees { Agrees station.old }
    requires code { 3 ≤ code }
    requires last_code { code ≤ 5 }
    requires some { 1 ≤ length body.now }
    requires fits { length body.now ≤ 379 }
    requires room { length out.old.frames < MOST_FRAMES }
    ensures carries { IfSome station.old.memory
        (λ l. CarriesAfter station.old (local.send_local l code to body.now) result out.old out.new station.new) }
    ensures agrees { Agrees station.new }
    ensures log { log.new ≡ (if is_some station.new.memory then log.old else empty_log) }
{
    let sent = station.send_local(code, to, body, out);
    forget_if_halted(station, log);
    sent
}

// How something ended that sends a command, with its words for why that was not sent.
pub(crate) fn ended_by<E: Copy + Drop>(
    spent: E,
    store: E,
    sent: Result<(), LocalRefusal>,
) -> Result<(), E>
    ensures { result ≡ ended_by spent store sent }
{
    match sent {
        Ok(()) => Ok(()),
        Err(LocalRefusal::CounterSpent) => Err(spent),
        Err(LocalRefusal::Halted | LocalRefusal::NotJoined | LocalRefusal::Store) => Err(store),
    }
}

// # Asking for a path

// A path message goes to a neighbour.
fn path_goes(
    station: &mut Station<MemKeeper>,
    log: &mut BroadcastLog,
    to: Short,
    message: &PathMessage,
    buffer: &mut FrameBuf,
    out: &mut Out,
) -> Result<(), LocalRefusal>
    requires path { IsPath message.now }
    requires running { IsSome station.old.memory }
    requires joined { IfSome station.old.memory (λ l. IsSome l.ring) }
    requires agrees { Agrees station.old }
    requires room { length out.old.frames < MOST_FRAMES }
    ensures carries { IfSome station.old.memory
        (λ l. CarriesAfter station.old (local.send_local l 5 (Some to) (path_spelling message.now)) result out.old out.new
        station.new) }
    ensures agrees { Agrees station.new }
    ensures log { log.new ≡ (if is_some station.new.memory then log.old else empty_log) }
{
    buffer.clear();
    write_path(message, buffer);
    send_local(station, log, 5, Some(to), buffer.octets(), out)
}

// The walk of one node.
fn walk_of(own: Short) -> Walk
    ensures { result ≡ own ∷ [] }
{
    let mut walk = Walk::new();
    walk.push(own);
    walk
}

// The ask for a node, from the node that begins it.
fn ask_of(own: Short, target: Short) -> PathMessage
    requires { target ≢ own }
    ensures value { result ≡ PathMessage.Ask target (own ∷ []) }
    ensures path { IsPath result }
{
    PathMessage::Ask {
        target,
        walk: walk_of(own),
    }
}

// The next hop of the valid route to an address.
fn hop_to(station: &Station<MemKeeper>, dest: Short) -> Option<Short>
    ensures { IfSome station.now.memory (λ l. result ≡ station_route l dest) }
{
    let (hop, _) = station.valid(dest)?;
    Some(hop)
}

// The way to another node is asked for. `buffer` is overwritten, and what goes out is in `out`.
pub(crate) fn ask_at(
    station: &mut Station<MemKeeper>,
    beside: &mut Beside,
    target: Short,
    buffer: &mut FrameBuf,
    out: &mut Out,
) -> Result<(), AskRefusal>
    requires agrees { Agrees station.old }
    ensures reaches { ReachesFirst station.old beside.old (Err AskRefusal.Halted)
        (λ y. path_rules.ask_path alone y target) result out.new station.new beside.new }
    ensures agrees { Agrees station.new }
{
    out.clear();
    if station.halted() {
        return Err(AskRefusal::Halted);
    }
    let Some(own) = station.ring().joined() else {
        return Err(AskRefusal::NotJoined);
    };
    if target.number() == own.number() {
        return Err(AskRefusal::ToSelf);
    }
    let Some(hop) = hop_to(station, target) else {
        return Err(AskRefusal::NoRoute);
    };
    let message = ask_of(own, target);
    let sent = path_goes(station, &mut beside.log, hop, &message, buffer, out);
    ended_by(AskRefusal::CounterSpent, AskRefusal::Store, sent)
}

// # Acknowledging

// A reply is acknowledged to the neighbour that sent it, after the frames that `out` has. `buffer` is overwritten.
pub(crate) fn acknowledge_at(
    station: &mut Station<MemKeeper>,
    reply: Reply,
    buffer: &mut FrameBuf,
    out: &mut Out,
) -> Result<(), LocalRefusal>
    requires number { 0 < reply.number }
    requires agrees { Agrees station.old }
    requires joined { IfSome station.old.memory (λ l. IsSome l.ring) }
    requires room { length out.old.frames < MOST_FRAMES }
    ensures stayed { IfNone station.old.memory
        ((result ≡ Err LocalRefusal.Store) × ((out.new ≡ nothing) × (station.new ≡ station.old))) }
    ensures carries { IfSome station.old.memory
        (λ l. CarriesAfter station.old (reply_rules.acknowledges alone reply.to reply.number reply.origin l) result out.old out.new
        station.new) }
    ensures agrees { Agrees station.new }
{
    if station.halted() {
        out.clear();
        return Err(LocalRefusal::Store);
    }
    buffer.clear();
    write_ack(reply.number, reply.origin, buffer);
    station.send_local(3, Some(reply.to), buffer.octets(), out)
}

// The reply that a station gives as its last one.
pub(crate) fn reply_of(last: Option<(Short, u16, Short)>) -> Option<Reply>
    ensures { option_map (λ r. (r.to, r.number, r.origin)) result ≡ last }
{
    let (to, number, origin) = last?;
    Some(Reply { to, number, origin })
}

// # Acknowledgements that are heard

// An acknowledgement ends a check.
fn hear_acknowledgement(checks: &mut Checks, command: &CommandRef<'_>) -> Result<(), ReachDropped>
    ensures { EndsCheck checks.old (command_of command.now) result checks.new }
{
    if command.to_all {
        return Err(ReachDropped::Known(Dropped::BadUnit));
    }
    let Some(ack) = read_ack(command.body.octets()) else {
        return Err(ReachDropped::Known(Dropped::BadUnit));
    };
    if checks.acked(command.from, ack.0, ack.1).is_err() {
        return Err(ReachDropped::NotAwaited);
    }
    Ok(())
}

// How a command that was heard ended.
pub(crate) fn sent_on(sent: Result<(), LocalRefusal>) -> Result<(), ReachDropped>
    ensures { result ≡ ended_by (Known drops.CounterSpent) (Known drops.Store) sent }
{
    let spent = ReachDropped::Known(Dropped::CounterSpent);
    ended_by(spent, ReachDropped::Known(Dropped::Store), sent)
}

// # Path messages that are heard

/// What a node made of a path message.
#[derive(Drop)]
pub(crate) enum PathHeard {
    /// It goes on.
    Relayed,
    /// It has come to its target, and a tell goes back.
    Answered,
    /// The tell has come back to the node that asked.
    Path {
        /// The nodes of the way.
        walk: Walk,
    },
}

// The next hop of the valid route to the target of an ask.
fn next_toward(station: &Station<MemKeeper>, message: &PathMessage) -> Option<Short>
    ensures { IfSome station.now.memory (λ l. result ≡ path_rules.next_toward l message.now) }
{
    match message {
        PathMessage::Ask { target, .. } => hop_to(station, *target),
        PathMessage::Tell { .. } => None,
    }
}

// Why a path message is dropped.
fn path_word(reason: PathRefusal) -> ReachDropped
    ensures { result ≡ path_rules.path_word reason }
{
    match reason {
        PathRefusal::BadUnit => ReachDropped::Known(Dropped::BadUnit),
        PathRefusal::NoRoute => ReachDropped::Known(Dropped::NoRoute),
        PathRefusal::Revisited => ReachDropped::Revisited,
        PathRefusal::PathLong => ReachDropped::PathLong,
    }
}

// How a path message that goes out ended.
fn path_sent(heard: PathHeard, sent: Result<(), ReachDropped>) -> Result<PathHeard, ReachDropped>
    ensures { result ≡ answer_as (λ _. heard) sent }
{
    match sent {
        Ok(()) => Ok(heard),
        Err(reason) => Err(reason),
    }
}

// What becomes of a path message that is taken: it goes on, is answered, or has come back.
fn follow_step(
    station: &mut Station<MemKeeper>,
    beside: &mut Beside,
    step: &PathStep,
    buffer: &mut FrameBuf,
    out: &mut Out,
) -> Result<PathHeard, ReachDropped>
    requires step { IsStep step.now }
    requires running { IsSome station.old.memory }
    requires joined { IfSome station.old.memory (λ l. IsSome l.ring) }
    requires agrees { Agrees station.old }
    requires room { length out.old.frames < MOST_FRAMES }
    ensures reaches { Reaches station.old beside.old (Err (Known drops.Store))
        (λ y. path_rules.follows_path alone y (Ok step.now)) (answer_as path_heard result) out.old out.new station.new
        beside.new }
    ensures agrees { Agrees station.new }
{
    match step {
        PathStep::Forward { to, message } => {
            let sent = path_goes(station, &mut beside.log, *to, message, buffer, out);
            path_sent(PathHeard::Relayed, sent_on(sent))
        }
        PathStep::Answer { to, message } => {
            let sent = path_goes(station, &mut beside.log, *to, message, buffer, out);
            path_sent(PathHeard::Answered, sent_on(sent))
        }
        PathStep::Done { walk } => Ok(PathHeard::Path {
            walk: walk.copied(),
        }),
    }
}

// A path message is heard at the node of this address.
fn hear_path(
    own: Short,
    station: &mut Station<MemKeeper>,
    beside: &mut Beside,
    command: &CommandRef<'_>,
    buffer: &mut FrameBuf,
    out: &mut Out,
) -> Result<PathHeard, ReachDropped>
    requires running { IsSome station.old.memory }
    requires own { IfSome station.old.memory (λ l. address_of l ≡ Some own) }
    requires agrees { Agrees station.old }
    requires room { length out.old.frames < MOST_FRAMES }
    ensures reaches { Reaches station.old beside.old (Err (Known drops.Store))
        (λ y. path_rules.hear_path alone y own command.now.from command.now.to_all command.now.body)
        (answer_as path_heard result) out.old out.new station.new beside.new }
    ensures agrees { Agrees station.new }
{
    if command.to_all {
        return Err(ReachDropped::Known(Dropped::BadUnit));
    }
    let Some(message) = read_path(command.body.octets()) else {
        return Err(ReachDropped::Known(Dropped::BadUnit));
    };
    let next = next_toward(station, &message);
    match take_path(own, command.from, next, &message) {
        Err(reason) => Err(path_word(reason)),
        Ok(step) => follow_step(station, beside, &step, buffer, out),
    }
}

// # What the report says of a command

// A command that led to nothing but a word.
pub(crate) fn commanded_of(answer: Answer) -> Commanded<'static>
    ensures { result ≡ record { answer = answer; bup = None; path = None } }
{
    Commanded {
        answer,
        bup: None,
        path: None,
    }
}

// The word of a command that was dropped.
pub(crate) fn dropped_word(reason: ReachDropped) -> Answer
    ensures { result ≡ reach_drop_word reason }
{
    match reason {
        ReachDropped::Known(reason) => drop_word(reason),
        ReachDropped::Blacklisted => Answer::Blacklisted,
        ReachDropped::NotAwaited => Answer::NotAwaited,
        ReachDropped::Old => Answer::Old,
        ReachDropped::OriginsFull => Answer::OriginsFull,
        ReachDropped::Revisited => Answer::Revisited,
        ReachDropped::PathLong => Answer::PathLong,
    }
}

// What the report says of an acknowledgement.
fn acknowledgement_reported(heard: Result<(), ReachDropped>, number: u16) -> Commanded<'static>
    ensures { ReportsCommand result number (answer_as (λ _. commands.Acked) heard) }
{
    match heard {
        Ok(()) => commanded_of(Answer::Acked),
        Err(reason) => commanded_of(dropped_word(reason)),
    }
}

// What the report says of a path message that was taken.
fn path_words(heard: PathHeard, number: u16) -> Commanded<'static>
    ensures { ReportsCommand result number (Ok (path_heard heard)) }
{
    match heard {
        PathHeard::Relayed => commanded_of(Answer::Relayed),
        PathHeard::Answered => commanded_of(Answer::Answered),
        PathHeard::Path { walk } => Commanded {
            answer: Answer::Path,
            bup: None,
            path: Some(PathLine { node: number, walk }),
        },
    }
}

// What the report says of a path message, at the node of this number.
fn path_reported(heard: Result<PathHeard, ReachDropped>, number: u16) -> Commanded<'static>
    ensures { ReportsCommand result number (answer_as path_heard heard) }
{
    match heard {
        Ok(heard) => path_words(heard, number),
        Err(reason) => commanded_of(dropped_word(reason)),
    }
}

// A command is heard, by its code, at the node of this number and address.
fn hear_command<'a>(
    number: u16,
    own: Short,
    station: &mut Station<MemKeeper>,
    beside: &mut Beside,
    command: &CommandRef<'a>,
    buffer: &mut FrameBuf,
    out: &mut Out,
) -> Commanded<'a>
    requires running { IsSome station.old.memory }
    requires own { IfSome station.old.memory (λ l. address_of l ≡ Some own) }
    requires agrees { Agrees station.old }
    requires kept { AgreesWith beside.old.log station.old.store.records }
    requires room { length out.old.frames < MOST_FRAMES }
    ensures reaches { ReachesCommand station.old beside.old
        (λ y. command_rules.hear_command_at alone y own (command_of command.now)) result number out.old out.new station.new
        beside.new }
    ensures agrees { Agrees station.new }
{
    if command.code == 3 {
        let heard = hear_acknowledgement(&mut beside.checks, command);
        return acknowledgement_reported(heard, number);
    }
    if command.code == 4 {
        return broadcast_command(number, own, station, beside, command, buffer, out);
    }
    if command.code == 5 {
        let heard = hear_path(own, station, beside, command, buffer, out);
        return path_reported(heard, number);
    }
    commanded_of(Answer::BadUnit)
}

// A command is heard at the node of this number. What goes out comes after what `out` has, and `buffer` is overwritten.
pub(crate) fn hear_command_at<'a>(
    number: u16,
    station: &mut Station<MemKeeper>,
    beside: &mut Beside,
    command: &CommandRef<'a>,
    buffer: &mut FrameBuf,
    out: &mut Out,
) -> Commanded<'a>
    requires agrees { Agrees station.old }
    requires kept { IfSome station.old.memory (λ _. AgreesWith beside.old.log station.old.store.records) }
    requires room { length out.old.frames < MOST_FRAMES }
    ensures reaches { ReachesCommand station.old beside.old
        (λ y. command_rules.hear_command alone y (command_of command.now)) result number out.old out.new station.new beside.new }
    ensures agrees { Agrees station.new }
{
    if station.halted() {
        out.clear();
        return commanded_of(Answer::Store);
    }
    let Some(own) = station.ring().joined() else {
        return commanded_of(Answer::BadUnit);
    };
    hear_command(number, own, station, beside, command, buffer, out)
}
