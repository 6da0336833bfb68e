//! Checks of neighbours, broadcasts and path requests.
ghost use Rattle.std.specs.Prelude.{◌≡◌, ◌==◌, ◌<◌, true, false, length, Ok, None, Some, IfSome, IsSome, is_some, slice_get, if◌then◌else◌};
ghost use Rattle.std.specs.Option.{option_and_then, option_map};
ghost use Rattle.loadng_messages.specs.Grammar as messages;
ghost use Rattle.loadng_messages.specs.Reader as reader;
ghost use Rattle.mesh_header.specs.Reader as units;
ghost use Rattle.node_rules.specs.Ciphers.{network};
ghost use Rattle.node_rules.specs.Replies.{route_message};
ghost use Rattle.reach_rules.specs.CheckedReplies as replies;
ghost use Rattle.reach_rules.specs.FurtherReceptions.{command_of as further_command, command_on};
ghost use Rattle.line_events.specs.declared.event.TheConstants.{MAX_EVENTS};
ghost use Rattle.line_rules.specs.Answers as words;
ghost use Rattle.line_rules.specs.Further as further;
ghost use Rattle.line_rules.specs.Logs.{LogsKept};
ghost use Rattle.line_world.specs.Arrivals.{Acknowledges, outcome_of_further, outcome_of_command, in_run, is_stored, outcome_of_unbelieved, with_check_of};
ghost use Rattle.line_world.specs.Bounds.{IsBounded};
ghost use Rattle.line_world.specs.Lines.{HasRoom, world_of};
ghost use Rattle.line_world.specs.FurtherOutcomes as further_outcomes;
ghost use Rattle.line_world.specs.Ready.{ReadyToHear};
ghost use Rattle.line_world.specs.Steps.{Steps, has_address};
ghost use Rattle.plc_base.specs.declared.limits.TheConstants.{MOST_FRAMES};

use crate::line::Line;
use crate::nodes::{CommandRef, command_on, reception_of};
use line_events::{Answer, Happenings, StepFault};
use line_flights::Origin;
use loadng_messages::{Message, read_message};
use mesh_header::{Unit, read_unit};
use neighbour_checks::Checks;
use node_rules::{LocalRefusal, Path, Reply};
use plc_base::{DatagramBuf, LinkCost, Short};
use plc_station::Accepted;
use reach_rules::{AskRefusal, BroadcastRefusal};

fn broadcast_word(sent: Result<(), BroadcastRefusal>) -> Answer
    ensures { result ≡ words.broadcast_word sent }
{
    match sent {
        Ok(()) => Answer::Sent,
        Err(BroadcastRefusal::Halted) => Answer::Halted,
        Err(BroadcastRefusal::NotJoined) => Answer::NotJoined,
        Err(BroadcastRefusal::BadSize) => Answer::BadSize,
        Err(BroadcastRefusal::NumberSpent) => Answer::NumberSpent,
        Err(BroadcastRefusal::CounterSpent) => Answer::CounterSpent,
        Err(BroadcastRefusal::Store) => Answer::Store,
    }
}

fn ask_word(asked: Result<(), AskRefusal>) -> Answer
    ensures { result ≡ words.ask_word asked }
{
    match asked {
        Ok(()) => Answer::Traced,
        Err(AskRefusal::Halted) => Answer::Halted,
        Err(AskRefusal::NotJoined) => Answer::NotJoined,
        Err(AskRefusal::ToSelf) => Answer::ToSelf,
        Err(AskRefusal::NoRoute) => Answer::NoRoute,
        Err(AskRefusal::CounterSpent) => Answer::CounterSpent,
        Err(AskRefusal::Store) => Answer::Store,
    }
}

// The unit of an accepted frame, if it carries one.
fn unit_of<'a>(got: &Accepted<'a>) -> Option<Unit<'a>>
    ensures { result ≡ units.unit_in got.now.payload }
{
    match read_unit(got.payload()) {
        Ok(unit) => Some(unit),
        Err(_) => None,
    }
}

// The command that an accepted frame carries, if it carries one.
fn command_in<'a>(got: &Accepted<'a>, unit: &Option<Unit<'a>>) -> Option<CommandRef<'a>>
    ensures { option_map further_outcomes.command_of result ≡ command_on got.now.path unit.now }
{
    command_on(&got.path(), unit)
}

// The message that the body of a command 01 is, if it is one.
fn message_in(code: u8, body: &[u8]) -> Option<Message>
    ensures value { result ≡ (if code == 1 then reader.message_in body.now else None) }
    ensures allowed { IfSome result (λ m. messages.IsAllowed m) }
{
    if code != 1 {
        return None;
    }
    match read_message(body) {
        Ok(message) => Some(message),
        Err(_) => None,
    }
}

// The route message that a unit carries, if it carries one.
fn message_of(unit: &Option<Unit<'_>>) -> Option<Message>
    ensures value { result ≡ option_and_then route_message unit.now }
    ensures allowed { IfSome result (λ m. messages.IsAllowed m) }
{
    match unit {
        Some(Unit::Local { code, body }) => message_in(*code, body.octets()),
        Some(Unit::Whole { .. }) => None,
        Some(Unit::Part { .. }) => None,
        Some(Unit::Carried { .. }) => None,
        None => None,
    }
}

// Whether a message is the request of a listed neighbour.
fn asks_unbelieved(checks: &Checks, from: Short, message: &Option<Message>) -> bool
    ensures { result ≡ replies.asks_unbelieved checks.now from message.now }
{
    match message {
        Some(Message::Rreq { .. }) => checks.listed(from),
        Some(Message::Rrep { .. }) => false,
        Some(Message::Rerr { .. }) => false,
        None => false,
    }
}

// Whether a frame is the request to all of a listed neighbour.
fn is_unbelieved(checks: &Checks, path: &Path, message: &Option<Message>) -> bool
    ensures { result ≡ replies.is_unbelieved checks.now path.now message.now }
{
    match path {
        Path::Sealed {
            from,
            to_all: true,
            ..
        } => asks_unbelieved(checks, *from, message),
        Path::Sealed { to_all: false, .. } => false,
        Path::Up { .. } => false,
        Path::Down { .. } => false,
    }
}

// The acknowledgement that a reply is due, where it is taken.
fn due_of(from: Short, message: &Option<Message>) -> Option<Reply>
    requires allowed { IfSome message.now (λ m. messages.IsAllowed m) }
    ensures value { result ≡ further.due_of from message.now }
    ensures number { IfSome result (λ r. 0 < r.number) }
{
    match message {
        Some(Message::Rrep { number, origin, .. }) => Some(Reply {
            to: from,
            number: *number,
            origin: *origin,
        }),
        Some(Message::Rreq { .. }) => None,
        Some(Message::Rerr { .. }) => None,
        None => None,
    }
}

// Whether a reply was taken.
fn is_reply_taken(answer: Answer) -> bool
    ensures { result ≡ further.is_reply_taken answer }
{
    matches!(answer, Answer::Learned | Answer::Relayed)
}

// The acknowledgement that is due for a frame: of a reply that came to one node and was taken.
fn due(path: &Path, message: &Option<Message>, answer: Answer) -> Option<Reply>
    requires allowed { IfSome message.now (λ m. messages.IsAllowed m) }
    ensures value { result ≡ further.due path.now message.now answer }
    ensures number { IfSome result (λ r. 0 < r.number) }
{
    if !is_reply_taken(answer) {
        return None;
    }
    match path {
        Path::Sealed {
            from,
            to_all: false,
            ..
        } => due_of(*from, message),
        Path::Sealed { to_all: true, .. } => None,
        Path::Up { .. } => None,
        Path::Down { .. } => None,
    }
}

// The reply that a node sent, which only a route message brings.
fn reply_of(message: &Option<Message>, replied: Option<Reply>) -> Option<Reply>
    ensures { result ≡ (if is_some message.now then replied else None) }
{
    if message.is_none() {
        return None;
    }
    replied
}

// Whether no write failed.
fn is_stored(sent: &Result<(), LocalRefusal>) -> bool
    ensures { result ≡ is_stored sent.now }
{
    match sent {
        Ok(()) => true,
        Err(LocalRefusal::NotJoined | LocalRefusal::CounterSpent) => true,
        Err(LocalRefusal::Halted | LocalRefusal::Store) => false,
    }
}

impl Line {
    /// Neighbours are checked from now on.
    pub(crate) fn checks(&mut self) -> Result<Happenings<'static>, StepFault>
        requires bounds { IsBounded (world_of self.old) }
        requires events { self.old.events < MAX_EVENTS }
        ensures { Steps false (world_of self.old) result (world_of self.new) (further.checks (world_of self.old)) }
    {
        if !self.takes_setup() {
            return Err(StepFault::Setup);
        }
        if self.checks_on {
            return Err(StepFault::Setup);
        }
        self.set_up();
        self.checks_on = true;
        Ok(self.happenings(Answer::Set))
    }

    /// A node sends a datagram to all.
    pub(crate) fn bcast(
        &mut self,
        node: u32,
        datagram: &[u8],
    ) -> Result<Happenings<'static>, StepFault>
        requires bounds { IsBounded (world_of self.old) }
        requires beside { length self.old.beside.items ≡ length self.old.nodes }
        requires logs { LogsKept (world_of self.old) }
        requires events { self.old.events < MAX_EVENTS }
        ensures { Steps true (world_of self.old) result (world_of self.new)
            (further.bcast network (world_of self.old) node datagram.now) }
    {
        let number = self.node(node)?;
        self.reserve()?;
        let sent = self.nodes.broadcast(
            number,
            &mut self.beside[number],
            datagram,
            &mut self.body,
            &mut self.out,
        );
        Ok(self.node_outcome(number, broadcast_word(sent)))
    }

    /// A node asks for the way to a node.
    pub(crate) fn path(&mut self, from: u32, to: u32) -> Result<Happenings<'static>, StepFault>
        requires bounds { IsBounded (world_of self.old) }
        requires beside { length self.old.beside.items ≡ length self.old.nodes }
        requires logs { LogsKept (world_of self.old) }
        requires events { self.old.events < MAX_EVENTS }
        ensures { Steps (has_address (world_of self.old) to) (world_of self.old) result (world_of self.new)
            (further.path network (world_of self.old) from to) }
    {
        let from = self.node(from)?;
        let to = self.node(to)?;
        let Some(target) = self.nodes.address(to) else {
            return Ok(self.answered(Answer::NoAddress));
        };
        self.reserve()?;
        let asked = self.nodes.ask(
            from,
            &mut self.beside[from],
            target,
            &mut self.body,
            &mut self.out,
        );
        Ok(self.node_outcome(from, ask_word(asked)))
    }

    // The request of a listed neighbour is dropped.
    fn unbelieved(&mut self, node: usize, origin: Origin) -> Happenings<'static>
        requires room { HasRoom self.old }
        requires there { node < length self.old.nodes }
        requires bounds { IsBounded (in_run (world_of self.old)) }
        requires events { self.old.events < MAX_EVENTS }
        ensures { IfSome (slice_get self.old.nodes node) (λ x. Steps true (world_of self.old) (Ok result)
            (world_of self.new) (Ok (outcome_of_unbelieved network (world_of self.old) node x origin))) }
    {
        self.out.clear();
        let forged = self.is_forged(origin);
        self.received(node, forged, &reception_of(Answer::Blacklisted, None))
    }

    // A node hears a command for its neighbours.
    fn commanded<'a>(
        &mut self,
        node: usize,
        got: Accepted<'a>,
        command: &CommandRef<'a>,
        origin: Origin,
        cost: LinkCost,
        datagram: &'a mut DatagramBuf,
    ) -> Happenings<'a>
        requires ready { ReadyToHear self.old node got }
        requires command { further_command got ≡ Some (further_outcomes.command_of command.now) }
        ensures { IfSome (slice_get self.old.nodes node) (λ x. Steps true (world_of self.old) (Ok result) (world_of self.new)
            (Ok (outcome_of_command network (world_of self.old) node x got.entry origin cost (Some (further_outcomes.command_of command.now))))) }
    {
        let reported = self.nodes.hear(
            node,
            got,
            cost,
            origin.note,
            self.clock,
            datagram,
            &mut self.out,
        );
        let forged = self.is_forged(origin);
        let commanded = self.nodes.hear_command(
            node,
            &mut self.beside[node],
            command,
            &mut self.body,
            &mut self.out,
        );
        let mut happenings = self.received(node, forged, &reported);
        happenings.answer = commanded.answer;
        happenings.bup = commanded.bup;
        happenings.path = commanded.path;
        happenings
    }

    // The reply that the node sent begins a check, if it sent one.
    fn begin_check(&mut self, node: usize, sent: Option<Reply>)
        requires there { node < length self.old.beside.items }
        ensures world { world_of self.new ≡ with_check_of (world_of self.old) node sent }
        ensures flights { self.new.flights ≡ self.old.flights }
        ensures made { self.new.made ≡ self.old.made }
        ensures out { self.new.out ≡ self.old.out }
    {
        let Some(reply) = sent else {
            return;
        };
        self.beside[node]
            .checks
            .reply_sent(reply.to, reply.number, reply.origin, self.clock);
    }

    // An acknowledgement goes out, if one is due. Whether no write failed by it.
    fn acknowledged(&mut self, node: usize, due: Option<Reply>) -> bool
        requires there { node < length self.old.nodes }
        requires number { IfSome due (λ r. 0 < r.number) }
        requires joined { IsSome due → IfSome (slice_get self.old.nodes node) (λ x. IfSome x.memory (λ m. IsSome m.station.ring)) }
        requires room { IsSome due → length self.old.out.frames < MOST_FRAMES }
        ensures acknowledges { IfSome (slice_get self.old.nodes node) (λ x. Acknowledges (world_of self.old) node x due self.old.out result
            self.new.out (world_of self.new)) }
        ensures flights { self.new.flights ≡ self.old.flights }
        ensures made { self.new.made ≡ self.old.made }
    {
        let Some(reply) = due else {
            return true;
        };
        let sent = self
            .nodes
            .acknowledge(node, reply, &mut self.body, &mut self.out);
        is_stored(&sent)
    }

    // A node hears a frame that carries no command for its neighbours, where these are checked.
    fn checked<'a>(
        &mut self,
        node: usize,
        got: Accepted<'a>,
        message: &Option<Message>,
        origin: Origin,
        cost: LinkCost,
        datagram: &'a mut DatagramBuf,
    ) -> Happenings<'a>
        requires ready { ReadyToHear self.old node got }
        requires message { message.now ≡ replies.message_of got }
        requires allowed { IfSome message.now (λ m. messages.IsAllowed m) }
        requires checks { self.old.checks_on ≡ true }
        requires plain { further_command got ≡ None }
        ensures { IfSome (slice_get self.old.nodes node) (λ x. Steps true (world_of self.old) (Ok result) (world_of self.new)
            (Ok (outcome_of_further network (world_of self.old) node x got.entry origin cost))) }
    {
        let path = got.path();
        if is_unbelieved(&self.beside[node].checks, &path, message) {
            return self.unbelieved(node, origin);
        }
        let reported = self.nodes.hear(
            node,
            got,
            cost,
            origin.note,
            self.clock,
            datagram,
            &mut self.out,
        );
        let forged = self.is_forged(origin);
        if !self.acknowledged(node, due(&path, message, reported.answer)) {
            return self.received(node, forged, &reception_of(Answer::Store, None));
        }
        self.begin_check(node, reply_of(message, reported.replied));
        self.received(node, forged, &reported)
    }

    /// A node hears a frame that it accepted, under the note with which its octets were sent.
    pub(crate) fn heard_further<'a>(
        &mut self,
        node: usize,
        got: Accepted<'a>,
        origin: Origin,
        cost: LinkCost,
        datagram: &'a mut DatagramBuf,
    ) -> Happenings<'a>
        requires ready { ReadyToHear self.old node got }
        ensures { IfSome (slice_get self.old.nodes node) (λ x. Steps true (world_of self.old) (Ok result) (world_of self.new)
            (Ok (outcome_of_further network (world_of self.old) node x got.entry origin cost))) }
    {
        let unit = unit_of(&got);
        if let Some(command) = command_in(&got, &unit) {
            return self.commanded(node, got, &command, origin, cost, datagram);
        }
        if self.checks_on {
            let message = message_of(&unit);
            return self.checked(node, got, &message, origin, cost, datagram);
        }
        self.heard(node, got, origin, cost, datagram)
    }
}
