//! Joining messages that go to the coordinator in commands.
ghost use Rattle.std.specs.Prelude.{◌≡◌, ◌<◌, ◌≤◌, ◌++◌, ◌∷◌, [], Ok, Err, IfSome, IsSome, MatchResult, length, Some};
ghost use Rattle.joining_messages.specs.Messages.{IsMessage};
ghost use Rattle.node_rules.specs.Ciphers.{network};
ghost use Rattle.node_rules.specs.Frames.{spelled};
ghost use Rattle.node_rules.specs.Frames as frames;
ghost use Rattle.node_rules.specs.JoiningPackets.{command_of, message};
ghost use Rattle.plc_base.specs.declared.limits.TheConstants.{MOST_FRAMES};
ghost use Rattle.joining_messages.specs.declared.message.JoinBody.TheVariants as body;
ghost use Rattle.node_rules.specs.Meters as meters;
ghost use Rattle.node_rules.specs.HearingRules.{dropped, dropped_for};
ghost use Rattle.node_rules.specs.CarriedPlans.{Carries};
ghost use Rattle.plc_station.specs.Ready.{After, ReadyToAnswer};
ghost use Rattle.meter_node.specs.MeterCalls.{MeterAfter};
ghost use Rattle.meter_node.specs.SendingUp.{SentBeside};
ghost use Rattle.node_rules.specs.Agreement.{Agrees};
ghost use Rattle.node_rules.specs.Calls.{command_fault};
ghost use Rattle.node_rules.specs.ComposedPlans.{HasRoom};
ghost use Rattle.meter_node.specs.MeterStates.{node_of};
ghost use Rattle.meter_node.specs.MeterAnswers as meter_answers;

use crate::meter::Meter;
use crate::relaying::goes_up;
use joining_base::{CommandBuf, command_length, dropped_send, push_up, write_command};
use joining_messages::{JoinBody, JoinMessage};
use node_rules::{Dropped, MeterHeard, SendRefusal, SentHow};
use plc_base::{EapBuf, Eui, Keeper, Out, Short};
use plc_station::Station;
use std::mem::take;

// The address of the coordinator.
fn coordinator() -> Short
    ensures { result ≡ 0 }
{
    Short::new(0).unwrap()
}

// The message of a node that answers a challenge.
fn join_with(eui: Eui, eap: EapBuf) -> JoinMessage
    ensures value { result ≡ message eui (body.Join eap) }
    ensures valid { IsMessage result }
{
    JoinMessage {
        eui,
        body: JoinBody::Join { eap },
    }
}

// Writes the command that carries a message.
fn write_up(message: &JoinMessage, command: &mut CommandBuf)
    requires { IsMessage message.now }
    ensures command { command.new ≡ command_of message.now }
    ensures some { 1 ≤ length command.new }
    ensures fits { length command.new ≤ 138 }
{
    write_command(message, command);
}

// What a command lacks, as the reason of a drop.
fn room_as(done: Result<(), SendRefusal>) -> Result<(), Dropped>
    ensures { result ≡ meter_answers.room_as done }
{
    match done {
        Ok(()) => Ok(()),
        Err(reason) => Err(dropped_send(reason)),
    }
}

// Writes the command that carries a node's answer to a challenge. Its message is on the stack here alone.
fn write_answer(eui: Eui, eap: &EapBuf, command: &mut CommandBuf)
    ensures command { command.new ≡ command_of (message eui (body.Join eap.now)) }
    ensures some { 1 ≤ length command.new }
    ensures fits { length command.new ≤ 138 }
{
    write_up(&join_with(eui, eap.copied()), command);
}

// Appends the plain frame that carries a node's answer to a challenge up to an agent. Its message is on the stack here alone.
pub(crate) fn push_answer(eui: Eui, eap: &EapBuf, agent: Short, from: Eui, out: &mut Out)
    requires room { length out.old.frames < MOST_FRAMES }
    ensures { out.new ≡ record out.old {
      frames = out.old.frames ++ spelled network (frames.Up agent from (message eui (body.Join eap.now))) ∷ [];
    } }
{
    push_up(&join_with(eui, eap.copied()), agent, from, out);
}

// Has a station send its answer to a challenge to the coordinator, with the pair tags of the step in `out`: where a put fails only those that were
// checked go out. They are put aside meanwhile, since what a station sends replaces all that `out` holds.
pub(crate) fn send_answer<K: Keeper + Drop>(
    station: &mut Station<K>,
    eap: &EapBuf,
    now: u64,
    out: &mut Out,
) -> Result<SentHow, SendRefusal>
    requires agrees { Agrees station.old }
    ensures sent { SentBeside station.old (command_of (message station.old.eui (body.Join eap.now))) now out.old.tags
        result out.new station.new }
    ensures after { After station.old station.new }
{
    let mut command = CommandBuf::new();
    write_answer(station.eui(), eap, &mut command);
    let mut tags = take(&mut out.tags);
    match station.send_command(coordinator(), command.octets(), now, out) {
        Ok(how) => {
            out.tags = tags;
            return Ok(how);
        }
        Err(reason) => {
            tags.made.clear();
            out.tags = tags;
            return Err(reason);
        }
    }
}

impl<K: Keeper + Drop> Meter<K> {
    // What the command with a message to the coordinator would be dropped for, where the meter is joined.
    fn room(&self, message: &JoinMessage) -> Result<(), Dropped>
        requires joined { IfSome self.now.station.memory (λ l. IsSome l.ring) }
        requires message { IsMessage message.now }
        ensures { IfSome self.now.station.memory (λ l. MatchResult result (λ _. HasRoom l 0 (length (command_of message.now)))
            (λ reason. command_fault dropped dropped_for l 0 (length (command_of message.now)) ≡ Some reason)) }
    {
        let done = self.station.room(coordinator(), command_length(message));
        room_as(done)
    }

    // What the command with an answer to a challenge would be dropped for, where the meter is joined.
    pub(crate) fn answer_room(&self, eap: &EapBuf) -> Result<(), Dropped>
        requires joined { IfSome self.now.station.memory (λ l. IsSome l.ring) }
        ensures { IfSome self.now.station.memory (λ l. MatchResult result
            (λ _. HasRoom l 0 (length (command_of (message self.now.station.eui (body.Join eap.now)))))
            (λ reason. command_fault dropped dropped_for l 0
            (length (command_of (message self.now.station.eui (body.Join eap.now)))) ≡ Some reason)) }
    {
        let join = join_with(self.station.eui(), eap.copied());
        self.room(&join)
    }

    // Carries the JOIN of a neighbour up to the coordinator.
    pub(crate) fn carry_up(
        &mut self,
        from: Eui,
        join: &JoinMessage,
        now: u64,
        out: &mut Out,
    ) -> Result<MeterHeard<'static>, Dropped>
        requires ready { ReadyToAnswer self.old.station out.old }
        requires joined { IfSome self.old.station.memory (λ l. IsSome l.ring) }
        requires message { IsMessage join.now }
        ensures carries { IfSome (node_of self.old).memory (λ m. Carries (node_of self.old)
            (meters.carry_up m from join.now join.now.body now) result out.new (node_of self.new)) }
        ensures after { MeterAfter self.old self.new }
    {
        if !goes_up(&join.body) {
            return Err(Dropped::BadUnit);
        }
        if join.eui.number() != from.number() {
            return Err(Dropped::BadUnit);
        }
        self.room(join)?;
        let mut command = CommandBuf::new();
        write_up(join, &mut command);
        let Ok(_) = self
            .station
            .send_command(coordinator(), command.octets(), now, out)
        else {
            return Err(Dropped::Store);
        };
        Ok(MeterHeard::Carried)
    }
}
