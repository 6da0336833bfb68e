//! What the owner does at each task, after each command, and at what it notices.
ghost use Rattle.std.specs.Prelude.{◌≡◌, IfOk};
ghost use Rattle.line_owner.specs.Turns.{turn, joins_line, books, receives, taken, telling_refused, refused, telling_failed, failed, answered};
ghost use Rattle.line_owner.specs.Turns.{told_to_leave, will_tear, noticed};

use crate::owner::Owner;
use crate::{Act, Acts, Command, Kind, Message, Notice, Outcome, Saying, Task, more};
use line_place::Place;
use std::alloc::AllocError;

impl Owner {
    // A node is joined, and in the book.
    fn join_line(&mut self, node: u32) -> Acts
        ensures owner { self.new ≡ (joins_line node self.old).owner }
        ensures acts { result ≡ (joins_line node self.old).acts }
    {
        let mut member = self.member(node);
        member.joined = true;
        member.booked = true;
        self.set_member(node, member);
        Acts::Nothing
    }

    fn book(&mut self, node: u32) -> Acts
        ensures owner { self.new ≡ (books node self.old).owner }
        ensures acts { result ≡ (books node self.old).acts }
    {
        let mut member = self.member(node);
        member.booked = true;
        self.set_member(node, member);
        Acts::Nothing
    }

    // A node holds a random value more.
    fn receive(&mut self, node: u32, least: u32) -> Acts
        ensures owner { self.new ≡ (receives node least self.old).owner }
        ensures acts { result ≡ (receives node least self.old).acts }
    {
        let mut member = self.member(node);
        member.rands = more(member.rands);
        self.set_member(node, member);
        Acts::One(Act::Do(Task::Give(node, least)))
    }

    #[tactic(auto, unfolding(crate::specs::Turns::taken))]
    fn take(&mut self, now: u64, command: Command) -> Acts
        ensures owner { self.new ≡ (taken now command self.old).owner }
        ensures acts { result ≡ (taken now command self.old).acts }
    {
        match command {
            Command::Coordinator(_) => self.join_line(0),
            Command::Meter(_, _) => Acts::Nothing,
            Command::Depot(node) => self.join_line(node),
            Command::Allow(node) => self.book(node),
            Command::RandomOctets(node, least, _) => self.receive(node, least),
            Command::Join(_, _) => Acts::Nothing,
            Command::Leave(node) => self.leave(now, node),
            Command::Tell(_) => Acts::Nothing,
            Command::Seek => Acts::Nothing,
            Command::Rekey(index, _) => self.key_drawn(index),
            Command::Challenge(_) => {
                self.spend(0);
                Acts::Nothing
            }
            Command::Activate(_, _) => Acts::Nothing,
            Command::Order(_, _) => Acts::Nothing,
            Command::Restart(_) => Acts::Nothing,
        }
    }

    /// What follows a command that was carried out, by its outcome.
    #[tactic(auto, unfolding(crate::specs::Turns::answered))]
    pub fn answered(&mut self, now: u64, command: Command, outcome: Outcome) -> Acts
        ensures owner { self.new ≡ (answered now command outcome self.old).owner }
        ensures acts { result ≡ (answered now command outcome self.old).acts }
    {
        match outcome {
            Outcome::Taken => self.take(now, command),
            Outcome::Refused => refuse(command),
            Outcome::StoreFailed => self.store_failed(command),
        }
    }

    // A write of the store failed in a command.
    fn store_failed(&self, command: Command) -> Acts
        ensures { result ≡ failed command self.now }
    {
        match command {
            Command::Tell(message) => self.telling_failed(message),
            _ => refuse(command),
        }
    }

    fn telling_failed(&self, message: Message) -> Acts
        ensures { result ≡ telling_failed message self.now }
    {
        match message.kind {
            Kind::Reading => Acts::Two(
                Act::Say(Saying::Refused(Command::Tell(message))),
                Act::Do(Task::Fail(message.node, self.off_after_write(message.node))),
            ),
            Kind::Reply => refuse_message(message),
            Kind::Ask => refuse_message(message),
            Kind::Receipt => refuse_message(message),
        }
    }

    fn tell_to_leave(&mut self, node: u32) -> Acts
        ensures owner { self.new ≡ (told_to_leave node self.old).owner }
        ensures acts { result ≡ (told_to_leave node self.old).acts }
    {
        let mut member = self.member(node);
        member.joined = false;
        self.set_member(node, member);
        Acts::One(Act::Say(Saying::ToldToLeave(node)))
    }

    fn tear(&mut self, node: u32, seconds: u64) -> Acts
        ensures owner { self.new ≡ (will_tear node seconds self.old).owner }
        ensures acts { result ≡ (will_tear node seconds self.old).acts }
    {
        let mut member = self.member(node);
        member.off_for = seconds;
        self.set_member(node, member);
        Acts::Nothing
    }

    /// What follows from what frames brought. Where memory runs out, nothing is said of the owner.
    #[tactic(auto, unfolding(crate::specs::Turns::noticed))]
    pub fn noticed(&mut self, now: u64, notice: Notice) -> Result<Acts, AllocError>
        ensures owner { IfOk result (λ acts. self.new ≡ (noticed now notice self.old).owner) }
        ensures acts { IfOk result (λ acts. acts ≡ (noticed now notice self.old).acts) }
    {
        match notice {
            Notice::Challenged => {
                self.spend(0);
                Ok(Acts::Nothing)
            }
            Notice::Replied(node) => {
                self.spend(node);
                Ok(Acts::Nothing)
            }
            Notice::ToldToLeave(node) => Ok(self.tell_to_leave(node)),
            Notice::StoreFailed(node) => Ok(self.fail_at_write(now, node)),
            Notice::Came(node, message) => self.take_message(now, node, message),
            Notice::Took(node) => Ok(self.take_grant(node)),
            Notice::Done(node) => Ok(self.end_challenge(node)),
            Notice::Torn(node, seconds) => Ok(self.tear(node, seconds)),
        }
    }

    /// A task that is due, or to be done at once. Where memory runs out, nothing is said of the owner.
    #[tactic(auto, unfolding(crate::specs::Turns::turn))]
    pub fn turn(&mut self, place: &Place, now: u64, task: Task) -> Result<Acts, AllocError>
        ensures owner { IfOk result (λ acts. self.new ≡ (turn place.now now task self.old).owner) }
        ensures acts { IfOk result (λ acts. acts ≡ (turn place.now now task self.old).acts) }
    {
        match task {
            Task::Make(node) => Ok(self.make(node)),
            Task::Enter(node) => Ok(self.enter(node)),
            Task::DrawJoins(node) => Ok(self.draw_join(node)),
            Task::PutRounds(round) => Ok(self.put_round(round)),
            Task::DrawReads(round, node) => Ok(self.draw_read(round, node)),
            Task::Give(node, least) => Ok(self.give(node, least)),
            Task::TryJoin(node) => Ok(self.try_join(place, now, node)),
            Task::Read(node, round) => self.read(node, round),
            Task::ReadLater(node, round) => Ok(self.read_later(now, node, round)),
            Task::Refresh => Ok(self.refresh()),
            Task::BeginPolls(round) => Ok(self.begin_polls(round)),
            Task::OpenPolls(count) => Ok(self.open_polls(count)),
            Task::NextPoll => Ok(self.poll_next()),
            Task::Poll(node, round) => self.poll(now, node, round),
            Task::Answer(node, round) => Ok(self.answer(node, round)),
            Task::Reply(node, round) => Ok(self.reply(node, round)),
            Task::BeginChange(index) => Ok(self.begin_change(index)),
            Task::OpenChallenges(count) => Ok(self.open_challenges(count)),
            Task::NextChallenge => Ok(self.challenge_next(now)),
            Task::Challenge(node) => Ok(self.challenge(now, node)),
            Task::Order(k, nth) => Ok(self.order(now, k, nth)),
            Task::EndChange => Ok(self.end_change()),
            Task::Fail(node, seconds) => Ok(self.fail(now, node, seconds)),
            Task::Restore(node) => Ok(self.restore(now, node)),
        }
    }
}

// A refusal becomes a remark where the owner sent by itself.
fn refuse_message(message: Message) -> Acts
    ensures { result ≡ telling_refused message }
{
    match message.kind {
        Kind::Reading => Acts::One(Act::Say(Saying::Refused(Command::Tell(message)))),
        Kind::Reply => Acts::Nothing,
        Kind::Ask => Acts::One(Act::Say(Saying::Refused(Command::Tell(message)))),
        Kind::Receipt => Acts::Nothing,
    }
}

fn refuse(command: Command) -> Acts
    ensures { result ≡ refused command }
{
    match command {
        Command::Coordinator(_) => Acts::Nothing,
        Command::Meter(_, _) => Acts::Nothing,
        Command::Depot(_) => Acts::Nothing,
        Command::Allow(_) => Acts::Nothing,
        Command::RandomOctets(_, _, _) => Acts::Nothing,
        Command::Join(_, _) => Acts::Nothing,
        Command::Leave(_) => Acts::Nothing,
        Command::Tell(message) => refuse_message(message),
        Command::Seek => Acts::Nothing,
        Command::Rekey(index, _) => Acts::One(Act::Say(Saying::KeyDrawn(index))),
        Command::Challenge(_) => Acts::Nothing,
        Command::Activate(_, _) => Acts::Nothing,
        Command::Order(_, _) => Acts::One(Act::Say(Saying::Refused(command))),
        Command::Restart(_) => Acts::Nothing,
    }
}
