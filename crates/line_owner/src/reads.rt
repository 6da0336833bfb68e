//! How meters are read.
ghost use Rattle.std.specs.Prelude.{◌≡◌, ◌<◌, IfOk, OnOk};
ghost use Rattle.line_owner.specs.Asked.{reading_at};
ghost use Rattle.line_owner.specs.Reads.{message, tried, noted, is_spent, leaves_after, misses, gives_reading_up, may_speak, reads, reads_later, begins_polls};
ghost use Rattle.line_owner.specs.Reads.{opens_polls, polls_next, ends_poll, polls, answers, replies, refreshes, reading_came, receipt_came, comes};

use crate::owner::{Owner, Polls, next_try};
use crate::{Act, Acts, Command, Kind, Message, Saying, Task, later, micros, more};
use plan_tables::Way;
use std::alloc::AllocError;

fn message(kind: Kind, node: u32, round: u32) -> Message
    ensures { result ≡ message kind node round }
{
    Message { kind, node, round }
}

impl Owner {
    // One try more of a reading.
    fn try_reading(&mut self, node: u32, round: u32) -> Result<(), AllocError>
        requires { (reading_at node round self.old.readings).tries < self.old.settings.readings.tries }
        ensures { OnOk result (self.new ≡ tried node round self.old) }
    {
        let mut reading = self.reading(node, round);
        reading.tries = next_try(reading.tries, self.settings.readings.tries);
        self.set_reading(node, round, reading)
    }

    // It is known that a reading came.
    fn note_reading(&mut self, node: u32, round: u32) -> Result<(), AllocError>
        ensures { OnOk result (self.new ≡ noted node round self.old) }
    {
        let mut reading = self.reading(node, round);
        reading.known = true;
        self.set_reading(node, round, reading)
    }

    fn is_spent(&self, node: u32, round: u32) -> bool
        ensures { result ≡ is_spent node round self.now }
    {
        self.reading(node, round).tries >= self.settings.readings.tries
    }

    // A meter leaves after some unanswered readings, where that is said.
    fn leave_after(&self, node: u32) -> Acts
        ensures { result ≡ (leaves_after node self.now).acts }
    {
        let most = self.settings.care.rejoin_after;
        let member = self.member(node);
        if most != 0 && member.missed >= most && member.joined && member.powered {
            return Acts::Two(
                Act::Say(Saying::Leaves(node)),
                Act::Step(Command::Leave(node)),
            );
        }
        Acts::Nothing
    }

    fn miss(&mut self, node: u32)
        ensures { self.new ≡ misses node self.old }
    {
        let mut member = self.member(node);
        if member.missed < 1_000_000 {
            member.missed += 1;
        }
        self.set_member(node, member);
    }

    // A reading is not tried again.
    #[tactic(auto, unfolding(crate::specs::Reads::gives_reading_up))]
    fn give_reading_up(&mut self, node: u32) -> Acts
        ensures owner { self.new ≡ (gives_reading_up node self.old).owner }
        ensures acts { result ≡ (gives_reading_up node self.old).acts }
    {
        if !self.settings.readings.answered {
            return Acts::Nothing;
        }
        self.miss(node);
        self.leave_after(node)
    }

    fn may_speak(&self, node: u32) -> bool
        ensures { result ≡ may_speak node self.now }
    {
        let member = self.member(node);
        member.powered && member.joined
    }

    // A meter sends its reading.
    #[tactic(auto, unfolding(crate::specs::Reads::reads))]
    pub(crate) fn read(&mut self, node: u32, round: u32) -> Result<Acts, AllocError>
        ensures owner { IfOk result (λ acts. self.new ≡ (reads node round self.old).owner) }
        ensures acts { IfOk result (λ acts. acts ≡ (reads node round self.old).acts) }
    {
        if self.reading(node, round).known {
            return Ok(Acts::Nothing);
        }
        if self.is_spent(node, round) {
            return Ok(self.give_reading_up(node));
        }
        let again = Act::Do(Task::ReadLater(node, round));
        let speaks = self.may_speak(node);
        self.try_reading(node, round)?;
        if speaks {
            let reading = message(Kind::Reading, node, round);
            return Ok(Acts::Two(Act::Step(Command::Tell(reading)), again));
        }
        Ok(Acts::One(again))
    }

    // A reading is tried again later, where it has to be.
    #[tactic(auto, unfolding(crate::specs::Reads::reads_later))]
    pub(crate) fn read_later(&mut self, now: u64, node: u32, round: u32) -> Acts
        ensures owner { self.new ≡ (reads_later now node round self.old).owner }
        ensures acts { result ≡ (reads_later now node round self.old).acts }
    {
        if self.settings.readings.answered || !self.may_speak(node) {
            let wait = micros(self.settings.readings.retry);
            let draw = u64::from(self.draw_time(10_000_000));
            let at = later(later(now, wait), draw);
            return Acts::One(Act::Put(at, Task::Read(node, round)));
        }
        Acts::Nothing
    }

    // All meters are to be asked.
    #[tactic(auto, unfolding(crate::specs::Reads::begins_polls))]
    pub(crate) fn begin_polls(&mut self, round: u32) -> Acts
        ensures owner { self.new ≡ (begins_polls round self.old).owner }
        ensures acts { result ≡ (begins_polls round self.old).acts }
    {
        let count = self
            .settings
            .readings
            .at_once
            .min(self.members.count() as u64);
        self.members.end_polls();
        self.polls = Polls { next: 1, round };
        Acts::One(Act::Do(Task::OpenPolls(count)))
    }

    // This many meters more are asked.
    #[tactic(auto, unfolding(crate::specs::Reads::opens_polls))]
    pub(crate) fn open_polls(&mut self, count: u64) -> Acts
        ensures owner { self.new ≡ (opens_polls count self.old).owner }
        ensures acts { result ≡ (opens_polls count self.old).acts }
    {
        if count == 0 {
            return Acts::Nothing;
        }
        Acts::Two(Act::Do(Task::NextPoll), Act::Do(Task::OpenPolls(count - 1)))
    }

    // The next meter is asked.
    #[tactic(auto, unfolding(crate::specs::Reads::polls_next))]
    pub(crate) fn poll_next(&mut self) -> Acts
        ensures owner { self.new ≡ (polls_next self.old).owner }
        ensures acts { result ≡ (polls_next self.old).acts }
    {
        let node = self.polls.next;
        if node as usize >= self.members.count() {
            return Acts::Nothing;
        }
        let round = self.polls.round;
        let mut member = self.member(node);
        member.polled = true;
        self.set_member(node, member);
        self.polls = Polls {
            next: more(node),
            round,
        };
        Acts::One(Act::Do(Task::Poll(node, round)))
    }

    // A meter is waited for no more.
    #[tactic(auto, unfolding(crate::specs::Reads::ends_poll))]
    fn end_poll(&mut self, node: u32) -> Acts
        ensures owner { self.new ≡ (ends_poll node self.old).owner }
        ensures acts { result ≡ (ends_poll node self.old).acts }
    {
        let mut member = self.member(node);
        if !member.polled {
            return Acts::Nothing;
        }
        member.polled = false;
        self.set_member(node, member);
        Acts::One(Act::Do(Task::NextPoll))
    }

    // A meter is asked.
    #[tactic(auto, unfolding(crate::specs::Reads::polls))]
    pub(crate) fn poll(&mut self, now: u64, node: u32, round: u32) -> Result<Acts, AllocError>
        ensures owner { IfOk result (λ acts. self.new ≡ (polls now node round self.old).owner) }
        ensures acts { IfOk result (λ acts. acts ≡ (polls now node round self.old).acts) }
    {
        if self.reading(node, round).known {
            return Ok(Acts::Nothing);
        }
        if self.is_spent(node, round) {
            return Ok(self.end_poll(node));
        }
        let at = later(now, micros(self.settings.readings.retry));
        let again = Act::Put(at, Task::Poll(node, round));
        let joined = self.member(node).joined;
        self.try_reading(node, round)?;
        if joined {
            let ask = message(Kind::Ask, node, round);
            return Ok(Acts::Two(Act::Step(Command::Tell(ask)), again));
        }
        Ok(Acts::One(again))
    }

    // The coordinator answers a reading.
    #[tactic(auto, unfolding(crate::specs::Reads::answers))]
    pub(crate) fn answer(&mut self, node: u32, round: u32) -> Acts
        ensures owner { self.new ≡ (answers node round self.old).owner }
        ensures acts { result ≡ (answers node round self.old).acts }
    {
        if self.member(0).powered && self.member(node).joined {
            let receipt = message(Kind::Receipt, node, round);
            return Acts::One(Act::Step(Command::Tell(receipt)));
        }
        Acts::Nothing
    }

    // A meter sends what was asked for.
    #[tactic(auto, unfolding(crate::specs::Reads::replies))]
    pub(crate) fn reply(&mut self, node: u32, round: u32) -> Acts
        ensures owner { self.new ≡ (replies node round self.old).owner }
        ensures acts { result ≡ (replies node round self.old).acts }
    {
        if self.member(node).powered {
            let reply = message(Kind::Reply, node, round);
            return Acts::One(Act::Step(Command::Tell(reply)));
        }
        Acts::Nothing
    }

    // The coordinator gives every node a route to itself.
    #[tactic(auto, unfolding(crate::specs::Reads::refreshes))]
    pub(crate) fn refresh(&mut self) -> Acts
        ensures owner { self.new ≡ (refreshes self.old).owner }
        ensures acts { result ≡ (refreshes self.old).acts }
    {
        if self.settings.readings.refresh {
            return Acts::One(Act::Step(Command::Seek));
        }
        Acts::Nothing
    }

    // A reading came to the coordinator.
    fn take_reading(&mut self, now: u64, node: u32, round: u32) -> Result<Acts, AllocError>
        ensures owner { IfOk result (λ acts. self.new ≡ (reading_came now node round self.old).owner) }
        ensures acts { IfOk result (λ acts. acts ≡ (reading_came now node round self.old).acts) }
    {
        match self.settings.readings.way {
            Way::Push => {
                if self.settings.readings.answered {
                    return Ok(Acts::One(Act::Put(now, Task::Answer(node, round))));
                }
                Ok(Acts::Nothing)
            }
            Way::Poll => {
                self.note_reading(node, round)?;
                Ok(self.end_poll(node))
            }
        }
    }

    // A receipt came to a meter.
    fn take_receipt(&mut self, node: u32, round: u32) -> Result<(), AllocError>
        ensures { OnOk result (self.new ≡ receipt_came node round self.old) }
    {
        let mut member = self.member(node);
        self.note_reading(node, round)?;
        member.missed = 0;
        self.set_member(node, member);
        Ok(())
    }

    // A message came up at a node.
    #[tactic(auto, unfolding(crate::specs::Reads::comes))]
    pub(crate) fn take_message(
        &mut self,
        now: u64,
        at: u32,
        message: Message,
    ) -> Result<Acts, AllocError>
        ensures owner { IfOk result (λ acts. self.new ≡ (comes now at message self.old).owner) }
        ensures acts { IfOk result (λ acts. acts ≡ (comes now at message self.old).acts) }
    {
        let node = message.node;
        let round = message.round;
        match message.kind {
            Kind::Reading => {
                if at != 0 {
                    return Ok(Acts::Nothing);
                }
                self.take_reading(now, node, round)
            }
            Kind::Reply => {
                if at != 0 {
                    return Ok(Acts::Nothing);
                }
                self.take_reading(now, node, round)
            }
            Kind::Ask => {
                if at != node {
                    return Ok(Acts::Nothing);
                }
                Ok(Acts::One(Act::Put(now, Task::Reply(node, round))))
            }
            Kind::Receipt => {
                if at != node {
                    return Ok(Acts::Nothing);
                }
                self.take_receipt(node, round)?;
                Ok(Acts::Nothing)
            }
        }
    }
}
