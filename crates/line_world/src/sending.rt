//! Datagrams that are sent, and links that break.
ghost use Rattle.std.specs.Prelude.{◌≡◌, ◌<◌, false};
ghost use Rattle.node_rules.specs.Ciphers.{network};
ghost use Rattle.line_events.specs.declared.event.TheConstants.{MAX_EVENTS};
ghost use Rattle.line_rules.specs.Answers as words;
ghost use Rattle.line_rules.specs.Steps as rules;
ghost use Rattle.line_world.specs.Bounds.{IsBounded};
ghost use Rattle.line_world.specs.Lines.{world_of};
ghost use Rattle.line_world.specs.Steps.{Steps, has_address};

use crate::line::Line;
use line_events::{Answer, Happenings, StepFault};
use node_rules::{SendRefusal, SentHow};

fn sent_word(sent: Result<SentHow, SendRefusal>) -> Answer
    ensures { result ≡ words.sent_word sent }
{
    match sent {
        Ok(SentHow::Sent) => Answer::Sent,
        Ok(SentHow::Waiting) => Answer::Waiting,
        Err(SendRefusal::Halted) => Answer::Halted,
        Err(SendRefusal::NotJoined) => Answer::NotJoined,
        Err(SendRefusal::BadSize) => Answer::BadSize,
        Err(SendRefusal::ToSelf) => Answer::ToSelf,
        Err(SendRefusal::WaitingFull) => Answer::WaitingFull,
        Err(SendRefusal::SeqSpent) => Answer::SeqSpent,
        Err(SendRefusal::CounterSpent) => Answer::CounterSpent,
        Err(SendRefusal::Store) => Answer::Store,
    }
}

impl Line {
    /// Sends a datagram from a node to a node.
    pub(crate) fn send(
        &mut self,
        from: u32,
        to: u32,
        datagram: &[u8],
    ) -> Result<Happenings<'static>, StepFault>
        requires bounds { IsBounded (world_of self.old) }
        requires events { self.old.events < MAX_EVENTS }
        ensures { Steps (has_address (world_of self.old) to) (world_of self.old) result (world_of self.new)
            (rules.send network (world_of self.old) from to datagram.now) }
    {
        let from = self.node(from)?;
        let to = self.node(to)?;
        let Some(address) = self.nodes.address(to) else {
            return Ok(self.answered(Answer::NoAddress));
        };
        self.reserve()?;
        let sent = self.nodes.send(
            from,
            address,
            datagram,
            self.sends + 1,
            self.clock,
            &mut self.out,
        );
        self.sends += u32::from(sent.is_ok());
        Ok(self.node_outcome(from, sent_word(sent)))
    }

    /// The link of a node to another one breaks.
    pub(crate) fn breaks(&mut self, node: u32, next: u32) -> Result<Happenings<'static>, StepFault>
        requires bounds { IsBounded (world_of self.old) }
        requires events { self.old.events < MAX_EVENTS }
        ensures { Steps false (world_of self.old) result (world_of self.new)
            (rules.breaks network (world_of self.old) node next) }
    {
        let number = self.node(node)?;
        let next = self.node(next)?;
        let Some(address) = self.nodes.address(next) else {
            return Ok(self.answered(Answer::NoAddress));
        };
        let answer = self.nodes.broke(number, address);
        Ok(self.answered(answer))
    }
}
