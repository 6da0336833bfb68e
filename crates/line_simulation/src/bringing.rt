//! What events bring: flights, what came up, addresses, what the owner notices.
ghost use Rattle.std.specs.Prelude.{◌≡◌, IfOk, OnOk};
ghost use Rattle.line_owner.specs.Turns.{noticed};
ghost use Rattle.line_simulation.specs.declared.work.PendingWork.TheVariants as works;
ghost use Rattle.line_simulation.specs.Effects.{with_acts, with_done, with_took, with_grant, with_came, with_flights, hops_after, taken_up};
ghost use Rattle.line_simulation.specs.Effects.{is_data, is_plain, flown_as, frame_of, flown_by, outline_if, flew, came_up, with_air, air_noticing, turned};
ghost use Rattle.line_simulation.specs.Effects.{has_noticed, answered_so, tries_more, with_try, has_tried, tries_at, task_turned, has_turned};
ghost use Rattle.line_simulation.specs.Runs.{Ends};
ghost use Rattle.line_simulation.specs.Simulations.{state_of, to_do};

use crate::book::Outline;
use crate::facts::{Came, Facts, Granted};
use crate::recording::Recording;
use crate::remarks::Remark;
use crate::simulation::{Flown, Simulation};
use crate::work::{PendingWork, Stop};
use line_air::Frame;
use line_events::Answer;
use line_figures::FrameKind;
use line_owner::{Act, Acts, Command, Kind, Notice, Outcome, Task};
use plan_tables::Way;
use std::alloc::AllocError;

// How many hops the flights of an event have behind them: what is relayed goes on.
#[tactic(auto, unfolding(crate::specs::Effects::hops_after))]
fn hops_after(answer: Answer, hops: u32) -> u32
    ensures { result ≡ hops_after answer hops }
{
    match answer {
        Answer::Relayed => hops.saturating_add(1),
        _ => 1,
    }
}

fn is_data(kind: FrameKind) -> bool
    ensures { result ≡ is_data kind }
{
    match kind {
        FrameKind::Plain => false,
        FrameKind::Request => false,
        FrameKind::Reply => false,
        FrameKind::Error => false,
        FrameKind::Data => true,
    }
}

fn is_plain(kind: FrameKind) -> bool
    ensures { result ≡ is_plain kind }
{
    match kind {
        FrameKind::Plain => true,
        FrameKind::Request => false,
        FrameKind::Reply => false,
        FrameKind::Error => false,
        FrameKind::Data => false,
    }
}

// A flight with what is known of it, after this many hops. A frame that is no data has none, so that a datagram which left with it begins with one.
fn flown_as(outline: Outline, hops: u32) -> Flown
    ensures { result ≡ flown_as outline hops }
{
    if is_data(outline.kind) {
        return Flown {
            kind: outline.kind,
            hops,
        };
    }
    Flown {
        kind: outline.kind,
        hops: 0,
    }
}

// A flight as a frame of the air.
fn frame_of(flight: u32, outline: Outline) -> Frame
    ensures { result ≡ frame_of flight outline }
{
    Frame {
        flight,
        octets: outline.octets,
        target: outline.target,
        counts: !is_plain(outline.kind),
    }
}

impl<R: Recording> Simulation<R> {
    /// Something is to be done next.
    #[tactic(auto, unfolding(crate::specs::Simulations::state_of))]
    pub fn push(&mut self, work: PendingWork) -> Result<(), AllocError>
        ensures { OnOk result (state_of self.new ≡ to_do work (state_of self.old)) }
    {
        self.work.push(work)
    }

    fn push_act(&mut self, act: Act) -> Result<(), AllocError>
        ensures { OnOk result (state_of self.new ≡ to_do (works.Act act) (state_of self.old)) }
    {
        self.push(PendingWork::Act(act))
    }

    /// Acts are to be done, the first of them next.
    pub fn push_acts(&mut self, acts: Acts) -> Result<(), AllocError>
        ensures { OnOk result (state_of self.new ≡ with_acts acts (state_of self.old)) }
    {
        match acts {
            Acts::Nothing => Ok(()),
            Acts::One(a) => self.push_act(a),
            Acts::Two(a, b) => {
                self.push_act(b)?;
                self.push_act(a)
            }
            Acts::Three(a, b, c) => {
                self.push_act(c)?;
                self.push_act(b)?;
                self.push_act(a)
            }
            Acts::Four(a, b, c, d) => {
                self.push_act(d)?;
                self.push_act(c)?;
                self.push_act(b)?;
                self.push_act(a)
            }
        }
    }

    fn push_done(&mut self, done: Option<u32>) -> Result<(), AllocError>
        ensures { OnOk result (state_of self.new ≡ with_done done (state_of self.old)) }
    {
        match done {
            Some(node) => self.push(PendingWork::Notice(Notice::Done(node))),
            None => Ok(()),
        }
    }

    fn push_took(&mut self, took: Option<u32>) -> Result<(), AllocError>
        ensures { OnOk result (state_of self.new ≡ with_took took (state_of self.old)) }
    {
        match took {
            Some(node) => self.push(PendingWork::Notice(Notice::Took(node))),
            None => Ok(()),
        }
    }

    #[tactic(auto, unfolding(crate::specs::Simulations::state_of))]
    fn take_grant(&mut self, grant: Option<Granted>) -> Result<(), AllocError>
        ensures { OnOk result (state_of self.new ≡ with_grant grant (state_of self.old)) }
    {
        match grant {
            Some(granted) => self.book.grant(granted.node, granted.address),
            None => Ok(()),
        }
    }

    fn push_came(&mut self, came: Option<Came>, hops: u32) -> Result<(), AllocError>
        ensures { OnOk result (state_of self.new ≡ with_came came hops (state_of self.old)) }
    {
        match came {
            Some(came) => self.push(PendingWork::Came(came, hops)),
            None => Ok(()),
        }
    }

    // This many flights from a first one on go to the queues of their senders next, in their order.
    fn push_flights(&mut self, first: u32, count: u32, hops: u32) -> Result<(), AllocError>
        ensures { OnOk result (state_of self.new ≡ with_flights first count hops (state_of self.old)) }
    {
        for nth in 0..count {
            let flight = first.saturating_add(count - 1 - nth);
            self.push(PendingWork::Fly(flight, hops))?;
        }
        Ok(())
    }

    /// Takes up what an event brought: first the flights, so that the next frames of their sender wait behind them; then what came up, an address, a grant, and
    /// a joining that is done.
    #[tactic(auto, unfolding(crate::specs::Effects::taken_up))]
    pub fn take_up(&mut self, facts: Facts, hops: u32) -> Result<(), AllocError>
        ensures { OnOk result (state_of self.new ≡ taken_up facts hops (state_of self.old)) }
    {
        self.push_done(facts.done)?;
        self.push_took(facts.took)?;
        self.take_grant(facts.granted)?;
        self.push_came(facts.came, hops)?;
        let further = hops_after(facts.answer, hops);
        self.push_flights(facts.first_flight, facts.flights, further)
    }

    // A flight goes to the queue of a node.
    #[tactic(auto, unfolding(crate::specs::Effects::flown_by, crate::specs::Simulations::state_of))]
    fn queue(
        &mut self,
        flight: u32,
        hops: u32,
        node: u32,
        outline: Outline,
    ) -> Result<(), AllocError>
        ensures { OnOk result (state_of self.new ≡ flown_by flight hops node outline (state_of self.old)) }
    {
        self.flown.push(flown_as(outline, hops))?;
        let frame = frame_of(flight, outline);
        self.air.send(&mut self.calendar, self.time, node, frame)
    }

    // Who a flight is for, and what it is.
    #[tactic(auto, unfolding(crate::specs::Simulations::state_of))]
    fn outline(&self, flight: u32) -> Option<Outline>
        ensures { result ≡ outline_if (R.recorder.flight flight (state_of self.now).recorder) (state_of self.now).book }
    {
        match self.recording.flight(flight) {
            Some(octets) => Some(self.book.outline(octets)),
            None => None,
        }
    }

    #[tactic(auto, unfolding(crate::specs::Simulations::state_of))]
    fn sender(&self, flight: u32) -> Option<u32>
        ensures { result ≡ R.recorder.sender flight (state_of self.now).recorder }
    {
        self.recording.flight_sender(flight)
    }

    /// A flight goes to the queue of its sender.
    #[tactic(auto, unfolding(crate::specs::Effects::flew))]
    pub fn fly(&mut self, flight: u32, hops: u32) -> Result<(), AllocError>
        ensures { OnOk result (state_of self.new ≡ flew R.recorder flight hops (state_of self.old)) }
    {
        let Some(outline) = self.outline(flight) else {
            return Ok(());
        };
        let Some(node) = self.sender(flight) else {
            return Ok(());
        };
        self.queue(flight, hops, node, outline)
    }

    // A reading, or what the coordinator knows of one, is counted.
    #[tactic(auto, unfolding(crate::specs::Simulations::state_of))]
    fn count_came(&mut self, came: Came, hops: u32) -> Result<(), AllocError>
        ensures { OnOk result (state_of self.new ≡ state_of self.old) }
    {
        let message = came.message;
        let readings = &mut self.figures.readings;
        match message.kind {
            Kind::Reading if came.node == 0 => {
                readings.came(message.node, message.round, self.time, hops)?;
                // Where the coordinator asks for readings, it knows of each that comes.
                if self.plan.owner.readings.way == Way::Poll {
                    readings.known(message.node, message.round, self.time)?;
                }
                Ok(())
            }
            Kind::Receipt if came.node == message.node => {
                readings.known(message.node, message.round, self.time)
            }
            _ => Ok(()),
        }
    }

    /// A message came up at a node.
    pub fn message_came(&mut self, came: Came, hops: u32) -> Result<(), AllocError>
        ensures { OnOk result (state_of self.new ≡ came_up came (state_of self.old)) }
    {
        self.count_came(came, hops)?;
        self.push(PendingWork::Notice(Notice::Came(came.node, came.message)))
    }

    // What a notice means for the air; it is counted.
    #[tactic(auto, unfolding(crate::specs::Simulations::state_of))]
    fn air_notices(&mut self, notice: Notice) -> Result<(), AllocError>
        ensures { OnOk result (state_of self.new ≡ with_air (air_noticing notice (state_of self.old).sky.air) (state_of self.old)) }
    {
        match notice {
            Notice::Took(node) => {
                self.air.set_joined(node, true);
                self.figures.joinings.took(node, self.time)
            }
            Notice::Done(_) => {
                self.figures.changes.done();
                Ok(())
            }
            Notice::ToldToLeave(node) => {
                self.air.set_joined(node, false);
                self.figures.joinings.left(node);
                Ok(())
            }
            _ => Ok(()),
        }
    }

    // The owner notices something.
    #[tactic(auto, unfolding(crate::specs::Simulations::state_of))]
    fn owner_notices(&mut self, notice: Notice) -> Result<(), AllocError>
        ensures { OnOk result (state_of self.new ≡ turned (noticed (state_of self.old).now notice (state_of self.old).owner) (state_of self.old)) }
    {
        let acts = self.owner.noticed(self.time, notice)?;
        self.push_acts(acts)
    }

    /// The owner notices what a frame brought.
    #[tactic(auto, unfolding(crate::specs::Effects::has_noticed))]
    pub fn notice(&mut self, notice: Notice) -> Result<(), AllocError>
        ensures { OnOk result (state_of self.new ≡ has_noticed notice (state_of self.old)) }
    {
        self.air_notices(notice)?;
        self.owner_notices(notice)
    }

    /// The owner goes on after a command.
    #[tactic(auto, unfolding(crate::specs::Simulations::state_of))]
    pub fn answer(&mut self, command: Command, outcome: Outcome) -> Result<(), AllocError>
        ensures { OnOk result (state_of self.new ≡ answered_so command outcome (state_of self.old)) }
    {
        let acts = self.owner.answered(self.time, command, outcome);
        self.push_acts(acts)
    }

    // One try more of a reading. Answers how often it was tried.
    #[tactic(auto, unfolding(crate::specs::Simulations::state_of))]
    fn try_more(&mut self, node: u32, round: u32) -> Result<u64, AllocError>
        ensures { IfOk result (λ tries. (tries ≡ (tries_more node round (state_of self.old)).tries)
            × (state_of self.new ≡ with_try node round (tries_more node round (state_of self.old)) (state_of self.old))) }
    {
        let mut reading = self.tried.at(node, round);
        reading.tries = reading.tries.saturating_add(1);
        self.tried.set(node, round, reading)?;
        self.figures.readings.tried(node, round, self.time)?;
        Ok(reading.tries)
    }

    /// A reading was tried.
    #[tactic(auto, unfolding(crate::specs::Effects::has_tried))]
    pub fn note_try(&mut self, node: u32, round: u32) -> Result<(), Stop>
        ensures { Ends result (has_tried R.recorder node round (state_of self.old)) (state_of self.new) }
    {
        let tries = self.try_more(node, round)?;
        self.remark(&Remark::Try { node, round, tries })
    }

    // What a task says of readings.
    #[tactic(auto, unfolding(crate::specs::Simulations::state_of))]
    fn count_task(&mut self, task: Task) -> Result<(), AllocError>
        ensures { OnOk result (state_of self.new ≡ state_of self.old) }
    {
        match task {
            Task::Read(node, round) => self.figures.readings.due(node, round, self.time),
            Task::Poll(node, round) => self.figures.readings.due(node, round, self.time),
            _ => Ok(()),
        }
    }

    // A reading that is tried is remarked.
    fn note_task(&mut self, task: Task) -> Result<(), Stop>
        ensures { Ends result (tries_at R.recorder task (state_of self.old)) (state_of self.new) }
    {
        match task {
            Task::ReadLater(node, round) => self.note_try(node, round),
            _ => Ok(()),
        }
    }

    // A turn of the owner's.
    #[tactic(auto, unfolding(crate::specs::Simulations::state_of))]
    fn turn(&mut self, task: Task) -> Result<(), AllocError>
        ensures { OnOk result (state_of self.new ≡ task_turned task (state_of self.old)) }
    {
        let acts = self.owner.turn(self.air.place(), self.time, task)?;
        self.push_acts(acts)
    }

    /// A task of the owner's.
    #[tactic(auto, unfolding(crate::specs::Effects::has_turned))]
    pub fn task(&mut self, task: Task) -> Result<(), Stop>
        ensures { Ends result (has_turned R.recorder task (state_of self.old)) (state_of self.new) }
    {
        self.count_task(task)?;
        self.note_task(task)?;
        self.turn(task)?;
        Ok(())
    }
}
