//! Attempts to send, and the ends of frames.
ghost use Rattle.std.specs.Prelude.{◌≡◌, eqb, find, IfOk, OnOk};
ghost use Rattle.std.specs.Option.{option_copied};
ghost use Rattle.line_air.specs.Turns.{attempt_by};
ghost use Rattle.line_place.specs.declared.link.Link.{Link as PlaceLink};
ghost use Rattle.line_place.specs.Rows.{hearers};
ghost use Rattle.line_simulation.specs.Effects.{with_air};
ghost use Rattle.line_simulation.specs.Arrivals.{flown_at, attempted_by, attempted, event_cost, cost_between, delivered_to, delivered_one, delivered_each};
ghost use Rattle.line_simulation.specs.Arrivals.{noticed_at};
ghost use Rattle.line_simulation.specs.Arrivals.{with_facts, all_brought, delivered, loss_of, kept_of, heard_so, node_in, reason_of, breaks_to, has_given_up};
ghost use Rattle.line_simulation.specs.Arrivals.{ended_by, ending_at, has_ended};
ghost use Rattle.line_simulation.specs.Arrivals.{route_broken};
ghost use Rattle.line_simulation.specs.Runs.{Ends, answer_of};
ghost use Rattle.line_simulation.specs.Simulations.{state_of, with_sky};

use crate::facts::Facts;
use crate::recording::Recording;
use crate::remarks::Remark;
use crate::simulation::{Flown, Kept, Simulation};
use crate::work::{PendingWork, Stop};
use line_air::{Attempt, End, Ended, Frame, Hearing, Target};
use line_events::{Answer, Event};
use line_figures::{FrameKind, Loss};
use line_owner::Notice;
use line_place::Link;
use plc_base::LinkCost;
use std::alloc::AllocError;

/// What a frame brought at a node.
#[derive(Clone, Copy, Debug)]
pub struct Brought {
    pub node: u32,
    pub facts: Facts,
}

/// The cost of a link as the events have it: at least 1.
pub fn cost_of(cost: u8) -> LinkCost
    ensures { result ≡ event_cost cost }
{
    match LinkCost::new(cost) {
        Some(cost) => cost,
        None => least_cost(),
    }
}

fn least_cost() -> LinkCost
    ensures { result ≡ 1 }
{
    match LinkCost::new(1) {
        Some(cost) => cost,
        None => unreachable!(),
    }
}

fn loss_of(hearing: Hearing) -> Option<Loss>
    ensures { result ≡ loss_of hearing }
{
    match hearing {
        Hearing::Came => None,
        Hearing::Collision => Some(Loss::Collision),
        Hearing::Noise => Some(Loss::Noise),
        Hearing::Off => Some(Loss::Off),
        Hearing::Withheld => Some(Loss::Withheld),
    }
}

// Why a frame is not acknowledged, where it did not come.
fn reason_of(came: bool, hearing: Hearing) -> Option<Loss>
    ensures { result ≡ reason_of came hearing }
{
    if came {
        return None;
    }
    loss_of(hearing)
}

fn node_in(target: Target) -> Option<u32>
    ensures { result ≡ node_in target }
{
    match target {
        Target::All => None,
        Target::Node(node) => Some(node),
        Target::Nobody => None,
    }
}

// What the owner notices by itself of what a node did with a frame.
fn noticed_at(node: u32, answer: Answer) -> Option<Notice>
    ensures { result ≡ noticed_at node answer }
{
    match answer {
        Answer::Challenged => Some(Notice::Challenged),
        Answer::Replied => Some(Notice::Replied(node)),
        Answer::Left => Some(Notice::ToldToLeave(node)),
        Answer::Store => Some(Notice::StoreFailed(node)),
        _ => None,
    }
}

// The link to a node.
fn link_to(links: &[Link], to: u32) -> Option<&Link>
    ensures { option_copied result ≡ find (λ (l : PlaceLink). eqb l.to to) links.now }
{
    links.iter().find(|link| link.to == to)
}

// One frame of a node that an attacker keeps, where it is one.
fn kept_of(hearing: Hearing, target: Target, from: u32, flight: u32) -> Option<Kept>
    ensures { result ≡ kept_of hearing target from flight }
{
    match hearing {
        Hearing::Withheld => match node_in(target) {
            Some(node) => Some(Kept { node, from, flight }),
            None => None,
        },
        _ => None,
    }
}

impl<R: Recording> Simulation<R> {
    // What is known of a flight.
    #[tactic(auto, unfolding(crate::specs::Arrivals::flown_at, crate::specs::Simulations::state_of))]
    fn flown(&self, flight: u32) -> Flown
        ensures { result ≡ flown_at flight (state_of self.now).flown }
    {
        match self.flown.get((flight as usize).saturating_sub(1)) {
            Some(flown) => *flown,
            None => Flown {
                kind: FrameKind::Data,
                hops: 1,
            },
        }
    }

    #[tactic(auto, unfolding(crate::specs::Simulations::state_of))]
    fn count_sent(&mut self, node: u32, flight: u32)
        ensures { state_of self.new ≡ state_of self.old }
    {
        let kind = self.flown(flight).kind;
        self.figures.frames.sent(kind);
        if let Some(at) = self.sent_at.get_mut(node as usize) {
            *at = self.time;
        }
    }

    #[tactic(auto, unfolding(crate::specs::Simulations::state_of))]
    fn count_dropped(&mut self, flight: u32)
        ensures { state_of self.new ≡ state_of self.old }
    {
        let kind = self.flown(flight).kind;
        self.figures.frames.dropped(kind);
    }

    // What an attempt of a node led to.
    fn note_attempt(&mut self, node: u32, attempt: Attempt) -> Result<(), Stop>
        ensures { Ends result (attempted_by R.recorder node attempt (state_of self.old)) (state_of self.new) }
    {
        match attempt {
            Attempt::Idle => Ok(()),
            Attempt::Busy => Ok(()),
            Attempt::Sent(flight) => {
                self.count_sent(node, flight);
                Ok(())
            }
            Attempt::Dropped(flight) => {
                self.count_dropped(flight);
                self.remark(&Remark::Dropped { flight, node })
            }
        }
    }

    // The attempt of a node is due.
    #[tactic(auto, unfolding(crate::specs::Simulations::state_of))]
    fn try_to_send(&mut self, node: u32) -> Result<Attempt, AllocError>
        ensures { IfOk result (λ answer. (answer ≡ (attempt_by (state_of self.old).now node (state_of self.old).sky).answer)
            × (state_of self.new ≡ with_sky (attempt_by (state_of self.old).now node (state_of self.old).sky).sky (state_of self.old))) }
    {
        self.air.attempt(&mut self.calendar, self.time, node)
    }

    /// The attempt of a node is due.
    #[tactic(auto, unfolding(crate::specs::Arrivals::attempted))]
    pub fn attempt(&mut self, node: u32) -> Result<(), Stop>
        ensures { Ends result (attempted R.recorder node (state_of self.old)) (state_of self.new) }
    {
        let attempt = self.try_to_send(node)?;
        self.note_attempt(node, attempt)
    }

    /// What a frame of a node costs at another, 1 where it is not heard there.
    #[tactic(auto, unfolding(crate::specs::Arrivals::cost_between, crate::specs::Simulations::state_of))]
    pub fn cost(&self, from: u32, to: u32) -> u8
        ensures { result ≡ cost_between (state_of self.now).sky.air.rows from to }
    {
        match link_to(self.air.place().hearers(from), to) {
            Some(link) => link.cost,
            None => 1,
        }
    }

    // A frame that was on the air is counted.
    #[tactic(auto, unfolding(crate::specs::Simulations::state_of))]
    fn count_end(&mut self, node: u32)
        ensures { state_of self.new ≡ state_of self.old }
    {
        if let Some(at) = self.sent_at.get(node as usize) {
            self.figures.was_on_air(self.time.saturating_sub(*at));
        }
    }

    // The frame of a node ends on the air: what became of it, and the nodes that it came to.
    #[tactic(auto, unfolding(crate::specs::Simulations::state_of))]
    fn end_on_air(
        &mut self,
        node: u32,
        flight: u32,
        segments: u32,
        came: &mut Vec<u32>,
    ) -> Result<Ended, AllocError>
        ensures { IfOk result (λ ended. (ended ≡ (ending_at node flight segments (state_of self.old)).ended)
            × (came.new.items ≡ (ending_at node flight segments (state_of self.old)).came)
            × (state_of self.new ≡ with_air (ending_at node flight segments (state_of self.old)).air (state_of self.old))) }
    {
        let end = End {
            at: self.time,
            node,
            flight,
            segments,
        };
        self.air.end(self.alloc, &end, came)
    }

    /// The frame of a node ends.
    #[tactic(auto, unfolding(crate::specs::Arrivals::has_ended))]
    pub fn end_frame(&mut self, node: u32, flight: u32, segments: u32) -> Result<(), Stop>
        ensures { Ends result (has_ended R.recorder node flight segments (state_of self.old)) (state_of self.new) }
    {
        self.push(PendingWork::GoOn(node))?;
        self.count_end(node);
        let mut came = Vec::new(self.alloc);
        let ended = self.end_on_air(node, flight, segments, &mut came)?;
        self.follow_end(node, flight, ended, came.as_slice())
    }

    // What the end of a frame leads to.
    fn follow_end(&mut self, node: u32, flight: u32, ended: Ended, came: &[u32]) -> Result<(), Stop>
        ensures { Ends result (ended_by R.recorder node flight came.now ended (state_of self.old)) (state_of self.new) }
    {
        match ended {
            Ended::CutShort => Ok(()),
            Ended::ToAll(_) => self.deliver(node, flight, came),
            Ended::ToOne { frame, hearing, .. } => {
                self.heard(node, frame, hearing)?;
                self.deliver(node, flight, came)
            }
            Ended::GivenUp {
                frame,
                hearing,
                came: before,
                broke,
            } => {
                self.heard(node, frame, hearing)?;
                self.give_up(node, frame, hearing, before, broke)?;
                self.deliver(node, flight, came)
            }
        }
    }

    // A frame that did not come is counted.
    #[tactic(auto, unfolding(crate::specs::Simulations::state_of))]
    fn count_hearing(&mut self, flight: u32, hearing: Hearing)
        ensures { state_of self.new ≡ state_of self.old }
    {
        let kind = self.flown(flight).kind;
        if let Some(loss) = loss_of(hearing) {
            self.figures.frames.lost(kind, loss);
        }
    }

    // How the target of a frame heard it. An attacker keeps what it withheld.
    #[tactic(auto, unfolding(crate::specs::Arrivals::heard_so, crate::specs::Simulations::state_of))]
    fn heard(&mut self, node: u32, frame: Frame, hearing: Hearing) -> Result<(), AllocError>
        ensures { OnOk result (state_of self.new ≡ heard_so node frame hearing (state_of self.old)) }
    {
        self.count_hearing(frame.flight, hearing);
        match kept_of(hearing, frame.target, node, frame.flight) {
            Some(kept) => {
                self.kept.push(kept)?;
                Ok(())
            }
            None => Ok(()),
        }
    }

    #[tactic(auto, unfolding(crate::specs::Simulations::state_of))]
    fn count_given_up(&mut self, flight: u32)
        ensures { state_of self.new ≡ state_of self.old }
    {
        let kind = self.flown(flight).kind;
        self.figures.frames.given_up(kind);
    }

    // A link that counts as broken is said to be so next.
    fn break_next(&mut self, from: u32, broke: bool, to: Option<u32>) -> Result<(), AllocError>
        ensures { OnOk result (state_of self.new ≡ breaks_to from broke to (state_of self.old)) }
    {
        if !broke {
            return Ok(());
        }
        match to {
            Some(to) => self.push(PendingWork::Break(from, to)),
            None => Ok(()),
        }
    }

    // A frame to one node is not sent again.
    #[tactic(auto, unfolding(crate::specs::Arrivals::has_given_up))]
    fn give_up(
        &mut self,
        node: u32,
        frame: Frame,
        hearing: Hearing,
        came: bool,
        broke: bool,
    ) -> Result<(), Stop>
        ensures { Ends result (has_given_up R.recorder node frame hearing came broke (state_of self.old)) (state_of self.new) }
    {
        self.count_given_up(frame.flight);
        let to = node_in(frame.target);
        let why = reason_of(came, hearing);
        self.remark(&Remark::GivenUp {
            flight: frame.flight,
            from: node,
            to,
            why,
        })?;
        self.break_next(node, broke, to)?;
        Ok(())
    }

    // A flight comes to a node. None where the line does not take the event.
    fn deliver_to(&mut self, from: u32, flight: u32, node: u32) -> Result<Option<Facts>, Stop>
        ensures { Ends result (delivered_to R.recorder from flight node (state_of self.old)) (state_of self.new) }
    {
        let cost = cost_of(self.cost(from, node));
        self.step_timed("deliver", &Event::Deliver { flight, node, cost })
    }

    // A flight comes to a node, and what it brought there is noted.
    fn deliver_and_note(
        &mut self,
        from: u32,
        flight: u32,
        node: u32,
        brought: &mut Vec<Brought>,
    ) -> Result<(), Stop>
        ensures { Ends (answer_of result brought.new.items) (delivered_one R.recorder from flight node brought.old.items (state_of self.old))
            (state_of self.new) }
    {
        if let Some(facts) = self.deliver_to(from, flight, node)? {
            brought.push(Brought { node, facts })?;
        }
        Ok(())
    }

    // A flight comes to nodes, one event after the other.
    fn deliver_all(
        &mut self,
        from: u32,
        flight: u32,
        came: &[u32],
        brought: &mut Vec<Brought>,
    ) -> Result<(), Stop>
        ensures { Ends (answer_of result brought.new.items) (delivered_each R.recorder from flight came.now brought.old.items (state_of self.old))
            (state_of self.new) }
    {
        for node in came {
            match self.deliver_and_note(from, flight, *node, brought) {
                Ok(()) => {}
                Err(stop) => return Err(stop),
            }
        }
        Ok(())
    }

    // A flight comes to the nodes that it came to; then what each brought is taken up.
    #[tactic(auto, unfolding(crate::specs::Arrivals::delivered))]
    fn deliver(&mut self, from: u32, flight: u32, came: &[u32]) -> Result<(), Stop>
        ensures { Ends result (delivered R.recorder from flight came.now (state_of self.old)) (state_of self.new) }
    {
        if came.is_empty() {
            return Ok(());
        }
        self.keep_time(came.len() as u64)?;
        let mut brought = Vec::new(self.alloc);
        self.deliver_all(from, flight, came, &mut brought)?;
        let hops = self.flown(flight).hops;
        self.take_all(brought.as_slice(), hops)?;
        Ok(())
    }

    // What a node did with a flight is taken up next.
    #[tactic(auto, unfolding(crate::specs::Simulations::state_of))]
    fn take_one(&mut self, one: Brought, hops: u32) -> Result<(), AllocError>
        ensures { OnOk result (state_of self.new ≡ with_facts hops one (state_of self.old)) }
    {
        self.push(PendingWork::Facts(one.facts, hops))?;
        match noticed_at(one.node, one.facts.answer) {
            Some(notice) => self.push(PendingWork::Notice(notice)),
            None => Ok(()),
        }
    }

    // What the nodes did with a flight is taken up next, the first of them first.
    fn take_all(&mut self, brought: &[Brought], hops: u32) -> Result<(), AllocError>
        ensures { OnOk result (state_of self.new ≡ all_brought hops brought.now (state_of self.old)) }
    {
        for nth in 0..brought.len() {
            let one = brought[brought.len() - 1 - nth];
            self.take_one(one, hops)?;
        }
        Ok(())
    }

    /// A node loses the route over a neighbour.
    pub fn break_route(&mut self, node: u32, next: u32) -> Result<(), Stop>
        ensures { Ends result (route_broken R.recorder node next (state_of self.old)) (state_of self.new) }
    {
        self.step_and_take("break", &Event::Break { node, next })
    }
}
