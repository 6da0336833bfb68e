//! What attackers do.
ghost use Rattle.std.specs.Prelude.{◌≡◌, IfOk, OnOk, Some, None};
ghost use Rattle.line_events.specs.declared.event.Event.TheVariants as events;
ghost use Rattle.line_simulation.specs.Attacks.{flight_injected, drawn_flight, flight_drawn, replayed, with_release, with_releases, kept_count};
ghost use Rattle.line_simulation.specs.Attacks.{kept_from_others};
ghost use Rattle.line_simulation.specs.Attacks.{without_kept, released, join_octets, is_challenged, challenged_if, if_found, join_forged};
ghost use Rattle.line_simulation.specs.declared.work.PendingWork.TheVariants as works;
ghost use Rattle.line_simulation.specs.Arrivals.{event_cost};
ghost use Rattle.line_simulation.specs.Runs.{Ends};
ghost use Rattle.line_simulation.specs.Simulations.{state_of, to_do};
ghost use Rattle.line_simulation.specs.Steps.{stepped, stepped_and_taken};

use crate::arrivals::cost_of;
use crate::facts::Facts;
use crate::recording::Recording;
use crate::remarks::Remark;
use crate::simulation::{Kept, Simulation};
use crate::work::{PendingWork, Stop};
use line_events::{Answer, Event};
use line_owner::Notice;
use plc_base::{Eui, OctetRef};
use std::alloc::{AllocError, Global};

/// A JOIN in the name of a meter, up to its EUI: a plain frame to the coordinator of the PAN.
const JOIN_HEAD: [u8; 7] = [0x61, 0xd8, 0x00, 0x1d, 0x78, 0x00, 0x00];

/// The header of a joining message, and the kind of a JOIN.
const JOIN_BODY: [u8; 3] = [0x40, 0x02, 0x01];

// A plain frame to the coordinator with a JOIN in the name of a meter.
#[tactic(auto, unfolding(crate::specs::Attacks::join_octets))]
fn join_octets(alloc: Global, eui: &Eui) -> Result<Vec<u8>, AllocError>
    ensures { IfOk result (λ octets. octets.items ≡ join_octets eui.now) }
{
    let mut octets = Vec::new(alloc);
    octets.extend_from_slice(&JOIN_HEAD)?;
    let mut turned = eui.0;
    turned.reverse();
    octets.extend_from_slice(&turned)?;
    octets.extend_from_slice(&JOIN_BODY)?;
    octets.extend_from_slice(&eui.0)?;
    Ok(octets)
}

fn is_challenged(answer: Answer) -> bool
    ensures { result ≡ is_challenged answer }
{
    match answer {
        Answer::Challenged => true,
        _ => false,
    }
}

// How many of the frames are kept from a node.
fn kept_count(kept: &[Kept], node: u32) -> u64
    ensures { result ≡ kept_count node kept.now }
{
    let mut count = 0_u64;
    for one in kept {
        if one.node == node {
            count = count.saturating_add(1);
        }
    }
    count
}

// Leaves the frames that are not kept from a node.
fn keep_others(kept: &mut Vec<Kept>, node: u32)
    ensures { kept.new.items ≡ kept_from_others node kept.old.items }
{
    kept.retain(|one| one.node != node);
}

impl<R: Recording> Simulation<R> {
    // Copies the octets of a flight. False where there is no such flight.
    #[tactic(auto, unfolding(crate::specs::Simulations::state_of))]
    fn copy_flight(&self, flight: u32, octets: &mut Vec<u8>) -> Result<bool, AllocError>
        ensures { IfOk result (λ found. if_found found octets.new.items ≡ R.recorder.flight flight (state_of self.now).recorder) }
    {
        match self.recording.flight(flight) {
            Some(flown) => {
                octets.clear();
                octets.extend_from_slice(flown)?;
                Ok(true)
            }
            None => Ok(false),
        }
    }

    // An attacker gives a node octets.
    fn inject(&mut self, node: u32, cost: u8, octets: &[u8]) -> Result<(), Stop>
        ensures { Ends result (stepped_and_taken R.recorder (events.Inject node (event_cost cost) octets.now) (state_of self.old)) (state_of self.new) }
    {
        let octets = OctetRef::new(octets);
        let cost = cost_of(cost);
        self.step_and_take("inject", &Event::Inject { node, cost, octets })
    }

    /// An attacker gives a node a flight, over a link of this cost.
    #[tactic(auto, unfolding(crate::specs::Attacks::flight_injected))]
    pub fn inject_flight(&mut self, node: u32, cost: u8, flight: u32) -> Result<(), Stop>
        ensures { Ends result (flight_injected R.recorder node cost flight (state_of self.old)) (state_of self.new) }
    {
        let mut octets = Vec::new(self.alloc);
        if !self.copy_flight(flight, &mut octets)? {
            return Ok(());
        }
        self.inject(node, cost, octets.as_slice())
    }

    // A flight is drawn.
    #[tactic(auto, unfolding(crate::specs::Simulations::state_of))]
    fn draw_flight(&mut self) -> u32
        ensures value { result ≡ drawn_flight R.recorder (state_of self.old) }
        ensures state { state_of self.new ≡ flight_drawn (state_of self.old) }
    {
        let flights = self.recording.counted().flights;
        self.attack.below(flights).saturating_add(1)
    }

    /// An attacker gives a node a frame that it heard, and then this many less one.
    #[tactic(auto, unfolding(crate::specs::Attacks::replayed))]
    pub fn replay(&mut self, node: u32, count: u32) -> Result<(), Stop>
        ensures { Ends result (replayed R.recorder node count (state_of self.old)) (state_of self.new) }
    {
        if count == 0 {
            return Ok(());
        }
        let flight = self.draw_flight();
        self.push(PendingWork::Replay(node, count - 1))?;
        self.inject_flight(node, 1, flight)
    }

    // A frame that was kept from a node is given to it next.
    fn push_release(&mut self, node: u32, kept: Kept) -> Result<(), AllocError>
        ensures { OnOk result (state_of self.new ≡ with_release node kept (state_of self.old)) }
    {
        if kept.node != node {
            return Ok(());
        }
        let cost = self.cost(kept.from, node);
        self.push(PendingWork::Inject(node, cost, kept.flight))
    }

    // What was kept from a node is given to it next, in its order.
    fn push_releases(&mut self, node: u32, kept: &[Kept]) -> Result<(), AllocError>
        ensures { OnOk result (state_of self.new ≡ with_releases node kept.now (state_of self.old)) }
    {
        for nth in 0..kept.len() {
            let one = kept[kept.len() - 1 - nth];
            self.push_release(node, one)?;
        }
        Ok(())
    }

    // The frames that are kept.
    #[tactic(auto, unfolding(crate::specs::Simulations::state_of))]
    fn kept_frames(&self) -> Result<Vec<Kept>, AllocError>
        ensures { IfOk result (λ kept. kept.items ≡ (state_of self.now).kept) }
    {
        Vec::from_slice(self.alloc, self.kept.as_slice())
    }

    // Nothing is kept from a node any more.
    #[tactic(auto, unfolding(crate::specs::Simulations::state_of))]
    fn keep_no_more(&mut self, node: u32)
        ensures { state_of self.new ≡ without_kept node (state_of self.old) }
    {
        keep_others(&mut self.kept, node);
    }

    /// An attacker gives a node what it kept from it.
    #[tactic(auto, unfolding(crate::specs::Attacks::released))]
    pub fn release(&mut self, node: u32) -> Result<(), Stop>
        ensures { Ends result (released R.recorder node (state_of self.old)) (state_of self.new) }
    {
        let kept = self.kept_frames()?;
        self.push_releases(node, kept.as_slice())?;
        self.keep_no_more(node);
        let frames = kept_count(kept.as_slice(), node);
        self.remark(&Remark::Release { node, frames })
    }

    // An attacker gives the coordinator octets.
    fn inject_join(&mut self, octets: &[u8]) -> Result<Option<Facts>, Stop>
        ensures { Ends result (stepped R.recorder (events.Inject 0 1 octets.now) (state_of self.old)) (state_of self.new) }
    {
        let octets = OctetRef::new(octets);
        let cost = cost_of(1);
        self.step(
            "inject",
            &Event::Inject {
                node: 0,
                cost,
                octets,
            },
        )
    }

    // What a false JOIN brought is taken up next.
    fn take_join(&mut self, facts: Facts) -> Result<(), AllocError>
        ensures { OnOk result (state_of self.new ≡ to_do (works.Facts facts 0) (challenged_if (is_challenged facts.answer) (state_of self.old))) }
    {
        if is_challenged(facts.answer) {
            self.push(PendingWork::Notice(Notice::Challenged))?;
            return self.push(PendingWork::Facts(facts, 0));
        }
        self.push(PendingWork::Facts(facts, 0))
    }

    /// An attacker asks to join in the name of a meter.
    #[tactic(auto, unfolding(crate::specs::Attacks::join_forged))]
    pub fn false_join(&mut self, node: u32) -> Result<(), Stop>
        ensures { Ends result (join_forged R.recorder node (state_of self.old)) (state_of self.new) }
    {
        let eui = self.eui(node);
        let octets = join_octets(self.alloc, &eui)?;
        if let Some(facts) = self.inject_join(octets.as_slice())? {
            self.take_join(facts)?;
        }
        Ok(())
    }
}
