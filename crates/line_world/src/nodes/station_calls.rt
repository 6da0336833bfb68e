//! What a node's station does for the line: it accepts and sends, and its links break.
ghost use Rattle.std.specs.Prelude.{◌≡◌, ◌<◌, length, Err, IfSome, IfOk, slice_get};
ghost use Rattle.node_rules.specs.Acceptance as acceptance;
ghost use Rattle.node_rules.specs.Calls as calls;
ghost use Rattle.node_rules.specs.CarriedPlans.{nothing};
ghost use Rattle.node_rules.specs.Ciphers.{network};
ghost use Rattle.node_rules.specs.Frames.{arrived};
ghost use Rattle.node_rules.specs.MemoryDrafts.{with_station};
ghost use Rattle.node_rules.specs.NodeSteps.{acts, of_station, changing};
ghost use Rattle.node_rules.specs.ShownNodes.{shown_of};
ghost use Rattle.line_events.specs.declared.event.Answer.TheVariants as answers;
ghost use Rattle.line_world.specs.NodeOutcomes.{Did};
ghost use Rattle.line_world.specs.Receptions.{MayHear};

use crate::nodes::Nodes;
use crate::nodes::station_steps::break_at;
use line_events::Answer;
use node_rules::{FrameRefusal, SendRefusal, SentHow, Shown};
use plc_base::{FrameBuf, Out, Short};
use plc_station::Accepted;

impl Nodes {
    /// A node looks at octets that come to it. Ok exactly where it accepts them.
    pub fn accept<'a>(
        &mut self,
        number: usize,
        octets: &[u8],
        payload: &'a mut FrameBuf,
    ) -> Result<Accepted<'a>, FrameRefusal>
        requires there { number < length self.old }
        ensures did { IfSome (slice_get self.old number) (λ x. Did
            (acts x (Err FrameRefusal.Halted) (λ m. of_station m (acceptance.accept m.station x.eui
            (arrived network octets.now)))) self.old number result nothing self.new) }
        ensures hears { IfOk result (λ got. IfSome (slice_get self.new number) (λ x. MayHear x got)) }
    {
        if number > 0 {
            return self.meters[number - 1].station().accept(octets, payload);
        }
        let Some(coordinator) = &mut self.coordinator else {
            return Err(FrameRefusal::Halted);
        };
        coordinator.station().accept(octets, payload)
    }

    /// A node sends a datagram to an address, under a number of the caller's, at a time in seconds. What goes out is in `out`.
    pub fn send(
        &mut self,
        number: usize,
        to: Short,
        datagram: &[u8],
        note: u32,
        now: u64,
        out: &mut Out,
    ) -> Result<SentHow, SendRefusal>
        requires there { number < length self.old }
        ensures { IfSome (slice_get self.old number) (λ x. Did
            (acts x (Err SendRefusal.Halted) (λ m. of_station m (calls.send m.station to datagram.now note now)))
            self.old number result out.new self.new) }
    {
        if number > 0 {
            return self.meters[number - 1]
                .station()
                .send(to, datagram, note, now, out);
        }
        let Some(coordinator) = &mut self.coordinator else {
            return Err(SendRefusal::Halted);
        };
        coordinator.station().send(to, datagram, note, now, out)
    }

    /// The link of a node to a neighbour broke.
    pub fn broke(&mut self, number: usize, next: Short) -> Answer
        requires there { number < length self.old }
        ensures { IfSome (slice_get self.old number) (λ x. Did
            (acts x answers.Halted (λ m. changing answers.Broken (with_station (calls.broke next m.station) m)))
            self.old number result nothing self.new) }
    {
        if number > 0 {
            return break_at(self.meters[number - 1].station(), next);
        }
        let Some(coordinator) = &mut self.coordinator else {
            return Answer::Halted;
        };
        break_at(coordinator.station(), next)
    }

    /// Fills in what is shown of a node.
    pub fn show(&mut self, number: usize, out: &mut Shown)
        requires there { number < length self.old }
        ensures shown { IfSome (slice_get self.old number) (λ x. out.new ≡ shown_of x) }
        ensures same { self.new ≡ self.old }
    {
        if number > 0 {
            self.meters[number - 1].station().shown(out);
            return;
        }
        let Some(coordinator) = &mut self.coordinator else {
            return;
        };
        coordinator.station().shown(out);
    }
}
