//! The end of a frame: whom it came to, and whether it is sent again.
ghost use Rattle.std.specs.Prelude.{◌≡◌, ◌<◌, eqb, IfOk, OnOk};
ghost use Rattle.std.specs.List.{find};
ghost use Rattle.std.specs.Option.{option_copied};
ghost use Rattle.line_air.specs.Ends.{heard_some, heard_at, hearing_of, is_came, waiting_after_try, gives_up, sent_again, unacknowledged, at_nobody};
ghost use Rattle.line_air.specs.Ends.{is_acknowledged, overheard, came_to, ending_where_heard, ending_at_one, ending_at_all, ending_by, ending_of};
ghost use Rattle.air_draws.specs.Draws.{after};

use crate::chances::{draw_beside, draw_for_all, segments_come};
use crate::disturbances::Disturbances;
use crate::frame::Waiting;
use crate::nodes::{Heard, Nodes};
use crate::{Air, End, Ended, Hearing, Settings, Target};
use air_draws::Draws;
use std::alloc::{AllocError, Global};

/// What the target of a frame heard of it.
#[derive(Clone, Copy, Debug)]
pub struct HeardAt {
    pub hearing: Hearing,
    /// How many segments are missing there.
    pub left: u32,
}

// A node among the hearers of a frame.
fn hearer_at(heard: &[Heard], to: u32) -> Option<&Heard>
    ensures { option_copied result ≡ find (λ (h : Heard). eqb h.link.to to) heard.now }
{
    heard.iter().find(|hearer| hearer.link.to == to)
}

// The same, taken out.
fn hearer_of(heard: &[Heard], to: u32) -> Option<Heard>
    ensures { result ≡ find (λ (h : Heard). eqb h.link.to to) heard.now }
{
    hearer_at(heard, to).copied()
}

fn is_came(hearing: Hearing) -> bool
    ensures { result ≡ is_came hearing }
{
    match hearing {
        Hearing::Came => true,
        Hearing::Collision => false,
        Hearing::Noise => false,
        Hearing::Off => false,
        Hearing::Withheld => false,
    }
}

// What a node heard of a frame of which this many segments are missing after it.
fn hearing_of(missing: u32, withheld: bool) -> Hearing
    ensures { result ≡ hearing_of missing withheld }
{
    if missing != 0 {
        return Hearing::Noise;
    }
    if withheld {
        return Hearing::Withheld;
    }
    Hearing::Came
}

// The target of a frame heard some segments of those that were sent.
#[tactic(auto, unfolding(crate::specs::Ends::heard_some))]
fn heard_some(
    loss: &mut Draws,
    disturbances: &Disturbances,
    end: &End,
    hearer: &Heard,
    left: u32,
) -> HeardAt
    ensures { heard_some disturbances.now end.now hearer.now left loss.old
        ≡ record { at = result; loss = loss.new } }
{
    let to = hearer.link.to;
    let chance = disturbances.loss_at(end.at, end.node, to, hearer.link.loss);
    let missing = left - segments_come(loss, chance, left);
    let withheld = disturbances.attacker_keeps(end.at, to);
    HeardAt {
        hearing: hearing_of(missing, withheld),
        left: missing,
    }
}

// What its target heard of a frame to one node.
#[tactic(auto, unfolding(crate::specs::Ends::heard_at))]
fn heard_at(
    loss: &mut Draws,
    disturbances: &Disturbances,
    nodes: &Nodes,
    end: &End,
    to: u32,
    left: u32,
    heard: &[Heard],
) -> HeardAt
    ensures { heard_at disturbances.now nodes.now end.now to left heard.now loss.old
        ≡ record { at = result; loss = loss.new } }
{
    let Some(hearer) = hearer_of(heard, to) else {
        return HeardAt {
            hearing: Hearing::Off,
            left,
        };
    };
    if !nodes.is_powered(hearer.link.to) {
        return HeardAt {
            hearing: Hearing::Off,
            left,
        };
    }
    if !hearer.clear {
        return HeardAt {
            hearing: Hearing::Collision,
            left,
        };
    }
    heard_some(loss, disturbances, end, &hearer, left)
}

// A frame that was sent in vain once more.
#[tactic(auto, unfolding(crate::specs::Ends::waiting_after_try))]
fn waiting_after_try(settings: &Settings, first: Waiting) -> Waiting
    requires { first.tries < 65535 }
    ensures { result ≡ waiting_after_try settings.now first }
{
    let tries = first.tries + 1;
    let be = u32::from(settings.min_be) + u32::from(tries);
    Waiting {
        tries,
        busy: 0,
        be: be.min(u32::from(settings.max_be)) as u8,
        ..first
    }
}

impl Air {
    // A frame to one node is given up.
    #[tactic(auto, unfolding(crate::specs::Ends::gives_up))]
    fn give_up(
        &mut self,
        node: u32,
        to: u32,
        first: Waiting,
        hearing: Hearing,
    ) -> Result<Ended, AllocError>
        ensures { IfOk result (λ ended. gives_up node to first hearing self.old
            ≡ record { ended = ended; air = self.new }) }
    {
        self.nodes.drop_first(node);
        if !first.frame.counts {
            return Ok(Ended::GivenUp {
                frame: first.frame,
                hearing,
                came: first.came,
                broke: false,
            });
        }
        let broke = self.given_up.add(node, to, self.settings.break_after)?;
        Ok(Ended::GivenUp {
            frame: first.frame,
            hearing,
            came: first.came,
            broke,
        })
    }

    // A frame to one node is sent again, after a longer wait.
    #[tactic(auto, unfolding(crate::specs::Ends::sent_again))]
    fn send_again(&mut self, node: u32, first: Waiting, hearing: Hearing) -> Ended
        requires { first.tries < 65535 }
        ensures { sent_again node first hearing self.old
            ≡ record { ended = result; air = self.new } }
    {
        let again = waiting_after_try(&self.settings, first);
        self.nodes.set_first(node, again);
        Ended::ToOne {
            frame: first.frame,
            hearing,
            acknowledged: false,
        }
    }

    // A frame to one node was not acknowledged.
    #[tactic(auto, unfolding(crate::specs::Ends::unacknowledged))]
    fn repeat(
        &mut self,
        node: u32,
        to: u32,
        first: Waiting,
        hearing: Hearing,
    ) -> Result<Ended, AllocError>
        ensures { IfOk result (λ ended. unacknowledged node to first hearing self.old
            ≡ record { ended = ended; air = self.new }) }
    {
        if first.tries >= self.settings.repeats {
            return self.give_up(node, to, first, hearing);
        }
        Ok(self.send_again(node, first, hearing))
    }

    // The end of a frame to a node that is not on the line.
    #[tactic(auto, unfolding(crate::specs::Ends::at_nobody))]
    fn end_at_nobody(&mut self, node: u32, first: Waiting) -> Ended
        ensures { at_nobody node first self.old
            ≡ record { ended = result; air = self.new } }
    {
        if first.tries >= self.settings.repeats {
            self.nodes.drop_first(node);
            return Ended::GivenUp {
                frame: first.frame,
                hearing: Hearing::Off,
                came: first.came,
                broke: false,
            };
        }
        self.send_again(node, first, Hearing::Off)
    }

    // Whether the acknowledgement of a frame to a node comes back.
    #[tactic(auto, unfolding(crate::specs::Ends::is_acknowledged))]
    fn is_acknowledged(&mut self, node: u32, to: u32) -> bool
        ensures value { result ≡ is_acknowledged self.old node to }
        ensures after { self.new ≡ record self.old { loss = after self.old.loss } }
    {
        let back = u64::from(self.place.loss(to, node)) * u64::from(self.settings.ack_loss) / 100;
        !self.loss.happens(back.min(10_000) as u32)
    }

    // Who overhears a frame to one node.
    #[tactic(auto, unfolding(crate::specs::Ends::overheard))]
    fn overhear(
        &mut self,
        end: &End,
        to: u32,
        heard: &[Heard],
        came: &mut Vec<u32>,
    ) -> Result<(), AllocError>
        ensures { OnOk result (let d = overheard self.old end.now to heard.now (record { came = came.old.items; loss = self.old.loss }) in
            (came.new.items ≡ d.came) × (self.new ≡ record self.old { loss = d.loss })) }
    {
        if !self.settings.overhear {
            return Ok(());
        }
        draw_beside(
            &mut self.loss,
            &self.disturbances,
            &self.nodes,
            end,
            to,
            heard,
            came,
        )
    }

    // The nodes that a frame came to which its target heard.
    #[tactic(auto, unfolding(crate::specs::Ends::came_to))]
    fn come_to(
        &mut self,
        end: &End,
        to: u32,
        before: bool,
        heard: &[Heard],
        came: &mut Vec<u32>,
    ) -> Result<(), AllocError>
        ensures { OnOk result (let d = came_to self.old end.now to before heard.now (record { came = came.old.items; loss = self.old.loss }) in
            (came.new.items ≡ d.came) × (self.new ≡ record self.old { loss = d.loss })) }
    {
        if before && !self.settings.duplicates {
            return Ok(());
        }
        came.push(to)?;
        self.overhear(end, to, heard, came)
    }

    // The end of a frame to one node that its target heard.
    #[tactic(auto, unfolding(crate::specs::Ends::ending_where_heard, crate::specs::Ends::is_done))]
    fn end_where_heard(
        &mut self,
        end: &End,
        to: u32,
        first: Waiting,
        heard: &[Heard],
        came: &mut Vec<u32>,
    ) -> Result<Ended, AllocError>
        ensures { IfOk result (λ ended. ending_where_heard end.now to first heard.now came.old.items self.old
            ≡ record { ended = ended; came = came.new.items; air = self.new }) }
    {
        let acknowledged = self.is_acknowledged(end.node, to);
        self.come_to(end, to, first.came, heard, came)?;
        if !acknowledged {
            let again = Waiting {
                came: true,
                ..first
            };
            return self.repeat(end.node, to, again, Hearing::Came);
        }
        self.nodes.drop_first(end.node);
        self.given_up.forget(end.node, to);
        Ok(Ended::ToOne {
            frame: first.frame,
            hearing: Hearing::Came,
            acknowledged,
        })
    }

    // The end of a frame to one node.
    #[tactic(auto, unfolding(crate::specs::Ends::ending_at_one))]
    fn end_at_one(
        &mut self,
        end: &End,
        to: u32,
        first: Waiting,
        heard: &[Heard],
        came: &mut Vec<u32>,
    ) -> Result<Ended, AllocError>
        ensures { IfOk result (λ ended. ending_at_one end.now to first heard.now came.old.items self.old
            ≡ record { ended = ended; came = came.new.items; air = self.new }) }
    {
        let at = heard_at(
            &mut self.loss,
            &self.disturbances,
            &self.nodes,
            end,
            to,
            first.left,
            heard,
        );
        let first = Waiting {
            left: at.left,
            ..first
        };
        if is_came(at.hearing) {
            return self.end_where_heard(end, to, first, heard, came);
        }
        self.repeat(end.node, to, first, at.hearing)
    }

    // The end of a frame to all.
    #[tactic(auto, unfolding(crate::specs::Ends::ending_at_all))]
    fn end_at_all(
        &mut self,
        end: &End,
        first: Waiting,
        heard: &[Heard],
        came: &mut Vec<u32>,
    ) -> Result<Ended, AllocError>
        ensures { IfOk result (λ ended. ending_at_all end.now first heard.now came.old.items self.old
            ≡ record { ended = ended; came = came.new.items; air = self.new }) }
    {
        self.nodes.drop_first(end.node);
        draw_for_all(
            &mut self.loss,
            &self.disturbances,
            &self.nodes,
            end,
            heard,
            came,
        )?;
        Ok(Ended::ToAll(first.frame))
    }

    // The end of the frame that waits first at its sender.
    #[tactic(auto, unfolding(crate::specs::Ends::ending_by))]
    fn end_of_first(
        &mut self,
        end: &End,
        first: Waiting,
        heard: &[Heard],
        came: &mut Vec<u32>,
    ) -> Result<Ended, AllocError>
        ensures { IfOk result (λ ended. ending_by end.now first.frame.target first heard.now came.old.items self.old
            ≡ record { ended = ended; came = came.new.items; air = self.new }) }
    {
        match first.frame.target {
            Target::All => self.end_at_all(end, first, heard, came),
            Target::Node(to) => self.end_at_one(end, to, first, heard, came),
            Target::Nobody => Ok(self.end_at_nobody(end.node, first)),
        }
    }

    /// The frame of a node ends. Puts the nodes that it came to into `came`: of a frame to all in the order of the links, of one to a
    /// node that node first. The caller carries out what that brings, and then lets the nodes around go on. Where memory runs out,
    /// the sender is silent and nothing else is known.
    #[tactic(auto, unfolding(crate::specs::Ends::ending_of))]
    pub fn end(
        &mut self,
        alloc: Global,
        end: &End,
        came: &mut Vec<u32>,
    ) -> Result<Ended, AllocError>
        ensures { IfOk result (λ ended. ending_of end.now self.old
            ≡ record { ended = ended; came = came.new.items; air = self.new }) }
    {
        came.clear();
        self.nodes.set_sending(end.node, false);
        let mut heard = Vec::new(alloc);
        self.nodes
            .silence(self.place.hearers(end.node), end.node, &mut heard)?;
        let Some(first) = self.nodes.first(end.node) else {
            return Ok(Ended::CutShort);
        };
        if !self.nodes.is_powered(end.node) {
            return Ok(Ended::CutShort);
        }
        if first.frame.flight != end.flight {
            return Ok(Ended::CutShort);
        }
        self.end_of_first(end, first, &heard, came)
    }
}
