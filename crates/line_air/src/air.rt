//! The air: whose frame comes to whom.
ghost use Rattle.std.specs.Prelude.{◌≡◌, ◌++◌, ◌∷◌, [], cond, length, IfOk, OnOk, slice_get};
ghost use Rattle.std.specs.Prelude.{◌^◌, min, eqb};
ghost use Rattle.air_draws.specs.Draws.{after, below};
ghost use Rattle.line_air.specs.Ends.{with_node};
ghost use Rattle.line_air.specs.Nodes.{queue_of, has_power, is_one, with_joined, with_power, without_power};
ghost use Rattle.line_air.specs.Turns.{quiet_air, wait_for, held_for, after_held, queued, armed_at, armed_around, air_with_frame, sky_with_attempt};
ghost use Rattle.line_air.specs.Turns.{sky_with_attempts, sky_after_send, waiting_after_busy, sky_after_begin, waits_on, attempt_by, sky_after_end};

use crate::frame::Waiting;
use crate::given_up::GivenUp;
use crate::nodes::Nodes;
use crate::spans::sending_of;
use crate::times::{QUIET, SLOT};
use crate::{Calendar, CutLink, Disturbances, Frame, Moment, Noise, Settings, Target, Withheld};
use air_draws::{Draws, Purpose};
use line_place::{Link, Place};
use std::alloc::{AllocError, Global};
use std::marker::Model;

/// What became of an attempt to send.
#[derive(Clone, Copy, Debug)]
pub enum Attempt {
    /// Nothing waits, or the node has no power.
    Idle,
    /// The line is busy; the frame waits on.
    Busy,
    /// The line was busy too often; the frame of this flight was dropped.
    Dropped(u32),
    /// The frame of this flight is on the air.
    Sent(u32),
}

/// Why a frame did not come to a node.
#[derive(Clone, Copy, Debug)]
pub enum Hearing {
    /// It came.
    Came,
    /// Another frame disturbed it.
    Collision,
    /// It was lost by chance.
    Noise,
    /// The node has no power, or is not within reach.
    Off,
    /// An attacker kept it from the node.
    Withheld,
}

/// What the end of a frame brings. The nodes that it came to are in the list that the call was lent.
#[derive(Clone, Copy, Debug)]
pub enum Ended {
    /// The sender lost power meanwhile: the frame came to nobody.
    CutShort,
    /// A frame to all.
    ToAll(Frame),
    /// A frame to one node. It is sent again, or is done.
    ToOne {
        frame: Frame,
        hearing: Hearing,
        acknowledged: bool,
    },
    /// A frame to one node that is not sent again though no acknowledgement came.
    GivenUp {
        frame: Frame,
        hearing: Hearing,
        /// Whether the frame came to its target, now or before.
        came: bool,
        /// Whether the link counts as broken now.
        broke: bool,
    },
}

/// The air over the nodes of a line.
///
/// A contract sees the links, the settings, the nodes, the draws, what disturbs the line, and the frames that were given up
/// (`specs/Turns.antt`).
#[derive(Drop)]
pub struct Air {
    pub(crate) place: Place,
    pub(crate) settings: Settings,
    pub(crate) nodes: Nodes,
    pub(crate) loss: Draws,
    backoff: Draws,
    pub(crate) disturbances: Disturbances,
    pub(crate) given_up: GivenUp,
}

impl Model for Air {
    ghost use Rattle.line_air.specs.Turns.{AirState};

    ghost Value = { AirState };

    ghost view = { λ a. record {
      rows = a.place;
      settings = a.settings;
      nodes = a.nodes;
      loss = a.loss;
      backoff = a.backoff;
      disturbances = a.disturbances;
      given_up = a.given_up;
    } };
}

// What a frame to all waits more before it is sent, so that the hearers of one request do not answer it at one time.
#[tactic(auto, unfolding(crate::specs::Turns::held_for, crate::specs::Turns::after_held))]
fn held_for(settings: &Settings, target: Target, backoff: &mut Draws) -> u32
    ensures value { result ≡ held_for settings.now target backoff.old }
    ensures after { backoff.new ≡ after_held settings.now target backoff.old }
{
    match target {
        Target::All => jitter(settings.jitter, backoff),
        Target::Node(_) => 0,
        Target::Nobody => 0,
    }
}

// A number below the jitter. Without jitter nothing is drawn.
fn jitter(bound: u32, backoff: &mut Draws) -> u32
    ensures value { result ≡ below bound backoff.old }
    ensures after { backoff.new ≡ cond (eqb bound 0) backoff.old (after backoff.old) }
{
    if bound == 0 {
        return 0;
    }
    backoff.below(bound)
}

// A frame as it enters the queue of its sender.
#[tactic(auto, unfolding(crate::specs::Turns::queued))]
fn queued(settings: &Settings, frame: Frame, backoff: &mut Draws) -> Waiting
    ensures value { result ≡ queued settings.now frame backoff.old }
    ensures after { backoff.new ≡ after_held settings.now frame.target backoff.old }
{
    let held = held_for(settings, frame.target, backoff);
    Waiting {
        frame,
        tries: 0,
        be: settings.min_be,
        busy: 0,
        held,
        came: false,
        left: 0,
    }
}

// How long a frame waits before its next attempt.
#[tactic(auto, unfolding(crate::specs::Turns::wait_for))]
fn wait_for(backoff: &mut Draws, first: Waiting) -> u64
    ensures value { result ≡ wait_for backoff.old first }
    ensures after { backoff.new ≡ after backoff.old }
{
    let slots = backoff.below(slots_of(first.be));
    QUIET + u64::from(slots) * SLOT + u64::from(first.held)
}

// How many slots a random wait is below.
fn slots_of(be: u8) -> u32
    ensures { result ≡ 2 ^ min be 20 }
{
    1 << be.min(20)
}

// Puts an attempt of a node into the calendar, where a frame waits and none is due.
#[tactic(auto, unfolding(crate::specs::Turns::armed_at))]
fn arm(
    nodes: &mut Nodes,
    backoff: &mut Draws,
    calendar: &mut Calendar,
    now: u64,
    node: u32,
) -> Result<(), AllocError>
    ensures { OnOk result (armed_at now node (record { nodes = nodes.old; backoff = backoff.old; due = calendar.old })
        ≡ record { nodes = nodes.new; backoff = backoff.new; due = calendar.new }) }
{
    if !nodes.may_arm(node) {
        return Ok(());
    }
    let Some(first) = nodes.first(node) else {
        return Ok(());
    };
    let wait = wait_for(backoff, first);
    nodes.arm_first(node, first);
    calendar.put(now.saturating_add(wait), Moment::Attempt { node })
}

// The same for those that a node is heard by.
#[tactic(auto, unfolding(crate::specs::Turns::armed_around))]
fn arm_around(
    nodes: &mut Nodes,
    backoff: &mut Draws,
    calendar: &mut Calendar,
    now: u64,
    links: &[Link],
) -> Result<(), AllocError>
    ensures { OnOk result (armed_around now links.now (record { nodes = nodes.old; backoff = backoff.old; due = calendar.old })
        ≡ record { nodes = nodes.new; backoff = backoff.new; due = calendar.new }) }
{
    for link in links {
        arm(nodes, backoff, calendar, now, link.to)?;
    }
    Ok(())
}

// A frame that found the line busy once more.
#[tactic(auto, unfolding(crate::specs::Turns::waiting_after_busy))]
fn waiting_after_busy(settings: &Settings, first: Waiting) -> Waiting
    ensures { result ≡ waiting_after_busy settings.now first }
{
    Waiting {
        busy: first.busy.saturating_add(1),
        be: first.be.saturating_add(1).min(settings.max_be),
        ..first
    }
}

impl Air {
    /// The quiet air over a place. Every node has power, and none has joined.
    pub fn new(
        alloc: Global,
        place: Place,
        settings: Settings,
        seed: u64,
    ) -> Result<Air, AllocError>
        ensures { IfOk result (λ air. air ≡ quiet_air place settings seed) }
    {
        let nodes = Nodes::new(alloc, place.nodes())?;
        Ok(Air {
            place,
            settings,
            nodes,
            loss: Draws::new(seed, Purpose::Loss),
            backoff: Draws::new(seed, Purpose::Backoff),
            disturbances: Disturbances::new(alloc),
            given_up: GivenUp::new(alloc),
        })
    }

    /// The place.
    pub fn place(&self) -> &Place
        ensures { result.now ≡ self.now.rows }
    {
        &self.place
    }

    /// Adds a noise. It may be added before its time.
    pub fn add_noise(&mut self, noise: Noise) -> Result<(), AllocError>
        ensures { OnOk result (self.new ≡ record self.old {
          disturbances = record self.old.disturbances { noises = self.old.disturbances.noises ++ (noise ∷ []) };
        }) }
    {
        self.disturbances.add_noise(noise)
    }

    /// Adds a link that is cut for a time. It may be added before its time.
    pub fn add_cut(&mut self, cut: CutLink) -> Result<(), AllocError>
        ensures { OnOk result (self.new ≡ record self.old {
          disturbances = record self.old.disturbances { cuts = self.old.disturbances.cuts ++ (cut ∷ []) };
        }) }
    {
        self.disturbances.add_cut(cut)
    }

    /// Adds a node from which frames are kept for a time. It may be added before its time.
    pub fn add_withheld(&mut self, withheld: Withheld) -> Result<(), AllocError>
        ensures { OnOk result (self.new ≡ record self.old {
          disturbances = record self.old.disturbances { withheld = self.old.disturbances.withheld ++ (withheld ∷ []) };
        }) }
    {
        self.disturbances.add_withheld(withheld)
    }

    /// Says whether a node has joined: frames to all come to joined nodes alone.
    pub fn set_joined(&mut self, node: u32, joined: bool)
        ensures { self.new ≡ with_node node (with_joined joined) self.old }
    {
        self.nodes.set_joined(node, joined);
    }

    /// A node loses power, and what waits in its queue. Answers how many frames that were.
    pub fn fail(&mut self, node: u32) -> usize
        ensures value { result ≡ length (queue_of (slice_get self.old.nodes node)) }
        ensures after { self.new ≡ with_node node without_power self.old }
    {
        let waiting = self.nodes.waiting(node);
        self.nodes.fail(node);
        waiting
    }

    /// A node has power again.
    pub fn restore(&mut self, node: u32)
        ensures { self.new ≡ with_node node with_power self.old }
    {
        self.nodes.restore(node);
    }

    /// Whether a node has power.
    pub fn is_powered(&self, node: u32) -> bool
        ensures { result ≡ is_one has_power node self.now.nodes }
    {
        self.nodes.is_powered(node)
    }

    /// A node puts a frame at the end of its queue, unless it has no power. Where memory runs out, the frame may wait with no attempt
    /// due.
    #[tactic(auto, unfolding(crate::specs::Turns::sky_after_send))]
    pub fn send(
        &mut self,
        calendar: &mut Calendar,
        now: u64,
        node: u32,
        frame: Frame,
    ) -> Result<(), AllocError>
        ensures { OnOk result (sky_after_send now node frame (record { air = self.old; due = calendar.old })
            ≡ record { air = self.new; due = calendar.new }) }
    {
        self.queue(node, frame)?;
        self.arm_at(calendar, now, node)
    }

    // A node puts a frame at the end of its queue, unless it has no power.
    #[tactic(auto, unfolding(crate::specs::Turns::air_with_frame))]
    fn queue(&mut self, node: u32, frame: Frame) -> Result<(), AllocError>
        ensures { OnOk result (self.new ≡ air_with_frame node frame self.old) }
    {
        let waiting = queued(&self.settings, frame, &mut self.backoff);
        self.nodes.push(node, waiting)
    }

    // Puts an attempt of a node into the calendar, where a frame waits and none is due.
    #[tactic(auto, unfolding(crate::specs::Turns::sky_with_attempt))]
    fn arm_at(&mut self, calendar: &mut Calendar, now: u64, node: u32) -> Result<(), AllocError>
        ensures { OnOk result (sky_with_attempt now node (record { air = self.old; due = calendar.old })
            ≡ record { air = self.new; due = calendar.new }) }
    {
        arm(&mut self.nodes, &mut self.backoff, calendar, now, node)
    }

    // The same for those that a node is heard by.
    #[tactic(auto, unfolding(crate::specs::Turns::sky_with_attempts))]
    fn arm_hearers(
        &mut self,
        calendar: &mut Calendar,
        now: u64,
        node: u32,
    ) -> Result<(), AllocError>
        ensures { OnOk result (sky_with_attempts now node (record { air = self.old; due = calendar.old })
            ≡ record { air = self.new; due = calendar.new }) }
    {
        arm_around(
            &mut self.nodes,
            &mut self.backoff,
            calendar,
            now,
            self.place.hearers(node),
        )
    }

    /// Lets a node and those that it is heard by go on, where they wait.
    #[tactic(auto, unfolding(crate::specs::Turns::sky_after_end))]
    pub fn go_on(&mut self, calendar: &mut Calendar, now: u64, node: u32) -> Result<(), AllocError>
        ensures { OnOk result (sky_after_end now node (record { air = self.old; due = calendar.old })
            ≡ record { air = self.new; due = calendar.new }) }
    {
        self.arm_at(calendar, now, node)?;
        self.arm_hearers(calendar, now, node)
    }

    /// The attempt of a node is due: it sends the first frame of its queue where it senses nobody, and waits again otherwise.
    #[tactic(auto, unfolding(crate::specs::Turns::attempt_by, crate::specs::Turns::attempt_at))]
    pub fn attempt(
        &mut self,
        calendar: &mut Calendar,
        now: u64,
        node: u32,
    ) -> Result<Attempt, AllocError>
        ensures { IfOk result (λ answer. attempt_by now node (record { air = self.old; due = calendar.old })
            ≡ record { answer = answer; sky = record { air = self.new; due = calendar.new } }) }
    {
        self.nodes.set_armed(node, false);
        if !self.nodes.is_powered(node) {
            return Ok(Attempt::Idle);
        }
        let Some(first) = self.nodes.first(node) else {
            return Ok(Attempt::Idle);
        };
        if self.nodes.is_busy(node) {
            return self.wait_on(calendar, now, node, first);
        }
        self.begin(calendar, now, node, first)?;
        Ok(Attempt::Sent(first.frame.flight))
    }

    // The line is busy: the first frame of a node waits longer, or is dropped.
    #[tactic(auto, unfolding(crate::specs::Turns::waits_on))]
    fn wait_on(
        &mut self,
        calendar: &mut Calendar,
        now: u64,
        node: u32,
        first: Waiting,
    ) -> Result<Attempt, AllocError>
        ensures { IfOk result (λ answer. waits_on now node first (record { air = self.old; due = calendar.old })
            ≡ record { answer = answer; sky = record { air = self.new; due = calendar.new } }) }
    {
        let more = waiting_after_busy(&self.settings, first);
        if more.busy > self.settings.backoffs {
            self.nodes.drop_first(node);
            self.arm_at(calendar, now, node)?;
            return Ok(Attempt::Dropped(first.frame.flight));
        }
        self.nodes.set_first(node, more);
        self.arm_at(calendar, now, node)?;
        Ok(Attempt::Busy)
    }

    // The first frame of a node goes on the air: every node that has a link from it hears it, or is disturbed by it.
    #[tactic(auto, unfolding(crate::specs::Turns::sky_after_begin))]
    fn begin(
        &mut self,
        calendar: &mut Calendar,
        now: u64,
        node: u32,
        first: Waiting,
    ) -> Result<(), AllocError>
        ensures { OnOk result (sky_after_begin now node first (record { air = self.old; due = calendar.old })
            ≡ record { air = self.new; due = calendar.new }) }
    {
        let sending = sending_of(self.settings.rate, first);
        let begun = Waiting {
            left: sending.left,
            ..first
        };
        self.nodes.set_first(node, begun);
        self.nodes.set_sending(node, true);
        self.nodes
            .hear_all(self.place.hearers(node), node, self.settings.collisions)?;
        let end = Moment::End {
            node,
            flight: first.frame.flight,
            segments: sending.segments,
        };
        calendar.put(now.saturating_add(sending.micros), end)
    }
}
