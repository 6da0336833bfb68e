//! A node on the air: its queue, and what it hears.
ghost use Rattle.std.specs.Prelude.{◌≡◌, ◌<◌, IfSome, ◌∷◌, ◌++◌, [], true, false, length, OnOk, position};
ghost use Rattle.std.specs.Prelude.{eqb};
ghost use Rattle.line_air.specs.Nodes.{new_node, is_busy, may_arm, may_hear_all, without_power, disturbed_ears, hearing_more, hearing_less, is_clean};
ghost use Rattle.line_air.specs.Nodes.{with_joined, with_power, with_armed, with_sending, with_frame, first_waiting, waiting_first, armed_with, first_gone};

use crate::frame::Waiting;
use std::alloc::{AllocError, Global};
use std::collections::VecDeque;
use std::marker::Model;

/// A frame that a node hears.
#[derive(Clone, Copy, Debug)]
pub struct Ear {
    /// Who sends it.
    pub from: u32,
    /// Whether no other frame disturbed it yet.
    pub clean: bool,
}

/// A node on the air.
///
/// A contract sees whether it has power, has joined, sends, and has an attempt due, its queue, and what it hears.
#[derive(Drop)]
pub struct Node {
    powered: bool,
    joined: bool,
    queue: VecDeque<Waiting>,
    sending: bool,
    armed: bool,
    heard: Vec<Ear>,
}

impl Model for Node {
    ghost use Rattle.line_air.specs.Nodes.{NodeState};

    ghost Value = { NodeState };

    ghost view = { λ n. record {
      powered = n.powered;
      joined = n.joined;
      sending = n.sending;
      armed = n.armed;
      queue = n.queue.items;
      heard = n.heard.items;
    } };
}

impl Node {
    // A node with power that has not joined.
    pub fn new(alloc: Global) -> Node
        ensures { result ≡ new_node }
    {
        Node {
            powered: true,
            joined: false,
            queue: VecDeque::new(alloc),
            sending: false,
            armed: false,
            heard: Vec::new(alloc),
        }
    }

    // Without power it neither sends nor hears.
    pub fn is_powered(&self) -> bool
        ensures { result ≡ self.now.powered }
    {
        self.powered
    }

    // Whether frames to all come to it: it has power and has joined.
    pub fn may_hear_all(&self) -> bool
        ensures { result ≡ may_hear_all self.now }
    {
        if !self.powered {
            return false;
        }
        self.joined
    }

    #[tactic(auto, unfolding(crate::specs::Nodes::with_joined))]
    pub fn set_joined(&mut self, joined: bool)
        ensures { self.new ≡ with_joined joined self.old }
    {
        self.joined = joined;
    }

    // Whether it senses that somebody sends, or sends itself.
    #[tactic(auto, unfolding(crate::specs::Nodes::is_busy))]
    pub fn is_busy(&self) -> bool
        ensures { result ≡ is_busy self.now }
    {
        if self.sending {
            return true;
        }
        !self.heard.is_empty()
    }

    // Whether an attempt has to be made: a frame waits, and neither an attempt nor the end of a frame is due.
    #[tactic(auto, unfolding(crate::specs::Nodes::may_arm))]
    pub fn may_arm(&self) -> bool
        ensures { result ≡ may_arm self.now }
    {
        if !self.powered {
            return false;
        }
        if self.armed {
            return false;
        }
        if self.sending {
            return false;
        }
        !self.queue.is_empty()
    }

    // An attempt is due, or no more.
    #[tactic(auto, unfolding(crate::specs::Nodes::with_armed))]
    pub fn set_armed(&mut self, armed: bool)
        ensures { self.new ≡ with_armed armed self.old }
    {
        self.armed = armed;
    }

    // A frame of it is on the air, or no more.
    #[tactic(auto, unfolding(crate::specs::Nodes::with_sending))]
    pub fn set_sending(&mut self, sending: bool)
        ensures { self.new ≡ with_sending sending self.old }
    {
        self.sending = sending;
    }

    // How many frames wait.
    pub fn waiting(&self) -> usize
        ensures { result ≡ length self.now.queue }
    {
        self.queue.len()
    }

    // It loses what waits. A frame that is on the air is cut short, and is heard by nobody.
    #[tactic(auto, unfolding(crate::specs::Nodes::without_power))]
    pub fn fail(&mut self)
        ensures { self.new ≡ without_power self.old }
    {
        self.powered = false;
        self.armed = false;
        self.sending = false;
        self.queue.clear();
    }

    // It has power again.
    #[tactic(auto, unfolding(crate::specs::Nodes::with_power))]
    pub fn restore(&mut self)
        ensures { self.new ≡ with_power self.old }
    {
        self.powered = true;
    }

    // A frame waits behind the others, unless the node has no power.
    #[tactic(auto, unfolding(crate::specs::Nodes::with_frame))]
    pub fn push(&mut self, waiting: Waiting) -> Result<(), AllocError>
        ensures { OnOk result (self.new ≡ with_frame waiting self.old) }
    {
        if !self.powered {
            return Ok(());
        }
        self.queue.push_back(waiting)?;
        Ok(())
    }

    // The frame that waits first.
    #[tactic(auto, unfolding(crate::specs::Nodes::first_waiting))]
    pub fn first(&self) -> Option<Waiting>
        ensures { result ≡ first_waiting self.now.queue }
    {
        self.queue.front().copied()
    }

    // The frame that waits first is another one.
    #[tactic(auto, unfolding(crate::specs::Nodes::waiting_first))]
    pub fn set_first(&mut self, waiting: Waiting)
        ensures { self.new ≡ waiting_first waiting self.old }
    {
        if !self.queue.is_empty() {
            self.queue[0] = waiting;
        }
    }

    // An attempt is due, and the first frame is held no longer.
    #[tactic(auto, unfolding(crate::specs::Nodes::armed_with, crate::specs::Nodes::waiting_first))]
    pub fn arm_first(&mut self, first: Waiting)
        ensures { self.new ≡ armed_with first self.old }
    {
        self.armed = true;
        self.set_first(Waiting { held: 0, ..first });
    }

    // The frame that waits first is gone.
    #[tactic(auto, unfolding(crate::specs::Nodes::first_gone))]
    pub fn drop_first(&mut self)
        ensures { self.new ≡ first_gone self.old }
    {
        self.queue.pop_front();
    }

    // What it hears is disturbed.
    fn disturb(&mut self)
        ensures { self.new ≡ record self.old { heard = disturbed_ears self.old.heard } }
    {
        disturb_all(&mut self.heard);
    }

    // It hears a frame more.
    fn add_ear(&mut self, from: u32, clean: bool) -> Result<(), AllocError>
        ensures { OnOk result (self.new ≡ record self.old {
          heard = self.old.heard ++ (record { from = from; clean = clean } ∷ []);
        }) }
    {
        self.heard.push(Ear { from, clean })?;
        Ok(())
    }

    // A frame of a node begins. Where frames disturb each other, it is clean only where nothing else is heard or sent here, and
    // disturbs what is heard.
    #[tactic(auto, unfolding(crate::specs::Nodes::hearing_more))]
    pub fn hear(&mut self, from: u32, collisions: bool) -> Result<(), AllocError>
        ensures { OnOk result (self.new ≡ hearing_more collisions from self.old) }
    {
        if !self.is_busy() {
            return self.add_ear(from, true);
        }
        if !collisions {
            return self.add_ear(from, true);
        }
        self.disturb();
        self.add_ear(from, false)
    }

    // Whether the frame of a node is heard, and nothing disturbed it.
    #[tactic(auto, unfolding(crate::specs::Nodes::is_clean), using(crate::proofs::Ears::ears))]
    pub fn is_clear(&self, from: u32) -> bool
        ensures { result ≡ is_clean from self.now.heard }
    {
        let Some(place) = place_of(&self.heard, from) else {
            return false;
        };
        self.heard[place].clean
    }

    // The frame of a node ends.
    #[tactic(auto, unfolding(crate::specs::Nodes::hearing_less, crate::specs::Nodes::without))]
    pub fn hear_no_more(&mut self, from: u32)
        ensures { self.new ≡ hearing_less from self.old }
    {
        let Some(place) = place_of(&self.heard, from) else {
            return;
        };
        self.heard.remove(place);
    }
}

// The first frame of a sender that is heard.
#[tactic(auto, using(crate::proofs::Ears::ears))]
fn place_of(heard: &[Ear], from: u32) -> Option<usize>
    ensures value { result ≡ position (λ (e : Ear). eqb e.from from) heard.now }
    ensures within { IfSome result (λ i. i < length heard.now) }
{
    heard.iter().position(|ear| ear.from == from)
}

// What is heard is disturbed.
#[tactic(auto, unfolding(crate::specs::Nodes::disturbed_ears), using(crate::proofs::MappedLists::mapping))]
fn disturb_all(heard: &mut [Ear])
    ensures { heard.new ≡ disturbed_ears heard.old }
{
    for ear in heard.iter_mut() {
        ear.clean = false;
    }
}
