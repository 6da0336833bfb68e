//! The owner of a line, between its turns.
ghost use Rattle.std.specs.Prelude.{◌≡◌, ◌<◌, ◌+◌, IfOk, map, None, [], OnOk};
ghost use Rattle.air_draws.specs.Draws.{below, after, key_octets, first};
ghost use Rattle.line_owner.specs.Members.{member_at, new_member};
ghost use Rattle.line_owner.specs.Asked.{reading_at};
ghost use Rattle.line_owner.specs.States.{with_node, with_asked, gives, spends, fails, fails_at_write, off_after_write, restores, timed, keyed};
ghost use Rattle.air_draws.specs.declared.draws.Purpose.TheVariants.{Times, Keys};

use crate::settings::Settings;
use crate::{Act, Acts, Asked, Command, Member, Members, Reading, Task, later, micros};
use air_draws::{Draws, Purpose};
use std::alloc::{AllocError, Global};
use std::marker::Model;

/// Which meter is asked for its reading next, and for which round.
#[derive(Clone, Copy, Debug)]
pub struct Polls {
    pub next: u32,
    pub round: u32,
}

/// A change of the key.
#[derive(Clone, Copy, Debug)]
pub struct Change {
    /// The index of the new key.
    pub index: u8,
    /// Whether all were challenged, and the orders have begun.
    pub ordering: bool,
}

// One try more, of at most this many.
pub(crate) fn next_try(tries: u64, most: u64) -> u64
    requires { tries < most }
    ensures { result ≡ tries + 1 }
{
    tries + 1
}

/// The owner of a line: whom it lets in, when meters are read, how the key is changed.
///
/// A contract sees its settings, what it knows of nodes and readings, and its draws (`specs/States.antt`).
#[derive(Drop)]
pub struct Owner {
    pub(crate) settings: Settings,
    pub(crate) members: Members,
    pub(crate) readings: Asked,
    pub(crate) polls: Polls,
    pub(crate) change: Option<Change>,
    times: Draws,
    keys: Draws,
}

impl Model for Owner {
    ghost use Rattle.line_owner.specs.States.{OwnerState};

    ghost Value = { OwnerState };

    ghost view = { λ o. record {
      settings = o.settings;
      members = o.members;
      readings = o.readings;
      polls = o.polls;
      change = o.change;
      times = o.times;
      keys = o.keys;
    } };
}

impl Owner {
    /// An owner that has done nothing yet, of nodes with these hops to the coordinator: 0 for all where meters join over the air.
    pub fn new(
        alloc: Global,
        settings: Settings,
        depths: &[u32],
        seed: u64,
    ) -> Result<Owner, AllocError>
        ensures { IfOk result (λ owner. owner ≡ record {
          settings = settings;
          members = map new_member depths.now;
          readings = [];
          polls = record { next = 0; round = 0 };
          change = None;
          times = first seed Times;
          keys = first seed Keys;
        }) }
    {
        Ok(Owner {
            settings,
            members: Members::new(alloc, depths)?,
            readings: Asked::new(alloc),
            polls: Polls { next: 0, round: 0 },
            change: None,
            times: Draws::new(seed, Purpose::Times),
            keys: Draws::new(seed, Purpose::Keys),
        })
    }

    // A number of the times below a bound.
    pub(crate) fn draw_time(&mut self, bound: u32) -> u32
        ensures value { result ≡ below bound self.old.times }
        ensures after { self.new ≡ timed self.old }
    {
        self.times.below(bound)
    }

    pub(crate) fn draw_key(&mut self) -> [u8; 16]
        ensures value { result ≡ key_octets self.old.keys }
        ensures after { self.new ≡ keyed self.old }
    {
        self.keys.key()
    }

    pub(crate) fn member(&self, node: u32) -> Member
        ensures { result ≡ member_at node self.now.members }
    {
        self.members.at(node)
    }

    pub(crate) fn set_member(&mut self, node: u32, member: Member)
        ensures { self.new ≡ with_node node member self.old }
    {
        self.members.set(node, member);
    }

    pub(crate) fn reading(&self, node: u32, round: u32) -> Reading
        ensures { result ≡ reading_at node round self.now.readings }
    {
        self.readings.at(node, round)
    }

    pub(crate) fn set_reading(
        &mut self,
        node: u32,
        round: u32,
        reading: Reading,
    ) -> Result<(), AllocError>
        ensures { OnOk result (self.new ≡ with_asked node round reading self.old) }
    {
        self.readings.set(node, round, reading)
    }

    // Gives a node a random value, unless it holds this many.
    #[tactic(auto, unfolding(crate::specs::States::gives))]
    pub(crate) fn give(&mut self, node: u32, least: u32) -> Acts
        ensures owner { self.new ≡ (gives node least self.old).owner }
        ensures acts { result ≡ (gives node least self.old).acts }
    {
        if self.member(node).rands < least {
            let value = self.draw_key();
            return Acts::One(Act::Step(Command::RandomOctets(node, least, value)));
        }
        Acts::Nothing
    }

    // A node has spent a random value.
    pub(crate) fn spend(&mut self, node: u32)
        ensures { self.new ≡ spends node self.old }
    {
        let mut member = self.member(node);
        member.rands = member.rands.saturating_sub(1);
        self.set_member(node, member);
    }

    // Power of a node fails for this many seconds.
    #[tactic(auto, unfolding(crate::specs::States::fails))]
    pub(crate) fn fail(&mut self, now: u64, node: u32, seconds: u64) -> Acts
        ensures owner { self.new ≡ (fails now node seconds self.old).owner }
        ensures acts { result ≡ (fails now node seconds self.old).acts }
    {
        let mut member = self.member(node);
        if !member.powered {
            return Acts::Nothing;
        }
        member.powered = false;
        member.off_for = 0;
        self.set_member(node, member);
        let at = later(now, micros(seconds));
        Acts::Two(Act::Dark(node, seconds), Act::Put(at, Task::Restore(node)))
    }

    // How long a node has no power after a write that failed.
    pub(crate) fn off_after_write(&self, node: u32) -> u64
        ensures { result ≡ off_after_write (member_at node self.now.members) }
    {
        let member = self.member(node);
        if member.off_for == 0 {
            return 60;
        }
        member.off_for
    }

    // A write of a node's store failed.
    #[tactic(auto, unfolding(crate::specs::States::fails_at_write))]
    pub(crate) fn fail_at_write(&mut self, now: u64, node: u32) -> Acts
        ensures owner { self.new ≡ (fails_at_write now node self.old).owner }
        ensures acts { result ≡ (fails_at_write now node self.old).acts }
    {
        let seconds = self.off_after_write(node);
        self.fail(now, node, seconds)
    }

    // Power of a node is back.
    #[tactic(auto, unfolding(crate::specs::States::restores))]
    pub(crate) fn restore(&mut self, now: u64, node: u32) -> Acts
        ensures owner { self.new ≡ (restores now node self.old).owner }
        ensures acts { result ≡ (restores now node self.old).acts }
    {
        let mut member = self.member(node);
        member.powered = true;
        member.rands = 0;
        self.set_member(node, member);
        let restart = Act::Step(Command::Restart(node));
        if node == 0 {
            return Acts::One(restart);
        }
        if member.joined {
            return Acts::One(restart);
        }
        let at = later(now, 1_000_000);
        Acts::Two(restart, Act::Put(at, Task::TryJoin(node)))
    }
}
