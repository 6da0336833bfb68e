//! What the owner knows of its nodes.
ghost use Rattle.std.specs.Prelude.{◌≡◌, map, length, IfOk};
ghost use Rattle.line_owner.specs.Members.{no_member, new_member, more, is_chosen, member_at, with_member, nth_of, unpolled, phase_before};
ghost use Rattle.line_owner.specs.Members.{waits_for_key, all_wait};

use std::alloc::{AllocError, Global};
use std::marker::Model;

/// Where a meter stands in a change of the key.
#[derive(Clone, Copy, Debug, PartialEq, Eq)]
pub enum Phase {
    /// It has no part in it.
    Out,
    /// It is to be challenged.
    Waits,
    /// It is challenged.
    Open,
    /// It has the new key.
    Done,
    /// It was not reached.
    Unreached,
}

/// Which meters of a change of the key are meant.
#[derive(Clone, Copy, Debug, PartialEq, Eq)]
pub enum Choice {
    /// Those that are to be challenged.
    Waiting,
    /// Those that are challenged.
    Challenged,
    /// Those that have the new key, and those that were not reached.
    Settled,
}

/// What the owner knows of a node.
#[derive(Clone, Copy, Debug)]
pub struct Member {
    pub joined: bool,
    /// Whether it has power.
    pub powered: bool,
    /// Whether the coordinator's book has it.
    pub booked: bool,
    /// Whether it was asked for a reading and is waited for.
    pub polled: bool,
    /// The hops to the coordinator.
    pub depth: u32,
    /// How many random values it holds.
    pub rands: u32,
    /// How often it tried to join.
    pub join_tries: u64,
    /// How many agents it tried.
    pub turns: u32,
    /// The agent that it tried last.
    pub agent: u32,
    /// How many readings in a row were not answered.
    pub missed: u64,
    /// How many seconds it has no power after a write that fails; 0 for a minute.
    pub off_for: u64,
    pub phase: Phase,
    /// How often it was challenged in a change of the key.
    pub challenges: u64,
}

/// A number more of a count, which stays at the last one.
pub fn more(count: u32) -> u32
    ensures { result ≡ more count }
{
    if count < u32::MAX {
        return count + 1;
    }
    count
}

// A node that is not on the line.
fn no_member() -> Member
    ensures { result ≡ no_member }
{
    Member {
        joined: false,
        powered: false,
        booked: false,
        polled: false,
        depth: 0,
        rands: 0,
        join_tries: 0,
        turns: 0,
        agent: 0,
        missed: 0,
        off_for: 0,
        phase: Phase::Out,
        challenges: 0,
    }
}

// A node with power that has not joined.
fn new_member(depth: u32) -> Member
    ensures { result ≡ new_member depth }
{
    let mut member = no_member();
    member.powered = true;
    member.depth = depth;
    member
}

fn is_chosen(choice: Choice, member: &Member) -> bool
    ensures { result ≡ is_chosen choice member.now }
{
    match member.phase {
        Phase::Out => false,
        Phase::Waits => choice == Choice::Waiting,
        Phase::Open => choice == Choice::Challenged,
        Phase::Done => choice == Choice::Settled,
        Phase::Unreached => choice == Choice::Settled,
    }
}

/// The nodes of a line, by their numbers. A contract sees the list of them.
#[derive(Drop)]
pub struct Members {
    members: Vec<Member>,
}

impl Model for Members {
    ghost use Rattle.std.specs.Prelude.{List};
    ghost use Rattle.line_owner.specs.declared.member.Member.{Member};

    ghost Value = { List Member };

    ghost view = { λ m. m.members.items };
}

impl Members {
    /// Nodes with power that have not joined, with their hops to the coordinator.
    pub fn new(alloc: Global, depths: &[u32]) -> Result<Members, AllocError>
        ensures { IfOk result (λ members. members ≡ map new_member depths.now) }
    {
        let mut members = Vec::new(alloc);
        for depth in depths {
            members.push(new_member(*depth))?;
        }
        Ok(Members { members })
    }

    /// How many there are.
    pub fn count(&self) -> usize
        ensures { result ≡ length self.now }
    {
        self.members.len()
    }

    /// A node, or one without power that has not joined where it is not on the line.
    #[tactic(auto, unfolding(crate::specs::Members::member_at))]
    pub fn at(&self, node: u32) -> Member
        ensures { result ≡ member_at node self.now }
    {
        match self.members.get(node as usize) {
            Some(member) => *member,
            None => no_member(),
        }
    }

    /// Changes a node; one that is not on the line changes nothing.
    #[tactic(auto, unfolding(crate::specs::Members::with_member))]
    pub fn set(&mut self, node: u32, member: Member)
        ensures { self.new ≡ with_member node member self.old }
    {
        if node as usize >= self.members.len() {
            return;
        }
        self.members[node as usize] = member;
    }

    /// The node with this many chosen ones before it that is chosen itself.
    pub fn nth(&self, choice: Choice, before: u32) -> Option<u32>
        ensures { result ≡ nth_of choice before 0 self.now }
    {
        let mut left = before;
        let mut node = 0_u32;
        for member in self.members.as_slice() {
            if is_chosen(choice, member) {
                if left == 0 {
                    return Some(node);
                }
                left -= 1;
            }
            node = more(node);
        }
        None
    }

    /// No meter is waited for.
    pub fn end_polls(&mut self)
        ensures { self.new ≡ map unpolled self.old }
    {
        unpoll(&mut self.members);
    }

    /// Each meter that the book has is to be challenged, and the coordinator is not.
    #[tactic(auto, unfolding(crate::specs::Members::all_wait))]
    pub fn begin_change(&mut self)
        ensures { self.new ≡ all_wait self.old }
    {
        await_key(&mut self.members);
        if let Some(coordinator) = self.members.first_mut() {
            coordinator.phase = Phase::Out;
        }
    }
}

fn unpoll(members: &mut [Member])
    ensures { members.new ≡ map unpolled members.old }
{
    for member in members.iter_mut() {
        member.polled = false;
    }
}

// Where a meter stands before a change of the key: all that the book has are to be challenged.
fn phase_before(booked: bool) -> Phase
    ensures { result ≡ phase_before booked }
{
    if booked { Phase::Waits } else { Phase::Out }
}

fn await_key(members: &mut [Member])
    ensures { members.new ≡ map waits_for_key members.old }
{
    for member in members.iter_mut() {
        member.phase = phase_before(member.booked);
        member.challenges = 0;
    }
}
