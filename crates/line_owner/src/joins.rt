//! How meters join, and leave.
ghost use Rattle.std.specs.Prelude.{◌≡◌, ◌<◌};
ghost use Rattle.line_owner.specs.Members.{member_at};
ghost use Rattle.line_owner.specs.Joins.{joins_by, joins_with_power, tries_to_join, takes_grant, has_left};

use crate::owner::{Owner, next_try};
use crate::{Act, Acts, Agent, Command, Task, agent_of_turn, later, micros, more};
use line_place::Place;

impl Owner {
    // A meter asks an agent, where it has one; it tries again later.
    fn join_by(&mut self, now: u64, node: u32, agent: Option<Agent>) -> Acts
        requires { (member_at node self.old.members).join_tries < self.old.settings.joining.tries }
        ensures owner { self.new ≡ (joins_by now node agent self.old).owner }
        ensures acts { result ≡ (joins_by now node agent self.old).acts }
    {
        let draw = u64::from(self.draw_time(5_000_000));
        let Some(agent) = agent else {
            let at = later(later(now, 30_000_000), draw);
            return Acts::One(Act::Put(at, Task::TryJoin(node)));
        };
        let mut member = self.member(node);
        member.turns = more(member.turns);
        member.join_tries = next_try(member.join_tries, self.settings.joining.tries);
        member.agent = agent.node;
        self.set_member(node, member);
        let at = later(later(now, micros(self.settings.joining.retry)), draw);
        Acts::Four(
            Act::Do(Task::Give(0, 2)),
            Act::Do(Task::Give(node, 1)),
            Act::Step(Command::Join(node, agent.node)),
            Act::Put(at, Task::TryJoin(node)),
        )
    }

    // A meter tries to join.
    #[tactic(auto, unfolding(crate::specs::Joins::tries_to_join, crate::specs::Joins::joins_with_power))]
    pub(crate) fn try_join(&mut self, place: &Place, now: u64, node: u32) -> Acts
        ensures owner { self.new ≡ (tries_to_join place.now now node self.old).owner }
        ensures acts { result ≡ (tries_to_join place.now now node self.old).acts }
    {
        let member = self.member(node);
        if member.joined {
            return Acts::Nothing;
        }
        if member.join_tries >= self.settings.joining.tries {
            return Acts::Nothing;
        }
        if !member.powered {
            let at = later(now, micros(self.settings.joining.retry));
            return Acts::One(Act::Put(at, Task::TryJoin(node)));
        }
        let agent = agent_of_turn(place, &self.members, node, member.turns);
        self.join_by(now, node, agent)
    }

    // A meter took its grant.
    #[tactic(auto, unfolding(crate::specs::Joins::takes_grant))]
    pub(crate) fn take_grant(&mut self, node: u32) -> Acts
        ensures owner { self.new ≡ (takes_grant node self.old).owner }
        ensures acts { result ≡ (takes_grant node self.old).acts }
    {
        let mut member = self.member(node);
        if member.joined {
            return Acts::Nothing;
        }
        member.joined = true;
        member.missed = 0;
        member.depth = more(self.member(member.agent).depth);
        self.set_member(node, member);
        Acts::Nothing
    }

    // A meter has left.
    #[tactic(auto, unfolding(crate::specs::Joins::has_left))]
    pub(crate) fn leave(&mut self, now: u64, node: u32) -> Acts
        ensures owner { self.new ≡ (has_left now node self.old).owner }
        ensures acts { result ≡ (has_left now node self.old).acts }
    {
        let mut member = self.member(node);
        member.joined = false;
        member.join_tries = 0;
        member.missed = 0;
        self.set_member(node, member);
        Acts::One(Act::Put(later(now, 1_000_000), Task::TryJoin(node)))
    }
}
