//! The agents within reach of a meter.
ghost use Rattle.std.specs.Prelude.{◌≡◌, IfSome};
ghost use Rattle.line_place.specs.declared.link.Link.{Link};
ghost use Rattle.line_place.specs.Rows.{hearers};
ghost use Rattle.line_owner.specs.Agents.{cost_to, agent_by, agent_at, is_before, best_with, best_step, next_agent, agent_count, nth_agent};
ghost use Rattle.line_owner.specs.Agents.{agent_of_turn, IsWithinReach, AgentsComeInOrder};

use crate::member::Members;
use line_place::{Link, Place};

/// A neighbour by which a meter may join.
#[derive(Clone, Copy, Debug)]
pub struct Agent {
    /// Eight for each hop to the coordinator, and the cost of the way to the meter.
    pub weight: u64,
    pub node: u32,
}

// What the link to a node costs, where there is one.
#[tactic(auto, unfolding(crate::specs::Agents::cost_to))]
fn cost_to(links: &[Link], node: u32) -> Option<u8>
    ensures { result ≡ cost_to links.now node }
{
    match links.iter().find(|link| link.to == node) {
        Some(link) => Some(link.cost),
        None => None,
    }
}

// A neighbour as an agent, at the cost of its link to the meter.
fn agent_by(members: &Members, node: u32, cost: u8) -> Option<Agent>
    ensures { result ≡ agent_by members.now node cost }
{
    let member = members.at(node);
    if !member.joined {
        return None;
    }
    if !member.powered {
        return None;
    }
    Some(Agent {
        weight: u64::from(member.depth) * 8 + u64::from(cost),
        node,
    })
}

// A hearer of a meter as its agent.
#[tactic(auto, unfolding(crate::specs::Agents::agent_at))]
fn agent_at(place: &Place, members: &Members, node: u32, link: &Link) -> Option<Agent>
    ensures { result ≡ agent_at place.now members.now node link.now }
{
    match cost_to(place.hearers(link.to), node) {
        Some(cost) => agent_by(members, link.to, cost),
        None => None,
    }
}

#[tactic(auto, unfolding(crate::specs::Agents::is_before))]
fn is_before(a: &Agent, b: &Agent) -> bool
    ensures { result ≡ is_before a.now b.now }
{
    a.weight < b.weight || (a.weight == b.weight && a.node < b.node)
}

// The better one of two, where the second comes after the last one.
fn best_with(last: Option<Agent>, best: Option<Agent>, other: Option<Agent>) -> Option<Agent>
    ensures { result ≡ best_with last best other }
{
    let Some(agent) = other else {
        return best;
    };
    if let Some(last) = last {
        if !is_before(&last, &agent) {
            return best;
        }
    }
    let Some(first) = best else {
        return Some(agent);
    };
    if is_before(&agent, &first) {
        return Some(agent);
    }
    Some(first)
}

#[tactic(auto, unfolding(crate::specs::Agents::next_agent, crate::specs::Agents::best_step))]
fn next_agent(place: &Place, members: &Members, node: u32, last: Option<Agent>) -> Option<Agent>
    ensures { result ≡ next_agent place.now members.now node last }
{
    let mut best = None;
    for link in place.hearers(node) {
        best = best_with(last, best, agent_at(place, members, node, link));
    }
    best
}

#[tactic(auto, unfolding(crate::specs::Agents::agent_count))]
fn agent_count(place: &Place, members: &Members, node: u32) -> usize
    ensures { result ≡ agent_count place.now members.now node }
{
    let mut count = 0;
    for link in place.hearers(node) {
        if agent_at(place, members, node, link).is_some() {
            count += 1;
        }
    }
    count
}

#[tactic(auto, unfolding(crate::specs::Agents::nth_agent))]
fn nth_agent(place: &Place, members: &Members, node: u32, before: usize) -> Option<Agent>
    ensures { result ≡ nth_agent place.now members.now node before }
{
    let mut agent = next_agent(place, members, node, None);
    for k in 0..before {
        agent = next_agent(place, members, node, agent);
    }
    agent
}

/// The agent whose turn it is, where there is one: all in their order, and then from the first again. It has joined and has power, and it and
/// the meter hear each other.
#[tactic(auto, unfolding(crate::specs::Agents::agent_of_turn))]
pub fn agent_of_turn(place: &Place, members: &Members, node: u32, turn: u32) -> Option<Agent>
    ensures turn { result ≡ agent_of_turn place.now members.now node turn }
    ensures within_reach { IfSome result (λ agent. IsWithinReach place.now members.now node agent) }
{
    let count = agent_count(place, members, node);
    if count == 0 {
        return None;
    }
    nth_agent(place, members, node, turn as usize % count)
}

/// The agents of a meter come in their order: the next one is the first of those that come after the last one.
pub fn agents_come_in_order()
    ensures { AgentsComeInOrder }
{}
