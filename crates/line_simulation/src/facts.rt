//! What an event brought, as plain values.
ghost use Rattle.std.specs.Prelude.{◌≡◌};
ghost use Rattle.line_simulation.specs.Effects.{is_store, outcome_of};
ghost use Rattle.line_simulation.specs.Facts.{came_in, granted_in, facts_of};

use line_events::{Answer, Happenings};
use line_owner::{Message, Outcome};

/// A message of the owner's that came up.
#[derive(Clone, Copy, Debug)]
pub struct Came {
    pub node: u32,
    pub message: Message,
}

/// An address that the book gave to a node.
#[derive(Clone, Copy, Debug)]
pub struct Granted {
    pub node: u32,
    pub address: u16,
}

/// What an event brought.
#[derive(Clone, Copy, Debug)]
pub struct Facts {
    pub answer: Answer,
    pub came: Option<Came>,
    pub granted: Option<Granted>,
    pub took: Option<u32>,
    pub done: Option<u32>,
    pub first_flight: u32,
    pub flights: u32,
}

fn came_in(happenings: &Happenings<'_>) -> Option<Came>
    ensures { result ≡ came_in happenings.now.up }
{
    match &happenings.up {
        Some(up) => {
            let message = Message::read(up.octets.octets())?;
            Some(Came {
                node: u32::from(up.node),
                message,
            })
        }
        None => None,
    }
}

fn granted_in(happenings: &Happenings<'_>) -> Option<Granted>
    ensures { result ≡ granted_in happenings.now.grant }
{
    let admission = happenings.grant?;
    Some(Granted {
        node: u32::from(admission.node),
        address: admission.address.number(),
    })
}

fn node_of(node: Option<u16>) -> Option<u32>
    ensures { result ≡ node }
{
    match node {
        Some(node) => Some(u32::from(node)),
        None => None,
    }
}

fn is_store(answer: Answer) -> bool
    ensures { result ≡ is_store answer }
{
    match answer {
        Answer::Store => true,
        _ => false,
    }
}

impl Facts {
    /// Of what happened.
    pub fn of(happenings: &Happenings<'_>) -> Facts
        ensures { result ≡ facts_of happenings.now }
    {
        Facts {
            answer: happenings.answer,
            came: came_in(happenings),
            granted: granted_in(happenings),
            took: node_of(happenings.took),
            done: node_of(happenings.done),
            first_flight: happenings.first_flight,
            flights: u32::from(happenings.flights),
        }
    }

    /// How a command of the owner's ended.
    #[tactic(auto, unfolding(crate::specs::Effects::outcome_of))]
    pub fn outcome(&self) -> Outcome
        ensures { result ≡ outcome_of self.now }
    {
        if is_store(self.answer) {
            return Outcome::StoreFailed;
        }
        if self.answer.is_ok() {
            return Outcome::Taken;
        }
        Outcome::Refused
    }
}
