//! What a node does with a path message that it hears.
ghost use Rattle.std.specs.Prelude.{◌≡◌, ◌≤◌, Some, IfOk, length, position, ◌==◌};
ghost use Rattle.path_requests.specs.Messages.{IsPath};
ghost use Rattle.path_requests.specs.PathSteps as takings;

use crate::message::PathMessage;
use crate::step::{PathRefusal, PathStep};
use crate::walk::Walk;
use plc_base::Short;

// Where an ask leads from a node: back to the sender from its target, and else to the next hop.
fn hop(own: Short, from: Short, next: Option<Short>, target: Short) -> Option<Short>
    ensures { result ≡ takings.hop own from next target }
{
    if target.number() == own.number() {
        return Some(from);
    }
    next
}

// An ask that leads to this neighbour.
fn lead_ask(own: Short, target: Short, walk: &Walk, to: Short) -> Result<PathStep, PathRefusal>
    requires { length walk.now ≤ 15 }
    ensures { result ≡ takings.ask_led own target walk.now (Some to) }
{
    if walk.has(own) {
        return Err(PathRefusal::Revisited);
    }
    if target.number() == own.number() {
        let message = PathMessage::Tell {
            walk: walk.with(own),
        };
        return Ok(PathStep::Answer { to, message });
    }
    if walk.len() == 15 {
        return Err(PathRefusal::PathLong);
    }
    let message = PathMessage::Ask {
        target,
        walk: walk.with(own),
    };
    Ok(PathStep::Forward { to, message })
}

fn take_ask(
    own: Short,
    from: Short,
    next: Option<Short>,
    target: Short,
    walk: &Walk,
) -> Result<PathStep, PathRefusal>
    requires { length walk.now ≤ 15 }
    ensures { result ≡ takings.ask_taken own from next target walk.now }
{
    if !walk.ends_with(from) {
        return Err(PathRefusal::BadUnit);
    }
    match hop(own, from, next, target) {
        None => Err(PathRefusal::NoRoute),
        Some(to) => lead_ask(own, target, walk, to),
    }
}

fn take_tell(own: Short, from: Short, walk: &Walk) -> Result<PathStep, PathRefusal>
    ensures { result ≡ takings.tell_taken from walk.now (position (λ a. a == own) walk.now) }
{
    let Some(place) = walk.place_of(own) else {
        return Err(PathRefusal::BadUnit);
    };
    if !walk.has_at(place + 1, from) {
        return Err(PathRefusal::BadUnit);
    }
    if place == 0 {
        return Ok(PathStep::Done {
            walk: walk.copied(),
        });
    }
    Ok(PathStep::Forward {
        to: walk.at(place - 1),
        message: PathMessage::Tell {
            walk: walk.copied(),
        },
    })
}

// The step alone.
fn step_of(
    own: Short,
    from: Short,
    next: Option<Short>,
    message: &PathMessage,
) -> Result<PathStep, PathRefusal>
    requires { IsPath message.now }
    ensures { result ≡ takings.taken own from next message.now }
{
    match message {
        PathMessage::Ask { target, walk } => take_ask(own, from, next, *target, walk),
        PathMessage::Tell { walk } => take_tell(own, from, walk),
    }
}

/// What the node with the address `own` does with a path message that its neighbour `from` sent to it alone. `next` is the next
/// hop of its valid route to the target of an ask, and counts for no other message.
///
/// An ask for another node goes on to `next` with the own address added to its walk. An ask for the own address is answered by a
/// tell of the walk and the own address. A tell goes on to the address before the own one, and is done where the own one is the
/// first.
///
/// The refusals, in this order. BadUnit exactly where the last address of an ask is not `from`, or a tell does not have the own
/// address with `from` directly after it. For an ask: NoRoute exactly where the target is another node and `next` is None;
/// Revisited exactly where the own address is in the walk; PathLong exactly where the target is another node and the walk has 15
/// addresses.
pub fn take_path(
    own: Short,
    from: Short,
    next: Option<Short>,
    message: &PathMessage,
) -> Result<PathStep, PathRefusal>
    requires { IsPath message.now }
    ensures step { result ≡ takings.taken own from next message.now }
    // What goes out is a path message again.
    ensures message { IfOk result takings.IsStep }
{
    let _address = own.number();
    step_of(own, from, next, message)
}
