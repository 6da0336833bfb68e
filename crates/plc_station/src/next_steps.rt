//! What a body that is to be sent would do.
ghost use Rattle.std.specs.Prelude.{◌≡◌, ◌≤◌, IfOk, IfSome};
ghost use Rattle.plc_base.specs.declared.limits.TheConstants.{LONGEST_DATAGRAM};
ghost use Rattle.plc_station.specs.NextSteps.{CanStep, next_step, step_answer};

use crate::station::Station;
use node_rules::SendRefusal;
use plc_base::{Keeper, Short};

/// What a body for an address would do: it goes to the next hop, waits for a route that something waits for already, or waits for one
/// that it seeks.
#[derive(Clone, Copy)]
pub enum NextStep {
    Goes(Short),
    Waits,
    Seeks,
}

// What a step would be refused for.
pub(crate) fn refusal_of(step: Result<NextStep, SendRefusal>) -> Result<(), SendRefusal>
    ensures { result ≡ step_answer step }
{
    match step {
        Ok(_) => Ok(()),
        Err(reason) => Err(reason),
    }
}

impl<K: Keeper + Drop> Station<K> {
    // What a body of this many octets for an address would do, where it goes out in this many frames. WaitingFull, SeqSpent, CounterSpent,
    // in this order.
    pub(crate) fn next_step(
        &self,
        to: Short,
        octets: usize,
        frames: u32,
    ) -> Result<NextStep, SendRefusal>
        requires size { octets ≤ LONGEST_DATAGRAM }
        ensures step { IfSome self.now.memory (λ l. result ≡ next_step l to octets frames) }
        ensures fits { IfOk result (λ step. IfSome self.now.memory (λ l. CanStep l octets frames step)) }
    {
        let left = self.parts.counter.left();
        if let Some(hop) = self.parts.routing.route(to) {
            if left < frames {
                return Err(SendRefusal::CounterSpent);
            }
            return Ok(NextStep::Goes(hop));
        }
        if self.bodies.no_room(octets) {
            return Err(SendRefusal::WaitingFull);
        }
        if self.bodies.is_awaited(to) {
            return Ok(NextStep::Waits);
        }
        if self.parts.own_number.last() == u16::MAX {
            return Err(SendRefusal::SeqSpent);
        }
        if left < 1 {
            return Err(SendRefusal::CounterSpent);
        }
        Ok(NextStep::Seeks)
    }
}
