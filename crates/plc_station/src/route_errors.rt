//! What a station makes of route errors.
ghost use Rattle.std.specs.Prelude.{◌≡◌, ◌+◌, ◌≤◌, IfSome, Some};
ghost use Rattle.loadng_messages.specs.declared.message.Message.TheVariants as message;
ghost use Rattle.node_rules.specs.declared.heard.Heard.TheVariants as heard;
ghost use Rattle.node_rules.specs.Drafts as drafts;
ghost use Rattle.node_rules.specs.HearingRules as hearing_rules;
ghost use Rattle.routing_set.specs.RoutingSet as routes;
ghost use Rattle.node_rules.specs.CarriedPlans.{Carries};
ghost use Rattle.plc_station.specs.Ready.{After, ReadyToAnswer, ReadyToSend};
ghost use Rattle.plc_base.specs.declared.limits.TheConstants.{GREATEST_COUNTER};

use crate::sealing::seal_message;
use crate::station::Station;
use loadng_messages::Message;
use node_rules::{Dropped, Heard};
use plc_base::{Destination, Grant, Keeper, Out, Short};
use routing_set::RoutingSet;

// The next hop to an address once the route to the lost one has ended where it goes by a neighbour.
fn hop_left(routing: &RoutingSet, by: Short, lost: Short, to: Short) -> Option<Short>
    ensures { result ≡ routes.next_of (routes.without_next_to routing.now lost by) to }
{
    let Some(hop) = routing.route(to) else {
        return None;
    };
    if to.number() != lost.number() {
        return Some(hop);
    }
    if hop.number() == by.number() {
        return None;
    }
    Some(hop)
}

impl<K: Keeper + Drop> Station<K> {
    // The route to the lost address ends, and the error ends here.
    fn lose(&mut self, by: Short, lost: Short, out: &Out) -> Result<Heard<'static>, Dropped>
        requires ready { ReadyToAnswer self.old out.now }
        ensures carries { IfSome self.old.memory
            (λ l. Carries self.old (drafts.sealing drafts.alone hearing_rules.dropped
            (hearing_rules.loses lost by l) heard.Broken) result out.now self.new) }
        ensures after { After self.old self.new }
    {
        self.parts.routing.invalidate(lost, by);
        Ok(Heard::Broken)
    }

    // The route to the lost address ends, and the error goes on to the hop.
    fn pass_error_on(
        &mut self,
        grant: &Grant,
        by: Short,
        lost: Short,
        to: Short,
        hop: Short,
        out: &mut Out,
    ) -> Result<Heard<'static>, Dropped>
        requires ready { ReadyToSend self.old grant.now out.old }
        requires left { IfSome self.old.memory (λ l. l.counter.next + 1 ≤ GREATEST_COUNTER) }
        ensures carries { IfSome self.old.memory (λ l. Carries self.old (drafts.sealing drafts.alone hearing_rules.dropped
            (drafts.send_message hop (message.Rerr lost to) (hearing_rules.loses lost by l)) heard.Broken) result out.new self.new) }
        ensures after { After self.old self.new }
    {
        self.halted = true;
        let Ok(counter) = self.parts.counter.reserve(&mut self.keeper, 1) else {
            return Err(Dropped::Store);
        };
        self.parts.routing.invalidate(lost, by);
        let error = Message::Rerr { lost, to };
        let key = grant.sealing_key();
        self.cipher.renew(&key);
        seal_message(
            grant,
            &key,
            &self.cipher,
            counter,
            Destination::one(hop),
            &error,
            out,
        );
        self.halted = false;
        Ok(Heard::Broken)
    }

    // Hears a route error.
    pub(crate) fn hear_error(
        &mut self,
        grant: &Grant,
        by: Short,
        lost: Short,
        to: Short,
        out: &mut Out,
    ) -> Result<Heard<'static>, Dropped>
        requires ready { ReadyToSend self.old grant.now out.old }
        ensures carries { IfSome self.old.memory
            (λ l. Carries self.old (hearing_rules.hear_error l grant.now.address by lost to) result out.new self.new) }
        ensures after { After self.old self.new }
    {
        let left = self.parts.counter.left();
        if to.number() == grant.address.number() {
            return self.lose(by, lost, out);
        }
        let Some(hop) = hop_left(&self.parts.routing, by, lost, to) else {
            return self.lose(by, lost, out);
        };
        if left < 1 {
            return Err(Dropped::CounterSpent);
        }
        self.pass_error_on(grant, by, lost, to, hop, out)
    }
}
