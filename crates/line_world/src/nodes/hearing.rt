//! What a node makes of a frame that it accepted.
ghost use Rattle.std.specs.Prelude.{◌≡◌, ◌<◌, length, IfSome, IsSome, slice_get};
ghost use Rattle.node_rules.specs.Ciphers.{network};
ghost use Rattle.node_rules.specs.Replies.{reply_among};
ghost use Rattle.reach_rules.specs.CheckedReplies.{message_of};
ghost use Rattle.line_rules.specs.Steps.{hearing_step};
ghost use Rattle.line_world.specs.Receptions.{MayHear, Received};

use crate::nodes::Nodes;
use crate::nodes::node_receptions::{reception_of, reception_of_coordinator, reception_of_meter};
use crate::nodes::reception::Reception;
use crate::nodes::station_further::reply_of;
use line_events::Answer;
use plc_base::{DatagramBuf, LinkCost, Out};
use plc_station::Accepted;

impl Nodes {
    /// A node hears a frame that it accepted, over a link of this cost, under a number of the caller's, at a time in seconds. A
    /// datagram that is handed up is then in `datagram`, and what goes out is in `out`.
    pub fn hear<'a>(
        &mut self,
        number: usize,
        got: Accepted<'a>,
        cost: LinkCost,
        note: u32,
        now: u64,
        datagram: &'a mut DatagramBuf,
        out: &mut Out,
    ) -> Reception<'a>
        requires there { number < length self.old }
        requires accepted { IfSome (slice_get self.old number) (λ x. MayHear x got) }
        ensures received { IfSome (slice_get self.old number) (λ x. Received (hearing_step network x got.entry cost note now)
            self.old number result out.new self.new) }
        ensures replied { IsSome (message_of got.entry) → IfSome (slice_get self.old number)
            (λ x. result.replied ≡ reply_among (hearing_step network x got.entry cost note now).frames) }
    {
        if number > 0 {
            let meter = &mut self.meters[number - 1];
            let heard = meter.hear(got, cost, note, now, datagram, out);
            let replied = reply_of(meter.last_reply());
            return reception_of_meter(&heard, replied);
        }
        let Some(coordinator) = &mut self.coordinator else {
            return reception_of(Answer::Store, None);
        };
        let heard = coordinator.hear(got, cost, note, now, datagram, out);
        let replied = reply_of(coordinator.last_reply());
        reception_of_coordinator(&heard, replied)
    }
}
