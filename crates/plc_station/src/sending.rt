//! What a station sends by itself.
ghost use Rattle.std.specs.Prelude.{◌≡◌, ◌==◌, ◌||◌, nat_lt, Err, IfSome, IfNone, length};
ghost use Rattle.node_rules.specs.Calls as calls;
ghost use Rattle.node_rules.specs.CarriedPlans.{Carries, nothing};
ghost use Rattle.node_rules.specs.Agreement.{Agrees};
ghost use Rattle.plc_station.specs.Ready.{After, ReadyToSend};
ghost use Rattle.plc_base.specs.declared.limits.TheConstants.{LONGEST_DATAGRAM};

use crate::loads::LoadKind;
use crate::station::Station;
use node_rules::{SendRefusal, SentHow};
use plc_base::{Grant, Keeper, LONGEST_DATAGRAM, Out, Short};

// Whether a datagram has not 1 to 1,280 octets.
fn has_bad_size(datagram: &[u8]) -> bool
    ensures { result ≡ ((length datagram.now == 0) || nat_lt LONGEST_DATAGRAM (length datagram.now)) }
{
    datagram.is_empty() || datagram.len() > LONGEST_DATAGRAM
}

impl<K: Keeper + Drop> Station<K> {
    // A datagram is sent from the own address.
    fn send_from(
        &mut self,
        grant: &Grant,
        to: Short,
        datagram: &[u8],
        note: u32,
        now: u64,
        out: &mut Out,
    ) -> Result<SentHow, SendRefusal>
        requires ready { ReadyToSend self.old grant.now out.old }
        ensures carries { IfSome self.old.memory
            (λ l. Carries self.old
            (calls.send_from l grant.now.address to datagram.now note now) result out.new self.new) }
        ensures after { After self.old self.new }
    {
        if has_bad_size(datagram) {
            return Err(SendRefusal::BadSize);
        }
        if self.is_own(to.number()) {
            return Err(SendRefusal::ToSelf);
        }
        self.sets_out(grant, to, LoadKind::Datagram, datagram, note, now, out)
    }

    /// Sends a datagram to an address, at a time in seconds, under a number of the caller's: its frames, sealed, are in `out`; or
    /// it waits for a route, and where nothing waited for that one yet, a request for it to all is in `out`.
    ///
    /// Halted, NotJoined, BadSize, ToSelf, WaitingFull, SeqSpent, CounterSpent, Store, in this order.
    pub fn send(
        &mut self,
        to: Short,
        datagram: &[u8],
        note: u32,
        now: u64,
        out: &mut Out,
    ) -> Result<SentHow, SendRefusal>
        requires agrees { Agrees self.old }
        ensures halted { IfNone self.old.memory
            ((result ≡ Err SendRefusal.Halted) × (out.new ≡ nothing) × (self.new ≡ self.old)) }
        ensures carries { IfSome self.old.memory
            (λ l. Carries self.old (calls.send l to datagram.now note now) result out.new self.new) }
        ensures after { After self.old self.new }
    {
        out.clear();
        if self.halted {
            return Err(SendRefusal::Halted);
        }
        let Some(grant) = self.parts.ring.grant() else {
            return Err(SendRefusal::NotJoined);
        };
        self.send_from(&grant, to, datagram, note, now, out)
    }
}
