//! Which frames a station accepts.
ghost use Rattle.std.specs.Prelude.{◌≡◌, ◌==◌, ◌||◌, ◌+◌, ◌<◌, ◌≤◌, true, false, Some, None, Ok, Err, IfSome, IsSome, ◌++◌, [], IfNone, IfOk, OnErr, length};
ghost use Rattle.node_rules.specs.CarriedPlans.{Carries, nothing};
ghost use Rattle.node_rules.specs.Agreement.{Agrees};
ghost use Rattle.plc_station.specs.Ready.{After, Ready};
ghost use Rattle.plc_station.specs.Heard.{FitsPath, accepted_on};
ghost use Rattle.group_keys.specs.KeyRing as ring;
ghost use Rattle.mac_frames.specs.Grammar.{Frame, IsSealed};
ghost use Rattle.node_rules.specs.Ciphers.{network};
ghost use Rattle.node_rules.specs.Frames.{arrived, arrived_with};
ghost use Rattle.node_rules.specs.Acceptance as acceptance;
ghost use Rattle.node_rules.specs.Laws.{WaitingFits};
ghost use Rattle.plc_base.specs.declared.limits.TheConstants.{LONGEST_FRAME};

use crate::accepted::Accepted;
use crate::station::Station;
use frame_counters::PeerFault;
use mac_frames::{MacHead, RawFrame, open_frame, read_frame};
use node_rules::{FrameRefusal, Path};
use plc_base::{Destination, FrameBuf, Keeper, KeyIndex, PAN, Short};

// Keeps octets in place of what a buffer held.
fn hold(octets: &[u8], buffer: &mut FrameBuf)
    requires { length octets.now ≤ LONGEST_FRAME }
    ensures { buffer.new ≡ octets.now }
{
    buffer.clear();
    buffer.append(octets);
}

// What the marks say of a counter.
fn mark_refusal(fault: PeerFault) -> FrameRefusal
    ensures { result ≡ acceptance.mark_refusal fault }
{
    match fault {
        PeerFault::Replayed => FrameRefusal::Replayed,
        PeerFault::PeersFull => FrameRefusal::PeersFull,
        PeerFault::Store => FrameRefusal::Store,
    }
}

impl<K: Keeper + Drop> Station<K> {
    // Whether an address is the own one.
    pub(crate) fn is_own(&self, address: u16) -> bool
        ensures { IfSome self.now.memory (λ l. result ≡ acceptance.is_own l address) }
    {
        match self.parts.ring.joined() {
            Some(own) => own.number() == address,
            None => false,
        }
    }

    // Whether a frame is for this node and from another one.
    fn is_for_me(&self, head: &MacHead) -> bool
        ensures { IfSome self.now.memory (λ l. result ≡ acceptance.is_for_me l self.now.eui head.now) }
    {
        match *head {
            MacHead::Sealed { pan, to, from, .. } => {
                pan == PAN
                    && (self.is_own(to.number()) || to.is_all())
                    && !self.is_own(from.number())
            }
            MacHead::Up { pan, to, from, .. } => {
                pan == PAN && self.is_own(to.number()) && self.eui.number() != from.number()
            }
            MacHead::Down { pan, to, from, .. } => {
                pan == PAN && self.eui.number() == to.number() && !self.is_own(from.number())
            }
        }
    }

    // Keeps the counter of a sealed frame whose tag is right as the mark of its sender.
    fn admit(
        &mut self,
        from: Short,
        counter: u32,
        path: Path,
        payload: &[u8],
    ) -> Result<Path, FrameRefusal>
        requires ready { Ready self.old }
        ensures carries { IfSome self.old.memory
            (λ l. Carries self.old (acceptance.admit l from counter (record { path = path; payload = payload.now }))
            (accepted_on result payload.now) nothing self.new) }
        ensures after { After self.old self.new }
        ensures same { IfOk result (λ on. on ≡ path) }
        ensures running { IfOk result (λ _. IsSome self.new.memory) }
    {
        if let Err(fault) = self.parts.marks.room(from, counter) {
            return Err(mark_refusal(fault));
        }
        self.halted = true;
        let Ok(()) = self.parts.marks.keep(&mut self.keeper, from, counter) else {
            return Err(FrameRefusal::Store);
        };
        self.halted = false;
        Ok(path)
    }

    // Opens a sealed frame, and keeps its counter as the mark of its sender.
    fn open_sealed(
        &mut self,
        raw: &RawFrame<'_>,
        to: Destination,
        from: Short,
        counter: u32,
        index: KeyIndex,
        payload: &mut FrameBuf,
    ) -> Result<Path, FrameRefusal>
        requires ready { Ready self.old }
        requires sealed { IsSealed raw.now.head }
        requires frame { Frame raw.now.head raw.now.body.now (raw.now.header.now ++ raw.now.body.now) }
        ensures carries { IfSome self.old.memory (λ l. Carries self.old
            (acceptance.with_key l
            (arrived_with network raw.now.head raw.now.header.now raw.now.body.now) to from counter
            (ring.key_in_ring l.ring index))
            (accepted_on result payload.new) nothing self.new) }
        ensures after { After self.old self.new }
        ensures fits { IfOk result (λ path. FitsPath path (length payload.new)) }
        ensures running { IfOk result (λ _. IsSome self.new.memory) }
    {
        let Some(key) = self.parts.ring.key(index) else {
            return Err(FrameRefusal::NoKey);
        };
        self.cipher.renew(&key);
        let Ok(()) = open_frame(&self.cipher, raw, payload) else {
            return Err(FrameRefusal::BadTag);
        };
        let path = Path::Sealed {
            from,
            to_all: to.is_all(),
            key,
        };
        self.admit(from, counter, path, payload.octets())
    }

    // Opens a frame that was read, if it is for this node.
    fn open_raw(&mut self, raw: &RawFrame<'_>, payload: &mut FrameBuf) -> Result<Path, FrameRefusal>
        requires ready { Ready self.old }
        requires frame { Frame raw.now.head raw.now.body.now (raw.now.header.now ++ raw.now.body.now) }
        ensures carries { IfSome self.old.memory (λ l. Carries self.old
            (acceptance.accept l self.old.eui (Some (arrived_with network raw.now.head raw.now.header.now raw.now.body.now)))
            (accepted_on result payload.new) nothing self.new) }
        ensures after { After self.old self.new }
        ensures fits { IfOk result (λ path. FitsPath path (length payload.new)) }
        ensures running { IfOk result (λ _. IsSome self.new.memory) }
    {
        if !self.is_for_me(&raw.head) {
            return Err(FrameRefusal::NotForMe);
        }
        match raw.head {
            MacHead::Sealed {
                to,
                from,
                counter,
                index,
                ..
            } => self.open_sealed(raw, to, from, counter, index, payload),
            MacHead::Up { from, .. } => {
                hold(raw.body, payload);
                Ok(Path::Up { from })
            }
            MacHead::Down { from, .. } => {
                hold(raw.body, payload);
                Ok(Path::Down { from })
            }
        }
    }

    // Opens octets that came as a frame.
    fn open_octets(&mut self, octets: &[u8], payload: &mut FrameBuf) -> Result<Path, FrameRefusal>
        requires agrees { Agrees self.old }
        ensures halted { IfNone self.old.memory ((result ≡ Err FrameRefusal.Halted) × (self.new ≡ self.old)) }
        ensures carries { IfSome self.old.memory
            (λ l. Carries self.old (acceptance.accept l self.old.eui
            (arrived network octets.now)) (accepted_on result payload.new) nothing self.new) }
        ensures after { After self.old self.new }
        ensures fits { IfOk result (λ path. FitsPath path (length payload.new)) }
        ensures running { IfOk result (λ _. IsSome self.new.memory) }
    {
        if self.halted {
            return Err(FrameRefusal::Halted);
        }
        match read_frame(octets) {
            Err(_) => Err(FrameRefusal::Malformed),
            Ok(raw) => self.open_raw(&raw, payload),
        }
    }

    // The same, and what a refused frame may have left in the buffer is dropped: its payload may be open while its counter is refused.
    fn open_or_clear(&mut self, octets: &[u8], payload: &mut FrameBuf) -> Result<Path, FrameRefusal>
        requires agrees { Agrees self.old }
        ensures halted { IfNone self.old.memory ((result ≡ Err FrameRefusal.Halted) × (self.new ≡ self.old)) }
        ensures carries { IfSome self.old.memory
            (λ l. Carries self.old (acceptance.accept l self.old.eui
            (arrived network octets.now)) (accepted_on result payload.new) nothing self.new) }
        ensures after { After self.old self.new }
        ensures fits { IfOk result (λ path. FitsPath path (length payload.new)) }
        ensures running { IfOk result (λ _. IsSome self.new.memory) }
        ensures empty { OnErr result (payload.new ≡ []) }
    {
        let opened = self.open_octets(octets, payload);
        if let Err(reason) = opened {
            payload.clear();
            return Err(reason);
        }
        opened
    }

    /// Takes octets that came as a frame: opens them, and keeps the counter of a sealed frame as the mark of its sender. What is
    /// inside an accepted frame replaces what `payload` held; after a refusal `payload` is empty. A station that accepted a frame is
    /// not halted, so it may hear it.
    ///
    /// Halted, Malformed, NotForMe, NoKey, BadTag, Replayed, PeersFull, Store, in this order.
    pub fn accept<'a>(
        &mut self,
        octets: &[u8],
        payload: &'a mut FrameBuf,
    ) -> Result<Accepted<'a>, FrameRefusal>
        requires agrees { Agrees self.old }
        ensures halted { IfNone self.old.memory ((result ≡ Err FrameRefusal.Halted) × (self.new ≡ self.old)) }
        ensures carries { IfSome self.old.memory
            (λ l. Carries self.old (acceptance.accept l self.old.eui
            (arrived network octets.now)) result nothing self.new) }
        ensures after { After self.old self.new }
        ensures running { IfOk result (λ _. IsSome self.new.memory) }
        ensures waits { IfSome self.new.memory (λ l. WaitingFits l) }
    {
        let opened = self.open_or_clear(octets, payload);
        // What waits keeps its sizes.
        let _waiting = self.bodies.count();
        match opened {
            Ok(path) => Ok(Accepted::new(path, payload)),
            Err(reason) => Err(reason),
        }
    }
}
